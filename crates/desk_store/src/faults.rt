//! The errors of a store.
ghost use Rattle.std.specs.Prelude.{◌≡◌};
ghost use Rattle.desk_store.specs.declared.faults.StoreFault.TheVariants.{Memory};

use std::alloc::{AllocError, AllocFailed};
use thiserror::Error;

/// Why a call of a store failed.
///
/// A call of a sound store that represents something returns only the first three. A call may return `NotADesk` if the file turns out not
/// to be a desk. Only making, opening and moving a desk return `SchemaVersion` and `Exists`. `Lists` returns only `Memory` and `Size`.
#[derive(Clone, Copy, PartialEq, Eq, Debug, Error)]
pub enum StoreFault {
    /// Out of memory: an allocation failed. Refusal 32.
    #[error("out of memory")]
    Memory,
    /// A disk error. The store is failed until it is opened again. Refusal 32.
    #[error("a disk error")]
    Disk,
    /// Out of space: there is no space for one more entry. Refusal 32.
    #[error("out of space")]
    Size,
    /// What is stored is not a desk. Refusal 33.
    #[error("not a desk")]
    NotADesk,
    /// The desk has another schema version. Refusal 34.
    #[error("another schema version")]
    SchemaVersion,
    /// A desk is to be made where there is something already. Refusal 9.
    #[error("there is something already")]
    Exists,
}

impl From<AllocError> for StoreFault {
    ghost from_gives = { λ _ e. e ≡ Memory };

    fn from(_: AllocError) -> Self {
        StoreFault::Memory
    }
}

impl<T: Drop> From<AllocFailed<T>> for StoreFault {
    ghost from_gives = { λ _ e. e ≡ Memory };

    fn from(_: AllocFailed<T>) -> Self {
        StoreFault::Memory
    }
}
