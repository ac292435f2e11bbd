//! What an error of the connection is to the store.
ghost use Rattle.std.specs.Prelude.{◌≡◌, Some};
ghost use Rattle.sqlite.specs.Held.{state};
ghost use Rattle.desk_store.specs.Calls.{is_disk, is_not_a_desk};
ghost use Rattle.desk_tables.specs.steps.CheckedFaults.{IsCheckedFault, is_size, reading_fault};

use crate::faults::store_fault;
use desk_rows::RowFault;
use desk_store::StoreFault;
use sqlite::{Alter, Connection};

/// Returns the store's error. Whatever the error was, it may have closed the connection: if a statement can't be prepared now, it is
/// `Disk`.
pub(crate) fn checked_fault<S: Alter>(conn: &mut Connection<S>, fault: RowFault) -> StoreFault
    ensures { IsCheckedFault (state S.Store conn.old) (state S.Store conn.new) fault result }
{
    match conn.prepare("SELECT 1") {
        Ok(_) => store_fault(fault),
        Err(_) => StoreFault::Disk,
    }
}

/// A look-up writes nothing, so `Size` is that of a value for which there was no memory.
pub(crate) fn reading_fault(fault: RowFault) -> RowFault
    ensures { result ≡ reading_fault fault }
{
    match fault {
        RowFault::Size => RowFault::Memory,
        fault => fault,
    }
}

pub(crate) fn is_disk(fault: StoreFault) -> bool
    ensures { result ≡ is_disk (Some fault) }
{
    matches!(fault, StoreFault::Disk)
}

pub(crate) fn is_not_a_desk(fault: StoreFault) -> bool
    ensures { result ≡ is_not_a_desk (Some fault) }
{
    matches!(fault, StoreFault::NotADesk)
}

pub(crate) fn is_size(fault: StoreFault) -> bool
    ensures { result ≡ is_size fault }
{
    matches!(fault, StoreFault::Size)
}
