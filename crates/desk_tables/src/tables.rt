//! The store over tables.
ghost use Rattle.std.specs.Prelude.{◌≡◌, true, false, IfErr, MatchResult, OnOk};
ghost use Rattle.desk_store.specs.declared.faults.StoreFault.TheVariants.{Disk};
ghost use Rattle.desk_tables.specs.steps.CheckedFaults.{Fails, IsTold};

use crate::checked_faults::{checked_fault, is_disk, is_not_a_desk, reading_fault};
use crate::seen::Seen;
use desk_rows::RowFault;
use desk_store::{Counts, StoreFault};
use registry_core::Config;
use sqlite::{Alter, Connection};
use std::alloc::Global;

/// A store over the eleven tables. After a disk error it is failed for good: open the database again.
#[derive(Drop)]
pub struct Tables<S: Alter> {
    pub(crate) conn: Connection<S>,
    pub(crate) alloc: Global,
    pub(crate) config: Config,
    /// A call returned `Disk`.
    pub(crate) failed: bool,
    /// A call returned `NotADesk`.
    pub(crate) not_a_desk: bool,
    /// The medium named its own size in the last call that wrote.
    pub(crate) out_of_space: bool,
    /// The number of messages that were heard.
    pub(crate) heard: u64,
    pub(crate) counts: Counts,
    /// What was looked up since the last commit.
    pub(crate) seen: Seen,
}

impl<S: Alter> Tables<S> {
    /// Returns `Disk` if the store is failed.
    pub(crate) fn working(&self) -> Result<(), StoreFault>
        ensures { MatchResult result (λ _. self.now.failed ≡ false) (λ fault. (self.now.failed ≡ true) × (fault ≡ Disk)) }
    {
        if self.failed {
            return Err(StoreFault::Disk);
        }
        Ok(())
    }

    /// Returns the store's error for an error of the connection, and notes it.
    pub(crate) fn fail(&mut self, fault: RowFault) -> StoreFault
        ensures { Fails S.Store self.old self.new fault result }
    {
        let told = checked_fault(&mut self.conn, fault);
        self.failed = is_disk(told) || self.failed;
        self.not_a_desk = is_not_a_desk(told) || self.not_a_desk;
        told
    }

    /// Returns the result of a look-up for that of the connection, and notes its error.
    pub(crate) fn store_result<T>(&mut self, answer: Result<T, RowFault>) -> Result<T, StoreFault>
        ensures { IsTold S.Store self.old self.new answer result }
    {
        match answer {
            Ok(found) => Ok(found),
            Err(fault) => Err(self.fail(reading_fault(fault))),
        }
    }
}
