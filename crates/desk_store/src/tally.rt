//! Counts by number.
ghost use Rattle.std.specs.Prelude.{◌≡◌, ◌≤◌, ◌==◌, ℕ, IsOk, OnOk, OnErr, if◌then◌else◌};
ghost use Rattle.indexmap.specs.IndexMap.{spare};
ghost use Rattle.desk_store.specs.steps.Tally.{tallied};

use indexmap::IndexMap;
use std::alloc::{AllocError, Global};

/// A count for each number, 0 if none was set.
#[derive(Drop)]
pub(crate) struct Tally {
    pub(crate) counts: IndexMap<u64, u64>,
}

impl Tally {
    /// Returns a tally in which every count is 0.
    pub(crate) fn new(alloc: Global) -> Tally
        ensures { (number : ℕ) → tallied result number ≡ 0 }
    {
        Tally {
            counts: IndexMap::new(alloc),
        }
    }

    /// Returns the number's count.
    pub(crate) fn at(&self, number: u64) -> u64
        ensures { result ≡ tallied self.now number }
    {
        self.counts.get(&number).copied().unwrap_or(0)
    }

    /// Reserves memory for the count of one more number.
    pub(crate) fn make_room(&mut self) -> Result<(), AllocError>
        ensures same { (number : ℕ) → tallied self.new number ≡ tallied self.old number }
        ensures room { OnOk result (1 ≤ spare self.new.counts) }
    {
        self.counts.reserve(1)
    }

    /// Sets the number's count, or changes nothing.
    pub(crate) fn set(&mut self, number: u64, count: u64) -> Result<(), AllocError>
        ensures ok { OnOk result ((other : ℕ) → tallied self.new other ≡ (if number == other then count else tallied self.old other)) }
        ensures err { OnErr result ((other : ℕ) → tallied self.new other ≡ tallied self.old other) }
        ensures succeeds { 1 ≤ spare self.old.counts → IsOk result }
    {
        self.counts.insert(number, count)?;
        Ok(())
    }
}
