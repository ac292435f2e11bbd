//! Look-ups of uplinks by their session, without a search of the uplinks.
ghost use Rattle.std.specs.Prelude.{◌≡◌, ◌+◌, ◌≤◌, [], ◌∷◌, ◌++◌, List, ℕ, length, max, IsOk, OnOk, if◌then◌else◌, ◌==◌, Some, nat_eq};
ghost use Rattle.std.specs.Option.{option_map_or, unwrap_or};
ghost use Rattle.indexmap.specs.IndexMap.{get, spare, IsUnchanged};
ghost use Rattle.registry_core.specs.declared.facts.Uplink.{Uplink};
ghost use Rattle.desk_store.specs.steps.Uplinks.{same_numbers, index_room, IsIndexOf};

use indexmap::IndexMap;
use registry_core::{Kind, Uplink};
use std::alloc::{AllocError, Global};

/// The number of the first join uplink and of the first data uplink with a session and a counter, and the last counter of a session's data
/// uplinks.
#[derive(Drop)]
pub(crate) struct UplinkIndex {
    pub(crate) joins: IndexMap<(u64, u32), u64>,
    pub(crate) frames: IndexMap<(u64, u32), u64>,
    pub(crate) counters: IndexMap<u64, u32>,
}

impl UplinkIndex {
    /// Returns the index of no uplinks.
    pub(crate) fn new(alloc: Global) -> UplinkIndex
        ensures { IsIndexOf [] result }
    {
        UplinkIndex {
            joins: IndexMap::new(alloc),
            frames: IndexMap::new(alloc),
            counters: IndexMap::new(alloc),
        }
    }

    /// Reserves memory for one more uplink.
    pub(crate) fn make_room(&mut self) -> Result<(), AllocError>
        ensures joins { IsUnchanged self.old.joins self.new.joins }
        ensures frames { IsUnchanged self.old.frames self.new.frames }
        ensures counters { IsUnchanged self.old.counters self.new.counters }
        ensures room { OnOk result (1 ≤ index_room self.new) }
    {
        self.joins.reserve(1)?;
        self.frames.reserve(1)?;
        self.counters.reserve(1)
    }

    /// Adds an uplink that comes at the end of the others, with this number.
    pub(crate) fn add(&mut self, uplink: &Uplink, number: u64) -> Result<(), AllocError>
        ensures noted { (uplinks : List Uplink) → number ≡ length uplinks + 1 → IsIndexOf uplinks self.old
            → OnOk result (IsIndexOf (uplinks ++ uplink.now ∷ []) self.new) }
        ensures succeeds { 1 ≤ index_room self.old → IsOk result }
    {
        match uplink.kind {
            Kind::Join => add_first(&mut self.joins, uplink.session, uplink.counter, number),
            Kind::Data => {
                add_first(&mut self.frames, uplink.session, uplink.counter, number)?;
                set_last(&mut self.counters, uplink.session, uplink.counter)
            }
        }
    }
}

/// Gives the pair the number, unless it has one.
fn add_first(
    numbers: &mut IndexMap<(u64, u32), u64>,
    session: u64,
    counter: u32,
    number: u64,
) -> Result<(), AllocError>
    ensures noted { OnOk result ((pair : ℕ × ℕ) → get same_numbers numbers.new pair
        ≡ (if same_numbers (session, counter) pair then Some (unwrap_or (get same_numbers numbers.old pair) number) else get same_numbers numbers.old pair)) }
    ensures succeeds { 1 ≤ spare numbers.old → IsOk result }
{
    let first = numbers.get(&(session, counter)).copied().unwrap_or(number);
    numbers.insert((session, counter), first)?;
    Ok(())
}

/// Gives the session the counter, unless it has a greater one.
fn set_last(counters: &mut IndexMap<u64, u32>, session: u64, counter: u32) -> Result<(), AllocError>
    ensures noted { OnOk result ((other : ℕ) → get nat_eq counters.new other
        ≡ (if session == other then Some (option_map_or (max counter) (get nat_eq counters.old other) counter) else get nat_eq counters.old other)) }
    ensures succeeds { 1 ≤ spare counters.old → IsOk result }
{
    let last = counters
        .get(&session)
        .map_or(counter, |last| counter.max(*last));
    counters.insert(session, last)?;
    Ok(())
}
