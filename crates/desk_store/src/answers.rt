//! How many bookings answer an uplink, without a search of the bookings.
ghost use Rattle.std.specs.Prelude.{◌≡◌, ◌<◌, ◌≤◌, ◌^◌, ◌++◌, ◌∷◌, [], List, ℕ, length, IsOk, OnOk, OnErr, Some, not};
ghost use Rattle.indexmap.specs.IndexMap.{spare};
ghost use Rattle.registry_core.specs.declared.facts.Booking.{Booking};
ghost use Rattle.registry_core.specs.Bookings.{is_dropped};
ghost use Rattle.registry_core.specs.Numbered.{item_at, item_changed};
ghost use Rattle.registry_core.specs.State.{ended};
ghost use Rattle.desk_store.specs.steps.Answers.{AreCounted};

use crate::tally::Tally;
use registry_core::{Booking, Standing};
use std::alloc::{AllocError, Global};

/// How many bookings name each uplink, by the uplink's number, and how many of these aren't dropped.
#[derive(Drop)]
pub(crate) struct Answers {
    pub(crate) named: Tally,
    pub(crate) standing: Tally,
}

impl Answers {
    /// Returns the counts of no bookings.
    pub(crate) fn new(alloc: Global) -> Answers
        ensures { AreCounted [] result }
    {
        Answers {
            named: Tally::new(alloc),
            standing: Tally::new(alloc),
        }
    }

    /// Reserves memory for one more booking.
    pub(crate) fn make_room(&mut self) -> Result<(), AllocError>
        ensures same { (bookings : List Booking) → AreCounted bookings self.old → AreCounted bookings self.new }
        ensures named { OnOk result (1 ≤ spare self.new.named.counts) }
        ensures standing { OnOk result (1 ≤ spare self.new.standing.counts) }
    {
        self.named.make_room()?;
        self.standing.make_room()
    }

    /// Counts a booking that is added at the end of the others.
    pub(crate) fn add(&mut self, booking: &Booking) -> Result<(), AllocError>
        ensures noted { (bookings : List Booking) → length bookings < 2 ^ 63 → AreCounted bookings self.old
            → OnOk result (AreCounted (bookings ++ booking.now ∷ []) self.new) }
        ensures succeeds { 1 ≤ spare self.old.named.counts → 1 ≤ spare self.old.standing.counts → IsOk result }
    {
        let uplink = booking.uplink;
        let named = self.named.at(uplink).saturating_add(1);
        let standing = self
            .standing
            .at(uplink)
            .saturating_add(u64::from(stands(booking)));
        self.named.set(uplink, named)?;
        self.standing.set(uplink, standing)
    }

    /// Counts this booking as sent, or else as dropped.
    pub(crate) fn end(&mut self, booking: &Booking, sent: bool) -> Result<(), AllocError>
        ensures ended { (bookings : List Booking) (number : ℕ) → length bookings < 2 ^ 63 → item_at bookings number ≡ Some booking.now
            → AreCounted bookings self.old → OnOk result (AreCounted (item_changed (ended sent) bookings number) self.new) }
        ensures err { (bookings : List Booking) → AreCounted bookings self.old → OnErr result (AreCounted bookings self.new) }
    {
        let uplink = booking.uplink;
        let others = self
            .standing
            .at(uplink)
            .saturating_sub(u64::from(stands(booking)));
        self.standing
            .set(uplink, others.saturating_add(u64::from(sent)))
    }
}

/// Returns whether the booking isn't dropped.
fn stands(booking: &Booking) -> bool
    ensures { result ≡ not (is_dropped booking.now.standing) }
{
    booking.standing != Standing::Dropped
}
