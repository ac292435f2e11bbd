//! The uplinks and the bookings that answer them, and each session's next downlink counter without a search of them.
ghost use Rattle.std.specs.Prelude.{◌≡◌, ◌+◌, ◌≤◌, [], ◌∷◌, ◌++◌, ℕ, min, IsOk, OnOk, OnErr, if◌then◌else◌};
ghost use Rattle.indexmap.specs.IndexMap.{spare};
ghost use Rattle.registry_core.specs.Bookings.{next_down};
ghost use Rattle.registry_core.specs.Derived.{is_data_of};
ghost use Rattle.registry_core.specs.Numbered.{item_changed};
ghost use Rattle.registry_core.specs.State.{ended};
ghost use Rattle.desk_store.specs.steps.Tally.{tallied};

use crate::bookings::Bookings;
use crate::tally::Tally;
use crate::uplinks::Uplinks;
use registry_core::{Booking, Kind, Uplink};
use std::alloc::{AllocError, Global};
use std::marker::Model;

/// The uplinks, the bookings, and for each session how many bookings answer its data uplinks, dropped ones too. Contracts see the lists.
#[derive(Drop)]
pub(crate) struct Traffic {
    uplinks: Uplinks,
    bookings: Bookings,
    downs: Tally,
}

impl Model for Traffic {
    ghost use Rattle.desk_store.specs.steps.Traffic.{TrafficSeen};
    ghost use Rattle.desk_store.specs.steps.Traffic.{AreDowns};

    ghost Value = { TrafficSeen };

    ghost view = { λ t. record { uplinks = t.uplinks; bookings = t.bookings } };

    ghost invariant = { λ t. AreDowns t.uplinks t.bookings t.downs };
}

impl Traffic {
    pub(crate) fn new(alloc: Global) -> Traffic
        ensures uplinks { result.uplinks ≡ [] }
        ensures bookings { result.bookings ≡ [] }
    {
        Traffic {
            uplinks: Uplinks::new(alloc),
            bookings: Bookings::new(alloc),
            downs: Tally::new(alloc),
        }
    }

    pub(crate) fn uplinks(&self) -> &Uplinks
        ensures { result.now ≡ self.now.uplinks }
    {
        &self.uplinks
    }

    pub(crate) fn bookings(&self) -> &Bookings
        ensures { result.now ≡ self.now.bookings }
    {
        &self.bookings
    }

    /// Returns the session's next downlink counter: how many bookings answer its data uplinks, dropped ones too.
    pub(crate) fn next_down(&self, session: u64) -> u64
        ensures { result ≡ next_down self.now.bookings self.now.uplinks session }
    {
        self.downs.at(session)
    }

    /// Adds the uplink at the end, or changes nothing. Bookings may name its number before it is there.
    pub(crate) fn push_uplink(&mut self, uplink: Uplink) -> Result<(), AllocError>
        ensures ok { OnOk result (self.new.uplinks ≡ self.old.uplinks ++ uplink ∷ []) }
        ensures err { OnErr result (self.new.uplinks ≡ self.old.uplinks) }
        ensures bookings { self.new.bookings ≡ self.old.bookings }
    {
        self.downs.make_room()?;
        let number = self.uplinks.len() as u64 + 1;
        let naming = self.bookings.naming(number);
        self.uplinks.push(uplink)?;
        grow(&mut self.downs, &uplink, naming)?;
        Ok(())
    }

    /// Adds the booking at the end, or changes nothing.
    pub(crate) fn push_booking(&mut self, booking: Booking) -> Result<(), AllocError>
        ensures ok { OnOk result (self.new.bookings ≡ self.old.bookings ++ booking ∷ []) }
        ensures err { OnErr result (self.new.bookings ≡ self.old.bookings) }
        ensures uplinks { self.new.uplinks ≡ self.old.uplinks }
    {
        self.downs.make_room()?;
        let answered = self.uplinks.at(booking.uplink);
        self.bookings.push(booking)?;
        match answered {
            Some(uplink) => grow(&mut self.downs, &uplink, 1),
            None => Ok(()),
        }
    }

    /// Marks the booking with this number, from 1, as sent, or else as dropped; or changes nothing.
    #[tactic(auto, using(crate::proofs::Downs::booking_ended))]
    pub(crate) fn end_booking(&mut self, number: u64, sent: bool) -> Result<(), AllocError>
        ensures ok { OnOk result (self.new.bookings
            ≡ item_changed (ended sent) self.old.bookings number) }
        ensures err { OnErr result (self.new.bookings ≡ self.old.bookings) }
        ensures uplinks { self.new.uplinks ≡ self.old.uplinks }
    {
        self.bookings.end(number, sent)?;
        Ok(())
    }
}

/// Counts `more` further bookings that answer the uplink, for its session, if it is a data uplink.
fn grow(downs: &mut Tally, uplink: &Uplink, more: u64) -> Result<(), AllocError>
    ensures ok { OnOk result ((session : ℕ) → tallied downs.new session
        ≡ (if is_data_of session uplink.now
        then min (tallied downs.old session + more) u64.MAX
        else tallied downs.old session)) }
    ensures succeeds { 1 ≤ spare downs.old.counts → IsOk result }
{
    if uplink.kind != Kind::Data {
        return Ok(());
    }
    let count = downs.at(uplink.session).saturating_add(more);
    downs.set(uplink.session, count)
}
