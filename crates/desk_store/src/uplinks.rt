//! The uplinks by number. Indexes find them by session and counter, and by session and band ordered by start, without a search of the
//! others.
ghost use Rattle.std.specs.Prelude.{◌≡◌, ◌^◌, ◌<◌, [], ◌∷◌, ◌++◌, length, filter, option_and_then, option_map, pos, IfOk, OnOk, OnErr};
ghost use Rattle.std.specs.List.{filter_map};
ghost use Rattle.registry_core.specs.Derived.{data_with, last_counter};
ghost use Rattle.registry_core.specs.Listing.{last_start};
ghost use Rattle.registry_core.specs.Numbered.{item_at};
ghost use Rattle.registry_core.specs.Reports.{interval_of};
ghost use Rattle.desk_store.specs.steps.StartIndex.{is_place_in};
ghost use Rattle.desk_store.specs.steps.UplinkPlaces.{uplink_places, uplink_span_at};

use crate::listing::last_start;
use crate::lookups::item_at;
use crate::reports::Period;
use crate::start_index::{Place, StartIndex, places_of_period};
use crate::uplink_index::UplinkIndex;
use duty_core::Span;
use radio_core::Band;
use registry_core::Uplink;
use std::alloc::{AllocError, Global};
use std::marker::Model;

/// The uplinks by number, with their indexes. Contracts see the list.
#[derive(Drop)]
pub(crate) struct Uplinks {
    items: Vec<Uplink>,
    index: UplinkIndex,
    /// By the session and the number of the band.
    starts: StartIndex<(u64, u8)>,
}

impl Model for Uplinks {
    ghost use Rattle.std.specs.Prelude.{List};
    ghost use Rattle.registry_core.specs.declared.facts.Uplink.{Uplink as UplinkValue};

    ghost Value = { List UplinkValue };

    ghost use Rattle.desk_store.specs.steps.UplinkPlaces.{AreStarts};
    ghost use Rattle.desk_store.specs.steps.Uplinks.{IsIndexOf};

    ghost view = { λ u. u.items.items };

    ghost invariant = { λ u. IsIndexOf u.items.items u.index × AreStarts u.items.items u.starts };
}

impl Uplinks {
    ghost use Rattle.std.specs.Prelude.{ℕ, Some};
    ghost use Rattle.desk_store.specs.steps.Uplinks.{join_of};

    pub(crate) fn new(alloc: Global) -> Uplinks
        ensures { result ≡ [] }
    {
        Uplinks {
            items: Vec::new(alloc),
            index: UplinkIndex::new(alloc),
            starts: StartIndex::new(alloc),
        }
    }

    pub(crate) fn len(&self) -> usize
        ensures count { result ≡ length self.now }
        ensures small { result < 2 ^ 63 }
    {
        self.items.len()
    }

    /// Returns the uplink with this number, from 1.
    pub(crate) fn at(&self, number: u64) -> Option<Uplink>
        ensures { result ≡ item_at self.now number }
    {
        item_at(&self.items, number)
    }

    /// Adds the uplink at the end, or changes nothing.
    pub(crate) fn push(&mut self, uplink: Uplink) -> Result<(), AllocError>
        ensures ok { OnOk result (self.new ≡ self.old ++ uplink ∷ []) }
        ensures err { OnErr result (self.new ≡ self.old) }
    {
        self.items.reserve(1)?;
        self.index.make_room()?;
        let number = self.items.len() as u64 + 1;
        self.starts.add(
            (uplink.session, uplink.band.get()),
            place_of(&uplink, number),
        )?;
        self.index.add(&uplink, number)?;
        self.items.push(uplink)?;
        Ok(())
    }

    /// Returns the last counter of the session's data uplinks.
    pub(crate) fn last_counter(&self, session: u64) -> Option<u32>
        ensures { result ≡ last_counter self.now session }
    {
        self.index.counters.get(&session).copied()
    }

    /// Returns the greatest start of the session's uplinks, in microseconds since 1970 UTC.
    pub(crate) fn last_start(&self, session: u64) -> Option<u64>
        ensures { result ≡ last_start self.now session }
    {
        last_start(&self.items, session)
    }

    /// Returns the session's first data uplink with this counter, with its number from 1.
    pub(crate) fn data_with(&self, session: u64, counter: u32) -> Option<(u64, Uplink)>
        ensures { result ≡ data_with self.now session counter }
    {
        self.numbered(self.index.frames.get(&(session, counter)).copied())
    }

    /// Returns the session's first join uplink with this counter, with its number from 1.
    pub(crate) fn join_of(&self, session: u64, counter: u32) -> Option<(u64, Uplink)>
        ensures { result ≡ join_of self.now session counter }
    {
        self.numbered(self.index.joins.get(&(session, counter)).copied())
    }

    fn numbered(&self, number: Option<u64>) -> Option<(u64, Uplink)>
        ensures { result ≡ option_and_then
            (λ (n : ℕ). option_map (λ uplink. (n, uplink)) (item_at self.now n)) number }
    {
        let number = number?;
        Some((number, self.at(number)?))
    }

    /// Returns the places of the session's uplinks in the band that start in the period.
    pub(crate) fn places(&self, session: u64, band: Band, period: &Period) -> &[Place]
        ensures { result.now ≡ filter (is_place_in period.now.from period.now.to) (uplink_places self.now session band) }
    {
        places_of_period(self.starts.places(&(session, band.get())), period)
    }

    /// Returns the times on air of the uplinks at these places, in the places' order.
    pub(crate) fn spans_at(&self, alloc: Global, places: &[Place]) -> Result<Vec<Span>, AllocError>
        ensures { IfOk result (λ spans. spans.items ≡ filter_map (uplink_span_at self.now) places.now) }
    {
        let mut spans = Vec::new(alloc);
        for place in places {
            if let Some(uplink) = self.at(place.number) {
                spans.push(span_of(&uplink))?;
            }
        }
        Ok(spans)
    }
}

/// Returns the place of an uplink with this number.
pub(crate) fn place_of(uplink: &Uplink, number: u64) -> Place
    ensures { result ≡ record { start = pos uplink.now.start; number = number } }
{
    Place {
        start: uplink.start.get() as i64,
        number,
    }
}

/// Returns the uplink's time on air.
fn span_of(uplink: &Uplink) -> Span
    ensures { result ≡ interval_of uplink.now }
{
    Span::new(uplink.start.get() as i64, uplink.airtime).unwrap()
}
