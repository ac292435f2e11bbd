//! The bookings by number. An index finds those of one gateway, ordered by start, without a search of the others.
ghost use Rattle.std.specs.Prelude.{◌≡◌, ◌^◌, ◌<◌, [], ◌∷◌, ◌++◌, length, count_by, filter, pos, not, IfOk, OnOk, OnErr};
ghost use Rattle.std.specs.List.{filter_map};
ghost use Rattle.duty_core.specs.InOrder.{IsByStart};
ghost use Rattle.registry_core.specs.Bookings.{downlinks_in, is_answered, is_dropped};
ghost use Rattle.registry_core.specs.Listing.{AreNumbersByStart, booking_start, is_booking_from};
ghost use Rattle.registry_core.specs.Near.{AreByStart, bookings_near};
ghost use Rattle.registry_core.specs.Numbered.{item_at, item_changed};
ghost use Rattle.registry_core.specs.State.{ended};
ghost use Rattle.desk_store.specs.steps.Answers.{is_naming};
ghost use Rattle.desk_store.specs.steps.BookingPlaces.{booking_places, booking_span_at, near_booking_at};
ghost use Rattle.desk_store.specs.steps.StartIndex.{is_place_in};

use crate::answers::Answers;
use crate::lookups::item_at;
use crate::reports::Period;
use crate::start_index::{Place, StartIndex, numbers_at, places_near, places_of_period};
use duty_core::Span;
use radio_core::{Band, Name};
use registry_core::{Booking, NearBooking, Standing};
use std::alloc::{AllocError, Global};
use std::marker::Model;

/// The bookings by number, with their index. Contracts see the list.
#[derive(Drop)]
pub(crate) struct Bookings {
    items: Vec<Booking>,
    starts: StartIndex<Name>,
    answers: Answers,
}

impl Model for Bookings {
    ghost use Rattle.std.specs.Prelude.{List};
    ghost use Rattle.registry_core.specs.declared.facts.Booking.{Booking as BookingValue};

    ghost Value = { List BookingValue };

    ghost use Rattle.desk_store.specs.steps.Answers.{AreCounted};
    ghost use Rattle.desk_store.specs.steps.BookingPlaces.{IsBookingIndex};

    ghost view = { λ b. b.items.items };

    ghost invariant = { λ b. IsBookingIndex b.items.items b.starts × AreCounted b.items.items b.answers };
}

impl Bookings {
    pub(crate) fn new(alloc: Global) -> Bookings
        ensures { result ≡ [] }
    {
        Bookings {
            items: Vec::new(alloc),
            starts: StartIndex::new(alloc),
            answers: Answers::new(alloc),
        }
    }

    pub(crate) fn len(&self) -> usize
        ensures count { result ≡ length self.now }
        ensures small { result < 2 ^ 63 }
    {
        self.items.len()
    }

    /// Returns the booking with this number, from 1.
    pub(crate) fn at(&self, number: u64) -> Option<Booking>
        ensures { result ≡ item_at self.now number }
    {
        item_at(&self.items, number)
    }

    /// Adds the booking at the end, or changes nothing.
    pub(crate) fn push(&mut self, booking: Booking) -> Result<(), AllocError>
        ensures ok { OnOk result (self.new ≡ self.old ++ booking ∷ []) }
        ensures err { OnErr result (self.new ≡ self.old) }
        ensures few { length self.old < 2 ^ 63 }
    {
        self.items.reserve(1)?;
        self.answers.make_room()?;
        let number = self.items.len() as u64 + 1;
        self.starts
            .add(booking.gateway, place_of(&booking, number))?;
        self.answers.add(&booking)?;
        self.items.push(booking)?;
        Ok(())
    }

    /// Marks the booking with this number, from 1, as sent, or else as dropped; or changes nothing.
    pub(crate) fn end(&mut self, number: u64, sent: bool) -> Result<(), AllocError>
        ensures ok { OnOk result (self.new ≡ item_changed (ended sent) self.old number) }
        ensures err { OnErr result (self.new ≡ self.old) }
    {
        if let Some(booking) = item_at(&self.items, number) {
            self.answers.end(&booking, sent)?;
            end_in(&mut self.items, number, sent);
        }
        Ok(())
    }

    /// Returns how many bookings name the uplink with this number, dropped ones too.
    pub(crate) fn naming(&self, uplink: u64) -> u64
        ensures count { result ≡ count_by (is_naming uplink) self.now }
        ensures few { length self.now < 2 ^ 63 }
    {
        self.answers.named.at(uplink)
    }

    /// Returns whether a booking that isn't dropped answers the uplink with this number.
    #[tactic(auto, using(crate::proofs::Counted::any_counted))]
    pub(crate) fn is_answered(&self, uplink: u64) -> bool
        ensures { result ≡ is_answered self.now uplink }
    {
        self.answers.standing.at(uplink) > 0
    }

    /// Returns the gateway's bookings that aren't dropped and begin near the start, ordered by start.
    pub(crate) fn near(
        &self,
        alloc: Global,
        gateway: &Name,
        start: u64,
    ) -> Result<Vec<NearBooking>, AllocError>
        ensures { IfOk result (λ near. AreByStart (bookings_near self.now gateway.now (pos start)) near.items) }
    {
        near_at(
            alloc,
            &self.items,
            places_near(self.starts.places(gateway), start),
        )
    }

    /// Returns the times on air of the gateway's bookings in the band that aren't dropped, ordered by start.
    pub(crate) fn of_band(
        &self,
        alloc: Global,
        gateway: &Name,
        band: Band,
    ) -> Result<Vec<Span>, AllocError>
        ensures { IfOk result (λ spans. IsByStart (downlinks_in self.now gateway.now band) spans.items) }
    {
        spans_at(alloc, &self.items, self.starts.places(gateway), band)
    }

    /// Returns the numbers of the gateway's bookings that start in the period, dropped ones too. They are ordered by start, and those that
    /// start together by number.
    #[tactic(auto, using(crate::proofs::NumbersByStart::bookings_listed))]
    pub(crate) fn between(
        &self,
        alloc: Global,
        gateway: &Name,
        period: &Period,
    ) -> Result<Vec<u64>, AllocError>
        ensures { IfOk result (λ numbers. AreNumbersByStart booking_start
            (is_booking_from gateway.now period.now.from period.now.to) self.now numbers.items) }
    {
        numbers_at(alloc, self.places(gateway, period))
    }

    /// Returns the places of those bookings.
    fn places(&self, gateway: &Name, period: &Period) -> &[Place]
        ensures { result.now ≡ filter (is_place_in period.now.from period.now.to) (booking_places self.now gateway.now) }
    {
        places_of_period(self.starts.places(gateway), period)
    }
}

/// Returns the place of a booking with this number.
fn place_of(booking: &Booking, number: u64) -> Place
    ensures { result ≡ record { start = booking.now.span.start; number = number } }
{
    Place {
        start: booking.span.start(),
        number,
    }
}

/// Marks the booking with this number, from 1, as sent, or else as dropped.
fn end_in(bookings: &mut [Booking], number: u64, sent: bool)
    ensures { bookings.new ≡ item_changed (ended sent) bookings.old number }
{
    if 1 <= number && number <= bookings.len() as u64 {
        bookings[number as usize - 1].standing = if sent {
            Standing::Sent
        } else {
            Standing::Dropped
        };
    }
}

/// Returns whether the booking isn't dropped.
fn is_on_air(booking: &Booking) -> bool
    ensures { result ≡ not (is_dropped booking.now.standing) }
{
    booking.standing != Standing::Dropped
}

/// Returns the band and the time on air of the booking at this place, if it isn't dropped.
fn near_booking_at(bookings: &[Booking], place: &Place) -> Option<NearBooking>
    ensures { result ≡ near_booking_at bookings.now place.now }
{
    let booking = item_at(bookings, place.number)?;
    is_on_air(&booking).then_some(NearBooking {
        band: booking.band,
        span: booking.span,
    })
}

/// Returns the bookings at these places that aren't dropped, in the places' order.
fn near_at(
    alloc: Global,
    bookings: &[Booking],
    places: &[Place],
) -> Result<Vec<NearBooking>, AllocError>
    ensures { IfOk result (λ near. near.items ≡ filter_map (near_booking_at bookings.now) places.now) }
{
    places
        .iter()
        .filter_map(|place| near_booking_at(bookings, place))
        .collect(alloc)
}

/// Returns the time on air of the booking at this place, if it isn't dropped and is in the band.
fn booking_span_at(bookings: &[Booking], place: &Place, band: Band) -> Option<Span>
    ensures { result ≡ booking_span_at bookings.now band place.now }
{
    let booking = item_at(bookings, place.number)?;
    (is_on_air(&booking) && booking.band == band).then_some(booking.span)
}

/// Returns the times on air of the bookings at these places that are in the band and aren't dropped, in the places' order.
fn spans_at(
    alloc: Global,
    bookings: &[Booking],
    places: &[Place],
    band: Band,
) -> Result<Vec<Span>, AllocError>
    ensures { IfOk result (λ spans. spans.items ≡ filter_map (booking_span_at bookings.now band) places.now) }
{
    places
        .iter()
        .filter_map(|place| booking_span_at(bookings, place, band))
        .collect(alloc)
}
