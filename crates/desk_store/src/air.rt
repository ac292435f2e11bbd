//! When a gateway is on the air, and the limit of its band, as far as a message needs them.
ghost use Rattle.std.specs.Prelude.{◌≡◌, [], map, option_and_then, IfOk, Some};
ghost use Rattle.std.specs.Option.{option_map_or};
ghost use Rattle.registry_core.specs.Bookings.{limit_standing};
ghost use Rattle.registry_core.specs.Settings.{Settings};
ghost use Rattle.registry_core.specs.Viewed.{uplink_for};
ghost use Rattle.desk_store.specs.steps.Downlinks.{IsAirAfter, span_in, spans_in, window_seen};
ghost use Rattle.desk_store.specs.Calls.{IsRead, Tells, fault_in};
ghost use Rattle.desk_store.specs.steps.Parts.{IsAirView};

use crate::faults::StoreFault;
use crate::looks::Looks;
use duty_core::Span;
use radio_core::{Band, Name, Rate, band_of};
use registry_core::{Message, NearBooking, UplinkView, Window, receive};
use std::alloc::{AllocError, Global};

/// What the facts have of a gateway's time on air, for a message that books a downlink or sets a limit. What the message doesn't need is 0
/// or empty.
#[derive(Drop)]
pub(crate) struct AirView {
    pub(crate) limit: u64,
    pub(crate) near: Vec<Span>,
    pub(crate) in_band: Vec<Span>,
}

/// Returns the air view for a message. `uplink` is the view of the uplink that the message names.
pub(crate) fn air_for<K: Looks>(
    keeper: &mut K,
    uplink: &Option<UplinkView>,
    message: &Message,
) -> Result<AirView, StoreFault>
    ensures read { IsRead K.meaning keeper.old keeper.new (fault_in result) }
    ensures told { Tells K.meaning keeper.old keeper.new result (λ kept air. (c : Settings)
        → uplink.now ≡ uplink_for c kept.facts message.now → IsAirView kept.facts message.now air) }
{
    let alloc = keeper.alloc();
    match message {
        Message::DownBook {
            gateway,
            window,
            ..
        } => air_after(keeper, gateway, window_after(uplink, *window)),
        Message::LimitSet { gateway, limit } => Ok(AirView {
            limit: 0,
            near: Vec::new(alloc),
            in_band: keeper.bookings_of(gateway, limit.band())?,
        }),
        _ => Ok(AirView {
            limit: 0,
            near: Vec::new(alloc),
            in_band: Vec::new(alloc),
        }),
    }
}

/// Returns the air view for a downlink at the gateway, at this rate, in the window that opens then, in microseconds since 1970 UTC.
fn air_after<K: Looks>(
    keeper: &mut K,
    gateway: &Name,
    opens: Option<(u64, Rate)>,
) -> Result<AirView, StoreFault>
    ensures read { IsRead K.meaning keeper.old keeper.new (fault_in result) }
    ensures told { Tells K.meaning keeper.old keeper.new result (λ kept air. IsAirAfter kept.facts gateway.now opens air) }
{
    let alloc = keeper.alloc();
    match opens {
        Some((start, rate)) => air_near(keeper, gateway, start, rate),
        None => Ok(AirView {
            limit: 0,
            near: Vec::new(alloc),
            in_band: Vec::new(alloc),
        }),
    }
}

/// Returns the air view for a downlink at the gateway, at this rate, that starts then, in microseconds since 1970 UTC.
fn air_near<K: Looks>(
    keeper: &mut K,
    gateway: &Name,
    start: u64,
    rate: Rate,
) -> Result<AirView, StoreFault>
    ensures read { IsRead K.meaning keeper.old keeper.new (fault_in result) }
    ensures told { Tells K.meaning keeper.old keeper.new result (λ kept air. IsAirAfter kept.facts gateway.now (Some (start, rate)) air) }
{
    let alloc = keeper.alloc();
    let near = keeper.near(gateway, start)?;
    let band = band_of(rate.freq, rate.dr);
    let limit = limit_of(keeper, gateway, band)?;
    Ok(AirView {
        limit,
        near: spans_of(alloc, &near)?,
        in_band: spans_in(alloc, &near, band)?,
    })
}

/// Returns the limit of the gateway's band, 0 if there is no band.
fn limit_of<K: Looks>(keeper: &mut K, gateway: &Name, band: Option<Band>) -> Result<u64, StoreFault>
    ensures read { IsRead K.meaning keeper.old keeper.new (fault_in result) }
    ensures told { Tells K.meaning keeper.old keeper.new result (λ kept limit. limit ≡ option_map_or (limit_standing kept.facts gateway.now) band 0) }
{
    match band {
        Some(band) => keeper.limit_of(gateway, band),
        None => Ok(0),
    }
}

/// Returns the times on air of the bookings, in the same order.
fn spans_of(alloc: Global, near: &[NearBooking]) -> Result<Vec<Span>, AllocError>
    ensures { IfOk result (λ spans. spans.items ≡ map (λ booking. booking.span) near.now) }
{
    near.iter().map(|booking| booking.span).collect(alloc)
}

/// Returns the times on air of those bookings that are in the band, in the same order.
fn spans_in(
    alloc: Global,
    near: &[NearBooking],
    band: Option<Band>,
) -> Result<Vec<Span>, AllocError>
    ensures { IfOk result (λ spans. spans.items ≡ option_map_or (λ band. spans_in band near.now) band []) }
{
    match band {
        Some(band) => spans_in_band(alloc, near, band),
        None => Ok(Vec::new(alloc)),
    }
}

fn spans_in_band(alloc: Global, near: &[NearBooking], band: Band) -> Result<Vec<Span>, AllocError>
    ensures { IfOk result (λ spans. spans.items ≡ spans_in band near.now) }
{
    near.iter()
        .filter_map(|booking| span_in(booking, band))
        .collect(alloc)
}

/// Returns the booking's time on air if it is in the band.
fn span_in(booking: &NearBooking, band: Band) -> Option<Span>
    ensures { result ≡ span_in band booking.now }
{
    (booking.band == band).then_some(booking.span)
}

/// Returns when the window opens after the uplink's reception at the gateway, and the rate of a downlink in it.
fn window_after(uplink: &Option<UplinkView>, window: Window) -> Option<(u64, Rate)>
    ensures { result ≡ option_and_then (window_seen window) uplink.now }
{
    match uplink {
        Some(
            UplinkView {
                uplink,
                at_gateway: Some(reception),
                ..
            },
        ) => Some(receive(uplink.kind, reception.end, reception.rate, window)),
        _ => None,
    }
}
