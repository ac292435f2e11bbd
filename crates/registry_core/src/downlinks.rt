//! Decides a downlink, and the end of a booking (LoRaWAN L2 1.0.4, Class A).
ghost use Rattle.std.specs.Prelude.{◌≡◌, ◌^◌, ◌<◌, ◌≤◌, length};
ghost use Rattle.radio_core.specs.DataRates.{max_length};
ghost use Rattle.registry_core.specs.steps.ByView.{HasRoom};
ghost use Rattle.registry_core.specs.Downlinks.{on_air};
ghost use Rattle.registry_core.specs.steps.DownlinksByView.{down_added_by, down_book_by, down_done_by};
ghost use Rattle.registry_core.specs.steps.Checked.{IsChecked};
ghost use Rattle.registry_core.specs.declared.messages.Message.TheVariants.{DownBook};

use crate::addresses::address_of;
use crate::answers::{Answer, Refusal};
use crate::checks::wants;
use crate::effects::Effect;
use crate::facts::{Booking, Standing};
use crate::frames::downlink_at;
use crate::hours::fit_with;
use crate::json_integers::JsonInteger;
use crate::views::View;
use crate::windows::{Window, receive};
use duty_core::laws::{computed_forms_tell, near_ones_test};
use duty_core::{Span, clear};
use radio_core::laws::airtime_is_bounded;
use radio_core::{Band, Name, Octets, Rate, airtime, band_of};

/// Decides whether a gateway is to answer an uplink that it received, in a receive window.
pub(crate) fn down_book(
    uplink: JsonInteger,
    gateway: &Name,
    window: Window,
    octets: &Octets,
    view: &View,
) -> Result<(Effect, Answer), Refusal>
    ensures { IsChecked (DownBook uplink gateway.now window octets.now) view.now result }
{
    // No downlink is longer than the distance that makes one near, and no hour is above its limit: so the near ones suffice.
    airtime_is_bounded();
    computed_forms_tell();
    near_ones_test();
    down_booked(gateway, window, octets, view)
}

/// Checks a downlink by the downlinks near it.
#[tactic(auto, unfolding(crate::specs::steps::DownlinksByView::down_book_by))]
fn down_booked(
    gateway: &Name,
    window: Window,
    octets: &Octets,
    view: &View,
) -> Result<(Effect, Answer), Refusal>
    ensures { HasRoom view.now → result ≡ down_book_by view.now gateway.now window octets.now }
{
    wants(view.gateway_known, Refusal::UnknownGateway)?;
    let seen = view.uplink.ok_or(Refusal::NoUplink)?;
    let reception = seen.at_gateway.ok_or(Refusal::NoUplink)?;
    let kind = seen.uplink.kind;
    let (start, rate) = receive(kind, reception.end, reception.rate, window);
    let down = downlink_at(kind, rate.dr, octets).ok_or(Refusal::BadFrame)?;
    let addr = address_of(view.base, seen.uplink.session);
    wants(down.goes_to(addr), Refusal::UnknownDevAddr)?;
    wants(!view.answered, Refusal::Answered)?;
    wants(down.counts_as(view.next_down), Refusal::DownCounter)?;
    let band = band_of(rate.freq, rate.dr).ok_or(Refusal::OutOfBand)?;
    let span = on_air(start, rate, octets);
    down_added(seen.number, gateway, band, start, span, view)
}

/// Checks that the downlink overlaps none of the gateway's others, and that with it no hour of its band is above the limit.
#[tactic(auto, unfolding(crate::specs::steps::DownlinksByView::down_added_by))]
fn down_added(
    uplink: u64,
    gateway: &Name,
    band: Band,
    start: u64,
    span: Span,
    view: &View,
) -> Result<(Effect, Answer), Refusal>
    ensures { HasRoom view.now → result ≡ down_added_by view.now uplink gateway.now band start span }
{
    wants(clear(&view.near, span), Refusal::Collision)?;
    wants(fit_with(&view.in_band, span, view.limit), Refusal::Duty)?;
    let booking = Booking {
        uplink,
        gateway: *gateway,
        band,
        span,
        standing: Standing::Booked,
    };
    let answer = Answer::DownSuccess {
        airtime: span.len(),
        band,
        booking: view.bookings.wrapping_add(1),
        start,
    };
    Ok((Effect::AddsBooking { booking }, answer))
}

/// Returns the time on air of a downlink, if the data rate can carry this many octets. LoRa's have no payload CRC.
fn on_air(start: u64, rate: Rate, octets: &Octets) -> Span
    requires { start < 2 ^ 62 }
    ensures { length octets.now ≤ max_length rate.dr → result ≡ on_air start rate octets.now }
{
    let time = airtime(rate.dr, octets.get().len(), false);
    Span::new(start as i64, u32::try_from(time).unwrap_or(u32::MAX)).unwrap()
}

/// Decides a message that ends a booking: its downlink was sent, or else the booking is dropped.
#[tactic(auto, unfolding(crate::specs::steps::DownlinksByView::down_done_by))]
pub(crate) fn down_done(
    booking: JsonInteger,
    sent: bool,
    view: &View,
) -> Result<(Effect, Answer), Refusal>
    ensures { result ≡ down_done_by view.now booking sent }
{
    let standing = view.booking.ok_or(Refusal::NoBooking)?;
    wants(standing == Standing::Booked, Refusal::Done)?;
    let effect = Effect::EndsBooking {
        booking: booking.get(),
        sent,
    };
    Ok((effect, Answer::Success))
}
