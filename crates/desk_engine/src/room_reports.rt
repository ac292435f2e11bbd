//! The report on how much a gateway may still send from a time on.
ghost use Rattle.std.specs.Prelude.{◌≡◌, ◌↔◌, ◌-ℤ◌, ℕ, List, Err, IfOk, IfSome, IsTrue, None, Some, pos};
ghost use Rattle.std.specs.String.{string_bytes};
ghost use Rattle.duty_core.specs.Near.{greatest_length};
ghost use Rattle.duty_core.specs.Range.{IsStart};
ghost use Rattle.duty_core.specs.Room.{IsRoom};
ghost use Rattle.duty_core.specs.Use.{hour};
ghost use Rattle.registry_core.specs.Bookings.{limit_standing};
ghost use Rattle.registry_core.specs.State.{State};
ghost use Rattle.registry_core.specs.Uplinks.{is_time};
ghost use Rattle.desk_store.specs.Calls.{IsRead, Tells, fault_in};
ghost use Rattle.desk_engine.specs.Reporting.{ForFacts, IfNoRoomReport, IfRoomReport, OnlyIfGateway, store_fault_in};
ghost use Rattle.desk_engine.specs.Rooms.{IsRoomReport, room_line, time_in};
ghost use Rattle.desk_engine.specs.steps.Rooms.{AreNear, IsBandLine, KeepsAir, all_spans, spans_in};

use crate::report_faults::ReportFault;
use desk_store::{Keeper, StoreFault};
use desk_wire::decimal_of;
use duty_core::laws::{computed_forms_tell, near_ones_tell, order_is_ignored, shorter_has_room};
use duty_core::{Span, room, use_at};
use radio_core::{BANDS, Band, Name};
use registry_core::NearBooking;
use registry_core::laws::{downlinks_are_short, rules_are_kept};
use std::alloc::{AllocError, Global};

/// The names of the columns.
const HEADER: &str = "band,limit_us,used_us,room_us\n";

/// The microseconds of an hour.
const HOUR: i64 = 3_600_000_000;

/// The greatest room that is reported, in microseconds.
const LONGEST: u32 = 3_000_000;

/// Returns how much the gateway may still send from a time on, as CSV: a line for each of B1 to B6 with its limit within any hour, the use
/// of the hour that ends at the time by the gateway's bookings in it that aren't dropped, and its room. Lengths are in microseconds.
///
/// The room is the greatest length, up to 3,000,000, of a downlink that begins at the time, overlaps no booking of the gateway in any band
/// that isn't dropped, and leaves every hour within the limit. It is 0 if no length from 1 on does.
///
/// The time is a text of one to sixteen decimal digits, in microseconds since 1970 UTC, from the beginning of 2000 to the beginning of
/// 2100.
///
/// # Errors
///
/// Returns `Time` for any other text; this is checked first. Returns `Gateway` if there is no gateway of this name, also if the text hasn't
/// the form of a name. Returns `Unavailable` with the store's error if the store fails, and with `Memory` if an allocation fails.
pub fn room_report<K: Keeper>(
    alloc: Global,
    keeper: &mut K,
    gateway: &str,
    time: &str,
) -> Result<Vec<u8>, ReportFault>
    ensures read { IsRead K.meaning keeper.old keeper.new (store_fault_in result) }
    ensures time { (result ≡ Err ReportFault.Time) ↔ (time_in time.now ≡ None) }
    ensures known { ForFacts K.meaning keeper.old keeper.new (OnlyIfGateway gateway.now result) }
    ensures report { IfRoomReport K.meaning keeper.old keeper.new gateway.now time.now result }
    ensures fault { ForFacts K.meaning keeper.old keeper.new (IfNoRoomReport gateway.now time.now result) }
    ensures no_month { ¬ (result ≡ Err ReportFault.Month) }
    ensures no_owner { ¬ (result ≡ Err ReportFault.Owner) }
    ensures no_device { ¬ (result ≡ Err ReportFault.Device) }
{
    downlinks_are_short();
    rules_are_kept();
    let Some(start) = time_of(time) else {
        return Err(ReportFault::Time);
    };
    let Some(name) = Name::new(gateway.as_bytes()) else {
        return Err(ReportFault::Gateway);
    };
    if !keeper.has_gateway(&name)? {
        return Err(ReportFault::Gateway);
    }
    Ok(rooms_text(alloc, keeper, &name, start)?)
}

/// Returns the time that a text writes, in microseconds since 1970 UTC.
#[tactic(auto, unfolding(crate::specs::Rooms::time_in))]
fn time_of(text: &str) -> Option<u64>
    ensures value { result ≡ time_in text.now }
    ensures range { IfSome result (λ time. IsTrue (is_time time)) }
{
    let time = decimal_of(text.as_bytes())?;
    if is_time(time) { Some(time) } else { None }
}

/// Returns whether the time is from the beginning of 2000 to the beginning of 2100, UTC.
fn is_time(time: u64) -> bool
    ensures { result ≡ is_time time }
{
    946_684_800_000_000 <= time && time <= 4_102_444_800_000_000
}

/// Returns the header, and a line for each band.
fn rooms_text<K: Keeper>(
    alloc: Global,
    keeper: &mut K,
    gateway: &Name,
    time: u64,
) -> Result<Vec<u8>, StoreFault>
    requires { IsTrue (is_time time) }
    ensures read { IsRead K.meaning keeper.old keeper.new (fault_in result) }
    ensures told { Tells K.meaning keeper.old keeper.new result (λ kept text. KeepsAir kept.facts → IsRoomReport kept.facts gateway.now time text.items) }
{
    computed_forms_tell();
    shorter_has_room();
    let near = keeper.near(gateway, time)?;
    let all = spans_of(alloc, &near)?;
    let mut text = Vec::new(alloc);
    text.extend_from_slice(HEADER.as_bytes())?;
    for band in BANDS {
        let limit = keeper.limit_of(gateway, band)?;
        let line = band_line(alloc, band, limit, &near, &all, time)?;
        text.extend_from_slice(line.as_bytes())?;
    }
    Ok(text)
}

/// Returns the line of a band with this limit, by the gateway's downlinks near the time.
fn band_line(
    alloc: Global,
    band: Band,
    limit: u64,
    near: &[NearBooking],
    all: &[Span],
    time: u64,
) -> Result<String, AllocError>
    requires all { all.now ≡ all_spans near.now }
    requires time { IsTrue (is_time time) }
    ensures { IfOk result (λ line. (s : State) (gateway : List ℕ) → KeepsAir s → AreNear s gateway time near.now → limit ≡ limit_standing s gateway band
        → IsBandLine s gateway time band (string_bytes line)) }
{
    near_ones_tell();
    order_is_ignored();
    shorter_has_room();
    let of_band = spans_in(alloc, near, band)?;
    let start = start_at(time);
    let used = use_at(&of_band, hour_before(start));
    let room = room_of(all, &of_band, start, limit);
    let line = line_of(alloc, band, limit, used, room)?;
    Ok(line)
}

/// Returns the times on air of the downlinks.
fn spans_of(alloc: Global, near: &[NearBooking]) -> Result<Vec<Span>, AllocError>
    ensures { IfOk result (λ spans. spans.items ≡ all_spans near.now) }
{
    near.iter().map(|booking| booking.span).collect(alloc)
}

/// Returns the times on air of those in the band.
fn spans_in(alloc: Global, near: &[NearBooking], band: Band) -> Result<Vec<Span>, AllocError>
    ensures { IfOk result (λ spans. spans.items ≡ spans_in band near.now) }
{
    near.iter()
        .filter(|booking| booking.band == band)
        .map(|booking| booking.span)
        .collect(alloc)
}

/// Returns the time as the start of a span.
fn start_at(time: u64) -> i64
    requires { IsTrue (is_time time) }
    ensures value { result ≡ pos time }
    ensures range { IsStart result }
{
    time as i64
}

/// Returns the beginning of the hour that ends at `start`, in microseconds since 1970 UTC.
fn hour_before(start: i64) -> i64
    requires { IsStart start }
    ensures { result ≡ start -ℤ pos hour }
{
    start - HOUR
}

/// Returns the room of a band from the start on, in microseconds.
fn room_of(all: &[Span], of_band: &[Span], start: i64, limit: u64) -> u32
    requires { IsStart start }
    ensures { IsRoom all.now of_band.now start limit greatest_length result }
{
    room(all, of_band, start, limit, LONGEST)
}

/// Returns the line of a band, by its columns.
#[tactic(auto, unfolding(crate::specs::Rooms::room_line))]
fn line_of(
    alloc: Global,
    band: Band,
    limit: u64,
    used: u128,
    room: u32,
) -> Result<String, AllocError>
    ensures { IfOk result (λ text. string_bytes text ≡ room_line band limit used room) }
{
    let number = band.get();
    format!(in alloc; "B{number},{limit},{used},{room}\n")
}
