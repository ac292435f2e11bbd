//! The report on what is booked at a gateway in a month.
ghost use Rattle.std.specs.Prelude.{◌≡◌, ◌↔◌, ℤ, Err, IfOk};
ghost use Rattle.std.specs.String.{string_bytes};
ghost use Rattle.desk_store.specs.Calls.{IsRead, Tells, fault_in};
ghost use Rattle.desk_engine.specs.MonthReports.{IsDownlinkReport, downlink_line, kind_at, kind_name, line_of_downlink, standing_name};
ghost use Rattle.desk_engine.specs.Listing.{or_empty};
ghost use Rattle.desk_engine.specs.Months.{IsMonth};
ghost use Rattle.desk_engine.specs.Reporting.{ForFacts, IfDownlinks, IfNoDownlinks, OnlyIfGateway, store_fault_in};
ghost use Rattle.desk_engine.specs.steps.MonthReports.{booking_columns, span_columns};

use crate::columns::kind_name;
use crate::months::{Month, month_of};
use crate::report_faults::ReportFault;
use crate::tables::{TextOf, table};
use desk_store::{Keeper, StoreFault};
use radio_core::Name;
use registry_core::{Booking, Kind, Standing};
use std::alloc::{AllocError, Global};

/// The names of the columns.
const HEADER: &str = "booking,uplink,kind,band,start_us,airtime_us,state\n";

/// Returns a gateway's bookings that start in a month, dropped ones too, as CSV: a line for each, ordered by start, then number.
///
/// A line has the number of the booking, the uplink that it answers, the kind of that uplink (`join` or `data`), the band, the start, the
/// time on air, and the state: `booked`, `sent` or `dropped`. Times are in microseconds, moments since 1970 UTC.
///
/// The month is a text YYYY-MM from 2000-01 to 2099-12, in UTC.
///
/// # Errors
///
/// Returns `Month` if the month isn't one; this is checked first. Returns `Gateway` if there is no gateway of this name, also if the text
/// hasn't the form of a name. Returns `Unavailable` with the store's error if the store fails, and with `Memory` if an allocation fails.
pub fn downlink_report<K: Keeper>(
    alloc: Global,
    keeper: &mut K,
    gateway: &str,
    month: &str,
) -> Result<Vec<u8>, ReportFault>
    ensures read { IsRead K.meaning keeper.old keeper.new (store_fault_in result) }
    ensures month { (result ≡ Err ReportFault.Month) ↔ ((from to : ℤ) → ¬ (IsMonth month.now from to)) }
    ensures known { ForFacts K.meaning keeper.old keeper.new (OnlyIfGateway gateway.now result) }
    ensures report { ForFacts K.meaning keeper.old keeper.new (IfDownlinks gateway.now month.now result) }
    ensures fault { ForFacts K.meaning keeper.old keeper.new (IfNoDownlinks gateway.now month.now result) }
    ensures no_time { ¬ (result ≡ Err ReportFault.Time) }
    ensures no_owner { ¬ (result ≡ Err ReportFault.Owner) }
    ensures no_device { ¬ (result ≡ Err ReportFault.Device) }
{
    let Some(month) = month_of(month) else {
        return Err(ReportFault::Month);
    };
    let Some(name) = Name::new(gateway.as_bytes()) else {
        return Err(ReportFault::Gateway);
    };
    if !keeper.has_gateway(&name)? {
        return Err(ReportFault::Gateway);
    }
    Ok(downlinks_text(alloc, keeper, &name, month)?.into_bytes())
}

/// Returns the header, and a line for each booking of the gateway that starts in the month.
fn downlinks_text<K: Keeper>(
    alloc: Global,
    keeper: &mut K,
    gateway: &Name,
    month: Month,
) -> Result<String, StoreFault>
    ensures read { IsRead K.meaning keeper.old keeper.new (fault_in result) }
    ensures told { Tells K.meaning keeper.old keeper.new result
        (λ kept text. IsDownlinkReport kept.facts gateway.now month.from month.to (string_bytes text)) }
{
    let bookings = keeper.bookings_between(gateway, month.from, month.to)?;
    table(alloc, keeper, HEADER, &bookings, &DownlinkLine)
}

/// The line of a booking, by its number.
struct DownlinkLine;

impl TextOf<u64> for DownlinkLine {
    ghost written = { λ _ _ kept number. line_of_downlink kept.facts number };

    fn text<K: Keeper>(
        &self,
        alloc: Global,
        keeper: &mut K,
        number: &u64,
    ) -> Result<String, StoreFault> {
        let Some(booking) = keeper.booking(*number)? else {
            return Ok(String::new(alloc));
        };
        let kind = kind_at(keeper, booking.uplink)?;
        Ok(line_of(alloc, *number, &booking, kind)?)
    }
}

/// Returns the kind of the uplink with this number, if there is one.
fn kind_at<K: Keeper>(keeper: &mut K, uplink: u64) -> Result<Option<Kind>, StoreFault>
    ensures read { IsRead K.meaning keeper.old keeper.new (fault_in result) }
    ensures told { Tells K.meaning keeper.old keeper.new result (λ kept kind. kind ≡ kind_at kept.facts uplink) }
{
    Ok(keeper.uplink(uplink)?.map(|uplink| uplink.kind))
}

/// Returns the line of a booking, by its columns.
#[tactic(auto, unfolding(crate::specs::MonthReports::downlink_line))]
fn line_of(
    alloc: Global,
    number: u64,
    booking: &Booking,
    kind: Option<Kind>,
) -> Result<String, AllocError>
    ensures { IfOk result (λ text. string_bytes text ≡ downlink_line number booking.now kind) }
{
    let rest = span_columns(alloc, booking)?;
    booking_columns(alloc, number, booking, kind, rest.as_str())
}

/// Returns the columns of a booking and of the kind of its uplink, followed by the rest of the line.
fn booking_columns(
    alloc: Global,
    number: u64,
    booking: &Booking,
    kind: Option<Kind>,
    rest: &str,
) -> Result<String, AllocError>
    ensures { IfOk result (λ text. string_bytes text ≡ booking_columns number booking.now kind rest.now) }
{
    let (uplink, kind) = (booking.uplink, kind_or_empty(kind));
    format!(in alloc; "{number},{uplink},{kind},{rest}")
}

/// Returns the name of a kind, nothing if there is none.
fn kind_or_empty(kind: Option<Kind>) -> &'static str
    ensures { result.now ≡ or_empty kind_name kind }
{
    match kind {
        Some(kind) => kind_name(kind),
        None => "",
    }
}

/// Returns the columns of the booking's time on air and of its state, with LF.
fn span_columns(alloc: Global, booking: &Booking) -> Result<String, AllocError>
    ensures { IfOk result (λ text. string_bytes text ≡ span_columns booking.now) }
{
    let (band, start, airtime) = (booking.band.get(), booking.span.start(), booking.span.len());
    let state = standing_name(booking.standing);
    format!(in alloc; "B{band},{start},{airtime},{state}\n")
}

/// Returns the name of a booking's state.
fn standing_name(standing: Standing) -> &'static str
    ensures { result.now ≡ standing_name standing }
{
    match standing {
        Standing::Booked => "booked",
        Standing::Sent => "sent",
        Standing::Dropped => "dropped",
    }
}
