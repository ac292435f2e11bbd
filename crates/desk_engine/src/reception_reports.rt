//! The report on what was received of a device in a month.
ghost use Rattle.std.specs.Prelude.{◌≡◌, ◌↔◌, ◌++◌, ℤ, Err, IfOk, OnOk, Some};
ghost use Rattle.std.specs.String.{string_bytes};
ghost use Rattle.desk_store.specs.Calls.{IsRead, Tells, fault_in};
ghost use Rattle.desk_engine.specs.MonthReports.{IsReceptionReport, line_of_reception, reception_line};
ghost use Rattle.desk_engine.specs.Months.{IsMonth};
ghost use Rattle.desk_engine.specs.Reporting.{ForFacts, IfNoReceptions, IfReceptions, OnlyIfDevice, store_fault_in};
ghost use Rattle.desk_engine.specs.steps.MonthReports.{AreReceptionsOf, air_columns, at_gateways, reception_columns, uplink_columns};

use crate::columns::kind_name;
use crate::months::{Month, month_of};
use crate::report_faults::ReportFault;
use crate::tables::{TextOf, table};
use desk_store::{Keeper, StoreFault};
use desk_wire::{eui_of_digits, octet_digits};
use radio_core::{Eui, Name};
use registry_core::{Reception, Uplink};
use std::alloc::{AllocError, Global};

/// The names of the columns.
const HEADER: &str =
    "uplink,session,kind,counter,gateway,end_us,freq_hz,dr,start_us,airtime_us,band,phy\n";

/// Returns the receptions of a device's uplinks, joins and data, that start in a month, as CSV: a line for each gateway that reported an
/// uplink, ordered by the uplink's start, then its number, then the octets of the gateway's name.
///
/// A line has the number of the uplink, its session, its kind (`join` or `data`) and its counter; the gateway, and by its report when the
/// last symbol ended, the frequency in hertz and the data rate; the uplink's start, its time on air, its band, and its octets as
/// hexadecimal digits. Times are in microseconds, moments since 1970 UTC.
///
/// The month is a text YYYY-MM from 2000-01 to 2099-12, in UTC.
///
/// # Errors
///
/// Returns `Month` if the month isn't one; this is checked first. Returns `Device` if there is no device with this DevEUI, also if the text
/// isn't 16 hexadecimal digits. Returns `Unavailable` with the store's error if the store fails, and with `Memory` if an allocation fails.
pub fn reception_report<K: Keeper>(
    alloc: Global,
    keeper: &mut K,
    dev_eui: &str,
    month: &str,
) -> Result<Vec<u8>, ReportFault>
    ensures read { IsRead K.meaning keeper.old keeper.new (store_fault_in result) }
    ensures month { (result ≡ Err ReportFault.Month) ↔ ((from to : ℤ) → ¬ (IsMonth month.now from to)) }
    ensures known { ForFacts K.meaning keeper.old keeper.new (OnlyIfDevice dev_eui.now result) }
    ensures report { ForFacts K.meaning keeper.old keeper.new (IfReceptions dev_eui.now month.now result) }
    ensures fault { ForFacts K.meaning keeper.old keeper.new (IfNoReceptions dev_eui.now month.now result) }
    ensures no_time { ¬ (result ≡ Err ReportFault.Time) }
    ensures no_owner { ¬ (result ≡ Err ReportFault.Owner) }
    ensures no_gateway { ¬ (result ≡ Err ReportFault.Gateway) }
{
    let Some(month) = month_of(month) else {
        return Err(ReportFault::Month);
    };
    let Some(device) = eui_of_digits(dev_eui) else {
        return Err(ReportFault::Device);
    };
    if keeper.device(device)?.is_none() {
        return Err(ReportFault::Device);
    }
    Ok(receptions_text(alloc, keeper, device, month)?.into_bytes())
}

/// Returns the header, and a line for each reception of the device's uplinks that start in the month.
fn receptions_text<K: Keeper>(
    alloc: Global,
    keeper: &mut K,
    device: Eui,
    month: Month,
) -> Result<String, StoreFault>
    ensures read { IsRead K.meaning keeper.old keeper.new (fault_in result) }
    ensures told { Tells K.meaning keeper.old keeper.new result
        (λ kept text. IsReceptionReport kept.facts device month.from month.to (string_bytes text)) }
{
    let uplinks = keeper.uplinks_between(device, month.from, month.to)?;
    let receptions = receptions_of(alloc, keeper, &uplinks)?;
    table(alloc, keeper, HEADER, &receptions, &ReceptionLine)
}

/// Returns the receptions of the uplinks with these numbers, in their order: of each the number of the uplink, and the gateway.
fn receptions_of<K: Keeper>(
    alloc: Global,
    keeper: &mut K,
    uplinks: &[u64],
) -> Result<Vec<(u64, Name)>, StoreFault>
    ensures read { IsRead K.meaning keeper.old keeper.new (fault_in result) }
    ensures told { Tells K.meaning keeper.old keeper.new result
        (λ kept receptions. AreReceptionsOf kept.facts uplinks.now receptions.items) }
{
    let mut receptions = Vec::new(alloc);
    for uplink in uplinks {
        let gateways = keeper.gateways_of(*uplink)?;
        put_receptions(*uplink, &gateways, &mut receptions)?;
    }
    Ok(receptions)
}

/// Adds the reception of the uplink at each of the gateways.
fn put_receptions(
    uplink: u64,
    gateways: &[Name],
    receptions: &mut Vec<(u64, Name)>,
) -> Result<(), AllocError>
    ensures { OnOk result (receptions.new.items ≡ receptions.old.items ++ at_gateways uplink gateways.now) }
{
    for gateway in gateways {
        receptions.push((uplink, *gateway))?;
    }
    Ok(())
}

/// The line of a reception, by the number of its uplink and its gateway.
struct ReceptionLine;

impl TextOf<(u64, Name)> for ReceptionLine {
    ghost written = { λ _ _ kept of. line_of_reception kept.facts of };

    fn text<K: Keeper>(
        &self,
        alloc: Global,
        keeper: &mut K,
        of: &(u64, Name),
    ) -> Result<String, StoreFault> {
        let (number, gateway) = of;
        let Some(uplink) = keeper.uplink(*number)? else {
            return Ok(String::new(alloc));
        };
        let Some(reception) = keeper.reception_at(*number, gateway)? else {
            return Ok(String::new(alloc));
        };
        Ok(line_of(alloc, *number, &uplink, gateway, &reception)?)
    }
}

/// Returns the line of a reception, by its columns.
#[tactic(auto, unfolding(crate::specs::MonthReports::reception_line))]
fn line_of(
    alloc: Global,
    number: u64,
    uplink: &Uplink,
    gateway: &Name,
    reception: &Reception,
) -> Result<String, AllocError>
    ensures { IfOk result (λ text. string_bytes text ≡ reception_line number uplink.now gateway.now reception.now) }
{
    let rest = air_columns(alloc, uplink)?;
    let rest = reception_columns(alloc, gateway, reception, rest.as_str())?;
    uplink_columns(alloc, number, uplink, rest.as_str())
}

/// Returns the columns of an uplink, followed by the rest of the line.
fn uplink_columns(
    alloc: Global,
    number: u64,
    uplink: &Uplink,
    rest: &str,
) -> Result<String, AllocError>
    ensures { IfOk result (λ text. string_bytes text ≡ uplink_columns number uplink.now rest.now) }
{
    let (session, kind, counter) = (uplink.session, kind_name(uplink.kind), uplink.counter);
    format!(in alloc; "{number},{session},{kind},{counter},{rest}")
}

/// Returns the columns of a reception at the gateway, followed by the rest of the line.
fn reception_columns(
    alloc: Global,
    gateway: &Name,
    reception: &Reception,
    rest: &str,
) -> Result<String, AllocError>
    ensures { IfOk result (λ text. string_bytes text ≡ reception_columns gateway.now reception.now rest.now) }
{
    let (gateway, end) = (gateway.as_str(), reception.end.get());
    let (freq, dr) = (reception.rate.freq, reception.rate.dr.get());
    format!(in alloc; "{gateway},{end},{freq},{dr},{rest}")
}

/// Returns the columns of the uplink's time on air and of its octets, with LF.
fn air_columns(alloc: Global, uplink: &Uplink) -> Result<String, AllocError>
    ensures { IfOk result (λ text. string_bytes text ≡ air_columns uplink.now) }
{
    let octets = octet_digits(alloc, uplink.octets.get())?;
    let (start, airtime, band) = (uplink.start.get(), uplink.airtime, uplink.band.get());
    let octets = octets.as_str();
    format!(in alloc; "{start},{airtime},B{band},{octets}\n")
}
