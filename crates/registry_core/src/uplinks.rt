//! What a gateway's report books: an uplink, or a copy of one.
ghost use Rattle.std.specs.Prelude.{◌≡◌, ◌≤◌, length};
ghost use Rattle.radio_core.specs.DataRates.{max_length};
ghost use Rattle.registry_core.specs.steps.ByView.{original_by};
ghost use Rattle.registry_core.specs.Uplinks.{is_time, reception_of, time_up, uplink_of, reception_added};

use crate::effects::Effect;
use crate::facts::{Kind, Reception, Uplink};
use crate::messages::Report;
use crate::views::{UplinkView, View};
use radio_core::{Band, airtime};

/// Returns whether the report's time is from the beginning of 2000 to the beginning of 2100, UTC.
pub(crate) fn is_time(report: &Report) -> bool
    ensures { result ≡ is_time report.now.time }
{
    let time = report.time.get();
    946_684_800_000_000 <= time && time <= 4_102_444_800_000_000
}

pub(crate) fn reception_of(report: &Report) -> Reception
    ensures { result ≡ reception_of report.now }
{
    Reception {
        end: report.time,
        rate: report.rate,
    }
}

/// Returns the time on air of an uplink, which has the payload's CRC, in microseconds, if the data rate can carry its octets.
pub(crate) fn time_up(report: &Report) -> u32
    ensures { length report.now.octets ≤ max_length report.now.rate.dr → result ≡ time_up report.now }
{
    let time = airtime(report.rate.dr, report.octets.get().len(), true);
    u32::try_from(time).unwrap_or(u32::MAX)
}

/// Returns the uplink of the report, if the data rate can carry its octets.
pub(crate) fn uplink_of(
    report: &Report,
    session: u64,
    kind: Kind,
    counter: u32,
    band: Band,
) -> Uplink
    ensures { length report.now.octets ≤ max_length report.now.rate.dr
        → result ≡ uplink_of report.now session kind counter band }
{
    let airtime = time_up(report);
    Uplink {
        session,
        kind,
        counter,
        octets: report.octets,
        start: report.time.minus(airtime),
        airtime,
        band,
    }
}

/// Returns what a copy adds: its gateway's reception if that gateway has none of the uplink, and nothing else.
pub(crate) fn reception_added(seen: &UplinkView, report: &Report) -> Effect
    ensures { result ≡ reception_added seen.now.number seen.now.at_gateway report.now }
{
    if seen.at_gateway.is_some() {
        return Effect::Nothing;
    }
    Effect::AddsReception {
        uplink: seen.number,
        gateway: report.gateway,
        reception: reception_of(report),
    }
}

/// Returns the uplink that the report's frame copies.
pub(crate) fn original(view: &View, report: &Report) -> Option<UplinkView>
    ensures { result ≡ original_by view.now.uplink report.now.octets }
{
    let seen = view.uplink?;
    if seen.uplink.octets == report.octets {
        Some(seen)
    } else {
        None
    }
}
