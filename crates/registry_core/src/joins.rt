//! Decides a join request (LoRaWAN L2 1.0.4, section 6.2).
ghost use Rattle.std.specs.Prelude.{◌≡◌, ◌+◌, ◌-◌, ◌^◌, ◌<◌, ◌≤◌, length, Ok};
ghost use Rattle.radio_core.specs.DataRates.{max_length};
ghost use Rattle.registry_core.specs.steps.ByView.{HasRoom, join_copied_by, join_added_by, join_heard_by};

use crate::addresses::address_of;
use crate::answers::{Answer, Refusal};
use crate::checks::wants;
use crate::effects::Effect;
use crate::facts::{Kind, Session};
use crate::frames::{JoinRequest, join_at};
use crate::messages::{JoinVerdict, Report};
use crate::uplinks::{is_time, original, reception_added, reception_of, time_up, uplink_of};
use crate::views::{UplinkView, View};
use radio_core::{Band, band_of};

/// Decides a join request that a gateway reports.
#[tactic(auto, unfolding(crate::specs::steps::ByView::join_heard_by))]
pub(crate) fn join_heard(
    report: &Report,
    verdict: JoinVerdict,
    view: &View,
) -> Result<(Effect, Answer), Refusal>
    ensures { HasRoom view.now → result ≡ join_heard_by view.now report.now verdict }
{
    wants(is_time(report), Refusal::Time)?;
    wants(view.gateway_known, Refusal::UnknownGateway)?;
    let join = join_at(report.rate.dr, &report.octets).ok_or(Refusal::BadFrame)?;
    let band = band_of(report.rate.freq, report.rate.dr).ok_or(Refusal::OutOfBand)?;
    let device = view.device.ok_or(Refusal::UnknownDevEui)?;
    wants(device.join_eui == join.join_eui, Refusal::JoinEui)?;
    wants(verdict == JoinVerdict::Good, Refusal::MicFailed)?;
    match original(view, report) {
        Some(seen) => Ok(join_copied(report, &seen, view)),
        None => join_added(report, &join, band, view),
    }
}

/// Returns the answer of a copy: that of the booked uplink. A copy books none.
fn join_copied(report: &Report, seen: &UplinkView, view: &View) -> (Effect, Answer)
    ensures { 1 ≤ seen.now.uplink.session → view.now.base + seen.now.uplink.session - 1 < 2 ^ 32
        → Ok result ≡ join_copied_by view.now report.now seen.now }
{
    let answer = Answer::JoinSuccess {
        airtime: seen.uplink.airtime,
        band: seen.uplink.band,
        copy: true,
        addr: address_of(view.base, seen.uplink.session),
        uplink: seen.number,
    };
    (reception_added(seen, report), answer)
}

/// Decides a join that isn't a copy: it makes a session with the next address.
#[tactic(auto, unfolding(crate::specs::steps::ByView::join_added_by))]
fn join_added(
    report: &Report,
    join: &JoinRequest,
    band: Band,
    view: &View,
) -> Result<(Effect, Answer), Refusal>
    ensures { HasRoom view.now → length report.now.octets ≤ max_length report.now.rate.dr
        → result ≡ join_added_by view.now report.now join.now band }
{
    let is_above = match view.last_nonce {
        Some(last) => join.nonce > last,
        None => true,
    };
    wants(is_above, Refusal::Nonce)?;
    wants(
        view.sessions < u64::from(view.addresses),
        Refusal::Addresses,
    )?;
    let number = view.sessions.wrapping_add(1);
    let session = Session {
        device: join.dev_eui,
        nonce: join.nonce,
    };
    let effect = Effect::AddsSession {
        session,
        uplink: uplink_of(report, number, Kind::Join, u32::from(join.nonce), band),
        gateway: report.gateway,
        reception: reception_of(report),
    };
    let answer = Answer::JoinSuccess {
        airtime: time_up(report),
        band,
        copy: false,
        addr: address_of(view.base, number),
        uplink: view.uplinks.wrapping_add(1),
    };
    Ok((effect, answer))
}
