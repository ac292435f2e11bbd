//! Decides a data frame (LoRaWAN L2 1.0.4, section 4.3).
ghost use Rattle.std.specs.Prelude.{◌≡◌, ◌≤◌, Ok, length};
ghost use Rattle.radio_core.specs.Counters.{is_candidate};
ghost use Rattle.radio_core.specs.DataRates.{max_length};
ghost use Rattle.registry_core.specs.steps.ByView.{HasRoom, data_copied_by, data_added_by, frame_heard_by};
ghost use Rattle.registry_core.specs.Derived.{is_below};

use crate::answers::{Answer, Refusal};
use crate::checks::wants;
use crate::effects::Effect;
use crate::facts::Kind;
use crate::frames::{DataFrame, data_at};
use crate::messages::Report;
use crate::uplinks::{is_time, original, reception_added, reception_of, time_up, uplink_of};
use crate::views::{SessionView, UplinkView, View};
use radio_core::{Band, band_of, rebuild};

/// Decides a data frame that a gateway reports.
#[tactic(auto, unfolding(crate::specs::steps::ByView::frame_heard_by))]
pub(crate) fn frame_heard(
    report: &Report,
    verdict: Option<u32>,
    view: &View,
) -> Result<(Effect, Answer), Refusal>
    ensures { HasRoom view.now → result ≡ frame_heard_by view.now report.now verdict }
{
    wants(is_time(report), Refusal::Time)?;
    wants(view.gateway_known, Refusal::UnknownGateway)?;
    let frame = data_at(report.rate.dr, &report.octets).ok_or(Refusal::BadFrame)?;
    let band = band_of(report.rate.freq, report.rate.dr).ok_or(Refusal::OutOfBand)?;
    let session = view.session.ok_or(Refusal::UnknownDevAddr)?;
    let counter = verdict.ok_or(Refusal::MicFailed)?;
    match original(view, report) {
        Some(seen) => Ok(data_copied(report, &session, counter, &seen)),
        None => data_added(report, &frame, &session, counter, band, view),
    }
}

/// Returns the answer of a copy: that of the booked uplink. A copy books none.
fn data_copied(
    report: &Report,
    session: &SessionView,
    counter: u32,
    seen: &UplinkView,
) -> (Effect, Answer)
    ensures { Ok result ≡ data_copied_by report.now session.now counter seen.now }
{
    let answer = Answer::FrameSuccess {
        airtime: seen.uplink.airtime,
        band: seen.uplink.band,
        copy: true,
        counter,
        dev_eui: session.device,
        uplink: seen.number,
    };
    (reception_added(seen, report), answer)
}

/// Decides a data frame that isn't a copy: its counter has to be the one that follows.
#[tactic(auto, unfolding(crate::specs::steps::ByView::data_added_by))]
fn data_added(
    report: &Report,
    frame: &DataFrame,
    session: &SessionView,
    counter: u32,
    band: Band,
    view: &View,
) -> Result<(Effect, Answer), Refusal>
    ensures { HasRoom view.now → length report.now.octets ≤ max_length report.now.rate.dr
        → result ≡ data_added_by view.now report.now frame.now session.now counter band }
{
    wants(!session.below_floor, Refusal::SessionEnded)?;
    wants(view.uplink.is_none(), Refusal::Replayed)?;
    wants(
        !is_counter_below(counter, session.last_counter),
        Refusal::Late,
    )?;
    let follows = is_candidate(session.last_counter, frame.fcnt, counter);
    wants(follows, Refusal::Gap)?;
    let effect = Effect::AddsUplink {
        uplink: uplink_of(report, session.number, Kind::Data, counter, band),
        gateway: report.gateway,
        reception: reception_of(report),
    };
    let answer = Answer::FrameSuccess {
        airtime: time_up(report),
        band,
        copy: false,
        counter,
        dev_eui: session.device,
        uplink: view.uplinks.wrapping_add(1),
    };
    Ok((effect, answer))
}

/// Returns whether the counter is below the last.
fn is_counter_below(counter: u32, last: Option<u32>) -> bool
    ensures { result ≡ is_below counter last }
{
    match last {
        Some(last) => counter < last,
        None => false,
    }
}

/// Returns whether the counter is the one that the frame has.
fn is_candidate(last: Option<u32>, fcnt: u16, counter: u32) -> bool
    ensures { result ≡ is_candidate last fcnt counter }
{
    rebuild(last, fcnt) == Some(counter)
}
