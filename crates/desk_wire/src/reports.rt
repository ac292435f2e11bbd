//! Reads a gateway's report of a frame from the members of a message.
ghost use Rattle.std.specs.Prelude.{◌≡◌};
ghost use Rattle.desk_wire.specs.steps.TreeData.{view};
ghost use Rattle.desk_wire.specs.Reports.{rate_of, report_of};

use crate::members::{data_rate_at, json_integer_at, name_at, octets_at, u32_at};
use json::Value;
use radio_core::Rate;
use registry_core::Report;

#[tactic(auto, unfolding(crate::specs::Reports::rate_of))]
fn rate_of(value: &Value<'_>) -> Option<Rate>
    ensures { result ≡ rate_of (view value.now) }
{
    let freq = u32_at(value, "Freq")?;
    let dr = data_rate_at(value, "DataRate")?;
    Some(Rate { freq, dr })
}

#[tactic(auto, unfolding(crate::specs::Reports::report_of))]
pub(crate) fn report_of(value: &Value<'_>) -> Option<Report>
    ensures { result ≡ report_of (view value.now) }
{
    let gateway = name_at(value, "Gateway")?;
    let time = json_integer_at(value, "Time")?;
    let rate = rate_of(value)?;
    let octets = octets_at(value, "PHYPayload")?;
    Some(Report {
        gateway,
        time,
        rate,
        octets,
    })
}
