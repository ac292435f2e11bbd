//! What reports need of the facts: an owner's devices by DevEUI, and the times on air of a device's uplinks.
ghost use Rattle.std.specs.Prelude.{IfOk, IsPermutation};
ghost use Rattle.duty_core.specs.InOrder.{IsByStart};
ghost use Rattle.registry_core.specs.Reports.{in_band, uplinks_from, IsNextDevice};
ghost use Rattle.desk_store.specs.Facts.{facts_of};
ghost use Rattle.desk_store.specs.steps.UplinkPlaces.{places_from};

use crate::facts::Facts;
use crate::sessions::Sessions;
use crate::start_index::Place;
use crate::uplinks::Uplinks;
use duty_core::Span;
use radio_core::{Band, Eui, Name};
use std::alloc::{AllocError, Global};

impl Facts {
    /// Returns the least DevEUI of the owner's devices, of those above `after` if that is given.
    pub(crate) fn next_device(&self, owner: &Name, after: Option<Eui>) -> Option<Eui>
        ensures { IsNextDevice (facts_of self.now) owner.now after result }
    {
        self.devices.next_of(owner, after)
    }
}

/// The time from `from` on and before `to`, in microseconds since 1970 UTC.
#[derive(Clone, Copy)]
pub(crate) struct Period {
    pub(crate) from: i64,
    pub(crate) to: i64,
}

/// Returns the times on air of the device's uplinks in the band that start in the period, ordered by start.
pub(crate) fn uplinks_in(
    alloc: Global,
    uplinks: &Uplinks,
    sessions: &Sessions,
    device: Eui,
    band: Band,
    period: &Period,
) -> Result<Vec<Span>, AllocError>
    ensures { IfOk result (λ spans. IsByStart (in_band band
        (uplinks_from uplinks.now sessions.now.items device period.now.from period.now.to)) spans.items) }
{
    let mut places = places_in(alloc, uplinks, sessions, device, band, period)?;
    places.sort_unstable();
    uplinks.spans_at(alloc, &places)
}

/// Returns the places of those uplinks, session by session.
fn places_in(
    alloc: Global,
    uplinks: &Uplinks,
    sessions: &Sessions,
    device: Eui,
    band: Band,
    period: &Period,
) -> Result<Vec<Place>, AllocError>
    ensures { IfOk result (λ places. IsPermutation
        (places_from uplinks.now sessions.now.items device band period.now.from period.now.to) places.items) }
{
    let mut places = Vec::new(alloc);
    let mut number = sessions.latest(device);
    while number > 0 {
        places.extend_from_slice(uplinks.places(number, band, period))?;
        number = sessions.before(number);
    }
    Ok(places)
}
