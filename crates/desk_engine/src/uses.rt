//! The use of the air by spans of time.
ghost use Rattle.std.specs.Prelude.{◌≡◌, IfOk};
ghost use Rattle.std.specs.String.{string_bytes};
ghost use Rattle.duty_core.specs.Computed.{peak_of};
ghost use Rattle.desk_engine.specs.Reports.{band_columns};
ghost use Rattle.desk_engine.specs.steps.Uses.{use_shown, use_computed};

use duty_core::{Span, in_order, peak, sweep_peak};
use std::alloc::{AllocError, Global};

/// The use of the air: how many times, for how long in all, and the greatest use of any sliding hour, in microseconds.
#[derive(Clone, Copy)]
pub(crate) struct Use {
    pub count: u64,
    pub airtime: u128,
    pub peak: u128,
}

/// Returns the sum of the lengths, in microseconds.
fn airtime_of(spans: &[Span]) -> u128
    ensures { result ≡ (use_computed spans.now).airtime }
{
    let mut airtime: u128 = 0;
    for span in spans {
        airtime += u128::from(span.len());
    }
    airtime
}

/// Returns the greatest use of any sliding hour, in microseconds: by a sweep if the spans are ordered by start.
fn peak_of(spans: &[Span]) -> u128
    ensures { result ≡ peak_of spans.now }
{
    if in_order(spans) {
        return sweep_peak(spans);
    }
    peak(spans)
}

/// Returns the use of the air by these spans.
pub(crate) fn use_of(spans: &[Span]) -> Use
    ensures { use_shown result ≡ use_computed spans.now }
{
    Use {
        count: spans.len() as u64,
        airtime: airtime_of(spans),
        peak: peak_of(spans),
    }
}

/// Returns the columns of a band: the airtime and the peak, each after a comma.
pub(crate) fn columns_of(alloc: Global, used: &Use) -> Result<String, AllocError>
    ensures { IfOk result (λ text. string_bytes text ≡ band_columns (use_shown used.now)) }
{
    format!(in alloc; ",{},{}", used.airtime, used.peak)
}
