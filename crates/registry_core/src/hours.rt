//! Whether hours are within a limit.
ghost use Rattle.std.specs.Prelude.{◌≡◌, ◌++◌, ◌∷◌, []};
ghost use Rattle.duty_core.specs.Computed.{hours_within};

use duty_core::{Span, fits, in_order, peak, sweep_fits, sweep_peak};

/// Returns whether every hour is within the limit: by a sweep if the spans are ordered by start.
#[tactic(auto, unfolding(duty_core::specs::Computed::hours_within))]
pub(crate) fn fit(spans: &[Span], most: u64) -> bool
    ensures { result ≡ hours_within spans.now most }
{
    let greatest = if in_order(spans) {
        sweep_peak(spans)
    } else {
        peak(spans)
    };
    greatest <= u128::from(most)
}

/// Returns whether every hour is within the limit with the new span: by a sweep if the spans are ordered by start.
pub(crate) fn fit_with(spans: &[Span], new: Span, most: u64) -> bool
    ensures { result ≡ hours_within (spans.now ++ new ∷ []) most }
{
    if in_order(spans) {
        return sweep_fits(spans, new, most);
    }
    fits(spans, new, most)
}
