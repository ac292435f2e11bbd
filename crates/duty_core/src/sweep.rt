//! The peak, and whether one more span fits, by a sweep through a list that is ordered by start, in linear time.
//!
//! Let the height of the starts at x be the sum of the distances to x of the starts before x, and that of the ends likewise. Their
//! difference is the number of microseconds of the spans before x. So for every list, overlapping spans too,
//!
//!     use(t) = starts(t + hour) - ends(t + hour) - (starts(t) - ends(t))
//!
//! If neither starts nor ends fall from one span to the next, each of these four heights follows from a mark that only moves forward
//! (`marks`). Then the hours that begin at a start come in order, and so do those that end at an end: a window of four marks slides through
//! the list for each kind. If some end falls, the direct (quadratic) algorithm computes the result.
//!
//! No clause states a time. The test `sweeps_a_million` shows that the sweep is what runs: neither the direct algorithm nor marks that
//! begin anew for each hour would end within the time of a test.

ghost use Rattle.std.specs.Prelude.{◌≡◌, ◌↔◌, ◌^◌, ◌∷◌, ◌++◌, [], max, pos, ◌+ℤ◌, ◌-ℤ◌, ◌<ℤ◌, IsTrue};
ghost use Rattle.duty_core.specs.Use.{end_of, hour, use_of, IsPeak, EveryHourWithin};
ghost use Rattle.duty_core.specs.Computed.{edge_hours, greatest_use, peak_of, hours_within};
ghost use Rattle.duty_core.specs.InOrder.{StartsAscend};
ghost use Rattle.duty_core.specs.declared.marks.Edge.TheVariants.{Start, End};
ghost use Rattle.duty_core.specs.steps.Marks.{IsRising};
ghost use Rattle.duty_core.specs.steps.Windows.{IsWindow};

use crate::hours::{HOUR, edges_fit, fits, hour_to_end, in_hour, peak};
use crate::interval::Span;
use crate::marks::{Edge, Mark, UNPASSED, climb, rises};

/// Returns whether no start is less than the one before it.
pub fn in_order(spans: &[Span]) -> bool
    ensures { IsTrue result ↔ StartsAscend spans.now }
{
    rises(spans, Edge::Start)
}

/// Returns the greatest use of any hour, in microseconds; 0 if there are no spans. The spans have to be ordered by start. Its time is
/// linear in their number, unless a span ends before one that begins earlier.
pub fn sweep_peak(spans: &[Span]) -> u128
    requires { StartsAscend spans.now }
    ensures peak { IsPeak spans.now result }
    ensures exact { result ≡ peak_of spans.now }
{
    swept_peak(spans)
}

/// Returns the peak: by the sweep if the ends don't fall either.
#[tactic(auto, using(crate::proofs::Sliding::with_none), unfolding(crate::specs::Computed::peak_of))]
fn swept_peak(spans: &[Span]) -> u128
    requires { StartsAscend spans.now }
    ensures { result ≡ peak_of spans.now }
{
    if rises(spans, Edge::End) {
        greatest(spans, Span::empty())
    } else {
        peak(spans)
    }
}

/// Returns whether the use of every hour is at most `most` microseconds, with the new span too. The spans have to be ordered by start; the
/// new one may begin anywhere, and its own two hours are summed separately. Its time is linear in the number of spans, unless one ends
/// before one that begins earlier.
#[tactic(auto, using(crate::proofs::Edges::hours_within_tells))]
pub fn sweep_fits(spans: &[Span], new: Span, most: u64) -> bool
    requires { StartsAscend spans.now }
    ensures hours { IsTrue result ↔ EveryHourWithin (spans.now ++ new ∷ []) most }
    ensures exact { result ≡ hours_within (spans.now ++ new ∷ []) most }
{
    swept_fits(spans, new, most)
}

/// Returns whether the new span fits: by the sweep if the ends don't fall either.
#[tactic(auto, using(crate::proofs::Sliding::within_both))]
fn swept_fits(spans: &[Span], new: Span, most: u64) -> bool
    requires { StartsAscend spans.now }
    ensures { result ≡ hours_within (spans.now ++ new ∷ []) most }
{
    if rises(spans, Edge::End) {
        edges_fit(spans, new, new, most) && greatest(spans, new) <= u128::from(most)
    } else {
        fits(spans, new, most)
    }
}

/// Returns the greatest use, with the new span too, of the hours that begin at a start of the list or end at an end of it. The new span
/// isn't put into the list, since the list's edges might fall then: in each hour it counts by what it shares with it.
fn greatest(spans: &[Span], new: Span) -> u128
    requires starts { IsRising Start spans.now }
    requires ends { IsRising End spans.now }
    ensures { result ≡ greatest_use (spans.now ++ new ∷ []) (edge_hours spans.now) }
{
    let mut most: u128 = 0;
    let mut by_start = UNMOVED;
    let mut by_end = UNMOVED;
    for span in spans {
        let (from_start, from_end, used) = slide_both(spans, new, by_start, by_end, *span);
        by_start = from_start;
        by_end = from_end;
        most = most.max(used);
    }
    most
}

/// Returns two windows, moved on to the hour that begins where the edge begins and to the one that ends where it ends, and the greater use
/// of the two, with the new span too.
#[tactic(auto, using(crate::proofs::Signed::signed))]
fn slide_both(
    spans: &[Span],
    new: Span,
    by_start: Window,
    by_end: Window,
    edge: Span,
) -> (Window, Window, u128)
    requires by_start { IsWindow spans.now by_start edge.start }
    requires by_end { IsWindow spans.now by_end (end_of edge -ℤ pos hour) }
    requires starts { IsRising Start spans.now }
    requires ends { IsRising End spans.now }
    ensures from_start { IsWindow spans.now result.0 edge.start }
    ensures from_end { IsWindow spans.now result.1 (end_of edge -ℤ pos hour) }
    ensures used { let all = spans.now ++ new ∷ [] in
        result.2 ≡ max (use_of all edge.start) (use_of all (end_of edge -ℤ pos hour)) }
{
    let (from_start, at_start) = slide_with(spans, new, by_start, edge.start());
    let (from_end, at_end) = slide_with(spans, new, by_end, hour_to_end(edge));
    (from_start, from_end, at_start.max(at_end))
}

/// Returns the window moved on to the hour from t, and the use of that hour, with the new span too.
#[tactic(auto, using(crate::proofs::Signed::signed, crate::proofs::Signed::uses))]
fn slide_with(spans: &[Span], new: Span, from: Window, t: i64) -> (Window, u128)
    requires window { IsWindow spans.now from t }
    requires range { (t +ℤ pos hour) <ℤ pos (2 ^ 63) }
    requires starts { IsRising Start spans.now }
    requires ends { IsRising End spans.now }
    ensures window { IsWindow spans.now result.0 t }
    ensures used { result.1 ≡ use_of (spans.now ++ new ∷ []) t }
{
    let (window, used) = slide(spans, from, t);
    (window, used + u128::from(in_hour(new, t)))
}

/// The marks of an hour: for the edges up to its beginning, and up to its end.
#[derive(Clone, Copy)]
struct Window {
    starts: Mark,
    ends: Mark,
    later_starts: Mark,
    later_ends: Mark,
}

/// The marks before the first hour.
const UNMOVED: Window = Window {
    starts: UNPASSED,
    ends: UNPASSED,
    later_starts: UNPASSED,
    later_ends: UNPASSED,
};

/// Returns the window moved on to the hour from t, and the use of that hour.
#[tactic(auto, using(crate::proofs::Signed::signed, crate::proofs::Heights::use_from_heights))]
fn slide(spans: &[Span], from: Window, t: i64) -> (Window, u128)
    requires window { IsWindow spans.now from t }
    requires range { (t +ℤ pos hour) <ℤ pos (2 ^ 63) }
    requires starts { IsRising Start spans.now }
    requires ends { IsRising End spans.now }
    ensures window { IsWindow spans.now result.0 t }
    ensures used { result.1 ≡ use_of spans.now t }
{
    let later = t + i64::from(HOUR);
    let (starts, begun) = climb(spans, Edge::Start, from.starts, t);
    let (ends, ended) = climb(spans, Edge::End, from.ends, t);
    let (later_starts, later_begun) = climb(spans, Edge::Start, from.later_starts, later);
    let (later_ends, later_ended) = climb(spans, Edge::End, from.later_ends, later);
    let window = Window {
        starts,
        ends,
        later_starts,
        later_ends,
    };
    (window, later_begun + ended - (later_ended + begun))
}
