//! How far the edges of a list precede a place, if the edges don't fall.
//!
//! Such a height is the sum, over the edges before x, of their distances to x. If the edges don't fall, those at or before x are the first
//! of the list. So the height follows from a mark: from their number and the sum of their places, where a place is the distance from the
//! least `i64`:
//!
//!     height(x) = passed * place(x) - sum
//!
//! A mark for x is also one for any later place, so it only moves forward.

ghost use Rattle.std.specs.Prelude.{◌≡◌, ◌↔◌, ◌^◌, ◌<◌, IsTrue};
ghost use Rattle.duty_core.specs.steps.Marks.{edge_of, IsRising, distance_to, height_of, IsMark, HasPassedAll};

use crate::interval::Span;

/// One of the two edges of a span: where it begins, or where it ends.
#[derive(Clone, Copy)]
pub(crate) enum Edge {
    Start,
    End,
}

/// Returns the place of the edge of the span.
pub(crate) fn edge_of(span: Span, edge: Edge) -> i64
    ensures { result ≡ edge_of edge span }
{
    match edge {
        Edge::Start => span.start(),
        Edge::End => span.start() + i64::from(span.len()),
    }
}

/// Returns whether no such edge is less than the one before it.
pub(crate) fn rises(spans: &[Span], edge: Edge) -> bool
    ensures { IsTrue result ↔ IsRising edge spans.now }
{
    for i in 1..spans.len() {
        if edge_of(spans[i], edge) < edge_of(spans[i - 1], edge) {
            return false;
        }
    }
    true
}

/// The first edges of a list: their number, and the sum of their places.
#[derive(Clone, Copy)]
pub(crate) struct Mark {
    passed: usize,
    sum: u128,
}

/// The mark of no edges.
pub(crate) const UNPASSED: Mark = Mark { passed: 0, sum: 0 };

/// Returns the mark moved on to x, and the sum of the distances to x of the edges before x.
pub(crate) fn climb(spans: &[Span], edge: Edge, from: Mark, x: i64) -> (Mark, u128)
    requires mark { IsMark edge spans.now from.passed from.sum x }
    requires rising { IsRising edge spans.now }
    ensures mark { IsMark edge spans.now result.0.passed result.0.sum x }
    ensures same { result.1 ≡ height_of edge spans.now x }
    ensures small { result.1 < 2 ^ 127 }
{
    let mark = forward(spans, edge, from, x);
    (mark, height(spans, edge, mark, x))
}

/// Returns the mark moved on over the edges that aren't after x.
fn forward(spans: &[Span], edge: Edge, from: Mark, x: i64) -> Mark
    requires { IsMark edge spans.now from.passed from.sum x }
    ensures mark { IsMark edge spans.now result.passed result.sum x }
    ensures stop { HasPassedAll edge spans.now result.passed x }
{
    let mut passed = from.passed;
    let mut sum = from.sum;
    while passed < spans.len() {
        let next = edge_of(spans[passed], edge);
        if x < next {
            break;
        }
        sum += place(next);
        passed += 1;
    }
    Mark { passed, sum }
}

/// Returns the sum of the distances to x of the edges before x. All of these are within the mark.
#[tactic(auto, using(crate::proofs::Signed::signed, crate::proofs::Heights::height_from_mark))]
fn height(spans: &[Span], edge: Edge, at: Mark, x: i64) -> u128
    requires mark { IsMark edge spans.now at.passed at.sum x }
    requires stop { HasPassedAll edge spans.now at.passed x }
    requires rising { IsRising edge spans.now }
    ensures same { result ≡ height_of edge spans.now x }
    ensures small { result < 2 ^ 127 }
{
    at.passed as u128 * place(x) - at.sum
}

/// Returns the distance of x from the first place, the least `i64`.
fn place(x: i64) -> u128
    ensures { result ≡ distance_to x }
{
    (i128::from(x) - i128::from(i64::MIN)) as u128
}
