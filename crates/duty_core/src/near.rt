//! Spans near a start. If no span is longer than 3,000,000 microseconds, a span that isn't near a new one shares no hour with it
//! (`laws::near_ones_tell`).
//!
//! A start is given in 128 bits, so that it may be any number of 64 bits, with a sign or without.

ghost use Rattle.std.specs.Prelude.{◌≡◌, ◌^◌, ◌-◌, pos, ◌+ℤ◌, ◌-ℤ◌, ◌≤ℤ◌};
ghost use Rattle.std.specs.Int.{int_max, int_min};
ghost use Rattle.duty_core.specs.Use.{Interval};
ghost use Rattle.duty_core.specs.Range.{IsStart};
ghost use Rattle.duty_core.specs.Near.{near_reach, starts_between, is_near};

use crate::interval::Span;

/// An hour and 3,000,000 microseconds: spans that begin less than this apart are near.
pub const NEAR_REACH: i64 = 3_603_000_000;

/// Returns whether the span begins near the start, before or after it.
pub fn is_near(span: &Span, start: i128) -> bool
    ensures { result ≡ is_near start span.now }
{
    let range = near_range(start);
    range.after < span.start() && span.start() < range.before
}

/// Two starts. A span is near a third start if it begins between the two, and not at either.
#[derive(Clone, Copy)]
pub struct NearRange {
    /// Spans that are near begin after this.
    pub after: i64,
    /// Spans that are near begin before this.
    pub before: i64,
}

/// Returns the range in which a span begins if it is near the start, for a look-up of spans by their starts.
pub fn near_range(start: i128) -> NearRange
    ensures near { (a : Interval) → IsStart a.start → is_near start a ≡ starts_between result.after result.before a }
    ensures after { IsStart start → result.after ≡ start -ℤ pos near_reach }
    ensures before { IsStart start → result.before ≡ start +ℤ pos near_reach }
{
    range_around(within_reach(start))
}

/// The range around a start whose ends are of 64 bits.
fn range_around(start: i64) -> NearRange
    requires least { (pos near_reach -ℤ pos (2 ^ 63)) ≤ℤ start }
    requires last { start ≤ℤ pos (2 ^ 63 - 1 - near_reach) }
    ensures after { result.after ≡ start -ℤ pos near_reach }
    ensures before { result.before ≡ start +ℤ pos near_reach }
{
    NearRange {
        after: start - NEAR_REACH,
        before: start + NEAR_REACH,
    }
}

/// Returns the start, or the nearest one whose range is of 64 bits. If the two differ, both are so far outside of a span's range that no
/// span is near either.
fn within_reach(start: i128) -> i64
    ensures { let least = pos near_reach -ℤ pos (2 ^ 63) in
        let last = pos (2 ^ 63 - 1 - near_reach) in
        result ≡ int_max least (int_min start last) }
{
    start.clamp(
        i128::from(i64::MIN + NEAR_REACH),
        i128::from(i64::MAX - NEAR_REACH),
    ) as i64
}
