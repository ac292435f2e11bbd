//! How long one more span may be.
//!
//! If a span has room, so has every shorter one: it shares less with the others and with each hour (`laws::shorter_has_room`). So bisection
//! finds the greatest length: 22 rounds for 3,000,000 microseconds.

ghost use Rattle.std.specs.Prelude.{◌↔◌, ◌∷◌, ◌++◌, [], IsTrue};
ghost use Rattle.duty_core.specs.Use.{EveryHourWithin};
ghost use Rattle.duty_core.specs.InOrder.{StartsAscend};
ghost use Rattle.duty_core.specs.Range.{IsStart};
ghost use Rattle.duty_core.specs.Room.{HasRoom, IsRoom};

use crate::hours::{clear, fits};
use crate::interval::Span;
use crate::sweep::{in_order, sweep_fits};

/// Returns the greatest length, in microseconds and at most `most`, of a span from `start` that shares no microsecond with a span of `all`,
/// and with which the use of every hour of `of_band` is at most `limit`. Returns 0 if no length from 1 on has room, also if an hour of
/// `of_band` is above `limit` already.
pub fn room(all: &[Span], of_band: &[Span], start: i64, limit: u64, most: u32) -> u32
    requires { IsStart start }
    ensures { IsRoom all.now of_band.now start limit most result }
{
    let ordered = in_order(of_band);
    let mut least: u32 = 0;
    let mut greatest = most;
    while least < greatest {
        let middle = greatest - (greatest - least) / 2;
        if has_room(all, of_band, ordered, start, limit, middle) {
            least = middle;
        } else {
            greatest = middle - 1;
        }
    }
    least
}

/// Returns whether a span of that length has room.
fn has_room(all: &[Span], of_band: &[Span], ordered: bool, start: i64, limit: u64, len: u32) -> bool
    requires order { IsTrue ordered → StartsAscend of_band.now }
    requires start { IsStart start }
    ensures { IsTrue result ↔ HasRoom all.now of_band.now start limit len }
{
    let Some(new) = Span::new(start, len) else {
        return false;
    };
    clear(all, new) && fits_in(of_band, ordered, new, limit)
}

/// Returns whether the use of every hour is within the limit with the new span too: by the sweep if the spans are ordered by start.
fn fits_in(of_band: &[Span], ordered: bool, new: Span, limit: u64) -> bool
    requires { IsTrue ordered → StartsAscend of_band.now }
    ensures { IsTrue result ↔ EveryHourWithin (of_band.now ++ new ∷ []) limit }
{
    if ordered {
        sweep_fits(of_band, new, limit)
    } else {
        fits(of_band, new, limit)
    }
}
