//! Rows of sliding hours: spans, use, peak, what fits, what is clear and what is near. What the sweep is asked asserts by itself, since
//! it asks for order.
use super::holding::{holds, holds_at};
use duty_core::{
    Span, clear, fits, in_order, is_near, near_range, peak, room, sweep_fits, sweep_peak, use_at,
};
use std::alloc::{AllocError, Global};
use std::process::Abort;
use std::test::Fail;

/// An hour, in microseconds.
const HOUR: i64 = 3_600_000_000;

/// The first microsecond of February 2024.
const MONTH: i64 = 1_706_745_600_000_000;

fn span(rt: &impl Abort, start: i64, len: u32) -> Span {
    Span::new(start, len).expect(rt, "the start is in range")
}

/// Three spans, of which the second and third lie together just past an hour after the first.
fn worked(rt: &impl Abort) -> [Span; 3] {
    [
        span(rt, MONTH, 20),
        span(rt, MONTH + HOUR + 3, 10),
        span(rt, MONTH + HOUR + 5, 10),
    ]
}

/// A start, a length, and whether there is such a span.
static SPANS: [(i64, u32, bool); 5] = [
    (-4_611_686_018_427_387_904, 0, true),
    (-4_611_686_018_427_387_905, 1, false),
    (4_611_686_018_427_387_903, 4_294_967_295, true),
    (4_611_686_018_427_387_904, 1, false),
    (-1, 7, true),
];

#[test]
fn makes_spans(rt: HostRuntime) {
    for (place, (start, len, is_span)) in SPANS.iter().enumerate() {
        let made = Span::new(*start, *len);
        holds_at(&rt, made.is_some() == *is_span, place);
        if let Some(made) = made {
            holds_at(&rt, made.start() == *start && made.len() == *len, place);
        }
    }
}

/// When an hour begins, and how much of it the worked spans use.
static HOURS: [(i64, u128); 8] = [
    // The hours that begin at a start.
    (MONTH, 20),
    (MONTH + HOUR + 3, 20),
    (MONTH + HOUR + 5, 18),
    // The hours that end at an end.
    (MONTH + 20 - HOUR, 20),
    (MONTH + 13, 25),
    (MONTH + 15, 25),
    (i64::MIN, 0),
    (i64::MAX, 0),
];

#[test]
fn adds_up_the_hour(rt: HostRuntime) {
    let spans = worked(&rt);
    for (place, (from, used)) in HOURS.iter().enumerate() {
        holds_at(&rt, use_at(&spans, *from) == *used, place);
    }
    let last = span(&rt, 4_611_686_018_427_387_903, 4_294_967_295);
    let used = use_at(&[last, last], 4_611_686_018_427_387_904);
    holds(&rt, used == 7_200_000_000, "two last spans");
}

/// Spans that are in order have this peak.
fn has_peak(rt: &impl Abort, spans: &[Span], wanted: u128) {
    assert!(rt; in_order(spans));
    holds(rt, peak(spans) == wanted, "the peak");
    holds(rt, sweep_peak(spans) == wanted, "the peak by the sweep");
}

#[test]
fn finds_the_peak(rt: HostRuntime) {
    has_peak(&rt, &[], 0);
    has_peak(&rt, &[span(&rt, 0, 5_000_000)], 5_000_000);
    has_peak(&rt, &[span(&rt, 0, 4_000_000_000)], 3_600_000_000);
    // The second ends before the first does.
    let within = [span(&rt, 0, 100), span(&rt, 10, 10), span(&rt, 15, 75)];
    has_peak(&rt, &within, 185);
    has_peak(&rt, &worked(&rt), 25);
}

/// The new span fits, by both ways, within so much and no less. The others are in order.
fn just_fits(rt: &impl Abort, spans: &[Span], new: Span, most: u64) {
    assert!(rt; in_order(spans));
    let above = most.saturating_sub(1);
    holds(rt, fits(spans, new, most), "just within");
    holds(rt, !fits(spans, new, above), "one above");
    holds(rt, sweep_fits(spans, new, most), "within by the sweep");
    holds(rt, !sweep_fits(spans, new, above), "above by the sweep");
}

#[test]
fn fits_up_to_the_limit(rt: HostRuntime) {
    let [first, second, third] = worked(&rt);
    just_fits(&rt, &[first, second], third, 25);
    just_fits(&rt, &[], first, 20);
    // The fullest hours begin at the new one's start and end at its end.
    let new = span(&rt, 0, 10);
    just_fits(&rt, &[span(&rt, 4, 4)], new, 14);
    // The fullest hour begins at a start, where no hour of the clock begins.
    let new = span(&rt, 100, 10);
    just_fits(&rt, &[new, span(&rt, HOUR + 97, 6)], new, 23);
    holds(&rt, fits(&[], span(&rt, 0, 0), 0), "nothing within nothing");
}

#[test]
fn tells_order_and_what_is_clear(rt: HostRuntime) {
    let [first, second, third] = worked(&rt);
    holds(&rt, in_order(&[first, second, second]), "the same twice");
    let by_start = [span(&rt, 0, 100), span(&rt, 0, 10)];
    holds(&rt, in_order(&by_start), "equal starts");
    holds(&rt, !in_order(&[first, third, second]), "the last two");
    holds(&rt, !in_order(&[second, first, third]), "the first two");
    let new = span(&rt, 10, 5);
    let beside = [span(&rt, 5, 5), span(&rt, 15, 5), span(&rt, 12, 0)];
    holds(&rt, clear(&[], new) && clear(&beside, new), "beside it");
    holds(&rt, !clear(&[span(&rt, 5, 6)], new), "its first");
    holds(&rt, !clear(&[span(&rt, 14, 1)], new), "its last");
    let all = span(&rt, 0, 4_294_967_295);
    holds(&rt, !clear(&[all], new), "all of it");
}

/// The room from a start, apart from all spans, and with those of the band within a limit.
fn room_from(rt: &impl Abort, all: &[Span], of_band: &[Span], start: i64, limit: u64) -> u32 {
    let start = span(rt, start, 0).start();
    room(all, of_band, start, limit, 3_000_000)
}

fn has_room(rt: &impl Abort, all: &[Span], of_band: &[Span], start: i64, limit: u64, wanted: u32) {
    let found = room_from(rt, all, of_band, start, limit);
    holds(rt, found == wanted, "the room");
}

#[test]
fn finds_the_room(rt: HostRuntime) {
    // Three downlinks in a band of 3.6 seconds an hour, the last of them within a fourth's hour for 626,304 microseconds.
    let downlinks = [
        span(&rt, MONTH, 991_232),
        span(&rt, MONTH + 10_000_000, 991_232),
        span(&rt, MONTH + 20_000_000, 991_232),
    ];
    let fourth = MONTH + 3_599_373_696;
    has_room(&rt, &downlinks, &downlinks, fourth, 3_600_000, 1_617_536);
    has_room(&rt, &downlinks, &downlinks, fourth - 1, 3_600_000, 626_304);
    // In another order, by the direct algorithm.
    let [first, second, third] = downlinks;
    let others = [third, first, second];
    has_room(&rt, &others, &others, fourth, 3_600_000, 1_617_536);
    // Nothing is planned yet.
    has_room(&rt, &[], &[], MONTH, 3_600_000, 3_000_000);
    // Only a downlink in another band, or in the same one with a limit that it leaves wide.
    let one = [span(&rt, MONTH + 2_000_000, 991_232)];
    for (place, (start, wanted)) in BESIDE_ONE.iter().enumerate() {
        let elsewhere = room_from(&rt, &one, &[], *start, 3_600_000);
        let in_band = room_from(&rt, &one, &one, *start, 360_000_000);
        holds_at(&rt, elsewhere == *wanted && in_band == *wanted, place);
    }
    // The band's limit is exceeded already, and no length is asked for.
    has_room(&rt, &[], &downlinks, MONTH + 30_000_000, 2_973_695, 0);
    has_room(&rt, &[], &downlinks, MONTH + 30_000_000, 2_973_697, 1);
    let start = span(&rt, 0, 0).start();
    holds(&rt, room(&[], &[], start, 1, 0) == 0, "no length");
    let longest = room(&[], &[], start, 3_600_000_000, 4_294_967_295);
    holds(&rt, longest == 4_294_967_295, "the greatest length");
}

/// A start, and the room next to a downlink that begins 2,000,000 microseconds after the month does and lasts 991,232.
static BESIDE_ONE: [(i64, u32); 6] = [
    (MONTH, 2_000_000),
    (MONTH + 1_000_000, 1_000_000),
    (MONTH + 1_999_999, 1),
    (MONTH + 2_000_000, 0),
    (MONTH + 2_991_231, 0),
    (MONTH + 2_991_232, 3_000_000),
];

/// How far apart two starts are, and whether that is near.
static APART: [(i64, bool); 5] = [
    (-3_603_000_000, false),
    (-3_602_999_999, true),
    (0, true),
    (3_602_999_999, true),
    (3_603_000_000, false),
];

/// The first start that a span has, 0, one in use, and the last.
static STARTS: [i64; 4] = [
    -4_611_686_018_427_387_904,
    0,
    MONTH,
    4_611_686_018_427_387_903,
];

/// No span is near these.
static FAR: [i128; 4] = [
    i128::MIN,
    -9_223_372_036_854_775_808,
    18_446_744_073_709_551_615,
    i128::MAX,
];

#[test]
fn tells_what_is_near(rt: HostRuntime) {
    for start in &STARTS {
        let start = *start;
        for (place, (apart, near)) in APART.iter().enumerate() {
            if let Some(beside) = Span::new(start + *apart, 1) {
                holds_at(&rt, is_near(&beside, i128::from(start)) == *near, place);
            }
        }
        let range = near_range(i128::from(start));
        holds(&rt, range.after == start - 3_603_000_000, "after");
        holds(&rt, range.before == start + 3_603_000_000, "before");
        let one = span(&rt, start, 1);
        for (place, far) in FAR.iter().enumerate() {
            holds_at(&rt, !is_near(&one, *far), place);
        }
    }
}

/// Spans of half a second, one for each second.
fn in_seconds(rt: &impl Abort, alloc: Global, count: u32) -> Result<Vec<Span>, AllocError> {
    let mut spans = Vec::new(alloc);
    for i in 0..count {
        spans.push(span(rt, i64::from(i) * 1_000_000, 500_000))?;
    }
    Ok(spans)
}

/// No contract states how long a call takes. The direct algorithm would add up 2,000,000,000,000 uses here, and satisfies every clause of
/// the sweep and of `room`; a test may take a minute, so this one shows that the sweep is what runs.
#[test]
fn sweeps_a_million(rt: HostRuntime) -> Result<(), Fail> {
    let spans = in_seconds(&rt, rt.alloc(), 1_000_000)?;
    assert!(rt; in_order(&spans));
    holds(&rt, sweep_peak(&spans) == 1_800_000_000, "the peak");
    let new = span(&rt, 7_000_500_000, 500_000);
    holds(&rt, sweep_fits(&spans, new, 1_800_500_000), "just within");
    holds(&rt, !sweep_fits(&spans, new, 1_800_499_999), "one above");
    has_room(&rt, &[], &spans, 7_000_500_000, 1_800_500_000, 500_000);
    Ok(())
}
