//! A store that fails at one call, in each way, while messages of each type are delivered in each way: what is answered then, what
//! the store holds once it is opened again, and that the same messages are then answered as they are without a failure.
mod asking;
mod commands;

use super::fuses::rows_after_each;
use super::holding::{holds, holds_at};
use super::requests::posted;
use super::requests::responses::UNAVAILABLE;
use super::rows::Delivery;
use super::runs::texts_of;
use super::stops::all_deliveries;
use super::switched::{Failure, Switched};
use super::{Reopened, expect_told, hear_each, opening};
use desk_engine::{LinesEnd, NoProgress, Outcome, deliver, import, run, run_lines};
use desk_http::{ServeEnd, serve_one};
use desk_store::{Keeper, StoreFault};
use desk_tables::Tables;
use desk_wire::read_message;
use radio_core::Name;
use registry_core::Envelope;
use sqlite::MemStore;
use std::alloc::Global;
use std::process::Abort;
use std::test::Fail;

/// Each way in which a call fails.
pub(crate) static FAILURES: [Failure; 4] = [
    Failure::Memory,
    Failure::Disk,
    Failure::DiskAfter,
    Failure::NotADesk,
];

/// The ways after which the next call goes well.
static PASSING: [Failure; 2] = [Failure::Memory, Failure::NotADesk];

/// The ways after which each later call fails too.
static LASTING: [Failure; 2] = [Failure::Disk, Failure::DiskAfter];

/// More calls than a run makes.
const MANY: u64 = 1_000;

// ---- ways to deliver

/// A way to deliver messages.
trait Way {
    /// Delivers them in order. How many were answered, each as it is to be, until the store failed by this fault.
    fn answered<R: Abort + AllocGlobal, K: Keeper>(
        &self,
        rt: &R,
        keeper: &mut K,
        deliveries: &[Delivery],
        fault: StoreFault,
    ) -> Result<usize, Fail>;
}

/// A way to deliver one message.
trait One {
    /// Delivers it. Whether it was answered, as it is to be; if not, the store failed by this fault.
    fn is_answered<R: Abort + AllocGlobal, K: Keeper>(
        &self,
        rt: &R,
        keeper: &mut K,
        delivery: &Delivery,
        fault: StoreFault,
    ) -> Result<bool, Fail>;
}

/// Messages one by one, until the store fails. Where it fails for good, the one that it failed fails again.
struct OneByOne<W> {
    way: W,
}

impl<W: One> Way for OneByOne<W> {
    fn answered<R: Abort + AllocGlobal, K: Keeper>(
        &self,
        rt: &R,
        keeper: &mut K,
        deliveries: &[Delivery],
        fault: StoreFault,
    ) -> Result<usize, Fail> {
        for (place, delivery) in deliveries.iter().enumerate() {
            if !self.way.is_answered(rt, keeper, delivery, fault)? {
                if fault == StoreFault::Disk {
                    let again = self.way.is_answered(rt, keeper, delivery, fault)?;
                    holds(rt, !again, delivery.wanted.as_str());
                }
                return Ok(place);
            }
        }
        Ok(deliveries.len())
    }
}

/// Whether the outcome is the one that the delivery is to have; if not, the store failed by this fault.
fn is_wanted(rt: &impl Abort, outcome: &Outcome, delivery: &Delivery, fault: StoreFault) -> bool {
    if let Outcome::Unavailable(found) = outcome {
        holds(rt, *found == fault, delivery.wanted.as_str());
        return false;
    }
    expect_told(rt, outcome, delivery);
    true
}

/// By `deliver`.
struct ByDeliver;

impl One for ByDeliver {
    fn is_answered<R: Abort + AllocGlobal, K: Keeper>(
        &self,
        rt: &R,
        keeper: &mut K,
        delivery: &Delivery,
        fault: StoreFault,
    ) -> Result<bool, Fail> {
        let outcome = deliver(rt.alloc(), keeper, delivery.text.as_bytes());
        Ok(is_wanted(rt, &outcome, delivery, fault))
    }
}

/// By `run`.
struct ByRun;

impl One for ByRun {
    fn is_answered<R: Abort + AllocGlobal, K: Keeper>(
        &self,
        rt: &R,
        keeper: &mut K,
        delivery: &Delivery,
        fault: StoreFault,
    ) -> Result<bool, Fail> {
        let outcomes = run(rt.alloc(), keeper, &[delivery.text.as_bytes()])?;
        holds(rt, outcomes.len() == 1, "how many outcomes");
        let outcome = outcomes.first().ok_or("no outcome")?;
        Ok(is_wanted(rt, outcome, delivery, fault))
    }
}

/// By a POST to `serve_one`.
struct ByRequest;

impl One for ByRequest {
    fn is_answered<R: Abort + AllocGlobal, K: Keeper>(
        &self,
        rt: &R,
        keeper: &mut K,
        delivery: &Delivery,
        _fault: StoreFault,
    ) -> Result<bool, Fail> {
        let input = posted(rt.alloc(), delivery.text.as_str(), "")?;
        let mut written = Vec::new(rt.alloc());
        let end = serve_one(rt.alloc(), keeper, &mut input.as_bytes(), &mut written);
        let wanted = if end == ServeEnd::Done(200) {
            delivery.wanted.as_bytes()
        } else {
            holds(rt, end == ServeEnd::Done(503), delivery.wanted.as_str());
            UNAVAILABLE.as_bytes()
        };
        holds(rt, written.ends_with(wanted), delivery.wanted.as_str());
        Ok(end == ServeEnd::Done(200))
    }
}

/// All by one `run`. Where the disk failed each outcome from then on is that it did.
struct AtOnce;

impl Way for AtOnce {
    fn answered<R: Abort + AllocGlobal, K: Keeper>(
        &self,
        rt: &R,
        keeper: &mut K,
        deliveries: &[Delivery],
        fault: StoreFault,
    ) -> Result<usize, Fail> {
        let texts = texts_of(rt.alloc(), deliveries)?;
        let outcomes = run(rt.alloc(), keeper, &texts)?;
        holds(rt, outcomes.len() == deliveries.len(), "how many outcomes");
        let mut answered = 0;
        for (place, (outcome, delivery)) in outcomes.iter().zip(deliveries).enumerate() {
            if is_wanted(rt, outcome, delivery, fault) {
                holds_at(rt, answered == place, place);
                answered = place.saturating_add(1);
            }
        }
        Ok(answered)
    }
}

/// One a line, by `run_lines`: the lines before the one that the store failed are answered, and nothing more is written.
struct ByLines;

impl Way for ByLines {
    fn answered<R: Abort + AllocGlobal, K: Keeper>(
        &self,
        rt: &R,
        keeper: &mut K,
        deliveries: &[Delivery],
        fault: StoreFault,
    ) -> Result<usize, Fail> {
        let (input, wanted) = lines_of(rt.alloc(), deliveries)?;
        let mut written = Vec::new(rt.alloc());
        let end = run_lines(rt.alloc(), keeper, &mut input.as_bytes(), &mut written);
        let answered = written.iter().filter(|octet| **octet == b'\n').count();
        let are_whole = written.is_empty() || written.ends_with(b"\n");
        holds_at(
            rt,
            are_whole && wanted.as_bytes().starts_with(written.as_slice()),
            answered,
        );
        let is_right = match end {
            LinesEnd::Done => answered == deliveries.len(),
            LinesEnd::Unavailable(found) => found == fault && answered < deliveries.len(),
            _ => false,
        };
        holds_at(rt, is_right, answered);
        Ok(answered)
    }
}

/// The texts of the deliveries and those that go back, one a line.
fn lines_of(alloc: Global, deliveries: &[Delivery]) -> Result<(String, String), Fail> {
    let mut input = String::new(alloc);
    let mut wanted = String::new(alloc);
    for delivery in deliveries {
        input.push_str(delivery.text.as_str())?;
        input.push('\n')?;
        wanted.push_str(delivery.wanted.as_str())?;
        wanted.push('\n')?;
    }
    Ok((input, wanted))
}

/// As the records of a report, by `import`: the answers before the error, and the error.
struct ByImport;

impl Way for ByImport {
    fn answered<R: Abort + AllocGlobal, K: Keeper>(
        &self,
        rt: &R,
        keeper: &mut K,
        deliveries: &[Delivery],
        fault: StoreFault,
    ) -> Result<usize, Fail> {
        let imported = import(
            rt.alloc(),
            keeper,
            &envelopes_of(rt.alloc(), deliveries)?,
            &NoProgress,
        );
        for (outcome, delivery) in imported.answers.iter().zip(deliveries) {
            expect_told(rt, outcome, delivery);
        }
        let answered = imported.answers.len();
        let is_right = match imported.stopped {
            None => answered == deliveries.len(),
            Some(found) => found == fault && answered < deliveries.len(),
        };
        holds_at(rt, is_right, answered);
        Ok(answered)
    }
}

fn envelopes_of(alloc: Global, deliveries: &[Delivery]) -> Result<Vec<Envelope>, Fail> {
    let receiver = Name::new(b"desk").ok_or("no name")?;
    let mut envelopes = Vec::new(alloc);
    for delivery in deliveries {
        let read = read_message(alloc, delivery.text.as_bytes(), &receiver);
        envelopes.push(read.map_err(|_| "no message")?)?;
    }
    Ok(envelopes)
}

// ---- a store that fails while they are delivered

/// Messages, those that are heard before them, and the rows before them and after each.
#[derive(Drop)]
struct Run<'a> {
    before: &'a [Delivery],
    deliveries: &'a [Delivery],
    rows: &'a [String],
}

/// The rows are those after this many of the messages. The store, opened again.
fn stands<R: Abort + AllocGlobal, K: Reopened>(
    rt: &R,
    store: Box<K>,
    run: &Run<'_>,
    count: usize,
) -> Result<Box<K>, Fail> {
    let (rows, store) = K::reopened(rt.alloc(), store)?;
    let wanted = run.rows.get(count).ok_or("no rows")?;
    holds_at(rt, rows == *wanted, count);
    Ok(store)
}

/// The call after this many fails while they are delivered. The store then holds those that were answered, and the one that the
/// failing call committed; the rest of them, from the one that failed on, are then answered as they are to be. What came of the call: none failed, or one did and
/// whether it had committed.
fn failed<R: Abort + AllocGlobal, K: Reopened, W: Way>(
    rt: &R,
    run: &Run<'_>,
    way: &W,
    failure: Failure,
    calls: u64,
) -> Result<Option<bool>, Fail> {
    let fault = failure.fault();
    let mut store = opening::<K>(rt.alloc(), 65_536)?;
    hear_each(rt, &mut *store, run.before);
    let mut switched = Switched::new(store, failure, calls);
    let answered = way.answered(rt, &mut switched, run.deliveries, fault)?;
    let has_failed = switched.has_failed();
    let has_committed = switched.has_committed;
    holds_at(
        rt,
        has_failed == (answered < run.deliveries.len()),
        answered,
    );
    let count = answered.saturating_add(usize::from(has_committed));
    let mut store = stands(rt, switched.inner, run, count)?;
    let rest = run.deliveries.get(answered..).ok_or("no messages")?;
    let again = way.answered(rt, &mut *store, rest, fault)?;
    holds_at(rt, again == rest.len(), again);
    drop(stands(rt, store, run, run.deliveries.len())?);
    Ok(has_failed.then_some(has_committed))
}

/// Each call fails in turn, until none does. Where the disk fails after a call each message is committed by one that fails.
fn each_fails<R: Abort + AllocGlobal, K: Reopened, W: Way>(
    rt: &R,
    run: &Run<'_>,
    way: &W,
    failure: Failure,
) -> Result<(), Fail> {
    let mut committed = 0_usize;
    for calls in 0..MANY {
        match failed::<R, K, W>(rt, run, way, failure, calls)? {
            Some(has_committed) => {
                committed = committed.saturating_add(usize::from(has_committed));
            }
            None => {
                holds(rt, calls > 1, "that a call failed");
                let wanted = if failure == Failure::DiskAfter {
                    run.deliveries.len()
                } else {
                    0
                };
                holds(rt, committed == wanted, "how many were committed");
                return Ok(());
            }
        }
    }
    Err("it fails always".into())
}

/// The messages from this place on, up to the other.
fn messages_fail<R: Abort + AllocGlobal, K: Reopened, W: Way>(
    rt: &R,
    way: &W,
    failures: &[Failure],
    from: usize,
    to: usize,
) -> Result<(), Fail> {
    let deliveries = all_deliveries(rt.alloc())?;
    let rows = rows_after_each(rt, &deliveries)?;
    let run = Run {
        before: deliveries.get(..from).ok_or("no messages")?,
        deliveries: deliveries.get(from..to).ok_or("no messages")?,
        rows: rows.get(from..).ok_or("no rows")?,
    };
    for failure in failures {
        each_fails::<R, K, W>(rt, &run, way, *failure)?;
    }
    Ok(())
}

/// How many there are of each type, each once.
const ALL: usize = 13;

/// Over tables in memory.
fn over_tables<R: Abort + AllocGlobal, W: Way>(
    rt: &R,
    way: &W,
    failures: &[Failure],
    from: usize,
    to: usize,
) -> Result<(), Fail> {
    messages_fail::<R, Tables<MemStore>, W>(rt, way, failures, from, to)
}

/// A failure that passes, and one that lasts: each has a test of its own for what takes long.
#[test]
fn deliveries_fail(rt: HostRuntime) -> Result<(), Fail> {
    over_tables(&rt, &OneByOne { way: ByDeliver }, &PASSING, 0, ALL)
}

#[test]
fn deliveries_fail_for_good(rt: HostRuntime) -> Result<(), Fail> {
    over_tables(&rt, &OneByOne { way: ByDeliver }, &LASTING, 0, ALL)
}

#[test]
fn runs_fail(rt: HostRuntime) -> Result<(), Fail> {
    over_tables(&rt, &OneByOne { way: ByRun }, &PASSING, 0, ALL)
}

#[test]
fn runs_fail_for_good(rt: HostRuntime) -> Result<(), Fail> {
    over_tables(&rt, &AtOnce, &LASTING, 0, ALL)
}

#[test]
fn lines_fail(rt: HostRuntime) -> Result<(), Fail> {
    over_tables(&rt, &ByLines, &PASSING, 0, ALL)
}

#[test]
fn lines_fail_for_good(rt: HostRuntime) -> Result<(), Fail> {
    over_tables(&rt, &ByLines, &LASTING, 0, ALL)
}

/// The join, the data frame and its copy.
#[test]
fn imports_fail(rt: HostRuntime) -> Result<(), Fail> {
    over_tables(&rt, &ByImport, &FAILURES, 5, 8)
}

#[test]
fn requests_fail(rt: HostRuntime) -> Result<(), Fail> {
    over_tables(&rt, &OneByOne { way: ByRequest }, &PASSING, 0, ALL)
}

#[test]
fn requests_fail_for_good(rt: HostRuntime) -> Result<(), Fail> {
    over_tables(&rt, &OneByOne { way: ByRequest }, &LASTING, 0, ALL)
}
