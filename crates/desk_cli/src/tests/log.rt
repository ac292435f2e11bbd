//! The log: the messages that a desk has heard and their answers, over each kind of store.
use super::failing::FAILURES;
use super::holding::{holds, holds_at};
use super::rows::Exchange::Asks;
use super::rows::{Delivery, EXISTS, TOWN, delivery_of};
use super::stops::deliveries;
use super::switched::{Failure, Switched};
use super::{Opened, Reopened, hear_each, opening};
use desk_engine::{LinesEnd, LogEnd, LogText, run_lines, write_log};
use desk_store::{Keeper, Lists};
use desk_tables::Tables;
use desk_wire::{read_message, write_message};
use radio_core::Name;
use registry_core::JsonInteger;
use sqlite::MemStore;
use std::alloc::Global;
use std::io;
use std::io::{ErrorKind, Write};
use std::process::Abort;
use std::test::Fail;

/// The fifth message.
pub(crate) static DEVICE_ADD: &str =
    r#"{"DevEUI":"0004a30b001a2b3c","JoinEUI":"70b3d57ed0000001","MessageType":"DeviceAdd","Owner":"town","ProtocolVersion":"1.0","ReceiverID":"desk","SenderID":"office","TransactionID":5}"#;

/// More messages than were heard.
const ALL: u64 = 9_007_199_254_740_991;

/// Takes at most seven octets at a time, each time after an interruption. Fails once it has `room` octets.
#[derive(Drop)]
pub(crate) struct Narrow {
    pub(crate) taken: Vec<u8>,
    room: usize,
    interrupted: bool,
}

impl Narrow {
    /// One that has taken nothing.
    pub(crate) fn new(alloc: Global, room: usize) -> Self {
        Narrow {
            taken: Vec::new(alloc),
            room,
            interrupted: false,
        }
    }
}

impl Write for Narrow {
    fn write(&mut self, buf: &[u8]) -> io::Result<usize> {
        self.interrupted = !self.interrupted;
        if self.interrupted {
            return Err(ErrorKind::Interrupted.into());
        }
        let left = self.room.saturating_sub(self.taken.len());
        let count = left.min(7).min(buf.len());
        if count == 0 {
            return Err(ErrorKind::BrokenPipe.into());
        }
        self.taken.extend_from_slice(&buf[..count])?;
        Ok(count)
    }

    fn flush(&mut self) -> io::Result<()> {
        Ok(())
    }
}

/// Eleven messages: the ten, and one that is heard and refused.
pub(crate) fn all<R: AllocGlobal>(rt: &R) -> Result<Vec<Delivery>, Fail> {
    let mut all = deliveries(rt.alloc())?;
    let again = Asks("office", 20, "OwnerAdd", TOWN, EXISTS);
    all.push(delivery_of(rt.alloc(), &again)?)?;
    Ok(all)
}

/// The line of a delivery in the log.
fn line_of<R: AllocGlobal>(rt: &R, delivery: &Delivery, which: LogText) -> Result<Vec<u8>, Fail> {
    let alloc = rt.alloc();
    let mut line = match which {
        LogText::Message => {
            let desk = Name::new(b"desk").ok_or("no name")?;
            let read = read_message(alloc, delivery.text.as_bytes(), &desk);
            let envelope = read.map_err(|_| "no message")?;
            write_message(alloc, &envelope, &desk)?
        }
        LogText::Answer => delivery.wanted.as_bytes().to_vec(alloc)?,
    };
    line.push(b'\n')?;
    Ok(line)
}

/// The lines of the deliveries.
pub(crate) fn lines_of<R: AllocGlobal>(
    rt: &R,
    deliveries: &[Delivery],
    which: LogText,
) -> Result<Vec<u8>, Fail> {
    let mut lines = Vec::new(rt.alloc());
    for delivery in deliveries {
        lines.extend_from_slice(&line_of(rt, delivery, which)?)?;
    }
    Ok(lines)
}

/// The log from this number on has this many lines, and these.
fn has_log<R: Abort + AllocGlobal, K: Keeper>(
    rt: &R,
    keeper: &mut K,
    (from, most): (u64, u64),
    which: LogText,
    (count, wanted): (u64, &[u8]),
) -> Result<(), Fail> {
    let from = JsonInteger::new(from).ok_or("no number")?;
    let most = JsonInteger::new(most).ok_or("no number")?;
    let mut written = Vec::new(rt.alloc());
    let end = write_log(keeper, from, most, which, &mut written);
    holds(rt, end == LogEnd::Done(count), "how many lines there are");
    holds(rt, written.as_slice() == wanted, "the lines");
    Ok(())
}

/// Parts of the log, of messages and of answers.
fn has_parts<R: Abort + AllocGlobal, K: Keeper>(
    rt: &R,
    keeper: &mut K,
    all: &[Delivery],
    which: LogText,
) -> Result<(), Fail> {
    has_log(
        rt,
        keeper,
        (1, ALL),
        which,
        (11, &lines_of(rt, all, which)?),
    )?;
    has_log(rt, keeper, (1, 11), which, (11, &lines_of(rt, all, which)?))?;
    let first = all.get(..3).ok_or("no messages")?;
    has_log(rt, keeper, (1, 3), which, (3, &lines_of(rt, first, which)?))?;
    let ninth = all.get(8..9).ok_or("no messages")?;
    has_log(rt, keeper, (9, 1), which, (1, &lines_of(rt, ninth, which)?))?;
    let last = all.get(9..).ok_or("no messages")?;
    has_log(rt, keeper, (10, 5), which, (2, &lines_of(rt, last, which)?))?;
    has_log(rt, keeper, (12, ALL), which, (0, b""))?;
    has_log(rt, keeper, (ALL, ALL), which, (0, b""))?;
    has_log(rt, keeper, (0, ALL), which, (0, b""))?;
    has_log(rt, keeper, (1, 0), which, (0, b""))
}

fn log_over<R: Abort + AllocGlobal, K: Opened>(rt: &R) -> Result<Box<K>, Fail> {
    let all = all(rt)?;
    let mut store = opening::<K>(rt.alloc(), 65_536)?;
    hear_each(rt, &mut *store, &all);
    has_parts(rt, &mut *store, &all, LogText::Message)?;
    has_parts(rt, &mut *store, &all, LogText::Answer)?;
    let mut device = DEVICE_ADD.as_bytes().to_vec(rt.alloc())?;
    device.push(b'\n')?;
    has_log(rt, &mut *store, (5, 1), LogText::Message, (1, &device))?;
    Ok(store)
}

#[test]
fn log_over_lists(rt: HostRuntime) -> Result<(), Fail> {
    let _store = log_over::<HostRuntime, Lists>(&rt)?;
    Ok(())
}

/// A new desk that hears the log, in two parts that overlap, answers as the first desk did, and has its rows then.
#[test]
fn log_makes_the_desk(rt: HostRuntime) -> Result<(), Fail> {
    let store = log_over::<HostRuntime, Tables<MemStore>>(&rt)?;
    let (rows, _store) = Tables::reopened(rt.alloc(), store)?;
    let all = all(&rt)?;
    let mut other = opening::<Tables<MemStore>>(rt.alloc(), 65_536)?;
    for part in [all.get(..7), all.get(4..)] {
        let part = part.ok_or("no messages")?;
        let log = lines_of(&rt, part, LogText::Message)?;
        let mut answers = Vec::new(rt.alloc());
        let end = run_lines(rt.alloc(), &mut *other, &mut log.as_slice(), &mut answers);
        holds(&rt, end == LinesEnd::Done, "the end of the lines");
        let wanted = lines_of(&rt, part, LogText::Answer)?;
        holds(&rt, answers.as_slice() == wanted.as_slice(), "the answers");
    }
    let (others, _other) = Tables::reopened(rt.alloc(), other)?;
    holds(&rt, rows == others, "the rows");
    Ok(())
}

/// A writer that fails has got the first octets of the log, as many as it takes.
#[test]
fn a_log_that_cannot_be_written(rt: HostRuntime) -> Result<(), Fail> {
    let all = all(&rt)?;
    let mut store = opening::<Lists>(rt.alloc(), 65_536)?;
    hear_each(&rt, &mut *store, &all);
    let log = lines_of(&rt, &all, LogText::Message)?;
    let (from, most) = (JsonInteger::new(1), JsonInteger::new(11));
    let (from, most) = (from.ok_or("no number")?, most.ok_or("no number")?);
    for room in 0..log.len() {
        let mut narrow = Narrow::new(rt.alloc(), room);
        let end = write_log(&mut *store, from, most, LogText::Message, &mut narrow);
        holds_at(&rt, end == LogEnd::Write, room);
        holds_at(&rt, Some(narrow.taken.as_slice()) == log.get(..room), room);
    }
    Ok(())
}

/// The store behind the switch fails after a number of messages: these are written, and nothing else.
fn stops_after<R: Abort + AllocGlobal>(
    rt: &R,
    store: Box<Tables<MemStore>>,
    all: &[Delivery],
    failure: Failure,
    calls: usize,
) -> Result<Box<Tables<MemStore>>, Fail> {
    let mut switched = Switched::new(store, failure, calls as u64);
    let (from, most) = (JsonInteger::new(1), JsonInteger::new(ALL));
    let (from, most) = (from.ok_or("no number")?, most.ok_or("no number")?);
    let mut written = Vec::new(rt.alloc());
    let end = write_log(&mut switched, from, most, LogText::Answer, &mut written);
    holds_at(rt, end == LogEnd::Unavailable(failure.fault()), calls);
    let before = all.get(..calls).ok_or("no messages")?;
    let wanted = lines_of(rt, before, LogText::Answer)?;
    holds_at(rt, written.as_slice() == wanted.as_slice(), calls);
    Ok(switched.inner)
}

#[test]
fn a_log_that_cannot_be_read(rt: HostRuntime) -> Result<(), Fail> {
    let all = all(&rt)?;
    for failure in &FAILURES {
        let mut store = opening::<Tables<MemStore>>(rt.alloc(), 65_536)?;
        hear_each(&rt, &mut *store, &all);
        for calls in 0..12 {
            store = stops_after(&rt, store, &all, *failure, calls)?;
        }
    }
    Ok(())
}
