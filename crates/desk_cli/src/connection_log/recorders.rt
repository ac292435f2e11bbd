//! Records what is sent over a connection: counts the octets, and stores the first of them.
ghost use Rattle.std.specs.Prelude.{◌≡◌, ◌++◌, ◌+◌, ◌^◌, ◌-◌, length, min, take, IfSome};

use std::alloc::Global;
use std::io::{self, Read, Write};

/// The number of octets that are stored of what was read, and of what was written: a head has no more, nor has an answer.
const MOST_KEPT: usize = 8_192;

/// What was sent in one direction of a connection: the number of octets, and the first of them.
#[derive(Drop)]
pub struct Record {
    count: u64,
    first: Vec<u8>,
}

impl Record {
    /// Returns an empty record, with memory for all that it may store. `None` if memory ran out.
    fn new(alloc: Global) -> Option<Self> {
        let first = Vec::with_capacity(alloc, MOST_KEPT).ok()?;
        Some(Record { count: 0, first })
    }

    /// Returns the number of octets.
    pub(super) fn count(&self) -> u64
        ensures { result ≡ self.now.count }
    {
        self.count
    }

    /// Returns the first octets, at most 8,192.
    pub(super) fn first(&self) -> &[u8]
        ensures { result.now ≡ self.now.first.items }
    {
        self.first.as_slice()
    }

    /// Records octets that were sent.
    fn add_octets(&mut self, octets: &[u8])
        ensures count { self.new.count ≡ min (self.old.count + length octets.now) (2 ^ 64 - 1) }
    {
        self.count = self.count.saturating_add(octets.len() as u64);
        let room = MOST_KEPT.saturating_sub(self.first.len());
        let kept = &octets[..octets.len().min(room)];
        // There is memory for them.
        let _ = self.first.extend_from_slice(kept);
    }
}

/// A stream whose octets are recorded, if there is a record for them.
#[derive(Drop)]
pub struct Recorder<S> {
    pub(super) below: S,
    pub(super) record: Option<Record>,
}

impl<S> Recorder<S> {
    /// Returns a stream over which nothing was sent yet. If there is no memory, nothing is recorded.
    pub(super) fn new(alloc: Global, below: S, is_noted: bool) -> Self
        ensures { result.below ≡ below }
    {
        let record = if is_noted { Record::new(alloc) } else { None };
        Recorder { below, record }
    }

    /// Records octets that were sent.
    fn add_octets(&mut self, octets: &[u8])
        ensures { self.new.below ≡ self.old.below }
    {
        if let Some(record) = &mut self.record {
            record.add_octets(octets);
        }
    }
}

impl<S: Read> Read for Recorder<S> {
    // What the stream below reads, octet for octet.
    ghost remaining = { λ recorder. S.remaining recorder.below };

    fn read(&mut self, buf: &mut [u8]) -> io::Result<usize> {
        let count = self.below.read(buf)?;
        self.add_octets(&buf[..count]);
        Ok(count)
    }
}

impl<S: Write> Write for Recorder<S> {
    // What the stream below writes, octet for octet.
    ghost contents = { λ recorder. S.contents recorder.below };

    fn write(&mut self, buf: &[u8]) -> io::Result<usize> {
        let count = self.below.write(buf)?;
        self.add_octets(&buf[..count]);
        Ok(count)
    }

    fn flush(&mut self) -> io::Result<()> {
        self.below.flush()
    }
}
