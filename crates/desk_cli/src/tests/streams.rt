//! Readers and writers that fail, are interrupted, or hold back.
use std::alloc::Global;
use std::io;
use std::io::{ErrorKind, Read, Write};

/// Gives its octets a hundred at most at a time, each time after an interruption. It fails at one read, which counts down.
#[derive(Drop)]
pub(crate) struct Pieces<'a> {
    pub(crate) left: &'a [u8],
    until_failure: usize,
    interrupted: bool,
}

impl<'a> Pieces<'a> {
    pub(crate) fn new(left: &'a [u8], until_failure: usize) -> Self {
        Pieces {
            left,
            until_failure,
            interrupted: false,
        }
    }
}

impl Read for Pieces<'_> {
    fn read(&mut self, buf: &mut [u8]) -> io::Result<usize> {
        self.interrupted = !self.interrupted;
        if self.interrupted {
            return Err(ErrorKind::Interrupted.into());
        }
        if self.until_failure == 0 {
            return Err(ErrorKind::ConnectionReset.into());
        }
        self.until_failure -= 1;
        let count = self.left.len().min(100).min(buf.len());
        buf[..count].copy_from_slice(&self.left[..count]);
        self.left = &self.left[count..];
        Ok(count)
    }
}

/// Takes what it is given, and fails at one write, which counts down.
#[derive(Drop)]
pub(crate) struct Failing {
    until_failure: usize,
}

impl Failing {
    pub(crate) fn new(until_failure: usize) -> Self {
        Failing { until_failure }
    }
}

impl Write for Failing {
    fn write(&mut self, buf: &[u8]) -> io::Result<usize> {
        if self.until_failure == 0 {
            return Err(ErrorKind::BrokenPipe.into());
        }
        self.until_failure -= 1;
        Ok(buf.len())
    }

    fn flush(&mut self) -> io::Result<()> {
        Ok(())
    }
}

/// Gives its octets ten at most at a time, each time after a hundred interruptions.
#[derive(Drop)]
pub(crate) struct Interrupted<'a> {
    left: &'a [u8],
    until_read: u32,
}

impl<'a> Interrupted<'a> {
    pub(crate) fn new(left: &'a [u8]) -> Self {
        Interrupted {
            left,
            until_read: 100,
        }
    }
}

impl Read for Interrupted<'_> {
    fn read(&mut self, buf: &mut [u8]) -> io::Result<usize> {
        if self.until_read > 0 {
            self.until_read -= 1;
            return Err(ErrorKind::Interrupted.into());
        }
        self.until_read = 100;
        let count = self.left.len().min(10).min(buf.len());
        buf[..count].copy_from_slice(&self.left[..count]);
        self.left = &self.left[count..];
        Ok(count)
    }
}

/// Is interrupted a million times, then gives an LF in each of a million reads, and then its octets.
#[derive(Drop)]
pub(crate) struct Slow<'a> {
    left: &'a [u8],
    interruptions: u32,
    line_feeds: u32,
}

impl<'a> Slow<'a> {
    pub(crate) fn new(left: &'a [u8]) -> Self {
        Slow {
            left,
            interruptions: 1_000_001,
            line_feeds: 1_000_001,
        }
    }
}

impl Read for Slow<'_> {
    fn read(&mut self, buf: &mut [u8]) -> io::Result<usize> {
        if self.interruptions > 0 {
            self.interruptions -= 1;
            return Err(ErrorKind::Interrupted.into());
        }
        if self.line_feeds > 0 {
            self.line_feeds -= 1;
            return (&b"\n"[..]).read(buf);
        }
        self.left.read(buf)
    }
}

/// Holds back what it takes until it is flushed. A flush may fail.
#[derive(Drop)]
pub(crate) struct Holding {
    held: Vec<u8>,
    pub(crate) given: Vec<u8>,
    fails: bool,
}

impl Holding {
    pub(crate) fn new(alloc: Global, fails: bool) -> Self {
        Holding {
            held: Vec::new(alloc),
            given: Vec::new(alloc),
            fails,
        }
    }
}

impl Write for Holding {
    fn write(&mut self, buf: &[u8]) -> io::Result<usize> {
        self.held.extend_from_slice(buf)?;
        Ok(buf.len())
    }

    fn flush(&mut self) -> io::Result<()> {
        if self.fails {
            return Err(ErrorKind::BrokenPipe.into());
        }
        self.given.extend_from_slice(&self.held)?;
        self.held.clear();
        Ok(())
    }
}
