//! How long a stream waits, by a clock of a fixed time and a stream that checks the timeout it is given.
use super::{Awaited, Timed};
use crate::tests::holding::holds;
use std::io::{self, ErrorKind, Read, Write};
use std::net::OpenStream;
use std::test::Fail;
use std::time::{Clock, Duration, Instant};

/// A clock that always reads the same number of milliseconds.
#[derive(Drop)]
struct Standing {
    millis: u64,
}

impl Clock for Standing {
    fn monotonic(&self) -> io::Result<Duration> {
        Ok(Duration::from_millis(self.millis))
    }

    fn since_1970(&self) -> io::Result<Duration> {
        Ok(Duration::from_millis(self.millis))
    }
}

/// Gives one octet after another and takes each, if its timeout is this number of milliseconds.
#[derive(Drop)]
struct Wanting {
    millis: u64,
}

impl Wanting {
    fn told(&self, wait: Option<Duration>) -> io::Result<()> {
        if wait == Some(Duration::from_millis(self.millis)) {
            return Ok(());
        }
        Err(ErrorKind::InvalidInput.into())
    }
}

impl OpenStream for Wanting {
    fn set_read_timeout(&self, dur: Option<Duration>) -> io::Result<()> {
        self.told(dur)
    }

    fn set_write_timeout(&self, dur: Option<Duration>) -> io::Result<()> {
        self.told(dur)
    }
}

impl Read for Wanting {
    fn read(&mut self, buf: &mut [u8]) -> io::Result<usize> {
        Ok(buf.len().min(1))
    }
}

impl Write for Wanting {
    fn write(&mut self, buf: &[u8]) -> io::Result<usize> {
        Ok(buf.len().min(1))
    }

    fn flush(&mut self) -> io::Result<()> {
        Ok(())
    }
}

/// What is waited for, how many milliseconds after the connection came, and how many the wait may take: none if it is over.
static WAITS: [(Awaited, u64, Option<u64>); 10] = [
    (Awaited::FirstOctet, 0, Some(1_000)),
    (Awaited::FirstOctet, 999, Some(1)),
    (Awaited::FirstOctet, 1_000, None),
    (Awaited::Request, 0, Some(5_000)),
    (Awaited::Request, 5_000, Some(5_000)),
    (Awaited::Request, 9_999, Some(1)),
    (Awaited::Request, 10_000, None),
    (Awaited::Close, 0, Some(1_000)),
    (Awaited::Close, 1_000, None),
    (Awaited::Close, 60_000, None),
];

/// Returns whether the call of a stream reads or writes one octet if a wait is given, and else times out.
fn ends(call: io::Result<usize>, wait: Option<u64>) -> bool {
    match (call, wait) {
        (Ok(count), Some(_)) => count == 1,
        (Err(error), None) => error.kind() == ErrorKind::TimedOut,
        _ => false,
    }
}

#[test]
fn waits(rt: HostRuntime) -> Result<(), Fail> {
    let since = Instant::now(&Standing { millis: 0 })?;
    for (awaited, millis, wait) in &WAITS {
        let clock = Standing { millis: *millis };
        let mut timed = Timed {
            clock: &clock,
            since,
            awaited: *awaited,
            stream: Wanting {
                millis: wait.unwrap_or(0),
            },
        };
        holds(&rt, ends(timed.write(b"ab"), *wait), "a write");
        holds(&rt, ends(timed.read(&mut [0u8; 2]), *wait), "a read");
    }
    Ok(())
}

/// Once the first octet has come the request has its own times, and a peer that is to close has its own from then on.
#[test]
fn waits_one_after_another(rt: HostRuntime) -> Result<(), Fail> {
    let clock = Standing { millis: 600 };
    let mut timed = Timed {
        clock: &clock,
        since: Instant::now(&Standing { millis: 0 })?,
        awaited: Awaited::FirstOctet,
        stream: Wanting { millis: 400 },
    };
    let mut octets = [0u8; 2];
    holds(
        &rt,
        ends(timed.read(&mut octets), Some(400)),
        "the first octet",
    );
    timed.stream.millis = 5_000;
    holds(&rt, ends(timed.read(&mut octets), Some(5_000)), "another");
    timed.await_close()?;
    timed.stream.millis = 1_000;
    holds(
        &rt,
        ends(timed.read(&mut octets), Some(1_000)),
        "until it closes",
    );
    Ok(())
}
