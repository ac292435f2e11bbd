//! The log of connections, of peers that the tests play.
use super::{Kept, Peers, Served, Visit, expect};
use crate::connection_log::Logged;
use crate::tests::holding::holds;
use crate::tests::opening;
use crate::tests::requests::posted;
use crate::tests::requests::responses::{ADDED, REUSED};
use crate::tests::rows::{OTHER_OWNER, REQUEST};
use desk_http::{ServeEnd, serve_connections};
use desk_store::Lists;
use std::alloc::Global;
use std::cell::Cell;
use std::io::{self, ErrorKind};
use std::test::Fail;
use std::time::{Clock, Duration};

/// Each reading is 1,500 microseconds after the one before; or each fails.
#[derive(Drop)]
struct Ticking {
    micros: Cell<u64>,
    fails: bool,
}

impl Ticking {
    fn new(fails: bool) -> Self {
        Ticking {
            micros: Cell::new(0),
            fails,
        }
    }
}

impl Clock for Ticking {
    fn monotonic(&self) -> io::Result<Duration> {
        if self.fails {
            return Err(ErrorKind::Unsupported.into());
        }
        let micros = self.micros.get().saturating_add(1_500);
        self.micros.set(micros);
        Ok(Duration::from_micros(micros))
    }

    fn since_1970(&self) -> io::Result<Duration> {
        Err(ErrorKind::Unsupported.into())
    }
}

/// A log whose write fails that comes after so many.
fn log_until(alloc: Global, until_failure: usize) -> Option<Kept> {
    Some(Kept {
        octets: Vec::new(alloc),
        until_failure,
    })
}

/// Serves these peers over a new desk: how they were served, and the log afterwards.
fn logged<R: AllocGlobal>(
    rt: &R,
    visits: &[Option<Visit<'_>>],
    clock: &Ticking,
    log: Option<Kept>,
) -> Result<(Vec<Served>, Option<Kept>), Fail> {
    let count = u32::try_from(visits.len())?;
    let mut lists = opening::<Lists>(rt.alloc(), 65_536)?;
    let peers = Peers {
        coming: visits,
        served: Vec::new(rt.alloc()),
    };
    let mut port = Logged::new(peers, clock, log);
    let ended = serve_connections(rt.alloc(), &mut *lists, &mut port, count);
    let (peers, log) = port.into_parts();
    let Peers { coming: _, served } = peers;
    if ended.is_err() {
        return Err("the serving ended otherwise".into());
    }
    Ok((served, log))
}

/// A name that would break the line, if it were one.
const NO_NAME: &str =
    r#"{"ProtocolVersion":"1.0","SenderID":"of\nfice 200","ReceiverID":"desk","TransactionID":1,"MessageType":"OwnerAdd","Owner":"town"}"#;

/// The lines of the peers below, one after another.
const LINES: &str = r"200 POST /v1/messages 174 253 1500 office 1 OwnerAdd -
409 POST /v1/messages 174 268 1500 office 1 OwnerAdd 5
400 POST /v1/messages 180 201 1500 - - - 1
404 GET /v2 20 96 1500 - - - -
403 GET /v1/messages 47 97 1500 - - - -
400 POST /v1/mes 12 97 1500 - - - -
400 GET /a\x22b\x5cc 10 97 1500 - - - -
400 GET /\x01 6 97 1500 - - - -
closed - - 0 0 1500 - - - -
read POST /v1/messages 151 0 1500 - - - -
write POST /v1/messages 174 0 1500 - - - -
";

#[test]
fn a_line_for_each_connection(rt: HostRuntime) -> Result<(), Fail> {
    let owner = posted(rt.alloc(), REQUEST, "")?;
    let other = posted(rt.alloc(), OTHER_OWNER, "")?;
    let no_name = posted(rt.alloc(), NO_NAME, "")?;
    let visits = [
        Some(Visit::of(owner.as_bytes())),
        Some(Visit::of(other.as_bytes())),
        Some(Visit::of(no_name.as_bytes())),
        Some(Visit::of(b"GET /v2 HTTP/1.1\r\n\r\n")),
        Some(Visit::of(b"GET /v1/messages HTTP/1.1\r\nOrigin: http://a\r\n\r\n")),
        Some(Visit::of(b"POST /v1/mes")),
        Some(Visit::of(b"GET /a\"b\\c")),
        Some(Visit::of(b"GET /\x01 HTTP/1.1\r\n\r\n")),
        Some(Visit::of(b"")),
        Some(Visit {
            reads: 52,
            ..Visit::of(owner.as_bytes())
        }),
        Some(Visit {
            writes: 0,
            ..Visit::of(owner.as_bytes())
        }),
    ];
    let log = log_until(rt.alloc(), usize::MAX);
    let (served, log) = logged(&rt, &visits, &Ticking::new(false), log)?;
    holds(&rt, served.len() == visits.len(), "how many were served");
    let log = log.ok_or("the log is gone")?;
    holds(&rt, log.octets.as_slice() == LINES.as_bytes(), LINES);
    Ok(())
}

/// What two peers get, whatever becomes of the log.
static BOTH: [(ServeEnd, &str); 2] = [(ServeEnd::Done(200), ADDED), (ServeEnd::Done(409), REUSED)];

/// A log that fails, no time, and no log: the peers are served as they are with a log.
#[test]
fn lines_that_are_left_out(rt: HostRuntime) -> Result<(), Fail> {
    let owner = posted(rt.alloc(), REQUEST, "")?;
    let other = posted(rt.alloc(), OTHER_OWNER, "")?;
    let visits = [
        Some(Visit::of(owner.as_bytes())),
        Some(Visit::of(other.as_bytes())),
    ];
    let failing = log_until(rt.alloc(), 0);
    let (served, log) = logged(&rt, &visits, &Ticking::new(false), failing)?;
    expect(&rt, &served, &BOTH);
    let log = log.ok_or("the log is gone")?;
    let second = b"409 POST /v1/messages 174 268 1500 office 1 OwnerAdd 5\n".as_slice();
    holds(&rt, log.octets.as_slice() == second, "a log that fails");
    let untimed = log_until(rt.alloc(), usize::MAX);
    let (served, log) = logged(&rt, &visits, &Ticking::new(true), untimed)?;
    expect(&rt, &served, &BOTH);
    let log = log.ok_or("the log is gone")?;
    holds(&rt, log.octets.is_empty(), "without time");
    let (served, log) = logged(&rt, &visits, &Ticking::new(false), None)?;
    expect(&rt, &served, &BOTH);
    holds(&rt, log.is_none(), "without a log");
    Ok(())
}
