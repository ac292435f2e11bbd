//! Connections one after another: of peers that the tests play, and over sockets.
ghost use Rattle.desk_http.specs.Served.{unknown};

mod logged;
mod loopback;

use crate::tests::failing::FAILURES;
use crate::tests::holding::{holds, is_text};
use crate::tests::opening;
use crate::tests::requests::responses::{
    ADDED, DEVICE_ADDED, EMPTY_REPORT, NO_GATEWAY, REUSED, UNAVAILABLE,
};
use crate::tests::requests::{DEVICE_ADD, posted};
use crate::tests::rows::{OTHER_OWNER, REQUEST};
use crate::tests::streams::Pieces;
use crate::tests::switched::Switched;
use desk_http::{Listening, NetworkFault, ServeEnd, serve_connections};
use desk_store::{Keeper, Lists};
use std::alloc::Global;
use std::io::{self, ErrorKind, Write};
use std::process::Abort;
use std::test::Fail;

/// What a peer sends. The read and the write of it that come after so many fail.
#[derive(Clone, Copy)]
struct Visit<'a> {
    sends: &'a [u8],
    reads: usize,
    writes: usize,
}

impl<'a> Visit<'a> {
    fn of(sends: &'a [u8]) -> Self {
        Visit {
            sends,
            reads: usize::MAX,
            writes: usize::MAX,
        }
    }
}

/// Keeps what is written, also after the one write that fails, which counts down.
#[derive(Drop)]
struct Kept {
    octets: Vec<u8>,
    until_failure: usize,
}

impl Write for Kept {
    fn write(&mut self, buf: &[u8]) -> io::Result<usize> {
        if self.until_failure == 0 {
            self.until_failure = usize::MAX;
            return Err(ErrorKind::BrokenPipe.into());
        }
        self.until_failure -= 1;
        self.octets.extend_from_slice(buf)?;
        Ok(buf.len())
    }

    fn flush(&mut self) -> io::Result<()> {
        Ok(())
    }
}

/// How a peer was served: what was left of what it sends, and what was written to it.
#[derive(Drop)]
struct Served {
    end: ServeEnd,
    left: usize,
    written: Vec<u8>,
}

/// Peers that come in this order, where none stands for one that can't be accepted, and how they were served.
struct Peers<'a> {
    coming: &'a [Option<Visit<'a>>],
    served: Vec<Served>,
}

impl<'a> Listening for Peers<'a> {
    type Reader = Pieces<'a>;

    type Writer = Kept;

    ghost meaning = { unknown };

    fn accept(&mut self, alloc: Global) -> io::Result<(Pieces<'a>, Kept)> {
        if self.coming.is_empty() {
            return Err(ErrorKind::NotConnected.into());
        }
        let next = self.coming[0];
        self.coming = &self.coming[1..];
        match next {
            Some(visit) => {
                let written = Kept {
                    octets: Vec::new(alloc),
                    until_failure: visit.writes,
                };
                Ok((Pieces::new(visit.sends, visit.reads), written))
            }
            None => Err(ErrorKind::ConnectionAborted.into()),
        }
    }

    fn finish(&mut self, reader: Pieces<'a>, writer: Kept, end: ServeEnd) -> io::Result<()> {
        self.served.push(Served {
            end,
            left: reader.left.len(),
            written: writer.octets,
        })?;
        Ok(())
    }
}

/// Serves these peers over a new desk, and returns how. It ends with `ends` and leaves `unserved` peers.
fn serve_visits<R: AllocGlobal>(
    rt: &R,
    visits: &[Option<Visit<'_>>],
    connections: u32,
    ends: Result<(), NetworkFault>,
    unserved: usize,
) -> Result<Vec<Served>, Fail> {
    let mut lists = opening::<Lists>(rt.alloc(), 65_536)?;
    serve_by(rt, &mut *lists, visits, connections, ends, unserved)
}

/// The same by this store.
fn serve_by<R: AllocGlobal, K: Keeper>(
    rt: &R,
    keeper: &mut K,
    visits: &[Option<Visit<'_>>],
    connections: u32,
    ends: Result<(), NetworkFault>,
    unserved: usize,
) -> Result<Vec<Served>, Fail> {
    let mut peers = Peers {
        coming: visits,
        served: Vec::new(rt.alloc()),
    };
    let ended = serve_connections(rt.alloc(), keeper, &mut peers, connections);
    let Peers { coming, served } = peers;
    if ended != ends {
        return Err("the serving ended otherwise".into());
    }
    if coming.len() != unserved {
        return Err("another number of peers was served".into());
    }
    Ok(served)
}

/// They were served so, in this order.
fn expect(rt: &impl Abort, served: &[Served], wanted: &[(ServeEnd, &str)]) {
    holds(rt, served.len() == wanted.len(), "how many were served");
    for (one, (end, response)) in served.iter().zip(wanted) {
        holds(rt, one.end == *end, response);
        is_text(rt, "a connection", response, one.written.as_slice());
    }
}

#[test]
fn peers_in_order(rt: HostRuntime) -> Result<(), Fail> {
    let owner = posted(rt.alloc(), REQUEST, "GET")?;
    let device = posted(rt.alloc(), DEVICE_ADD, "")?;
    let report = b"GET /v1/reports/town/2024-02 HTTP/1.1\r\n\r\n";
    let visits = [
        Some(Visit::of(owner.as_bytes())),
        Some(Visit::of(report)),
        Some(Visit::of(device.as_bytes())),
        Some(Visit::of(report)),
    ];
    let served = serve_visits(&rt, &visits, 3, Ok(()), 1)?;
    expect(
        &rt,
        &served,
        &[
            (ServeEnd::Done(200), ADDED),
            (ServeEnd::Done(200), EMPTY_REPORT),
            (ServeEnd::Done(200), DEVICE_ADDED),
        ],
    );
    // What the first sent after its request is let go with it.
    let first = served.first().ok_or("none was served")?;
    holds(&rt, first.left == 3, "what is left unread");
    Ok(())
}

#[test]
fn peers_that_fail(rt: HostRuntime) -> Result<(), Fail> {
    let owner = posted(rt.alloc(), REQUEST, "")?;
    let other = posted(rt.alloc(), OTHER_OWNER, "")?;
    let visits = [
        None,
        Some(Visit::of(b"")),
        Some(Visit {
            reads: 52,
            ..Visit::of(other.as_bytes())
        }),
        Some(Visit {
            writes: 0,
            ..Visit::of(owner.as_bytes())
        }),
        None,
        Some(Visit::of(owner.as_bytes())),
        Some(Visit::of(other.as_bytes())),
    ];
    // One more is asked for than comes.
    let served = serve_visits(&rt, &visits, 6, GIVEN_UP, 0)?;
    expect(
        &rt,
        &served,
        &[
            (ServeEnd::Closed, ""),
            (ServeEnd::Read, ""),
            (ServeEnd::Write, ""),
            (ServeEnd::Done(200), ADDED),
            (ServeEnd::Done(409), REUSED),
        ],
    );
    Ok(())
}

const GIVEN_UP: Result<(), NetworkFault> = Err(NetworkFault::Accepts);

/// The peer comes after the first number of failed accepts, and once more after the second: how two connections are served.
fn after_failures<R: AllocGlobal + Abort>(
    rt: &R,
    visit: Visit<'_>,
    failures: (usize, usize),
    ends: Result<(), NetworkFault>,
    unserved: usize,
    wanted: &[(ServeEnd, &str)],
) -> Result<(), Fail> {
    let mut visits = Vec::new(rt.alloc());
    for _ in 0..failures.0 {
        visits.push(None)?;
    }
    visits.push(Some(visit))?;
    for _ in 0..failures.1 {
        visits.push(None)?;
    }
    visits.push(Some(visit))?;
    let served = serve_visits(rt, visits.as_slice(), 2, ends, unserved)?;
    expect(rt, &served, wanted);
    Ok(())
}

/// None of those that fail counts as served, also where they are one fewer than end the serving.
#[test]
fn accepts_that_fail(rt: HostRuntime) -> Result<(), Fail> {
    let owner = posted(rt.alloc(), REQUEST, "")?;
    let visit = Visit::of(owner.as_bytes());
    let added = (ServeEnd::Done(200), ADDED);
    after_failures(&rt, visit, (63, 63), Ok(()), 0, &[added, added])?;
    after_failures(&rt, visit, (63, 64), GIVEN_UP, 1, &[added])?;
    after_failures(&rt, visit, (64, 0), GIVEN_UP, 2, &[])
}

#[test]
fn no_peers(rt: HostRuntime) -> Result<(), Fail> {
    let served = serve_visits(&rt, &[Some(Visit::of(b""))], 0, Ok(()), 1)?;
    expect(&rt, &served, &[]);
    Ok(())
}

/// How connections are served by a store that fails for good.
static DOWN: [(ServeEnd, &str); 3] = [
    (ServeEnd::Done(503), UNAVAILABLE),
    (ServeEnd::Done(503), UNAVAILABLE),
    (ServeEnd::Done(503), UNAVAILABLE),
];

/// And by a peer whose first call failed.
static ONCE: [(ServeEnd, &str); 3] = [
    (ServeEnd::Done(503), UNAVAILABLE),
    (ServeEnd::Done(200), ADDED),
    (ServeEnd::Done(404), NO_GATEWAY),
];

/// The first call of the store fails. The next connections are served, and find the store as it is then.
#[test]
fn a_store_that_fails(rt: HostRuntime) -> Result<(), Fail> {
    let owner = posted(rt.alloc(), REQUEST, "")?;
    let visits = [
        Some(Visit::of(owner.as_bytes())),
        Some(Visit::of(owner.as_bytes())),
        Some(Visit::of(b"GET /v1/bands/gw-a HTTP/1.1\r\n\r\n")),
    ];
    for failure in &FAILURES {
        let lists = opening::<Lists>(rt.alloc(), 65_536)?;
        let mut switched = Switched::new(lists, *failure, 0);
        let served = serve_by(&rt, &mut switched, &visits, 3, Ok(()), 0)?;
        let wanted = if failure.stays() { &DOWN } else { &ONCE };
        expect(&rt, &served, wanted);
    }
    Ok(())
}
