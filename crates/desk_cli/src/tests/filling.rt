//! A disk that fills. A desk whose file is still open reports `Size`, stays as it was, and hears the message once there is room; otherwise
//! it reports `Disk`, and has failed until it is opened again.
ghost use Rattle.std.specs.Prelude.{◌≡◌, ◌+◌, true, OnErr};
ghost use Rattle.sqlite_disk.specs.Disk.{CountsFault};
ghost use Rattle.sqlite_disk.specs.Refusal.{finds_no_room};
ghost use Rattle.sqlite_disk.specs.Tally.{both_counts};

use super::fuses::{GoesOn, Step, empty, file_of, in_files, rows_after_each, told_until_stop};
use super::holding::holds;
use super::requests::responses::UNUSED_BANDS;
use super::requests::{expect, posted};
use super::room::expect_no_room;
use super::rows::Delivery;
use super::stops::deliveries;
use super::{config, expect_told, hear_each, made};
use desk_engine::{Outcome, deliver};
use desk_http::{ServeEnd, serve_one};
use desk_store::{Keeper, StoreFault};
use sqlite::{Alter, Connection, Files};
use sqlite_disk::{Disk, Memory, Tally};
use std::alloc::Global;
use std::cell::Cell;
use std::io::{self, ErrorKind};
use std::process::Abort;
use std::test::Fail;

/// A file on a disk with room for so many writes, all of one octet or all of more; the others always find room. Once there is none, each of
/// them fails and changes nothing.
#[derive(Drop)]
pub(crate) struct Filling<'a, D: Disk> {
    inner: D,
    room: &'a Cell<u64>,
    /// Whether writes of one octet are counted, or those of more.
    counts_single: bool,
    refused: u64,
}

impl<'a, D: Disk> Filling<'a, D> {
    fn new(inner: D, room: &'a Cell<u64>, counts_single: bool) -> Self {
        Filling {
            inner,
            room,
            counts_single,
            refused: 0,
        }
    }
}

/// Takes the room of a write. Returns an error if there is none.
fn find_room(room: &Cell<u64>, refused: &mut u64) -> io::Result<()>
    ensures faults { CountsFault result refused.old refused.new }
    ensures full { OnErr result (finds_no_room result ≡ true) }
{
    match room.get().checked_sub(1) {
        Some(left) => {
            room.set(left);
            Ok(())
        }
        None => {
            *refused = refused.saturating_add(1);
            Err(ErrorKind::StorageFull.into())
        }
    }
}

impl<D: Disk> Disk for Filling<'_, D> {
    ghost seen = { λ f. D.Disk.seen f.inner };

    ghost may_leave = { λ f. D.Disk.may_leave f.inner };

    ghost is_usable = { λ f. D.Disk.is_usable f.inner };

    ghost faults = { λ f. D.Disk.faults f.inner + f.refused };

    ghost tally_of = { λ f. both_counts (D.Disk.tally_of f.inner) (record { caught = 0; refused = f.refused }) };

    ghost is_rotten = { λ f. D.Disk.is_rotten f.inner };

    ghost is_clean = { λ f. D.Disk.is_clean f.inner };

    ghost key_of = { λ f. D.Disk.key_of f.inner };

    ghost is_fair = { λ f. D.Disk.is_fair f.inner };

    ghost fair_if_clean = { λ f. D.Disk.fair_if_clean f.inner };

    ghost seen_may_stay = { λ f. D.Disk.seen_may_stay f.inner };

    ghost is_mixing = { λ f. D.Disk.is_mixing f.inner };

    fn mixes(&self) -> bool {
        self.inner.mixes()
    }

    fn key(&self) -> u64 {
        self.inner.key()
    }

    fn tally(&self) -> Tally {
        self.inner.tally().plus(Tally {
            caught: 0,
            refused: self.refused,
        })
    }

    fn may_be_used(&self) -> bool {
        self.inner.may_be_used()
    }

    fn len(&mut self) -> io::Result<usize> {
        self.inner.len()
    }

    fn read_at(&mut self, at: usize, buf: &mut [u8]) -> io::Result<()> {
        self.inner.read_at(at, buf)
    }

    fn read_checked(&mut self, key: u64, want: u64, at: usize, buf: &mut [u8]) -> io::Result<()> {
        self.inner.read_checked(key, want, at, buf)
    }

    fn write_at(&mut self, at: usize, bytes: &[u8]) -> io::Result<()> {
        if (bytes.len() == 1) == self.counts_single {
            find_room(self.room, &mut self.refused)?;
        }
        self.inner.write_at(at, bytes)
    }

    fn set_len(&mut self, len: usize) -> io::Result<()> {
        self.inner.set_len(len)
    }

    fn sync(&mut self) -> io::Result<()> {
        self.inner.sync()
    }
}

/// Copies of the files on a disk with this room.
pub(crate) fn files_that_fill<'a>(
    alloc: Global,
    files: &Files<Memory>,
    room: &'a Cell<u64>,
    counts_single: bool,
) -> Result<Files<Filling<'a, Memory>>, Fail> {
    Ok(Files {
        log: Filling::new(file_of(alloc, files.log.bytes())?, room, counts_single),
        db: Filling::new(file_of(alloc, files.db.bytes())?, room, counts_single),
    })
}

/// The files without a limit.
fn unlimited(files: Files<Filling<'_, Memory>>) -> Files<Memory> {
    Files {
        log: files.log.inner,
        db: files.db.inner,
    }
}

/// More writes than a run makes.
const MANY: u64 = 1_000;

const BANDS_ASKED: &str = "GET /v1/bands/gw-a HTTP/1.1\r\n\r\n";

/// A desk is made and hears three messages, and then all of them on a disk with little room.
#[derive(Drop)]
struct Fills<'a> {
    deliveries: &'a [Delivery],
    room: &'a Cell<u64>,
    writes: u64,
    answered: usize,
    /// Why the next one wasn't answered, if one wasn't.
    fault: Option<StoreFault>,
}

impl Fills<'_> {
    /// Delivers in order until one isn't answered.
    fn deliver_until_full<R: Abort + AllocGlobal, K: Keeper>(&mut self, rt: &R, keeper: &mut K) {
        let deliveries = self.deliveries;
        for (place, delivery) in deliveries.iter().enumerate() {
            let outcome = deliver(rt.alloc(), keeper, delivery.text.as_bytes());
            if let Outcome::Unavailable(fault) = outcome {
                self.answered = place;
                self.fault = Some(fault);
                return;
            }
            expect_told(rt, &outcome, delivery);
        }
        self.answered = deliveries.len();
    }

    /// The message has no room, and nothing has changed. Once there is room it is heard by HTTP, and those after it as ever.
    fn expect_open<R: Abort + AllocGlobal, K: Keeper>(
        &mut self,
        rt: &R,
        keeper: &mut K,
    ) -> Result<(), Fail> {
        let deliveries = self.deliveries;
        let before = deliveries.get(..self.answered).ok_or("no messages")?;
        let after = deliveries.get(self.answered..).ok_or("no messages")?;
        let next = after.first().ok_or("no message")?;
        expect_no_room(rt, keeper, next)?;
        hear_each(rt, keeper, before);
        expect(rt, keeper, BANDS_ASKED.as_bytes(), 0, 200, UNUSED_BANDS);
        self.room.set(u64::MAX);
        expect_served(rt, keeper, next)?;
        hear_each(rt, keeper, after);
        self.answered = deliveries.len();
        Ok(())
    }

    /// The desk hears them until its disk is full, and then what it has to.
    fn hear<R: Abort + AllocGlobal, K: Keeper>(
        &mut self,
        rt: &R,
        keeper: &mut K,
    ) -> Result<(), Fail> {
        hear_each(rt, keeper, self.deliveries.get(..3).ok_or("no messages")?);
        self.room.set(self.writes);
        self.deliver_until_full(rt, keeper);
        match self.fault {
            Some(StoreFault::Size) => self.expect_open(rt, keeper),
            Some(_) => {
                self.room.set(u64::MAX);
                let answered = told_until_stop(rt, keeper, self.deliveries);
                holds(rt, answered == 0, "that it has failed");
                Ok(())
            }
            None => Ok(()),
        }
    }
}

/// A POST of the message is answered.
fn expect_served<R: Abort + AllocGlobal, K: Keeper>(
    rt: &R,
    keeper: &mut K,
    delivery: &Delivery,
) -> Result<(), Fail> {
    let input = posted(rt.alloc(), delivery.text.as_str(), "")?;
    let mut written = Vec::new(rt.alloc());
    let end = serve_one(rt.alloc(), keeper, &mut input.as_bytes(), &mut written);
    holds(rt, end == ServeEnd::Done(200), delivery.wanted.as_str());
    holds(
        rt,
        written.ends_with(delivery.wanted.as_bytes()),
        delivery.wanted.as_str(),
    );
    Ok(())
}

impl Step for Fills<'_> {
    fn take<R: Abort + AllocGlobal, S: Alter + Drop>(
        &mut self,
        rt: &R,
        conn: Connection<S>,
    ) -> Result<Connection<S>, Fail> {
        let config = config(65_536).ok_or("no configuration")?;
        let mut tables = made(rt.alloc(), conn, config)?;
        self.hear(rt, &mut *tables)?;
        Ok(Box::into_inner(tables).close())
    }
}

/// The disk has room for each number of writes, until a desk hears all. What its files then hold is what stood, or that with the message
/// under way where the desk has failed.
fn desk_fills<R: Abort + AllocGlobal>(
    rt: &R,
    counts_single: bool,
    wanted: StoreFault,
) -> Result<(), Fail> {
    let all = deliveries(rt.alloc())?;
    let deliveries = all.get(..7).ok_or("no messages")?;
    let rows = rows_after_each(rt, deliveries)?;
    for writes in 0..MANY {
        let room = Cell::new(u64::MAX);
        let mut fills = Fills {
            deliveries,
            room: &room,
            writes,
            answered: 0,
            fault: None,
        };
        let files = files_that_fill(rt.alloc(), &empty(rt.alloc()), &room, counts_single)?;
        let (_, left) = in_files(rt, files, &mut fills)?;
        let mut goes_on = GoesOn {
            answered: fills.answered,
            deliveries,
            wanted: &rows,
        };
        let (is_opened, _) = in_files(rt, unlimited(left), &mut goes_on)?;
        holds(rt, is_opened, "that they are opened");
        if fills.fault.is_none() {
            holds(rt, writes > 3, "that it fills");
            return Ok(());
        }
        holds(rt, fills.fault == Some(wanted), "why it isn't heard");
    }
    Err("it fills always".into())
}

#[test]
fn a_desk_whose_disk_fills(rt: HostRuntime) -> Result<(), Fail> {
    desk_fills(&rt, false, StoreFault::Size)
}

/// A message is committed by a write of one octet: where that fails, it may be in the file or not.
#[test]
fn a_desk_whose_disk_fills_at_a_commit(rt: HostRuntime) -> Result<(), Fail> {
    desk_fills(&rt, true, StoreFault::Disk)
}
