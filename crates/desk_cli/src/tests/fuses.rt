//! One of a desk's two files fails: it passes so many calls on, and each one after them fails and changes nothing.
//!
//! What is there then is opened as a process leaves it that has ended, and as a machine does that has lost all that wasn't synced. Its
//! rows are those before the message under way, or those with it; each message is then told what it is told without a stop, and the
//! same rows are left. `checks/refused_commands.py` stops the program so, over files of this machine.
use super::holding::{holds, holds_at};
use super::migrating::{make_first, moved};
use super::rows::Delivery;
use super::stops::{all_deliveries, deliveries, expect_found, rows_after, rows_in};
use super::{config, expect_told, found, made, ready, told_each};
use desk_engine::{Outcome, deliver};
use desk_store::{Keeper, StoreFault};
use desk_tables::Tables;
use sqlite::{Alter, Connection, FileStore, Files, Options};
use sqlite_disk::{Crash, Disk, Fuse, Memory};
use std::alloc::Global;
use std::process::Abort;
use std::test::Fail;

/// More calls than a run makes.
const MANY: u64 = 10_000;

/// What is done with a database. One function does it with a database in files: a proof that names a connection over files and makes
/// a call with it takes long.
pub(crate) trait Step {
    fn take<R: Abort + AllocGlobal, S: Alter + Drop>(
        &mut self,
        rt: &R,
        conn: Connection<S>,
    ) -> Result<Connection<S>, Fail>;
}

/// A connection to the files, or, where they can't be opened, what is left of them.
pub(super) fn connected<D: Disk + Drop>(
    alloc: Global,
    files: Files<D>,
    options: Options,
) -> Result<Connection<FileStore<D>>, Files<D>> {
    if !files.may_be_used() {
        return Err(files);
    }
    match Connection::open_files(alloc, files, options) {
        Ok(conn) => Ok(conn),
        Err((_, left)) => Err(left.into_files()),
    }
}

/// The connection's files.
fn files_of<D: Disk + Drop>(conn: Connection<FileStore<D>>) -> Files<D> {
    conn.into_store().close()
}

/// The step is taken, where the files can be opened. Whether it was, and what is left of the files.
pub(crate) fn in_files<R: Abort + AllocGlobal, D: Disk + Drop, T: Step>(
    rt: &R,
    files: Files<D>,
    step: &mut T,
) -> Result<(bool, Files<D>), Fail> {
    match connected(rt.alloc(), files, Options::new(1)) {
        Ok(conn) => Ok((true, files_of(step.take(rt, conn)?))),
        Err(files) => Ok((false, files)),
    }
}

/// The octets in a file that isn't fused.
pub(super) fn file_of(alloc: Global, octets: &[u8]) -> Result<Memory, Fail> {
    let mut file = Memory::new(alloc);
    file.write_at(0, octets)?;
    file.sync()?;
    Ok(file)
}

/// Files that have nothing.
pub(crate) fn empty(alloc: Global) -> Files<Memory> {
    Files {
        log: Memory::new(alloc),
        db: Memory::new(alloc),
    }
}

/// The connection's files, the log moved into the first.
fn moved_files<D: Disk + Drop>(conn: Connection<FileStore<D>>) -> Result<Files<D>, Fail> {
    match conn.close_files() {
        Ok(files) => Ok(files),
        Err((error, _)) => Err(error.into()),
    }
}

/// Files that the step fills. The log is moved into the first, so that opening them takes few calls.
pub(crate) fn filled<R: Abort + AllocGlobal, T: Step>(
    rt: &R,
    step: &mut T,
) -> Result<Files<Memory>, Fail> {
    match connected(rt.alloc(), empty(rt.alloc()), Options::new(1)) {
        Ok(conn) => moved_files(step.take(rt, conn)?),
        Err(_) => Err("they aren't opened".into()),
    }
}

/// Copies of the files, of which the log passes so many calls on, or the first file does.
pub(crate) fn fused(
    alloc: Global,
    files: &Files<Memory>,
    is_log: bool,
    calls: u64,
) -> Result<Files<Fuse<Memory>>, Fail> {
    let (log_calls, db_calls) = if is_log {
        (calls, u64::MAX)
    } else {
        (u64::MAX, calls)
    };
    Ok(Files {
        log: Fuse::new(file_of(alloc, files.log.bytes())?, log_calls),
        db: Fuse::new(file_of(alloc, files.db.bytes())?, db_calls),
    })
}

/// Copies of the files that aren't fused.
fn unfused(alloc: Global, files: &Files<Fuse<Memory>>) -> Result<Files<Memory>, Fail> {
    Ok(Files {
        log: file_of(alloc, files.log.inner().bytes())?,
        db: file_of(alloc, files.db.inner().bytes())?,
    })
}

/// The step is taken with copies of the files, as a process leaves them that has ended, and as a machine does that has lost all that
/// wasn't synced.
pub(crate) fn expect_left<R: Abort + AllocGlobal, T: Step>(
    rt: &R,
    files: Files<Fuse<Memory>>,
    step: &mut T,
) -> Result<(), Fail> {
    let mut files = files;
    for loses_unsynced in [false, true] {
        if loses_unsynced {
            files.log.crash();
            files.db.crash();
        }
        let (is_opened, _) = in_files(rt, unfused(rt.alloc(), &files)?, step)?;
        holds(rt, is_opened, "that they are opened");
    }
    Ok(())
}

// ---- a desk that is made and hears

/// Delivers in order. Each is told what it is to be told until the disk fails, and from then on each is told that it did, and so is
/// who asks for the counts. How many were told before.
pub(super) fn told_until_stop<R: Abort + AllocGlobal, K: Keeper>(
    rt: &R,
    keeper: &mut K,
    deliveries: &[Delivery],
) -> usize {
    let mut stopped = None;
    for (place, delivery) in deliveries.iter().enumerate() {
        let outcome = deliver(rt.alloc(), keeper, delivery.text.as_bytes());
        if let Outcome::Unavailable(fault) = outcome {
            holds(rt, fault == StoreFault::Disk, delivery.wanted.as_str());
            stopped = stopped.or(Some(place));
        } else {
            holds(rt, stopped.is_none(), delivery.wanted.as_str());
            expect_told(rt, &outcome, delivery);
        }
    }
    let tells_counts = keeper.counts().is_ok();
    holds(rt, tells_counts == stopped.is_none(), "the counts");
    stopped.unwrap_or(deliveries.len())
}

/// A desk is made, and hears the messages until the disk fails: how many were answered.
#[derive(Drop)]
pub(super) struct Hears<'a> {
    pub(super) deliveries: &'a [Delivery],
    pub(super) answered: usize,
}

impl Step for Hears<'_> {
    fn take<R: Abort + AllocGlobal, S: Alter + Drop>(
        &mut self,
        rt: &R,
        conn: Connection<S>,
    ) -> Result<Connection<S>, Fail> {
        let config = config(65_536).ok_or("no configuration")?;
        match Tables::create(rt.alloc(), ready(conn)?, config) {
            Ok(tables) => {
                let mut tables = Box::new(rt.alloc(), tables)?;
                self.answered = told_until_stop(rt, &mut *tables, self.deliveries);
                Ok(Box::into_inner(tables).close())
            }
            Err((fault, conn)) => {
                holds(rt, fault == StoreFault::Disk, "why no desk is made");
                Ok(conn)
            }
        }
    }
}

/// The database of the desk. Where none was made it is made now.
fn opened_or_made<R: Abort + AllocGlobal, S: Alter + Drop>(
    rt: &R,
    conn: Connection<S>,
) -> Result<Connection<S>, Fail> {
    match Tables::open(rt.alloc(), ready(conn)?) {
        Ok(tables) => Ok(tables.close()),
        Err((fault, conn)) => {
            holds(rt, fault == StoreFault::NotADesk, "why no desk is opened");
            let config = config(65_536).ok_or("no configuration")?;
            Ok(Box::into_inner(made(rt.alloc(), conn, config)?).close())
        }
    }
}

/// What the database holds is what stood after so many messages, or with the next one too; and all are told as without a stop.
#[derive(Drop)]
pub(super) struct GoesOn<'a> {
    pub(super) answered: usize,
    pub(super) deliveries: &'a [Delivery],
    pub(super) wanted: &'a [String],
}

impl Step for GoesOn<'_> {
    fn take<R: Abort + AllocGlobal, S: Alter + Drop>(
        &mut self,
        rt: &R,
        conn: Connection<S>,
    ) -> Result<Connection<S>, Fail> {
        let mut conn = opened_or_made(rt, conn)?;
        let rows = rows_in(rt.alloc(), &mut conn)?;
        let mut either = self.wanted.iter().skip(self.answered).take(2);
        holds_at(rt, either.any(|one| *one == rows), self.answered);
        let conn = told_each(rt, found(rt.alloc(), conn)?, self.deliveries);
        let whole = self.wanted.last().ok_or("no rows")?;
        expect_found(rt, conn, self.deliveries, whole)
    }
}

/// The rows of a desk that isn't stopped: of one that has heard nothing, and after each message.
pub(super) fn rows_after_each<R: Abort + AllocGlobal>(
    rt: &R,
    deliveries: &[Delivery],
) -> Result<Vec<String>, Fail> {
    let mut all = Vec::new(rt.alloc());
    for count in 0..=deliveries.len() {
        all.push(rows_after(rt, &deliveries[..count])?)?;
    }
    Ok(all)
}

/// A file stops after each number of calls, until a desk is made and hears all without a stop.
fn desk_stops<R: Abort + AllocGlobal>(rt: &R, is_log: bool) -> Result<(), Fail> {
    let deliveries = all_deliveries(rt.alloc())?;
    let wanted = rows_after_each(rt, &deliveries)?;
    let empty = empty(rt.alloc());
    for calls in 0..MANY {
        let mut hears = Hears {
            deliveries: &deliveries,
            answered: 0,
        };
        let files = fused(rt.alloc(), &empty, is_log, calls)?;
        let (_, left) = in_files(rt, files, &mut hears)?;
        let answered = hears.answered;
        let mut goes_on = GoesOn {
            answered,
            deliveries: &deliveries,
            wanted: &wanted,
        };
        expect_left(rt, left, &mut goes_on)?;
        if answered == deliveries.len() {
            holds(rt, calls > 1, "that it stops");
            return Ok(());
        }
    }
    Err("it stops always".into())
}

#[test]
fn a_desk_whose_log_stops(rt: HostRuntime) -> Result<(), Fail> {
    desk_stops(&rt, true)
}

#[test]
fn a_desk_whose_first_file_stops(rt: HostRuntime) -> Result<(), Fail> {
    desk_stops(&rt, false)
}

// ---- a desk that is moved

/// A desk of schema 1 is made.
#[derive(Drop)]
struct MakesFirst;

impl Step for MakesFirst {
    fn take<R: Abort + AllocGlobal, S: Alter + Drop>(
        &mut self,
        rt: &R,
        conn: Connection<S>,
    ) -> Result<Connection<S>, Fail> {
        let mut conn = conn;
        make_first(rt, &mut conn)?;
        Ok(conn)
    }
}

/// The desk is moved, unless the disk fails.
#[derive(Drop)]
struct Moves {
    is_moved: bool,
}

impl Step for Moves {
    fn take<R: Abort + AllocGlobal, S: Alter + Drop>(
        &mut self,
        rt: &R,
        conn: Connection<S>,
    ) -> Result<Connection<S>, Fail> {
        let (fault, conn) = moved(rt.alloc(), conn)?;
        self.is_moved = fault.is_none();
        let is_told = fault.is_none() || fault == Some(StoreFault::Disk);
        holds(rt, is_told, "why it isn't moved");
        Ok(conn)
    }
}

/// The database holds the desk, of schema 1 or, where it was told to be moved, of schema 2, with all its rows.
#[derive(Drop)]
struct IsComplete<'a> {
    is_moved: bool,
    deliveries: &'a [Delivery],
    rows: &'a String,
}

impl Step for IsComplete<'_> {
    fn take<R: Abort + AllocGlobal, S: Alter + Drop>(
        &mut self,
        rt: &R,
        conn: Connection<S>,
    ) -> Result<Connection<S>, Fail> {
        let (fault, conn) = moved(rt.alloc(), conn)?;
        let is_first = fault.is_none() && !self.is_moved;
        holds(
            rt,
            is_first || fault == Some(StoreFault::SchemaVersion),
            "its schema",
        );
        expect_found(rt, conn, self.deliveries, self.rows)
    }
}

/// A file stops after each number of calls, until a desk is moved without a stop.
fn moving_stops<R: Abort + AllocGlobal>(rt: &R, is_log: bool) -> Result<(), Fail> {
    let deliveries = deliveries(rt.alloc())?;
    let rows = rows_after(rt, &deliveries)?;
    let (_, first) = in_files(rt, empty(rt.alloc()), &mut MakesFirst)?;
    for calls in 0..MANY {
        let mut moves = Moves { is_moved: false };
        let (_, left) = in_files(rt, fused(rt.alloc(), &first, is_log, calls)?, &mut moves)?;
        let is_moved = moves.is_moved;
        let mut is_complete = IsComplete {
            is_moved,
            deliveries: &deliveries,
            rows: &rows,
        };
        expect_left(rt, left, &mut is_complete)?;
        if is_moved {
            holds(rt, calls > 1, "that it stops");
            return Ok(());
        }
    }
    Err("it stops always".into())
}

#[test]
fn a_desk_is_moved_whose_log_stops(rt: HostRuntime) -> Result<(), Fail> {
    moving_stops(&rt, true)
}

#[test]
fn a_desk_is_moved_whose_first_file_stops(rt: HostRuntime) -> Result<(), Fail> {
    moving_stops(&rt, false)
}
