//! `desk migrate` on a damaged desk of schema 1 whose log fails after each number of calls. No clause names what a crash then leaves if the
//! damage isn't in what `migrate` reads: it is the desk as it was, or the moved one.
use super::{OneFile, ran};
use crate::endings::Ending;
use crate::tests::fuses::{Step, expect_left, filled, fused, in_files};
use crate::tests::holding::holds;
use crate::tests::migrating::make_first;
use crate::tests::second_schema::LIMIT_TABLE;
use crate::tests::stops::rows_in;
use sqlite::{Alter, Connection, Files};
use sqlite_disk::Memory;
use std::process::Abort;
use std::test::Fail;

/// What damages the desk, and how its move ends, with which line on standard error, if nothing fails.
struct Damage {
    batch: &'static str,
    ending: Ending,
    line: &'static str,
}

static DAMAGES: [Damage; 2] = [
    // A number that no session has.
    Damage {
        batch: "UPDATE session SET number = -1",
        ending: Ending::Refused,
        line: "desk: not a desk\n",
    },
    // A role that there isn't: no row of a sender is read.
    Damage {
        batch: "UPDATE sender SET role = 7",
        ending: Ending::Done,
        line: "",
    },
];

/// Makes the damaged desk.
#[derive(Drop)]
struct Makes<'a> {
    damage: &'a Damage,
}

impl Step for Makes<'_> {
    fn take<R: Abort + AllocGlobal, S: Alter + Drop>(
        &mut self,
        rt: &R,
        conn: Connection<S>,
    ) -> Result<Connection<S>, Fail> {
        let mut conn = conn;
        make_first(rt, &mut conn)?;
        conn.execute_batch(self.damage.batch)?;
        Ok(conn)
    }
}

/// Moves the desk, unless the disk fails: then the command reports just that.
#[derive(Drop)]
struct Moves<'a> {
    damage: &'a Damage,
    has_failed: bool,
}

impl Step for Moves<'_> {
    fn take<R: Abort + AllocGlobal, S: Alter + Drop>(
        &mut self,
        rt: &R,
        conn: Connection<S>,
    ) -> Result<Connection<S>, Fail> {
        let words: [&[u8]; 3] = [b"desk", b"migrate", b"f.db"];
        let file = OneFile { conn: Some(conn) };
        let mut answers = Vec::new(rt.alloc());
        let (ending, faults, conn) = ran(rt, &words, file, &mut "".as_bytes(), &mut answers);
        self.has_failed = ending == Ending::Failed;
        let line = if self.has_failed {
            "desk: unavailable\n"
        } else {
            self.damage.line
        };
        holds(rt, faults.as_slice() == line.as_bytes(), line);
        let is_right = self.has_failed || ending == self.damage.ending;
        holds(rt, is_right, self.damage.batch);
        Ok(conn.ok_or("no connection")?)
    }
}

/// Moves the desk by hand, if it is of schema 1: then its rows are those of the moved one.
#[derive(Drop)]
struct IsComplete<'a> {
    damage: &'a Damage,
    /// Whether the move was done.
    is_done: bool,
    rows: &'a String,
}

impl Step for IsComplete<'_> {
    fn take<R: Abort + AllocGlobal, S: Alter + Drop>(
        &mut self,
        rt: &R,
        conn: Connection<S>,
    ) -> Result<Connection<S>, Fail> {
        let mut conn = conn;
        let is_first = conn.execute_batch(LIMIT_TABLE).is_ok();
        if is_first {
            conn.execute_batch("UPDATE meta SET version = version + 1")?;
        }
        holds(rt, !is_first || !self.is_done, "that it is moved");
        let may_move = self.damage.ending == Ending::Done;
        holds(rt, is_first || may_move, "that it isn't moved");
        holds(
            rt,
            rows_in(rt.alloc(), &mut conn)? == *self.rows,
            "the rows",
        );
        Ok(conn)
    }
}

/// The rows of the damaged desk, moved by hand.
fn rows_of<R: Abort + AllocGlobal>(rt: &R, damage: &Damage) -> Result<String, Fail> {
    let conn = Connection::open_in_memory(rt.alloc())?;
    let mut conn = Makes { damage }.take(rt, conn)?;
    conn.execute_batch(LIMIT_TABLE)?;
    conn.execute_batch("UPDATE meta SET version = 2")?;
    rows_in(rt.alloc(), &mut conn)
}

/// More than the moves that are tried.
const MANY: u64 = 10_000;

/// The log fails after each number of calls, until the command ends as if none did. Returns how often it failed. A failure of the first file,
/// which is only read, changes nothing.
fn move_fails<R: Abort + AllocGlobal>(
    rt: &R,
    files: &Files<Memory>,
    damage: &Damage,
    rows: &String,
) -> Result<u64, Fail> {
    let mut failures = 0_u64;
    for calls in 0..MANY {
        let mut moves = Moves {
            damage,
            has_failed: false,
        };
        let fused = fused(rt.alloc(), files, true, calls)?;
        let (is_opened, left) = in_files(rt, fused, &mut moves)?;
        if is_opened {
            let mut is_complete = IsComplete {
                damage,
                is_done: !moves.has_failed && damage.ending == Ending::Done,
                rows,
            };
            expect_left(rt, left, &mut is_complete)?;
            if !moves.has_failed {
                return Ok(failures);
            }
            failures = failures.saturating_add(1);
        }
    }
    Err("it fails always".into())
}

#[test]
fn a_damaged_desk_is_not_half_moved(rt: HostRuntime) -> Result<(), Fail> {
    for damage in &DAMAGES {
        let rows = rows_of(&rt, damage)?;
        let files = filled(&rt, &mut Makes { damage })?;
        let failures = move_fails(&rt, &files, damage, &rows)?;
        let writes = damage.ending == Ending::Done;
        holds(&rt, !writes || failures > 0, "that it fails");
    }
    Ok(())
}
