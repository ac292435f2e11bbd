//! Audits with a scratch database. The log of the audited database fails after some calls, or that of the scratch database does.
use super::fuses::{Hears, connected, empty, fused, in_files};
use super::holding::holds;
use super::ready;
use super::stops::{all_deliveries, heard};
use crate::commands::audit_beside_command;
use crate::endings::Ending;
use desk_engine::NoProgress;
use sqlite::{Alter, Connection, Files, Options};
use sqlite_disk::{Disk, Memory};
use std::process::Abort;
use std::test::Fail;

/// Checks how the audit ends. It passes, or it reports that the disk failed, and prints nothing. Returns whether it passes.
fn audit_passes<R: Abort + AllocGlobal, S: Alter + Drop, B: Alter + Drop>(
    rt: &R,
    conn: Connection<S>,
    scratch: Connection<B>,
) -> Result<bool, Fail> {
    let mut answers = Vec::new(rt.alloc());
    let mut faults = Vec::new(rt.alloc());
    let (ending, conn, _) = audit_beside_command(
        rt.alloc(),
        ready(conn)?,
        ready(scratch)?,
        &mut answers,
        &mut faults,
        &NoProgress,
    );
    let passes = ending == Ending::Done;
    let (printed, line) = if passes {
        ("heard: 13\nin order\n", "")
    } else {
        ("", "desk: unavailable\n")
    };
    holds(rt, answers.as_slice() == printed.as_bytes(), printed);
    holds(rt, faults.as_slice() == line.as_bytes(), line);
    holds(rt, passes || ending == Ending::Failed, "the ending");
    holds(rt, conn.is_some() || !passes, "that it is given back");
    Ok(passes)
}

/// An audit with a database in files.
trait Audit {
    /// Returns whether it passes.
    fn passes<R: Abort + AllocGlobal, S: Alter + Drop>(
        &self,
        rt: &R,
        conn: Connection<S>,
    ) -> Result<bool, Fail>;
}

/// The database in files is audited.
struct OfFiles;

impl Audit for OfFiles {
    fn passes<R: Abort + AllocGlobal, S: Alter + Drop>(
        &self,
        rt: &R,
        conn: Connection<S>,
    ) -> Result<bool, Fail> {
        audit_passes(rt, conn, Connection::open_in_memory(rt.alloc())?)
    }
}

/// The database in files is the scratch database.
struct InFiles;

impl Audit for InFiles {
    fn passes<R: Abort + AllocGlobal, S: Alter + Drop>(
        &self,
        rt: &R,
        conn: Connection<S>,
    ) -> Result<bool, Fail> {
        audit_passes(rt, heard(rt, &all_deliveries(rt.alloc())?)?, conn)
    }
}

/// Returns whether an audit with these files passes, or `None` if they can't be opened. One page of them is kept in memory, so the others
/// are read again.
fn passes_over<R: Abort + AllocGlobal, D: Disk + Drop, A: Audit>(
    rt: &R,
    files: Files<D>,
    audit: &A,
) -> Result<Option<bool>, Fail> {
    let mut options = Options::new(1);
    options.cache_pages = 1;
    match connected(rt.alloc(), files, options) {
        Ok(conn) => Ok(Some(audit.passes(rt, conn)?)),
        Err(_) => Ok(None),
    }
}

/// More audits than are made before one passes.
const MANY: u32 = 120;

/// The log of the files fails after some calls, in each audit after more of them, until one passes.
fn audits_fail<R: Abort + AllocGlobal, A: Audit>(
    rt: &R,
    files: &Files<Memory>,
    audit: &A,
) -> Result<(), Fail> {
    let mut calls = 0u64;
    let mut has_failed = false;
    for _ in 0..MANY {
        let fused = fused(rt.alloc(), files, true, calls)?;
        match passes_over(rt, fused, audit)? {
            Some(true) => {
                holds(rt, has_failed, "that an audit fails");
                return Ok(());
            }
            Some(false) => has_failed = true,
            None => {}
        }
        calls = calls.saturating_add(calls / 8 + 1);
    }
    Err("it fails always".into())
}

#[test]
fn an_audit_whose_file_fails(rt: HostRuntime) -> Result<(), Fail> {
    let deliveries = all_deliveries(rt.alloc())?;
    let mut hears = Hears {
        deliveries: &deliveries,
        answered: 0,
    };
    let (_, files) = in_files(&rt, empty(rt.alloc()), &mut hears)?;
    audits_fail(&rt, &files, &OfFiles)
}

#[test]
fn an_audit_whose_scratch_fails(rt: HostRuntime) -> Result<(), Fail> {
    audits_fail(&rt, &empty(rt.alloc()), &InFiles)
}
