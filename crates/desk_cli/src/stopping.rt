//! The machine crashes, and the files of a desk are opened again.
ghost use Rattle.std.specs.Prelude.{IfOk};
ghost use Rattle.sqlite.specs.Files.{file_state};
ghost use Rattle.desk_tables.specs.AtRest.{IsAtRest};
ghost use Rattle.desk_cli.specs.Delivered.{AnswersAll, FindsHeard, IfRan, KeepRulesThroughout, KeepUplinks, RepeatsAreSame};
ghost use Rattle.desk_cli.specs.InFiles.{FindsLeft, ReturnsAll};

use crate::on_tables::run_on_tables;
use desk_engine::Outcome;
use desk_store::StoreFault;
use registry_core::Config;
use sqlite::{Connection, FileStore, Files, Options};
use sqlite_disk::{Crash, Memory};
use std::alloc::Global;

/// Lets the machine crash at this moment, and opens what that left of the connection's files. Returns the connection to it.
///
/// # Errors
///
/// Returns `Disk` if the files can't be opened, whatever the reason.
pub fn opened_after_stop<D: Crash + Drop>(
    alloc: Global,
    conn: Connection<FileStore<D>>,
) -> Result<Connection<FileStore<D>>, StoreFault>
    // On disks that always return what was written: what is found is one of what a crash of the connection could leave.
    ensures { ReturnsAll D.Disk → IfOk result (FindsLeft conn) }
{
    let mut files = conn.into_store().close();
    files.log.crash();
    files.db.crash();
    match Connection::open_files(alloc, files, Options::new(2)) {
        Ok(again) => Ok(again),
        Err(_) => Err(StoreFault::Disk),
    }
}

/// Makes a desk on files that have nothing, delivers texts in order, lets the machine crash, and opens the files again. Returns an outcome
/// for each text, and the connection to what was found then.
///
/// # Errors
///
/// Returns why there is no desk, or why the files can't be opened.
fn run_and_stop<D: Crash + Drop>(
    alloc: Global,
    conn: Connection<FileStore<D>>,
    config: Config,
    texts: &[&[u8]],
) -> Result<(Vec<Outcome>, Connection<FileStore<D>>), StoreFault>
    requires at_rest { IsAtRest conn }
    ensures outcomes { ReturnsAll D.Disk → IfRan result (λ conn. AnswersAll config texts.now) }
    ensures repeats { ReturnsAll D.Disk → IfRan result (λ conn. RepeatsAreSame config texts.now) }
    ensures rules_before { ReturnsAll D.Disk → IfRan result (λ conn. KeepRulesThroughout config texts.now) }
    ensures uplinks { ReturnsAll D.Disk → IfRan result (λ conn. KeepUplinks config texts.now) }
    ensures found { ReturnsAll D.Disk → IfRan result (λ conn ran. FindsHeard config texts.now ran (file_state conn).now) }
{
    let (outcomes, conn) = run_on_tables(alloc, conn, config, texts);
    match outcomes {
        Ok(outcomes) => match opened_after_stop(alloc, conn) {
            Ok(conn) => Ok((outcomes, conn)),
            Err(fault) => Err(fault),
        },
        Err(fault) => Err(fault),
    }
}

/// Makes a desk in files in memory that have nothing, delivers texts in order, lets the machine crash, which loses whatever a disk may
/// lose, and opens the files again. Returns an outcome for each text, and the connection to what was found then. It has no condition on the
/// caller.
///
/// # Errors
///
/// Returns why there is no desk, why the files can't be opened, or `Memory` if an allocation failed.
pub fn run_through_stop(
    alloc: Global,
    config: Config,
    texts: &[&[u8]],
) -> Result<(Vec<Outcome>, Connection<FileStore<Memory>>), StoreFault>
    ensures outcomes { IfRan result (λ conn. AnswersAll config texts.now) }
    ensures repeats { IfRan result (λ conn. RepeatsAreSame config texts.now) }
    ensures rules_before { IfRan result (λ conn. KeepRulesThroughout config texts.now) }
    ensures uplinks { IfRan result (λ conn. KeepUplinks config texts.now) }

    // What is found represents the log, or after a disk error possibly the log with the in-flight message.
    ensures found { IfRan result (λ conn ran. FindsHeard config texts.now ran (file_state conn).now) }
{
    match new_files(alloc) {
        Ok(conn) => run_and_stop(alloc, conn, config, texts),
        Err(fault) => Err(fault),
    }
}

/// Returns a connection to files in memory that have nothing.
fn new_files(alloc: Global) -> Result<Connection<FileStore<Memory>>, StoreFault>
    ensures at_rest { IfOk result IsAtRest }
{
    let files = Files {
        log: Memory::new(alloc),
        db: Memory::new(alloc),
    };
    match Connection::open_files(alloc, files, Options::new(1)) {
        Ok(conn) => Ok(conn),
        Err(_) => Err(StoreFault::Disk),
    }
}
