//! What a command asks, done. Its file is opened before the standard input is read, and before the port is bound.
ghost use Rattle.std.specs.Io.KnownBytes.{Keeps};
ghost use Rattle.desk_cli.specs.Doing.{OnAudit, OnAuditedFile, OnDeskFile, OnFile, OnScratch, PrintsFile};
ghost use Rattle.desk_cli.specs.Faults.{Ends};
ghost use Rattle.desk_cli.specs.Named.{asked_by};
ghost use Rattle.desk_cli.specs.commands.Checking.{IsCheck};
ghost use Rattle.desk_cli.specs.commands.Hear.{HearsBy};
ghost use Rattle.desk_cli.specs.commands.Init.{InitsBy};
ghost use Rattle.desk_cli.specs.commands.Migrating.{MigratesBy};
ghost use Rattle.std.specs.Prelude.{option_map};
ghost use Rattle.desk_tables.specs.AtRest.{IsAtRest};
ghost use Rattle.desk_cli.specs.Streams.{KeepsBoth, streams};
ghost use Rattle.desk_cli.specs.World.{IsCleanScratch};
ghost use Rattle.desk_cli.specs.Runs.{Does};
ghost use Rattle.desk_cli.specs.commands.Importing.{ImportsDesk};
ghost use Rattle.desk_cli.specs.commands.Serving.{ServesDesk};
ghost use Rattle.desk_cli.specs.commands.Log.{LogsDesk};
ghost use Rattle.desk_cli.specs.commands.Auditing.{AuditsOver};

use crate::commands::{
    Command, audit_beside_command, audit_command, check_command, hear_command, import_command,
    init_command, lines_command, log_command, migrate_command, serve_command, version_command,
};
use crate::endings::Ending;
use crate::faults::end;
use crate::files::FileOpener;
use crate::network::{Known, Network};
use crate::printing::{Report, print_report};
use crate::setup::Setup;
use desk_engine::{LogText, Progress};
use radio_core::Name;
use registry_core::laws::rules_are_kept;
use registry_core::{Config, JsonInteger};
use sqlite::{Alter, Connection};
use std::alloc::Global;
use std::io::{Read, Write};

/// How a command ended, the connection to its file, and the store of the scratch database. There is no connection if the command has no
/// file, if the file can't be opened, or if `audit` couldn't be completed. There is a store only after an audit with a scratch file that
/// was completed.
pub type Performed<S, R> = (Ending, Option<Connection<S>>, Option<R>);

/// Runs a command on the connection to its file, which it gives back; or reports why the file can't be opened.
macro_rules! on_file {
    ($opened:expr, $faults:ident, |$conn:ident| $command:expr) => {
        match $opened {
            Ok($conn) => {
                let (ending, $conn) = $command;
                (ending, Some($conn), None)
            }
            Err(fault) => (end($faults, Err(fault)), None, None),
        }
    };
}

/// Does what the command asks.
pub(crate) fn perform<
    S: Alter + Drop,
    N: FileOpener<S>,
    B: Network,
    R: Read,
    W: Write,
    F: Write,
    P: Progress,
>(
    alloc: Global,
    command: &Command<'_>,
    files: N,
    network: &B,
    reader: &mut R,
    answers: &mut W,
    faults: &mut F,
    progress: &P,
) -> Performed<S, N::Scratch>
    ensures { Does
        (⟦<N as Setup<S, B, R, W>>⟧.world files network.now reader.old reader.new answers.old answers.new result)
        F.Write faults.old faults.new (asked_by command.now) }
{
    rules_are_kept();
    match command {
        Command::Version => (version_command(answers, faults), None, None),
        Command::Lines { config } => {
            (
                lines_command(alloc, config, reader, answers, faults),
                None,
                None,
            )
        }
        Command::Init { file, config } => init_file(alloc, files, file, *config, faults),
        Command::Migrate { file } => migrate_file(alloc, files, file, faults),
        Command::Hear { file } => hear_file(alloc, files, file, reader, answers, faults),
        Command::Import { file, sender } => {
            import_file(
                alloc, files, file, sender, reader, answers, faults, progress,
            )
        }
        Command::Serve {
            file,
            port,
            connections,
            log,
        } => {
            serve_file(
                alloc,
                files,
                network,
                file,
                *port,
                *connections,
                *log,
                answers,
                faults,
            )
        }
        Command::Report { file, report } => {
            print_file(alloc, files, file, report, answers, faults)
        }
        Command::Bands { file, report } => {
            print_file(alloc, files, file, report, answers, faults)
        }
        Command::Room { file, report } => {
            print_file(alloc, files, file, report, answers, faults)
        }
        Command::Listing { file, report } => {
            print_file(alloc, files, file, report, answers, faults)
        }
        Command::Device { file, report } => {
            print_file(alloc, files, file, report, answers, faults)
        }
        Command::Receptions { file, report } => {
            print_file(alloc, files, file, report, answers, faults)
        }
        Command::Downlinks { file, report } => {
            print_file(alloc, files, file, report, answers, faults)
        }
        Command::Log {
            file,
            from,
            count,
            which,
        } => { log_file(alloc, files, file, *from, *count, *which, answers, faults) }
        Command::Check { file } => check_file(alloc, files, file, answers, faults),
        Command::Audit { file, scratch } => {
            audit_file(alloc, files, file, *scratch, answers, faults, progress)
        }
    }
}

fn init_file<S: Alter, N: FileOpener<S>, F: Write>(
    alloc: Global,
    files: N,
    file: &str,
    config: Config,
    faults: &mut F,
) -> Performed<S, N::Scratch>
    ensures { Ends F.Write faults.old faults.new result.0 (λ done. OnFile (N.paths files).makes (N.paths files).unmade result.1 done file.now
        (Unit {0}) (λ conn back. InitsBy S.Store conn back config done)) }
{
    on_file!(
        files.make(file),
        faults,
        |conn| init_command(alloc, conn, config, faults)
    )
}

fn migrate_file<S: Alter, N: FileOpener<S>, F: Write>(
    alloc: Global,
    files: N,
    file: &str,
    faults: &mut F,
) -> Performed<S, N::Scratch>
    ensures { Ends F.Write faults.old faults.new result.0 (λ done. OnFile (N.paths files).opens (N.paths files).unopened result.1 done file.now
        (Unit {0}) (λ conn back. MigratesBy S.Store conn back done)) }
{
    on_file!(
        files.open(file),
        faults,
        |conn| migrate_command(alloc, conn, faults)
    )
}

fn hear_file<S: Alter, N: FileOpener<S>, R: Read, W: Write, F: Write>(
    alloc: Global,
    files: N,
    file: &str,
    reader: &mut R,
    answers: &mut W,
    faults: &mut F,
) -> Performed<S, N::Scratch>
    ensures { Ends F.Write faults.old faults.new result.0 (λ done. OnDeskFile S.Store (N.paths files) result.1 done file.now
        (KeepsBoth (streams R.Read reader.old reader.new W.Write answers.old answers.new))
        (λ back c heard. HearsBy S.Store back c heard (streams R.Read reader.old reader.new W.Write answers.old answers.new) done)) }
{
    on_file!(
        files.open(file),
        faults,
        |conn| hear_command(alloc, conn, reader, answers, faults)
    )
}

fn import_file<S: Alter, N: FileOpener<S>, R: Read, W: Write, F: Write, P: Progress>(
    alloc: Global,
    files: N,
    file: &str,
    sender: &Name,
    reader: &mut R,
    answers: &mut W,
    faults: &mut F,
    progress: &P,
) -> Performed<S, N::Scratch>
    ensures { Ends F.Write faults.old faults.new result.0 (λ done. OnDeskFile S.Store (N.paths files) result.1 done file.now
        (KeepsBoth (streams R.Read reader.old reader.new W.Write answers.old answers.new))
        (λ back c heard. ImportsDesk S.Store back c heard sender.now (streams R.Read reader.old reader.new W.Write answers.old answers.new) done)) }
{
    on_file!(
        files.open(file),
        faults,
        |conn| import_command(alloc, conn, sender, reader, answers, faults, progress)
    )
}

fn serve_file<S: Alter, N: FileOpener<S>, B: Network, W: Write, F: Write>(
    alloc: Global,
    files: N,
    network: &B,
    file: &str,
    port: u16,
    connections: u32,
    log: bool,
    answers: &mut W,
    faults: &mut F,
) -> Performed<S, N::Scratch>
    ensures { Ends F.Write faults.old faults.new result.0 (λ done. OnDeskFile S.Store (N.paths files) result.1 done file.now
        (Keeps (W.contents answers.old) (W.contents answers.new))
        (λ back c heard. ServesDesk S.Store back c heard
        (⟦<B as Known>⟧.at network.now log)
        port connections (W.contents answers.old) (W.contents answers.new) done)) }
{
    on_file!(
        files.open(file),
        faults,
        |conn| serve_command(
            alloc,
            conn,
            network,
            port,
            connections,
            log,
            answers,
            faults
        )
    )
}

/// Prints the report of the desk in the file.
fn print_file<S: Alter, N: FileOpener<S>, Q: Report, W: Write, F: Write>(
    alloc: Global,
    files: N,
    file: &str,
    report: &Q,
    answers: &mut W,
    faults: &mut F,
) -> Performed<S, N::Scratch>
    ensures { Ends F.Write faults.old faults.new result.0
        (PrintsFile S.Store (Q.is_answer report.now) (N.paths files) file.now W.Write answers.old answers.new result.1) }
{
    on_file!(
        files.open(file),
        faults,
        |conn| print_report(alloc, conn, report, answers, faults)
    )
}

fn log_file<S: Alter, N: FileOpener<S>, W: Write, F: Write>(
    alloc: Global,
    files: N,
    file: &str,
    from: JsonInteger,
    count: JsonInteger,
    which: LogText,
    answers: &mut W,
    faults: &mut F,
) -> Performed<S, N::Scratch>
    ensures { Ends F.Write faults.old faults.new result.0 (λ done. OnDeskFile S.Store (N.paths files) result.1 done file.now
        (Keeps (W.contents answers.old) (W.contents answers.new))
        (λ back c heard. LogsDesk S.Store back c heard which from count (W.contents answers.old) (W.contents answers.new) done)) }
{
    on_file!(
        files.open(file),
        faults,
        |conn| log_command(alloc, conn, from, count, which, answers, faults)
    )
}

fn check_file<S: Alter, N: FileOpener<S>, W: Write, F: Write>(
    alloc: Global,
    files: N,
    file: &str,
    answers: &mut W,
    faults: &mut F,
) -> Performed<S, N::Scratch>
    ensures { Ends F.Write faults.old faults.new result.0
        (PrintsFile S.Store IsCheck (N.paths files) file.now W.Write answers.old answers.new result.1) }
{
    on_file!(
        files.open(file),
        faults,
        |conn| check_command(alloc, conn, answers, faults)
    )
}

/// Audits the file, with a scratch database in memory or in a new file. Returns the connection to the file, unless the file can't be opened
/// or the audit couldn't be completed.
fn audit_file<S: Alter + Drop, N: FileOpener<S>, W: Write, F: Write, P: Progress>(
    alloc: Global,
    files: N,
    file: &str,
    scratch: Option<&str>,
    answers: &mut W,
    faults: &mut F,
    progress: &P,
) -> Performed<S, N::Scratch>
    ensures { Ends F.Write faults.old faults.new result.0 (λ done. OnAudit (N.paths files) result.1 done file.now (option_map (λ path. path.now) scratch.entry)
        (Keeps (W.contents answers.old) (W.contents answers.new)) (IsCleanScratch N.Scratch.Store result.2)
        (λ sure conn. AuditsOver S.Store conn W.Write answers.old answers.new sure result.1 done)) }
{
    match scratch {
        None => audit_alone(alloc, files, file, answers, faults, progress),
        Some(path) => audit_beside(alloc, files, file, path, answers, faults, progress),
    }
}

/// Audits the file with a scratch database in memory.
fn audit_alone<S: Alter + Drop, N: FileOpener<S>, W: Write, F: Write, P: Progress>(
    alloc: Global,
    files: N,
    file: &str,
    answers: &mut W,
    faults: &mut F,
    progress: &P,
) -> Performed<S, N::Scratch>
    ensures { Ends F.Write faults.old faults.new result.0 (λ done. OnAuditedFile (N.paths files) result.1 done file.now
        (Keeps (W.contents answers.old) (W.contents answers.new))
        (λ conn. AuditsOver S.Store conn W.Write answers.old answers.new (Unit {0}) result.1 done)) }
{
    match files.open(file) {
        Ok(conn) => {
            let (ending, back) = audit_command(alloc, conn, answers, faults, progress);
            (ending, back, None)
        }
        Err(fault) => (end(faults, Err(fault)), None, None),
    }
}

/// Audits the file with a scratch database in a new file at `path`.
fn audit_beside<S: Alter + Drop, N: FileOpener<S>, W: Write, F: Write, P: Progress>(
    alloc: Global,
    files: N,
    file: &str,
    path: &str,
    answers: &mut W,
    faults: &mut F,
    progress: &P,
) -> Performed<S, N::Scratch>
    ensures { Ends F.Write faults.old faults.new result.0 (λ done. OnScratch (N.paths files) result.1 done path.now
        (Keeps (W.contents answers.old) (W.contents answers.new))
        (OnAuditedFile (N.paths files) result.1 done file.now (Keeps (W.contents answers.old) (W.contents answers.new))
        (λ conn. AuditsOver S.Store conn W.Write answers.old answers.new (IsCleanScratch N.Scratch.Store result.2) result.1 done))) }
{
    match files.make_scratch(alloc, path) {
        Ok(scratch) => audit_with(alloc, files, file, scratch, answers, faults, progress),
        Err(fault) => (end(faults, Err(fault)), None, None),
    }
}

/// Audits the file with this scratch database.
fn audit_with<S: Alter + Drop, N: FileOpener<S>, W: Write, F: Write, P: Progress>(
    alloc: Global,
    files: N,
    file: &str,
    scratch: Connection<N::Scratch>,
    answers: &mut W,
    faults: &mut F,
    progress: &P,
) -> Performed<S, N::Scratch>
    requires at_rest { IsAtRest scratch }
    ensures { Ends F.Write faults.old faults.new result.0 (λ done. OnAuditedFile (N.paths files) result.1 done file.now
        (Keeps (W.contents answers.old) (W.contents answers.new))
        (λ conn. AuditsOver S.Store conn W.Write answers.old answers.new (IsCleanScratch N.Scratch.Store result.2) result.1 done)) }
{
    match files.open(file) {
        Ok(conn) => audit_beside_command(alloc, conn, scratch, answers, faults, progress),
        Err(fault) => (end(faults, Err(fault)), None, None),
    }
}
