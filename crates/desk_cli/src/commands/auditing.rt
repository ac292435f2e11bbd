//! `desk audit`: whether a file is what a desk wrote.
ghost use Rattle.std.specs.Prelude.{◌≡◌, IfOk};
ghost use Rattle.std.specs.String.{string_bytes};
ghost use Rattle.clap.specs.Matches.{found_of};
ghost use Rattle.clap.specs.Walk.{rows_of};
ghost use Rattle.desk_cli.specs.Faults.{Ends, EndsGiving};
ghost use Rattle.desk_cli.specs.Named.{TellsNamed};
ghost use Rattle.desk_cli.specs.commands.Auditing.{audit_app, audit_named, audit_text, AuditsOver};
ghost use Rattle.desk_cli.specs.steps.Auditing.{PrintsFinding, finding_of, store_of};
ghost use Rattle.desk_cli.specs.steps.CommandLine.{IsCommand};
ghost use Rattle.desk_tables.specs.AtRest.{IsAtRest};
ghost use Rattle.desk_cli.specs.World.{IsCleanScratch};

use super::Command;
use crate::audit::{Finding, audited, audited_beside};
use crate::endings::Ending;
use crate::faults::{Fault, end};
use crate::options::{command_on_file, option_text, optional, placed, with_word};
use crate::usage::Usage;
use clap::ArgMatches;
use desk_engine::{Progress, write_whole};
use sqlite::{Alter, Connection};
use std::alloc::{AllocError, Global};
use std::io::Write;

/// Returns its command line: its name, the file, and where the second desk is.
pub(crate) fn audit_app<'a>(alloc: Global) -> Result<clap::Command<'a>, AllocError>
    ensures { IsCommand audit_app result }
{
    let about = "Checks that a desk's file has exactly the rows that its messages make";
    let example =
        "Example:\n  desk audit town.db\n  desk audit town.db --scratch /dev/shm/scratch.db";
    let help = "A new file for the second desk, which is removed; else it is in memory";
    with_word(
        command_on_file(alloc, "audit", about, example),
        optional(alloc, "scratch", "PATH", help),
    )
}

/// Returns the command that its arguments give.
pub(crate) fn audit_of<'a>(options: &ArgMatches<'a>) -> Result<Command<'a>, Usage>
    ensures { TellsNamed (audit_named (rows_of (found_of options.now))) result }
{
    let file = placed(options, "file")?;
    let scratch = option_text(options, "scratch");
    Ok(Command::Audit { file, scratch })
}

/// Reports whether the connection's database is what a desk wrote. A new desk in memory hears the messages of the database anew, and
/// all rows of both are compared, the answers too. If they are the same, prints the number of messages, and that all is in order.
///
/// The database stays as it is. Returns the connection, unless the audit couldn't be completed. Then the error is `Unavailable`.
///
/// # Errors
///
/// Writes one line to standard error. Nothing is printed then, or with `File` perhaps a part of the text.
///
/// - `Differs` if the database isn't what a desk wrote. It names the first row that differs, a reply before rows of other tables.
/// - `NotADesk`, `Schema` or `Unavailable` if the database isn't a desk of schema 2.
/// - `Unavailable` if an allocation or the disk failed.
/// - `File` if a write to standard output failed.
pub fn audit_command<S: Alter + Drop, W: Write, F: Write, P: Progress>(
    alloc: Global,
    conn: Connection<S>,
    answers: &mut W,
    faults: &mut F,
    progress: &P,
) -> (Ending, Option<Connection<S>>)
    requires at_rest { IsAtRest conn }
    ensures { EndsGiving F.Write faults.old faults.new result
        (AuditsOver S.Store conn W.Write answers.old answers.new (Unit {0})) }
{
    let (done, conn) = print_audit(alloc, conn, answers, progress);
    (end(faults, done), conn)
}

/// Does the same with the scratch database for the new desk. It has to have nothing. Returns its store too, if the audit was completed.
pub fn audit_beside_command<S: Alter + Drop, B: Alter + Drop, W: Write, F: Write, P: Progress>(
    alloc: Global,
    conn: Connection<S>,
    scratch: Connection<B>,
    answers: &mut W,
    faults: &mut F,
    progress: &P,
) -> (Ending, Option<Connection<S>>, Option<B>)
    requires at_rest { IsAtRest conn }
    requires scratch_at_rest { IsAtRest scratch }
    ensures { Ends F.Write faults.old faults.new result.0
        (AuditsOver S.Store conn W.Write answers.old answers.new (IsCleanScratch B.Store result.2) result.1) }
{
    let (done, conn, store) = print_audit_beside(alloc, conn, scratch, answers, progress);
    (end(faults, done), conn, store)
}

/// Audits the database, prints what was found, and returns the connection.
fn print_audit<S: Alter + Drop, W: Write, P: Progress>(
    alloc: Global,
    conn: Connection<S>,
    answers: &mut W,
    progress: &P,
) -> (Result<(), Fault>, Option<Connection<S>>)
    requires at_rest { IsAtRest conn }
    ensures { AuditsOver S.Store conn W.Write answers.old answers.new (Unit {0}) result.1 result.0 }
{
    let (found, conn) = audited(alloc, conn, progress);
    (print_finding(alloc, answers, found), conn)
}

/// Does the same with the scratch database, and returns its store too.
fn print_audit_beside<S: Alter + Drop, B: Alter + Drop, W: Write, P: Progress>(
    alloc: Global,
    conn: Connection<S>,
    scratch: Connection<B>,
    answers: &mut W,
    progress: &P,
) -> (Result<(), Fault>, Option<Connection<S>>, Option<B>)
    requires at_rest { IsAtRest conn }
    requires scratch_at_rest { IsAtRest scratch }
    ensures { AuditsOver S.Store conn W.Write answers.old answers.new (IsCleanScratch B.Store result.2) result.1 result.0 }
{
    let (ended, conn) = audited_beside(alloc, conn, scratch, progress);
    let (found, store) = parted(ended);
    (print_finding(alloc, answers, found), conn, store)
}

/// Parts a finding and the store of the scratch database.
fn parted<B>(ended: Result<(Finding, B), Fault>) -> (Result<Finding, Fault>, Option<B>)
    ensures found { result.0 ≡ finding_of ended }
    ensures store { result.1 ≡ store_of ended }
{
    match ended {
        Ok((finding, store)) => (Ok(finding), Some(store)),
        Err(fault) => (Err(fault), None),
    }
}

/// Prints the number of messages, and that all is in order. Returns `Differs` for a difference, and the audit's error.
fn print_finding<W: Write>(
    alloc: Global,
    answers: &mut W,
    found: Result<Finding, Fault>,
) -> Result<(), Fault>
    ensures { PrintsFinding found (W.contents answers.old) (W.contents answers.new) result }
{
    match found {
        Ok(Finding::InOrder(count)) => match audit_text(alloc, count) {
            Ok(text) => write_whole(answers, text.as_bytes()).map_err(|_| Fault::File),
            Err(_) => Err(Fault::Unavailable),
        },
        Ok(Finding::Differs(place)) => Err(Fault::Differs(place)),
        Err(fault) => Err(fault),
    }
}

fn audit_text(alloc: Global, count: u64) -> Result<String, AllocError>
    ensures { IfOk result (λ text. string_bytes text ≡ audit_text count) }
{
    format!(in alloc; "heard: {count}\nin order\n")
}
