//! `desk import`: a gateway's report from a reader, answers to a writer, over a desk's file.
ghost use Rattle.std.specs.Prelude.{List};
ghost use Rattle.clap.specs.Matches.{found_of};
ghost use Rattle.clap.specs.Walk.{rows_of};
ghost use Rattle.desk_cli.specs.commands.Importing.{import_app, import_named, ImportsOver, ImportsDesk};
ghost use Rattle.desk_cli.specs.Named.{TellsNamed};
ghost use Rattle.desk_cli.specs.steps.CommandLine.{IsCommand};
ghost use Rattle.sqlite.specs.Held.{state};
ghost use Rattle.sqlite.specs.State.{HasCleanDisk};
ghost use Rattle.registry_core.specs.declared.messages.Envelope.{Envelope};
ghost use Rattle.registry_core.specs.Settings.{Settings};
ghost use Rattle.desk_cli.specs.RefusedFiles.{IsNotADesk, RefusesFile};
ghost use Rattle.desk_cli.specs.OnTables.{KeepsHeard};
ghost use Rattle.desk_cli.specs.steps.Jobs.{imports};
ghost use Rattle.desk_tables.specs.AtRest.{IsAtRest};
ghost use Rattle.desk_cli.specs.Streams.{KeepsBoth, streams};
ghost use Rattle.desk_cli.specs.Faults.{EndsGiving};

use super::Command;
use crate::endings::Ending;
use crate::faults::{Fault, end};
use crate::jobs::{Job, run_job};
use crate::options::{command_on_file, name_at, placed, required_option, with_word};
use crate::usage::{BadValue, Usage};
use clap::ArgMatches;
use desk_engine::{ImportEnd, Progress, import_report};
use desk_store::Keeper;
use radio_core::Name;
use sqlite::{Alter, Connection};
use std::alloc::{AllocError, Global};
use std::io::{Read, Write};

/// Returns its command line: its name, the file and the sender.
pub(crate) fn import_app<'a>(alloc: Global) -> Result<clap::Command<'a>, AllocError>
    ensures { IsCommand import_app result }
{
    let about = "Answers the records of a gateway's CSV report on standard input, one a line";
    let example = "Example:\n  desk import town.db --sender office < report.csv";
    let sender = required_option(alloc, "sender", "NAME", "Who sends the report");
    with_word(command_on_file(alloc, "import", about, example), sender)
}

/// Returns the command that its arguments give.
pub(crate) fn import_of<'a>(options: &ArgMatches<'a>) -> Result<Command<'a>, Usage>
    ensures { TellsNamed (import_named (rows_of (found_of options.now))) result }
{
    let file = placed(options, "file")?;
    let sender = name_at(options, "sender").ok_or(BadValue::Sender)?;
    Ok(Command::Import { file, sender })
}

/// Hears the records of a gateway's report, one after another, as messages of this sender, with the desk of the connection's database.
/// Writes an answer for each, one a line. Returns the connection.
///
/// Nothing is read before the desk is open, and nothing is heard before the whole report is read. `progress` shows how many records are
/// answered.
///
/// # Errors
///
/// Writes one line to standard error:
///
/// - `CsvSize`, `CsvEnd`, `CsvHeader` or `CsvRecord` if the text isn't a report.
/// - `File` if a read failed, and then nothing is heard or written; or if a write failed, and then all records are heard, or all before
///   the one at which the desk failed.
/// - `Unavailable` if the desk failed at a record. Exactly the answers of the records before it were written.
/// - `NotADesk`, `Schema` or `Unavailable` if the database isn't a desk of schema 2. It stays as it is.
pub fn import_command<S: Alter, R: Read, W: Write, F: Write, P: Progress>(
    alloc: Global,
    conn: Connection<S>,
    sender: &Name,
    reader: &mut R,
    answers: &mut W,
    faults: &mut F,
    progress: &P,
) -> (Ending, Connection<S>)
    requires at_rest { IsAtRest conn }
    ensures { EndsGiving F.Write faults.old faults.new result
        (ImportsOver S.Store conn sender.now (streams R.Read reader.old reader.new W.Write answers.old answers.new)) }
{
    let (done, conn) = hear_report(alloc, conn, sender, reader, answers, progress);
    (end(faults, done), conn)
}

/// Hears the reader's report, and returns the connection.
fn hear_report<S: Alter, R: Read, W: Write, P: Progress>(
    alloc: Global,
    conn: Connection<S>,
    sender: &Name,
    reader: &mut R,
    answers: &mut W,
    progress: &P,
) -> (Result<(), Fault>, Connection<S>)
    requires at_rest { IsAtRest conn }
    ensures imports { HasCleanDisk (state S.Store result.1) → (c : Settings) (heard : List Envelope) → KeepsHeard S.Store conn c heard
        → ImportsDesk S.Store result.1 c heard sender.now (streams R.Read reader.old reader.new W.Write answers.old answers.new) result.0 }
    ensures not_a_desk { HasCleanDisk (state S.Store result.1) → IsNotADesk S.Store conn
        → RefusesFile S.Store conn result.1 (KeepsBoth (streams R.Read reader.old reader.new W.Write answers.old answers.new)) result.0 }
    ensures clean { HasCleanDisk (state S.Store result.1) → HasCleanDisk (state S.Store conn) }
{
    run_job(alloc, conn, &Import { sender, progress }, reader, answers)
}

/// Hears the reader's report as this sender's.
#[derive(Drop)]
struct Import<'a, P> {
    sender: &'a Name,
    progress: &'a P,
}

impl<P: Progress> Job for Import<'_, P> {
    ghost does = { λ job. imports job.sender.now };

    fn run<K: Keeper, R: Read, W: Write>(
        &self,
        alloc: Global,
        keeper: &mut K,
        reader: &mut R,
        answers: &mut W,
    ) -> Result<(), Fault> {
        match import_report(alloc, keeper, self.sender, reader, answers, self.progress) {
            ImportEnd::Done => Ok(()),
            ImportEnd::NoReport(fault) => Err(fault.into()),
            ImportEnd::Read => Err(Fault::File),
            ImportEnd::Write(_) => Err(Fault::File),
            ImportEnd::Unavailable(fault) => Err(fault.into()),
        }
    }
}
