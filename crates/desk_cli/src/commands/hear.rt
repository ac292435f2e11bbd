//! `desk hear`: messages from a reader, answers to a writer, over a desk's file.
ghost use Rattle.std.specs.Prelude.{List};
ghost use Rattle.clap.specs.Matches.{found_of};
ghost use Rattle.clap.specs.Walk.{rows_of};
ghost use Rattle.desk_cli.specs.commands.Hear.{hear_app, hear_named, HearsBy, HearsOver};
ghost use Rattle.desk_cli.specs.Named.{TellsNamed};
ghost use Rattle.desk_cli.specs.steps.CommandLine.{IsCommand};
ghost use Rattle.sqlite.specs.Held.{state};
ghost use Rattle.sqlite.specs.State.{HasCleanDisk};
ghost use Rattle.registry_core.specs.declared.messages.Envelope.{Envelope};
ghost use Rattle.registry_core.specs.Settings.{Settings};
ghost use Rattle.desk_cli.specs.RefusedFiles.{IsNotADesk, RefusesFile};
ghost use Rattle.desk_cli.specs.OnTables.{KeepsHeard};
ghost use Rattle.desk_cli.specs.steps.Jobs.{answers};
ghost use Rattle.desk_tables.specs.AtRest.{IsAtRest};
ghost use Rattle.desk_cli.specs.Streams.{KeepsBoth, streams};
ghost use Rattle.desk_cli.specs.Faults.{EndsGiving};

use super::Command;
use crate::answering::answer_lines;
use crate::endings::Ending;
use crate::faults::{Fault, end};
use crate::jobs::{Job, run_job};
use crate::options::{command_on_file, placed};
use crate::usage::Usage;
use clap::ArgMatches;
use desk_store::Keeper;
use sqlite::{Alter, Connection};
use std::alloc::{AllocError, Global};
use std::io::{Read, Write};

/// Returns its command line: its name and the file.
pub(crate) fn hear_app<'a>(alloc: Global) -> Result<clap::Command<'a>, AllocError>
    ensures { IsCommand hear_app result }
{
    let about = "Answers the messages of standard input, one a line, for the desk in a file";
    let example = "Example:\n  desk hear town.db < messages.txt";
    command_on_file(alloc, "hear", about, example)
}

/// Returns the command that its arguments give.
pub(crate) fn hear_of<'a>(options: &ArgMatches<'a>) -> Result<Command<'a>, Usage>
    ensures { TellsNamed (hear_named (rows_of (found_of options.now))) result }
{
    let file = placed(options, "file")?;
    Ok(Command::Hear { file })
}

/// Answers the messages of the reader, one a line, with the desk of the connection's database. Returns the connection.
///
/// Nothing is read before the desk is open. If the command is done, all lines are heard and answered.
///
/// # Errors
///
/// Writes one line to standard error:
///
/// - `File` if a read or a write failed. The first lines are heard. How much of the last answer was written isn't known.
/// - `Unavailable` if the desk failed at a line. Exactly the lines before it are answered.
/// - `NotADesk`, `Schema` or `Unavailable` if the database isn't a desk of schema 2. It stays as it is.
pub fn hear_command<S: Alter, R: Read, W: Write, F: Write>(
    alloc: Global,
    conn: Connection<S>,
    reader: &mut R,
    answers: &mut W,
    faults: &mut F,
) -> (Ending, Connection<S>)
    requires at_rest { IsAtRest conn }
    ensures { EndsGiving F.Write faults.old faults.new result
        (HearsOver S.Store conn (streams R.Read reader.old reader.new W.Write answers.old answers.new)) }
{
    let (done, conn) = hear_lines(alloc, conn, reader, answers);
    (end(faults, done), conn)
}

/// Answers the messages of the reader, and returns the connection.
fn hear_lines<S: Alter, R: Read, W: Write>(
    alloc: Global,
    conn: Connection<S>,
    reader: &mut R,
    answers: &mut W,
) -> (Result<(), Fault>, Connection<S>)
    requires at_rest { IsAtRest conn }
    ensures hears { HasCleanDisk (state S.Store result.1) → (c : Settings) (heard : List Envelope) → KeepsHeard S.Store conn c heard
        → HearsBy S.Store result.1 c heard (streams R.Read reader.old reader.new W.Write answers.old answers.new) result.0 }
    ensures not_a_desk { HasCleanDisk (state S.Store result.1) → IsNotADesk S.Store conn
        → RefusesFile S.Store conn result.1 (KeepsBoth (streams R.Read reader.old reader.new W.Write answers.old answers.new)) result.0 }
    ensures clean { HasCleanDisk (state S.Store result.1) → HasCleanDisk (state S.Store conn) }
{
    run_job(alloc, conn, &Hear, reader, answers)
}

/// Answers the messages of the reader, one a line.
struct Hear;

impl Job for Hear {
    ghost does = { λ job. answers };

    fn run<K: Keeper, R: Read, W: Write>(
        &self,
        alloc: Global,
        keeper: &mut K,
        reader: &mut R,
        answers: &mut W,
    ) -> Result<(), Fault> {
        answer_lines(alloc, keeper, reader, answers)
    }
}
