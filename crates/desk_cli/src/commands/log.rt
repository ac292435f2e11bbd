//! `desk log`: the messages that a desk has heard, or their answers, from its file.
ghost use Rattle.std.specs.Prelude.{◌≡◌, List};
ghost use Rattle.std.specs.Io.KnownBytes.{Keeps};
ghost use Rattle.clap.specs.Matches.{found_of};
ghost use Rattle.clap.specs.Walk.{rows_of};
ghost use Rattle.sqlite.specs.Held.{state};
ghost use Rattle.sqlite.specs.State.{HasCleanDisk};
ghost use Rattle.registry_core.specs.declared.messages.Envelope.{Envelope};
ghost use Rattle.registry_core.specs.Settings.{Settings};
ghost use Rattle.desk_engine.specs.Log.{log_of};
ghost use Rattle.desk_cli.specs.Named.{TellsNamed};
ghost use Rattle.desk_cli.specs.RefusedFiles.{IsNotADesk, RefusesFile};
ghost use Rattle.desk_cli.specs.OnTables.{KeepsHeard};
ghost use Rattle.desk_cli.specs.commands.Log.{log_app, log_named, which_text, LogsOver, LogsDesk};
ghost use Rattle.desk_cli.specs.steps.CommandLine.{IsCommand};
ghost use Rattle.desk_cli.specs.steps.Jobs.{logs};
ghost use Rattle.desk_tables.specs.AtRest.{IsAtRest};
ghost use Rattle.desk_cli.specs.Faults.{EndsGiving};

use super::Command;
use crate::endings::Ending;
use crate::faults::{Fault, end};
use crate::jobs::{Job, run_job};
use crate::options::{
    command_on_file, flag, is_set, number_at, number_or_greatest, option, optional, placed,
    with_word,
};
use crate::usage::{BadValue, Usage};
use clap::ArgMatches;
use desk_engine::{LogEnd, LogText, write_log};
use desk_store::Keeper;
use registry_core::JsonInteger;
use sqlite::{Alter, Connection};
use std::alloc::{AllocError, Global};
use std::io::{self, Read, Write};

const EXAMPLE: &str = "\
Example:
  desk log town.db > messages.txt
  desk log town.db --from 9 --count 1 --answers";

/// Returns its command line: its name, the file, the first message, how many, and whether their answers are printed instead.
pub(crate) fn log_app<'a>(alloc: Global) -> Result<clap::Command<'a>, AllocError>
    ensures { IsCommand log_app result }
{
    let about = "Prints the messages that the desk has heard, or their answers, one a line";
    let first = "The number of the first message";
    let from = option(alloc, "from", "N", "1", first);
    let many = "How many messages at most; all to the last if it is left out";
    let count = optional(alloc, "count", "N", many);
    let command = with_word(command_on_file(alloc, "log", about, EXAMPLE), from);
    let counted = with_word(command, count);
    with_word(
        counted,
        flag(alloc, "answers", "Prints the answers, and not the messages"),
    )
}

/// Returns the command that its arguments give.
pub(crate) fn log_of<'a>(options: &ArgMatches<'a>) -> Result<Command<'a>, Usage>
    ensures { TellsNamed (log_named (rows_of (found_of options.now))) result }
{
    let file = placed(options, "file")?;
    let from = number_at(options, "from").ok_or(BadValue::FirstMessage)?;
    let count = number_or_greatest(options, "count").ok_or(BadValue::Messages)?;
    Ok(Command::Log {
        file,
        from,
        count,
        which: which_text(is_set(options, "answers")),
    })
}

fn which_text(answers: bool) -> LogText
    ensures { result ≡ which_text answers }
{
    if answers {
        LogText::Answer
    } else {
        LogText::Message
    }
}

/// Prints the log of the desk in the connection's database: the messages from number `from` on, at most `count` of them, as
/// `write_message` writes them, or their answers, each followed by one LF. The first message has the number 1. Nothing is printed if
/// `from` is above the number of messages heard. Returns the connection. The database stays as it is.
///
/// # Errors
///
/// Writes one line to standard error:
///
/// - `File` if a write failed: whole lines are printed, and of the next line its first octets or none; or if the flush failed, after all
///   was printed.
/// - `Unavailable` if an allocation or the disk failed. Whole lines are printed.
/// - `NotADesk`, `Schema` or `Unavailable` if the database isn't a desk of schema 2.
pub fn log_command<S: Alter, W: Write, F: Write>(
    alloc: Global,
    conn: Connection<S>,
    from: JsonInteger,
    count: JsonInteger,
    which: LogText,
    answers: &mut W,
    faults: &mut F,
) -> (Ending, Connection<S>)
    requires at_rest { IsAtRest conn }
    ensures { EndsGiving F.Write faults.old faults.new result
        (LogsOver S.Store which from count conn W.Write answers.old answers.new) }
{
    let (done, conn) = print_log(alloc, conn, from, count, which, answers);
    (end(faults, done), conn)
}

/// Prints the log, and returns the connection.
fn print_log<S: Alter, W: Write>(
    alloc: Global,
    conn: Connection<S>,
    from: JsonInteger,
    count: JsonInteger,
    which: LogText,
    answers: &mut W,
) -> (Result<(), Fault>, Connection<S>)
    requires at_rest { IsAtRest conn }
    ensures logs { HasCleanDisk (state S.Store result.1) → (c : Settings) (heard : List Envelope) → KeepsHeard S.Store conn c heard
        → LogsDesk S.Store result.1 c heard which from count (W.contents answers.old) (W.contents answers.new) result.0 }
    ensures not_a_desk { HasCleanDisk (state S.Store result.1) → IsNotADesk S.Store conn
        → RefusesFile S.Store conn result.1 (Keeps (W.contents answers.old) (W.contents answers.new)) result.0 }
    ensures clean { HasCleanDisk (state S.Store result.1) → HasCleanDisk (state S.Store conn) }
{
    let log = Log { from, count, which };
    run_job(alloc, conn, &log, &mut io::empty(), answers)
}

/// Prints at most `count` messages of the log, from this number on, or their answers.
#[derive(Drop)]
struct Log {
    from: JsonInteger,
    count: JsonInteger,
    which: LogText,
}

impl Job for Log {
    ghost does = { λ job. logs job.which job.from job.count };

    fn run<K: Keeper, R: Read, W: Write>(
        &self,
        _alloc: Global,
        keeper: &mut K,
        _reader: &mut R,
        answers: &mut W,
    ) -> Result<(), Fault> {
        match write_log(keeper, self.from, self.count, self.which, answers) {
            LogEnd::Done(_) => match answers.flush() {
                Ok(()) => Ok(()),
                Err(_) => Err(Fault::File),
            },
            LogEnd::Write => Err(Fault::File),
            LogEnd::Unavailable(fault) => Err(fault.into()),
        }
    }
}
