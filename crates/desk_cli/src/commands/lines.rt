//! `desk lines`: messages from a reader, answers to a writer, over lists in memory.
ghost use Rattle.std.specs.Prelude.{◌≡◌, [], IfOk};
ghost use Rattle.clap.specs.Matches.{found_of};
ghost use Rattle.clap.specs.Walk.{rows_of};
ghost use Rattle.registry_core.specs.State.{opening};
ghost use Rattle.desk_store.specs.Lists.{kept_of, settings_of};
ghost use Rattle.desk_cli.specs.commands.Lines.{AnswersLines, lines_app, lines_named};
ghost use Rattle.desk_cli.specs.Faults.{Ends};
ghost use Rattle.desk_cli.specs.Named.{TellsNamed};
ghost use Rattle.desk_cli.specs.steps.CommandLine.{IsCommand};
ghost use Rattle.desk_cli.specs.Options.{config_of};
ghost use Rattle.desk_cli.specs.Streams.{streams};

use super::Command;
use crate::answering::answer_lines;
use crate::endings::Ending;
use crate::faults::{Fault, end};
use crate::options::{command_with_settings, config_of};
use crate::usage::Usage;
use clap::ArgMatches;
use desk_engine::laws::new_lists_are_in_order;
use desk_store::Lists;
use registry_core::Config;
use registry_core::laws::nothing_is_heard;
use std::alloc::{AllocError, Global};
use std::io::{Read, Write};

/// Returns its command line: its name, what it does, and the options of a desk's configuration.
pub(crate) fn lines_app<'a>(alloc: Global) -> Result<clap::Command<'a>, AllocError>
    ensures { IsCommand lines_app result }
{
    let about = "Answers the messages of standard input, one a line, for a new desk in memory";
    let example = "Example:\n  desk lines --receiver town < messages.txt";
    command_with_settings(alloc, "lines", about, example)
}

/// Returns the command that its options give.
pub(crate) fn lines_of<'a>(options: &ArgMatches<'a>) -> Result<Command<'a>, Usage>
    ensures { TellsNamed (lines_named (config_of (rows_of (found_of options.now)))) result }
{
    let config = config_of(options)?;
    Ok(Command::Lines { config })
}

/// Answers the messages of the reader, one a line, over new lists in memory.
///
/// # Errors
///
/// Writes one line to standard error: `File` if a read or a write failed, and `Unavailable` if an allocation failed at a line. Exactly
/// the lines before it are answered then.
pub fn lines_command<R: Read, W: Write, F: Write>(
    alloc: Global,
    config: &Config,
    reader: &mut R,
    answers: &mut W,
    faults: &mut F,
) -> Ending
    ensures { Ends F.Write faults.old faults.new result
        (AnswersLines (streams R.Read reader.old reader.new W.Write answers.old answers.new) config.now) }
{
    let done = answer_in_memory(alloc, config, reader, answers);
    end(faults, done)
}

/// Answers the messages of the reader, over new lists.
fn answer_in_memory<R: Read, W: Write>(
    alloc: Global,
    config: &Config,
    reader: &mut R,
    answers: &mut W,
) -> Result<(), Fault>
    ensures answered { AnswersLines (streams R.Read reader.old reader.new W.Write answers.old answers.new) config.now result }
{
    nothing_is_heard();
    new_lists_are_in_order();
    let mut lists = match new_lists(alloc, config) {
        Ok(lists) => lists,
        Err(_) => return Err(Fault::Unavailable),
    };
    answer_lines(alloc, &mut *lists, reader, answers)
}

/// The store that the lines go to, in a box: it is large, and would be moved about.
fn new_lists(alloc: Global, config: &Config) -> Result<Box<Lists>, AllocError>
    ensures opens { IfOk result (λ lists. kept_of lists.value ≡ record { facts = opening config.now; entries = [] }) }
    ensures config { IfOk result (λ lists. settings_of lists.value ≡ config.now) }
{
    let lists = Lists::new(alloc, *config)?;
    Ok(Box::new(alloc, lists)?)
}

#[cfg(test)]
mod tests;
