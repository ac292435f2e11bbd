//! Reads the arguments of the program.
ghost use Rattle.clap.specs.Walk.{texts};
ghost use Rattle.desk_cli.specs.CommandLine.{named_by};
ghost use Rattle.desk_cli.specs.Named.{TellsNamed};

use crate::commands::{Command, command_of, desk_app};
use crate::usage::{Usage, usage_of};
use std::alloc::Global;

/// Returns the command that the arguments name, by clap's rules and the forms of the values. The first argument is the program's own
/// name.
///
/// # Errors
///
/// Returns `Words` with clap's refusal or help, `Value` with the first value that is bad, and `Memory` if an allocation failed, whatever
/// the arguments are.
pub fn read_words<'a>(alloc: Global, words: &'a [&'a str]) -> Result<Command<'a>, Usage>
    ensures { TellsNamed (named_by (texts words.now)) result }
{
    let Ok(mut desk) = desk_app(alloc) else {
        return Err(Usage::Memory);
    };
    match desk.try_get_matches_from_mut(words) {
        Ok(matches) => command_of(&matches, &mut desk),
        Err(error) => Err(usage_of(error)),
    }
}
