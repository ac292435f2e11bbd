//! The program's arguments, and what it does with them.
ghost use Rattle.std.specs.Prelude.{◌≡◌, ◌≢◌, Result, Ok, Err, None, map, string_bytes, IfOk, IfErr};
ghost use Rattle.std.specs.IoError.{error_kind};
ghost use Rattle.std.specs.Vec.Iter.{into_iter_items};
ghost use Rattle.clap.specs.Walk.{texts};
ghost use Rattle.desk_cli.specs.Runs.{EndsUnread, Runs, given, RunsSome, DoesNamed, RunsOn};
ghost use Rattle.desk_cli.specs.steps.Given.{IsNotGiven, IsUnread};
ghost use Rattle.desk_cli.specs.steps.Usages.{TellsUsage};
ghost use Rattle.desk_cli.specs.Faults.{EndsBySome};

use crate::endings::{Ending, ending_of};
use crate::faults::{Fault, end};
use crate::files::FileOpener;
use crate::network::Network;
use crate::performing::{Performed, perform};
use crate::setup::Setup;
use crate::usage::Usage;
use crate::words::read_words;
use desk_engine::Progress;
use sqlite::Alter;
use std::alloc::{AllocError, Global};
use std::env::{self, Args};
use std::io::{self, ErrorKind, Read, Write};
use std::rt::Env;

/// Does what the program's arguments ask, and gives the connection to its file back, if it has one that could be opened, and the store of
/// the scratch database of an audit with a scratch file. What is wrong with the arguments, or why what they ask isn't done, is written to
/// `faults`. `progress` shows how far an import or an audit is.
pub fn run<
    E: Env + AllocGlobal,
    S: Alter + Drop,
    N: FileOpener<S>,
    B: Network,
    R: Read,
    W: Write,
    F: Write,
    P: Progress,
>(
    rt: &E,
    files: N,
    network: &B,
    reader: &mut R,
    answers: &mut W,
    faults: &mut F,
    progress: &P,
) -> Performed<S, N::Scratch>
    // Some arguments name a command, and what it asks was done, by how it ended; or they name none, or can't be read.
    ensures runs { RunsSome
        (⟦<N as Setup<S, B, R, W>>⟧.world files network.now reader.old reader.new answers.old answers.new result)
        F.Write faults.old faults.new }
    // So with status 0 what a command that arguments name asks was done.
    ensures done { result.0 ≡ Ending.Done → DoesNamed
        (⟦<N as Setup<S, B, R, W>>⟧.world files network.now reader.old reader.new answers.old answers.new result) }
    // Then nothing is written to standard error. Otherwise it reports why the command failed, unless the arguments name none.
    ensures quiet { result.0 ≡ Ending.Done → faults.new ≡ faults.old }
    ensures told { result.0 ≢ Ending.Misused → EndsBySome F.Write faults.old faults.new result.0 }
    // If the arguments name no command, no file was opened, nothing was read, and nothing was answered.
    ensures misused { result.0 ≡ Ending.Misused
        → (reader.new ≡ reader.old) × (answers.new ≡ answers.old) × (result.1 ≡ None) }
{
    run_given(
        rt.alloc(),
        env::args(rt),
        files,
        network,
        reader,
        answers,
        faults,
        progress,
    )
}

/// Does what the arguments ask, as std read them. What is wrong with them, or why std has none, is written to `faults`.
pub fn run_given<
    S: Alter + Drop,
    N: FileOpener<S>,
    B: Network,
    R: Read,
    W: Write,
    F: Write,
    P: Progress,
>(
    alloc: Global,
    arguments: io::Result<Args>,
    files: N,
    network: &B,
    reader: &mut R,
    answers: &mut W,
    faults: &mut F,
    progress: &P,
) -> Performed<S, N::Scratch>
    // The arguments name a command, and what it asks was done, by how it ended; or they name none, or can't be read.
    ensures runs { Runs
        (⟦<N as Setup<S, B, R, W>>⟧.world files network.now reader.old reader.new answers.old answers.new result)
        F.Write faults.old faults.new arguments }
    ensures quiet { result.0 ≡ Ending.Done → faults.new ≡ faults.old }
    ensures told { result.0 ≢ Ending.Misused → EndsBySome F.Write faults.old faults.new result.0 }
    ensures misused { result.0 ≡ Ending.Misused
        → (reader.new ≡ reader.old) × (answers.new ≡ answers.old) × (result.1 ≡ None) }
    ensures unread { IfErr arguments (λ error. EndsUnread (error_kind error) result.0) }
{
    match given_strings(alloc, arguments) {
        Ok(strings) => run_strings(
            alloc, &strings, files, network, reader, answers, faults, progress,
        ),
        Err(why) => (print_usage(&why, faults), None, None),
    }
}

/// Does the same for the texts of the arguments, with the program's own name first.
fn run_strings<
    S: Alter + Drop,
    N: FileOpener<S>,
    B: Network,
    R: Read,
    W: Write,
    F: Write,
    P: Progress,
>(
    alloc: Global,
    strings: &[String],
    files: N,
    network: &B,
    reader: &mut R,
    answers: &mut W,
    faults: &mut F,
    progress: &P,
) -> Performed<S, N::Scratch>
    ensures runs { RunsOn
        (⟦<N as Setup<S, B, R, W>>⟧.world files network.now reader.old reader.new answers.old answers.new result)
        F.Write faults.old faults.new (Ok (map string_bytes strings.now)) }
    ensures misused { result.0 ≡ Ending.Misused
        → (reader.new ≡ reader.old) × (answers.new ≡ answers.old) × (result.1 ≡ None) }
{
    let Ok(words) = words_of(alloc, strings) else {
        return (print_usage(&Usage::Memory, faults), None, None);
    };
    match read_words(alloc, &words) {
        Ok(command) => {
            perform(
                alloc, &command, files, network, reader, answers, faults, progress,
            )
        }
        Err(usage) => (print_usage(&usage, faults), None, None),
    }
}

/// Writes what is wrong with the arguments.
fn print_usage<F: Write>(usage: &Usage, faults: &mut F) -> Ending
    ensures { TellsUsage F.Write faults.old faults.new result usage.now }
{
    match usage {
        Usage::Memory => end(faults, Err(Fault::Unavailable)),
        _ => {
            // If this can't be written either, the exit status is all there is.
            let _ = write!(faults, "{usage}");
            ending_of(usage)
        }
    }
}

/// Returns why the arguments can't be read.
fn unread(error: &io::Error) -> Usage
    ensures { IsUnread (error_kind error.now) result }
{
    if error.kind() == ErrorKind::OutOfMemory {
        Usage::Memory
    } else {
        Usage::NotText
    }
}

/// Returns the texts of the arguments, or why they can't be read.
fn given_strings(alloc: Global, arguments: io::Result<Args>) -> Result<Vec<String>, Usage>
    ensures texts { IfOk result (λ strings. given arguments ≡ Ok (map string_bytes strings.items)) }
    ensures none { IfErr result (λ usage. IsNotGiven arguments usage) }
{
    match arguments {
        Ok(arguments) => match strings_of(alloc, arguments) {
            Ok(strings) => Ok(strings),
            Err(_) => Err(Usage::Memory),
        },
        Err(error) => Err(unread(&error)),
    }
}

fn strings_of(alloc: Global, arguments: Args) -> Result<Vec<String>, AllocError>
    ensures { IfOk result (λ strings. strings.items ≡ into_iter_items arguments) }
{
    arguments.collect(alloc)
}

fn words_of<'a>(alloc: Global, arguments: &'a [String]) -> Result<Vec<&'a str>, AllocError>
    ensures { IfOk result (λ words. texts words.items ≡ map string_bytes arguments.entry.now) }
{
    let words = arguments.iter().map(|argument| argument.as_str());
    words.collect(alloc)
}

#[cfg(test)]
mod tests;
