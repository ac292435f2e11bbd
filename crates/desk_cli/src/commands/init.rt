//! `desk init`: makes a desk in a file.
ghost use Rattle.clap.specs.Matches.{found_of};
ghost use Rattle.clap.specs.Walk.{rows_of};
ghost use Rattle.desk_cli.specs.commands.Init.{init_app, init_named, InitsBy};
ghost use Rattle.desk_cli.specs.Faults.{Ends};
ghost use Rattle.desk_cli.specs.Named.{TellsNamed};
ghost use Rattle.desk_cli.specs.steps.CommandLine.{IsCommand};
ghost use Rattle.desk_tables.specs.AtRest.{IsAtRest};

use super::Command;
use crate::endings::Ending;
use crate::faults::{Fault, end};
use crate::options::{command_with_settings, config_of, place, placed, with_word};
use crate::usage::Usage;
use clap::ArgMatches;
use desk_tables::Tables;
use registry_core::Config;
use registry_core::laws::nothing_is_heard;
use sqlite::{Alter, Connection};
use std::alloc::{AllocError, Global};
use std::io::Write;

/// Returns its command line: its name, the file, and the options of a desk's configuration.
pub(crate) fn init_app<'a>(alloc: Global) -> Result<clap::Command<'a>, AllocError>
    ensures { IsCommand init_app result }
{
    let about = "Makes a file for a new desk";
    let example = "Example:\n  desk init town.db --base 01a00000";
    let file = place(alloc, "file", "FILE", "The file, which isn't there yet");
    with_word(command_with_settings(alloc, "init", about, example), file)
}

/// Returns the command that its arguments give.
pub(crate) fn init_of<'a>(options: &ArgMatches<'a>) -> Result<Command<'a>, Usage>
    ensures { TellsNamed (init_named (rows_of (found_of options.now))) result }
{
    let file = placed(options, "file")?;
    let config = config_of(options)?;
    Ok(Command::Init { file, config })
}

/// Makes a desk of this configuration in the connection's database, which has to be empty. Returns the connection.
///
/// # Errors
///
/// Writes one line to standard error: `Exists` if the database has one of the desk's names already, else `NotADesk` if there is anything
/// else in it, else `Unavailable`. Nothing is changed then, and a crash leaves what was there, or the new desk.
pub fn init_command<S: Alter, F: Write>(
    alloc: Global,
    conn: Connection<S>,
    config: Config,
    faults: &mut F,
) -> (Ending, Connection<S>)
    requires at_rest { IsAtRest conn }
    ensures { Ends F.Write faults.old faults.new result.0 (λ done. InitsBy S.Store conn result.1 config done) }
{
    let (done, conn) = make_desk(alloc, conn, config);
    (end(faults, done), conn)
}

/// Makes a desk, and returns the connection.
fn make_desk<S: Alter>(
    alloc: Global,
    conn: Connection<S>,
    config: Config,
) -> (Result<(), Fault>, Connection<S>)
    requires at_rest { IsAtRest conn }
    ensures { InitsBy S.Store conn result.1 config result.0 }
{
    nothing_is_heard();
    match Tables::create(alloc, conn, config) {
        Ok(tables) => (Ok(()), tables.close()),
        Err((fault, conn)) => (Err(fault.into()), conn),
    }
}
