//! `desk migrate`: moves a desk's file from schema 1 to schema 2.
ghost use Rattle.clap.specs.Matches.{found_of};
ghost use Rattle.clap.specs.Walk.{rows_of};
ghost use Rattle.desk_cli.specs.commands.Migrating.{migrate_app, migrate_named, MigratesBy};
ghost use Rattle.desk_cli.specs.Faults.{Ends};
ghost use Rattle.desk_cli.specs.Named.{TellsNamed};
ghost use Rattle.desk_cli.specs.steps.CommandLine.{IsCommand};
ghost use Rattle.desk_tables.specs.AtRest.{IsAtRest};

use super::Command;
use crate::endings::Ending;
use crate::faults::{Fault, end};
use crate::options::{command_on_file, placed};
use crate::usage::Usage;
use clap::ArgMatches;
use desk_tables::Tables;
use sqlite::{Alter, Connection};
use std::alloc::{AllocError, Global};
use std::io::Write;

const EXAMPLE: &str = "\
Nothing is printed. All commands but this one take files of schema 2 alone.

Example:
  desk migrate town.db";

/// Returns its command line: its name and the file.
pub(crate) fn migrate_app<'a>(alloc: Global) -> Result<clap::Command<'a>, AllocError>
    ensures { IsCommand migrate_app result }
{
    let about = "Moves a desk's file from schema 1 to schema 2";
    command_on_file(alloc, "migrate", about, EXAMPLE)
}

/// Returns the command that its arguments give.
pub(crate) fn migrate_of<'a>(options: &ArgMatches<'a>) -> Result<Command<'a>, Usage>
    ensures { TellsNamed (migrate_named (rows_of (found_of options.now))) result }
{
    let file = placed(options, "file")?;
    Ok(Command::Migrate { file })
}

/// Moves the desk of the connection's database from schema 1 to schema 2, with all its rows. Returns the connection.
///
/// # Errors
///
/// Writes one line to standard error: `NotADesk` if the row of meta isn't a desk's, `Schema` if its version isn't 1, then `Exists` if the
/// name of the table that schema 1 lacks is taken, `NotADesk` if the rest isn't schema 1, else `Unavailable`. Nothing is changed then, and
/// a crash leaves what was there, or the moved desk.
pub fn migrate_command<S: Alter, F: Write>(
    alloc: Global,
    conn: Connection<S>,
    faults: &mut F,
) -> (Ending, Connection<S>)
    requires at_rest { IsAtRest conn }
    ensures { Ends F.Write faults.old faults.new result.0 (λ done. MigratesBy S.Store conn result.1 done) }
{
    let (done, conn) = move_desk(alloc, conn);
    (end(faults, done), conn)
}

/// Moves the desk, and returns the connection.
fn move_desk<S: Alter>(alloc: Global, conn: Connection<S>) -> (Result<(), Fault>, Connection<S>)
    requires at_rest { IsAtRest conn }
    ensures { MigratesBy S.Store conn result.1 result.0 }
{
    match Tables::migrate(alloc, conn) {
        Ok(tables) => (Ok(()), tables.close()),
        Err((fault, conn)) => (Err(fault.into()), conn),
    }
}
