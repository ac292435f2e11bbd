//! The list of the program's commands. Each has a module with its arguments and what it does. `report`, `bands` and `room` share one, as do
//! `list` and `device`, and `receptions` and `downlinks`. What commands do on one file is tested in `program/tests/one_file.rt`, and by rows
//! over each kind of store.
ghost use Rattle.std.specs.Prelude.{◌≡◌, IfOk};
ghost use Rattle.clap.specs.Matches.{found_of};
ghost use Rattle.clap.specs.Simple.{App, app_of, subcommand_rows_of};
ghost use Rattle.clap.specs.Walk.{rows_of};
ghost use Rattle.desk_cli.specs.CommandLine.{command_named, desk_app, named_with, top_app, with_readers};
ghost use Rattle.desk_cli.specs.Named.{TellsNamed};
ghost use Rattle.desk_cli.specs.steps.CommandLine.{AddsCommand, IsCommand};

mod auditing;
mod checking;
mod hear;
mod importing;
mod init;
mod lines;
mod listing;
mod log;
mod migrating;
mod month_reports;
mod reports;
mod serving;
mod version;

use crate::options::{command, flag, is_set, with_word};
use crate::usage::{Usage, no_command};
use auditing::{audit_app, audit_of};
pub use auditing::{audit_beside_command, audit_command};
pub use checking::check_command;
use checking::{check_app, check_of};
use clap::ArgMatches;
use desk_engine::LogText;
pub use hear::hear_command;
use hear::{hear_app, hear_of};
pub use importing::import_command;
use importing::{import_app, import_of};
pub use init::init_command;
use init::{init_app, init_of};
pub use lines::lines_command;
use lines::{lines_app, lines_of};
pub use listing::{DesksList, OneDevice};
use listing::{device_app, device_of, list_app, list_of};
pub use log::log_command;
use log::{log_app, log_of};
pub use migrating::migrate_command;
use migrating::{migrate_app, migrate_of};
pub use month_reports::{DevicesMonth, GatewaysMonth};
use month_reports::{downlinks_app, downlinks_of, receptions_app, receptions_of};
use radio_core::Name;
use registry_core::{Config, JsonInteger};
pub use reports::{GatewaysBands, GatewaysRoom, OwnersMonth};
use reports::{bands_app, bands_of, report_app, report_of, room_app, room_of};
pub use serving::serve_command;
use serving::{serve_app, serve_of};
use std::alloc::{AllocError, Global};
pub use version::version_command;

/// A command with its values.
#[derive(Clone, Copy)]
pub enum Command<'a> {
    /// Prints which desk this is.
    Version,
    /// Answers the messages of standard input, one a line, for a new desk in memory.
    Lines {
        config: Config,
    },
    /// Makes a file for a new desk.
    Init {
        file: &'a str,
        config: Config,
    },
    /// Moves a desk's file from schema 1 to schema 2.
    Migrate {
        file: &'a str,
    },
    /// Answers the messages of standard input, one a line, for the desk in a file.
    Hear {
        file: &'a str,
    },
    /// Answers the records of a gateway's CSV report on standard input, one a line. They come from this sender.
    Import {
        file: &'a str,
        sender: Name,
    },
    /// Serves this many connections over HTTP on a port of 127.0.0.1, one after another, with a log of them or without.
    Serve {
        file: &'a str,
        port: u16,
        connections: u32,
        log: bool,
    },
    /// Prints the report of an owner's month.
    Report {
        file: &'a str,
        report: OwnersMonth<'a>,
    },
    /// Prints the bands of a gateway.
    Bands {
        file: &'a str,
        report: GatewaysBands<'a>,
    },
    /// Prints the report of a gateway's room at a time.
    Room {
        file: &'a str,
        report: GatewaysRoom<'a>,
    },
    /// Prints the list of the senders, owners, gateways or devices.
    Listing {
        file: &'a str,
        report: DesksList,
    },
    /// Prints one device.
    Device {
        file: &'a str,
        report: OneDevice<'a>,
    },
    /// Prints the receptions of a device in a month.
    Receptions {
        file: &'a str,
        report: DevicesMonth<'a>,
    },
    /// Prints the downlinks of a gateway in a month.
    Downlinks {
        file: &'a str,
        report: GatewaysMonth<'a>,
    },
    /// Prints at most `count` messages that the desk has heard, from number `from` on, or their answers, one a line.
    Log {
        file: &'a str,
        from: JsonInteger,
        count: JsonInteger,
        which: LogText,
    },
    /// Prints the configuration of a desk's file, and how many rows of each kind it has.
    Check {
        file: &'a str,
    },
    /// Reports whether the file is what a desk wrote. The second desk is in a new file at `scratch`, or else in memory.
    Audit {
        file: &'a str,
        scratch: Option<&'a str>,
    },
}

const EXAMPLE: &str = "\
Example:
  desk init town.db --base 01a00000
  desk serve town.db --port 8080 --count 100";

/// Returns the command line: each command with its arguments.
///
/// # Errors
///
/// Returns `AllocError` if an allocation failed.
pub(crate) fn desk_app<'a>(alloc: Global) -> Result<clap::Command<'a>, AllocError>
    ensures { IfOk result (λ c. app_of c ≡ desk_app) }
{
    let desk = with_readers(alloc, top_app(alloc)?);
    let desk = added(desk, serve_app(alloc));
    let desk = added(desk, report_app(alloc));
    let desk = added(desk, bands_app(alloc));
    let desk = added(desk, room_app(alloc));
    let desk = added(desk, list_app(alloc));
    let desk = added(desk, device_app(alloc));
    let desk = added(desk, receptions_app(alloc));
    let desk = added(desk, downlinks_app(alloc));
    let desk = added(desk, log_app(alloc));
    let desk = added(desk, check_app(alloc));
    added(desk, audit_app(alloc))
}

/// Returns the command line without commands.
fn top_app<'a>(alloc: Global) -> Result<clap::Command<'a>, AllocError>
    ensures { IsCommand top_app result }
{
    let about = "A LoRaWAN device registry and airtime desk";
    let version = flag(alloc, "version", "Prints which desk this is");
    with_word(Ok(command(alloc, "desk", about, EXAMPLE)), version)
}

/// Adds the commands that read messages or records, and those that make and migrate a file.
fn with_readers<'a>(alloc: Global, desk: clap::Command<'a>) -> Result<clap::Command<'a>, AllocError>
    ensures { (app : App) → app_of desk.entry ≡ app → IfOk result (λ c. app_of c ≡ with_readers app) }
{
    let desk = added(Ok(desk), lines_app(alloc));
    let desk = added(desk, init_app(alloc));
    let desk = added(desk, migrate_app(alloc));
    let desk = added(desk, hear_app(alloc));
    added(desk, import_app(alloc))
}

/// Adds a command to the command line, or returns the first `AllocError` of the two.
fn added<'a>(
    desk: Result<clap::Command<'a>, AllocError>,
    command: Result<clap::Command<'a>, AllocError>,
) -> Result<clap::Command<'a>, AllocError>
    ensures { AddsCommand desk.entry command.entry result }
{
    desk?.subcommand(command?)
}

/// Returns the command that clap matched, with its values.
///
/// # Errors
///
/// Returns clap's error if there is no command, and the first value that is bad.
pub(crate) fn command_of<'a>(
    matches: &ArgMatches<'a>,
    desk: &mut clap::Command<'a>,
) -> Result<Command<'a>, Usage>
    ensures { TellsNamed (command_named (rows_of (found_of matches.now)) (subcommand_rows_of matches.now)) result }
{
    if is_set(matches, "version") {
        return Ok(Command::Version);
    }
    let Some((name, options)) = matches.subcommand() else {
        return Err(no_command(desk));
    };
    command_with(name, options, desk)
}

/// Returns the command of this name, with the values of its options.
#[tactic(auto, unfolding(crate::specs::CommandLine::named_with))]
fn command_with<'a>(
    name: &str,
    options: &ArgMatches<'a>,
    desk: &mut clap::Command<'a>,
) -> Result<Command<'a>, Usage>
    ensures { TellsNamed (named_with name.now (rows_of (found_of options.now))) result }
{
    match name {
        "lines" => lines_of(options),
        "init" => init_of(options),
        "migrate" => migrate_of(options),
        "hear" => hear_of(options),
        "import" => import_of(options),
        "serve" => serve_of(options),
        "report" => report_of(options),
        "bands" => bands_of(options),
        "room" => room_of(options),
        "list" => list_of(options),
        "device" => device_of(options),
        "receptions" => receptions_of(options),
        "downlinks" => downlinks_of(options),
        "log" => log_of(options),
        "check" => check_of(options),
        "audit" => audit_of(options),
        _ => Err(no_command(desk)),
    }
}
