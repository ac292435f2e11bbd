//! `desk check`: the configuration of a desk's file, and how many rows it has.
ghost use Rattle.std.specs.Prelude.{◌≡◌, IfOk};
ghost use Rattle.std.specs.String.{string_bytes};
ghost use Rattle.clap.specs.Matches.{found_of};
ghost use Rattle.clap.specs.Walk.{rows_of};
ghost use Rattle.desk_store.specs.Calls.{IsRead, Tells, fault_in};
ghost use Rattle.desk_engine.specs.Reporting.{store_fault_in};
ghost use Rattle.desk_tables.specs.Store.{meaning_of};
ghost use Rattle.desk_cli.specs.Doing.{PrintsOver};
ghost use Rattle.desk_cli.specs.Named.{TellsNamed};
ghost use Rattle.desk_cli.specs.steps.CommandLine.{IsCommand};
ghost use Rattle.desk_cli.specs.commands.Checking.{IsCheck, check_app, check_named, check_text, named_lines, numbered_lines, settings_lines};
ghost use Rattle.desk_cli.specs.steps.Checking.{IsCheckOf, TellsTotals};
ghost use Rattle.desk_tables.specs.AtRest.{IsAtRest};
ghost use Rattle.desk_cli.specs.Faults.{EndsGiving};

use super::Command;
use crate::endings::Ending;
use crate::faults::{Fault, end};
use crate::opening::opened;
use crate::options::{command_on_file, placed};
use crate::printing::print;
use crate::usage::Usage;
use clap::ArgMatches;
use desk_engine::ReportFault;
use desk_store::{Counts, Looks, StoreFault};
use desk_tables::{Tables, Totals};
use desk_wire::addr_digits;
use radio_core::DevAddr;
use registry_core::Config;
use sqlite::{Alter, Connection};
use std::alloc::{AllocError, Global};
use std::io::Write;

/// Returns its command line: its name and the file.
pub(crate) fn check_app<'a>(alloc: Global) -> Result<clap::Command<'a>, AllocError>
    ensures { IsCommand check_app result }
{
    let about = "Prints what a desk's file was made with, and how much it holds";
    let example = "Example:\n  desk check town.db";
    command_on_file(alloc, "check", about, example)
}

/// Returns the command that its arguments give.
pub(crate) fn check_of<'a>(options: &ArgMatches<'a>) -> Result<Command<'a>, Usage>
    ensures { TellsNamed (check_named (rows_of (found_of options.now))) result }
{
    let file = placed(options, "file")?;
    Ok(Command::Check { file })
}

/// Prints the configuration of the desk in the connection's database, and how many senders, owners, gateways, devices, limits,
/// sessions, uplinks, bookings and replies it has, a line each. Returns the connection. The database stays as it is.
///
/// # Errors
///
/// Writes one line to standard error: `NotADesk`, `Schema` or `Unavailable` if the database isn't a desk of schema 2, `Unavailable` if
/// an allocation or the disk failed, and `File` if a write to standard output failed.
pub fn check_command<S: Alter, W: Write, F: Write>(
    alloc: Global,
    conn: Connection<S>,
    answers: &mut W,
    faults: &mut F,
) -> (Ending, Connection<S>)
    requires at_rest { IsAtRest conn }
    ensures { EndsGiving F.Write faults.old faults.new result
        (PrintsOver S.Store IsCheck conn W.Write answers.old answers.new) }
{
    let (done, conn) = print_check(alloc, conn, answers);
    (end(faults, done), conn)
}

/// Prints the configuration and the numbers of rows, and returns the connection.
fn print_check<S: Alter, W: Write>(
    alloc: Global,
    conn: Connection<S>,
    answers: &mut W,
) -> (Result<(), Fault>, Connection<S>)
    requires at_rest { IsAtRest conn }
    ensures { PrintsOver S.Store IsCheck conn W.Write answers.old answers.new result.1 result.0 }
{
    match opened(alloc, conn) {
        Ok(tables) => {
            let mut tables = tables;
            let text = text_of(alloc, &mut tables);
            (print(answers, &text), tables.close())
        }
        Err((fault, conn)) => (Err(fault), conn),
    }
}

/// Returns the text that is printed of the desk.
#[tactic(auto, using(crate::proofs::TotalsPrinted::no_check))]
fn text_of<S: Alter>(alloc: Global, tables: &mut Tables<S>) -> Result<Vec<u8>, ReportFault>
    ensures read { IsRead (meaning_of S.Store) tables.old tables.new (store_fault_in result) }
    ensures told { IsCheckOf (meaning_of S.Store) tables.old tables.new (λ text. text.items) result }
{
    match checked(alloc, tables) {
        Ok(text) => Ok(text),
        Err(fault) => Err(ReportFault::Unavailable(fault)),
    }
}

fn checked<S: Alter>(alloc: Global, tables: &mut Tables<S>) -> Result<Vec<u8>, StoreFault>
    ensures read { IsRead (meaning_of S.Store) tables.old tables.new (fault_in result) }
    ensures told { Tells (meaning_of S.Store) tables.old tables.new result
        (λ kept text. TellsTotals kept ((meaning_of S.Store).configuration tables.old) text.items) }
{
    let totals = tables.totals()?;
    let text = lines_of(alloc, tables.config(), &totals)?;
    Ok(text.into_bytes())
}

fn lines_of(alloc: Global, config: &Config, totals: &Totals) -> Result<String, AllocError>
    ensures { IfOk result (λ text. string_bytes text ≡ check_text config.now totals.now) }
{
    let numbered = numbered_lines(alloc, totals)?;
    let named = named_lines(alloc, totals, numbered.as_str())?;
    settings_lines(alloc, config, named.as_str())
}

/// Returns the lines of the configuration, followed by these lines.
fn settings_lines(alloc: Global, config: &Config, lines: &str) -> Result<String, AllocError>
    ensures { IfOk result (λ text. string_bytes text ≡ settings_lines config.now lines.now) }
{
    let base = addr_digits(alloc, DevAddr::new(config.base()))?;
    let receiver = config.receiver().as_str();
    let operator = config.operator().as_str();
    let addresses = config.addresses();
    format!(in alloc;
        "schema: 2\nreceiver: {receiver}\noperator: {operator}\nbase: {base}\naddresses: {addresses}\n{lines}"
    )
}

/// Returns the lines of what has a name or a DevEUI, and of the limits that were set, followed by these lines.
fn named_lines(alloc: Global, totals: &Totals, lines: &str) -> Result<String, AllocError>
    ensures { IfOk result (λ text. string_bytes text ≡ named_lines totals.now lines.now) }
{
    let Totals {
        senders,
        owners,
        gateways,
        devices,
        limits,
        ..
    } = *totals;
    format!(in alloc;
        "senders: {senders}\nowners: {owners}\ngateways: {gateways}\ndevices: {devices}\nlimits: {limits}\n{lines}"
    )
}

/// Returns the lines of what is numbered.
fn numbered_lines(alloc: Global, totals: &Totals) -> Result<String, AllocError>
    ensures { IfOk result (λ text. string_bytes text ≡ numbered_lines totals.now) }
{
    let Counts {
        sessions,
        uplinks,
        bookings,
    } = totals.numbered;
    let replies = totals.replies;
    format!(in alloc;
        "sessions: {sessions}\nuplinks: {uplinks}\nbookings: {bookings}\nreplies: {replies}\n"
    )
}
