//! `desk list` and `desk device`: what a desk has, and one of its devices, from a desk's file.
ghost use Rattle.clap.specs.Matches.{found_of};
ghost use Rattle.clap.specs.Walk.{rows_of};
ghost use Rattle.desk_engine.specs.Listing.{IsDeviceAnswer, IsListAnswer};
ghost use Rattle.desk_cli.specs.commands.Listing.{device_app, device_named, list_app, list_named};
ghost use Rattle.desk_cli.specs.Named.{TellsNamed};
ghost use Rattle.desk_cli.specs.steps.CommandLine.{IsCommand};

use super::Command;
use crate::options::{command_on_file, list_at, place, placed, with_word};
use crate::printing::Report;
use crate::usage::{BadValue, Usage};
use clap::ArgMatches;
use desk_engine::{ListOf, ReportFault, device_report, list};
use desk_store::Keeper;
use std::alloc::{AllocError, Global};

/// Returns the command line of `desk list`: its name, the file, and what the list is of.
pub(crate) fn list_app<'a>(alloc: Global) -> Result<clap::Command<'a>, AllocError>
    ensures { IsCommand list_app result }
{
    let about = "Prints the senders, the owners, the gateways or the devices of a desk";
    let example = "Example:\n  desk list town.db devices";
    let what = place(
        alloc,
        "what",
        "WHAT",
        "What to list: senders, owners, gateways or devices",
    );
    with_word(command_on_file(alloc, "list", about, example), what)
}

/// Returns the command that its arguments give.
pub(crate) fn list_of<'a>(options: &ArgMatches<'a>) -> Result<Command<'a>, Usage>
    ensures { TellsNamed (list_named (rows_of (found_of options.now))) result }
{
    let file = placed(options, "file")?;
    let of = list_at(options, "what").ok_or(BadValue::What)?;
    let report = DesksList { of };
    Ok(Command::Listing { file, report })
}

/// Returns the command line of `desk device`: its name, the file and the DevEUI.
pub(crate) fn device_app<'a>(alloc: Global) -> Result<clap::Command<'a>, AllocError>
    ensures { IsCommand device_app result }
{
    let about = "Prints one device: its owner, its latest session and its counters";
    let example = "Example:\n  desk device town.db 0004a30b001a2b3c";
    let dev_eui = place(alloc, "deveui", "DEVEUI", "The device's DevEUI");
    with_word(command_on_file(alloc, "device", about, example), dev_eui)
}

/// Returns the command that its arguments give.
pub(crate) fn device_of<'a>(options: &ArgMatches<'a>) -> Result<Command<'a>, Usage>
    ensures { TellsNamed (device_named (rows_of (found_of options.now))) result }
{
    let file = placed(options, "file")?;
    let dev_eui = placed(options, "deveui")?;
    let report = OneDevice { dev_eui };
    Ok(Command::Device { file, report })
}

/// The list of the senders, owners, gateways or devices.
#[derive(Clone, Copy)]
pub struct DesksList {
    pub of: ListOf,
}

impl Report for DesksList {
    ghost is_answer = { λ report c heard answer. IsListAnswer report.of c heard answer };

    ghost unopened = { λ report c heard. record { text = tt; fault = tt } };

    fn ask<K: Keeper>(&self, alloc: Global, keeper: &mut K) -> Result<Vec<u8>, ReportFault> {
        list(alloc, keeper, self.of)
    }
}

/// The report of one device: its owner, its latest session and its counters.
///
/// # Errors
///
/// `Device` if nobody added the device.
#[derive(Clone, Copy)]
pub struct OneDevice<'a> {
    pub dev_eui: &'a str,
}

impl Report for OneDevice<'_> {
    ghost is_answer = { λ report c heard answer. IsDeviceAnswer c heard report.dev_eui.now answer };

    ghost unopened = { λ report c heard. record { known = tt; report = tt; fault = tt } };

    fn ask<K: Keeper>(&self, alloc: Global, keeper: &mut K) -> Result<Vec<u8>, ReportFault> {
        device_report(alloc, keeper, self.dev_eui)
    }
}
