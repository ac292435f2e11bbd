//! `desk receptions` and `desk downlinks`: what a month had of a device and of a gateway, from a desk's file.
ghost use Rattle.clap.specs.Matches.{found_of};
ghost use Rattle.clap.specs.Walk.{rows_of};
ghost use Rattle.registry_core.specs.Heard.{state_of};
ghost use Rattle.desk_cli.specs.commands.MonthReports.{downlinks_app, downlinks_named, receptions_app, receptions_named};
ghost use Rattle.desk_cli.specs.Named.{TellsNamed};
ghost use Rattle.desk_cli.specs.Printing.{IsDevicesMonth, IsGatewaysMonth};
ghost use Rattle.desk_cli.specs.steps.CommandLine.{IsCommand};
ghost use Rattle.desk_cli.specs.steps.Printing.{unasked_month};

use super::Command;
use crate::options::{command_on_file, place, placed, with_word};
use crate::printing::Report;
use crate::usage::Usage;
use clap::ArgMatches;
use desk_engine::{ReportFault, downlink_report, reception_report};
use desk_store::Keeper;
use std::alloc::{AllocError, Global};

/// Returns the command line of `desk receptions`: its name, the file, the DevEUI and the month.
pub(crate) fn receptions_app<'a>(alloc: Global) -> Result<clap::Command<'a>, AllocError>
    ensures { IsCommand receptions_app result }
{
    let about = "Prints the receptions of a device in a month";
    let example = "Example:\n  desk receptions town.db 0004a30b001a2b3c 2024-02";
    let dev_eui = place(alloc, "deveui", "DEVEUI", "The device's DevEUI");
    let month = place(alloc, "month", "MONTH", "The month, as 2024-02");
    let command = with_word(
        command_on_file(alloc, "receptions", about, example),
        dev_eui,
    );
    with_word(command, month)
}

/// Returns the command that its arguments give.
pub(crate) fn receptions_of<'a>(options: &ArgMatches<'a>) -> Result<Command<'a>, Usage>
    ensures { TellsNamed (receptions_named (rows_of (found_of options.now))) result }
{
    let file = placed(options, "file")?;
    let dev_eui = placed(options, "deveui")?;
    let month = placed(options, "month")?;
    let report = DevicesMonth { dev_eui, month };
    Ok(Command::Receptions { file, report })
}

/// Returns the command line of `desk downlinks`: its name, the file, the gateway and the month.
pub(crate) fn downlinks_app<'a>(alloc: Global) -> Result<clap::Command<'a>, AllocError>
    ensures { IsCommand downlinks_app result }
{
    let about = "Prints the downlinks of a gateway in a month";
    let example = "Example:\n  desk downlinks town.db gw-a 2024-02";
    let gateway = place(alloc, "gateway", "GATEWAY", "The gateway");
    let month = place(alloc, "month", "MONTH", "The month, as 2024-02");
    let command = with_word(command_on_file(alloc, "downlinks", about, example), gateway);
    with_word(command, month)
}

/// Returns the command that its arguments give.
pub(crate) fn downlinks_of<'a>(options: &ArgMatches<'a>) -> Result<Command<'a>, Usage>
    ensures { TellsNamed (downlinks_named (rows_of (found_of options.now))) result }
{
    let file = placed(options, "file")?;
    let gateway = placed(options, "gateway")?;
    let month = placed(options, "month")?;
    let report = GatewaysMonth { gateway, month };
    Ok(Command::Downlinks { file, report })
}

/// The receptions of a device in a month.
///
/// # Errors
///
/// `Month` if the text isn't a month, for any device, then `Device` if nobody added the device.
#[derive(Clone, Copy)]
pub struct DevicesMonth<'a> {
    pub dev_eui: &'a str,
    pub month: &'a str,
}

impl Report for DevicesMonth<'_> {
    ghost is_answer = { λ report c heard answer. IsDevicesMonth (state_of c heard) report.dev_eui.now report.month.now answer };

    ghost unopened = { λ report c heard. unasked_month tt };

    fn ask<K: Keeper>(&self, alloc: Global, keeper: &mut K) -> Result<Vec<u8>, ReportFault> {
        reception_report(alloc, keeper, self.dev_eui, self.month)
    }
}

/// The downlinks of a gateway in a month.
///
/// # Errors
///
/// `Month` if the text isn't a month, for any gateway, then `Gateway` if nobody added the gateway.
#[derive(Clone, Copy)]
pub struct GatewaysMonth<'a> {
    pub gateway: &'a str,
    pub month: &'a str,
}

impl Report for GatewaysMonth<'_> {
    ghost is_answer = { λ report c heard answer. IsGatewaysMonth (state_of c heard) report.gateway.now report.month.now answer };

    ghost unopened = { λ report c heard. unasked_month tt };

    fn ask<K: Keeper>(&self, alloc: Global, keeper: &mut K) -> Result<Vec<u8>, ReportFault> {
        downlink_report(alloc, keeper, self.gateway, self.month)
    }
}
