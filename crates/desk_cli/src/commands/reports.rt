//! `desk report`, `desk bands` and `desk room`: reports from a desk's file.
ghost use Rattle.clap.specs.Matches.{found_of};
ghost use Rattle.clap.specs.Walk.{rows_of};
ghost use Rattle.desk_cli.specs.commands.Reports.{bands_app, bands_named, report_app, report_named, room_app, room_named};
ghost use Rattle.desk_cli.specs.Named.{TellsNamed};
ghost use Rattle.desk_cli.specs.steps.CommandLine.{IsCommand};
ghost use Rattle.desk_cli.specs.steps.Printing.{unasked_month, unasked_room};
ghost use Rattle.registry_core.specs.Heard.{state_of};
ghost use Rattle.desk_http.specs.Reports.{IsBandAnswer};
ghost use Rattle.desk_cli.specs.Printing.{IsGatewaysRoom, IsOwnersMonth};

use super::Command;
use crate::options::{command_on_file, place, placed, with_word};
use crate::printing::Report;
use crate::usage::Usage;
use clap::ArgMatches;
use desk_engine::{ReportFault, band_report, owner_report, room_report};
use desk_store::Keeper;
use std::alloc::{AllocError, Global};

/// Returns the command line of `desk report`: its name, the file, the owner and the month.
pub(crate) fn report_app<'a>(alloc: Global) -> Result<clap::Command<'a>, AllocError>
    ensures { IsCommand report_app result }
{
    let about = "Prints the report of an owner's month";
    let example = "Example:\n  desk report town.db town 2024-02";
    let owner = place(alloc, "owner", "OWNER", "The owner");
    let month = place(alloc, "month", "MONTH", "The month, as 2024-02");
    let command = with_word(command_on_file(alloc, "report", about, example), owner);
    with_word(command, month)
}

/// Returns the command that its arguments give.
pub(crate) fn report_of<'a>(options: &ArgMatches<'a>) -> Result<Command<'a>, Usage>
    ensures { TellsNamed (report_named (rows_of (found_of options.now))) result }
{
    let file = placed(options, "file")?;
    let owner = placed(options, "owner")?;
    let month = placed(options, "month")?;
    let report = OwnersMonth { owner, month };
    Ok(Command::Report { file, report })
}

/// Returns the command line of `desk bands`: its name, the file and the gateway.
pub(crate) fn bands_app<'a>(alloc: Global) -> Result<clap::Command<'a>, AllocError>
    ensures { IsCommand bands_app result }
{
    let about = "Prints the bands of a gateway";
    let example = "Example:\n  desk bands town.db gw-a";
    let gateway = place(alloc, "gateway", "GATEWAY", "The gateway");
    with_word(command_on_file(alloc, "bands", about, example), gateway)
}

/// Returns the command that its arguments give.
pub(crate) fn bands_of<'a>(options: &ArgMatches<'a>) -> Result<Command<'a>, Usage>
    ensures { TellsNamed (bands_named (rows_of (found_of options.now))) result }
{
    let file = placed(options, "file")?;
    let gateway = placed(options, "gateway")?;
    let report = GatewaysBands { gateway };
    Ok(Command::Bands { file, report })
}

/// Returns the command line of `desk room`: its name, the file, the gateway and the time.
pub(crate) fn room_app<'a>(alloc: Global) -> Result<clap::Command<'a>, AllocError>
    ensures { IsCommand room_app result }
{
    let about = "Prints how long a downlink of a gateway may be that begins at a time";
    let example = "Example:\n  desk room town.db gw-a 1706745601061696";
    let gateway = place(alloc, "gateway", "GATEWAY", "The gateway");
    let time = place(
        alloc,
        "time",
        "TIME",
        "The time, in microseconds since 1970",
    );
    let command = with_word(command_on_file(alloc, "room", about, example), gateway);
    with_word(command, time)
}

/// Returns the command that its arguments give.
pub(crate) fn room_of<'a>(options: &ArgMatches<'a>) -> Result<Command<'a>, Usage>
    ensures { TellsNamed (room_named (rows_of (found_of options.now))) result }
{
    let file = placed(options, "file")?;
    let gateway = placed(options, "gateway")?;
    let time = placed(options, "time")?;
    let report = GatewaysRoom { gateway, time };
    Ok(Command::Room { file, report })
}

/// The report of an owner's month.
///
/// # Errors
///
/// `Month` if the text isn't a month, for any owner, then `Owner` if nobody added the owner.
#[derive(Clone, Copy)]
pub struct OwnersMonth<'a> {
    pub owner: &'a str,
    pub month: &'a str,
}

impl Report for OwnersMonth<'_> {
    ghost is_answer = { λ report c heard answer. IsOwnersMonth (state_of c heard) report.owner.now report.month.now answer };

    ghost unopened = { λ report c heard. unasked_month tt };

    fn ask<K: Keeper>(&self, alloc: Global, keeper: &mut K) -> Result<Vec<u8>, ReportFault> {
        owner_report(alloc, keeper, self.owner, self.month)
    }
}

/// The report of a gateway's bands.
///
/// # Errors
///
/// `Gateway` if nobody added the gateway.
#[derive(Clone, Copy)]
pub struct GatewaysBands<'a> {
    pub gateway: &'a str,
}

impl Report for GatewaysBands<'_> {
    ghost is_answer = { λ report c heard answer. IsBandAnswer (state_of c heard) report.gateway.now answer };

    ghost unopened = { λ report c heard. record { known = tt; report = tt; fault = tt } };

    fn ask<K: Keeper>(&self, alloc: Global, keeper: &mut K) -> Result<Vec<u8>, ReportFault> {
        band_report(alloc, keeper, self.gateway)
    }
}

/// The report of a gateway's room at a time.
///
/// # Errors
///
/// `Time` if the text isn't a time, for any gateway, then `Gateway` if nobody added the gateway.
#[derive(Clone, Copy)]
pub struct GatewaysRoom<'a> {
    pub gateway: &'a str,
    pub time: &'a str,
}

impl Report for GatewaysRoom<'_> {
    ghost is_answer = { λ report c heard answer. IsGatewaysRoom (state_of c heard) report.gateway.now report.time.now answer };

    ghost unopened = { λ report c heard. unasked_room (state_of c heard) report.gateway.now report.time.now };

    fn ask<K: Keeper>(&self, alloc: Global, keeper: &mut K) -> Result<Vec<u8>, ReportFault> {
        room_report(alloc, keeper, self.gateway, self.time)
    }
}
