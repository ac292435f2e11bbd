//! The reports that may be asked for, and their texts.
ghost use Rattle.std.specs.Prelude.{◌≡◌, ℕ, List, [], IfErr, IfOk};
ghost use Rattle.registry_core.specs.declared.messages.Envelope.{Envelope};
ghost use Rattle.registry_core.specs.Settings.{Settings};
ghost use Rattle.desk_store.specs.Calls.{IsRead};
ghost use Rattle.desk_engine.specs.InOrder.{WasInOrder};
ghost use Rattle.desk_engine.specs.Lines.{input_of};
ghost use Rattle.desk_engine.specs.Log.{log_of};
ghost use Rattle.desk_engine.specs.Reporting.{store_fault_in};
ghost use Rattle.desk_http.specs.Reports.{IsLogFault, kind_of, most_lines};
ghost use Rattle.desk_http.specs.Serving.{MakesReport};
ghost use Rattle.desk_http.specs.steps.Answering.{answer_shown};
ghost use Rattle.desk_http.specs.steps.Reports.{report_of};

use crate::targets::{after_slash, before_slash};
use desk_engine::{
    ListOf, LogEnd, LogText, ReportFault, band_report, device_report, downlink_report, list,
    owner_report, reception_report, room_report, write_log,
};
use desk_store::{Keeper, StoreFault};
use registry_core::JsonInteger;
use std::alloc::Global;

/// A report that a request asks for. The path has the names that it needs.
#[derive(Clone, Copy)]
pub(crate) enum Wanted {
    /// An owner's report of a month.
    OwnerReport,
    /// The report of a gateway's bands.
    BandReport,
    /// A gateway's room at a time.
    Room,
    /// The log from this message on: the messages, or their answers.
    Log(LogText, JsonInteger),
    /// A list.
    Listing(ListOf),
    /// One device.
    Device,
    /// The receptions of a device in a month.
    Receptions,
    /// The downlinks of a gateway in a month.
    Downlinks,
}

/// Returns the content type of a report.
pub(crate) fn kind_of(wanted: &Wanted) -> &'static str
    ensures { (names : List ℕ) → result.now ≡ kind_of (report_of names wanted.now) }
{
    match wanted {
        Wanted::Log(_, _) => "application/x-ndjson",
        _ => "text/csv",
    }
}

/// Returns the text of a report.
///
/// `names` is what follows the third slash of the path: a name, or a name and a month or a time with a slash between them.
///
/// # Errors
///
/// Returns the error of the function of `desk_engine` that makes the text.
#[tactic(auto, unfolding(desk_engine::specs::InOrder::kept_after))]
pub(crate) fn report_text<K: Keeper>(
    alloc: Global,
    keeper: &mut K,
    wanted: Wanted,
    names: &str,
) -> Result<Vec<u8>, ReportFault>
    ensures same { K.meaning.configuration keeper.new ≡ K.meaning.configuration keeper.old }
    ensures was_sound { K.meaning.sound keeper.new → K.meaning.sound keeper.old }
    ensures answered { MakesReport K.meaning keeper.old keeper.new (report_of names.now wanted) (answer_shown (λ text. text.items) result) }
{
    let (first, second) = (before_slash(names), after_slash(names));
    match wanted {
        Wanted::OwnerReport => owner_report(alloc, keeper, first, second),
        Wanted::BandReport => band_report(alloc, keeper, names),
        Wanted::Room => room_report(alloc, keeper, first, second),
        Wanted::Log(which, from) => log_text(alloc, keeper, which, from),
        Wanted::Listing(of) => list(alloc, keeper, of),
        Wanted::Device => device_report(alloc, keeper, names),
        Wanted::Receptions => reception_report(alloc, keeper, first, second),
        Wanted::Downlinks => downlink_report(alloc, keeper, first, second),
    }
}

/// Returns the log from a message on, or why there is none.
fn log_text<K: Keeper>(
    alloc: Global,
    keeper: &mut K,
    which: LogText,
    from: JsonInteger,
) -> Result<Vec<u8>, ReportFault>
    ensures read { IsRead K.meaning keeper.old keeper.new (store_fault_in result) }
    ensures lines { (c : Settings) (heard : List Envelope) → WasInOrder K.meaning c heard keeper.old keeper.new
        → IfOk result (λ text. text.items ≡ input_of (log_of which c heard from most_lines) []) }
    ensures fault { (c : Settings) (heard : List Envelope) → WasInOrder K.meaning c heard keeper.old keeper.new → IfErr result IsLogFault }
{
    let mut text = Vec::new(alloc);
    match write_log(keeper, from, most_lines(), which, &mut text) {
        LogEnd::Done(_) => Ok(text),
        LogEnd::Write => Err(ReportFault::Unavailable(StoreFault::Memory)),
        LogEnd::Unavailable(fault) => Err(ReportFault::Unavailable(fault)),
    }
}

/// Returns the greatest number of log lines in one response (this project's limit).
fn most_lines() -> JsonInteger
    ensures { result ≡ most_lines }
{
    match JsonInteger::new(1_000) {
        Some(most) => most,
        None => unreachable!(),
    }
}
