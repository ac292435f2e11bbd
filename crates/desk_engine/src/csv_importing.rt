//! Hears a gateway report from a reader, and writes the answers to a writer.
ghost use Rattle.std.specs.Prelude.{◌≡◌, ◌⊎◌, ◌≤◌, ℕ, List, length, IfOk, IfErr, OnOk};
ghost use Rattle.std.specs.List.{flat_map};
ghost use Rattle.std.specs.Io.KnownBytes.{Appends, Consumes, IsAtEnd};
ghost use Rattle.registry_core.specs.declared.messages.Envelope.{Envelope};
ghost use Rattle.registry_core.specs.Settings.{Settings};
ghost use Rattle.desk_store.specs.Calls.{IsOfCalls};
ghost use Rattle.desk_wire.specs.CsvReports.{longest_report};
ghost use Rattle.desk_engine.specs.CsvImporting.{ImportsReport, fault_of_import};
ghost use Rattle.desk_engine.specs.Hearing.{IsCallWith, StoreKeeps, StoreLeaves};
ghost use Rattle.desk_engine.specs.InOrder.{WasInOrder};
ghost use Rattle.desk_engine.specs.steps.CsvImporting.{HearsEnvelopes, line_of};

use crate::counting::Progress;
use crate::importing::import;
use crate::outcomes::Outcome;
use crate::reads::read_some;
use crate::writes::write_with_line_feed;
use desk_store::{Keeper, StoreFault};
use desk_wire::{CsvFault, LONGEST_REPORT, read_report};
use radio_core::Name;
use registry_core::Envelope;
use std::alloc::Global;
use std::io;
use std::io::{Read, Write};

/// How the import of a gateway report ended.
#[derive(Clone, Copy)]
pub enum ImportEnd {
    /// Every record was heard and answered.
    Done,
    /// The input is not a gateway report. No record was heard. (Out of memory is `Unavailable`.)
    NoReport(CsvFault),
    /// A read failed. No record was heard.
    Read,
    /// A write failed. With `None`, every record was heard. With an error, the store was unavailable for a record, with this error, and the
    /// records before it were heard.
    Write(Option<StoreFault>),
    /// The store was unavailable for a record, or memory for the report ran out. The records before it are answered.
    Unavailable(StoreFault),
}

/// Hears the records of a gateway report in order, as messages of this sender, up to the first that is answered Unavailable. Writes the
/// answers of those that were heard, one a line, and flushes the writer.
///
/// It hears no record before the report is read to its end, and writes nothing before all are heard. If a report is too long, it reads only
/// enough to see that. `progress` shows how many records are answered.
///
/// With `Done` exactly the answers of all records were written. With `Unavailable` exactly those of the records before the one that the
/// store was unavailable for. In each case the store represents the log with the records that were heard, so a record that is delivered
/// again gets its first answer.
pub fn import_report<K: Keeper, R: Read, W: Write, P: Progress>(
    alloc: Global,
    keeper: &mut K,
    sender: &Name,
    reader: &mut R,
    writer: &mut W,
    progress: &P,
) -> ImportEnd
    ensures call { IsCallWith K.meaning keeper.old keeper.new (fault_of_import result) }
    ensures told { IsOfCalls (fault_of_import result) }
    ensures ends { ImportsReport K.meaning R.remaining W.contents sender.now keeper.old keeper.new
        reader.old reader.new writer.old writer.new result }
{
    let text = match report_text(alloc, reader) {
        Ok(text) => text,
        Err(end) => return end,
    };
    match read_report(alloc, &text, sender) {
        Ok(envelopes) => hear_envelopes(alloc, keeper, &envelopes, writer, progress),
        Err(CsvFault::Memory) => ImportEnd::Unavailable(StoreFault::Memory),
        Err(fault) => ImportEnd::NoReport(fault),
    }
}

/// Reads the whole input; of one that is too long for a report, enough octets to see that.
fn report_text<R: Read>(alloc: Global, reader: &mut R) -> Result<Vec<u8>, ImportEnd>
    ensures read { IfOk result (λ text. Consumes (R.remaining reader.old) (R.remaining reader.new) text.items
        × (length text.items ≤ longest_report → IsAtEnd (R.remaining reader.new))) }
    ensures failed { IfErr result (λ end. ((end ≡ ImportEnd.Read) ⊎ (end ≡ ImportEnd.Unavailable StoreFault.Memory))
        × ((input : List ℕ) × Consumes (R.remaining reader.old) (R.remaining reader.new) input)) }
{
    let mut text = Vec::new(alloc);
    let mut chunk = [0u8; 8192];
    while text.len() <= LONGEST_REPORT {
        match read_some(reader, &mut chunk) {
            Ok(0) => return Ok(text),
            Ok(count) => {
                if text.extend_from_slice(&chunk[..count]).is_err() {
                    return Err(ImportEnd::Unavailable(StoreFault::Memory));
                }
            }
            Err(_) => return Err(ImportEnd::Read),
        }
    }
    Ok(text)
}

/// Hears envelopes in order, and writes the answers of those that were heard.
fn hear_envelopes<K: Keeper, W: Write, P: Progress>(
    alloc: Global,
    keeper: &mut K,
    envelopes: &[Envelope],
    writer: &mut W,
    progress: &P,
) -> ImportEnd
    ensures call { IsCallWith K.meaning keeper.old keeper.new (fault_of_import result) }
    ensures told { IsOfCalls (fault_of_import result) }
    ensures hears { (c : Settings) (heard : List Envelope) → WasInOrder K.meaning c heard keeper.old keeper.new
        → HearsEnvelopes c heard (StoreKeeps K.meaning c heard keeper.old keeper.new) (StoreLeaves K.meaning c heard keeper.old keeper.new)
        envelopes.now (W.contents writer.old) (W.contents writer.new) result }
{
    let imported = import(alloc, keeper, envelopes, progress);
    match write_answers(writer, &imported.answers) {
        Ok(()) => {}
        Err(_) => return ImportEnd::Write(imported.stopped),
    }
    match imported.stopped {
        Some(fault) => ImportEnd::Unavailable(fault),
        None => ImportEnd::Done,
    }
}

/// Writes the answers, one a line, and flushes the writer.
fn write_answers<W: Write>(writer: &mut W, outcomes: &[Outcome]) -> io::Result<()>
    ensures { OnOk result (Appends (W.contents writer.old) (W.contents writer.new) (flat_map line_of outcomes.now)) }
{
    for outcome in outcomes {
        write_answer(writer, outcome)?;
    }
    writer.flush()
}

/// Writes one answer and an LF.
fn write_answer<W: Write>(writer: &mut W, outcome: &Outcome) -> io::Result<()>
    ensures { OnOk result (Appends (W.contents writer.old) (W.contents writer.new) (line_of outcome.now)) }
{
    match outcome {
        Outcome::Answered(text) => write_with_line_feed(writer, text.as_slice()),
        Outcome::Refused(_, text) => write_with_line_feed(writer, text.as_slice()),
        Outcome::Unavailable(_) => Ok(()),
    }
}
