//! Reads a gateway's report in CSV as envelopes.
ghost use Rattle.std.specs.Prelude.{◌≡◌, ◌∷◌, ◌++◌, ◌+◌, ℕ, [], suc, IfOk, IfErr, OnOk, true, if◌then◌else◌};
ghost use Rattle.csv.specs.Records.{fields_of};
ghost use Rattle.desk_wire.specs.CsvReports.{counter_or_none, envelope_in, envelopes_from, has_field, heard_in, is_header, most_records, reads_report, report_in, report_of_records, IsReportUnlessMemory};
ghost use Rattle.desk_wire.specs.steps.CsvReports.{data_rate_field, name_field, octets_field, rows_left, u32_field, json_integer_field, IsReading};

use crate::csv_faults::CsvFault;
use crate::decimals::{decimal_of, u32_of};
use crate::hexadecimal::octets_of;
use crate::verdicts::join_verdict_named;
use csv::{ByteRecord, Reader, ReaderBuilder};
use radio_core::{DataRate, Name, Octets, Rate};
use registry_core::{Envelope, JsonInteger, Message, Report};
use std::alloc::Global;

/// The greatest length of a report, in octets (this project's limit).
pub const LONGEST_REPORT: usize = 16_777_216;

/// The greatest number of records after the header (this project's limit).
const MOST_RECORDS: u32 = 100_000;

fn counter_or_none_of(text: &[u8]) -> Option<Option<u32>>
    ensures { result ≡ counter_or_none text.now }
{
    if text.is_empty() {
        Some(None)
    } else {
        u32_of(text).map(Some)
    }
}

fn name_at(row: &ByteRecord, place: usize) -> Option<Name>
    ensures { result ≡ name_field place (fields_of row.now) }
{
    Name::new(row.get(place)?)
}

fn json_integer_at(row: &ByteRecord, place: usize) -> Option<JsonInteger>
    ensures { result ≡ json_integer_field place (fields_of row.now) }
{
    JsonInteger::new(decimal_of(row.get(place)?)?)
}

fn u32_at(row: &ByteRecord, place: usize) -> Option<u32>
    ensures { result ≡ u32_field place (fields_of row.now) }
{
    u32_of(row.get(place)?)
}

fn data_rate_at(row: &ByteRecord, place: usize) -> Option<DataRate>
    ensures { result ≡ data_rate_field place (fields_of row.now) }
{
    DataRate::new(u8::try_from(decimal_of(row.get(place)?)?).ok()?)
}

fn octets_at(row: &ByteRecord, place: usize) -> Option<Octets>
    ensures { result ≡ octets_field place (fields_of row.now) }
{
    octets_of(row.get(place)?)
}

#[tactic(auto, unfolding(crate::specs::CsvReports::report_in))]
fn report_of(row: &ByteRecord) -> Option<Report>
    ensures { result ≡ report_in (fields_of row.now) }
{
    let gateway = name_at(row, 2)?;
    let time = json_integer_at(row, 3)?;
    let freq = u32_at(row, 4)?;
    let dr = data_rate_at(row, 5)?;
    let octets = octets_at(row, 6)?;
    Some(Report {
        gateway,
        time,
        rate: Rate { freq, dr },
        octets,
    })
}

#[tactic(auto, unfolding(crate::specs::CsvReports::heard_in))]
fn heard_of(type_name: &[u8], report: Report, verdict: &[u8]) -> Option<Message>
    ensures { result ≡ heard_in type_name.now report verdict.now }
{
    if type_name == b"JoinHeard".as_slice() {
        let verdict = join_verdict_named(verdict)?;
        Some(Message::JoinHeard { report, verdict })
    } else if type_name == b"FrameHeard".as_slice() {
        let verdict = counter_or_none_of(verdict)?;
        Some(Message::FrameHeard { report, verdict })
    } else {
        None
    }
}

#[tactic(auto, unfolding(crate::specs::CsvReports::envelope_in))]
fn envelope_of(sender: &Name, row: &ByteRecord) -> Option<Envelope>
    ensures { result ≡ envelope_in sender.now (fields_of row.now) }
{
    if row.len() != 8 {
        return None;
    }
    let transaction = u32_at(row, 0)?;
    let type_name = row.get(1)?;
    let report = report_of(row)?;
    let message = heard_of(type_name, report, row.get(7)?)?;
    Some(Envelope {
        sender: *sender,
        transaction,
        message,
    })
}

/// Returns whether the field at this place, from 0, is this text.
fn has_field(row: &ByteRecord, place: usize, text: &[u8]) -> bool
    ensures { result ≡ has_field place text.now (fields_of row.now) }
{
    match row.get(place) {
        Some(field) => field == text,
        None => false,
    }
}

#[tactic(auto, unfolding(crate::specs::CsvReports::is_header))]
fn is_header(row: &ByteRecord) -> bool
    ensures { result ≡ is_header (fields_of row.now) }
{
    row.len() == 8
        && has_field(row, 0, b"transaction")
        && has_field(row, 1, b"type")
        && has_field(row, 2, b"gateway")
        && has_field(row, 3, b"time_us")
        && has_field(row, 4, b"freq_hz")
        && has_field(row, 5, b"dr")
        && has_field(row, 6, b"phy")
        && has_field(row, 7, b"verdict")
}

/// Reads one more record into the row. Returns false if there is none.
fn next_row(rows: &mut Reader<&[u8]>, row: &mut ByteRecord) -> Result<bool, CsvFault>
    ensures reading { IsReading rows.old → IfOk result (λ found. found ≡ true → IsReading rows.new) }
    ensures left { (n : ℕ) → IsReading rows.old → IfOk result (λ found.
        rows_left (suc n) rows.old ≡ (if found then fields_of row.new ∷ rows_left n rows.new else [])) }
    ensures fault { IfErr result (λ fault. fault ≡ CsvFault.Memory) }
{
    let Ok(found) = rows.read_byte_record(row) else {
        return Err(CsvFault::Memory);
    };
    Ok(found)
}

fn put_envelope(
    envelopes: &mut Vec<Envelope>,
    sender: &Name,
    transaction: u32,
    message: Message,
) -> Result<(), CsvFault>
    ensures put { OnOk result (envelopes.new.items ≡ envelopes.old.items
        ++ record { sender = sender.now; transaction = transaction; message = message } ∷ []) }
    ensures fault { IfErr result (λ fault. fault ≡ CsvFault.Memory) }
{
    let envelope = Envelope {
        sender: *sender,
        transaction,
        message,
    };
    match envelopes.push(envelope) {
        Ok(()) => Ok(()),
        Err(_) => Err(CsvFault::Memory),
    }
}

/// Returns the envelopes of the records after the header.
fn envelopes_of(
    alloc: Global,
    rows: &mut Reader<&[u8]>,
    row: &mut ByteRecord,
    sender: &Name,
) -> Result<Vec<Envelope>, CsvFault>
    ensures ok { IsReading rows.old
        → IfOk result (λ envelopes. envelopes_from sender.now 2 (rows_left (most_records + 1) rows.old) ≡ Ok envelopes.items) }
    ensures err { IsReading rows.old
        → IfErr result (λ fault. IsReportUnlessMemory fault (envelopes_from sender.now 2 (rows_left (most_records + 1) rows.old))) }
{
    let mut envelopes = Vec::new(alloc);
    for number in 2..MOST_RECORDS + 2 {
        if !next_row(rows, row)? {
            return Ok(envelopes);
        }
        let Some(envelope) = envelope_of(sender, row) else {
            return Err(CsvFault::Record(number));
        };
        put_envelope(
            &mut envelopes,
            &envelope.sender,
            envelope.transaction,
            envelope.message,
        )?;
    }
    if next_row(rows, row)? {
        Err(CsvFault::Size)
    } else {
        Ok(envelopes)
    }
}

/// Returns the envelopes of the records after the first, which is the header.
fn report_of_rows(
    alloc: Global,
    rows: &mut Reader<&[u8]>,
    sender: &Name,
) -> Result<Vec<Envelope>, CsvFault>
    ensures ok { IsReading rows.old
        → IfOk result (λ envelopes. report_of_records sender.now (rows_left 100002 rows.old) ≡ Ok envelopes.items) }
    ensures err { IsReading rows.old
        → IfErr result (λ fault. IsReportUnlessMemory fault (report_of_records sender.now (rows_left 100002 rows.old))) }
{
    let mut row = ByteRecord::new(alloc);
    if !next_row(rows, &mut row)? {
        return Err(CsvFault::Header);
    }
    if !is_header(&row) {
        return Err(CsvFault::Header);
    }
    envelopes_of(alloc, rows, &mut row, sender)
}

/// Reads a gateway's report as envelopes, each with this sender and the transaction number of its record.
///
/// The text is CSV (RFC 4180). Each record has these eight fields, quoted or not, and the first record has their names:
///
/// | Field | Form |
/// |---|---|
/// | transaction | an integer below 2^32 |
/// | type | `JoinHeard` or `FrameHeard` |
/// | gateway | a name |
/// | time_us | an integer below 2^53, in microseconds since 1970 UTC |
/// | freq_hz | an integer below 2^32, in hertz |
/// | dr | a data rate, 0 to 7 |
/// | phy | 0 to 510 hexadecimal digits, an even number of them, in either case, with or without `0x` before them |
/// | verdict | of a join `Good` or `Bad`; of a data frame an integer below 2^32, or nothing |
///
/// An integer is one to sixteen decimal digits. Empty lines are not records and aren't counted.
///
/// # Errors
///
/// Returns the first error of the text, by the order that `CsvFault` describes, or `Memory` if an allocation failed.
pub fn read_report(alloc: Global, text: &[u8], sender: &Name) -> Result<Vec<Envelope>, CsvFault>
    ensures ok { IfOk result (λ envelopes. reads_report sender.now text.now ≡ Ok envelopes.items) }
    ensures err { IfErr result (λ fault. IsReportUnlessMemory fault (reads_report sender.now text.now)) }
{
    if text.len() > LONGEST_REPORT {
        return Err(CsvFault::Size);
    }
    if text.last() != Some(&b'\n') {
        return Err(CsvFault::Unended);
    }
    let mut rows = ReaderBuilder::new()
        .has_headers(false)
        .flexible(true)
        .from_reader(alloc, text);
    report_of_rows(alloc, &mut rows, sender)
}
