//! The errors of commands, and their lines on standard error.
ghost use Rattle.std.specs.Prelude.{◌≡◌, Some, IfOk};
ghost use Rattle.std.specs.Fmt.InlineText.{inline_text};
ghost use Rattle.desk_cli.specs.Faults.{EndsBy, IsBegun, ending_of_fault, fault_line, fault_of_csv, fault_of_report, fault_of_store, fault_word, place_text, table_name};

use crate::audit::{Place, Table};
use crate::endings::Ending;
use desk_engine::{ReportFault, write_octets};
use desk_store::StoreFault;
use desk_wire::CsvFault;
use std::fmt::{self, Display, Formatter, InlineText};
use std::io::Write;

/// The error of a command. Its `Display` is the text after `desk: ` in the line on standard error.
#[derive(Clone, Copy, PartialEq, Eq)]
pub enum Fault {
    /// The file already has a table, index or view with a name that the desk uses.
    Exists,
    /// The file isn't a desk.
    NotADesk,
    /// The file is a desk's, with a schema of another version.
    Schema,
    /// No owner has the name.
    Owner,
    /// No gateway has the name.
    Gateway,
    /// No device has the DevEUI.
    Device,
    /// The text isn't a month.
    Month,
    /// The text isn't a time.
    Time,
    /// The gateway report is longer than one may be, or has too many records.
    CsvSize,
    /// The gateway report doesn't end in LF.
    CsvEnd,
    /// The first record of the gateway report isn't the header.
    CsvHeader,
    /// The record with this number, where the header has number 1, isn't in its form.
    CsvRecord(u32),
    /// The file isn't what a desk wrote. This is the first row that differs.
    Differs(Place),
    /// The store isn't available, or an allocation failed.
    Unavailable,
    /// FILE can't be opened, or a read or write of the standard streams failed.
    File,
    /// The port can't be bound, or no connection can be accepted at it.
    Network,
}

impl Fault {
    /// Returns how the program ends with this error.
    pub fn ending(self) -> Ending
        ensures { result ≡ ending_of_fault self }
    {
        match self {
            Fault::Unavailable | Fault::File | Fault::Network => Ending::Failed,
            _ => Ending::Refused,
        }
    }
}

impl Display for Fault {
    ghost output = { λ fault. Some (fault_word fault) };

    fn fmt<W: fmt::Write>(&self, f: &mut Formatter<W>) -> fmt::Result {
        match self {
            Fault::Exists => f.write_str("exists"),
            Fault::NotADesk => f.write_str("not a desk"),
            Fault::Schema => f.write_str("schema"),
            Fault::Owner => f.write_str("owner"),
            Fault::Gateway => f.write_str("gateway"),
            Fault::Device => f.write_str("device"),
            Fault::Month => f.write_str("month"),
            Fault::Time => f.write_str("time"),
            Fault::CsvSize => f.write_str("csv size"),
            Fault::CsvEnd => f.write_str("csv end"),
            Fault::CsvHeader => f.write_str("csv header"),
            Fault::CsvRecord(number) => write!(f, "csv record {number}"),
            Fault::Differs(place) => write!(f, "differs at {place}"),
            Fault::Unavailable => f.write_str("unavailable"),
            Fault::File => f.write_str("file"),
            Fault::Network => f.write_str("network"),
        }
    }
}

impl Display for Table {
    ghost output = { λ table. Some (table_name table) };

    fn fmt<W: fmt::Write>(&self, f: &mut Formatter<W>) -> fmt::Result {
        match self {
            Table::Meta => f.write_str("meta"),
            Table::Sender => f.write_str("sender"),
            Table::Reply => f.write_str("reply"),
            Table::Owner => f.write_str("owner"),
            Table::Gateway => f.write_str("gateway"),
            Table::Device => f.write_str("device"),
            Table::Session => f.write_str("session"),
            Table::Uplink => f.write_str("uplink"),
            Table::Copy => f.write_str("copy"),
            Table::Booking => f.write_str("booking"),
            Table::BandLimit => f.write_str("band_limit"),
        }
    }
}

impl Display for Place {
    ghost output = { λ place. Some (place_text place) };

    fn fmt<W: fmt::Write>(&self, f: &mut Formatter<W>) -> fmt::Result {
        write!(f, "{} {}", self.table, self.row)
    }
}

impl From<StoreFault> for Fault {
    ghost from_gives = { λ fault e. e ≡ fault_of_store fault };

    fn from(fault: StoreFault) -> Self {
        match fault {
            StoreFault::Memory | StoreFault::Disk | StoreFault::Size => Fault::Unavailable,
            StoreFault::NotADesk => Fault::NotADesk,
            StoreFault::SchemaVersion => Fault::Schema,
            StoreFault::Exists => Fault::Exists,
        }
    }
}

impl From<ReportFault> for Fault {
    ghost from_gives = { λ fault e. e ≡ fault_of_report fault };

    fn from(fault: ReportFault) -> Self {
        match fault {
            ReportFault::Month => Fault::Month,
            ReportFault::Time => Fault::Time,
            ReportFault::Owner => Fault::Owner,
            ReportFault::Gateway => Fault::Gateway,
            ReportFault::Device => Fault::Device,
            ReportFault::Unavailable(fault) => fault.into(),
        }
    }
}

impl From<CsvFault> for Fault {
    ghost from_gives = { λ fault e. e ≡ fault_of_csv fault };

    fn from(fault: CsvFault) -> Self {
        match fault {
            CsvFault::Size => Fault::CsvSize,
            CsvFault::Unended => Fault::CsvEnd,
            CsvFault::Header => Fault::CsvHeader,
            CsvFault::Record(number) => Fault::CsvRecord(number),
            CsvFault::Memory => Fault::Unavailable,
        }
    }
}

/// Returns how the program ends after a command with this result. An error's line is written to standard error. If that write fails, only
/// the exit status reports the error.
pub(crate) fn end<F: Write>(faults: &mut F, done: Result<(), Fault>) -> Ending
    ensures { EndsBy F.Write faults.old faults.new result done }
{
    match done {
        Ok(()) => Ending::Done,
        Err(fault) => {
            print_fault(faults, fault);
            fault.ending()
        }
    }
}

/// Writes the error's line, or as much of it as can be written.
fn print_fault<F: Write>(faults: &mut F, fault: Fault)
    ensures { IsBegun (F.contents faults.old) (F.contents faults.new) (fault_line fault) }
{
    match line_of(fault) {
        Ok(line) => {
            write_beginning(faults, line.as_str().as_bytes());
        }
        // No line is as long as that.
        Err(_) => {}
    }
}

/// Returns the error's line. Allocates nothing.
fn line_of(fault: Fault) -> Result<InlineText<64>, fmt::Error>
    ensures { IfOk result (λ line. inline_text line ≡ fault_line fault) }
{
    let mut line = InlineText::new();
    fmt::Write::writeln(&mut line, format_args!("desk: {fault}"))?;
    Ok(line)
}

/// Writes the text, or as much of it as can be written, from its first octet on.
#[tactic(auto, using(crate::proofs::FaultLines::begun_by))]
pub(crate) fn write_beginning<W: Write>(writer: &mut W, text: &[u8])
    ensures { IsBegun (W.contents writer.old) (W.contents writer.new) text.now }
{
    let _ = write_octets(writer, text);
}

#[cfg(test)]
mod tests;
