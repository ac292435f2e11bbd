//! The lines of errors are written to their ends, also if a writer takes an octet at a time: a contract states only that their first octets
//! are.
use super::{Fault, end};
use crate::audit::{Place, Table};
use crate::tests::holding::{holds, holds_at, is_text_at};
use std::alloc::Global;
use std::io::{self, ErrorKind, Write};
use std::test::Fail;

/// Takes one octet at a time, each after an interruption, up to a number of octets.
#[derive(Drop)]
struct Slow {
    taken: Vec<u8>,
    room: usize,
    interrupted: bool,
}

impl Slow {
    fn new(alloc: Global, room: usize) -> Self {
        Slow {
            taken: Vec::new(alloc),
            room,
            interrupted: false,
        }
    }
}

impl Write for Slow {
    fn write(&mut self, buf: &[u8]) -> io::Result<usize> {
        self.interrupted = !self.interrupted;
        if self.interrupted {
            return Err(ErrorKind::Interrupted.into());
        }
        let Some(octet) = buf.first() else {
            return Ok(0);
        };
        if self.taken.len() == self.room || self.taken.push(*octet).is_err() {
            return Err(ErrorKind::BrokenPipe.into());
        }
        Ok(1)
    }

    fn flush(&mut self) -> io::Result<()> {
        Ok(())
    }
}

static LINES: [(Fault, &str); 16] = [
    (Fault::Exists, "desk: exists\n"),
    (Fault::NotADesk, "desk: not a desk\n"),
    (Fault::Schema, "desk: schema\n"),
    (Fault::Owner, "desk: owner\n"),
    (Fault::Gateway, "desk: gateway\n"),
    (Fault::Device, "desk: device\n"),
    (Fault::Month, "desk: month\n"),
    (Fault::Time, "desk: time\n"),
    (Fault::CsvSize, "desk: csv size\n"),
    (Fault::CsvEnd, "desk: csv end\n"),
    (Fault::CsvHeader, "desk: csv header\n"),
    (
        Fault::CsvRecord(4_294_967_295),
        "desk: csv record 4294967295\n",
    ),
    (
        Fault::Differs(Place {
            table: Table::BandLimit,
            row: 18_446_744_073_709_551_615,
        }),
        "desk: differs at band_limit 18446744073709551615\n",
    ),
    (Fault::Unavailable, "desk: unavailable\n"),
    (Fault::File, "desk: file\n"),
    (Fault::Network, "desk: network\n"),
];

#[test]
fn lines_of_faults(rt: HostRuntime) -> Result<(), Fail> {
    for (place, (fault, line)) in LINES.iter().enumerate() {
        let mut faults = Slow::new(rt.alloc(), 100);
        let ending = end(&mut faults, Err(*fault));
        holds_at(&rt, ending == fault.ending(), place);
        is_text_at(&rt, place, line, faults.taken.as_slice());
    }
    Ok(())
}

#[test]
fn a_line_that_is_cut_short(rt: HostRuntime) -> Result<(), Fail> {
    let mut faults = Slow::new(rt.alloc(), 7);
    let ending = end(&mut faults, Err(Fault::NotADesk));
    holds(&rt, ending == Fault::NotADesk.ending(), "the ending");
    holds(
        &rt,
        faults.taken.as_slice() == b"desk: n".as_slice(),
        "the line",
    );
    Ok(())
}
