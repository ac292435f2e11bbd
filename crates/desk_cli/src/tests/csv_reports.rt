//! Gateway reports in CSV: each form of a field, and of a header.
use super::holding::holds_at;
use super::importing::WORKED;
use desk_wire::{CsvFault, read_report};
use radio_core::Name;
use std::alloc::{AllocError, Global};
use std::process::Abort;
use std::test::Fail;

static HEADER: &[u8] = b"transaction,type,gateway,time_us,freq_hz,dr,phy,verdict\n";

/// Records, each alone behind the header, that are envelopes.
static TAKEN: [&[u8]; 12] = [
    b"10,JoinHeard,gw-a,1706745600061696,868100000,5,00010000d07e,Bad",
    b"\"10\",\"JoinHeard\",\"gw-a\",\"1706745600061696\",\"868100000\",\"5\",\"00010000d07e\",\"Bad\"",
    b"0000000000000010,JoinHeard,gw-a,0000000000000000,0,0,,Bad",
    b"4294967295,FrameHeard,gw-a,9007199254740991,4294967295,7,0x00ABcd,4294967295",
    b"0,FrameHeard,gw-a,0,0,0,0x,",
    b"0,FrameHeard,gw-a,0,0,0,00,\"\"",
    b"0,FrameHeard,gw-a,0,0,0,00,0000000000000000",
    b"\n\r\n10,FrameHeard,gw-a,0,0,0,00,0",
    b"10,FrameHeard,gw-a,0,0,0,00,0\r",
    b"10,FrameHeard,gw-a,0,0,0,00,0\n\n",
    b"10,FrameHeard,\"gw-a\",0,0,0,00,0",
    b"10,FrameHeard,a123456789012345678901234567890z,0,0,0,00,0",
];

/// Records, each alone behind the header, that aren't.
static REFUSED: [&[u8]; 36] = [
    b"10,JoinHeard,gw-a,1706745600061696,868100000,5,00,good",
    b"10,JoinHeard,gw-a,1706745600061696,868100000,5,00,",
    b"10,JoinHeard,gw-a,1706745600061696,868100000,5,00,0",
    b"10,JoinHeard,gw-a,1706745600061696,868100000,5,00,Good,",
    b"10,JoinHeard,gw-a,1706745600061696,868100000,5,00",
    b"10,JoinHeard,gw-a,1706745600061696",
    b"\"\"",
    b",JoinHeard,gw-a,0,0,0,00,Good",
    b"-1,JoinHeard,gw-a,0,0,0,00,Good",
    b"+1,JoinHeard,gw-a,0,0,0,00,Good",
    b" 1,JoinHeard,gw-a,0,0,0,00,Good",
    b"1.0,JoinHeard,gw-a,0,0,0,00,Good",
    b"4294967296,JoinHeard,gw-a,0,0,0,00,Good",
    b"00000000000000010,JoinHeard,gw-a,0,0,0,00,Good",
    b"10,joinHeard,gw-a,0,0,0,00,Good",
    b"10,OwnerAdd,gw-a,0,0,0,00,Good",
    b"10,,gw-a,0,0,0,00,Good",
    b"10,JoinHeard,,0,0,0,00,Good",
    b"10,JoinHeard,gw a,0,0,0,00,Good",
    b"10,JoinHeard,a123456789012345678901234567890zz,0,0,0,00,Good",
    b"10,JoinHeard,gw-a,,0,0,00,Good",
    b"10,JoinHeard,gw-a,9007199254740992,0,0,00,Good",
    b"10,JoinHeard,gw-a,17067456000616961,0,0,00,Good",
    b"10,JoinHeard,gw-a,0,4294967296,0,00,Good",
    b"10,JoinHeard,gw-a,0,0,8,00,Good",
    b"10,JoinHeard,gw-a,0,0,,00,Good",
    b"10,JoinHeard,gw-a,0,0,0,0,Good",
    b"10,JoinHeard,gw-a,0,0,0,0X00,Good",
    b"10,JoinHeard,gw-a,0,0,0,0g,Good",
    b"10,FrameHeard,gw-a,0,0,0,00,Good",
    b"10,FrameHeard,gw-a,0,0,0,00,4294967296",
    b"10,FrameHeard,gw-a,0,0,0,00,null",
    b"10,FrameHeard,gw-\xff,0,0,0,00,0",
    b"10,FrameHeard,\"gw-a,0,0,0,00,0",
    b"10,FrameHeard,gw-a,0,0,0,00,\"0",
    b"transaction,type,gateway,time_us,freq_hz,dr,phy,verdict",
];

/// Whole texts, and how many envelopes they are, or what is wrong with them.
static TEXTS: [(&[u8], Result<usize, CsvFault>); 14] = [
    (b"", Err(CsvFault::Unended)),
    (b"transaction,type", Err(CsvFault::Unended)),
    (
        b"transaction,type,gateway,time_us,freq_hz,dr,phy,verdict\r",
        Err(CsvFault::Unended),
    ),
    (
        b"transaction,type,gateway,time_us,freq_hz,dr,phy,verdict\n",
        Ok(0),
    ),
    (b"\n", Err(CsvFault::Header)),
    (b"\n\r\n\n", Err(CsvFault::Header)),
    (b"10,FrameHeard,gw-a,0,0,0,00,0\n", Err(CsvFault::Header)),
    (
        b"transaction,type,gateway,time_us,freq_hz,dr,phy\n",
        Err(CsvFault::Header),
    ),
    (
        b"transaction,type,gateway,time_us,freq_hz,dr,phy,verdict,\n",
        Err(CsvFault::Header),
    ),
    (
        b"Transaction,type,gateway,time_us,freq_hz,dr,phy,verdict\nx\n",
        Err(CsvFault::Header),
    ),
    (
        b"\xef\xbb\xbftransaction,type,gateway,time_us,freq_hz,dr,phy,verdict\n10,FrameHeard,gw-a,0,0,0,00,0\n",
        Ok(1),
    ),
    (
        b"transaction,type,gateway,time_us,freq_hz,dr,phy,verdict\n10,FrameHeard,gw-a,0,0,0,00,0\n11,FrameHeard,gw-b,0,0,0,00,0\n",
        Ok(2),
    ),
    // a fault behind a good record leaves nothing of it
    (
        b"transaction,type,gateway,time_us,freq_hz,dr,phy,verdict\n10,FrameHeard,gw-a,0,0,0,00,0\n11,FrameHeard,gw-b",
        Err(CsvFault::Unended),
    ),
    (
        b"transaction,type,gateway,time_us,freq_hz,dr,phy,verdict\n10,FrameHeard,gw-a,0,0,0,00,0\n11,FrameHeard,gw-b\n",
        Err(CsvFault::Record(3)),
    ),
];

/// The record, alone behind the header.
fn text_of(alloc: Global, record: &[u8]) -> Result<Vec<u8>, AllocError> {
    let mut text = Vec::new(alloc);
    text.extend_from_slice(HEADER)?;
    text.extend_from_slice(record)?;
    text.extend_from_slice(b"\n")?;
    Ok(text)
}

fn expect<R: Abort + AllocGlobal>(
    rt: &R,
    place: usize,
    text: &[u8],
    wanted: Result<usize, CsvFault>,
) -> Result<(), Fail> {
    let sender = Name::new(b"bridge").ok_or("no name")?;
    let told = read_report(rt.alloc(), text, &sender).map(|envelopes| envelopes.len());
    holds_at(rt, told == wanted, place);
    Ok(())
}

#[test]
fn reports_are_taken_or_refused_by_the_first_fault(rt: HostRuntime) -> Result<(), Fail> {
    for (place, record) in TAKEN.iter().enumerate() {
        expect(&rt, place, &text_of(rt.alloc(), record)?, Ok(1))?;
    }
    for (place, record) in REFUSED.iter().enumerate() {
        let text = text_of(rt.alloc(), record)?;
        expect(&rt, place, &text, Err(CsvFault::Record(2)))?;
    }
    for (place, (text, wanted)) in TEXTS.iter().enumerate() {
        expect(&rt, place, text, *wanted)?;
    }
    Ok(())
}

/// The worked report up to each octet: it has its records so far where it ends with LF, and else isn't ended.
#[test]
fn every_beginning(rt: HostRuntime) -> Result<(), Fail> {
    let mut text = Vec::new(rt.alloc());
    for octet in WORKED.as_bytes() {
        text.push(*octet)?;
        let lines = text.iter().filter(|octet| **octet == b'\n').count();
        let wanted = if *octet == b'\n' {
            Ok(lines.saturating_sub(1))
        } else {
            Err(CsvFault::Unended)
        };
        expect(&rt, text.len(), text.as_slice(), wanted)?;
    }
    Ok(())
}
