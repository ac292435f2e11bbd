//! Lines: whole outputs, and the limit of a line.
use super::holding::{holds, is_text};
use super::opening;
use super::rows::{ADDED, MALFORMED, OTHER_OWNER, REQUEST};
use super::streams::Slow;
use desk_engine::{LinesEnd, run_lines};
use desk_store::{Keeper, Lists};
use std::io::Read;
use std::process::Abort;
use std::test::Fail;

pub(super) const REUSED: &str =
    r#"{"MessageType":"OwnerAddAns","ProtocolVersion":"1.0","ReceiverID":"office","Result":{"Description":"transaction","ResultCode":"Other"},"SenderID":"desk","TransactionID":1}"#;

/// The desk writes this for the input.
pub(super) fn expect_written<R: Abort + AllocGlobal, K: Keeper>(
    rt: &R,
    keeper: &mut K,
    input: &str,
    wanted: &str,
) {
    expect_read(rt, keeper, &mut input.as_bytes(), wanted);
}

/// The desk writes this for what the reader gives.
fn expect_read<R: Abort + AllocGlobal, K: Keeper, I: Read>(
    rt: &R,
    keeper: &mut K,
    reader: &mut I,
    wanted: &str,
) {
    let mut written = Vec::new(rt.alloc());
    let end = run_lines(rt.alloc(), keeper, reader, &mut written);
    holds(rt, end == LinesEnd::Done, "the end of the lines");
    is_text(rt, "the lines", wanted, written.as_slice());
}

/// A new desk does.
fn expect_answers<R: Abort + AllocGlobal>(rt: &R, input: &str, wanted: &str) -> Result<(), Fail> {
    let mut lists = opening::<Lists>(rt.alloc(), 65_536)?;
    expect_written(rt, &mut *lists, input, wanted);
    Ok(())
}

#[test]
fn empty_lines_are_not_answered(rt: HostRuntime) -> Result<(), Fail> {
    expect_answers(&rt, "", "")?;
    expect_answers(&rt, "\n\n", "")
}

#[test]
fn a_long_line_is_answered(rt: HostRuntime) -> Result<(), Fail> {
    let alloc = rt.alloc();
    let long = String::from_utf8(vec![in alloc; b'x'; 70_000]?)?;
    let input = format!(in alloc; "{{\n\n{long}\n{REQUEST}")?;
    let wanted = format!(in alloc; "{MALFORMED}\n{MALFORMED}\n{ADDED}\n")?;
    expect_answers(&rt, input.as_str(), wanted.as_str())
}

#[test]
fn a_line_has_a_limit(rt: HostRuntime) -> Result<(), Fail> {
    let alloc = rt.alloc();
    let spaces = String::from_utf8(vec![in alloc; b' '; 65_413]?)?;
    let input = format!(in alloc; "{REQUEST}{spaces}\n{REQUEST}{spaces} \n{OTHER_OWNER}\n")?;
    let wanted = format!(in alloc; "{ADDED}\n{MALFORMED}\n{REUSED}\n")?;
    expect_answers(&rt, input.as_str(), wanted.as_str())
}

#[test]
fn a_line_after_a_million_reads(rt: HostRuntime) -> Result<(), Fail> {
    let mut lists = opening::<Lists>(rt.alloc(), 65_536)?;
    let wanted = format!(in rt.alloc(); "{ADDED}\n")?;
    let mut reader = Slow::new(REQUEST.as_bytes());
    expect_read(&rt, &mut *lists, &mut reader, wanted.as_str());
    Ok(())
}
