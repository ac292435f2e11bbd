//! Whole runs of `desk lines`, over readers and writers of the tests.
use super::lines_command;
use crate::endings::Ending;
use crate::tests::config;
use crate::tests::holding::{holds, is_text};
use crate::tests::rows::{ADDED, MALFORMED, OWNERS, REQUEST, delivery_of};
use crate::tests::streams::{Failing, Holding, Interrupted, Pieces};
use std::alloc::Global;
use std::io::{Read, Write};
use std::process::Abort;
use std::test::Fail;

/// A new desk answers the lines of the reader; how it ended, and what is on its fault line.
fn ran<R: Read, W: Write>(
    alloc: Global,
    reader: &mut R,
    answers: &mut W,
) -> Result<(Ending, Vec<u8>), Fail> {
    let config = config(65_536).ok_or("no configuration")?;
    let mut faults = Vec::new(alloc);
    let ending = lines_command(alloc, &config, reader, answers, &mut faults);
    Ok((ending, faults))
}

/// The run failed, by a stream.
fn expect_failed(rt: &impl Abort, ending: Ending, faults: &[u8]) {
    holds(rt, ending == Ending::Failed, "the ending");
    holds(rt, faults == b"desk: file\n".as_slice(), "the fault line");
}

#[test]
fn a_read_that_fails(rt: HostRuntime) -> Result<(), Fail> {
    let mut answers = Vec::new(rt.alloc());
    let (ending, faults) = ran(rt.alloc(), &mut Pieces::new(b"{\n{", 1), &mut answers)?;
    let is_answered = answers.len() == MALFORMED.len() + 1
        && answers.starts_with(MALFORMED.as_bytes());
    holds(&rt, is_answered, "the answers");
    expect_failed(&rt, ending, &faults);
    Ok(())
}

#[test]
fn a_write_that_fails(rt: HostRuntime) -> Result<(), Fail> {
    let mut reader = REQUEST.as_bytes();
    let (ending, faults) = ran(rt.alloc(), &mut reader, &mut Failing::new(0))?;
    expect_failed(&rt, ending, &faults);
    Ok(())
}

#[test]
fn a_flush_that_fails(rt: HostRuntime) -> Result<(), Fail> {
    let mut reader = REQUEST.as_bytes();
    let (ending, faults) = ran(rt.alloc(), &mut reader, &mut Holding::new(rt.alloc(), true))?;
    expect_failed(&rt, ending, &faults);
    Ok(())
}

/// The lines are answered so, each on a line, and all is done.
fn expect_answered<R: Abort + AllocGlobal, I: Read>(
    rt: &R,
    reader: &mut I,
    wanted: &str,
) -> Result<(), Fail> {
    let mut answers = Holding::new(rt.alloc(), false);
    let (ending, faults) = ran(rt.alloc(), reader, &mut answers)?;
    holds(rt, ending == Ending::Done, wanted);
    holds(rt, faults.is_empty(), "standard error");
    is_text(rt, "the lines", wanted, answers.given.as_slice());
    Ok(())
}

#[test]
fn no_lines(rt: HostRuntime) -> Result<(), Fail> {
    expect_answered(&rt, &mut "".as_bytes(), "")
}

/// The worked request, and then owners and each error of a text, in one run.
#[test]
fn owners_in_one_run(rt: HostRuntime) -> Result<(), Fail> {
    let mut input = format!(in rt.alloc(); "{REQUEST}\n")?;
    let mut wanted = format!(in rt.alloc(); "{ADDED}\n")?;
    for row in &OWNERS {
        let delivery = delivery_of(rt.alloc(), row)?;
        push_line(&mut input, delivery.text.as_str())?;
        push_line(&mut wanted, delivery.wanted.as_str())?;
    }
    expect_answered(&rt, &mut input.as_bytes(), wanted.as_str())
}

fn push_line(text: &mut String, line: &str) -> Result<(), Fail> {
    text.push_str(line)?;
    text.push('\n')?;
    Ok(())
}

#[test]
fn reads_that_are_interrupted(rt: HostRuntime) -> Result<(), Fail> {
    let wanted = format!(in rt.alloc(); "{ADDED}\n")?;
    expect_answered(
        &rt,
        &mut Interrupted::new(REQUEST.as_bytes()),
        wanted.as_str(),
    )
}
