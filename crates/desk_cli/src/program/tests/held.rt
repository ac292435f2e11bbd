//! Commands whose output is buffered until it is flushed, whose input is interrupted, and whose disk is full.
use super::fused::{FusedRow, ROWS};
use super::{OneFile, ran};
use crate::endings::Ending;
use crate::tests::holding::{holds, holds_at, is_text_at};
use crate::tests::room::without_room;
use crate::tests::stops::{all_deliveries, deliveries, heard};
use crate::tests::streams::{Holding, Interrupted};
use sqlite::{Alter, Connection};
use std::process::Abort;
use std::test::Fail;

/// Runs the command with interruptions between reads and with buffered output; a flush fails, or none does. Returns how it ends, what was
/// written, and what is on standard error.
fn ended<R: Abort + AllocGlobal, S: Alter + Drop>(
    rt: &R,
    row: &FusedRow,
    conn: Connection<S>,
    fails: bool,
) -> (Ending, Vec<u8>, Vec<u8>) {
    let (words, input, _) = row;
    let file = OneFile { conn: Some(conn) };
    let mut reader = Interrupted::new(input.as_bytes());
    let mut answers = Holding::new(rt.alloc(), fails);
    let (ending, faults, _) = ran(rt, words, file, &mut reader, &mut answers);
    (ending, answers.given, faults)
}

/// Without it in `ROWS`: it has no connection to give back if its file can't be read to the end.
static AUDIT: [FusedRow; 1] = [(&[b"desk", b"audit", b"f.db"], "", "heard: 5\nin order\n")];

/// What is flushed is written; if a flush fails nothing is, and the command ends because its output failed.
#[test]
fn commands_flush_what_they_answer(rt: HostRuntime) -> Result<(), Fail> {
    let all = deliveries(rt.alloc())?;
    let before = all.get(..5).ok_or("no messages")?;
    for (place, row) in ROWS.iter().chain(AUDIT.iter()).enumerate() {
        let (ending, given, faults) = ended(&rt, row, heard(&rt, before)?, false);
        holds_at(&rt, ending == Ending::Done && faults.is_empty(), place);
        is_text_at(&rt, place, row.2, given.as_slice());
        let (ending, given, faults) = ended(&rt, row, heard(&rt, before)?, true);
        holds_at(&rt, ending == Ending::Failed && given.is_empty(), place);
        holds_at(&rt, faults.as_slice() == b"desk: file\n".as_slice(), place);
    }
    Ok(())
}

/// One more message than may be heard.
#[test]
fn a_message_has_no_room(rt: HostRuntime) -> Result<(), Fail> {
    let all = all_deliveries(rt.alloc())?;
    let conn = without_room(&rt, all.get(..12).ok_or("no messages")?)?;
    let next = all.get(12).ok_or("no message")?;
    let words: [&[u8]; 3] = [b"desk", b"hear", b"f.db"];
    let file = OneFile { conn: Some(conn) };
    let mut answers = Vec::new(rt.alloc());
    let mut reader = next.text.as_bytes();
    let (ending, faults, _) = ran(&rt, &words, file, &mut reader, &mut answers);
    holds(
        &rt,
        ending == Ending::Failed && answers.is_empty(),
        "the ending",
    );
    let is_right = faults.as_slice() == b"desk: unavailable\n".as_slice();
    holds(&rt, is_right, "standard error");
    Ok(())
}
