//! `desk audit` on a desk that has heard messages of each type, as it is and with a changed row.
use super::{OneFile, ran};
use crate::endings::Ending;
use crate::tests::holding::{holds_at, is_text_at};
use crate::tests::stops::{all_deliveries, heard};
use std::test::Fail;

/// What SQLite does to the rows, how the command ends, what it prints, and what is on standard error.
static CHANGES: [(&str, Ending, &str, &str); 4] = [
    (
        "UPDATE meta SET id = 1",
        Ending::Done,
        "heard: 13\nin order\n",
        "",
    ),
    (
        "UPDATE device SET floor = NULL",
        Ending::Refused,
        "",
        "desk: differs at device 1\n",
    ),
    (
        "UPDATE reply SET answer = message WHERE seq = 7",
        Ending::Refused,
        "",
        "desk: differs at reply 7\n",
    ),
    (
        "UPDATE meta SET receiver = 'two words'",
        Ending::Refused,
        "",
        "desk: not a desk\n",
    ),
];

#[test]
fn a_changed_row_is_named(rt: HostRuntime) -> Result<(), Fail> {
    let all = all_deliveries(rt.alloc())?;
    let words: [&[u8]; 3] = [b"desk", b"audit", b"f.db"];
    for (place, (change, wanted, printed, told)) in CHANGES.iter().enumerate() {
        let mut conn = heard(&rt, &all)?;
        conn.execute(change, &[])?;
        let file = OneFile { conn: Some(conn) };
        let mut answers = Vec::new(rt.alloc());
        let (ending, faults, conn) = ran(&rt, &words, file, &mut b"".as_slice(), &mut answers);
        holds_at(&rt, ending == *wanted && conn.is_some(), place);
        is_text_at(&rt, place, printed, answers.as_slice());
        is_text_at(&rt, place, told, faults.as_slice());
    }
    Ok(())
}

/// Where the scratch file is, how the command ends, what it prints, and what is on standard error.
static SCRATCHES: [(&[u8], Ending, &str, &str); 2] = [
    (b"free", Ending::Done, "heard: 13\nin order\n", ""),
    (b"taken", Ending::Refused, "", "desk: exists\n"),
];

#[test]
fn a_scratch_file_is_new(rt: HostRuntime) -> Result<(), Fail> {
    let all = all_deliveries(rt.alloc())?;
    for (place, (path, wanted, printed, told)) in SCRATCHES.iter().enumerate() {
        let words: [&[u8]; 5] = [b"desk", b"audit", b"f.db", b"--scratch", *path];
        let file = OneFile {
            conn: Some(heard(&rt, &all)?),
        };
        let mut answers = Vec::new(rt.alloc());
        let (ending, faults, conn) = ran(&rt, &words, file, &mut b"".as_slice(), &mut answers);
        let is_done = ending == Ending::Done;
        holds_at(&rt, ending == *wanted && conn.is_some() == is_done, place);
        holds_at(&rt, answers.as_slice() == printed.as_bytes(), place);
        holds_at(&rt, faults.as_slice() == told.as_bytes(), place);
    }
    Ok(())
}
