//! `desk log` on a desk that has heard the ten worked messages.
use super::{OneFile, ran};
use crate::endings::Ending;
use crate::tests::holding::{holds, holds_at, is_text_at};
use crate::tests::log::{DEVICE_ADD, Narrow, all, lines_of};
use crate::tests::stops::{deliveries, heard, rows_in};
use desk_engine::LogText;
use desk_engine::LogText::{Answer, Message};
use sqlite::{Alter, Connection, MemStore};
use std::io::Write;
use std::process::Abort;
use std::test::Fail;

/// Arguments, and what is printed: which text of each message, and the places of the messages from the first to before the last.
type Row = (&'static [&'static [u8]], LogText, usize, usize);

static PARTS: [Row; 11] = [
    (&[b"desk", b"log", b"f.db"], Message, 0, 10),
    (&[b"desk", b"log", b"f.db", b"--answers"], Answer, 0, 10),
    (&[b"desk", b"log", b"--count", b"3", b"f.db"], Message, 0, 3),
    (
        &[b"desk", b"log", b"f.db", b"--from", b"5", b"--count=1"],
        Message,
        4,
        5,
    ),
    (
        &[b"desk", b"log", b"f.db", b"--from", b"9", b"--count", b"1"],
        Message,
        8,
        9,
    ),
    (
        &[
            b"desk",
            b"log",
            b"--answers",
            b"f.db",
            b"--count=0000000000000001",
            b"--from=0000000000000009",
        ],
        Answer,
        8,
        9,
    ),
    (
        &[b"desk", b"log", b"f.db", b"--from", b"10", b"--count", b"5"],
        Message,
        9,
        10,
    ),
    (
        &[b"desk", b"log", b"f.db", b"--from", b"10", b"--answers"],
        Answer,
        9,
        10,
    ),
    (
        &[b"desk", b"log", b"f.db", b"--from", b"11"],
        Message,
        10,
        10,
    ),
    (
        &[b"desk", b"log", b"f.db", b"--from", b"11", b"--answers"],
        Answer,
        10,
        10,
    ),
    (
        &[
            b"desk",
            b"log",
            b"f.db",
            b"--from",
            b"9007199254740991",
            b"--count",
            b"9007199254740991",
        ],
        Message,
        10,
        10,
    ),
];

/// Checks that the command ends so on the connection, with this standard error. Returns the connection.
fn ends<R: Abort + AllocGlobal, S: Alter + Drop, W: Write>(
    rt: &R,
    (place, words): (usize, &[&[u8]]),
    conn: Connection<S>,
    answers: &mut W,
    (wanted, told): (Ending, &str),
) -> Result<Connection<S>, Fail> {
    let file = OneFile { conn: Some(conn) };
    let (ending, faults, conn) = ran(rt, words, file, &mut b"".as_slice(), answers);
    holds_at(rt, ending == wanted, place);
    is_text_at(rt, place, told, faults.as_slice());
    Ok(conn.ok_or("no connection")?)
}

#[test]
fn parts_of_the_log_are_printed(rt: HostRuntime) -> Result<(), Fail> {
    let all = deliveries(rt.alloc())?;
    let mut conn = heard(&rt, &all)?;
    for (place, (words, which, first, last)) in PARTS.iter().enumerate() {
        let mut answers = Vec::new(rt.alloc());
        conn = ends(&rt, (place, words), conn, &mut answers, (Ending::Done, ""))?;
        let part = all.get(*first..*last).ok_or("no messages")?;
        let wanted = lines_of(&rt, part, *which)?;
        holds_at(&rt, answers.as_slice() == wanted.as_slice(), place);
        if *first == 4 {
            let line = answers.strip_suffix(b"\n");
            holds_at(&rt, line == Some(DEVICE_ADD.as_bytes()), place);
        }
    }
    Ok(())
}

const FROM: &str =
    "error: --from takes a number from 1 to 9007199254740991, in digits\n\nFor more information, try '--help'.\n";

const COUNT: &str =
    "error: --count takes a number from 1 to 9007199254740991, in digits\n\nFor more information, try '--help'.\n";

/// Arguments with a number out of its form or its range, and the standard error.
static BAD: [(&[&[u8]], &str); 8] = [
    (&[b"desk", b"log", b"f.db", b"--from", b"0"], FROM),
    (&[b"desk", b"log", b"f.db", b"--from", b"x"], FROM),
    (
        &[b"desk", b"log", b"f.db", b"--from", b"9007199254740992"],
        FROM,
    ),
    (
        &[b"desk", b"log", b"f.db", b"--from", b"00000000000000001"],
        FROM,
    ),
    (&[b"desk", b"log", b"f.db", b"--count", b"0"], COUNT),
    (&[b"desk", b"log", b"f.db", b"--count="], COUNT),
    (
        &[b"desk", b"log", b"f.db", b"--count", b"9007199254740992"],
        COUNT,
    ),
    (
        &[b"desk", b"log", b"f.db", b"--count", b"00000000000000001"],
        COUNT,
    ),
];

#[test]
fn bad_numbers_of_the_log_are_refused(rt: HostRuntime) -> Result<(), Fail> {
    for (place, (words, told)) in BAD.iter().enumerate() {
        let file = OneFile::<MemStore> { conn: None };
        let mut answers = Vec::new(rt.alloc());
        let (ending, faults, _) = ran(&rt, words, file, &mut b"".as_slice(), &mut answers);
        holds_at(&rt, ending == Ending::Misused && answers.is_empty(), place);
        is_text_at(&rt, place, told, faults.as_slice());
    }
    Ok(())
}

/// Runs a command that succeeds on the connection, with this input. Returns what it prints, and the connection.
fn done<R: Abort + AllocGlobal, S: Alter + Drop>(
    rt: &R,
    words: &[&[u8]],
    conn: Connection<S>,
    input: &[u8],
) -> Result<(Vec<u8>, Connection<S>), Fail> {
    let file = OneFile { conn: Some(conn) };
    let mut answers = Vec::new(rt.alloc());
    let (ending, _, conn) = ran(rt, words, file, &mut { input }, &mut answers);
    holds(rt, ending == Ending::Done, "the ending");
    Ok((answers, conn.ok_or("no connection")?))
}

/// `init` and `hear` of what `log` prints make the same desk: its answers are those that `log --answers` prints, and its rows are
/// equal. One of the eleven messages was refused.
#[test]
fn a_printed_log_makes_the_desk(rt: HostRuntime) -> Result<(), Fail> {
    let conn = heard(&rt, &all(&rt)?)?;
    let (log, conn) = done(&rt, &[b"desk", b"log", b"f.db"], conn, b"")?;
    let answers: [&[u8]; 4] = [b"desk", b"log", b"f.db", b"--answers"];
    let (answers, mut conn) = done(&rt, &answers, conn, b"")?;
    let other = Connection::open_in_memory(rt.alloc())?;
    let (_, other) = done(&rt, &[b"desk", b"init", b"g.db"], other, b"")?;
    let (heard, mut other) = done(&rt, &[b"desk", b"hear", b"g.db"], other, &log)?;
    holds(&rt, heard.as_slice() == answers.as_slice(), "the answers");
    let rows = rows_in(rt.alloc(), &mut conn)?;
    holds(&rt, rows == rows_in(rt.alloc(), &mut other)?, "the rows");
    Ok(())
}

/// Standard output takes this many octets and then fails: these are the first of the log.
#[test]
fn a_log_without_a_reader(rt: HostRuntime) -> Result<(), Fail> {
    let all = deliveries(rt.alloc())?;
    let log = lines_of(&rt, &all, Message)?;
    let mut conn = heard(&rt, &all)?;
    for room in [0, 1, 123, 124, log.len().saturating_sub(1)] {
        let mut narrow = Narrow::new(rt.alloc(), room);
        let words: [&[u8]; 3] = [b"desk", b"log", b"f.db"];
        conn = ends(
            &rt,
            (room, &words),
            conn,
            &mut narrow,
            (Ending::Failed, "desk: file\n"),
        )?;
        holds_at(&rt, Some(narrow.taken.as_slice()) == log.get(..room), room);
    }
    Ok(())
}

#[test]
fn the_log_of_a_file_without_a_desk(rt: HostRuntime) -> Result<(), Fail> {
    let conn = Connection::open_in_memory(rt.alloc())?;
    let words: [&[u8]; 3] = [b"desk", b"log", b"f.db"];
    let mut answers = Vec::new(rt.alloc());
    let told = (Ending::Refused, "desk: not a desk\n");
    drop(ends(&rt, (0, &words), conn, &mut answers, told)?);
    holds(&rt, answers.is_empty(), "the output");
    Ok(())
}
