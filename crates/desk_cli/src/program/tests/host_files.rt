//! Files of this machine, in a folder of this test: which of them a command opens or makes, and which aren't opened.
use super::ran;
use crate::endings::Ending;
use crate::files::{FileOpener, HostFiles};
use crate::tests::holding::{holds, holds_at, is_text_at};
use sqlite::{FileStore, Start, Unknown};
use sqlite_disk::Disk;
use std::cell::Cell;
use std::path::Path;
use std::test::Fail;
use std::{fs, io};

static FOLDER: &str = "host-files-of-a-test";

/// A text that is not a database.
static TEXT: &str = "host-files-of-a-test/text.db";

static MISSING: &str = "host-files-of-a-test/c.db";

static SCRATCH: &str = "host-files-of-a-test/scratch.db";

static SCRATCH_LOG: &str = "host-files-of-a-test/scratch.db-wal";

static HALF: &str = "host-files-of-a-test/half.db";

/// What is at the place of a log whose file isn't there.
static HALF_LOG: &str = "host-files-of-a-test/half.db-wal";

/// Arguments, how the program ends, the first octets of its standard output, and its standard error.
type Row = (&'static [&'static [u8]], Ending, &'static str, &'static str);

static ROWS: [Row; 18] = [
    (
        &[b"desk", b"check", b"host-files-of-a-test/a.db"],
        Ending::Failed,
        "",
        "desk: file\n",
    ),
    (
        &[
            b"desk",
            b"init",
            b"host-files-of-a-test/a.db",
            b"--receiver",
            b"first",
        ],
        Ending::Done,
        "",
        "",
    ),
    (
        &[
            b"desk",
            b"init",
            b"host-files-of-a-test/b.db",
            b"--receiver",
            b"second",
        ],
        Ending::Done,
        "",
        "",
    ),
    (
        &[b"desk", b"check", b"host-files-of-a-test/a.db"],
        Ending::Done,
        "schema: 2\nreceiver: first\n",
        "",
    ),
    (
        &[b"desk", b"check", b"host-files-of-a-test/b.db"],
        Ending::Done,
        "schema: 2\nreceiver: second\n",
        "",
    ),
    (
        &[b"desk", b"init", b"host-files-of-a-test/a.db"],
        Ending::Refused,
        "",
        "desk: exists\n",
    ),
    (
        &[b"desk", b"check", b"host-files-of-a-test/c.db"],
        Ending::Failed,
        "",
        "desk: file\n",
    ),
    (
        &[b"desk", b"hear", b"host-files-of-a-test/c.db"],
        Ending::Failed,
        "",
        "desk: file\n",
    ),
    (
        &[b"desk", b"check", b"host-files-of-a-test"],
        Ending::Failed,
        "",
        "desk: file\n",
    ),
    (
        &[b"desk", b"init", b"host-files-of-a-test"],
        Ending::Failed,
        "",
        "desk: file\n",
    ),
    (
        &[b"desk", b"check", b"host-files-of-a-test/text.db"],
        Ending::Failed,
        "",
        "desk: file\n",
    ),
    (
        &[b"desk", b"init", b"host-files-of-a-test/text.db"],
        Ending::Failed,
        "",
        "desk: file\n",
    ),
    (
        &[
            b"desk",
            b"audit",
            b"host-files-of-a-test/a.db",
            b"--scratch",
            b"host-files-of-a-test/scratch.db",
        ],
        Ending::Done,
        "heard: 0\nin order\n",
        "",
    ),
    // A file is at the path, a folder, or a log without its file.
    (
        &[
            b"desk",
            b"audit",
            b"host-files-of-a-test/a.db",
            b"--scratch",
            b"host-files-of-a-test/text.db",
        ],
        Ending::Refused,
        "",
        "desk: exists\n",
    ),
    (
        &[
            b"desk",
            b"audit",
            b"host-files-of-a-test/a.db",
            b"--scratch",
            b"host-files-of-a-test",
        ],
        Ending::Refused,
        "",
        "desk: exists\n",
    ),
    (
        &[
            b"desk",
            b"audit",
            b"host-files-of-a-test/a.db",
            b"--scratch",
            b"host-files-of-a-test/half.db",
        ],
        Ending::Refused,
        "",
        "desk: exists\n",
    ),
    // No file can be made at the path, or there is none to audit.
    (
        &[
            b"desk",
            b"audit",
            b"host-files-of-a-test/a.db",
            b"--scratch",
            b"host-files-of-a-test/no/scratch.db",
        ],
        Ending::Failed,
        "",
        "desk: file\n",
    ),
    (
        &[
            b"desk",
            b"audit",
            b"host-files-of-a-test/c.db",
            b"--scratch",
            b"host-files-of-a-test/scratch.db",
        ],
        Ending::Failed,
        "",
        "desk: file\n",
    ),
];

/// Runs the program on these files with no input, and closes what it opened. Returns how it ends, its standard output, and its standard
/// error.
fn ran_on<D: Disk + Drop, N: FileOpener<FileStore<D>>>(
    rt: &HostRuntime,
    files: N,
    words: &[&[u8]],
) -> Result<(Ending, Vec<u8>, Vec<u8>), Fail> {
    let mut answers = Vec::new(rt.alloc());
    let (ending, faults, conn) = ran(rt, words, files, &mut io::empty(), &mut answers);
    if let Some(conn) = conn {
        conn.close()?;
    }
    Ok((ending, answers, faults))
}

/// Does the same on files of this machine.
fn ran_here<T: Start>(
    rt: &HostRuntime,
    start: T,
    words: &[&[u8]],
) -> Result<(Ending, Vec<u8>, Vec<u8>), Fail> {
    let why = Cell::new(None);
    let files = HostFiles {
        rt,
        start,
        why: &why,
    };
    ran_on(rt, files, words)
}

#[test]
fn files_of_this_machine(rt: HostRuntime) -> Result<(), Fail> {
    // what a run that was cut off has left
    let _ = fs::remove_dir_all(&rt, FOLDER);
    fs::create_dir(&rt, FOLDER)?;
    let text = vec![in rt.alloc(); b'x'; 20_000]?;
    fs::write(&rt, TEXT, text.as_slice())?;
    fs::write(&rt, HALF_LOG, b"log".as_slice())?;
    for (place, (words, ending, begins, line)) in ROWS.iter().enumerate() {
        let (found, answers, faults) = ran_here(&rt, Unknown, words)?;
        holds_at(&rt, found == *ending, place);
        let is_answered = answers.starts_with(begins.as_bytes());
        let is_alone = answers.is_empty() == begins.is_empty();
        holds_at(&rt, is_answered && is_alone, place);
        is_text_at(&rt, place, line, faults.as_slice());
    }
    holds(
        &rt,
        !Path::new(MISSING).exists(&rt),
        "a file that was opened only",
    );
    holds(&rt, fs::read(&rt, TEXT)? == text, "the text");
    for path in [SCRATCH, SCRATCH_LOG, HALF] {
        holds(&rt, !Path::new(path).exists(&rt), path);
    }
    let log = fs::read(&rt, HALF_LOG)?;
    holds(&rt, log.as_slice() == b"log".as_slice(), "the log");
    fs::remove_dir_all(&rt, FOLDER)?;
    Ok(())
}
