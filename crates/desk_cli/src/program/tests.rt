//! Whole runs of the program, with arguments, a file and a network of the tests.
ghost use Rattle.std.specs.Prelude.{◌≡◌, ◌≢◌, IfOk};
ghost use Rattle.desk_http.specs.Served.{unknown};
ghost use Rattle.desk_tables.specs.AtRest.{IsAtRest};
ghost use Rattle.desk_cli.specs.World.{known_alike};

mod audits;
mod damaged;
mod fused;
mod held;
mod host_files;
mod logs;
mod one_file;

use super::run;
use crate::endings::{Ending, ending_of};
use crate::faults::Fault;
use crate::files::FileOpener;
use crate::network::Network;
use crate::tests::holding::{holds, holds_at, is_text_at};
use crate::tests::ready;
use crate::usage::Usage;
use desk_engine::NoProgress;
use desk_http::{Listening, ServeEnd};
use sqlite::{Alter, Connection, MemStore};
use std::alloc::Global;
use std::env::FillError;
use std::io::{self, ErrorKind, Read, Write};
use std::rt::Env;
use std::test::Fail;

/// A process that was started with these arguments. It has no variables.
#[derive(Clone, Copy)]
struct Started<'a> {
    words: &'a [&'a [u8]],
}

impl Env for Started<'_> {
    fn arg(&self, i: usize, buf: &mut [u8]) -> Result<usize, FillError> {
        let Some(word) = self.words.get(i) else {
            return Err(FillError::NotPresent);
        };
        if buf.len() < word.len() {
            return Err(FillError::TooLong);
        }
        buf[..word.len()].copy_from_slice(word);
        Ok(word.len())
    }

    fn var(&self, _name: &str, _buf: &mut [u8]) -> Result<usize, FillError> {
        Err(FillError::NotPresent)
    }

    fn var_at(&self, _i: usize, _buf: &mut [u8]) -> Result<usize, FillError> {
        Err(FillError::NotPresent)
    }
}

/// One file that is this database, whatever its path; or none that can be opened.
#[derive(Drop)]
struct OneFile<S: Alter> {
    conn: Option<Connection<S>>,
}

impl<S: Alter + Drop> OneFile<S> {
    fn opened(self) -> Result<Connection<S>, &'static str>
        ensures at_rest { IfOk result IsAtRest }
    {
        let Some(conn) = self.conn else {
            return Err("no file");
        };
        ready(conn)
    }
}

impl<S: Alter + Drop> FileOpener<S> for OneFile<S> {
    type Scratch = MemStore;

    ghost paths = { λ files. known_alike (λ conn. Unit {0}) };

    fn make_scratch(&self, alloc: Global, path: &str) -> Result<Connection<MemStore>, Fault> {
        if path == "taken" {
            return Err(Fault::Exists);
        }
        Connection::open_in_memory(alloc).map_err(|_| Fault::Unavailable)
    }

    fn open(self, _path: &str) -> Result<Connection<S>, Fault> {
        self.opened().map_err(|_| Fault::File)
    }

    fn make(self, _path: &str) -> Result<Connection<S>, Fault> {
        self.opened().map_err(|_| Fault::File)
    }
}

/// A port that no connection comes to.
#[derive(Drop)]
struct Silent;

impl Listening for Silent {
    type Reader = &'static [u8];

    type Writer = Vec<u8>;

    ghost meaning = { unknown };

    fn accept(&mut self, _alloc: Global) -> io::Result<(&'static [u8], Vec<u8>)> {
        Err(ErrorKind::ConnectionAborted.into())
    }

    fn finish(
        &mut self,
        _reader: &'static [u8],
        _writer: Vec<u8>,
        _end: ServeEnd,
    ) -> io::Result<()> {
        Ok(())
    }
}

/// A network with one port that can be had.
struct OnePort {
    free: u16,
}

impl Network for OnePort {
    type Port = Silent;

    ghost ports = { record { listens = λ network port log listening. network.free ≡ port; refuses = λ network port. network.free ≢ port } };

    fn listen(&self, port: u16, _log: bool) -> io::Result<Silent> {
        if port == self.free {
            Ok(Silent)
        } else {
            Err(ErrorKind::AddrInUse.into())
        }
    }
}

const NETWORK: OnePort = OnePort { free: 8080 };

/// Runs the program with these arguments. Returns how it ends, what is on standard error, and the connection to its file.
pub(super) fn ran<R: AllocGlobal, S: Alter + Drop, N: FileOpener<S>, I: Read, W: Write>(
    rt: &R,
    words: &[&[u8]],
    files: N,
    reader: &mut I,
    answers: &mut W,
) -> (Ending, Vec<u8>, Option<Connection<S>>) {
    let process = (Started { words }, rt.alloc());
    let mut faults = Vec::new(rt.alloc());
    let (ending, conn, _) = run(
        &process,
        files,
        &NETWORK,
        reader,
        answers,
        &mut faults,
        &NoProgress,
    );
    (ending, faults, conn)
}

/// A line that no message has.
const INPUT: &str = "{\n";

const ANSWERED_BY_DESK: &str =
    "{\"ProtocolVersion\":\"1.0\",\"Result\":{\"Description\":\"malformed\",\"ResultCode\":\"Other\"},\"SenderID\":\"desk\"}\n";

const ANSWERED_BY_TOWN: &str =
    "{\"ProtocolVersion\":\"1.0\",\"Result\":{\"Description\":\"malformed\",\"ResultCode\":\"Other\"},\"SenderID\":\"town\"}\n";

const VERSION: &str = "desk 2026-11-29\nschema 2\nRattle kit, logic dac8208d650f15bf\n";

const NO_COMMAND: &str =
    "error: a command is needed\n\nUsage: desk [COMMAND]\n\nFor more information, try '--help'.\n";

/// The first argument is the name by which the program was called, whatever it is.
const NO_COMMAND_OF_LINES: &str =
    "error: a command is needed\n\nUsage: lines [COMMAND]\n\nFor more information, try '--help'.\n";

const EMPTY_WORD: &str =
    "error: unexpected argument '' found\n\nUsage: desk lines [OPTIONS]\n\nFor more information, try '--help'.\n";

/// No addresses, or more than there are from the base on.
const ADDRESSES: &str =
    "error: --addresses is at least 1, and ends at address ffffffff or before\n\nFor more information, try '--help'.\n";

const RECEIVER: &str =
    "error: --receiver takes 1 to 32 ASCII letters, digits, '-', '_' and '.'\n\nFor more information, try '--help'.\n";

const OPERATOR: &str =
    "error: --operator takes 1 to 32 ASCII letters, digits, '-', '_' and '.'\n\nFor more information, try '--help'.\n";

/// `checks/words.py` has the other helps, and what is printed for other arguments.
const LINES_HELP: &str = "\
Answers the messages of standard input, one a line, for a new desk in memory

Usage: desk lines [OPTIONS]

Options:
      --receiver <NAME>    The desk's own name [default: desk]
      --operator <NAME>    The first operator [default: office]
      --base <HEX8>        The first device address [default: 01a00000]
      --addresses <COUNT>  How many device addresses [default: 65536]
  -h, --help               Print help

Example:
  desk lines --receiver town < messages.txt
";

const NO_LIST: &str =
    "error: WHAT is senders, owners, gateways or devices\n\nFor more information, try '--help'.\n";

const NO_TEXT: &str = "error: a word isn't UTF-8\n";

/// Arguments, how the program ends, its standard output, and its standard error.
type Row = (&'static [&'static [u8]], Ending, &'static str, &'static str);

static ROWS: [Row; 18] = [
    (&[], Ending::Misused, "", NO_COMMAND),
    (&[b"desk"], Ending::Misused, "", NO_COMMAND),
    (&[b"lines"], Ending::Misused, "", NO_COMMAND_OF_LINES),
    (&[b"desk", b"--version"], Ending::Done, VERSION, ""),
    (
        &[b"desk", b"--version", b"lines"],
        Ending::Done,
        VERSION,
        "",
    ),
    (&[b"desk", b"lines"], Ending::Done, ANSWERED_BY_DESK, ""),
    (&[b"", b"lines"], Ending::Done, ANSWERED_BY_DESK, ""),
    (
        &[b"desk", b"lines", b"--base", b"01a00000"],
        Ending::Done,
        ANSWERED_BY_DESK,
        "",
    ),
    (
        &[b"desk", b"lines", b"--receiver", b"town"],
        Ending::Done,
        ANSWERED_BY_TOWN,
        "",
    ),
    (&[b"desk", b"lines", b""], Ending::Misused, "", EMPTY_WORD),
    (
        &[b"desk", b"lines", b"--help"],
        Ending::Misused,
        "",
        LINES_HELP,
    ),
    (
        &[b"desk", b"lines", b"--addresses", b"0"],
        Ending::Misused,
        "",
        ADDRESSES,
    ),
    (
        &[
            b"desk",
            b"lines",
            b"--base",
            b"ffffffff",
            b"--addresses",
            b"2",
        ],
        Ending::Misused,
        "",
        ADDRESSES,
    ),
    (
        &[b"desk", b"lines", b"--receiver", b"two words"],
        Ending::Misused,
        "",
        RECEIVER,
    ),
    (
        &[b"desk", b"lines", b"--operator", b"two words"],
        Ending::Misused,
        "",
        OPERATOR,
    ),
    (
        &[b"desk", b"list", b"f.db", b"device"],
        Ending::Misused,
        "",
        NO_LIST,
    ),
    (&[b"desk", b"lines", b"\xff"], Ending::Misused, "", NO_TEXT),
    (&[b"\xff", b"lines"], Ending::Misused, "", NO_TEXT),
];

#[test]
fn runs_of_words(rt: HostRuntime) -> Result<(), Fail> {
    for (place, (words, ending, answered, told)) in ROWS.iter().enumerate() {
        let process = (Started { words: *words }, rt.alloc());
        let mut reader = INPUT.as_bytes();
        let mut answers = Vec::new(rt.alloc());
        let mut faults = Vec::new(rt.alloc());
        let none = OneFile::<MemStore> { conn: None };
        let (end, conn, _) = run(
            &process,
            none,
            &NETWORK,
            &mut reader,
            &mut answers,
            &mut faults,
            &NoProgress,
        );
        holds_at(&rt, conn.is_none(), place);
        holds_at(&rt, end == *ending, place);
        is_text_at(&rt, place, answered, answers.as_slice());
        is_text_at(&rt, place, told, faults.as_slice());
        holds_at(&rt, reader.is_empty() == answered.starts_with("{"), place);
    }
    Ok(())
}

/// No test makes an allocation fail, so what is printed then is checked here.
#[test]
fn want_of_memory_is_printed(rt: HostRuntime) -> Result<(), Fail> {
    let printed = Usage::Memory.to_string(rt.alloc())?;
    holds(&rt, printed.as_str() == "desk: unavailable\n", "the line");
    holds(
        &rt,
        ending_of(&Usage::Memory) == Ending::Failed,
        "the ending",
    );
    Ok(())
}
