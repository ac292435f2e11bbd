//! The program `desk`: a LoRaWAN device registry and airtime desk.
#![tactic(auto)]

mod answering;
mod audit;
mod causes;
mod commands;
mod connection_log;
mod endings;
mod faults;
mod files;
mod jobs;
mod laws;
mod network;
mod numbers;
mod on_tables;
mod opening;
mod options;
mod performing;
mod printing;
mod program;
mod progress;
mod setup;
mod sockets;
mod stopping;
#[cfg(test)]
mod tests;
mod usage;
mod words;

use files::{FileOpener, HostFiles};
use progress::{Cleared, Counted, Heard};
use sockets::Sockets;
use sqlite::{FileStore, Start, Unknown};
use sqlite_disk::Disk;
use std::cell::Cell;
use std::io::Write;
use std::process::ExitCode;

fn main(rt: HostRuntime) -> ExitCode {
    run_on(&rt, Unknown)
}

/// Runs the program on this machine. `start` represents what a file contains when it is opened.
fn run_on<T: Start>(rt: &HostRuntime, start: T) -> ExitCode {
    let why = Cell::new(None);
    let files = HostFiles {
        rt,
        start,
        why: &why,
    };
    // The call is generic in the files: a proof that names the stores of a file and of a scratch file compares both, and stops at a limit.
    run_with(rt, files, &why)
}

/// Runs the program with these files.
fn run_with<D: Disk + Drop, N: FileOpener<FileStore<D>>>(
    rt: &HostRuntime,
    files: N,
    why: &Cell<Option<String>>,
) -> ExitCode {
    let is_shown = Cell::new(false);
    let (ending, conn, _) = program::run(
        rt,
        files,
        &Sockets::new(rt, rt.stderr()),
        &mut Counted::new(rt.stdin(), rt, progress::terminal_alone(rt), &is_shown),
        &mut Cleared::new(rt.stdout(), rt.stderr(), &is_shown),
        &mut Cleared::new(rt.stderr(), rt.stderr(), &is_shown),
        &Heard::new(rt, progress::terminal(rt), &is_shown),
    );
    progress::clear(&mut rt.stderr(), &is_shown);
    if let Some(line) = why.take() {
        // The line before reports that it is the file; this one is for a user at a terminal.
        let _ = writeln!(&mut rt.stderr(), "{line}");
    }
    if let Some(conn) = conn {
        // Everything is committed: if the write-ahead log can't be moved into the file now, the next start does it.
        let _ = conn.close();
    }
    ending.status()
}
