//! Why a file can't be opened, for a user at a terminal. No contract states why a system refuses a file, so this is only tested, by
//! `checks/terminal.py`.
use sqlite::{Error, ErrorCode};
use std::fmt::{self, Display, Formatter};
use std::fs::{self, OpenOptions};
use std::io::{self, ErrorKind, IsTerminal};

/// Why a file can't be opened. Its `Display` is the line for a terminal.
#[derive(Clone, Copy, PartialEq, Eq)]
enum Cause {
    Missing,
    Folder,
    Taken,
    Unsound,
    Forbidden,
    Room,
    Memory,
    Unknown,
}

impl Display for Cause {
    fn fmt<W: fmt::Write>(&self, f: &mut Formatter<W>) -> fmt::Result {
        f.write_str(match self {
            Cause::Missing => "there is no such file or folder",
            Cause::Folder => "it is a folder",
            Cause::Taken => "another program has it open",
            Cause::Unsound => "it is no SQLite database, or it is damaged",
            Cause::Forbidden => "it may not be read and written",
            Cause::Room => "there is no room on its disk",
            Cause::Memory => "memory ran out",
            Cause::Unknown => "it can't be opened, or its log beside it can't",
        })
    }
}

/// Returns the line for a terminal that names the file that can't be opened, and why: by sqlite's error, if there is one, and by what the
/// system reports of the file. `None` if standard error is not a terminal, or memory runs out.
pub(crate) fn line_for_terminal(
    rt: &HostRuntime,
    path: &str,
    error: Option<Error>,
) -> Option<String> {
    if !rt.stderr().is_terminal() {
        return None;
    }
    let cause = match error {
        Some(error) => cause_of(rt, path, error),
        None => cause_by_system(rt, path),
    };
    format!(in rt.alloc(); "{path:?}: {cause}").ok()
}

fn cause_of(rt: &HostRuntime, path: &str, error: Error) -> Cause {
    match error {
        Error::SqliteFailure(ErrorCode::DatabaseBusy) => Cause::Taken,
        Error::SqliteFailure(ErrorCode::NotADatabase) => Cause::Unsound,
        Error::SqliteFailure(ErrorCode::DatabaseCorrupt) => Cause::Unsound,
        Error::SqliteFailure(ErrorCode::DiskFull) => Cause::Room,
        Error::SqliteFailure(ErrorCode::OutOfMemory) => Cause::Memory,
        _ => cause_by_system(rt, path),
    }
}

fn cause_by_system(rt: &HostRuntime, path: &str) -> Cause {
    match fs::metadata(rt, path) {
        Ok(found) if found.is_dir() => Cause::Folder,
        Ok(_) => match OpenOptions::new().read(true).write(true).open(rt, path) {
            Ok(_) => Cause::Unknown,
            Err(error) => cause_of_system(&error),
        },
        Err(error) => cause_of_system(&error),
    }
}

fn cause_of_system(error: &io::Error) -> Cause {
    match error.kind() {
        ErrorKind::NotFound => Cause::Missing,
        ErrorKind::NotADirectory => Cause::Missing,
        ErrorKind::PermissionDenied => Cause::Forbidden,
        ErrorKind::ReadOnlyFilesystem => Cause::Forbidden,
        ErrorKind::StorageFull => Cause::Room,
        ErrorKind::OutOfMemory => Cause::Memory,
        _ => Cause::Unknown,
    }
}
