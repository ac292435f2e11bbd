//! Opens the file of a desk.
ghost use Rattle.std.specs.Prelude.{◌≡◌, IfOk, IfErr};
ghost use Rattle.sqlite_wal.specs.Files.{image_at};
ghost use Rattle.desk_tables.specs.AtRest.{IsAtRest};
ghost use Rattle.desk_cli.specs.Doing.{IsScratchFault};
ghost use Rattle.desk_cli.specs.InFiles.{Shows};
ghost use Rattle.desk_cli.specs.World.{AtPaths, known_alike};

use crate::causes::line_for_terminal;
use crate::faults::Fault;
use sqlite::{Alter, Connection, File, FileFrom, FileStore, Start};
use std::alloc::Global;
use std::cell::Cell;
use std::fs::{self, OpenOptions};
use std::io::ErrorKind;
use std::os::unix::fs::OpenOptionsExt;
use std::path::Path;

/// Opens one file as a database, by its path.
pub trait FileOpener<S: Alter>: Drop + Sized {
    /// The store of a scratch database.
    type Scratch: Alter + Drop;

    /// What is known of a connection to the file at a path, and which files can't be opened or made.
    ghost paths: { Self → AtPaths S };

    /// Opens the database of the file, which has to be there.
    ///
    /// # Errors
    ///
    /// Returns `File` if it can't be opened.
    fn open(self, path: &str) -> Result<Connection<S>, Fault>
        ensures opened { IfOk result (λ conn. (paths self).opens path.now conn) }
        ensures unopened { IfErr result (λ fault. (paths self).unopened path.now) }
        ensures at_rest { IfOk result IsAtRest }
        ensures fault { IfErr result (λ fault. fault ≡ Fault.File) };

    /// Makes a new file at the path for a scratch database, opens that, and removes its name. So the file is gone when the program ends.
    ///
    /// # Errors
    ///
    /// Returns `Exists` if something is at the path or at that of the file's log, `Unavailable` if an allocation failed, and `File` if
    /// the file can't be made, opened or removed. What was there stays as it is.
    fn make_scratch(&self, alloc: Global, path: &str) -> Result<Connection<Self::Scratch>, Fault>
        ensures made { IfOk result (λ conn. (paths self.now).free path.now) }
        ensures unmade { IfErr result ((paths self.now).unfree path.now) }
        ensures at_rest { IfOk result IsAtRest }
        ensures fault { IfErr result IsScratchFault };

    /// Opens the database of the file, which is made if there is none.
    ///
    /// # Errors
    ///
    /// Returns `File` if it can't be opened or made.
    fn make(self, path: &str) -> Result<Connection<S>, Fault>
        ensures made { IfOk result (λ conn. (paths self).makes path.now conn) }
        ensures unmade { IfErr result (λ fault. (paths self).unmade path.now) }
        ensures at_rest { IfOk result IsAtRest }
        ensures fault { IfErr result (λ fault. fault ≡ Fault.File) };
}

/// The files of the machine. `start` represents what they contain when they are opened. If one can't be opened and there is a terminal,
/// `why` gets a line for it.
#[derive(Drop)]
pub(crate) struct HostFiles<'a, T: Start> {
    pub rt: &'a HostRuntime,
    pub start: T,
    pub why: &'a Cell<Option<String>>,
}

impl<T: Start> HostFiles<'_, T> {
    /// Opens the database in a new file.
    ///
    /// # Errors
    ///
    /// Returns `File` if it can't be opened.
    fn opened_new(&self, path: &str) -> Result<Connection<FileStore<File>>, Fault>
        ensures at_rest { IfOk result IsAtRest }
        ensures fault { IfErr result (λ fault. fault ≡ Fault.File) }
    {
        match Connection::open(self.rt, path) {
            Ok(conn) => Ok(conn),
            Err(error) => {
                self.why.set(line_for_terminal(self.rt, path, Some(error)));
                Err(Fault::File)
            }
        }
    }
}

impl<T: Start> FileOpener<FileStore<FileFrom<T>>> for HostFiles<'_, T> {
    type Scratch = FileStore<File>;

    // A connection shows what the files contain, on a disk that has returned what was written to it. Std doesn't report why there is none.
    ghost paths = { λ files. known_alike (Shows (image_at T.Start)) };

    fn open(self, path: &str) -> Result<Connection<FileStore<FileFrom<T>>>, Fault> {
        if !Path::new(path).is_file(self.rt) {
            self.why.set(line_for_terminal(self.rt, path, None));
            return Err(Fault::File);
        }
        self.make(path)
    }

    // A file without a name is gone as soon as no process has it open, also after a crash.
    fn make_scratch(
        &self,
        alloc: Global,
        path: &str,
    ) -> Result<Connection<FileStore<File>>, Fault> {
        let Ok(log) = format!(in alloc; "{path}-wal") else {
            return Err(Fault::Unavailable);
        };
        make_new(self.rt, path)?;
        if let Err(fault) = make_new(self.rt, log.as_str()) {
            // Whatever this returns, the error is that of the log.
            let _ = fs::remove_file(self.rt, path);
            return Err(fault);
        }
        let opened = self.opened_new(path);
        let is_removed = fs::remove_file(self.rt, path).is_ok();
        let is_log_removed = fs::remove_file(self.rt, log.as_str()).is_ok();
        if is_removed && is_log_removed {
            opened
        } else {
            Err(Fault::File)
        }
    }

    fn make(self, path: &str) -> Result<Connection<FileStore<FileFrom<T>>>, Fault> {
        match Connection::open_from(self.rt, path, false, self.start) {
            Ok(conn) => Ok(conn),
            Err((error, _)) => {
                self.why.set(line_for_terminal(self.rt, path, Some(error)));
                Err(Fault::File)
            }
        }
    }
}

/// Makes a new file that only its owner may read.
///
/// # Errors
///
/// Returns `Exists` if something is at the path, a link too, and `File` if no file can be made there.
fn make_new(rt: &HostRuntime, path: &str) -> Result<(), Fault>
    ensures { IfErr result IsScratchFault }
{
    let made = OpenOptions::new()
        .read(true)
        .write(true)
        .create_new(true)
        .mode(0o600)
        .open(rt, path);
    match made {
        Ok(_) => Ok(()),
        Err(error) if error.kind() == ErrorKind::AlreadyExists => Err(Fault::Exists),
        Err(_) => Err(Fault::File),
    }
}
