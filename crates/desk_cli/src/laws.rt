//! Laws of a desk's files, from one run to the next, each as the contract of a function whose body is empty or calls other laws.
ghost use Rattle.desk_cli.specs.InFiles.{DesksAreFound, DesksAreLeft};
ghost use Rattle.desk_cli.specs.Standby.{LogsMakeDesks};

use desk_engine::laws::log_lines_are_the_desk;
use sqlite::Alter;
use sqlite_disk::Disk;

/// A desk that files contained when they were opened is what the connection to them represents.
pub fn desks_are_found<D: Disk>()
    ensures { DesksAreFound D.Disk }
{}

/// The files that a crash leaves of a connection contain a desk that represents the log that a crash leaves of the connection, or that log
/// with the in-flight message. So by `desks_are_found` the next run represents that, if it finds what this one left.
pub fn desks_are_left<D: Disk>()
    ensures { DesksAreLeft D.Disk }
{}

/// The log is the desk, over files. What `log` prints of a desk's file makes, by `init` with the same four options and `hear`, a file
/// with the tables of that desk. `hear` then prints what `log --answers` prints of the first file.
pub fn logs_make_desks<S: Alter, T: Alter>()
    ensures { LogsMakeDesks S.Store T.Store }
{
    log_lines_are_the_desk();
}
