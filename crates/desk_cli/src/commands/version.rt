//! `desk --version`: which desk this is.
ghost use Rattle.desk_cli.specs.Faults.{Ends};
ghost use Rattle.desk_cli.specs.commands.Version.{WritesVersion};

use crate::endings::Ending;
use crate::faults::{Fault, end};
use desk_engine::write_whole;
use std::io::Write;

/// The newest heading of CHANGELOG.md, the schema of a desk's file, and the kit that the program is proved by.
const VERSION: &str = "desk 2026-11-29\nschema 2\nRattle kit, logic dac8208d650f15bf\n";

/// Prints the version. With `File` the writer failed.
pub fn version_command<W: Write, F: Write>(answers: &mut W, faults: &mut F) -> Ending
    ensures { Ends F.Write faults.old faults.new result (WritesVersion W.Write answers.old answers.new) }
{
    let done = print_version(answers);
    end(faults, done)
}

fn print_version<W: Write>(answers: &mut W) -> Result<(), Fault>
    ensures { WritesVersion W.Write answers.old answers.new result }
{
    match write_whole(answers, VERSION.as_bytes()) {
        Ok(()) => Ok(()),
        Err(_) => Err(Fault::File),
    }
}
