//! How the program ends.
ghost use Rattle.std.specs.Prelude.{◌≡◌};
ghost use Rattle.std.specs.Process.{exit_status};
ghost use Rattle.desk_cli.specs.Endings.{ending_of, exit_number};

use crate::usage::Usage;
use std::process::ExitCode;

/// How the program ends. The exit statuses are this project's.
#[derive(Clone, Copy, PartialEq, Eq)]
pub enum Ending {
    /// The program did what was asked. Status 0.
    Done,
    /// What was asked is refused. Status 1.
    Refused,
    /// The arguments name no command, or ask for help. Status 2.
    Misused,
    /// Memory, a file or the network failed. Status 3.
    Failed,
}

impl Ending {
    /// Returns the exit status.
    pub fn status(self) -> ExitCode
        ensures { exit_status result ≡ exit_number self }
    {
        ExitCode::from(self as u8)
    }
}

/// Returns how the program ends if its arguments name no command.
pub fn ending_of(usage: &Usage) -> Ending
    ensures { result ≡ ending_of usage.now }
{
    match usage {
        Usage::Memory => Ending::Failed,
        _ => Ending::Misused,
    }
}
