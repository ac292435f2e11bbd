//! Why arguments name no command.
ghost use Rattle.std.specs.Prelude.{◌≡◌, [], ◌∷◌, Err};
ghost use Rattle.clap.specs.declared.error.kind.ErrorKind.TheVariants.{MissingSubcommand};
ghost use Rattle.desk_cli.specs.Named.{refused, TellsNamed};
ghost use Rattle.desk_cli.specs.steps.Usages.{IsUsageOf};
ghost use Rattle.desk_cli.specs.declared.usage.Usage.TheVariants.{Value};

use clap::error::{Error, ErrorKind};
use std::fmt::{self, Display, Formatter};

/// A value that isn't in its form, or values that contradict each other.
#[derive(Clone, Copy)]
pub enum BadValue {
    /// `--receiver` isn't a name.
    Receiver,
    /// `--operator` isn't a name.
    Operator,
    /// `--base` isn't eight hexadecimal digits.
    Base,
    /// `--addresses` isn't one to ten decimal digits, or isn't below 2 ^ 32.
    Addresses,
    /// The block of addresses is empty or goes beyond the last address.
    Block,
    /// `--sender` isn't a name.
    Sender,
    /// `--port` isn't one to ten decimal digits, or isn't 1 to 65,535.
    Port,
    /// `--count` isn't one to ten decimal digits, or isn't 1 to 1,000,000.
    Connections,
    /// `--from` isn't one to sixteen decimal digits, or isn't 1 to 9,007,199,254,740,991.
    FirstMessage,
    /// `--count` of `log` isn't one to sixteen decimal digits, or isn't 1 to 9,007,199,254,740,991.
    Messages,
    /// WHAT of `list` isn't `senders`, `owners`, `gateways` or `devices`.
    What,
    /// A positional argument isn't given. clap reports that first, so the user doesn't see it.
    Missing,
}

/// Why arguments name no command. Its `Display` is the text for the user.
#[derive(Drop)]
pub enum Usage {
    /// clap's error for the arguments, or the help that they ask for.
    Words(Error),
    /// A value is bad.
    Value(BadValue),
    /// An argument isn't UTF-8.
    NotText,
    /// An allocation failed before the arguments were read.
    Memory,
}

impl Display for BadValue {
    fn fmt<W: fmt::Write>(&self, f: &mut Formatter<W>) -> fmt::Result {
        f.write_str(match self {
            BadValue::Receiver => {
                "--receiver takes 1 to 32 ASCII letters, digits, '-', '_' and '.'"
            }
            BadValue::Operator => {
                "--operator takes 1 to 32 ASCII letters, digits, '-', '_' and '.'"
            }
            BadValue::Base => "--base takes eight hexadecimal digits",
            BadValue::Addresses => "--addresses takes a number up to 4294967295, in digits",
            BadValue::Block => "--addresses is at least 1, and ends at address ffffffff or before",
            BadValue::Sender => { "--sender takes 1 to 32 ASCII letters, digits, '-', '_' and '.'" }
            BadValue::Port => "--port takes a number from 1 to 65535, in digits",
            BadValue::Connections => "--count takes a number from 1 to 1000000, in digits",
            BadValue::FirstMessage => "--from takes a number from 1 to 9007199254740991, in digits",
            BadValue::Messages => "--count takes a number from 1 to 9007199254740991, in digits",
            BadValue::What => "WHAT is senders, owners, gateways or devices",
            BadValue::Missing => "a word is missing",
        })
    }
}

impl Display for Usage {
    fn fmt<W: fmt::Write>(&self, f: &mut Formatter<W>) -> fmt::Result {
        match self {
            Usage::Words(error) => write!(f, "{error}"),
            Usage::Value(value) => {
                write!(f, "error: {value}\n\nFor more information, try '--help'.\n")
            }
            Usage::NotText => f.write_str("error: a word isn't UTF-8\n"),
            Usage::Memory => f.write_str("desk: unavailable\n"),
        }
    }
}

impl From<BadValue> for Usage {
    ghost from_gives = { λ value usage. usage ≡ Value value };

    fn from(value: BadValue) -> Usage {
        Usage::Value(value)
    }
}

/// Returns clap's error for a missing command, or `Memory` if an allocation failed.
pub(crate) fn no_command(desk: &mut clap::Command<'_>) -> Usage
    ensures { TellsNamed (refused (MissingSubcommand ∷ [])) (Err result) }
{
    match desk.error(ErrorKind::MissingSubcommand, "a command is needed") {
        Ok(error) => usage_of(error),
        Err(_) => Usage::Memory,
    }
}

/// Returns `Memory` if clap ran out of memory, else `Words` with clap's error.
pub(crate) fn usage_of(error: Error) -> Usage
    ensures { IsUsageOf error result }
{
    if error.kind() == ErrorKind::OutOfMemory {
        Usage::Memory
    } else {
        Usage::Words(error)
    }
}
