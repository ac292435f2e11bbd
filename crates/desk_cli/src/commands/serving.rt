//! `desk serve`: requests over HTTP, one a connection, for a desk in a file.
ghost use Rattle.std.specs.Prelude.{◌≡◌, List, IfOk};
ghost use Rattle.std.specs.Io.KnownBytes.{Keeps};
ghost use Rattle.std.specs.String.{string_bytes};
ghost use Rattle.clap.specs.Matches.{found_of};
ghost use Rattle.clap.specs.Walk.{rows_of};
ghost use Rattle.sqlite.specs.Held.{state};
ghost use Rattle.sqlite.specs.State.{HasCleanDisk};
ghost use Rattle.registry_core.specs.declared.messages.Envelope.{Envelope};
ghost use Rattle.registry_core.specs.Settings.{Settings};
ghost use Rattle.desk_cli.specs.Named.{TellsNamed};
ghost use Rattle.desk_cli.specs.steps.CommandLine.{IsCommand};
ghost use Rattle.desk_cli.specs.steps.Jobs.{serves};
ghost use Rattle.desk_cli.specs.steps.Serving.{ended};
ghost use Rattle.desk_cli.specs.RefusedFiles.{IsNotADesk, RefusesFile};
ghost use Rattle.desk_cli.specs.OnTables.{KeepsHeard};
ghost use Rattle.desk_cli.specs.Ports.{at_ports};
ghost use Rattle.desk_cli.specs.commands.Serving.{listening_line, serve_app, serve_named, ServesOver, ServesDesk};
ghost use Rattle.desk_tables.specs.AtRest.{IsAtRest};
ghost use Rattle.desk_cli.specs.Faults.{EndsGiving};

use super::Command;
use crate::endings::Ending;
use crate::faults::{Fault, end};
use crate::jobs::{Job, run_job};
use crate::network::{Known, Network};
use crate::options::{
    command_on_file, connections_at, flag, is_set, placed, port_at, required_option, with_word,
};
use crate::usage::{BadValue, Usage};
use clap::ArgMatches;
use desk_engine::write_whole;
use desk_http::{NetworkFault, serve_connections};
use desk_store::Keeper;
use sqlite::{Alter, Connection};
use std::alloc::{AllocError, Global};
use std::io::{self, Read, Write};

const EXAMPLE: &str = "\
A connection's first octet has one second, each further read and each write five, and a
request ten as a whole. A request with a header field Origin, as a browser sends it for a
page of another place, is answered 403.

Example:
  desk serve town.db --port 8080 --count 100";

const LOG: &str = "Writes a line for each connection to standard error";

/// Returns its command line: its name, the file, the port, how many connections, and whether they are logged.
pub(crate) fn serve_app<'a>(alloc: Global) -> Result<clap::Command<'a>, AllocError>
    ensures { IsCommand serve_app result }
{
    let about = "Serves messages, reports and the log over HTTP on 127.0.0.1";
    let port = required_option(alloc, "port", "P", "The port, 1 to 65535");
    let many = "How many connections, one after another, 1 to 1000000";
    let count = required_option(alloc, "count", "N", many);
    let command = with_word(command_on_file(alloc, "serve", about, EXAMPLE), port);
    let counted = with_word(command, count);
    with_word(counted, flag(alloc, "log", LOG))
}

/// Returns the command that its arguments give.
pub(crate) fn serve_of<'a>(options: &ArgMatches<'a>) -> Result<Command<'a>, Usage>
    ensures { TellsNamed (serve_named (rows_of (found_of options.now))) result }
{
    let file = placed(options, "file")?;
    let port = port_at(options, "port").ok_or(BadValue::Port)?;
    let connections = connections_at(options, "count").ok_or(BadValue::Connections)?;
    Ok(Command::Serve {
        file,
        port,
        connections,
        log: is_set(options, "log"),
    })
}

/// Serves `connections` connections at a port of 127.0.0.1, one after another, with the desk of the connection's database. Returns the
/// database's connection. Before the first one it writes `listening 127.0.0.1:` with the port, and an LF. With `log` the network writes a
/// line for each connection to its log.
///
/// The port is bound once the desk is open. A connection that fails after it was accepted counts. An accept that fails doesn't.
///
/// # Errors
///
/// Writes one line to standard error:
///
/// - `Network` if the port can't be bound, or after 64 failed accepts in a row. What was served before stays served.
/// - `File` if the line `listening` can't be written, and `Unavailable` if there is no memory for it.
/// - `NotADesk`, `Schema` or `Unavailable` if the database isn't a desk of schema 2. It stays as it is.
pub fn serve_command<S: Alter, B: Network, W: Write, F: Write>(
    alloc: Global,
    conn: Connection<S>,
    network: &B,
    port: u16,
    connections: u32,
    log: bool,
    answers: &mut W,
    faults: &mut F,
) -> (Ending, Connection<S>)
    requires at_rest { IsAtRest conn }
    ensures { EndsGiving F.Write faults.old faults.new result (ServesOver S.Store
        (⟦<B as Known>⟧.at network.now log)
        port connections conn W.Write answers.old answers.new) }
{
    let (done, conn) = serve_desk(alloc, conn, network, port, connections, log, answers);
    (end(faults, done), conn)
}

/// Opens the desk, serves `connections` connections with it, and returns the database's connection.
fn serve_desk<S: Alter, B: Network, W: Write>(
    alloc: Global,
    conn: Connection<S>,
    network: &B,
    port: u16,
    connections: u32,
    log: bool,
    answers: &mut W,
) -> (Result<(), Fault>, Connection<S>)
    requires at_rest { IsAtRest conn }
    ensures serves { HasCleanDisk (state S.Store result.1) → (c : Settings) (heard : List Envelope) → KeepsHeard S.Store conn c heard
        → ServesDesk S.Store result.1 c heard
        (⟦<B as Known>⟧.at network.now log)
        port connections (W.contents answers.old) (W.contents answers.new) result.0 }
    ensures not_a_desk { HasCleanDisk (state S.Store result.1) → IsNotADesk S.Store conn
        → RefusesFile S.Store conn result.1 (Keeps (W.contents answers.old) (W.contents answers.new)) result.0 }
    ensures clean { HasCleanDisk (state S.Store result.1) → HasCleanDisk (state S.Store conn) }
{
    let job = Serve {
        network,
        port,
        connections,
        log,
    };
    run_job(alloc, conn, &job, &mut io::empty(), answers)
}

/// Binds the port and serves `connections` connections at it.
#[derive(Drop)]
struct Serve<'a, B> {
    network: &'a B,
    port: u16,
    connections: u32,
    log: bool,
}

impl<B: Network> Job for Serve<'_, B> {
    ghost does = { λ job. serves (at_ports B.ports job.network.now B.Port.meaning B.Port.Reader.remaining B.Port.Writer.contents job.log) job.port job.connections };

    fn run<K: Keeper, R: Read, W: Write>(
        &self,
        alloc: Global,
        keeper: &mut K,
        _reader: &mut R,
        answers: &mut W,
    ) -> Result<(), Fault> {
        let Ok(mut listening) = self.network.listen(self.port, self.log) else {
            return Err(Fault::Network);
        };
        let Ok(line) = listening_line(alloc, self.port) else {
            return Err(Fault::Unavailable);
        };
        match write_whole(answers, line.as_bytes()) {
            Ok(()) => {}
            Err(_) => return Err(Fault::File),
        }
        ended(serve_connections(alloc, keeper, &mut listening, self.connections))
    }
}

/// Returns the command's result for the way in which serving ended.
fn ended(served: Result<(), NetworkFault>) -> Result<(), Fault>
    ensures { result ≡ ended served }
{
    match served {
        Ok(()) => Ok(()),
        Err(NetworkFault::Accepts) => Err(Fault::Network),
    }
}

/// Returns the line that is written before the first connection.
fn listening_line(alloc: Global, port: u16) -> Result<String, AllocError>
    ensures { IfOk result (λ line. string_bytes line ≡ listening_line port) }
{
    format!(in alloc; "listening 127.0.0.1:{port}\n")
}

#[cfg(test)]
mod tests;
