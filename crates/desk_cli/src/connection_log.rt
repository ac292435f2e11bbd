//! A log of connections: one line for each, written after the connection was finished.
ghost use Rattle.std.specs.Prelude.{◌≡◌, IfSome};
ghost use Rattle.desk_cli.specs.ConnectionLog.{IsLine, IsLineOf, Logs};
ghost use Rattle.desk_cli.specs.steps.Logging.{Puts};

mod answers;
mod lines;
mod recorders;

use crate::faults::write_beginning;
use answers::answer_in;
use desk_http::{Listening, ServeEnd};
use lines::{Served, first_word, line_of, target_in};
use recorders::{Record, Recorder};
use std::alloc::Global;
use std::io::{self, Read, Write};
use std::time::{Clock, Instant};

/// When a connection came, and the memory for its line.
#[derive(Clone, Copy)]
struct Came {
    alloc: Global,
    at: Instant,
}

/// A port that writes a line to a log for each connection, if it has a log. What it reads and writes are the octets of the port below. A
/// line that can't be written, or for which there is no memory or no time, is left out.
#[derive(Drop)]
pub struct Logged<'a, P, C, G> {
    port: P,
    clock: &'a C,
    log: Option<G>,
    came: Option<Came>,
}

impl<'a, P, C: Clock, G: Write> Logged<'a, P, C, G> {
    /// Returns a port with this log, or with none.
    pub fn new(port: P, clock: &'a C, log: Option<G>) -> Self
        ensures port { result.port ≡ port }
        ensures log { result.log ≡ log }
    {
        Logged {
            port,
            clock,
            log,
            came: None,
        }
    }

    /// Returns the port below.
    #[cfg(test)]
    pub(crate) fn port(&self) -> &P {
        &self.port
    }

    /// Returns the port below, and the log.
    #[cfg(test)]
    pub(crate) fn into_parts(self) -> (P, Option<G>) {
        (self.port, self.log)
    }

    /// Notes when a connection came, if it is logged.
    fn coming(&self, alloc: Global) -> Option<Came> {
        if self.log.is_none() {
            return None;
        }
        let at = Instant::now(self.clock).ok()?;
        Some(Came { alloc, at })
    }

    /// Returns the line of a connection that was finished. `None` if it isn't logged, or there is no memory or no time.
    fn line(
        &self,
        read: &Option<Record>,
        written: &Option<Record>,
        end: ServeEnd,
    ) -> Option<Vec<u8>>
        ensures { IfSome result (λ line. IsLine end read.now written.now line.items) }
    {
        match (read, written) {
            (Some(read), Some(written)) => line_since(self.clock, self.came?, read, written, end),
            _ => None,
        }
    }
}

/// Returns the line of a connection that came then, given the octets that were recorded.
fn line_since<C: Clock>(
    clock: &C,
    came: Came,
    read: &Record,
    written: &Record,
    end: ServeEnd,
) -> Option<Vec<u8>>
    ensures { IfSome result (λ line. IsLineOf end read.now written.now line.items) }
{
    let took = came.at.elapsed(clock).ok()?;
    let micros = u64::try_from(took.as_micros()).ok()?;
    let (head, refusal) = answer_in(came.alloc, written.first());
    let served = Served {
        end,
        method: first_word(read.first()),
        target: target_in(read.first()),
        read: read.count(),
        written: written.count(),
        micros,
        head,
        refusal,
    };
    match line_of(came.alloc, &served) {
        Ok(line) => Some(line),
        Err(_) => None,
    }
}

impl<P: Listening, C: Clock, G: Write> Listening for Logged<'_, P, C, G> {
    type Reader = Recorder<P::Reader>;

    type Writer = Recorder<P::Writer>;

    ghost meaning = { record {
      comes = λ before after reader writer. P.meaning.comes before.port after.port reader.below writer.below × (after.log ≡ before.log);
      fails = λ before after. P.meaning.fails before.port after.port × (after.log ≡ before.log);
      finishes = λ before after reader writer end. P.meaning.finishes before.port after.port reader.below writer.below end
          × Logs G.contents before.log after.log end reader.record writer.record;
    } };

    fn accept(&mut self, alloc: Global) -> io::Result<(Self::Reader, Self::Writer)> {
        let (reader, writer) = self.port.accept(alloc)?;
        self.came = self.coming(alloc);
        let is_logged = self.came.is_some();
        Ok((
            Recorder::new(alloc, reader, is_logged),
            Recorder::new(alloc, writer, is_logged),
        ))
    }

    fn finish(
        &mut self,
        reader: Self::Reader,
        writer: Self::Writer,
        end: ServeEnd,
    ) -> io::Result<()> {
        let finished = self.port.finish(reader.below, writer.below, end);
        let line = self.line(&reader.record, &writer.record, end);
        put_line(&mut self.log, line);
        finished
    }
}

/// Writes a line to a log, if there are both. A connection whose line can't be written was served all the same.
fn put_line<G: Write>(log: &mut Option<G>, line: Option<Vec<u8>>)
    ensures { Puts G.contents log.old log.new line }
{
    if let Some(log) = log {
        if let Some(line) = line {
            write_beginning(log, line.as_slice());
        }
    }
}
