//! The ports of 127.0.0.1 on this system.
ghost use Rattle.desk_http.specs.Served.{unknown};
ghost use Rattle.std.specs.Prelude.{◌≡◌, is_some};

use crate::connection_log::Logged;
use crate::network::Network;
use desk_engine::read_some;
use desk_http::{Listening, ServeEnd};
use std::alloc::Global;
use std::io::{self, BufReader, BufWriter, ErrorKind, Read, Write};
use std::net::{Ipv4Addr, Net, OpenListener, OpenStream, Shutdown, SocketAddr, SocketAddrV4};
use std::time::{Clock, Duration, Instant};

/// Seconds until a connection's first octet; after them the connection is closed.
const FIRST_OCTET: u64 = 1;

/// The longest time that a read after the first octet, or a write, waits for the peer, in seconds.
const LONGEST_WAIT: u64 = 5;

/// The longest time for reading a request and writing its response, in seconds.
const LONGEST_REQUEST: u64 = 10;

/// The longest time for reading what a peer sends after its response, in seconds.
const LONGEST_DRAIN: u64 = 1;

/// The greatest number of reads that wait for a peer to close.
const READS_BEFORE_CLOSE: usize = 64;

/// What a stream waits for.
#[derive(Clone, Copy)]
enum Awaited {
    FirstOctet,
    Request,
    Close,
}

impl Awaited {
    /// Returns the longest time that it waits as a whole.
    fn longest(self) -> Duration {
        Duration::from_secs(match self {
            Awaited::FirstOctet => FIRST_OCTET,
            Awaited::Request => LONGEST_REQUEST,
            Awaited::Close => LONGEST_DRAIN,
        })
    }
}

/// A stream that waits for its peer no longer than its times allow, counted from a moment.
#[derive(Drop)]
pub struct Timed<'a, C, S> {
    clock: &'a C,
    since: Instant,
    awaited: Awaited,
    stream: S,
}

impl<C: Clock, S> Timed<'_, C, S> {
    /// Returns how long the next read or write may wait.
    ///
    /// # Errors
    ///
    /// Returns `TimedOut` if no time is left.
    fn wait(&self) -> io::Result<Duration> {
        let longest = self.awaited.longest();
        let left = longest.saturating_sub(self.since.elapsed(self.clock)?);
        if left.is_zero() {
            return Err(ErrorKind::TimedOut.into());
        }
        Ok(left.min(Duration::from_secs(LONGEST_WAIT)))
    }

    /// Makes the stream wait for the peer to close, from now on.
    fn await_close(&mut self) -> io::Result<()> {
        self.since = Instant::now(self.clock)?;
        self.awaited = Awaited::Close;
        Ok(())
    }
}

impl<C: Clock, S: Read + OpenStream> Read for Timed<'_, C, S> {
    // What the stream below reads, octet for octet.
    ghost remaining = { λ timed. S.remaining timed.stream };

    fn read(&mut self, buf: &mut [u8]) -> io::Result<usize> {
        self.stream.set_read_timeout(Some(self.wait()?))?;
        let count = self.stream.read(buf)?;
        if let Awaited::FirstOctet = self.awaited {
            self.awaited = Awaited::Request;
        }
        Ok(count)
    }
}

impl<C: Clock, S: Write + OpenStream> Write for Timed<'_, C, S> {
    // What the stream below writes, octet for octet.
    ghost contents = { λ timed. S.contents timed.stream };

    fn write(&mut self, buf: &[u8]) -> io::Result<usize> {
        self.stream.set_write_timeout(Some(self.wait()?))?;
        self.stream.write(buf)
    }

    fn flush(&mut self) -> io::Result<()> {
        self.stream.flush()
    }
}

/// Reads until the peer closes, so that it gets what was written to it: a socket that is closed with unread octets resets its connection.
fn read_to_close<C: Clock, S: Read + OpenStream + Drop>(reader: Timed<'_, C, S>) -> io::Result<()> {
    let mut reader = reader;
    reader.await_close()?;
    let mut unread = [0u8; 4096];
    for _ in 0..READS_BEFORE_CLOSE {
        if read_some(&mut reader, &mut unread)? == 0 {
            return Ok(());
        }
    }
    Ok(())
}

/// A port of 127.0.0.1 that is listened at.
#[derive(Drop)]
pub struct Port<'a, C, L> {
    clock: &'a C,
    listener: L,
}

impl<'a, C: Clock, L: OpenListener> Port<'a, C, L> {
    /// Returns the address to which the tests connect.
    #[cfg(test)]
    pub(crate) fn address(&self) -> io::Result<SocketAddr> {
        self.listener.local_addr()
    }

    /// Returns a stream of a connection that came then, with this port's clock.
    fn timed(
        &self,
        since: Instant,
        awaited: Awaited,
        stream: L::Stream,
    ) -> Timed<'a, C, L::Stream> {
        Timed {
            clock: self.clock,
            since,
            awaited,
            stream,
        }
    }
}

impl<'a, C: Clock, L: OpenListener> Listening for Port<'a, C, L>
where
    L::Stream: Read + Write + OpenStream + Drop,
{
    type Reader = BufReader<Timed<'a, C, L::Stream>>;

    type Writer = BufWriter<Timed<'a, C, L::Stream>>;

    ghost meaning = { unknown };

    fn accept(&mut self, alloc: Global) -> io::Result<(Self::Reader, Self::Writer)> {
        let (stream, _) = self.listener.accept()?;
        let came = Instant::now(self.clock)?;
        let other = stream.try_clone()?;
        let reader = self.timed(came, Awaited::FirstOctet, stream);
        let writer = self.timed(came, Awaited::Request, other);
        let reader = BufReader::new(alloc, reader)?;
        let writer = BufWriter::new(alloc, writer)?;
        Ok((reader, writer))
    }

    fn finish(
        &mut self,
        reader: Self::Reader,
        mut writer: Self::Writer,
        end: ServeEnd,
    ) -> io::Result<()> {
        let flushed = writer.flush();
        // Separately: a writer that is dropped would send what a flush failed to.
        let (sender, _) = writer.into_parts();
        flushed?;
        sender.stream.shutdown(Shutdown::Write)?;
        match end {
            ServeEnd::Done(_) => read_to_close(reader.into_inner()),
            // There is no response that could be lost.
            _ => Ok(()),
        }
    }
}

/// This system's ports of 127.0.0.1, and the writer of their log.
#[derive(Clone, Copy)]
pub struct Sockets<'a, R, G> {
    rt: &'a R,
    log: G,
}

impl<'a, R, G> Sockets<'a, R, G> {
    /// Returns the ports that this runtime reaches. `log` gets a line for each connection of a port that is listened at with a log.
    pub fn new(rt: &'a R, log: G) -> Self {
        Sockets { rt, log }
    }
}

impl<'a, R: Net + Clock, G: Write + Copy> Network for Sockets<'a, R, G> {
    type Port = Logged<'a, Port<'a, R, R::Listener>, R, G>;

    // Of the port itself nothing is known.
    ghost ports = { record { listens = λ network port log listening. is_some listening.log ≡ log; refuses = λ network port. Unit {0} } };

    fn listen(&self, port: u16, log: bool) -> io::Result<Self::Port> {
        let address = SocketAddr::V4(SocketAddrV4::new(Ipv4Addr::LOCALHOST, port));
        let port = Port {
            clock: self.rt,
            listener: self.rt.bind(address)?,
        };
        let log = if log { Some(self.log) } else { None };
        Ok(Logged::new(port, self.rt, log))
    }
}

#[cfg(test)]
mod tests;
