//! Connections one after another, as the function that serves them sees them.
ghost use Rattle.std.specs.Prelude.{IfOk, OnErr};
ghost use Rattle.desk_http.specs.Served.{Connections};

use crate::serving::ServeEnd;
use std::alloc::Global;
use std::io::{self, Read, Write};

/// A source of connections, one after another. Each is finished after it was served.
pub trait Listening {
    /// Reads what the peer sent.
    type Reader: Read;
    /// Writes to the peer.
    type Writer: Write;

    /// What accepts and finished connections mean.
    ghost meaning: { Connections Self Self.Reader Self.Writer };

    /// Returns the next connection.
    ///
    /// # Errors
    ///
    /// Returns the error of a connection that failed before it was accepted.
    fn accept(&mut self, alloc: Global) -> io::Result<(Self::Reader, Self::Writer)>
        ensures comes { IfOk result (λ connection. meaning.comes self.old self.new connection.0 connection.1) }
        ensures fails { OnErr result (meaning.fails self.old self.new) };

    /// Finishes a connection: sends what was written, and lets the peer see that nothing follows.
    ///
    /// # Errors
    ///
    /// Returns the error of a connection that failed.
    fn finish(
        &mut self,
        reader: Self::Reader,
        writer: Self::Writer,
        end: ServeEnd,
    ) -> io::Result<()>
        ensures finishes { meaning.finishes self.old self.new reader writer end };
}
