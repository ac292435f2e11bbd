//! A network, as a server at one of its ports sees it.
ghost use Rattle.std.specs.Prelude.{Bool, IfErr, IfOk};
ghost use Rattle.desk_cli.specs.Ports.{AtPorts, Ports, at_ports};

use desk_http::Listening;
use std::io;

/// A network whose ports can be listened at.
pub trait Network {
    /// A port that is listened at.
    type Port: Listening + Drop;

    /// What is known of a port that is listened at, and which ports can't be bound.
    ghost ports: { Ports Self Self.Port };

    /// Listens at a port of 127.0.0.1, with a log of its connections or without.
    ///
    /// # Errors
    ///
    /// Returns the error of a port that can't be bound.
    fn listen(&self, port: u16, log: bool) -> io::Result<Self::Port>
        ensures listens { IfOk result (λ listening. ports.listens self.now port log listening) }
        ensures refuses { IfErr result (λ error. ports.refuses self.now port) };
}

/// What is known of a network and of the connections at its ports, put together for contracts. Code doesn't use it.
pub trait Known: Network {
    /// What is answered at its ports, with a log of their connections or without.
    ghost at: { Self → Bool → AtPorts };
}

impl<B: Network> Known for B {
    ghost at = { λ network. at_ports B.ports network B.Port.meaning B.Port.Reader.remaining B.Port.Writer.contents };
}
