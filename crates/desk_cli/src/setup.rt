//! What is known of the files, the network and the streams of a run, put together for contracts.
ghost use Rattle.std.specs.Prelude.{Option};
ghost use Rattle.sqlite.specs.Held.{Held};
ghost use Rattle.desk_cli.specs.Streams.{streams};
ghost use Rattle.desk_cli.specs.World.{World, world_of};
ghost use Rattle.desk_cli.specs.declared.endings.Ending.{Ending};

use crate::files::FileOpener;
use crate::network::{Known, Network};
use sqlite::Alter;
use std::io::{Read, Write};

/// The files of a run, with its network, its reader and its writer. Code doesn't use it.
pub trait Setup<S: Alter, B: Network, R: Read, W: Write>: FileOpener<S> {
    /// A run with these files and this network, the reader before and after, the writer before and after, and what was returned.
    ghost world: { Self → B → R → R → W → W → Ending × Option (Held S) × Option Self.Scratch → World S };
}

impl<S: Alter, N: FileOpener<S>, B: Network, R: Read, W: Write> Setup<S, B, R, W> for N {
    ghost world = { λ files network reader read blank written result. world_of S.Store (N.paths files) (⟦<B as Known>⟧.at network)
        (streams R.Read reader read W.Write blank written) N.Scratch.Store result };
}
