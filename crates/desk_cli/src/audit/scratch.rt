//! The scratch database in memory.
ghost use Rattle.std.specs.Prelude.{◌≡◌, refl, IfOk};
ghost use Rattle.desk_tables.specs.AtRest.{IsAtRest};

use sqlite::{Connection, Error, FileStore, Files, Options};
use sqlite_disk::{Disk, Memory, Tally};
use std::alloc::Global;
use std::io;

/// A disk whose writes are safe at once: a crash leaves what was written last. So there is nothing to sync.
#[derive(Drop)]
pub(crate) struct Unsynced<D: Disk> {
    inner: D,
}

impl<D: Disk> Disk for Unsynced<D> {
    ghost seen = { λ disk. D.Disk.seen disk.inner };

    ghost may_leave = { λ disk left. left ≡ D.Disk.seen disk.inner };

    ghost is_usable = { λ disk. D.Disk.is_usable disk.inner };

    ghost faults = { λ disk. D.Disk.faults disk.inner };

    ghost tally_of = { λ disk. D.Disk.tally_of disk.inner };

    ghost is_clean = { λ disk. D.Disk.is_clean disk.inner };

    ghost key_of = { λ disk. D.Disk.key_of disk.inner };

    ghost is_fair = { λ disk. D.Disk.is_fair disk.inner };

    ghost fair_if_clean = { λ disk. D.Disk.fair_if_clean disk.inner };

    ghost seen_may_stay = { λ disk. refl };

    fn mixes(&self) -> bool {
        false
    }

    fn key(&self) -> u64 {
        self.inner.key()
    }

    fn tally(&self) -> Tally {
        self.inner.tally()
    }

    fn may_be_used(&self) -> bool {
        self.inner.may_be_used()
    }

    fn len(&mut self) -> io::Result<usize> {
        self.inner.len()
    }

    fn read_at(&mut self, at: usize, buf: &mut [u8]) -> io::Result<()> {
        self.inner.read_at(at, buf)
    }

    fn read_checked(&mut self, key: u64, want: u64, at: usize, buf: &mut [u8]) -> io::Result<()> {
        self.inner.read_checked(key, want, at, buf)
    }

    fn write_at(&mut self, at: usize, bytes: &[u8]) -> io::Result<()> {
        self.inner.write_at(at, bytes)
    }

    fn set_len(&mut self, len: usize) -> io::Result<()> {
        self.inner.set_len(len)
    }

    fn sync(&mut self) -> io::Result<()> {
        Ok(())
    }
}

/// Returns a connection to a new database in memory, or an error if an allocation failed.
pub(crate) fn scratch_in_memory(
    alloc: Global,
) -> Result<Connection<FileStore<Unsynced<Memory>>>, Error>
    ensures at_rest { IfOk result IsAtRest }
{
    let files = Files {
        log: Unsynced {
            inner: Memory::new(alloc),
        },
        db: Unsynced {
            inner: Memory::new(alloc),
        },
    };
    match Connection::open_files(alloc, files, Options::new(1)) {
        Ok(conn) => Ok(conn),
        Err((error, _)) => Err(error),
    }
}
