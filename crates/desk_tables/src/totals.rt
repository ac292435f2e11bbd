//! Counts of all things that a desk stores.
ghost use Rattle.std.specs.Prelude.{◌≡◌, bytes_eq, is_some, length};
ghost use Rattle.sqlite.specs.Held.{state};
ghost use Rattle.desk_store.specs.Calls.{IsRead, Tells, TellsFailed, fault_in};
ghost use Rattle.desk_store.specs.Parts.{AreCounts};
ghost use Rattle.desk_tables.specs.Store.{meaning_of};
ghost use Rattle.desk_tables.specs.Totals.{AreTotals, HaveIt};
ghost use Rattle.desk_tables.specs.steps.Calls.{Asks};
ghost use Rattle.desk_tables.specs.steps.LookUps.{OfKept};

use crate::counting::or_none;
use crate::tables::Tables;
use desk_rows::{RowFault, last_device, last_gateway, last_limit, last_owner, last_sender};
use desk_store::{Counts, StoreFault};
use sqlite::{Alter, Connection};

/// The number of things of each kind that a desk stores.
#[derive(Clone, Copy)]
pub struct Totals {
    pub senders: u64,
    pub owners: u64,
    pub gateways: u64,
    pub devices: u64,
    /// The number of gateways' bands for which a limit was set.
    pub limits: u64,
    pub numbered: Counts,
    /// The number of messages that were heard, each with its answer.
    pub replies: u64,
}

/// Returns the last numbers of senders, of owners and of gateways.
fn named_in<S: Alter>(conn: &mut Connection<S>) -> Result<(u64, u64, u64), RowFault>
    ensures { Asks (state S.Store conn.old) (state S.Store conn.new) result (λ r. Unit {0}) (λ r. Unit {0})
        (OfKept (λ kept many. HaveIt bytes_eq (λ name. is_some (kept.facts.senders name)) many.0
        × HaveIt bytes_eq kept.facts.owners many.1 × HaveIt bytes_eq kept.facts.gateways many.2)) }
{
    let senders = last_sender(conn)?;
    let owners = last_owner(conn)?;
    let gateways = last_gateway(conn)?;
    Ok((or_none(senders), or_none(owners), or_none(gateways)))
}

/// Returns the counts, with the last number of each table that isn't counted already.
fn totals_in<S: Alter>(
    conn: &mut Connection<S>,
    numbered: Counts,
    replies: u64,
) -> Result<Totals, RowFault>
    ensures { Asks (state S.Store conn.old) (state S.Store conn.new) result (λ r. Unit {0}) (λ r. Unit {0})
        (OfKept (λ kept totals. AreCounts kept.facts numbered → replies ≡ length kept.entries → AreTotals kept totals)) }
{
    let (senders, owners, gateways) = named_in(conn)?;
    let devices = last_device(conn)?;
    let limits = last_limit(conn)?;
    Ok(Totals {
        senders,
        owners,
        gateways,
        devices: or_none(devices),
        limits: or_none(limits),
        numbered,
        replies,
    })
}

impl<S: Alter> Tables<S> {
    /// Returns the number of things of each kind. Nothing changes.
    ///
    /// # Errors
    ///
    /// Returns `Memory` if an allocation failed, `Disk` after a disk error or if the store is failed, and `NotADesk` if what is stored
    /// turns out not to be a desk.
    pub fn totals(&mut self) -> Result<Totals, StoreFault>
        ensures read { IsRead (meaning_of S.Store) self.old self.new (fault_in result) }
        ensures failed { TellsFailed (meaning_of S.Store) self.old result }
        ensures told { Tells (meaning_of S.Store) self.old self.new result AreTotals }
    {
        if self.failed {
            return Err(StoreFault::Disk);
        }
        let answer = totals_in(&mut self.conn, self.counts, self.heard);
        self.store_result(answer)
    }
}
