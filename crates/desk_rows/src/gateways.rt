//! The table of gateways.
ghost use Rattle.std.specs.Prelude.{◌≡◌, [], ◌∷◌, codes};
ghost use Rattle.desk_rows.specs.Calls.{Changes, Returns, ReturnsList};
ghost use Rattle.desk_rows.specs.Rows.{last_number};
ghost use Rattle.desk_rows.specs.order.Listed.{names_listed};
ghost use Rattle.desk_rows.specs.steps.Texts.{AsksFor, all_asked};
ghost use Rattle.desk_rows.specs.Written.{gateway_added};
ghost use Rattle.desk_rows.specs.order.Facts.{facts_in};

use crate::faults::RowFault;
use crate::queries::{find, find_all, is_found};
use crate::values::text;
use crate::writes::write;
use radio_core::Name;
use sqlite::{Alter, Connection, Transaction};
use std::alloc::Global;

/// Returns whether there is a gateway of this name.
pub fn gateway_is_known<S: Alter>(conn: &mut Connection<S>, name: &Name) -> Result<bool, RowFault>
    ensures { Returns S.Store conn.old conn.new result (λ r. (facts_in r).gateways name.now) }
{
    is_found(
        conn,
        "SELECT 1 FROM gateway WHERE name = ?1 ORDER BY rowid",
        &[text(name)],
    )
}

/// Returns the number of the last gateway, `None` if there is none. It is the number of gateways.
pub fn last_gateway<S: Alter>(conn: &mut Connection<S>) -> Result<Option<u64>, RowFault>
    ensures { Returns S.Store conn.old conn.new result (λ r. last_number r.gateways) }
{
    find(
        conn,
        "SELECT rowid FROM gateway ORDER BY rowid DESC LIMIT 1",
        &[],
    )
}

/// The text of the look-up of all gateways.
#[tactic(auto, unfolding(sqlite::specs::Listing::understood, sqlite_tied::specs::Compute::everything))]
fn gateway_names_text() -> &'static str
    ensures { AsksFor result.now 0 (all_asked 7) (codes "name" ∷ []) }
{
    "SELECT name FROM gateway ORDER BY name, rowid"
}

/// Returns the names of all gateways, ordered by their octets.
pub fn gateway_names<S: Alter>(
    alloc: Global,
    conn: &mut Connection<S>,
) -> Result<Vec<Name>, RowFault>
    ensures { ReturnsList S.Store conn.old conn.new result (λ r. names_listed r.gateways) }
{
    find_all(alloc, conn, gateway_names_text(), &[])
}

/// Adds a gateway.
pub fn insert_gateway<S: Alter>(tx: &mut Transaction<'_, S>, name: &Name) -> Result<(), RowFault>
    ensures same_reference { tx.new.conn.ghost_name ≡ tx.old.conn.ghost_name }
    ensures changes { Changes S.Store tx.old tx.new result (gateway_added name.now) }
{
    write(tx, "INSERT INTO gateway (name) VALUES (?1)", &[text(name)])
}
