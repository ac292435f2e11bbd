//! The table of owners.
ghost use Rattle.std.specs.Prelude.{◌≡◌, [], ◌∷◌, codes};
ghost use Rattle.desk_rows.specs.Calls.{Changes, Returns, ReturnsList};
ghost use Rattle.desk_rows.specs.Rows.{last_number};
ghost use Rattle.desk_rows.specs.order.Listed.{names_listed};
ghost use Rattle.desk_rows.specs.steps.Texts.{AsksFor, all_asked};
ghost use Rattle.desk_rows.specs.Written.{owner_added};
ghost use Rattle.desk_rows.specs.order.Facts.{facts_in};

use crate::faults::RowFault;
use crate::queries::{find, find_all, is_found};
use crate::values::text;
use crate::writes::write;
use radio_core::Name;
use sqlite::{Alter, Connection, Transaction};
use std::alloc::Global;

/// Returns whether there is an owner of this name.
pub fn owner_is_known<S: Alter>(conn: &mut Connection<S>, name: &Name) -> Result<bool, RowFault>
    ensures { Returns S.Store conn.old conn.new result (λ r. (facts_in r).owners name.now) }
{
    is_found(
        conn,
        "SELECT 1 FROM owner WHERE name = ?1 ORDER BY rowid",
        &[text(name)],
    )
}

/// Returns the number of the last owner, `None` if there is none. It is the number of owners.
pub fn last_owner<S: Alter>(conn: &mut Connection<S>) -> Result<Option<u64>, RowFault>
    ensures { Returns S.Store conn.old conn.new result (λ r. last_number r.owners) }
{
    find(
        conn,
        "SELECT rowid FROM owner ORDER BY rowid DESC LIMIT 1",
        &[],
    )
}

/// The text of the look-up of all owners.
#[tactic(auto, unfolding(sqlite::specs::Listing::understood, sqlite_tied::specs::Compute::everything))]
fn owner_names_text() -> &'static str
    ensures { AsksFor result.now 0 (all_asked 5) (codes "name" ∷ []) }
{
    "SELECT name FROM owner ORDER BY name, rowid"
}

/// Returns the names of all owners, ordered by their octets.
pub fn owner_names<S: Alter>(alloc: Global, conn: &mut Connection<S>) -> Result<Vec<Name>, RowFault>
    ensures { ReturnsList S.Store conn.old conn.new result (λ r. names_listed r.owners) }
{
    find_all(alloc, conn, owner_names_text(), &[])
}

/// Adds an owner.
pub fn insert_owner<S: Alter>(tx: &mut Transaction<'_, S>, name: &Name) -> Result<(), RowFault>
    ensures same_reference { tx.new.conn.ghost_name ≡ tx.old.conn.ghost_name }
    ensures changes { Changes S.Store tx.old tx.new result (owner_added name.now) }
{
    write(tx, "INSERT INTO owner (name) VALUES (?1)", &[text(name)])
}
