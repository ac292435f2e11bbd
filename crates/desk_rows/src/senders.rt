//! The table of senders.
ghost use Rattle.std.specs.Prelude.{◌≡◌, [], ◌∷◌, codes};
ghost use Rattle.desk_rows.specs.Calls.{Changes, Returns, ReturnsList};
ghost use Rattle.desk_rows.specs.Rows.{last_number, number, role_number};
ghost use Rattle.desk_rows.specs.order.Listed.{senders_listed};
ghost use Rattle.desk_rows.specs.steps.Texts.{AsksFor, all_asked, role_asked};
ghost use Rattle.registry_core.specs.declared.messages.Role.{Role};
ghost use Rattle.desk_rows.specs.Written.{sender_added};
ghost use Rattle.desk_rows.specs.order.Facts.{facts_in};

use crate::columns::role_at;
use crate::faults::RowFault;
use crate::queries::{FromRow, find, find_all};
use crate::values::{role, text};
use crate::writes::write;
use radio_core::Name;
use registry_core::Role;
use sqlite::{Alter, Connection, Row, Transaction};
use std::alloc::Global;

impl FromRow for Role {
    ghost Seen = { Role };

    ghost seen = { λ role. role };

    ghost shows = { λ role. number (role_number role) ∷ [] };

    ghost InRange = { λ role. Unit {0} };

    fn from_row(row: &Row) -> Result<Role, RowFault> {
        role_at(row, 0)
    }
}

/// The text of the look-up of a sender's role.
#[tactic(auto, unfolding(sqlite::specs::Listing::understood, sqlite_tied::specs::Compute::everything))]
fn role_text() -> &'static str
    ensures { AsksFor result.now 1 role_asked (codes "role" ∷ []) }
{
    "SELECT role FROM sender WHERE name = ?1 ORDER BY rowid"
}

/// Returns the role of the sender of this name, `None` if there is none.
pub fn role_of<S: Alter>(conn: &mut Connection<S>, name: &Name) -> Result<Option<Role>, RowFault>
    ensures { Returns S.Store conn.old conn.new result (λ r. (facts_in r).senders name.now) }
{
    find(conn, role_text(), &[text(name)])
}

/// Returns the number of the last sender, `None` if there is none. It is the number of senders.
pub fn last_sender<S: Alter>(conn: &mut Connection<S>) -> Result<Option<u64>, RowFault>
    ensures { Returns S.Store conn.old conn.new result (λ r. last_number r.senders) }
{
    find(
        conn,
        "SELECT rowid FROM sender ORDER BY rowid DESC LIMIT 1",
        &[],
    )
}

/// The text of the look-up of all senders.
#[tactic(auto, unfolding(sqlite::specs::Listing::understood, sqlite_tied::specs::Compute::everything))]
fn sender_names_text() -> &'static str
    ensures { AsksFor result.now 0 (all_asked 1) (codes "name" ∷ []) }
{
    "SELECT name FROM sender ORDER BY name, rowid"
}

/// Returns the names of all senders, ordered by their octets.
pub fn sender_names<S: Alter>(
    alloc: Global,
    conn: &mut Connection<S>,
) -> Result<Vec<Name>, RowFault>
    ensures { ReturnsList S.Store conn.old conn.new result (λ r. senders_listed r.senders) }
{
    find_all(alloc, conn, sender_names_text(), &[])
}

/// Adds a sender with this role.
pub fn insert_sender<S: Alter>(
    tx: &mut Transaction<'_, S>,
    name: &Name,
    has: Role,
) -> Result<(), RowFault>
    ensures same_reference { tx.new.conn.ghost_name ≡ tx.old.conn.ghost_name }
    ensures changes { Changes S.Store tx.old tx.new result (sender_added name.now has) }
{
    write(
        tx,
        "INSERT INTO sender (name, role) VALUES (?1, ?2)",
        &[text(name), role(has)],
    )
}
