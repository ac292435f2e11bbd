//! The comparison of the tables of two databases.
ghost use Rattle.std.specs.Prelude.{◌≡◌, ◌≤◌, false, IfOk, OnOk};
ghost use Rattle.std.specs.Result.{is_ok};
ghost use Rattle.sqlite.specs.Held.{state};
ghost use Rattle.sqlite.specs.Steps.{IsFresh};
ghost use Rattle.sqlite_trees.specs.View.{IsClean, doubt};
ghost use Rattle.desk_cli.specs.steps.Audit.{BecameStore, IsFirstPlace, IsFoundBeside, OnlyMoves, tree_of};

use super::walking::{Comparison, compared_tree};
use super::{Finding, Place, Table};
use sqlite::{Alter, Connection};
use sqlite_trees::error::StoreError;
use std::alloc::Global;

/// The tables that are compared after the replies, in the order of the schema.
const LATER: [Table; 10] = [
    Table::Meta,
    Table::Sender,
    Table::Owner,
    Table::Gateway,
    Table::Device,
    Table::Session,
    Table::Uplink,
    Table::Copy,
    Table::Booking,
    Table::BandLimit,
];

impl Table {
    /// Returns the number of the table's tree in a desk's file.
    fn tree(self) -> u32
        ensures { result ≡ tree_of self }
    {
        match self {
            Table::Meta => 0,
            Table::Sender => 1,
            Table::Reply => 3,
            Table::Owner => 5,
            Table::Gateway => 7,
            Table::Device => 9,
            Table::Session => 11,
            Table::Uplink => 13,
            Table::Copy => 15,
            Table::Booking => 17,
            Table::BandLimit => 22,
        }
    }
}

/// Compares a database with that of a desk, `other`. Returns what an audit finds, and both databases as stores.
///
/// # Errors
///
/// Returns the error of a store that can't be read.
pub(crate) fn compared_desks<S: Alter + Drop, R: Alter + Drop>(
    alloc: Global,
    conn: Connection<S>,
    other: Connection<R>,
) -> (Result<Finding, StoreError>, S, R)
    requires idle { conn.in_transaction ≡ false }
    requires other_idle { other.in_transaction ≡ false }
    ensures compared { IsClean (S.Store.view result.1) → IsClean (R.Store.view result.2)
        → IfOk result.0 (IsFoundBeside (state S.Store conn).now.trees (state R.Store other).now.trees) }
    ensures became { OnOk result.0 (IsClean (S.Store.view result.1) → BecameStore S.Store conn result.1) }
    ensures fresh { OnOk result.0 (IsClean (S.Store.view result.1) → IsFresh (S.Store.view result.1)) }
    ensures clean { doubt (S.Store.view conn.store).is_clean ≤ doubt (S.Store.view result.1).is_clean }
    ensures other_clean { doubt (R.Store.view other.store).is_clean ≤ doubt (R.Store.view result.2).is_clean }
{
    // for the proof: all is committed, and the rows satisfy the schema
    prove!(conn.is_autocommit());
    prove!(other.is_autocommit());
    let _ = conn.schema();
    let mut store = conn.into_store();
    let mut other = other.into_store();
    if store.is_broken() || other.is_broken() {
        return (Err(StoreError::Broken), store, other);
    }
    let found = compared(alloc, &mut store, &mut other);
    (found, store, other)
}

/// Compares a store with that of a desk, `other`, and returns what an audit finds. The replies are compared first, and counted.
///
/// # Errors
///
/// Returns the error of a store that can't be read.
fn compared<A: Alter, B: Alter>(
    alloc: Global,
    one: &mut A,
    other: &mut B,
) -> Result<Finding, StoreError>
    ensures compared { IsClean (A.Store.view one.new) → IsClean (B.Store.view other.new)
        → IfOk result (IsFoundBeside (A.Store.view one.old).trees (B.Store.view other.old).trees) }
    ensures one { OnlyMoves (A.Store.view one.old) (A.Store.view one.new) (is_ok result) }
    ensures other { OnlyMoves (B.Store.view other.old) (B.Store.view other.new) (is_ok result) }
{
    let table = Table::Reply;
    let heard = match compared_tree(alloc, one, other, table.tree())? {
        Comparison::Same(rows) => rows,
        Comparison::Differs(row) => return Ok(Finding::Differs(Place { table, row })),
    };
    match compared_tables(alloc, one, other, &LATER)? {
        Some(place) => Ok(Finding::Differs(place)),
        None => Ok(Finding::InOrder(heard)),
    }
}

/// Returns the first place in these tables at which the two stores differ, or `None` if they are the same.
///
/// # Errors
///
/// Returns the error of a store that can't be read.
fn compared_tables<A: Alter, B: Alter>(
    alloc: Global,
    one: &mut A,
    other: &mut B,
    tables: &[Table],
) -> Result<Option<Place>, StoreError>
    ensures compared { IsClean (A.Store.view one.new) → IsClean (B.Store.view other.new)
        → IfOk result (IsFirstPlace (A.Store.view one.old).trees (B.Store.view other.old).trees tables.now) }
    ensures one { OnlyMoves (A.Store.view one.old) (A.Store.view one.new) (is_ok result) }
    ensures other { OnlyMoves (B.Store.view other.old) (B.Store.view other.new) (is_ok result) }
{
    'tables: for table in tables {
        let table = *table;
        if let Comparison::Differs(row) = compared_tree(alloc, one, other, table.tree())? {
            return Ok(Some(Place { table, row }));
        }
    }
    Ok(None)
}
