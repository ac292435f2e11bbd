//! The comparison of the rows of a tree in two stores.
ghost use Rattle.std.specs.Prelude.{◌≡◌, ◌↔◌, IfOk, IsTrue};
ghost use Rattle.std.specs.Result.{is_ok};
ghost use Rattle.sqlite_trees.specs.View.{IsClean};
ghost use Rattle.desk_cli.specs.steps.Audit.{Compares, OnlyMoves};

use sqlite_trees::error::StoreError;
use sqlite_trees::store::{Alter, Direction};
use sqlite_value::row::Row;
use std::alloc::Global;

/// How the rows of a tree in two stores compare.
#[derive(Clone, Copy)]
pub(crate) enum Comparison {
    /// The rows are the same. This is their number.
    Same(u64),
    /// The rows differ. This is the first place, from 1, at which they do, or at which only one store has a row.
    Differs(u64),
}

/// Compares the rows of the tree with this number, column by column as they are stored. Uses memory for one row of each store.
///
/// # Errors
///
/// Returns the error of a store that can't be read, and `Full` if there are more rows than can be numbered.
pub(crate) fn compared_tree<A: Alter, B: Alter>(
    alloc: Global,
    one: &mut A,
    other: &mut B,
    tree: u32,
) -> Result<Comparison, StoreError>
    ensures compared { IsClean (A.Store.view one.new) → IsClean (B.Store.view other.new)
        → IfOk result (Compares ((A.Store.view one.old).trees tree) ((B.Store.view other.old).trees tree)) }
    ensures one { OnlyMoves (A.Store.view one.old) (A.Store.view one.new) (is_ok result) }
    ensures other { OnlyMoves (B.Store.view other.old) (B.Store.view other.new) (is_ok result) }
{
    let first = Row::new(alloc);
    let mut left = Row::new(alloc);
    let mut right = Row::new(alloc);
    one.seek(0, tree, &first, Direction::Forward)?;
    other.seek(0, tree, &first, Direction::Forward)?;
    'rows: for place in 0..u64::MAX {
        let has_left = one.next(0, &mut left)?;
        let has_right = other.next(0, &mut right)?;
        if !has_left {
            if has_right {
                return Ok(Comparison::Differs(place + 1));
            }
            return Ok(Comparison::Same(place));
        }
        if !has_right {
            return Ok(Comparison::Differs(place + 1));
        }
        if !are_same(&left, &right) {
            return Ok(Comparison::Differs(place + 1));
        }
    }
    Err(StoreError::Full)
}

/// Returns whether two rows are the same, their numbers in the table too.
fn are_same(left: &Row, right: &Row) -> bool
    ensures { IsTrue result ↔ (left.now ≡ right.now) }
{
    left.is_same(right)
}
