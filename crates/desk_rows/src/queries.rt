//! Queries for one row and for many.
ghost use Rattle.std.specs.Prelude.{◌≡◌, ℕ, List, [], ◌∷◌, Result};
ghost use Rattle.sqlite.specs.Held.{state};
ghost use Rattle.sqlite.specs.Values.{bound};
ghost use Rattle.sqlite.specs.declared.error.Error.{Error};
ghost use Rattle.sqlite_value.specs.Order.{Row};
ghost use Rattle.sqlite_value.specs.declared.value.Value.{Value};
ghost use Rattle.sqlite_value.specs.declared.value.Value.TheVariants.{Text};
ghost use Rattle.registry_core.specs.Ranges.{IsName};
ghost use Rattle.desk_rows.specs.steps.Errors.{Decodes, found_of, known_of};
ghost use Rattle.desk_rows.specs.Rows.{number};
ghost use Rattle.desk_rows.specs.steps.Queries.{Finds, FindsAll, HasRun, IsReadOf, Knows};

use crate::columns::{name_at, number_at};
use crate::faults::{RowFault, found};
use radio_core::Name;
use sqlite::{Alter, Connection, Row};
use sqlite_value::value::ValueRef;
use std::alloc::Global;

/// A value that a row of an answer shows.
pub(crate) trait FromRow: Sized {
    /// What contracts see of the value, the row that shows it, and its range.
    ghost Seen: { Type 0 };

    ghost seen: { Self → Seen };

    ghost shows: { Seen → List Value };

    ghost InRange: { Seen → Type 0 };

    fn from_row(row: &Row) -> Result<Self, RowFault>
        ensures { Decodes seen shows InRange row.now result };
}

impl FromRow for u64 {
    ghost Seen = { ℕ };

    ghost seen = { λ n. n };

    ghost shows = { λ n. number n ∷ [] };

    ghost InRange = { λ n. Unit {0} };

    fn from_row(row: &Row) -> Result<u64, RowFault> {
        number_at(row, 0)
    }
}

impl FromRow for Name {
    ghost Seen = { List ℕ };

    ghost seen = { λ name. name };

    ghost shows = { λ name. Text name ∷ [] };

    ghost InRange = { IsName };

    #[tactic(auto, using(crate::proofs::ListedQueries::name_read))]
    fn from_row(row: &Row) -> Result<Name, RowFault> {
        name_at(row, 0)
    }
}

/// Returns the first row of the query, `None` if it has none.
fn first_row<S: Alter>(
    conn: &mut Connection<S>,
    sql: &str,
    params: &[ValueRef<'_>],
) -> Result<Option<Row>, RowFault>
    ensures { (answer : Result Row Error) × (result ≡ found_of answer)
        × HasRun sql.now (bound params.now) (state S.Store conn.old) (state S.Store conn.new) answer }
{
    found(conn.query_row(sql, params))
}

fn read<T: FromRow>(found: Result<Option<Row>, RowFault>) -> Result<Option<T>, RowFault>
    ensures { IsReadOf T.seen T.shows T.InRange found result }
{
    match found {
        Ok(Some(row)) => Ok(Some(T::from_row(&row)?)),
        Ok(None) => Ok(None),
        Err(fault) => Err(fault),
    }
}

/// Returns the value in the first row of the query, `None` if it has no row.
pub(crate) fn find<S: Alter, T: FromRow>(
    conn: &mut Connection<S>,
    sql: &str,
    params: &[ValueRef<'_>],
) -> Result<Option<T>, RowFault>
    ensures { Finds sql.now (bound params.now) (state S.Store conn.old) (state S.Store conn.new) T.seen T.shows T.InRange result }
{
    read(first_row(conn, sql, params))
}

fn known(found: Result<Option<Row>, RowFault>) -> Result<bool, RowFault>
    ensures { result ≡ known_of found }
{
    match found {
        Ok(Some(_)) => Ok(true),
        Ok(None) => Ok(false),
        Err(fault) => Err(fault),
    }
}

/// Returns whether the query has a row.
pub(crate) fn is_found<S: Alter>(
    conn: &mut Connection<S>,
    sql: &str,
    params: &[ValueRef<'_>],
) -> Result<bool, RowFault>
    ensures { Knows sql.now (bound params.now) (state S.Store conn.old) (state S.Store conn.new) result }
{
    known(first_row(conn, sql, params))
}

/// Returns the values in all rows of the query, read one after another to the last. If one fails it returns an error, and never a part.
pub(crate) fn find_all<S: Alter, T: FromRow + Drop>(
    alloc: Global,
    conn: &mut Connection<S>,
    sql: &str,
    params: &[ValueRef<'_>],
) -> Result<Vec<T>, RowFault>
    ensures { FindsAll sql.now (bound params.now) (state S.Store conn.old) (state S.Store conn.new) T.seen T.shows T.InRange result }
{
    let mut all = Vec::new(alloc);
    let mut rows = conn.query(sql, params)?;
    'rows: for _ in 0..u64::MAX {
        let Some(row) = rows.next()? else {
            return Ok(all);
        };
        all.push(T::from_row(row)?)?;
    }
    // There are more rows than a list can have.
    Err(RowFault::Memory)
}
