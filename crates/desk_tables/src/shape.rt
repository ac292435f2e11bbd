//! Whether tables and indexes have a given shape: STRICT tables without a default, a CHECK or a reference.
ghost use Rattle.std.specs.Prelude.{◌≡◌, ◌↔◌, ◌∷◌, [], IsTrue, Some, map, true};
ghost use Rattle.sqlite_value.specs.declared.keys.Collation.TheVariants.{Binary};
ghost use Rattle.sqlite_value.specs.declared.value.Value.TheVariants.{Null};
ghost use Rattle.sqlite_value.specs.Keys.{plain};
ghost use Rattle.desk_tables.specs.steps.Shape.{bare, column_shaped, index_shaped, keyed, table_shaped};

use sqlite_items::Items;
use sqlite_schema::code::Terms;
use sqlite_schema::schema::{Column, Index, Kind, Table};
use sqlite_value::keys::{Collation, Order};
use sqlite_value::value::Value;

pub(crate) enum ColumnShape<'a> {
    Required(&'a [u8], Kind),
    Optional(&'a [u8], Kind),
}

/// What no two rows of a table have in common.
pub(crate) enum KeyShape<'a> {
    /// The first column, which is the rowid.
    Rowid,
    /// The rowid, and the values at these places.
    RowidAnd(&'a [usize]),
    /// The values at these places.
    Places(&'a [usize]),
}

pub(crate) struct TableShape<'a> {
    pub name: &'a [u8],
    pub tree: u32,
    pub columns: &'a [ColumnShape<'a>],
    pub key: KeyShape<'a>,
}

pub(crate) struct IndexShape<'a> {
    pub name: &'a [u8],
    pub tree: u32,
    pub table: u32,
    pub columns: &'a [usize],
    pub is_unique: bool,
}

fn is_plain(column: &Column, name: &[u8], kind: Kind) -> bool
    ensures { IsTrue result ↔ (column.now ≡ record column.now { name = name.now; kind = kind; is_strict = true; default = Null; collation = Binary }) }
{
    column.name.as_slice() == name
        && column.kind == kind
        && column.is_strict
        && matches!(column.default, Value::Null)
        && column.collation == Collation::Binary
}

fn is_column(column: &Column, shape: &ColumnShape<'_>) -> bool
    ensures { IsTrue result ↔ (column.now ≡ column_shaped shape.now) }
{
    match shape {
        ColumnShape::Required(name, kind) => is_plain(column, name, *kind) && column.not_null,
        ColumnShape::Optional(name, kind) => is_plain(column, name, *kind) && !column.not_null,
    }
}

fn are_columns(columns: &[Column], shapes: &[ColumnShape<'_>]) -> bool
    ensures { IsTrue result ↔ (columns.now ≡ map column_shaped shapes.now) }
{
    columns.len() == shapes.len()
        && columns
            .iter()
            .zip(shapes)
            .all(|(column, shape)| is_column(column, shape))
}

fn has_none(terms: &Terms) -> bool
    ensures { IsTrue result ↔ (terms.now ≡ []) }
{
    terms.roots.is_empty()
}

/// Returns whether the table has no CHECK, no reference, no computed default and no AUTOINCREMENT.
fn is_bare(table: &Table) -> bool
    ensures { IsTrue result ↔ (table.now ≡ bare table.now) }
{
    if !has_none(&table.checks) || !table.references.is_empty() || !table.computed.is_empty() {
        return false;
    }
    if !table.stamps.places.is_empty()
        || !has_none(&table.stamps.terms)
        || !table.stamps.formats.is_empty()
    {
        return false;
    }
    !table.is_counted
}

fn is_numbered(table: &Table) -> bool
    ensures { IsTrue result ↔ (table.now ≡ record table.now { key = Some 0; primary = 0 ∷ [] }) }
{
    table.key == Some(0) && table.primary.as_slice() == [0].as_slice()
}

fn has_no_key(table: &Table) -> bool
    ensures { IsTrue result ↔ (table.now ≡ record table.now { uniques = []; orders = [] }) }
{
    table.uniques.is_empty() && table.orders.is_empty()
}

fn is_plain_alone(orders: &[Order]) -> bool
    ensures { IsTrue result ↔ (orders.now ≡ plain ∷ []) }
{
    match orders {
        [order] => order.digits == 0,
        _ => false,
    }
}

fn is_key(key: &Items<usize>, places: &[usize]) -> bool
    ensures { IsTrue result ↔ (key.now ≡ places.now) }
{
    key.as_slice() == places
}

fn is_alone(keys: &[Items<usize>], places: &[usize]) -> bool
    ensures { IsTrue result ↔ (keys.now ≡ places.now ∷ []) }
{
    match keys {
        [key] => is_key(key, places),
        _ => false,
    }
}

fn has_one_key(table: &Table, places: &[usize]) -> bool
    ensures { IsTrue result ↔ (table.now ≡ record table.now { uniques = places.now ∷ []; orders = plain ∷ [] }) }
{
    is_alone(table.uniques.as_slice(), places) && is_plain_alone(table.orders.as_slice())
}

fn has_key(table: &Table, shape: &KeyShape<'_>) -> bool
    ensures { IsTrue result ↔ (table.now ≡ keyed shape.now table.now) }
{
    match shape {
        KeyShape::Rowid => is_numbered(table) && has_no_key(table),
        KeyShape::RowidAnd(places) => is_numbered(table) && has_one_key(table, places),
        KeyShape::Places(places) => {
            table.key.is_none() && table.primary.as_slice() == *places && has_one_key(table, places)
        }
    }
}

pub(crate) fn is_table(table: &Table, shape: &TableShape<'_>) -> bool
    ensures { IsTrue result ↔ (table.now ≡ table_shaped shape.now) }
{
    is_bare(table)
        && has_key(table, &shape.key)
        && table.name.as_slice() == shape.name
        && table.tree == shape.tree
        && are_columns(table.columns.as_slice(), shape.columns)
}

pub(crate) fn are_tables(tables: &[Table], shapes: &[TableShape<'_>]) -> bool
    ensures { IsTrue result ↔ (tables.now ≡ map table_shaped shapes.now) }
{
    tables.len() == shapes.len()
        && tables
            .iter()
            .zip(shapes)
            .all(|(table, shape)| is_table(table, shape))
}

fn is_index(index: &Index, shape: &IndexShape<'_>) -> bool
    ensures { IsTrue result ↔ (index.now ≡ index_shaped shape.now) }
{
    index.name.as_slice() == shape.name
        && index.tree == shape.tree
        && index.table == shape.table
        && index.columns.as_slice() == shape.columns
        && index.order.digits == 0
        && index.is_unique == shape.is_unique
}

pub(crate) fn are_indexes(indexes: &[Index], shapes: &[IndexShape<'_>]) -> bool
    ensures { IsTrue result ↔ (indexes.now ≡ map index_shaped shapes.now) }
{
    indexes.len() == shapes.len()
        && indexes
            .iter()
            .zip(shapes)
            .all(|(index, shape)| is_index(index, shape))
}
