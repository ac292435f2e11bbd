//! Whether a schema is the desk's, schema 2, or schema 1.
ghost use Rattle.std.specs.Prelude.{◌≡◌, ◌↔◌, ◌&&◌, IsTrue, not};
ghost use Rattle.std.specs.List.{list_any};
ghost use Rattle.sqlite_catalog.specs.Change.{is_used};
ghost use Rattle.desk_rows.specs.Meta.{HasMeta};
ghost use Rattle.desk_rows.specs.Migrating.{limit_name};
ghost use Rattle.desk_rows.specs.Schema.{desk_schema, first_schema, no_schema};
ghost use Rattle.desk_tables.specs.Opening.{IsTaken};

use crate::shape::ColumnShape::{Optional, Required};
use crate::shape::KeyShape::{Places, Rowid, RowidAnd};
use crate::shape::{IndexShape, TableShape, are_indexes, are_tables, is_table};
use sqlite_catalog::layout::is_used;
use sqlite_schema::schema::Kind::{Blob, Integer, Text};
use sqlite_schema::schema::Schema;

const META: TableShape<'static> = TableShape {
    name: b"meta",
    tree: 0,
    columns: &[
        Optional(b"id", Integer),
        Required(b"version", Integer),
        Required(b"receiver", Text),
        Required(b"operator", Text),
        Required(b"base", Integer),
        Required(b"addresses", Integer),
    ],
    key: Rowid,
};

/// The table that schema 1 lacks.
const LIMIT: TableShape<'static> = TableShape {
    name: b"band_limit",
    tree: 22,
    columns: &[
        Required(b"gateway", Text),
        Required(b"band", Integer),
        Required(b"value", Integer),
    ],
    key: Places(&[1, 2]),
};

/// The tables in the order in which they are made. Schema 1 has the first ones, and the same is true of the indexes.
const TABLES: &[TableShape<'static>] = &[
    META,
    TableShape {
        name: b"sender",
        tree: 1,
        columns: &[Required(b"name", Text), Required(b"role", Integer)],
        key: Places(&[1]),
    },
    TableShape {
        name: b"reply",
        tree: 3,
        columns: &[
            Optional(b"seq", Integer),
            Required(b"sender", Text),
            Required(b"number", Integer),
            Required(b"message", Blob),
            Required(b"answer", Blob),
        ],
        key: RowidAnd(&[2, 3]),
    },
    TableShape {
        name: b"owner",
        tree: 5,
        columns: &[Required(b"name", Text)],
        key: Places(&[1]),
    },
    TableShape {
        name: b"gateway",
        tree: 7,
        columns: &[Required(b"name", Text)],
        key: Places(&[1]),
    },
    TableShape {
        name: b"device",
        tree: 9,
        columns: &[
            Required(b"eui", Blob),
            Required(b"join_eui", Blob),
            Required(b"owner", Text),
            Optional(b"floor", Integer),
        ],
        key: Places(&[1]),
    },
    TableShape {
        name: b"session",
        tree: 11,
        columns: &[
            Optional(b"number", Integer),
            Required(b"device", Blob),
            Required(b"nonce", Integer),
            Required(b"next_down", Integer),
        ],
        key: RowidAnd(&[2, 3]),
    },
    TableShape {
        name: b"uplink",
        tree: 13,
        columns: &[
            Optional(b"number", Integer),
            Required(b"session", Integer),
            Required(b"kind", Integer),
            Required(b"counter", Integer),
            Required(b"octets", Blob),
            Required(b"start", Integer),
            Required(b"airtime", Integer),
            Required(b"band", Integer),
        ],
        key: RowidAnd(&[2, 3, 4]),
    },
    TableShape {
        name: b"copy",
        tree: 15,
        columns: &[
            Required(b"uplink", Integer),
            Required(b"gateway", Text),
            Required(b"ended", Integer),
            Required(b"freq", Integer),
            Required(b"dr", Integer),
        ],
        key: Places(&[1, 2]),
    },
    TableShape {
        name: b"booking",
        tree: 17,
        columns: &[
            Optional(b"number", Integer),
            Required(b"uplink", Integer),
            Required(b"gateway", Text),
            Required(b"session", Integer),
            Required(b"kind", Integer),
            Required(b"band", Integer),
            Required(b"start", Integer),
            Required(b"airtime", Integer),
            Required(b"state", Integer),
        ],
        key: Rowid,
    },
    LIMIT,
];

/// The number of tables in schema 1.
const FIRST_TABLES: usize = 10;

const INDEXES: &[IndexShape<'static>] = &[
    IndexShape {
        name: b"sqlite_autoindex_sender_1",
        tree: 2,
        table: 1,
        columns: &[1],
        is_unique: true,
    },
    IndexShape {
        name: b"sqlite_autoindex_reply_1",
        tree: 4,
        table: 3,
        columns: &[2, 3],
        is_unique: true,
    },
    IndexShape {
        name: b"sqlite_autoindex_owner_1",
        tree: 6,
        table: 5,
        columns: &[1],
        is_unique: true,
    },
    IndexShape {
        name: b"sqlite_autoindex_gateway_1",
        tree: 8,
        table: 7,
        columns: &[1],
        is_unique: true,
    },
    IndexShape {
        name: b"sqlite_autoindex_device_1",
        tree: 10,
        table: 9,
        columns: &[1],
        is_unique: true,
    },
    IndexShape {
        name: b"sqlite_autoindex_session_1",
        tree: 12,
        table: 11,
        columns: &[2, 3],
        is_unique: true,
    },
    IndexShape {
        name: b"sqlite_autoindex_uplink_1",
        tree: 14,
        table: 13,
        columns: &[2, 3, 4],
        is_unique: true,
    },
    IndexShape {
        name: b"sqlite_autoindex_copy_1",
        tree: 16,
        table: 15,
        columns: &[1, 2],
        is_unique: true,
    },
    IndexShape {
        name: b"device_owner",
        tree: 18,
        table: 9,
        columns: &[3, 1],
        is_unique: false,
    },
    IndexShape {
        name: b"uplink_start",
        tree: 19,
        table: 13,
        columns: &[2, 6],
        is_unique: false,
    },
    IndexShape {
        name: b"booking_start",
        tree: 20,
        table: 17,
        columns: &[3, 7],
        is_unique: false,
    },
    IndexShape {
        name: b"booking_uplink",
        tree: 21,
        table: 17,
        columns: &[2],
        is_unique: false,
    },
    IndexShape {
        name: b"sqlite_autoindex_band_limit_1",
        tree: 23,
        table: 22,
        columns: &[1, 2],
        is_unique: true,
    },
];

/// The number of indexes in schema 1.
const FIRST_INDEXES: usize = 12;

/// Returns whether the first table is meta, which has the version, and there is no view.
pub(crate) fn has_meta(schema: &Schema) -> bool
    ensures { IsTrue result ↔ HasMeta schema.now }
{
    let Some(first) = schema.tables.as_slice().first() else {
        return false;
    };
    is_table(first, &META) && schema.views.is_empty()
}

/// Returns whether the schema has nothing.
pub(crate) fn is_blank(schema: &Schema) -> bool
    ensures { IsTrue result ↔ (schema.now ≡ no_schema) }
{
    schema.tables.is_empty() && schema.indexes.is_empty() && schema.views.is_empty()
}

/// Returns whether the schema is the desk's, and has nothing else.
pub(crate) fn is_desk(schema: &Schema) -> bool
    ensures { IsTrue result ↔ (schema.now ≡ desk_schema) }
{
    are_tables(schema.tables.as_slice(), TABLES)
        && are_indexes(schema.indexes.as_slice(), INDEXES)
        && schema.views.is_empty()
}

/// Returns whether the schema is schema 1, and has nothing else.
pub(crate) fn is_first_schema(schema: &Schema) -> bool
    ensures { IsTrue result ↔ (schema.now ≡ first_schema) }
{
    are_tables(schema.tables.as_slice(), &TABLES[..FIRST_TABLES])
        && are_indexes(schema.indexes.as_slice(), &INDEXES[..FIRST_INDEXES])
        && schema.views.is_empty()
}

fn is_any_table(schema: &Schema, shapes: &[TableShape<'_>]) -> bool
    ensures { result ≡ list_any (λ shape. is_used schema.now shape.name.now) shapes.now }
{
    shapes.iter().any(|shape| is_used(schema, shape.name))
}

fn is_any_index(schema: &Schema, shapes: &[IndexShape<'_>]) -> bool
    ensures { result ≡ list_any (λ shape. not shape.is_unique && is_used schema.now shape.name.now) shapes.now }
{
    shapes
        .iter()
        .any(|shape| !shape.is_unique && is_used(schema, shape.name))
}

/// Returns whether one of the names of the desk's tables is taken, or of those indexes that have a statement of their own.
pub(crate) fn is_taken(schema: &Schema) -> bool
    ensures { IsTrue result ↔ IsTaken schema.now }
{
    is_any_table(schema, TABLES) || is_any_index(schema, INDEXES)
}

/// Returns whether the name of the table that schema 1 lacks is taken.
pub(crate) fn is_limit_taken(schema: &Schema) -> bool
    ensures { result ≡ is_used schema.now limit_name }
{
    let table = &LIMIT;
    is_used(schema, table.name)
}
