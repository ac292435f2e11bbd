//! The table of receptions of uplinks.
ghost use Rattle.std.specs.Prelude.{◌≡◌, ◌<◌, ◌^◌, [], ◌∷◌, codes};
ghost use Rattle.desk_rows.specs.Calls.{Changes, Returns, ReturnsList};
ghost use Rattle.registry_core.specs.declared.facts.Reception.{Reception};
ghost use Rattle.registry_core.specs.JsonIntegers.{IsJsonInteger};
ghost use Rattle.desk_rows.specs.order.Listed.{gateways_listed};
ghost use Rattle.desk_rows.specs.steps.Shown.{reception_shown};
ghost use Rattle.desk_rows.specs.steps.Texts.{AsksFor, InsertsRow, gateways_asked};
ghost use Rattle.sqlite_sql.specs.Term.{lit, col};
ghost use Rattle.sqlite_value.specs.declared.value.Value.TheVariants.{Null};
ghost use Rattle.desk_rows.specs.Written.{reception_added};
ghost use Rattle.desk_rows.specs.order.Facts.{facts_in};

use crate::columns::{data_rate_at, json_integer_at, word_at};
use crate::faults::RowFault;
use crate::queries::{FromRow, find, find_all};
use crate::values::{data_rate, json_integer, text, unsigned, word};
use crate::writes::write;
use radio_core::{Name, Rate};
use registry_core::{JsonInteger, Reception};
use sqlite::{Alter, Connection, Row, Transaction};
use std::alloc::Global;

impl FromRow for Reception {
    ghost Seen = { Reception };

    ghost seen = { λ reception. reception };

    ghost shows = { reception_shown };

    ghost InRange = { λ reception. IsJsonInteger reception.end × (reception.rate.freq < 2 ^ 32) };

    fn from_row(row: &Row) -> Result<Reception, RowFault> {
        let end = json_integer_at(row, 0)?;
        let freq = word_at(row, 1)?;
        let dr = data_rate_at(row, 2)?;
        Ok(Reception {
            end,
            rate: Rate { freq, dr },
        })
    }
}

/// Returns the reception of an uplink at a gateway, `None` if there is none.
pub fn reception_at<S: Alter>(
    conn: &mut Connection<S>,
    uplink: JsonInteger,
    gateway: &Name,
) -> Result<Option<Reception>, RowFault>
    ensures { Returns S.Store conn.old conn.new result (λ r. (facts_in r).receptions uplink gateway.now) }
{
    find(
        conn,
        "SELECT ended, freq, dr FROM copy WHERE uplink = ?1 AND gateway = ?2 ORDER BY rowid",
        &[json_integer(uplink), text(gateway)],
    )
}

/// Returns the SQL text of the look-up of the gateways of an uplink's receptions.
#[tactic(auto, unfolding(sqlite::specs::Listing::understood, sqlite_tied::specs::Compute::everything))]
fn gateways_text() -> &'static str
    ensures { AsksFor result.now 1 gateways_asked (codes "gateway" ∷ []) }
{
    "SELECT gateway FROM copy WHERE uplink = ?1 ORDER BY gateway, rowid"
}

/// Returns the names of the gateways that reported a reception of the uplink, ordered by their octets.
pub fn gateways_of<S: Alter>(
    alloc: Global,
    conn: &mut Connection<S>,
    uplink: JsonInteger,
) -> Result<Vec<Name>, RowFault>
    ensures { ReturnsList S.Store conn.old conn.new result (λ r. gateways_listed uplink r.receptions) }
{
    find_all(alloc, conn, gateways_text(), &[json_integer(uplink)])
}

/// The text of the statement that adds a reception.
#[tactic(auto, unfolding(sqlite::specs::Listing::understood, sqlite_tied::specs::Compute::everything))]
fn reception_text() -> &'static str
    ensures { InsertsRow result.now 5 8 (lit Null ∷ col 0 0 ∷ col 0 1 ∷ col 0 2 ∷ col 0 3 ∷ col 0 4 ∷ []) 6 }
{
    "INSERT INTO copy (uplink, gateway, ended, freq, dr) VALUES (?1, ?2, ?3, ?4, ?5)"
}

/// Adds the reception of an uplink at a gateway.
pub fn insert_reception<S: Alter>(
    tx: &mut Transaction<'_, S>,
    uplink: u64,
    gateway: &Name,
    reception: &Reception,
) -> Result<(), RowFault>
    ensures same_reference { tx.new.conn.ghost_name ≡ tx.old.conn.ghost_name }
    ensures changes { Changes S.Store tx.old tx.new result (reception_added uplink gateway.now reception.now) }
{
    write(
        tx,
        reception_text(),
        &[
            unsigned(uplink),
            text(gateway),
            json_integer(reception.end),
            word(reception.rate.freq),
            data_rate(reception.rate.dr),
        ],
    )
}
