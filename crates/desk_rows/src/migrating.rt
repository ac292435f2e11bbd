//! The two statements that move a desk from schema 1 to schema 2. The rows stay.
ghost use Rattle.std.specs.Prelude.{◌≡◌, None, IfErr};
ghost use Rattle.desk_rows.specs.Calls.{KeepsRows, LeadsTo, WhenInside, WritesInside};
ghost use Rattle.desk_rows.specs.Faults.{IsEven};
ghost use Rattle.desk_rows.specs.Migrating.{HoldsBetween, HoldsFirst, IsLimitTaken};
ghost use Rattle.desk_rows.specs.Rows.{Holds, Rows};

use crate::faults::RowFault;
use crate::writes::write;
use sqlite::{Alter, Transaction};

/// Adds the table of limits, empty, to the ten tables. Fails if a table, an index or a view has its name.
pub fn create_limits<S: Alter>(tx: &mut Transaction<'_, S>) -> Result<(), RowFault>
    ensures same_reference { tx.new.conn.ghost_name ≡ tx.old.conn.ghost_name }
    ensures write { WritesInside S.Store tx.old tx.new result }
    ensures made { KeepsRows S.Store tx.old tx.new result HoldsFirst HoldsBetween }
    ensures taken { LeadsTo S.Store tx.old tx.new result (λ db. IsLimitTaken db.schema) (λ _. ⊥) }
    ensures in_order { WhenInside S.Store tx.old tx.new
        (λ old new. (r : Rows) → HoldsFirst old.now r → IfErr result IsEven) }
{
    write(
        tx,
        "CREATE TABLE band_limit (gateway TEXT NOT NULL, band INTEGER NOT NULL, value INTEGER NOT NULL, PRIMARY KEY (gateway, band)) STRICT",
        &[],
    )
}

/// Sets the version in meta to 2, after the table of limits was added. All other rows stay.
pub fn raise_version<S: Alter>(tx: &mut Transaction<'_, S>) -> Result<(), RowFault>
    ensures same_reference { tx.new.conn.ghost_name ≡ tx.old.conn.ghost_name }
    ensures write { WritesInside S.Store tx.old tx.new result }
    ensures made { KeepsRows S.Store tx.old tx.new result HoldsBetween Holds }
    ensures in_order { WhenInside S.Store tx.old tx.new
        (λ old new. old.step_limit ≡ None → (r : Rows) → HoldsBetween old.now r → IfErr result IsEven) }
{
    write(tx, "UPDATE meta SET version = 2 WHERE id = 1", &[])
}
