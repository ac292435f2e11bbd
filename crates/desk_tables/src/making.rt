//! Makes a desk in an empty database.
ghost use Rattle.std.specs.Prelude.{◌≡◌, ◌≢◌, ◌↔◌, false, None, Err, IsTrue, IfErr, OnOk, OnErr};
ghost use Rattle.sqlite_trees.specs.Tree.{Trees};
ghost use Rattle.sqlite.specs.Held.{state};
ghost use Rattle.sqlite.specs.State.{HasCleanDisk, KeepsCommit, Survives};
ghost use Rattle.desk_store.specs.Calls.{IsUnavailability};
ghost use Rattle.desk_store.specs.declared.faults.StoreFault.TheVariants.{Exists, NotADesk};
ghost use Rattle.registry_core.specs.declared.messages.Role.TheVariants.{Operator};
ghost use Rattle.desk_rows.specs.Calls.{Changes, WritesInside};
ghost use Rattle.desk_rows.specs.Faults.{IsEven};
ghost use Rattle.desk_rows.specs.Making.{IsBare};
ghost use Rattle.desk_rows.specs.Rows.{Holds};
ghost use Rattle.desk_rows.specs.Schema.{no_schema};
ghost use Rattle.desk_rows.specs.Written.{sender_added};
ghost use Rattle.desk_rows.specs.order.Changes.{opening_rows};
ghost use Rattle.desk_tables.specs.AtRest.{IsAtRest};
ghost use Rattle.desk_tables.specs.Opening.{IsTaken, KeepsAll, TreesHold, WhenOpen};

use crate::desk_shape::{is_blank, is_taken};
use crate::faults::store_fault;
use desk_rows::{RowFault, create_tables, fault_of, insert_sender, insert_settings};
use desk_store::StoreFault;
use registry_core::{Config, Role};
use sqlite::{Alter, Connection, Error, Transaction};

/// Adds the configured operator, as a sender.
fn insert_operator<S: Alter>(tx: &mut Transaction<'_, S>, config: &Config) -> Result<(), RowFault>
    ensures same_reference { tx.new.conn.ghost_name ≡ tx.old.conn.ghost_name }
    ensures changes { Changes S.Store tx.old tx.new result (sender_added config.now.operator Operator) }
{
    insert_sender(tx, config.operator(), Role::Operator)
}

/// Writes the configuration of the desk, and its operator.
fn insert_first_rows<S: Alter>(tx: &mut Transaction<'_, S>, config: &Config) -> Result<(), RowFault>
    ensures same_reference { tx.new.conn.ghost_name ≡ tx.old.conn.ghost_name }
    ensures write { WritesInside S.Store tx.old tx.new result }
    ensures kept { HasCleanDisk (state S.Store tx.new.conn.now) → IsTrue (state S.Store tx.old.conn.now).in_transaction → IsTrue (state S.Store tx.old.conn.now).is_open
        → KeepsCommit (state S.Store tx.old.conn.now) (state S.Store tx.new.conn.now) }
    ensures made { HasCleanDisk (state S.Store tx.new.conn.now) → IsTrue (state S.Store tx.old.conn.now).in_transaction → IsTrue (state S.Store tx.old.conn.now).is_open
        → IsBare (state S.Store tx.old.conn.now).now → OnOk result (Holds (state S.Store tx.new.conn.now).now (opening_rows config.now)) }
    ensures in_order { HasCleanDisk (state S.Store tx.new.conn.now) → IsTrue (state S.Store tx.old.conn.now).in_transaction → IsTrue (state S.Store tx.old.conn.now).is_open
        → (state S.Store tx.old.conn.now).step_limit ≡ None → IsBare (state S.Store tx.old.conn.now).now → IfErr result IsEven }
{
    insert_settings(tx, config)?;
    insert_operator(tx, config)
}

/// Returns why tables couldn't be made or moved: whatever is neither `Memory` nor `Size` is `Disk`.
pub(crate) fn commit_fault(error: Error) -> RowFault
    ensures { IsEven result }
{
    match fault_of(error) {
        RowFault::Row | RowFault::Refused => RowFault::Disk,
        fault => fault,
    }
}

/// Makes the tables and the first rows, or nothing.
fn make_all<S: Alter>(conn: &mut Connection<S>, config: &Config) -> Result<(), RowFault>
    requires idle { conn.old.in_transaction ≡ false }
    requires blank { conn.old.schema ≡ no_schema }
    ensures made { HasCleanDisk (state S.Store conn.new) → OnOk result (Holds (state S.Store conn.new).now (opening_rows config.now)) }
    ensures committed { HasCleanDisk (state S.Store conn.new) → OnOk result ((state S.Store conn.new).committed ≡ (state S.Store conn.new).now) }
    ensures open { HasCleanDisk (state S.Store conn.new) → OnOk result (IsTrue (state S.Store conn.new).is_open) }
    ensures was_open { HasCleanDisk (state S.Store conn.new) → IsTrue (state S.Store conn.new).is_open → IsTrue (state S.Store conn.old).is_open }
    ensures neither { HasCleanDisk (state S.Store conn.new) → IsTrue (state S.Store conn.new).is_open
        → OnErr result (((state S.Store conn.new).now ≡ (state S.Store conn.old).committed) × ((state S.Store conn.new).committed ≡ (state S.Store conn.old).committed)) }
    ensures mode { conn.new.in_transaction ≡ false }
    ensures crash { Survives (state S.Store conn.old) (state S.Store conn.new) (λ trees. TreesHold trees (opening_rows config.now)) }
    ensures in_order { HasCleanDisk (state S.Store conn.new) → conn.old.step_limit ≡ None → IfErr result IsEven }
{
    let mut tx = conn.transaction();
    create_tables(&mut tx)?;
    insert_first_rows(&mut tx, config)?;
    match tx.commit() {
        Ok(()) => Ok(()),
        Err(error) => Err(commit_fault(error)),
    }
}

/// Makes a desk in a database that has no table, index or view. Returns `Exists` if one of the desk's names is taken, and else `NotADesk`
/// if there is another table, index or view, which may refer to a desk's tables.
pub(crate) fn make_desk<S: Alter>(
    conn: &mut Connection<S>,
    config: &Config,
) -> Result<(), StoreFault>
    requires at_rest { IsAtRest conn.old }
    ensures blank { OnOk result (conn.old.schema ≡ no_schema) }
    ensures exists { (result ≡ Err Exists) ↔ IsTaken conn.old.schema }
    ensures not_a_desk { conn.old.schema ≢ no_schema → ¬ IsTaken conn.old.schema → result ≡ Err NotADesk }
    ensures made { HasCleanDisk (state S.Store conn.new) → OnOk result (Holds (state S.Store conn.new).now (opening_rows config.now)) }
    ensures open { HasCleanDisk (state S.Store conn.new) → OnOk result (IsTrue (state S.Store conn.new).is_open) }
    ensures left { HasCleanDisk (state S.Store conn.new) → OnOk result ((trees : Trees) → (state S.Store conn.new).may_leave trees → TreesHold trees (opening_rows config.now)) }
    ensures undone { WhenOpen S.Store conn.old conn.new (λ old new. OnErr result (KeepsAll old new)) }
    ensures settled { WhenOpen S.Store conn.old conn.new (λ old new. new.now ≡ new.committed) }
    ensures idle { conn.new.in_transaction ≡ false }
    ensures crash { Survives (state S.Store conn.old) (state S.Store conn.new) (λ trees. TreesHold trees (opening_rows config.now)) }
    ensures unavailable { HasCleanDisk (state S.Store conn.new) → conn.old.schema ≡ no_schema → IfErr result IsUnavailability }
{
    // shows that everything is committed
    prove!(conn.is_autocommit());
    if !is_blank(conn.schema()) {
        return Err(if is_taken(conn.schema()) {
            StoreFault::Exists
        } else {
            StoreFault::NotADesk
        });
    }
    match make_all(conn, config) {
        Ok(()) => Ok(()),
        Err(fault) => Err(store_fault(fault)),
    }
}
