//! Checks that the tables of a database are a desk's.
ghost use Rattle.std.specs.Prelude.{◌≡◌, ◌≢◌, ℤ, false, Err, IfOk, IfErr, OnOk, OnErr};
ghost use Rattle.registry_core.specs.Settings.{Settings};
ghost use Rattle.sqlite.specs.Held.{state};
ghost use Rattle.sqlite.specs.State.{HasCleanDisk, IsUnchanged};
ghost use Rattle.desk_store.specs.Calls.{IsUnavailability};
ghost use Rattle.desk_store.specs.declared.faults.StoreFault.TheVariants.{Exists, NotADesk, SchemaVersion};
ghost use Rattle.desk_rows.specs.Meta.{HasMeta, IsConfig, TellsMeta};
ghost use Rattle.desk_rows.specs.Schema.{desk_schema, schema_version};
ghost use Rattle.desk_rows.specs.Calls.{CommitsNothing, WhenClean};
ghost use Rattle.desk_tables.specs.AtRest.{IsAtRest};
ghost use Rattle.desk_tables.specs.Opening.{HasDesk, HasNoDesk, HasOtherVersion, IfClean, IfOtherVersion, KeepsAll, WhenOpen, WithRows};

use crate::desk_shape::{has_meta, is_desk};
use crate::faults::store_fault;
use desk_rows::read_settings;
use desk_store::StoreFault;
use registry_core::Config;
use sqlite::{Alter, Connection};

/// Returns the configuration in the row of meta, if its version is this one, whatever other tables there are. Returns `NotADesk` if there
/// is no such table or its row isn't in form, and `SchemaVersion` if the row has another version.
pub(crate) fn config_at<S: Alter>(
    conn: &mut Connection<S>,
    version: i64,
) -> Result<Config, StoreFault>
    requires at_rest { IsAtRest conn.old }
    ensures told { HasCleanDisk (state S.Store conn.new) → IfOk result (λ c. HasMeta conn.old.schema × TellsMeta (state S.Store conn.old).now.trees version c) }
    ensures in_order { HasCleanDisk (state S.Store conn.new) → HasMeta conn.old.schema → (c : Settings) → TellsMeta (state S.Store conn.old).now.trees version c
        → IfErr result IsUnavailability }
    ensures not_a_desk { HasCleanDisk (state S.Store conn.new) → result ≡ Err NotADesk → HasMeta conn.old.schema
        → (told : ℤ) (c : Settings) → ¬ TellsMeta (state S.Store conn.old).now.trees told c }
    ensures other_version { HasCleanDisk (state S.Store conn.new) → result ≡ Err SchemaVersion
        → HasMeta conn.old.schema × ((told : ℤ) × (c : Settings) × TellsMeta (state S.Store conn.old).now.trees told c × (told ≢ version)) }
    ensures never { result ≢ Err Exists }
    ensures same { WhenClean S.Store conn.old conn.new (λ old new. OnOk result (IsUnchanged old new)) }
    ensures undone { WhenOpen S.Store conn.old conn.new (λ old new. OnErr result (KeepsAll old new)) }
    ensures settled { WhenOpen S.Store conn.old conn.new (λ old new. new.now ≡ new.committed) }
    ensures idle { conn.new.in_transaction ≡ false }
    ensures crash { CommitsNothing S.Store conn.old conn.new }
{
    // shows that everything is committed
    prove!(conn.is_autocommit());
    if !has_meta(conn.schema()) {
        return Err(StoreFault::NotADesk);
    }
    let (told, config) = match read_settings(conn) {
        Ok(told) => told,
        Err(fault) => return Err(store_fault(fault)),
    };
    if told != version {
        return Err(StoreFault::SchemaVersion);
    }
    Ok(config)
}

/// Returns the configuration of the desk that the database has. Returns `NotADesk` if the schema or the row of meta isn't a desk's, and
/// `SchemaVersion` if that row has another version, whatever other tables there are.
pub fn open_desk<S: Alter>(conn: &mut Connection<S>) -> Result<Config, StoreFault>
    requires at_rest { IsAtRest conn.old }
    ensures desk { IfClean S.Store conn.new (IfOk result (HasDesk S.Store conn.old desk_schema schema_version)) }
    ensures in_order { WithRows S.Store conn.old conn.new (λ r. IfOk result (λ c. c ≡ r.settings)) }
    ensures unavailable { WithRows S.Store conn.old conn.new (λ r. IsConfig r.settings → IfErr result IsUnavailability) }
    ensures not_a_desk { IfClean S.Store conn.new (result ≡ Err NotADesk → HasNoDesk S.Store conn.old desk_schema schema_version) }
    ensures version { IfClean S.Store conn.new (result ≡ Err SchemaVersion → HasOtherVersion S.Store conn.old schema_version) }
    ensures other_version { IfClean S.Store conn.new (IfOtherVersion S.Store conn.old schema_version (result ≢ Err NotADesk)) }
    ensures never { result ≢ Err Exists }
    ensures same { WhenClean S.Store conn.old conn.new (λ old new. OnOk result (IsUnchanged old new)) }
    ensures undone { WhenOpen S.Store conn.old conn.new (λ old new. OnErr result (KeepsAll old new)) }
    ensures settled { WhenOpen S.Store conn.old conn.new (λ old new. new.now ≡ new.committed) }
    ensures idle { conn.new.in_transaction ≡ false }
    ensures crash { CommitsNothing S.Store conn.old conn.new }
{
    let config = config_at(conn, 2)?;
    if !is_desk(conn.schema()) {
        return Err(StoreFault::NotADesk);
    }
    Ok(config)
}
