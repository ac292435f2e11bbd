//! Makes, opens and closes a store over a connection.
ghost use Rattle.std.specs.Prelude.{◌≡◌, ◌≢◌, ◌↔◌, false, IfErr, IfOk};
ghost use Rattle.sqlite.specs.Held.{state};
ghost use Rattle.sqlite.specs.State.{HasCleanDisk};
ghost use Rattle.desk_store.specs.declared.faults.StoreFault.TheVariants.{Exists, NotADesk, SchemaVersion};
ghost use Rattle.desk_rows.specs.Meta.{IsConfig};
ghost use Rattle.desk_rows.specs.Schema.{desk_schema, no_schema, schema_version};
ghost use Rattle.desk_rows.specs.order.Changes.{opening_rows};
ghost use Rattle.desk_tables.specs.Adopting.{ClosesTo, ForDesk, ForWhatItHolds, ForWhereItRests, GivesBack, HasStored, IsNoDesk, IsNot, IsStoreAt, IsStoreOf, IsUnavailable, LeavesItsOwn, OnlyIf, RestsOn, opening_kept};
ghost use Rattle.desk_tables.specs.AtRest.{IsAtRest};
ghost use Rattle.desk_tables.specs.Opening.{HasOtherVersion, IfOtherVersion, IsTaken, TreesHold};
ghost use Rattle.desk_tables.specs.Seen.{nothing};
ghost use Rattle.desk_tables.specs.Store.{meaning_of};
ghost use Rattle.desk_tables.specs.steps.Adopting.{IsAdopted};

use crate::counting::counted;
use crate::faults::store_fault;
use crate::making::make_desk;
use crate::opening::open_desk;
use crate::seen::NOTHING;
use crate::tables::Tables;
use desk_rows::order::opening_rows_tell;
use desk_store::{Counts, StoreFault};
use registry_core::Config;
use sqlite::{Alter, Connection};
use std::alloc::Global;

impl<S: Alter> Tables<S> {
    /// Makes a desk with this configuration in a database that has no table, index or view, and returns its store.
    ///
    /// # Errors
    ///
    /// Returns the error with the connection. If that is still open, the database is as it was.
    ///
    /// - `Exists` if one of the desk's names is taken.
    /// - `NotADesk` if there is another table, index or view.
    /// - `Memory`, `Disk` or `Size` if SQLite failed.
    pub fn create(
        alloc: Global,
        conn: Connection<S>,
        config: Config,
    ) -> Result<Tables<S>, (StoreFault, Connection<S>)>
        requires at_rest { IsAtRest conn }
        ensures made { IfOk result (IsStoreOf S.Store config (opening_kept config)) }
        ensures config { IsConfig config }
        ensures blank { IfOk result (λ t. conn.schema ≡ no_schema) }
        ensures exists { IfErr result (λ back. (back.0 ≡ Exists) ↔ IsTaken conn.schema) }
        ensures not_a_desk { conn.schema ≢ no_schema → ¬ IsTaken conn.schema → IfErr result (λ back. back.0 ≡ NotADesk) }
        ensures unavailable { conn.schema ≡ no_schema → IfErr result (IsUnavailable S.Store) }
        ensures given_back { IfErr result (GivesBack S.Store conn (λ trees. TreesHold trees (opening_rows config))) }
    {
        opening_rows_tell();
        let mut conn = conn;
        match make_desk(&mut conn, &config) {
            Ok(()) => Ok(Tables {
                conn,
                alloc,
                config,
                failed: false,
                not_a_desk: false,
                out_of_space: false,
                heard: 0,
                counts: Counts {
                    sessions: 0,
                    uplinks: 0,
                    bookings: 0,
                },
                seen: NOTHING,
            }),
            Err(fault) => Err((fault, conn)),
        }
    }

    /// Opens the desk that the database has, and returns its store. Nothing is written.
    ///
    /// # Errors
    ///
    /// Returns the error with the connection.
    ///
    /// - `SchemaVersion` if the row of meta has another version, whatever other tables there are.
    /// - `NotADesk` if the schema, the row of meta or the last number of a table isn't a desk's.
    /// - `Memory`, `Disk` or `Size` if SQLite failed.
    pub fn open(
        alloc: Global,
        conn: Connection<S>,
    ) -> Result<Tables<S>, (StoreFault, Connection<S>)>
        requires at_rest { IsAtRest conn }
        ensures desk { IfOk result (IsStoreAt S.Store conn desk_schema schema_version) }
        ensures in_order { ForDesk S.Store conn (λ c kept. IfOk result (IsStoreOf S.Store c kept)) }
        ensures unavailable { ForDesk S.Store conn (λ c kept. IfErr result (IsUnavailable S.Store)) }
        ensures not_a_desk { IfErr result (OnlyIf S.Store NotADesk (IsNoDesk S.Store conn)) }
        ensures version { IfErr result (OnlyIf S.Store SchemaVersion (HasOtherVersion S.Store conn schema_version)) }
        ensures other_version { IfOtherVersion S.Store conn schema_version (IfErr result (IsNot S.Store NotADesk)) }
        ensures never { IfErr result (λ back. back.0 ≢ Exists) }
        ensures rests { IfOk result (RestsOn S.Store conn) }
        ensures clean { IfOk result (λ t. (meaning_of S.Store).sound t → HasCleanDisk (state S.Store conn)) }
        ensures given_back { IfErr result (GivesBack S.Store conn (λ _. ⊥)) }
    {
        let mut conn = conn;
        match open_desk(&mut conn) {
            Ok(config) => Tables::adopt(alloc, conn, config),
            Err(fault) => Err((fault, conn)),
        }
    }

    /// Returns the store over a connection whose tables are a desk's of this configuration, after counting their rows.
    pub(crate) fn adopt(
        alloc: Global,
        conn: Connection<S>,
        config: Config,
    ) -> Result<Tables<S>, (StoreFault, Connection<S>)>
        requires at_rest { IsAtRest conn }
        ensures { IsAdopted S.Store conn config result }
    {
        let mut conn = conn;
        match counted(&mut conn) {
            Ok(counted) => Ok(Tables::over(alloc, conn, config, counted)),
            Err(fault) => Err((store_fault(fault), conn)),
        }
    }

    /// Returns the store over a connection whose tables have this many messages and numbered things.
    pub(crate) fn over(
        alloc: Global,
        conn: Connection<S>,
        config: Config,
        counted: (u64, Counts),
    ) -> Tables<S>
        ensures { result ≡ record { conn = conn; alloc = alloc; config = config; failed = false; not_a_desk = false; out_of_space = false; heard = counted.0; counts = counted.1; seen = nothing } }
    {
        let (heard, counts) = counted;
        Tables {
            conn,
            alloc,
            config,
            failed: false,
            not_a_desk: false,
            out_of_space: false,
            heard,
            counts,
            seen: NOTHING,
        }
    }

    /// Closes the store, and returns its connection. If the store isn't failed and represents something, the database is of a desk that
    /// represents the same, all of it is committed, and the connection is idle, so that it can be opened again. A crash leaves what it left
    /// of the store.
    pub fn close(self) -> Connection<S>
        ensures sound { HasCleanDisk (state S.Store result) → (meaning_of S.Store).sound self }
        ensures in_order { ForWhatItHolds S.Store self (ClosesTo S.Store self result) }
        ensures rest { ForWhatItHolds S.Store self (λ kept. IsAtRest result) }
        ensures stored { ForWhereItRests S.Store self (HasStored S.Store result) }
        ensures left { LeavesItsOwn S.Store self result }
    {
        self.conn
    }
}
