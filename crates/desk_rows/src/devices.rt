//! The table of devices.
ghost use Rattle.std.specs.Prelude.{◌≡◌, [], ◌∷◌, ℕ, Option, codes, None, Some, IfOk, IfSome, IsTrue};
ghost use Rattle.desk_rows.specs.Calls.{Changes, Returns, ReturnsList};
ghost use Rattle.sqlite_value.specs.declared.value.Value.TheVariants.{Text};
ghost use Rattle.registry_core.specs.declared.facts.Device.{Device};
ghost use Rattle.registry_core.specs.Ranges.{IsEui, IsName};
ghost use Rattle.registry_core.specs.Reports.{is_after};
ghost use Rattle.desk_rows.specs.order.Listed.{devices_listed};
ghost use Rattle.desk_rows.specs.steps.Queries.{above_only};
ghost use Rattle.desk_rows.specs.steps.Texts.{AsksFor, all_asked, device_after_asked};
ghost use Rattle.desk_rows.specs.Rows.{eui, last_number, number, or_null};
ghost use Rattle.desk_rows.specs.Written.{device_added, device_moved, floor_changed};
ghost use Rattle.desk_rows.specs.Found.{floor_found, next_device_of};
ghost use Rattle.desk_rows.specs.order.Facts.{facts_in};

use crate::columns::{eui_at, name_at, number_at};
use crate::faults::RowFault;
use crate::queries::{FromRow, find, find_all};
use crate::values::{blob, json_integer, octets_of, text};
use crate::writes::write;
use radio_core::{Eui, Name};
use registry_core::{Device, JsonInteger};
use sqlite::{Alter, Connection, Row, Transaction};
use sqlite_value::value::ValueRef;
use std::alloc::Global;

impl FromRow for Device {
    ghost Seen = { Device };

    ghost seen = { λ device. device };

    ghost shows = { λ device. eui device.join_eui ∷ Text device.owner ∷ [] };

    ghost InRange = { λ device. IsEui device.join_eui × IsName device.owner };

    fn from_row(row: &Row) -> Result<Device, RowFault> {
        let join_eui = eui_at(row, 0)?;
        let owner = name_at(row, 1)?;
        Ok(Device { join_eui, owner })
    }
}

/// Returns the device with this DevEUI, `None` if there is none.
pub fn device<S: Alter>(conn: &mut Connection<S>, dev_eui: Eui) -> Result<Option<Device>, RowFault>
    ensures { Returns S.Store conn.old conn.new result (λ r. (facts_in r).devices dev_eui) }
{
    let eui = octets_of(dev_eui);
    find(
        conn,
        "SELECT join_eui, owner FROM device WHERE eui = ?1 ORDER BY rowid",
        &[blob(&eui)],
    )
}

/// Returns the number of the last device, `None` if there is none. It is the number of devices.
pub fn last_device<S: Alter>(conn: &mut Connection<S>) -> Result<Option<u64>, RowFault>
    ensures { Returns S.Store conn.old conn.new result (λ r. last_number r.devices) }
{
    find(
        conn,
        "SELECT rowid FROM device ORDER BY rowid DESC LIMIT 1",
        &[],
    )
}

/// A session's number, if there is one.
impl FromRow for Option<u64> {
    ghost Seen = { Option ℕ };

    ghost seen = { λ number. number };

    ghost shows = { λ n. or_null number n ∷ [] };

    ghost InRange = { λ number. Unit {0} };

    fn from_row(row: &Row) -> Result<Option<u64>, RowFault> {
        match row.get_ref(0) {
            Ok(ValueRef::Null) => Ok(None),
            _ => Ok(Some(number_at(row, 0)?)),
        }
    }
}

/// Returns the floor of the device with this DevEUI: the greatest number of a session of it that has a data uplink. `None` if there is no
/// such device, and `Some(None)` if it has no such session.
pub fn floor_of<S: Alter>(
    conn: &mut Connection<S>,
    dev_eui: Eui,
) -> Result<Option<Option<u64>>, RowFault>
    ensures { Returns S.Store conn.old conn.new result (floor_found dev_eui) }
{
    let eui = octets_of(dev_eui);
    find(
        conn,
        "SELECT floor FROM device WHERE eui = ?1 ORDER BY rowid",
        &[blob(&eui)],
    )
}

impl FromRow for Eui {
    ghost Seen = { ℕ };

    ghost seen = { λ dev_eui. dev_eui };

    ghost shows = { λ dev_eui. eui dev_eui ∷ [] };

    ghost InRange = { IsEui };

    #[tactic(auto, using(crate::proofs::NextDevice::eui_read))]
    fn from_row(row: &Row) -> Result<Eui, RowFault> {
        eui_at(row, 0)
    }
}

/// Returns the least DevEUI of the owner's devices.
fn first_device<S: Alter>(conn: &mut Connection<S>, owner: &Name) -> Result<Option<Eui>, RowFault>
    ensures { Returns S.Store conn.old conn.new result (next_device_of owner.now None) }
{
    find(
        conn,
        "SELECT eui FROM device WHERE owner = ?1 ORDER BY eui, rowid LIMIT 1",
        &[text(owner)],
    )
}

/// The text of the look-up of an owner's next device.
#[tactic(auto, unfolding(sqlite::specs::Listing::understood, sqlite_tied::specs::Compute::everything))]
fn device_after_text() -> &'static str
    ensures { AsksFor result.now 2 device_after_asked (codes "eui" ∷ []) }
{
    "SELECT eui FROM device WHERE owner = ?1 AND eui > ?2 ORDER BY eui, rowid LIMIT 1"
}

/// Returns the least of them above `after`.
fn device_after<S: Alter>(
    conn: &mut Connection<S>,
    owner: &Name,
    after: Eui,
) -> Result<Option<Eui>, RowFault>
    ensures { Returns S.Store conn.old conn.new result (next_device_of owner.now (Some after)) }
{
    let octets = octets_of(after);
    find(conn, device_after_text(), &[text(owner), blob(&octets)])
}

fn is_after(next: Eui, after: Option<Eui>) -> bool
    ensures { result ≡ is_after after next }
{
    match after {
        Some(last) => last < next,
        None => true,
    }
}

/// Returns what was found, if it is above `after`.
fn above(found: Result<Option<Eui>, RowFault>, after: Option<Eui>) -> Result<Option<Eui>, RowFault>
    ensures { result ≡ above_only after found }
{
    match found {
        Ok(Some(next)) => {
            if is_after(next, after) {
                Ok(Some(next))
            } else {
                Err(RowFault::Row)
            }
        }
        Ok(None) => Ok(None),
        Err(fault) => Err(fault),
    }
}

/// Returns the least DevEUI of the owner's devices, of those above `after` if that is given; `None` if there is none. What it returns is
/// above `after` whatever the database has.
pub fn next_device<S: Alter>(
    conn: &mut Connection<S>,
    owner: &Name,
    after: Option<Eui>,
) -> Result<Option<Eui>, RowFault>
    ensures reads { Returns S.Store conn.old conn.new result (next_device_of owner.now after) }
    ensures rises { IfOk result (λ next. IfSome next (λ dev_eui. IsTrue (is_after after dev_eui))) }
{
    match after {
        Some(last) => above(device_after(conn, owner, last), after),
        None => first_device(conn, owner),
    }
}

/// The text of the look-up of all devices.
#[tactic(auto, unfolding(sqlite::specs::Listing::understood, sqlite_tied::specs::Compute::everything))]
fn device_euis_text() -> &'static str
    ensures { AsksFor result.now 0 (all_asked 9) (codes "eui" ∷ []) }
{
    "SELECT eui FROM device ORDER BY eui, rowid"
}

/// Returns the DevEUIs of all devices, in order.
pub fn device_euis<S: Alter>(alloc: Global, conn: &mut Connection<S>) -> Result<Vec<Eui>, RowFault>
    ensures { ReturnsList S.Store conn.old conn.new result (λ r. devices_listed r.devices) }
{
    find_all(alloc, conn, device_euis_text(), &[])
}

/// Adds a device none of whose sessions has a data uplink.
pub fn insert_device<S: Alter>(
    tx: &mut Transaction<'_, S>,
    dev_eui: Eui,
    device: &Device,
) -> Result<(), RowFault>
    ensures same_reference { tx.new.conn.ghost_name ≡ tx.old.conn.ghost_name }
    ensures changes { Changes S.Store tx.old tx.new result (device_added dev_eui device.now) }
{
    let eui = octets_of(dev_eui);
    let join_eui = octets_of(device.join_eui);
    write(
        tx,
        "INSERT INTO device (eui, join_eui, owner) VALUES (?1, ?2, ?3)",
        &[blob(&eui), blob(&join_eui), text(&device.owner)],
    )
}

/// Moves the device with this DevEUI to another owner.
pub fn move_device<S: Alter>(
    tx: &mut Transaction<'_, S>,
    dev_eui: Eui,
    owner: &Name,
) -> Result<(), RowFault>
    ensures same_reference { tx.new.conn.ghost_name ≡ tx.old.conn.ghost_name }
    ensures changes { Changes S.Store tx.old tx.new result (device_moved dev_eui owner.now) }
{
    let eui = octets_of(dev_eui);
    write(
        tx,
        "UPDATE device SET owner = ?2 WHERE eui = ?1",
        &[blob(&eui), text(owner)],
    )
}

/// Sets the device's floor: the greatest number of a session of it that has a data uplink.
pub fn set_floor<S: Alter>(
    tx: &mut Transaction<'_, S>,
    dev_eui: Eui,
    session: JsonInteger,
) -> Result<(), RowFault>
    ensures same_reference { tx.new.conn.ghost_name ≡ tx.old.conn.ghost_name }
    ensures changes { Changes S.Store tx.old tx.new result (floor_changed dev_eui session) }
{
    let eui = octets_of(dev_eui);
    write(
        tx,
        "UPDATE device SET floor = ?2 WHERE eui = ?1",
        &[blob(&eui), json_integer(session)],
    )
}
