//! The list of devices, and the line of a device.
ghost use Rattle.std.specs.Prelude.{◌≡◌, ◌+◌, ◌-◌, ◌%◌, ◌++◌, IfOk};
ghost use Rattle.std.specs.Fmt.{decimal};
ghost use Rattle.std.specs.String.{string_bytes};
ghost use Rattle.registry_core.specs.Listing.{sessions_of};
ghost use Rattle.desk_store.specs.Calls.{IsRead, Tells, fault_in};
ghost use Rattle.desk_wire.specs.Hexadecimal.{addr_digits};
ghost use Rattle.desk_engine.specs.Listing.{IsDeviceList, device_list_line, devices_header, latest_of, listed_device_line, or_empty};
ghost use Rattle.desk_engine.specs.steps.Listing.{IsTraffic, device_list_columns, session_columns, sessions_text, traffic_columns};

use crate::columns::{counter_or_empty, number_or_empty};
use crate::tables::{TextOf, table};
use desk_store::{Keeper, StoreFault};
use desk_wire::{addr_digits, eui_digits};
use radio_core::{DevAddr, Eui};
use registry_core::Device;
use std::alloc::{AllocError, Global};

/// The names of the columns.
const HEADER: &str =
    "dev_eui,join_eui,owner,sessions,dev_addr,last_nonce,last_counter,next_downlink_counter,last_start_us\n";

/// Returns the header, and a line for each device, ordered by DevEUI.
pub(crate) fn devices_text<K: Keeper>(alloc: Global, keeper: &mut K) -> Result<String, StoreFault>
    ensures read { IsRead K.meaning keeper.old keeper.new (fault_in result) }
    ensures told { Tells K.meaning keeper.old keeper.new result
        (λ kept text. IsDeviceList (K.meaning.configuration keeper.old) kept.facts (string_bytes text)) }
{
    let devices = keeper.devices()?;
    table(alloc, keeper, HEADER, &devices, &DeviceLine)
}

/// Returns the header, and the line of this device.
pub(crate) fn device_with_header<K: Keeper>(
    alloc: Global,
    keeper: &mut K,
    dev_eui: Eui,
    device: &Device,
) -> Result<String, StoreFault>
    ensures read { IsRead K.meaning keeper.old keeper.new (fault_in result) }
    ensures told { Tells K.meaning keeper.old keeper.new result (λ kept text. string_bytes text
        ≡ devices_header ++ device_list_line (K.meaning.configuration keeper.old) kept.facts dev_eui device.now (sessions_of kept.facts.sessions dev_eui)) }
{
    let line = line_of(alloc, keeper, dev_eui, device)?;
    let mut text = String::new(alloc);
    text.push_str(HEADER)?;
    text.push_str(line.as_str())?;
    Ok(text)
}

/// The line of a device.
struct DeviceLine;

impl TextOf<Eui> for DeviceLine {
    ghost written = { λ _ c kept dev_eui. listed_device_line c kept.facts dev_eui };

    fn text<K: Keeper>(
        &self,
        alloc: Global,
        keeper: &mut K,
        dev_eui: &Eui,
    ) -> Result<String, StoreFault> {
        match keeper.device(*dev_eui)? {
            Some(device) => line_of(alloc, keeper, *dev_eui, &device),
            None => Ok(String::new(alloc)),
        }
    }
}

/// Returns the line of this device.
fn line_of<K: Keeper>(
    alloc: Global,
    keeper: &mut K,
    dev_eui: Eui,
    device: &Device,
) -> Result<String, StoreFault>
    ensures read { IsRead K.meaning keeper.old keeper.new (fault_in result) }
    ensures told { Tells K.meaning keeper.old keeper.new result (λ kept text. string_bytes text
        ≡ device_list_line (K.meaning.configuration keeper.old) kept.facts dev_eui device.now (sessions_of kept.facts.sessions dev_eui)) }
{
    let rest = sessions_text(alloc, keeper, dev_eui)?;
    Ok(device_list_columns(alloc, dev_eui, device, rest.as_str())?)
}

/// Returns the columns of a device's sessions, the last of its line, with LF.
fn sessions_text<K: Keeper>(
    alloc: Global,
    keeper: &mut K,
    dev_eui: Eui,
) -> Result<String, StoreFault>
    ensures read { IsRead K.meaning keeper.old keeper.new (fault_in result) }
    ensures told { Tells K.meaning keeper.old keeper.new result (λ kept text. string_bytes text
        ≡ sessions_text (K.meaning.configuration keeper.old) kept.facts dev_eui (sessions_of kept.facts.sessions dev_eui)) }
{
    let base = keeper.config().base();
    let sessions = keeper.sessions_of(dev_eui)?;
    let last_nonce = keeper.last_nonce(dev_eui)?;
    let latest = latest_of(&sessions);
    let traffic = traffic_of(keeper, latest)?;
    let address = address_or_empty(alloc, base, latest)?;
    let nonce = nonce_or_empty(alloc, last_nonce)?;
    let rest = traffic_columns(alloc, &traffic)?;
    let count = sessions.len();
    Ok(session_columns(
        alloc,
        count,
        address.as_str(),
        nonce.as_str(),
        rest.as_str(),
    )?)
}

/// Returns the latest session, of the numbers of a device's sessions.
fn latest_of(sessions: &[u64]) -> Option<u64>
    ensures { result ≡ latest_of sessions.now }
{
    sessions.last().copied()
}

/// What was received and is to be sent in a session. Nothing if there is no session.
#[derive(Drop)]
struct Traffic {
    /// The last frame counter of its data uplinks.
    last_counter: Option<u32>,
    /// The next downlink counter.
    next_down: Option<u64>,
    /// The greatest start of its uplinks, in microseconds since 1970 UTC.
    last_start: Option<u64>,
}

/// Returns the traffic of a session.
fn traffic_of<K: Keeper>(keeper: &mut K, session: Option<u64>) -> Result<Traffic, StoreFault>
    ensures read { IsRead K.meaning keeper.old keeper.new (fault_in result) }
    ensures told { Tells K.meaning keeper.old keeper.new result (λ kept traffic. IsTraffic kept.facts session traffic) }
{
    let Some(number) = session else {
        return Ok(Traffic {
            last_counter: None,
            next_down: None,
            last_start: None,
        });
    };
    Ok(Traffic {
        last_counter: keeper.last_counter(number)?,
        next_down: Some(keeper.next_down(number)?),
        last_start: keeper.last_start(number)?,
    })
}

/// Returns the digits of a session's address, nothing if there is no session. `base` is the first address of the block.
#[tactic(auto, using(crate::proofs::Addresses::low_digits))]
fn address_or_empty(alloc: Global, base: u32, session: Option<u64>) -> Result<String, AllocError>
    ensures { IfOk result (λ text. string_bytes text ≡ or_empty (λ n. addr_digits (base + n - 1)) session) }
{
    match session {
        Some(number) => addr_digits(alloc, address_of(base, number)),
        None => Ok(String::new(alloc)),
    }
}

/// Returns the address of the session with this number, modulo 2^32. The addresses of a log's sessions are below that.
fn address_of(base: u32, session: u64) -> DevAddr
    ensures { result ≡ (base + session - 1) % 4294967296 }
{
    let address = (u128::from(base) + u128::from(session)).saturating_sub(1);
    DevAddr::new((address % 4_294_967_296) as u32)
}

/// Returns the decimal digits of a DevNonce, nothing if there is none.
fn nonce_or_empty(alloc: Global, nonce: Option<u16>) -> Result<String, AllocError>
    ensures { IfOk result (λ text. string_bytes text ≡ or_empty decimal nonce) }
{
    number_or_empty(alloc, nonce.map(u64::from))
}

/// Returns the columns of a session's traffic, with LF.
fn traffic_columns(alloc: Global, traffic: &Traffic) -> Result<String, AllocError>
    ensures { IfOk result (λ text. string_bytes text
        ≡ traffic_columns traffic.now.last_counter traffic.now.next_down traffic.now.last_start) }
{
    let counter = counter_or_empty(alloc, traffic.last_counter)?;
    let next_down = number_or_empty(alloc, traffic.next_down)?;
    let start = number_or_empty(alloc, traffic.last_start)?;
    let (counter, next_down, start) = (counter.as_str(), next_down.as_str(), start.as_str());
    format!(in alloc; "{counter},{next_down},{start}\n")
}

/// Returns the columns of a device's sessions, followed by the rest of the line.
fn session_columns(
    alloc: Global,
    count: usize,
    address: &str,
    nonce: &str,
    rest: &str,
) -> Result<String, AllocError>
    ensures { IfOk result (λ text. string_bytes text ≡ session_columns count address.now nonce.now rest.now) }
{
    format!(in alloc; "{count},{address},{nonce},{rest}")
}

/// Returns the columns of a device, followed by the rest of the line.
fn device_list_columns(
    alloc: Global,
    dev_eui: Eui,
    device: &Device,
    rest: &str,
) -> Result<String, AllocError>
    ensures { IfOk result (λ text. string_bytes text ≡ device_list_columns dev_eui device.now rest.now) }
{
    let dev_eui = eui_digits(alloc, dev_eui)?;
    let join_eui = eui_digits(alloc, device.join_eui)?;
    let (dev_eui, join_eui, owner) = (dev_eui.as_str(), join_eui.as_str(), device.owner.as_str());
    format!(in alloc; "{dev_eui},{join_eui},{owner},{rest}")
}
