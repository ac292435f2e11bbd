//! Messages of each type, the rows that they leave, and a desk that is found again after the machine has stopped.
use super::data_frames::HEARD;
use super::downlinks::{ACCEPT, DEVICE_EUI, DOWN, DROPPED_1};
use super::holding::holds;
use super::joins::{FIRST, FIRST_ADDED};
use super::limits::HALF_OF_B3;
use super::rows::Exchange::{Asks, Books, Frames, Joins};
use super::rows::Told::{Booked, Framed};
use super::rows::{
    BRIDGE, CITY, DEVICE, DEVICE_TO_CITY, Delivery, Down, Exchange, GATEWAY_A, GATEWAY_B, Heard,
    SUCCESS, TOWN, delivery_of,
};
use super::runs::{expect_outcomes, texts_of};
use super::{config, found, made, told_each};
use crate::on_tables::run_in_memory;
use crate::stopping::run_through_stop;
use desk_engine::{Outcome, run_from_nothing};
use desk_store::{Lists, StoreFault};
use registry_core::Config;
use sqlite::{Alter, Connection, MemStore};
use std::alloc::{AllocError, Global};
use std::fmt::Write;
use std::process::Abort;
use std::test::Fail;

#[rattlefmt::skip]
static MESSAGES: [Exchange; 10] = [
    Asks("office", 1, "OwnerAdd", TOWN, SUCCESS),
    Asks("office", 2, "SenderAdd", BRIDGE, SUCCESS),
    Asks("office", 3, "GatewayAdd", GATEWAY_A, SUCCESS),
    Asks("office", 4, "GatewayAdd", GATEWAY_B, SUCCESS),
    Asks("office", 5, "DeviceAdd", DEVICE, SUCCESS),
    Joins("bridge", 10, FIRST, FIRST_ADDED),
    Frames("bridge", 11, HEARD, Framed(41_216, "B3", false, 0, DEVICE_EUI, 2)),
    Frames("bridge", 12, Heard { gateway: "gw-b", time: 1_706_745_700_041_220, ..HEARD }, Framed(41_216, "B3", true, 0, DEVICE_EUI, 2)),
    Books("bridge", 13, Down { uplink: 1, octets: ACCEPT, ..DOWN }, Booked(46_336, "B3", 1, 1_706_745_605_061_696)),
    Asks("bridge", 14, "DownDone", DROPPED_1, SUCCESS),
];

/// What comes after them: the types that are left, and what they need. A file of schema 1 holds no limit.
static MORE: [Exchange; 3] = [
    Asks("office", 6, "OwnerAdd", CITY, SUCCESS),
    Asks("office", 7, "DeviceMove", DEVICE_TO_CITY, SUCCESS),
    Asks("office", 8, "LimitSet", HALF_OF_B3, SUCCESS),
];

static TABLES: [&str; 11] = [
    "SELECT * FROM meta ORDER BY rowid",
    "SELECT * FROM sender ORDER BY rowid",
    "SELECT * FROM reply ORDER BY rowid",
    "SELECT * FROM owner ORDER BY rowid",
    "SELECT * FROM gateway ORDER BY rowid",
    "SELECT * FROM device ORDER BY rowid",
    "SELECT * FROM session ORDER BY rowid",
    "SELECT * FROM uplink ORDER BY rowid",
    "SELECT * FROM copy ORDER BY rowid",
    "SELECT * FROM booking ORDER BY rowid",
    "SELECT * FROM band_limit ORDER BY rowid",
];

/// The ten messages, each once.
pub(crate) fn deliveries(alloc: Global) -> Result<Vec<Delivery>, Fail> {
    with_each_of(alloc, Vec::new(alloc), &MESSAGES)
}

/// Messages of each type, each once: the ten, and those after them.
pub(crate) fn all_deliveries(alloc: Global) -> Result<Vec<Delivery>, Fail> {
    with_each_of(alloc, deliveries(alloc)?, &MORE)
}

/// The deliveries, and after them one of each row.
fn with_each_of(
    alloc: Global,
    deliveries: Vec<Delivery>,
    rows: &[Exchange],
) -> Result<Vec<Delivery>, Fail> {
    let mut deliveries = deliveries;
    for row in rows {
        deliveries.push(delivery_of(alloc, row)?)?;
    }
    Ok(deliveries)
}

pub(crate) fn rows_in<S: Alter>(alloc: Global, conn: &mut Connection<S>) -> Result<String, Fail> {
    let mut text = String::new(alloc);
    for query in &TABLES {
        let rows = conn.query_all(query, &[])?;
        write!(text, "{rows:?}")?;
    }
    Ok(text)
}

/// The database of a desk that has heard the deliveries.
pub(crate) fn heard<R: Abort + AllocGlobal>(
    rt: &R,
    deliveries: &[Delivery],
) -> Result<Connection<MemStore>, Fail> {
    let config = config(65_536).ok_or("no configuration")?;
    let conn = Connection::open_in_memory(rt.alloc())?;
    Ok(told_each(rt, made(rt.alloc(), conn, config)?, deliveries))
}

/// The rows of a desk that has heard the deliveries, as a text.
pub(super) fn rows_after<R: Abort + AllocGlobal>(
    rt: &R,
    deliveries: &[Delivery],
) -> Result<String, Fail> {
    rows_in(rt.alloc(), &mut heard(rt, deliveries)?)
}

/// The desk of the connection has these rows, and each delivery is told once more what it was told. The connection to it.
pub(super) fn expect_found<R: Abort + AllocGlobal, S: Alter + Drop>(
    rt: &R,
    conn: Connection<S>,
    deliveries: &[Delivery],
    rows: &String,
) -> Result<Connection<S>, Fail> {
    let mut conn = conn;
    holds(rt, rows_in(rt.alloc(), &mut conn)? == *rows, "the rows");
    Ok(told_each(rt, found(rt.alloc(), conn)?, deliveries))
}

/// Each delivery was told what it is to be told, and what was found then is the desk that heard them.
fn expect_run<R: Abort + AllocGlobal, S: Alter + Drop>(
    rt: &R,
    ran: Result<(Vec<Outcome>, Connection<S>), StoreFault>,
    deliveries: &[Delivery],
) -> Result<(), Fail> {
    let Ok((outcomes, conn)) = ran else {
        return Err("no desk".into());
    };
    expect_outcomes(rt, &outcomes, deliveries);
    drop(expect_found(rt, conn, deliveries, &rows_after(rt, deliveries)?)?);
    Ok(())
}

/// A run from nothing over lists, in a box: they are large, and would be moved about.
fn run_over_lists(
    alloc: Global,
    config: Config,
    texts: &[&[u8]],
) -> Result<Box<(Lists, Vec<Outcome>)>, AllocError> {
    Ok(Box::new(alloc, run_from_nothing(alloc, config, texts)?)?)
}

/// The whole at once: a desk is made, hears the messages, and is found again after the machine has stopped. `fuses.rt` stops it at
/// each call of its files. The same in memory, and over lists, where nothing stops.
#[test]
fn a_run_is_found_after_a_stop(rt: HostRuntime) -> Result<(), Fail> {
    let alloc = rt.alloc();
    let deliveries = all_deliveries(alloc)?;
    let texts = texts_of(alloc, &deliveries)?;
    let config = config(65_536).ok_or("no configuration")?;
    expect_run(&rt, run_through_stop(alloc, config, &texts), &deliveries)?;
    expect_run(&rt, run_in_memory(alloc, config, &texts), &deliveries)?;
    expect_outcomes(&rt, &run_over_lists(alloc, config, &texts)?.1, &deliveries);
    Ok(())
}
