//! As many rows as a gateway's band, or a device's month, may well have: all of them are asked, and quickly enough.
use super::downlinks::DUTY;
use super::holding::holds;
use super::reports::{OWNER_HEADER, expect_wanted, is_wanted};
use super::rows::Exchange::Asks;
use super::rows::{Exchange, SUCCESS, delivery_of};
use super::stops::{deliveries, heard};
use super::{expect_told, found, with_device};
use desk_engine::{band_report, deliver, owner_report};
use desk_store::{Keeper, Lists};
use duty_core::Span;
use radio_core::{Band, Name};
use registry_core::{Booking, Effect, Envelope, Message, Standing};
use sqlite::{Connection, MemStore, params};
use std::process::Abort;
use std::test::Fail;

/// Rows that are put into a table.
const COUNT: i64 = 70_000;

/// The last rows are on the air twice as long as those before: from this one on. So whoever asks for 65,536 rows alone, which is
/// two to the sixteenth, finds half as much in any hour.
const FIRST_LONG: i64 = 65_536;

/// When the month begins, in microseconds.
const BEGIN: i64 = 1_706_745_600_000_000;

/// From one start to the next, in microseconds: 120 starts in any hour.
const STEP: i64 = 30_000_000;

/// A downlink in B5 each half minute. The desk has booked one before them, in B3, and dropped it.
static BOOKING: &str = "INSERT INTO booking VALUES (?1, 2, 'gw-a', 1, 1, 5, ?2, ?3, 0)";

/// A data uplink in B5 each half minute. The desk has heard two uplinks before them, in B3.
static UPLINK: &str =
    "INSERT INTO uplink VALUES (?1, 1, 1, ?1, x'400000a00100000011223344', ?2, ?3, 5)";

/// Puts the rows into a table, from this number on.
fn insert_rows(conn: &mut Connection<MemStore>, insert: &str, first: i64) -> Result<(), Fail> {
    let insert = conn.prepare(insert)?;
    conn.execute_batch("BEGIN")?;
    for place in 0..COUNT {
        let airtime: i64 = if place < FIRST_LONG { 1_000 } else { 2_000 };
        let number = place.saturating_add(first);
        let start = STEP.saturating_mul(place).saturating_add(BEGIN);
        insert.execute(conn, params![number, start, airtime])?;
    }
    conn.execute_batch("COMMIT")?;
    Ok(())
}

/// The band's hours hold 240,000 microseconds at most.
static LIMITS: [Exchange; 2] = [
    Asks(
        "office",
        20,
        "LimitSet",
        r#""Gateway":"gw-a","Band":"B5","Limit":239999"#,
        DUTY,
    ),
    Asks(
        "office",
        21,
        "LimitSet",
        r#""Gateway":"gw-a","Band":"B5","Limit":240000"#,
        SUCCESS,
    ),
];

const BANDS: &str =
    "band,limit_us,bookings,booked_us,peak_us\nB1,3600000,0,0,0\nB2,36000000,0,0,0\nB3,36000000,0,0,0\nB4,3600000,0,0,0\nB5,240000,70000,74464000,240000\nB6,36000000,0,0,0\n";

const MONTH: &str = "0004a30b001a2b3c,70002,0,0,0,0,102912,102912,0,0,74464000,240000,0,0\n";

fn expect_limits<R: Abort + AllocGlobal, K: Keeper>(rt: &R, keeper: &mut K) -> Result<(), Fail> {
    for row in &LIMITS {
        let delivery = delivery_of(rt.alloc(), row)?;
        let outcome = deliver(rt.alloc(), keeper, delivery.text.as_bytes());
        expect_told(rt, &outcome, &delivery);
    }
    let report = band_report(rt.alloc(), keeper, "gw-a");
    expect_wanted(rt, "the bands of gw-a", &report, "", &Ok(BANDS));
    Ok(())
}

#[test]
fn many_downlinks_of_a_band(rt: HostRuntime) -> Result<(), Fail> {
    let mut conn = heard(&rt, &deliveries(rt.alloc())?)?;
    insert_rows(&mut conn, BOOKING, 2)?;
    let mut tables = found(rt.alloc(), conn)?;
    expect_limits(&rt, &mut *tables)
}

fn expect_month<R: Abort + AllocGlobal, K: Keeper>(rt: &R, keeper: &mut K) {
    let report = owner_report(rt.alloc(), keeper, "town", "2024-02");
    expect_wanted(rt, "an owner's month", &report, OWNER_HEADER, &Ok(MONTH));
}

#[test]
fn many_uplinks_of_a_month(rt: HostRuntime) -> Result<(), Fail> {
    let mut conn = heard(&rt, &deliveries(rt.alloc())?)?;
    insert_rows(&mut conn, UPLINK, 3)?;
    let mut tables = found(rt.alloc(), conn)?;
    expect_month(&rt, &mut *tables);
    Ok(())
}

/// Downlinks that a store in memory is given: one in B5 each ten seconds, so 360 in any hour.
const DOWNLINKS: u32 = 250_000;

/// The downlink in this place. The last ten thousand are on the air twice as long as those before.
fn booking_at(gateway: Name, place: u32) -> Result<Booking, Fail> {
    let start = i64::from(place)
        .saturating_mul(10_000_000)
        .saturating_add(BEGIN);
    let airtime = if place < 240_000 { 1_000 } else { 2_000 };
    Ok(Booking {
        uplink: 1,
        gateway,
        band: Band::B5,
        span: Span::new(start, airtime).ok_or("out of range")?,
        standing: Standing::Booked,
    })
}

/// Commits all of them for the gateway. What was heard doesn't matter here.
fn book_each<K: Keeper>(keeper: &mut K) -> Result<(), Fail> {
    let sender = Name::new(b"bridge").ok_or("no name")?;
    let gateway = Name::new(b"gw-a").ok_or("no name")?;
    let message = Message::GatewayAdd { gateway };
    for place in 0..DOWNLINKS {
        let envelope = Envelope {
            sender,
            transaction: place,
            message,
        };
        let effect = Effect::AddsBooking {
            booking: booking_at(gateway, place)?,
        };
        keeper
            .commit(&envelope, b"", &effect, b"")
            .map_err(|_| "not booked")?;
    }
    Ok(())
}

const BANDS_OF_MANY: &str =
    "band,limit_us,bookings,booked_us,peak_us\nB1,3600000,0,0,0\nB2,36000000,0,0,0\nB3,36000000,0,0,0\nB4,3600000,0,0,0\nB5,360000000,250000,260000000,720000\nB6,36000000,0,0,0\n";

/// No contract speaks of time. Hour by hour 250,000 downlinks would take 125,000,000,000 sums, and a test has a minute.
#[test]
fn a_peak_of_many_downlinks_is_swept(rt: HostRuntime) -> Result<(), Fail> {
    let mut lists = with_device::<HostRuntime, Lists>(&rt)?;
    book_each(&mut *lists)?;
    let report = band_report(rt.alloc(), &mut *lists, "gw-a");
    let is_right = is_wanted(&report, "", &Ok(BANDS_OF_MANY));
    holds(&rt, is_right, BANDS_OF_MANY);
    Ok(())
}
