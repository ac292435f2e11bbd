//! Limits that operators set for a gateway's band: which are taken, and what downlinks and the bands' report make of them.
use super::downlinks::{
    ACCEPT, DEVICE_EUI, DOWN, DOWN_0, DOWN_1, DOWN_2, DOWN_3, DOWN_4, DUTY, HOUR_BEGUN, HOURS,
    UP_0, UP_1, UP_2, UP_3,
};
use super::holding::is_text;
use super::joins::{FIRST, FIRST_ADDED, GATEWAY};
use super::rows::Exchange::{Asks, Books, Frames, Joins};
use super::rows::Told::{Booked, Framed};
use super::rows::{BODY, DEVICE, Down, Exchange, Heard, ROLE, SETUP, SUCCESS};
use super::{Opened, deliver_each, opening};
use desk_engine::band_report;
use std::process::Abort;
use std::test::Fail;

const HEARD: Heard = Heard {
    gateway: "gw-a",
    time: 1_706_745_599_000_000,
    freq: 868_800_000,
    rate: 0,
    octets: UP_0,
    verdict: "0",
};

/// Half of what the band has.
pub(super) const HALF_OF_B3: &str = r#""Gateway":"gw-a","Band":"B3","Limit":18000000"#;

pub(super) const NONE_OF_B3: &str = r#""Gateway":"gw-a","Band":"B3","Limit":0"#;

pub(super) const ABOVE_B3: &str = r#""Gateway":"gw-a","Band":"B3","Limit":36000001"#;

/// Of a gateway that nobody added.
pub(super) const LIMIT_OF_NONE: &str = r#""Gateway":"gw-z","Band":"B1","Limit":0"#;

const DROPPED_4: &str = r#""Booking":4,"Sent":false"#;

/// After an hour of four downlinks that holds just the band's own limit.
#[rattlefmt::skip]
pub(super) static LIMITS: [Exchange; 4] = [
    Asks("office", 19, "LimitSet", r#""Gateway":"gw-a","Band":"B4","Limit":3599999"#, DUTY),
    Asks("office", 20, "LimitSet", r#""Gateway":"gw-a","Band":"B4","Limit":3600001"#, BODY),
    Asks("office", 20, "LimitSet", r#""Gateway":"gw-a","Band":"B4","Limit":3600000"#, SUCCESS),
    Asks("bridge", 19, "LimitSet", r#""Gateway":"gw-a","Band":"B4","Limit":3600000"#, ROLE),
];

/// And then a lower one, with the last downlink dropped, and a higher one again.
#[rattlefmt::skip]
pub(super) static LOWERED: [Exchange; 5] = [
    Asks("bridge", 20, "DownDone", DROPPED_4, SUCCESS),
    Asks("office", 21, "LimitSet", r#""Gateway":"gw-a","Band":"B4","Limit":2973696"#, SUCCESS),
    Books("bridge", 21, Down { uplink: 5, octets: DOWN_4, ..DOWN }, DUTY),
    Asks("office", 22, "LimitSet", r#""Gateway":"gw-a","Band":"B4","Limit":3600000"#, SUCCESS),
    Books("bridge", 22, Down { uplink: 5, octets: DOWN_4, ..DOWN }, Booked(991_232, "B4", 5, 1_706_749_199_373_696)),
];

/// After the setup: limits before the first downlink, each for its gateway and band alone.
#[rattlefmt::skip]
pub(super) static FIRST_LIMITS: [Exchange; 19] = [
    Asks("bridge", 9, "LimitSet", LIMIT_OF_NONE, ROLE),
    Asks("office", 18, "LimitSet", LIMIT_OF_NONE, GATEWAY),
    Asks("office", 19, "LimitSet", r#""Gateway":"gw-a","Band":"B4","Limit":991232"#, SUCCESS),
    Asks("office", 900_004, "DeviceAdd", DEVICE, SUCCESS),
    Joins("bridge", 10, FIRST, FIRST_ADDED),
    Frames("bridge", 11, HEARD, Framed(1_155_072, "B4", false, 0, DEVICE_EUI, 2)),
    Frames("bridge", 12, Heard { time: 1_706_745_609_000_000, octets: UP_1, verdict: "1", ..HEARD }, Framed(1_155_072, "B4", false, 1, DEVICE_EUI, 3)),
    Books("bridge", 15, Down { uplink: 2, octets: DOWN_0, ..DOWN }, Booked(991_232, "B4", 1, 1_706_745_600_000_000)),
    Books("bridge", 16, Down { uplink: 3, octets: DOWN_1, ..DOWN }, DUTY),
    // another gateway has the band's own limit
    Frames("bridge", 17, Heard { gateway: "gw-b", time: 1_706_745_609_000_000, octets: UP_1, verdict: "1", ..HEARD }, Framed(1_155_072, "B4", true, 1, DEVICE_EUI, 3)),
    Books("bridge", 18, Down { uplink: 3, gateway: "gw-b", octets: DOWN_1, ..DOWN }, Booked(991_232, "B4", 2, 1_706_745_610_000_000)),
    // and so has another band
    Frames("bridge", 19, Heard { time: 1_706_745_619_000_000, octets: UP_2, verdict: "2", ..HEARD }, Framed(1_155_072, "B4", false, 2, DEVICE_EUI, 4)),
    Books("bridge", 20, Down { uplink: 4, window: 2, octets: DOWN_2, ..DOWN }, Booked(991_232, "B5", 3, 1_706_745_621_000_000)),
    // a higher one makes room
    Asks("office", 20, "LimitSet", r#""Gateway":"gw-a","Band":"B4","Limit":1982464"#, SUCCESS),
    Frames("bridge", 21, Heard { time: 1_706_745_629_000_000, octets: UP_3, verdict: "3", ..HEARD }, Framed(1_155_072, "B4", false, 3, DEVICE_EUI, 5)),
    Books("bridge", 22, Down { uplink: 5, octets: DOWN_3, ..DOWN }, Booked(991_232, "B4", 4, 1_706_745_630_000_000)),
    // and none at all leaves none, in its own band
    Asks("office", 21, "LimitSet", HALF_OF_B3, SUCCESS),
    Asks("office", 22, "LimitSet", NONE_OF_B3, SUCCESS),
    Books("bridge", 23, Down { uplink: 1, octets: ACCEPT, ..DOWN }, DUTY),
];

const BANDS: &str =
    "band,limit_us,bookings,booked_us,peak_us\nB1,3600000,0,0,0\nB2,36000000,0,0,0\nB3,36000000,0,0,0\nB4,3600000,4,3964928,3600000\nB5,360000000,0,0,0\nB6,36000000,0,0,0\n";

const BANDS_LOWERED: &str =
    "band,limit_us,bookings,booked_us,peak_us\nB1,3600000,0,0,0\nB2,36000000,0,0,0\nB3,0,0,0,0\nB4,1982464,2,1982464,1982464\nB5,360000000,1,991232,991232\nB6,36000000,0,0,0\n";

/// The report of the gateway's bands, after the tables, has each band's standing limit.
fn expect_bands<R: Abort + AllocGlobal, K: Opened>(
    rt: &R,
    tables: &[&[Exchange]],
    wanted: &str,
) -> Result<(), Fail> {
    let mut keeper = opening::<K>(rt.alloc(), 65_536)?;
    for rows in tables {
        deliver_each(rt, &mut *keeper, rows)?;
    }
    let text = band_report(rt.alloc(), &mut *keeper, "gw-a").map_err(|_| "no report")?;
    is_text(rt, "the bands of gw-a", wanted, text.as_slice());
    Ok(())
}

pub(super) fn bands_show_limits<R: Abort + AllocGlobal, K: Opened>(rt: &R) -> Result<(), Fail> {
    expect_bands::<R, K>(rt, &[&SETUP[..], &HOUR_BEGUN, &HOURS, &LIMITS], BANDS)?;
    expect_bands::<R, K>(rt, &[&SETUP[..], &FIRST_LIMITS], BANDS_LOWERED)
}
