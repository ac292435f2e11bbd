//! How much a gateway may still send from a time on.
use super::downlinks::{DEVICE_EUI, DOWN, DOWN_0, HOUR_BEGUN, UP_0};
use super::joins::{FIRST, FIRST_ADDED};
use super::reports::Asked::{self, Room};
use super::reports::expect_report;
use super::rows::Exchange::{Books, Frames, Joins};
use super::rows::Told::{Booked, Framed};
use super::rows::{Down, Exchange, Heard};
use super::{Opened, deliver_each, with_device};
use desk_engine::ReportFault;
use std::process::Abort;
use std::test::Fail;

/// Nothing is booked near, and the longest downlink has room.
const UNUSED: &str =
    "B1,3600000,0,3000000\nB2,36000000,0,3000000\nB3,36000000,0,3000000\nB4,3600000,0,3000000\nB5,360000000,0,3000000\nB6,36000000,0,3000000\n";

/// Three downlinks of B4 in the hour before.
const HOUR_USED: &str =
    "B1,3600000,0,3000000\nB2,36000000,0,3000000\nB3,36000000,0,3000000\nB4,3600000,2973696,1617536\nB5,360000000,0,3000000\nB6,36000000,0,3000000\n";

/// One microsecond earlier, where a downlink of more would share an hour with all three.
const HOUR_FULL: &str =
    "B1,3600000,0,3000000\nB2,36000000,0,3000000\nB3,36000000,0,3000000\nB4,3600000,2973696,626304\nB5,360000000,0,3000000\nB6,36000000,0,3000000\n";

/// One second before a downlink of B5.
const BEFORE: &str =
    "B1,3600000,0,1000000\nB2,36000000,0,1000000\nB3,36000000,0,1000000\nB4,3600000,0,1000000\nB5,360000000,0,1000000\nB6,36000000,0,1000000\n";

/// Where it begins.
const BEGUN: &str =
    "B1,3600000,0,0\nB2,36000000,0,0\nB3,36000000,0,0\nB4,3600000,0,0\nB5,360000000,0,0\nB6,36000000,0,0\n";

/// In its last microsecond.
const LAST: &str =
    "B1,3600000,0,0\nB2,36000000,0,0\nB3,36000000,0,0\nB4,3600000,0,0\nB5,360000000,991231,0\nB6,36000000,0,0\n";

/// Where it has ended.
const ENDED: &str =
    "B1,3600000,0,3000000\nB2,36000000,0,3000000\nB3,36000000,0,3000000\nB4,3600000,0,3000000\nB5,360000000,991232,3000000\nB6,36000000,0,3000000\n";

/// On a new desk. A text that is no time is `Time` for any gateway.
static UNUSED_ROOMS: [Asked; 14] = [
    Room("gw-a", "1706745600000000", Ok(UNUSED)),
    Room("gw-b", "0946684800000000", Ok(UNUSED)),
    Room("gw-a", "4102444800000000", Ok(UNUSED)),
    Room("gw-z", "1706745600000000", Err(ReportFault::Gateway)),
    Room("", "1706745600000000", Err(ReportFault::Gateway)),
    Room("gw a", "1706745600000000", Err(ReportFault::Gateway)),
    Room("gw-a", "946684799999999", Err(ReportFault::Time)),
    Room("gw-a", "4102444800000001", Err(ReportFault::Time)),
    Room("gw-a", "01706745600000000", Err(ReportFault::Time)),
    Room("gw-a", "1706745600000000x", Err(ReportFault::Time)),
    Room("gw-a", "-1706745600000000", Err(ReportFault::Time)),
    Room("gw-a", "2024-02", Err(ReportFault::Time)),
    Room("gw-a", "", Err(ReportFault::Time)),
    Room("gw-z", "946684799999999", Err(ReportFault::Time)),
];

/// After three downlinks in B4.
static ROOMS_OF_AN_HOUR: [Asked; 3] = [
    Room("gw-a", "1706749199373696", Ok(HOUR_USED)),
    Room("gw-a", "1706749199373695", Ok(HOUR_FULL)),
    Room("gw-b", "1706749199373696", Ok(UNUSED)),
];

/// One downlink in B5.
#[rattlefmt::skip]
static ONE_BOOKED: [Exchange; 3] = [
    Joins("bridge", 10, FIRST, FIRST_ADDED),
    Frames("bridge", 11, Heard { time: 1_706_745_600_000_000, octets: UP_0, verdict: "0", ..FIRST }, Framed(41_216, "B3", false, 0, DEVICE_EUI, 2)),
    Books("bridge", 17, Down { window: 2, octets: DOWN_0, ..DOWN }, Booked(991_232, "B5", 1, 1_706_745_602_000_000)),
];

/// After it.
static ROOMS_BESIDE_ONE: [Asked; 5] = [
    Room("gw-a", "1706745601000000", Ok(BEFORE)),
    Room("gw-a", "1706745602000000", Ok(BEGUN)),
    Room("gw-a", "1706745602991231", Ok(LAST)),
    Room("gw-a", "1706745602991232", Ok(ENDED)),
    Room("gw-b", "1706745602000000", Ok(UNUSED)),
];

/// What a desk with a device reports after it heard the rows.
fn expect_rooms<R: Abort + AllocGlobal, K: Opened>(
    rt: &R,
    rows: &[Exchange],
    rooms: &[Asked],
) -> Result<(), Fail> {
    let mut keeper = with_device::<R, K>(rt)?;
    deliver_each(rt, &mut *keeper, rows)?;
    for room in rooms {
        expect_report(rt, &mut *keeper, room);
    }
    Ok(())
}

pub(super) fn are_told<R: Abort + AllocGlobal, K: Opened>(rt: &R) -> Result<(), Fail> {
    expect_rooms::<R, K>(rt, &[], &UNUSED_ROOMS)?;
    expect_rooms::<R, K>(rt, &HOUR_BEGUN, &ROOMS_OF_AN_HOUR)?;
    expect_rooms::<R, K>(rt, &ONE_BOOKED, &ROOMS_BESIDE_ONE)
}
