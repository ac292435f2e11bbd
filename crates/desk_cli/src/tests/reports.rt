//! Reports: the worked ones, months and their edges, a device that is moved, devices in order, and what is no report.
use super::data_frames::HEARD;
use super::downlinks::{ACCEPT, DEVICE_EUI, DOWN, DOWN_0, UP_0, UP_1, UP_2};
use super::holding::{holds, holds_of};
use super::joins::{FIRST, FIRST_ADDED, NONCE_1};
use super::rows::Exchange::{Asks, Books, Frames, Joins};
use super::rows::Told::{Booked, Framed, Joined};
use super::rows::{DEVICE_TO_PORT, Down, Exchange, Heard, OTHER, PORT, SUCCESS};
use super::{Opened, deliver_each, with_device};
use Asked::{Bands, Owner, Room};
use desk_engine::{ReportFault, band_report, owner_report, room_report};
use desk_store::Keeper;
use radio_core::{Band, Eui, Name};
use std::process::Abort;
use std::test::Fail;

pub(super) const OWNER_HEADER: &str =
    "dev_eui,uplinks,b1_us,b1_peak_us,b2_us,b2_peak_us,b3_us,b3_peak_us,b4_us,b4_peak_us,b5_us,b5_peak_us,b6_us,b6_peak_us\n";

const ROOM_HEADER: &str = "band,limit_us,used_us,room_us\n";

const BANDS_UNUSED: &str =
    "band,limit_us,bookings,booked_us,peak_us\nB1,3600000,0,0,0\nB2,36000000,0,0,0\nB3,36000000,0,0,0\nB4,3600000,0,0,0\nB5,360000000,0,0,0\nB6,36000000,0,0,0\n";

/// One join accept is booked in B3.
pub(super) const BANDS_BOOKED: &str =
    "band,limit_us,bookings,booked_us,peak_us\nB1,3600000,0,0,0\nB2,36000000,0,0,0\nB3,36000000,1,46336,46336\nB4,3600000,0,0,0\nB5,360000000,0,0,0\nB6,36000000,0,0,0\n";

/// And one data frame, an hour's use of which is its own, in B5.
const BANDS_BOOKED_TWICE: &str =
    "band,limit_us,bookings,booked_us,peak_us\nB1,3600000,0,0,0\nB2,36000000,0,0,0\nB3,36000000,1,46336,46336\nB4,3600000,0,0,0\nB5,360000000,1,991232,991232\nB6,36000000,0,0,0\n";

/// The join accept is dropped.
const BANDS_DROPPED: &str =
    "band,limit_us,bookings,booked_us,peak_us\nB1,3600000,0,0,0\nB2,36000000,0,0,0\nB3,36000000,0,0,0\nB4,3600000,0,0,0\nB5,360000000,1,991232,991232\nB6,36000000,0,0,0\n";

/// The worked month: a join and a data frame of one hour.
pub(super) const WORKED_LINE: &str = "0004a30b001a2b3c,2,0,0,0,0,102912,102912,0,0,0,0,0,0\n";

const UNUSED_LINE: &str = "0004a30b001a2b3c,0,0,0,0,0,0,0,0,0,0,0,0,0\n";

const JOIN_LINE: &str = "0004a30b001a2b3c,1,0,0,0,0,61696,61696,0,0,0,0,0,0\n";

const FRAME_LINE: &str = "0004a30b001a2b3c,1,0,0,0,0,41216,41216,0,0,0,0,0,0\n";

/// A report that is asked for, and what it is, or why there is none.
#[derive(Clone, Copy)]
pub(super) enum Asked {
    /// An owner's of a month: the lines below its header.
    Owner(&'static str, &'static str, Result<&'static str, ReportFault>),
    /// A gateway's: the whole text.
    Bands(&'static str, Result<&'static str, ReportFault>),
    /// A gateway's room at a time: the lines below its header.
    Room(&'static str, &'static str, Result<&'static str, ReportFault>),
}

/// What is heard, and the reports that are asked for then.
type Step = (&'static [Exchange], &'static [Asked]);

/// The worked reports. Each row is heard twice.
#[rattlefmt::skip]
static WORKED: [Step; 4] = [
    (
        &[
            Joins("bridge", 10, FIRST, FIRST_ADDED),
            Frames("bridge", 11, HEARD, Framed(41_216, "B3", false, 0, DEVICE_EUI, 2)),
            Frames("bridge", 12, Heard { gateway: "gw-b", time: 1_706_745_700_041_220, ..HEARD }, Framed(41_216, "B3", true, 0, DEVICE_EUI, 2)),
        ],
        &[
            Owner("town", "2024-02", Ok(WORKED_LINE)),
            Bands("gw-a", Ok(BANDS_UNUSED)),
            Bands("gw-z", Err(ReportFault::Gateway)),
            Bands("", Err(ReportFault::Gateway)),
            Bands("gw a", Err(ReportFault::Gateway)),
            Bands("town", Err(ReportFault::Gateway)),
        ],
    ),
    (
        &[Books("bridge", 13, Down { uplink: 1, octets: ACCEPT, ..DOWN }, Booked(46_336, "B3", 1, 1_706_745_605_061_696))],
        &[Bands("gw-a", Ok(BANDS_BOOKED)), Bands("gw-b", Ok(BANDS_UNUSED))],
    ),
    (
        &[Books("bridge", 14, Down { window: 2, octets: DOWN_0, ..DOWN }, Booked(991_232, "B5", 2, 1_706_745_702_041_216))],
        &[Bands("gw-a", Ok(BANDS_BOOKED_TWICE))],
    ),
    (
        &[Asks("bridge", 15, "DownDone", r#""Booking":1,"Sent":false"#, SUCCESS)],
        &[Bands("gw-a", Ok(BANDS_DROPPED)), Owner("town", "2024-02", Ok(WORKED_LINE))],
    ),
];

/// A join that starts with December 2023, a data frame that starts one microsecond before February 2024, and one in it; and one
/// that starts in the last microsecond of the leap day of 2000. Then the device is moved, and its traffic with it.
#[rattlefmt::skip]
static MONTHS: [Step; 2] = [
    (
        &[
            Joins("bridge", 10, Heard { time: 1_701_388_800_061_696, ..FIRST }, FIRST_ADDED),
            Frames("bridge", 11, Heard { time: 1_706_745_600_041_215, octets: UP_0, verdict: "0", ..FIRST }, Framed(41_216, "B3", false, 0, DEVICE_EUI, 2)),
            Frames("bridge", 12, Heard { time: 1_706_745_700_041_216, octets: UP_1, verdict: "1", ..FIRST }, Framed(41_216, "B3", false, 1, DEVICE_EUI, 3)),
            Frames("bridge", 13, Heard { time: 951_868_800_041_215, octets: UP_2, verdict: "2", ..FIRST }, Framed(41_216, "B3", false, 2, DEVICE_EUI, 4)),
        ],
        &[
            Owner("town", "2000-01", Ok(UNUSED_LINE)),
            Owner("town", "2000-02", Ok(FRAME_LINE)),
            Owner("town", "2000-03", Ok(UNUSED_LINE)),
            Owner("town", "2023-11", Ok(UNUSED_LINE)),
            Owner("town", "2023-12", Ok(JOIN_LINE)),
            Owner("town", "2024-01", Ok(FRAME_LINE)),
            Owner("town", "2024-02", Ok(FRAME_LINE)),
            Owner("town", "2024-03", Ok(UNUSED_LINE)),
            Owner("town", "2099-12", Ok(UNUSED_LINE)),
            Owner("town", "2024-13", Err(ReportFault::Month)),
            Owner("town", "2024-00", Err(ReportFault::Month)),
            Owner("town", "2024-1", Err(ReportFault::Month)),
            Owner("town", "2024-011", Err(ReportFault::Month)),
            Owner("town", "1999-12", Err(ReportFault::Month)),
            Owner("town", "2100-01", Err(ReportFault::Month)),
            Owner("town", "2024_02", Err(ReportFault::Month)),
            Owner("town", "2024-2x", Err(ReportFault::Month)),
            Owner("town", "202x-02", Err(ReportFault::Month)),
            Owner("town", "", Err(ReportFault::Month)),
            // the month is looked at first
            Owner("nobody", "2024-13", Err(ReportFault::Month)),
            Owner("no name", "2024-13", Err(ReportFault::Month)),
            Owner("nobody", "2024-02", Err(ReportFault::Owner)),
            Owner("no name", "2024-02", Err(ReportFault::Owner)),
            Owner("", "2024-02", Err(ReportFault::Owner)),
            Owner("gw-a", "2024-02", Err(ReportFault::Owner)),
        ],
    ),
    (
        &[Asks("office", 900_010, "OwnerAdd", PORT, SUCCESS), Asks("office", 900_011, "DeviceMove", DEVICE_TO_PORT, SUCCESS)],
        &[
            Owner("town", "2023-12", Ok("")),
            Owner("town", "2024-02", Ok("")),
            Owner("port", "2000-02", Ok(FRAME_LINE)),
            Owner("port", "2023-12", Ok(JOIN_LINE)),
            Owner("port", "2024-02", Ok(FRAME_LINE)),
            Owner("port", "2024-03", Ok(UNUSED_LINE)),
        ],
    ),
];

/// Two more devices of the owner: one before the first in order, and one after it, which stay when the first is moved.
#[rattlefmt::skip]
static ORDER: [Step; 2] = [
    (
        &[
            Asks("office", 900_012, "DeviceAdd", OTHER, SUCCESS),
            Asks("office", 900_013, "DeviceAdd", r#""DevEUI":"0000000000000001","JoinEUI":"70b3d57ed0000001","Owner":"town""#, SUCCESS),
            Joins("bridge", 10, FIRST, FIRST_ADDED),
        ],
        &[Owner("town", "2024-02", Ok("0000000000000001,0,0,0,0,0,0,0,0,0,0,0,0,0\n0004a30b001a2b3c,1,0,0,0,0,61696,61696,0,0,0,0,0,0\n0004a30b001a2b3d,0,0,0,0,0,0,0,0,0,0,0,0,0\n"))],
    ),
    (
        &[Asks("office", 900_014, "OwnerAdd", PORT, SUCCESS), Asks("office", 900_015, "DeviceMove", DEVICE_TO_PORT, SUCCESS)],
        &[
            Owner("town", "2024-02", Ok("0000000000000001,0,0,0,0,0,0,0,0,0,0,0,0,0\n0004a30b001a2b3d,0,0,0,0,0,0,0,0,0,0,0,0,0\n")),
            Owner("port", "2024-02", Ok(JOIN_LINE)),
        ],
    ),
];

/// The report is the header and the rest that is wanted, or there is none for this reason.
pub(super) fn is_wanted(
    report: &Result<Vec<u8>, ReportFault>,
    header: &str,
    wanted: &Result<&str, ReportFault>,
) -> bool {
    match (report, wanted) {
        (Ok(text), Ok(rest)) => {
            text.len() == header.len().saturating_add(rest.len())
                && text.starts_with(header.as_bytes())
                && text.ends_with(rest.as_bytes())
        }
        (Err(told), Err(fault)) => told == fault,
        _ => false,
    }
}

/// What is asked in this row has such a report.
pub(super) fn expect_wanted(
    rt: &impl Abort,
    row: &str,
    report: &Result<Vec<u8>, ReportFault>,
    header: &str,
    wanted: &Result<&str, ReportFault>,
) {
    let came = match report {
        Ok(text) => text.as_slice(),
        Err(_) => b"no report".as_slice(),
    };
    let is_so = is_wanted(report, header, wanted);
    holds_of(rt, is_so, row, wanted.unwrap_or("no report"), came);
}

pub(super) fn expect_report<R: Abort + AllocGlobal, K: Keeper>(
    rt: &R,
    keeper: &mut K,
    asked: &Asked,
) {
    match asked {
        Owner(owner, month, wanted) => {
            let report = owner_report(rt.alloc(), keeper, owner, month);
            expect_wanted(rt, month, &report, OWNER_HEADER, wanted);
        }
        Bands(gateway, wanted) => {
            let report = band_report(rt.alloc(), keeper, gateway);
            expect_wanted(rt, gateway, &report, "", wanted);
        }
        Room(gateway, time, wanted) => {
            let report = room_report(rt.alloc(), keeper, gateway, time);
            expect_wanted(rt, time, &report, ROOM_HEADER, wanted);
        }
    }
}

/// The steps on one desk, which has a device.
fn expect_steps<R: Abort + AllocGlobal, K: Opened>(rt: &R, steps: &[Step]) -> Result<(), Fail> {
    let mut keeper = with_device::<R, K>(rt)?;
    for (rows, asked) in steps {
        deliver_each(rt, &mut *keeper, rows)?;
        for one in *asked {
            expect_report(rt, &mut *keeper, one);
        }
    }
    Ok(())
}

/// A second join, which was on the air before the first.
#[rattlefmt::skip]
static TWO_SESSIONS: [Exchange; 2] = [
    Joins("bridge", 10, FIRST, FIRST_ADDED),
    Joins("bridge", 11, Heard { time: 1_706_745_590_061_696, octets: NONCE_1, ..FIRST }, Joined(61_696, "B3", false, "01a00001", 2)),
];

/// Reports ask a store for an owner's devices one after another, and for the uplinks of all of a device's sessions in order of start.
fn a_store_tells_in_order<R: Abort + AllocGlobal, K: Opened>(rt: &R) -> Result<(), Fail> {
    let mut keeper = with_device::<R, K>(rt)?;
    deliver_each(rt, &mut *keeper, &TWO_SESSIONS)?;
    let owner = Name::new(b"town").ok_or("no name")?;
    let device = Eui::new(0x0004_a30b_001a_2b3c);
    let after_last = keeper.next_device(&owner, Some(device));
    holds(
        rt,
        after_last == Ok(None),
        "that no device is after the last",
    );
    let Ok(spans) = keeper.uplinks_of(device, Band::B3, 0, i64::MAX) else {
        return Err("no uplinks".into());
    };
    let wanted = [1_706_745_590_000_000, 1_706_745_600_000_000];
    let starts = spans.iter().map(|span| span.start());
    holds(rt, starts.eq(wanted), "the starts");
    Ok(())
}

pub(super) fn are_told<R: Abort + AllocGlobal, K: Opened>(rt: &R) -> Result<(), Fail> {
    // first, since a report over a store that tells the last device again has no end
    a_store_tells_in_order::<R, K>(rt)?;
    expect_steps::<R, K>(rt, &WORKED)?;
    expect_steps::<R, K>(rt, &MONTHS)?;
    expect_steps::<R, K>(rt, &ORDER)
}
