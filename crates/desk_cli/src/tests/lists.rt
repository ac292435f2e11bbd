//! Lists of what a desk has, one of its devices, its receptions of a month and a gateway's downlinks: a new desk, a device without a session,
//! one with two, a device that is moved, a limit that is set, a sender that never sent, the order of names and of DevEUIs; a frame at two
//! gateways, two joins that start together, months and their edges, and downlinks that were sent and dropped.
use super::data_frames::HEARD;
use super::downlinks::{ACCEPT, DEVICE_EUI, DOWN, DOWN_0, DOWN_1, SENT_1, UP_1};
use super::holding::holds;
use super::joins::{FIRST, FIRST_ADDED, NONCE_1};
use super::limits::HALF_OF_B3;
use super::reports::expect_wanted;
use super::rows::Exchange::{Asks, Books, Frames, Joins};
use super::rows::Told::{Booked, Framed, Joined};
use super::rows::{
    AS_ADMIN, BODY, DEVICE, DEVICE_TO_PORT, Down, Exchange, Heard, OTHER, PORT, ROLE, SETUP,
    SUCCESS, TOWN,
};
use super::{Opened, deliver_each, opening};
use Listed::{All, Downlinks, One, Receptions};
use desk_engine::ListOf::{Devices, Gateways, Owners, Senders};
use desk_engine::{ListOf, ReportFault, device_report, downlink_report, list, reception_report};
use desk_store::Keeper;
use std::process::Abort;
use std::test::Fail;

/// What is asked for, and what it is below its header, or why there is none.
#[derive(Clone, Copy)]
enum Listed {
    /// A list.
    All(ListOf, &'static str),
    /// One device.
    One(&'static str, Result<&'static str, ReportFault>),
    /// The receptions of a device in a month.
    Receptions(&'static str, &'static str, Result<&'static str, ReportFault>),
    /// The downlinks of a gateway in a month.
    Downlinks(&'static str, &'static str, Result<&'static str, ReportFault>),
}

/// What is heard, and the lists that are asked for then.
type Step = (&'static [Exchange], &'static [Listed]);

const OWN_LIMITS: &str =
    "gw-a,3600000,36000000,36000000,3600000,360000000,36000000\ngw-b,3600000,36000000,36000000,3600000,360000000,36000000\n";

const HALF_LIMIT: &str =
    "gw-a,3600000,36000000,18000000,3600000,360000000,36000000\ngw-b,3600000,36000000,36000000,3600000,360000000,36000000\n";

const THREE_GATEWAYS: &str =
    "GW-C,3600000,36000000,36000000,3600000,360000000,36000000\ngw-a,3600000,36000000,18000000,3600000,360000000,36000000\ngw-b,3600000,36000000,36000000,3600000,360000000,36000000\n";

const NO_SESSION: &str = "0004a30b001a2b3c,70b3d57ed0000001,town,0,,,,,\n";

/// Its second data frame began long before its first, and one of its two downlinks answers a data frame.
const ONE_SESSION: &str =
    "0004a30b001a2b3c,70b3d57ed0000001,town,1,01a00000,0,1,1,1706745700000000\n";

const TWO_SESSIONS: &str =
    "0004a30b001a2b3c,70b3d57ed0000001,port,2,01a00001,1,,0,1706745600000000\n";

const FOUR_DEVICES: &str =
    "0000000000000001,0000000000000000,town,0,,,,,\n0004a30b001a2b3c,70b3d57ed0000001,port,2,01a00001,1,,0,1706745600000000\n0004a30b001a2b3d,70b3d57ed0000001,town,0,,,,,\nffffffffffffffff,ffffffffffffffff,town-2,0,,,,,\n";

/// A join, a data frame at two gateways, each with its own end, frequency and data rate.
const FEBRUARY: &str =
    "1,1,join,0,gw-a,1706745600061696,868100000,5,1706745600000000,61696,B3,00010000d07ed5b3703c2b1a000ba304000000a1b2c3d4\n2,1,data,0,gw-a,1706745700041216,868300000,5,1706745700000000,41216,B3,400000a00100000011223344\n2,1,data,0,gw-b,1706745700041220,868500000,4,1706745700000000,41216,B3,400000a00100000011223344\n";

/// And a second join, which starts with the first.
const WITH_TWO_JOINS: &str =
    "1,1,join,0,gw-a,1706745600061696,868100000,5,1706745600000000,61696,B3,00010000d07ed5b3703c2b1a000ba304000000a1b2c3d4\n4,2,join,1,gw-a,1706745600061696,868100000,5,1706745600000000,61696,B3,00010000d07ed5b3703c2b1a000ba304000100a1b2c3d4\n2,1,data,0,gw-a,1706745700041216,868300000,5,1706745700000000,41216,B3,400000a00100000011223344\n2,1,data,0,gw-b,1706745700041220,868500000,4,1706745700000000,41216,B3,400000a00100000011223344\n";

/// It starts in the last microsecond of a leap day.
const LEAP_DAY: &str =
    "3,1,data,1,gw-a,951868800041215,868300000,5,951868799999999,41216,B3,400000a00100010011223344\n";

const DROPPED: &str =
    "1,1,join,B3,1706745605061696,46336,booked\n2,2,data,B5,1706745702041216,991232,dropped\n";

/// The first was sent. The last that was booked starts before the second.
const SENT: &str =
    "1,1,join,B3,1706745605061696,46336,sent\n4,4,join,B5,1706745606061696,1155072,booked\n2,2,data,B5,1706745702041216,991232,dropped\n";

const MARCH: &str = "3,3,data,B3,951868801041215,41216,booked\n";

/// Of a new desk.
static NEW: [Listed; 9] = [
    All(Senders, "office,operator,\n"),
    All(Owners, ""),
    All(Gateways, ""),
    All(Devices, ""),
    One("0004a30b001a2b3c", Err(ReportFault::Device)),
    Receptions("0004a30b001a2b3c", "2024-02", Err(ReportFault::Device)),
    Receptions("0004a30b001a2b3c", "2024-13", Err(ReportFault::Month)),
    Downlinks("gw-a", "2024-02", Err(ReportFault::Gateway)),
    Downlinks("gw-a", "2024-2", Err(ReportFault::Month)),
];

/// After the setup, before a frame. Each row is heard twice.
#[rattlefmt::skip]
static BEFORE_FRAMES: [Step; 2] = [
    (
        &[],
        &[
            All(Senders, "bridge,radio,\noffice,operator,900003\n"),
            All(Owners, "town,0\n"),
            All(Gateways, OWN_LIMITS),
            All(Devices, ""),
            Downlinks("gw-a", "2024-02", Ok("")),
            Downlinks("gw-z", "2024-02", Err(ReportFault::Gateway)),
            Downlinks("gw a", "2024-02", Err(ReportFault::Gateway)),
            Downlinks("town", "2024-02", Err(ReportFault::Gateway)),
            Downlinks("", "2024-02", Err(ReportFault::Gateway)),
            // the month is looked at first
            Downlinks("gw a", "1999-12", Err(ReportFault::Month)),
        ],
    ),
    (
        &[Asks("office", 900_004, "DeviceAdd", DEVICE, SUCCESS)],
        &[
            All(Owners, "town,1\n"),
            All(Devices, NO_SESSION),
            One("0004a30b001a2b3c", Ok(NO_SESSION)),
            One("0004A30B001A2B3C", Ok(NO_SESSION)),
            One("0004a30b001a2b3d", Err(ReportFault::Device)),
            // in another form than 16 digits
            One("", Err(ReportFault::Device)),
            One("town", Err(ReportFault::Device)),
            One("0004a30b001a2b3", Err(ReportFault::Device)),
            One("0004a30b001a2b3c0", Err(ReportFault::Device)),
            One("0004a30b001a2b3c00", Err(ReportFault::Device)),
            One("0x0004a30b001a2b3c", Err(ReportFault::Device)),
            One("0x04a30b001a2b3c", Err(ReportFault::Device)),
            One("0004a30b001a2b3g", Err(ReportFault::Device)),
            // without an uplink
            Receptions("0004a30b001a2b3c", "2024-02", Ok("")),
            Receptions("0004a30b001a2b3d", "2024-02", Err(ReportFault::Device)),
            Receptions("town", "2024-02", Err(ReportFault::Device)),
            Receptions("0x0004a30b001a2b3c", "2024-02", Err(ReportFault::Device)),
            Receptions("", "2024-02", Err(ReportFault::Device)),
            Receptions("town", "2024-00", Err(ReportFault::Month)),
            Receptions("0004a30b001a2b3c", "2100-01", Err(ReportFault::Month)),
            Receptions("0004a30b001a2b3c", "", Err(ReportFault::Month)),
        ],
    ),
];

/// Then a join, two data frames, a frame at a second gateway, and two downlinks.
#[rattlefmt::skip]
static WITH_FRAMES: [Step; 1] = [
    (
        &[
            Joins("bridge", 10, FIRST, FIRST_ADDED),
            Frames("bridge", 11, HEARD, Framed(41_216, "B3", false, 0, DEVICE_EUI, 2)),
            Frames("bridge", 12, Heard { time: 951_868_800_041_215, octets: UP_1, verdict: "1", ..HEARD }, Framed(41_216, "B3", false, 1, DEVICE_EUI, 3)),
            Books("bridge", 13, Down { uplink: 1, octets: ACCEPT, ..DOWN }, Booked(46_336, "B3", 1, 1_706_745_605_061_696)),
            Books("bridge", 14, Down { window: 2, octets: DOWN_0, ..DOWN }, Booked(991_232, "B5", 2, 1_706_745_702_041_216)),
            Asks("bridge", 15, "DownDone", r#""Booking":2,"Sent":false"#, SUCCESS),
            Frames("bridge", 8, Heard { gateway: "gw-b", time: 1_706_745_700_041_220, freq: 868_500_000, rate: 4, ..HEARD }, Framed(41_216, "B3", true, 0, DEVICE_EUI, 2)),
            // a message that is heard and refused has a number, one that isn't heard has none
            Asks("bridge", 16, "OwnerAdd", TOWN, ROLE),
            Asks("bridge", 30, "SenderAdd", AS_ADMIN, BODY),
            Asks("bridge", 9, "OwnerAdd", TOWN, ROLE),
        ],
        &[
            All(Senders, "bridge,radio,16\noffice,operator,900004\n"),
            All(Owners, "town,1\n"),
            All(Gateways, OWN_LIMITS),
            All(Devices, ONE_SESSION),
            One("0004a30b001a2b3c", Ok(ONE_SESSION)),
            Receptions("0004a30b001a2b3c", "2024-02", Ok(FEBRUARY)),
            Receptions("0004A30B001A2B3C", "2024-02", Ok(FEBRUARY)),
            Receptions("0004a30b001a2b3c", "2000-02", Ok(LEAP_DAY)),
            Receptions("0004a30b001a2b3c", "2000-03", Ok("")),
            Receptions("0004a30b001a2b3c", "2024-01", Ok("")),
            Receptions("0004a30b001a2b3c", "2024-03", Ok("")),
            Downlinks("gw-a", "2024-02", Ok(DROPPED)),
            Downlinks("gw-a", "2024-01", Ok("")),
            Downlinks("gw-a", "2024-03", Ok("")),
            Downlinks("gw-b", "2024-02", Ok("")),
        ],
    ),
];

/// Then a second join, and more of all.
#[rattlefmt::skip]
static LATER: [Step; 2] = [
    (
        &[
            Joins("bridge", 17, Heard { octets: NONCE_1, ..FIRST }, Joined(61_696, "B3", false, "01a00001", 4)),
            Books("bridge", 7, Down { uplink: 3, octets: DOWN_1, ..DOWN }, Booked(41_216, "B3", 3, 951_868_801_041_215)),
            Books("bridge", 6, Down { uplink: 4, window: 2, octets: ACCEPT, ..DOWN }, Booked(1_155_072, "B5", 4, 1_706_745_606_061_696)),
            Asks("bridge", 5, "DownDone", SENT_1, SUCCESS),
            Asks("office", 900_005, "OwnerAdd", PORT, SUCCESS),
            Asks("office", 900_006, "DeviceMove", DEVICE_TO_PORT, SUCCESS),
            Asks("office", 900_007, "LimitSet", HALF_OF_B3, SUCCESS),
        ],
        &[
            All(Senders, "bridge,radio,17\noffice,operator,900007\n"),
            All(Owners, "port,1\ntown,0\n"),
            All(Gateways, HALF_LIMIT),
            All(Devices, TWO_SESSIONS),
            One("0004a30b001a2b3c", Ok(TWO_SESSIONS)),
            Receptions("0004a30b001a2b3c", "2024-02", Ok(WITH_TWO_JOINS)),
            Receptions("0004a30b001a2b3c", "2000-02", Ok(LEAP_DAY)),
            Downlinks("gw-a", "2024-02", Ok(SENT)),
            Downlinks("gw-a", "2000-02", Ok("")),
            Downlinks("gw-a", "2000-03", Ok(MARCH)),
            Downlinks("gw-b", "2024-02", Ok("")),
        ],
    ),
    (
        &[
            Asks("office", 900_008, "OwnerAdd", r#""Owner":"town-2""#, SUCCESS),
            Asks("office", 900_009, "OwnerAdd", r#""Owner":"Zoo""#, SUCCESS),
            Asks("office", 900_010, "GatewayAdd", r#""Gateway":"GW-C""#, SUCCESS),
            Asks("office", 900_011, "SenderAdd", r#""Sender":"office-2","Role":"operator""#, SUCCESS),
            Asks("office", 900_012, "SenderAdd", r#""Sender":"Third","Role":"radio""#, SUCCESS),
            Asks("office", 900_013, "DeviceAdd", r#""DevEUI":"ffffffffffffffff","JoinEUI":"ffffffffffffffff","Owner":"town-2""#, SUCCESS),
            Asks("office", 900_014, "DeviceAdd", OTHER, SUCCESS),
            Asks("office", 900_015, "DeviceAdd", r#""DevEUI":"0000000000000001","JoinEUI":"0000000000000000","Owner":"town""#, SUCCESS),
        ],
        &[
            All(Senders, "Third,radio,\nbridge,radio,17\noffice,operator,900015\noffice-2,operator,\n"),
            All(Owners, "Zoo,0\nport,1\ntown,2\ntown-2,1\n"),
            All(Gateways, THREE_GATEWAYS),
            All(Devices, FOUR_DEVICES),
            One("0004a30b001a2b3c", Ok(TWO_SESSIONS)),
            Receptions("ffffffffffffffff", "2024-02", Ok("")),
            Downlinks("GW-C", "2024-02", Ok("")),
        ],
    ),
];

const RECEPTION_HEADER: &str =
    "uplink,session,kind,counter,gateway,end_us,freq_hz,dr,start_us,airtime_us,band,phy\n";

const DOWNLINK_HEADER: &str = "booking,uplink,kind,band,start_us,airtime_us,state\n";

fn header_of(of: ListOf) -> &'static str {
    match of {
        Senders => "sender,role,last_transaction\n",
        Owners => "owner,devices\n",
        Gateways => {
            "gateway,b1_limit_us,b2_limit_us,b3_limit_us,b4_limit_us,b5_limit_us,b6_limit_us\n"
        }
        Devices => {
            "dev_eui,join_eui,owner,sessions,dev_addr,last_nonce,last_counter,next_downlink_counter,last_start_us\n"
        }
    }
}

fn expect_list<R: Abort + AllocGlobal, K: Keeper>(rt: &R, keeper: &mut K, listed: &Listed) {
    match listed {
        All(of, wanted) => {
            let report = list(rt.alloc(), keeper, *of);
            expect_wanted(rt, "a list", &report, header_of(*of), &Ok(*wanted));
        }
        One(dev_eui, wanted) => {
            let report = device_report(rt.alloc(), keeper, dev_eui);
            expect_wanted(rt, dev_eui, &report, header_of(Devices), wanted);
        }
        Receptions(dev_eui, month, wanted) => {
            let report = reception_report(rt.alloc(), keeper, dev_eui, month);
            expect_wanted(rt, month, &report, RECEPTION_HEADER, wanted);
        }
        Downlinks(gateway, month, wanted) => {
            let report = downlink_report(rt.alloc(), keeper, gateway, month);
            expect_wanted(rt, month, &report, DOWNLINK_HEADER, wanted);
        }
    }
}

fn expect_lists<R: Abort + AllocGlobal, K: Keeper>(rt: &R, keeper: &mut K, wanted: &[Listed]) {
    for listed in wanted {
        expect_list(rt, keeper, listed);
    }
}

/// Each step's messages are heard, and then its lists are as they are to be.
fn expect_steps<R: Abort + AllocGlobal, K: Keeper>(
    rt: &R,
    keeper: &mut K,
    steps: &[Step],
) -> Result<(), Fail> {
    for (rows, wanted) in steps {
        deliver_each(rt, keeper, rows)?;
        expect_lists(rt, keeper, wanted);
    }
    Ok(())
}

// Each table is named by a function of its own, since a proof writes out what it names.
fn expect_before_frames<R: Abort + AllocGlobal, K: Keeper>(
    rt: &R,
    keeper: &mut K,
) -> Result<(), Fail> {
    expect_steps(rt, keeper, &BEFORE_FRAMES)
}

fn expect_with_frames<R: Abort + AllocGlobal, K: Keeper>(
    rt: &R,
    keeper: &mut K,
) -> Result<(), Fail> {
    expect_steps(rt, keeper, &WITH_FRAMES)
}

fn expect_later<R: Abort + AllocGlobal, K: Keeper>(rt: &R, keeper: &mut K) -> Result<(), Fail> {
    expect_steps(rt, keeper, &LATER)
}

pub(super) fn are_told<R: Abort + AllocGlobal, K: Opened>(rt: &R) -> Result<(), Fail> {
    let mut keeper = opening::<K>(rt.alloc(), 65_536)?;
    expect_lists(rt, &mut *keeper, &NEW);
    deliver_each(rt, &mut *keeper, &SETUP)?;
    expect_before_frames(rt, &mut *keeper)?;
    expect_with_frames(rt, &mut *keeper)?;
    expect_later(rt, &mut *keeper)
}
