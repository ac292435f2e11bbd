//! Downlinks that gateways are to send, and what they are told.
use super::joins::{FIRST, FIRST_ADDED, FRAME, GATEWAY, NONCE_0};
use super::rows::Exchange::{Asks, Books, Frames, Joins, Letters};
use super::rows::Told::{Booked, Framed, Plain};
use super::rows::{BODY, DEVICE, Down, Exchange, Heard, REUSED, SUCCESS, Told};

const NO_UPLINK: Told = Plain(0, "uplink", "Other");

const UNKNOWN_ADDRESS: Told = Plain(0, "", "UnknownDevAddr");

pub(super) const ANSWERED: Told = Plain(0, "answered", "XmitFailed");

const COUNTER: Told = Plain(0, "fcntdown", "Other");

const COLLISION: Told = Plain(0, "collision", "XmitFailed");

pub(super) const DUTY: Told = Plain(0, "duty", "XmitFailed");

const NO_BOOKING: Told = Plain(0, "booking", "Other");

pub(super) const DONE: Told = Plain(0, "done", "Other");

pub(super) const DEVICE_EUI: &str = "0004a30b001a2b3c";

// Data frames of the device, by FCnt.

pub(super) const UP_0: &str = "400000a00100000011223344";

pub(super) const UP_1: &str = "400000a00100010011223344";

pub(super) const UP_2: &str = "400000a00100020011223344";

pub(super) const UP_3: &str = "400000a00100030011223344";

const UP_4: &str = "400000a00100040011223344";

// Data frames for the device, by FCnt.

pub(super) const DOWN_0: &str = "600000a00100000055667788";

pub(super) const DOWN_1: &str = "600000a00100010055667788";

pub(super) const DOWN_2: &str = "600000a00100020055667788";

pub(super) const DOWN_3: &str = "600000a00100030055667788";

pub(super) const DOWN_4: &str = "600000a00100040055667788";

/// FCnt 0, and 33 octets in all.
const DOWN_OF_33: &str = "600000a00100000001000000000000000000000000000000000000000055667788";

/// FCnt 0, and 64 octets in all.
const DOWN_OF_64: &str =
    "600000a0010000000100000000000000000000000000000000000000000000000000000000000000000000000000000000000000000000000000000055667788";

/// FCnt 0, and 65 octets in all.
const DOWN_OF_65: &str =
    "600000a001000000010000000000000000000000000000000000000000000000000000000000000000000000000000000000000000000000000000000055667788";

/// FCnt 1, and 65 octets in all.
const DOWN_1_OF_65: &str =
    "600000a001000100010000000000000000000000000000000000000000000000000000000000000000000000000000000000000000000000000000000055667788";

/// For the address 01a00001.
const DOWN_TO_OTHER: &str = "600100a00100000055667788";

pub(super) const ACCEPT: &str = "20000102030405060708090a0b0c0d0e0f";

/// The report of a data frame that ends where the worked month begins.
const HEARD: Heard = Heard {
    gateway: "gw-a",
    time: 1_706_745_600_000_000,
    freq: 868_100_000,
    rate: 5,
    octets: UP_0,
    verdict: "0",
};

pub(super) const DOWN: Down = Down {
    uplink: 2,
    gateway: "gw-a",
    window: 1,
    octets: DOWN_0,
};

/// The worked downlink, letter for letter.
const WORKED: &str =
    r#"{"ProtocolVersion":"1.0","SenderID":"bridge","ReceiverID":"desk","TransactionID":13,"MessageType":"DownBook","Uplink":1,"Gateway":"gw-a","Window":1,"PHYPayload":"20000102030405060708090a0b0c0d0e0f"}"#;

/// The answer of the worked downlink.
const WORKED_ANSWER: &str =
    r#"{"Airtime":46336,"Band":"B3","Booking":1,"MessageType":"DownBookAns","ProtocolVersion":"1.0","ReceiverID":"bridge","Result":{"Description":"","ResultCode":"Success"},"SenderID":"desk","Start":1706745605061696,"TransactionID":13}"#;

/// What became of the worked downlink, letter for letter.
const WORKED_END: &str =
    r#"{"ProtocolVersion":"1.0","SenderID":"bridge","ReceiverID":"desk","TransactionID":14,"MessageType":"DownDone","Booking":1,"Sent":true}"#;

/// The answer to what became of it.
const WORKED_END_ANSWER: &str =
    r#"{"MessageType":"DownDoneAns","ProtocolVersion":"1.0","ReceiverID":"bridge","Result":{"Description":"","ResultCode":"Success"},"SenderID":"desk","TransactionID":14}"#;

pub(super) const SENT_1: &str = r#""Booking":1,"Sent":true"#;

pub(super) const DROPPED_1: &str = r#""Booking":1,"Sent":false"#;

const DROPPED_2: &str = r#""Booking":2,"Sent":false"#;

const DROPPED_3: &str = r#""Booking":3,"Sent":false"#;

const DROPPED_0: &str = r#""Booking":0,"Sent":false"#;

const DROPPED_99: &str = r#""Booking":99,"Sent":false"#;

const SENT_AS_TEXT: &str = r#""Booking":1,"Sent":"true""#;

pub(super) const WITHOUT_SENT: &str = r#""Booking":1"#;

/// After the setup: the worked downlinks, and one of an uplink at its other gateway.
#[rattlefmt::skip]
pub(super) static WORKED_DOWNLINKS: [Exchange; 14] = [
    Asks("office", 900_004, "DeviceAdd", DEVICE, SUCCESS),
    Joins("bridge", 10, FIRST, FIRST_ADDED),
    Frames("bridge", 11, Heard { time: 1_706_745_700_041_216, freq: 868_300_000, ..HEARD }, Framed(41_216, "B3", false, 0, DEVICE_EUI, 2)),
    Frames("bridge", 12, Heard { gateway: "gw-b", time: 1_706_745_700_041_220, freq: 868_300_000, rate: 6, ..HEARD }, Framed(41_216, "B3", true, 0, DEVICE_EUI, 2)),
    Letters(WORKED, 0, WORKED_ANSWER),
    Letters(WORKED_END, 0, WORKED_END_ANSWER),
    Asks("bridge", 15, "DownDone", DROPPED_1, DONE),
    // what was sent still answers its uplink
    Books("bridge", 16, Down { uplink: 1, window: 2, octets: ACCEPT, ..DOWN }, ANSWERED),
    Books("bridge", 17, Down { uplink: 2, octets: DOWN_0, ..DOWN }, Booked(41_216, "B3", 2, 1_706_745_701_041_216)),
    Asks("office", 18, "DownDone", DROPPED_2, SUCCESS),
    Books("bridge", 19, Down { uplink: 2, window: 2, octets: DOWN_1, ..DOWN }, Booked(991_232, "B5", 3, 1_706_745_702_041_216)),
    Asks("bridge", 20, "DownDone", DROPPED_3, SUCCESS),
    // the other gateway has its own reception, which ended later and was heard at another data rate; a later report of it changes nothing
    Frames("bridge", 21, Heard { gateway: "gw-b", time: 1_706_745_700_041_225, freq: 868_300_000, ..HEARD }, Framed(41_216, "B3", true, 0, DEVICE_EUI, 2)),
    Books("bridge", 22, Down { uplink: 2, gateway: "gw-b", octets: DOWN_2, ..DOWN }, Booked(20_608, "B3", 4, 1_706_745_701_041_220)),
];

/// After the setup: three downlinks of an hour.
#[rattlefmt::skip]
pub(super) static HOUR_BEGUN: [Exchange; 8] = [
    Asks("office", 900_004, "DeviceAdd", DEVICE, SUCCESS),
    Joins("bridge", 10, FIRST, FIRST_ADDED),
    Frames("bridge", 11, Heard { time: 1_706_745_599_000_000, freq: 868_800_000, rate: 0, octets: UP_0, verdict: "0", ..HEARD }, Framed(1_155_072, "B4", false, 0, DEVICE_EUI, 2)),
    Frames("bridge", 12, Heard { time: 1_706_745_609_000_000, freq: 868_800_000, rate: 0, octets: UP_1, verdict: "1", ..HEARD }, Framed(1_155_072, "B4", false, 1, DEVICE_EUI, 3)),
    Frames("bridge", 13, Heard { time: 1_706_745_619_000_000, freq: 868_800_000, rate: 0, octets: UP_2, verdict: "2", ..HEARD }, Framed(1_155_072, "B4", false, 2, DEVICE_EUI, 4)),
    Books("bridge", 15, Down { uplink: 2, octets: DOWN_0, ..DOWN }, Booked(991_232, "B4", 1, 1_706_745_600_000_000)),
    Books("bridge", 16, Down { uplink: 3, octets: DOWN_1, ..DOWN }, Booked(991_232, "B4", 2, 1_706_745_610_000_000)),
    Books("bridge", 17, Down { uplink: 4, octets: DOWN_2, ..DOWN }, Booked(991_232, "B4", 3, 1_706_745_620_000_000)),
];

/// After them: the fourth, by which the hour holds just its limit.
#[rattlefmt::skip]
pub(super) static HOURS: [Exchange; 2] = [
    Frames("bridge", 14, Heard { time: 1_706_749_198_373_696, freq: 868_800_000, rate: 0, octets: UP_3, verdict: "3", ..HEARD }, Framed(1_155_072, "B4", false, 3, DEVICE_EUI, 5)),
    Books("bridge", 18, Down { uplink: 5, octets: DOWN_3, ..DOWN }, Booked(991_232, "B4", 4, 1_706_749_199_373_696)),
];

/// After the three: the fourth would make the hour hold one microsecond above its limit.
#[rattlefmt::skip]
pub(super) static HOURS_ABOVE: [Exchange; 8] = [
    Frames("bridge", 14, Heard { time: 1_706_749_198_373_695, freq: 868_800_000, rate: 0, octets: UP_3, verdict: "3", ..HEARD }, Framed(1_155_072, "B4", false, 3, DEVICE_EUI, 5)),
    // one microsecond more
    Books("bridge", 18, Down { uplink: 5, octets: DOWN_3, ..DOWN }, DUTY),
    // what was sent is on the air as before, and what is dropped no more
    Asks("bridge", 19, "DownDone", SENT_1, SUCCESS),
    Books("bridge", 20, Down { uplink: 5, octets: DOWN_3, ..DOWN }, DUTY),
    Asks("bridge", 21, "DownDone", DROPPED_2, SUCCESS),
    Books("bridge", 22, Down { uplink: 5, octets: DOWN_3, ..DOWN }, Booked(991_232, "B4", 4, 1_706_749_199_373_695)),
    // the other band of the second window has room
    Frames("bridge", 23, Heard { time: 1_706_749_198_373_695, freq: 868_800_000, rate: 0, octets: UP_4, verdict: "4", ..HEARD }, Framed(1_155_072, "B4", false, 4, DEVICE_EUI, 6)),
    Books("bridge", 24, Down { uplink: 6, window: 2, octets: DOWN_4, ..DOWN }, Booked(991_232, "B5", 5, 1_706_749_200_373_695)),
];

/// After the setup: a downlink before two that stand, in hours that hold just the limit.
#[rattlefmt::skip]
pub(super) static BETWEEN: [Exchange; 8] = [
    Asks("office", 900_004, "DeviceAdd", DEVICE, SUCCESS),
    Joins("bridge", 10, FIRST, FIRST_ADDED),
    Frames("bridge", 11, Heard { time: 1_706_747_399_000_000, freq: 868_800_000, rate: 0, octets: UP_0, verdict: "0", ..HEARD }, Framed(1_155_072, "B4", false, 0, DEVICE_EUI, 2)),
    Frames("bridge", 12, Heard { time: 1_706_749_198_201_664, freq: 868_800_000, rate: 0, octets: UP_1, verdict: "1", ..HEARD }, Framed(1_155_072, "B4", false, 1, DEVICE_EUI, 3)),
    Frames("bridge", 13, Heard { time: 1_706_745_599_000_000, freq: 868_800_000, rate: 0, octets: UP_2, verdict: "2", ..HEARD }, Framed(1_155_072, "B4", false, 2, DEVICE_EUI, 4)),
    Books("bridge", 14, Down { uplink: 2, octets: DOWN_OF_33, ..DOWN }, Booked(1_810_432, "B4", 1, 1_706_747_400_000_000)),
    Books("bridge", 15, Down { uplink: 3, octets: DOWN_1, ..DOWN }, Booked(991_232, "B4", 2, 1_706_749_199_201_664)),
    Books("bridge", 16, Down { uplink: 4, octets: DOWN_2, ..DOWN }, Booked(991_232, "B4", 3, 1_706_745_600_000_000)),
];

/// After the setup: the same, one microsecond above it.
#[rattlefmt::skip]
pub(super) static BETWEEN_ABOVE: [Exchange; 8] = [
    Asks("office", 900_004, "DeviceAdd", DEVICE, SUCCESS),
    Joins("bridge", 10, FIRST, FIRST_ADDED),
    Frames("bridge", 11, Heard { time: 1_706_747_399_000_000, freq: 868_800_000, rate: 0, octets: UP_0, verdict: "0", ..HEARD }, Framed(1_155_072, "B4", false, 0, DEVICE_EUI, 2)),
    Frames("bridge", 12, Heard { time: 1_706_749_198_201_663, freq: 868_800_000, rate: 0, octets: UP_1, verdict: "1", ..HEARD }, Framed(1_155_072, "B4", false, 1, DEVICE_EUI, 3)),
    Frames("bridge", 13, Heard { time: 1_706_745_599_000_000, freq: 868_800_000, rate: 0, octets: UP_2, verdict: "2", ..HEARD }, Framed(1_155_072, "B4", false, 2, DEVICE_EUI, 4)),
    Books("bridge", 14, Down { uplink: 2, octets: DOWN_OF_33, ..DOWN }, Booked(1_810_432, "B4", 1, 1_706_747_400_000_000)),
    Books("bridge", 15, Down { uplink: 3, octets: DOWN_1, ..DOWN }, Booked(991_232, "B4", 2, 1_706_749_199_201_663)),
    Books("bridge", 16, Down { uplink: 4, octets: DOWN_2, ..DOWN }, DUTY),
];

/// After the setup: downlinks of one gateway and of another, end to end and over each other.
#[rattlefmt::skip]
pub(super) static COLLISIONS: [Exchange; 20] = [
    Asks("office", 900_004, "DeviceAdd", DEVICE, SUCCESS),
    Joins("bridge", 10, FIRST, FIRST_ADDED),
    Frames("bridge", 11, Heard { time: 1_706_745_600_000_000, freq: 868_100_000, octets: UP_0, verdict: "0", ..HEARD }, Framed(41_216, "B3", false, 0, DEVICE_EUI, 2)),
    Frames("bridge", 12, Heard { time: 1_706_745_601_991_231, freq: 868_100_000, octets: UP_1, verdict: "1", ..HEARD }, Framed(41_216, "B3", false, 1, DEVICE_EUI, 3)),
    Frames("bridge", 13, Heard { time: 1_706_745_601_991_232, freq: 868_100_000, octets: UP_2, verdict: "2", ..HEARD }, Framed(41_216, "B3", false, 2, DEVICE_EUI, 4)),
    Frames("bridge", 14, Heard { time: 1_706_745_600_958_785, freq: 868_100_000, octets: UP_3, verdict: "3", ..HEARD }, Framed(41_216, "B3", false, 3, DEVICE_EUI, 5)),
    Frames("bridge", 15, Heard { time: 1_706_745_600_958_784, freq: 868_100_000, octets: UP_4, verdict: "4", ..HEARD }, Framed(41_216, "B3", false, 4, DEVICE_EUI, 6)),
    Frames("bridge", 16, Heard { gateway: "gw-b", time: 1_706_745_601_991_231, octets: UP_1, verdict: "1", ..HEARD }, Framed(41_216, "B3", true, 1, DEVICE_EUI, 3)),
    Books("bridge", 17, Down { uplink: 2, window: 2, octets: DOWN_0, ..DOWN }, Booked(991_232, "B5", 1, 1_706_745_602_000_000)),
    // downlinks of one gateway share no microsecond, whatever their bands, and one may begin where another ends
    Books("bridge", 18, Down { uplink: 3, octets: DOWN_1, ..DOWN }, COLLISION),
    Books("bridge", 27, Down { uplink: 3, octets: DOWN_2, ..DOWN }, COUNTER),
    Books("bridge", 19, Down { uplink: 4, octets: DOWN_1, ..DOWN }, Booked(41_216, "B3", 2, 1_706_745_602_991_232)),
    Books("bridge", 20, Down { uplink: 5, octets: DOWN_2, ..DOWN }, COLLISION),
    Books("bridge", 21, Down { uplink: 6, octets: DOWN_2, ..DOWN }, Booked(41_216, "B3", 3, 1_706_745_601_958_784)),
    // another gateway may send at the same time
    Books("bridge", 22, Down { uplink: 3, gateway: "gw-b", octets: DOWN_3, ..DOWN }, Booked(41_216, "B3", 4, 1_706_745_602_991_231)),
    // what is dropped is in nobody's way
    Asks("bridge", 23, "DownDone", DROPPED_1, SUCCESS),
    Books("bridge", 24, Down { uplink: 5, octets: DOWN_4, ..DOWN }, COLLISION),
    Asks("bridge", 25, "DownDone", DROPPED_3, SUCCESS),
    Books("bridge", 26, Down { uplink: 5, octets: DOWN_4, ..DOWN }, Booked(41_216, "B3", 5, 1_706_745_601_958_785)),
    // its first answer stays, though it would be booked now
    Books("bridge", 24, Down { uplink: 5, octets: DOWN_4, ..DOWN }, COLLISION),
];

/// After the setup: each refusal of a downlink, and of what became of it.
#[rattlefmt::skip]
pub(super) static DOWNLINKS: [Exchange; 33] = [
    Asks("office", 900_004, "DeviceAdd", DEVICE, SUCCESS),
    Joins("bridge", 10, FIRST, FIRST_ADDED),
    Frames("bridge", 11, HEARD, Framed(41_216, "B3", false, 0, DEVICE_EUI, 2)),
    Frames("bridge", 12, Heard { time: 1_706_745_600_050_000, freq: 868_100_000, octets: UP_1, verdict: "1", ..HEARD }, Framed(41_216, "B3", false, 1, DEVICE_EUI, 3)),
    // each check before those that come after it
    Books("bridge", 13, Down { uplink: 99, gateway: "gw-c", octets: ACCEPT, ..DOWN }, GATEWAY),
    Books("bridge", 14, Down { uplink: 99, octets: ACCEPT, ..DOWN }, NO_UPLINK),
    Books("bridge", 15, Down { uplink: 0, octets: ACCEPT, ..DOWN }, NO_UPLINK),
    Books("bridge", 16, Down { uplink: 2, gateway: "gw-b", octets: DOWN_0, ..DOWN }, NO_UPLINK),
    Books("bridge", 17, Down { uplink: 2, octets: ACCEPT, ..DOWN }, FRAME),
    Books("bridge", 18, Down { uplink: 1, octets: DOWN_0, ..DOWN }, FRAME),
    Books("bridge", 19, Down { uplink: 2, octets: UP_0, ..DOWN }, FRAME),
    Books("bridge", 20, Down { uplink: 2, octets: NONCE_0, ..DOWN }, FRAME),
    Books("bridge", 21, Down { uplink: 2, window: 2, octets: DOWN_OF_65, ..DOWN }, FRAME),
    Books("bridge", 22, Down { uplink: 2, octets: DOWN_TO_OTHER, ..DOWN }, UNKNOWN_ADDRESS),
    Books("bridge", 23, Down { uplink: 2, octets: DOWN_1, ..DOWN }, COUNTER),
    // none of them booked anything
    Books("bridge", 24, Down { uplink: 2, octets: DOWN_0, ..DOWN }, Booked(41_216, "B3", 1, 1_706_745_601_000_000)),
    Books("bridge", 25, Down { uplink: 2, octets: DOWN_0, ..DOWN }, ANSWERED),
    Books("bridge", 26, Down { uplink: 2, octets: DOWN_TO_OTHER, ..DOWN }, UNKNOWN_ADDRESS),
    Books("bridge", 27, Down { uplink: 2, octets: DOWN_1, ..DOWN }, ANSWERED),
    Books("bridge", 28, Down { uplink: 3, octets: DOWN_0, ..DOWN }, COUNTER),
    Asks("bridge", 29, "DownDone", DROPPED_99, NO_BOOKING),
    Asks("bridge", 30, "DownDone", DROPPED_0, NO_BOOKING),
    Asks("bridge", 31, "DownDone", DROPPED_1, SUCCESS),
    Asks("bridge", 32, "DownDone", DROPPED_1, DONE),
    Asks("bridge", 33, "DownDone", SENT_1, DONE),
    // a dropped downlink frees its uplink, and its counter is used up
    Books("bridge", 34, Down { uplink: 2, octets: DOWN_0, ..DOWN }, COUNTER),
    Books("bridge", 35, Down { uplink: 2, octets: DOWN_1, ..DOWN }, Booked(41_216, "B3", 2, 1_706_745_601_000_000)),
    // a used number
    Books("bridge", 35, Down { uplink: 3, octets: DOWN_2, ..DOWN }, REUSED),
    Asks("bridge", 35, "DownDone", DROPPED_1, REUSED),
    // members that aren't in their form
    Books("bridge", 36, Down { uplink: 3, window: 3, octets: DOWN_2, ..DOWN }, BODY),
    Asks("bridge", 36, "DownDone", SENT_AS_TEXT, BODY),
    Asks("bridge", 36, "DownDone", WITHOUT_SENT, BODY),
    // none of them used its number; a second window carries 64 octets
    Books("bridge", 36, Down { uplink: 3, window: 2, octets: DOWN_2, ..DOWN }, Booked(991_232, "B5", 3, 1_706_745_602_050_000)),
];

/// After the setup: the longest downlink of the second window, and a longer one in the first.
#[rattlefmt::skip]
pub(super) static LENGTHS: [Exchange; 6] = [
    Asks("office", 900_004, "DeviceAdd", DEVICE, SUCCESS),
    Joins("bridge", 10, FIRST, FIRST_ADDED),
    Frames("bridge", 11, HEARD, Framed(41_216, "B3", false, 0, DEVICE_EUI, 2)),
    Frames("bridge", 12, Heard { time: 1_706_745_605_000_000, freq: 868_100_000, octets: UP_1, verdict: "1", ..HEARD }, Framed(41_216, "B3", false, 1, DEVICE_EUI, 3)),
    Books("bridge", 13, Down { uplink: 2, window: 2, octets: DOWN_OF_64, ..DOWN }, Booked(2_793_472, "B5", 1, 1_706_745_602_000_000)),
    Books("bridge", 14, Down { uplink: 3, octets: DOWN_1_OF_65, ..DOWN }, Booked(118_016, "B3", 2, 1_706_745_606_000_000)),
];
