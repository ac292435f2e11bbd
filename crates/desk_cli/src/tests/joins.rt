//! Join requests that gateways report, and what they are told.
use super::rows::Exchange::{Asks, Joins, Letters};
use super::rows::Told::{Joined, Plain};
use super::rows::{BODY, DEVICE, Exchange, Heard, OTHER, REUSED, SUCCESS, Told, UNKNOWN_DEVICE};

pub(super) const TIME: Told = Plain(0, "time", "Other");

pub(super) const GATEWAY: Told = Plain(0, "gateway", "Other");

pub(super) const FRAME: Told = Plain(0, "frame", "Other");

pub(super) const BAND: Told = Plain(0, "band", "Other");

const JOIN_EUI: Told = Plain(0, "joineui", "JoinReqFailed");

pub(super) const MIC: Told = Plain(0, "", "MICFailed");

pub(super) const NONCE: Told = Plain(0, "nonce", "JoinReqFailed");

const ADDRESSES: Told = Plain(0, "addresses", "Other");

/// The worked join request, letter for letter.
const WORKED: &str =
    r#"{"ProtocolVersion":"1.0","SenderID":"bridge","ReceiverID":"desk","TransactionID":10,"MessageType":"JoinHeard","Gateway":"gw-a","Time":1706745600061696,"Freq":868100000,"DataRate":5,"PHYPayload":"00010000d07ed5b3703c2b1a000ba304000000a1b2c3d4","Verdict":"Good"}"#;

/// The answer of the worked join request.
const WORKED_ANSWER: &str =
    r#"{"Airtime":61696,"Band":"B3","Copy":false,"DevAddr":"01a00000","MessageType":"JoinHeardAns","ProtocolVersion":"1.0","ReceiverID":"bridge","Result":{"Description":"","ResultCode":"Success"},"SenderID":"desk","TransactionID":10,"Uplink":1}"#;

pub(super) const FIRST_ADDED: Told = Joined(61_696, "B3", false, "01a00000", 1);

pub(super) const FIRST_COPIED: Told = Joined(61_696, "B3", true, "01a00000", 1);

// Join requests of the device. The nonce is octets 17 and 18, the lowest first, and the MIC the last four.

pub(super) const NONCE_0: &str = "00010000d07ed5b3703c2b1a000ba304000000a1b2c3d4";

const NONCE_0_IN_CAPITALS: &str = "0x00010000D07ED5B3703C2B1A000BA304000000A1B2C3D4";

pub(super) const NONCE_0_OTHER_MIC: &str = "00010000d07ed5b3703c2b1a000ba304000000a1b2c3d5";

pub(super) const NONCE_1: &str = "00010000d07ed5b3703c2b1a000ba304000100a1b2c3d4";

pub(super) const NONCE_2: &str = "00010000d07ed5b3703c2b1a000ba304000200a1b2c3d4";

const NONCE_3: &str = "00010000d07ed5b3703c2b1a000ba304000300a1b2c3d4";

const NONCE_4: &str = "00010000d07ed5b3703c2b1a000ba304000400a1b2c3d4";

const NONCE_5: &str = "00010000d07ed5b3703c2b1a000ba304000500a1b2c3d4";

const NONCE_6: &str = "00010000d07ed5b3703c2b1a000ba304000600a1b2c3d4";

const NONCE_7: &str = "00010000d07ed5b3703c2b1a000ba304000700a1b2c3d4";

const NONCE_255: &str = "00010000d07ed5b3703c2b1a000ba30400ff00a1b2c3d4";

const NONCE_256: &str = "00010000d07ed5b3703c2b1a000ba304000001a1b2c3d4";

/// Of the device 0004a30b001a2b3d.
const OTHER_DEVICE: &str = "00010000d07ed5b3703d2b1a000ba304000000a1b2c3d4";

/// With the JoinEUI 70b3d57ed0000002.
const OTHER_JOIN_EUI: &str = "00020000d07ed5b3703c2b1a000ba304000000a1b2c3d4";

/// Of the device 0004a30b001a2b3d, with the JoinEUI 70b3d57ed0000002.
const OTHER_DEVICE_AND_JOIN_EUI: &str = "00020000d07ed5b3703d2b1a000ba304000000a1b2c3d4";

/// Without its last octet.
const CUT: &str = "00010000d07ed5b3703c2b1a000ba304000000a1b2c3";

/// Without its last digit.
const ODD: &str = "00010000d07ed5b3703c2b1a000ba304000000a1b2c3d";

/// A data frame.
const DATA: &str = "400000a00100000011223344";

/// The report of the worked join request.
pub(super) const FIRST: Heard = Heard {
    gateway: "gw-a",
    time: 1_706_745_600_061_696,
    freq: 868_100_000,
    rate: 5,
    octets: NONCE_0,
    verdict: "Good",
};

/// The same frame, as another gateway heard it.
pub(super) const AT_B: Heard = Heard {
    gateway: "gw-b",
    ..FIRST
};

/// Its upper edge is above that of B3.
const OUT_OF_BAND: Heard = Heard {
    freq: 868_562_500,
    rate: 0,
    ..FIRST
};

/// After the setup: joins, their copies, and each refusal that they may have.
#[rattlefmt::skip]
pub(super) static JOINS: [Exchange; 49] = [
    Asks("office", 900_004, "DeviceAdd", DEVICE, SUCCESS),
    Letters(WORKED, 0, WORKED_ANSWER),
    Joins("bridge", 10, FIRST, FIRST_ADDED),
    Joins("bridge", 10, Heard { octets: NONCE_0_IN_CAPITALS, ..FIRST }, FIRST_ADDED),
    Joins("bridge", 10, Heard { verdict: "Bad", ..FIRST }, REUSED),
    Joins("bridge", 11, AT_B, FIRST_COPIED),
    Joins("bridge", 12, Heard { octets: NONCE_0_OTHER_MIC, ..FIRST }, NONCE),
    Joins("bridge", 13, Heard { octets: NONCE_1, ..FIRST }, Joined(61_696, "B3", false, "01a00001", 2)),
    Joins("bridge", 14, FIRST, FIRST_COPIED),
    // a copy tells of the uplink that is booked, however it was heard itself
    Joins("bridge", 15, Heard { freq: 869_525_000, rate: 0, ..AT_B }, FIRST_COPIED),
    Joins("bridge", 16, Heard { rate: 0, octets: NONCE_2, ..FIRST }, Joined(1_482_752, "B3", false, "01a00002", 3)),
    Joins("bridge", 17, Heard { octets: CUT, ..FIRST }, FRAME),
    Joins("bridge", 18, Heard { octets: DATA, ..FIRST }, FRAME),
    // edges of bands
    Joins("bridge", 19, Heard { freq: 868_537_500, rate: 0, octets: NONCE_3, ..FIRST }, Joined(1_482_752, "B3", false, "01a00003", 4)),
    Joins("bridge", 20, Heard { octets: NONCE_4, ..OUT_OF_BAND }, BAND),
    Joins("bridge", 21, Heard { freq: 868_000_000, octets: NONCE_4, ..FIRST }, BAND),
    Joins("bridge", 22, Heard { freq: 868_500_000, rate: 6, octets: NONCE_4, ..FIRST }, BAND),
    Joins("bridge", 23, Heard { freq: 868_475_000, rate: 6, octets: NONCE_4, ..FIRST }, Joined(30_848, "B3", false, "01a00004", 5)),
    // an operator may tell of a join too
    Joins("office", 24, Heard { freq: 869_525_000, octets: NONCE_5, ..FIRST }, Joined(61_696, "B5", false, "01a00005", 6)),
    // edges of times
    Joins("bridge", 25, Heard { time: 946_684_799_999_999, octets: NONCE_6, ..FIRST }, TIME),
    Joins("bridge", 26, Heard { time: 4_102_444_800_000_001, octets: NONCE_6, ..FIRST }, TIME),
    Joins("bridge", 27, Heard { time: 9_007_199_254_740_991, octets: NONCE_6, ..FIRST }, TIME),
    Joins("bridge", 28, Heard { time: 946_684_800_000_000, octets: NONCE_6, ..FIRST }, Joined(61_696, "B3", false, "01a00006", 7)),
    Joins("bridge", 29, Heard { time: 4_102_444_800_000_000, octets: NONCE_7, ..FIRST }, Joined(61_696, "B3", false, "01a00007", 8)),
    // nonces are numbers, whose low octet comes first
    Joins("bridge", 30, Heard { octets: NONCE_256, ..FIRST }, Joined(61_696, "B3", false, "01a00008", 9)),
    Joins("bridge", 31, Heard { octets: NONCE_255, ..FIRST }, NONCE),
    // each check before those that come after it
    Joins("bridge", 32, Heard { gateway: "gw-c", ..FIRST }, GATEWAY),
    Joins("bridge", 33, Heard { gateway: "gw-c", octets: CUT, ..FIRST }, GATEWAY),
    Joins("bridge", 34, Heard { octets: CUT, ..OUT_OF_BAND }, FRAME),
    Joins("bridge", 35, Heard { octets: OTHER_DEVICE, ..OUT_OF_BAND }, BAND),
    Joins("bridge", 36, Heard { octets: OTHER_DEVICE, ..FIRST }, UNKNOWN_DEVICE),
    Joins("bridge", 37, Heard { octets: OTHER_DEVICE_AND_JOIN_EUI, verdict: "Bad", ..FIRST }, UNKNOWN_DEVICE),
    Joins("bridge", 38, Heard { octets: OTHER_JOIN_EUI, ..FIRST }, JOIN_EUI),
    Joins("bridge", 39, Heard { octets: OTHER_JOIN_EUI, verdict: "Bad", ..FIRST }, JOIN_EUI),
    Joins("bridge", 40, Heard { octets: NONCE_0_OTHER_MIC, verdict: "Bad", ..FIRST }, MIC),
    // a copy that fails a check is no copy
    Joins("bridge", 41, Heard { verdict: "Bad", ..FIRST }, MIC),
    Joins("bridge", 42, Heard { verdict: "Bad", ..AT_B }, MIC),
    Joins("bridge", 43, OUT_OF_BAND, BAND),
    Joins("bridge", 44, FIRST, FIRST_COPIED),
    // another device has nonces of its own, and what was refused stays so
    Asks("office", 900_005, "DeviceAdd", OTHER, SUCCESS),
    Joins("bridge", 36, Heard { octets: OTHER_DEVICE, ..FIRST }, UNKNOWN_DEVICE),
    Joins("bridge", 45, Heard { octets: OTHER_DEVICE, ..FIRST }, Joined(61_696, "B3", false, "01a00009", 10)),
    Joins("bridge", 46, Heard { octets: OTHER_DEVICE, ..AT_B }, Joined(61_696, "B3", true, "01a00009", 10)),
    Joins("bridge", 47, AT_B, FIRST_COPIED),
    // members that aren't in their form
    Joins("bridge", 48, Heard { rate: 8, ..FIRST }, BODY),
    Joins("bridge", 48, Heard { verdict: "good", ..FIRST }, BODY),
    Joins("bridge", 48, Heard { time: 9_007_199_254_740_992, ..FIRST }, BODY),
    Joins("bridge", 48, Heard { octets: ODD, ..FIRST }, BODY),
    // none of them used its number
    Joins("bridge", 48, FIRST, FIRST_COPIED),
];

/// After the setup, where the desk has one address: the checks that come first and last.
#[rattlefmt::skip]
pub(super) static ONE_ADDRESS: [Exchange; 7] = [
    Asks("office", 900_004, "DeviceAdd", DEVICE, SUCCESS),
    Joins("bridge", 10, Heard { gateway: "gw-c", time: 946_684_799_999_999, ..FIRST }, TIME),
    Joins("bridge", 11, Heard { verdict: "Bad", ..FIRST }, MIC),
    Joins("bridge", 12, FIRST, FIRST_ADDED),
    Joins("bridge", 13, Heard { octets: NONCE_1, ..FIRST }, ADDRESSES),
    Joins("bridge", 14, Heard { octets: NONCE_0_OTHER_MIC, ..FIRST }, NONCE),
    Joins("bridge", 15, FIRST, FIRST_COPIED),
];
