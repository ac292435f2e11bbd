//! Data frames that gateways report, and what they are told.
use super::joins::{
    AT_B, BAND, FIRST, FIRST_ADDED, FRAME, GATEWAY, MIC, NONCE_0, NONCE_1, NONCE_2, TIME,
};
use super::rows::Exchange::{Asks, Frames, Joins, Letters};
use super::rows::Told::{Framed, Joined, Plain};
use super::rows::{BODY, DEVICE, Exchange, Heard, REUSED, SUCCESS, Told};

const UNKNOWN_ADDRESS: Told = Plain(0, "", "UnknownDevAddr");

const ENDED: Told = Plain(0, "session", "Other");

pub(super) const REPLAYED: Told = Plain(0, "replayed", "Other");

const LATE: Told = Plain(0, "late", "Other");

const GAP: Told = Plain(0, "gap", "Other");

/// The worked data frame, letter for letter.
const WORKED: &str =
    r#"{"ProtocolVersion":"1.0","SenderID":"bridge","ReceiverID":"desk","TransactionID":11,"MessageType":"FrameHeard","Gateway":"gw-a","Time":1706745700041216,"Freq":868300000,"DataRate":5,"PHYPayload":"400000a00100000011223344","Verdict":0}"#;

/// The answer of the worked data frame.
const WORKED_ANSWER: &str =
    r#"{"Airtime":41216,"Band":"B3","Copy":false,"Counter":0,"DevEUI":"0004a30b001a2b3c","MessageType":"FrameHeardAns","ProtocolVersion":"1.0","ReceiverID":"bridge","Result":{"Description":"","ResultCode":"Success"},"SenderID":"desk","TransactionID":11,"Uplink":2}"#;

/// The same frame at the other gateway, letter for letter.
const WORKED_COPY: &str =
    r#"{"ProtocolVersion":"1.0","SenderID":"bridge","ReceiverID":"desk","TransactionID":12,"MessageType":"FrameHeard","Gateway":"gw-b","Time":1706745700041220,"Freq":868300000,"DataRate":5,"PHYPayload":"400000a00100000011223344","Verdict":0}"#;

/// The answer of that copy.
const WORKED_COPY_ANSWER: &str =
    r#"{"Airtime":41216,"Band":"B3","Copy":true,"Counter":0,"DevEUI":"0004a30b001a2b3c","MessageType":"FrameHeardAns","ProtocolVersion":"1.0","ReceiverID":"bridge","Result":{"Description":"","ResultCode":"Success"},"SenderID":"desk","TransactionID":12,"Uplink":2}"#;

/// A data frame without a verdict.
const WITHOUT_VERDICT: &str =
    r#""Gateway":"gw-a","Time":1706745700041216,"Freq":868300000,"DataRate":5,"PHYPayload":"400000a00100000011223344""#;

const DEVICE_EUI: &str = "0004a30b001a2b3c";

// Data frames. The address is octets 2 to 5 and FCnt 7 and 8, the lowest first, and the MIC is the last four.

const FCNT_0: &str = "400000a00100000011223344";

pub(super) const FCNT_0_OTHER_MIC: &str = "400000a00100000011223345";

const FCNT_1: &str = "400000a00100010011223344";

const FCNT_2: &str = "400000a00100020011223344";

const FCNT_3: &str = "400000a00100030011223344";

const FCNT_3_OTHER_MIC: &str = "400000a00100030011223345";

const FCNT_4: &str = "400000a00100040011223344";

const FCNT_5: &str = "400000a00100050011223344";

const FCNT_65535: &str = "400000a00100ffff11223344";

/// FCnt 2, and 64 octets in all.
const LONGEST: &str =
    "400000a0010002000100000000000000000000000000000000000000000000000000000000000000000000000000000000000000000000000000000011223344";

/// FCnt 3, and 65 octets in all.
const LONGER: &str =
    "400000a001000300010000000000000000000000000000000000000000000000000000000000000000000000000000000000000000000000000000000011223344";

/// A data frame for a device.
const DOWN: &str = "600000a00100000055667788";

// Of the address 01a00001.

const SECOND_0: &str = "400100a00100000011223344";

const SECOND_4: &str = "400100a00100040011223344";

const SECOND_5: &str = "400100a00100050011223344";

const SECOND_5_OTHER_MIC: &str = "400100a00100050011223345";

const SECOND_6: &str = "400100a00100060011223344";

// Of the address 01a00002, the second confirmed.

const THIRD_5: &str = "400200a00100050011223344";

const THIRD_5_CONFIRMED: &str = "800200a00100050011223344";

/// The report of the worked data frame.
pub(super) const HEARD: Heard = Heard {
    gateway: "gw-a",
    time: 1_706_745_700_041_216,
    freq: 868_300_000,
    rate: 5,
    octets: FCNT_0,
    verdict: "0",
};

/// After the setup: the three records of the worked gateway report, and counters of one session.
#[rattlefmt::skip]
pub(super) static DATA: [Exchange; 36] = [
    Asks("office", 900_004, "DeviceAdd", DEVICE, SUCCESS),
    Frames("bridge", 9, HEARD, UNKNOWN_ADDRESS),
    Joins("bridge", 10, FIRST, FIRST_ADDED),
    Letters(WORKED, 0, WORKED_ANSWER),
    Letters(WORKED_COPY, 0, WORKED_COPY_ANSWER),
    Frames("bridge", 9, HEARD, UNKNOWN_ADDRESS),
    Frames("bridge", 13, Heard { octets: FCNT_65535, verdict: "65535", ..HEARD }, Framed(41_216, "B3", false, 65_535, DEVICE_EUI, 3)),
    Frames("bridge", 14, Heard { verdict: "65536", ..HEARD }, Framed(41_216, "B3", false, 65_536, DEVICE_EUI, 4)),
    Frames("bridge", 15, Heard { octets: FCNT_1, verdict: "131073", ..HEARD }, GAP),
    Frames("bridge", 16, Heard { octets: FCNT_0, verdict: "65537", ..HEARD }, GAP),
    Frames("bridge", 17, Heard { rate: 6, octets: FCNT_1, verdict: "65537", ..HEARD }, Framed(20_608, "B3", false, 65_537, DEVICE_EUI, 5)),
    // the octets of two uplinks are the same, and the verdict tells which of them it is
    Frames("bridge", 18, Heard { gateway: "gw-b", ..HEARD }, Framed(41_216, "B3", true, 0, DEVICE_EUI, 2)),
    Frames("bridge", 19, Heard { gateway: "gw-b", verdict: "65536", ..HEARD }, Framed(41_216, "B3", true, 65_536, DEVICE_EUI, 4)),
    Frames("bridge", 20, Heard { octets: FCNT_0_OTHER_MIC, ..HEARD }, REPLAYED),
    Frames("bridge", 21, Heard { octets: FCNT_5, verdict: "5", ..HEARD }, LATE),
    // no verdict: null and none are one message
    Frames("bridge", 22, Heard { verdict: "null", ..HEARD }, MIC),
    Asks("bridge", 22, "FrameHeard", WITHOUT_VERDICT, MIC),
    Frames("bridge", 22, HEARD, REUSED),
    Joins("bridge", 22, FIRST, REUSED),
    // lengths at the slowest data rate
    Frames("bridge", 23, Heard { rate: 0, octets: LONGEST, verdict: "65538", ..HEARD }, Framed(2_793_472, "B3", false, 65_538, DEVICE_EUI, 6)),
    Frames("bridge", 24, Heard { rate: 0, octets: LONGER, verdict: "65539", ..HEARD }, FRAME),
    Frames("bridge", 25, Heard { octets: LONGER, verdict: "65539", ..HEARD }, Framed(123_136, "B3", false, 65_539, DEVICE_EUI, 7)),
    Frames("office", 26, Heard { freq: 869_525_000, rate: 0, octets: FCNT_4, verdict: "65540", ..HEARD }, Framed(1_155_072, "B5", false, 65_540, DEVICE_EUI, 8)),
    // each check before those that come after it
    Frames("bridge", 27, Heard { gateway: "gw-c", time: 946_684_799_999_999, ..HEARD }, TIME),
    Frames("bridge", 28, Heard { gateway: "gw-c", octets: DOWN, ..HEARD }, GATEWAY),
    Frames("bridge", 29, Heard { freq: 868_562_500, rate: 0, octets: DOWN, ..HEARD }, FRAME),
    Frames("bridge", 30, Heard { octets: NONCE_0, ..HEARD }, FRAME),
    Frames("bridge", 31, Heard { freq: 868_562_500, rate: 0, octets: SECOND_0, ..HEARD }, BAND),
    Frames("bridge", 32, Heard { octets: SECOND_0, verdict: "null", ..HEARD }, UNKNOWN_ADDRESS),
    // a copy that fails a check is no copy
    Frames("bridge", 33, Heard { freq: 868_562_500, rate: 0, ..HEARD }, BAND),
    Frames("bridge", 34, HEARD, Framed(41_216, "B3", true, 0, DEVICE_EUI, 2)),
    // members that aren't in their form
    Frames("bridge", 35, Heard { verdict: "4294967296", ..HEARD }, BODY),
    Frames("bridge", 35, Heard { verdict: "0.0", ..HEARD }, BODY),
    Frames("bridge", 35, Heard { verdict: r#""0""#, ..HEARD }, BODY),
    // none of them used its number
    Frames("bridge", 35, Heard { verdict: "4294967295", ..HEARD }, GAP),
    Joins("bridge", 36, FIRST, Joined(61_696, "B3", true, "01a00000", 1)),
];

/// After the setup: three sessions of one device.
#[rattlefmt::skip]
pub(super) static SESSIONS: [Exchange; 21] = [
    Asks("office", 900_004, "DeviceAdd", DEVICE, SUCCESS),
    Joins("bridge", 10, FIRST, FIRST_ADDED),
    Frames("bridge", 11, Heard { octets: FCNT_3, verdict: "3", ..HEARD }, Framed(41_216, "B3", false, 3, DEVICE_EUI, 2)),
    Joins("bridge", 12, Heard { octets: NONCE_1, ..FIRST }, Joined(61_696, "B3", false, "01a00001", 3)),
    // a later session ends none before it has a data frame
    Frames("bridge", 13, Heard { octets: FCNT_4, verdict: "4", ..HEARD }, Framed(41_216, "B3", false, 4, DEVICE_EUI, 4)),
    Frames("bridge", 14, Heard { octets: SECOND_0, ..HEARD }, Framed(41_216, "B3", false, 0, DEVICE_EUI, 5)),
    Frames("bridge", 15, Heard { octets: FCNT_5, verdict: "5", ..HEARD }, ENDED),
    Frames("bridge", 16, Heard { octets: FCNT_3_OTHER_MIC, verdict: "3", ..HEARD }, ENDED),
    Frames("bridge", 17, Heard { octets: FCNT_2, verdict: "2", ..HEARD }, ENDED),
    // a copy of an old session's frame is still one
    Frames("bridge", 18, Heard { gateway: "gw-b", octets: FCNT_3, verdict: "3", ..HEARD }, Framed(41_216, "B3", true, 3, DEVICE_EUI, 2)),
    Joins("bridge", 19, AT_B, Joined(61_696, "B3", true, "01a00000", 1)),
    Frames("bridge", 20, Heard { octets: SECOND_5, verdict: "5", ..HEARD }, Framed(41_216, "B3", false, 5, DEVICE_EUI, 6)),
    Frames("bridge", 21, Heard { octets: SECOND_6, verdict: "65542", ..HEARD }, GAP),
    Frames("bridge", 22, Heard { octets: SECOND_6, verdict: "6", ..HEARD }, Framed(41_216, "B3", false, 6, DEVICE_EUI, 7)),
    Frames("bridge", 23, Heard { gateway: "gw-b", octets: SECOND_5, verdict: "5", ..HEARD }, Framed(41_216, "B3", true, 5, DEVICE_EUI, 6)),
    Frames("bridge", 24, Heard { octets: SECOND_4, verdict: "4", ..HEARD }, LATE),
    Frames("bridge", 25, Heard { octets: SECOND_5_OTHER_MIC, verdict: "5", ..HEARD }, REPLAYED),
    // a session's first counter is below 65,536
    Joins("bridge", 26, Heard { octets: NONCE_2, ..FIRST }, Joined(61_696, "B3", false, "01a00002", 8)),
    Frames("bridge", 27, Heard { octets: THIRD_5, verdict: "65541", ..HEARD }, GAP),
    Frames("bridge", 28, Heard { octets: THIRD_5_CONFIRMED, verdict: "5", ..HEARD }, Framed(41_216, "B3", false, 5, DEVICE_EUI, 9)),
    Frames("bridge", 29, Heard { octets: THIRD_5, verdict: "5", ..HEARD }, REPLAYED),
];
