//! Frames at DR7, which is FSK.
use super::downlinks::{ACCEPT, DEVICE_EUI, DOWN, DOWN_0, DOWN_2, UP_0, UP_1};
use super::joins::{BAND, FIRST, FIRST_ADDED, NONCE_1};
use super::rows::Exchange::{Asks, Books, Frames, Joins};
use super::rows::Told::{Booked, Framed, Joined};
use super::rows::{BODY, DEVICE, Down, Exchange, Heard, SUCCESS};

/// FCnt 2, and 255 octets in all.
const UP_OF_255: &str =
    "400000a00100020001000000000000000000000000000000000000000000000000000000000000000000000000000000000000000000000000000000000000000000000000000000000000000000000000000000000000000000000000000000000000000000000000000000000000000000000000000000000000000000000000000000000000000000000000000000000000000000000000000000000000000000000000000000000000000000000000000000000000000000000000000000000000000000000000000000000000000000000000000000000000000000000000000000000000000000000000000000000000000000000000000011223344";

/// FCnt 1, and 255 octets in all.
const DOWN_OF_255: &str =
    "600000a00100010001000000000000000000000000000000000000000000000000000000000000000000000000000000000000000000000000000000000000000000000000000000000000000000000000000000000000000000000000000000000000000000000000000000000000000000000000000000000000000000000000000000000000000000000000000000000000000000000000000000000000000000000000000000000000000000000000000000000000000000000000000000000000000000000000000000000000000000000000000000000000000000000000000000000000000000000000000000000000000000000000000055667788";

/// The report of a data frame that ends where the worked month begins.
const HEARD: Heard = Heard {
    gateway: "gw-a",
    time: 1_706_745_600_000_000,
    freq: 868_800_000,
    rate: 7,
    octets: UP_0,
    verdict: "0",
};

/// After the setup: frames of 12, 23 and 255 octets, up and down.
#[rattlefmt::skip]
pub(super) static FSK: [Exchange; 14] = [
    Asks("office", 900_004, "DeviceAdd", DEVICE, SUCCESS),
    Joins("bridge", 10, FIRST, FIRST_ADDED),
    // no data rate has the number 8, and the text isn't heard
    Frames("bridge", 11, Heard { rate: 8, ..HEARD }, BODY),
    Frames("bridge", 11, HEARD, Framed(3_680, "B4", false, 0, DEVICE_EUI, 2)),
    Books("bridge", 12, Down { uplink: 2, octets: DOWN_0, ..DOWN }, Booked(3_680, "B4", 1, 1_706_745_601_000_000)),
    // a band's edges, as wide as at DR0
    Frames("bridge", 13, Heard { freq: 868_562_500, octets: UP_1, verdict: "1", ..HEARD }, BAND),
    Frames("bridge", 14, Heard { time: 1_706_745_610_000_000, freq: 868_537_500, octets: UP_1, verdict: "1", ..HEARD }, Framed(3_680, "B3", false, 1, DEVICE_EUI, 3)),
    // the greatest length
    Frames("bridge", 15, Heard { time: 1_706_745_620_000_000, octets: UP_OF_255, verdict: "2", ..HEARD }, Framed(42_560, "B4", false, 2, DEVICE_EUI, 4)),
    Books("bridge", 16, Down { uplink: 4, octets: DOWN_OF_255, ..DOWN }, Booked(42_560, "B4", 2, 1_706_745_621_000_000)),
    // the second window is at DR0 whatever the uplink's data rate
    Books("bridge", 17, Down { uplink: 3, window: 2, octets: DOWN_2, ..DOWN }, Booked(991_232, "B5", 3, 1_706_745_612_000_000)),
    // copies of one frame at different data rates: the uplink that is booked stays as it is
    Frames("bridge", 18, Heard { gateway: "gw-b", freq: 868_100_000, rate: 5, ..HEARD }, Framed(3_680, "B4", true, 0, DEVICE_EUI, 2)),
    Joins("bridge", 19, Heard { rate: 7, octets: NONCE_1, ..FIRST }, Joined(5_440, "B3", false, "01a00001", 5)),
    Joins("bridge", 20, Heard { gateway: "gw-b", rate: 7, ..FIRST }, Joined(61_696, "B3", true, "01a00000", 1)),
    // so is that of a join, six seconds after its request
    Books("bridge", 21, Down { uplink: 5, window: 2, octets: ACCEPT, ..DOWN }, Booked(1_155_072, "B5", 4, 1_706_745_606_061_696)),
];
