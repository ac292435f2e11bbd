//! The radio rules by rows from outside: sub-bands, counters, data rates, frames, names, and time on air.
ghost use Rattle.std.specs.Prelude.{◌<◌, length};

use super::holding::holds_at;
use radio_core::{
    Band, DataRate, DevAddr, Eui, FrameFault, Name, Octets, Phy, airtime, band_of, limit, max_phy,
    read_phy, rebuild,
};

/// Whether a transmission has the payload's CRC: uplinks have it, downlinks don't.
const UP: bool = true;

const DOWN: bool = false;

/// How many octets a transmission has, whether it is up, its data rate, and how many microseconds it takes.
static TIMES: [(usize, bool, DataRate, u64); 26] = [
    (12, UP, DataRate::Dr0, 1_155_072),
    (12, UP, DataRate::Dr5, 41_216),
    (12, UP, DataRate::Dr6, 20_608),
    (13, UP, DataRate::Dr5, 46_336),
    (23, UP, DataRate::Dr0, 1_482_752),
    (23, UP, DataRate::Dr5, 61_696),
    (64, UP, DataRate::Dr0, 2_793_472),
    (64, UP, DataRate::Dr1, 1_560_576),
    (64, UP, DataRate::Dr2, 698_368),
    (128, UP, DataRate::Dr3, 676_864),
    (255, UP, DataRate::Dr4, 707_072),
    (255, UP, DataRate::Dr5, 399_616),
    (255, UP, DataRate::Dr6, 199_808),
    (12, UP, DataRate::Dr7, 3_680),
    (23, UP, DataRate::Dr7, 5_440),
    (255, UP, DataRate::Dr7, 42_560),
    (12, DOWN, DataRate::Dr0, 991_232),
    (12, DOWN, DataRate::Dr5, 41_216),
    (17, DOWN, DataRate::Dr0, 1_155_072),
    (17, DOWN, DataRate::Dr5, 46_336),
    (33, DOWN, DataRate::Dr0, 1_810_432),
    (33, DOWN, DataRate::Dr5, 71_936),
    (64, DOWN, DataRate::Dr0, 2_793_472),
    (12, DOWN, DataRate::Dr7, 3_680),
    (23, DOWN, DataRate::Dr7, 5_440),
    (255, DOWN, DataRate::Dr7, 42_560),
];

#[test]
fn transmissions_take_their_time(rt: HostRuntime) {
    for (place, (octets, crc, dr, time)) in TIMES.iter().enumerate() {
        assert!(rt; *octets <= 255);
        holds_at(&rt, airtime(*dr, *octets, *crc) == *time, place);
    }
}

/// A number, the band that has it, and how many microseconds of an hour the band may be used.
static BANDS: [(u8, Option<Band>, u64); 8] = [
    (0, None, 0),
    (1, Some(Band::B1), 3_600_000),
    (2, Some(Band::B2), 36_000_000),
    (3, Some(Band::B3), 36_000_000),
    (4, Some(Band::B4), 3_600_000),
    (5, Some(Band::B5), 360_000_000),
    (6, Some(Band::B6), 36_000_000),
    (7, None, 0),
];

#[test]
fn bands_have_numbers_and_limits(rt: HostRuntime) {
    for (place, (number, found, most)) in BANDS.iter().enumerate() {
        holds_at(&rt, Band::new(*number) == *found, place);
        if let Some(band) = found {
            holds_at(&rt, band.get() == *number, place);
            holds_at(&rt, limit(*band) == *most, place);
        }
    }
}

/// A frequency in hertz, a data rate, and the band in which a transmission lies with all of its bandwidth.
static FREQUENCIES: [(u32, DataRate, Option<Band>); 23] = [
    (868_100_000, DataRate::Dr5, Some(Band::B3)),
    (868_300_000, DataRate::Dr5, Some(Band::B3)),
    (868_537_500, DataRate::Dr0, Some(Band::B3)),
    (868_562_500, DataRate::Dr0, None),
    (868_000_000, DataRate::Dr5, None),
    (868_500_000, DataRate::Dr6, None),
    (868_475_000, DataRate::Dr6, Some(Band::B3)),
    (868_537_500, DataRate::Dr7, Some(Band::B3)),
    (868_562_500, DataRate::Dr7, None),
    (868_800_000, DataRate::Dr0, Some(Band::B4)),
    (868_800_000, DataRate::Dr7, Some(Band::B4)),
    (869_525_000, DataRate::Dr0, Some(Band::B5)),
    (863_062_500, DataRate::Dr0, Some(Band::B1)),
    (863_062_499, DataRate::Dr0, None),
    (864_937_500, DataRate::Dr0, Some(Band::B1)),
    (864_937_501, DataRate::Dr0, None),
    (865_062_500, DataRate::Dr0, Some(Band::B2)),
    (869_937_500, DataRate::Dr5, Some(Band::B6)),
    (869_937_501, DataRate::Dr5, None),
    (869_875_000, DataRate::Dr6, Some(Band::B6)),
    (869_875_001, DataRate::Dr6, None),
    (0, DataRate::Dr0, None),
    (u32::MAX, DataRate::Dr6, None),
];

#[test]
fn transmissions_lie_in_bands(rt: HostRuntime) {
    for (place, (freq, dr, found)) in FREQUENCIES.iter().enumerate() {
        holds_at(&rt, band_of(*freq, *dr) == *found, place);
    }
}

/// A number, the data rate that has it, and the greatest length of a frame.
static DATA_RATES: [(u8, Option<DataRate>, usize); 10] = [
    (0, Some(DataRate::Dr0), 64),
    (1, Some(DataRate::Dr1), 64),
    (2, Some(DataRate::Dr2), 64),
    (3, Some(DataRate::Dr3), 128),
    (4, Some(DataRate::Dr4), 255),
    (5, Some(DataRate::Dr5), 255),
    (6, Some(DataRate::Dr6), 255),
    (7, Some(DataRate::Dr7), 255),
    (8, None, 0),
    (255, None, 0),
];

#[test]
fn data_rates_have_numbers_and_lengths(rt: HostRuntime) {
    for (place, (number, found, most)) in DATA_RATES.iter().enumerate() {
        holds_at(&rt, DataRate::new(*number) == *found, place);
        if let Some(dr) = found {
            holds_at(&rt, dr.get() == *number, place);
            holds_at(&rt, max_phy(*dr) == *most, place);
        }
    }
}

/// The last counter, the 16 bits that a frame has, and its counter.
static COUNTERS: [(Option<u32>, u16, Option<u32>); 6] = [
    (None, 65_535, Some(65_535)),
    (Some(65_535), 0, Some(65_536)),
    (Some(5), 5, Some(65_541)),
    (Some(5), 6, Some(6)),
    (Some(4_294_901_760), 65_535, Some(4_294_967_295)),
    (Some(4_294_967_295), 0, None),
];

#[test]
fn counters_are_rebuilt(rt: HostRuntime) {
    for (place, (last, low, counter)) in COUNTERS.iter().enumerate() {
        holds_at(&rt, rebuild(*last, *low) == *counter, place);
    }
}

const JOIN: [u8; 23] =
    *b"\x00\x01\x00\x00\xd0\x7e\xd5\xb3\x70\x3c\x2b\x1a\x00\x0b\xa3\x04\x00\x00\x00\xa1\xb2\xc3\xd4";

const DATA: [u8; 12] = *b"\x40\x00\x00\xa0\x01\x00\x00\x00\x11\x22\x33\x44";

#[test]
fn worked_frames_are_read(rt: HostRuntime) {
    let addr = DevAddr::new(0x01a0_0000);
    let confirmed = false;
    let rows: [(&[u8], Phy); 6] = [
        (
            &JOIN,
            Phy::Join {
                join_eui: Eui::new(0x70b3_d57e_d000_0001),
                dev_eui: Eui::new(0x0004_a30b_001a_2b3c),
                nonce: 0,
            },
        ),
        (
            &DATA,
            Phy::Up {
                confirmed,
                addr,
                fcnt: 0,
            },
        ),
        (
            b"\x40\x00\x00\xa0\x01\x00\x05\x00\x11\x22\x33\x44",
            Phy::Up {
                confirmed,
                addr,
                fcnt: 5,
            },
        ),
        (
            b"\x40\x00\x00\xa0\x01\x00\xff\xff\x11\x22\x33\x44",
            Phy::Up {
                confirmed,
                addr,
                fcnt: 65_535,
            },
        ),
        (
            b"\x60\x00\x00\xa0\x01\x00\x00\x00\x55\x66\x77\x88",
            Phy::Down {
                confirmed,
                addr,
                fcnt: 0,
            },
        ),
        (
            b"\x20\x00\x01\x02\x03\x04\x05\x06\x07\x08\x09\x0a\x0b\x0c\x0d\x0e\x0f",
            Phy::Accept,
        ),
    ];
    for (place, (octets, phy)) in rows.iter().enumerate() {
        holds_at(&rt, read_phy(octets) == Ok(*phy), place);
    }
}

/// How many of the 256 values of the octet at a place give a frame, Empty, Major, Kind and Length.
fn tally(octets: &mut [u8], place: usize) -> [u16; 5]
    requires { place < length octets.old }
{
    let mut counts = [0_u16; 5];
    for value in 0..=255 {
        octets[place] = value;
        let outcome = match read_phy(octets) {
            Ok(_) => 0,
            Err(FrameFault::Empty) => 1,
            Err(FrameFault::Major) => 2,
            Err(FrameFault::Kind) => 3,
            Err(FrameFault::Length) => 4,
        };
        counts[outcome] = counts[outcome].saturating_add(1);
    }
    counts
}

#[test]
fn faults_are_told(rt: HostRuntime) {
    for size in 0..JOIN.len() {
        let fault = if size == 0 {
            FrameFault::Empty
        } else {
            FrameFault::Length
        };
        holds_at(&rt, read_phy(&JOIN[..size]) == Err(fault), size);
    }
    let mut join = JOIN;
    holds_at(&rt, tally(&mut join, 0) == [8, 0, 192, 16, 40], 0);
    let mut data = DATA;
    holds_at(&rt, tally(&mut data, 5) == [16, 0, 0, 0, 240], 5);
}

#[test]
fn numbers_are_given_back_and_ordered(rt: HostRuntime) {
    let numbers = [0, 0x0004_a30b_001a_2b3c, 0x70b3_d57e_d000_0001, u64::MAX];
    for (place, number) in numbers.iter().enumerate() {
        holds_at(&rt, Eui::new(*number).get() == *number, place);
    }
    let addresses = [0, 0x01a0_0000, u32::MAX];
    for (place, address) in addresses.iter().enumerate() {
        holds_at(&rt, DevAddr::new(*address).get() == *address, place);
    }
    let later = Eui::new(0x0004_a30b_001a_2b3d);
    holds_at(&rt, Eui::new(0x0004_a30b_001a_2b3c) < later, 1);
    let later = DevAddr::new(0x01a0_0001);
    holds_at(&rt, DevAddr::new(0x01a0_0000) < later, 2);
}

#[test]
fn names_have_their_form(rt: HostRuntime) {
    let longest = [b'a'; 32];
    let longer = [b'a'; 33];
    let texts: [(&[u8], bool); 9] = [
        (b"town", true),
        (b"A.b-c_9", true),
        (b"", false),
        (b"a b", false),
        (b"a/b", false),
        (b"caf\xc3\xa9", false),
        (b"a\0", false),
        (&longest, true),
        (&longer, false),
    ];
    for (place, (text, is_one)) in texts.iter().enumerate() {
        let is_kept = match Name::new(text) {
            Some(name) => name.get() == *text && name.as_str().as_bytes() == *text,
            None => false,
        };
        holds_at(&rt, is_kept == *is_one, place);
    }
}

#[test]
fn at_most_255_octets_are_kept(rt: HostRuntime) {
    let longest = [0xa5; 255];
    let longer = [0xa5; 256];
    let texts: [(&[u8], bool); 4] = [
        (b"", true),
        (b"\x40\x00", true),
        (&longest, true),
        (&longer, false),
    ];
    for (place, (text, is_one)) in texts.iter().enumerate() {
        let is_kept = match Octets::new(text) {
            Some(octets) => octets.get() == *text,
            None => false,
        };
        holds_at(&rt, is_kept == *is_one, place);
    }
    let one = Octets::new(b"\x40");
    holds_at(&rt, one == Octets::new(b"\x40"), 1);
    holds_at(&rt, one != Octets::new(b"\x40\x00"), 2);
}
