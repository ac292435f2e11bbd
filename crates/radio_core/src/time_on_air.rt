//! The time on air of a transmission: LoRa (Semtech AN1200.13), or FSK.
ghost use Rattle.std.specs.Prelude.{◌≡◌, ◌≢◌, ◌*◌, ◌≤◌};
ghost use Rattle.radio_core.specs.declared.data_rates.DataRate.TheVariants.{Dr7};
ghost use Rattle.radio_core.specs.DataRates.{max_length, spreading_factor, symbol_time};
ghost use Rattle.radio_core.specs.TimeOnAir.{IsAirtime, airtime_of, block_count, fsk_time, low_rate, time_of_blocks};

use crate::data_rates::DataRate;

/// Returns the number of bits in a LoRa symbol, SF; 0 at DR7, which is FSK.
fn spreading_factor(dr: DataRate) -> u64
    ensures { result ≡ spreading_factor dr }
{
    match dr {
        DataRate::Dr0 => 12,
        DataRate::Dr1 => 11,
        DataRate::Dr2 => 10,
        DataRate::Dr3 => 9,
        DataRate::Dr4 => 8,
        DataRate::Dr5 | DataRate::Dr6 => 7,
        DataRate::Dr7 => 0,
    }
}

/// Returns the time of a LoRa symbol, in microseconds; 0 at DR7, which is FSK.
fn symbol_time(dr: DataRate) -> u64
    ensures { result ≡ symbol_time dr }
{
    match dr {
        DataRate::Dr0 => 32_768,
        DataRate::Dr1 => 16_384,
        DataRate::Dr2 => 8_192,
        DataRate::Dr3 => 4_096,
        DataRate::Dr4 => 2_048,
        DataRate::Dr5 => 1_024,
        DataRate::Dr6 => 512,
        DataRate::Dr7 => 0,
    }
}

/// Returns how many bits of each symbol low data rate optimization leaves unused: twice DE.
fn unused_bits(dr: DataRate) -> u64
    ensures { result ≡ 2 * low_rate dr }
{
    match dr {
        DataRate::Dr0 | DataRate::Dr1 => 2,
        _ => 0,
    }
}

/// Returns how many blocks of symbols the octets fill after the first 8 symbols.
fn block_count(dr: DataRate, octets: u64, crc: bool) -> u64
    requires short { octets ≤ 255 }
    requires lora { dr ≢ Dr7 }
    ensures { result ≡ block_count dr octets crc }
{
    let crc_bits = if crc { 16 } else { 0 };
    let bits = 8 * octets + 28 + crc_bits;
    let factor = spreading_factor(dr);
    // the first 8 symbols contain 4 SF of them
    bits.saturating_sub(4 * factor)
        .div_ceil(4 * (factor - unused_bits(dr)))
}

/// Returns the time of LoRa: 12.25 + 8 symbols and 5 for each block, in microseconds. It counts in quarters of a symbol, so that nothing is
/// rounded.
fn lora_time(dr: DataRate, octets: u64, crc: bool) -> u64
    requires short { octets ≤ 255 }
    requires lora { dr ≢ Dr7 }
    ensures { result ≡ time_of_blocks dr (block_count dr octets crc) }
{
    let quarters = 81 + 20 * block_count(dr, octets, crc);
    quarters * (symbol_time(dr) / 4)
}

/// Returns the time of FSK, in microseconds: 11 octets are added to the frame's own, and each takes 8 bits of 20 microseconds.
fn fsk_time(octets: u64) -> u64
    requires { octets ≤ 255 }
    ensures { result ≡ fsk_time octets }
{
    160 * (octets + 11)
}

/// Returns the time on air of a PHYPayload of this many octets, in microseconds. The caller may give at most 255 octets.
///
/// Up to DR6 it is LoRa (Semtech AN1200.13): 8 preamble symbols, an explicit header, coding rate 4/5, and low data rate optimization at DR0
/// and DR1. Uplinks have the payload's CRC, downlinks don't. DR7 is FSK at 50 kbit/s with 5 octets of preamble, 3 of sync word, 1 of length
/// and 2 of CRC, for uplinks and downlinks.
#[tactic(auto, unfolding(crate::specs::TimeOnAir::airtime_of))]
pub fn airtime(dr: DataRate, octets: usize, crc: bool) -> u64
    requires { octets ≤ 255 }
    ensures formula { IsAirtime dr octets crc result }
    ensures exact { result ≡ airtime_of dr octets crc }
    ensures most { octets ≤ max_length dr → result ≤ 2793472 }
{
    match dr {
        DataRate::Dr7 => fsk_time(octets as u64),
        _ => lora_time(dr, octets as u64, crc),
    }
}
