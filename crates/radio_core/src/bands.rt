//! The sub-bands of EU863-870: the band of a transmission, and how long a band may be used within an hour.
ghost use Rattle.std.specs.Prelude.{◌≡◌, ◌↔◌, IsTrue};
ghost use Rattle.radio_core.specs.declared.bands.Band.{Band};
ghost use Rattle.radio_core.specs.Bands.{band_at, band_from, band_to, lies_in, limit_of};
ghost use Rattle.radio_core.specs.DataRates.{half_width};

use crate::data_rates::DataRate;

/// A sub-band of EU863-870 (this project's table).
#[derive(Clone, Copy, PartialEq, Eq)]
pub enum Band {
    B1,
    B2,
    B3,
    B4,
    B5,
    B6,
}

impl Band {
    ghost use Rattle.std.specs.Prelude.{◌≡◌, ◌<◌, ◌⊎◌, IfSome, IfNone};
    ghost use Rattle.radio_core.specs.declared.bands.Band.{Band};
    ghost use Rattle.radio_core.specs.Bands.{band_number, band_from, band_to};

    /// Returns the band with this number, `None` if and only if the number is 0 or above 6.
    pub fn new(number: u8) -> Option<Self>
        ensures some { IfSome result (λ band. band_number band ≡ number) }
        ensures none { IfNone result ((number ≡ 0) ⊎ (6 < number)) }
        ensures back { (band : Band) → band_number band ≡ number → result ≡ Some band }
    {
        match number {
            1 => Some(Band::B1),
            2 => Some(Band::B2),
            3 => Some(Band::B3),
            4 => Some(Band::B4),
            5 => Some(Band::B5),
            6 => Some(Band::B6),
            _ => None,
        }
    }

    /// Returns the band's number, 1 to 6.
    pub fn get(self) -> u8
        ensures { result ≡ band_number self }
    {
        match self {
            Band::B1 => 1,
            Band::B2 => 2,
            Band::B3 => 3,
            Band::B4 => 4,
            Band::B5 => 5,
            Band::B6 => 6,
        }
    }

    /// Returns the band's lower and upper edge, in hertz.
    fn edges(self) -> (u32, u32)
        ensures from { result.0 ≡ band_from self }
        ensures to { result.1 ≡ band_to self }
    {
        match self {
            Band::B1 => (863_000_000, 865_000_000),
            Band::B2 => (865_000_000, 868_000_000),
            Band::B3 => (868_000_000, 868_600_000),
            Band::B4 => (868_700_000, 869_200_000),
            Band::B5 => (869_400_000, 869_650_000),
            Band::B6 => (869_700_000, 870_000_000),
        }
    }
}

/// The bands, in the order of their numbers.
pub const BANDS: [Band; 6] = [Band::B1, Band::B2, Band::B3, Band::B4, Band::B5, Band::B6];

/// Returns half the bandwidth, in hertz.
fn half_width(dr: DataRate) -> u32
    ensures { result ≡ half_width dr }
{
    if dr == DataRate::Dr6 { 125_000 } else { 62_500 }
}

/// Returns whether the whole bandwidth of the transmission is within the band, edges included.
fn lies_in(freq: u32, dr: DataRate, band: Band) -> bool
    ensures { result ≡ lies_in freq dr band }
{
    let (from, to) = band.edges();
    let half = half_width(dr);
    // no band begins or ends within half a bandwidth of the type's limits
    from + half <= freq && freq <= to - half
}

/// Returns the band that contains the whole bandwidth of a transmission, 125 kHz or at DR6 250 kHz around its frequency in hertz, edges
/// included. `None` if and only if no band does. No transmission is in two bands.
pub fn band_of(freq: u32, dr: DataRate) -> Option<Band>
    ensures found { (band : Band) → (result ≡ Some band) ↔ IsTrue (lies_in freq dr band) }
    ensures exact { result ≡ band_at freq dr }
{
    BANDS.iter().find(|band| lies_in(freq, dr, **band)).copied()
}

/// Returns the greatest time on air that a band may have within any hour, in microseconds (this project's table).
pub fn limit(band: Band) -> u64
    ensures { result ≡ limit_of band }
{
    match band {
        Band::B1 | Band::B4 => 3_600_000,
        Band::B2 | Band::B3 | Band::B6 => 36_000_000,
        Band::B5 => 360_000_000,
    }
}
