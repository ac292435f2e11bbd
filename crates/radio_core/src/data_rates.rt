//! The data rates of EU863-870 (RP002-1.0.4), and the greatest lengths at them.
ghost use Rattle.std.specs.Prelude.{◌≡◌};
ghost use Rattle.radio_core.specs.DataRates.{max_length};

/// A data rate of EU863-870 (RP002-1.0.4): DR0 to DR5 are LoRa of SF12 to SF7 at 125 kHz, DR6 is LoRa of SF7 at 250 kHz,
/// DR7 is FSK at 50 kbit/s.
#[derive(Clone, Copy, PartialEq, Eq)]
pub enum DataRate {
    Dr0,
    Dr1,
    Dr2,
    Dr3,
    Dr4,
    Dr5,
    Dr6,
    Dr7,
}

/// The frequency of a frame in hertz, and its data rate.
#[derive(Clone, Copy, PartialEq, Eq)]
pub struct Rate {
    pub freq: u32,
    pub dr: DataRate,
}

impl DataRate {
    ghost use Rattle.std.specs.Prelude.{◌≡◌, ◌<◌, IfSome, IfNone};
    ghost use Rattle.radio_core.specs.declared.data_rates.DataRate.{DataRate};
    ghost use Rattle.radio_core.specs.DataRates.{dr_number};

    /// Returns the data rate with this number, 0 to 7. `None` if and only if the number is above 7.
    pub fn new(number: u8) -> Option<Self>
        ensures some { IfSome result (λ dr. dr_number dr ≡ number) }
        ensures none { IfNone result (7 < number) }
        ensures back { (dr : DataRate) → dr_number dr ≡ number → result ≡ Some dr }
    {
        match number {
            0 => Some(DataRate::Dr0),
            1 => Some(DataRate::Dr1),
            2 => Some(DataRate::Dr2),
            3 => Some(DataRate::Dr3),
            4 => Some(DataRate::Dr4),
            5 => Some(DataRate::Dr5),
            6 => Some(DataRate::Dr6),
            7 => Some(DataRate::Dr7),
            _ => None,
        }
    }

    /// Returns the data rate's number, 0 to 7.
    pub fn get(self) -> u8
        ensures { result ≡ dr_number self }
    {
        match self {
            DataRate::Dr0 => 0,
            DataRate::Dr1 => 1,
            DataRate::Dr2 => 2,
            DataRate::Dr3 => 3,
            DataRate::Dr4 => 4,
            DataRate::Dr5 => 5,
            DataRate::Dr6 => 6,
            DataRate::Dr7 => 7,
        }
    }
}

/// Returns the greatest length of a PHYPayload at a data rate, in octets (this project's table).
pub fn max_phy(dr: DataRate) -> usize
    ensures { result ≡ max_length dr }
{
    match dr {
        DataRate::Dr0 | DataRate::Dr1 | DataRate::Dr2 => 64,
        DataRate::Dr3 => 128,
        DataRate::Dr4 | DataRate::Dr5 | DataRate::Dr6 | DataRate::Dr7 => 255,
    }
}
