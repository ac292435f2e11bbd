//! The radio rules that all layers use: frames, data rates, time on air, sub-bands and frame counters, and the names of those who use them.
//! Nothing here allocates, and every call returns.
#![tactic(auto)]

mod bands;
mod counters;
mod data_rates;
mod frames;
mod identifiers;
pub mod laws;
mod names;
mod padding;
mod payloads;
mod time_on_air;

pub use bands::{BANDS, Band, band_of, limit};
pub use counters::rebuild;
pub use data_rates::{DataRate, Rate, max_phy};
pub use frames::{FrameFault, Phy, read_phy};
pub use identifiers::{DevAddr, Eui};
pub use names::Name;
pub use payloads::Octets;
pub use time_on_air::airtime;
