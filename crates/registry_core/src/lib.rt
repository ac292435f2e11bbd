//! The registry and its rules: what each message asks for, what it changes and how it is answered.
#![tactic(auto)]

mod addresses;
mod administration;
mod answers;
mod checks;
mod configuration;
mod data_frames;
mod deciding;
mod downlinks;
mod effects;
mod facts;
mod frames;
mod hours;
mod joins;
mod json_integers;
pub mod laws;
mod limits;
mod messages;
mod uplinks;
mod views;
mod windows;

pub use answers::{Answer, Refusal};
pub use configuration::Config;
pub use deciding::decide;
pub use effects::Effect;
pub use facts::{Booking, Device, Kind, Reception, Session, Standing, Uplink};
pub use frames::{DataFrame, JoinRequest, data_up, join_request};
pub use json_integers::{GREATEST_JSON_INTEGER, JsonInteger};
pub use limits::BandLimit;
pub use messages::{Envelope, JoinVerdict, MOST_HEARD, Message, Report, Role};
pub use views::{NearBooking, SessionView, UplinkView, View};
pub use windows::{Window, receive};
