//! The rows that each effect writes, and what they need of the rows that are there.
mod bookings;
pub(crate) mod input;
mod limits;
mod receptions;
mod sessions;
mod uplinks;
pub(crate) mod writing;
