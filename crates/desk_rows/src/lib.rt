//! Statements on the eleven tables of a desk, and those that move the ten tables of schema 1 to schema 2.
//!
//! Each look-up runs one query on a connection, and changes nothing. Each change runs one statement inside a transaction, and commits
//! nothing.
//!
//! # Errors
//!
//! Each call that fails returns a `RowFault`. If the database has a desk's rows, the disk has returned what was written to it, and the
//! connection has no step limit, a look-up fails only with `Memory`, `Disk` or `Size`. The same is true of a change whose keys are free and
//! whose rows are there.
#![tactic(auto)]

mod bookings;
mod columns;
mod devices;
mod faults;
mod gateways;
pub mod laws;
mod limits;
mod making;
mod meta;
mod migrating;
pub mod order;
mod owners;
mod queries;
mod receptions;
mod replies;
mod senders;
mod sessions;
mod spans;
mod uplinks;
mod values;
mod writes;

pub use bookings::{
    booking, bookings_between, end_booking, insert_booking, is_answered, last_booking,
};
pub use devices::{
    device, device_euis, floor_of, insert_device, last_device, move_device, next_device, set_floor,
};
pub use faults::{RowFault, fault_of};
pub use gateways::{gateway_is_known, gateway_names, insert_gateway, last_gateway};
pub use limits::{change_limit, insert_limit, last_limit, limit_at};
pub use making::{create_tables, insert_settings};
pub use meta::read_settings;
pub use migrating::{create_limits, raise_version};
pub use owners::{insert_owner, last_owner, owner_is_known, owner_names};
pub use receptions::{gateways_of, insert_reception, reception_at};
pub use replies::{ReplyTexts, insert_reply, last_reply, last_transaction, texts_at, texts_of};
pub use senders::{insert_sender, last_sender, role_of, sender_names};
pub use sessions::{
    insert_session, last_nonce, last_session, next_down, session, session_with_nonce, sessions_of,
    set_next_down,
};
pub use spans::{bookings_of, near, uplinks_of};
pub use uplinks::{
    insert_uplink, last_counter, last_start, last_uplink, uplink, uplink_with, uplinks_between,
};
