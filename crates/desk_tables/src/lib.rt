//! A store over the eleven tables of a desk in SQLite.
#![tactic(auto)]

mod adopting;
mod checked_faults;
mod committing;
mod counting;
mod desk_shape;
mod effects;
mod faults;
mod keeper;
mod looks;
mod making;
mod migrating;
mod opening;
mod seen;
mod shape;
mod tables;
mod totals;

pub use opening::open_desk;
pub use tables::Tables;
pub use totals::Totals;
