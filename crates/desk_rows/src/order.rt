//! Laws of the tables' rows and the registry's facts, each as the contract of a function with an empty body.
mod changes;
mod keys;
mod listed;
mod look_ups;

pub use changes::{opening_rows_tell, rows_follow_facts};
pub use keys::{changed_rows_are_there, keys_are_free};
pub use listed::listed_rows_tell;
pub use look_ups::{arranged_rows_tell, look_ups_tell, orders_hold};
