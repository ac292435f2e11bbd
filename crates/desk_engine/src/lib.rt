//! Hears each message once, over any store: `deliver` takes a text and returns its outcome.
#![tactic(auto)]

mod band_reports;
mod columns;
mod counting;
mod csv_importing;
mod delivering;
mod device_lists;
mod downlink_reports;
mod from_nothing;
mod gateway_lists;
mod hearing;
mod importing;
pub mod laws;
mod lines;
mod lists;
mod log;
mod months;
mod outcomes;
mod owner_lists;
mod owner_reports;
mod reads;
mod reception_reports;
mod report_faults;
mod room_reports;
mod sender_lists;
mod tables;
mod uses;
mod writes;

pub use band_reports::band_report;
pub use counting::{NoProgress, Progress};
pub use csv_importing::{ImportEnd, import_report};
pub use delivering::{LONGEST_MESSAGE, deliver, run};
pub use downlink_reports::downlink_report;
pub use from_nothing::run_from_nothing;
pub use hearing::hear;
pub use importing::{Imported, import};
pub use lines::{LinesEnd, run_lines};
pub use lists::{ListOf, device_report, list};
pub use log::{LogEnd, LogText, message_number, write_log};
pub use outcomes::Outcome;
pub use owner_reports::owner_report;
pub use reads::read_some;
pub use reception_reports::reception_report;
pub use report_faults::ReportFault;
pub use room_reports::room_report;
pub use writes::{write_octets, write_whole};
