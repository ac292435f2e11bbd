//! Reads and writes messages, answers and refusals as JSON texts, gateway reports as CSV, and numbers as digits.
#![tactic(auto)]

mod answers;
mod bands;
mod bodies;
mod csv_faults;
mod csv_reports;
mod decimals;
mod documents;
mod faults;
mod heads;
mod hexadecimal;
pub mod laws;
mod members;
mod objects;
mod reading;
mod reports;
mod results;
mod roles;
mod type_names;
mod verdicts;
mod windows;
mod writing;

pub use answers::{write_answer, write_refusal};
pub use csv_faults::CsvFault;
pub use csv_reports::{LONGEST_REPORT, read_report};
pub use decimals::{count_of, decimal_of};
pub use faults::WireFault;
pub use heads::{Head, head_of};
pub use hexadecimal::{addr_digits, addr_of, eui_digits, eui_of_digits, octet_digits};
pub use reading::read_message;
pub use roles::role_name;
pub use type_names::TypeName;
pub use writing::write_message;
