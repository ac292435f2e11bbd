//! Reads one HTTP request and writes one response, over any store, reader and writer; and serves connections one after another.
#![tactic(auto)]

mod asking;
mod bodies;
mod connections;
mod fields;
mod heads;
pub mod laws;
mod listening;
mod network_faults;
mod reports;
mod responses;
mod serving;
mod targets;

pub use connections::serve_connections;
pub use listening::Listening;
pub use network_faults::NetworkFault;
pub use serving::{ServeEnd, serve_one};
