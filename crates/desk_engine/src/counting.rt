//! How far a call is that hears many messages.

/// Shows a user how far a call is. It changes nothing that a contract names.
pub trait Progress {
    /// Called after each record of a report, with the number of records that are answered so far.
    fn records(&self, count: u64);

    /// Called after each message of a log, with the number of messages that are heard so far.
    fn messages(&self, count: u64);
}

/// Shows nothing.
#[derive(Clone, Copy)]
pub struct NoProgress;

impl Progress for NoProgress {
    fn records(&self, _count: u64) {}

    fn messages(&self, _count: u64) {}
}
