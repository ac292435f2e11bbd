//! The errors of serving connections.
use thiserror::Error;

/// Why no more connections are served.
#[derive(Clone, Copy, PartialEq, Eq, Debug, Error)]
pub enum NetworkFault {
    /// 64 accepts failed in a row.
    #[error("64 accepts failed in a row")]
    Accepts,
}
