//! The errors of a report.
ghost use Rattle.std.specs.Prelude.{◌≡◌};
ghost use Rattle.desk_engine.specs.declared.report_faults.ReportFault.TheVariants.{Unavailable};

use desk_store::StoreFault;
use thiserror::Error;

/// Why there is no report.
#[derive(Clone, Copy, PartialEq, Eq, Debug, Error)]
pub enum ReportFault {
    /// The text is not a month: refusal 31.
    #[error("not a month")]
    Month,
    /// The text is not a time: refusal 31.
    #[error("not a time")]
    Time,
    /// No owner has the name: refusal 10.
    #[error("no owner has the name")]
    Owner,
    /// No gateway has the name: refusal 11.
    #[error("no gateway has the name")]
    Gateway,
    /// No device has the DevEUI: refusal 12.
    #[error("no device has the DevEUI")]
    Device,
    /// The store or memory is unavailable: refusal 33 if what is stored is not a desk, else 32.
    #[error("unavailable: {0}")]
    Unavailable(StoreFault),
}

impl From<StoreFault> for ReportFault {
    ghost from_gives = { λ fault e. e ≡ Unavailable fault };

    fn from(fault: StoreFault) -> Self {
        ReportFault::Unavailable(fault)
    }
}
