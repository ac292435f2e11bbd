//! Columns of lists and reports.
ghost use Rattle.std.specs.Prelude.{◌≡◌, IfOk};
ghost use Rattle.std.specs.Fmt.{decimal};
ghost use Rattle.std.specs.String.{string_bytes};
ghost use Rattle.desk_engine.specs.Listing.{or_empty};
ghost use Rattle.desk_engine.specs.MonthReports.{kind_name};

use registry_core::Kind;
use std::alloc::{AllocError, Global};

/// Returns the decimal digits of a number, nothing if there is none.
pub(crate) fn number_or_empty(alloc: Global, number: Option<u64>) -> Result<String, AllocError>
    ensures { IfOk result (λ text. string_bytes text ≡ or_empty decimal number) }
{
    match number {
        Some(number) => format!(in alloc; "{number}"),
        None => Ok(String::new(alloc)),
    }
}

/// Returns the decimal digits of a frame counter, nothing if there is none.
pub(crate) fn counter_or_empty(alloc: Global, counter: Option<u32>) -> Result<String, AllocError>
    ensures { IfOk result (λ text. string_bytes text ≡ or_empty decimal counter) }
{
    number_or_empty(alloc, counter.map(u64::from))
}

/// Returns the name of an uplink's kind.
pub(crate) fn kind_name(kind: Kind) -> &'static str
    ensures { result.now ≡ kind_name kind }
{
    match kind {
        Kind::Join => "join",
        Kind::Data => "data",
    }
}
