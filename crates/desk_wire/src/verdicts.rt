//! The names of verdicts.
ghost use Rattle.std.specs.Prelude.{◌≡◌};
ghost use Rattle.desk_wire.specs.Verdicts.{join_verdict_name, join_verdict_named};

use registry_core::JoinVerdict;

/// Returns the verdict with exactly this name.
pub(crate) fn join_verdict_named(text: &[u8]) -> Option<JoinVerdict>
    ensures { result ≡ join_verdict_named text.now }
{
    match text {
        b"Good" => Some(JoinVerdict::Good),
        b"Bad" => Some(JoinVerdict::Bad),
        _ => None,
    }
}

pub(crate) fn join_verdict_name(verdict: JoinVerdict) -> &'static str
    ensures { result.now ≡ join_verdict_name verdict }
{
    match verdict {
        JoinVerdict::Good => "Good",
        JoinVerdict::Bad => "Bad",
    }
}
