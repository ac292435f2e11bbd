//! Laws of the definitions, each as the contract of a function with an empty body.
ghost use Rattle.radio_core.specs.Bands.{BandIsFound, BandsAreApart};
ghost use Rattle.radio_core.specs.Counters.{CandidateIsOnly};
ghost use Rattle.radio_core.specs.Frames.{FaultIsFound, FrameIsFound, NoTextIsTwoFrames};
ghost use Rattle.radio_core.specs.TimeOnAir.{AirtimeIsBounded, AirtimeIsComputed};

/// The frame that is computed is the one that the octets are.
#[tactic(auto, using(crate::proofs::FoundFrames::frame_is_found))]
pub fn frame_is_found()
    ensures { FrameIsFound }
{}

/// The error that is computed is the one that the octets have.
#[tactic(auto, using(crate::proofs::FoundFaults::fault_is_found))]
pub fn fault_is_found()
    ensures { FaultIsFound }
{}

/// No octets are two frames.
#[tactic(auto, using(crate::proofs::FoundFrames::no_text_is_two_frames))]
pub fn no_text_is_two_frames()
    ensures { NoTextIsTwoFrames }
{}

/// The quotient rounded up is the least number of blocks in which the octets fit.
#[tactic(auto, using(crate::proofs::BlockCounts::airtime_is_computed))]
pub fn airtime_is_computed()
    ensures { AirtimeIsComputed }
{}

/// No length that a data rate allows takes more than 2,793,472 microseconds.
#[tactic(auto, using(crate::proofs::BlockCounts::airtime_is_bounded))]
pub fn airtime_is_bounded()
    ensures { AirtimeIsBounded }
{}

/// A transmission is in the band that is computed, and in no other.
#[tactic(auto, using(crate::proofs::FoundBands::band_is_found))]
pub fn band_is_found()
    ensures { BandIsFound }
{}

/// No two bands overlap.
#[tactic(auto, using(crate::proofs::FoundBands::bands_are_apart))]
pub fn bands_are_apart()
    ensures { BandsAreApart }
{}

/// No two numbers are the candidate counter.
pub fn candidate_is_only()
    ensures { CandidateIsOnly }
{}
