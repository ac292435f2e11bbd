//! The outcome of a delivery.
use desk_store::StoreFault;
use registry_core::Refusal;

/// The outcome of a delivery.
#[derive(Drop)]
pub enum Outcome {
    /// The message is heard, or was heard before: the text of its answer. An answer may be a stored refusal (6, 9 to 31).
    Answered(Vec<u8>),
    /// The message isn't heard: one of the refusals 1 to 5, 7 and 8, and its text.
    Refused(Refusal, Vec<u8>),
    /// The store is unavailable: refusal 33 if what is stored is not a desk, else 32. It has no text. The message isn't heard, but after a
    /// disk error a store that is opened again may have heard it.
    Unavailable(StoreFault),
}
