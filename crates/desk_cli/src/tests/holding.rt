//! What tests assert. An assertion is a call of one of these, unless a proof needs it: one that stands in a test, with what its
//! message prints, costs the proof of that test several times as much.
use std::process::Abort;
use std::str;

/// It is so. `what` names it where it isn't.
pub(crate) fn holds(rt: &impl Abort, is_so: bool, what: &str) {
    assert!(rt; is_so, "{what}");
}

/// It is so, of the row in this place.
pub(crate) fn holds_at(rt: &impl Abort, is_so: bool, place: usize) {
    assert!(rt; is_so, "at {place}");
}

/// It is so, of this row. Where it isn't, the row is shown, what was wanted, and what came.
pub(crate) fn holds_of(rt: &impl Abort, is_so: bool, row: &str, wanted: &str, came: &[u8]) {
    let came = str::from_utf8(came).unwrap_or("octets that are no text");
    assert!(rt; is_so, "row: {row}\nwanted: {wanted}\ncame: {came}");
}

/// What came of this row is the text that is wanted.
pub(crate) fn is_text(rt: &impl Abort, row: &str, wanted: &str, came: &[u8]) {
    holds_of(rt, came == wanted.as_bytes(), row, wanted, came);
}

/// The same of the row in this place.
pub(crate) fn is_text_at(rt: &impl Abort, place: usize, wanted: &str, came: &[u8]) {
    let shown = str::from_utf8(came).unwrap_or("octets that are no text");
    assert!(rt;
        came == wanted.as_bytes(),
        "row: {place}\nwanted: {wanted}\ncame: {shown}"
    );
}
