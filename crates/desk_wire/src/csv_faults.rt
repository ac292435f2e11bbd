//! The errors of a gateway report.
use thiserror::Error;

/// Why a text is not a gateway report, or that memory ran out. The length is checked first, then the end, the header, and the records one
/// after another.
#[derive(Clone, Copy, PartialEq, Eq, Debug, Error)]
pub enum CsvFault {
    /// More than 16,777,216 octets, or more than 100,000 records after the header if the first 100,000 are in their form.
    #[error("the report is too long")]
    Size,
    /// The text is empty, or its last octet isn't LF.
    #[error("the report is empty, or its last line has no end")]
    Unended,
    /// The first record isn't the header.
    #[error("the first record isn't the header")]
    Header,
    /// The record with this number is the first that isn't in its form: it hasn't eight fields, or one of them isn't in its form. The
    /// header has number 1.
    #[error("record {0} isn't in its form")]
    Record(u32),
    /// Out of memory: an allocation failed. The text may be a gateway report or not.
    #[error("out of memory")]
    Memory,
}
