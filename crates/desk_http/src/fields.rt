//! What the fields of a request's head state about its body, and about where the request comes from.
ghost use Rattle.std.specs.Prelude.{◌≡◌, length, map, min, true};
ghost use Rattle.std.specs.List.{All, list_all};
ghost use Rattle.std.specs.Char.{is_ascii_digit, to_ascii_lowercase};
ghost use Rattle.std.specs.Str.Parse.{digits_value};
ghost use Rattle.httparse.specs.Spans.{IsHeaderWithin, header_bytes};
ghost use Rattle.desk_http.specs.Fields.{body_length, has_field, has_name, has_origin, has_transfer_encoding, is_number, length_of};
ghost use Rattle.desk_http.specs.steps.Fields.{length_after, length_with, or_named};

use desk_engine::LONGEST_MESSAGE;
use httparse::spans::HeaderSpan;

/// One more octet than a body may have.
const SURELY_TOO_LONG: u32 = LONGEST_MESSAGE as u32 + 1;

/// The length of a body, by the fields of its head.
#[derive(Clone, Copy)]
pub(crate) enum BodyLength {
    /// No field has a length.
    Absent,
    Number(u32),
    /// More than a body may have.
    TooLong,
    /// Not one or more digits, or given twice.
    Bad,
}

/// Returns whether a field names a transfer encoding.
pub(crate) fn has_transfer_encoding(octets: &[u8], headers: &[HeaderSpan]) -> bool
    requires { All (IsHeaderWithin (length octets.now)) headers.now }
    ensures { result ≡ has_transfer_encoding (map (header_bytes octets.now) headers.now) }
{
    has_field(octets, headers, b"transfer-encoding")
}

/// Returns whether a field names an origin.
pub(crate) fn has_origin(octets: &[u8], headers: &[HeaderSpan]) -> bool
    requires { All (IsHeaderWithin (length octets.now)) headers.now }
    ensures { result ≡ has_origin (map (header_bytes octets.now) headers.now) }
{
    has_field(octets, headers, b"origin")
}

/// Returns whether a field has this name, in any case. `name` is in lower case.
#[tactic(auto, using(crate::proofs::FieldSteps::named_by_all))]
fn has_field(octets: &[u8], headers: &[HeaderSpan], name: &[u8]) -> bool
    requires within { All (IsHeaderWithin (length octets.now)) headers.now }
    requires lower { map to_ascii_lowercase name.now ≡ name.now }
    ensures { result ≡ has_field name.now (map (header_bytes octets.now) headers.now) }
{
    let mut found = false;
    for header in headers {
        found = or_named(octets, found, *header, name);
    }
    found
}

fn or_named(octets: &[u8], so_far: bool, header: HeaderSpan, name: &[u8]) -> bool
    requires within { IsHeaderWithin (length octets.now) header }
    requires lower { map to_ascii_lowercase name.now ≡ name.now }
    ensures { result ≡ or_named name.now so_far (header_bytes octets.now header) }
{
    so_far || has_name(header.name.of(octets), name)
}

/// Returns the length that the fields give.
#[tactic(auto, using(crate::proofs::FieldSteps::length_by_all))]
pub(crate) fn body_length(octets: &[u8], headers: &[HeaderSpan]) -> BodyLength
    requires { All (IsHeaderWithin (length octets.now)) headers.now }
    ensures { result ≡ body_length (map (header_bytes octets.now) headers.now) }
{
    let mut so_far = BodyLength::Absent;
    for header in headers {
        so_far = length_after(octets, so_far, *header);
    }
    so_far
}

/// Returns the length with one more field.
fn length_after(octets: &[u8], so_far: BodyLength, header: HeaderSpan) -> BodyLength
    requires { IsHeaderWithin (length octets.now) header }
    ensures { result ≡ length_after so_far (header_bytes octets.now header) }
{
    if has_name(header.name.of(octets), b"content-length") {
        length_with(so_far, length_of(header.value.of(octets)))
    } else {
        so_far
    }
}

fn length_with(so_far: BodyLength, new: BodyLength) -> BodyLength
    ensures { result ≡ length_with so_far new }
{
    match so_far {
        BodyLength::Absent => new,
        _ => BodyLength::Bad,
    }
}

/// Returns whether a text is this name in any case. `name` is in lower case.
fn has_name(text: &[u8], name: &[u8]) -> bool
    requires { map to_ascii_lowercase name.now ≡ name.now }
    ensures { result ≡ has_name name.now text.now }
{
    text.eq_ignore_ascii_case(name)
}

/// Returns the length that a field's value gives.
#[tactic(auto, unfolding(crate::specs::Fields::length_of))]
fn length_of(text: &[u8]) -> BodyLength
    ensures { result ≡ length_of text.now }
{
    if !is_number(text) {
        return BodyLength::Bad;
    }
    let length = capped(text);
    if length as usize > LONGEST_MESSAGE {
        BodyLength::TooLong
    } else {
        BodyLength::Number(length)
    }
}

/// Returns whether the text is one or more digits.
fn is_number(text: &[u8]) -> bool
    ensures { result ≡ is_number text.now }
{
    !text.is_empty() && has_digits(text)
}

fn has_digits(text: &[u8]) -> bool
    ensures { result ≡ list_all is_ascii_digit text.now }
{
    text.iter().all(|c| c.is_ascii_digit())
}

/// Returns the number that digits write, or one more than a body may have if that is less, so that no number of digits overflows.
#[tactic(auto, using(crate::proofs::Digits::capped_more))]
fn capped(text: &[u8]) -> u32
    requires { list_all is_ascii_digit text.now ≡ true }
    ensures { result ≡ min (digits_value 10 text.now) 65537 }
{
    let mut number = 0;
    for c in text {
        number = (number * 10 + u32::from(*c - b'0')).min(SURELY_TOO_LONG);
    }
    number
}
