//! The line of a connection, and its fields.
ghost use Rattle.std.specs.Prelude.{◌≡◌, ◌++◌, ◌<◌, ◌/◌, IfOk, OnOk, flat_map};
ghost use Rattle.std.specs.List.{position_or_len};
ghost use Rattle.std.specs.String.{string_bytes};
ghost use Rattle.desk_cli.specs.ConnectionLog.{after_word, connection_line, end_field, first_word, head_fields, hexadecimal_digit, is_gap, is_plain, later_fields, octet_field, refusal_field, text_field, with_space};

use desk_http::ServeEnd;
use desk_wire::Head;
use registry_core::Refusal;
use std::alloc::{AllocError, Global};

/// What is known of a connection that was served.
#[derive(Clone, Copy)]
pub struct Served<'a> {
    /// How it ended.
    pub(super) end: ServeEnd,
    /// The method and the target of its request line, or as much of them as came.
    pub(super) method: &'a [u8],
    pub(super) target: &'a [u8],
    /// The number of octets that were read and written.
    pub(super) read: u64,
    pub(super) written: u64,
    /// The microseconds from when it came until it was finished.
    pub(super) micros: u64,
    /// What its answer repeats of the message, and why the message was refused.
    pub(super) head: Option<Head>,
    pub(super) refusal: Option<Refusal>,
}

/// Returns whether a word ends at the octet.
fn is_gap(octet: u8) -> bool
    ensures { result ≡ is_gap octet }
{
    octet == b' ' || octet == b'\r' || octet == b'\n'
}

/// Returns the number of octets before the first space or end of a line.
fn word_length(text: &[u8]) -> usize
    ensures { result ≡ position_or_len is_gap text.now }
{
    match text.iter().position(|octet| is_gap(*octet)) {
        Some(end) => end,
        None => text.len(),
    }
}

/// Returns the octets before the first space or end of a line.
pub(super) fn first_word(text: &[u8]) -> &[u8]
    ensures { result.now ≡ first_word text.now }
{
    let end = word_length(text).min(text.len());
    &text[..end]
}

/// Returns the octets after the first space or end of a line.
fn after_word(text: &[u8]) -> &[u8]
    ensures { result.now ≡ after_word text.now }
{
    let end = word_length(text);
    if end < text.len() {
        &text[end + 1..]
    } else {
        &[]
    }
}

/// Returns the target of a request line: its second word.
pub(super) fn target_in(text: &[u8]) -> &[u8]
    ensures { result.now ≡ first_word (after_word text.now) }
{
    first_word(after_word(text))
}

/// Returns whether an octet is written as itself in a field.
fn is_plain(octet: u8) -> bool
    ensures { result ≡ is_plain octet }
{
    32 < octet && octet < 127 && octet != b'"' && octet != b'\'' && octet != b'\\'
}

/// Returns the digit of a number below 16.
fn hexadecimal_digit(number: u8) -> u8
    requires { number < 16 }
    ensures { result ≡ hexadecimal_digit number }
{
    if number < 10 {
        b'0' + number
    } else {
        b'a' - 10 + number
    }
}

/// Appends an octet that a client sent.
fn put_octet(line: &mut Vec<u8>, octet: u8) -> Result<(), AllocError>
    ensures { OnOk result (line.new.items ≡ line.old.items ++ octet_field octet) }
{
    if is_plain(octet) {
        line.extend_from_slice(&[octet])
    } else {
        let high = hexadecimal_digit(octet / 16);
        let low = hexadecimal_digit(octet % 16);
        line.extend_from_slice(&[b'\\', b'x', high, low])
    }
}

/// Appends octets that a client sent, or a sign that there are none.
fn put_text(line: &mut Vec<u8>, text: &[u8]) -> Result<(), AllocError>
    ensures { OnOk result (line.new.items ≡ line.old.items ++ text_field text.now) }
{
    if text.is_empty() {
        line.extend_from_slice(b"-")
    } else {
        put_octets(line, text)
    }
}

/// Appends octets that a client sent.
#[tactic(auto, using(crate::proofs::Logging::more_octets))]
fn put_octets(line: &mut Vec<u8>, text: &[u8]) -> Result<(), AllocError>
    ensures { OnOk result (line.new.items ≡ line.old.items ++ flat_map octet_field text.now) }
{
    for octet in text {
        put_octet(line, *octet)?;
    }
    Ok(())
}

/// Appends how a connection ended.
fn put_end(alloc: Global, line: &mut Vec<u8>, end: ServeEnd) -> Result<(), AllocError>
    ensures { OnOk result (line.new.items ≡ line.old.items ++ end_field end) }
{
    match end {
        ServeEnd::Done(status) => {
            let status = format!(in alloc; "{status}")?;
            line.extend_from_slice(status.as_bytes())
        }
        ServeEnd::Closed => line.extend_from_slice(b"closed"),
        ServeEnd::Read => line.extend_from_slice(b"read"),
        ServeEnd::Write => line.extend_from_slice(b"write"),
        ServeEnd::Memory => line.extend_from_slice(b"memory"),
    }
}

/// Returns the sender, the transaction number and the type of a message.
fn head_fields(alloc: Global, head: &Option<Head>) -> Result<String, AllocError>
    ensures { IfOk result (λ text. string_bytes text ≡ head_fields head.now) }
{
    match head {
        Some(head) => {
            let sender = head.sender.as_str();
            let number = head.transaction;
            let type_name = head.type_name.as_str();
            format!(in alloc; "{sender} {number} {type_name}")
        }
        None => format!(in alloc; "- - -"),
    }
}

/// Returns the number of a refusal.
fn refusal_field(alloc: Global, refusal: Option<Refusal>) -> Result<String, AllocError>
    ensures { IfOk result (λ text. string_bytes text ≡ refusal_field refusal) }
{
    match refusal {
        Some(refusal) => {
            let number = refusal.ordinal();
            format!(in alloc; "{number}")
        }
        None => format!(in alloc; "-"),
    }
}

/// Returns the fields after the target, and the end of the line.
fn later_fields(alloc: Global, served: &Served<'_>) -> Result<String, AllocError>
    ensures { IfOk result (λ text. string_bytes text ≡ later_fields served.now) }
{
    let head = head_fields(alloc, &served.head)?;
    let refusal = refusal_field(alloc, served.refusal)?;
    let Served {
        read,
        written,
        micros,
        ..
    } = *served;
    format!(in alloc; "{read} {written} {micros} {head} {refusal}\n")
}

/// Returns the line of a connection.
pub(super) fn line_of(alloc: Global, served: &Served<'_>) -> Result<Vec<u8>, AllocError>
    ensures { IfOk result (λ line. line.items ≡ connection_line served.now) }
{
    let later = later_fields(alloc, served)?;
    let mut line = Vec::new(alloc);
    put_end(alloc, &mut line, served.end)?;
    line.extend_from_slice(b" ")?;
    put_text(&mut line, served.method)?;
    line.extend_from_slice(b" ")?;
    put_text(&mut line, served.target)?;
    line.extend_from_slice(b" ")?;
    line.extend_from_slice(later.as_bytes())?;
    Ok(line)
}
