//! Writes responses. This allocates nothing, so that no response fails for lack of memory after a message is heard.
ghost use Rattle.std.specs.Prelude.{◌≡◌, [], OnOk, option_map, unwrap_or};
ghost use Rattle.std.specs.Io.KnownBytes.{Appends};
ghost use Rattle.http.specs.StatusCode.{reason_phrase};
ghost use Rattle.desk_http.specs.Responses.{start_lines, allow_line, response_text, status_of, unavailable};

use http::StatusCode;
use registry_core::Refusal;
use std::io;
use std::io::Write;

/// Writes a response.
#[tactic(auto, unfolding(crate::specs::Responses::response_text))]
pub(crate) fn write_response<W: Write>(
    writer: &mut W,
    status: StatusCode,
    kind: &str,
    allow: Option<&str>,
    body: &[u8],
) -> io::Result<()>
    ensures { OnOk result (Appends (W.contents writer.old) (W.contents writer.new)
        (response_text (record { status = status; kind = kind.now; allow = option_map (λ m. m.now) allow.entry; body = body.now }))) }
{
    write_start(writer, status, kind, body.len())?;
    write_allow(writer, allow)?;
    writer.write_all(b"connection: close\r\n\r\n")?;
    writer.write_all(body)
}

/// Writes the response for an unavailable store, which is a constant.
pub(crate) fn write_unavailable<W: Write>(writer: &mut W) -> io::Result<()>
    ensures { OnOk result (Appends (W.contents writer.old) (W.contents writer.new) (response_text unavailable)) }
{
    writer.write_all(
        b"HTTP/1.1 503 Service Unavailable\r\ncontent-type: text/plain\r\ncontent-length: 12\r\nconnection: close\r\n\r\nunavailable\n",
    )
}

/// Writes the lines that every response begins with.
fn write_start<W: Write>(
    writer: &mut W,
    status: StatusCode,
    kind: &str,
    length: usize,
) -> io::Result<()>
    ensures { OnOk result (Appends (W.contents writer.old) (W.contents writer.new)
        (start_lines status kind.now length)) }
{
    let code = status.as_u16();
    let phrase = phrase_of(status);
    write!(
        writer,
        "HTTP/1.1 {code} {phrase}\r\ncontent-type: {kind}\r\ncontent-length: {length}\r\n"
    )
}

fn phrase_of(status: StatusCode) -> &'static str
    ensures { result.now ≡ unwrap_or (reason_phrase status) [] }
{
    match status.canonical_reason() {
        Some(phrase) => phrase,
        None => "",
    }
}

/// Writes the line with the method of the route, if another was used.
fn write_allow<W: Write>(writer: &mut W, allow: Option<&str>) -> io::Result<()>
    ensures { OnOk result (Appends (W.contents writer.old) (W.contents writer.new)
        (allow_line (option_map (λ m. m.now) allow.entry))) }
{
    match allow {
        Some(method) => write!(writer, "allow: {method}\r\n"),
        None => Ok(()),
    }
}

/// Returns the status for a message that isn't heard.
pub(crate) fn status_of(refusal: Refusal) -> StatusCode
    ensures { result ≡ status_of refusal }
{
    match refusal {
        Refusal::TransactionReused => StatusCode::CONFLICT,
        _ => StatusCode::BAD_REQUEST,
    }
}
