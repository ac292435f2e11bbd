//! Requests over plain lists, and over damaged tables: whole responses, and what is left unread.
mod damaged;
mod limits;
mod lists;
mod log;
mod reports;
pub(crate) mod responses;

use super::holding::{holds_of, is_text};
use super::opening;
use super::rows::{OTHER_OWNER, REQUEST};
use desk_http::{ServeEnd, serve_one};
use desk_store::{Keeper, Lists};
use responses::{
    ADDED, CROSS_ORIGIN, CUT_BODY, DEVICE_ADDED, DEVICE_EXISTS, DEVICE_REUSED, MALFORMED, NO_HEAD,
    NO_LENGTH, NO_ROUTE, NOT_BY_GET, NOT_BY_POST, REUSED, TOO_LONG, UNKNOWN_SENDER,
};
use std::alloc::Global;
use std::process::Abort;
use std::str;
use std::test::Fail;

pub(crate) const DEVICE_ADD: &str =
    "{\"ProtocolVersion\":\"1.0\",\"SenderID\":\"office\",\"ReceiverID\":\"desk\",\"TransactionID\":2,\"MessageType\":\"DeviceAdd\",\"DevEUI\":\"0004a30b001a2b3c\",\"JoinEUI\":\"70b3d57ed0000001\",\"Owner\":\"town\"}";

const OTHER_DEVICE: &str =
    "{\"ProtocolVersion\":\"1.0\",\"SenderID\":\"office\",\"ReceiverID\":\"desk\",\"TransactionID\":2,\"MessageType\":\"DeviceAdd\",\"DevEUI\":\"0004a30b001a2b3d\",\"JoinEUI\":\"70b3d57ed0000001\",\"Owner\":\"town\"}";

const SAME_DEVICE: &str =
    "{\"ProtocolVersion\":\"1.0\",\"SenderID\":\"office\",\"ReceiverID\":\"desk\",\"TransactionID\":2,\"MessageType\":\"DeviceAdd\",\"DevEUI\":\"0x0004A30B001A2B3C\",\"JoinEUI\":\"70b3d57ed0000001\",\"Owner\":\"town\"}";

const DEVICE_AGAIN: &str =
    "{\"ProtocolVersion\":\"1.0\",\"SenderID\":\"office\",\"ReceiverID\":\"desk\",\"TransactionID\":3,\"MessageType\":\"DeviceAdd\",\"DevEUI\":\"0004a30b001a2b3c\",\"JoinEUI\":\"70b3d57ed0000001\",\"Owner\":\"town\"}";

const STRANGER: &str =
    "{\"ProtocolVersion\":\"1.0\",\"SenderID\":\"stranger\",\"ReceiverID\":\"desk\",\"TransactionID\":1,\"MessageType\":\"OwnerAdd\",\"Owner\":\"town\"}";

/// A message as the body of a POST, and so many octets of another request after it.
pub(crate) fn posted(alloc: Global, message: &str, after: &str) -> Result<String, Fail> {
    let length = message.len();
    Ok(format!(in alloc;
        "POST /v1/messages HTTP/1.1\r\nContent-Length: {length}\r\n\r\n{message}{after}"
    )?)
}

/// The desk serves the input, leaves so many octets of it unread, and writes this response.
pub(super) fn expect<R: Abort + AllocGlobal, K: Keeper>(
    rt: &R,
    keeper: &mut K,
    input: &[u8],
    unread: usize,
    status: u16,
    response: &str,
) {
    let mut reader = input;
    let mut written = Vec::new(rt.alloc());
    let end = serve_one(rt.alloc(), keeper, &mut reader, &mut written);
    let row = str::from_utf8(input).unwrap_or("octets that are no text");
    is_text(rt, row, response, written.as_slice());
    let is_so = end == ServeEnd::Done(status) && reader.len() == unread;
    holds_of(
        rt,
        is_so,
        row,
        "its end and what is left unread",
        response.as_bytes(),
    );
}

/// A request, how many octets of it are left unread, the status and the response.
type Row = (&'static str, usize, u16, &'static str);

static REFUSED: [Row; 32] = [
    // A request of a browser's page, whatever it asks for. Its body is a message that would be heard.
    (
        "POST /v1/messages HTTP/1.1\r\nHost: 127.0.0.1:8080\r\nOrigin: http://127.0.0.1:8080\r\nContent-Length: 123\r\n\r\n{\"ProtocolVersion\":\"1.0\",\"SenderID\":\"office\",\"ReceiverID\":\"desk\",\"TransactionID\":1,\"MessageType\":\"OwnerAdd\",\"Owner\":\"town\"}",
        123,
        403,
        CROSS_ORIGIN,
    ),
    (
        "GET /v1/else HTTP/1.1\r\norigin:\r\n\r\n",
        0,
        403,
        CROSS_ORIGIN,
    ),
    (
        "GET /v1/reports/town/2024-02 HTTP/1.1\r\nORIGIN: null\r\n\r\n",
        0,
        403,
        CROSS_ORIGIN,
    ),
    ("GET /v1/messages HTTP/1.1\r\n\r\nabc", 3, 405, NOT_BY_GET),
    ("HEAD /v1/messages HTTP/1.1\r\n\r\n", 0, 405, NOT_BY_GET),
    (
        "post /v1/messages HTTP/1.1\r\nContent-Length: 1\r\n\r\n{",
        1,
        405,
        NOT_BY_GET,
    ),
    ("POST /v1/bands/gw-a HTTP/1.1\r\n\r\n", 0, 405, NOT_BY_POST),
    (
        "POST /v1/reports/town/2024-02 HTTP/1.1\r\n\r\n",
        0,
        405,
        NOT_BY_POST,
    ),
    (
        "POST /v1/messages HTTP/1.1\r\nTransfer-Encoding: chunked\r\nContent-Length: 1\r\n\r\n{",
        1,
        411,
        NO_LENGTH,
    ),
    ("POST /v1/messages HTTP/1.1\r\n\r\n{", 1, 411, NO_LENGTH),
    (
        "POST /v1/messages HTTP/1.1\r\nContent-Length: +5\r\n\r\n{}   ",
        5,
        400,
        NO_HEAD,
    ),
    (
        "POST /v1/messages HTTP/1.1\r\nContent-Length:\r\n\r\n",
        0,
        400,
        NO_HEAD,
    ),
    (
        "POST /v1/messages HTTP/1.1\r\nContent-Length: 1\r\ncontent-length: 1\r\n\r\n{",
        1,
        400,
        NO_HEAD,
    ),
    (
        "POST /v1/messages HTTP/1.1\r\nContent-Length: 65537\r\n\r\n{",
        1,
        413,
        TOO_LONG,
    ),
    (
        "POST /v1/messages HTTP/1.1\r\nContent-Length: 99999999999999999999\r\n\r\n{",
        1,
        413,
        TOO_LONG,
    ),
    (
        "POST /v1/messages HTTP/1.1\r\nContent-Length: 2\r\n\r\n{",
        0,
        400,
        CUT_BODY,
    ),
    ("GET /v1/else HTTP/1.1\r\n\r\n", 0, 404, NO_ROUTE),
    ("GET /v1/messages/ HTTP/1.1\r\n\r\n", 0, 404, NO_ROUTE),
    ("GET /v1/bands/ HTTP/1.1\r\n\r\n", 0, 404, NO_ROUTE),
    ("GET /v1/bands/gw-a/ HTTP/1.1\r\n\r\n", 0, 404, NO_ROUTE),
    (
        "GET /v1/reports//2024-02 HTTP/1.1\r\n\r\n",
        0,
        404,
        NO_ROUTE,
    ),
    ("GET /v1/reports/town HTTP/1.1\r\n\r\n", 0, 404, NO_ROUTE),
    (
        "GET /v1/reports/town/2024-02/ HTTP/1.1\r\n\r\n",
        0,
        404,
        NO_ROUTE,
    ),
    (
        "GET http://desk/v1/messages HTTP/1.1\r\n\r\n",
        0,
        404,
        NO_ROUTE,
    ),
    ("OPTIONS * HTTP/1.1\r\n\r\n", 0, 404, NO_ROUTE),
    // A line that no head has is refused at its end, and a control octet at once: what comes after isn't waited for.
    ("GET /v1/messages\nabc", 3, 400, NO_HEAD),
    ("\r\n\nGET /v1/messages HTTP/2.0\r\nabc", 3, 400, NO_HEAD),
    ("GET /v1/messages HTTP/1.1\r\nA\r\nabc", 3, 400, NO_HEAD),
    ("GET /v1/messages HTTP/1.1\r\n A: b\nabc", 3, 400, NO_HEAD),
    ("\u{16}abc", 3, 400, NO_HEAD),
    ("\n\nGET /v1/messages\0abc", 3, 400, NO_HEAD),
    ("GET /v1/messages HTTP/1.1\r\nA: \u{7f}abc", 3, 400, NO_HEAD),
];

#[test]
fn requests_are_refused(rt: HostRuntime) -> Result<(), Fail> {
    let mut lists = opening::<Lists>(rt.alloc(), 65_536)?;
    for (input, unread, status, response) in &REFUSED {
        expect(
            &rt,
            &mut *lists,
            input.as_bytes(),
            *unread,
            *status,
            response,
        );
    }
    // None of them was heard.
    let input = posted(rt.alloc(), OTHER_OWNER, "")?;
    expect(&rt, &mut *lists, input.as_bytes(), 0, 200, ADDED);
    Ok(())
}

/// A message, the status and the response of a POST of it.
static DELIVERED: [(&str, u16, &str); 11] = [
    (REQUEST, 200, ADDED),
    (REQUEST, 200, ADDED),
    (OTHER_OWNER, 409, REUSED),
    (DEVICE_ADD, 200, DEVICE_ADDED),
    (OTHER_DEVICE, 409, DEVICE_REUSED),
    (SAME_DEVICE, 200, DEVICE_ADDED),
    (DEVICE_AGAIN, 200, DEVICE_EXISTS),
    (DEVICE_AGAIN, 200, DEVICE_EXISTS),
    (STRANGER, 400, UNKNOWN_SENDER),
    ("{", 400, MALFORMED),
    ("", 400, MALFORMED),
];

#[test]
fn messages_are_delivered(rt: HostRuntime) -> Result<(), Fail> {
    let mut lists = opening::<Lists>(rt.alloc(), 65_536)?;
    for (message, status, response) in &DELIVERED {
        let input = posted(rt.alloc(), message, "GET / HTTP/1.1\r\n")?;
        expect(&rt, &mut *lists, input.as_bytes(), 16, *status, response);
    }
    Ok(())
}
