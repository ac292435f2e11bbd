//! The log over HTTP.
use super::expect;
use super::responses::{CROSS_ORIGIN, NO_NUMBER, NO_ROUTE, NOT_BY_POST};
use crate::tests::log::lines_of;
use crate::tests::rows::Delivery;
use crate::tests::stops::deliveries;
use crate::tests::{hear_each, opening};
use desk_engine::LogText;
use desk_engine::LogText::{Answer, Message};
use desk_store::{Keeper, Lists};
use std::process::Abort;
use std::test::Fail;

/// A target, whether it gives messages or answers, and how many of the ten come before.
static PARTS: [(&str, LogText, usize); 9] = [
    ("/v1/log/1", Message, 0),
    ("/v1/log/01", Message, 0),
    ("/v1/log/9", Message, 8),
    ("/v1/log/0000000000000010?x=/y", Message, 9),
    ("/v1/log/11", Message, 10),
    ("/v1/log/9007199254740991", Message, 10),
    ("/v1/answers/1", Answer, 0),
    ("/v1/answers/10", Answer, 9),
    ("/v1/answers/11", Answer, 10),
];

/// A request's line and fields, the status and the response.
static REFUSED: [(&str, u16, &str); 14] = [
    ("GET /v1/log/0 HTTP/1.1\r\n", 400, NO_NUMBER),
    ("GET /v1/log/x HTTP/1.1\r\n", 400, NO_NUMBER),
    ("GET /v1/log/9007199254740992 HTTP/1.1\r\n", 400, NO_NUMBER),
    ("GET /v1/log/00000000000000001 HTTP/1.1\r\n", 400, NO_NUMBER),
    ("GET /v1/log/+1 HTTP/1.1\r\n", 400, NO_NUMBER),
    ("GET /v1/answers/0 HTTP/1.1\r\n", 400, NO_NUMBER),
    ("GET /v1/answers/1.0 HTTP/1.1\r\n", 400, NO_NUMBER),
    ("POST /v1/log/1 HTTP/1.1\r\n", 405, NOT_BY_POST),
    ("HEAD /v1/answers/x HTTP/1.1\r\n", 405, NOT_BY_POST),
    ("GET /v1/log/ HTTP/1.1\r\n", 404, NO_ROUTE),
    ("GET /v1/log HTTP/1.1\r\n", 404, NO_ROUTE),
    ("GET /v1/log/1/ HTTP/1.1\r\n", 404, NO_ROUTE),
    ("GET /v1/answer/1 HTTP/1.1\r\n", 404, NO_ROUTE),
    (
        "GET /v1/log/1 HTTP/1.1\r\nOrigin: null\r\n",
        403,
        CROSS_ORIGIN,
    ),
];

/// A GET of the target is answered with the lines of these.
fn expect_part<R: Abort + AllocGlobal, K: Keeper>(
    rt: &R,
    keeper: &mut K,
    target: &str,
    which: LogText,
    part: &[Delivery],
) -> Result<(), Fail> {
    let lines = String::from_utf8(lines_of(rt, part, which)?)?;
    let length = lines.len();
    let input = format!(in rt.alloc(); "GET {target} HTTP/1.1\r\nContent-Length: x\r\n\r\nabc")?;
    let response = format!(in rt.alloc();
        "HTTP/1.1 200 OK\r\ncontent-type: application/x-ndjson\r\ncontent-length: {length}\r\nconnection: close\r\n\r\n{lines}"
    )?;
    expect(rt, keeper, input.as_bytes(), 3, 200, response.as_str());
    Ok(())
}

#[test]
fn the_log_is_given(rt: HostRuntime) -> Result<(), Fail> {
    let ten = deliveries(rt.alloc())?;
    let mut lists = opening::<Lists>(rt.alloc(), 65_536)?;
    hear_each(&rt, &mut *lists, &ten);
    for (target, which, before) in &PARTS {
        let part = ten.get(*before..).ok_or("no messages")?;
        expect_part(&rt, &mut *lists, target, *which, part)?;
    }
    for (head, status, response) in &REFUSED {
        let input = format!(in rt.alloc(); "{head}\r\n")?;
        expect(&rt, &mut *lists, input.as_bytes(), 0, *status, response);
    }
    Ok(())
}
