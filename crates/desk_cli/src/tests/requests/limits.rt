//! Heads and bodies: their forms, a head's limits, and every beginning of both.
use super::responses::{ADDED, CUT_BODY, NO_HEAD};
use super::{expect, posted};
use crate::tests::holding::holds;
use crate::tests::opening;
use crate::tests::rows::{OTHER_OWNER, REQUEST};
use desk_http::{ServeEnd, serve_one};
use desk_store::Lists;
use std::alloc::Global;
use std::process::Abort;
use std::test::Fail;

/// The desk refuses the input for its head. How much of it is read isn't said.
fn expect_no_head<R: Abort + AllocGlobal>(rt: &R, lists: &mut Lists, input: &[u8]) {
    let mut reader = input;
    let mut written = Vec::new(rt.alloc());
    let end = serve_one(rt.alloc(), lists, &mut reader, &mut written);
    let is_refused = end == ServeEnd::Done(400) && written.as_slice() == NO_HEAD.as_bytes();
    holds(rt, is_refused, "that a head is refused");
}

static HEADS: [&str; 3] = [
    "POST /v1/messages?x=1 HTTP/1.1\r\nContent-Length: 123\r\n\r\n",
    "POST /v1/messages?? HTTP/1.0\nCONTENT-LENGTH:000000000000000000000000123\n\n",
    "\r\n\r\nPOST /v1/messages HTTP/1.1\r\nHost: desk\r\ncontent-length: \t123 \t\r\n\r\n",
];

#[test]
fn forms_of_a_head(rt: HostRuntime) -> Result<(), Fail> {
    let mut lists = opening::<Lists>(rt.alloc(), 65_536)?;
    for start in &HEADS {
        let input = format!(in rt.alloc(); "{start}{REQUEST}")?;
        expect(&rt, &mut *lists, input.as_bytes(), 0, 200, ADDED);
    }
    Ok(())
}

/// A POST whose head has so many octets, by a field of letters.
fn padded(alloc: Global, octets: usize) -> Result<String, Fail> {
    let letters = String::from_utf8(vec![in alloc; b'a'; octets.saturating_sub(56)]?)?;
    Ok(format!(in alloc;
        "POST /v1/messages HTTP/1.1\r\nContent-Length: 123\r\nA: {letters}\r\n\r\n{REQUEST}"
    )?)
}

/// A POST with so many headers.
fn headed(alloc: Global, headers: usize) -> Result<String, Fail> {
    let mut fields = String::new(alloc);
    for _ in 1..headers {
        fields.push_str("A: b\r\n")?;
    }
    Ok(format!(in alloc;
        "POST /v1/messages HTTP/1.1\r\n{fields}Content-Length: 123\r\n\r\n{REQUEST}"
    )?)
}

fn beginning(input: &[u8], octets: usize) -> &[u8] {
    &input[..octets.min(input.len())]
}

/// A control octet, another version, and a target that isn't UTF-8, in its query too.
static NO_WHOLE_HEADS: [&[u8]; 4] = [
    b"POST /v1/messages HTTP/1.1\r\nA: \0\r\n\r\n",
    b"POST /v1/messages HTTP/2.0\r\n\r\n",
    b"GET /v1/\xff HTTP/1.1\r\n\r\n",
    b"GET /v1/messages?\xff HTTP/1.1\r\n\r\n",
];

#[test]
fn limits_of_a_head(rt: HostRuntime) -> Result<(), Fail> {
    let alloc = rt.alloc();
    let mut lists = opening::<Lists>(alloc, 65_536)?;
    let input = padded(alloc, 8_193)?;
    expect(&rt, &mut *lists, input.as_bytes(), 124, 400, NO_HEAD);
    let input = headed(alloc, 33)?;
    expect_no_head(&rt, &mut *lists, input.as_bytes());
    // The head isn't ended.
    holds(&rt, input.len() == 366, "the length of the input");
    expect_no_head(&rt, &mut *lists, beginning(input.as_bytes(), 242));
    for input in &NO_WHOLE_HEADS {
        expect_no_head(&rt, &mut *lists, input);
    }
    let input = posted(alloc, OTHER_OWNER, "")?;
    expect(&rt, &mut *lists, input.as_bytes(), 0, 200, ADDED);
    let mut lists = opening::<Lists>(alloc, 65_536)?;
    let input = padded(alloc, 8_192)?;
    expect(&rt, &mut *lists, input.as_bytes(), 0, 200, ADDED);
    let input = headed(alloc, 32)?;
    expect(&rt, &mut *lists, input.as_bytes(), 0, 200, ADDED);
    Ok(())
}

#[test]
fn every_beginning(rt: HostRuntime) -> Result<(), Fail> {
    let alloc = rt.alloc();
    let mut lists = opening::<Lists>(alloc, 65_536)?;
    // One beginning has the whole message, and lacks what comes after it.
    let message = format!(in alloc; "{REQUEST} ")?;
    let input = posted(alloc, message.as_str(), "")?;
    let mut nothing: &[u8] = b"";
    let mut written = Vec::new(alloc);
    let end = serve_one(alloc, &mut *lists, &mut nothing, &mut written);
    let is_closed = end == ServeEnd::Closed && written.is_empty();
    holds(&rt, is_closed, "that nothing is answered");
    // The head has 51 octets. The length bounds the beginnings.
    assert!(rt; input.len() == 175);
    for length in 1..175 {
        let response = if length < 51 { NO_HEAD } else { CUT_BODY };
        let cut = &input.as_bytes()[..length];
        expect(&rt, &mut *lists, cut, 0, 400, response);
    }
    // None of them was heard.
    let other = posted(alloc, OTHER_OWNER, "")?;
    expect(&rt, &mut *lists, other.as_bytes(), 0, 200, ADDED);
    Ok(())
}
