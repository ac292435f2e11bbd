//! What a request's head asks for, by checks in order.
ghost use Rattle.std.specs.Prelude.{◌≡◌, ℕ, List, length, map, IfOk};
ghost use Rattle.std.specs.List.{All};
ghost use Rattle.httparse.specs.Spans.{IsHeaderWithin, header_bytes};
ghost use Rattle.desk_engine.specs.Log.{message_number};
ghost use Rattle.desk_http.specs.Requests.{asked_by_number, asked_by_resource, asked_of, asked_of_messages, asked_of_named};
ghost use Rattle.desk_http.specs.Targets.{path_of};
ghost use Rattle.desk_http.specs.steps.Requests.{request_of};
ghost use Rattle.desk_http.specs.steps.Targets.{named_in_path, resource_of};

use crate::fields::{BodyLength, body_length, has_origin, has_transfer_encoding};
use crate::reports::Wanted;
use crate::targets::{Route, method_of, names_of, path_of, route_of};
use desk_engine::{LogText, message_number};
use httparse::spans::HeaderSpan;
use matchit::InsertError;
use std::alloc::Global;

/// What a request's head asks for, or why it is refused at once.
#[derive(Clone, Copy)]
pub(crate) enum Asked {
    /// A field names an origin: the request comes from a page in a browser.
    CrossOrigin,
    NoRoute,
    /// The method is not the route's own.
    OtherMethod(Route),
    /// A message with a transfer encoding, or with no length.
    NoLength,
    /// A length that is given twice, or isn't one or more digits.
    BadLength,
    TooLong,
    /// The delivery of a body of this many octets.
    Deliver(u32),
    /// A report.
    Report(Wanted),
    /// The path has no message number where the log needs one.
    BadNumber,
}

/// Returns what a head with these parts asks for.
///
/// # Errors
///
/// Returns `InsertError` if the routes couldn't be put into a router, for example because memory ran out.
pub(crate) fn asked_of(
    alloc: Global,
    method: &[u8],
    target: &str,
    octets: &[u8],
    headers: &[HeaderSpan],
) -> Result<Asked, InsertError>
    requires { All (IsHeaderWithin (length octets.now)) headers.now }
    ensures { IfOk result (λ asked. request_of (path_of target.now) asked
        ≡ asked_of (named_in_path (path_of target.now)) method.now (map (header_bytes octets.now) headers.now)) }
{
    if has_origin(octets, headers) {
        return Ok(Asked::CrossOrigin);
    }
    asked_of_target(alloc, method, target, octets, headers)
}

/// Returns what a head with no origin asks for.
fn asked_of_target(
    alloc: Global,
    method: &[u8],
    target: &str,
    octets: &[u8],
    headers: &[HeaderSpan],
) -> Result<Asked, InsertError>
    requires { All (IsHeaderWithin (length octets.now)) headers.now }
    ensures { IfOk result (λ asked. request_of (path_of target.now) asked
        ≡ asked_of_named (named_in_path (path_of target.now)) method.now (map (header_bytes octets.now) headers.now)) }
{
    let path = path_of(target);
    let Some(route) = route_of(alloc, path)? else {
        return Ok(Asked::NoRoute);
    };
    if method != method_of(route).as_bytes() {
        return Ok(Asked::OtherMethod(route));
    }
    Ok(asked_by_route(route, path, octets, headers))
}

/// Returns what a request by the route's own method asks for.
fn asked_by_route(route: Route, path: &str, octets: &[u8], headers: &[HeaderSpan]) -> Asked
    requires { All (IsHeaderWithin (length octets.now)) headers.now }
    ensures { request_of path.now result ≡ asked_by_resource (resource_of path.now route) (map (header_bytes octets.now) headers.now) }
{
    match route {
        Route::Messages => asked_of_messages(octets, headers),
        Route::OwnerReport => Asked::Report(Wanted::OwnerReport),
        Route::BandReport => Asked::Report(Wanted::BandReport),
        Route::Room => Asked::Report(Wanted::Room),
        Route::Log => asked_of_log(LogText::Message, names_of(path)),
        Route::Answers => asked_of_log(LogText::Answer, names_of(path)),
        Route::Listing(of) => Asked::Report(Wanted::Listing(of)),
        Route::Device => Asked::Report(Wanted::Device),
        Route::Receptions => Asked::Report(Wanted::Receptions),
        Route::Downlinks => Asked::Report(Wanted::Downlinks),
    }
}

/// Returns the request of a log, which needs a message number.
fn asked_of_log(which: LogText, from: &str) -> Asked
    ensures { (path : List ℕ) → request_of path result ≡ asked_by_number which (message_number from.now) }
{
    match message_number(from) {
        Some(from) => Asked::Report(Wanted::Log(which, from)),
        None => Asked::BadNumber,
    }
}

/// Returns the request of a delivery, which needs a length. With a transfer encoding it has none.
fn asked_of_messages(octets: &[u8], headers: &[HeaderSpan]) -> Asked
    requires { All (IsHeaderWithin (length octets.now)) headers.now }
    ensures { (path : List ℕ) → request_of path result ≡ asked_of_messages (map (header_bytes octets.now) headers.now) }
{
    if has_transfer_encoding(octets, headers) {
        return Asked::NoLength;
    }
    match body_length(octets, headers) {
        BodyLength::Absent => Asked::NoLength,
        BodyLength::Number(count) => Asked::Deliver(count),
        BodyLength::TooLong => Asked::TooLong,
        BodyLength::Bad => Asked::BadLength,
    }
}
