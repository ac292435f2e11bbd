//! The resource that a request's target names.
ghost use Rattle.std.specs.Prelude.{◌≡◌, ℕ, List, IfOk, Option, None, Some};
ghost use Rattle.std.specs.Str.{IsUtf8};
ghost use Rattle.desk_http.specs.Targets.{path_of, method_of};
ghost use Rattle.desk_http.specs.steps.Targets.{before_slash, after_slash, names_of, route_of, resource_of};

use desk_engine::ListOf;
use matchit::{InsertError, Router};
use std::alloc::Global;
use std::str;

/// The routes that are served.
#[derive(Clone, Copy)]
pub(crate) enum Route {
    /// The delivery of messages.
    Messages,
    /// An owner's report of a month.
    OwnerReport,
    /// The report of a gateway's bands.
    BandReport,
    /// A gateway's room at a time.
    Room,
    /// The log from a message on.
    Log,
    /// The answers of the log from a message on.
    Answers,
    /// A list.
    Listing(ListOf),
    /// One device.
    Device,
    /// The receptions of a device in a month.
    Receptions,
    /// The downlinks of a gateway in a month.
    Downlinks,
}

/// Returns the method of a route.
pub(crate) fn method_of(route: Route) -> &'static str
    ensures { (path : List ℕ) → result.now ≡ method_of (resource_of path route) }
{
    match route {
        Route::Messages => "POST",
        Route::OwnerReport | Route::BandReport | Route::Room => "GET",
        Route::Log | Route::Answers => "GET",
        Route::Listing(_) | Route::Device => "GET",
        Route::Receptions | Route::Downlinks => "GET",
    }
}

/// Returns the target as a text.
pub(crate) fn text_of(target: &[u8]) -> &str
    requires { IsUtf8 target.now }
    ensures { result.now ≡ target.now }
{
    match str::from_utf8(target) {
        Ok(text) => text,
        Err(_) => unreachable!(),
    }
}

/// Returns the target up to its first question mark.
pub(crate) fn path_of(target: &str) -> &str
    ensures { result.now ≡ path_of target.now }
{
    match target.split_once('?') {
        Some((path, _)) => path,
        None => target,
    }
}

/// Returns what follows the first slash, or nothing if there is none.
pub(crate) fn after_slash(text: &str) -> &str
    ensures { result.now ≡ after_slash text.now }
{
    match text.split_once('/') {
        Some((_, after)) => after,
        None => "",
    }
}

/// Returns what precedes the first slash, or the whole text if there is none.
pub(crate) fn before_slash(text: &str) -> &str
    ensures { result.now ≡ before_slash text.now }
{
    match text.split_once('/') {
        Some((before, _)) => before,
        None => text,
    }
}

/// Returns what follows the third slash of a path.
pub(crate) fn names_of(path: &str) -> &str
    ensures { result.now ≡ names_of path.now }
{
    after_slash(after_slash(after_slash(path)))
}

/// Returns the route of a path, `None` if the path has none.
///
/// # Errors
///
/// Returns `InsertError` if the routes couldn't be put into a router, for example because memory ran out.
pub(crate) fn route_of(alloc: Global, path: &str) -> Result<Option<Route>, InsertError>
    ensures { IfOk result (λ route. route ≡ route_of path.now) }
{
    let mut router = Router::new(alloc);
    router.insert("/v1/answers/{from}", Route::Answers)?;
    router.insert("/v1/bands/{gateway}", Route::BandReport)?;
    router.insert("/v1/devices", Route::Listing(ListOf::Devices))?;
    router.insert("/v1/devices/{deveui}", Route::Device)?;
    router.insert("/v1/downlinks/{gateway}/{month}", Route::Downlinks)?;
    router.insert("/v1/gateways", Route::Listing(ListOf::Gateways))?;
    router.insert("/v1/log/{from}", Route::Log)?;
    router.insert("/v1/messages", Route::Messages)?;
    router.insert("/v1/owners", Route::Listing(ListOf::Owners))?;
    router.insert("/v1/receptions/{deveui}/{month}", Route::Receptions)?;
    router.insert("/v1/reports/{owner}/{month}", Route::OwnerReport)?;
    router.insert("/v1/room/{gateway}/{time}", Route::Room)?;
    router.insert("/v1/senders", Route::Listing(ListOf::Senders))?;
    match router.at(path) {
        Ok(found) => Ok(Some(*found.value)),
        Err(_) => Ok(None),
    }
}
