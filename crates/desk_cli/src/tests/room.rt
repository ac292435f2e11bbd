//! A desk that has heard as many messages as may ever be heard.
use super::holding::holds;
use super::requests::posted;
use super::requests::responses::UNAVAILABLE;
use super::rows::Delivery;
use super::stops::{all_deliveries, heard};
use super::{Reopened, found, hear_each};
use desk_engine::{Outcome, deliver};
use desk_http::{ServeEnd, serve_one};
use desk_store::{Keeper, StoreFault};
use sqlite::{Connection, MemStore};
use std::process::Abort;
use std::test::Fail;

/// The database of a desk that has heard the deliveries, the last of them as the last that may be heard.
pub(crate) fn without_room<R: Abort + AllocGlobal>(
    rt: &R,
    deliveries: &[Delivery],
) -> Result<Connection<MemStore>, Fail> {
    let mut conn = heard(rt, deliveries)?;
    conn.execute_batch(
        "UPDATE reply SET seq = 9007199254740991 WHERE sender = 'office' AND number = 7",
    )?;
    Ok(conn)
}

/// One more isn't heard, however it is delivered.
pub(super) fn expect_no_room<R: Abort + AllocGlobal, K: Keeper>(
    rt: &R,
    keeper: &mut K,
    delivery: &Delivery,
) -> Result<(), Fail> {
    let outcome = deliver(rt.alloc(), keeper, delivery.text.as_bytes());
    let is_right = matches!(outcome, Outcome::Unavailable(StoreFault::Size));
    holds(rt, is_right, "that there is no room");
    let input = posted(rt.alloc(), delivery.text.as_str(), "")?;
    let mut written = Vec::new(rt.alloc());
    let end = serve_one(rt.alloc(), keeper, &mut input.as_bytes(), &mut written);
    holds(rt, end == ServeEnd::Done(503), "the status");
    holds(
        rt,
        written.as_slice() == UNAVAILABLE.as_bytes(),
        "the response",
    );
    Ok(())
}

/// What was heard is answered as it was, and nothing changes.
fn is_without_room<R: Abort + AllocGlobal, K: Reopened>(
    rt: &R,
    store: Box<K>,
    deliveries: &[Delivery],
    next: &Delivery,
) -> Result<(), Fail> {
    let (rows, mut store) = K::reopened(rt.alloc(), store)?;
    expect_no_room(rt, &mut *store, next)?;
    hear_each(rt, &mut *store, deliveries);
    let (again, _) = K::reopened(rt.alloc(), store)?;
    holds(rt, again == rows, "the rows");
    Ok(())
}

#[test]
fn no_message_more_is_heard(rt: HostRuntime) -> Result<(), Fail> {
    let all = all_deliveries(rt.alloc())?;
    let heard = all.get(..12).ok_or("no messages")?;
    let next = all.get(12).ok_or("no message")?;
    let conn = without_room(&rt, heard)?;
    is_without_room(&rt, found(rt.alloc(), conn)?, heard, next)
}
