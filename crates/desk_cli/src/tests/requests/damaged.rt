//! A desk whose rows are none that a desk keeps. Peers that fail stand with the tests of `serve`.
use super::reports::{ReportRow, expect_reports};
use super::responses::{BAD_MONTH, MALFORMED, UNAVAILABLE};
use super::{expect, posted};
use crate::tests::downlinks::DROPPED_1;
use crate::tests::found;
use crate::tests::holding::holds;
use crate::tests::rows::Exchange::Asks;
use crate::tests::rows::{REQUEST, SUCCESS, delivery_of};
use crate::tests::stops::{deliveries, heard};
use desk_engine::{Outcome, deliver};
use desk_store::{Keeper, StoreFault};
use std::process::Abort;
use std::test::Fail;

/// A role, a DevEUI and a time on air out of their ranges.
const DAMAGE: &str =
    "UPDATE sender SET role = 7; UPDATE device SET eui = x'00'; UPDATE booking SET state = 0, airtime = -1";

/// What reads a damaged row is answered with 503. A month is looked at before any row.
static DAMAGED: [ReportRow; 3] = [
    ("/v1/reports/town/2024-02", 503, UNAVAILABLE),
    ("/v1/bands/gw-a", 503, UNAVAILABLE),
    ("/v1/reports/town/2024-13", 400, BAD_MONTH),
];

/// A message and both reports read what is damaged. What is no message reads nothing, and is answered as ever.
fn expect_unavailable<R: Abort + AllocGlobal, K: Keeper>(
    rt: &R,
    keeper: &mut K,
) -> Result<(), Fail> {
    let input = posted(rt.alloc(), REQUEST, "abc")?;
    expect(rt, keeper, input.as_bytes(), 3, 503, UNAVAILABLE);
    expect_reports(rt, keeper, &DAMAGED)?;
    let input = posted(rt.alloc(), "{", "")?;
    expect(rt, keeper, input.as_bytes(), 0, 400, MALFORMED);
    Ok(())
}

#[test]
fn rows_are_out_of_range(rt: HostRuntime) -> Result<(), Fail> {
    let mut conn = heard(&rt, &deliveries(rt.alloc())?)?;
    conn.execute_batch(DAMAGE)?;
    let mut tables = found(rt.alloc(), conn)?;
    expect_unavailable(&rt, &mut *tables)
}

#[test]
fn a_booking_has_no_state(rt: HostRuntime) -> Result<(), Fail> {
    let mut conn = heard(&rt, &deliveries(rt.alloc())?)?;
    conn.execute_batch("UPDATE booking SET state = 3")?;
    let mut tables = found(rt.alloc(), conn)?;
    let done = Asks("bridge", 20, "DownDone", DROPPED_1, SUCCESS);
    let text = delivery_of(rt.alloc(), &done)?.text;
    let outcome = deliver(rt.alloc(), &mut *tables, text.as_bytes());
    let is_told = matches!(outcome, Outcome::Unavailable(StoreFault::NotADesk));
    holds(&rt, is_told, "that it is no desk's");
    Ok(())
}
