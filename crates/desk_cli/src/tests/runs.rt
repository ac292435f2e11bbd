//! The messages of runs from the opening state, through `deliver` one by one and through `run` at once.
use super::data_frames::{DATA, SESSIONS};
use super::downlinks::{
    BETWEEN, BETWEEN_ABOVE, COLLISIONS, DOWNLINKS, HOUR_BEGUN, HOURS, HOURS_ABOVE, LENGTHS,
    WORKED_DOWNLINKS,
};
use super::fsk::FSK;
use super::holding::holds;
use super::joins::{JOINS, ONE_ADDRESS};
use super::limits::{FIRST_LIMITS, LIMITS, LOWERED};
use super::rows::{Delivery, Exchange, OWNERS, REGISTRY, SETUP, deliveries_of};
use super::{Opened, deliver_each, expect_told, opening};
use desk_engine::{Outcome, run};
use desk_store::Keeper;
use std::alloc::{AllocError, Global};
use std::process::Abort;
use std::test::Fail;

/// The texts of the deliveries.
pub(super) fn texts_of(alloc: Global, deliveries: &[Delivery]) -> Result<Vec<&[u8]>, AllocError> {
    let mut texts = Vec::new(alloc);
    for delivery in deliveries {
        texts.push(delivery.text.as_bytes())?;
    }
    Ok(texts)
}

/// Each delivery has its outcome.
pub(super) fn expect_outcomes(rt: &impl Abort, outcomes: &[Outcome], deliveries: &[Delivery]) {
    holds(rt, outcomes.len() == deliveries.len(), "how many outcomes");
    for (outcome, delivery) in outcomes.iter().zip(deliveries) {
        expect_told(rt, outcome, delivery);
    }
}

fn run_all<R: Abort + AllocGlobal, K: Keeper>(
    rt: &R,
    keeper: &mut K,
    rows: &[Exchange],
) -> Result<(), Fail> {
    let deliveries = deliveries_of(rt.alloc(), rows)?;
    let outcomes = run(rt.alloc(), keeper, &texts_of(rt.alloc(), &deliveries)?)?;
    expect_outcomes(rt, &outcomes, &deliveries);
    Ok(())
}

/// Delivers the tables in order, one by one and at once, each time to a desk with so many addresses that has heard nothing. Each
/// delivery has its outcome.
fn expect_run<R: Abort + AllocGlobal, K: Opened>(
    rt: &R,
    addresses: u32,
    tables: &[&[Exchange]],
) -> Result<(), Fail> {
    let mut keeper = opening::<K>(rt.alloc(), addresses)?;
    for rows in tables {
        deliver_each(rt, &mut *keeper, rows)?;
    }
    let mut keeper = opening::<K>(rt.alloc(), addresses)?;
    for rows in tables {
        run_all(rt, &mut *keeper, rows)?;
    }
    Ok(())
}

// The tables stand in four functions: the more rows a function names, the longer its proof takes for each of them.

/// The tables of joins and of data frames.
fn of_frames() -> [&'static [Exchange]; 2] {
    [&JOINS, &DATA]
}

/// Those of sessions and of FSK.
fn of_sessions() -> [&'static [Exchange]; 2] {
    [&SESSIONS, &FSK]
}

/// Those of downlinks.
fn of_downlinks() -> [&'static [Exchange]; 3] {
    [&WORKED_DOWNLINKS, &DOWNLINKS, &LENGTHS]
}

/// Those of downlinks that are near one another.
fn of_near_downlinks() -> [&'static [Exchange]; 3] {
    [&BETWEEN, &BETWEEN_ABOVE, &COLLISIONS]
}

/// Each of these tables comes right after the setup.
fn expect_after_setup<R: Abort + AllocGlobal, K: Opened>(
    rt: &R,
    tables: &[&[Exchange]],
) -> Result<(), Fail> {
    for rows in tables {
        expect_run::<R, K>(rt, 65_536, &[&SETUP[..], *rows])?;
    }
    Ok(())
}

pub(super) fn have_their_outcomes<R: Abort + AllocGlobal, K: Opened>(rt: &R) -> Result<(), Fail> {
    expect_run::<R, K>(rt, 65_536, &[&OWNERS[..]])?;
    expect_run::<R, K>(rt, 1, &[&SETUP[..], &ONE_ADDRESS])?;
    expect_after_setup::<R, K>(rt, &[&REGISTRY[..]])?;
    expect_after_setup::<R, K>(rt, &of_frames())?;
    expect_after_setup::<R, K>(rt, &of_sessions())?;
    expect_after_setup::<R, K>(rt, &of_downlinks())?;
    expect_after_setup::<R, K>(rt, &of_near_downlinks())
}

pub(super) fn hours_have_their_outcomes<R: Abort + AllocGlobal, K: Opened>(
    rt: &R,
) -> Result<(), Fail> {
    for rows in [&HOURS[..], &HOURS_ABOVE] {
        expect_run::<R, K>(rt, 65_536, &[&SETUP[..], &HOUR_BEGUN, rows])?;
    }
    let lowered = [&SETUP[..], &HOUR_BEGUN, &HOURS, &LIMITS, &LOWERED];
    expect_run::<R, K>(rt, 65_536, &lowered)?;
    expect_run::<R, K>(rt, 65_536, &[&SETUP[..], &FIRST_LIMITS])
}
