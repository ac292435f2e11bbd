//! Lines and reports over the store that the environment names: `lists`, or tables in `memory`. Lines come from standard input, and
//! answers and reports go to standard output: `checks/both_stores.py` compares them, and `bench/tables.py` reads the times. Where
//! nothing is named there are no lines.
use super::opening;
use desk_engine::{LinesEnd, band_report, owner_report, run_lines};
use desk_store::{Keeper, Lists};
use desk_tables::Tables;
use sqlite::MemStore;
use std::env;
use std::io::{BufWriter, Write};
use std::test::Fail;
use std::time::Instant;

const OWNERS: [&str; 2] = ["town", "city"];

const MONTHS: [&str; 3] = ["2024-01", "2024-02", "2024-03"];

const GATEWAYS: [&str; 9] = [
    "gw-0", "gw-1", "gw-2", "gw-3", "gw-4", "gw-5", "gw-6", "gw-7", "gw-8",
];

/// The lines of standard input.
fn answer_lines<K: Keeper>(rt: &HostRuntime, keeper: &mut K) -> Result<(), Fail> {
    let mut answers = BufWriter::new(rt.alloc(), rt.stdout())?;
    let end = run_lines(rt.alloc(), keeper, &mut rt.stdin(), &mut answers);
    answers.flush()?;
    match end {
        LinesEnd::Done => Ok(()),
        _ => Err("another end".into()),
    }
}

fn write_owners<K: Keeper>(rt: &HostRuntime, keeper: &mut K) -> Result<(), Fail> {
    for owner in OWNERS {
        for month in MONTHS {
            if let Ok(report) = owner_report(rt.alloc(), keeper, owner, month) {
                rt.stdout().write_all(&report)?;
            }
        }
    }
    Ok(())
}

fn write_gateways<K: Keeper>(rt: &HostRuntime, keeper: &mut K) -> Result<(), Fail> {
    for gateway in GATEWAYS {
        if let Ok(report) = band_report(rt.alloc(), keeper, gateway) {
            rt.stdout().write_all(&report)?;
        }
    }
    Ok(())
}

/// Answers, then reports, and how long each took.
fn answer_all<K: Keeper>(rt: &HostRuntime, keeper: &mut K) -> Result<(), Fail> {
    let begun = Instant::now(rt)?;
    answer_lines(rt, keeper)?;
    let lines = begun.elapsed(rt)?.as_micros();
    write_owners(rt, keeper)?;
    write_gateways(rt, keeper)?;
    let all = begun.elapsed(rt)?.as_micros();
    println!(rt; "lines: {lines} microseconds, with reports {all}")?;
    Ok(())
}

#[test]
fn lines_over_the_named_store(rt: HostRuntime) -> Result<(), Fail> {
    let Ok(store) = env::var(&rt, "DESK_STORE") else {
        return Ok(());
    };
    match store.as_str() {
        "lists" => answer_all(&rt, &mut *opening::<Lists>(rt.alloc(), 65_536)?),
        "memory" => answer_all(&rt, &mut *opening::<Tables<MemStore>>(rt.alloc(), 65_536)?),
        _ => Err("no such store".into()),
    }
}
