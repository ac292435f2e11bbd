//! Each read of two lines, and of a request, fails in turn, and then each write. Sent once more, what was heard gets its first answer.
use super::holding::{holds_at, is_text_at};
use super::lines::{REUSED, expect_written};
use super::requests::responses::{self, ADDED};
use super::requests::{expect, posted};
use super::rows::{ADDED as OWNER_ADDED, OTHER_OWNER, REQUEST};
use super::streams::{Failing, Interrupted, Pieces};
use super::{Opened, opening};
use desk_engine::{LinesEnd, run_lines};
use desk_http::{ServeEnd, serve_one};
use desk_store::{Keeper, Lists};
use desk_tables::Tables;
use sqlite::MemStore;
use std::alloc::Global;
use std::process::Abort;
use std::test::Fail;

/// More reads and writes than there are.
const MANY: usize = 1_000;

/// How the input's lines end whose reads fail after so many, or whose writes do.
fn lines_end<K: Keeper>(
    alloc: Global,
    keeper: &mut K,
    input: &str,
    reads: usize,
    writes: usize,
) -> LinesEnd {
    let mut reader = Pieces::new(input.as_bytes(), reads);
    run_lines(alloc, keeper, &mut reader, &mut Failing::new(writes))
}

/// The lines' reads, or their writes, fail after each number, until none does.
fn lines_fail<R: Abort + AllocGlobal, K: Opened>(
    rt: &R,
    is_read: bool,
    end: LinesEnd,
) -> Result<(), Fail> {
    let input = format!(in rt.alloc(); "{REQUEST}\n{OTHER_OWNER}\n")?;
    let wanted = format!(in rt.alloc(); "{OWNER_ADDED}\n{REUSED}\n")?;
    for calls in 0..MANY {
        let (reads, writes) = if is_read {
            (calls, MANY)
        } else {
            (MANY, calls)
        };
        let mut keeper = opening::<K>(rt.alloc(), 65_536)?;
        let found = lines_end(rt.alloc(), &mut *keeper, input.as_str(), reads, writes);
        expect_written(rt, &mut *keeper, input.as_str(), wanted.as_str());
        if found == LinesEnd::Done {
            holds_at(rt, calls > 1, calls);
            return Ok(());
        }
        holds_at(rt, found == end, calls);
    }
    Err("they fail always".into())
}

/// How a request ends whose reads fail after so many, or whose writes do.
fn request_ends<K: Keeper>(
    alloc: Global,
    keeper: &mut K,
    input: &str,
    reads: usize,
    writes: usize,
) -> ServeEnd {
    let mut reader = Pieces::new(input.as_bytes(), reads);
    serve_one(alloc, keeper, &mut reader, &mut Failing::new(writes))
}

/// The request's reads fail after each number, until none does. Where one failed nothing was heard, so that another message may have
/// its number.
fn reads_of_a_request_fail<R: Abort + AllocGlobal, K: Opened>(rt: &R) -> Result<(), Fail> {
    let input = posted(rt.alloc(), REQUEST, "")?;
    let other = posted(rt.alloc(), OTHER_OWNER, "")?;
    for calls in 0..MANY {
        let mut keeper = opening::<K>(rt.alloc(), 65_536)?;
        let found = request_ends(rt.alloc(), &mut *keeper, input.as_str(), calls, MANY);
        if found == ServeEnd::Done(200) {
            holds_at(rt, calls > 1, calls);
            return Ok(());
        }
        holds_at(rt, found == ServeEnd::Read, calls);
        expect(rt, &mut *keeper, other.as_bytes(), 0, 200, ADDED);
    }
    Err("they fail always".into())
}

/// The response's writes fail after each number, until none does. Where one failed the message was heard, and has its number.
fn writes_of_a_request_fail<R: Abort + AllocGlobal, K: Opened>(rt: &R) -> Result<(), Fail> {
    let input = posted(rt.alloc(), REQUEST, "")?;
    let other = posted(rt.alloc(), OTHER_OWNER, "")?;
    for calls in 0..MANY {
        let mut keeper = opening::<K>(rt.alloc(), 65_536)?;
        let found = request_ends(rt.alloc(), &mut *keeper, input.as_str(), MANY, calls);
        expect(
            rt,
            &mut *keeper,
            other.as_bytes(),
            0,
            409,
            responses::REUSED,
        );
        expect(rt, &mut *keeper, input.as_bytes(), 0, 200, ADDED);
        if found == ServeEnd::Done(200) {
            holds_at(rt, calls > 1, calls);
            return Ok(());
        }
        holds_at(rt, found == ServeEnd::Write, calls);
    }
    Err("they fail always".into())
}

fn ends_fail<R: Abort + AllocGlobal, K: Opened>(rt: &R) -> Result<(), Fail> {
    lines_fail::<R, K>(rt, true, LinesEnd::Read)?;
    lines_fail::<R, K>(rt, false, LinesEnd::Write)?;
    reads_of_a_request_fail::<R, K>(rt)?;
    writes_of_a_request_fail::<R, K>(rt)
}

#[test]
fn ends_fail_over_lists(rt: HostRuntime) -> Result<(), Fail> {
    ends_fail::<HostRuntime, Lists>(&rt)
}

#[test]
fn ends_fail_over_tables(rt: HostRuntime) -> Result<(), Fail> {
    ends_fail::<HostRuntime, Tables<MemStore>>(&rt)
}

/// Reads that are interrupted a hundred times in a row go on.
#[test]
fn a_request_that_is_interrupted(rt: HostRuntime) -> Result<(), Fail> {
    let input = posted(rt.alloc(), REQUEST, "")?;
    let mut lists = opening::<Lists>(rt.alloc(), 65_536)?;
    let mut reader = Interrupted::new(input.as_bytes());
    let mut written = Vec::new(rt.alloc());
    let end = serve_one(rt.alloc(), &mut *lists, &mut reader, &mut written);
    holds_at(&rt, end == ServeEnd::Done(200), 0);
    is_text_at(&rt, 1, ADDED, written.as_slice());
    Ok(())
}
