//! How `lines` and `hear` end by a store that fails, and what is on standard error.
use crate::answering::answer_lines;
use crate::endings::Ending;
use crate::faults::end;
use crate::tests::holding::holds;
use crate::tests::opening;
use crate::tests::rows::REQUEST;
use crate::tests::switched::{Failure, Switched};
use desk_store::Lists;
use std::alloc::Global;
use std::test::Fail;

/// A new desk that is kept in lists answers the worked request, unless its first call fails: how the command ends, what is on
/// standard error, and how much was answered.
fn ended(alloc: Global, failure: Failure) -> Result<(Ending, Vec<u8>, usize), Fail> {
    let mut switched = Switched::new(opening::<Lists>(alloc, 65_536)?, failure, 0);
    let mut answers = Vec::new(alloc);
    let done = answer_lines(alloc, &mut switched, &mut REQUEST.as_bytes(), &mut answers);
    let mut faults = Vec::new(alloc);
    Ok((end(&mut faults, done), faults, answers.len()))
}

static ENDINGS: [(Failure, Ending, &str); 4] = [
    (Failure::Memory, Ending::Failed, "desk: unavailable\n"),
    (Failure::Disk, Ending::Failed, "desk: unavailable\n"),
    (Failure::DiskAfter, Ending::Failed, "desk: unavailable\n"),
    (Failure::NotADesk, Ending::Refused, "desk: not a desk\n"),
];

#[test]
fn lines_end_by_a_store_that_fails(rt: HostRuntime) -> Result<(), Fail> {
    for (failure, ending, line) in &ENDINGS {
        let (found, faults, answered) = ended(rt.alloc(), *failure)?;
        holds(&rt, found == *ending && answered == 0, line);
        holds(&rt, faults.as_slice() == line.as_bytes(), line);
    }
    Ok(())
}
