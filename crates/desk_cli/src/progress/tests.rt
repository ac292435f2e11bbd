//! What a terminal is shown, by a clock that goes on by 400 milliseconds each time that it is read.
use super::{CLEAR, Cleared, Counted, Grouped, Heard, clear};
use crate::tests::holding::{holds, is_text};
use desk_engine::Progress;
use std::cell::Cell;
use std::io::{self, Read, Write};
use std::test::Fail;
use std::time::{Clock, Duration};

#[derive(Drop)]
struct Ticking {
    millis: Cell<u64>,
}

impl Clock for Ticking {
    fn monotonic(&self) -> io::Result<Duration> {
        let millis = self.millis.get().saturating_add(400);
        self.millis.set(millis);
        Ok(Duration::from_millis(millis))
    }

    fn since_1970(&self) -> io::Result<Duration> {
        self.monotonic()
    }
}

/// After the first read every third one shows a number, and what is written, or the end of the input, clears it.
#[test]
fn numbers_are_shown_and_cleared(rt: HostRuntime) -> Result<(), Fail> {
    let clock = Ticking {
        millis: Cell::new(0),
    };
    let is_shown = Cell::new(false);
    let input: &[u8] = b"a\nb\n\n\nc\nd\ne\n\nf";
    let screen = Vec::new(rt.alloc());
    let mut lines = Counted::new(input, &clock, Some(screen), &is_shown);
    let mut faults = Cleared::new(Vec::new(rt.alloc()), Vec::new(rt.alloc()), &is_shown);
    let mut octets = [0u8; 2];
    let mut count = 0usize;
    for place in 0..9 {
        count = lines.read(&mut octets)?.saturating_add(count);
        if place == 3 {
            faults.write_all(b"ab")?;
        }
    }
    holds(&rt, count == input.len(), "all is read");
    holds(&rt, faults.terminal.as_slice() == CLEAR, "cleared before");
    holds(
        &rt,
        faults.below.as_slice() == "ab".as_bytes(),
        "what is written",
    );
    let shown = lines.lines.ok_or("nothing is shown")?.shown;
    let wanted = "\rdesk: 5 lines\rdesk: 8 lines\r\x1b[K";
    holds(
        &rt,
        shown.terminal.as_slice() == wanted.as_bytes(),
        "the numbers",
    );
    Ok(())
}

/// After the first record every third one shows a number, and so does every third message.
#[test]
fn records_and_messages_are_shown(rt: HostRuntime) -> Result<(), Fail> {
    let clock = Ticking {
        millis: Cell::new(0),
    };
    let is_shown = Cell::new(false);
    let heard = Heard::new(&clock, Some(Vec::new(rt.alloc())), &is_shown);
    for count in 1_000..1_004 {
        heard.records(count);
    }
    for count in 7..10 {
        heard.messages(count);
    }
    let mut screen = heard.shown.ok_or("no terminal")?.into_inner().terminal;
    clear(&mut screen, &is_shown);
    let wanted = "\rdesk: 1,003 records\rdesk: 9 messages\r\x1b[K";
    is_text(&rt, "the screen", wanted, screen.as_slice());
    Ok(())
}

static NUMBERS: [(u64, &str); 6] = [
    (0, "0"),
    (999, "999"),
    (1_000, "1,000"),
    (12_045, "12,045"),
    (1_000_000, "1,000,000"),
    (u64::MAX, "18,446,744,073,709,551,615"),
];

#[test]
fn numbers_are_grouped(rt: HostRuntime) -> Result<(), Fail> {
    for (number, wanted) in &NUMBERS {
        let text = format!(in rt.alloc(); "{}", Grouped(*number))?;
        holds(&rt, text.as_str() == *wanted, wanted);
    }
    Ok(())
}
