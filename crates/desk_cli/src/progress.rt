//! Shows a user at a terminal how far a command is: how many lines of standard input were read so far, or how many records or messages were
//! heard. The contracts state that the octets read and written stay the same. What a terminal shows is only tested, here and by
//! `checks/terminal.py`.
ghost use Rattle.std.specs.Prelude.{◌≡◌};

use desk_engine::Progress;
use std::cell::{Cell, RefCell};
use std::fmt::{self, Display, Formatter};
use std::io::{self, IsTerminal, Read, Stderr, Write};
use std::time::{Clock, Duration, Instant};

/// Seconds between two numbers, and from the first read to the first number.
const SECONDS: u64 = 1;

/// Clears the last line of a terminal.
const CLEAR: &[u8] = b"\r\x1b[K";

/// Returns the standard error if it is a terminal. A number can be shown there while nothing is read or printed.
pub(crate) fn terminal(rt: &HostRuntime) -> Option<Stderr> {
    if rt.stderr().is_terminal() {
        return Some(rt.stderr());
    }
    None
}

/// Returns the standard error if a number can be shown there while input is read and answers are printed: it is a terminal, and standard
/// input and output aren't. So nobody types at it, and no answers are printed on it.
pub(crate) fn terminal_alone(rt: &HostRuntime) -> Option<Stderr> {
    if rt.stdin().is_terminal() || rt.stdout().is_terminal() {
        return None;
    }
    terminal(rt)
}

/// A number in groups of three digits, as in `12,345`.
#[derive(Clone, Copy)]
struct Grouped(u64);

/// The units of a number's groups, the highest first.
static GROUPS: [u64; 7] = [
    1_000_000_000_000_000_000,
    1_000_000_000_000_000,
    1_000_000_000_000,
    1_000_000_000,
    1_000_000,
    1_000,
    1,
];

impl Display for Grouped {
    fn fmt<W: fmt::Write>(&self, f: &mut Formatter<W>) -> fmt::Result {
        let mut has_begun = false;
        for unit in &GROUPS {
            let group = self.0.checked_div(*unit).unwrap_or(0) % 1_000;
            if has_begun {
                write!(f, ",{group:03}")?;
            } else if group > 0 || *unit == 1 {
                write!(f, "{group}")?;
                has_begun = true;
            }
        }
        Ok(())
    }
}

/// A terminal that shows a number about once a second, and whether it shows one now.
#[derive(Drop)]
struct Shown<'a, C, G> {
    clock: &'a C,
    terminal: G,
    is_shown: &'a Cell<bool>,
    since: Option<Instant>,
}

impl<'a, C: Clock, G: Write> Shown<'a, C, G> {
    /// Returns a terminal that has shown nothing.
    fn new(clock: &'a C, terminal: G, is_shown: &'a Cell<bool>) -> Self {
        Shown {
            clock,
            terminal,
            is_shown,
            since: None,
        }
    }

    /// Shows the number of these, in the plural, if it is due.
    fn show(&mut self, number: u64, these: &str) {
        if self.is_due() {
            // A number that can't be written is left out.
            let _ = write!(self.terminal, "\rdesk: {} {these}", Grouped(number));
            self.is_shown.set(true);
        }
    }

    /// Clears the number if it is shown.
    fn clear(&mut self) {
        clear(&mut self.terminal, self.is_shown);
    }

    /// Returns whether a second has passed since the last number, or since the first call. Returns `false` if the clock can't be read.
    fn is_due(&mut self) -> bool {
        let Ok(now) = Instant::now(self.clock) else {
            return false;
        };
        match self.since {
            Some(since) if now.saturating_duration_since(since) < Duration::from_secs(SECONDS) => {
                false
            }
            since => {
                self.since = Some(now);
                since.is_some()
            }
        }
    }
}

/// Clears the number if it is shown.
pub(crate) fn clear<G: Write>(terminal: &mut G, is_shown: &Cell<bool>) {
    if is_shown.replace(false) {
        let _ = terminal.write_all(CLEAR);
    }
}

/// The lines that were read, and the terminal that shows their number.
#[derive(Drop)]
struct Lines<'a, C, G> {
    shown: Shown<'a, C, G>,
    count: u64,
}

impl<C: Clock, G: Write> Lines<'_, C, G> {
    /// Counts the lines that end in these octets, and shows the number if it is due. No octets mean the end of the input: the number is
    /// cleared.
    fn count_lines(&mut self, octets: &[u8]) {
        if octets.is_empty() {
            self.shown.clear();
            return;
        }
        let ends = octets.iter().filter(|octet| **octet == b'\n').count();
        self.count = self.count.saturating_add(ends as u64);
        self.shown.show(self.count, "lines");
    }
}

/// A reader that reads what the reader below does. If there is a terminal, it shows how many lines were read, about once a second.
#[derive(Drop)]
pub struct Counted<'a, R, C, G> {
    below: R,
    lines: Option<Lines<'a, C, G>>,
}

impl<'a, R, C: Clock, G: Write> Counted<'a, R, C, G> {
    /// Returns a reader over `below` that has counted no lines. It sets `is_shown` to whether the terminal shows a number.
    pub fn new(below: R, clock: &'a C, terminal: Option<G>, is_shown: &'a Cell<bool>) -> Self
        ensures { result.below ≡ below }
    {
        let lines = terminal.map(|terminal| Lines {
            shown: Shown::new(clock, terminal, is_shown),
            count: 0,
        });
        Counted { below, lines }
    }
}

impl<R: Read, C: Clock, G: Write> Read for Counted<'_, R, C, G> {
    // What is left of the reader below, octet for octet.
    ghost remaining = { λ counted. R.remaining counted.below };

    fn read(&mut self, buf: &mut [u8]) -> io::Result<usize> {
        let count = self.below.read(buf)?;
        if let Some(lines) = &mut self.lines {
            lines.count_lines(&buf[..count]);
        }
        Ok(count)
    }
}

/// Shows how many records or messages were heard, about once a second, if there is a terminal.
#[derive(Drop)]
pub struct Heard<'a, C, G> {
    shown: Option<RefCell<Shown<'a, C, G>>>,
}

impl<'a, C: Clock, G: Write> Heard<'a, C, G> {
    /// Returns one that has shown nothing. It sets `is_shown` to whether the terminal shows a number.
    pub fn new(clock: &'a C, terminal: Option<G>, is_shown: &'a Cell<bool>) -> Self {
        let shown = terminal.map(|terminal| RefCell::new(Shown::new(clock, terminal, is_shown)));
        Heard { shown }
    }

    /// Shows the number of these if there is a terminal and the number is due.
    fn show(&self, number: u64, these: &str) {
        if let Some(shown) = &self.shown
            && let Ok(mut shown) = shown.try_borrow_mut()
        {
            shown.show(number, these);
        }
    }
}

impl<C: Clock, G: Write> Progress for Heard<'_, C, G> {
    fn records(&self, count: u64) {
        self.show(count, "records");
    }

    fn messages(&self, count: u64) {
        self.show(count, "messages");
    }
}

/// A writer that writes what the writer below does. It first clears the number if the terminal shows one.
#[derive(Drop)]
pub struct Cleared<'a, W, G> {
    below: W,
    terminal: G,
    is_shown: &'a Cell<bool>,
}

impl<'a, W, G: Write> Cleared<'a, W, G> {
    /// Returns a writer over `below`. `is_shown` is whether the terminal shows a number.
    pub fn new(below: W, terminal: G, is_shown: &'a Cell<bool>) -> Self
        ensures { result.below ≡ below }
    {
        Cleared {
            below,
            terminal,
            is_shown,
        }
    }
}

impl<W: Write, G: Write> Write for Cleared<'_, W, G> {
    // What was written to the writer below, octet for octet.
    ghost contents = { λ cleared. W.contents cleared.below };

    fn write(&mut self, buf: &[u8]) -> io::Result<usize> {
        clear(&mut self.terminal, self.is_shown);
        self.below.write(buf)
    }

    fn flush(&mut self) -> io::Result<()> {
        self.below.flush()
    }
}

#[cfg(test)]
mod tests;
