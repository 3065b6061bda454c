//! The progress of a COPY, which is shown on a terminal.
ghost use Rattle.std.specs.Prelude.{◌≡◌};

use std::cell::Cell;
use std::fmt::{self, Display, Formatter};
use std::io::{self, IsTerminal, Read, Write};
use std::time::Instant;

/// The rows of a COPY, and the bytes of its input, that were read so far.
#[derive(Drop)]
pub struct Progress {
    rt: HostRuntime,
    start: Instant,
    /// The time of the last report.
    reported: Cell<Instant>,
    bytes: Cell<u64>,
    rows: Cell<u64>,
    /// Whether the last line has not ended yet.
    is_in_line: Cell<bool>,
}

impl Progress {
    /// Starts counting. Returns `None` if nothing is to be shown: standard error is not a terminal,
    /// or standard output is one, which shows the lines.
    pub fn start(rt: HostRuntime) -> Option<Progress> {
        if !rt.stderr().is_terminal() || rt.stdout().is_terminal() {
            return None;
        }
        let start = Instant::now(&rt).ok()?;
        Some(Progress {
            rt,
            start,
            reported: Cell::new(start),
            bytes: Cell::new(0),
            rows: Cell::new(0),
            is_in_line: Cell::new(false),
        })
    }

    /// Counts what goes through the input or the output of the COPY. If the stream is the one with
    /// text, its lines are counted as rows.
    pub fn count<S>(&self, stream: S, is_text: bool) -> Counted<'_, S>
        ensures { result.stream ≡ stream }
    {
        Counted {
            stream,
            progress: self,
            is_text,
        }
    }

    /// Shows the final progress, and ends the line. If the last line of text tells a fault, it is
    /// no row.
    pub fn finish(&self, is_told: bool) {
        if is_told {
            let rows = self.rows.get();
            self.rows.set(rows.saturating_sub(1));
        }
        if let Ok(now) = Instant::now(&self.rt) {
            self.report(now, "\n");
        }
    }

    /// Shows the progress if the last report is at least a second old.
    fn report_if_due(&self) {
        let Ok(now) = Instant::now(&self.rt) else {
            return;
        };
        if now.duration_since(self.reported.get()).as_secs() >= 1 {
            self.reported.set(now);
            self.report(now, "");
        }
    }

    /// Writes a report over the last one. An error of standard error is ignored.
    fn report(&self, now: Instant, end: &str) {
        let rows = Grouped(self.rows.get());
        let tenths = self.bytes.get() / 100_000;
        let (megabytes, tenth) = (Grouped(tenths / 10), tenths % 10);
        let millis = u64::try_from(now.duration_since(self.start).as_millis()).unwrap_or(u64::MAX);
        let rate = Grouped(rows.0.saturating_mul(1000) / millis.max(1));
        // The blanks overwrite the end of a longer report.
        let _ = eprint!(self.rt;
            "\r{rows} rows and {megabytes}.{tenth} MB read, {rate} rows/s        {end}"
        );
    }

    fn add_bytes(&self, count: usize) {
        let bytes = self.bytes.get();
        self.bytes.set(bytes.saturating_add(count as u64));
    }

    /// Counts the lines that end in the text. An empty text, at the end of the input, ends the last
    /// line.
    fn add_lines(&self, text: &[u8]) {
        let mut lines = text.iter().filter(|byte| **byte == b'\n').count();
        let is_in_line = text.last().is_some_and(|byte| *byte != b'\n');
        if self.is_in_line.replace(is_in_line) && text.is_empty() {
            lines = 1;
        }
        let rows = self.rows.get();
        self.rows.set(rows.saturating_add(lines as u64));
    }
}

/// A stream that is counted.
#[derive(Drop)]
pub struct Counted<'a, S> {
    stream: S,
    progress: &'a Progress,
    is_text: bool,
}

/// Each read shows the progress, at most once a second.
impl<R: Read> Read for Counted<'_, R> {
    ghost remaining = { λ s. R.remaining s.stream };

    fn read(&mut self, buf: &mut [u8]) -> io::Result<usize> {
        self.progress.report_if_due();
        let count = self.stream.read(buf)?;
        self.progress.add_bytes(count);
        if self.is_text {
            self.progress.add_lines(&buf[..count]);
        }
        Ok(count)
    }
}

impl<W: Write> Write for Counted<'_, W> {
    ghost contents = { λ s. W.contents s.stream };

    fn write(&mut self, buf: &[u8]) -> io::Result<usize> {
        let count = self.stream.write(buf)?;
        if self.is_text {
            self.progress.add_lines(&buf[..count]);
        }
        Ok(count)
    }

    fn flush(&mut self) -> io::Result<()> {
        self.stream.flush()
    }
}

/// A number with commas between groups of three digits: `1,234,567`.
#[derive(Clone, Copy)]
struct Grouped(u64);

impl Display for Grouped {
    fn fmt<W: fmt::Write>(&self, f: &mut Formatter<W>) -> fmt::Result {
        let mut is_begun = false;
        for unit in [1_000_000_000_000, 1_000_000_000, 1_000_000, 1000, 1u64] {
            let digits = self.0 / unit;
            if is_begun {
                write!(f, ",{:03}", digits % 1000)?;
            } else if digits > 0 || unit == 1 {
                write!(f, "{digits}")?;
                is_begun = true;
            }
        }
        Ok(())
    }
}
