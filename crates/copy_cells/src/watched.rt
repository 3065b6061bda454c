//! Streams that remember their last error, which a fault of a COPY does not tell.
ghost use Rattle.std.specs.Prelude.{◌≡◌};

use std::cell::Cell;
use std::io::{self, Read, Write};

/// A stream whose errors are remembered.
#[derive(Drop)]
pub struct Watched<'a, S> {
    stream: S,
    error: &'a Cell<Option<io::Error>>,
}

impl<'a, S> Watched<'a, S> {
    /// Watches the stream.
    pub fn new(stream: S, error: &'a Cell<Option<io::Error>>) -> Watched<'a, S>
        ensures { result.stream ≡ stream }
    {
        Watched { stream, error }
    }

    /// Remembers the error of this outcome, if there is one.
    fn note<T>(&self, outcome: &io::Result<T>) {
        if let Err(error) = outcome {
            self.error.set(Some(*error));
        }
    }
}

impl<R: Read> Read for Watched<'_, R> {
    ghost remaining = { λ s. R.remaining s.stream };

    fn read(&mut self, buf: &mut [u8]) -> io::Result<usize> {
        let outcome = self.stream.read(buf);
        self.note(&outcome);
        outcome
    }
}

impl<W: Write> Write for Watched<'_, W> {
    ghost contents = { λ s. W.contents s.stream };

    fn write(&mut self, buf: &[u8]) -> io::Result<usize> {
        let outcome = self.stream.write(buf);
        self.note(&outcome);
        outcome
    }

    fn flush(&mut self) -> io::Result<()> {
        let outcome = self.stream.flush();
        self.note(&outcome);
        outcome
    }
}
