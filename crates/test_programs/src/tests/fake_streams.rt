//! Readers and writers that move a few bytes at a time, are interrupted, stall or fail.

use std::alloc::Global;
use std::io;
use std::io::{Error, ErrorKind, Read, Write};

/// More bytes than any stream here has.
pub const ROOM: usize = 1_000_000;

/// Gives a text at most `step` bytes at a time, and fails after `left` bytes.
#[derive(Drop)]
pub struct Pieces<'a> {
    pub rest: &'a [u8],
    pub step: usize,
    pub left: usize,
}

impl<'a> Pieces<'a> {
    /// Gives the whole text.
    pub fn new(rest: &'a [u8], step: usize) -> Pieces<'a> {
        let left = ROOM;
        Pieces { rest, step, left }
    }
}

impl Read for Pieces<'_> {
    fn read(&mut self, buf: &mut [u8]) -> io::Result<usize> {
        if self.left == 0 {
            return Err(Error::from(ErrorKind::Other));
        }
        let n = self.rest.len().min(self.step).min(self.left).min(buf.len());
        let (given, rest) = self.rest.split_at(n);
        buf[..n].copy_from_slice(given);
        self.rest = rest;
        self.left -= n;
        Ok(n)
    }
}

/// Takes `room` bytes in all, at most `step` at a time, and fails after them.
#[derive(Drop)]
pub struct Narrow {
    pub taken: Vec<u8>,
    pub step: usize,
    pub room: usize,
}

impl Narrow {
    pub fn new(alloc: Global, step: usize, room: usize) -> Narrow {
        let taken = Vec::new(alloc);
        Narrow { taken, step, room }
    }
}

impl Write for Narrow {
    fn write(&mut self, buf: &[u8]) -> io::Result<usize> {
        if self.room == 0 {
            return Err(Error::from(ErrorKind::Other));
        }
        let n = buf.len().min(self.step).min(self.room);
        self.taken.extend_from_slice(&buf[..n])?;
        self.room -= n;
        Ok(n)
    }

    fn flush(&mut self) -> io::Result<()> {
        Ok(())
    }
}

/// Takes `room` bytes in all, and no byte after them, without failing.
#[derive(Drop)]
pub struct Stalled {
    pub taken: Vec<u8>,
    pub room: usize,
}

impl Write for Stalled {
    fn write(&mut self, buf: &[u8]) -> io::Result<usize> {
        let n = buf.len().min(self.room);
        self.taken.extend_from_slice(&buf[..n])?;
        self.room -= n;
        Ok(n)
    }

    fn flush(&mut self) -> io::Result<()> {
        Ok(())
    }
}

/// Would block at each call.
#[derive(Drop)]
pub struct Blocked;

impl Read for Blocked {
    fn read(&mut self, _: &mut [u8]) -> io::Result<usize> {
        Err(Error::from(ErrorKind::WouldBlock))
    }
}

impl Write for Blocked {
    fn write(&mut self, _: &[u8]) -> io::Result<usize> {
        Err(Error::from(ErrorKind::WouldBlock))
    }

    fn flush(&mut self) -> io::Result<()> {
        Ok(())
    }
}

/// Is interrupted at every other call, the first one too.
#[derive(Drop)]
pub struct Disturbed<T> {
    pub inner: T,
    is_calm: bool,
}

impl<T> Disturbed<T> {
    pub fn new(inner: T) -> Disturbed<T> {
        let is_calm = false;
        Disturbed { inner, is_calm }
    }

    fn interrupts(&mut self) -> io::Result<()> {
        self.is_calm = !self.is_calm;
        if self.is_calm {
            return Err(Error::from(ErrorKind::Interrupted));
        }
        Ok(())
    }
}

impl<T: Read> Read for Disturbed<T> {
    fn read(&mut self, buf: &mut [u8]) -> io::Result<usize> {
        self.interrupts()?;
        self.inner.read(buf)
    }
}

impl<T: Write> Write for Disturbed<T> {
    fn write(&mut self, buf: &[u8]) -> io::Result<usize> {
        self.interrupts()?;
        self.inner.write(buf)
    }

    fn flush(&mut self) -> io::Result<()> {
        self.inner.flush()
    }
}
