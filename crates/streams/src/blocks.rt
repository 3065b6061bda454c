//! Reading in blocks, and writing until all is written.
ghost use Rattle.std.specs.Prelude.{◌≤◌, ℕ, length, take, IfOk, OnOk, OnErr};
ghost use Rattle.std.specs.Io.KnownBytes.{Appends, ReadConsumes};

use std::io::{self, ErrorKind, Read, Write};

/// The size in bytes of the blocks in which a reader is read.
pub const BLOCK: usize = 65_536;

/// Reads into the block and returns the number of bytes read, which is 0 at the end of the input. A
/// read that was interrupted is retried.
pub fn read_block<R: Read>(input: &mut R, block: &mut [u8]) -> io::Result<usize>
    ensures bound { IfOk result (λ n. n ≤ length block.new) }
    ensures bytes { ReadConsumes (R.remaining input.old) (R.remaining input.new) result block.new }
{
    'turns: for _ in 0..u64::MAX {
        match input.read(block) {
            Err(e) if e.kind() == ErrorKind::Interrupted => {}
            answer => return answer,
        }
    }
    Err(io::Error::from(ErrorKind::Interrupted))
}

/// Writes all the bytes. A write that was interrupted is retried. If a write fails, or writes no
/// byte, only the first bytes, possibly none, were written.
pub fn write_whole<W: Write>(output: &mut W, bytes: &[u8]) -> io::Result<()>
    ensures ok { OnOk result (Appends (W.contents output.old) (W.contents output.new) bytes.now) }
    ensures err { OnErr result ((k : ℕ) × (k ≤ length bytes.now)
        × Appends (W.contents output.old) (W.contents output.new) (take k bytes.now)) }
{
    let mut sent = 0;
    'turns: for _ in 0..u64::MAX {
        if sent == bytes.len() {
            return Ok(());
        }
        match output.write(&bytes[sent..]) {
            Ok(0) => return Err(io::Error::from(ErrorKind::WriteZero)),
            Ok(n) => sent += n,
            Err(e) if e.kind() == ErrorKind::Interrupted => {}
            Err(e) => return Err(e),
        }
    }
    Err(io::Error::from(ErrorKind::Interrupted))
}
