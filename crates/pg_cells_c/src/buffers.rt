//! The caller's buffer.
ghost use Rattle.std.specs.Prelude.{◌++◌, ◌+◌, ◌<◌, ◌^◌, length};
ghost use Rattle.pg_cells_c.specs.Writings.{WritesInto};

/// The result for a value that has no cell.
pub(crate) const NO_CELL: usize = usize::MAX;

/// Returns the number of the bytes. If the buffer has room for all of them, writes them to its
/// front.
#[inline(always)]
#[tactic(auto, using(crate::proofs::WritingSteps::written, crate::proofs::WritingSteps::not_written))]
pub(crate) fn write(bytes: &[u8], out: &mut [u8]) -> usize
    ensures { WritesInto bytes.now out.old out.new result }
{
    if bytes.len() <= out.len() {
        out[..bytes.len()].copy_from_slice(bytes);
    }
    bytes.len()
}

/// Writes three parts, one after another, as [`write`] does.
#[inline(always)]
#[tactic(auto, using(crate::proofs::WritingSteps::parts_written, crate::proofs::WritingSteps::parts_not_written))]
pub(crate) fn write_parts(first: &[u8], second: &[u8], third: &[u8], out: &mut [u8]) -> usize
    requires { length first.now + length second.now + length third.now < 2 ^ 64 }
    ensures { WritesInto (first.now ++ second.now ++ third.now) out.old out.new result }
{
    let len = first.len() + second.len() + third.len();
    if len <= out.len() {
        let (front, rest) = out.split_at_mut(first.len());
        front.copy_from_slice(first);
        let (middle, rest) = rest.split_at_mut(second.len());
        middle.copy_from_slice(second);
        rest[..third.len()].copy_from_slice(third);
    }
    len
}
