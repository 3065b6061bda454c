//! Parts of a cell.
ghost use Rattle.std.specs.Prelude.{◌≡◌, ◌≤◌, length};
ghost use Rattle.pg_cells_c.specs.Spans.{EndsWith};

/// A part of a cell: `len` bytes from `offset` on.
#[derive(Clone, Copy)]
#[repr(C)]
pub struct Span {
    pub offset: usize,
    pub len: usize,
}

/// Returns the last `len` bytes of a cell.
#[inline(always)]
pub(crate) fn last_bytes(cell: &[u8], len: usize) -> Span
    requires { len ≤ length cell.now }
    ensures len { result.len ≡ len }
    ensures ends { EndsWith cell.now result }
{
    Span {
        offset: cell.len() - len,
        len,
    }
}
