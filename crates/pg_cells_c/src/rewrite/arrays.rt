//! Rewriting arrays.
//!
//! A fault is returned as its number, so that no `Fault` has to be dropped: see the comment of the
//! crate.
ghost use Rattle.std.specs.Prelude.{◌≡◌, ◌≤◌, IfOk, length, not};
ghost use Rattle.pg_base.specs.Cells.{max_length};
ghost use Rattle.pg_cells_c.specs.ArrayRewriting.{WritesArray, WritesElements, array_at, head_of};

use super::elements::{Elements, Frames, rewrite_elements};
use super::kinds::Kind;
use crate::buffers::write_parts;
use pg_base::protocol::array_from_sql;
use std::alloc::Global;

/// The length of the header of an array with one dimension.
const HEAD_LEN: usize = 20;

/// The offset of the fields of the dimension in the header.
const DIMENSION_AT: usize = 12;

/// An array type: the OID of its elements' type, and whether it is `int2vector` or `oidvector`. The
/// elements of a vector are numbered from 0, and none of them is NULL.
#[derive(Clone, Copy)]
pub(super) struct ArrayType {
    pub element: u32,
    pub is_vector: bool,
}

/// Returns the array type with that OID, if cells of its elements are rewritten.
pub(super) fn array_of(oid: u32) -> Option<ArrayType>
    ensures { result ≡ array_at oid }
{
    let (element, is_vector) = match oid {
        22 => (21, true),
        30 => (26, true),
        651 => (650, false),
        1000 => (16, false),
        1001 => (17, false),
        1002 => (18, false),
        1003 => (19, false),
        1005 => (21, false),
        1007 => (23, false),
        1009 => (25, false),
        1014 => (1042, false),
        1015 => (1043, false),
        1016 => (20, false),
        1028 => (26, false),
        1040 => (829, false),
        1041 => (869, false),
        1115 => (1114, false),
        1182 => (1082, false),
        1183 => (1083, false),
        1185 => (1184, false),
        1187 => (1186, false),
        1561 => (1560, false),
        1563 => (1562, false),
        2951 => (2950, false),
        3221 => (3220, false),
        _ => return None,
    };
    Some(ArrayType { element, is_vector })
}

/// Writes the header of an array with these frames.
fn write_head(array: ArrayType, frames: Frames, head: &mut [u8])
    requires few { frames.count ≤ max_length }
    requires whole { length head.old ≡ HEAD_LEN }
    ensures { head.new ≡ head_of array frames }
{
    let flags = i32::from(frames.has_null);
    let count = frames.count as i32;
    let lower_bound = i32::from(!array.is_vector);
    let (front, dimension) = head.split_at_mut(DIMENSION_AT);
    write_parts(
        &1i32.to_be_bytes(),
        &flags.to_be_bytes(),
        &array.element.to_be_bytes(),
        front,
    );
    write_parts(
        &count.to_be_bytes(),
        &lower_bound.to_be_bytes(),
        &[],
        dimension,
    );
}

/// Rewrites the elements of an array, as [`rewrite_elements`] does.
fn array_elements(
    alloc: Global,
    elements: Elements,
    cell: &[u8],
    out: &mut [u8],
) -> Result<Frames, u32>
    ensures elements { WritesElements elements.kind elements.nullable cell.now out.old out.new result }
    ensures len { IfOk result (λ f. f.len ≤ length cell.now) }
    ensures count { IfOk result (λ f. f.count ≤ max_length) }
{
    match array_from_sql(alloc, cell) {
        Ok(cells) => rewrite_elements(cells, elements, out),
        Err(fault) => Err(fault.code()),
    }
}

/// Rewrites an array, as [`rewrite_cell`](super::cells::rewrite_cell) rewrites a cell of one value.
/// The elements are read twice: all of them have to be checked and measured before anything is
/// written.
pub(super) fn rewrite_array(
    alloc: Global,
    array: ArrayType,
    kind: Kind,
    cell: &[u8],
    out: &mut [u8],
) -> Result<usize, u32>
    ensures { WritesArray kind array cell.now out.old out.new result }
{
    let elements = Elements {
        kind,
        nullable: !array.is_vector,
    };
    let frames = array_elements(alloc, elements, cell, &mut [])?;
    let len = HEAD_LEN + frames.len;
    if len <= out.len() {
        let (head, rest) = out.split_at_mut(HEAD_LEN);
        write_head(array, frames, head);
        array_elements(alloc, elements, cell, rest)?;
    }
    Ok(len)
}
