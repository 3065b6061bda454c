//! Writing lists.
ghost use Rattle.std.specs.Prelude.{◌≡◌, ◌≤◌, IfErr, IsOk, IsTrue, length, true, codes};
ghost use Rattle.std.specs.Box.{boxed_slice_items};
ghost use Rattle.std.specs.List.{AllByRecursion};
ghost use Rattle.pg_types.specs.Content.{content, oid_of};
ghost use Rattle.pg_base.specs.ArrayTypes.{accepted_list};
ghost use Rattle.pg_base.specs.Cells.{max_length};
ghost use Rattle.pg_write.specs.ArrayWriting.{AppendsArrayOrPart, element_cells};
ghost use Rattle.pg_write.specs.ArrayWriting.{lower_bound_of, wire_array, wire_fixed, wire_list};
ghost use Rattle.pg_write.specs.ListRoom.{ListByRoom, array_len};
ghost use Rattle.pg_write.specs.ParamWriting.{AppendsElement, AppendsFrames, HadNoRoom, frame_len, frames_len};
ghost use Rattle.pg_base.specs.Appending.{KeepsCapacity};
ghost use Rattle.pg_write.specs.Writing.{KeepsRoomRule, Writes};

use crate::params::frame_from;
use crate::to_sql::{ToSql, check_type};
use bytes::{BufMut, BytesMut};
use pg_base::acceptance::element_type;
use pg_base::fault::Fault;
use pg_base::format::{Format, IsNull};
use pg_base::protocol::{MAX_LEN, array_to_sql, set_number};
use pg_base::types::PgType;
use std::alloc::Global;
use std::boxed::BoxedSlice;

/// Writes an array whose element type `T` accepts (`array_send`): one dimension, the OID of the
/// element type, the elements in order, and the lower bound 1, or 0 for OID_VECTOR and INT2_VECTOR.
/// More than 2,147,483,647 elements are refused with `Transmit`. Otherwise the first element that
/// `T` refuses, or whose cell exceeds 2,147,483,647 bytes, decides: with `T`'s fault, or with
/// `Transmit`. If no element is refused, writing needs only the room of the cell where writing each
/// element does.
impl<T: ToSql> ToSql for Vec<T> {
    ghost accepted = { accepted_list T.accepted };

    ghost name = { codes "Vec" };

    ghost wire = { λ ty v. wire_list T.wire ty v.items };

    ghost by_room = { λ v. ListByRoom T.by_room (accepted_list T.accepted) (wire_list T.wire) v.items };

    ghost refuses_memory_free = { true };

    fn to_sql(&self, alloc: Global, ty: &PgType, out: &mut BytesMut) -> Result<IsNull, Fault> {
        list_to_sql(alloc, ty, self.as_slice(), out)
    }

    fn accepts(ty: &PgType) -> bool {
        accepts_list::<T>(ty)
    }

    fn to_sql_checked(
        &self,
        alloc: Global,
        ty: &PgType,
        out: &mut BytesMut,
    ) -> Result<IsNull, Fault> {
        check_type(Self::accepts(ty), ty, "Vec")?;
        self.to_sql(alloc, ty, out)
    }

    fn encode_format(&self, _ty: &PgType) -> Format {
        Format::Binary
    }
}

/// Writes the elements as a `Vec` of them is written.
impl<'b, T: ToSql> ToSql for &'b [T] {
    ghost accepted = { accepted_list T.accepted };

    ghost name = { codes "&[T]" };

    ghost wire = { λ ty v. wire_list T.wire ty v.now };

    ghost by_room = { λ v. ListByRoom T.by_room (accepted_list T.accepted) (wire_list T.wire) v.now };

    ghost refuses_memory_free = { true };

    fn to_sql(&self, alloc: Global, ty: &PgType, out: &mut BytesMut) -> Result<IsNull, Fault> {
        list_to_sql(alloc, ty, *self, out)
    }

    fn accepts(ty: &PgType) -> bool
        ensures { result ≡ accepted_list T.accepted (content ty.now) }
    {
        accepts_list::<T>(ty)
    }

    fn to_sql_checked(
        &self,
        alloc: Global,
        ty: &PgType,
        out: &mut BytesMut,
    ) -> Result<IsNull, Fault> {
        check_type(Self::accepts(ty), ty, "&[T]")?;
        self.to_sql(alloc, ty, out)
    }

    fn encode_format(&self, _ty: &PgType) -> Format {
        Format::Binary
    }
}

/// Writes the elements as a `Vec` of them is written.
impl<T: ToSql, const N: usize> ToSql for [T; N] {
    ghost accepted = { accepted_list T.accepted };

    ghost name = { codes "[T; N]" };

    ghost wire = { λ ty v. wire_fixed N T.wire ty v };

    ghost by_room = { ListByRoom T.by_room (accepted_list T.accepted) (wire_fixed N T.wire) };

    ghost refuses_memory_free = { true };

    fn to_sql(&self, alloc: Global, ty: &PgType, out: &mut BytesMut) -> Result<IsNull, Fault> {
        list_to_sql(alloc, ty, self, out)
    }

    fn accepts(ty: &PgType) -> bool {
        accepts_list::<T>(ty)
    }

    fn to_sql_checked(
        &self,
        alloc: Global,
        ty: &PgType,
        out: &mut BytesMut,
    ) -> Result<IsNull, Fault> {
        check_type(Self::accepts(ty), ty, "[T; N]")?;
        self.to_sql(alloc, ty, out)
    }

    fn encode_format(&self, _ty: &PgType) -> Format {
        Format::Binary
    }
}

/// Writes the elements as a `Vec` of them is written.
impl<T: ToSql> ToSql for BoxedSlice<T> {
    ghost accepted = { accepted_list T.accepted };

    ghost name = { codes "Box<[T]>" };

    ghost wire = { λ ty v. wire_list T.wire ty (boxed_slice_items v) };

    ghost by_room = { λ v. ListByRoom T.by_room (accepted_list T.accepted) (wire_list T.wire) (boxed_slice_items v) };

    ghost refuses_memory_free = { true };

    fn to_sql(&self, alloc: Global, ty: &PgType, out: &mut BytesMut) -> Result<IsNull, Fault> {
        list_to_sql(alloc, ty, &self[..], out)
    }

    fn accepts(ty: &PgType) -> bool {
        accepts_list::<T>(ty)
    }

    fn to_sql_checked(
        &self,
        alloc: Global,
        ty: &PgType,
        out: &mut BytesMut,
    ) -> Result<IsNull, Fault> {
        check_type(Self::accepts(ty), ty, "Box<[T]>")?;
        self.to_sql(alloc, ty, out)
    }

    fn encode_format(&self, _ty: &PgType) -> Format {
        Format::Binary
    }
}

/// Whether lists of `T` are written for that type: it is an array of a type that `T` accepts.
fn accepts_list<T: ToSql>(ty: &PgType) -> bool
    ensures { result ≡ accepted_list T.accepted (content ty.now) }
{
    match element_type(ty) {
        Some(element) => T::accepts(&element),
        None => false,
    }
}

/// Where in an array's head the flags stand.
const FLAGS_AT: usize = 4;

/// Where in an array's head the number of elements stands.
const COUNT_AT: usize = 12;

/// Appends the array of the values.
fn list_to_sql<T: ToSql>(
    alloc: Global,
    ty: &PgType,
    values: &[T],
    out: &mut BytesMut,
) -> Result<IsNull, Fault>
    requires { IsTrue (accepted_list T.accepted (content ty.now)) }
    ensures writes { Writes (wire_list T.wire (content ty.now) values.now) out.old.items out.new.items result }
    ensures room { AllByRecursion T.by_room values.now → IsOk (wire_list T.wire (content ty.now) values.now)
        → KeepsRoomRule (wire_list T.wire (content ty.now) values.now) out.old.spare result }
    ensures capacity { KeepsCapacity out.old out.new }
{
    let Some(element) = element_type(ty) else {
        unreachable!()
    };
    if values.len() > MAX_LEN {
        return Err(Fault::Transmit);
    }
    let start = out.len();
    match head_and_elements_to_sql(alloc, lower_bound(ty), &element, values, out) {
        Ok(()) => Ok(IsNull::No),
        Err(fault) => {
            out.truncate(start);
            Err(fault)
        }
    }
}

/// Appends the array of the values, of which there are at most 2,147,483,647. A refusal leaves what
/// was appended so far.
fn head_and_elements_to_sql<T: ToSql>(
    alloc: Global,
    lower_bound: i32,
    element: &PgType,
    values: &[T],
    out: &mut BytesMut,
) -> Result<(), Fault>
    requires accepted { IsTrue (T.accepted (content element.now)) }
    requires few { length values.now ≤ max_length }
    ensures array { AppendsArrayOrPart (wire_array lower_bound (oid_of (content element.now))
        (element_cells (T.wire (content element.now)) values.now)) out.old.items out.new.items result }
    ensures room { AllByRecursion T.by_room values.now
        → IfErr result (HadNoRoom (array_len (T.wire (content element.now)) values.now) out.old.spare) }
    ensures capacity { KeepsCapacity out.old out.new }
{
    let start = out.len();
    // The header of an array without elements, of which the count and the flags are corrected.
    array_to_sql(alloc, lower_bound, element.oid(), &[], &[], out)?;
    set_number(start + COUNT_AT, values.len() as u32, out);
    let has_null = elements_to_sql(alloc, element, values, out)?;
    set_number(start + FLAGS_AT, u32::from(has_null), out);
    Ok(())
}

/// Appends the frames of the values' cells, and says whether one of them is NULL. A refusal leaves
/// what was appended so far.
fn elements_to_sql<T: ToSql>(
    alloc: Global,
    element: &PgType,
    values: &[T],
    out: &mut BytesMut,
) -> Result<bool, Fault>
    requires { IsTrue (T.accepted (content element.now)) }
    ensures frames { AppendsFrames (T.wire (content element.now)) values.now out.old.items out.new.items result }
    ensures room { AllByRecursion T.by_room values.now
        → IfErr result (HadNoRoom (frames_len (T.wire (content element.now)) values.now) out.old.spare) }
    ensures capacity { KeepsCapacity out.old out.new }
{
    let mut has_null = false;
    for value in values {
        // A match moves only the fault, while `?` would move every result.
        match element_to_sql(alloc, element, value, out) {
            Ok(is_null) => has_null |= is_null,
            Err(fault) => return Err(fault),
        }
    }
    Ok(has_null)
}

/// Appends the frame of the value's cell, and says whether it is NULL. A refusal leaves what was
/// appended so far.
#[inline(always)]
fn element_to_sql<T: ToSql>(
    alloc: Global,
    element: &PgType,
    value: &T,
    out: &mut BytesMut,
) -> Result<bool, Fault>
    requires { IsTrue (T.accepted (content element.now)) }
    ensures frame { AppendsElement (T.wire (content element.now) value.now) out.old.items out.new.items result }
    ensures room { T.by_room value.now
        → IfErr result (HadNoRoom (frame_len (T.wire (content element.now) value.now)) out.old.spare) }
    ensures capacity { KeepsCapacity out.old out.new }
{
    let start = out.len();
    // The frame of NULL, whose length is corrected once a cell stands after it.
    out.put_i32(-1)?;
    let is_null = match value.to_sql(alloc, element, out) {
        Ok(is_null) => is_null,
        Err(fault) => return Err(fault),
    };
    if let IsNull::Yes = is_null {
        return Ok(true);
    }
    match frame_from(start, out) {
        Ok(()) => Ok(false),
        Err(fault) => Err(fault),
    }
}

/// Returns the lower bound of an array of this type.
fn lower_bound(ty: &PgType) -> i32
    ensures { result ≡ lower_bound_of (content ty.now) }
{
    if ty.is(&PgType::OID_VECTOR) || ty.is(&PgType::INT2_VECTOR) {
        0
    } else {
        1
    }
}
