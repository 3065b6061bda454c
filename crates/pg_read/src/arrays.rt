//! Reading arrays.
ghost use Rattle.std.specs.Prelude.{◌≡◌, Some, IsTrue};
ghost use Rattle.std.specs.Box.{boxed_slice_items};
ghost use Rattle.pg_base.specs.ArrayTypes.{accepted_list, element_of};
ghost use Rattle.pg_types.specs.Content.{content};
ghost use Rattle.pg_types.specs.Faults.{Answers};
ghost use Rattle.pg_base.proofs.SamenessLaws.{list_equivalence};
ghost use Rattle.pg_base.specs.Sameness.{SameList};
ghost use Rattle.pg_read.specs.Laws.ArrayReading.{list_single, by_elements_single};
ghost use Rattle.pg_read.specs.ArrayReading.{ReadsList, ReadsByElement};
ghost use Rattle.pg_read.specs.Reading.{NullAlone};

pub(crate) mod fixed_size;

use crate::from_sql::FromSql;
use crate::private::read_values;
use pg_base::acceptance::element_type;
use pg_base::fault::Fault;
use pg_base::protocol::array_from_sql;
use pg_base::types::PgType;
use std::alloc::Global;
use std::boxed::BoxedSlice;

/// Reads an array whose element type `T` accepts (`array_recv`), of at most one dimension: its
/// elements in order, for which every negative length is NULL. The flags, the OID of the element
/// type and the lower bound are not checked.
///
/// The header is checked first: a truncated one is refused with `Size`, a negative number of
/// dimensions or elements with `Count`, and more than 1 dimension with `Dimensions`. Then the first
/// element that is truncated or that `T` refuses decides: with `Size`, or with `T`'s fault.
/// Trailing bytes after the last element are refused with `Size`, and NULL with `WasNull`.
impl<'a, T: FromSql<'a>> FromSql<'a> for Vec<T> {
    ghost same = { λ v w. SameList T.same v.items w.items };

    ghost accepted = { accepted_list T.accepted };

    ghost reads = { λ ty. ReadsByElement (λ element. ReadsList (λ v. v.items) (T.reads element)) (element_of ty) };

    ghost memory_free = { NullAlone };

    ghost equivalence = { list_equivalence T.same T.equivalence (λ v. v.items) };

    ghost single = { λ ty ok. by_elements_single (λ v w. SameList T.same v.items w.items) T.accepted
        (λ element. ReadsList (λ v. v.items) (T.reads element))
        (λ element inside. list_single (λ v. v.items) T.same (T.reads element) (T.single element inside)) ty ok };

    fn from_sql(alloc: Global, ty: &PgType, raw: &'a [u8]) -> Result<Vec<T>, Fault> {
        match element_type(ty) {
            Some(element) => read_list(alloc, &element, raw),
            None => unreachable!(),
        }
    }

    fn from_sql_null(_alloc: Global, _ty: &PgType) -> Result<Vec<T>, Fault> {
        Err(Fault::WasNull)
    }

    fn accepts(ty: &PgType) -> bool {
        accepts_list::<T>(ty)
    }
}

/// Reads an array as `Vec<T>` does. NULL is refused with `WasNull`.
impl<'a, T: FromSql<'a>> FromSql<'a> for BoxedSlice<T> {
    ghost same = { λ v w. SameList T.same (boxed_slice_items v) (boxed_slice_items w) };

    ghost accepted = { accepted_list T.accepted };

    ghost reads = { λ ty. ReadsByElement (λ element. ReadsList boxed_slice_items (T.reads element)) (element_of ty) };

    ghost memory_free = { NullAlone };

    ghost equivalence = { list_equivalence T.same T.equivalence boxed_slice_items };

    ghost single = { λ ty ok. by_elements_single (λ v w. SameList T.same (boxed_slice_items v) (boxed_slice_items w))
        T.accepted (λ element. ReadsList boxed_slice_items (T.reads element))
        (λ element inside. list_single boxed_slice_items T.same (T.reads element) (T.single element inside)) ty ok };

    fn from_sql(alloc: Global, ty: &PgType, raw: &'a [u8]) -> Result<BoxedSlice<T>, Fault> {
        match Vec::from_sql(alloc, ty, raw) {
            Ok(values) => Ok(values.into_boxed_slice()),
            Err(fault) => Err(fault),
        }
    }

    fn from_sql_null(_alloc: Global, _ty: &PgType) -> Result<BoxedSlice<T>, Fault> {
        Err(Fault::WasNull)
    }

    fn accepts(ty: &PgType) -> bool {
        accepts_list::<T>(ty)
    }
}

/// Whether the type is an array whose element type `T` accepts.
pub(crate) fn accepts_list<'a, T: FromSql<'a>>(ty: &PgType) -> bool
    ensures { result ≡ accepted_list T.accepted (content ty.now) }
{
    match element_type(ty) {
        Some(element) => T::accepts(&element),
        None => false,
    }
}

/// Reads the elements of an array of `element`.
fn read_list<'a, T: FromSql<'a>>(
    alloc: Global,
    element: &PgType,
    raw: &'a [u8],
) -> Result<Vec<T>, Fault>
    requires { IsTrue (T.accepted (content element.now)) }
    ensures { Answers (ReadsList (λ v. v.items) (T.reads (content element.now)) (Some raw.entry.now)) result }
{
    let cells = array_from_sql(alloc, raw)?;
    let mut frames = cells.frames();
    let values = read_values(alloc, element, cells.len(), &mut frames)?;
    if frames.is_empty() {
        Ok(values)
    } else {
        Err(Fault::Size)
    }
}
