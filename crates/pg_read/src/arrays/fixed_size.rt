//! Reading arrays with a fixed number of elements.
ghost use Rattle.std.specs.Prelude.{◌≡◌, Some, IsTrue};
ghost use Rattle.pg_base.specs.ArrayTypes.{accepted_list, element_of};
ghost use Rattle.pg_base.specs.Options.{NoneOr};
ghost use Rattle.pg_types.specs.Content.{content};
ghost use Rattle.pg_types.specs.Faults.{Answers, NeverMemory};
ghost use Rattle.pg_base.proofs.SamenessLaws.{list_equivalence};
ghost use Rattle.pg_base.specs.Sameness.{SameList};
ghost use Rattle.pg_read.specs.Laws.ArrayReading.{fixed_single, by_elements_single};
ghost use Rattle.pg_read.specs.ArrayReading.{ElementsAll, ReadsArray, ReadsFixed, ReadsByElement};
ghost use Rattle.pg_read.specs.ElementReading.{Finishes, GivesElement, Stops};

use super::accepts_list;
use crate::from_sql::{FromSql, from_sql_nullable};
use array_slots::{ElementSource, Finish, try_from_source};
use pg_base::acceptance::element_type;
use pg_base::fault::Fault;
use pg_base::protocol::{ArrayCells, array_from_sql};
use pg_base::types::PgType;
use std::alloc::Global;
use std::marker::PhantomData;

/// Reads an array of `N` elements whose type `T` accepts. The header and the first `N` elements are
/// read as `Vec<T>` reads them. After them, a further element is refused with `Excess` and `N`, or
/// with `Size` if it is truncated. Trailing bytes after the last element are refused with `Size`.
/// Otherwise an array of fewer elements is refused with `TooFew`, `N` and their number. NULL is
/// refused with `WasNull`.
///
/// The elements are read into slots on the stack, so it allocates only if an element does.
impl<'a, T: FromSql<'a>, const N: usize> FromSql<'a> for [T; N] {
    ghost same = { SameList T.same };

    ghost accepted = { accepted_list T.accepted };

    ghost reads = { λ ty. ReadsByElement (λ element. ReadsArray (λ vs. vs) (ReadsFixed N (T.reads element)))
        (element_of ty) };

    ghost memory_free = { NoneOr (ElementsAll N T.memory_free) };

    ghost equivalence = { list_equivalence T.same T.equivalence (λ vs. vs) };

    ghost single = { λ ty ok. by_elements_single (SameList T.same) T.accepted
        (λ element. ReadsArray (λ vs. vs) (ReadsFixed N (T.reads element)))
        (λ element inside. fixed_single (λ vs. vs) N T.same (T.reads element) (T.single element inside)) ty ok };

    fn from_sql(alloc: Global, ty: &PgType, raw: &'a [u8]) -> Result<[T; N], Fault> {
        match element_type(ty) {
            Some(element) => read_array(alloc, &element, raw),
            None => unreachable!(),
        }
    }

    fn from_sql_null(_alloc: Global, _ty: &PgType) -> Result<[T; N], Fault> {
        Err(Fault::WasNull)
    }

    fn accepts(ty: &PgType) -> bool {
        accepts_list::<T>(ty)
    }
}

/// Reads the `N` elements of an array of `element`.
fn read_array<'a, T: FromSql<'a>, const N: usize>(
    alloc: Global,
    element: &PgType,
    raw: &'a [u8],
) -> Result<[T; N], Fault>
    requires { IsTrue (T.accepted (content element.now)) }
    ensures outcome { Answers (ReadsArray (λ vs. vs) (ReadsFixed N (T.reads (content element.now)))
        (Some raw.entry.now)) result }
    ensures never_memory { ElementsAll N T.memory_free raw.entry.now → NeverMemory result }
{
    let cells = array_from_sql(alloc, raw)?;
    let got = cells.len();
    let reader: ElementReader<'a, '_, T> = ElementReader {
        alloc,
        element,
        cells,
        expected: N,
        fault: Fault::TooFew { expected: N, got },
        values: PhantomData,
    };
    try_from_source(reader)
}

/// Reads the elements of an array one after another.
#[derive(Drop)]
struct ElementReader<'a, 'p, T> {
    alloc: Global,
    /// The type of the elements.
    element: &'p PgType,
    /// The cells that are to be read.
    cells: ArrayCells<'a>,
    /// The number of elements of the Rust array.
    expected: usize,
    /// The fault if no further element is given: `TooFew`, unless another fault was found.
    fault: Fault,
    values: PhantomData<T>,
}

impl<'a, 'p, T: FromSql<'a>> ElementSource<T> for ElementReader<'a, 'p, T> {
    ghost ready = { λ r. IsTrue (T.accepted (content r.element.now)) };

    ghost gives = { GivesElement T.reads };

    ghost stops = { Stops T.reads T.memory_free };

    #[inline(always)]
    fn next(&mut self) -> Option<T> {
        let cell = match self.cells.next()? {
            Ok(cell) => cell,
            Err(fault) => {
                self.fault = fault;
                return None;
            }
        };
        match from_sql_nullable(self.alloc, self.element, cell) {
            Ok(value) => Some(value),
            Err(fault) => {
                self.fault = fault;
                None
            }
        }
    }
}

impl<'a, 'p, T: FromSql<'a>> Finish for ElementReader<'a, 'p, T> {
    type Fault = Fault;

    ghost stopped_at = { λ r fault. fault ≡ r.fault };

    ghost finishes = { Finishes };

    fn into_fault(self) -> Fault {
        self.fault
    }

    /// Checks that there is no further element and no trailing byte.
    fn finish(mut self) -> Result<(), Fault> {
        match self.cells.next() {
            None => Ok(()),
            Some(Ok(_)) => Err(Fault::Excess {
                expected: self.expected,
            }),
            Some(Err(fault)) => Err(fault),
        }
    }
}
