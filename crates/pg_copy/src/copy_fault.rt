//! Why a COPY stopped.
ghost use Rattle.std.specs.Prelude.{◌≡◌};
ghost use Rattle.pg_copy.specs.Refusals.{IsValueFault, header_fault, tuple_fault};
ghost use Rattle.pg_copy.specs.WrittenRows.{ValueFault};
ghost use Rattle.pg_copy.specs.declared.copy_fault.CopyFault.TheVariants.{Memory};

use crate::columns::Column;
use crate::types::Base;
use pg_tuples::{HeaderFault, TupleFault};
use postgres_types::Fault;
use std::alloc::{AllocError, AllocFailed};
use std::error::Error;
use std::fmt;

/// A row, counted from 1, of a binary COPY or of text.
#[derive(Debug, Clone, Copy, PartialEq, Eq)]
pub enum Row {
    /// A tuple of a binary COPY.
    Tuple(u64),
    /// A line of text.
    Line(u64),
}

impl fmt::Display for Row {
    fn fmt<W: fmt::Write>(&self, f: &mut fmt::Formatter<W>) -> fmt::Result {
        match self {
            Row::Tuple(number) => write!(f, "row {number}"),
            Row::Line(number) => write!(f, "line {number}"),
        }
    }
}

/// Why a COPY stopped before its end. Columns are counted from 1.
#[derive(Debug, Drop)]
pub enum CopyFault {
    /// The input could not be read.
    Read,
    /// The output could not be written.
    Write,
    /// An allocation failed.
    Memory,
    /// The input does not begin with the signature of a binary COPY.
    Signature,
    /// The tuples have OIDs, as servers before version 12 could send them.
    Oids,
    /// An unknown critical flag is set.
    Flags,
    /// The length of the header extension is negative.
    Extension,
    /// The input ends before the trailer.
    Truncated,
    /// Bytes come after the trailer.
    Trailing,
    /// There are more columns than fit in two bytes.
    TooManyColumns,
    /// A row has another number of columns than there are types.
    Columns {
        row: Row,
        expected: usize,
        got: i64,
    },
    /// The length of a field is negative, and is not -1.
    Length {
        row: Row,
        column: usize,
    },
    /// A value of a column is refused. `base` and `is_array` are those of the column.
    Value {
        row: Row,
        column: usize,
        base: Base,
        is_array: bool,
        fault: Fault,
    },
}

impl fmt::Display for CopyFault {
    fn fmt<W: fmt::Write>(&self, f: &mut fmt::Formatter<W>) -> fmt::Result {
        match self {
            CopyFault::Read => write!(f, "the input cannot be read"),
            CopyFault::Write => write!(f, "the output cannot be written"),
            CopyFault::Memory => write!(f, "out of memory"),
            CopyFault::Signature => write!(f, "the input is no binary COPY"),
            CopyFault::Oids => write!(f, "a COPY with OIDs is not read"),
            CopyFault::Flags => write!(f, "the header has an unknown critical flag"),
            CopyFault::Extension => write!(f, "the header extension has a negative length"),
            CopyFault::Truncated => write!(f, "the input ends before the trailer"),
            CopyFault::Trailing => write!(f, "bytes come after the trailer"),
            CopyFault::TooManyColumns => write!(f, "more columns than a COPY can have"),
            CopyFault::Columns { row, expected, got } => {
                write!(f, "{row}: {got} columns in place of {expected}")
            }
            CopyFault::Length { row, column } => {
                write!(f, "{row}, column {column}: negative length")
            }
            CopyFault::Value {
                row,
                column,
                base,
                is_array,
                fault,
            } => {
                let name = base.name();
                let form = if *is_array { "[]" } else { "" };
                write!(f, "{row}, column {column} ({name}{form}): {fault}")
            }
        }
    }
}

impl Error for CopyFault {}

impl From<AllocError> for CopyFault {
    ghost from_gives = { λ _ fault. fault ≡ Memory };

    fn from(_error: AllocError) -> CopyFault {
        CopyFault::Memory
    }
}

impl<T: Drop> From<AllocFailed<T>> for CopyFault {
    ghost from_gives = { λ _ fault. fault ≡ Memory };

    fn from(_error: AllocFailed<T>) -> CopyFault {
        CopyFault::Memory
    }
}

impl From<HeaderFault> for CopyFault {
    ghost from_gives = { λ header fault. fault ≡ header_fault header };

    fn from(fault: HeaderFault) -> CopyFault {
        match fault {
            HeaderFault::Signature => CopyFault::Signature,
            HeaderFault::Oids => CopyFault::Oids,
            HeaderFault::Flags => CopyFault::Flags,
            HeaderFault::Extension => CopyFault::Extension,
        }
    }
}

/// Returns the fault of a row whose tuple is refused.
pub fn refused_tuple(row: Row, fault: TupleFault) -> CopyFault
    ensures { result ≡ tuple_fault row fault }
{
    match fault {
        TupleFault::Columns { expected, got } => CopyFault::Columns {
            row,
            expected,
            got: i64::from(got),
        },
        TupleFault::Length { column } => CopyFault::Length { row, column },
    }
}

/// Returns the fault of a value in this row and in the column with this number. Out of memory has
/// neither a row nor a column.
pub fn value_fault(row: Row, number: usize, column: &Column, fault: Fault) -> CopyFault
    ensures number { ValueFault number result }
    ensures names { IsValueFault row number column.now fault result }
{
    match fault {
        Fault::Memory => CopyFault::Memory,
        fault => CopyFault::Value {
            row,
            column: number,
            base: column.base,
            is_array: column.is_array,
            fault,
        },
    }
}
