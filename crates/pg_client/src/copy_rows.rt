//! The rows of a binary COPY.
ghost use Rattle.std.specs.Prelude.{◌≡◌, ◌+◌, ◌<◌, ◌^◌, ℕ, List, [], IfErr, IfOk, IsSome, length};
ghost use Rattle.pg_base.specs.Cells.{Cell};

use crate::column::Column;
use crate::copy_parts::after_header;
use crate::row::Row;
use pg_tuples::{Front, HeaderFault, TupleFault, front_of};
use thiserror::Error;

/// Why the bytes of a binary COPY are refused. Rows are counted from 1.
#[derive(Debug, Clone, Copy, PartialEq, Eq, Error)]
pub enum CopyFault {
    /// The header is refused.
    #[error("header: {0}")]
    Header(HeaderFault),
    /// The bytes end in or before the header.
    #[error("header: truncated")]
    TruncatedHeader,
    /// The tuple of this row is refused.
    #[error("row {row}: {fault}")]
    Tuple { row: usize, fault: TupleFault },
    /// The bytes end before the trailer, in or before the tuple of this row.
    #[error("row {row}: truncated")]
    Truncated { row: usize },
    /// Bytes come after the trailer.
    #[error("bytes come after the trailer")]
    Trailing,
}

/// The rows of a binary COPY, as of `COPY t TO STDOUT (FORMAT binary)`, in a slice: a header, a
/// tuple for each row, and a trailer. A tuple has the layout of the body of a DataRow message.
///
/// It does not allocate. A `for` loop over it gives each row as a `Result`, and ends after the first
/// one that is refused.
#[derive(Debug, Drop)]
pub struct CopyRows<'a, 'c> {
    columns: &'c [Column],
    /// The tuples to come, and the trailer.
    rest: &'a [u8],
    /// The number of rows that were returned.
    count: usize,
    ghost counted: { (count + 1) + length rest.now < 2 ^ 64 },
}

impl<'a, 'c> CopyRows<'a, 'c> {
    ghost use Rattle.pg_client.specs.CopyReading.{HasRead, NoneTaken, ReadsNext, RefusesNext, RefusesStart};
    ghost use Rattle.pg_client.specs.CopyReading.{columns_in, count_of, left_of};

    /// Starts reading the COPY in these bytes, whose rows have these columns.
    ///
    /// It reads the header: the signature, the flags, none of whose critical ones may be set, and
    /// the header extension, which is skipped. The tuples are not checked.
    pub fn new(bytes: &'a [u8], columns: &'c [Column]) -> Result<CopyRows<'a, 'c>, CopyFault>
        ensures columns { IfOk result (λ rows. columns_in rows ≡ columns.entry.now) }
        ensures reads { IfOk result (HasRead bytes.entry.now []) }
        ensures refused { IfErr result (RefusesStart bytes.entry.now) }
    {
        match after_header(bytes)? {
            Some(rest) => Ok(CopyRows {
                columns,
                rest,
                count: 0,
            }),
            None => Err(CopyFault::TruncatedHeader),
        }
    }

    /// Returns the next row, or `None` at the trailer, after which no byte may come.
    ///
    /// A row is a complete tuple with as many columns as `columns`, each with the length -1 of NULL
    /// or as many bytes as its length says. An error is that of the first check that fails, and
    /// leaves the position as it was. Each row leaves fewer bytes, so a loop over all rows ends.
    pub fn next(&mut self) -> Result<Option<Row<'a, 'c>>, CopyFault>
        ensures columns { columns_in self.new ≡ columns_in self.old }
        ensures reads { IfOk result (λ row. (bytes : List ℕ) (rows : List (List Cell)) → HasRead bytes rows self.old
            → ReadsNext bytes rows row self.new) }
        ensures shorter { IfOk result (λ row. IsSome row
            → length (left_of self.new) < length (left_of self.old)) }
        ensures err { IfErr result (λ fault. NoneTaken self.old self.new × RefusesNext self.old fault) }
    {
        let row = self.count + 1;
        match front_of(self.rest, self.columns.len()) {
            Ok(Front::Tuple { frames, rest }) => {
                *self = CopyRows {
                    columns: self.columns,
                    rest,
                    count: row,
                };
                Ok(Some(Row::unread(frames, self.columns)))
            }
            Ok(Front::Trailer(after)) => {
                if after.is_empty() {
                    Ok(None)
                } else {
                    Err(CopyFault::Trailing)
                }
            }
            Ok(Front::Part) => Err(CopyFault::Truncated { row }),
            Err(fault) => Err(CopyFault::Tuple { row, fault }),
        }
    }

    /// Returns the number of rows that were returned, which is the number of the last one.
    pub fn count(&self) -> usize
        ensures { result ≡ count_of self.now }
    {
        self.count
    }
}
