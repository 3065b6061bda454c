//! The rows of a binary COPY whose bytes come in parts.
ghost use Rattle.std.specs.Prelude.{◌≡◌, ◌≢◌, ◌<◌, ℕ, List, [], IfErr, IfOk, IsSome, OnOk, length};
ghost use Rattle.pg_base.specs.Cells.{Cell};
ghost use Rattle.pg_tuples.specs.Tuples.{BeginsCopy};
ghost use Rattle.pg_client.specs.CopyParts.{EndsCopy, HasTaken, ReadsNext, columns_in, count_of, row_count, stage_of};
ghost use Rattle.pg_client.specs.CopyReading.{AfterHeader, RefusesHeaderAs};

use crate::column::Column;
use crate::copy_rows::CopyFault;
use crate::row::Row;
use pg_tuples::{Front, front_of, take_header};

/// How much of a COPY was taken.
#[derive(Debug, Clone, Copy)]
enum Stage {
    /// Nothing.
    Header,
    /// The header, and the tuples of the rows that were returned.
    Tuples,
    /// The trailer too.
    End,
}

/// The rows of a binary COPY whose bytes come in parts, such as those of CopyData messages, which
/// may end anywhere.
///
/// It keeps no bytes. The caller appends the bytes that come to those that [`next`] left, and calls
/// `next` until it returns `None`; when no more bytes come, [`finish`]. So no more than a row and a
/// part has to be kept.
///
/// [`next`]: CopyParts::next
/// [`finish`]: CopyParts::finish
#[derive(Debug, Clone, Copy)]
pub struct CopyParts<'c> {
    columns: &'c [Column],
    stage: Stage,
    /// The number of rows that were returned, at most the greatest one of its type.
    count: usize,
}

impl<'c> CopyParts<'c> {
    /// Starts reading a COPY whose rows have these columns.
    pub fn new(columns: &'c [Column]) -> CopyParts<'c>
        ensures columns { columns_in result ≡ columns.entry.now }
        ensures taken { HasTaken [] [] result }
    {
        CopyParts {
            columns,
            stage: Stage::Header,
            count: 0,
        }
    }

    /// Takes the next row from the front of the bytes, or returns `None` if its tuple is truncated,
    /// or the trailer was taken. The header and the trailer are taken as they come.
    ///
    /// It refuses what [`CopyRows`](crate::CopyRows) refuses, but for a truncated header or tuple,
    /// since more bytes may come. A refused header or tuple, and bytes after the trailer, are not
    /// taken. Each row leaves fewer bytes, so a loop over the rows ends.
    pub fn next<'a>(&mut self, bytes: &mut &'a [u8]) -> Result<Option<Row<'a, 'c>>, CopyFault>
        ensures columns { columns_in self.new ≡ columns_in self.old }
        ensures reads { (taken : List ℕ) (rows : List (List Cell)) → HasTaken taken rows self.old
            → ReadsNext taken rows bytes.old.now result bytes.new.now self.new }
        ensures shorter { IfOk result (λ row. IsSome row → length bytes.new.now < length bytes.old.now) }
    {
        match self.stage {
            Stage::Header => {
                let Some(tuples) = after_header(bytes)? else {
                    return Ok(None);
                };
                *bytes = tuples;
                self.stage = Stage::Tuples;
                self.take_tuple(bytes)
            }
            Stage::Tuples => self.take_tuple(bytes),
            Stage::End => {
                check_end(bytes)?;
                Ok(None)
            }
        }
    }

    /// Takes the tuple or the trailer at the front of the bytes.
    fn take_tuple<'a>(&mut self, bytes: &mut &'a [u8]) -> Result<Option<Row<'a, 'c>>, CopyFault>
        requires { stage_of self.old ≡ Stage.Tuples }
        ensures columns { columns_in self.new ≡ columns_in self.old }
        ensures reads { (taken : List ℕ) (rows : List (List Cell)) → BeginsCopy rows taken
            → count_of self.old ≡ row_count (length rows)
            → ReadsNext taken rows bytes.old.now result bytes.new.now self.new }
        ensures shorter { IfOk result (λ row. IsSome row → length bytes.new.now < length bytes.old.now) }
    {
        let row = self.count.saturating_add(1);
        match front_of(bytes, self.columns.len()) {
            Ok(Front::Tuple { frames, rest }) => {
                *bytes = rest;
                self.count = row;
                Ok(Some(Row::unread(frames, self.columns)))
            }
            Ok(Front::Trailer(rest)) => {
                *bytes = rest;
                self.stage = Stage::End;
                check_end(bytes)?;
                Ok(None)
            }
            Ok(Front::Part) => Ok(None),
            Err(fault) => Err(CopyFault::Tuple { row, fault }),
        }
    }

    /// Returns the number of rows if the trailer was taken; otherwise the COPY is refused as
    /// truncated. Bytes after the trailer are refused by [`next`](CopyParts::next).
    pub fn finish(&self) -> Result<usize, CopyFault>
        ensures { (taken : List ℕ) (rows : List (List Cell)) → HasTaken taken rows self.now
            → EndsCopy taken rows result }
    {
        match self.stage {
            Stage::Header => Err(CopyFault::TruncatedHeader),
            Stage::Tuples => Err(CopyFault::Truncated {
                row: self.count.saturating_add(1),
            }),
            Stage::End => Ok(self.count),
        }
    }
}

/// Returns the bytes after the header and its extension; `None` if these are truncated.
pub(crate) fn after_header(bytes: &[u8]) -> Result<Option<&[u8]>, CopyFault>
    ensures ok { IfOk result (AfterHeader bytes.now) }
    ensures err { IfErr result (RefusesHeaderAs bytes.now) }
{
    let mut rest = bytes;
    match take_header(&mut rest) {
        Ok(Some(len)) => match rest.split_at_checked(len) {
            Some((_, tuples)) => Ok(Some(tuples)),
            None => Ok(None),
        },
        Ok(None) => Ok(None),
        Err(fault) => Err(CopyFault::Header(fault)),
    }
}

/// Refuses bytes after the trailer.
fn check_end(bytes: &[u8]) -> Result<(), CopyFault>
    ensures ok { OnOk result (bytes.now ≡ []) }
    ensures err { IfErr result (λ fault. (fault ≡ CopyFault.Trailing) × (bytes.now ≢ [])) }
{
    if bytes.is_empty() {
        Ok(())
    } else {
        Err(CopyFault::Trailing)
    }
}
