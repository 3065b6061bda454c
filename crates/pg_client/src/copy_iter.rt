//! The rows of a binary COPY, as an iterator.
ghost use Rattle.std.specs.Prelude.{◌≡◌, Some};
ghost use Rattle.std.specs.Iterator.{at_most};
ghost use Rattle.pg_client.specs.CopyIteration.{Gives, most_rows};

use crate::copy_rows::{CopyFault, CopyRows};
use crate::row::Row;

/// The rows of a [`CopyRows`] as [`CopyRows::next`] returns them, up to the trailer or the first one
/// that is refused, which is the last item, an `Err`.
#[derive(Debug, Drop)]
pub struct CopyIter<'a, 'c> {
    /// The rows to come; `None` after the last item.
    rows: Option<CopyRows<'a, 'c>>,
}

impl<'a, 'c> IntoIterator for CopyRows<'a, 'c> {
    type Item = Result<Row<'a, 'c>, CopyFault>;

    type IntoIter = CopyIter<'a, 'c>;

    ghost into_iter_gives = { λ rows iter. iter.rows ≡ Some rows };

    fn into_iter(self) -> CopyIter<'a, 'c> {
        CopyIter { rows: Some(self) }
    }
}

impl<'a, 'c> Iterator for CopyIter<'a, 'c> {
    type Item = Result<Row<'a, 'c>, CopyFault>;

    ghost next_gives = { λ old item new. Gives old.rows item new.rows };

    ghost remaining = { λ iter. at_most (most_rows iter.rows) };

    fn next(&mut self) -> Option<Result<Row<'a, 'c>, CopyFault>> {
        let mut rows = self.rows.take()?;
        match rows.next() {
            Ok(Some(row)) => {
                self.rows = Some(rows);
                Some(Ok(row))
            }
            Ok(None) => None,
            Err(fault) => Some(Err(fault)),
        }
    }
}
