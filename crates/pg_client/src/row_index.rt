//! Rows whose cells are found before columns are read.
ghost use Rattle.std.specs.Prelude.{◌≡◌, ◌≤◌, ◌++◌, ◌∷◌, ℕ, [], IfErr, IfNone, IfSome, None, OnOk, codes, slice_get};
ghost use Rattle.pg_client.specs.Places.{RefusesAt};
ghost use Rattle.pg_client.specs.RowOffsets.{FindsCells};
ghost use Rattle.pg_client.specs.Rows.{FreeAs, NoColumn, ReadsAs, ReadsColumn, columns_of, frames_of, place_named};
ghost use Rattle.pg_types.specs.Content.{content};
ghost use Rattle.pg_types.specs.Faults.{refusal_of, user};

use crate::column::Column;
use crate::placed_fault::{Place, PlacedFault};
use crate::row::{Row, column_at, no_column, place_named, place_of, read_column, unnamed};
use postgres_types::{Fault, FromSql, take_cell};
use std::alloc::Global;

/// The offsets of the cells of a row. One index serves row after row, so that it allocates for the
/// first ones only.
#[derive(Debug, Drop)]
pub struct RowIndex {
    offsets: Vec<usize>,
}

impl RowIndex {
    ghost use Rattle.pg_client.specs.RowIndexes.{IndexesRow};

    /// Creates an index without offsets. It does not allocate.
    pub fn new(alloc: Global) -> RowIndex {
        RowIndex {
            offsets: Vec::new(alloc),
        }
    }

    /// Finds the cells of all columns of the row, those that were taken included, and ends the row.
    ///
    /// Trailing bytes after the last column are refused with `Size` at [`Place::Row`], and a
    /// truncated frame of a column with `Size` at that column; `Memory` is at [`Place::Row`].
    pub fn find<'a, 'c, 'i>(
        &'i mut self,
        row: &Row<'a, 'c>,
    ) -> Result<IndexedRow<'a, 'c, 'i>, PlacedFault>
        ensures { IndexesRow (columns_of row.now) (frames_of row.now) result }
    {
        let columns = row.columns();
        let frames = row.frames();
        self.offsets.clear();
        find_cells(columns, frames, &mut self.offsets)?;
        Ok(IndexedRow {
            columns,
            frames,
            offsets: self.offsets.as_slice(),
        })
    }
}

/// A row of which [`RowIndex::find`] found all cells, so that each column is read in constant time.
#[derive(Debug, Drop)]
pub struct IndexedRow<'a, 'c, 'i> {
    columns: &'c [Column],
    /// The frames of all columns.
    frames: &'a [u8],
    /// The offset of the frame of each column.
    offsets: &'i [usize],
}

impl<'a, 'c> IndexedRow<'a, 'c, '_> {
    ghost use Rattle.pg_client.specs.RowIndexes.{HasFrame, IsIndexed, indexed_columns, indexed_frames};

    /// Returns the columns of the row.
    pub fn columns(&self) -> &'c [Column]
        ensures { result.now ≡ indexed_columns self.now }
    {
        let IndexedRow { columns, .. } = self;
        columns
    }

    /// Reads the column at index `place`, counted from 0, as [`Row::get`] does, in constant time.
    pub fn get<T: FromSql<'a>>(&self, alloc: Global, place: usize) -> Result<T, PlacedFault>
        ensures column { IsIndexed self.now → IfSome (slice_get (indexed_columns self.now) place) (λ column.
            ReadsColumn place (indexed_columns self.now)
            (ReadsAs (T.accepted (content column.ty)) (content column.ty) (T.reads (content column.ty)))
            (FreeAs (T.accepted (content column.ty)) (content column.ty) T.memory_free)
            (indexed_frames self.now) result) }
        ensures no_column { IfNone (slice_get (indexed_columns self.now) place) (NoColumn place result) }
    {
        let Some(column) = column_at(self.columns, place) else {
            return Err(no_column(place));
        };
        let Some(frame) = self.frame_at(place) else {
            return Err(no_column(place));
        };
        read_column(alloc, self.columns, column, place, frame)
    }

    /// Returns the frames from that of the column at this index on.
    fn frame_at(&self, place: usize) -> Option<&'a [u8]>
        ensures { HasFrame self.now place result }
    {
        let offset = self.offsets.get(place)?;
        self.frames.get(*offset..)
    }

    /// Reads the first column with this name as [`Row::get_by_name`] does.
    pub fn get_by_name<T: FromSql<'a>>(&self, alloc: Global, name: &str) -> Result<T, PlacedFault>
        ensures named { IsIndexed self.now → IfSome (place_named name.now (indexed_columns self.now)) (λ place.
            IfSome (slice_get (indexed_columns self.now) place) (λ column. ReadsColumn place (indexed_columns self.now)
            (ReadsAs (T.accepted (content column.ty)) (content column.ty) (T.reads (content column.ty)))
            (FreeAs (T.accepted (content column.ty)) (content column.ty) T.memory_free)
            (indexed_frames self.now) result)) }
        ensures unnamed { IfNone (place_named name.now (indexed_columns self.now))
            (RefusesAt Place.Row (user (codes "no such column")) result) }
    {
        match place_named(name, self.columns) {
            Some(place) => self.get(alloc, place),
            None => Err(unnamed()),
        }
    }
}

/// Appends the offsets of the frames of these columns.
fn find_cells(
    columns: &[Column],
    frames: &[u8],
    offsets: &mut Vec<usize>,
) -> Result<(), PlacedFault>
    requires { offsets.old.items ≡ [] }
    ensures { FindsCells columns.now frames.now offsets.new.items result }
{
    let mut rest = frames;
    for place in 0..columns.len() {
        let offset = frames.len().saturating_sub(rest.len());
        match take_cell(&mut rest) {
            Ok(_) => push_offset(offset, offsets)?,
            Err(fault) => return Err(PlacedFault::new(place_of(columns, place), fault)),
        }
    }
    if rest.is_empty() {
        Ok(())
    } else {
        Err(PlacedFault::new(Place::Row, Fault::Size))
    }
}

/// Appends an offset. `Memory` is at [`Place::Row`].
fn push_offset(offset: usize, offsets: &mut Vec<usize>) -> Result<(), PlacedFault>
    ensures ok { OnOk result (offsets.new.items ≡ offsets.old.items ++ offset ∷ []) }
    ensures err { IfErr result (λ f. (f.place ≡ Place.Row) × (refusal_of f.fault ≡ None)) }
{
    match offsets.push(offset) {
        Ok(()) => Ok(()),
        Err(_) => Err(PlacedFault::new(Place::Row, Fault::Memory)),
    }
}
