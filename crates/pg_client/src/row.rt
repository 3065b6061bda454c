//! The row of a DataRow message.
ghost use Rattle.std.specs.Prelude.{◌≡◌, ◌↔◌, ◌-◌, [], IsTrue, None, Some, IfNone, IfSome, codes, length, slice_get};
ghost use Rattle.pg_base.specs.Cells.{cell_of};
ghost use Rattle.pg_client.specs.FromColumns.{ReadsRow};
ghost use Rattle.pg_client.specs.Places.{AnswersAt, IsFaultAt, NeverMemoryAt, RefusesAt, column_place};
ghost use Rattle.pg_client.specs.Rows.{EndsRow, FreeAs, IsRowOf, IsUnread, NoColumn, PassesCells, ReadsAs, ReadsColumn, ReadsFront};
ghost use Rattle.pg_client.specs.Rows.{ReadsNext, has_name, place_named};
ghost use Rattle.pg_client.specs.Rows.{StandsAt, columns_of, frames_of, rest_of, taken_of};
ghost use Rattle.pg_types.specs.Content.{content};
ghost use Rattle.pg_types.specs.Faults.{Answers, NeverMemory, field_count, user};

use crate::column::Column;
use crate::from_row::{FromColumns, FromRow};
use crate::placed_fault::{Place, PlacedFault};
use pg_tuples::is_count;
use postgres_types::{Fault, FromSql, Type, check_type, from_sql_nullable, take_cell};
use std::alloc::Global;

/// The body of a DataRow message: the number of columns in 2 bytes, and for each column the frame
/// of its cell, a length of 4 bytes, -1 for NULL, and as many bytes. The numbers are big-endian.
///
/// A row does not allocate; its values may.
#[derive(Debug, Drop)]
pub struct Row<'a, 'c> {
    columns: &'c [Column],
    /// The frames of all columns.
    frames: &'a [u8],
    /// The number of columns that `next` has taken.
    taken: usize,
    /// The frames after those columns.
    rest: &'a [u8],
}

impl<'a, 'c> Row<'a, 'c> {
    /// Creates the row of this body, which has these columns.
    ///
    /// A truncated number of columns is refused with `Size`, at [`Place::Row`], and another number
    /// with `FieldCount`, at [`Place::Columns`]. The frames are not checked.
    pub fn new(body: &'a [u8], columns: &'c [Column]) -> Result<Row<'a, 'c>, PlacedFault>
        ensures { IsRowOf body.entry.now columns.entry.now result }
    {
        let Some((count, frames)) = body.split_first_chunk::<2>() else {
            return Err(PlacedFault::new(Place::Row, Fault::Size));
        };
        if !is_count(*count, columns.len()) {
            let got = u16::from_be_bytes(*count);
            return Err(wrong_count(columns.len(), usize::from(got)));
        }
        Ok(Row::unread(frames, columns))
    }

    /// Creates the row of these frames, of which no column was taken.
    pub(crate) fn unread(frames: &'a [u8], columns: &'c [Column]) -> Row<'a, 'c>
        ensures { (frames_of result ≡ frames.entry.now) × IsUnread columns.entry.now result }
    {
        Row {
            columns,
            frames,
            taken: 0,
            rest: frames,
        }
    }

    /// Returns the frames of all columns.
    pub(crate) fn frames(&self) -> &'a [u8]
        ensures { result.now ≡ frames_of self.now }
    {
        let Row { frames, .. } = self;
        frames
    }

    /// Returns the columns of the row.
    pub fn columns(&self) -> &'c [Column]
        ensures { result.now ≡ columns_of self.now }
    {
        let Row { columns, .. } = self;
        columns
    }

    /// Returns the number of columns.
    pub fn len(&self) -> usize
        ensures { result ≡ length (columns_of self.now) }
    {
        self.columns().len()
    }

    /// Returns whether the row has no columns.
    pub fn is_empty(&self) -> bool
        ensures { IsTrue result ↔ (columns_of self.now ≡ []) }
    {
        self.columns().is_empty()
    }

    /// Reads the column at index `place`, counted from 0, in any order and as often as wanted. It
    /// reads the frame as `read_value` does.
    ///
    /// An error has the place of the column. It is the fault of the conversion, or `WrongType` with
    /// the name `T` if `T` does not accept the type of the column. A truncated frame of the column,
    /// or of one before it, is refused with `Size` at that column, and an index without a column
    /// with `User` and the text `no such column`.
    pub fn get<T: FromSql<'a>>(&self, alloc: Global, place: usize) -> Result<T, PlacedFault>
        ensures column { IfSome (slice_get (columns_of self.now) place) (λ column. ReadsColumn place
            (columns_of self.now)
            (ReadsAs (T.accepted (content column.ty)) (content column.ty) (T.reads (content column.ty)))
            (FreeAs (T.accepted (content column.ty)) (content column.ty) T.memory_free) (frames_of self.now) result) }
        ensures no_column { IfNone (slice_get (columns_of self.now) place) (NoColumn place result) }
    {
        let Some(column) = column_at(self.columns, place) else {
            return Err(no_column(place));
        };
        let mut rest = self.frames;
        if let Err(truncated) = pass_cells(place, &mut rest) {
            return Err(PlacedFault::new(place_of(self.columns, truncated), Fault::Size));
        }
        read_column(alloc, self.columns, column, place, rest)
    }

    /// Reads the first column with this name as [`get`](Row::get) does. A name that no column has is
    /// refused with `User` and the text `no such column`, at [`Place::Row`].
    pub fn get_by_name<T: FromSql<'a>>(&self, alloc: Global, name: &str) -> Result<T, PlacedFault>
        ensures named { IfSome (place_named name.now (columns_of self.now)) (λ place.
            IfSome (slice_get (columns_of self.now) place) (λ column. ReadsColumn place (columns_of self.now)
            (ReadsAs (T.accepted (content column.ty)) (content column.ty) (T.reads (content column.ty)))
            (FreeAs (T.accepted (content column.ty)) (content column.ty) T.memory_free) (frames_of self.now) result)) }
        ensures unnamed { IfNone (place_named name.now (columns_of self.now))
            (RefusesAt Place.Row (user (codes "no such column")) result) }
    {
        match place_named(name, self.columns) {
            Some(place) => self.get(alloc, place),
            None => Err(unnamed()),
        }
    }

    /// Reads the next column as [`get`](Row::get) does, and advances to the one after it, whether
    /// the call returns a value or a fault. If its frame is truncated, or there is no further
    /// column, the row is unchanged.
    pub fn next<T: FromSql<'a>>(&mut self, alloc: Global) -> Result<T, PlacedFault>
        ensures column { IfSome (slice_get (columns_of self.old) (taken_of self.old)) (λ column. ReadsNext
            (ReadsAs (T.accepted (content column.ty)) (content column.ty) (T.reads (content column.ty)))
            (FreeAs (T.accepted (content column.ty)) (content column.ty) T.memory_free) self.old result self.new) }
        ensures no_column { IfNone (slice_get (columns_of self.old) (taken_of self.old))
            (NoColumn (taken_of self.old) result × StandsAt (taken_of self.old) (rest_of self.old) self.old self.new) }
    {
        let place = self.taken;
        let Some(column) = column_at(self.columns, place) else {
            return Err(no_column(place));
        };
        let mut rest = self.rest;
        match take_cell(&mut rest) {
            Ok(cell) => {
                self.taken = place + 1;
                self.rest = rest;
                convert(alloc, column, place, cell)
            }
            Err(fault) => Err(PlacedFault::new(place_of(self.columns, place), fault)),
        }
    }

    /// Returns the number of columns that were not taken.
    fn left(&self) -> usize
        ensures { result ≡ length (columns_of self.now) - taken_of self.now }
    {
        self.columns.len().saturating_sub(self.taken)
    }

    /// Reads the columns that [`next`](Row::next) has not taken as a tuple or a struct, and ends the
    /// row.
    ///
    /// Another number of columns is refused with `FieldCount`, at [`Place::Columns`]. An error is
    /// that of the first column that is refused, as `next` has it, or that of
    /// [`finish`](Row::finish).
    pub fn read<T: FromRow<'a>>(self, alloc: Global) -> Result<T, PlacedFault>
        ensures outcome { ReadsRow T.Columns.width T.inside T.Columns.reads (columns_of self.entry)
            (taken_of self.entry) (rest_of self.entry) result }
        ensures never_memory { T.Columns.memory_free (columns_of self.entry) (taken_of self.entry) (rest_of self.entry)
            → NeverMemoryAt result }
    {
        let left = self.left();
        match T::Columns::width() {
            Some(width) if width == left => {
                Ok(T::from_row(T::Columns::from_columns(alloc, self)?))
            }
            width => Err(wrong_count(width.unwrap_or(usize::MAX), left)),
        }
    }

    /// Ends reading the row. Columns that [`next`](Row::next) has not taken are skipped, so a row
    /// of which some columns are not wanted, or which is read with [`get`](Row::get), ends in the
    /// same way.
    ///
    /// Trailing bytes after the last column are refused with `Size` at [`Place::Row`], and a
    /// truncated frame of a column with `Size` at that column.
    pub fn finish(self) -> Result<(), PlacedFault>
        ensures { EndsRow (columns_of self.entry) (taken_of self.entry)
            (length (columns_of self.entry) - taken_of self.entry) (rest_of self.entry) result }
    {
        let mut rest = self.rest;
        if let Err(passed) = pass_cells(self.left(), &mut rest) {
            let place = place_of(self.columns, self.taken + passed);
            return Err(PlacedFault::new(place, Fault::Size));
        }
        if rest.is_empty() {
            Ok(())
        } else {
            Err(PlacedFault::new(Place::Row, Fault::Size))
        }
    }
}

/// Returns the column at this index.
pub(crate) fn column_at(columns: &[Column], place: usize) -> Option<&Column>
    ensures some { IfSome result (λ column. slice_get columns.now place ≡ Some column.now) }
    ensures none { IfNone result (slice_get columns.now place ≡ None) }
{
    columns.get(place)
}

/// Returns the index of the first column with this name.
pub(crate) fn place_named(name: &str, columns: &[Column]) -> Option<usize>
    ensures { result ≡ place_named name.now columns.now }
{
    columns.iter().position(|column| has_name(name, column))
}

/// Returns whether the column has this name.
fn has_name(name: &str, column: &Column) -> bool
    ensures { result ≡ has_name name.now column.now }
{
    match &column.name {
        Some(own) => own.as_str() == name,
        None => false,
    }
}

/// Returns the place of a column.
pub(crate) fn place_of(columns: &[Column], place: usize) -> Place
    ensures { result ≡ column_place columns.now place }
{
    match column_at(columns, place) {
        Some(column) => Place::Column(place, column.name),
        None => Place::Column(place, None),
    }
}

/// Returns the fault of a row with another number of columns.
fn wrong_count(expected: usize, got: usize) -> PlacedFault
    ensures { IsFaultAt (Place.Columns expected got) field_count result }
{
    PlacedFault::new(Place::Columns { expected, got }, Fault::FieldCount)
}

/// Returns the fault for an index without a column.
pub(crate) fn no_column(place: usize) -> PlacedFault
    ensures { IsFaultAt (Place.Column place None) (user (codes "no such column")) result }
{
    PlacedFault::new(Place::Column(place, None), Fault::user("no such column"))
}

/// Returns the fault for a name that no column has.
pub(crate) fn unnamed() -> PlacedFault
    ensures { IsFaultAt Place.Row (user (codes "no such column")) result }
{
    PlacedFault::new(Place::Row, Fault::user("no such column"))
}

/// Skips `count` framed cells at the front of the slice. If one is truncated it returns the number
/// of cells before it, and the slice begins at that cell.
fn pass_cells(count: usize, buf: &mut &[u8]) -> Result<(), usize>
    ensures { PassesCells count buf.old.now result buf.new.now }
{
    for passed in 0..count {
        let mut rest = *buf;
        match take_cell(&mut rest) {
            Ok(_) => *buf = rest,
            Err(_) => return Err(passed),
        }
    }
    Ok(())
}

/// Reads the column whose frame begins these bytes. A truncated frame is refused with `Size`.
pub(crate) fn read_column<'a, T: FromSql<'a>>(
    alloc: Global,
    columns: &[Column],
    column: &Column,
    place: usize,
    frame: &'a [u8],
) -> Result<T, PlacedFault>
    requires { slice_get columns.now place ≡ Some column.now }
    ensures { ReadsFront (column_place columns.now place) (ReadsAs (T.accepted (content column.now.ty))
        (content column.now.ty) (T.reads (content column.now.ty)))
        (FreeAs (T.accepted (content column.now.ty)) (content column.now.ty) T.memory_free) frame.entry.now result }
{
    let mut rest = frame;
    match take_cell(&mut rest) {
        Ok(cell) => convert(alloc, column, place, cell),
        Err(fault) => Err(PlacedFault::new(place_of(columns, place), fault)),
    }
}

/// Reads the cell of a column.
fn convert<'a, T: FromSql<'a>>(
    alloc: Global,
    column: &Column,
    place: usize,
    cell: Option<&'a [u8]>,
) -> Result<T, PlacedFault>
    ensures outcome { AnswersAt (Place.Column place column.now.name) (ReadsAs (T.accepted (content column.now.ty))
        (content column.now.ty) (T.reads (content column.now.ty)) (cell_of cell.entry)) result }
    ensures never_memory { FreeAs (T.accepted (content column.now.ty)) (content column.now.ty) T.memory_free
        (cell_of cell.entry) → NeverMemoryAt result }
{
    match read_as(alloc, &column.ty, cell) {
        Ok(value) => Ok(value),
        Err(fault) => Err(PlacedFault::new(Place::Column(place, column.name), fault)),
    }
}

/// Reads a cell of this type; fails with `WrongType` if `T` does not accept the type.
fn read_as<'a, T: FromSql<'a>>(alloc: Global, ty: &Type, cell: Option<&'a [u8]>) -> Result<T, Fault>
    ensures outcome { Answers (ReadsAs (T.accepted (content ty.now)) (content ty.now) (T.reads (content ty.now))
        (cell_of cell.entry)) result }
    ensures never_memory { FreeAs (T.accepted (content ty.now)) (content ty.now) T.memory_free (cell_of cell.entry)
        → NeverMemory result }
{
    check_type(T::accepts(ty), ty, "T")?;
    from_sql_nullable(alloc, ty, cell)
}
