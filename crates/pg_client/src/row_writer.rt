//! The values of a row that are written: the parameters of a Bind message, or a tuple of a COPY.
ghost use Rattle.std.specs.Prelude.{◌≡◌, ◌≤◌, ℕ, List, [], IfErr, IfNone, IfOk, IfSome, IsTrue, Ok, Some, None};
ghost use Rattle.std.specs.Prelude.{length, slice_get};
ghost use Rattle.std.specs.Borrow.{sem};
ghost use Rattle.pg_base.specs.Appending.{Appends, KeepsCapacity};
ghost use Rattle.pg_base.specs.Cells.{Cell};
ghost use Rattle.pg_tuples.specs.Tuples.{header, trailer};
ghost use Rattle.pg_types.specs.Content.{content};
ghost use Rattle.pg_types.specs.Faults.{NeverMemory};
ghost use Rattle.pg_types.specs.declared.types.PgType.{PgType};
ghost use Rattle.pg_client.specs.Binding.{PushesFrame, in_binary};
ghost use Rattle.pg_client.specs.Places.{NeverMemoryAt};
ghost use Rattle.pg_client.specs.RowWriting.{StartFault, count_place, foot_of, head_of, value_place, whole_place};
ghost use Rattle.postgres_types.specs.ParamWriting.{AppendsFrame, frame_len};
ghost use Rattle.postgres_types.specs.Records.{AppendsBytes, or_transmit};
ghost use Rattle.postgres_types.specs.Writing.{checked};

use crate::bind::ALL_BINARY;
use crate::placed_fault::{Place, PlacedFault};
use crate::to_row::ToRow;
use pg_tuples::{HEADER, TRAILER};
use postgres_types::protocol::int2_to_sql;
use postgres_types::{BytesMut, Fault, Format, ToSql, Type, frame_value};

/// What the values of a row are.
#[derive(Debug, Clone, Copy)]
enum Target {
    /// The parameters of a Bind message.
    Bind,
    /// The columns of a tuple of a binary COPY.
    Tuple,
}

/// The values of a row, which are appended to a buffer, each written for the type at its place:
/// the parameters of a Bind message, or the columns of a tuple of a binary COPY. So one function
/// that pushes the fields of a struct serves both.
///
/// Before the frames of the cells it appends the number of values in 2 bytes, big-endian; the
/// parameters of a Bind message also have one format code for all of them before that number, and
/// one for all result columns after the last frame, that of the binary format.
///
/// The row is whole once [`finish`](RowWriter::finish) has returned `Ok`. If it is refused, or the
/// row is cancelled, the buffer has the bytes that it had before the row.
#[derive(Debug, Drop)]
pub struct RowWriter<'b, 't> {
    out: &'b mut BytesMut,
    types: &'t [Type],
    target: Target,
    /// The length of the buffer before the row.
    start: usize,
    /// The number of values that were pushed.
    count: usize,
}

impl<'b, 't> RowWriter<'b, 't> {
    ghost use Rattle.pg_client.specs.RowWriting.{EndsRow, Writes, WritesIn, WritesMore, count_of, keeps_if_refused};
    ghost use Rattle.pg_client.specs.RowWriting.{out_of, target_of, types_of, value_wire};
    ghost use Rattle.pg_client.specs.ToColumns.{WritesRow};

    /// Starts the parameters of a Bind message at the end of the buffer, one for each type. The
    /// caller appends what precedes them in the message: the portal and the statement.
    ///
    /// More than 65,535 types are refused with `Transmit`, at [`Place::Bind`]. An error, `Memory`
    /// included, leaves the buffer's bytes as they were.
    pub fn bind(out: &'b mut BytesMut, types: &'t [Type]) -> Result<RowWriter<'b, 't>, PlacedFault>
        ensures* kept { sem 𝓛 (keeps_if_refused out.entry result) }
        ensures writes { IfOk result (Writes Target.Bind types.entry.now out.old.items []) }
        ensures same_reference { IfOk result (λ row. (out_of row).ghost_name ≡ out.entry.ghost_name) }
        ensures err { IfErr result (StartFault Target.Bind (length types.entry.now)) }
    {
        let start = push_head(Target::Bind, types.len(), out)?;
        Ok(RowWriter {
            out,
            types,
            target: Target::Bind,
            start,
            count: 0,
        })
    }

    /// Starts a tuple of a binary COPY at the end of the buffer, with a column for each type.
    ///
    /// More than 32,767 types are refused with `Transmit`, at [`Place::Row`]. An error, `Memory`
    /// included, leaves the buffer's bytes as they were.
    pub fn tuple(out: &'b mut BytesMut, types: &'t [Type]) -> Result<RowWriter<'b, 't>, PlacedFault>
        ensures* kept { sem 𝓛 (keeps_if_refused out.entry result) }
        ensures writes { IfOk result (Writes Target.Tuple types.entry.now out.old.items []) }
        ensures same_reference { IfOk result (λ row. (out_of row).ghost_name ≡ out.entry.ghost_name) }
        ensures err { IfErr result (StartFault Target.Tuple (length types.entry.now)) }
    {
        let start = push_head(Target::Tuple, types.len(), out)?;
        Ok(RowWriter {
            out,
            types,
            target: Target::Tuple,
            start,
            count: 0,
        })
    }

    /// Appends the frame of the value, owned or borrowed, written for the next type.
    ///
    /// An error has the place of the value: [`Place::Parameter`] or [`Place::Column`], counted from
    /// 0. It is the fault of its checked writing; `Transmit` if its cell exceeds 2,147,483,647
    /// bytes; `User`, with the text `value in text format`, if its conversion writes the text
    /// format; or `FieldCount` if there is no further type. An error, `Memory` included, leaves the
    /// buffer's bytes as they were, and further values can be pushed. If the buffer has room for
    /// the frame, and writing the value needs only that room (`by_room`), the call never fails with
    /// `Memory`.
    pub fn push<T: ToSql>(&mut self, value: &T) -> Result<(), PlacedFault>
        ensures same_reference { (out_of self.new).ghost_name ≡ (out_of self.old).ghost_name }
        ensures frame { PushesFrame (value_place (target_of self.old) (count_of self.old))
            (value_wire T.accepted T.name T.wire T.format (slice_get (types_of self.old) (count_of self.old)) value.now)
            (out_of self.old).now.items (out_of self.new).now.items result }
        ensures room { T.by_room value.now → IfSome (slice_get (types_of self.old) (count_of self.old)) (λ ty.
            IsTrue (T.accepted (content ty)) → frame_len (T.wire (content ty) value.now)
            ≤ (out_of self.old).now.spare → NeverMemoryAt result) }
        ensures capacity { KeepsCapacity (out_of self.old).now (out_of self.new).now }
        ensures writes { (target : Target) (types : List PgType) (before : List ℕ) (cells : List Cell)
            → Writes target types before cells self.old → WritesMore
            (value_wire T.accepted T.name T.wire T.format (slice_get types (length cells)) value.now)
            target types before cells self.new result }
    {
        let place = value_place(self.target, self.count);
        let Some(ty) = type_at(self.types, self.count) else {
            return Err(PlacedFault::new(place, Fault::FieldCount));
        };
        match append_binary(value, ty, self.out) {
            Ok(()) => {
                self.count += 1;
                Ok(())
            }
            Err(fault) => Err(PlacedFault::new(place, fault)),
        }
    }

    /// Ends the row. If there are fewer values than types, it is refused with `FieldCount`, at
    /// [`Place::Parameters`] or [`Place::Columns`]. An error, `Memory` included, gives back the
    /// buffer with the bytes that it had before the row.
    pub fn finish(self) -> Result<(), PlacedFault>
        ensures { (target : Target) (types : List PgType) (before : List ℕ) (cells : List Cell)
            → Writes target types before cells self.entry
            → EndsRow target types before cells self.exit.0.now.items result }
    {
        let RowWriter {
            out,
            types,
            target,
            start,
            count,
        } = self;
        if count != types.len() {
            out.truncate(start);
            let missing = count_place(target, types.len(), count);
            return Err(PlacedFault::new(missing, Fault::FieldCount));
        }
        match push_foot(target, out) {
            Ok(()) => Ok(()),
            Err(fault) => {
                out.truncate(start);
                Err(PlacedFault::new(whole_place(target), fault))
            }
        }
    }

    /// Pushes the values of a tuple or a struct, and ends the row.
    ///
    /// An error is that of the first value that is refused, as [`push`](RowWriter::push) has it, or
    /// that of [`finish`](RowWriter::finish). It gives back the buffer with the bytes that it had
    /// before the row.
    pub fn write<T: ToRow>(self, values: &T) -> Result<(), PlacedFault>
        ensures { (target : Target) (types : List PgType) (before : List ℕ) (cells : List Cell)
            → Writes target types before cells self.entry
            → WritesRow (T.Columns.wires (T.inside values.now)) target types before cells
            self.exit.0.now.items result }
    {
        let RowWriter {
            out,
            types,
            target,
            start,
            count,
        } = self;
        RowWriter::end_with(out, types, target, start, count, values)
    }

    /// Pushes the values to the row of these fields, and ends it.
    fn end_with<T: ToRow>(
        out: &mut BytesMut,
        types: &[Type],
        target: Target,
        start: usize,
        count: usize,
        values: &T,
    ) -> Result<(), PlacedFault>
        ensures { (before : List ℕ) (cells : List Cell)
            → WritesIn target types.now before cells out.old.items start count
            → WritesRow (T.Columns.wires (T.inside values.now)) target types.now before cells out.new.items result }
    {
        let mut row = RowWriter {
            out,
            types,
            target,
            start,
            count,
        };
        match values.push_row(&mut row) {
            Ok(()) => row.finish(),
            Err(fault) => {
                row.cancel();
                Err(fault)
            }
        }
    }

    /// Gives back the buffer with the bytes that it had before the row.
    pub fn cancel(self)
        ensures { (target : Target) (types : List PgType) (before : List ℕ) (cells : List Cell)
            → Writes target types before cells self.entry → self.exit.0.now.items ≡ before }
    {
        let start = self.start;
        self.out.truncate(start);
    }
}

/// Appends the frame of the value. A conversion that writes the text format is refused with `User`,
/// and the text `value in text format`. An error leaves the buffer's bytes as they were.
pub(crate) fn append_binary<T: ToSql>(value: &T, ty: &Type, out: &mut BytesMut) -> Result<(), Fault>
    ensures frame { AppendsFrame (in_binary (T.format (content ty.now) value.now)
        (checked T.accepted T.name T.wire (content ty.now) value.now)) out.old.items out.new.items result }
    ensures room { T.by_room value.now → IsTrue (T.accepted (content ty.now))
        → frame_len (T.wire (content ty.now) value.now) ≤ out.old.spare → NeverMemory result }
    ensures capacity { KeepsCapacity out.old out.new }
{
    if let Format::Text = value.encode_format(ty) {
        return Err(Fault::user("value in text format"));
    }
    let alloc = *out.allocator();
    frame_value(alloc, value, ty, out)
}

/// Returns the type at this index.
fn type_at(types: &[Type], place: usize) -> Option<&Type>
    ensures some { IfSome result (λ ty. slice_get types.now place ≡ Some ty.now) }
    ensures none { IfNone result (slice_get types.now place ≡ None) }
{
    types.get(place)
}

/// Returns the place of the value at this index.
fn value_place(target: Target, place: usize) -> Place
    ensures { result ≡ value_place target place }
{
    match target {
        Target::Bind => Place::Parameter(place),
        Target::Tuple => Place::Column(place, None),
    }
}

/// Returns the place of a row as a whole.
fn whole_place(target: Target) -> Place
    ensures { result ≡ whole_place target }
{
    match target {
        Target::Bind => Place::Bind,
        Target::Tuple => Place::Row,
    }
}

/// Returns the place of the number of values.
fn count_place(target: Target, expected: usize, got: usize) -> Place
    ensures { result ≡ count_place target expected got }
{
    match target {
        Target::Bind => Place::Parameters { expected, got },
        Target::Tuple => Place::Columns { expected, got },
    }
}

/// Appends what precedes this number of values, and returns the length of the buffer before it.
fn push_head(target: Target, count: usize, out: &mut BytesMut) -> Result<usize, PlacedFault>
    ensures ok { IfOk result (λ start. (start ≡ length out.old.items)
        × AppendsBytes (or_transmit (head_of target count)) out.old.items out.new.items (Ok tt)) }
    ensures err { IfErr result (λ fault. (out.new.items ≡ out.old.items) × StartFault target count fault) }
{
    let start = out.len();
    match append_head(target, count, out) {
        Ok(()) => Ok(start),
        Err(fault) => Err(PlacedFault::new(whole_place(target), fault)),
    }
}

/// Appends what precedes the values: for a Bind message the format code, and the number of values.
fn append_head(target: Target, count: usize, out: &mut BytesMut) -> Result<(), Fault>
    ensures { AppendsBytes (or_transmit (head_of target count)) out.old.items out.new.items result }
{
    match target {
        Target::Bind => {
            let Ok(count) = u16::try_from(count) else {
                return Err(Fault::Transmit);
            };
            let [high, low] = count.to_be_bytes();
            Ok(out.extend_from_slice(&[0, 1, 0, 1, high, low])?)
        }
        Target::Tuple => {
            let Ok(count) = i16::try_from(count) else {
                return Err(Fault::Transmit);
            };
            let alloc = *out.allocator();
            int2_to_sql(alloc, count, out)
        }
    }
}

/// Appends what follows the values, for a Bind message the format code of the result columns.
fn push_foot(target: Target, out: &mut BytesMut) -> Result<(), Fault>
    ensures { AppendsBytes (Ok (foot_of target)) out.old.items out.new.items result }
{
    match target {
        Target::Bind => Ok(out.extend_from_slice(&ALL_BINARY)?),
        Target::Tuple => Ok(()),
    }
}

/// Appends the header of a binary COPY: the signature, no flag, and an empty header extension.
pub fn push_copy_header(out: &mut BytesMut) -> Result<(), Fault>
    ensures { Appends (Some header) out.old out.new result }
{
    Ok(out.extend_from_slice(HEADER)?)
}

/// Appends the trailer of a binary COPY: -1 instead of a number of columns.
pub fn push_copy_trailer(out: &mut BytesMut) -> Result<(), Fault>
    ensures { Appends (Some trailer) out.old out.new result }
{
    Ok(out.extend_from_slice(TRAILER)?)
}
