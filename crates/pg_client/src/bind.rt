//! The parameters of a Bind message.
ghost use Rattle.std.specs.Prelude.{◌≡◌, ◌≤◌, ◌+◌, ◌++◌, List, [], ℕ, IfErr, IfOk, IsTrue, OnErr, OnOk, length};
ghost use Rattle.std.specs.Borrow.{sem};
ghost use Rattle.pg_base.specs.Appending.{KeepsCapacity};
ghost use Rattle.pg_base.specs.Cells.{Cell};
ghost use Rattle.pg_types.specs.Content.{content};
ghost use Rattle.pg_types.specs.Faults.{NeverMemory};
ghost use Rattle.pg_client.specs.Places.{NeverMemoryAt};
ghost use Rattle.pg_client.specs.BindBytes.{all_binary, with_count};
ghost use Rattle.postgres_types.specs.ParamWriting.{AppendsFrame, frame_len};
ghost use Rattle.postgres_types.specs.Writing.{checked};

use crate::placed_fault::{Place, PlacedFault};
use crate::row_writer::append_binary;
use postgres_types::{BytesMut, Fault, ToSql, Type};

/// The greatest number of parameters of a Bind message: it is an unsigned number of 2 bytes.
pub const MAX_PARAMS: u16 = 65_535;

/// One format code for all: that of the binary format.
pub(crate) const ALL_BINARY: [u8; 4] = [0, 1, 0, 1];

/// The same format code, followed by 2 bytes for the number of parameters.
const HEAD: [u8; 6] = [0, 1, 0, 1, 0, 0];

/// The parameters of a Bind message, which are appended to a buffer: one format code for all of
/// them, their number in 2 bytes, the frame of each one's cell, and one format code for all result
/// columns. The format code is 1 in 2 bytes, that of the binary format. The numbers are big-endian.
///
/// The caller appends what precedes them in the message: the portal and the statement.
/// [`finish`](Bind::finish) sets the number of parameters: until then the message in the buffer is
/// incomplete. [`cancel`](Bind::cancel) removes it.
#[derive(Debug, Drop)]
pub struct Bind<'b> {
    out: &'b mut BytesMut,
    /// The offset of the number of parameters.
    at: usize,
    /// The number of parameters that were pushed.
    count: u16,
    ghost placed: { at + 2 ≤ length out.now.items },
}

impl<'b> Bind<'b> {
    ghost use Rattle.pg_client.specs.Binding.{Binds, BindsMore, HoldsBind, PushesFrame};
    ghost use Rattle.pg_client.specs.Binding.{count_of, keeps_if_refused, out_of, param_wire};

    /// Starts an empty list of parameters at the end of the buffer. `Memory`, at [`Place::Bind`],
    /// leaves its bytes as they were.
    pub fn new(out: &'b mut BytesMut) -> Result<Bind<'b>, PlacedFault>
        ensures* kept { sem 𝓛 (keeps_if_refused out.entry result) }
        ensures binds { IfOk result (Binds out.old.items []) }
        ensures same_reference { IfOk result (λ bind. (out_of bind).ghost_name ≡ out.entry.ghost_name) }
        ensures err { IfErr result (λ fault. fault ≡ record { place = Place.Bind; fault = Fault.Memory }) }
    {
        let at = push_head(out)?;
        Ok(Bind { out, at, count: 0 })
    }

    /// Appends the frame of the value, owned or borrowed, as [`frame_value`] does.
    ///
    /// An error has the place of the parameter, counted from 0, and the fault of its checked
    /// writing; `Transmit` if its cell exceeds 2,147,483,647 bytes, or if there are already
    /// [`MAX_PARAMS`] parameters; or `User`, with the text `value in text format`, if its
    /// conversion writes the text format. An error, `Memory` included, leaves the buffer's bytes as
    /// they were, and further parameters can be pushed. If the buffer has room for the frame, and
    /// writing the value needs only that room (`by_room`), the call never fails with `Memory`.
    pub fn push<T: ToSql>(&mut self, value: &T, ty: &Type) -> Result<(), PlacedFault>
        ensures same_reference { (out_of self.new).ghost_name ≡ (out_of self.old).ghost_name }
        ensures frame { PushesFrame (Place.Parameter (count_of self.old)) (param_wire (count_of self.old)
            (T.format (content ty.now) value.now) (checked T.accepted T.name T.wire (content ty.now) value.now))
            (out_of self.old).now.items (out_of self.new).now.items result }
        ensures room { T.by_room value.now → IsTrue (T.accepted (content ty.now))
            → frame_len (T.wire (content ty.now) value.now) ≤ (out_of self.old).now.spare → NeverMemoryAt result }
        ensures capacity { KeepsCapacity (out_of self.old).now (out_of self.new).now }
        ensures binds { (before : List ℕ) (cells : List Cell) → Binds before cells self.old
            → BindsMore (param_wire (count_of self.old) (T.format (content ty.now) value.now)
            (checked T.accepted T.name T.wire (content ty.now) value.now)) before cells self.new result }
    {
        let place = usize::from(self.count);
        match self.append(value, ty) {
            Ok(()) => Ok(()),
            Err(fault) => Err(PlacedFault::new(Place::Parameter(place), fault)),
        }
    }

    /// Appends the frame of the value, and counts it.
    fn append<T: ToSql>(&mut self, value: &T, ty: &Type) -> Result<(), Fault>
        ensures same_reference { self.new.out.ghost_name ≡ self.old.out.ghost_name }
        ensures frame { AppendsFrame (param_wire self.old.count (T.format (content ty.now) value.now)
            (checked T.accepted T.name T.wire (content ty.now) value.now))
            self.old.out.now.items self.new.out.now.items result }
        ensures room { T.by_room value.now → IsTrue (T.accepted (content ty.now))
            → frame_len (T.wire (content ty.now) value.now) ≤ self.old.out.now.spare → NeverMemory result }
        ensures capacity { KeepsCapacity self.old.out.now self.new.out.now }
        ensures at { self.new.at ≡ self.old.at }
        ensures counted { OnOk result (self.new.count ≡ self.old.count + 1) }
        ensures kept { OnErr result (self.new.count ≡ self.old.count) }
    {
        if self.count == MAX_PARAMS {
            return Err(Fault::Transmit);
        }
        append_binary(value, ty, self.out)?;
        self.count += 1;
        Ok(())
    }

    /// Sets the number of parameters, and appends the format code of the result columns. `Memory`,
    /// at [`Place::Bind`], leaves the bytes as they were.
    pub fn finish(self) -> Result<(), PlacedFault>
        ensures ok { OnOk result ((before : List ℕ) (cells : List Cell) → Binds before cells self.entry
            → HoldsBind before cells self.exit.0.now.items) }
        ensures err { IfErr result (λ fault. (self.exit.0.now.items ≡ (out_of self.entry).now.items)
            × (fault ≡ record { place = Place.Bind; fault = Fault.Memory })) }
    {
        let Bind { out, at, count } = self;
        end(at, count, out)
    }

    /// Gives back the buffer with the bytes that it had before the parameters.
    pub fn cancel(self)
        ensures { (before : List ℕ) (cells : List Cell) → Binds before cells self.entry
            → self.exit.0.now.items ≡ before }
    {
        let start = self.at.saturating_sub(ALL_BINARY.len());
        self.out.truncate(start);
    }
}

/// Appends the format code of the parameters and 0 as their number, and returns the offset of the
/// number.
fn push_head(out: &mut BytesMut) -> Result<usize, PlacedFault>
    ensures ok { IfOk result (λ at. (at ≡ length out.old.items + 4)
        × (out.new.items ≡ out.old.items ++ HEAD)) }
    ensures err { IfErr result (λ fault. (out.new.items ≡ out.old.items)
        × (fault ≡ record { place = Place.Bind; fault = Fault.Memory })) }
{
    let at = out.len() + ALL_BINARY.len();
    match out.extend_from_slice(&HEAD) {
        Ok(()) => Ok(at),
        Err(_) => Err(PlacedFault::new(Place::Bind, Fault::Memory)),
    }
}

/// Appends the format code of the result columns, and sets the number of parameters.
fn end(at: usize, count: u16, out: &mut BytesMut) -> Result<(), PlacedFault>
    requires { at + 2 ≤ length out.old.items }
    ensures ok { OnOk result (out.new.items ≡ with_count at count (out.old.items ++ all_binary)) }
    ensures err { IfErr result (λ fault. (out.new.items ≡ out.old.items)
        × (fault ≡ record { place = Place.Bind; fault = Fault.Memory })) }
{
    if out.extend_from_slice(&ALL_BINARY).is_err() {
        return Err(PlacedFault::new(Place::Bind, Fault::Memory));
    }
    set_count(at, count, out);
    Ok(())
}

/// Overwrites the 2 bytes from offset `at` with the number, big-endian.
fn set_count(at: usize, count: u16, out: &mut BytesMut)
    requires { at + 2 ≤ length out.old.items }
    ensures { out.new.items ≡ with_count at count out.old.items }
{
    out.as_mut_slice()[at..at + 2].copy_from_slice(&count.to_be_bytes());
}
