//! Writing parameters of any types, as a Bind message frames them.
ghost use Rattle.std.specs.Prelude.{◌≡◌, ◌≤◌, ◌+◌, ◌++◌, IfErr, IfOk, IsSome, IsTrue, drop, length, take, zip};
ghost use Rattle.std.specs.Int.{to_be_bytes, w32};
ghost use Rattle.std.specs.List.{AllByRecursion};
ghost use Rattle.pg_base.specs.Appending.{KeepsCapacity};
ghost use Rattle.pg_types.specs.Content.{content};
ghost use Rattle.pg_types.specs.Faults.{NeverMemory, refusal_of};
ghost use Rattle.pg_write.specs.ParamWriting.{AppendsFrame, AppendsFrameOrPart, Binds, FramesFrom};
ghost use Rattle.pg_write.specs.ParamWriting.{HadNoRoom, frame_len, frames_len};
ghost use Rattle.pg_write.specs.Writing.{Writes, checked};

use crate::to_sql::ToSql;
use bytes::{BufMut, BytesMut};
use pg_base::fault::Fault;
use pg_base::format::IsNull;
use pg_base::protocol::{MAX_LEN, set_number};
use pg_base::types::PgType;
use std::alloc::Global;

/// The number of bytes of a length prefix.
const LEN: usize = 4;

/// Appends the frame of the value, as it is a field of a binary COPY or a parameter of a Bind
/// message: the length of its cell in 4 bytes, big-endian, and the bytes of the cell. The frame of
/// NULL is the length -1.
///
/// It fails with the fault of checked writing, or with `Transmit` if the cell exceeds 2,147,483,647
/// bytes. An error, `Memory` included, leaves the buffer's bytes as they were.
///
/// The buffer's capacity never shrinks, and `Ok` uses no more spare room than the frame has bytes.
/// If the buffer has room for the frame, and writing the value needs only that room (`by_room`),
/// the call never fails with `Memory`.
#[tactic(auto, using(crate::proofs::ParamRoom::follows_takes, crate::proofs::ParamRoom::with_room))]
pub fn frame_value<T: ToSql>(
    alloc: Global,
    value: &T,
    ty: &PgType,
    out: &mut BytesMut,
) -> Result<(), Fault>
    ensures frame { AppendsFrame (checked T.accepted T.name T.wire (content ty.now) value.now)
        out.old.items out.new.items result }
    ensures room { T.by_room value.now → IsTrue (T.accepted (content ty.now))
        → frame_len (T.wire (content ty.now) value.now) ≤ out.old.spare → NeverMemory result }
    ensures spare { IfOk result (λ _. out.old.spare ≤ out.new.spare
        + frame_len (checked T.accepted T.name T.wire (content ty.now) value.now)) }
    ensures capacity { KeepsCapacity out.old out.new }
{
    let start = out.len();
    match value_to_sql(alloc, value, ty, out) {
        Ok(()) => Ok(()),
        Err(fault) => {
            out.truncate(start);
            Err(fault)
        }
    }
}

/// Appends the frame of the value. An error leaves what was appended so far.
#[inline(always)]
fn value_to_sql<T: ToSql>(
    alloc: Global,
    value: &T,
    ty: &PgType,
    out: &mut BytesMut,
) -> Result<(), Fault>
    ensures frame { AppendsFrameOrPart (checked T.accepted T.name T.wire (content ty.now) value.now)
        out.old.items out.new.items result }
    ensures room { T.by_room value.now → IsTrue (T.accepted (content ty.now))
        → IfErr result (HadNoRoom (frame_len (T.wire (content ty.now) value.now)) out.old.spare) }
    ensures capacity { KeepsCapacity out.old out.new }
{
    let start = out.len();
    // The frame of NULL; its length is corrected when a cell follows.
    out.put_i32(-1)?;
    // A match moves only the fault, while `?` would move every result.
    let is_null = match value.to_sql_checked(alloc, ty, out) {
        Ok(is_null) => is_null,
        Err(fault) => return Err(fault),
    };
    if let IsNull::Yes = is_null {
        return Ok(());
    }
    frame_from(start, out)
}

/// Appends the frames of the parameters in their order, each written for the type at its index: the
/// length of its cell in 4 bytes, big-endian, and the bytes of the cell. The frame of NULL is the
/// length -1.
///
/// The lists must have the same length. An error has the index, counted from 0, of the first
/// parameter that is refused, with the fault of its checked writing, or with `Transmit` if its cell
/// exceeds 2,147,483,647 bytes. An error, `Memory` included, leaves the buffer's bytes as they
/// were.
///
/// The buffer's capacity never shrinks. If the buffer has room for all frames, and writing each
/// value needs only that room (`by_room`), the call never fails with `Memory`.
pub fn params_to_sql(
    alloc: Global,
    params: &[Box<dyn ToSql>],
    types: &[PgType],
    out: &mut BytesMut,
) -> Result<(), (usize, Fault)>
    requires { length params.now ≡ length types.now }
    ensures frames { Binds (λ p. checked (ToSql-box p.0).ToSql.accepted (ToSql-box p.0).ToSql.name
        (ToSql-box p.0).ToSql.wire (content p.1) p.0.value)
        (zip params.now types.now) out.old.items out.new.items result }
    ensures room { AllByRecursion (λ p. (ToSql-box p.0).ToSql.by_room p.0.value
        × IsTrue ((ToSql-box p.0).ToSql.accepted (content p.1))) (zip params.now types.now)
        → frames_len (λ p. (ToSql-box p.0).ToSql.wire (content p.1) p.0.value) (zip params.now types.now)
        ≤ out.old.spare → IfErr result (λ e. IsSome (refusal_of e.1)) }
    ensures capacity { KeepsCapacity out.old out.new }
{
    let start = out.len();
    for place in 0..params.len() {
        if let Err(fault) = param_to_sql(alloc, &params[place], &types[place], out) {
            out.truncate(start);
            return Err((place, fault));
        }
    }
    Ok(())
}

/// Appends the frame of the parameter. An error leaves what was appended so far.
#[inline(always)]
fn param_to_sql(
    alloc: Global,
    param: &Box<dyn ToSql>,
    ty: &PgType,
    out: &mut BytesMut,
) -> Result<(), Fault>
    ensures frame { AppendsFrameOrPart (checked (ToSql-box param.now).ToSql.accepted (ToSql-box param.now).ToSql.name
        (ToSql-box param.now).ToSql.wire (content ty.now) param.now.value)
        out.old.items out.new.items result }
    ensures room { (ToSql-box param.now).ToSql.by_room param.now.value
        → IsTrue ((ToSql-box param.now).ToSql.accepted (content ty.now))
        → IfErr result (HadNoRoom (frame_len ((ToSql-box param.now).ToSql.wire (content ty.now) param.now.value))
        out.old.spare) }
    ensures capacity { KeepsCapacity out.old out.new }
{
    let start = out.len();
    // The frame of NULL; its length is corrected when a cell follows.
    out.put_i32(-1)?;
    match param.to_sql_checked(alloc, ty, out) {
        Ok(IsNull::Yes) => Ok(()),
        Ok(IsNull::No) => frame_from(start, out),
        Err(fault) => Err(fault),
    }
}

/// Makes a frame of the bytes from `start` on: the first 4 become the length of the others.
#[inline(always)]
pub(crate) fn frame_from(start: usize, out: &mut BytesMut) -> Result<(), Fault>
    requires { start + LEN ≤ length out.old.items }
    ensures frame { FramesFrom start out.old.items out.new.items result }
    ensures capacity { KeepsCapacity out.old out.new }
{
    let len = out.len() - start - LEN;
    if len > MAX_LEN {
        return Err(Fault::Transmit);
    }
    set_number(start, len as u32, out);
    Ok(())
}
