//! Writing a record.
ghost use Rattle.std.specs.Prelude.{◌≡◌, ◌≤◌, ◌+◌, IsTrue};
ghost use Rattle.pg_types.specs.Content.{content, oid_of};
ghost use Rattle.pg_types.specs.Faults.{NeverMemory};
ghost use Rattle.pg_base.specs.Appending.{KeepsCapacity};
ghost use Rattle.pg_base.specs.Counts.{count_bytes, number_width};
ghost use Rattle.pg_write.specs.ParamWriting.{frame_len};
ghost use Rattle.postgres_types.specs.Records.{AppendsBytes, field_bytes, or_transmit};

use bytes::{BufMut, BytesMut};
use pg_base::fault::Fault;
use pg_base::protocol::MAX_LEN;
use pg_base::types::PgType;
use pg_write::params::frame_value;
use pg_write::to_sql::ToSql;
use std::alloc::Global;

/// Appends the number of fields of a record, in 4 bytes, big-endian. It fails with `Transmit` if
/// the number exceeds 2,147,483,647. An error, `Memory` included, leaves the buffer's bytes as they
/// were. With room for 4 bytes it never fails with `Memory`.
pub fn field_count_to_sql(_alloc: Global, count: usize, out: &mut BytesMut) -> Result<(), Fault>
    ensures bytes { AppendsBytes (or_transmit (count_bytes count)) out.old.items out.new.items result }
    ensures room { number_width ≤ out.old.spare → NeverMemory result }
    ensures capacity { KeepsCapacity out.old out.new }
{
    if count > MAX_LEN {
        return Err(Fault::Transmit);
    }
    out.put_i32(count as i32)?;
    Ok(())
}

/// Appends a field of a record: the OID of its type, in 4 bytes, big-endian, and the frame of the
/// value's cell. The type must be accepted.
///
/// It fails with the fault of writing the value, or with `Transmit` if its cell exceeds
/// 2,147,483,647 bytes. An error, `Memory` included, leaves the buffer's bytes as they were. If the
/// buffer has room for the field, and writing the value needs only that of its cell (`by_room`), it
/// never fails with `Memory`.
pub fn field_to_sql<T: ToSql>(
    alloc: Global,
    value: &T,
    ty: &PgType,
    out: &mut BytesMut,
) -> Result<(), Fault>
    requires { IsTrue (T.accepted (content ty.now)) }
    ensures bytes { AppendsBytes (field_bytes (oid_of (content ty.now)) (T.wire (content ty.now) value.now))
        out.old.items out.new.items result }
    ensures room { T.by_room value.now → number_width + frame_len (T.wire (content ty.now) value.now) ≤ out.old.spare
        → NeverMemory result }
    ensures capacity { KeepsCapacity out.old out.new }
{
    let start = out.len();
    out.put_u32(ty.oid())?;
    match frame_value(alloc, value, ty, out) {
        Ok(()) => Ok(()),
        Err(fault) => {
            out.truncate(start);
            Err(fault)
        }
    }
}
