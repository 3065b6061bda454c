//! Reading a cell and writing it again.
ghost use Rattle.std.specs.Prelude.{◌≡◌, ◌≤◌, Ok, Err, IsTrue, false, codes};
ghost use Rattle.postgres_types.specs.ReadingBack.{WritesCell};
ghost use Rattle.postgres_types.specs.Rewriting.{IsCellOf, IsRewrittenAsItself, Rewrites};
ghost use Rattle.pg_types.specs.Content.{content, IsBuiltIn};
ghost use Rattle.pg_types.specs.Faults.{NeverMemory, wrong_type};
ghost use Rattle.pg_write.specs.Writing.{Writes, appended_len};
ghost use Rattle.pg_base.specs.Appending.{KeepsCapacity};
ghost use Rattle.pg_base.specs.Cells.{cell_of};

use crate::paired::Paired;
use bytes::BytesMut;
use pg_base::fault::Fault;
use pg_base::format::IsNull;
use pg_base::types::PgType;
use pg_read::from_sql::{FromSql, from_sql_nullable};
use pg_write::to_sql::{ToSql, wrong_type};
use std::alloc::Global;

/// Reads the cell (`None` is NULL) as a `T`, and appends the cell of the value.
///
/// It fails with `WrongType` and the name `rewrite` if `T` does not accept the type, and then with
/// the fault of reading or of writing. An error leaves the buffer's bytes as they were. The cell
/// that it appends is read as the same value, and rewriting it gives the same cell. If the cell is
/// read without memory, writing the value needs only the room of its cell (`by_room`), and the buffer
/// has that room, the call never fails with `Memory`.
pub fn rewrite<'a, T: Paired<'a>>(
    alloc: Global,
    ty: &PgType,
    raw: Option<&'a [u8]>,
    out: &mut BytesMut,
) -> Result<IsNull, Fault>
    ensures refuses { T.FromSql.accepted (content ty.now) ≡ false
        → Writes (Err (wrong_type (content ty.now) (codes "rewrite"))) out.old.items out.new.items result }
    ensures never_memory { T.FromSql.accepted (content ty.now) ≡ false → IsBuiltIn (content ty.now)
        → NeverMemory result }
    ensures rewrites { IsTrue (T.FromSql.accepted (content ty.now))
        → Rewrites (T.reads (content ty.now)) (T.wire (content ty.now)) (cell_of raw.entry)
        out.old.items out.new.items result }
    ensures written { IsTrue (T.FromSql.accepted (content ty.now))
        → (v : T) → T.reads (content ty.now) (cell_of raw.entry) (Ok v)
        → WritesCell (IsCellOf (T.reads (content ty.now))
        (T.wire (content ty.now)) v) out.old.items out.new.items result }
    ensures again { IsTrue (T.FromSql.accepted (content ty.now))
        → WritesCell (IsRewrittenAsItself (T.reads (content ty.now))
        (T.wire (content ty.now))) out.old.items out.new.items result }
    ensures room { IsTrue (T.FromSql.accepted (content ty.now)) → T.memory_free (cell_of raw.entry)
        → ((v : T) → T.reads (content ty.now) (cell_of raw.entry) (Ok v)
        → T.by_room v × (appended_len (T.wire (content ty.now) v) ≤ out.old.spare)) → NeverMemory result }
    ensures capacity { KeepsCapacity out.old out.new }
{
    if !<T as FromSql<'a>>::accepts(ty) {
        return Err(wrong_type(ty, "rewrite"));
    }
    let value: T = from_sql_nullable(alloc, ty, raw)?;
    value.to_sql(alloc, ty, out)
}
