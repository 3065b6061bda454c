//! Reading a record.
ghost use Rattle.std.specs.Prelude.{◌≡◌, [], ◌∷◌, IsTrue, length};
ghost use Rattle.pg_types.specs.Content.{content, fields_content, kind_of, oid_of};
ghost use Rattle.pg_base.specs.Counts.{no_trailing};
ghost use Rattle.pg_base.specs.Formats.{first_fault_of};
ghost use Rattle.postgres_types.specs.Records.{PassesCheck, ReadsNext, PassesNumber, count_fault, count_of};
ghost use Rattle.postgres_types.specs.Records.{fields_of_kind, oid_fault};

use pg_base::fault::Fault;
use pg_base::types::{Field, KindRef, PgType};
use pg_read::from_sql::FromSql;
use pg_read::private::{read_be_i32, read_value};
use std::alloc::Global;

/// Returns the fields of a composite type; another type has none.
#[inline(always)]
#[tactic(auto, using(crate::proofs::RecordSteps::counted))]
pub fn fields_of(ty: &PgType) -> &[Field]
    ensures fields { fields_content result.now ≡ fields_of_kind (kind_of (content ty.now)) }
    ensures count { length result.now ≡ count_of (fields_of_kind (kind_of (content ty.now))) }
{
    match ty.kind() {
        KindRef::Composite(fields) => fields,
        _ => &[],
    }
}

/// Reads the number of fields of a record, in 4 bytes, big-endian, which must be `count`, and
/// advances the slice past it.
///
/// If fewer bytes are left it returns `Size`, and the slice is unchanged. Any other number, also a
/// negative one, is refused with `FieldCount`, and the slice begins after it.
pub fn read_field_count(count: usize, buf: &mut &[u8]) -> Result<(), Fault>
    ensures { PassesNumber (count_fault count buf.old.now) buf.old.now result buf.new.now }
{
    let found = read_be_i32(buf)?;
    if found >= 0 && found as usize == count {
        Ok(())
    } else {
        Err(Fault::FieldCount)
    }
}

/// Reads the OID of the type of a field, in 4 bytes, big-endian.
fn read_field_oid(ty: &PgType, buf: &mut &[u8]) -> Result<(), Fault>
    ensures { PassesNumber (oid_fault (oid_of (content ty.now)) buf.old.now) buf.old.now result buf.new.now }
{
    let bytes = *buf;
    if bytes.len() < 4 {
        return Err(Fault::Size);
    }
    let (oid, rest) = bytes.split_at(4);
    *buf = rest;
    if oid == ty.oid().to_be_bytes().as_slice() {
        Ok(())
    } else {
        Err(Fault::FieldOid)
    }
}

/// Reads a field of a record from the front of the slice: the OID of its type, in 4 bytes,
/// big-endian, and then its value, as [`read_value`] does. The type must be accepted.
///
/// If the OID is truncated it returns `Size`, and the slice is unchanged. Any other OID is refused
/// with `FieldOid`, and the slice begins after it.
pub fn read_field<'a, T: FromSql<'a>>(
    alloc: Global,
    ty: &PgType,
    buf: &mut &'a [u8],
) -> Result<T, Fault>
    requires { IsTrue (T.accepted (content ty.now)) }
    ensures { ReadsNext (oid_fault (oid_of (content ty.now)) buf.old.now) (T.reads (content ty.now)) T.memory_free
        buf.old.now result buf.new.now }
{
    read_field_oid(ty, buf)?;
    read_value(alloc, ty, buf)
}

/// Checks the end of a record: trailing bytes after its last field are refused with `Size`.
pub fn read_end(raw: &[u8]) -> Result<(), Fault>
    ensures { PassesCheck (first_fault_of (no_trailing raw.now ∷ [])) result }
{
    if raw.is_empty() {
        Ok(())
    } else {
        Err(Fault::Size)
    }
}
