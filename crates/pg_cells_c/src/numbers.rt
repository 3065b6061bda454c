//! Integers, booleans and log sequence numbers.
#![tactic(auto, using(crate::proofs::ReadingSteps::reads_into))]

ghost use Rattle.std.specs.Prelude.{◌∷◌, [], if◌then◌else◌};
ghost use Rattle.std.specs.Int.{w8, w16, w32, w64, to_be_bytes};
ghost use Rattle.pg_base.specs.Cells.{be};
ghost use Rattle.pg_base.specs.Formats.{Decodes};
ghost use Rattle.pg_base.specs.Numbers.{FormBool, FormSigned, FormUnsigned, first_fault_number};
ghost use Rattle.pg_cells_c.specs.Readings.{ReadsInto};
ghost use Rattle.pg_cells_c.specs.Writings.{WritesInto};

use crate::buffers::write;
use crate::store::store;
use pg_base::protocol::{
    bool_from_sql, char_from_sql, int2_from_sql, int4_from_sql, int8_from_sql, lsn_from_sql,
    oid_from_sql,
};

/// Reads BOOL (`boolrecv`).
#[unsafe(no_mangle)]
pub extern "C" fn pgc_bool_read(cell: &[u8], value: &mut bool) -> u32
    ensures { ReadsInto (Decodes FormBool (first_fault_number 1) cell.now) value.old value.new result }
{
    store(bool_from_sql(cell), value)
}

/// Writes BOOL (`boolsend`).
#[unsafe(no_mangle)]
pub extern "C" fn pgc_bool_write(value: bool, out: &mut [u8]) -> usize
    ensures { WritesInto ((if value then 1 else 0) ∷ []) out.old out.new result }
{
    write(&[value.into()], out)
}

/// Reads CHAR, the one-byte type `"char"` (`charrecv`).
#[unsafe(no_mangle)]
pub extern "C" fn pgc_char_read(cell: &[u8], value: &mut i8) -> u32
    ensures { ReadsInto (Decodes (FormSigned w8) (first_fault_number 1) cell.now) value.old value.new result }
{
    store(char_from_sql(cell), value)
}

/// Writes CHAR, the one-byte type `"char"` (`charsend`).
#[unsafe(no_mangle)]
pub extern "C" fn pgc_char_write(value: i8, out: &mut [u8]) -> usize
    ensures { WritesInto (be w8 value) out.old out.new result }
{
    write(&value.to_be_bytes(), out)
}

/// Reads INT2 (`int2recv`).
#[unsafe(no_mangle)]
pub extern "C" fn pgc_int2_read(cell: &[u8], value: &mut i16) -> u32
    ensures { ReadsInto (Decodes (FormSigned w16) (first_fault_number 2) cell.now) value.old value.new result }
{
    store(int2_from_sql(cell), value)
}

/// Writes INT2 (`int2send`).
#[unsafe(no_mangle)]
pub extern "C" fn pgc_int2_write(value: i16, out: &mut [u8]) -> usize
    ensures { WritesInto (be w16 value) out.old out.new result }
{
    write(&value.to_be_bytes(), out)
}

/// Reads INT4 (`int4recv`).
#[unsafe(no_mangle)]
pub extern "C" fn pgc_int4_read(cell: &[u8], value: &mut i32) -> u32
    ensures { ReadsInto (Decodes (FormSigned w32) (first_fault_number 4) cell.now) value.old value.new result }
{
    store(int4_from_sql(cell), value)
}

/// Writes INT4 (`int4send`).
#[unsafe(no_mangle)]
pub extern "C" fn pgc_int4_write(value: i32, out: &mut [u8]) -> usize
    ensures { WritesInto (be w32 value) out.old out.new result }
{
    write(&value.to_be_bytes(), out)
}

/// Reads INT8 (`int8recv`).
#[unsafe(no_mangle)]
pub extern "C" fn pgc_int8_read(cell: &[u8], value: &mut i64) -> u32
    ensures { ReadsInto (Decodes (FormSigned w64) (first_fault_number 8) cell.now) value.old value.new result }
{
    store(int8_from_sql(cell), value)
}

/// Writes INT8 (`int8send`).
#[unsafe(no_mangle)]
pub extern "C" fn pgc_int8_write(value: i64, out: &mut [u8]) -> usize
    ensures { WritesInto (be w64 value) out.old out.new result }
{
    write(&value.to_be_bytes(), out)
}

/// Reads OID (`oidrecv`).
#[unsafe(no_mangle)]
pub extern "C" fn pgc_oid_read(cell: &[u8], value: &mut u32) -> u32
    ensures { ReadsInto (Decodes (FormUnsigned w32) (first_fault_number 4) cell.now) value.old value.new result }
{
    store(oid_from_sql(cell), value)
}

/// Writes OID (`oidsend`).
#[unsafe(no_mangle)]
pub extern "C" fn pgc_oid_write(oid: u32, out: &mut [u8]) -> usize
    ensures { WritesInto (to_be_bytes w32 oid) out.old out.new result }
{
    write(&oid.to_be_bytes(), out)
}

/// Reads PG_LSN (`pg_lsn_recv`).
#[unsafe(no_mangle)]
pub extern "C" fn pgc_lsn_read(cell: &[u8], value: &mut u64) -> u32
    ensures { ReadsInto (Decodes (FormUnsigned w64) (first_fault_number 8) cell.now) value.old value.new result }
{
    store(lsn_from_sql(cell), value)
}

/// Writes PG_LSN (`pg_lsn_send`).
#[unsafe(no_mangle)]
pub extern "C" fn pgc_lsn_write(lsn: u64, out: &mut [u8]) -> usize
    ensures { WritesInto (to_be_bytes w64 lsn) out.old out.new result }
{
    write(&lsn.to_be_bytes(), out)
}
