//! Writing bit strings.
ghost use Rattle.std.specs.Prelude.{true, codes};
ghost use Rattle.pg_base.specs.Bits.{accepted_bits, wire_bits};

use crate::to_sql::{ToSql, check_type};
use bytes::BytesMut;
use pg_base::acceptance::is_bits;
use pg_base::bits::BitVec;
use pg_base::fault::Fault;
use pg_base::format::{Format, IsNull};
use pg_base::protocol::varbit_to_sql;
use pg_base::types::PgType;
use std::alloc::Global;

/// Writes BIT and VARBIT: the number of bits in 4 bytes, big-endian, and as many bytes as they
/// take, the first bit being the most significant one of the first byte, and the padding bits of
/// the last byte 0 (`bit_send`, `varbit_send`). More than 2,147,483,647 bits are refused with
/// `Transmit`.
impl ToSql for BitVec {
    ghost accepted = { accepted_bits };

    ghost name = { codes "BitVec" };

    ghost wire = { λ _ v. wire_bits v };

    ghost by_room = { λ _. Unit {0} };

    ghost refuses_memory_free = { true };

    #[inline(always)]
    fn to_sql(&self, alloc: Global, _ty: &PgType, out: &mut BytesMut) -> Result<IsNull, Fault> {
        varbit_to_sql(alloc, self.len(), self.as_bytes(), out)?;
        Ok(IsNull::No)
    }

    fn accepts(ty: &PgType) -> bool {
        is_bits(ty)
    }

    fn to_sql_checked(
        &self,
        alloc: Global,
        ty: &PgType,
        out: &mut BytesMut,
    ) -> Result<IsNull, Fault> {
        check_type(Self::accepts(ty), ty, "BitVec")?;
        self.to_sql(alloc, ty, out)
    }

    fn encode_format(&self, _ty: &PgType) -> Format {
        Format::Binary
    }
}
