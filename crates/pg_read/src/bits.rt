//! Reading bit strings.
ghost use Rattle.std.specs.Prelude.{◌≡◌};
ghost use Rattle.pg_base.specs.Bits.{FormBits, accepted_bits, ReadsBits, first_fault_bits};
ghost use Rattle.pg_base.proofs.BitsLaws.{bits_grammar};
ghost use Rattle.pg_base.proofs.SamenessLaws.{equal_equivalence};
ghost use Rattle.pg_read.specs.Reading.{NullAlone};
ghost use Rattle.pg_read.specs.Laws.Reading.{plain_single};

use crate::from_sql::FromSql;
use pg_base::acceptance::is_bits;
use pg_base::bits::BitVec;
use pg_base::fault::Fault;
use pg_base::protocol::varbit_from_sql;
use pg_base::types::PgType;
use std::alloc::Global;

/// Reads BIT and VARBIT: the number of bits in 4 bytes, big-endian, and as many bytes as they take,
/// the first bit being the most significant one of the first byte (`bit_recv`, `varbit_recv`). A
/// truncated number is refused with `Size`, a negative one with `Count`, any other number of bytes
/// with `Size`, and NULL with `WasNull`.
impl<'a> FromSql<'a> for BitVec {
    ghost same = { λ v w. v ≡ w };

    ghost accepted = { accepted_bits };

    ghost reads = { λ _. ReadsBits (λ v. v) };

    ghost memory_free = { NullAlone };

    ghost equivalence = { equal_equivalence };

    ghost single = { λ _ _. plain_single (λ v w. v ≡ w) (FormBits (λ v. v)) first_fault_bits (bits_grammar (λ v. v)) };

    fn from_sql(alloc: Global, _ty: &PgType, raw: &'a [u8]) -> Result<BitVec, Fault> {
        BitVec::from_varbit(alloc, varbit_from_sql(raw)?)
    }

    fn from_sql_null(_alloc: Global, _ty: &PgType) -> Result<BitVec, Fault> {
        Err(Fault::WasNull)
    }

    fn accepts(ty: &PgType) -> bool {
        is_bits(ty)
    }
}
