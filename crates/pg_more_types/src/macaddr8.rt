//! MACADDR8.
ghost use Rattle.std.specs.Prelude.{◌≡◌, ◌↔◌, ℕ, IsTrue, List, true};
ghost use Rattle.pg_base.proofs.FixedBytesLaws.{fixed_bytes_grammar};
ghost use Rattle.pg_base.specs.FixedBytes.{FormFixedBytes, ReadsFixedBytes, wire_fixed_bytes};
ghost use Rattle.pg_base.specs.Numbers.{first_fault_number};
ghost use Rattle.pg_more_types.specs.Macaddr8.{is_macaddr8};
ghost use Rattle.pg_types.specs.Content.{content};
ghost use Rattle.postgres_types.specs.Conversion.{BackKept, EveryCell, codes, equal_equivalence, plain_single, refl};
ghost use Rattle.postgres_types.specs.Laws.FixedBytesBack.{fixed_bytes_lawful};

mod text;

use postgres_types::private::BytesMut;
use postgres_types::protocol::bytea_to_sql;
use postgres_types::{Fault, Format, FromSql, IsNull, Paired, ToSql, Type, check_type};
use std::alloc::Global;
use std::marker::Model;

/// A MAC address in the format EUI-64: 8 bytes.
#[derive(Debug, Clone, Copy, PartialEq, Eq)]
pub struct MacAddress8([u8; 8]);

impl Model for MacAddress8 {
    ghost Value = { List ℕ };

    ghost view = { λ a. a.0 };

    ghost inverse = { λ bytes. record { 0 = bytes } };
}

impl MacAddress8 {
    /// Creates a MAC address from its bytes, in the order of its text.
    pub fn new(bytes: [u8; 8]) -> MacAddress8
        ensures { result ≡ bytes }
    {
        MacAddress8(bytes)
    }

    /// Returns the bytes of the MAC address, in the order of its text.
    pub fn to_array(&self) -> [u8; 8]
        ensures { result ≡ self.now }
    {
        self.0
    }
}

/// Whether two MAC addresses are equal: of the same bytes.
pub fn same_mac_address8(a: &MacAddress8, b: &MacAddress8) -> bool
    ensures { IsTrue result ↔ (a.now ≡ b.now) }
{
    *a == *b
}

/// Whether the type is MACADDR8.
fn is_macaddr8(ty: &Type) -> bool
    ensures { result ≡ is_macaddr8 (content ty.now) }
{
    ty.oid() == 774
}

/// Reads MACADDR8: 8 bytes, in the order of its text, as `macaddr8_send` writes them. Any other
/// length is refused with `Size` (`macaddr8_recv` takes the 6 bytes of MACADDR, too), and NULL with
/// `WasNull`.
///
/// It accepts the type with the OID 774.
impl<'a> FromSql<'a> for MacAddress8 {
    ghost same = { λ v w. v ≡ w };

    ghost accepted = { is_macaddr8 };

    ghost reads = { λ _. ReadsFixedBytes 8 };

    ghost memory_free = { EveryCell };

    ghost equivalence = { equal_equivalence };

    ghost single = { λ _ _. plain_single (λ v w. v ≡ w) (FormFixedBytes 8) (first_fault_number 8)
        (fixed_bytes_grammar 8) };

    fn from_sql(_alloc: Global, _ty: &Type, raw: &'a [u8]) -> Result<MacAddress8, Fault> {
        match <[u8; 8]>::try_from(raw) {
            Ok(bytes) => Ok(MacAddress8(bytes)),
            Err(_) => Err(Fault::Size),
        }
    }

    fn from_sql_null(_alloc: Global, _ty: &Type) -> Result<MacAddress8, Fault> {
        Err(Fault::WasNull)
    }

    fn accepts(ty: &Type) -> bool {
        is_macaddr8(ty)
    }
}

/// Writes MACADDR8: 8 bytes, in the order of its text (`macaddr8_send`).
impl ToSql for MacAddress8 {
    ghost accepted = { is_macaddr8 };

    ghost name = { codes "MacAddress8" };

    ghost wire = { λ _ v. wire_fixed_bytes 8 v };

    ghost by_room = { λ _. Unit {0} };

    ghost refuses_memory_free = { true };

    fn to_sql(&self, alloc: Global, _ty: &Type, out: &mut BytesMut) -> Result<IsNull, Fault> {
        bytea_to_sql(alloc, &self.0, out)?;
        Ok(IsNull::No)
    }

    fn accepts(ty: &Type) -> bool {
        is_macaddr8(ty)
    }

    fn to_sql_checked(
        &self,
        alloc: Global,
        ty: &Type,
        out: &mut BytesMut,
    ) -> Result<IsNull, Fault> {
        check_type(<MacAddress8 as ToSql>::accepts(ty), ty, "MacAddress8")?;
        self.to_sql(alloc, ty, out)
    }

    fn encode_format(&self, _ty: &Type) -> Format {
        Format::Binary
    }
}

/// A MAC address is read back as itself.
impl<'a> Paired<'a> for MacAddress8 {
    ghost back = { λ _. BackKept (λ v w. v ≡ w) };

    ghost types = { λ _. refl };

    ghost lawful = { λ _ _. fixed_bytes_lawful 8 };
}
