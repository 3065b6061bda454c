//! Reading IP addresses and MAC addresses.
ghost use Rattle.std.specs.Prelude.{◌≡◌};
ghost use Rattle.pg_types.specs.declared.types.built_in.BuiltIn.TheVariants.{Cidr, Inet, Macaddr};
ghost use Rattle.pg_types.specs.Content.{is_row};
ghost use Rattle.pg_base.specs.FixedBytes.{FormFixedBytes, ReadsFixedBytes};
ghost use Rattle.pg_base.specs.Network.{FormAddress, FormCidr, FormInet, ReadsAddress, ReadsCidr, ReadsInet};
ghost use Rattle.pg_base.specs.Network.{first_fault_cidr, first_fault_inet};
ghost use Rattle.pg_base.specs.Numbers.{first_fault_number};
ghost use Rattle.pg_base.proofs.FixedBytesLaws.{fixed_bytes_grammar};
ghost use Rattle.pg_base.proofs.NetworkLaws.{address_grammar, cidr_grammar, inet_grammar};
ghost use Rattle.pg_base.proofs.SamenessLaws.{equal_equivalence};
ghost use Rattle.pg_read.specs.Reading.{EveryCell};
ghost use Rattle.pg_read.specs.Laws.Reading.{plain_single};

use crate::from_sql::FromSql;
use pg_base::fault::Fault;
use pg_base::network::{IpCidr, IpInet, MacAddress};
use pg_base::protocol::{inet_from_sql, macaddr_from_sql};
use pg_base::types::PgType;
use std::alloc::Global;
use std::net::IpAddr;

/// Reads INET (`inet_recv`), in one byte each: the address family (2 for IPv4, 3 for IPv6), the
/// length of the netmask, a flag of any value, the number of octets, and the 4 or 16 octets. Only
/// the octets are kept. Fewer than 4 bytes are refused with `Size`, then another family with
/// `Family`, a netmask that is longer than the address with `Netmask`, another number of octets
/// than the family has with `AddressLength`, and any other number of bytes after it with `Size`.
/// NULL is refused with `WasNull`.
impl<'a> FromSql<'a> for IpAddr {
    ghost same = { λ v w. v ≡ w };

    ghost accepted = { is_row Inet };

    ghost reads = { λ _. ReadsAddress };

    ghost memory_free = { EveryCell };

    ghost equivalence = { equal_equivalence };

    ghost single = { λ _ _. plain_single (λ v w. v ≡ w) FormAddress first_fault_inet address_grammar };

    #[inline(always)]
    fn from_sql(_alloc: Global, _ty: &PgType, raw: &'a [u8]) -> Result<IpAddr, Fault> {
        Ok(inet_from_sql(raw)?.addr())
    }

    fn from_sql_null(_alloc: Global, _ty: &PgType) -> Result<IpAddr, Fault> {
        Err(Fault::WasNull)
    }

    fn accepts(ty: &PgType) -> bool {
        ty.is(&PgType::INET)
    }
}

/// Reads INET (`inet_recv`) as `IpAddr` does, with the netmask. NULL is refused with `WasNull`.
impl<'a> FromSql<'a> for IpInet {
    ghost same = { λ v w. v ≡ w };

    ghost accepted = { is_row Inet };

    ghost reads = { λ _. ReadsInet };

    ghost memory_free = { EveryCell };

    ghost equivalence = { equal_equivalence };

    ghost single = { λ _ _. plain_single (λ v w. v ≡ w) FormInet first_fault_inet inet_grammar };

    #[inline(always)]
    fn from_sql(_alloc: Global, _ty: &PgType, raw: &'a [u8]) -> Result<IpInet, Fault> {
        let inet = inet_from_sql(raw)?;
        IpInet::new(inet.addr(), inet.netmask())
    }

    fn from_sql_null(_alloc: Global, _ty: &PgType) -> Result<IpInet, Fault> {
        Err(Fault::WasNull)
    }

    fn accepts(ty: &PgType) -> bool {
        ty.is(&PgType::INET)
    }
}

/// Reads CIDR (`cidr_recv`) as `IpInet` reads INET; then a bit of the address after the netmask
/// that is 1 is refused with `HostBits`. NULL is refused with `WasNull`.
impl<'a> FromSql<'a> for IpCidr {
    ghost same = { λ v w. v ≡ w };

    ghost accepted = { is_row Cidr };

    ghost reads = { λ _. ReadsCidr };

    ghost memory_free = { EveryCell };

    ghost equivalence = { equal_equivalence };

    ghost single = { λ _ _. plain_single (λ v w. v ≡ w) FormCidr first_fault_cidr cidr_grammar };

    #[inline(always)]
    fn from_sql(_alloc: Global, _ty: &PgType, raw: &'a [u8]) -> Result<IpCidr, Fault> {
        let inet = inet_from_sql(raw)?;
        IpCidr::new(inet.addr(), inet.netmask())
    }

    fn from_sql_null(_alloc: Global, _ty: &PgType) -> Result<IpCidr, Fault> {
        Err(Fault::WasNull)
    }

    fn accepts(ty: &PgType) -> bool {
        ty.is(&PgType::CIDR)
    }
}

/// Reads MACADDR: 6 bytes, in the order of its text (`macaddr_recv`). Any other length is refused
/// with `Size`, and NULL with `WasNull`.
impl<'a> FromSql<'a> for MacAddress {
    ghost same = { λ v w. v ≡ w };

    ghost accepted = { is_row Macaddr };

    ghost reads = { λ _. ReadsFixedBytes 6 };

    ghost memory_free = { EveryCell };

    ghost equivalence = { equal_equivalence };

    ghost single = { λ _ _. plain_single (λ v w. v ≡ w) (FormFixedBytes 6) (first_fault_number 6)
        (fixed_bytes_grammar 6) };

    fn from_sql(_alloc: Global, _ty: &PgType, raw: &'a [u8]) -> Result<MacAddress, Fault> {
        Ok(MacAddress::new(macaddr_from_sql(raw)?))
    }

    fn from_sql_null(_alloc: Global, _ty: &PgType) -> Result<MacAddress, Fault> {
        Err(Fault::WasNull)
    }

    fn accepts(ty: &PgType) -> bool {
        ty.is(&PgType::MACADDR)
    }
}
