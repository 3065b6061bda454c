//! Writing IP addresses and MAC addresses.
ghost use Rattle.std.specs.Prelude.{true, codes};
ghost use Rattle.pg_types.specs.declared.types.built_in.BuiltIn.TheVariants.{Cidr, Inet, Macaddr};
ghost use Rattle.pg_types.specs.Content.{is_row};
ghost use Rattle.pg_base.specs.FixedBytes.{wire_fixed_bytes};
ghost use Rattle.pg_base.specs.Network.{wire_address, wire_cidr, wire_inet};

use crate::to_sql::{ToSql, check_type};
use bytes::BytesMut;
use pg_base::fault::Fault;
use pg_base::format::{Format, IsNull};
use pg_base::network::{IpCidr, IpInet, MacAddress, address_bits};
use pg_base::protocol::{inet_to_sql, macaddr_to_sql};
use pg_base::types::PgType;
use std::alloc::Global;
use std::net::IpAddr;

/// Writes INET (`inet_send`), in one byte each: the address family (2 for IPv4, 3 for IPv6), the
/// length 32 or 128 of a netmask that covers all bits, the flag 0, the number of octets, and the 4
/// or 16 octets.
impl ToSql for IpAddr {
    ghost accepted = { is_row Inet };

    ghost name = { codes "IpAddr" };

    ghost wire = { λ _ v. wire_address v };

    ghost by_room = { λ _. Unit {0} };

    ghost refuses_memory_free = { true };

    #[inline(always)]
    fn to_sql(&self, alloc: Global, _ty: &PgType, out: &mut BytesMut) -> Result<IsNull, Fault> {
        inet_to_sql(alloc, *self, address_bits(*self), out)?;
        Ok(IsNull::No)
    }

    fn accepts(ty: &PgType) -> bool {
        ty.is(&PgType::INET)
    }

    fn to_sql_checked(
        &self,
        alloc: Global,
        ty: &PgType,
        out: &mut BytesMut,
    ) -> Result<IsNull, Fault> {
        check_type(Self::accepts(ty), ty, "IpAddr")?;
        self.to_sql(alloc, ty, out)
    }

    fn encode_format(&self, _ty: &PgType) -> Format {
        Format::Binary
    }
}

/// Writes INET (`inet_send`) as `IpAddr` does, with the netmask of the value.
impl ToSql for IpInet {
    ghost accepted = { is_row Inet };

    ghost name = { codes "IpInet" };

    ghost wire = { λ _ v. wire_inet v };

    ghost by_room = { λ _. Unit {0} };

    ghost refuses_memory_free = { true };

    #[inline(always)]
    fn to_sql(&self, alloc: Global, _ty: &PgType, out: &mut BytesMut) -> Result<IsNull, Fault> {
        inet_to_sql(alloc, self.address(), self.network_length(), out)?;
        Ok(IsNull::No)
    }

    fn accepts(ty: &PgType) -> bool {
        ty.is(&PgType::INET)
    }

    fn to_sql_checked(
        &self,
        alloc: Global,
        ty: &PgType,
        out: &mut BytesMut,
    ) -> Result<IsNull, Fault> {
        check_type(Self::accepts(ty), ty, "IpInet")?;
        self.to_sql(alloc, ty, out)
    }

    fn encode_format(&self, _ty: &PgType) -> Format {
        Format::Binary
    }
}

/// Writes CIDR (`cidr_send`) as `IpInet` writes INET. The flag is 0, where the server sends 1; it
/// ignores the flag on receipt.
impl ToSql for IpCidr {
    ghost accepted = { is_row Cidr };

    ghost name = { codes "IpCidr" };

    ghost wire = { λ _ v. wire_cidr v };

    ghost by_room = { λ _. Unit {0} };

    ghost refuses_memory_free = { true };

    #[inline(always)]
    fn to_sql(&self, alloc: Global, _ty: &PgType, out: &mut BytesMut) -> Result<IsNull, Fault> {
        inet_to_sql(alloc, self.first_address(), self.network_length(), out)?;
        Ok(IsNull::No)
    }

    fn accepts(ty: &PgType) -> bool {
        ty.is(&PgType::CIDR)
    }

    fn to_sql_checked(
        &self,
        alloc: Global,
        ty: &PgType,
        out: &mut BytesMut,
    ) -> Result<IsNull, Fault> {
        check_type(Self::accepts(ty), ty, "IpCidr")?;
        self.to_sql(alloc, ty, out)
    }

    fn encode_format(&self, _ty: &PgType) -> Format {
        Format::Binary
    }
}

/// Writes MACADDR: 6 bytes, in the order of its text (`macaddr_send`).
impl ToSql for MacAddress {
    ghost accepted = { is_row Macaddr };

    ghost name = { codes "MacAddress" };

    ghost wire = { λ _ v. wire_fixed_bytes 6 v };

    ghost by_room = { λ _. Unit {0} };

    ghost refuses_memory_free = { true };

    #[inline(always)]
    fn to_sql(&self, alloc: Global, _ty: &PgType, out: &mut BytesMut) -> Result<IsNull, Fault> {
        macaddr_to_sql(alloc, self.to_array(), out)?;
        Ok(IsNull::No)
    }

    fn accepts(ty: &PgType) -> bool {
        ty.is(&PgType::MACADDR)
    }

    fn to_sql_checked(
        &self,
        alloc: Global,
        ty: &PgType,
        out: &mut BytesMut,
    ) -> Result<IsNull, Fault> {
        check_type(Self::accepts(ty), ty, "MacAddress")?;
        self.to_sql(alloc, ty, out)
    }

    fn encode_format(&self, _ty: &PgType) -> Format {
        Format::Binary
    }
}
