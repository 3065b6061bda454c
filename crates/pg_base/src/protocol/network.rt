//! IP addresses with their netmasks, and MAC addresses.
ghost use Rattle.std.specs.Prelude.{◌≡◌, ◌≢◌, ◌<◌, ◌⊎◌, ◌∷◌, Some, IfSome, IfNone, length};
ghost use Rattle.pg_base.specs.Appending.{Appends};
ghost use Rattle.pg_types.specs.Faults.{Answers, NeverMemory};
ghost use Rattle.pg_base.specs.FixedBytes.{FormFixedBytes};
ghost use Rattle.pg_base.specs.Formats.{Decodes};
ghost use Rattle.pg_base.specs.Network.{FormInet, NetmaskFits, Network, address_len, address_octets};
ghost use Rattle.pg_base.specs.Network.{family_len, family_of, first_fault_inet, network_bytes, with_netmask};
ghost use Rattle.pg_base.specs.Numbers.{first_fault_number};

use crate::fault::Fault;
use bytes::BytesMut;
use std::alloc::Global;
use std::marker::Model;
use std::net::{IpAddr, Ipv4Addr, Ipv6Addr};

/// The address family of IPv4 in a cell (`PGSQL_AF_INET`).
const IPV4: u8 = 2;

/// The address family of IPv6 in a cell (`PGSQL_AF_INET6`).
const IPV6: u8 = 3;

/// An address and the length of its netmask: the number of leading bits of the address that name
/// the network.
#[derive(Debug, Clone, Copy)]
pub struct Inet {
    addr: IpAddr,
    netmask: u8,
}

impl Model for Inet {
    ghost Value = { Network };

    ghost view = { λ n. with_netmask n.addr n.netmask };

    ghost inverse = { λ n. record { addr = n.address; netmask = n.masklen } };

    ghost invariant = { λ n. NetmaskFits (with_netmask n.addr n.netmask) };
}

impl Inet {
    /// Returns the address.
    pub fn addr(&self) -> IpAddr
        ensures { result ≡ self.now.address }
    {
        self.addr
    }

    /// Returns the length of the netmask in bits.
    pub fn netmask(&self) -> u8
        ensures length { result ≡ self.now.masklen }
        ensures fits { NetmaskFits self.now }
    {
        self.netmask
    }
}

/// Reads INET or CIDR, in one byte each: the address family (2 for IPv4, 3 for IPv6), the length of
/// the netmask in bits, a flag of any value, the number of octets, and the 4 or 16 octets
/// (`inet_recv`, `cidr_recv`). Fewer than 4 bytes are refused with `Size`; then another family with
/// `Family`, a netmask of more than 32 or 128 bits with `Netmask`, another number of octets than
/// the family has with `AddressLength`, and any other number of bytes after it with `Size`. Bits
/// after the netmask are not checked.
#[inline(always)]
pub fn inet_from_sql(raw: &[u8]) -> Result<Inet, Fault>
    ensures outcome { Answers (Decodes FormInet first_fault_inet raw.now) result }
    ensures never_memory { NeverMemory result }
{
    let [family, netmask, _flag, len, octets @ ..] = raw else {
        return Err(Fault::Size);
    };
    let family_len = match *family {
        IPV4 => 4,
        IPV6 => 16,
        _ => return Err(Fault::Family),
    };
    if *netmask > 8 * family_len {
        return Err(Fault::Netmask);
    }
    if *len != family_len {
        return Err(Fault::AddressLength);
    }
    let Some(addr) = address_from_octets(*family, octets) else {
        return Err(Fault::Size);
    };
    Ok(Inet {
        addr,
        netmask: *netmask,
    })
}

/// Returns the address of this family with these octets, or `None` for any other number of octets
/// than the family has.
#[inline(always)]
#[tactic(auto, using(crate::proofs::Octets::octets_back))]
fn address_from_octets(family: u8, octets: &[u8]) -> Option<IpAddr>
    requires { (family ≡ 2) ⊎ (family ≡ 3) }
    ensures address { IfSome result (λ a. (family_of a ≡ family) × (address_octets a ≡ octets.now) ×
        (length octets.now ≡ address_len a)) }
    ensures other { IfNone result (length octets.now ≢ family_len family) }
{
    if family == IPV4 {
        let octets = <[u8; 4]>::try_from(octets).ok()?;
        Some(IpAddr::V4(Ipv4Addr::from_octets(octets)))
    } else {
        let octets = <[u8; 16]>::try_from(octets).ok()?;
        Some(IpAddr::V6(Ipv6Addr::from_octets(octets)))
    }
}

/// Appends INET or CIDR, in one byte each: the address family (2 for IPv4, 3 for IPv6), the length
/// of the netmask in bits, the flag 0, the number of octets, and the 4 or 16 octets (`inet_send`,
/// `cidr_send`). The netmask must not be longer than the address: 32 or 128 bits. The server itself
/// sends the flag 1 for CIDR, and ignores it on receipt.
#[inline(always)]
pub fn inet_to_sql(
    _alloc: Global,
    addr: IpAddr,
    netmask: u8,
    out: &mut BytesMut,
) -> Result<(), Fault>
    requires { NetmaskFits (with_netmask addr netmask) }
    ensures appends { Appends (Some (network_bytes 0 (with_netmask addr netmask))) out.old out.new result }
    // Writers need this: the written form requires that the address has as many octets as its
    // family.
    ensures octets { length (address_octets addr) ≡ address_len addr }
{
    match addr {
        IpAddr::V4(addr) => octets_to_sql(IPV4, netmask, &addr.octets(), out),
        IpAddr::V6(addr) => octets_to_sql(IPV6, netmask, &addr.octets(), out),
    }
}

/// Appends the address family, the length of the netmask, the flag 0, the number of octets, and the
/// octets.
#[inline(always)]
fn octets_to_sql(family: u8, netmask: u8, octets: &[u8], out: &mut BytesMut) -> Result<(), Fault>
    requires { length octets.now < 256 }
    ensures { Appends (Some (family ∷ netmask ∷ 0 ∷ length octets.now ∷ octets.now)) out.old out.new result }
{
    out.reserve(4 + octets.len())?;
    out.extend_reserved(&[family, netmask, 0, octets.len() as u8]);
    out.extend_reserved(octets);
    Ok(())
}

/// Reads MACADDR: 6 bytes (`macaddr_recv`). Any other length is refused with `Size`.
pub fn macaddr_from_sql(raw: &[u8]) -> Result<[u8; 6], Fault>
    ensures outcome { Answers (Decodes (FormFixedBytes 6) (first_fault_number 6) raw.now) result }
    ensures never_memory { NeverMemory result }
{
    match <[u8; 6]>::try_from(raw) {
        Ok(bytes) => Ok(bytes),
        Err(_) => Err(Fault::Size),
    }
}

/// Appends MACADDR: 6 bytes (`macaddr_send`).
#[inline(always)]
pub fn macaddr_to_sql(_alloc: Global, v: [u8; 6], out: &mut BytesMut) -> Result<(), Fault>
    ensures { Appends (Some v) out.old out.new result }
{
    out.extend_from_slice(&v)?;
    Ok(())
}
