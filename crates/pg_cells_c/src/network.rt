//! Addresses with their netmasks.
#![tactic(auto, using(crate::proofs::ReadingSteps::reads_into))]

ghost use Rattle.std.specs.Prelude.{◌≡◌, ◌==◌, MatchOption, true, false};
ghost use Rattle.std.specs.Net.Addr.{ipv6_octets};
ghost use Rattle.pg_base.specs.Formats.{Decodes};
ghost use Rattle.pg_base.specs.Network.{address_octets, family_len, family_of, first_fault_cidr, first_fault_inet};
ghost use Rattle.pg_base.specs.Network.{host_part, with_netmask};
ghost use Rattle.pg_cells_c.specs.Networks.{FormCidrParts, FormInetParts, IsNetwork, is_inet, octets_in};
ghost use Rattle.pg_cells_c.specs.Networks.{wire_cidr_parts, wire_inet_parts};
ghost use Rattle.pg_cells_c.specs.Readings.{ReadsInto};
ghost use Rattle.pg_cells_c.specs.Writings.{WritesCell};
ghost use Rattle.pg_types.specs.Faults.{Answers, NeverMemory};

use crate::buffers::{NO_CELL, write_parts};
use crate::store::store;
use pg_base::network::IpCidr;
use pg_base::protocol::inet_from_sql;
use pg_types::fault::Fault;
use std::net::{IpAddr, Ipv4Addr, Ipv6Addr};

/// The address family of IPv4.
const IPV4: u8 = 2;

/// The address family of IPv6.
const IPV6: u8 = 3;

/// An address and the length of its netmask. An IPv4 address is in the first 4 octets; the others
/// are 0.
#[derive(Clone, Copy)]
#[repr(C)]
pub struct Inet {
    pub family: u8,
    pub netmask: u8,
    pub octets: [u8; 16],
}

/// Returns the address with a netmask of that length.
fn inet_of(addr: IpAddr, netmask: u8) -> Inet
    ensures { IsNetwork result (with_netmask addr netmask) }
{
    match addr {
        IpAddr::V4(addr) => {
            let [a, b, c, d] = addr.octets();
            Inet {
                family: IPV4,
                netmask,
                octets: [a, b, c, d, 0, 0, 0, 0, 0, 0, 0, 0, 0, 0, 0, 0],
            }
        }
        IpAddr::V6(addr) => Inet {
            family: IPV6,
            netmask,
            octets: addr.octets(),
        },
    }
}

/// Reads the address of a cell, with its netmask.
fn inet_in(cell: &[u8]) -> Result<Inet, Fault>
    ensures outcome { Answers (Decodes FormInetParts first_fault_inet cell.now) result }
    ensures never_memory { NeverMemory result }
{
    let inet = inet_from_sql(cell)?;
    Ok(inet_of(inet.addr(), inet.netmask()))
}

/// Reads the network of a cell.
fn cidr_in(cell: &[u8]) -> Result<Inet, Fault>
    ensures outcome { Answers (Decodes FormCidrParts first_fault_cidr cell.now) result }
    ensures never_memory { NeverMemory result }
{
    let inet = inet_from_sql(cell)?;
    let cidr = IpCidr::new(inet.addr(), inet.netmask())?;
    Ok(inet_of(cidr.first_address(), cidr.network_length()))
}

/// Reads INET (`inet_recv`).
#[unsafe(no_mangle)]
pub extern "C" fn pgc_inet_read(cell: &[u8], inet: &mut Inet) -> u32
    ensures { ReadsInto (Decodes FormInetParts first_fault_inet cell.now) inet.old inet.new result }
{
    store(inet_in(cell), inet)
}

/// Returns the number of octets of the address. It is `None` if the family is neither IPv4 nor
/// IPv6, or the netmask is longer than the address.
fn octet_count(inet: &Inet) -> Option<u8>
    ensures { MatchOption result (is_inet inet.now ≡ false)
        (λ count. (is_inet inet.now ≡ true) × (count ≡ family_len inet.now.family)) }
{
    let count = match inet.family {
        IPV4 => 4,
        IPV6 => 16,
        _ => return None,
    };
    if inet.netmask > 8 * count {
        return None;
    }
    Some(count)
}

/// Writes INET (`inet_send`). There is no cell if the family is neither IPv4 nor IPv6, or the
/// netmask is longer than the address.
#[unsafe(no_mangle)]
pub extern "C" fn pgc_inet_write(inet: &Inet, out: &mut [u8]) -> usize
    ensures { WritesCell (wire_inet_parts inet.now) out.old out.new result }
{
    let Some(count) = octet_count(inet) else {
        return NO_CELL;
    };
    let head = [inet.family, inet.netmask, 0, count];
    write_parts(&head, &inet.octets[..usize::from(count)], &[], out)
}

/// Reads CIDR (`cidr_recv`).
#[unsafe(no_mangle)]
pub extern "C" fn pgc_cidr_read(cell: &[u8], cidr: &mut Inet) -> u32
    ensures { ReadsInto (Decodes FormCidrParts first_fault_cidr cell.now) cidr.old cidr.new result }
{
    store(cidr_in(cell), cidr)
}

/// Returns the IPv6 address of these octets.
#[tactic(auto, using(pg_base::proofs::Octets::octets_back))]
fn v6_of(octets: &[u8; 16]) -> Ipv6Addr
    ensures { ipv6_octets result ≡ octets.now }
{
    Ipv6Addr::from_octets(*octets)
}

/// Returns the address without its netmask.
#[tactic(auto, using(crate::proofs::NetworkSteps::v6_octets))]
fn address_of(inet: &Inet) -> IpAddr
    ensures { is_inet inet.now ≡ true
        → (family_of result ≡ inet.now.family) × (address_octets result ≡ octets_in inet.now) }
{
    if inet.family == IPV4 {
        let [a, b, c, d, ..] = inet.octets;
        IpAddr::V4(Ipv4Addr::from_octets([a, b, c, d]))
    } else {
        IpAddr::V6(v6_of(&inet.octets))
    }
}

/// Whether every bit of the address after the netmask is 0.
fn is_network(inet: &Inet) -> bool
    ensures { is_inet inet.now ≡ true → result ≡ (host_part (octets_in inet.now) inet.now.netmask == 0) }
{
    IpCidr::new(address_of(inet), inet.netmask).is_ok()
}

/// Writes CIDR (`cidr_send`). There is no cell if [`pgc_inet_write`] has none, or a bit of the
/// address after the netmask is 1.
#[unsafe(no_mangle)]
pub extern "C" fn pgc_cidr_write(cidr: &Inet, out: &mut [u8]) -> usize
    ensures { WritesCell (wire_cidr_parts cidr.now) out.old out.new result }
{
    if !is_network(cidr) {
        return NO_CELL;
    }
    pgc_inet_write(cidr, out)
}
