//! Internet addresses with their netmasks, and MAC addresses.
ghost use Rattle.std.specs.Prelude.{◌≡◌, ℕ, ◌==◌, List, not};
ghost use Rattle.pg_types.specs.Faults.{Answers, NeverMemory};
ghost use Rattle.pg_base.specs.Network.{NetworkOrFault, Network, NetmaskFits, NoHostBits, address_bits};
ghost use Rattle.pg_base.specs.Network.{address_octets, first_fault_netmask, first_fault_network, host_part};
ghost use Rattle.pg_base.specs.Network.{with_netmask};

pub mod laws;
mod text;

use crate::fault::Fault;
use std::marker::Model;
use std::net::{IpAddr, Ipv4Addr, Ipv6Addr};

/// Returns the number of bits in an address: 32 for IPv4 and 128 for IPv6.
pub fn address_bits(addr: IpAddr) -> u8
    ensures { result ≡ address_bits addr }
{
    match addr {
        IpAddr::V4(_) => 32,
        IpAddr::V6(_) => 128,
    }
}

/// The IP address of a host and the length of its netmask: the number of leading bits of the
/// address that name the network.
#[derive(Debug, Clone, Copy, PartialEq, Eq)]
pub struct IpInet {
    address: IpAddr,
    len: u8,
}

impl Model for IpInet {
    ghost Value = { Network };

    ghost view = { λ n. with_netmask n.address n.len };

    ghost inverse = { λ n. record { address = n.address; len = n.masklen } };

    ghost invariant = { λ n. NetmaskFits (with_netmask n.address n.len) };
}

impl IpInet {
    /// Creates a value from an address and the length `len` of its netmask. Fails with `Netmask` if
    /// `len` is greater than 32 for IPv4, or 128 for IPv6.
    #[inline(always)]
    pub fn new(addr: IpAddr, len: u8) -> Result<IpInet, Fault>
        ensures outcome { Answers (NetworkOrFault (with_netmask addr len)
            (first_fault_netmask (with_netmask addr len))) result }
        ensures never_memory { NeverMemory result }
    {
        if len > address_bits(addr) {
            return Err(Fault::Netmask);
        }
        Ok(IpInet { address: addr, len })
    }

    /// Returns the address.
    pub fn address(&self) -> IpAddr
        ensures { result ≡ self.now.address }
    {
        self.address
    }

    /// Returns the length of the netmask in bits.
    pub fn network_length(&self) -> u8
        ensures length { result ≡ self.now.masklen }
        ensures fits { NetmaskFits self.now }
    {
        self.len
    }
}

/// A network: its first address and the length of its netmask. The bits of the address after the
/// netmask are 0.
#[derive(Debug, Clone, Copy, PartialEq, Eq)]
pub struct IpCidr {
    first: IpInet,
}

impl Model for IpCidr {
    ghost Value = { Network };

    ghost view = { λ n. n.first };

    ghost inverse = { λ n. record { first = n } };

    ghost invariant = { λ n. NoHostBits n.first };
}

impl IpCidr {
    /// Creates a network from its first address and the length `len` of its netmask. Fails with
    /// `Netmask` if `len` is greater than 32 for IPv4, or 128 for IPv6, and then with `HostBits` if
    /// a bit of the address after the first `len` is 1.
    #[inline(always)]
    pub fn new(addr: IpAddr, len: u8) -> Result<IpCidr, Fault>
        ensures outcome { Answers (NetworkOrFault (with_netmask addr len)
            (first_fault_network (with_netmask addr len))) result }
        ensures never_memory { NeverMemory result }
    {
        let first = IpInet::new(addr, len)?;
        if has_host_bits(addr, len) {
            return Err(Fault::HostBits);
        }
        Ok(IpCidr { first })
    }

    /// Returns the first address of the network.
    pub fn first_address(&self) -> IpAddr
        ensures { result ≡ self.now.address }
    {
        self.first.address()
    }

    /// Returns the length of the netmask in bits.
    pub fn network_length(&self) -> u8
        ensures length { result ≡ self.now.masklen }
        ensures fits { NetmaskFits self.now }
        ensures network { NoHostBits self.now }
    {
        self.first.network_length()
    }
}

/// Whether a bit of the address after the first `len` bits is 1.
#[inline(always)]
#[tactic(auto, using(crate::proofs::HostBits::v4_host_part, crate::proofs::HostBits::v6_host_part))]
fn has_host_bits(addr: IpAddr, len: u8) -> bool
    ensures { result ≡ not (host_part (address_octets addr) len == 0) }
{
    let len = u32::from(len);
    match addr {
        IpAddr::V4(addr) => len + addr.to_bits().trailing_zeros() < Ipv4Addr::BITS,
        IpAddr::V6(addr) => len + addr.to_bits().trailing_zeros() < Ipv6Addr::BITS,
    }
}

/// A MAC address: 6 bytes.
#[derive(Debug, Clone, Copy, PartialEq, Eq)]
pub struct MacAddress([u8; 6]);

impl Model for MacAddress {
    ghost Value = { List ℕ };

    ghost view = { λ a. a.0 };

    ghost inverse = { λ bytes. record { 0 = bytes } };
}

impl MacAddress {
    /// Creates a MAC address from its bytes, in the order of its text.
    pub fn new(bytes: [u8; 6]) -> MacAddress
        ensures { result ≡ bytes }
    {
        MacAddress(bytes)
    }

    /// Returns the bytes of the MAC address, in the order of its text.
    pub fn to_array(&self) -> [u8; 6]
        ensures { result ≡ self.now }
    {
        self.0
    }
}
