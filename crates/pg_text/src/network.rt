//! The texts of IP addresses with their netmasks, and of MAC addresses.
ghost use Rattle.std.specs.Prelude.{◌≡◌, length};
ghost use Rattle.std.specs.Net.Grammar.{IsIpText};
ghost use Rattle.hex.specs.Hex.{IsBytes};
ghost use Rattle.pg_base.specs.NetworkTexts.{SaysMacaddr, address_text, cidr_text, inet_text};
ghost use Rattle.pg_base.specs.NetworkTexts.{macaddr_text};
ghost use Rattle.pg_base.specs.Network.{NetmaskFits, NoHostBits};
ghost use Rattle.pg_text.specs.Network.{SaysAddress, has_plain_length, is_plain_length};
ghost use Rattle.pg_text.specs.ReadBack.{IsReadBack};
ghost use Rattle.pg_text.specs.Texts.{SaysAny, Shows};

use crate::shown::push_shown;
use crate::{FromText, ToText, no_value};
use pg_base::network::address_bits;
use postgres_types::{Fault, IpCidr, IpInet, MacAddress};
use std::alloc::{AllocError, Global};
use std::net::IpAddr;

/// Writes the address, and `/` and the length of the netmask unless the netmask covers all bits of
/// the address (`inet_out`).
impl ToText for IpInet {
    ghost shows = { Shows inet_text };

    fn to_text(&self, alloc: Global, out: &mut Vec<u8>) -> Result<(), AllocError> {
        push_shown(alloc, self, out)
    }
}

/// Parses an address, in each of the forms of the standard library, and `/` and the length of the
/// netmask, if any. As in the server, the length has no sign and, after an IPv6 address, no zero
/// before other digits (`inet_in`).
impl FromText for IpInet {
    ghost says = { SaysAddress };

    ghost parses = { SaysAny (λ text n. SaysAddress text n × NetmaskFits n) };

    fn from_text(_alloc: Global, text: &str) -> Result<IpInet, Fault> {
        if !has_plain_length(text) {
            return Err(no_value());
        }
        text.parse()
    }
}

/// Whether the length of the netmask, if any, has neither a sign nor, after an IPv6 address, a zero
/// before other digits.
fn has_plain_length(text: &str) -> bool
    ensures { result ≡ has_plain_length text.now }
{
    match text.split_once('/') {
        Some((_, len)) => is_plain_length(text.as_bytes().contains(&b':'), len),
        None => true,
    }
}

/// Whether the length has neither a sign nor, for IPv6, a zero before other digits.
fn is_plain_length(is_ipv6: bool, len: &str) -> bool
    ensures { result ≡ is_plain_length is_ipv6 len.now }
{
    match len.as_bytes() {
        [b'+', ..] => false,
        [b'0', _, ..] => !is_ipv6,
        _ => true,
    }
}

/// Writes the address of a host, without a netmask.
impl ToText for IpAddr {
    ghost shows = { Shows address_text };

    fn to_text(&self, alloc: Global, out: &mut Vec<u8>) -> Result<(), AllocError> {
        let Ok(host) = IpInet::new(*self, address_bits(*self)) else {
            unreachable!();
        };
        push_shown(alloc, &host, out)
    }
}

/// Parses an address, in each of the forms of the standard library.
impl FromText for IpAddr {
    ghost says = { IsIpText };

    ghost parses = { SaysAny IsIpText };

    fn from_text(_alloc: Global, text: &str) -> Result<IpAddr, Fault> {
        text.parse().map_err(|_| no_value())
    }
}

/// Writes the first address, `/` and the length of the netmask (`cidr_out`).
impl ToText for IpCidr {
    ghost shows = { Shows cidr_text };

    fn to_text(&self, alloc: Global, out: &mut Vec<u8>) -> Result<(), AllocError> {
        push_shown(alloc, self, out)
    }
}

/// Parses a network as an [`IpInet`]; no bit of the address after the netmask may be 1
/// (`cidr_in`).
impl FromText for IpCidr {
    ghost says = { SaysAddress };

    ghost parses = { SaysAny (λ text n. SaysAddress text n × NetmaskFits n × NoHostBits n) };

    fn from_text(_alloc: Global, text: &str) -> Result<IpCidr, Fault> {
        if !has_plain_length(text) {
            return Err(no_value());
        }
        text.parse()
    }
}

/// Writes the bytes as two hexadecimal digits each, with `:` between them (`macaddr_out`).
impl ToText for MacAddress {
    ghost shows = { Shows macaddr_text };

    fn to_text(&self, alloc: Global, out: &mut Vec<u8>) -> Result<(), AllocError> {
        push_shown(alloc, self, out)
    }
}

/// Parses digits of either case.
impl FromText for MacAddress {
    ghost says = { SaysMacaddr };

    ghost parses = { SaysAny SaysMacaddr };

    fn from_text(_alloc: Global, text: &str) -> Result<MacAddress, Fault> {
        text.parse()
    }
}

/// The text of a MAC address says it, and no other.
pub fn macaddr_is_read_back()
    ensures { IsReadBack (λ v. (length v ≡ 6) × IsBytes v) ⟦<MacAddress as ToText>⟧.shows
        ⟦<MacAddress as FromText>⟧.says }
{}
