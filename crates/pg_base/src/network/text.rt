//! The texts of IP addresses with their netmasks, and of MAC addresses.
ghost use Rattle.std.specs.Prelude.{◌≡◌, ◌↔◌, ◌<◌, ◌∷◌, [], ℕ, List, MatchOption, Some, false, true};
ghost use Rattle.std.specs.Prelude.{IfErr, IfOk, IsTrue};
ghost use Rattle.std.specs.Char.{is_ascii_digit};
ghost use Rattle.std.specs.Fmt.{WritesOnOk};
ghost use Rattle.std.specs.List.{list_all};
ghost use Rattle.std.specs.Net.Addr.{ipv4_octets, ipv6_segments, low_octets};
ghost use Rattle.std.specs.Net.Grammar.{IsIpText};
ghost use Rattle.std.specs.Str.Parse.{without_leading_plus};
ghost use Rattle.pg_base.specs.Network.{NetmaskFits, Network, NoHostBits, with_netmask};
ghost use Rattle.pg_base.specs.Network.{first_fault_netmask, first_fault_network};
ghost use Rattle.pg_base.specs.NetworkTexts.{IsPair, ParsesMacaddr, ParsesNetwork, RefusesLength, RefusesNetwork};
ghost use Rattle.pg_base.specs.NetworkTexts.{SaysMacaddr, SaysNetwork, no_network};
ghost use Rattle.pg_types.specs.Faults.{refusal_of};
ghost use Rattle.pg_base.specs.NetworkTexts.{address_text, cidr_text, inet_text, is_ipv4_compatible};
ghost use Rattle.pg_base.specs.NetworkTexts.{has_colons, macaddr_text, pair_text};
ghost use Rattle.pg_base.specs.NumberTexts.{SaysUnsigned};
ghost use Rattle.std.specs.declared.net.ip_addr.IpAddr.{IpAddr};
ghost use Rattle.std.specs.declared.net.ip_addr.IpAddr.TheVariants.{V6};

use super::{IpCidr, IpInet, MacAddress, address_bits};
use crate::fault::Fault;
use std::net::{IpAddr, Ipv4Addr, Ipv6Addr};
use std::str::FromStr;
use std::{fmt, str};

/// Writes the address, and `/` and the length of the netmask unless the netmask covers all bits of
/// the address (`inet_out`).
impl fmt::Display for IpInet {
    ghost output = { λ n. Some (inet_text n) };

    fn fmt<W: fmt::Write>(&self, f: &mut fmt::Formatter<W>) -> fmt::Result {
        let host = self.address();
        let len = self.network_length();
        write_address(host, f)?;
        if len == address_bits(host) {
            Ok(())
        } else {
            write!(f, "/{len}")
        }
    }
}

/// Writes the first address, `/` and the length of the netmask (`cidr_out`).
impl fmt::Display for IpCidr {
    ghost output = { λ n. Some (cidr_text n) };

    fn fmt<W: fmt::Write>(&self, f: &mut fmt::Formatter<W>) -> fmt::Result {
        let first = self.first_address();
        let len = self.network_length();
        write_address(first, f)?;
        write!(f, "/{len}")
    }
}

/// Writes the address.
fn write_address<W: fmt::Write>(address: IpAddr, f: &mut fmt::Formatter<W>) -> fmt::Result
    ensures { WritesOnOk W.write_str_gives f.old result (address_text address) f.new }
{
    match address {
        IpAddr::V4(_) => write!(f, "{address}"),
        IpAddr::V6(address) => write_v6(address, f),
    }
}

/// Writes the address as PostgreSQL does (`inet_net_ntop_ipv6`). It is the text of the standard
/// library, except if the first six words of the address are 0 and the seventh is not: then the
/// last two words are written as an IPv4 address.
fn write_v6<W: fmt::Write>(address: Ipv6Addr, f: &mut fmt::Formatter<W>) -> fmt::Result
    ensures { WritesOnOk W.write_str_gives f.old result (address_text (V6 address)) f.new }
{
    match compatible_ipv4(address) {
        Some(ipv4) => write!(f, "::{ipv4}"),
        None => write!(f, "{address}"),
    }
}

/// Returns the IPv4 address in the last two words, if the first six words are 0 and the seventh is
/// not.
fn compatible_ipv4(address: Ipv6Addr) -> Option<Ipv4Addr>
    ensures { MatchOption result (is_ipv4_compatible (ipv6_segments address) ≡ false)
        (λ ipv4. (is_ipv4_compatible (ipv6_segments address) ≡ true) × (ipv4_octets ipv4 ≡ low_octets address)) }
{
    if address.to_ipv4_mapped().is_some() || address.segments()[6] == 0 {
        None
    } else {
        address.to_ipv4()
    }
}

/// Parses an address, possibly followed by `/` and the length of its netmask; without it the
/// netmask covers all bits of the address. A netmask that is too long is refused with `Netmask`,
/// and any other wrong text with `User`.
impl FromStr for IpInet {
    type Err = Fault;

    ghost from_str_gives = { ParsesNetwork NetmaskFits first_fault_netmask };

    fn from_str(text: &str) -> Result<IpInet, Fault> {
        let (address, len) = address_and_netmask(text)?;
        IpInet::new(address, len)
    }
}

/// Parses a network, in the form of an [`IpInet`]. It is refused with `HostBits` if a bit of the
/// address after the netmask is 1.
impl FromStr for IpCidr {
    type Err = Fault;

    ghost from_str_gives = { ParsesNetwork (λ n. NetmaskFits n × NoHostBits n) first_fault_network };

    fn from_str(text: &str) -> Result<IpCidr, Fault> {
        let (address, len) = address_and_netmask(text)?;
        IpCidr::new(address, len)
    }
}

/// Returns the address and the length of the netmask, which covers all bits of the address if the
/// text has no `/`. A length that does not fit in a byte is refused with `Netmask`, and any other
/// wrong text with `User`.
fn address_and_netmask(text: &str) -> Result<(IpAddr, u8), Fault>
    ensures says { IfOk result (λ r. SaysNetwork text.now (with_netmask r.0 r.1)) }
    ensures refused { IfErr result (λ f. RefusesNetwork first_fault_netmask text.now (refusal_of f)) }
    ensures long { IfErr result (λ _. (n : Network) → SaysNetwork text.now n → 255 < n.masklen) }
{
    let Some((host, len)) = text.split_once('/') else {
        let address = parse_address(text).ok_or(no_network())?;
        return Ok((address, address_bits(address)));
    };
    let address = parse_address(host).ok_or(no_network())?;
    let bits = parse_netmask(len)?;
    Ok((address, bits))
}

/// Returns the fault of a text that is no network address.
fn no_network() -> Fault
    ensures { refusal_of result ≡ Some no_network }
{
    Fault::user("no network address")
}

/// Parses an address.
fn parse_address(text: &str) -> Option<IpAddr>
    ensures { MatchOption result ((address : IpAddr) → IsIpText text.now address → ⊥) (IsIpText text.now) }
{
    text.parse().ok()
}

/// Parses the length of a netmask. One above 255 is refused with `Netmask`, and a text that is no
/// number with `User`.
fn parse_netmask(text: &str) -> Result<u8, Fault>
    ensures says { IfOk result (SaysUnsigned text.now) }
    ensures refused { IfErr result (λ f. RefusesLength text.now (refusal_of f)) }
{
    match text.parse() {
        Ok(len) => Ok(len),
        Err(_) if is_number(text) => Err(Fault::Netmask),
        Err(_) => Err(no_network()),
    }
}

/// Whether the text is a number in decimal digits.
fn is_number(text: &str) -> bool
    ensures { IsTrue result ↔ ((number : ℕ) × SaysUnsigned text.now number) }
{
    let digits = without_plus(text.as_bytes());
    !digits.is_empty() && are_digits(digits)
}

/// Returns the text without a plus sign at its front.
fn without_plus(text: &[u8]) -> &[u8]
    ensures { result.now ≡ without_leading_plus text.now }
{
    if !text.is_empty() && text[0] == b'+' {
        &text[1..]
    } else {
        text
    }
}

/// Whether each byte is a decimal digit.
fn are_digits(text: &[u8]) -> bool
    ensures { result ≡ list_all is_ascii_digit text.now }
{
    text.iter().all(|byte| byte.is_ascii_digit())
}

/// Writes the bytes as two lower-case hexadecimal digits each, with `:` between them
/// (`macaddr_out`).
impl fmt::Display for MacAddress {
    ghost output = { λ bytes. Some (macaddr_text bytes) };

    fn fmt<W: fmt::Write>(&self, f: &mut fmt::Formatter<W>) -> fmt::Result {
        let [a, b, c, d, e, g] = self.0;
        write!(
            f,
            "{}:{}:{}:{}:{}:{}",
            Pair(a),
            Pair(b),
            Pair(c),
            Pair(d),
            Pair(e),
            Pair(g)
        )
    }
}

/// A byte of a MAC address.
#[derive(Clone, Copy)]
struct Pair(u8);

impl fmt::Display for Pair {
    ghost output = { λ pair. Some (pair_text pair.0) };

    fn fmt<W: fmt::Write>(&self, f: &mut fmt::Formatter<W>) -> fmt::Result {
        let mut digits = [0; 2];
        hex::encode_to_slice(&[self.0], &mut digits).map_err(|_| fmt::Error)?;
        f.write_str(str::from_utf8(&digits).map_err(|_| fmt::Error)?)
    }
}

/// Parses six pairs of hexadecimal digits of either case, with `:` between them. Any other text is
/// refused with `User`. (`macaddr_in` takes more forms.)
impl FromStr for MacAddress {
    type Err = Fault;

    ghost from_str_gives = { ParsesMacaddr };

    fn from_str(text: &str) -> Result<MacAddress, Fault> {
        parse_macaddr(text).ok_or(Fault::user("no MAC address"))
    }
}

/// Parses a MAC address.
fn parse_macaddr(text: &str) -> Option<MacAddress>
    ensures { MatchOption result ((bytes : List ℕ) → SaysMacaddr text.now bytes → ⊥) (SaysMacaddr text.now) }
{
    let text = text.as_bytes();
    if !has_colons(text) {
        return None;
    }
    Some(MacAddress([
        hex_byte(text[0], text[1])?,
        hex_byte(text[3], text[4])?,
        hex_byte(text[6], text[7])?,
        hex_byte(text[9], text[10])?,
        hex_byte(text[12], text[13])?,
        hex_byte(text[15], text[16])?,
    ]))
}

/// Whether the text has the length of a MAC address, and its colons.
fn has_colons(text: &[u8]) -> bool
    ensures { result ≡ has_colons text.now }
{
    text.len() == 17
        && text[2] == b':'
        && text[5] == b':'
        && text[8] == b':'
        && text[11] == b':'
        && text[14] == b':'
}

/// Returns the byte of two hexadecimal digits of either case.
fn hex_byte(high: u8, low: u8) -> Option<u8>
    ensures { MatchOption result ((byte : ℕ) → IsPair (high ∷ low ∷ []) byte → ⊥) (IsPair (high ∷ low ∷ [])) }
{
    let mut byte = [0];
    match hex::decode_to_slice(&[high, low], &mut byte) {
        Ok(()) => Some(byte[0]),
        Err(_) => None,
    }
}
