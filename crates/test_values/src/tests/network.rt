//! Network addresses, MAC addresses and UUIDs: a table of rows for each format.

use pg_more_types::MacAddress8;
use postgres_types::private::BytesMut;
use postgres_types::protocol::{inet_from_sql, inet_to_sql};
use postgres_types::{IpCidr, IpInet, Kind, MacAddress, Type};
use std::net::{IpAddr, Ipv4Addr, Ipv6Addr};
use std::test::Fail;
use test_support::code::{ADDRESS_LENGTH, FAMILY, HOST_BITS, NETMASK, SIZE, WAS_NULL};
use test_support::{debugs, fault_code, has_cells, reads, refuses_fronts, rewrites, same};
use uuid::Uuid;

/// The cell of ::1, alone in its network.
const LOCALHOST: [u8; 20] = [
    3, 0x80, 0, 0x10, 0, 0, 0, 0, 0, 0, 0, 0, 0, 0, 0, 0, 0, 0, 0, 1,
];

/// The cell of 10.1.2.3/8.
const HOST: [u8; 8] = [2, 8, 0, 4, 10, 1, 2, 3];

/// The cell of 10.1.2.3/32.
const ALONE: [u8; 8] = [2, 32, 0, 4, 10, 1, 2, 3];

/// The cell of 10.0.0.0/8.
const NETWORK: [u8; 8] = [2, 8, 0, 4, 10, 0, 0, 0];

/// The same, with the flag that PostgreSQL sets in a CIDR.
const FLAGGED: [u8; 8] = [2, 8, 1, 4, 10, 0, 0, 0];

const DAMAGED_INET: [(Option<&[u8]>, u32); 3] = [
    (Some(&[4, 0x21, 0, 4, 10, 0, 0, 0]), FAMILY),
    (Some(&[2, 0x21, 0, 5, 10, 0, 0, 0]), NETMASK),
    (
        Some(&[
            2, 8, 0, 0x10, 1, 2, 3, 4, 5, 6, 7, 8, 9, 10, 11, 12, 13, 14, 15, 16,
        ]),
        ADDRESS_LENGTH,
    ),
];

const MAC: [u8; 6] = [8, 0, 0x2b, 1, 2, 3];

const MAC8: [u8; 8] = [8, 0, 0x2b, 1, 2, 3, 4, 5];

const UUID_CELL: [u8; 16] = [
    0xa0, 0xee, 0xbc, 0x99, 0x9c, 0x0b, 0x4e, 0xf8, 0xbb, 0x6d, 0x6b, 0xb9, 0xbd, 0x38, 0x0a, 0x11,
];

/// The IPv4 address 10.x.y.z.
fn ten(x: u8, y: u8, z: u8) -> IpAddr {
    IpAddr::V4(Ipv4Addr::new(10, x, y, z))
}

#[test]
fn addresses_have_their_cells(rt: HostRuntime) -> Result<(), Fail> {
    let alloc = rt.alloc();
    let rows = [(IpAddr::V6(Ipv6Addr::LOCALHOST), LOCALHOST.as_slice())];
    has_cells(alloc, &Type::INET, &rows, &[])?;
    reads(alloc, &Type::INET, &HOST, ten(1, 2, 3))?;
    rewrites::<IpAddr>(alloc, &Type::INET, &HOST, &ALONE)
}

#[test]
fn addresses_with_netmasks_have_their_cells(rt: HostRuntime) -> Result<(), Fail> {
    let alloc = rt.alloc();
    let rows = [(IpInet::new(ten(1, 2, 3), 8)?, HOST.as_slice())];
    has_cells(alloc, &Type::INET, &rows, &DAMAGED_INET)?;
    refuses_fronts::<IpInet>(alloc, &Type::INET, &HOST, &[])
}

#[test]
fn networks_have_their_cells(rt: HostRuntime) -> Result<(), Fail> {
    let alloc = rt.alloc();
    let network = IpCidr::new(ten(0, 0, 0), 8)?;
    let damaged = [(Some(HOST.as_slice()), HOST_BITS)];
    let rows = [(network, NETWORK.as_slice())];
    has_cells(alloc, &Type::CIDR, &rows, &damaged)?;
    reads(alloc, &Type::CIDR, &FLAGGED, network)?;
    rewrites::<IpCidr>(alloc, &Type::CIDR, &FLAGGED, &NETWORK)
}

#[test]
fn networks_have_short_netmasks_and_no_host_bits() -> Result<(), Fail> {
    for (len, fault) in [(33, NETMASK), (8, HOST_BITS), (32, 0)] {
        same(fault_code(IpCidr::new(ten(1, 2, 3), len)), fault)?;
    }
    Ok(())
}

#[test]
fn mac_addresses_have_their_cells(rt: HostRuntime) -> Result<(), Fail> {
    let address = MacAddress::new(MAC);
    same(address.to_array(), MAC)?;
    debugs(rt.alloc(), &address, "MacAddress([8, 0, 43, 1, 2, 3])")?;
    has_cells(
        rt.alloc(),
        &Type::MACADDR,
        &[(address, MAC.as_slice())],
        &[],
    )
}

#[test]
fn mac_addresses_of_eight_bytes_have_their_cells(rt: HostRuntime) -> Result<(), Fail> {
    let alloc = rt.alloc();
    let name = String::from_str(alloc, "macaddr8")?;
    let schema = String::from_str(alloc, "pg_catalog")?;
    let ty = Type::new(alloc, name, 774, Kind::Simple, schema)?;
    let address = MacAddress8::new(MAC8);
    same(address.to_array(), MAC8)?;
    debugs(alloc, &address, "MacAddress8([8, 0, 43, 1, 2, 3, 4, 5])")?;
    let others: [(Option<&[u8]>, u32); 2] = [(None, WAS_NULL), (Some(&MAC), SIZE)];
    has_cells(alloc, &ty, &[(address, MAC8.as_slice())], &others)
}

#[test]
fn uuids_have_their_cells(rt: HostRuntime) -> Result<(), Fail> {
    let uuid = Uuid::from_u128(0xa0eebc99_9c0b_4ef8_bb6d_6bb9bd380a11);
    has_cells(
        rt.alloc(),
        &Type::UUID,
        &[(uuid, UUID_CELL.as_slice())],
        &[],
    )
}

#[test]
fn addresses_are_appended_and_parsed(rt: HostRuntime) -> Result<(), Fail> {
    let alloc = rt.alloc();
    let mut out = BytesMut::new(alloc);
    inet_to_sql(alloc, ten(1, 2, 3), 8, &mut out)?;
    let inet = inet_from_sql(&out)?;
    same((inet.addr(), inet.netmask()), (ten(1, 2, 3), 8))?;
    debugs(alloc, &inet, "Inet { addr: 10.1.2.3, netmask: 8 }")
}

#[test]
fn addresses_and_networks_have_parts(rt: HostRuntime) -> Result<(), Fail> {
    let alloc = rt.alloc();
    let host = IpInet::new(ten(1, 2, 3), 8)?;
    same((host.address(), host.network_length()), (ten(1, 2, 3), 8))?;
    debugs(alloc, &host, "IpInet { address: 10.1.2.3, len: 8 }")?;
    let network = IpCidr::new(ten(0, 0, 0), 8)?;
    let parts = (network.first_address(), network.network_length());
    same(parts, (ten(0, 0, 0), 8))?;
    let text = "IpCidr { first: IpInet { address: 10.0.0.0, len: 8 } }";
    debugs(alloc, &network, text)
}
