//! Network addresses, MAC addresses and UUIDs.

use crate::values::{FromSeed, Seed};
use crate::work::{Made, Work, measure};
use postgres_types::private::BytesMut;
use postgres_types::{Fault, MacAddress, Type};
use std::alloc::Global;
use std::net::{IpAddr, Ipv4Addr};
use uuid::Uuid;

/// Runs the case with this name, if it is in this file.
pub fn run(name: &str, work: Work, frames: &mut BytesMut) -> Made {
    Some(match name {
        "addr" => measure::<IpAddr>(work, frames, &Type::INET),
        "macaddr" => measure::<MacAddress>(work, frames, &Type::MACADDR),
        "uuid" => measure::<Uuid>(work, frames, &Type::UUID),
        _ => return None,
    })
}

impl FromSeed for IpAddr {
    fn from_seed(_alloc: Global, seed: Seed) -> Result<IpAddr, Fault> {
        let [a, b, c, d] = seed.bytes();
        Ok(IpAddr::V4(Ipv4Addr::new(a, b, c, d)))
    }
}

impl FromSeed for MacAddress {
    fn from_seed(_alloc: Global, seed: Seed) -> Result<MacAddress, Fault> {
        let [a, b, c, d] = seed.bytes();
        Ok(MacAddress::new([a, b, c, d, a, b]))
    }
}

impl FromSeed for Uuid {
    fn from_seed(_alloc: Global, seed: Seed) -> Result<Uuid, Fault> {
        let [a, b, c, d] = seed.bytes();
        Ok(Uuid::from_bytes([a, b, c, d, a, b, c, d, a, b, c, d, a, b, c, d]))
    }
}
