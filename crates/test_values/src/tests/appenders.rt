//! The appenders of the module `protocol`, called by themselves.

use postgres_types::BytesMut;
use postgres_types::protocol::{
    bool_to_sql, char_to_sql, date_to_sql, int2_to_sql, int4_to_sql, int8_to_sql, interval_to_sql,
    lsn_to_sql, ltree_to_sql, macaddr_to_sql, oid_to_sql, text_to_sql, time_to_sql,
    timestamp_to_sql, uuid_to_sql, varbit_to_sql,
};
use std::test::Fail;
use test_support::same;

#[test]
fn integers_are_appended(rt: HostRuntime) -> Result<(), Fail> {
    let alloc = rt.alloc();
    let mut out = BytesMut::new(alloc);
    char_to_sql(alloc, -1, &mut out)?;
    int2_to_sql(alloc, 2, &mut out)?;
    int4_to_sql(alloc, 3, &mut out)?;
    int8_to_sql(alloc, 4, &mut out)?;
    let cells = [0xff, 0, 2, 0, 0, 0, 3, 0, 0, 0, 0, 0, 0, 0, 4];
    same(out.as_slice(), &cells)
}

#[test]
fn unsigned_integers_and_texts_are_appended(rt: HostRuntime) -> Result<(), Fail> {
    let alloc = rt.alloc();
    let mut out = BytesMut::new(alloc);
    oid_to_sql(alloc, 4_294_967_294, &mut out)?;
    lsn_to_sql(alloc, 5, &mut out)?;
    text_to_sql(alloc, "ja", &mut out)?;
    ltree_to_sql(alloc, "a", &mut out)?;
    let cells = b"\xff\xff\xff\xfe\0\0\0\0\0\0\0\x05ja\x01a";
    same(out.as_slice(), cells)
}

#[test]
fn days_and_times_are_appended(rt: HostRuntime) -> Result<(), Fail> {
    let alloc = rt.alloc();
    let mut out = BytesMut::new(alloc);
    date_to_sql(alloc, -1, &mut out)?;
    time_to_sql(alloc, 2, &mut out)?;
    timestamp_to_sql(alloc, 3, &mut out)?;
    interval_to_sql(alloc, 4, 5, 6, &mut out)?;
    let cells = b"\xff\xff\xff\xff\0\0\0\0\0\0\0\x02\0\0\0\0\0\0\0\x03";
    let interval = b"\0\0\0\0\0\0\0\x04\0\0\0\x05\0\0\0\x06";
    same(out.strip_prefix(cells), Some(interval.as_slice()))
}

#[test]
fn booleans_bits_and_addresses_are_appended(rt: HostRuntime) -> Result<(), Fail> {
    let alloc = rt.alloc();
    let mut out = BytesMut::new(alloc);
    bool_to_sql(alloc, true, &mut out)?;
    varbit_to_sql(alloc, 3, &[0xbf], &mut out)?;
    macaddr_to_sql(alloc, [8, 0, 0x2b, 1, 2, 3], &mut out)?;
    uuid_to_sql(alloc, [7; 16], &mut out)?;
    let cells = b"\x01\0\0\0\x03\xa0\x08\0\x2b\x01\x02\x03";
    same(out.strip_prefix(cells), Some([7u8; 16].as_slice()))
}
