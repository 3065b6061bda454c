//! The texts of addresses: `Display` writes them as `inet_out`, `cidr_out` and `macaddr_out`, and
//! `FromStr` parses them.

use pg_more_types::MacAddress8;
use postgres_types::{Fault, IpCidr, IpInet, MacAddress};
use std::alloc::Global;
use std::fmt::Display;
use std::str::FromStr;
use std::test::Fail;
use test_support::code::{HOST_BITS, NETMASK, USER};
use test_support::{displays, fault_code, same};

/// A text that is read, and the text of its value.
const INETS: [(&str, &str); 14] = [
    ("255.255.255.255", "255.255.255.255"),
    ("10.1.2.3/8", "10.1.2.3/8"),
    ("1.2.3.4/0", "1.2.3.4/0"),
    ("10.1.2.3/32", "10.1.2.3"),
    ("::", "::"),
    ("::1", "::1"),
    ("::1.2.3.4", "::1.2.3.4"),
    ("::ffff:1.2.3.4", "::ffff:1.2.3.4"),
    ("2001:db8::1:0:0:1/64", "2001:db8::1:0:0:1/64"),
    ("1::8", "1::8"),
    ("fe80:1:2:3:4:5:6:7/127", "fe80:1:2:3:4:5:6:7/127"),
    ("::1/128", "::1"),
    ("0:0:0:0:0:0:0:1/64", "::1/64"),
    ("FE80::A/+9", "fe80::a/9"),
];

const CIDRS: [(&str, &str); 4] = [
    ("10.0.0.0/8", "10.0.0.0/8"),
    ("1.2.3.4", "1.2.3.4/32"),
    ("2001:db8::/32", "2001:db8::/32"),
    ("::1/128", "::1/128"),
];

const MACS: [(&str, &str); 2] = [
    ("08:00:2b:01:02:03", "08:00:2b:01:02:03"),
    ("08:00:2B:01:02:FF", "08:00:2b:01:02:ff"),
];

const MACS8: [(&str, &str); 4] = [
    ("08:00:2b:01:02:03:04:05", "08:00:2b:01:02:03:04:05"),
    ("08-00-2B-01-02-03-04-FF", "08:00:2b:01:02:03:04:ff"),
    ("0800.2b01.0203.0405.", "08:00:2b:01:02:03:04:05"),
    ("08002b0102030405", "08:00:2b:01:02:03:04:05"),
];

/// Texts that are no address with a netmask, and their faults.
const NO_INETS: [(&str, u32); 6] = [
    ("", USER),
    ("10.1.2/8", USER),
    ("10.1.2.3/-1", USER),
    ("10.1.2.3/8/8", USER),
    ("10.1.2.3/33", NETMASK),
    ("10.1.2.3/+0000000000000000000000256", NETMASK),
];

const NO_CIDRS: [(&str, u32); 2] = [("10.1.2.3/8", HOST_BITS), ("a", USER)];

const NO_MACS: [(&str, u32); 2] = [("08:00:2b:01:02:0g", USER), ("8:0:2b:1:2:3", USER)];

const NO_MACS8: [(&str, u32); 5] = [
    ("08:00:2b:01:02:03:04:0g", USER),
    ("08:00:2b:01-02-03-04-05", USER),
    ("08::00:2b:01:02:03:04:05", USER),
    ("08:00:2b:01:02:03:04", USER),
    ("8:0:2b:1:2:3:4:5", USER),
];

/// Tests that each text is parsed to a value with this text.
fn are_shown<T: FromStr<Err = Fault> + Display + Drop>(
    alloc: Global,
    texts: &[(&str, &str)],
) -> Result<(), Fail> {
    for (text, shown) in texts {
        displays(alloc, &text.parse::<T>()?, shown)?;
    }
    Ok(())
}

/// Tests that each text is refused with this fault.
fn are_refused<T: FromStr<Err = Fault> + Drop>(texts: &[(&str, u32)]) -> Result<(), Fail> {
    for (text, code) in texts {
        same(fault_code(text.parse::<T>()), *code)?;
    }
    Ok(())
}

#[test]
fn addresses_have_their_texts(rt: HostRuntime) -> Result<(), Fail> {
    are_shown::<IpInet>(rt.alloc(), &INETS)?;
    are_shown::<IpCidr>(rt.alloc(), &CIDRS)?;
    are_shown::<MacAddress>(rt.alloc(), &MACS)?;
    are_shown::<MacAddress8>(rt.alloc(), &MACS8)
}

#[test]
fn texts_that_are_no_address_are_refused(_rt: HostRuntime) -> Result<(), Fail> {
    are_refused::<IpInet>(&NO_INETS)?;
    are_refused::<IpCidr>(&NO_CIDRS)?;
    are_refused::<MacAddress>(&NO_MACS)?;
    are_refused::<MacAddress8>(&NO_MACS8)
}
