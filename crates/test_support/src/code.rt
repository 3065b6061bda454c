//! The numbers of the faults, by their names.

pub const MEMORY: u32 = 1;

pub const WAS_NULL: u32 = 2;

pub const WRONG_TYPE: u32 = 3;

pub const SIZE: u32 = 4;

pub const UTF8: u32 = 5;

pub const COUNT: u32 = 6;

pub const KEY_LENGTH: u32 = 7;

pub const DIMENSIONS: u32 = 8;

pub const TOO_FEW: u32 = 9;

pub const EXCESS: u32 = 10;

pub const DECODE: u32 = 11;

pub const TRANSMIT: u32 = 12;

pub const JSON_VERSION: u32 = 13;

pub const TEXT_VERSION: u32 = 14;

pub const JSON_TEXT: u32 = 15;

pub const JSON_NUMBER: u32 = 16;

pub const FAMILY: u32 = 17;

pub const NETMASK: u32 = 18;

pub const ADDRESS_LENGTH: u32 = 19;

pub const HOST_BITS: u32 = 20;

pub const USER: u32 = 21;

pub const FIELD_COUNT: u32 = 22;

pub const FIELD_OID: u32 = 23;
