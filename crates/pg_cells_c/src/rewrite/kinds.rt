//! The built-in types, by the formats of their cells.
ghost use Rattle.std.specs.Prelude.{◌≡◌};
ghost use Rattle.pg_cells_c.specs.Kinds.{kind_at};

/// A format of the cells of built-in types.
#[derive(Clone, Copy)]
pub(crate) enum Kind {
    /// One byte. Any byte but 0 is read as true; the byte that is written is 0 or 1.
    Bool,
    /// Any bytes.
    Bytea,
    /// A text in UTF-8.
    Text,
    /// This number of bytes, each with any value.
    Fixed(usize),
    /// A number of bits, and the bytes of the bits.
    Bits,
    /// An address with its netmask.
    Inet,
    /// A network: an address with its netmask, whose bits after the netmask are 0.
    Cidr,
}

/// Returns the format of the cells of the type with that OID. It is `None` for arrays, for JSON
/// documents and for types that are not built in.
pub(crate) fn kind_of(oid: u32) -> Option<Kind>
    ensures { result ≡ kind_at oid }
{
    let kind = match oid {
        16 => Kind::Bool,
        17 => Kind::Bytea,
        // "char"
        18 => Kind::Fixed(1),
        // name, text, unknown, bpchar, varchar
        19 | 25 | 705 | 1042 | 1043 => Kind::Text,
        // int2
        21 => Kind::Fixed(2),
        // int4, oid, date
        23 | 26 | 1082 => Kind::Fixed(4),
        // int8, time, timestamp, timestamptz, pg_lsn
        20 | 1083 | 1114 | 1184 | 3220 => Kind::Fixed(8),
        650 => Kind::Cidr,
        // macaddr
        829 => Kind::Fixed(6),
        869 => Kind::Inet,
        // interval, uuid
        1186 | 2950 => Kind::Fixed(16),
        // bit, varbit
        1560 | 1562 => Kind::Bits,
        _ => return None,
    };
    Some(kind)
}
