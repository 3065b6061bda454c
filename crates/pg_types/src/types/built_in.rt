//! The table of built-in types.
ghost use Rattle.std.specs.Prelude.{◌≡◌};
ghost use Rattle.pg_types.specs.BuiltInRows.{row_oid, row_name, row_element};

use super::Oid;

/// The table of the built-in types, as in the system catalog `pg_type` and in the order of the
/// OIDs. A row has the constant of `PgType`, the member of `BuiltIn`, the OID, the name and, for an
/// array, the member of its element type. The macro `$rows` is called with the arguments and then
/// all rows.
macro_rules! built_in_types {
    ($rows:ident $args:tt) => {
        $rows! { $args
            BOOL Bool 16 "bool",
            BYTEA Bytea 17 "bytea",
            CHAR Char 18 "char",
            NAME Name 19 "name",
            INT8 Int8 20 "int8",
            INT2 Int2 21 "int2",
            INT2_VECTOR Int2Vector 22 "int2vector" [Int2],
            INT4 Int4 23 "int4",
            TEXT Text 25 "text",
            OID Oid 26 "oid",
            OID_VECTOR OidVector 30 "oidvector" [Oid],
            JSON Json 114 "json",
            JSON_ARRAY JsonArray 199 "_json" [Json],
            CIDR Cidr 650 "cidr",
            CIDR_ARRAY CidrArray 651 "_cidr" [Cidr],
            UNKNOWN Unknown 705 "unknown",
            MACADDR Macaddr 829 "macaddr",
            INET Inet 869 "inet",
            BOOL_ARRAY BoolArray 1000 "_bool" [Bool],
            BYTEA_ARRAY ByteaArray 1001 "_bytea" [Bytea],
            CHAR_ARRAY CharArray 1002 "_char" [Char],
            NAME_ARRAY NameArray 1003 "_name" [Name],
            INT2_ARRAY Int2Array 1005 "_int2" [Int2],
            INT4_ARRAY Int4Array 1007 "_int4" [Int4],
            TEXT_ARRAY TextArray 1009 "_text" [Text],
            BPCHAR_ARRAY BpcharArray 1014 "_bpchar" [Bpchar],
            VARCHAR_ARRAY VarcharArray 1015 "_varchar" [Varchar],
            INT8_ARRAY Int8Array 1016 "_int8" [Int8],
            OID_ARRAY OidArray 1028 "_oid" [Oid],
            MACADDR_ARRAY MacaddrArray 1040 "_macaddr" [Macaddr],
            INET_ARRAY InetArray 1041 "_inet" [Inet],
            BPCHAR Bpchar 1042 "bpchar",
            VARCHAR Varchar 1043 "varchar",
            DATE Date 1082 "date",
            TIME Time 1083 "time",
            TIMESTAMP Timestamp 1114 "timestamp",
            TIMESTAMP_ARRAY TimestampArray 1115 "_timestamp" [Timestamp],
            DATE_ARRAY DateArray 1182 "_date" [Date],
            TIME_ARRAY TimeArray 1183 "_time" [Time],
            TIMESTAMPTZ Timestamptz 1184 "timestamptz",
            TIMESTAMPTZ_ARRAY TimestamptzArray 1185 "_timestamptz" [Timestamptz],
            INTERVAL Interval 1186 "interval",
            INTERVAL_ARRAY IntervalArray 1187 "_interval" [Interval],
            BIT Bit 1560 "bit",
            BIT_ARRAY BitArray 1561 "_bit" [Bit],
            VARBIT Varbit 1562 "varbit",
            VARBIT_ARRAY VarbitArray 1563 "_varbit" [Varbit],
            UUID Uuid 2950 "uuid",
            UUID_ARRAY UuidArray 2951 "_uuid" [Uuid],
            PG_LSN PgLsn 3220 "pg_lsn",
            PG_LSN_ARRAY PgLsnArray 3221 "_pg_lsn" [PgLsn],
            JSONB Jsonb 3802 "jsonb",
            JSONB_ARRAY JsonbArray 3807 "_jsonb" [Jsonb],
        }
    };
}

pub(super) use built_in_types;

// A row of the table of built-in types.
#[derive(Clone, Copy, Debug, PartialEq, Eq, Hash)]
pub(super) enum BuiltIn {
    Bool,
    Bytea,
    Char,
    Name,
    Int8,
    Int2,
    Int2Vector,
    Int4,
    Text,
    Oid,
    OidVector,
    Json,
    JsonArray,
    Cidr,
    CidrArray,
    Unknown,
    Macaddr,
    Inet,
    BoolArray,
    ByteaArray,
    CharArray,
    NameArray,
    Int2Array,
    Int4Array,
    TextArray,
    BpcharArray,
    VarcharArray,
    Int8Array,
    OidArray,
    MacaddrArray,
    InetArray,
    Bpchar,
    Varchar,
    Date,
    Time,
    Timestamp,
    TimestampArray,
    DateArray,
    TimeArray,
    Timestamptz,
    TimestamptzArray,
    Interval,
    IntervalArray,
    Bit,
    BitArray,
    Varbit,
    VarbitArray,
    Uuid,
    UuidArray,
    PgLsn,
    PgLsnArray,
    Jsonb,
    JsonbArray,
}

// The OID of a row.
macro_rules! oid_of {
    (($row:expr) $($constant:ident $member:ident $oid:literal $name:literal $([$element:ident])?,)*) => {
        match $row {
            $(BuiltIn::$member => $oid,)*
        }
    };
}

// The name of a row.
macro_rules! name_of {
    (($row:expr) $($constant:ident $member:ident $oid:literal $name:literal $([$element:ident])?,)*) => {
        match $row {
            $(BuiltIn::$member => $name,)*
        }
    };
}

// The row of the element type of a row.
macro_rules! element_of {
    (($row:expr) $($constant:ident $member:ident $oid:literal $name:literal $([$element:ident])?,)*) => {
        match $row {
            $($(BuiltIn::$member => Some(BuiltIn::$element),)?)*
            _ => None,
        }
    };
}

impl BuiltIn {
    pub(super) fn oid(self) -> Oid
        ensures { result ≡ row_oid self }
    {
        built_in_types!(oid_of(self))
    }

    #[inline(always)]
    pub(super) fn name(self) -> &'static str
        ensures { result.now ≡ row_name self }
    {
        built_in_types!(name_of(self))
    }

    // The element type of an array type; `None` for another type.
    pub(super) fn element(self) -> Option<BuiltIn>
        ensures { result ≡ row_element self }
    {
        built_in_types!(element_of(self))
    }
}
