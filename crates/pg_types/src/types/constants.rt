//! The built-in types, by name and by OID.
ghost use Rattle.std.specs.Prelude.{◌≡◌, ◌≢◌, IfSome, IsNone};
ghost use Rattle.pg_types.specs.BuiltInRows.{row_oid};
ghost use Rattle.pg_types.specs.Content.{IsBuiltIn, content, oid_of};

use super::built_in::{BuiltIn, built_in_types};
use super::{Inner, Oid, PgType};

// The type of a row.
macro_rules! built_in {
    ($member:ident) => {
        PgType {
            inner: Inner::BuiltIn(BuiltIn::$member),
        }
    };
}

// The constant of an OID.
macro_rules! constant_of {
    (($of:expr) $($constant:ident $member:ident $oid:literal $name:literal $([$element:ident])?,)*) => {
        match $of {
            $($oid => Some(PgType::$constant),)*
            _ => None,
        }
    };
}

impl PgType {
    /// `bool`, OID 16.
    pub const BOOL: PgType = built_in!(Bool);
    /// `bytea`, OID 17.
    pub const BYTEA: PgType = built_in!(Bytea);
    /// `char`, OID 18: the one-byte type `"char"`, and not `char(n)`.
    pub const CHAR: PgType = built_in!(Char);
    /// `name`, OID 19.
    pub const NAME: PgType = built_in!(Name);
    /// `int8`, OID 20.
    pub const INT8: PgType = built_in!(Int8);
    /// `int2`, OID 21.
    pub const INT2: PgType = built_in!(Int2);
    /// `int2vector`, OID 22: an array of `int2`, as the system catalogs use it.
    pub const INT2_VECTOR: PgType = built_in!(Int2Vector);
    /// `int4`, OID 23.
    pub const INT4: PgType = built_in!(Int4);
    /// `text`, OID 25.
    pub const TEXT: PgType = built_in!(Text);
    /// `oid`, OID 26.
    pub const OID: PgType = built_in!(Oid);
    /// `oidvector`, OID 30: an array of `oid`, as the system catalogs use it.
    pub const OID_VECTOR: PgType = built_in!(OidVector);
    /// `json`, OID 114.
    pub const JSON: PgType = built_in!(Json);
    /// `_json`, OID 199: an array of `json`.
    pub const JSON_ARRAY: PgType = built_in!(JsonArray);
    /// `cidr`, OID 650.
    pub const CIDR: PgType = built_in!(Cidr);
    /// `_cidr`, OID 651: an array of `cidr`.
    pub const CIDR_ARRAY: PgType = built_in!(CidrArray);
    /// `unknown`, OID 705.
    pub const UNKNOWN: PgType = built_in!(Unknown);
    /// `macaddr`, OID 829.
    pub const MACADDR: PgType = built_in!(Macaddr);
    /// `inet`, OID 869.
    pub const INET: PgType = built_in!(Inet);
    /// `_bool`, OID 1000: an array of `bool`.
    pub const BOOL_ARRAY: PgType = built_in!(BoolArray);
    /// `_bytea`, OID 1001: an array of `bytea`.
    pub const BYTEA_ARRAY: PgType = built_in!(ByteaArray);
    /// `_char`, OID 1002: an array of `char`.
    pub const CHAR_ARRAY: PgType = built_in!(CharArray);
    /// `_name`, OID 1003: an array of `name`.
    pub const NAME_ARRAY: PgType = built_in!(NameArray);
    /// `_int2`, OID 1005: an array of `int2`.
    pub const INT2_ARRAY: PgType = built_in!(Int2Array);
    /// `_int4`, OID 1007: an array of `int4`.
    pub const INT4_ARRAY: PgType = built_in!(Int4Array);
    /// `_text`, OID 1009: an array of `text`.
    pub const TEXT_ARRAY: PgType = built_in!(TextArray);
    /// `_bpchar`, OID 1014: an array of `bpchar`.
    pub const BPCHAR_ARRAY: PgType = built_in!(BpcharArray);
    /// `_varchar`, OID 1015: an array of `varchar`.
    pub const VARCHAR_ARRAY: PgType = built_in!(VarcharArray);
    /// `_int8`, OID 1016: an array of `int8`.
    pub const INT8_ARRAY: PgType = built_in!(Int8Array);
    /// `_oid`, OID 1028: an array of `oid`.
    pub const OID_ARRAY: PgType = built_in!(OidArray);
    /// `_macaddr`, OID 1040: an array of `macaddr`.
    pub const MACADDR_ARRAY: PgType = built_in!(MacaddrArray);
    /// `_inet`, OID 1041: an array of `inet`.
    pub const INET_ARRAY: PgType = built_in!(InetArray);
    /// `bpchar`, OID 1042: the type `char(n)`.
    pub const BPCHAR: PgType = built_in!(Bpchar);
    /// `varchar`, OID 1043: the type `varchar(n)`.
    pub const VARCHAR: PgType = built_in!(Varchar);
    /// `date`, OID 1082.
    pub const DATE: PgType = built_in!(Date);
    /// `time`, OID 1083.
    pub const TIME: PgType = built_in!(Time);
    /// `timestamp`, OID 1114.
    pub const TIMESTAMP: PgType = built_in!(Timestamp);
    /// `_timestamp`, OID 1115: an array of `timestamp`.
    pub const TIMESTAMP_ARRAY: PgType = built_in!(TimestampArray);
    /// `_date`, OID 1182: an array of `date`.
    pub const DATE_ARRAY: PgType = built_in!(DateArray);
    /// `_time`, OID 1183: an array of `time`.
    pub const TIME_ARRAY: PgType = built_in!(TimeArray);
    /// `timestamptz`, OID 1184.
    pub const TIMESTAMPTZ: PgType = built_in!(Timestamptz);
    /// `_timestamptz`, OID 1185: an array of `timestamptz`.
    pub const TIMESTAMPTZ_ARRAY: PgType = built_in!(TimestamptzArray);
    /// `interval`, OID 1186.
    pub const INTERVAL: PgType = built_in!(Interval);
    /// `_interval`, OID 1187: an array of `interval`.
    pub const INTERVAL_ARRAY: PgType = built_in!(IntervalArray);
    /// `bit`, OID 1560.
    pub const BIT: PgType = built_in!(Bit);
    /// `_bit`, OID 1561: an array of `bit`.
    pub const BIT_ARRAY: PgType = built_in!(BitArray);
    /// `varbit`, OID 1562.
    pub const VARBIT: PgType = built_in!(Varbit);
    /// `_varbit`, OID 1563: an array of `varbit`.
    pub const VARBIT_ARRAY: PgType = built_in!(VarbitArray);
    /// `uuid`, OID 2950.
    pub const UUID: PgType = built_in!(Uuid);
    /// `_uuid`, OID 2951: an array of `uuid`.
    pub const UUID_ARRAY: PgType = built_in!(UuidArray);
    /// `pg_lsn`, OID 3220.
    pub const PG_LSN: PgType = built_in!(PgLsn);
    /// `_pg_lsn`, OID 3221: an array of `pg_lsn`.
    pub const PG_LSN_ARRAY: PgType = built_in!(PgLsnArray);
    /// `jsonb`, OID 3802.
    pub const JSONB: PgType = built_in!(Jsonb);
    /// `_jsonb`, OID 3807: an array of `jsonb`.
    pub const JSONB_ARRAY: PgType = built_in!(JsonbArray);

    /// Returns the built-in type with this OID, or `None` if there is none.
    pub fn from_oid(oid: Oid) -> Option<PgType>
        ensures some { IfSome result (λ t. IsBuiltIn (content t) × (oid_of (content t) ≡ oid)) }
        ensures none { IsNone result → (row : _) → row_oid row ≢ oid }
    {
        built_in_types!(constant_of(oid))
    }
}
