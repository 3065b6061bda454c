//! The table of base names.
ghost use Rattle.std.specs.Prelude.{◌≡◌, ◌==◌};
ghost use Rattle.std.specs.Cmp.Lexicographic.{pointwise};
ghost use Rattle.named_types.specs.BaseNames.{base_name, base_of, has_arrays};

/// The table of the base names, in alphabetical order and grouped by their first letters. A row has
/// the member of [`Base`], the name, its Rust type, its Postgres type and, if there are arrays of
/// it, their Postgres type. A Postgres type is a constant of `Type`, or, for a user-defined type,
/// `user` with the function of `pg_record::types` that makes it, its OID, and its name if the
/// function takes one, or, for a type of the schema `pg_catalog`, `catalog` with the functions that
/// make both types. The macro `$rows` is called with the arguments and then all rows.
#[macro_export]
macro_rules! base_names {
    ($rows:ident $args:tt) => {
        $rows! { $args
            b'a' {
                Addr "addr" [std::net::IpAddr, INET, INET_ARRAY],
            }
            b'b' {
                Bit "bit" [postgres_types::BitVec, BIT, BIT_ARRAY],
                Bool "bool" [bool, BOOL, BOOL_ARRAY],
                Bpchar "bpchar" [String, BPCHAR, BPCHAR_ARRAY],
                Bytea "bytea" [Vec<u8>, BYTEA, BYTEA_ARRAY],
            }
            b'c' {
                Char "char" [i8, CHAR, CHAR_ARRAY],
                Cidr "cidr" [postgres_types::IpCidr, CIDR, CIDR_ARRAY],
            }
            b'd' {
                Date "date" [jiff::civil::Date, DATE, DATE_ARRAY],
                DateInf "date_inf" [postgres_types::Date<jiff::civil::Date>, DATE, DATE_ARRAY],
            }
            b'f' {
                Float4 "float4"
                    [pg_numbers::Float4, catalog(pg_numbers::types::float4_type, pg_numbers::types::float4_array_type)],
                Float8 "float8"
                    [pg_numbers::Float8, catalog(pg_numbers::types::float8_type, pg_numbers::types::float8_array_type)],
            }
            b'h' {
                Hstore "hstore" [std::collections::HashMap<String, Option<String>>, user(simple_type 100_002 "hstore")],
            }
            b'i' {
                Inet "inet" [postgres_types::IpInet, INET, INET_ARRAY],
                Int2 "int2" [i16, INT2, INT2_ARRAY],
                Int2Vector "int2vector" [Vec<i16>, INT2_VECTOR],
                Int4 "int4" [i32, INT4, INT4_ARRAY],
                Int8 "int8" [i64, INT8, INT8_ARRAY],
                Interval "interval" [postgres_types::Interval, INTERVAL, INTERVAL_ARRAY],
                Item "item"
                    [pg_record::InventoryItem, user(item_type 100_003), user(item_array_type 100_004)],
            }
            b'l' {
                Ltree "ltree" [String, user(simple_type 100_001 "ltree")],
            }
            b'm' {
                Macaddr "macaddr" [postgres_types::MacAddress, MACADDR, MACADDR_ARRAY],
                Mood "mood" [pg_record::Mood, user(mood_type 100_005)],
            }
            b'n' {
                Name "name" [String, NAME, NAME_ARRAY],
                Numeric "numeric"
                    [pg_numbers::Numeric,
                        catalog(pg_numbers::types::numeric_type, pg_numbers::types::numeric_array_type)],
            }
            b'o' {
                Oid "oid" [u32, OID, OID_ARRAY],
                OidVector "oidvector" [Vec<u32>, OID_VECTOR],
            }
            b'p' {
                PgLsn "pg_lsn" [postgres_types::PgLsn, PG_LSN, PG_LSN_ARRAY],
            }
            b's' {
                Session "session" [pg_record::SessionId, user(session_id_type 100_006)],
            }
            b't' {
                Text "text" [String, TEXT, TEXT_ARRAY],
                Time "time" [jiff::civil::Time, TIME, TIME_ARRAY],
                Timestamp "timestamp" [jiff::civil::DateTime, TIMESTAMP, TIMESTAMP_ARRAY],
                TimestampInf "timestamp_inf"
                    [postgres_types::Timestamp<jiff::civil::DateTime>, TIMESTAMP, TIMESTAMP_ARRAY],
                Timestamptz "timestamptz" [jiff::Timestamp, TIMESTAMPTZ, TIMESTAMPTZ_ARRAY],
            }
            b'u' {
                Unix "unix" [postgres_types::UnixTime, TIMESTAMP, TIMESTAMP_ARRAY],
                UnixInf "unix_inf" [postgres_types::Timestamp<postgres_types::UnixTime>, TIMESTAMP, TIMESTAMP_ARRAY],
                Unknown "unknown" [String, UNKNOWN],
                Uuid "uuid" [uuid::Uuid, UUID, UUID_ARRAY],
            }
            b'v' {
                Varbit "varbit" [postgres_types::BitVec, VARBIT, VARBIT_ARRAY],
                Varchar "varchar" [String, VARCHAR, VARCHAR_ARRAY],
            }
        }
    };
}

/// A base name.
#[derive(Debug, Clone, Copy, PartialEq, Eq)]
pub enum Base {
    Addr,
    Bit,
    Bool,
    Bpchar,
    Bytea,
    Char,
    Cidr,
    Date,
    DateInf,
    Float4,
    Float8,
    Hstore,
    Inet,
    Int2,
    Int2Vector,
    Int4,
    Int8,
    Interval,
    Item,
    Ltree,
    Macaddr,
    Mood,
    Name,
    Numeric,
    Oid,
    OidVector,
    PgLsn,
    Session,
    Text,
    Time,
    Timestamp,
    TimestampInf,
    Timestamptz,
    Unix,
    UnixInf,
    Unknown,
    Uuid,
    Varbit,
    Varchar,
}

// Only the base names that begin with the first letter of the bytes are compared with them.
macro_rules! found {
    (($bytes:ident) $($letter:literal { $($base:ident $name:literal $types:tt,)* })*) => {
        match $bytes {
            $([$letter, ..] => match $bytes {
                $(_ if is_name($bytes, $name) => Some(Base::$base),)*
                _ => None,
            },)*
            _ => None,
        }
    };
}

/// Whether the bytes are the name. It is inlined, so that the constant length of a name leaves a
/// comparison or two.
#[inline(always)]
fn is_name(bytes: &[u8], name: &str) -> bool
    ensures { result ≡ pointwise ◌==◌ bytes.now name.now }
{
    let name = name.as_bytes();
    if bytes.len() != name.len() {
        return false;
    }
    'bytes: for i in 0..bytes.len() {
        if bytes[i] != name[i] {
            return false;
        }
    }
    true
}

// All base names.
macro_rules! all {
    (() $($letter:literal { $($base:ident $name:literal $types:tt,)* })*) => {
        [$($(Base::$base,)*)*]
    };
}

// The name of a base name.
macro_rules! name_of {
    (($of:expr) $($letter:literal { $($base:ident $name:literal $types:tt,)* })*) => {
        match $of {
            $($(Base::$base => $name,)*)*
        }
    };
}

// Whether a base name has arrays: its row has two Postgres types.
macro_rules! has_arrays {
    (($of:expr) $($letter:literal { $($base:ident $name:literal $types:tt,)* })*) => {
        match $of {
            $($(Base::$base => has_arrays!($types),)*)*
        }
    };
    ([$rust:ty, user $own:tt]) => {
        false
    };
    ([$rust:ty, $own:ident]) => {
        false
    };
    ([$rust:ty, $($types:tt)*]) => {
        true
    };
}

impl Base {
    /// All base names, in alphabetical order.
    pub const ALL: &'static [Base] = &base_names!(all());

    /// Whether the base name has arrays.
    pub fn has_arrays(self) -> bool
        ensures { result ≡ has_arrays self }
    {
        base_names!(has_arrays(self))
    }

    /// Returns the base name that the bytes are, or `None` if they are not one.
    #[inline(never)]
    pub fn parse(bytes: &[u8]) -> Option<Base>
        ensures { result ≡ base_of bytes.now }
    {
        base_names!(found(bytes))
    }

    /// Returns the name.
    pub fn name(self) -> &'static str
        ensures { result.now ≡ base_name self }
    {
        base_names!(name_of(self))
    }
}
