//! The PostgreSQL types of columns.
ghost use Rattle.std.specs.Prelude.{◌≡◌, Some, slice_get};
ghost use Rattle.pg_copy.specs.Types.{base_of, has_arrays, has_name, names_of};

/// The table of the types with a conversion, in alphabetical order. A row has the member of
/// [`Base`], its names (faults and the help print the first one), its Rust type, and its Postgres
/// type and that of its arrays, if there are any. A Postgres type is a constant of `Type`; or
/// `user` and the name by which the library knows the type of an extension or a user, which has
/// arrays; or, for another type of the schema `pg_catalog`, `catalog` with its name, its OID and
/// that of its arrays. The macro `$rows` is called with the arguments and then all rows.
///
/// The values of an enumerated type are labels, whose cells are like those of citext. A type that
/// has no conversion may be named `raw`: its cells are read and written as those of bytea.
macro_rules! base_types {
    ($rows:ident $args:tt) => {
        $rows! { $args
            Bit ["bit"] [postgres_types::BitVec, BIT, BIT_ARRAY],
            Bool ["bool" "boolean"] [bool, BOOL, BOOL_ARRAY],
            Bpchar ["bpchar" "character" "char"] [String, BPCHAR, BPCHAR_ARRAY],
            Bytea ["bytea" "raw"] [Vec<u8>, BYTEA, BYTEA_ARRAY],
            Char ["\"char\""] [i8, CHAR, CHAR_ARRAY],
            Cidr ["cidr"] [postgres_types::IpCidr, CIDR, CIDR_ARRAY],
            Citext ["citext"] [String, user "citext"],
            Date ["date"] [postgres_types::Date<jiff::civil::Date>, DATE, DATE_ARRAY],
            Enum ["enum"] [String, user "citext"],
            Float4 ["float4" "real"] [pg_numbers::Float4, catalog "float4" 700 1021],
            Float8 ["float8" "double precision"] [pg_numbers::Float8, catalog "float8" 701 1022],
            Hstore ["hstore"] [std::collections::HashMap<String, Option<String>>, user "hstore"],
            Inet ["inet"] [postgres_types::IpInet, INET, INET_ARRAY],
            Int2 ["int2" "smallint" "smallserial"] [i16, INT2, INT2_ARRAY],
            Int2Vector ["int2vector"] [Vec<i16>, INT2_VECTOR],
            Int4 ["int4" "integer" "int" "serial"] [i32, INT4, INT4_ARRAY],
            Int8 ["int8" "bigint" "bigserial"] [i64, INT8, INT8_ARRAY],
            Interval ["interval"] [postgres_types::Interval, INTERVAL, INTERVAL_ARRAY],
            Json ["json"] [postgres_types::JsonText<String>, JSON, JSON_ARRAY],
            Jsonb ["jsonb"] [postgres_types::JsonText<String>, JSONB, JSONB_ARRAY],
            Lquery ["lquery"] [String, user "lquery"],
            Ltree ["ltree"] [String, user "ltree"],
            Ltxtquery ["ltxtquery"] [String, user "ltxtquery"],
            Macaddr ["macaddr"] [postgres_types::MacAddress, MACADDR, MACADDR_ARRAY],
            Macaddr8 ["macaddr8"] [pg_more_types::MacAddress8, catalog "macaddr8" 774 775],
            Name ["name"] [String, NAME, NAME_ARRAY],
            Numeric ["numeric" "decimal" "dec"] [pg_numbers::Numeric, catalog "numeric" 1700 1231],
            Oid ["oid"] [u32, OID, OID_ARRAY],
            OidVector ["oidvector"] [Vec<u32>, OID_VECTOR],
            PgLsn ["pg_lsn"] [postgres_types::PgLsn, PG_LSN, PG_LSN_ARRAY],
            Text ["text"] [String, TEXT, TEXT_ARRAY],
            Time ["time" "time without time zone"] [jiff::civil::Time, TIME, TIME_ARRAY],
            Timestamp ["timestamp" "timestamp without time zone"]
                [postgres_types::Timestamp<postgres_types::UnixTime>, TIMESTAMP, TIMESTAMP_ARRAY],
            Timestamptz ["timestamptz" "timestamp with time zone"]
                [postgres_types::Timestamp<jiff::Timestamp>, TIMESTAMPTZ, TIMESTAMPTZ_ARRAY],
            Unknown ["unknown"] [String, UNKNOWN],
            Uuid ["uuid"] [uuid::Uuid, UUID, UUID_ARRAY],
            Varbit ["varbit" "bit varying"] [postgres_types::BitVec, VARBIT, VARBIT_ARRAY],
            Varchar ["varchar" "character varying"] [String, VARCHAR, VARCHAR_ARRAY],
        }
    };
}

pub(crate) use base_types;

/// The type of the values of a column, or of the elements of its arrays.
#[derive(Debug, Clone, Copy, PartialEq, Eq)]
pub enum Base {
    Bit,
    Bool,
    Bpchar,
    Bytea,
    Char,
    Cidr,
    Citext,
    Date,
    Enum,
    Float4,
    Float8,
    Hstore,
    Inet,
    Int2,
    Int2Vector,
    Int4,
    Int8,
    Interval,
    Json,
    Jsonb,
    Lquery,
    Ltree,
    Ltxtquery,
    Macaddr,
    Macaddr8,
    Name,
    Numeric,
    Oid,
    OidVector,
    PgLsn,
    Text,
    Time,
    Timestamp,
    Timestamptz,
    Unknown,
    Uuid,
    Varbit,
    Varchar,
    /// A composite type.
    Composite,
}

// Whether a type has a name.
macro_rules! is_named {
    (($of:expr, $name:expr) $($base:ident [$($own:literal)+] $types:tt,)*) => {
        match $of {
            $(Base::$base => matches!($name, $($own)|+),)*
            Base::Composite => $name == "record",
        }
    };
}

// All types of the table.
macro_rules! all {
    (() $($base:ident $names:tt $types:tt,)*) => {
        [$(Base::$base,)*]
    };
}

// The first name of a type.
macro_rules! name_of {
    (($of:expr) $($base:ident [$name:literal $($other:literal)*] $types:tt,)*) => {
        match $of {
            $(Base::$base => $name,)*
            Base::Composite => "record",
        }
    };
}

// Whether a type has arrays: its row has two Postgres types, or it is user-defined.
macro_rules! has_arrays {
    (($of:expr) $($base:ident $names:tt $types:tt,)*) => {
        match $of {
            $(Base::$base => has_arrays!($types),)*
            Base::Composite => true,
        }
    };
    ([$rust:ty, $own:ident]) => {
        false
    };
    ($types:tt) => {
        true
    };
}

impl Base {
    /// All types that have names, in alphabetical order.
    pub const ALL: &'static [Base] = &base_types!(all());

    /// Returns the type with this name, which is in lower case, without a schema or a modifier.
    pub fn parse(name: &str) -> Option<Base>
        ensures { result ≡ base_of name.now }
    {
        Base::ALL.iter().copied().find(|base| base.is_named(name))
    }

    /// Whether the name is one of the type's.
    fn is_named(self, name: &str) -> bool
        ensures { result ≡ has_name self name.now }
    {
        base_types!(is_named(self, name))
    }

    /// Returns the first name of the type.
    pub fn name(self) -> &'static str
        ensures { slice_get (names_of self) 0 ≡ Some result.now }
    {
        base_types!(name_of(self))
    }

    /// Whether the type has arrays.
    pub fn has_arrays(self) -> bool
        ensures { result ≡ has_arrays self }
    {
        base_types!(has_arrays(self))
    }
}
