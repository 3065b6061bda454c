//! The tests of accepted types that reading and writing share.
ghost use Rattle.std.specs.Prelude.{◌≡◌, codes, option_map};
ghost use Rattle.std.specs.Cow.{cow_value};
ghost use Rattle.pg_types.specs.declared.types.built_in.BuiltIn.TheVariants.{Date, Jsonb};
ghost use Rattle.pg_base.specs.ArrayTypes.{element_of};
ghost use Rattle.pg_base.specs.Bits.{accepted_bits};
ghost use Rattle.pg_types.specs.Content.{content, is_row};
ghost use Rattle.pg_base.specs.Json.{accepted_json};
ghost use Rattle.pg_base.specs.Timestamps.{accepts_timestamps};
ghost use Rattle.pg_base.specs.Texts.{accepted_text, has_version, is_named};

use crate::types::{KindRef, PgType};
use std::borrow::Cow;

/// Whether texts are read from and written to cells of this type: VARCHAR, TEXT, BPCHAR, NAME,
/// UNKNOWN, and every type named citext, ltree, lquery or ltxtquery, whatever its schema and kind.
#[inline(always)]
pub fn is_text(ty: &PgType) -> bool
    ensures { result ≡ accepted_text (content ty.now) }
{
    ty.is(&PgType::VARCHAR)
        || ty.is(&PgType::TEXT)
        || ty.is(&PgType::BPCHAR)
        || ty.is(&PgType::NAME)
        || ty.is(&PgType::UNKNOWN)
        || ty.name() == "citext"
        || has_version(ty)
}

/// Whether the cell of a text of this type begins with a version: the type is named ltree, lquery
/// or ltxtquery, which share one format.
#[inline(always)]
pub fn has_version(ty: &PgType) -> bool
    ensures { result ≡ has_version (content ty.now) }
{
    matches!(ty.name(), "ltree" | "lquery" | "ltxtquery")
}

/// Whether maps are read from and written to cells of this type: it is named hstore, whatever its
/// schema and kind.
pub fn is_hstore(ty: &PgType) -> bool
    ensures { result ≡ is_named (codes "hstore") (content ty.now) }
{
    ty.name() == "hstore"
}

/// Whether bit strings are read from and written to cells of this type: BIT and VARBIT.
pub fn is_bits(ty: &PgType) -> bool
    ensures { result ≡ accepted_bits (content ty.now) }
{
    ty.is(&PgType::BIT) || ty.is(&PgType::VARBIT)
}

/// Whether timestamps are read from and written to cells of this type: TIMESTAMP and TIMESTAMPTZ.
pub fn is_timestamp(ty: &PgType) -> bool
    ensures { result ≡ accepts_timestamps (content ty.now) }
{
    ty.is(&PgType::TIMESTAMP) || ty.is(&PgType::TIMESTAMPTZ)
}

/// Whether dates are read from and written to cells of this type: DATE.
pub fn is_date(ty: &PgType) -> bool
    ensures { result ≡ is_row Date (content ty.now) }
{
    ty.is(&PgType::DATE)
}

/// Whether JSON documents are read from and written to cells of this type: JSON and JSONB.
pub fn is_json(ty: &PgType) -> bool
    ensures { result ≡ accepted_json (content ty.now) }
{
    ty.is(&PgType::JSON) || is_jsonb(ty)
}

/// Whether the cell of a JSON document of this type begins with a version: the type is JSONB.
pub fn is_jsonb(ty: &PgType) -> bool
    ensures { result ≡ is_row Jsonb (content ty.now) }
{
    ty.is(&PgType::JSONB)
}

/// Returns the type of the elements if the type is an array, and `None` otherwise.
pub fn element_type(ty: &PgType) -> Option<Cow<'_, PgType>>
    ensures { option_map (λ element. content (cow_value element)) result ≡ element_of (content ty.now) }
{
    match ty.kind() {
        KindRef::Array(element) => Some(element),
        _ => None,
    }
}
