//! The columns of a COPY.
ghost use Rattle.std.specs.List.{AllZip};
ghost use Rattle.std.specs.Prelude.{◌≡◌, IfErr, IfOk, option_map, string_bytes};
ghost use Rattle.pg_copy.specs.ColumnTypes.{IsColumnFault, IsColumnOf, IsFieldFault, IsFieldNamed, IsFieldOf};
ghost use Rattle.pg_copy.specs.ColumnTypes.{IsFieldsFault, IsNameFault, IsTyped};
ghost use Rattle.pg_copy.specs.Types.{types_of, user_defined};
ghost use Rattle.pg_copy.specs.Words.{pieces};
ghost use Rattle.pg_copy.specs.declared.columns.TypeFault.TheVariants.{Memory};
ghost use Rattle.pg_types.specs.Content.{UserDefinedType, content, kind_content};

use crate::type_names::{TypeName, after_field_name, split_at_comma};
use crate::types::{Base, base_types};
use postgres_types::{Kind, Oid, Type};
use std::alloc::{AllocError, AllocFailed, Global};

/// A column of a COPY. Its values, and the elements of its arrays, may be NULL.
#[derive(Debug, Drop)]
pub struct Column {
    /// The type of its values, or of the elements of its arrays.
    pub base: Base,
    /// Whether its values are arrays.
    pub is_array: bool,
    /// The Postgres type of its values; for a composite type, and for arrays of it, BYTEA.
    pub ty: Type,
    /// The fields of a composite type; another type has none.
    pub fields: Vec<Field>,
}

/// A field of a composite type, whose values may be NULL.
#[derive(Debug, Drop)]
pub struct Field {
    /// The type of its values, or of the elements of its arrays.
    pub base: Base,
    /// Whether its values are arrays.
    pub is_array: bool,
    /// The Postgres type of its values.
    pub ty: Type,
}

/// Why a type cannot be that of a column.
#[derive(Debug, Clone, Copy, PartialEq, Eq)]
pub enum TypeFault {
    /// It has no conversion.
    Unknown,
    /// It is a composite type within another.
    Nested,
    /// An allocation failed.
    Memory,
}

impl From<AllocError> for TypeFault {
    ghost from_gives = { λ _ fault. fault ≡ Memory };

    fn from(_error: AllocError) -> TypeFault {
        TypeFault::Memory
    }
}

impl<T: Drop> From<AllocFailed<T>> for TypeFault {
    ghost from_gives = { λ _ fault. fault ≡ Memory };

    fn from(_error: AllocFailed<T>) -> TypeFault {
        TypeFault::Memory
    }
}

// The Postgres types of a type of the table: its own, and that of its arrays.
macro_rules! types {
    (($of:expr, $alloc:ident) $($base:ident $names:tt $types:tt,)*) => {
        match $of {
            $(Base::$base => row_types!($alloc $types),)*
            Base::Composite => Ok((Type::BYTEA, None)),
        }
    };
}

// The Postgres types of a row.
macro_rules! row_types {
    ($alloc:ident [$rust:ty, user $name:literal]) => {
        user_defined_types($alloc, "public", $name, 0, 0)
    };
    ($alloc:ident [$rust:ty, catalog $name:literal $own:literal $arrays:literal]) => {
        user_defined_types($alloc, "pg_catalog", $name, $own, $arrays)
    };
    ($alloc:ident [$rust:ty, $own:ident]) => {
        Ok((Type::$own, None))
    };
    ($alloc:ident [$rust:ty, $own:ident, $arrays:ident]) => {
        Ok((Type::$own, Some(Type::$arrays)))
    };
}

/// Creates a type that is not built in, and that of its arrays. The OIDs of a type that an extension
/// or a user made are unknown, and set to 0, which no type has: from version 14 on, servers check an
/// OID in a cell only if it is that of a built-in type (`array_recv`, `record_recv`).
fn user_defined_types(
    alloc: Global,
    schema: &str,
    name: &str,
    oid: Oid,
    array_oid: Oid,
) -> Result<(Type, Option<Type>), AllocError>
    ensures { IfOk result (λ types. (content types.0, option_map content types.1)
        ≡ user_defined schema.now name.now oid array_oid) }
{
    let own = user_defined_type(
        alloc,
        schema,
        String::from_str(alloc, name)?,
        oid,
        Kind::Simple,
    )?;
    let mut array_name = String::from_str(alloc, "_")?;
    array_name.push_str(name)?;
    let arrays = user_defined_type(
        alloc,
        schema,
        array_name,
        array_oid,
        Kind::Array(own.clone()?),
    )?;
    Ok((own, Some(arrays)))
}

/// Creates a type of the schema.
fn user_defined_type(
    alloc: Global,
    schema: &str,
    name: String,
    oid: Oid,
    kind: Kind,
) -> Result<Type, AllocError>
    ensures { IfOk result (λ ty. content ty
        ≡ UserDefinedType (string_bytes name) oid (kind_content kind) schema.now) }
{
    let schema = String::from_str(alloc, schema)?;
    Type::new(alloc, name, oid, kind, schema).map_err(|_| AllocError)
}

/// Returns the Postgres types of a type of the table: its own, and that of its arrays, if there are
/// any.
fn types_of(alloc: Global, base: Base) -> Result<(Type, Option<Type>), AllocError>
    ensures { IfOk result (λ types. (content types.0, option_map content types.1) ≡ types_of base) }
{
    base_types!(types(base, alloc))
}

impl Field {
    /// Creates a field of this type.
    fn parse(alloc: Global, name: TypeName<'_>) -> Result<Field, TypeFault>
        ensures ok { IfOk result (IsFieldNamed name.entry.name.now name.entry.is_array) }
        ensures err { IfErr result (IsNameFault name.entry.name.now name.entry.is_array) }
    {
        let Some(base) = name.base(alloc)? else {
            return Err(TypeFault::Unknown);
        };
        let (own, arrays) = types_of(alloc, base)?;
        let is_array = name.is_array;
        let ty = if is_array { arrays } else { Some(own) };
        match ty {
            Some(ty) => Ok(Field { base, is_array, ty }),
            None => Err(TypeFault::Unknown),
        }
    }
}

/// Parses a field of a composite type, which is a name and a type.
fn parse_field(alloc: Global, text: &str) -> Result<Field, TypeFault>
    ensures ok { IfOk result (IsFieldOf text.now) }
    ensures err { IfErr result (IsFieldFault text.now) }
{
    let Some(ty) = after_field_name(text) else {
        return Err(TypeFault::Unknown);
    };
    let name = TypeName::parse(ty);
    match name.fields() {
        Some(_) => Err(TypeFault::Nested),
        None => Field::parse(alloc, name),
    }
}

/// Parses the fields of a composite type, which have commas between them.
fn parse_fields(alloc: Global, text: &str) -> Result<Vec<Field>, TypeFault>
    ensures ok { IfOk result (λ fields. AllZip IsFieldOf (pieces text.now) fields.items) }
    ensures err { IfErr result (IsFieldsFault (pieces text.now)) }
{
    let mut fields = Vec::new(alloc);
    let mut rest = Some(text);
    while let Some(text) = rest {
        let (field, after) = split_at_comma(text);
        fields.push(parse_field(alloc, field)?)?;
        rest = after;
    }
    Ok(fields)
}

impl Column {
    /// Creates a column of the type with this name.
    pub fn parse(alloc: Global, text: &str) -> Result<Column, TypeFault>
        ensures ok { IfOk result (IsColumnOf text.now) }
        ensures typed { IfOk result IsTyped }
        ensures err { IfErr result (IsColumnFault text.now) }
    {
        let name = TypeName::parse(text);
        if let Some(fields) = name.fields() {
            return Ok(Column {
                base: Base::Composite,
                is_array: name.is_array,
                ty: Type::BYTEA,
                fields: parse_fields(alloc, fields)?,
            });
        }
        let Field { base, is_array, ty } = Field::parse(alloc, name)?;
        Ok(Column {
            base,
            is_array,
            ty,
            fields: Vec::new(alloc),
        })
    }
}
