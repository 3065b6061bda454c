//! The kind of a type, from a row of the catalog and the types of its parts.
ghost use Rattle.std.specs.Prelude.{◌≡◌, IfErr, IfOk, map, string_bytes};
ghost use Rattle.pg_client.specs.CatalogRows.{kind_of_letter};
ghost use Rattle.pg_client.specs.CatalogTypes.{AreFields, IsKindOf, IsTypeOf, IsWhy, IsWhyNoFields, IsWhyNoPart};
ghost use Rattle.pg_client.specs.CatalogTypes.{table_of};
ghost use Rattle.pg_client.specs.declared.catalog.refused.TypeFault.TheVariants.{Memory};
ghost use Rattle.pg_types.specs.Content.{UserDefinedType, content, kind_content};

use super::{Catalog, TypeFault, TypeRow};
use postgres_types::{Field, Kind, Oid, Type};
use std::alloc::Global;

/// The kind of a type, as the system catalogs give it.
#[derive(Debug, Clone, Copy, PartialEq, Eq)]
pub(super) enum TypeKind {
    Base,
    Enum,
    Pseudo,
    Array,
    Range,
    Multirange,
    Domain,
    Composite,
}

impl TypeKind {
    /// Returns the kind for this letter, or `None` if it is unknown.
    pub(super) fn from_letter(letter: i8) -> Option<TypeKind>
        ensures { result ≡ kind_of_letter letter }
    {
        match u8::try_from(letter).ok()? {
            b'a' => Some(TypeKind::Array),
            b'b' => Some(TypeKind::Base),
            b'c' => Some(TypeKind::Composite),
            b'd' => Some(TypeKind::Domain),
            b'e' => Some(TypeKind::Enum),
            b'm' => Some(TypeKind::Multirange),
            b'p' => Some(TypeKind::Pseudo),
            b'r' => Some(TypeKind::Range),
            _ => None,
        }
    }
}

/// Returns the OIDs of the parts of a row: of its elements, of its underlying type, or of its
/// fields.
pub(super) fn parts<'r>(row: &'r TypeRow<'_>) -> &'r [Oid] {
    match TypeKind::from_letter(row.kind) {
        Some(TypeKind::Array | TypeKind::Range | TypeKind::Multirange) => {
            std::slice::from_ref(&row.element)
        }
        Some(TypeKind::Domain) => std::slice::from_ref(&row.base),
        Some(TypeKind::Composite) => row.field_types.as_slice(),
        _ => &[],
    }
}

/// Returns the kind of the type of a row, whose parts are in the catalog.
#[tactic(auto, using(pg_types::proofs::Fields::composite_content))]
pub(super) fn kind_of(
    alloc: Global,
    catalog: &Catalog,
    row: &TypeRow<'_>,
) -> Result<Kind, TypeFault>
    ensures kind { IfOk result (λ kind. IsKindOf (table_of catalog.now) row.now (kind_content kind)) }
    ensures why { IfErr result (IsWhy (table_of catalog.now) row.now) }
{
    let Some(kind) = TypeKind::from_letter(row.kind) else {
        return Err(TypeFault::Kind(row.kind));
    };
    match kind {
        TypeKind::Base => Ok(Kind::Simple),
        TypeKind::Enum => Ok(Kind::Enum(labels(alloc, row.labels.as_slice())?)),
        TypeKind::Pseudo => Ok(Kind::Pseudo),
        TypeKind::Array => Ok(Kind::Array(part(catalog, row.element)?)),
        TypeKind::Range => Ok(Kind::Range(part(catalog, row.element)?)),
        TypeKind::Multirange => Ok(Kind::Multirange(part(catalog, row.element)?)),
        TypeKind::Domain => Ok(Kind::Domain(part(catalog, row.base)?)),
        TypeKind::Composite => {
            let names = row.field_names.as_slice();
            let types = row.field_types.as_slice();
            Ok(Kind::Composite(fields(alloc, catalog, names, types)?))
        }
    }
}

/// Returns a part of a type: the type with this OID.
pub(crate) fn part(catalog: &Catalog, oid: Oid) -> Result<Type, TypeFault>
    ensures part { IfOk result (λ ty. IsTypeOf (table_of catalog.now) oid (content ty)) }
    ensures why { IfErr result (IsWhyNoPart (table_of catalog.now) oid) }
{
    let Some(ty) = catalog.get(oid) else {
        return Err(TypeFault::Unknown(oid));
    };
    match ty.try_clone() {
        Ok(ty) => Ok(ty),
        Err(_) => Err(TypeFault::Memory),
    }
}

/// Copies the labels.
fn labels(alloc: Global, labels: &[&str]) -> Result<Vec<String>, TypeFault>
    ensures labels { IfOk result (λ owned. map string_bytes owned.items ≡ map (λ label. label.now) labels.now) }
    ensures refused { IfErr result (λ fault. fault ≡ Memory) }
{
    let mut owned = Vec::new(alloc);
    for label in labels {
        owned.push(String::from_str(alloc, label)?)?;
    }
    Ok(owned)
}

/// Creates the fields with these names and types.
fn fields(
    alloc: Global,
    catalog: &Catalog,
    names: &[&str],
    types: &[Oid],
) -> Result<Vec<Field>, TypeFault>
    ensures fields { IfOk result (λ fields. AreFields (table_of catalog.now) names.now types.now fields.items) }
    ensures why { IfErr result (IsWhyNoFields (table_of catalog.now) names.now types.now) }
{
    if names.len() != types.len() {
        return Err(TypeFault::Fields);
    }
    let mut fields = Vec::new(alloc);
    for (name, oid) in names.iter().zip(types) {
        let ty = part(catalog, *oid)?;
        fields.push(Field::new(String::from_str(alloc, name)?, ty))?;
    }
    Ok(fields)
}

/// Creates a user-defined type from its parts.
pub(super) fn user_defined(
    alloc: Global,
    name: String,
    oid: Oid,
    kind: Kind,
    schema: String,
) -> Result<Type, TypeFault>
    ensures ty { IfOk result
        (λ ty. content ty ≡ UserDefinedType (string_bytes name) oid (kind_content kind) (string_bytes schema)) }
    ensures refused { IfErr result (λ fault. fault ≡ Memory) }
{
    match Type::new(alloc, name, oid, kind, schema) {
        Ok(ty) => Ok(ty),
        Err(_) => Err(TypeFault::Memory),
    }
}
