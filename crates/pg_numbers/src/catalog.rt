//! Types of PostgreSQL's catalog for which the library has no constant.
ghost use Rattle.std.specs.Prelude.{◌≡◌, IfErr, IfOk};
ghost use Rattle.pg_types.specs.Content.{content, kind_content};
ghost use Rattle.pg_types.specs.declared.fault.Fault.TheVariants.{Memory};
ghost use Rattle.pg_numbers.specs.CatalogTypes.{catalog_type, has_oid};

use postgres_types::{Fault, Kind, Oid, Type};
use std::alloc::Global;

/// Whether the type has this OID. One below 16,384 is the server's own, so that the OID decides.
pub(crate) fn has_oid(oid: Oid, ty: &Type) -> bool
    ensures { result ≡ has_oid oid (content ty.now) }
{
    ty.oid() == oid
}

/// Creates the type of this name, OID and kind in the schema `pg_catalog`.
pub(crate) fn catalog_type(alloc: Global, name: &str, oid: Oid, kind: Kind) -> Result<Type, Fault>
    ensures value { IfOk result (λ ty. content ty ≡ catalog_type name.now oid (kind_content kind)) }
    ensures refused { IfErr result (λ fault. fault ≡ Memory) }
{
    let name = String::from_str(alloc, name)?;
    let schema = String::from_str(alloc, "pg_catalog")?;
    Type::new(alloc, name, oid, kind, schema)
}
