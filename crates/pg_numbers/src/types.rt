//! The Postgres types of NUMERIC, FLOAT4 and FLOAT8 and of their arrays, as in a server's catalog.
//! Their only error is [`Fault::Memory`].
ghost use Rattle.std.specs.Prelude.{◌≡◌, IfErr, IfOk, codes};
ghost use Rattle.pg_types.specs.Content.{ArrayKind, SimpleKind, content};
ghost use Rattle.pg_types.specs.declared.fault.Fault.TheVariants.{Memory};
ghost use Rattle.pg_numbers.specs.CatalogTypes.{catalog_type};

use crate::catalog::catalog_type;
use postgres_types::{Fault, Kind, Type};
use std::alloc::Global;

/// Creates the type NUMERIC.
pub fn numeric_type(alloc: Global) -> Result<Type, Fault>
    ensures value { IfOk result (λ ty. content ty ≡ catalog_type (codes "numeric") 1700 SimpleKind) }
    ensures refused { IfErr result (λ fault. fault ≡ Memory) }
{
    catalog_type(alloc, "numeric", 1700, Kind::Simple)
}

/// Creates the type FLOAT4.
pub fn float4_type(alloc: Global) -> Result<Type, Fault>
    ensures value { IfOk result (λ ty. content ty ≡ catalog_type (codes "float4") 700 SimpleKind) }
    ensures refused { IfErr result (λ fault. fault ≡ Memory) }
{
    catalog_type(alloc, "float4", 700, Kind::Simple)
}

/// Creates the type FLOAT8.
pub fn float8_type(alloc: Global) -> Result<Type, Fault>
    ensures value { IfOk result (λ ty. content ty ≡ catalog_type (codes "float8") 701 SimpleKind) }
    ensures refused { IfErr result (λ fault. fault ≡ Memory) }
{
    catalog_type(alloc, "float8", 701, Kind::Simple)
}

/// Creates the type of arrays of NUMERIC.
pub fn numeric_array_type(alloc: Global) -> Result<Type, Fault>
    ensures value { IfOk result (λ ty. content ty
        ≡ catalog_type (codes "_numeric") 1231 (ArrayKind (catalog_type (codes "numeric") 1700 SimpleKind))) }
    ensures refused { IfErr result (λ fault. fault ≡ Memory) }
{
    let numeric = numeric_type(alloc)?;
    catalog_type(alloc, "_numeric", 1231, Kind::Array(numeric))
}

/// Creates the type of arrays of FLOAT4.
pub fn float4_array_type(alloc: Global) -> Result<Type, Fault>
    ensures value { IfOk result (λ ty. content ty
        ≡ catalog_type (codes "_float4") 1021 (ArrayKind (catalog_type (codes "float4") 700 SimpleKind))) }
    ensures refused { IfErr result (λ fault. fault ≡ Memory) }
{
    let float4 = float4_type(alloc)?;
    catalog_type(alloc, "_float4", 1021, Kind::Array(float4))
}

/// Creates the type of arrays of FLOAT8.
pub fn float8_array_type(alloc: Global) -> Result<Type, Fault>
    ensures value { IfOk result (λ ty. content ty
        ≡ catalog_type (codes "_float8") 1022 (ArrayKind (catalog_type (codes "float8") 701 SimpleKind))) }
    ensures refused { IfErr result (λ fault. fault ≡ Memory) }
{
    let float8 = float8_type(alloc)?;
    catalog_type(alloc, "_float8", 1022, Kind::Array(float8))
}
