//! Postgres types of a user's own, in the schema `public` and with the OID that a server gave them.
ghost use Rattle.std.specs.Prelude.{◌≡◌, IfOk};
ghost use Rattle.postgres_types.specs.Content.{content, field_name, field_type, kind_content};
ghost use Rattle.pg_record.specs.Types as spec;

use postgres_types::{Field, Kind, Oid, Type};
use std::alloc::{AllocError, Global};

/// Creates a type of this name, OID and kind.
fn user_type(alloc: Global, name: &str, oid: Oid, kind: Kind) -> Result<Type, AllocError>
    ensures { IfOk result (λ ty. content ty ≡ spec.user_type name.now oid (kind_content kind)) }
{
    let name = String::from_str(alloc, name)?;
    let schema = String::from_str(alloc, "public")?;
    Type::new(alloc, name, oid, kind, schema).map_err(|_| AllocError)
}

/// Creates a type of this name and OID, of kind `Simple`. The only error is a failed allocation.
pub fn simple_type(alloc: Global, name: &str, oid: Oid) -> Result<Type, AllocError>
    ensures { IfOk result (λ ty. content ty ≡ spec.simple_type name.now oid) }
{
    user_type(alloc, name, oid, Kind::Simple)
}

/// Creates a field of this name and type.
fn field(alloc: Global, name: &str, type_: Type) -> Result<Field, AllocError>
    ensures { IfOk result (λ field. (field_name field ≡ name.now) × (content (field_type field) ≡ content type_)) }
{
    Ok(Field::new(String::from_str(alloc, name)?, type_))
}

/// Creates the composite type of [`InventoryItem`](crate::InventoryItem). The only error is a
/// failed allocation.
#[tactic(auto, using(pg_types::proofs::Fields::composite_content))]
pub fn item_type(alloc: Global, oid: Oid) -> Result<Type, AllocError>
    ensures { IfOk result (λ ty. content ty ≡ spec.item_type oid) }
{
    let name = field(alloc, "name", Type::TEXT)?;
    let supplier_id = field(alloc, "supplier_id", Type::INT4)?;
    let price = field(alloc, "price", Type::INT8)?;
    let fields = vec![in alloc; name, supplier_id, price]?;
    user_type(alloc, "InventoryItem", oid, Kind::Composite(fields))
}

/// Creates the array type of the composite type `item`. The only error is a failed allocation.
pub fn item_array_type(alloc: Global, oid: Oid, item: Type) -> Result<Type, AllocError>
    ensures { IfOk result (λ ty. content ty ≡ spec.item_array_type oid (content item)) }
{
    user_type(alloc, "_InventoryItem", oid, Kind::Array(item))
}

/// Creates the enumerated type of [`Mood`](crate::Mood). The only error is a failed allocation.
pub fn mood_type(alloc: Global, oid: Oid) -> Result<Type, AllocError>
    ensures { IfOk result (λ ty. content ty ≡ spec.mood_type oid) }
{
    let sad = String::from_str(alloc, "Sad")?;
    let ok = String::from_str(alloc, "Ok")?;
    let happy = String::from_str(alloc, "Happy")?;
    let labels = vec![in alloc; sad, ok, happy]?;
    user_type(alloc, "Mood", oid, Kind::Enum(labels))
}

/// Creates the domain of [`SessionId`](crate::SessionId). The only error is a failed allocation.
pub fn session_id_type(alloc: Global, oid: Oid) -> Result<Type, AllocError>
    ensures { IfOk result (λ ty. content ty ≡ spec.session_id_type oid) }
{
    user_type(alloc, "SessionId", oid, Kind::Domain(Type::BYTEA))
}
