//! The types in the table of base names. The user-defined ones of `pg_numbers` are in the schema
//! `pg_catalog`, and the others in the schema `public`.
ghost use Rattle.std.specs.Prelude.{◌≡◌, IsTrue, IfNone, IfOk, IfSome, Some, option_map};
ghost use Rattle.postgres_types.specs.Content.{content};
ghost use Rattle.pgcell.specs.Entries.{are_types, types_of, user_types};

use named_types::{Base, base_names};
use pg_record::types::{item_array_type, item_type, mood_type, session_id_type, simple_type};
use postgres_types::Type;
use std::alloc::{AllocError, Global};

/// A type and, if it has arrays, their type.
pub type Types = (Type, Option<Type>);

// The built-in types of a base name, by its row.
macro_rules! built_in {
    (($of:ident) $($letter:literal { $($base:ident $name:literal $types:tt,)* })*) => {
        match $of {
            $($(Base::$base => row_built_in!($types),)*)*
        }
    };
}

// The types of a row that are constants.
macro_rules! row_built_in {
    ([$rust:ty, $own:ident]) => {
        Some((Type::$own, None))
    };
    ([$rust:ty, $own:ident, $arrays:ident]) => {
        Some((Type::$own, Some(Type::$arrays)))
    };
    ($types:tt) => {
        None
    };
}

// Makes the types of a base name, by its row.
macro_rules! made {
    (
        ($alloc:ident, $of:ident)
        $($letter:literal { $($base:ident $name:literal $types:tt,)* })*
    ) => {
        match $of {
            $($(Base::$base => row_made!(($alloc) $types),)*)*
        }
    };
}

// Makes the types of a row; built-in types are constants.
macro_rules! row_made {
    (($alloc:ident) [$rust:ty, user($own:ident $oid:literal $($name:literal)?)]) => {
        Some(($own($alloc, $($name,)? $oid)?, None))
    };
    (
        ($alloc:ident)
        [
            $rust:ty,
            user($own:ident $oid:literal $($name:literal)?),
            user($arrays:ident $array_oid:literal $($array_name:literal)?)
        ]
    ) => {{
        let own = $own($alloc, $($name,)? $oid)?;
        let arrays = $arrays($alloc, $($array_name,)? $array_oid, own.clone()?)?;
        Some((own, Some(arrays)))
    }};
    (($alloc:ident) [$rust:ty, catalog($own:path, $arrays:path)]) => {{
        let own = $own($alloc).map_err(|_| AllocError)?;
        let arrays = $arrays($alloc).map_err(|_| AllocError)?;
        Some((own, Some(arrays)))
    }};
    ($args:tt $types:tt) => {
        None
    };
}

/// Returns the built-in types of a base name; `None` if its types are user-defined.
fn built_in(base: Base) -> Option<Types>
    ensures some { IfSome result (λ types. (content types.0, option_map content types.1) ≡ types_of base) }
    ensures none { IfNone result (user_types base ≡ Some (types_of base)) }
{
    base_names!(built_in(base))
}

/// Makes the user-defined types of a base name, with the OIDs that a server has for them or could
/// have given them; returns `None` if it has none.
fn make(alloc: Global, base: Base) -> Result<Option<Types>, AllocError>
    ensures { IfOk result (λ types.
        option_map (λ t. (content t.0, option_map content t.1)) types ≡ user_types base) }
{
    let types: Option<Types> = base_names!(made(alloc, base));
    Ok(types)
}

/// Returns a copy of the type, if there is one.
fn copy_of(ty: &Option<Type>) -> Result<Option<Type>, AllocError>
    ensures { IfOk result (λ copy. option_map content copy ≡ option_map content ty.now) }
{
    match ty {
        None => Ok(None),
        Some(ty) => Ok(Some(ty.clone()?)),
    }
}

/// The user-defined types of a base name.
#[derive(Debug, Drop)]
struct Known {
    base: Base,
    own: Type,
    arrays: Option<Type>,
    ghost are: { IsTrue (are_types (user_types base) (content own) (option_map content arrays)) },
}

impl Known {
    /// Returns copies of the types.
    #[tactic(auto, using(crate::proofs::Types::copied))]
    fn types(&self) -> Result<Types, AllocError>
        ensures { IfOk result (λ t. Some (content t.0, option_map content t.1) ≡ user_types self.now.base) }
    {
        let own = self.own.clone()?;
        let arrays = copy_of(&self.arrays)?;
        Ok((own, arrays))
    }
}

/// The user-defined types that were asked for. Each is made once, so the lines after the first do
/// not allocate for it.
#[derive(Debug, Drop)]
pub struct UserTypes {
    known: Vec<Known>,
}

impl UserTypes {
    /// Creates an empty list of types.
    pub fn new(alloc: Global) -> UserTypes {
        UserTypes {
            known: Vec::new(alloc),
        }
    }

    /// Returns the types of a base name. The only error is a failed allocation.
    pub fn of(&mut self, alloc: Global, base: Base) -> Result<Types, AllocError>
        ensures { IfOk result (λ types. (content types.0, option_map content types.1) ≡ types_of base) }
    {
        if let Some(types) = built_in(base) {
            return Ok(types);
        }
        let Some(types) = self.user_defined(alloc, base)? else {
            unreachable!()
        };
        Ok(types)
    }

    /// Returns the user-defined types of a base name; `None` if it has none.
    #[tactic(auto, using(crate::proofs::Types::known))]
    #[inline(never)]
    fn user_defined(&mut self, alloc: Global, base: Base) -> Result<Option<Types>, AllocError>
        ensures { IfOk result (λ types.
            option_map (λ t. (content t.0, option_map content t.1)) types ≡ user_types base) }
    {
        for known in &self.known {
            if known.base == base {
                return Ok(Some(known.types()?));
            }
        }
        let Some((own, arrays)) = make(alloc, base)? else {
            return Ok(None);
        };
        let known = Known { base, own, arrays };
        let types = known.types()?;
        self.known.push(known)?;
        Ok(Some(types))
    }
}
