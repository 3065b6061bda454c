//! Maps of texts are read back as themselves.
ghost use Rattle.std.specs.Prelude.{refl};
ghost use Rattle.pg_base.specs.Hstore.{SameMap};
ghost use Rattle.postgres_types.specs.Laws.HstoreBack.{hstore_lawful};
ghost use Rattle.postgres_types.specs.ReadingBack.{BackKept};

use crate::paired::Paired;
use std::collections::HashMap;
use std::hash::BuildHasher;

/// A map is read back as itself: the same keys with the same values, in any order.
impl<'a, S: Default + BuildHasher + Drop> Paired<'a> for HashMap<String, Option<String>, S> {
    ghost back = { λ _. BackKept SameMap };

    ghost types = { λ _. refl };

    ghost lawful = { λ _ _. hstore_lawful };
}
