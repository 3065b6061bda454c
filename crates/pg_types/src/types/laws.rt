//! What equality and hashing mean, each as a function whose contract states it.
ghost use Rattle.std.specs.Prelude.{◌≡◌, ◌↔◌, IsTrue};
ghost use Rattle.pg_types.specs.Content.{SameField, content, kind_content};
ghost use Rattle.pg_types.specs.Digest.{digest};
ghost use Rattle.pg_types.specs.KindRefs.{kind_ref_view};

use super::{Field, Kind, KindRef, PgType};
use std::hash::{DefaultHasher, Hash, Hasher};

/// Whether two types are equal: the same built-in type, or user-defined types with equal parts.
#[tactic(auto, using(crate::proofs::DerivedTypes::same_from_eq, crate::proofs::DerivedTypes::eq_from_same))]
pub fn same_type(a: &PgType, b: &PgType) -> bool
    ensures { IsTrue result ↔ (content a.now ≡ content b.now) }
{
    *a == *b
}

/// Whether two kinds are equal: the same variant with equal parts.
#[tactic(auto, using(crate::proofs::DerivedTypes::same_kind_from_eq, crate::proofs::DerivedTypes::eq_from_same_kind))]
pub fn same_kind(k: &Kind, l: &Kind) -> bool
    ensures { IsTrue result ↔ (kind_content k.now ≡ kind_content l.now) }
{
    *k == *l
}

/// Whether two views of kinds are equal: the same variant with equal parts, borrowed or owned.
#[tactic(auto, using(crate::proofs::DerivedTypes::kind_ref_from_eq, crate::proofs::DerivedTypes::eq_from_kind_ref))]
pub fn same_kind_ref(v: &KindRef<'_>, w: &KindRef<'_>) -> bool
    ensures { IsTrue result ↔ (kind_ref_view v.now ≡ kind_ref_view w.now) }
{
    *v == *w
}

/// Whether two fields are equal: with the same name and equal types.
#[tactic(auto, using(crate::proofs::DerivedTypes::same_field_from_eq, crate::proofs::DerivedTypes::eq_from_same_field))]
pub fn same_field(f: &Field, g: &Field) -> bool
    ensures { IsTrue result ↔ SameField f.now g.now }
{
    *f == *g
}

/// Whether two types have the same hash, as equal ones always do.
#[tactic(auto, using(crate::proofs::DerivedTypes::hash_from_same))]
pub fn hash_alike(a: &PgType, b: &PgType) -> bool
    ensures alike { (content a.now ≡ content b.now) → IsTrue result }
    ensures hashed { IsTrue result ↔
        (digest (⟦<PgType as Hash>⟧.hash_input a.now) ≡ digest (⟦<PgType as Hash>⟧.hash_input b.now)) }
{
    hash_of(a) == hash_of(b)
}

/// Whether two kinds have the same hash, as equal ones always do.
#[tactic(auto, using(crate::proofs::DerivedTypes::hash_from_same_kind))]
pub fn kinds_hash_alike(k: &Kind, l: &Kind) -> bool
    ensures alike { (kind_content k.now ≡ kind_content l.now) → IsTrue result }
    ensures hashed { IsTrue result ↔
        (digest (⟦<Kind as Hash>⟧.hash_input k.now) ≡ digest (⟦<Kind as Hash>⟧.hash_input l.now)) }
{
    hash_of(k) == hash_of(l)
}

/// Whether two fields have the same hash, as equal ones always do.
#[tactic(auto, using(crate::proofs::DerivedTypes::hash_from_same_field))]
pub fn fields_hash_alike(f: &Field, g: &Field) -> bool
    ensures alike { SameField f.now g.now → IsTrue result }
    ensures hashed { IsTrue result ↔
        (digest (⟦<Field as Hash>⟧.hash_input f.now) ≡ digest (⟦<Field as Hash>⟧.hash_input g.now)) }
{
    hash_of(f) == hash_of(g)
}

/// Whether two views of kinds have the same hash, as equal ones always do.
pub fn kind_refs_hash_alike(v: &KindRef<'_>, w: &KindRef<'_>) -> bool
    ensures alike { (kind_ref_view v.now ≡ kind_ref_view w.now) → IsTrue result }
    ensures hashed { IsTrue result ↔
        (digest (⟦<KindRef<'static> as Hash>⟧.hash_input v.now) ≡ digest
        (⟦<KindRef<'static> as Hash>⟧.hash_input w.now)) }
{
    hash_of(v) == hash_of(w)
}

fn hash_of<T: Hash>(value: &T) -> u64
    ensures { result ≡ digest (T.hash_input value.now) }
{
    let mut state = DefaultHasher::new();
    value.hash(&mut state);
    state.finish()
}
