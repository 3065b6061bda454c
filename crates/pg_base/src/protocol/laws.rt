//! That each format is a grammar whose checks are complete, each as a function whose contract
//! states it.
//!
//! `grammar`: bytes that spell a value pass every check, and spell no other value. `complete`: bytes
//! that pass every check spell a value. Values stand here for their contents: a text for its bytes,
//! a timestamp for its nanoseconds, a document for what its text reads as, and a map for what it has
//! at each key. The formats of the library's own types are in the `laws` of these types.
ghost use Rattle.std.specs.Prelude.{◌≡◌, Bool, List, Option, ℕ};
ghost use Rattle.std.specs.Int.{w8, w16, w32, w64};
ghost use Rattle.pg_base.specs.Arrays.{SpellsHead, head_checks};
ghost use Rattle.pg_base.specs.Bytea.{FormBytes, first_fault_bytes};
ghost use Rattle.pg_base.specs.Cells.{Cell};
ghost use Rattle.pg_base.specs.FixedBytes.{FormFixedBytes};
ghost use Rattle.pg_base.specs.Formats.{IsComplete, IsGrammar, first_fault_of};
ghost use Rattle.pg_base.specs.Hstore.{FormHstore, first_fault_hstore};
ghost use Rattle.pg_base.specs.Json.{FormJson, first_fault_json};
ghost use Rattle.pg_base.specs.Numbers.{FormBool, FormSigned, FormUnsigned, first_fault_number};
ghost use Rattle.pg_base.specs.Texts.{FormText, first_fault_text};
ghost use Rattle.pg_base.specs.Timestamps.{FormTimestamp};

/// BOOL.
#[tactic(auto, using(crate::proofs::FormatLaws::bool_grammar, crate::proofs::Completeness::bool_complete))]
pub fn bool_format()
    ensures grammar { IsGrammar (λ v w. v ≡ w) FormBool (first_fault_number 1) }
    ensures complete { IsComplete FormBool (first_fault_number 1) }
{}

/// CHAR.
#[tactic(auto, using(crate::proofs::FormatLaws::char_grammar, crate::proofs::Completeness::char_complete))]
pub fn char_format()
    ensures grammar { IsGrammar (λ v w. v ≡ w) (FormSigned w8) (first_fault_number 1) }
    ensures complete { IsComplete (FormSigned w8) (first_fault_number 1) }
{}

/// INT2.
#[tactic(auto, using(crate::proofs::FormatLaws::int2_grammar, crate::proofs::Completeness::int2_complete))]
pub fn int2_format()
    ensures grammar { IsGrammar (λ v w. v ≡ w) (FormSigned w16) (first_fault_number 2) }
    ensures complete { IsComplete (FormSigned w16) (first_fault_number 2) }
{}

/// INT4, and the days of DATE.
#[tactic(auto, using(crate::proofs::FormatLaws::int4_grammar, crate::proofs::Completeness::int4_complete))]
pub fn int4_format()
    ensures grammar { IsGrammar (λ v w. v ≡ w) (FormSigned w32) (first_fault_number 4) }
    ensures complete { IsComplete (FormSigned w32) (first_fault_number 4) }
{}

/// INT8, and the microseconds of TIME.
#[tactic(auto, using(crate::proofs::FormatLaws::int8_grammar, crate::proofs::Completeness::int8_complete))]
pub fn int8_format()
    ensures grammar { IsGrammar (λ v w. v ≡ w) (FormSigned w64) (first_fault_number 8) }
    ensures complete { IsComplete (FormSigned w64) (first_fault_number 8) }
{}

/// OID.
#[tactic(auto, using(crate::proofs::FormatLaws::unsigned4_grammar, crate::proofs::Completeness::oid_complete))]
pub fn oid_format()
    ensures grammar { IsGrammar (λ v w. v ≡ w) (FormUnsigned w32) (first_fault_number 4) }
    ensures complete { IsComplete (FormUnsigned w32) (first_fault_number 4) }
{}

/// The text types, without a version, and ltree, lquery and ltxtquery, with one.
#[tactic(auto, using(crate::proofs::Completeness::text_complete))]
pub fn text_format()
    ensures grammar { (versioned : Bool) → IsGrammar (λ s t. s ≡ t)
        (FormText (λ s. s) versioned) (first_fault_text versioned) }
    ensures complete { (versioned : Bool) → IsComplete (FormText (λ s. s) versioned) (first_fault_text versioned) }
{}

/// BYTEA.
#[tactic(auto, using(crate::proofs::FormatLaws::bytes_grammar, crate::proofs::Completeness::bytes_complete))]
pub fn bytea_format()
    ensures grammar { IsGrammar (λ s t. s ≡ t) (FormBytes (λ s. s)) first_fault_bytes }
    ensures complete { IsComplete (FormBytes (λ s. s)) first_fault_bytes }
{}

/// A fixed number of bytes: MACADDR has 6, and UUID has 16.
#[tactic(auto, using(crate::proofs::Completeness::fixed_bytes_complete))]
pub fn fixed_bytes_format()
    ensures grammar { (width : ℕ) → IsGrammar (λ v w. v ≡ w) (FormFixedBytes width) (first_fault_number width) }
    ensures complete { (width : ℕ) → IsComplete (FormFixedBytes width) (first_fault_number width) }
{}

/// TIMESTAMP and TIMESTAMPTZ.
#[tactic(auto, using(crate::proofs::Completeness::timestamp_complete))]
pub fn timestamp_format()
    ensures grammar { IsGrammar (λ v w. v ≡ w) (FormTimestamp (λ nanos. nanos)) (first_fault_number 8) }
    ensures complete { IsComplete (FormTimestamp (λ nanos. nanos)) (first_fault_number 8) }
{}

/// JSON, without a version, and JSONB, with one.
#[tactic(auto, using(crate::proofs::CompletenessBits::json_complete))]
pub fn json_format()
    ensures grammar { (versioned : Bool) → IsGrammar (λ d e. d ≡ e)
        (FormJson (λ d. d) versioned) (first_fault_json versioned) }
    ensures complete { (versioned : Bool) → IsComplete (FormJson (λ d. d) versioned) (first_fault_json versioned) }
{}

/// hstore.
#[tactic(auto, using(crate::proofs::CompletenessHstore::hstore_complete))]
pub fn hstore_format()
    ensures grammar { IsGrammar (λ m n. (q : List ℕ) → m q ≡ n q)
        (FormHstore (λ (m : List ℕ → Option Cell). m)) first_fault_hstore }
    ensures complete { IsComplete (FormHstore (λ (m : List ℕ → Option Cell). m)) first_fault_hstore }
{}

/// The header of an array.
#[tactic(auto, using(crate::proofs::CompletenessHeads::head_grammar, crate::proofs::CompletenessHeads::head_complete))]
pub fn array_head_format()
    ensures grammar { IsGrammar (λ r q. r ≡ q) SpellsHead (λ b. first_fault_of (head_checks b)) }
    ensures complete { IsComplete SpellsHead (λ b. first_fault_of (head_checks b)) }
{}
