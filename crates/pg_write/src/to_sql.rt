//! The trait of types that are written as cells.
ghost use Rattle.std.specs.Prelude.{◌≡◌, ℕ, List, Bool, IfErr, IfOk, IsTrue, IsSome, false, true};
ghost use Rattle.pg_types.specs.declared.format.Format.{Format};
ghost use Rattle.pg_types.specs.declared.format.Format.TheVariants.{Binary};
ghost use Rattle.pg_types.specs.Content.{Content, content, IsBuiltIn};
ghost use Rattle.pg_types.specs.Faults.{NeverMemory, refusal_of};
ghost use Rattle.pg_base.specs.Appending.{KeepsCapacity, Wire};
ghost use Rattle.pg_write.specs.Writing.{Writes, KeepsRoomRule, checked, IsWrongType};

use bytes::BytesMut;
use pg_base::fault::{Fault, WrongType};
use pg_base::format::{Format, IsNull};
use pg_base::types::PgType;
use std::alloc::Global;
use std::fmt;

/// A type that is written as a cell in PostgreSQL's binary format.
///
/// The ghost members of an implementation say what it writes, and the implementation proves that
/// its functions write just that. An error, `Memory` included, and NULL leave the buffer's bytes as
/// they were.
pub trait ToSql: fmt::Debug + Drop {
    /// The Postgres type is accepted.
    ghost accepted: { Content → Bool };

    /// The name of the Rust type in a `WrongType`.
    ghost name: { List ℕ };

    /// What the value is written as for the type: NULL, bytes, or a fault.
    ghost wire: { Content → Self → Wire };

    /// The format of the value for the type. By default it is binary.
    ghost format: { Content → Self → Format } = { λ _ _. Binary };

    /// Writing the value does not allocate if the buffer has room for its cell. By default this
    /// holds of no value.
    ghost by_room: { Self → Type 0 } = { λ _. ⊥ };

    /// If a built-in type is not accepted, checked writing refuses it without allocating. By
    /// default this is not claimed.
    ghost refuses_memory_free: { Bool } = { false };

    /// Appends the bytes of the value's cell, without a length prefix, and returns [`IsNull::No`].
    /// If the value is NULL it appends nothing and returns [`IsNull::Yes`]. The type must be
    /// accepted. An error leaves the buffer's bytes as they were, and the buffer's capacity never
    /// shrinks.
    fn to_sql(&self, alloc: Global, ty: &PgType, out: &mut BytesMut) -> Result<IsNull, Fault>
    where
        Self: Sized,
        requires { IsTrue (accepted (content ty.now)) }
        ensures writes { Writes (wire (content ty.now) self.now) out.old.items out.new.items result }
        ensures room { by_room self.now
            → KeepsRoomRule (wire (content ty.now) self.now) out.old.spare result }
        ensures capacity { KeepsCapacity out.old out.new };

    /// Whether values are written for this type.
    fn accepts(ty: &PgType) -> bool
    where
        Self: Sized,
        ensures { result ≡ accepted (content ty.now) };

    /// Writes the value as `to_sql` does if the type is accepted, and fails with `WrongType` if it
    /// is not.
    fn to_sql_checked(
        &self,
        alloc: Global,
        ty: &PgType,
        out: &mut BytesMut,
    ) -> Result<IsNull, Fault>
        ensures writes { Writes (checked accepted name wire (content ty.now) self.now)
            out.old.items out.new.items result }
        ensures room { by_room self.now → IsTrue (accepted (content ty.now))
            → KeepsRoomRule (wire (content ty.now) self.now) out.old.spare result }
        ensures capacity { KeepsCapacity out.old out.new }
        ensures never_memory { IsTrue refuses_memory_free → accepted (content ty.now) ≡ false
            → IsBuiltIn (content ty.now) → NeverMemory result };

    /// Returns the format of the value's cell, as a Bind message states it. It is
    /// [`Format::Binary`] for every type of this library, unless it is a reference, an `Option` or
    /// a newtype around a user's type with another format.
    fn encode_format(&self, ty: &PgType) -> Format
        ensures { result ≡ format (content ty.now) self.now };
}

/// Writes the value as `to_sql` does if the type is accepted, and fails with [`WrongType`] if it is
/// not. `rust` is the name of the Rust type in the fault.
pub fn to_sql_checked_as<T: ToSql>(
    alloc: Global,
    v: &T,
    rust: &'static str,
    ty: &PgType,
    out: &mut BytesMut,
) -> Result<IsNull, Fault>
    ensures writes { Writes (checked T.accepted rust.now T.wire (content ty.now) v.now)
        out.old.items out.new.items result }
    ensures room { T.by_room v.now → IsTrue (T.accepted (content ty.now))
        → KeepsRoomRule (T.wire (content ty.now) v.now) out.old.spare result }
    ensures capacity { KeepsCapacity out.old out.new }
    ensures never_memory { T.accepted (content ty.now) ≡ false → IsBuiltIn (content ty.now) → NeverMemory result }
{
    check_type(T::accepts(ty), ty, rust)?;
    v.to_sql(alloc, ty, out)
}

/// Returns `Ok` if `accepted` is true, and otherwise [`WrongType`] with the name `rust`. It is the
/// first line of a `to_sql_checked`.
pub fn check_type(accepted: bool, ty: &PgType, rust: &'static str) -> Result<(), Fault>
    ensures accepted { IfOk result (λ _. accepted ≡ true) }
    ensures refuses { IfErr result (λ f. (accepted ≡ false) × IsWrongType (content ty.now) rust.now f) }
    ensures never_memory { IsBuiltIn (content ty.now) → NeverMemory result }
{
    if accepted {
        Ok(())
    } else {
        Err(wrong_type(ty, rust))
    }
}

/// Returns [`WrongType`] for a type that is not accepted, with the name `rust`. It returns `Memory`
/// if a user-defined type cannot be cloned.
pub fn wrong_type(ty: &PgType, rust: &'static str) -> Fault
    ensures refuses { IsWrongType (content ty.now) rust.now result }
    ensures never_memory { IsBuiltIn (content ty.now) → IsSome (refusal_of result) }
{
    match ty.try_clone() {
        Ok(ty) => Fault::WrongType(WrongType::new(ty, rust)),
        Err(fault) => fault,
    }
}
