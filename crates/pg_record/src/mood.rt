//! The enumerated type `Mood`.
ghost use Rattle.std.specs.Prelude.{◌≡◌, true};
ghost use Rattle.postgres_types.specs.Conversion.{BackKept, EveryCell, codes, equal_equivalence, refl};
ghost use Rattle.pg_record.specs.Moods.{ReadsMood, is_mood, labels, members, place, wire_mood};
ghost use Rattle.pg_record.specs.Laws.Mood.{mood_lawful, mood_single, placed};

use postgres_types::enums::{Enum, EnumType};
use postgres_types::{BytesMut, Fault, Format, FromSql, IsNull, Paired, ToSql, Type, check_type};
use std::alloc::Global;

/// A value of the enumerated type that `CREATE TYPE "Mood" AS ENUM ('Sad', 'Ok', 'Happy')` makes.
#[derive(Debug, Clone, Copy, PartialEq, Eq)]
pub enum Mood {
    /// The label `Sad`.
    Sad,
    /// The label `Ok`.
    Ok,
    /// The label `Happy`.
    Happy,
}

impl EnumType for Mood {
    ghost type_name = { codes "Mood" };

    ghost labels = { labels };

    ghost members = { members };

    ghost place = { place };

    ghost proper = { refl };

    ghost placed = { placed };

    fn name() -> &'static str {
        "Mood"
    }

    fn labels() -> &'static [&'static str] {
        &["Sad", "Ok", "Happy"]
    }

    fn place(self) -> usize {
        self as usize
    }

    fn at(index: usize) -> Mood {
        match index {
            0 => Mood::Sad,
            1 => Mood::Ok,
            _ => Mood::Happy,
        }
    }
}

/// Reads a type named `Mood`, whatever its schema, that is an enumerated type with the labels
/// `Sad`, `Ok` and `Happy`, in any order: the text of the label (`enum_recv`). Bytes that are not
/// UTF-8 are refused with `Utf8`, a text that is not a label, like `sad`, with `User` and the text
/// `invalid variant`, and NULL with `WasNull`.
impl<'a> FromSql<'a> for Mood {
    ghost same = { λ v w. v ≡ w };

    ghost accepted = { is_mood };

    ghost reads = { λ _. ReadsMood };

    ghost memory_free = { EveryCell };

    ghost equivalence = { equal_equivalence };

    ghost single = { λ _ _. mood_single };

    fn from_sql(alloc: Global, ty: &Type, raw: &'a [u8]) -> Result<Mood, Fault> {
        Ok(Enum::<Mood>::from_sql(alloc, ty, raw)?.0)
    }

    fn from_sql_null(_alloc: Global, _ty: &Type) -> Result<Mood, Fault> {
        Err(Fault::WasNull)
    }

    fn accepts(ty: &Type) -> bool {
        <Enum<Mood> as FromSql>::accepts(ty)
    }
}

/// Writes the same types: the text of the label (`enum_send`). A mood is never NULL.
impl ToSql for Mood {
    ghost accepted = { is_mood };

    ghost name = { codes "Mood" };

    ghost wire = { λ _. wire_mood };

    ghost by_room = { λ _. Unit {0} };

    ghost refuses_memory_free = { true };

    fn to_sql(&self, alloc: Global, ty: &Type, out: &mut BytesMut) -> Result<IsNull, Fault> {
        Enum(*self).to_sql(alloc, ty, out)
    }

    fn accepts(ty: &Type) -> bool {
        <Enum<Mood> as ToSql>::accepts(ty)
    }

    fn to_sql_checked(
        &self,
        alloc: Global,
        ty: &Type,
        out: &mut BytesMut,
    ) -> Result<IsNull, Fault> {
        check_type(<Mood as ToSql>::accepts(ty), ty, "Mood")?;
        self.to_sql(alloc, ty, out)
    }

    fn encode_format(&self, _ty: &Type) -> Format {
        Format::Binary
    }
}

/// Moods are read back as themselves.
impl<'a> Paired<'a> for Mood {
    ghost back = { λ _. BackKept (λ v w. v ≡ w) };

    ghost types = { λ _. refl };

    ghost lawful = { λ _ _. mood_lawful };
}
