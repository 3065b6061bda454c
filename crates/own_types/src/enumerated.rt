//! An enumerated type.
ghost use Rattle.std.specs.Prelude.{[], ◌∷◌};
ghost use Rattle.postgres_types.specs.Conversion.{codes, refl};
ghost use Rattle.own_types.specs.declared.enumerated.Level.TheVariants.{Junior, Senior, Staff};

use postgres_types::enums::EnumType;

/// `CREATE TYPE level AS ENUM ('junior', 'senior', 'staff')`.
#[derive(Debug, Clone, Copy, PartialEq, Eq)]
pub enum Level {
    Junior,
    Senior,
    Staff,
}

impl EnumType for Level {
    ghost type_name = { codes "level" };

    ghost labels = { codes "junior" ∷ codes "senior" ∷ codes "staff" ∷ [] };

    ghost members = { Junior ∷ Senior ∷ Staff ∷ [] };

    ghost place = { elim [ Junior ↦ 0 | Senior ↦ 1 | Staff ↦ 2 ] };

    ghost proper = { refl };

    ghost placed = { elim [ Junior ↦ refl | Senior ↦ refl | Staff ↦ refl ] };

    fn name() -> &'static str {
        "level"
    }

    fn labels() -> &'static [&'static str] {
        &["junior", "senior", "staff"]
    }

    fn place(self) -> usize {
        self as usize
    }

    fn at(index: usize) -> Level {
        match index {
            0 => Level::Junior,
            1 => Level::Senior,
            _ => Level::Staff,
        }
    }
}
