//! A type with a value for NULL: a rating in stars, sent as INT2, where NULL is the value
//! "unrated".
ghost use Rattle.own_types.specs.Ratings.{stars};
ghost use Rattle.std.specs.Prelude.{◌≡◌};
ghost use Rattle.postgres_types.specs.Conversion.{BackKept, BackOption, Equal, EveryCell, Int2, ReadsOption};
ghost use Rattle.postgres_types.specs.Conversion.{ReadsSigned, ReadsThrough, SameOption, Through, codes};
ghost use Rattle.postgres_types.specs.Conversion.{equal_equivalence, inside_equivalence, int2_lawful, int2_single};
ghost use Rattle.postgres_types.specs.Conversion.{is_row, option_equivalence, option_lawful, option_single, refl};
ghost use Rattle.postgres_types.specs.Conversion.{through_lawful, through_single, w16, wire_option, wire_signed};

use postgres_types::protocol::{int2_from_sql, int2_to_sql};
use postgres_types::{BytesMut, Fault, Format, FromSql, IsNull, Paired, ToSql, Type, check_type};
use std::alloc::Global;

/// A number of stars, or no rating, which is NULL.
#[derive(Debug, Clone, Copy, PartialEq, Eq)]
pub enum Rating {
    /// NULL.
    Unrated,
    /// The number of stars.
    Stars(i16),
}

impl<'a> FromSql<'a> for Rating {
    ghost same = { λ v w. SameOption Equal (stars v) (stars w) };

    ghost accepted = { is_row Int2 };

    ghost reads = { λ _. ReadsThrough stars (ReadsOption (ReadsSigned w16)) };

    ghost memory_free = { EveryCell };

    ghost equivalence = { inside_equivalence stars (SameOption Equal) (option_equivalence Equal equal_equivalence) };

    ghost single = { λ _ _. through_single stars (SameOption Equal) (ReadsOption (ReadsSigned w16))
        (option_single Equal (ReadsSigned w16) int2_single) };

    fn from_sql(_alloc: Global, _ty: &Type, raw: &'a [u8]) -> Result<Rating, Fault> {
        Ok(Rating::Stars(int2_from_sql(raw)?))
    }

    fn from_sql_null(_alloc: Global, _ty: &Type) -> Result<Rating, Fault> {
        Ok(Rating::Unrated)
    }

    fn accepts(ty: &Type) -> bool {
        ty.is(&Type::INT2)
    }
}

impl ToSql for Rating {
    ghost accepted = { is_row Int2 };

    ghost name = { codes "Rating" };

    ghost wire = { λ _ v. wire_option (wire_signed w16) (stars v) };

    ghost by_room = { λ _. Unit {0} };

    fn to_sql(&self, alloc: Global, _ty: &Type, out: &mut BytesMut) -> Result<IsNull, Fault> {
        let Rating::Stars(n) = self else {
            return Ok(IsNull::Yes);
        };
        int2_to_sql(alloc, *n, out)?;
        Ok(IsNull::No)
    }

    fn accepts(ty: &Type) -> bool {
        ty.is(&Type::INT2)
    }

    fn to_sql_checked(
        &self,
        alloc: Global,
        ty: &Type,
        out: &mut BytesMut,
    ) -> Result<IsNull, Fault> {
        check_type(<Rating as ToSql>::accepts(ty), ty, "Rating")?;
        self.to_sql(alloc, ty, out)
    }

    fn encode_format(&self, _ty: &Type) -> Format {
        Format::Binary
    }
}

impl<'a> Paired<'a> for Rating {
    ghost back = { λ _ v. Through stars (BackOption (wire_signed w16) (BackKept Equal) (stars v)) };

    ghost types = { λ _. refl };

    ghost lawful = { λ _ _. through_lawful stars (ReadsOption (ReadsSigned w16)) (SameOption Equal)
        (wire_option (wire_signed w16)) (BackOption (wire_signed w16) (BackKept Equal))
        (option_lawful Equal (ReadsSigned w16) (wire_signed w16) (BackKept Equal) int2_lawful) };
}
