//! A user-defined type in text format.

use postgres_types::{BytesMut, Fault, Format, IsNull, ToSql, Type, WrongType};
use std::alloc::Global;

/// A word, which is sent as text.
#[derive(Debug, Drop)]
pub struct Word(pub &'static str);

impl ToSql for Word {
    ghost use Rattle.std.specs.Prelude.{Ok, Some, codes};
    ghost use Rattle.pg_types.specs.declared.format.Format.TheVariants.{Text as TextFormat};
    ghost use Rattle.pg_types.specs.declared.types.built_in.BuiltIn.TheVariants.{Text};
    ghost use Rattle.postgres_types.specs.Content.{is_row};

    ghost accepted = { is_row Text };

    ghost name = { codes "Word" };

    ghost wire = { λ _ v. Ok (Some v.0.now) };

    ghost format = { λ _ _. TextFormat };

    fn to_sql(&self, _alloc: Global, _ty: &Type, out: &mut BytesMut) -> Result<IsNull, Fault> {
        out.extend_from_slice(self.0.as_bytes())?;
        Ok(IsNull::No)
    }

    fn accepts(ty: &Type) -> bool {
        ty.is(&Type::TEXT)
    }

    fn to_sql_checked(
        &self,
        alloc: Global,
        ty: &Type,
        out: &mut BytesMut,
    ) -> Result<IsNull, Fault> {
        if <Word as ToSql>::accepts(ty) {
            self.to_sql(alloc, ty, out)
        } else {
            Err(Fault::WrongType(WrongType::new(ty.try_clone()?, "Word")))
        }
    }

    fn encode_format(&self, _ty: &Type) -> Format {
        Format::Text
    }
}
