//! The domain `SessionId`.
ghost use Rattle.std.specs.Prelude.{◌≡◌, true};
ghost use Rattle.pg_base.proofs.FormatLaws.{bytes_grammar};
ghost use Rattle.postgres_types.specs.Bytea.{FormBytes, first_fault_bytes};
ghost use Rattle.postgres_types.specs.Content.{content};
ghost use Rattle.postgres_types.specs.Conversion.{BackKept, NullAlone, codes, content_equivalence, plain_single, refl};
ghost use Rattle.postgres_types.specs.Laws.TextBack.{bytes_lawful};
ghost use Rattle.pg_record.specs.SessionIds.{ReadsSessionId, is_session_id, wire_session_id};

use postgres_types::newtype::{is_domain, underlying_type};
use postgres_types::{BytesMut, Fault, Format, FromSql, IsNull, Paired, ToSql, Type, check_type};
use std::alloc::Global;

/// A value of the domain that `CREATE DOMAIN "SessionId" AS BYTEA` makes. A constraint of the
/// domain is left to the server.
#[derive(Debug, PartialEq, Eq, Drop)]
pub struct SessionId(pub Vec<u8>);

/// Whether session ids are read from and written to cells of this type: it is named `SessionId`,
/// whatever its schema, and is a domain over BYTEA.
fn is_session_id(ty: &Type) -> bool
    ensures { result ≡ is_session_id (content ty.now) }
{
    is_domain("SessionId", ty) && <Vec<u8> as FromSql>::accepts(&underlying_type(ty))
}

/// Reads a type named `SessionId`, whatever its schema, that is a domain over BYTEA: the cell of
/// the underlying type (`domain_recv`), whose bytes are copied. NULL is refused with `WasNull`.
impl<'a> FromSql<'a> for SessionId {
    ghost same = { λ v w. v.0.items ≡ w.0.items };

    ghost accepted = { is_session_id };

    ghost reads = { λ _. ReadsSessionId };

    ghost memory_free = { NullAlone };

    ghost equivalence = { content_equivalence (λ v. v.0.items) };

    ghost single = { λ _ _. plain_single (λ v w. v.0.items ≡ w.0.items) (FormBytes (λ v. v.0.items)) first_fault_bytes
        (bytes_grammar (λ v. v.0.items)) };

    fn from_sql(alloc: Global, _ty: &Type, raw: &'a [u8]) -> Result<SessionId, Fault> {
        Ok(SessionId(Vec::from_sql(alloc, &Type::BYTEA, raw)?))
    }

    fn from_sql_null(_alloc: Global, _ty: &Type) -> Result<SessionId, Fault> {
        Err(Fault::WasNull)
    }

    fn accepts(ty: &Type) -> bool {
        is_session_id(ty)
    }
}

/// Writes the same types: the cell of the underlying type (`byteasend`). A session id is never
/// NULL, even if it has no bytes.
impl ToSql for SessionId {
    ghost accepted = { is_session_id };

    ghost name = { codes "SessionId" };

    ghost wire = { λ _. wire_session_id };

    ghost by_room = { λ _. Unit {0} };

    ghost refuses_memory_free = { true };

    fn to_sql(&self, alloc: Global, _ty: &Type, out: &mut BytesMut) -> Result<IsNull, Fault> {
        self.0.to_sql(alloc, &Type::BYTEA, out)
    }

    fn accepts(ty: &Type) -> bool {
        is_session_id(ty)
    }

    fn to_sql_checked(
        &self,
        alloc: Global,
        ty: &Type,
        out: &mut BytesMut,
    ) -> Result<IsNull, Fault> {
        check_type(<SessionId as ToSql>::accepts(ty), ty, "SessionId")?;
        self.to_sql(alloc, ty, out)
    }

    fn encode_format(&self, _ty: &Type) -> Format {
        Format::Binary
    }
}

/// Session ids are read back as themselves.
impl<'a> Paired<'a> for SessionId {
    ghost back = { λ _. BackKept (λ v w. v.0.items ≡ w.0.items) };

    ghost types = { λ _. refl };

    ghost lawful = { λ _ _. bytes_lawful (λ v. v.0.items) };
}
