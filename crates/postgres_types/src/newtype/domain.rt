//! Domains, whose cells are those of the underlying type.
ghost use Rattle.std.specs.Prelude.{◌≡◌, true};
ghost use Rattle.std.specs.Cow.{cow_value};
ghost use Rattle.pg_types.specs.Content.{content};
ghost use Rattle.pg_base.proofs.SamenessLaws.{inside_equivalence};
ghost use Rattle.pg_read.specs.Laws.Reading.{constrained_single, through_single};
ghost use Rattle.pg_read.specs.Views.{Constrained, ReadsConstrained, ReadsThrough, Through};
ghost use Rattle.pg_write.specs.Writing.{wire_constrained};
ghost use Rattle.postgres_types.specs.Domains.{accepts_domain, is_domain, underlying};
ghost use Rattle.postgres_types.specs.Laws.Domain.{domain_types, underlying_accepted};
ghost use Rattle.postgres_types.specs.Laws.ViewBack.{constrained_lawful, through_lawful};

use super::{FromNewtype, Newtype};
use crate::paired::Paired;
use bytes::BytesMut;
use pg_base::fault::Fault;
use pg_base::format::{Format, IsNull};
use pg_base::types::{KindRef, PgType};
use pg_read::from_sql::FromSql;
use pg_write::to_sql::{ToSql, check_type};
use std::alloc::Global;
use std::borrow::Cow;

/// A value of a domain, as a newtype.
///
/// It accepts a domain that has the name of the newtype, whatever its schema, and an underlying
/// type that the value inside accepts: a type of the library, an enumerated type, a composite type,
/// or another domain. Its cell is that of the underlying type, NULL included (`domain_recv`, and
/// the send function of the underlying type). A `WrongType` has the name of the domain.
///
/// In reading, a cell that the value inside refuses is refused with its fault, and then a value
/// that does not meet the constraint with the constraint's fault. In writing, the constraint is
/// checked first. An error leaves the buffer's bytes as they were.
///
/// The field of a record, the element of an array and a parameter have the domain as their type. A
/// RowDescription, however, gives a column the underlying type of the domain, so a column is read
/// as [`Transparent`].
///
/// [`Transparent`]: super::Transparent
#[derive(Debug, PartialEq, Eq, Drop)]
pub struct Domain<T>(pub T);

/// Whether the type has this name, whatever its schema, and is a domain.
pub fn is_domain(name: &str, ty: &PgType) -> bool
    ensures { result ≡ is_domain name.now (content ty.now) }
{
    ty.name() == name && matches!(ty.kind(), KindRef::Domain(_))
}

/// Returns the underlying type of a domain, and any other type as it is.
pub fn underlying_type(ty: &PgType) -> Cow<'_, PgType>
    ensures { content (cow_value result) ≡ underlying (content ty.now) }
{
    match ty.kind() {
        KindRef::Domain(inner) => inner,
        _ => Cow::Borrowed(ty),
    }
}

impl<'a, T: FromNewtype<'a>> FromSql<'a> for Domain<T>
where
    T::Inner: FromSql<'a>,
{
    ghost same = { λ v w. T.Inner.same (T.inside v.0) (T.inside w.0) };

    ghost accepted = { accepts_domain T.type_name T.Inner.FromSql.accepted };

    ghost reads = { λ ty. ReadsThrough (λ v. T.inside v.0)
        (ReadsConstrained T.meets T.unmet (T.Inner.reads (underlying ty))) };

    ghost memory_free = { T.Inner.memory_free };

    ghost equivalence = { inside_equivalence (λ v. T.inside v.0) T.Inner.same T.Inner.equivalence };

    ghost single = { λ ty ok. through_single (λ v. T.inside v.0) T.Inner.same
        (ReadsConstrained T.meets T.unmet (T.Inner.reads (underlying ty)))
        (constrained_single T.Inner.same T.meets T.unmet T.respects (T.Inner.reads (underlying ty))
        (T.Inner.single (underlying ty) (underlying_accepted T.type_name T.Inner.FromSql.accepted ty ok))) };

    #[tactic(auto, using(crate::specs::Laws::Domain::underlying_accepted))]
    fn from_sql(alloc: Global, ty: &PgType, raw: &'a [u8]) -> Result<Domain<T>, Fault> {
        let inner = T::Inner::from_sql(alloc, &underlying_type(ty), raw)?;
        T::check(&inner)?;
        Ok(Domain(T::new(inner)))
    }

    #[tactic(auto, using(crate::specs::Laws::Domain::underlying_accepted))]
    fn from_sql_null(alloc: Global, ty: &PgType) -> Result<Domain<T>, Fault> {
        let inner = T::Inner::from_sql_null(alloc, &underlying_type(ty))?;
        T::check(&inner)?;
        Ok(Domain(T::new(inner)))
    }

    fn accepts(ty: &PgType) -> bool {
        is_domain(T::name(), ty) && <T::Inner as FromSql<'a>>::accepts(&underlying_type(ty))
    }
}

impl<T: Newtype> ToSql for Domain<T> {
    ghost accepted = { accepts_domain T.type_name T.Inner.ToSql.accepted };

    ghost name = { T.type_name };

    ghost wire = { λ ty v. wire_constrained T.meets T.unmet (T.Inner.wire (underlying ty)) (T.inside v.0) };

    ghost format = { λ ty v. T.Inner.format (underlying ty) (T.inside v.0) };

    ghost by_room = { λ v. T.Inner.by_room (T.inside v.0) };

    ghost refuses_memory_free = { true };

    #[tactic(auto, using(crate::specs::Laws::Domain::underlying_accepted))]
    fn to_sql(&self, alloc: Global, ty: &PgType, out: &mut BytesMut) -> Result<IsNull, Fault> {
        let inner = self.0.inner();
        T::check(inner)?;
        inner.to_sql(alloc, &underlying_type(ty), out)
    }

    fn accepts(ty: &PgType) -> bool {
        is_domain(T::name(), ty) && <T::Inner as ToSql>::accepts(&underlying_type(ty))
    }

    fn to_sql_checked(
        &self,
        alloc: Global,
        ty: &PgType,
        out: &mut BytesMut,
    ) -> Result<IsNull, Fault> {
        check_type(<Self as ToSql>::accepts(ty), ty, T::name())?;
        self.to_sql(alloc, ty, out)
    }

    fn encode_format(&self, ty: &PgType) -> Format {
        self.0.inner().encode_format(&underlying_type(ty))
    }
}

impl<'a, T: FromNewtype<'a>> Paired<'a> for Domain<T>
where
    T::Inner: Paired<'a>,
{
    ghost back = { λ ty v. Through (λ w. T.inside w.0)
        (Constrained T.meets T.unmet (T.Inner.back (underlying ty) (T.inside v.0))) };

    ghost types = { domain_types T.type_name T.Inner.FromSql.accepted T.Inner.ToSql.accepted T.Inner.types };

    ghost lawful = { λ ty ok. through_lawful (λ v. T.inside v.0)
        (ReadsConstrained T.meets T.unmet (T.Inner.reads (underlying ty))) T.Inner.same
        (wire_constrained T.meets T.unmet (T.Inner.wire (underlying ty)))
        (λ x. Constrained T.meets T.unmet (T.Inner.back (underlying ty) x))
        (constrained_lawful T.meets T.unmet T.Inner.same (T.Inner.reads (underlying ty)) (T.Inner.wire (underlying ty))
        T.respects (T.Inner.back (underlying ty))
        (T.Inner.lawful (underlying ty) (underlying_accepted T.type_name T.Inner.FromSql.accepted ty ok))) };
}
