//! Four fields of a composite type, followed by others.
ghost use Rattle.std.specs.Prelude.{ℕ};
ghost use Rattle.pg_types.specs.Content.{FieldsContent};
ghost use Rattle.pg_base.proofs.SamenessLaws.{inside_equivalence};
ghost use Rattle.pg_read.specs.Laws.Reading.{through_gives_single};
ghost use Rattle.pg_read.specs.Views.{Through};
ghost use Rattle.postgres_types.specs.CompositeFields.{and4, in_turn4};
ghost use Rattle.postgres_types.specs.Laws.CompositeFields.{and_equivalence, and_lawful, and_single, and_types};
ghost use Rattle.postgres_types.specs.Laws.CompositeFields.{and_width, through_are_lawful};

use super::fields::{And, FieldRefs, FromFields, PairedFields, ToFields};
use crate::paired::Paired;
use bytes::BytesMut;
use pg_base::fault::Fault;
use pg_base::types::Field;
use pg_read::from_sql::FromSql;
use pg_write::to_sql::ToSql;
use std::alloc::Global;

/// The values of four fields, followed by those of others. It is read and written as four nested
/// [`And`]s are.
#[derive(Debug, PartialEq, Eq, Drop)]
pub struct And4<A, B, C, D, E>(pub A, pub B, pub C, pub D, pub E);

/// The same values as nested `And`s.
type InTurn<A, B, C, D, E> = And<A, And<B, And<C, And<D, E>>>>;

impl<'a, A, B, C, D, E> FromFields<'a> for And4<A, B, C, D, E>
where
    A: FromSql<'a>,
    B: FromSql<'a>,
    C: FromSql<'a>,
    D: FromSql<'a>,
    E: FromFields<'a>,
{
    ghost same = { λ v w. ⟦<InTurn<A, B, C, D, E> as FromFields<'a>>⟧.same (in_turn4 v) (in_turn4 w) };

    ghost accepted = { ⟦<InTurn<A, B, C, D, E> as FromFields<'a>>⟧.accepted };

    ghost reads = { λ fields s. Through in_turn4 (⟦<InTurn<A, B, C, D, E> as FromFields<'a>>⟧.reads fields s) };

    ghost memory_free = { ⟦<InTurn<A, B, C, D, E> as FromFields<'a>>⟧.memory_free };

    ghost equivalence = { inside_equivalence in_turn4 ⟦<InTurn<A, B, C, D, E> as FromFields<'a>>⟧.same
        (and_equivalence A.same _ A.equivalence (and_equivalence B.same _ B.equivalence (and_equivalence C.same _
        C.equivalence (and_equivalence D.same _ D.equivalence E.equivalence)))) };

    ghost single = { λ fields ok s. through_gives_single in_turn4 ⟦<InTurn<A, B, C, D, E> as FromFields<'a>>⟧.same
        (⟦<InTurn<A, B, C, D, E> as FromFields<'a>>⟧.reads fields s)
        (and_single A.same A.accepted A.reads _ _ _ A.single (and_single B.same B.accepted B.reads _ _ _ B.single
        (and_single C.same C.accepted C.reads _ _ _ C.single (and_single D.same D.accepted D.reads _ _ _ D.single
        E.single))) fields ok s) };

    fn from_fields(alloc: Global, fields: &[Field], raw: &'a [u8]) -> Result<Self, Fault> {
        let row = InTurn::<A, B, C, D, E>::from_fields(alloc, fields, raw)?;
        let And(a, And(b, And(c, And(d, others)))) = row;
        Ok(And4(a, b, c, d, others))
    }

    fn accepts(fields: &[Field]) -> bool {
        <InTurn<A, B, C, D, E> as FromFields<'a>>::accepts(fields)
    }
}

impl<A: ToSql, B: ToSql, C: ToSql, D: ToSql, E: ToFields> ToFields for And4<A, B, C, D, E> {
    ghost accepted = { ⟦<InTurn<A, B, C, D, E> as ToFields>⟧.accepted };

    ghost bytes = { λ fields v. ⟦<InTurn<A, B, C, D, E> as ToFields>⟧.bytes fields (in_turn4 v) };

    ghost by_room = { λ v. ⟦<InTurn<A, B, C, D, E> as ToFields>⟧.by_room (in_turn4 v) };

    ghost width = { ⟦<InTurn<A, B, C, D, E> as ToFields>⟧.width };

    ghost width_of_accepted = { and_width A.accepted _ _ (and_width B.accepted _ _ (and_width C.accepted _ _
        (and_width D.accepted _ _ E.width_of_accepted))) };

    fn accepts(fields: &[Field]) -> bool {
        <InTurn<A, B, C, D, E> as ToFields>::accepts(fields)
    }
}

impl<'a, A, B, C, D, E> FieldRefs for And4<&'a A, &'a B, &'a C, &'a D, E>
where
    A: ToSql,
    B: ToSql,
    C: ToSql,
    D: ToSql,
    E: FieldRefs,
{
    type Values = And4<A, B, C, D, E::Values>;

    ghost values = { λ v. and4 v.0.now v.1.now v.2.now v.3.now (E.values v.4) };

    fn to_fields(&self, alloc: Global, fields: &[Field], out: &mut BytesMut) -> Result<(), Fault> {
        let row = And(self.0, And(self.1, And(self.2, And(self.3, &self.4))));
        row.to_fields(alloc, fields, out)
    }
}

impl<'a, A, B, C, D, E> PairedFields<'a> for And4<A, B, C, D, E>
where
    A: Paired<'a>,
    B: Paired<'a>,
    C: Paired<'a>,
    D: Paired<'a>,
    E: PairedFields<'a>,
{
    ghost back = { λ fields v.
        Through in_turn4 (⟦<InTurn<A, B, C, D, E> as PairedFields<'a>>⟧.back fields (in_turn4 v)) };

    ghost types = { and_types A.FromSql.accepted A.ToSql.accepted _ _ A.types (and_types B.FromSql.accepted
        B.ToSql.accepted _ _ B.types (and_types C.FromSql.accepted C.ToSql.accepted _ _ C.types (and_types
        D.FromSql.accepted D.ToSql.accepted _ _ D.types E.types))) };

    ghost lawful = { λ fields ok. through_are_lawful in_turn4 ⟦<InTurn<A, B, C, D, E> as FromFields<'a>>⟧.same
        (⟦<InTurn<A, B, C, D, E> as FromFields<'a>>⟧.reads fields)
        (⟦<InTurn<A, B, C, D, E> as ToFields>⟧.bytes fields)
        (⟦<InTurn<A, B, C, D, E> as PairedFields<'a>>⟧.back fields)
        (and_lawful A.same A.FromSql.accepted A.reads _ _ _ A.wire A.back _ _ A.lawful (and_lawful B.same
        B.FromSql.accepted B.reads _ _ _ B.wire B.back _ _ B.lawful (and_lawful C.same C.FromSql.accepted C.reads _ _
        _ C.wire C.back _ _ C.lawful (and_lawful D.same D.FromSql.accepted D.reads _ _ _ D.wire D.back _ _ D.lawful
        E.lawful))) fields ok) };
}
