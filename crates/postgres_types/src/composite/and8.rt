//! Eight fields of a composite type, followed by others.
ghost use Rattle.std.specs.Prelude.{ℕ};
ghost use Rattle.pg_types.specs.Content.{FieldsContent};
ghost use Rattle.pg_base.proofs.SamenessLaws.{inside_equivalence};
ghost use Rattle.pg_read.specs.Laws.Reading.{through_gives_single};
ghost use Rattle.pg_read.specs.Views.{Through};
ghost use Rattle.postgres_types.specs.CompositeFields.{and8, in_turn8};
ghost use Rattle.postgres_types.specs.Laws.CompositeFields.{and_equivalence, and_lawful, and_single, and_types};
ghost use Rattle.postgres_types.specs.Laws.CompositeFields.{and_width, through_are_lawful};

use super::fields::{And, FieldRefs, FromFields, PairedFields, ToFields};
use crate::paired::Paired;
use bytes::BytesMut;
use pg_base::fault::Fault;
use pg_base::types::Field;
use pg_read::from_sql::FromSql;
use pg_write::to_sql::ToSql;
use std::alloc::Global;

/// The values of eight fields, followed by those of others. It is read and written as eight nested
/// [`And`]s are.
#[derive(Debug, PartialEq, Eq, Drop)]
pub struct And8<A, B, C, D, E, F, G, H, I>(
    pub A,
    pub B,
    pub C,
    pub D,
    pub E,
    pub F,
    pub G,
    pub H,
    pub I,
);

/// The same values as nested `And`s.
type InTurn<A, B, C, D, E, F, G, H, I> = And<
    A,
    And<B, And<C, And<D, And<E, And<F, And<G, And<H, I>>>>>>>,
>;

impl<'a, A, B, C, D, E, F, G, H, I> FromFields<'a> for And8<A, B, C, D, E, F, G, H, I>
where
    A: FromSql<'a>,
    B: FromSql<'a>,
    C: FromSql<'a>,
    D: FromSql<'a>,
    E: FromSql<'a>,
    F: FromSql<'a>,
    G: FromSql<'a>,
    H: FromSql<'a>,
    I: FromFields<'a>,
{
    ghost same = { λ v w. ⟦<InTurn<A, B, C, D, E, F, G, H, I> as FromFields<'a>>⟧.same (in_turn8 v) (in_turn8 w) };

    ghost accepted = { ⟦<InTurn<A, B, C, D, E, F, G, H, I> as FromFields<'a>>⟧.accepted };

    ghost reads = { λ fields s. Through in_turn8 (⟦<InTurn<A, B, C, D, E, F, G, H, I> as FromFields<'a>>⟧.reads fields
        s) };

    ghost memory_free = { ⟦<InTurn<A, B, C, D, E, F, G, H, I> as FromFields<'a>>⟧.memory_free };

    ghost equivalence = { inside_equivalence in_turn8 ⟦<InTurn<A, B, C, D, E, F, G, H, I> as FromFields<'a>>⟧.same
        (and_equivalence A.same _ A.equivalence (and_equivalence B.same _ B.equivalence (and_equivalence C.same _
        C.equivalence (and_equivalence D.same _ D.equivalence (and_equivalence E.same _ E.equivalence (and_equivalence
        F.same _ F.equivalence (and_equivalence G.same _ G.equivalence (and_equivalence H.same _ H.equivalence
        I.equivalence)))))))) };

    ghost single = { λ fields ok s. through_gives_single in_turn8
        ⟦<InTurn<A, B, C, D, E, F, G, H, I> as FromFields<'a>>⟧.same
        (⟦<InTurn<A, B, C, D, E, F, G, H, I> as FromFields<'a>>⟧.reads fields s)
        (and_single A.same A.accepted A.reads _ _ _ A.single (and_single B.same B.accepted B.reads _ _ _ B.single
        (and_single C.same C.accepted C.reads _ _ _ C.single (and_single D.same D.accepted D.reads _ _ _ D.single
        (and_single E.same E.accepted E.reads _ _ _ E.single (and_single F.same F.accepted F.reads _ _ _ F.single
        (and_single G.same G.accepted G.reads _ _ _ G.single (and_single H.same H.accepted H.reads _ _ _ H.single
        I.single))))))) fields ok s) };

    fn from_fields(alloc: Global, fields: &[Field], raw: &'a [u8]) -> Result<Self, Fault> {
        let row = InTurn::<A, B, C, D, E, F, G, H, I>::from_fields(alloc, fields, raw)?;
        let And(a, And(b, And(c, And(d, And(e, And(f, And(g, And(h, others)))))))) = row;
        Ok(And8(a, b, c, d, e, f, g, h, others))
    }

    fn accepts(fields: &[Field]) -> bool {
        <InTurn<A, B, C, D, E, F, G, H, I> as FromFields<'a>>::accepts(fields)
    }
}

impl<A, B, C, D, E, F, G, H, I> ToFields for And8<A, B, C, D, E, F, G, H, I>
where
    A: ToSql,
    B: ToSql,
    C: ToSql,
    D: ToSql,
    E: ToSql,
    F: ToSql,
    G: ToSql,
    H: ToSql,
    I: ToFields,
{
    ghost accepted = { ⟦<InTurn<A, B, C, D, E, F, G, H, I> as ToFields>⟧.accepted };

    ghost bytes = { λ fields v. ⟦<InTurn<A, B, C, D, E, F, G, H, I> as ToFields>⟧.bytes fields (in_turn8 v) };

    ghost by_room = { λ v. ⟦<InTurn<A, B, C, D, E, F, G, H, I> as ToFields>⟧.by_room (in_turn8 v) };

    ghost width = { ⟦<InTurn<A, B, C, D, E, F, G, H, I> as ToFields>⟧.width };

    ghost width_of_accepted = { and_width A.accepted _ _ (and_width B.accepted _ _ (and_width C.accepted _ _
        (and_width D.accepted _ _ (and_width E.accepted _ _ (and_width F.accepted _ _ (and_width G.accepted _ _
        (and_width H.accepted _ _ I.width_of_accepted))))))) };

    fn accepts(fields: &[Field]) -> bool {
        <InTurn<A, B, C, D, E, F, G, H, I> as ToFields>::accepts(fields)
    }
}

impl<'a, A, B, C, D, E, F, G, H, I> FieldRefs
    for And8<&'a A, &'a B, &'a C, &'a D, &'a E, &'a F, &'a G, &'a H, I>
where
    A: ToSql,
    B: ToSql,
    C: ToSql,
    D: ToSql,
    E: ToSql,
    F: ToSql,
    G: ToSql,
    H: ToSql,
    I: FieldRefs,
{
    type Values = And8<A, B, C, D, E, F, G, H, I::Values>;

    ghost values = { λ v. and8 v.0.now v.1.now v.2.now v.3.now v.4.now v.5.now v.6.now v.7.now (I.values v.8) };

    fn to_fields(&self, alloc: Global, fields: &[Field], out: &mut BytesMut) -> Result<(), Fault> {
        let row = And(
            self.0,
            And(
                self.1,
                And(
                    self.2,
                    And(
                        self.3,
                        And(self.4, And(self.5, And(self.6, And(self.7, &self.8)))),
                    ),
                ),
            ),
        );
        row.to_fields(alloc, fields, out)
    }
}

impl<'a, A, B, C, D, E, F, G, H, I> PairedFields<'a> for And8<A, B, C, D, E, F, G, H, I>
where
    A: Paired<'a>,
    B: Paired<'a>,
    C: Paired<'a>,
    D: Paired<'a>,
    E: Paired<'a>,
    F: Paired<'a>,
    G: Paired<'a>,
    H: Paired<'a>,
    I: PairedFields<'a>,
{
    ghost back = { λ fields v.
        Through in_turn8 (⟦<InTurn<A, B, C, D, E, F, G, H, I> as PairedFields<'a>>⟧.back fields (in_turn8 v)) };

    ghost types = { and_types A.FromSql.accepted A.ToSql.accepted _ _ A.types (and_types B.FromSql.accepted
        B.ToSql.accepted _ _ B.types (and_types C.FromSql.accepted C.ToSql.accepted _ _ C.types (and_types
        D.FromSql.accepted D.ToSql.accepted _ _ D.types (and_types E.FromSql.accepted E.ToSql.accepted _ _ E.types
        (and_types F.FromSql.accepted F.ToSql.accepted _ _ F.types (and_types G.FromSql.accepted G.ToSql.accepted _ _
        G.types (and_types H.FromSql.accepted H.ToSql.accepted _ _ H.types I.types))))))) };

    ghost lawful = { λ fields ok. through_are_lawful in_turn8
        ⟦<InTurn<A, B, C, D, E, F, G, H, I> as FromFields<'a>>⟧.same
        (⟦<InTurn<A, B, C, D, E, F, G, H, I> as FromFields<'a>>⟧.reads fields)
        (⟦<InTurn<A, B, C, D, E, F, G, H, I> as ToFields>⟧.bytes fields)
        (⟦<InTurn<A, B, C, D, E, F, G, H, I> as PairedFields<'a>>⟧.back fields)
        (and_lawful A.same A.FromSql.accepted A.reads _ _ _ A.wire A.back _ _ A.lawful
        (and_lawful B.same B.FromSql.accepted B.reads _ _ _ B.wire B.back _ _ B.lawful (and_lawful C.same
        C.FromSql.accepted C.reads _ _ _ C.wire C.back _ _ C.lawful (and_lawful D.same D.FromSql.accepted D.reads _ _
        _ D.wire D.back _ _ D.lawful (and_lawful E.same E.FromSql.accepted E.reads _ _ _ E.wire E.back _ _ E.lawful
        (and_lawful F.same F.FromSql.accepted F.reads _ _ _ F.wire F.back _ _ F.lawful (and_lawful G.same
        G.FromSql.accepted G.reads _ _ _ G.wire G.back _ _ G.lawful (and_lawful H.same H.FromSql.accepted H.reads _ _
        _ H.wire H.back _ _ H.lawful I.lawful))))))) fields ok) };
}
