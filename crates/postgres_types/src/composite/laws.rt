//! What equality means, what is read without allocating, and what keeps the room rule, each as a
//! function whose contract states it.
ghost use Rattle.std.specs.Prelude.{◌≡◌, ◌&&◌, ℕ, List, true};
ghost use Rattle.pg_base.specs.Cells.{Cell};
ghost use Rattle.pg_write.specs.Writing.{HasCell};
ghost use Rattle.postgres_types.specs.Composites.{accepts_record, record_cell};

use super::{And, And4, And8, Composite, End, FromFields, Record, ToFields};
use pg_read::from_sql::FromSql;
use pg_write::to_sql::ToSql;

/// Whether two rows of fields are equal: in the first field and in the others.
pub fn same_and<A: PartialEq, B: PartialEq>(a: &And<A, B>, b: &And<A, B>) -> bool
    ensures { result ≡ (A.eq a.now.0 b.now.0 && B.eq a.now.1 b.now.1) }
{
    *a == *b
}

/// Whether two rows of fields are equal: in the first four and in the others.
pub fn same_and4<A, B, C, D, E>(a: &And4<A, B, C, D, E>, b: &And4<A, B, C, D, E>) -> bool
where
    A: PartialEq,
    B: PartialEq,
    C: PartialEq,
    D: PartialEq,
    E: PartialEq,
    ensures { result ≡ (A.eq a.now.0 b.now.0 && (B.eq a.now.1 b.now.1 && (C.eq a.now.2 b.now.2
        && (D.eq a.now.3 b.now.3 && E.eq a.now.4 b.now.4)))) }
{
    *a == *b
}

/// Whether two rows of fields are equal: in the first eight and in the others.
pub fn same_and8<A, B, C, D, E, F, G, H, I>(
    a: &And8<A, B, C, D, E, F, G, H, I>,
    b: &And8<A, B, C, D, E, F, G, H, I>,
) -> bool
where
    A: PartialEq,
    B: PartialEq,
    C: PartialEq,
    D: PartialEq,
    E: PartialEq,
    F: PartialEq,
    G: PartialEq,
    H: PartialEq,
    I: PartialEq,
    ensures { result ≡ (A.eq a.now.0 b.now.0 && (B.eq a.now.1 b.now.1 && (C.eq a.now.2 b.now.2
        && (D.eq a.now.3 b.now.3 && (E.eq a.now.4 b.now.4 && (F.eq a.now.5 b.now.5 && (G.eq a.now.6 b.now.6
        && (H.eq a.now.7 b.now.7 && I.eq a.now.8 b.now.8)))))))) }
{
    *a == *b
}

/// Two rows without fields are equal.
pub fn same_end(a: &End, b: &End) -> bool
    ensures { result ≡ true }
{
    *a == *b
}

/// Whether two values of a composite type are equal: as structs.
pub fn same_composite<T: PartialEq>(a: &Composite<T>, b: &Composite<T>) -> bool
    ensures { result ≡ T.eq a.now.0 b.now.0 }
{
    *a == *b
}

/// A field and the others are read without allocating if each of them is.
pub fn fields_read_without_memory<'a, A: FromSql<'a>, B: FromFields<'a>>()
    requires first { (cell : Cell) → A.memory_free cell }
    requires others { (bytes : List ℕ) → B.memory_free bytes }
    ensures { (bytes : List ℕ) → ⟦<And<A, B> as FromFields<'a>>⟧.memory_free bytes }
{}

/// The cells of a composite type are read without allocating if its fields are.
#[tactic(auto, using(crate::proofs::RecordSteps::record_free))]
pub fn record_read_without_memory<'a, T: Record>()
where
    T::Fields: FromFields<'a>,
    requires { (bytes : List ℕ) → T.Fields.memory_free bytes }
    ensures { (cell : Cell) → ⟦<Composite<T> as FromSql<'a>>⟧.memory_free cell }
{}

/// The row of fields keeps the room rule.
fn row_keeps_room_rule<R: ToFields>()
    requires { (row : R) → R.by_room row }
{}

/// Rows of fields keep the room rule if each field does.
pub fn rows_that_keep_the_room_rule() {
    row_keeps_room_rule::<And<i32, End>>();
    row_keeps_room_rule::<And4<i32, i32, i32, i32, End>>();
    row_keeps_room_rule::<And8<i32, i32, i32, i32, i32, i32, i32, i32, End>>();
}

/// A value of a composite type keeps the room rule if its fields do and none is refused.
pub fn records_that_keep_the_room_rule<T: Record>(value: &Composite<T>)
    requires fields { T.Fields.by_room (T.inside value.now.0) }
    requires cell { HasCell (accepts_record T.type_name T.names T.Fields.accepted) (record_cell T.Fields.bytes)
        (T.inside value.now.0) }
    ensures { ⟦<Composite<T> as ToSql>⟧.by_room value.now }
{}
