//! A composite type of thirteen fields, so many that its row has an `And8`, an `And4` and an `And`.
ghost use Rattle.std.specs.Prelude.{[], ◌∷◌};
ghost use Rattle.postgres_types.specs.CompositeFields.{and, and4, and8, end};
ghost use Rattle.postgres_types.specs.Conversion.{ap, codes, refl};

use super::composites::{composite, is_kept};
use super::domains::domain;
use own_types::domain::{Email, Percentage};
use own_types::enumerated::Level;
use postgres_types::composite::{And, And4, And8, Composite, End, FieldRefs, Record};
use postgres_types::enums::Enum;
use postgres_types::newtype::Domain;
use postgres_types::private::BytesMut;
use postgres_types::{Fault, Field, PgLsn, Type, from_row, row};
use std::alloc::Global;
use std::test::Fail;

/// `CREATE TYPE survey AS (size int2, id int4, total int8, paid bool, log pg_lsn, scores int4[],
/// note text, rank int2, undo pg_lsn, level level, score percentage, mail email, former level)`.
#[derive(Debug, Drop)]
struct Survey {
    size: i16,
    id: i32,
    total: i64,
    paid: bool,
    log: PgLsn,
    scores: Vec<Option<i32>>,
    note: Option<String>,
    rank: Option<i16>,
    undo: Option<PgLsn>,
    level: Enum<Level>,
    score: Domain<Percentage>,
    mail: Option<Domain<Email>>,
    former: Option<Enum<Level>>,
}

type Scores = Vec<Option<i32>>;

type Mail = Option<Domain<Email>>;

type Former = And<Option<Enum<Level>>, End>;

type Last = And4<Option<PgLsn>, Enum<Level>, Domain<Percentage>, Mail, Former>;

impl Record for Survey {
    type Fields = And8<i16, i32, i64, bool, PgLsn, Scores, Option<String>, Option<i16>, Last>;

    ghost type_name = { codes "survey" };

    ghost names = { codes "size" ∷ codes "id" ∷ codes "total" ∷ codes "paid" ∷ codes "log" ∷ codes "scores"
        ∷ codes "note" ∷ codes "rank" ∷ codes "undo" ∷ codes "level" ∷ codes "score" ∷ codes "mail"
        ∷ codes "former" ∷ [] };

    ghost inside = { λ v. and8 v.size v.id v.total v.paid v.log v.scores v.note v.rank
        (and4 v.undo v.level v.score v.mail (and v.former end)) };

    ghost names_width = { refl };

    ghost injective = { λ v w. ap (λ r. record {
      size = r.0;
      id = r.1;
      total = r.2;
      paid = r.3;
      log = r.4;
      scores = r.5;
      note = r.6;
      rank = r.7;
      undo = r.8.0;
      level = r.8.1;
      score = r.8.2;
      mail = r.8.3;
      former = r.8.4.0;
    }) };

    fn name() -> &'static str {
        "survey"
    }

    fn field_names() -> &'static [&'static str] {
        &[
            "size", "id", "total", "paid", "log", "scores", "note", "rank", "undo", "level",
            "score", "mail", "former",
        ]
    }

    fn from_row(row: Self::Fields) -> Survey {
        from_row!(row => Survey {
            size, id, total, paid, log, scores, note, rank, undo, level, score, mail, former
        })
    }

    fn row_to_sql(&self, alloc: Global, fields: &[Field], out: &mut BytesMut) -> Result<(), Fault> {
        let row = row!(self =>
            size, id, total, paid, log, scores, note, rank, undo, level, score, mail, former);
        row.to_fields(alloc, fields, out)
    }
}

/// The type `survey`. The OID of `level` is 0x4001, of `percentage` 0x4008 and of `email` 0x400b.
fn survey_type(alloc: Global) -> Result<Type, Fault> {
    let fields = [
        ("size", Type::INT2),
        ("id", Type::INT4),
        ("total", Type::INT8),
        ("paid", Type::BOOL),
        ("log", Type::PG_LSN),
        ("scores", Type::INT4_ARRAY),
        ("note", Type::TEXT),
        ("rank", Type::INT2),
        ("undo", Type::PG_LSN),
        ("level", super::enumerated_types::level(alloc)?),
        ("score", domain(alloc, "percentage", 0x4008, Type::INT2)?),
        ("mail", domain(alloc, "email", 0x400b, Type::TEXT)?),
        ("former", super::enumerated_types::level(alloc)?),
    ];
    composite(alloc, "survey", 0x4012, &fields)
}

/// What `record_send` makes of `ROW(1, 2, 3, true, '16/B374D848', '{1,NULL}', 'n', NULL, '0/1',
/// 'senior', 50, 'a@b', NULL)::survey`.
const SURVEY: &[u8] = b"\0\0\0\x0d\
    \0\0\0\x15\0\0\0\x02\0\x01\
    \0\0\0\x17\0\0\0\x04\0\0\0\x02\
    \0\0\0\x14\0\0\0\x08\0\0\0\0\0\0\0\x03\
    \0\0\0\x10\0\0\0\x01\x01\
    \0\0\x0c\x94\0\0\0\x08\0\0\0\x16\xb3\x74\xd8\x48\
    \0\0\x03\xef\0\0\0\x20\
    \0\0\0\x01\0\0\0\x01\0\0\0\x17\0\0\0\x02\0\0\0\x01\0\0\0\x04\0\0\0\x01\xff\xff\xff\xff\
    \0\0\0\x19\0\0\0\x01n\
    \0\0\0\x15\xff\xff\xff\xff\
    \0\0\x0c\x94\0\0\0\x08\0\0\0\0\0\0\0\x01\
    \0\0\x40\x01\0\0\0\x06senior\
    \0\0\x40\x08\0\0\0\x02\0\x32\
    \0\0\x40\x0b\0\0\0\x03a@b\
    \0\0\x40\x01\xff\xff\xff\xff";

#[test]
fn surveys_are_records(rt: HostRuntime) -> Result<(), Fail> {
    is_kept::<Composite<Survey>>(rt.alloc(), &survey_type(rt.alloc())?, SURVEY)
}
