//! PostgreSQL's built-in types that are not in the library's own table.
ghost use Rattle.std.specs.Prelude.{IfOk};
ghost use Rattle.std.specs.List.{AllZip};
ghost use Rattle.pg_client.specs.CatalogTypes.{AreListed, IsRowOf};

use super::TypeRow;
use postgres_types::Oid;
use std::alloc::{AllocError, Global};

/// A type of the schema `pg_catalog`: its OID, its name, the letter of its kind, as a [`TypeRow`]
/// has it, and the OID of the type of an array's elements, or of the bounds of a range or a
/// multirange.
type Listed = (Oid, &'static str, u8, Oid);

/// The types of PostgreSQL 15.18 with an OID that is the same in every server, without those of the
/// library's own table, and without the row types of system tables, whose fields differ between
/// versions. `scripts/built-in-types` writes them, and `scripts/server-test` compares them with its
/// server.
pub(super) const TYPES: [Listed; 132] = [
    (24, "regproc", b'b', 0),
    (27, "tid", b'b', 0),
    (28, "xid", b'b', 0),
    (29, "cid", b'b', 0),
    (32, "pg_ddl_command", b'p', 0),
    (142, "xml", b'b', 0),
    (143, "_xml", b'a', 142),
    (194, "pg_node_tree", b'b', 0),
    (269, "table_am_handler", b'p', 0),
    (271, "_xid8", b'a', 5069),
    (325, "index_am_handler", b'p', 0),
    (600, "point", b'b', 0),
    (601, "lseg", b'b', 0),
    (602, "path", b'b', 0),
    (603, "box", b'b', 0),
    (604, "polygon", b'b', 0),
    (628, "line", b'b', 0),
    (629, "_line", b'a', 628),
    (700, "float4", b'b', 0),
    (701, "float8", b'b', 0),
    (718, "circle", b'b', 0),
    (719, "_circle", b'a', 718),
    (774, "macaddr8", b'b', 0),
    (775, "_macaddr8", b'a', 774),
    (790, "money", b'b', 0),
    (791, "_money", b'a', 790),
    (1006, "_int2vector", b'a', 22),
    (1008, "_regproc", b'a', 24),
    (1010, "_tid", b'a', 27),
    (1011, "_xid", b'a', 28),
    (1012, "_cid", b'a', 29),
    (1013, "_oidvector", b'a', 30),
    (1017, "_point", b'a', 600),
    (1018, "_lseg", b'a', 601),
    (1019, "_path", b'a', 602),
    (1020, "_box", b'a', 603),
    (1021, "_float4", b'a', 700),
    (1022, "_float8", b'a', 701),
    (1027, "_polygon", b'a', 604),
    (1033, "aclitem", b'b', 0),
    (1034, "_aclitem", b'a', 1033),
    (1231, "_numeric", b'a', 1700),
    (1263, "_cstring", b'a', 2275),
    (1266, "timetz", b'b', 0),
    (1270, "_timetz", b'a', 1266),
    (1700, "numeric", b'b', 0),
    (1790, "refcursor", b'b', 0),
    (2201, "_refcursor", b'a', 1790),
    (2202, "regprocedure", b'b', 0),
    (2203, "regoper", b'b', 0),
    (2204, "regoperator", b'b', 0),
    (2205, "regclass", b'b', 0),
    (2206, "regtype", b'b', 0),
    (2207, "_regprocedure", b'a', 2202),
    (2208, "_regoper", b'a', 2203),
    (2209, "_regoperator", b'a', 2204),
    (2210, "_regclass", b'a', 2205),
    (2211, "_regtype", b'a', 2206),
    (2249, "record", b'p', 0),
    (2275, "cstring", b'p', 0),
    (2276, "any", b'p', 0),
    (2277, "anyarray", b'p', 0),
    (2278, "void", b'p', 0),
    (2279, "trigger", b'p', 0),
    (2280, "language_handler", b'p', 0),
    (2281, "internal", b'p', 0),
    (2283, "anyelement", b'p', 0),
    (2287, "_record", b'p', 0),
    (2776, "anynonarray", b'p', 0),
    (2949, "_txid_snapshot", b'a', 2970),
    (2970, "txid_snapshot", b'b', 0),
    (3115, "fdw_handler", b'p', 0),
    (3310, "tsm_handler", b'p', 0),
    (3361, "pg_ndistinct", b'b', 0),
    (3402, "pg_dependencies", b'b', 0),
    (3500, "anyenum", b'p', 0),
    (3614, "tsvector", b'b', 0),
    (3615, "tsquery", b'b', 0),
    (3642, "gtsvector", b'b', 0),
    (3643, "_tsvector", b'a', 3614),
    (3644, "_gtsvector", b'a', 3642),
    (3645, "_tsquery", b'a', 3615),
    (3734, "regconfig", b'b', 0),
    (3735, "_regconfig", b'a', 3734),
    (3769, "regdictionary", b'b', 0),
    (3770, "_regdictionary", b'a', 3769),
    (3831, "anyrange", b'p', 0),
    (3838, "event_trigger", b'p', 0),
    (3904, "int4range", b'r', 23),
    (3905, "_int4range", b'a', 3904),
    (3906, "numrange", b'r', 1700),
    (3907, "_numrange", b'a', 3906),
    (3908, "tsrange", b'r', 1114),
    (3909, "_tsrange", b'a', 3908),
    (3910, "tstzrange", b'r', 1184),
    (3911, "_tstzrange", b'a', 3910),
    (3912, "daterange", b'r', 1082),
    (3913, "_daterange", b'a', 3912),
    (3926, "int8range", b'r', 20),
    (3927, "_int8range", b'a', 3926),
    (4072, "jsonpath", b'b', 0),
    (4073, "_jsonpath", b'a', 4072),
    (4089, "regnamespace", b'b', 0),
    (4090, "_regnamespace", b'a', 4089),
    (4096, "regrole", b'b', 0),
    (4097, "_regrole", b'a', 4096),
    (4191, "regcollation", b'b', 0),
    (4192, "_regcollation", b'a', 4191),
    (4451, "int4multirange", b'm', 23),
    (4532, "nummultirange", b'm', 1700),
    (4533, "tsmultirange", b'm', 1114),
    (4534, "tstzmultirange", b'm', 1184),
    (4535, "datemultirange", b'm', 1082),
    (4536, "int8multirange", b'm', 20),
    (4537, "anymultirange", b'p', 0),
    (4538, "anycompatiblemultirange", b'p', 0),
    (4600, "pg_brin_bloom_summary", b'b', 0),
    (4601, "pg_brin_minmax_multi_summary", b'b', 0),
    (5017, "pg_mcv_list", b'b', 0),
    (5038, "pg_snapshot", b'b', 0),
    (5039, "_pg_snapshot", b'a', 5038),
    (5069, "xid8", b'b', 0),
    (5077, "anycompatible", b'p', 0),
    (5078, "anycompatiblearray", b'p', 0),
    (5079, "anycompatiblenonarray", b'p', 0),
    (5080, "anycompatiblerange", b'p', 0),
    (6150, "_int4multirange", b'a', 4451),
    (6151, "_nummultirange", b'a', 4532),
    (6152, "_tsmultirange", b'a', 4533),
    (6153, "_tstzmultirange", b'a', 4534),
    (6155, "_datemultirange", b'a', 4535),
    (6157, "_int8multirange", b'a', 4536),
];

/// Returns the rows that describe these types.
pub(super) fn rows(alloc: Global, types: &[Listed]) -> Result<Vec<TypeRow<'static>>, AllocError>
    ensures rows { IfOk result (λ rows. AllZip IsRowOf types.now rows.items) }
    ensures listed { IfOk result (λ rows. AreListed rows.items) }
{
    let mut rows = Vec::new(alloc);
    for ty in types {
        rows.push(row_of(alloc, ty))?;
    }
    Ok(rows)
}

/// Returns the row of a type.
fn row_of(alloc: Global, ty: &Listed) -> TypeRow<'static>
    ensures { IsRowOf ty.now result }
{
    let (oid, name, kind, element) = *ty;
    TypeRow {
        oid,
        name,
        schema: "pg_catalog",
        kind: kind.cast_signed(),
        element,
        base: 0,
        labels: Vec::new(alloc),
        field_names: Vec::new(alloc),
        field_types: Vec::new(alloc),
    }
}
