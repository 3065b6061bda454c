//! Reading maps of texts.
ghost use Rattle.std.specs.Prelude.{◌≡◌, Option, None, codes, option_map, string_bytes, IfOk, IfErr};
ghost use Rattle.pg_types.specs.declared.fault.Fault.TheVariants.{Memory};
ghost use Rattle.pg_base.specs.Cells.{cell_of};
ghost use Rattle.pg_base.specs.Hstore.{FormHstore, ReadsHstore, SameMap, first_fault_hstore, value_at};
ghost use Rattle.pg_base.proofs.HstoreLaws.{hstore_grammar, value_equivalence};
ghost use Rattle.pg_base.specs.Texts.{is_named};
ghost use Rattle.pg_read.specs.Reading.{NullAlone};
ghost use Rattle.pg_read.specs.Laws.Reading.{plain_single};

use crate::from_sql::FromSql;
use pg_base::acceptance::is_hstore;
use pg_base::fault::Fault;
use pg_base::protocol::hstore_from_sql;
use pg_base::types::PgType;
use std::alloc::Global;
use std::collections::HashMap;
use std::hash::BuildHasher;

/// Reads every type named hstore (`hstore_recv`): the number of entries in 4 bytes, big-endian, and
/// for each entry the frames of its key and its value, where NULL is `None`. Of entries with the
/// same key the last one is kept. A truncated number, length or text is refused with `Size`, and so
/// are trailing bytes after the last entry; a negative number of entries is refused with `Count`, a
/// negative length of a key with `KeyLength`, a text that is not UTF-8 with `Utf8`, and NULL with
/// `WasNull`.
impl<'a, S: Default + BuildHasher + Drop> FromSql<'a> for HashMap<String, Option<String>, S> {
    ghost same = { SameMap };

    ghost accepted = { is_named (codes "hstore") };

    ghost reads = { λ _. ReadsHstore };

    ghost memory_free = { NullAlone };

    ghost equivalence = { value_equivalence value_at };

    ghost single = { λ _ _. plain_single SameMap (FormHstore value_at) first_fault_hstore (hstore_grammar value_at) };

    fn from_sql(
        alloc: Global,
        _ty: &PgType,
        raw: &'a [u8],
    ) -> Result<HashMap<String, Option<String>, S>, Fault> {
        let mut entries = hstore_from_sql(alloc, raw)?;
        let mut map = HashMap::with_hasher(alloc, S::default());
        while let Some(entry) = entries.next() {
            let (key, value) = entry?;
            let key = String::from_str(alloc, key)?;
            let value = owned_copy(alloc, value)?;
            // An earlier value of the key is replaced.
            drop(map.insert(key, value)?);
        }
        Ok(map)
    }

    fn from_sql_null(
        _alloc: Global,
        _ty: &PgType,
    ) -> Result<HashMap<String, Option<String>, S>, Fault> {
        Err(Fault::WasNull)
    }

    fn accepts(ty: &PgType) -> bool {
        is_hstore(ty)
    }
}

/// Copies the text, if there is one.
fn owned_copy(alloc: Global, text: Option<&str>) -> Result<Option<String>, Fault>
    ensures copy { IfOk result (λ copy. option_map string_bytes copy ≡ cell_of text.entry) }
    ensures refused { IfErr result (λ fault. fault ≡ Memory) }
{
    match text {
        Some(text) => Ok(Some(String::from_str(alloc, text)?)),
        None => Ok(None),
    }
}
