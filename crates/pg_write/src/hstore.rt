//! Writing maps of texts.
ghost use Rattle.std.specs.Prelude.{◌≡◌, [], map, true, codes, IfErr, OnOk};
ghost use Rattle.pg_types.specs.declared.fault.Fault.TheVariants.{Memory};
ghost use Rattle.pg_base.specs.Hstore.{in_key_order, borrowed_entry, owned_entry, wire_hstore};
ghost use Rattle.pg_base.specs.Texts.{is_named};

use crate::to_sql::{ToSql, check_type};
use bytes::BytesMut;
use pg_base::acceptance::is_hstore;
use pg_base::fault::Fault;
use pg_base::format::{Format, IsNull};
use pg_base::protocol::hstore_to_sql;
use pg_base::types::PgType;
use smallvec::SmallVec;
use std::alloc::Global;
use std::collections::HashMap;
use std::hash::BuildHasher;

/// The entries of a map, borrowed. Few of them are on the stack.
type Entries<'a> = SmallVec<(&'a str, Option<&'a str>), 16>;

/// Writes every type named hstore (`hstore_send`): the number of entries in 4 bytes, big-endian,
/// and for each entry the frames of its key and its value, in the order of the keys' bytes. It is
/// refused with `Transmit` if the number of entries, or the length of a key or a value, exceeds
/// 2,147,483,647. The entries are sorted in a list, which is allocated if there are more than 16.
impl<S: BuildHasher + Drop> ToSql for HashMap<String, Option<String>, S> {
    ghost accepted = { is_named (codes "hstore") };

    ghost name = { codes "HashMap" };

    ghost wire = { λ _ m. wire_hstore (map owned_entry m.entries) };

    ghost refuses_memory_free = { true };

    fn to_sql(&self, alloc: Global, _ty: &PgType, out: &mut BytesMut) -> Result<IsNull, Fault> {
        let mut entries = SmallVec::new(alloc);
        sort_entries(self, &mut entries)?;
        hstore_to_sql(alloc, entries.as_slice(), out)?;
        Ok(IsNull::No)
    }

    fn accepts(ty: &PgType) -> bool {
        is_hstore(ty)
    }

    fn to_sql_checked(
        &self,
        alloc: Global,
        ty: &PgType,
        out: &mut BytesMut,
    ) -> Result<IsNull, Fault> {
        check_type(Self::accepts(ty), ty, "HashMap")?;
        self.to_sql(alloc, ty, out)
    }

    fn encode_format(&self, _ty: &PgType) -> Format {
        Format::Binary
    }
}

/// Appends the entries of the map, borrowed, in the order of their keys' bytes.
fn sort_entries<'a, S: BuildHasher + Drop>(
    store: &'a HashMap<String, Option<String>, S>,
    entries: &mut Entries<'a>,
) -> Result<(), Fault>
    requires { entries.old.items ≡ [] }
    ensures sorted { OnOk result
        (map borrowed_entry entries.new.items ≡ in_key_order (map owned_entry store.now.entries)) }
    ensures refused { IfErr result (λ fault. fault ≡ Memory) }
{
    entries.reserve(store.len())?;
    for (key, value) in store.iter() {
        let value = value.as_ref().map(|text| text.as_str());
        entries.push((key.as_str(), value))?;
    }
    entries.as_mut_slice().sort_unstable_by_key(|entry| entry.0);
    Ok(())
}
