//! The types of a database, from the rows of its system catalogs.
ghost use Rattle.std.specs.Prelude.{◌≡◌, ◌<◌, ◌≤◌, ◌++◌, ◌∷◌, ℕ, List, [], length, map, None, Some, IfErr, IfNone};
ghost use Rattle.std.specs.Prelude.{IfOk, IfSome, IsSome, OnErr, OnOk, slice_get};
ghost use Rattle.std.specs.List.{AllZip};
ghost use Rattle.std.specs.Cow.{cow_value};
ghost use Rattle.pg_client.specs.TypeTables.{HasOwnOids};
ghost use Rattle.pg_types.specs.Content.{content, oid_of};

use postgres_types::{Fault, Oid, Type};
use std::alloc::Global;
use std::borrow::Cow;
use std::collections::BTreeMap;

mod built_in;
mod firsts;
mod kinds;
mod left;
mod order;
mod refused;
mod type_row;

use built_in::TYPES;
use firsts::{first_places, is_first};
pub(crate) use kinds::part;
use left::{Left, all_places, places_of};
use order::Order;
pub use refused::{RefusedType, TypeFault};

/// The query whose rows are all types of a database, each with the columns of a [`TypeRow`] in
/// order. It needs PostgreSQL 14 or later and takes no parameters. A `WHERE` clause may be added to
/// select some of the types.
pub const QUERY: &str = "\
SELECT t.oid, t.typname AS name, n.nspname AS schema,
    CASE WHEN t.typtype = 'b' AND t.typelem <> 0
        AND t.typsubscript = 'pg_catalog.array_subscript_handler'::pg_catalog.regproc
        THEN 'a' ELSE t.typtype END AS kind,
    COALESCE(r.rngsubtype, t.typelem) AS element, t.typbasetype AS base,
    ARRAY(SELECT e.enumlabel FROM pg_catalog.pg_enum e
        WHERE e.enumtypid = t.oid ORDER BY e.enumsortorder) AS labels,
    ARRAY(SELECT a.attname FROM pg_catalog.pg_attribute a
        WHERE a.attrelid = t.typrelid AND a.attnum > 0 AND NOT a.attisdropped ORDER BY a.attnum) AS field_names,
    ARRAY(SELECT a.atttypid FROM pg_catalog.pg_attribute a
        WHERE a.attrelid = t.typrelid AND a.attnum > 0 AND NOT a.attisdropped ORDER BY a.attnum) AS field_types
FROM pg_catalog.pg_type t
JOIN pg_catalog.pg_namespace n ON n.oid = t.typnamespace
LEFT JOIN pg_catalog.pg_range r ON t.oid IN (r.rngtypid, r.rngmultitypid)";

/// A row of [`QUERY`]: a type, as the system catalogs describe it.
#[derive(Debug, Drop)]
pub struct TypeRow<'a> {
    /// Its OID: `pg_type.oid`.
    pub oid: Oid,
    /// Its name, without the schema: `pg_type.typname`.
    pub name: &'a str,
    /// Its schema: `pg_namespace.nspname`.
    pub schema: &'a str,
    /// Its kind as a letter, from `pg_type.typtype`: `b` for a base type, `c` for a composite type,
    /// `d` for a domain, `e` for an enumerated type, `p` for a pseudo-type, `r` for a range, `m`
    /// for a multirange; and `a` for an array.
    pub kind: i8,
    /// The OID of the element type of an array, `pg_type.typelem`, or of the bounds of a range or a
    /// multirange, `pg_range.rngsubtype`.
    pub element: Oid,
    /// The OID of the underlying type of a domain: `pg_type.typbasetype`.
    pub base: Oid,
    /// The labels of an enumerated type, in order: `pg_enum.enumlabel`.
    pub labels: Vec<&'a str>,
    /// The names of the fields of a composite type, in order: `pg_attribute.attname`.
    pub field_names: Vec<&'a str>,
    /// The OIDs of their types: `pg_attribute.atttypid`.
    pub field_types: Vec<Oid>,
}

/// The types of a database by OID, including the built-in ones.
///
/// Types share their parts. A server refuses to create a composite type that contains itself, also
/// through arrays, domains and ranges, so a single query never gives a recursive row; such a row is
/// refused as [`TypeFault::Recursive`].
#[derive(Debug, Drop)]
pub struct Catalog {
    /// The types that are not built in.
    types: BTreeMap<Oid, Type>,
    refused: Vec<RefusedType>,
    ghost own_oids: { HasOwnOids types },
}

impl Catalog {
    ghost use Rattle.pg_client.specs.CatalogTypes.{AddsOrHas, AreListed, Inserts, IsTypeOf, IsUnknown, IsWhyNotAdded};
    ghost use Rattle.pg_client.specs.CatalogTypes.{IsWhyNotInserted, NotBuiltIn};
    ghost use Rattle.pg_client.specs.CatalogTypes.{refused_of, table_of};
    ghost use Rattle.pg_client.specs.RowPlaces.{HasFirsts, IsFirst};
    ghost use Rattle.pg_client.specs.WholeCatalogs.{AreDescribed, AreMadeOrLeft, AreRefused, AreStuck, AreTold, Ascend};
    ghost use Rattle.pg_client.specs.WholeCatalogs.{Grows, HasType, IsMadeAt, IsMadeOrLeft, IsRefusal, IsStuck};
    ghost use Rattle.pg_client.specs.WholeCatalogs.{IsWhyNotMade, places_left};
    ghost use Rattle.pg_client.specs.declared.catalog.TypeRow.{TypeRow as Row};

    /// Creates a catalog of the built-in types of PostgreSQL: those with an OID that is the same in
    /// every server, but for the row types of system tables. The only error is `Memory`.
    pub fn built_in(alloc: Global) -> Result<Catalog, Fault>
        ensures types { IfOk result (λ catalog. (rows : List Row) × AreListed rows
            × AreDescribed (table_of catalog) rows × AreTold (table_of catalog) (refused_of catalog) rows) }
        ensures memory { IfErr result (λ fault. fault ≡ Fault.Memory) }
    {
        Catalog::new(alloc, built_in::rows(alloc, &TYPES)?.as_slice())
    }

    /// Creates a catalog of the library's own types.
    fn own(alloc: Global) -> Catalog
        ensures types { (table_of result).entries ≡ [] }
        ensures refused { refused_of result ≡ [] }
    {
        Catalog {
            types: BTreeMap::new(alloc),
            refused: Vec::new(alloc),
        }
    }

    /// Creates a catalog from these rows, which may come in any order. The only error is `Memory`.
    ///
    /// Of the rows of one OID only the first one is used, also where it makes no type; a row with
    /// the OID of a built-in type leaves that as it is. Each row that makes no type is listed in
    /// [`refused`](Catalog::refused), in the order of the rows: with
    /// [`Duplicate`](TypeFault::Duplicate) if an earlier row has its OID, with
    /// [`Recursive`](TypeFault::Recursive) if it contains itself, or a row that does, and otherwise
    /// with the fault with which [`add`](Catalog::add) refuses it beside the types that were made.
    pub fn new(alloc: Global, rows: &[TypeRow<'_>]) -> Result<Catalog, Fault>
        ensures described { IfOk result (λ catalog. AreDescribed (table_of catalog) rows.now) }
        ensures told { IfOk result (λ catalog. AreTold (table_of catalog) (refused_of catalog) rows.now) }
        ensures refused { IfOk result (λ catalog. AreRefused (table_of catalog) (refused_of catalog) rows.now) }
        ensures memory { IfErr result (λ fault. fault ≡ Fault.Memory) }
    {
        let mut catalog = Catalog::own(alloc);
        let firsts = first_places(alloc, rows)?;
        let order = order::parts_first(alloc, rows, &firsts)?;
        catalog.add_each(alloc, rows, &firsts, order.places.as_slice())?;
        let left = catalog.add_rest(alloc, rows, &firsts)?;
        catalog.refuse_each(alloc, rows, &firsts, &order, left.as_slice())?;
        Ok(catalog)
    }

    /// Returns the type with this OID, a built-in one or that of a row; `None` if there is none.
    pub fn get(&self, oid: Oid) -> Option<Cow<'_, Type>>
        ensures oid { IfSome result (λ ty. oid_of (content (cow_value ty)) ≡ oid) }
        ensures some { IfSome result (λ ty. IsTypeOf (table_of self.now) oid (content (cow_value ty))) }
        ensures none { IfNone result (IsUnknown (table_of self.now) oid) }
    {
        match Type::from_oid(oid) {
            Some(ty) => Some(Cow::Owned(ty)),
            None => Some(Cow::Borrowed(self.types.get(&oid)?)),
        }
    }

    /// Returns the rows that made no type, each with its fault.
    pub fn refused(&self) -> &[RefusedType]
        ensures { result.now ≡ refused_of self.now }
    {
        self.refused.as_slice()
    }

    /// Adds the type of a row, all of whose parts are in the catalog. A row with the OID of a
    /// built-in type adds nothing.
    ///
    /// It fails with [`Duplicate`](TypeFault::Duplicate) if the OID has a type,
    /// [`Kind`](TypeFault::Kind) if the letter of the kind is unknown,
    /// [`Unknown`](TypeFault::Unknown) if a part has an OID without a type,
    /// [`Fields`](TypeFault::Fields) if the numbers of names and types of the fields differ, and
    /// [`Memory`](TypeFault::Memory). A fault leaves the catalog, and its refused rows, as they
    /// were.
    pub fn add(&mut self, alloc: Global, row: &TypeRow<'_>) -> Result<(), TypeFault>
        ensures ok { OnOk result (AddsOrHas (table_of self.old) row.now (table_of self.new)) }
        ensures kept { OnErr result ((table_of self.new).entries ≡ (table_of self.old).entries) }
        ensures why { IfErr result (IsWhyNotAdded (table_of self.old) row.now) }
        ensures own { OnErr result (NotBuiltIn row.now.oid) }
        ensures refused { refused_of self.new ≡ refused_of self.old }
    {
        if Type::from_oid(row.oid).is_some() {
            return Ok(());
        }
        if self.types.contains_key(&row.oid) {
            return Err(TypeFault::Duplicate);
        }
        let kind = kinds::kind_of(alloc, self, row)?;
        let name = String::from_str(alloc, row.name)?;
        let schema = String::from_str(alloc, row.schema)?;
        let ty = kinds::user_defined(alloc, name, row.oid, kind, schema)?;
        self.types.insert(row.oid, ty)?;
        Ok(())
    }

    /// Adds a type that the caller made.
    ///
    /// It fails with [`Duplicate`](TypeFault::Duplicate) if the OID has a type, a built-in one
    /// included, and with [`Memory`](TypeFault::Memory). A fault leaves the catalog, and its refused
    /// rows, as they were.
    pub fn insert(&mut self, ty: Type) -> Result<(), TypeFault>
        ensures ok { OnOk result (Inserts (table_of self.old) ty (table_of self.new)) }
        ensures kept { OnErr result ((table_of self.new).entries ≡ (table_of self.old).entries) }
        ensures why { IfErr result (IsWhyNotInserted (table_of self.old) (oid_of (content ty))) }
        ensures refused { refused_of self.new ≡ refused_of self.old }
    {
        let oid = ty.oid();
        if self.get(oid).is_some() {
            return Err(TypeFault::Duplicate);
        }
        self.types.insert(oid, ty)?;
        Ok(())
    }

    /// Adds the types of those rows at these indices that can be added. Returns the others, with
    /// their faults against the catalog at their turn.
    fn add_each(
        &mut self,
        alloc: Global,
        rows: &[TypeRow<'_>],
        firsts: &BTreeMap<Oid, usize>,
        places: &[usize],
    ) -> Result<Vec<Left>, Fault>
        requires { HasFirsts rows.now firsts.now }
        ensures grows { OnOk result (Grows rows.now (table_of self.old) (table_of self.new)) }
        ensures all { IfOk result (λ left. AreMadeOrLeft (table_of self.new) rows.now places.now left.items) }
        ensures order { IfOk result (λ left. Ascend places.now → Ascend (places_left left.items)) }
        ensures fewer { IfOk result (λ left. length left.items ≤ length places.now) }
        ensures stuck { IfOk result (λ left. length left.items ≡ length places.now
            → AreStuck (table_of self.new) rows.now left.items) }
        ensures refused { refused_of self.new ≡ refused_of self.old }
        ensures memory { IfErr result (λ fault. fault ≡ Fault.Memory) }
    {
        let mut left = Vec::new(alloc);
        for place in places {
            if let Some(fault) = self.add_at(alloc, rows, firsts, *place)? {
                left.push(Left {
                    place: *place,
                    fault,
                })?;
            }
        }
        Ok(left)
    }

    /// Adds the types of all rows that can be added. Returns the others in order, with their faults
    /// against the catalog as it is then. It goes over the rows that are left until none of them
    /// can be added: once or twice, if those that the order has were added before.
    fn add_rest(
        &mut self,
        alloc: Global,
        rows: &[TypeRow<'_>],
        firsts: &BTreeMap<Oid, usize>,
    ) -> Result<Vec<Left>, Fault>
        requires { HasFirsts rows.now firsts.now }
        ensures grows { OnOk result (Grows rows.now (table_of self.old) (table_of self.new)) }
        ensures all { IfOk result (λ left. (place : ℕ) → place < length rows.now
            → IsMadeOrLeft (table_of self.new) rows.now left.items place) }
        ensures order { IfOk result (λ left. Ascend (places_left left.items)) }
        ensures stuck { IfOk result (λ left. AreStuck (table_of self.new) rows.now left.items) }
        ensures refused { refused_of self.new ≡ refused_of self.old }
        ensures memory { IfErr result (λ fault. fault ≡ Fault.Memory) }
    {
        let mut waiting = all_places(alloc, rows.len())?;
        loop {
            let left = self.add_each(alloc, rows, firsts, waiting.as_slice())?;
            if left.len() >= waiting.len() {
                return Ok(left);
            }
            waiting = places_of(alloc, left.as_slice())?;
        }
    }

    /// Adds the type of the row at this index, unless it is made. Returns why it is not.
    fn add_at(
        &mut self,
        alloc: Global,
        rows: &[TypeRow<'_>],
        firsts: &BTreeMap<Oid, usize>,
        place: usize,
    ) -> Result<Option<TypeFault>, Fault>
        requires { HasFirsts rows.now firsts.now }
        ensures grows { OnOk result (Grows rows.now (table_of self.old) (table_of self.new)) }
        ensures made { IfOk result (λ fault. IfNone fault (IsMadeAt (table_of self.new) rows.now place)) }
        ensures why { IfOk result (λ fault. IfSome fault (λ why. IsStuck (table_of self.new) rows.now place why)) }
        ensures kept { IfOk result (λ fault. IsSome fault
            → (table_of self.new).entries ≡ (table_of self.old).entries) }
        ensures refused { refused_of self.new ≡ refused_of self.old }
        ensures memory { IfErr result (λ fault. fault ≡ Fault.Memory) }
    {
        let Some(row) = row_at(rows, place) else {
            return Ok(None);
        };
        if !is_first(rows, firsts, place, row) {
            return Ok(Some(TypeFault::Duplicate));
        }
        self.add_first(alloc, row)
    }

    /// Adds the type of a row, unless its OID has a type. Returns why it is not added.
    fn add_first(&mut self, alloc: Global, row: &TypeRow<'_>) -> Result<Option<TypeFault>, Fault>
        ensures grows { OnOk result ((rows : List Row) (place : ℕ) → slice_get rows place ≡ Some row.now
            → IsFirst rows place row.now.oid → Grows rows (table_of self.old) (table_of self.new)) }
        ensures made { IfOk result (λ fault. IfNone fault (HasType (table_of self.new) row.now.oid)) }
        ensures why { IfOk result (λ fault. IfSome fault (IsWhyNotMade (table_of self.new) row.now)) }
        ensures kept { IfOk result (λ fault. IsSome fault
            → (table_of self.new).entries ≡ (table_of self.old).entries) }
        ensures refused { refused_of self.new ≡ refused_of self.old }
        ensures memory { IfErr result (λ fault. fault ≡ Fault.Memory) }
    {
        let Err(fault) = self.add(alloc, row) else {
            return Ok(None);
        };
        match fault {
            TypeFault::Memory => Err(Fault::Memory),
            TypeFault::Duplicate => Ok(None),
            _ => Ok(Some(fault)),
        }
    }

    /// Adds these rows to the refused ones.
    fn refuse_each(
        &mut self,
        alloc: Global,
        rows: &[TypeRow<'_>],
        firsts: &BTreeMap<Oid, usize>,
        order: &Order,
        left: &[Left],
    ) -> Result<(), Fault>
        requires firsts { HasFirsts rows.now firsts.now }
        requires stuck { AreStuck (table_of self.old) rows.now left.now }
        requires none { refused_of self.old ≡ [] }
        ensures types { table_of self.new ≡ table_of self.old }
        ensures refused { OnOk result
            (AllZip (λ row. IsRefusal (table_of self.new) rows.now row.place) left.now (refused_of self.new)) }
        ensures memory { IfErr result (λ fault. fault ≡ Fault.Memory) }
    {
        for row in left {
            let fault = row.reason(order, firsts);
            self.refuse(alloc, rows, row.place, fault)?;
        }
        Ok(())
    }

    /// Adds the row at this index to the refused ones.
    fn refuse(
        &mut self,
        alloc: Global,
        rows: &[TypeRow<'_>],
        place: usize,
        fault: TypeFault,
    ) -> Result<(), Fault>
        requires { IsStuck (table_of self.old) rows.now place fault }
        ensures types { table_of self.new ≡ table_of self.old }
        ensures refused { OnOk result ((own : RefusedType)
            × (refused_of self.new ≡ refused_of self.old ++ own ∷ [])
            × IsRefusal (table_of self.new) rows.now place own) }
        ensures memory { IfErr result (λ fault. fault ≡ Fault.Memory) }
    {
        let Some(row) = row_at(rows, place) else {
            return Ok(());
        };
        self.refused.push(RefusedType {
            oid: row.oid,
            name: String::from_str(alloc, row.name)?,
            fault,
        })?;
        Ok(())
    }
}

/// Returns the row at this index.
fn row_at<'r, 'a>(rows: &'r [TypeRow<'a>], place: usize) -> Option<&'r TypeRow<'a>>
    ensures some { IfSome result (λ row. slice_get rows.now place ≡ Some row.now) }
    ensures none { IfNone result (slice_get rows.now place ≡ None) }
{
    rows.get(place)
}
