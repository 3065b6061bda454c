//! The columns and the types of parameters that a server describes.
ghost use Rattle.std.specs.Prelude.{◌≡◌, IfErr, IfOk, IsTrue, OnOk, false, pos, true};
ghost use Rattle.pg_client.specs.CatalogTypes.{IsTypeOf, table_of};
ghost use Rattle.pg_client.specs.Descriptions.{DescribesColumns, DescribesTypes, IsColumn, IsType, IsWhyNoColumn};
ghost use Rattle.pg_client.specs.Descriptions.{IsWhyNoType, IsWhyUnread, IsWhyUntyped};
ghost use Rattle.pg_types.specs.Content.{content};

use crate::catalog::{Catalog, TypeFault, part};
use crate::column::{Column, ColumnName};
use crate::placed_fault::Place;
use pg_messages::column::{ColumnDescription, split_column};
use pg_messages::split::split_oid;
use postgres_types::{Oid, Type};
use std::alloc::Global;
use std::error::Error;
use std::fmt;

/// Why the description of a column or a parameter is refused.
#[derive(Debug, Clone, Copy, PartialEq, Eq, thiserror::Error)]
pub enum DescriptionFault {
    /// An allocation failed.
    #[error("out of memory")]
    Memory,
    /// The description is truncated, bytes come after the last one, or a name is not UTF-8.
    #[error("invalid description")]
    Damaged,
    /// Its type has this OID, which no type of the catalog has.
    #[error("no type has OID {0}")]
    Unknown(Oid),
    /// The values of the column are in the text format.
    #[error("text format")]
    TextFormat,
}

/// A refused description: the place of the column or the parameter, and the fault.
#[derive(Debug, Clone, Copy)]
pub struct RefusedDescription {
    /// The column or the parameter.
    pub place: Place,
    /// Why it is refused.
    pub fault: DescriptionFault,
}

/// Writes the place and the fault in one line: `column 3 "price": no type has OID 16400`.
impl fmt::Display for RefusedDescription {
    fn fmt<W: fmt::Write>(&self, f: &mut fmt::Formatter<W>) -> fmt::Result {
        let place = &self.place;
        let fault = &self.fault;
        write!(f, "{place}: {fault}")
    }
}

impl Error for RefusedDescription {}

impl RefusedDescription {
    /// Creates the fault at this place.
    pub fn new(place: Place, fault: DescriptionFault) -> RefusedDescription
        ensures { result ≡ record { place = place; fault = fault } }
    {
        RefusedDescription { place, fault }
    }
}

/// Creates the columns that a RowDescription message describes, for the rows that follow: it answers
/// a Query message or the Describe message of a portal. The message has their number and their
/// descriptions, as `pg_messages` gives them.
///
/// A column in the text format is refused with `TextFormat`, so that no text is read as a binary
/// cell, and one whose type the catalog does not have with `Unknown`; a truncated description, a
/// name that is not UTF-8, and bytes after the last column, at [`Place::Row`], with `Damaged`.
pub fn columns(
    alloc: Global,
    count: u16,
    descriptions: &[u8],
    catalog: &Catalog,
) -> Result<Vec<Column>, RefusedDescription>
    ensures { DescribesColumns true (table_of catalog.now) count descriptions.now result }
{
    described(alloc, true, count, descriptions, catalog)
}

/// Creates the columns that a RowDescription message describes as [`columns`] does, where it answers
/// the Describe message of a prepared statement. Its formats are 0 whatever the rows will be in: those
/// of a [`Bind`](crate::Bind) are binary.
pub fn statement_columns(
    alloc: Global,
    count: u16,
    descriptions: &[u8],
    catalog: &Catalog,
) -> Result<Vec<Column>, RefusedDescription>
    ensures { DescribesColumns false (table_of catalog.now) count descriptions.now result }
{
    described(alloc, false, count, descriptions, catalog)
}

/// Creates the columns, whose formats are tested if `has_formats`.
fn described(
    alloc: Global,
    has_formats: bool,
    count: u16,
    descriptions: &[u8],
    catalog: &Catalog,
) -> Result<Vec<Column>, RefusedDescription>
    ensures { DescribesColumns has_formats (table_of catalog.now) count descriptions.now result }
{
    let mut columns = Vec::new(alloc);
    let mut rest = descriptions;
    for place in 0..usize::from(count) {
        let column = take_column(place, has_formats, catalog, &mut rest)?;
        if columns.push(column).is_err() {
            let place = Place::Column(place, None);
            return Err(RefusedDescription::new(place, DescriptionFault::Memory));
        }
    }
    if rest.is_empty() {
        Ok(columns)
    } else {
        Err(RefusedDescription::new(Place::Row, DescriptionFault::Damaged))
    }
}

/// Takes the description of the column at this index off the front of the slice. An error leaves the
/// slice as it was.
fn take_column(
    place: usize,
    has_formats: bool,
    catalog: &Catalog,
    rest: &mut &[u8],
) -> Result<Column, RefusedDescription>
    ensures column { IfOk result
        (λ column. IsColumn has_formats (table_of catalog.now) column rest.old.now rest.new.now) }
    ensures why { IfErr result (λ f. IsWhyNoColumn has_formats (table_of catalog.now) place rest.old.now f
        × (rest.new.now ≡ rest.old.now)) }
{
    let Some((description, after)) = split_column(rest) else {
        let place = Place::Column(place, None);
        return Err(RefusedDescription::new(place, DescriptionFault::Damaged));
    };
    match type_of(has_formats, &description, catalog) {
        Ok(ty) => {
            *rest = after;
            Ok(Column::new(description.name, ty))
        }
        Err(fault) => {
            let name = ColumnName::from(description.name).ok();
            Err(RefusedDescription::new(Place::Column(place, name), fault))
        }
    }
}

/// Returns the type of a column.
fn type_of(
    has_formats: bool,
    description: &ColumnDescription<'_>,
    catalog: &Catalog,
) -> Result<Type, DescriptionFault>
    ensures ty { IfOk result (λ ty. IsTypeOf (table_of catalog.now) description.now.ty (content ty)) }
    ensures binary { OnOk result (IsTrue has_formats → description.now.format ≡ pos 1) }
    ensures why { IfErr result (IsWhyUnread has_formats (table_of catalog.now) description.now) }
{
    if has_formats && description.format != 1 {
        return Err(DescriptionFault::TextFormat);
    }
    typed(description.ty, catalog)
}

/// Returns the type with this OID.
fn typed(oid: Oid, catalog: &Catalog) -> Result<Type, DescriptionFault>
    ensures ty { IfOk result (λ ty. IsTypeOf (table_of catalog.now) oid (content ty)) }
    ensures why { IfErr result (IsWhyUntyped (table_of catalog.now) oid) }
{
    match part(catalog, oid) {
        Ok(ty) => Ok(ty),
        Err(TypeFault::Unknown(oid)) => Err(DescriptionFault::Unknown(oid)),
        Err(_) => Err(DescriptionFault::Memory),
    }
}

/// Returns the types of the parameters of a prepared statement, which a ParameterDescription message
/// gives: their number and their OIDs, as `pg_messages` gives them.
///
/// A type that the catalog does not have is refused with `Unknown` at its parameter; truncated OIDs,
/// and bytes after the last one, at [`Place::Bind`], with `Damaged`.
pub fn parameter_types(
    alloc: Global,
    count: u16,
    oids: &[u8],
    catalog: &Catalog,
) -> Result<Vec<Type>, RefusedDescription>
    ensures { DescribesTypes (table_of catalog.now) count oids.now result }
{
    let mut types = Vec::new(alloc);
    let mut rest = oids;
    for place in 0..usize::from(count) {
        let ty = take_type(place, catalog, &mut rest)?;
        if types.push(ty).is_err() {
            let place = Place::Parameter(place);
            return Err(RefusedDescription::new(place, DescriptionFault::Memory));
        }
    }
    if rest.is_empty() {
        Ok(types)
    } else {
        Err(RefusedDescription::new(Place::Bind, DescriptionFault::Damaged))
    }
}

/// Takes the OID of the type of the parameter at this index off the front of the slice. An error
/// leaves the slice as it was.
fn take_type(place: usize, catalog: &Catalog, rest: &mut &[u8]) -> Result<Type, RefusedDescription>
    ensures ty { IfOk result (λ ty. IsType (table_of catalog.now) ty rest.old.now rest.new.now) }
    ensures why { IfErr result (λ f. IsWhyNoType (table_of catalog.now) place rest.old.now f
        × (rest.new.now ≡ rest.old.now)) }
{
    let Some((oid, after)) = split_oid(rest) else {
        let place = Place::Parameter(place);
        return Err(RefusedDescription::new(place, DescriptionFault::Damaged));
    };
    match typed(oid, catalog) {
        Ok(ty) => {
            *rest = after;
            Ok(ty)
        }
        Err(fault) => Err(RefusedDescription::new(Place::Parameter(place), fault)),
    }
}
