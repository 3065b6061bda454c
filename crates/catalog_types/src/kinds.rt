//! The lines of the types.

use anyhow::Result;
use postgres_types::{Field, KindRef, Type};
use std::io::Write;

/// Prints the line of a type.
pub(super) fn show<W: Write>(ty: &Type, output: &mut W) -> Result<()> {
    let oid = ty.oid();
    let schema = ty.schema();
    let name = ty.name();
    write!(output, "{oid}|{schema}|{name}|")?;
    match ty.kind() {
        KindRef::Simple => writeln!(output, "simple")?,
        KindRef::Enum(labels) => show_labels(labels, output)?,
        KindRef::Pseudo => writeln!(output, "pseudo")?,
        KindRef::Array(element) => show_part("array", &element, output)?,
        KindRef::Range(element) => show_part("range", &element, output)?,
        KindRef::Multirange(element) => show_part("multirange", &element, output)?,
        KindRef::Domain(base) => show_part("domain", &base, output)?,
        KindRef::Composite(fields) => show_fields(fields, output)?,
    }
    Ok(())
}

/// Prints a kind that has another type in it.
fn show_part<W: Write>(kind: &str, part: &Type, output: &mut W) -> Result<()> {
    let oid = part.oid();
    let name = part.name();
    Ok(writeln!(output, "{kind} {name}={oid}")?)
}

/// Prints the labels.
fn show_labels<W: Write>(labels: &[String], output: &mut W) -> Result<()> {
    write!(output, "enum")?;
    for label in labels {
        write!(output, " {label}")?;
    }
    Ok(writeln!(output)?)
}

/// Prints the fields, each with the OID of its type.
fn show_fields<W: Write>(fields: &[Field], output: &mut W) -> Result<()> {
    write!(output, "composite")?;
    for field in fields {
        let name = field.name();
        let oid = field.type_().oid();
        write!(output, " {name}={oid}")?;
    }
    Ok(writeln!(output)?)
}
