//! Faults and their places.
ghost use Rattle.std.specs.Prelude.{◌≡◌, ◌+◌};

use crate::column::ColumnName;
use postgres_types::Fault;
use std::error::Error;
use std::fmt;

/// A part of a message. Columns and parameters are counted from 0, and printed from 1.
#[derive(Debug, Clone, Copy)]
pub enum Place {
    /// A row as a whole: the bytes before its columns, or those after them.
    Row,
    /// The number of columns of a row.
    Columns { expected: usize, got: usize },
    /// The column at this index, and its name, if it has one.
    Column(usize, Option<ColumnName>),
    /// The parameters of a Bind message as a whole.
    Bind,
    /// The number of parameters of a Bind message.
    Parameters { expected: usize, got: usize },
    /// The parameter at this index.
    Parameter(usize),
}

/// Writes `row`, `row (expected 4 columns, got 3)`, `column 3 "at"`, or `column 3` if the column has
/// no name, `bind`, `bind (expected 4 parameters, got 3)`, or `parameter 2`.
impl fmt::Display for Place {
    ghost use Rattle.std.specs.Prelude.{Some};
    ghost use Rattle.pg_client.specs.Places.{place_text};

    ghost output = { λ place. Some (place_text place) };

    fn fmt<W: fmt::Write>(&self, f: &mut fmt::Formatter<W>) -> fmt::Result {
        match self {
            Place::Row => f.write_str("row"),
            Place::Columns { expected, got } => {
                write!(f, "row (expected {expected} columns, got {got})")
            }
            Place::Column(place, None) => write!(f, "column {}", number(*place)),
            Place::Column(place, Some(name)) => {
                write!(f, "column {} \"{name}\"", number(*place))
            }
            Place::Bind => f.write_str("bind"),
            Place::Parameters { expected, got } => {
                write!(f, "bind (expected {expected} parameters, got {got})")
            }
            Place::Parameter(place) => write!(f, "parameter {}", number(*place)),
        }
    }
}

/// Returns the number, counted from 1, of the column or parameter at this index.
fn number(place: usize) -> u128
    ensures { result ≡ place + 1 }
{
    place as u128 + 1
}

/// The fault of a column, of a parameter or of a message as a whole, and its place.
#[derive(Debug, Drop)]
pub struct PlacedFault {
    /// Where the fault was found.
    pub place: Place,
    /// Why the value could not be read or written.
    pub fault: Fault,
}

/// Writes the place and the fault in one line: `column 3 "at": invalid buffer size`.
impl fmt::Display for PlacedFault {
    fn fmt<W: fmt::Write>(&self, f: &mut fmt::Formatter<W>) -> fmt::Result {
        let place = &self.place;
        let fault = &self.fault;
        write!(f, "{place}: {fault}")
    }
}

impl Error for PlacedFault {}

impl PlacedFault {
    /// Creates the fault at this place.
    pub fn new(place: Place, fault: Fault) -> PlacedFault
        ensures { result ≡ record { place = place; fault = fault } }
    {
        PlacedFault { place, fault }
    }
}
