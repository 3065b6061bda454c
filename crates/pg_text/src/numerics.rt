//! NUMERIC.
ghost use Rattle.std.specs.Prelude.{◌≡◌, MatchOption, Some, codes, true};
ghost use Rattle.pg_types.specs.Faults.{refusal_of, user};
ghost use Rattle.pg_types.specs.declared.fault.Fault.TheVariants.{Memory};
ghost use Rattle.pg_numbers.specs.NumericCells.{is_numeric};
ghost use Rattle.pg_numbers.specs.NumericTexts.{numeric_text};
ghost use Rattle.pg_text.specs.Numerics.{SaysNumeric};
ghost use Rattle.pg_text.specs.ReadBack.{IsReadBack};
ghost use Rattle.pg_text.specs.Texts.{SaysAny, Shows};

use crate::shown::push_shown;
use crate::{FromText, ToText, no_value};
use pg_numbers::Numeric;
use postgres_types::Fault;
use std::alloc::{AllocError, Global};

/// Writes `NaN`, `Infinity`, `-Infinity`, or decimal digits, as many after the point as the scale
/// (`numeric_out`).
impl ToText for Numeric {
    ghost shows = { Shows numeric_text };

    fn to_text(&self, alloc: Global, out: &mut Vec<u8>) -> Result<(), AllocError> {
        push_shown(alloc, self, out)
    }
}

/// Parses the texts that [`Numeric::parse`] does (`numeric_in`).
impl FromText for Numeric {
    ghost says = { SaysNumeric };

    ghost parses = { SaysAny SaysNumeric };

    fn from_text(alloc: Global, text: &str) -> Result<Numeric, Fault> {
        match Numeric::parse(alloc, text) {
            Ok(value) => Ok(value),
            Err(fault) => Err(memory_or_no_value(fault)),
        }
    }
}

/// Returns the fault of a text for that with which it was refused.
fn memory_or_no_value(fault: Fault) -> Fault
    ensures { MatchOption (refusal_of fault) (result ≡ Memory)
        (λ _. refusal_of result ≡ Some (user (codes "no value of its type"))) }
{
    match fault {
        Fault::Memory => Fault::Memory,
        _ => no_value(),
    }
}

/// The text of a NUMERIC says it, with its scale, and no other.
pub fn numeric_is_read_back()
    ensures { IsReadBack (λ v. is_numeric v ≡ true) ⟦<Numeric as ToText>⟧.shows
        ⟦<Numeric as FromText>⟧.says }
{}
