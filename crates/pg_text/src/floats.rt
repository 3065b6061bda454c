//! FLOAT4 and FLOAT8.
ghost use Rattle.std.specs.Prelude.{◌<◌, ◌^◌, ℕ, IsFalse, from_bits, is_nan};
ghost use Rattle.std.specs.Float.{binary32, binary64};
ghost use Rattle.pg_text.specs.Floats.{SaysFloat, ShowsFloat};
ghost use Rattle.pg_text.specs.ReadBack.{IsReadBack};
ghost use Rattle.pg_text.specs.Texts.{SaysAny};

use crate::spaces::trimmed;
use crate::{FromText, ToText, no_value};
use pg_numbers::{Float4, Float8};
use postgres_types::Fault;
use std::alloc::{AllocError, Global};

/// The shortest decimal that is nearer to the number than to any other one (`float4out`).
impl ToText for Float4 {
    ghost shows = { ShowsFloat binary32 };

    fn to_text(&self, _alloc: Global, out: &mut Vec<u8>) -> Result<(), AllocError> {
        out.extend_from_slice(Float4::text(*self).as_bytes())
    }
}

/// Parses the texts that `Float4::from_str` does (`float4in`); white space may stand around them.
impl FromText for Float4 {
    ghost says = { SaysFloat binary32 };

    ghost parses = { SaysAny (SaysFloat binary32) };

    fn from_text(_alloc: Global, text: &str) -> Result<Float4, Fault> {
        match text.parse::<Float4>() {
            Ok(value) => Ok(value),
            Err(_) => trimmed(text).parse::<Float4>().map_err(|_| no_value()),
        }
    }
}

/// The shortest decimal that is nearer to the number than to any other one (`float8out`).
impl ToText for Float8 {
    ghost shows = { ShowsFloat binary64 };

    fn to_text(&self, _alloc: Global, out: &mut Vec<u8>) -> Result<(), AllocError> {
        out.extend_from_slice(Float8::text(*self).as_bytes())
    }
}

/// Parses the texts that `Float8::from_str` does (`float8in`); white space may stand around them.
impl FromText for Float8 {
    ghost says = { SaysFloat binary64 };

    ghost parses = { SaysAny (SaysFloat binary64) };

    fn from_text(_alloc: Global, text: &str) -> Result<Float8, Fault> {
        match text.parse::<Float8>() {
            Ok(value) => Ok(value),
            Err(_) => trimmed(text).parse::<Float8>().map_err(|_| no_value()),
        }
    }
}

/// The text of a FLOAT4 says it, and no other, except NaN, which has neither a sign nor a payload in
/// its text.
pub fn float4_is_read_back()
    ensures { IsReadBack (λ (bits : ℕ). (bits < 2 ^ 32) × IsFalse (is_nan (from_bits binary32 bits)))
        ⟦<Float4 as ToText>⟧.shows ⟦<Float4 as FromText>⟧.says }
{}

/// The text of a FLOAT8 says it, and no other, except NaN, which has neither a sign nor a payload in
/// its text.
pub fn float8_is_read_back()
    ensures { IsReadBack (λ (bits : ℕ). (bits < 2 ^ 64) × IsFalse (is_nan (from_bits binary64 bits)))
        ⟦<Float8 as ToText>⟧.shows ⟦<Float8 as FromText>⟧.says }
{}
