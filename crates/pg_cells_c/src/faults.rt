//! The texts of faults.
ghost use Rattle.std.specs.Prelude.{◌≡◌};
ghost use Rattle.pg_cells_c.specs.FaultTexts.{fault_text};
ghost use Rattle.pg_cells_c.specs.Writings.{WritesInto};

use crate::buffers::write;

/// Returns the text of the fault with that number, with a zero byte at its end.
fn text_of(fault: u32) -> &'static str
    ensures { result.now ≡ fault_text fault }
{
    match fault {
        0 => "no fault\0",
        1 => "out of memory\0",
        2 => "a Postgres value was `NULL`\0",
        3 => "cannot convert between the Rust type and the Postgres type\0",
        4 => "invalid buffer size\0",
        5 => "invalid UTF-8\0",
        6 => "invalid count\0",
        7 => "invalid key length\0",
        8 => "array contains too many dimensions\0",
        9 => "too few elements in array\0",
        10 => "excess elements in array\0",
        11 => "value too large to decode\0",
        12 => "value too large to transmit\0",
        13 => "unsupported JSONB encoding version\0",
        14 => "unsupported text version\0",
        15 => "invalid JSON\0",
        16 => "JSON number is not a whole number\0",
        17 => "invalid IP family\0",
        18 => "invalid netmask\0",
        19 => "invalid address length\0",
        20 => "host bits are set\0",
        21 => "refused by a user-defined type\0",
        22 => "invalid field count\0",
        23 => "unexpected field type\0",
        _ => "unknown fault\0",
    }
}

/// Writes the text of a fault, with a zero byte at its end.
#[unsafe(no_mangle)]
pub extern "C" fn pgc_fault_text(fault: u32, out: &mut [u8]) -> usize
    ensures { WritesInto (fault_text fault) out.old out.new result }
{
    write(text_of(fault).as_bytes(), out)
}
