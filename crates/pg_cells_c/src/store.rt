//! Results of readers.
ghost use Rattle.pg_cells_c.specs.Readings.{Stores};

use pg_types::fault::Fault;

/// Stores what was read and returns 0, or returns the number of the fault.
#[inline(always)]
pub(crate) fn store<T: Copy>(read: Result<T, Fault>, value: &mut T) -> u32
    ensures { Stores read value.old value.new result }
{
    match read {
        Ok(read) => {
            *value = read;
            0
        }
        Err(fault) => fault.code(),
    }
}
