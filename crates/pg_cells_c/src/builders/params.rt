//! Building the parameters of a Bind message.
ghost use Rattle.std.specs.Prelude.{◌≡◌};
ghost use Rattle.pg_cells_c.specs.Builders.{Closes, empty_builder, params_head, params_width};

use super::{Builder, close, empty_builder};
use crate::buffers::NO_CELL;

/// The length of the number of parameters, in bytes.
const HEAD_LEN: usize = 2;

/// The greatest number of parameters of a message.
const MAX_PARAMS: usize = 65_535;

/// Begins a list of parameters (documentation, "Message Formats", Bind).
#[unsafe(no_mangle)]
pub extern "C" fn pgc_params_open(builder: &mut Builder)
    ensures { builder.new ≡ empty_builder params_width }
{
    *builder = empty_builder(HEAD_LEN);
}

/// Writes the number of parameters. There is no list of more than 65,535 parameters.
#[unsafe(no_mangle)]
#[tactic(auto, using(crate::proofs::PushSteps::no_params))]
pub extern "C" fn pgc_params_close(builder: &Builder, out: &mut [u8]) -> usize
    ensures { Closes params_width (params_head builder.now.count) builder.now out.old out.new result }
{
    if builder.count > MAX_PARAMS {
        return NO_CELL;
    }
    close(builder, &(builder.count as u16).to_be_bytes(), out)
}
