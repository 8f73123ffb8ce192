//! Programs from their parts.

ghost use Rattle.std.specs.Prelude.{◌≡◌, IsTrue};
ghost use Rattle.ep_core.specs.View.{parts_view};
ghost use Rattle.ep_core.specs.ProgramView.{program_view};
ghost use Rattle.ep_core.specs.WellFormed.{is_well_formed};

use crate::program::{BlockInfo, CoreProgram, Function, InitByte};
use ep_layout::Types;

/// The program of these parts, where `main` is the number of main.
pub fn program_of(
    types: Types,
    blocks: Vec<BlockInfo>,
    init: Vec<InitByte>,
    functions: Vec<Function>,
    main: u32,
) -> CoreProgram
    requires { IsTrue (is_well_formed (parts_view types blocks.items init.items functions.items main)) }
    ensures { program_view result ≡ parts_view types blocks.items init.items functions.items main }
{
    CoreProgram {
        types,
        blocks,
        init,
        functions,
        main,
    }
}
