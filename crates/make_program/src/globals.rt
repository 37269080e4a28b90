//! The bytes that the globals of a module have at the start.

ghost use Rattle.std.specs.Prelude.{◌≡◌, map, IfOk};
ghost use Rattle.std.specs.List.{AllByRecursion};
ghost use Rattle.ir_rules.specs.TypeRules.{HasTypes};
ghost use Rattle.ir_program.specs.Bytes.{HasByte};
ghost use Rattle.ir_program.specs.Constants.{global_cells};
ghost use Rattle.program_consts.specs.Constants.{AreConstants, shape_of};
ghost use Rattle.make_program.specs.Made.{all_cells};

use program_consts::Constants;
use program_tables::GlobalBytes;
use std::alloc::{AllocError, Global};

/// Returns the bytes that each global of a module has at the start.
pub fn globals_of(alloc: Global, constants: &Constants) -> Result<Vec<GlobalBytes>, AllocError>
    requires constants { AreConstants constants.now }
    requires proper { HasTypes (shape_of constants.now) }
    ensures cells { IfOk result (λ globals. all_cells globals.items
        ≡ map (global_cells (shape_of constants.now)) (shape_of constants.now).globals) }
    ensures bytes { IfOk result (λ globals.
        AllByRecursion (AllByRecursion HasByte) (all_cells globals.items)) }
{
    let mut globals = Vec::new(alloc);
    for global in &constants.steps.module.globals {
        let bytes = constants.bytes_of(alloc, global)?;
        globals.push(bytes)?;
    }
    Ok(globals)
}
