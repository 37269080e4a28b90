//! The sizes of the blocks of memory that are there at the start.

ghost use Rattle.std.specs.Prelude.{◌≡◌, IfOk};
ghost use Rattle.ir_tree.specs.ShapeOf.{module_shape};
ghost use Rattle.program_steps.specs.Steps.{AreTypeSteps};
ghost use Rattle.program_consts.specs.Rooms.{AreGlobalsSized, block_sizes};

use program_steps::TypeSteps;
use std::alloc::{AllocError, Global};

/// Returns the size of each block of memory that is there at the start: null's, which is 0, and those of globals.
pub fn block_sizes(alloc: Global, steps: &TypeSteps) -> Result<Vec<u64>, AllocError>
    requires steps { AreTypeSteps steps.now }
    requires sized { AreGlobalsSized steps.now.«module».now }
    ensures { IfOk result (λ sizes. sizes.items ≡ block_sizes (module_shape steps.now.«module».now)) }
{
    let mut sizes = Vec::new(alloc);
    sizes.push(0)?;
    for global in &steps.module.globals {
        sizes.push(steps.layout_of(&global.ty).size)?;
    }
    Ok(sizes)
}
