//! The functions of a program.

ghost use Rattle.std.specs.Prelude.{◌≡◌, ℕ, map, IfOk};
ghost use Rattle.ir_names.specs.Scopes.{AreNamesInAll};
ghost use Rattle.ir_proper.specs.Limits.{HasFrame};
ghost use Rattle.ir_rules.specs.TypeRules.{HasTypes};
ghost use Rattle.ir_program.specs.ProgramOf.{program_function};
ghost use Rattle.program_tables.specs.Shapes.{function_shape};
ghost use Rattle.program_actions.specs.Around.{IsAround, around_of};
ghost use Rattle.program_consts.specs.Constants.{AreConstants, shape_of};

use ir_limits::{frame_in, functions_have_frames};
use ir_names::FunctionNames;
use ir_program::frames_are_those_of_limits;
use program_consts::Constants;
use program_insts::{Around, blocks_of};
use program_tables::Function;
use std::alloc::{AllocError, Global};

/// Returns the function that is around.
fn function_of(alloc: Global, around: &Around) -> Result<Function, AllocError>
    requires around { IsAround around.now }
    requires sized { (n : ℕ) × HasFrame (around_of around.now).within.types
        (around_of around.now).function n }
    ensures { IfOk result (λ f. function_shape f ≡ program_function
        (around_of around.now).within (around_of around.now).function) }
{
    frames_are_those_of_limits();
    let steps = &around.constants.steps;
    let blocks = blocks_of(alloc, around)?;
    Ok(Function {
        params: around.function.params.len(),
        values: around.values.len(),
        frame: frame_in(steps.module, Some(&steps.layouts), around.function),
        blocks,
    })
}

/// Returns the functions of a module, where these are the tables of their names.
pub fn functions_of(
    alloc: Global,
    constants: &Constants,
    tables: &[FunctionNames],
) -> Result<Vec<Function>, AllocError>
    requires constants { AreConstants constants.now }
    requires proper { HasTypes (shape_of constants.now) }
    requires tables { AreNamesInAll constants.now.steps.«module».now tables.now }
    ensures { IfOk result (λ functions. map function_shape functions.items
        ≡ map (program_function (shape_of constants.now)) (shape_of constants.now).functions) }
{
    functions_have_frames();
    let mut functions = Vec::new(alloc);
    let module = constants.steps.module;
    for (at, function) in module.functions.iter().enumerate() {
        let around = Around {
            constants,
            function,
            values: &tables[at],
        };
        functions.push(function_of(alloc, &around)?)?;
    }
    Ok(functions)
}
