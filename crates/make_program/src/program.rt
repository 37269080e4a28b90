//! The program that a checked module stands for.

ghost use Rattle.std.specs.Prelude.{◌≡◌, IfOk};
ghost use Rattle.ir_names.specs.Scopes.{AreNamesInAll};
ghost use Rattle.ir_program.specs.Bytes.{HaveBytes};
ghost use Rattle.ir_program.specs.ProgramOf.{program_of};
ghost use Rattle.ir_rules.specs.TypeRules.{HasTypes};
ghost use Rattle.program_consts.specs.Constants.{AreConstants, shape_of};
ghost use Rattle.program_tables.specs.Shapes.{program_shape};
ghost use Rattle.ir_tree.specs.ShapeOf.{module_shape};
ghost use Rattle.ir_check.specs.Answers.{IsChecked};
ghost use Rattle.make_program.specs.Made.{IsProgramOf};

use crate::functions::functions_of;
use crate::globals::globals_of;
use crate::main_function::main_among;
use ir_check::Checked;
use ir_names::FunctionNames;
use program_consts::Constants;
use program_tables::Program;
use proper_programs::{proper_programs_are_typed, proper_programs_are_whole};
use std::alloc::{AllocError, Global};

/// Returns the program of a module whose types are proper, by what its constants and its names stand for.
fn made_program(
    alloc: Global,
    constants: &Constants,
    tables: &[FunctionNames],
) -> Result<Program, AllocError>
    requires constants { AreConstants constants.now }
    requires proper { HasTypes (shape_of constants.now) }
    requires tables { AreNamesInAll constants.now.steps.«module».now tables.now }
    ensures same { IfOk result (λ p. program_shape p ≡ program_of (shape_of constants.now)) }
    ensures bytes { IfOk result (λ p. HaveBytes (program_of (shape_of constants.now))) }
{
    let module = constants.steps.module;
    let globals = globals_of(alloc, constants)?;
    let functions = functions_of(alloc, constants, tables)?;
    Ok(Program {
        globals,
        functions,
        main: main_among(&module.names, &module.functions).unwrap_or(0),
    })
}

/// Returns the program that a checked module stands for. The time is linear in the text of the module, apart from
/// the looks at the tables of its names.
pub fn program_of(alloc: Global, m: &Checked) -> Result<Program, AllocError>
    requires checked { IsChecked m.now }
    ensures { IfOk result (IsProgramOf (module_shape m.now.parsed.«module»)) }
{
    proper_programs_are_typed();
    proper_programs_are_whole();
    let constants = Constants::of_module(alloc, &m.parsed.module, &m.scopes.module)?;
    made_program(alloc, &constants, &m.scopes.functions)
}
