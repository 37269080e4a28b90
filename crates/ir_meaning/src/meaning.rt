//! Modules, evaluated.

ghost use Rattle.std.specs.Prelude.{◌≡◌, IfOk};
ghost use Rattle.ir_tree.specs.ShapeOf.{module_shape};
ghost use Rattle.ir_check.specs.Answers.{IsChecked};
ghost use Rattle.ir_eval.specs.Outcomes.{outcome_shape};
ghost use Rattle.ir_meaning.specs.Meaning.{module_run};

use ir_check::Checked;
use ir_eval::Outcome;
use make_program::program_of;
use std::alloc::{AllocError, Global};

/// Evaluates a checked module on an input, for at most so many steps.
///
/// # Errors
/// Memory may run out, and nothing else.
pub fn eval(alloc: Global, m: &Checked, input: &[u8], steps: u64) -> Result<Outcome, AllocError>
    requires checked { IsChecked m.now }
    ensures { IfOk result (λ outcome. outcome_shape outcome
        ≡ module_run (module_shape m.now.parsed.«module») input.now steps) }
{
    let program = program_of(alloc, m)?;
    ir_eval::eval(alloc, &program, input, steps)
}
