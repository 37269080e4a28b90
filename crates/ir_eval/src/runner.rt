//! Whole runs.

ghost use Rattle.std.specs.Prelude.{◌≡◌, List, IfOk};
ghost use Rattle.ir_model.specs.States.{begun};
ghost use Rattle.ir_model.specs.Runs.{run};
ghost use Rattle.ir_typed_runs.specs.TypedPrograms.{FunctionKinds, IsTyped};
ghost use Rattle.program_tables.specs.Shapes.{program_shape};
ghost use Rattle.ir_eval.specs.Outcomes.{outcome_shape};

use crate::outcome::{Outcome, Turn};
use crate::start::begun;
use program_tables::Program;
use std::alloc::{AllocError, Global};

/// Runs a program on an input for at most so many steps.
///
/// # Errors
/// Memory may run out, and nothing else.
pub fn eval(alloc: Global, p: &Program, input: &[u8], steps: u64) -> Result<Outcome, AllocError>
    requires { (kinds : List FunctionKinds) × IsTyped (program_shape p.now) kinds }
    ensures { IfOk result (λ outcome. outcome_shape outcome ≡
        run steps (program_shape p.now) (begun (program_shape p.now) input.now)) }
{
    let mut machine = begun(alloc, p)?;
    for done in 0..steps {
        match machine.step(alloc, p, input)? {
            Turn::Goes => {}
            Turn::Ends(status) => {
                return Ok(Outcome::Ended {
                    output: machine.output,
                    status,
                    steps: done + 1,
                });
            }
            Turn::Undefined(why) => {
                return Ok(Outcome::Undefined {
                    why,
                    output: machine.output,
                });
            }
        }
    }
    Ok(Outcome::StepsOver {
        output: machine.output,
    })
}
