//! The law of modules that end.

ghost use Rattle.std.specs.Prelude.{◌≡◌, ◌≤◌, ℕ, List};
ghost use Rattle.ir_tree.specs.Shape.{ModuleShape};
ghost use Rattle.ir_model.specs.Runs.{HasEnded};
ghost use Rattle.ir_program.specs.ProgramOf.{ModuleEnds};
ghost use Rattle.ir_meaning.specs.Meaning.{module_run};

use ir_model::an_ended_run_is_a_run;

/// Proves that a module which ends after some steps is evaluated to that end, in as many steps or more.
pub fn modules_that_end_are_evaluated()
    ensures { (m : ModuleShape) (input : List ℕ) (steps allowed : ℕ) (out : List ℕ) (status : ℕ) →
        ModuleEnds m input steps out status → steps ≤ allowed →
        module_run m input allowed ≡ HasEnded out status steps }
{
    an_ended_run_is_a_run();
}
