//! The laws of checked modules.

ghost use Rattle.std.specs.Prelude.{◌≡◌, ◌≢◌};
ghost use Rattle.ir_tree.specs.ShapeOf.{module_shape};
ghost use Rattle.ir_tree.specs.declared.parsed.Parsed.{Parsed};
ghost use Rattle.ir_proper.specs.Proper.{IsProper};
ghost use Rattle.ir_proper.specs.Limits.{IsWithin};
ghost use Rattle.ir_check.specs.Answers.{IsRefused};
ghost use Rattle.ir_check.specs.declared.error.CheckError.{CheckError};

/// Proves that a module that is proper and within the limits is refused for want of memory alone.
pub fn proper_modules_are_accepted()
    ensures { (p : Parsed) (error : CheckError) → IsProper (module_shape p.«module») →
        IsWithin (module_shape p.«module») → IsRefused p error → error ≡ CheckError.OutOfMemory }
{}

/// Proves that a module is refused for one reason, apart from want of memory.
pub fn answers_are_alone()
    ensures { (p : Parsed) (one other : CheckError) → IsRefused p one → IsRefused p other →
        one ≢ CheckError.OutOfMemory → other ≢ CheckError.OutOfMemory → one ≡ other }
{}
