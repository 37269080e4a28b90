//! The programs of proper modules are typed and whole, give each value once, and never call `main`.
//!
//! `specs/ModuleKinds.antt` says which kinds the values of a module's program have, `specs/Results.antt` which
//! values a function gives, `specs/NeverCalled.antt` what isn't called. The functions have no code: their
//! contracts are the laws.
#![tactic(auto)]

ghost use Rattle.std.specs.List.{AllByRecursion};
ghost use Rattle.ir_tree.specs.Shape.{ModuleShape};
ghost use Rattle.ir_forms.specs.Modules.{HasForm};
ghost use Rattle.ir_proper.specs.Proper.{IsProper};
ghost use Rattle.ir_program.specs.ProgramOf.{program_of};
ghost use Rattle.ir_program.specs.Bytes.{HaveBytes};
ghost use Rattle.ir_typed_runs.specs.TypedPrograms.{IsTyped};
ghost use Rattle.ir_placed_runs.specs.Places.{IsWhole};
ghost use Rattle.proper_programs.specs.ModuleKinds.{module_kinds};
ghost use Rattle.proper_programs.specs.Results.{GivesInOrder, GivesOnce};
ghost use Rattle.proper_programs.specs.NeverCalled.{IsNeverCalled, BeginsAtMain};

/// Proves that the program of a proper module is typed, with the kinds that the module states.
pub fn proper_programs_are_typed()
    ensures { (m : ModuleShape) → IsProper m → HaveBytes (program_of m) →
        IsTyped (program_of m) (module_kinds m) }
{}

/// Proves that the program of a proper module is whole.
pub fn proper_programs_are_whole()
    ensures { (m : ModuleShape) → IsProper m → HasForm m → IsWhole (program_of m) }
{}

/// Proves that the functions of a program give the values above their parameters one after the other: those of the
/// phis of a block, then those of its other instructions, block after block.
pub fn values_are_given_in_order()
    ensures { (m : ModuleShape) → HasForm m → AllByRecursion GivesInOrder (program_of m).functions }
{}

/// Proves that the functions of a program give each value above their parameters at one place, and no other value.
pub fn values_are_given_once()
    ensures { (m : ModuleShape) → HasForm m → AllByRecursion GivesOnce (program_of m).functions }
{}

/// Proves that the program of a proper module begins at `main`, which none of its instructions calls.
pub fn main_is_never_called()
    ensures begins { (m : ModuleShape) → IsProper m → BeginsAtMain m }
    ensures never { (m : ModuleShape) → IsProper m →
        IsNeverCalled (program_of m) (program_of m).main }
{}
