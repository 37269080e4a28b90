//! The laws of proper names and types.

ghost use Rattle.std.specs.Prelude.{◌≡◌, ◌≢◌, ℕ, List, Some, Err, Result, slice_get};
ghost use Rattle.ir_tree.specs.Shape.{ModuleShape, NamedTyShape, GlobalShape, DeclareShape, FunctionShape, InstShape};
ghost use Rattle.ir_tree.specs.ShapeOf.{module_shape};
ghost use Rattle.ir_tree.specs.declared.parsed.Parsed.{Parsed};
ghost use Rattle.ir_layout.specs.Rules.{IsSized};
ghost use Rattle.ir_rules.specs.Values.{inst_at};
ghost use Rattle.ir_rules.specs.Instructions.{IsWellTyped};
ghost use Rattle.ir_rules.specs.NameRules.{HasNames};
ghost use Rattle.ir_rules.specs.TypeRules.{HasTypes, IsProperGlobal, IsProperDeclare, IsProperHead, IsProperInst};
ghost use Rattle.ir_rules.specs.Faults.{NameFault, TypeFault};
ghost use Rattle.ir_types.specs.Answers.{IsChecked};
ghost use Rattle.ir_types.specs.declared.error.TypeError.{TypeError};

/// Proves that no rule of names fails where names are proper, and no rule of types where types are.
pub fn proper_modules_have_no_faults()
    ensures names { (p : Parsed) (at : ℕ) → HasNames (module_shape p.«module») →
        NameFault p at → ⊥ }
    ensures types { (p : Parsed) (at : ℕ) → HasTypes (module_shape p.«module») →
        TypeFault p at → ⊥ }
{}

/// Proves that of a module there is one answer, apart from want of memory.
pub fn answers_are_alone()
    ensures { (p : Parsed) (one other : Result (Unit {0}) TypeError) → IsChecked p one →
        IsChecked p other → one ≢ Err TypeError.OutOfMemory →
        other ≢ Err TypeError.OutOfMemory → one ≡ other }
{}

/// Proves of a module whose types are proper that each of its parts has the types that it needs.
pub fn operands_have_their_kinds()
    ensures types { (m : ModuleShape) (k : ℕ) (t : NamedTyShape) → HasTypes m →
        slice_get m.types k ≡ Some t → IsSized m.types t.ty }
    ensures globals { (m : ModuleShape) (k : ℕ) (g : GlobalShape) → HasTypes m →
        slice_get m.globals k ≡ Some g → IsProperGlobal m.types g }
    ensures declares { (m : ModuleShape) (k : ℕ) (d : DeclareShape) → HasTypes m →
        slice_get m.declares k ≡ Some d → IsProperDeclare d }
    ensures heads { (m : ModuleShape) (k : ℕ) (f : FunctionShape) → HasTypes m →
        slice_get m.functions k ≡ Some f → IsProperHead f }
    ensures instructions { (m : ModuleShape) (k b i : ℕ) (f : FunctionShape) (x : InstShape) →
        HasTypes m → slice_get m.functions k ≡ Some f → inst_at f b i ≡ Some x →
        IsProperInst (record { within = m; function = f }) b x }
    ensures operands { (m : ModuleShape) (k b i : ℕ) (f : FunctionShape) (x : InstShape) →
        HasTypes m → slice_get m.functions k ≡ Some f → inst_at f b i ≡ Some x →
        IsWellTyped (record { within = m; function = f }) x.body }
{}
