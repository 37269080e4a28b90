//! The laws of limits.

ghost use Rattle.std.specs.Prelude.{◌≡◌, ◌⊎◌, ℕ, true, length, Contains};
ghost use Rattle.ir_tree.specs.Known.{module_known, function_known};
ghost use Rattle.ir_tree.specs.Shape.{ModuleShape};
ghost use Rattle.ir_tree.specs.ShapeOf.{function_shape, module_shape};
ghost use Rattle.ir_tree.specs.declared.module.Function.{Function};
ghost use Rattle.ir_tree.specs.declared.module.Module.{Module};
ghost use Rattle.ir_rules.specs.TypeRules.{HasTypes};
ghost use Rattle.ir_proper.specs.declared.Which.{Which};
ghost use Rattle.ir_proper.specs.Limits.{HasFrame, IsWithin, IsFirstPassed};

/// Proves that a function of a module has a frame where the types of the module are proper, and that its
/// names are known where those of the module are. This is what `frame` needs.
pub fn functions_have_frames()
    ensures names { (m : Module) (f : Function) → module_known m ≡ true →
        Contains m.functions.items f → function_known (length m.names) f ≡ true }
    ensures sized { (m : Module) (f : Function) → HasTypes (module_shape m) →
        Contains m.functions.items f →
        (n : ℕ) × HasFrame (module_shape m).types (function_shape m.names f) n }
{}

/// Proves that a module whose types are proper is within the limits, or one limit is the first that it passes,
/// with one count; and never both.
pub fn limits_have_one_answer()
    ensures some { (m : ModuleShape) → HasTypes m →
        IsWithin m ⊎ ((which : Which) × (found : ℕ) × IsFirstPassed m which found) }
    ensures not_both { (m : ModuleShape) (which : Which) (found : ℕ) → IsWithin m →
        IsFirstPassed m which found → ⊥ }
    ensures alone { (m : ModuleShape) (which other : Which) (found more : ℕ) →
        IsFirstPassed m which found → IsFirstPassed m other more →
        (which ≡ other) × (found ≡ more) }
{}
