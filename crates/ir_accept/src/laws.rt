//! The law of accepted texts.

ghost use Rattle.std.specs.Prelude.{◌≡◌, ◌⊎◌, List, ℕ, Result, Err};
ghost use Rattle.ir_tree.specs.Shape.{ModuleShape};
ghost use Rattle.ir_proper.specs.Proper.{IsProper};
ghost use Rattle.ir_proper.specs.Limits.{IsWithin};
ghost use Rattle.ir_source.specs.Texts.{IsModuleOf};
ghost use Rattle.ir_source.specs.declared.error.SourceError.{SourceError};
ghost use Rattle.ir_check.specs.declared.error.CheckError.{CheckError};
ghost use Rattle.ir_accept.specs.Checks.{IsCheckedText};
ghost use Rattle.ir_accept.specs.declared.texts.Refusal.{Refusal};
ghost use Rattle.ir_accept.specs.declared.texts.Refusal.TheVariants.{Text, Module};

/// Proves that a text whose module is proper and within the limits is refused for want of memory alone.
pub fn proper_texts_are_accepted()
    ensures { (text : List ℕ) (m : ModuleShape) (error : Refusal) → IsModuleOf text m → IsProper m →
        IsWithin m → IsCheckedText text (Err error) →
        (error ≡ Text SourceError.OutOfMemory) ⊎ (error ≡ Module CheckError.OutOfMemory) }
{}
