//! The laws of texts and their modules.

ghost use Rattle.std.specs.Prelude.{◌≡◌, List, ℕ};
ghost use Rattle.ir_tree.specs.Shape.{ModuleShape};
ghost use Rattle.ir_source.specs.Texts.{IsModuleOf, IsRefused};
ghost use Rattle.ir_source.specs.declared.error.SourceError.{SourceError};

/// Proves that a text has at most one module, that it is refused for at most one reason and at one
/// place, and that none has a module and is refused.
pub fn texts_are_read_in_one_way()
    ensures one_module { (text : List ℕ) (m other : ModuleShape) → IsModuleOf text m →
        IsModuleOf text other → m ≡ other }
    ensures one_refusal { (text : List ℕ) (error other : SourceError) → IsRefused text error →
        IsRefused text other → error ≡ other }
    ensures apart { (text : List ℕ) (m : ModuleShape) (error : SourceError) → IsModuleOf text m →
        IsRefused text error → ⊥ }
{}
