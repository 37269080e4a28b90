//! The law that the modules which the grammar spells are those that have the form of a module.
//!
//! The definitions stand below: `whole_module` says which symbols spell which modules, `HasForm` what a module is
//! like, without the grammar. The function has no code: its contract is the law.
#![tactic(auto)]

ghost use Rattle.std.specs.Prelude.{List};
ghost use Rattle.ir_lex.specs.Symbols.{Symbol};
ghost use Rattle.ir_tree.specs.Shape.{ModuleShape};
ghost use Rattle.ir_grammar_modules.specs.Modules.{whole_module};
ghost use Rattle.ir_grammar_modules.specs.Spelling.{module_spelling};
ghost use Rattle.ir_forms.specs.Modules.{HasForm};

/// Proves that a module which symbols spell has its form, and that a module with its form is spelled by symbols:
/// by those of its spelling.
pub fn spelled_modules_have_form()
    ensures form { (symbols : List Symbol) (m : ModuleShape) → whole_module symbols m → HasForm m }
    ensures spelled { (m : ModuleShape) → HasForm m → whole_module (module_spelling m) m }
{}
