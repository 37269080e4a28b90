//! The printed form of modules, and the law that it is read back.
//!
//! A module is printed line by line as its spelling is: named types, globals, declarations and functions, each
//! part appended by a function of its own.
#![tactic(auto)]

ghost use Rattle.std.specs.Prelude.{◌≡◌, ℕ, List, [], length, IfOk};
ghost use Rattle.grammar.specs.Reader.{Got};
ghost use Rattle.ir_lex.specs.declared.token.Token.{Token};
ghost use Rattle.ir_lex.specs.Symbols.{symbols_of};
ghost use Rattle.ir_lex.specs.Tokens.{AreTokens};
ghost use Rattle.ir_print_symbols.specs.Printed.{AreBytes, ArePrintable, rows_of};
ghost use Rattle.ir_print_symbols.specs.Spells.{Spells};
ghost use Rattle.ir_tree.specs.Shape.{ModuleShape};
ghost use Rattle.ir_tree.specs.ShapeOf.{module_shape};
ghost use Rattle.ir_grammar_modules.specs.Modules.{run_module, whole_module};
ghost use Rattle.ir_grammar_modules.specs.Spelling.{module_spelling, FitsModule};
ghost use Rattle.ir_print.specs.Printed.{module_lines, module_text};

mod blocks;
mod instructions;
mod items;
mod operands;
mod terminators;

use crate::items::push_items;
use ir_tree::module::Module;
use std::alloc::{AllocError, Global};

/// Returns the text of a module, in time linear in its length. A name's number that isn't in the module's
/// table stands for the empty name.
///
/// # Errors
///
/// Want of memory.
pub fn print(alloc: Global, module: &Module) -> Result<Vec<u8>, AllocError>
    ensures { IfOk result (λ text. text.items ≡ module_text (module_shape «module».now)) }
{
    let mut text = Vec::new(alloc);
    push_items(module, &mut text)?;
    Ok(text)
}

/// States that the lines of a module are its spelling, cut into lines.
pub fn module_lines_are_its_spelling()
    ensures { (m : ModuleShape) → rows_of (module_lines m) ≡ module_spelling m }
{}

/// States that a printed module is read back: the tokens of the text mean its spelling, and the reader of
/// modules gives the module again. So it is in any text that spells the module, with other blanks or on other
/// lines, for whatever tokens that text has.
pub fn printed_modules_are_read_back()
    ensures spelled { (m : ModuleShape) → ArePrintable (module_spelling m) →
        Spells (module_text m) (module_spelling m) }
    ensures back { (m : ModuleShape) (text : List ℕ) (toks : List Token) → FitsModule m →
        Spells text (module_spelling m) → AreTokens text toks →
        run_module (length (symbols_of text toks)) (symbols_of text toks) ≡ Got m [] }
    ensures printed { (m : ModuleShape) (toks : List Token) → FitsModule m →
        ArePrintable (module_spelling m) → AreTokens (module_text m) toks →
        run_module (length (symbols_of (module_text m) toks)) (symbols_of (module_text m) toks) ≡ Got m [] }
    ensures spells_it { (m : ModuleShape) (toks : List Token) → FitsModule m →
        ArePrintable (module_spelling m) → AreTokens (module_text m) toks →
        whole_module (symbols_of (module_text m) toks) m }
{}

/// States that modules that were read are printed and read back: a module that the tokens of a text of bytes
/// spell has a printable spelling, so it is spelled by its printed form, and whatever tokens that text has
/// spell the module, and the reader gives it again.
pub fn read_modules_are_read_back()
    ensures printable { (text : List ℕ) (toks : List Token) (m : ModuleShape) → AreBytes text →
        whole_module (symbols_of text toks) m →
        ArePrintable (module_spelling m) }
    ensures spelled { (text : List ℕ) (toks : List Token) (m : ModuleShape) → AreBytes text →
        whole_module (symbols_of text toks) m →
        Spells (module_text m) (module_spelling m) }
    ensures spells_it { (text : List ℕ) (toks : List Token) (m : ModuleShape) (again : List Token) →
        AreBytes text →
        whole_module (symbols_of text toks) m → AreTokens (module_text m) again →
        whole_module (symbols_of (module_text m) again) m }
    ensures back { (text : List ℕ) (toks : List Token) (m : ModuleShape) (again : List Token) →
        AreBytes text →
        whole_module (symbols_of text toks) m → AreTokens (module_text m) again →
        run_module (length (symbols_of (module_text m) again)) (symbols_of (module_text m) again) ≡ Got m [] }
{}
