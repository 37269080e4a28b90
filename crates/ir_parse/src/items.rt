//! Items, each from its first token on.

ghost use Rattle.std.specs.Prelude.{◌≡◌, ◌+◌, ◌^◌, ◌<◌, ◌≤◌, length, drop, slice_range, true, IfOk};
ghost use Rattle.grammar.specs.Reader.{opens};
ghost use Rattle.grammar.specs.Code.{Gives};
ghost use Rattle.ir_lex.specs.Symbols.{symbols_of};
ghost use Rattle.ir_tree.specs.NameTable.{Grows};
ghost use Rattle.ir_grammar_modules.specs.Items.{run_item};
ghost use Rattle.ir_grammar_modules.specs.Modules.{begins_item};
ghost use Rattle.ir_parse.specs.Drafts.{item_shape, item_known, item_lines};
ghost use Rattle.ir_parse.specs.Spots.{HasLinesAt};

use crate::functions::{SpottedFunction, function_line_at};
use grammar::Stop;
use ir_cursor::{Meaning, meaning_at};
use ir_lex::{Keyword, Token};
use ir_read_modules::{declare_line_at, global_line_at, type_line_at};
use ir_tree::module::{Declare, GlobalItem, NamedTy};
use ir_tree::names::Names;
use std::alloc::Global;

/// An item of a module.
#[derive(Debug, Drop)]
pub enum Item {
    /// A named type.
    Named(NamedTy),
    /// A global.
    Variable(GlobalItem),
    /// A declared function.
    Declared(Declare),
    /// A defined function, and where its lines begin.
    Defined(SpottedFunction),
}

/// Tells whether an item begins at `at`.
pub fn begins_item(text: &[u8], toks: &[Token], at: usize) -> bool
    requires { at ≤ length (symbols_of text.now toks.now) }
    ensures { result ≡ opens begins_item (drop at (symbols_of text.now toks.now)) }
{
    match meaning_at(text, toks, at) {
        Some(Meaning::Local(_)) => true,
        Some(Meaning::Global(_)) => true,
        Some(Meaning::Keyword(Keyword::Declare)) => true,
        Some(Meaning::Keyword(Keyword::Define)) => true,
        _ => false,
    }
}

/// Reads the item at token `at`. Returns it and the number of the next token. At most `budget` tokens are
/// read.
pub fn item_at(
    alloc: Global,
    text: &[u8],
    toks: &[Token],
    at: usize,
    budget: usize,
    names: &mut Names,
) -> Result<(Item, usize), Stop>
    requires within { at ≤ length (symbols_of text.now toks.now) }
    requires room { length names.old + length (symbols_of text.now toks.now) < 2 ^ 32 + at }
    ensures grows { Grows names.old names.new }
    ensures count { IfOk result (λ x. length names.new + at ≤ length names.old + x.1) }
    ensures known { IfOk result (λ x. item_known (length names.new) x.0 ≡ true) }
    ensures reads { Gives (item_shape names.new) (symbols_of text.now toks.now) result
        (run_item budget (drop at (symbols_of text.now toks.now))) }
    ensures spots { IfOk result (λ x. HasLinesAt text.now (slice_range toks.now at x.1)
        (item_shape names.new x.0) (item_lines x.0)) }
{
    match meaning_at(text, toks, at) {
        Some(Meaning::Local(_)) => {
            let (item, end) = type_line_at(alloc, text, toks, at, budget, names)?;
            Ok((Item::Named(item), end))
        }
        Some(Meaning::Global(_)) => {
            let (item, end) = global_line_at(alloc, text, toks, at, budget, names)?;
            Ok((Item::Variable(item), end))
        }
        Some(Meaning::Keyword(Keyword::Declare)) => {
            let (item, end) = declare_line_at(alloc, text, toks, at, budget, names)?;
            Ok((Item::Declared(item), end))
        }
        _ => {
            let (item, end) = function_line_at(alloc, text, toks, at, budget, names)?;
            Ok((Item::Defined(item), end))
        }
    }
}
