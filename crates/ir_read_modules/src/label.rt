//! The labels of blocks.

ghost use Rattle.std.specs.Prelude.{◌≡◌, ◌+◌, ◌^◌, ◌<◌, ◌≤◌, length, drop, true, option_map, IfOk};
ghost use Rattle.grammar.specs.Reader.{heads, opens, run_one, run_maybe};
ghost use Rattle.grammar.specs.Code.{Gives};
ghost use Rattle.ir_lex.specs.Symbols.{symbols_of};
ghost use Rattle.ir_tree.specs.NameTable.{Grows};
ghost use Rattle.ir_tree.specs.ShapeOf.{name_shape};
ghost use Rattle.ir_tree.specs.Known.{name_known, result_known};
ghost use Rattle.ir_grammar_modules.specs.Blocks.{label_name};

use grammar::Stop;
use ir_cursor::{Meaning, meaning_at};
use ir_lex::Token;
use ir_read_consts::name_number;
use ir_tree::names::{NameId, Names};
use std::alloc::Global;

/// Tells whether there is a Label at `at`.
fn is_label(text: &[u8], toks: &[Token], at: usize) -> bool
    requires { at ≤ length (symbols_of text.now toks.now) }
    ensures { result ≡ opens (heads label_name) (drop at (symbols_of text.now toks.now)) }
{
    match meaning_at(text, toks, at) {
        Some(Meaning::Label(_)) => true,
        _ => false,
    }
}

/// Reads the name of the Label at token `at`. Returns it and the number of the next token.
pub fn label_at(
    alloc: Global,
    text: &[u8],
    toks: &[Token],
    at: usize,
    names: &mut Names,
) -> Result<(NameId, usize), Stop>
    requires within { at ≤ length (symbols_of text.now toks.now) }
    requires room { length names.old + length (symbols_of text.now toks.now) < 2 ^ 32 + at }
    ensures grows { Grows names.old names.new }
    ensures count { IfOk result (λ x. length names.new + at ≤ length names.old + x.1) }
    ensures known { IfOk result (λ x. name_known (length names.new) x.0 ≡ true) }
    ensures reads { Gives (name_shape names.new) (symbols_of text.now toks.now) result
        (run_one label_name (drop at (symbols_of text.now toks.now))) }
{
    match meaning_at(text, toks, at) {
        Some(Meaning::Label(token)) => {
            let name = name_number(alloc, text, &token, names)?;
            Ok((name, at + 1))
        }
        _ => Err(Stop::WrongSymbol(at)),
    }
}

/// Reads the name of the Label at token `at`, if there is one. Returns it and the number of the next token.
pub fn maybe_label_at(
    alloc: Global,
    text: &[u8],
    toks: &[Token],
    at: usize,
    names: &mut Names,
) -> Result<(Option<NameId>, usize), Stop>
    requires within { at ≤ length (symbols_of text.now toks.now) }
    requires room { length names.old + length (symbols_of text.now toks.now) < 2 ^ 32 + at }
    ensures grows { Grows names.old names.new }
    ensures count { IfOk result (λ x. length names.new + at ≤ length names.old + x.1) }
    ensures known { IfOk result (λ x. result_known (length names.new) x.0 ≡ true) }
    ensures reads { Gives (λ o. option_map (name_shape names.new) o)
        (symbols_of text.now toks.now) result
        (run_maybe (heads label_name) (run_one label_name) (drop at (symbols_of text.now toks.now))) }
{
    if is_label(text, toks, at) {
        let (name, next) = label_at(alloc, text, toks, at, names)?;
        Ok((Some(name), next))
    } else {
        Ok((None, at))
    }
}
