//! What the tokens ahead say of a line, without reading it.

ghost use Rattle.std.specs.Prelude.{◌≡◌, ◌≤◌, length, drop};
ghost use Rattle.grammar.specs.Reader.{heads, opens};
ghost use Rattle.ir_lex.specs.Symbols.{symbols_of};
ghost use Rattle.ir_grammar_insts.specs.Instructions.{phi_word};
ghost use Rattle.ir_grammar_modules.specs.Blocks.{begins_inst};
ghost use Rattle.ir_read_modules.specs.Lines.{is_phi_line};
ghost use Rattle.ir_read_modules.specs.Spots.{start_of};

use ir_cursor::{Meaning, after_mark, meaning_at};
use ir_lex::{Keyword, Token};
use ir_read_insts::is_inst_word;

/// Returns the byte offset of the token numbered `at`, and 0 after the last one.
pub fn start_at(toks: &[Token], at: usize) -> usize
    ensures { result ≡ start_of (drop at toks.now) }
{
    match toks.get(at) {
        Some(token) => token.start,
        None => 0,
    }
}

/// Tells whether there is the word `phi` at `at`.
fn is_phi(text: &[u8], toks: &[Token], at: usize) -> bool
    requires { at ≤ length (symbols_of text.now toks.now) }
    ensures { result ≡ opens (heads phi_word) (drop at (symbols_of text.now toks.now)) }
{
    match meaning_at(text, toks, at) {
        Some(Meaning::Keyword(Keyword::Phi)) => true,
        _ => false,
    }
}

/// Tells whether the line at `at` is a phi.
#[tactic(auto, using(crate::proofs::MarksAhead::not_one), unfolding(crate::specs::Lines::is_phi_line))]
pub fn begins_phi(text: &[u8], toks: &[Token], at: usize) -> bool
    requires { at ≤ length (symbols_of text.now toks.now) }
    ensures { result ≡ is_phi_line (drop at (symbols_of text.now toks.now)) }
{
    match meaning_at(text, toks, at) {
        Some(Meaning::Local(_)) => match after_mark(text, toks, at + 1, b'=') {
            Some(word) => is_phi(text, toks, word),
            None => false,
        },
        Some(Meaning::Keyword(Keyword::Phi)) => true,
        _ => false,
    }
}

/// Tells whether an instruction begins at `at`, with its result or with its word.
pub fn begins_inst(text: &[u8], toks: &[Token], at: usize) -> bool
    requires { at ≤ length (symbols_of text.now toks.now) }
    ensures { result ≡ opens begins_inst (drop at (symbols_of text.now toks.now)) }
{
    match meaning_at(text, toks, at) {
        Some(Meaning::Local(_)) => true,
        Some(Meaning::Keyword(word)) => is_inst_word(word),
        _ => false,
    }
}
