//! Where brackets nest too deep.

ghost use Rattle.std.specs.Prelude.{◌≡◌, ◌+◌, ◌<◌, ◌≤◌, length, drop, IfSome};
ghost use Rattle.ir_lex.specs.Symbols.{symbol_of, symbols_of};
ghost use Rattle.ir_grammar_consts.specs.Depth.{open_after};
ghost use Rattle.ir_grammar_consts.specs.Counting.{deep_len};
ghost use Rattle.ir_const.specs.Answers.{symbols_from};
ghost use Rattle.ir_const.specs.Places.{cut_of};

use ir_cursor::{Meaning, meaning_of};
use ir_lex::Token;

/// Returns how many brackets are open after a token, where `depth` are before it.
pub fn open_after(text: &[u8], token: &Token, depth: usize) -> usize
    requires { depth < 65 }
    ensures { result ≡ open_after depth (symbol_of text.now token.now) }
{
    match meaning_of(text, token) {
        Meaning::Mark(b'(' | b'[' | b'{' | b'<') => depth + 1,
        Meaning::Mark(b')' | b']' | b'}' | b'>') => depth.saturating_sub(1),
        _ => depth,
    }
}

/// Returns the number of the token after the first bracket that is the 65th open one, counted from `from`.
pub fn deep_end(text: &[u8], toks: &[Token], from: usize) -> Option<usize>
    requires { from ≤ length toks.now }
    ensures deep { result ≡ cut_of from (deep_len 0 (symbols_from text.now toks.now from)) }
    ensures within { IfSome result (λ end. end ≤ length toks.now) }
    ensures after { IfSome result (λ end. from < end) }
{
    let mut depth = 0;
    for at in from..toks.len() {
        depth = open_after(text, &toks[at], depth);
        if depth == 65 {
            return Some(at + 1);
        }
    }
    None
}
