//! How far one type or constant goes at most.

ghost use Rattle.std.specs.Prelude.{◌≡◌, ◌+◌, ◌≤◌, length};
ghost use Rattle.ir_lex.specs.Symbols.{symbol_of};
ghost use Rattle.ir_const.specs.Answers.{symbols_from};
ghost use Rattle.ir_const.specs.Reach.{is_address_word, reach};

use crate::depth::open_after;
use ir_cursor::{Meaning, meaning_of};
use ir_lex::{Keyword, Token};

/// How far one type or constant goes at most.
#[derive(Clone, Copy)]
pub struct Reach {
    /// The number of the next token.
    pub end: usize,
    /// Whether its last token is the first bracket that is the 65th open one.
    pub deep: bool,
}

/// Tells whether a token is `getelementptr` or a flag of it, after which a constant goes on though no bracket
/// is open.
fn is_address_word(text: &[u8], token: &Token) -> bool
    ensures { result ≡ is_address_word (symbol_of text.now token.now) }
{
    match meaning_of(text, token) {
        Meaning::Keyword(Keyword::GetElementPtr | Keyword::InBounds | Keyword::Nuw) => true,
        _ => false,
    }
}

/// Returns how far the type or constant that begins at `from` goes at most: up to and with the first bracket
/// that is the 65th open one, counted from there, or to where its first bracket is closed, whichever comes
/// first. So what stands after it isn't looked at.
pub fn reach_of(text: &[u8], toks: &[Token], from: usize) -> Reach
    requires { from ≤ length toks.now }
    ensures end { result.end ≡ from + (reach 0 (symbols_from text.now toks.now from)).0 }
    ensures deep { result.deep ≡ (reach 0 (symbols_from text.now toks.now from)).1 }
    ensures within { result.end ≤ length toks.now }
{
    let mut depth = 0;
    for at in from..toks.len() {
        let token = &toks[at];
        depth = open_after(text, token, depth);
        if depth == 65 {
            return Reach {
                end: at + 1,
                deep: true,
            };
        }
        if depth == 0 && !is_address_word(text, token) {
            return Reach {
                end: at + 1,
                deep: false,
            };
        }
    }
    Reach {
        end: toks.len(),
        deep: false,
    }
}
