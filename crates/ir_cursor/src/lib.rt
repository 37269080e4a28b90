//! Tokens as the symbols of a grammar, one at a time.
#![tactic(auto)]

ghost use Rattle.std.specs.Prelude.{◌≡◌, ◌+◌, ◌≤◌, [], ◌∷◌, length, drop, MatchOption, IfOk, IfSome};
ghost use Rattle.grammar.specs.Reader.{run_one};
ghost use Rattle.grammar.specs.Code.{Steps, Tries};
ghost use Rattle.ir_lex.specs.Symbols.{symbol_of, symbols_of};
ghost use Rattle.ir_cursor.specs.Marks.{punct};
ghost use Rattle.ir_cursor.specs.Meanings.{symbol_from};

use grammar::Stop;
use ir_lex::{Kind, Token, mark_of, number_of, word_of};

/// What a token means to a grammar. A name and a string stand as the token that spells them.
#[derive(Clone, Copy, Debug, PartialEq, Eq)]
pub enum Meaning {
    /// A word, by what it stands for.
    Keyword(ir_lex::Keyword),
    /// A local name.
    Local(Token),
    /// A global name.
    Global(Token),
    /// A label.
    Label(Token),
    /// An integer that fits 128 bits with a sign.
    Number(i128),
    /// A string of bytes that is a constant.
    Text(Token),
    /// A byte of punctuation.
    Mark(u8),
    /// What no grammar takes.
    Other,
}

/// Returns what a token means.
#[tactic(auto, using(crate::proofs::Cursor::number_found, crate::proofs::Cursor::no_number, crate::proofs::Cursor::mark_found, crate::proofs::Cursor::no_mark))]
pub fn meaning_of(text: &[u8], token: &Token) -> Meaning
    ensures { symbol_from text.now result ≡ symbol_of text.now token.now }
{
    match token.kind {
        Kind::Word => Meaning::Keyword(word_of(text, token)),
        Kind::Local => Meaning::Local(*token),
        Kind::Global => Meaning::Global(*token),
        Kind::Label => Meaning::Label(*token),
        Kind::CStr => Meaning::Text(*token),
        Kind::Int => match number_of(text, token) {
            Some(number) => Meaning::Number(number),
            None => Meaning::Other,
        },
        Kind::Punct => match mark_of(text, token) {
            Some(mark) => Meaning::Mark(mark),
            None => Meaning::Other,
        },
        _ => Meaning::Other,
    }
}

/// Returns what the token of that number means; `None` after the last one.
#[tactic(auto, using(crate::proofs::Cursor::drop_symbols, crate::proofs::Cursor::drop_end, crate::proofs::Cursor::within_symbols))]
pub fn meaning_at(text: &[u8], toks: &[Token], at: usize) -> Option<Meaning>
    requires { at ≤ length (symbols_of text.now toks.now) }
    ensures { MatchOption result (drop at (symbols_of text.now toks.now) ≡ [])
        (λ m. (drop at (symbols_of text.now toks.now)
        ≡ symbol_from text.now m ∷ drop (at + 1) (symbols_of text.now toks.now))
        × (at + 1 ≤ length (symbols_of text.now toks.now))) }
{
    match toks.get(at) {
        Some(token) => Some(meaning_of(text, token)),
        None => None,
    }
}

/// Returns the number of the token after a mark, which has to be at `at`.
pub fn mark_at(text: &[u8], toks: &[Token], at: usize, mark: u8) -> Result<usize, Stop>
    requires { at ≤ length (symbols_of text.now toks.now) }
    ensures steps { Steps (symbols_of text.now toks.now) result
        (run_one (punct mark) (drop at (symbols_of text.now toks.now))) }
    ensures next { IfOk result (λ n. n ≡ at + 1) }
{
    match meaning_at(text, toks, at) {
        Some(Meaning::Mark(byte)) if mark == byte => Ok(at + 1),
        _ => Err(Stop::WrongSymbol(at)),
    }
}

/// Returns the number of the token after a mark, where it is at `at`.
pub fn after_mark(text: &[u8], toks: &[Token], at: usize, mark: u8) -> Option<usize>
    requires { at ≤ length (symbols_of text.now toks.now) }
    ensures tries { Tries (punct mark) (symbols_of text.now toks.now) result
        (drop at (symbols_of text.now toks.now)) }
    ensures next { IfSome result (λ n. n ≡ at + 1) }
{
    match meaning_at(text, toks, at) {
        Some(Meaning::Mark(byte)) if mark == byte => Some(at + 1),
        _ => None,
    }
}
