//! The tokens that tell what a constant is.

ghost use Rattle.std.specs.Prelude.{◌≡◌, ◌+◌, ◌≤◌, true, false, length, drop, IfOk, MatchOption};
ghost use Rattle.grammar.specs.Reader.{Got, heads, opens, run_one};
ghost use Rattle.grammar.specs.Code.{Gives};
ghost use Rattle.ir_lex.specs.Meaning.{text_spelling, unescaped};
ghost use Rattle.ir_lex.specs.Symbols.{symbols_of};
ghost use Rattle.ir_grammar_consts.specs.Constants.{const_head, address_flag, run_address_flags};
ghost use Rattle.ir_read_consts.specs.ConstHeads.{head_from};

use grammar::Stop;
use ir_cursor::{Meaning, meaning_at};
use ir_lex::{Keyword, Token, text_of};
use std::alloc::{AllocError, Global};

/// What the first token of a constant says of it.
#[derive(Clone, Copy, Debug)]
pub enum Head {
    /// An integer.
    Number(i128),
    /// `true` or `false`.
    Boolean(bool),
    /// `null`.
    Null,
    /// `undef`.
    Undef,
    /// `poison`.
    Poison,
    /// `zeroinitializer`.
    Zero,
    /// A string.
    Text(Token),
    /// The name of a global or a function.
    Named(Token),
    /// `[`.
    Elements,
    /// `{`.
    Fields,
    /// `<`.
    Packed,
    /// `getelementptr`.
    Address,
}

/// Reads the head of the constant at token `at`. Returns it and the number of the next token.
pub fn head_at(text: &[u8], toks: &[Token], at: usize) -> Result<(Head, usize), Stop>
    requires { at ≤ length (symbols_of text.now toks.now) }
    ensures reads { Gives (head_from text.now) (symbols_of text.now toks.now) result
        (run_one const_head (drop at (symbols_of text.now toks.now))) }
    ensures next { IfOk result (λ x. x.1 ≡ at + 1) }
{
    match meaning_at(text, toks, at) {
        Some(Meaning::Number(number)) => Ok((Head::Number(number), at + 1)),
        Some(Meaning::Keyword(Keyword::True)) => Ok((Head::Boolean(true), at + 1)),
        Some(Meaning::Keyword(Keyword::False)) => Ok((Head::Boolean(false), at + 1)),
        Some(Meaning::Keyword(Keyword::Null)) => Ok((Head::Null, at + 1)),
        Some(Meaning::Keyword(Keyword::Undef)) => Ok((Head::Undef, at + 1)),
        Some(Meaning::Keyword(Keyword::Poison)) => Ok((Head::Poison, at + 1)),
        Some(Meaning::Keyword(Keyword::ZeroInitializer)) => Ok((Head::Zero, at + 1)),
        Some(Meaning::Keyword(Keyword::GetElementPtr)) => Ok((Head::Address, at + 1)),
        Some(Meaning::Text(token)) => Ok((Head::Text(token), at + 1)),
        Some(Meaning::Global(token)) => Ok((Head::Named(token), at + 1)),
        Some(Meaning::Mark(b'[')) => Ok((Head::Elements, at + 1)),
        Some(Meaning::Mark(b'{')) => Ok((Head::Fields, at + 1)),
        Some(Meaning::Mark(b'<')) => Ok((Head::Packed, at + 1)),
        _ => Err(Stop::WrongSymbol(at)),
    }
}

/// Reads the flag of an address at token `at`: whether it is `inbounds`.
fn flag_at(text: &[u8], toks: &[Token], at: usize) -> Option<bool>
    requires { at ≤ length (symbols_of text.now toks.now) }
    ensures { MatchOption result (opens (heads address_flag)
        (drop at (symbols_of text.now toks.now)) ≡ false)
        (λ b. (opens (heads address_flag) (drop at (symbols_of text.now toks.now)) ≡ true)
        × (run_one address_flag (drop at (symbols_of text.now toks.now))
        ≡ Got b (drop (at + 1) (symbols_of text.now toks.now)))
        × (at + 1 ≤ length (symbols_of text.now toks.now))) }
{
    match meaning_at(text, toks, at) {
        Some(Meaning::Keyword(Keyword::InBounds)) => Some(true),
        Some(Meaning::Keyword(Keyword::Nuw)) => Some(false),
        _ => None,
    }
}

/// Tells whether one of the flags starting at token `at` is `inbounds`, and the number of the next token. At
/// most `budget` flags are read.
pub fn flags_at(text: &[u8], toks: &[Token], at: usize, budget: usize) -> (bool, usize)
    requires { at ≤ length (symbols_of text.now toks.now) }
    ensures reads { run_address_flags budget (drop at (symbols_of text.now toks.now))
        ≡ Got result.0 (drop result.1 (symbols_of text.now toks.now)) }
    ensures within { result.1 ≤ length (symbols_of text.now toks.now) }
    ensures next { at ≤ result.1 }
{
    let mut inbounds = false;
    let mut next = at;
    for _ in 0..budget {
        let Some(flag) = flag_at(text, toks, next) else {
            return (inbounds, next);
        };
        inbounds = inbounds || flag;
        next += 1;
    }
    (inbounds, next)
}

/// Returns the bytes of a string.
pub fn bytes_of(alloc: Global, text: &[u8], token: &Token) -> Result<Vec<u8>, AllocError>
    ensures { IfOk result (λ bytes. bytes.items ≡ unescaped (text_spelling text.now token.now)) }
{
    text_of(alloc, text, token)
}
