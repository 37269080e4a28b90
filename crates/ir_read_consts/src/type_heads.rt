//! The tokens that tell what a type is.

ghost use Rattle.std.specs.Prelude.{◌≡◌, ◌+◌, ◌^◌, ◌<◌, ◌≤◌, length, drop, IfOk};
ghost use Rattle.grammar.specs.Reader.{run_one};
ghost use Rattle.grammar.specs.Code.{Gives, Steps};
ghost use Rattle.ir_lex.specs.Meaning.{name_of};
ghost use Rattle.ir_lex.specs.Symbols.{symbols_of};
ghost use Rattle.ir_tree.specs.NameTable.{text_of, Grows, IsKnown};
ghost use Rattle.ir_grammar_consts.specs.Types.{ty_head, count, times};
ghost use Rattle.ir_read_consts.specs.TypeHeads.{head_from};

use grammar::Stop;
use ir_cursor::{Meaning, meaning_at};
use ir_lex::{Keyword, Token, name_of};
use ir_tree::names::{NameId, Names};
use std::alloc::{AllocError, Global};

/// What the first token of a type says of it.
#[derive(Clone, Copy, Debug)]
pub enum Head {
    /// An integer type of this width.
    Integer(u8),
    /// `ptr`.
    Pointer,
    /// `void`.
    Void,
    /// The name of a type.
    Named(Token),
    /// `[`.
    Array,
    /// `{`.
    Fields,
    /// `<`.
    Packed,
}

/// Reads the head of the type at token `at`. Returns it and the number of the next token.
pub fn head_at(text: &[u8], toks: &[Token], at: usize) -> Result<(Head, usize), Stop>
    requires { at ≤ length (symbols_of text.now toks.now) }
    ensures reads { Gives (head_from text.now) (symbols_of text.now toks.now) result
        (run_one ty_head (drop at (symbols_of text.now toks.now))) }
    ensures next { IfOk result (λ x. x.1 ≡ at + 1) }
{
    match meaning_at(text, toks, at) {
        Some(Meaning::Keyword(Keyword::Integer(bits))) if bits > 0 && bits < 65 => {
            Ok((Head::Integer(bits), at + 1))
        }
        Some(Meaning::Keyword(Keyword::Ptr)) => Ok((Head::Pointer, at + 1)),
        Some(Meaning::Keyword(Keyword::Void)) => Ok((Head::Void, at + 1)),
        Some(Meaning::Local(token)) => Ok((Head::Named(token), at + 1)),
        Some(Meaning::Mark(b'[')) => Ok((Head::Array, at + 1)),
        Some(Meaning::Mark(b'{')) => Ok((Head::Fields, at + 1)),
        Some(Meaning::Mark(b'<')) => Ok((Head::Packed, at + 1)),
        _ => Err(Stop::WrongSymbol(at)),
    }
}

/// Reads the count of elements at token `at`. Returns it and the number of the next token.
pub fn count_at(text: &[u8], toks: &[Token], at: usize) -> Result<(u64, usize), Stop>
    requires { at ≤ length (symbols_of text.now toks.now) }
    ensures reads { Gives (λ n. n) (symbols_of text.now toks.now) result
        (run_one count (drop at (symbols_of text.now toks.now))) }
    ensures next { IfOk result (λ x. x.1 ≡ at + 1) }
{
    match meaning_at(text, toks, at) {
        Some(Meaning::Number(number)) if number >= 0 && number < 1 << 64 => {
            Ok((number as u64, at + 1))
        }
        _ => Err(Stop::WrongSymbol(at)),
    }
}

/// Returns the number of the token after an `x`, which has to be at `at`.
pub fn times_at(text: &[u8], toks: &[Token], at: usize) -> Result<usize, Stop>
    requires { at ≤ length (symbols_of text.now toks.now) }
    ensures steps { Steps (symbols_of text.now toks.now) result
        (run_one times (drop at (symbols_of text.now toks.now))) }
    ensures next { IfOk result (λ n. n ≡ at + 1) }
{
    match meaning_at(text, toks, at) {
        Some(Meaning::Keyword(Keyword::X)) => Ok(at + 1),
        _ => Err(Stop::WrongSymbol(at)),
    }
}

/// Returns the number of a token's name.
#[tactic(auto, using(crate::proofs::Counts::length_with_name))]
pub fn name_number(
    alloc: Global,
    text: &[u8],
    token: &Token,
    names: &mut Names,
) -> Result<NameId, AllocError>
    requires { length names.old < 2 ^ 32 }
    ensures text { IfOk result (λ id. text_of names.new id.0 ≡ name_of text.now token.now) }
    ensures known { IfOk result (λ id. IsKnown names.new id.0) }
    ensures grows { Grows names.old names.new }
    ensures count { length names.new ≤ length names.old + 1 }
{
    let name = name_of(alloc, text, token)?;
    names.number(&name)
}
