//! The tokens that tell what a terminator is.

ghost use Rattle.std.specs.Prelude.{◌≡◌, ◌+◌, ◌≤◌, length, drop, IfOk, IfSome};
ghost use Rattle.grammar.specs.Reader.{opens, run_one};
ghost use Rattle.grammar.specs.Code.{Gives, Tries};
ghost use Rattle.ir_lex.specs.Symbols.{symbols_of};
ghost use Rattle.ir_grammar_insts.specs.Operands.{begins_val};
ghost use Rattle.ir_grammar_insts.specs.Terminators.{term_head, void_word};

use grammar::Stop;
use ir_cursor::{Meaning, meaning_at};
use ir_grammar_insts::TermHead;
use ir_lex::{Keyword, Token};

/// Reads the head of the terminator at token `at`. Returns it and the number of the next token.
pub fn head_at(text: &[u8], toks: &[Token], at: usize) -> Result<(TermHead, usize), Stop>
    requires { at ≤ length (symbols_of text.now toks.now) }
    ensures reads { Gives (λ head. head) (symbols_of text.now toks.now) result
        (run_one term_head (drop at (symbols_of text.now toks.now))) }
    ensures next { IfOk result (λ x. x.1 ≡ at + 1) }
{
    match meaning_at(text, toks, at) {
        Some(Meaning::Keyword(Keyword::Br)) => Ok((TermHead::BrWord, at + 1)),
        Some(Meaning::Keyword(Keyword::Switch)) => Ok((TermHead::SwitchWord, at + 1)),
        Some(Meaning::Keyword(Keyword::Ret)) => Ok((TermHead::RetWord, at + 1)),
        Some(Meaning::Keyword(Keyword::Unreachable)) => Ok((TermHead::UnreachableWord, at + 1)),
        _ => Err(Stop::WrongSymbol(at)),
    }
}

/// Returns the number of the token after `void`, where it is at `at`.
pub fn after_void(text: &[u8], toks: &[Token], at: usize) -> Option<usize>
    requires { at ≤ length (symbols_of text.now toks.now) }
    ensures tries { Tries void_word (symbols_of text.now toks.now) result
        (drop at (symbols_of text.now toks.now)) }
    ensures next { IfSome result (λ n. n ≡ at + 1) }
{
    match meaning_at(text, toks, at) {
        Some(Meaning::Keyword(Keyword::Void)) => Some(at + 1),
        _ => None,
    }
}

/// Tells whether a value begins at `at`.
pub fn begins_value(text: &[u8], toks: &[Token], at: usize) -> bool
    requires { at ≤ length (symbols_of text.now toks.now) }
    ensures { result ≡ opens begins_val (drop at (symbols_of text.now toks.now)) }
{
    match meaning_at(text, toks, at) {
        Some(Meaning::Local(_) | Meaning::Global(_) | Meaning::Number(_) | Meaning::Text(_)) =>
            true,
        Some(Meaning::Mark(b'[' | b'{' | b'<')) => true,
        Some(Meaning::Keyword(Keyword::True | Keyword::False | Keyword::Null)) => true,
        Some(Meaning::Keyword(Keyword::Undef | Keyword::Poison)) => true,
        Some(Meaning::Keyword(Keyword::ZeroInitializer | Keyword::GetElementPtr)) => true,
        _ => false,
    }
}
