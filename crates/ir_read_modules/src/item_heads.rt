//! The tokens that tell what an item is.

ghost use Rattle.std.specs.Prelude.{◌≡◌, ◌+◌, ◌≤◌, length, drop, IfOk};
ghost use Rattle.grammar.specs.Reader.{run_one};
ghost use Rattle.grammar.specs.Code.{Gives, Steps};
ghost use Rattle.ir_lex.specs.Symbols.{symbols_of};
ghost use Rattle.ir_grammar_modules.specs.Items.{constancy, declare_word, type_word};

use grammar::Stop;
use ir_cursor::{Meaning, meaning_at};
use ir_lex::{Keyword, Token};

/// Returns the number of the token after `type`, which has to be at `at`.
pub fn after_type_word(text: &[u8], toks: &[Token], at: usize) -> Result<usize, Stop>
    requires { at ≤ length (symbols_of text.now toks.now) }
    ensures steps { Steps (symbols_of text.now toks.now) result
        (run_one type_word (drop at (symbols_of text.now toks.now))) }
    ensures next { IfOk result (λ n. n ≡ at + 1) }
{
    match meaning_at(text, toks, at) {
        Some(Meaning::Keyword(Keyword::Type)) => Ok(at + 1),
        _ => Err(Stop::WrongSymbol(at)),
    }
}

/// Tells whether a global is constant, by the word at `at`, and the number of the next token.
pub fn constancy_at(text: &[u8], toks: &[Token], at: usize) -> Result<(bool, usize), Stop>
    requires { at ≤ length (symbols_of text.now toks.now) }
    ensures reads { Gives (λ constant. constant) (symbols_of text.now toks.now) result
        (run_one constancy (drop at (symbols_of text.now toks.now))) }
    ensures next { IfOk result (λ x. x.1 ≡ at + 1) }
{
    match meaning_at(text, toks, at) {
        Some(Meaning::Keyword(Keyword::Global)) => Ok((false, at + 1)),
        Some(Meaning::Keyword(Keyword::Constant)) => Ok((true, at + 1)),
        _ => Err(Stop::WrongSymbol(at)),
    }
}

/// Returns the number of the token after `declare`, which has to be at `at`.
pub fn after_declare(text: &[u8], toks: &[Token], at: usize) -> Result<usize, Stop>
    requires { at ≤ length (symbols_of text.now toks.now) }
    ensures steps { Steps (symbols_of text.now toks.now) result
        (run_one declare_word (drop at (symbols_of text.now toks.now))) }
    ensures next { IfOk result (λ n. n ≡ at + 1) }
{
    match meaning_at(text, toks, at) {
        Some(Meaning::Keyword(Keyword::Declare)) => Ok(at + 1),
        _ => Err(Stop::WrongSymbol(at)),
    }
}
