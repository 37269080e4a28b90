//! The tokens that tell what an instruction is, and its flags.

ghost use Rattle.std.specs.Prelude.{◌≡◌, ◌+◌, ◌≤◌, true, false, length, drop, IfOk, MatchOption};
ghost use Rattle.grammar.specs.Reader.{Got, heads, opens, run_one};
ghost use Rattle.grammar.specs.Code.{Gives, Steps};
ghost use Rattle.ir_lex.specs.Symbols.{KeywordSymbol, symbols_of};
ghost use Rattle.ir_grammar_insts.specs.Operands.{asked, into};
ghost use Rattle.ir_grammar_insts.specs.Arithmetic.{wrap_flag, run_wrap_flags, run_exact_flag};
ghost use Rattle.ir_grammar_insts.specs.Instructions.{phi_word, inst_head};
ghost use Rattle.ir_read_insts.specs.InstHeads.{with_flag};

use grammar::Stop;
use ir_cursor::{Meaning, meaning_at};
use ir_grammar_insts::InstHead;
use ir_lex::{Keyword, Token};
use ir_tree::module::{Bin, Conv, Flags, Pred};

/// No flag.
pub const NO_FLAGS: Flags = Flags {
    nuw: false,
    nsw: false,
    exact: false,
};

/// Returns the head that a word is.
fn head_of(word: Keyword) -> Option<InstHead>
    ensures { result ≡ inst_head (KeywordSymbol word) }
{
    Some(match word {
        Keyword::Add => InstHead::WrappingWord(Bin::Add),
        Keyword::Sub => InstHead::WrappingWord(Bin::Sub),
        Keyword::Mul => InstHead::WrappingWord(Bin::Mul),
        Keyword::Shl => InstHead::WrappingWord(Bin::Shl),
        Keyword::Udiv => InstHead::ExactWord(Bin::Udiv),
        Keyword::Sdiv => InstHead::ExactWord(Bin::Sdiv),
        Keyword::Lshr => InstHead::ExactWord(Bin::Lshr),
        Keyword::Ashr => InstHead::ExactWord(Bin::Ashr),
        Keyword::Urem => InstHead::PlainWord(Bin::Urem),
        Keyword::Srem => InstHead::PlainWord(Bin::Srem),
        Keyword::And => InstHead::PlainWord(Bin::And),
        Keyword::Or => InstHead::PlainWord(Bin::Or),
        Keyword::Xor => InstHead::PlainWord(Bin::Xor),
        Keyword::Icmp => InstHead::IcmpWord,
        Keyword::Select => InstHead::SelectWord,
        Keyword::Zext => InstHead::ExtendWord(Conv::Zext),
        Keyword::Sext => InstHead::ExtendWord(Conv::Sext),
        Keyword::Trunc => InstHead::TruncWord,
        Keyword::Freeze => InstHead::FreezeWord,
        Keyword::Alloca => InstHead::AllocaWord,
        Keyword::Load => InstHead::LoadWord,
        Keyword::Store => InstHead::StoreWord,
        Keyword::GetElementPtr => InstHead::ElementWord,
        Keyword::Call => InstHead::CallWord,
        _ => return None,
    })
}

/// Tells whether an instruction begins with a word, after its result if it has one; `phi` begins none.
pub fn is_inst_word(word: Keyword) -> bool
    ensures { result ≡ heads inst_head (KeywordSymbol word) }
{
    head_of(word).is_some()
}

/// Reads the head of the instruction at token `at`. Returns it and the number of the next token.
pub fn head_at(text: &[u8], toks: &[Token], at: usize) -> Result<(InstHead, usize), Stop>
    requires { at ≤ length (symbols_of text.now toks.now) }
    ensures reads { Gives (λ head. head) (symbols_of text.now toks.now) result
        (run_one inst_head (drop at (symbols_of text.now toks.now))) }
    ensures next { IfOk result (λ x. x.1 ≡ at + 1) }
{
    let Some(Meaning::Keyword(word)) = meaning_at(text, toks, at) else {
        return Err(Stop::WrongSymbol(at));
    };
    match head_of(word) {
        Some(head) => Ok((head, at + 1)),
        None => Err(Stop::WrongSymbol(at)),
    }
}

/// Returns the number of the token after `phi`, which has to be at `at`.
pub fn phi_word_at(text: &[u8], toks: &[Token], at: usize) -> Result<usize, Stop>
    requires { at ≤ length (symbols_of text.now toks.now) }
    ensures steps { Steps (symbols_of text.now toks.now) result
        (run_one phi_word (drop at (symbols_of text.now toks.now))) }
    ensures next { IfOk result (λ n. n ≡ at + 1) }
{
    match meaning_at(text, toks, at) {
        Some(Meaning::Keyword(Keyword::Phi)) => Ok(at + 1),
        _ => Err(Stop::WrongSymbol(at)),
    }
}

/// Returns the number of the token after `to`, which has to be at `at`.
pub fn into_at(text: &[u8], toks: &[Token], at: usize) -> Result<usize, Stop>
    requires { at ≤ length (symbols_of text.now toks.now) }
    ensures steps { Steps (symbols_of text.now toks.now) result
        (run_one into (drop at (symbols_of text.now toks.now))) }
    ensures next { IfOk result (λ n. n ≡ at + 1) }
{
    match meaning_at(text, toks, at) {
        Some(Meaning::Keyword(Keyword::To)) => Ok(at + 1),
        _ => Err(Stop::WrongSymbol(at)),
    }
}

/// Returns what `icmp` asks with a word.
fn predicate_of(word: Keyword) -> Option<Pred>
    ensures { result ≡ asked (KeywordSymbol word) }
{
    Some(match word {
        Keyword::Eq => Pred::Eq,
        Keyword::Ne => Pred::Ne,
        Keyword::Ugt => Pred::Ugt,
        Keyword::Uge => Pred::Uge,
        Keyword::Ult => Pred::Ult,
        Keyword::Ule => Pred::Ule,
        Keyword::Sgt => Pred::Sgt,
        Keyword::Sge => Pred::Sge,
        Keyword::Slt => Pred::Slt,
        Keyword::Sle => Pred::Sle,
        _ => return None,
    })
}

/// Reads what `icmp` asks, at token `at`. Returns it and the number of the next token.
pub fn predicate_at(text: &[u8], toks: &[Token], at: usize) -> Result<(Pred, usize), Stop>
    requires { at ≤ length (symbols_of text.now toks.now) }
    ensures reads { Gives (λ p. p) (symbols_of text.now toks.now) result
        (run_one asked (drop at (symbols_of text.now toks.now))) }
    ensures next { IfOk result (λ x. x.1 ≡ at + 1) }
{
    let Some(Meaning::Keyword(word)) = meaning_at(text, toks, at) else {
        return Err(Stop::WrongSymbol(at));
    };
    match predicate_of(word) {
        Some(predicate) => Ok((predicate, at + 1)),
        None => Err(Stop::WrongSymbol(at)),
    }
}

/// Reads the flag of an operation at token `at`: whether it is `nuw`, and not `nsw`.
fn wrap_flag_at(text: &[u8], toks: &[Token], at: usize) -> Option<bool>
    requires { at ≤ length (symbols_of text.now toks.now) }
    ensures { MatchOption result (opens (heads wrap_flag) (drop at (symbols_of text.now toks.now)) ≡
        false)
        (λ b. (opens (heads wrap_flag) (drop at (symbols_of text.now toks.now)) ≡ true)
        × (run_one wrap_flag (drop at (symbols_of text.now toks.now))
        ≡ Got b (drop (at + 1) (symbols_of text.now toks.now)))
        × (at + 1 ≤ length (symbols_of text.now toks.now))) }
{
    match meaning_at(text, toks, at) {
        Some(Meaning::Keyword(Keyword::Nuw)) => Some(true),
        Some(Meaning::Keyword(Keyword::Nsw)) => Some(false),
        _ => None,
    }
}

/// Returns the flags, and `nuw` or else `nsw`.
fn flags_with(flags: Flags, nuw: bool) -> Flags
    ensures { result ≡ with_flag flags nuw }
{
    Flags {
        nuw: flags.nuw || nuw,
        nsw: flags.nsw || !nuw,
        exact: flags.exact,
    }
}

/// Reads the flags `nuw` and `nsw` starting at token `at`. Returns it and the number of the next token. At
/// most `budget` flags are read.
pub fn wrap_flags_at(text: &[u8], toks: &[Token], at: usize, budget: usize) -> (Flags, usize)
    requires { at ≤ length (symbols_of text.now toks.now) }
    ensures reads { run_wrap_flags budget (drop at (symbols_of text.now toks.now))
        ≡ Got result.0 (drop result.1 (symbols_of text.now toks.now)) }
    ensures within { result.1 ≤ length (symbols_of text.now toks.now) }
    ensures next { at ≤ result.1 }
{
    let mut flags = NO_FLAGS;
    let mut next = at;
    for _ in 0..budget {
        let Some(nuw) = wrap_flag_at(text, toks, next) else {
            return (flags, next);
        };
        flags = flags_with(flags, nuw);
        next += 1;
    }
    (flags, next)
}

/// Reads the flag `exact`, if it is at token `at`. Returns it and the number of the next token.
pub fn exact_at(text: &[u8], toks: &[Token], at: usize) -> (Flags, usize)
    requires { at ≤ length (symbols_of text.now toks.now) }
    ensures reads { run_exact_flag (drop at (symbols_of text.now toks.now))
        ≡ Got result.0 (drop result.1 (symbols_of text.now toks.now)) }
    ensures within { result.1 ≤ length (symbols_of text.now toks.now) }
    ensures next { at ≤ result.1 }
{
    match meaning_at(text, toks, at) {
        Some(Meaning::Keyword(Keyword::Exact)) => (
            Flags {
                exact: true,
                ..NO_FLAGS
            },
            at + 1,
        ),
        _ => (NO_FLAGS, at),
    }
}
