//! Names, numbers, values and their types, read from tokens.

ghost use Rattle.std.specs.Prelude.{◌≡◌, ◌+◌, ◌^◌, ◌<◌, ◌≤◌, length, drop, true, false, IfOk, IfSome, MatchOption};
ghost use Rattle.grammar.specs.Reader.{Got, heads, opens, run_one};
ghost use Rattle.grammar.specs.Code.{Gives, Steps, Tries};
ghost use Rattle.ir_lex.specs.Meaning.{name_of};
ghost use Rattle.ir_lex.specs.Symbols.{symbols_of, number_in};
ghost use Rattle.ir_tree.specs.NameTable.{Grows};
ghost use Rattle.ir_tree.specs.ShapeOf.{name_shape, val_shape, ty_val_shape};
ghost use Rattle.ir_tree.specs.Known.{name_known, val_known, ty_val_known};
ghost use Rattle.ir_grammar_insts.specs.Operands.{local_name, global_name, label, run_val, run_ty_val, run_more_ty_val, run_target};
ghost use Rattle.ir_grammar_insts.specs.Terminators.{run_more_target};

use grammar::Stop;
use ir_cursor::{Meaning, mark_at, meaning_at};
use ir_lex::{Keyword, Token};
use ir_read_consts::{const_at, name_number, type_at};
use ir_tree::module::{TyVal, Val};
use ir_tree::names::{NameId, Names};
use std::alloc::Global;

/// Reads the Local at token `at`, if one is there.
fn local_token_at(text: &[u8], toks: &[Token], at: usize) -> Option<Token>
    requires { at ≤ length (symbols_of text.now toks.now) }
    ensures { MatchOption result (opens (heads local_name)
        (drop at (symbols_of text.now toks.now)) ≡ false)
        (λ t. (opens (heads local_name) (drop at (symbols_of text.now toks.now)) ≡ true)
        × (run_one local_name (drop at (symbols_of text.now toks.now))
        ≡ Got (name_of text.now t) (drop (at + 1) (symbols_of text.now toks.now)))
        × (at + 1 ≤ length (symbols_of text.now toks.now))) }
{
    match meaning_at(text, toks, at) {
        Some(Meaning::Local(token)) => Some(token),
        _ => None,
    }
}

/// Tells whether there is a Local at `at`.
pub fn begins_local(text: &[u8], toks: &[Token], at: usize) -> bool
    requires { at ≤ length (symbols_of text.now toks.now) }
    ensures { result ≡ opens (heads local_name) (drop at (symbols_of text.now toks.now)) }
{
    match meaning_at(text, toks, at) {
        Some(Meaning::Local(_)) => true,
        _ => false,
    }
}

/// Reads the integer at token `at`. Returns it and the number of the next token.
pub fn integer_at(text: &[u8], toks: &[Token], at: usize) -> Result<(i128, usize), Stop>
    requires { at ≤ length (symbols_of text.now toks.now) }
    ensures reads { Gives (λ z. z) (symbols_of text.now toks.now) result
        (run_one number_in (drop at (symbols_of text.now toks.now))) }
    ensures next { IfOk result (λ x. x.1 ≡ at + 1) }
{
    match meaning_at(text, toks, at) {
        Some(Meaning::Number(number)) => Ok((number, at + 1)),
        _ => Err(Stop::WrongSymbol(at)),
    }
}

/// Returns the number of the token after `label`, where it is at `at`.
pub fn after_label(text: &[u8], toks: &[Token], at: usize) -> Option<usize>
    requires { at ≤ length (symbols_of text.now toks.now) }
    ensures tries { Tries label (symbols_of text.now toks.now) result
        (drop at (symbols_of text.now toks.now)) }
    ensures next { IfSome result (λ n. n ≡ at + 1) }
{
    match meaning_at(text, toks, at) {
        Some(Meaning::Keyword(Keyword::Label)) => Some(at + 1),
        _ => None,
    }
}

/// Returns the number of the token after `label`, which has to be at `at`.
fn label_at(text: &[u8], toks: &[Token], at: usize) -> Result<usize, Stop>
    requires { at ≤ length (symbols_of text.now toks.now) }
    ensures steps { Steps (symbols_of text.now toks.now) result
        (run_one label (drop at (symbols_of text.now toks.now))) }
    ensures next { IfOk result (λ n. n ≡ at + 1) }
{
    after_label(text, toks, at).ok_or(Stop::WrongSymbol(at))
}

/// Reads the name of the Local at token `at`. Returns it and the number of the next token.
pub fn local_at(
    alloc: Global,
    text: &[u8],
    toks: &[Token],
    at: usize,
    names: &mut Names,
) -> Result<(NameId, usize), Stop>
    requires within { at ≤ length (symbols_of text.now toks.now) }
    requires room { length names.old + length (symbols_of text.now toks.now) < 2 ^ 32 + at }
    ensures grows { Grows names.old names.new }
    ensures count { IfOk result (λ x. length names.new + at ≤ length names.old + x.1) }
    ensures known { IfOk result (λ x. name_known (length names.new) x.0 ≡ true) }
    ensures reads { Gives (name_shape names.new) (symbols_of text.now toks.now) result
        (run_one local_name (drop at (symbols_of text.now toks.now))) }
{
    match local_token_at(text, toks, at) {
        Some(token) => Ok((name_number(alloc, text, &token, names)?, at + 1)),
        None => Err(Stop::WrongSymbol(at)),
    }
}

/// Reads the name of the Global at token `at`. Returns it and the number of the next token.
pub fn global_at(
    alloc: Global,
    text: &[u8],
    toks: &[Token],
    at: usize,
    names: &mut Names,
) -> Result<(NameId, usize), Stop>
    requires within { at ≤ length (symbols_of text.now toks.now) }
    requires room { length names.old + length (symbols_of text.now toks.now) < 2 ^ 32 + at }
    ensures grows { Grows names.old names.new }
    ensures count { IfOk result (λ x. length names.new + at ≤ length names.old + x.1) }
    ensures known { IfOk result (λ x. name_known (length names.new) x.0 ≡ true) }
    ensures reads { Gives (name_shape names.new) (symbols_of text.now toks.now) result
        (run_one global_name (drop at (symbols_of text.now toks.now))) }
{
    match meaning_at(text, toks, at) {
        Some(Meaning::Global(token)) => Ok((name_number(alloc, text, &token, names)?, at + 1)),
        _ => Err(Stop::WrongSymbol(at)),
    }
}

/// Reads the value at token `at`. Returns it and the number of the next token. At most `budget` tokens are
/// read.
pub fn val_at(
    alloc: Global,
    text: &[u8],
    toks: &[Token],
    at: usize,
    budget: usize,
    names: &mut Names,
) -> Result<(Val, usize), Stop>
    requires within { at ≤ length (symbols_of text.now toks.now) }
    requires room { length names.old + length (symbols_of text.now toks.now) < 2 ^ 32 + at }
    ensures grows { Grows names.old names.new }
    ensures count { IfOk result (λ x. length names.new + at ≤ length names.old + x.1) }
    ensures known { IfOk result (λ x. val_known (length names.new) x.0 ≡ true) }
    ensures reads { Gives (val_shape names.new) (symbols_of text.now toks.now) result
        (run_val budget (drop at (symbols_of text.now toks.now))) }
{
    match local_token_at(text, toks, at) {
        Some(token) => {
            let id = name_number(alloc, text, &token, names)?;
            Ok((Val::Local(id), at + 1))
        }
        None => {
            let (value, end) = const_at(alloc, text, toks, at, budget, names)?;
            Ok((Val::Fixed(value), end))
        }
    }
}

/// Reads the type and the value at token `at`. Returns it and the number of the next token.
pub fn ty_val_at(
    alloc: Global,
    text: &[u8],
    toks: &[Token],
    at: usize,
    budget: usize,
    names: &mut Names,
) -> Result<(TyVal, usize), Stop>
    requires within { at ≤ length (symbols_of text.now toks.now) }
    requires room { length names.old + length (symbols_of text.now toks.now) < 2 ^ 32 + at }
    ensures grows { Grows names.old names.new }
    ensures count { IfOk result (λ x. length names.new + at ≤ length names.old + x.1) }
    ensures known { IfOk result (λ x. ty_val_known (length names.new) x.0 ≡ true) }
    ensures reads { Gives (ty_val_shape names.new) (symbols_of text.now toks.now) result
        (run_ty_val budget (drop at (symbols_of text.now toks.now))) }
{
    let (ty, next) = type_at(alloc, text, toks, at, budget, names)?;
    let (val, end) = val_at(alloc, text, toks, next, budget, names)?;
    Ok((TyVal { ty, val }, end))
}

/// Reads the type and the value after the comma at token `at`. Returns it and the number of the next token.
pub fn more_ty_val_at(
    alloc: Global,
    text: &[u8],
    toks: &[Token],
    at: usize,
    budget: usize,
    names: &mut Names,
) -> Result<(TyVal, usize), Stop>
    requires within { at ≤ length (symbols_of text.now toks.now) }
    requires room { length names.old + length (symbols_of text.now toks.now) < 2 ^ 32 + at }
    ensures grows { Grows names.old names.new }
    ensures count { IfOk result (λ x. length names.new + at ≤ length names.old + x.1) }
    ensures known { IfOk result (λ x. ty_val_known (length names.new) x.0 ≡ true) }
    ensures reads { Gives (ty_val_shape names.new) (symbols_of text.now toks.now) result
        (run_more_ty_val budget (drop at (symbols_of text.now toks.now))) }
{
    let after_comma = mark_at(text, toks, at, b',')?;
    ty_val_at(alloc, text, toks, after_comma, budget, names)
}

/// Reads the name of the block after `label` at token `at`. Returns it and the number of the next token.
pub fn target_at(
    alloc: Global,
    text: &[u8],
    toks: &[Token],
    at: usize,
    names: &mut Names,
) -> Result<(NameId, usize), Stop>
    requires within { at ≤ length (symbols_of text.now toks.now) }
    requires room { length names.old + length (symbols_of text.now toks.now) < 2 ^ 32 + at }
    ensures grows { Grows names.old names.new }
    ensures count { IfOk result (λ x. length names.new + at ≤ length names.old + x.1) }
    ensures known { IfOk result (λ x. name_known (length names.new) x.0 ≡ true) }
    ensures reads { Gives (name_shape names.new) (symbols_of text.now toks.now) result
        (run_target (drop at (symbols_of text.now toks.now))) }
{
    let next = label_at(text, toks, at)?;
    local_at(alloc, text, toks, next, names)
}

/// Reads the name of the block after a comma and `label` at token `at`. Returns it and the number of the next
/// token.
pub fn more_target_at(
    alloc: Global,
    text: &[u8],
    toks: &[Token],
    at: usize,
    names: &mut Names,
) -> Result<(NameId, usize), Stop>
    requires within { at ≤ length (symbols_of text.now toks.now) }
    requires room { length names.old + length (symbols_of text.now toks.now) < 2 ^ 32 + at }
    ensures grows { Grows names.old names.new }
    ensures count { IfOk result (λ x. length names.new + at ≤ length names.old + x.1) }
    ensures known { IfOk result (λ x. name_known (length names.new) x.0 ≡ true) }
    ensures reads { Gives (name_shape names.new) (symbols_of text.now toks.now) result
        (run_more_target (drop at (symbols_of text.now toks.now))) }
{
    let next = mark_at(text, toks, at, b',')?;
    target_at(alloc, text, toks, next, names)
}
