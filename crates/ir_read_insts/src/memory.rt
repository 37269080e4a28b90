//! Instructions that reach memory or call, from their first word on.

ghost use Rattle.std.specs.Prelude.{◌≡◌, ◌+◌, ◌^◌, ◌<◌, ◌≤◌, length, drop, map, true, IfOk};
ghost use Rattle.std.specs.List.{list_all};
ghost use Rattle.grammar.specs.Reader.{heads, run_map, run_maybe, run_many, run_listed};
ghost use Rattle.grammar.specs.Code.{Gives};
ghost use Rattle.ir_lex.specs.Symbols.{symbols_of};
ghost use Rattle.ir_cursor.specs.Marks.{punct};
ghost use Rattle.ir_tree.specs.NameTable.{Grows};
ghost use Rattle.ir_tree.specs.ShapeOf.{ty_val_shape, body_shape};
ghost use Rattle.ir_tree.specs.Known.{ty_val_known, body_known};
ghost use Rattle.ir_grammar_insts.specs.Operands.{run_ty_val, run_more_ty_val};
ghost use Rattle.ir_grammar_insts.specs.Memory.{count_of, run_counted, run_alloca, run_load, run_store, run_get_element, run_call};

use crate::{global_at, integer_at, more_ty_val_at, ty_val_at};
use grammar::Stop;
use ir_cursor::{after_mark, mark_at};
use ir_lex::Token;
use ir_read_consts::{flags_at, type_at};
use ir_tree::module::{Body, TyVal, Val};
use ir_tree::names::Names;
use ir_tree::types::Const;
use std::alloc::Global;

/// Returns how many there are, after a comma and a type, where a comma is at `at`, and one where it isn't;
/// and the number of the token after that.
fn count_at(
    alloc: Global,
    text: &[u8],
    toks: &[Token],
    at: usize,
    budget: usize,
    names: &mut Names,
) -> Result<(i128, usize), Stop>
    requires within { at ≤ length (symbols_of text.now toks.now) }
    requires room { length names.old + length (symbols_of text.now toks.now) < 2 ^ 32 + at }
    ensures grows { Grows names.old names.new }
    ensures count { IfOk result (λ x. length names.new + at ≤ length names.old + x.1) }
    ensures reads { Gives (λ n. n) (symbols_of text.now toks.now) result
        (run_map count_of (run_maybe (heads (punct 44)) (run_counted budget)) (drop at (symbols_of text.now toks.now))) }
{
    let Some(next) = after_mark(text, toks, at, b',') else {
        return Ok((1, at));
    };
    let (_, next) = type_at(alloc, text, toks, next, budget, names)?;
    integer_at(text, toks, next)
}

/// Reads what follows `alloca`, at token `at`. Returns it and the number of the next token.
pub fn alloca_at(
    alloc: Global,
    text: &[u8],
    toks: &[Token],
    at: usize,
    budget: usize,
    names: &mut Names,
) -> Result<(Body, usize), Stop>
    requires within { at ≤ length (symbols_of text.now toks.now) }
    requires room { length names.old + length (symbols_of text.now toks.now) < 2 ^ 32 + at }
    ensures grows { Grows names.old names.new }
    ensures count { IfOk result (λ x. length names.new + at ≤ length names.old + x.1) }
    ensures known { IfOk result (λ x. body_known (length names.new) x.0 ≡ true) }
    ensures reads { Gives (body_shape names.new) (symbols_of text.now toks.now) result
        (run_alloca budget (drop at (symbols_of text.now toks.now))) }
{
    let (ty, next) = type_at(alloc, text, toks, at, budget, names)?;
    let (count, end) = count_at(alloc, text, toks, next, budget, names)?;
    Ok((Body::Alloca(ty, count), end))
}

/// Reads what follows `load`, at token `at`. Returns it and the number of the next token.
pub fn load_at(
    alloc: Global,
    text: &[u8],
    toks: &[Token],
    at: usize,
    budget: usize,
    names: &mut Names,
) -> Result<(Body, usize), Stop>
    requires within { at ≤ length (symbols_of text.now toks.now) }
    requires room { length names.old + length (symbols_of text.now toks.now) < 2 ^ 32 + at }
    ensures grows { Grows names.old names.new }
    ensures count { IfOk result (λ x. length names.new + at ≤ length names.old + x.1) }
    ensures known { IfOk result (λ x. body_known (length names.new) x.0 ≡ true) }
    ensures reads { Gives (body_shape names.new) (symbols_of text.now toks.now) result
        (run_load budget (drop at (symbols_of text.now toks.now))) }
{
    let (ty, next) = type_at(alloc, text, toks, at, budget, names)?;
    let (address, end) = more_ty_val_at(alloc, text, toks, next, budget, names)?;
    Ok((Body::Load(ty, address), end))
}

/// Reads what follows `store`, at token `at`. Returns it and the number of the next token.
pub fn store_at(
    alloc: Global,
    text: &[u8],
    toks: &[Token],
    at: usize,
    budget: usize,
    names: &mut Names,
) -> Result<(Body, usize), Stop>
    requires within { at ≤ length (symbols_of text.now toks.now) }
    requires room { length names.old + length (symbols_of text.now toks.now) < 2 ^ 32 + at }
    ensures grows { Grows names.old names.new }
    ensures count { IfOk result (λ x. length names.new + at ≤ length names.old + x.1) }
    ensures known { IfOk result (λ x. body_known (length names.new) x.0 ≡ true) }
    ensures reads { Gives (body_shape names.new) (symbols_of text.now toks.now) result
        (run_store budget (drop at (symbols_of text.now toks.now))) }
{
    let (value, next) = ty_val_at(alloc, text, toks, at, budget, names)?;
    let (address, end) = more_ty_val_at(alloc, text, toks, next, budget, names)?;
    Ok((Body::Store(value, address), end))
}

/// Reads what follows `getelementptr`, at token `at`. Returns it and the number of the next token.
pub fn element_at(
    alloc: Global,
    text: &[u8],
    toks: &[Token],
    at: usize,
    budget: usize,
    names: &mut Names,
) -> Result<(Body, usize), Stop>
    requires within { at ≤ length (symbols_of text.now toks.now) }
    requires room { length names.old + length (symbols_of text.now toks.now) < 2 ^ 32 + at }
    ensures grows { Grows names.old names.new }
    ensures count { IfOk result (λ x. length names.new + at ≤ length names.old + x.1) }
    ensures known { IfOk result (λ x. body_known (length names.new) x.0 ≡ true) }
    ensures reads { Gives (body_shape names.new) (symbols_of text.now toks.now) result
        (run_get_element budget (drop at (symbols_of text.now toks.now))) }
{
    let (inbounds, next) = flags_at(text, toks, at, budget);
    let (ty, next) = type_at(alloc, text, toks, next, budget, names)?;
    let (base, next) = more_ty_val_at(alloc, text, toks, next, budget, names)?;
    let (indices, end) = indices_at(alloc, text, toks, next, budget, names)?;
    Ok((Body::Gep(inbounds, ty, base, indices), end))
}

/// Reads the types and values starting at token `at`, each after a comma.
fn indices_at(
    alloc: Global,
    text: &[u8],
    toks: &[Token],
    at: usize,
    budget: usize,
    names: &mut Names,
) -> Result<(Vec<TyVal>, usize), Stop>
    requires within { at ≤ length (symbols_of text.now toks.now) }
    requires room { length names.old + length (symbols_of text.now toks.now) < 2 ^ 32 + at }
    ensures grows { Grows names.old names.new }
    ensures count { IfOk result (λ x. length names.new + at ≤ length names.old + x.1) }
    ensures known { IfOk result (λ x. list_all (ty_val_known (length names.new)) x.0.items ≡ true) }
    ensures reads { Gives (λ v. map (ty_val_shape names.new) v.items)
        (symbols_of text.now toks.now) result
        (run_many budget (heads (punct 44)) (run_more_ty_val budget) (drop at (symbols_of text.now toks.now))) }
{
    let mut indices = Vec::new(alloc);
    let mut next = at;
    for _ in 0..budget {
        let Some(after_comma) = after_mark(text, toks, next, b',') else {
            return Ok((indices, next));
        };
        let (index, after_index) = ty_val_at(alloc, text, toks, after_comma, budget, names)?;
        indices.push(index)?;
        next = after_index;
    }
    Ok((indices, next))
}

/// Reads what follows `call`, at token `at`. Returns it and the number of the next token.
pub fn call_at(
    alloc: Global,
    text: &[u8],
    toks: &[Token],
    at: usize,
    budget: usize,
    names: &mut Names,
) -> Result<(Body, usize), Stop>
    requires within { at ≤ length (symbols_of text.now toks.now) }
    requires room { length names.old + length (symbols_of text.now toks.now) < 2 ^ 32 + at }
    ensures grows { Grows names.old names.new }
    ensures count { IfOk result (λ x. length names.new + at ≤ length names.old + x.1) }
    ensures known { IfOk result (λ x. body_known (length names.new) x.0 ≡ true) }
    ensures reads { Gives (body_shape names.new) (symbols_of text.now toks.now) result
        (run_call budget (drop at (symbols_of text.now toks.now))) }
{
    let (ty, next) = type_at(alloc, text, toks, at, budget, names)?;
    let (callee, next) = global_at(alloc, text, toks, next, names)?;
    let next = mark_at(text, toks, next, b'(')?;
    let (arguments, end) = arguments_at(alloc, text, toks, next, budget, names)?;
    Ok((
        Body::Call(ty, Val::Fixed(Const::Global(callee)), arguments),
        end,
    ))
}

/// Reads the types and values starting at token `at`, if any, up to a `)`.
fn arguments_at(
    alloc: Global,
    text: &[u8],
    toks: &[Token],
    at: usize,
    budget: usize,
    names: &mut Names,
) -> Result<(Vec<TyVal>, usize), Stop>
    requires within { at ≤ length (symbols_of text.now toks.now) }
    requires room { length names.old + length (symbols_of text.now toks.now) < 2 ^ 32 + at }
    ensures grows { Grows names.old names.new }
    ensures count { IfOk result (λ x. length names.new + at ≤ length names.old + x.1) }
    ensures known { IfOk result (λ x. list_all (ty_val_known (length names.new)) x.0.items ≡ true) }
    ensures reads { Gives (λ v. map (ty_val_shape names.new) v.items)
        (symbols_of text.now toks.now) result
        (run_listed budget (punct 44) (punct 41) (run_ty_val budget) (drop at (symbols_of text.now toks.now))) }
{
    let mut arguments = Vec::new(alloc);
    if let Some(end) = after_mark(text, toks, at, b')') {
        return Ok((arguments, end));
    }
    let mut next = at;
    for _ in 0..budget {
        let (argument, after_argument) = ty_val_at(alloc, text, toks, next, budget, names)?;
        arguments.push(argument)?;
        match after_mark(text, toks, after_argument, b')') {
            Some(end) => return Ok((arguments, end)),
            None => next = mark_at(text, toks, after_argument, b',')?,
        }
    }
    Err(Stop::WrongSymbol(next))
}
