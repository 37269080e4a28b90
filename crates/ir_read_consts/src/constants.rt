//! Constants, each from its first token on.

ghost use Rattle.std.specs.Prelude.{◌≡◌, ◌+◌, ◌^◌, ◌<◌, ◌≤◌, length, drop, map, true, IfOk};
ghost use Rattle.std.specs.List.{list_all};
ghost use Rattle.grammar.specs.Reader.{run_one, run_until, run_skip, run_seq};
ghost use Rattle.grammar.specs.Code.{Gives};
ghost use Rattle.ir_lex.specs.Symbols.{symbols_of};
ghost use Rattle.ir_cursor.specs.Marks.{punct};
ghost use Rattle.ir_tree.specs.NameTable.{Grows};
ghost use Rattle.ir_tree.specs.ShapeOf.{const_shape, typed_shape};
ghost use Rattle.ir_tree.specs.Known.{const_known, typed_known};
ghost use Rattle.ir_grammar_consts.specs.Constants.{run_const, run_const_rest, run_typed_const, run_typed_list, run_operands};
ghost use Rattle.ir_read_consts.specs.ConstHeads.{head_from};
ghost use Rattle.ir_read_consts.specs.ConstOperands.{operands_shape, operands_known};

use crate::const_heads::{Head, bytes_of, flags_at, head_at};
use crate::{name_number, type_at};
use grammar::Stop;
use ir_cursor::{after_mark, mark_at};
use ir_lex::Token;
use ir_tree::names::Names;
use ir_tree::types::{Const, Ty, Typed};
use std::alloc::Global;

/// What an address is computed from: the type that is stepped through, the pointer and the indices.
#[derive(Debug, Drop)]
pub struct Operands {
    /// The type.
    pub ty: Ty,
    /// The pointer.
    pub base: Typed,
    /// The indices.
    pub indices: Vec<Typed>,
}

/// Reads the constant at token `at`. Returns it and the number of the next token. At most `budget` tokens are
/// read.
#[cycle(constants)]
#[tactic(auto, using(crate::proofs::ConstSteps::run_const_none, crate::proofs::ConstSteps::run_const_some))]
pub fn const_at(
    alloc: Global,
    text: &[u8],
    toks: &[Token],
    at: usize,
    budget: usize,
    names: &mut Names,
) -> Result<(Const, usize), Stop>
    requires within { at ≤ length (symbols_of text.now toks.now) }
    requires room { length names.old + length (symbols_of text.now toks.now) < 2 ^ 32 + at }
    ensures grows { Grows names.old names.new }
    ensures count { IfOk result (λ x. length names.new + at ≤ length names.old + x.1) }
    ensures known { IfOk result (λ x. const_known (length names.new) x.0 ≡ true) }
    ensures reads { Gives (const_shape names.new) (symbols_of text.now toks.now) result
        (run_const budget (drop at (symbols_of text.now toks.now))) }
{
    if budget == 0 {
        return Err(Stop::WrongSymbol(at));
    }
    let (head, next) = head_at(text, toks, at)?;
    rest_at(alloc, text, toks, next, budget - 1, head, names)
}

/// Reads what follows the head of a constant, starting at token `at`.
#[cycle(constants)]
fn rest_at(
    alloc: Global,
    text: &[u8],
    toks: &[Token],
    at: usize,
    budget: usize,
    head: Head,
    names: &mut Names,
) -> Result<(Const, usize), Stop>
    requires within { at ≤ length (symbols_of text.now toks.now) }
    requires room { length names.old + length (symbols_of text.now toks.now) < 2 ^ 32 + at }
    ensures grows { Grows names.old names.new }
    ensures count { IfOk result (λ x. length names.new + at ≤ length names.old + x.1 + 1) }
    ensures known { IfOk result (λ x. const_known (length names.new) x.0 ≡ true) }
    ensures reads { Gives (const_shape names.new) (symbols_of text.now toks.now) result
        (run_const_rest budget (run_const budget) (head_from text.now head)
        (drop at (symbols_of text.now toks.now))) }
{
    match head {
        Head::Number(number) => Ok((Const::Int(number), at)),
        Head::Boolean(value) => Ok((Const::Bool(value), at)),
        Head::Null => Ok((Const::Null, at)),
        Head::Undef => Ok((Const::Undef, at)),
        Head::Poison => Ok((Const::Poison, at)),
        Head::Zero => Ok((Const::Zero, at)),
        Head::Text(token) => Ok((Const::Text(bytes_of(alloc, text, &token)?), at)),
        Head::Named(token) => {
            let id = name_number(alloc, text, &token, names)?;
            Ok((Const::Global(id), at))
        }
        Head::Elements => {
            let (elements, end) = list_at(alloc, text, toks, at, budget, b']', names)?;
            Ok((Const::Array(elements), end))
        }
        Head::Fields => {
            let (fields, end) = list_at(alloc, text, toks, at, budget, b'}', names)?;
            Ok((Const::Struct(fields, false), end))
        }
        Head::Packed => {
            let next = mark_at(text, toks, at, b'{')?;
            let (fields, next) = list_at(alloc, text, toks, next, budget, b'}', names)?;
            let end = mark_at(text, toks, next, b'>')?;
            Ok((Const::Struct(fields, true), end))
        }
        Head::Address => {
            let (inbounds, next) = flags_at(text, toks, at, budget);
            let next = mark_at(text, toks, next, b'(')?;
            let (operands, end) = operands_at(alloc, text, toks, next, budget, names)?;
            let Operands { ty, base, indices } = operands;
            let base = Box::new(alloc, base)?;
            Ok((Const::Gep(inbounds, ty, base, indices), end))
        }
    }
}

/// Reads the type and the constant at token `at`.
#[cycle(constants)]
pub fn typed_at(
    alloc: Global,
    text: &[u8],
    toks: &[Token],
    at: usize,
    budget: usize,
    names: &mut Names,
) -> Result<(Typed, usize), Stop>
    requires within { at ≤ length (symbols_of text.now toks.now) }
    requires room { length names.old + length (symbols_of text.now toks.now) < 2 ^ 32 + at }
    ensures grows { Grows names.old names.new }
    ensures count { IfOk result (λ x. length names.new + at ≤ length names.old + x.1) }
    ensures known { IfOk result (λ x. typed_known (length names.new) x.0 ≡ true) }
    ensures reads { Gives (typed_shape names.new) (symbols_of text.now toks.now) result
        (run_typed_const budget (run_const budget) (drop at (symbols_of text.now toks.now))) }
{
    let (ty, next) = type_at(alloc, text, toks, at, budget, names)?;
    let (value, end) = const_at(alloc, text, toks, next, budget, names)?;
    Ok((Typed { ty, value }, end))
}

/// Reads the constants with their types starting at token `at`, if any, up to the closing mark.
#[cycle(constants)]
fn list_at(
    alloc: Global,
    text: &[u8],
    toks: &[Token],
    at: usize,
    budget: usize,
    close: u8,
    names: &mut Names,
) -> Result<(Vec<Typed>, usize), Stop>
    requires within { at ≤ length (symbols_of text.now toks.now) }
    requires room { length names.old + length (symbols_of text.now toks.now) < 2 ^ 32 + at }
    ensures grows { Grows names.old names.new }
    ensures count { IfOk result (λ x. length names.new + at ≤ length names.old + x.1) }
    ensures known { IfOk result (λ x. list_all (typed_known (length names.new)) x.0.items ≡ true) }
    ensures reads { Gives (λ v. map (typed_shape names.new) v.items)
        (symbols_of text.now toks.now) result
        (run_typed_list budget close (run_const budget) (drop at (symbols_of text.now toks.now))) }
{
    let mut items = Vec::new(alloc);
    if let Some(end) = after_mark(text, toks, at, close) {
        return Ok((items, end));
    }
    let mut next = at;
    for _ in 0..budget {
        let (item, after_item) = typed_at(alloc, text, toks, next, budget, names)?;
        items.push(item)?;
        match after_mark(text, toks, after_item, close) {
            Some(end) => return Ok((items, end)),
            None => next = mark_at(text, toks, after_item, b',')?,
        }
    }
    Err(Stop::WrongSymbol(next))
}

/// Reads the operands of an address starting at token `at`, up to a `)`.
#[cycle(constants)]
fn operands_at(
    alloc: Global,
    text: &[u8],
    toks: &[Token],
    at: usize,
    budget: usize,
    names: &mut Names,
) -> Result<(Operands, usize), Stop>
    requires within { at ≤ length (symbols_of text.now toks.now) }
    requires room { length names.old + length (symbols_of text.now toks.now) < 2 ^ 32 + at }
    ensures grows { Grows names.old names.new }
    ensures count { IfOk result (λ x. length names.new + at ≤ length names.old + x.1) }
    ensures known { IfOk result (λ x. operands_known (length names.new) x.0 ≡ true) }
    ensures reads { Gives (operands_shape names.new) (symbols_of text.now toks.now) result
        (run_operands budget (run_const budget) (drop at (symbols_of text.now toks.now))) }
{
    let (ty, next) = type_at(alloc, text, toks, at, budget, names)?;
    let next = mark_at(text, toks, next, b',')?;
    let (base, next) = typed_at(alloc, text, toks, next, budget, names)?;
    let (indices, end) = indices_at(alloc, text, toks, next, budget, names)?;
    Ok((Operands { ty, base, indices }, end))
}

/// Reads the constants with their types starting at token `at`, each after a comma, up to a `)`.
#[cycle(constants)]
fn indices_at(
    alloc: Global,
    text: &[u8],
    toks: &[Token],
    at: usize,
    budget: usize,
    names: &mut Names,
) -> Result<(Vec<Typed>, usize), Stop>
    requires within { at ≤ length (symbols_of text.now toks.now) }
    requires room { length names.old + length (symbols_of text.now toks.now) < 2 ^ 32 + at }
    ensures grows { Grows names.old names.new }
    ensures count { IfOk result (λ x. length names.new + at ≤ length names.old + x.1) }
    ensures known { IfOk result (λ x. list_all (typed_known (length names.new)) x.0.items ≡ true) }
    ensures reads { Gives (λ v. map (typed_shape names.new) v.items)
        (symbols_of text.now toks.now) result
        (run_until budget (punct 41) (run_skip (punct 44) (run_typed_const budget (run_const budget)))
        (drop at (symbols_of text.now toks.now))) }
{
    let mut indices = Vec::new(alloc);
    let mut next = at;
    for _ in 0..budget {
        if let Some(end) = after_mark(text, toks, next, b')') {
            return Ok((indices, end));
        }
        let after_comma = mark_at(text, toks, next, b',')?;
        let (index, after_index) = typed_at(alloc, text, toks, after_comma, budget, names)?;
        indices.push(index)?;
        next = after_index;
    }
    Err(Stop::WrongSymbol(next))
}
