//! Terminators, each from its first word on.

ghost use Rattle.std.specs.Prelude.{◌≡◌, ◌+◌, ◌^◌, ◌<◌, ◌≤◌, length, drop, map, true, IfOk};
ghost use Rattle.std.specs.List.{list_all};
ghost use Rattle.grammar.specs.Reader.{run_map, run_maybe, run_until};
ghost use Rattle.grammar.specs.Code.{Gives};
ghost use Rattle.ir_lex.specs.Symbols.{symbols_of};
ghost use Rattle.ir_cursor.specs.Marks.{punct};
ghost use Rattle.ir_tree.specs.NameTable.{Grows};
ghost use Rattle.ir_tree.specs.ShapeOf.{body_shape, case_shape};
ghost use Rattle.ir_tree.specs.Known.{body_known, case_known};
ghost use Rattle.ir_grammar_insts.specs.Operands.{begins_val, run_val};
ghost use Rattle.ir_grammar_insts.specs.declared.heads.TermHead.TheVariants.{BrWord};
ghost use Rattle.ir_grammar_insts.specs.Terminators.{return_of, run_ret, run_switch, run_switch_case, run_term, run_term_rest, run_two_ways};

use crate::term_heads::{after_void, begins_value, head_at};
use crate::{after_label, integer_at, local_at, more_target_at, ty_val_at, val_at};
use grammar::Stop;
use ir_cursor::{after_mark, mark_at};
use ir_grammar_insts::TermHead;
use ir_lex::Token;
use ir_read_consts::type_at;
use ir_tree::module::{Body, Case, TyVal};
use ir_tree::names::Names;
use ir_tree::types::Ty;
use std::alloc::Global;

/// Reads the terminator at token `at`. Returns it and the number of the next token. At most `budget` tokens
/// are read.
pub fn term_at(
    alloc: Global,
    text: &[u8],
    toks: &[Token],
    at: usize,
    budget: usize,
    names: &mut Names,
) -> Result<(Body, usize), Stop>
    requires within { at ≤ length (symbols_of text.now toks.now) }
    requires room { length names.old + length (symbols_of text.now toks.now) < 2 ^ 32 + at }
    ensures grows { Grows names.old names.new }
    ensures count { IfOk result (λ x. length names.new + at ≤ length names.old + x.1) }
    ensures known { IfOk result (λ x. body_known (length names.new) x.0 ≡ true) }
    ensures reads { Gives (body_shape names.new) (symbols_of text.now toks.now) result
        (run_term budget (drop at (symbols_of text.now toks.now))) }
{
    let (head, next) = head_at(text, toks, at)?;
    rest_at(alloc, text, toks, next, budget, head, names)
}

/// Reads what follows the first word of a terminator, starting at token `at`.
fn rest_at(
    alloc: Global,
    text: &[u8],
    toks: &[Token],
    at: usize,
    budget: usize,
    head: TermHead,
    names: &mut Names,
) -> Result<(Body, usize), Stop>
    requires within { at ≤ length (symbols_of text.now toks.now) }
    requires room { length names.old + length (symbols_of text.now toks.now) < 2 ^ 32 + at }
    ensures grows { Grows names.old names.new }
    ensures count { IfOk result (λ x. length names.new + at ≤ length names.old + x.1) }
    ensures known { IfOk result (λ x. body_known (length names.new) x.0 ≡ true) }
    ensures reads { Gives (body_shape names.new) (symbols_of text.now toks.now) result
        (run_term_rest budget head (drop at (symbols_of text.now toks.now))) }
{
    match head {
        TermHead::BrWord => branch_at(alloc, text, toks, at, budget, names),
        TermHead::SwitchWord => switch_at(alloc, text, toks, at, budget, names),
        TermHead::RetWord => return_at(alloc, text, toks, at, budget, names),
        TermHead::UnreachableWord => Ok((Body::Unreachable, at)),
    }
}

/// Reads what follows `br`, starting at token `at`.
#[tactic(auto, using(grammar::proofs::Loops::opens_one))]
fn branch_at(
    alloc: Global,
    text: &[u8],
    toks: &[Token],
    at: usize,
    budget: usize,
    names: &mut Names,
) -> Result<(Body, usize), Stop>
    requires within { at ≤ length (symbols_of text.now toks.now) }
    requires room { length names.old + length (symbols_of text.now toks.now) < 2 ^ 32 + at }
    ensures grows { Grows names.old names.new }
    ensures count { IfOk result (λ x. length names.new + at ≤ length names.old + x.1) }
    ensures known { IfOk result (λ x. body_known (length names.new) x.0 ≡ true) }
    ensures reads { Gives (body_shape names.new) (symbols_of text.now toks.now) result
        (run_term_rest budget BrWord (drop at (symbols_of text.now toks.now))) }
{
    match after_label(text, toks, at) {
        Some(next) => {
            let (to, end) = local_at(alloc, text, toks, next, names)?;
            Ok((Body::Jump(to), end))
        }
        None => two_ways_at(alloc, text, toks, at, budget, names),
    }
}

/// Reads the condition of a `br` starting at token `at`, and its two blocks.
fn two_ways_at(
    alloc: Global,
    text: &[u8],
    toks: &[Token],
    at: usize,
    budget: usize,
    names: &mut Names,
) -> Result<(Body, usize), Stop>
    requires within { at ≤ length (symbols_of text.now toks.now) }
    requires room { length names.old + length (symbols_of text.now toks.now) < 2 ^ 32 + at }
    ensures grows { Grows names.old names.new }
    ensures count { IfOk result (λ x. length names.new + at ≤ length names.old + x.1) }
    ensures known { IfOk result (λ x. body_known (length names.new) x.0 ≡ true) }
    ensures reads { Gives (body_shape names.new) (symbols_of text.now toks.now) result
        (run_two_ways budget (drop at (symbols_of text.now toks.now))) }
{
    let (condition, next) = ty_val_at(alloc, text, toks, at, budget, names)?;
    let (yes, next) = more_target_at(alloc, text, toks, next, names)?;
    let (no, end) = more_target_at(alloc, text, toks, next, names)?;
    Ok((Body::Branch(condition, yes, no), end))
}

/// Reads what follows `switch`, starting at token `at`.
fn switch_at(
    alloc: Global,
    text: &[u8],
    toks: &[Token],
    at: usize,
    budget: usize,
    names: &mut Names,
) -> Result<(Body, usize), Stop>
    requires within { at ≤ length (symbols_of text.now toks.now) }
    requires room { length names.old + length (symbols_of text.now toks.now) < 2 ^ 32 + at }
    ensures grows { Grows names.old names.new }
    ensures count { IfOk result (λ x. length names.new + at ≤ length names.old + x.1) }
    ensures known { IfOk result (λ x. body_known (length names.new) x.0 ≡ true) }
    ensures reads { Gives (body_shape names.new) (symbols_of text.now toks.now) result
        (run_switch budget (drop at (symbols_of text.now toks.now))) }
{
    let (value, next) = ty_val_at(alloc, text, toks, at, budget, names)?;
    let (other, next) = more_target_at(alloc, text, toks, next, names)?;
    let next = mark_at(text, toks, next, b'[')?;
    let (cases, end) = cases_at(alloc, text, toks, next, budget, names)?;
    Ok((Body::Switch(value, other, cases), end))
}

/// Reads the cases of a `switch` starting at token `at`, up to a `]`.
fn cases_at(
    alloc: Global,
    text: &[u8],
    toks: &[Token],
    at: usize,
    budget: usize,
    names: &mut Names,
) -> Result<(Vec<Case>, usize), Stop>
    requires within { at ≤ length (symbols_of text.now toks.now) }
    requires room { length names.old + length (symbols_of text.now toks.now) < 2 ^ 32 + at }
    ensures grows { Grows names.old names.new }
    ensures count { IfOk result (λ x. length names.new + at ≤ length names.old + x.1) }
    ensures known { IfOk result (λ x. list_all (case_known (length names.new)) x.0.items ≡ true) }
    ensures reads { Gives (λ v. map (case_shape names.new) v.items)
        (symbols_of text.now toks.now) result
        (run_until budget (punct 93) (run_switch_case budget) (drop at (symbols_of text.now toks.now))) }
{
    let mut cases = Vec::new(alloc);
    let mut next = at;
    for _ in 0..budget {
        if let Some(end) = after_mark(text, toks, next, b']') {
            return Ok((cases, end));
        }
        let (case, after_case) = case_at(alloc, text, toks, next, budget, names)?;
        cases.push(case)?;
        next = after_case;
    }
    Err(Stop::WrongSymbol(next))
}

/// Reads the case of a `switch` at token `at`.
fn case_at(
    alloc: Global,
    text: &[u8],
    toks: &[Token],
    at: usize,
    budget: usize,
    names: &mut Names,
) -> Result<(Case, usize), Stop>
    requires within { at ≤ length (symbols_of text.now toks.now) }
    requires room { length names.old + length (symbols_of text.now toks.now) < 2 ^ 32 + at }
    ensures grows { Grows names.old names.new }
    ensures count { IfOk result (λ x. length names.new + at ≤ length names.old + x.1) }
    ensures known { IfOk result (λ x. case_known (length names.new) x.0 ≡ true) }
    ensures reads { Gives (case_shape names.new) (symbols_of text.now toks.now) result
        (run_switch_case budget (drop at (symbols_of text.now toks.now))) }
{
    let (ty, next) = type_at(alloc, text, toks, at, budget, names)?;
    let (value, next) = integer_at(text, toks, next)?;
    let (to, end) = more_target_at(alloc, text, toks, next, names)?;
    Ok((Case { ty, value, to }, end))
}

/// Reads what follows `ret`, starting at token `at`.
#[tactic(auto, using(grammar::proofs::Loops::opens_one))]
fn return_at(
    alloc: Global,
    text: &[u8],
    toks: &[Token],
    at: usize,
    budget: usize,
    names: &mut Names,
) -> Result<(Body, usize), Stop>
    requires within { at ≤ length (symbols_of text.now toks.now) }
    requires room { length names.old + length (symbols_of text.now toks.now) < 2 ^ 32 + at }
    ensures grows { Grows names.old names.new }
    ensures count { IfOk result (λ x. length names.new + at ≤ length names.old + x.1) }
    ensures known { IfOk result (λ x. body_known (length names.new) x.0 ≡ true) }
    ensures reads { Gives (body_shape names.new) (symbols_of text.now toks.now) result
        (run_ret budget (drop at (symbols_of text.now toks.now))) }
{
    match after_void(text, toks, at) {
        Some(next) => void_at(alloc, text, toks, next, budget, names),
        None => {
            let (value, end) = ty_val_at(alloc, text, toks, at, budget, names)?;
            Ok((Body::Ret(value), end))
        }
    }
}

/// Reads what follows `ret void`, starting at token `at`: a value may, since `void` is a type.
fn void_at(
    alloc: Global,
    text: &[u8],
    toks: &[Token],
    at: usize,
    budget: usize,
    names: &mut Names,
) -> Result<(Body, usize), Stop>
    requires within { at ≤ length (symbols_of text.now toks.now) }
    requires room { length names.old + length (symbols_of text.now toks.now) < 2 ^ 32 + at }
    ensures grows { Grows names.old names.new }
    ensures count { IfOk result (λ x. length names.new + at ≤ length names.old + x.1) }
    ensures known { IfOk result (λ x. body_known (length names.new) x.0 ≡ true) }
    ensures reads { Gives (body_shape names.new) (symbols_of text.now toks.now) result
        (run_map return_of (run_maybe begins_val (run_val budget)) (drop at (symbols_of text.now toks.now))) }
{
    if !begins_value(text, toks, at) {
        return Ok((Body::RetVoid, at));
    }
    let (val, end) = val_at(alloc, text, toks, at, budget, names)?;
    Ok((Body::Ret(TyVal { ty: Ty::Void, val }), end))
}
