//! Types, each from its first token on.

ghost use Rattle.std.specs.Prelude.{◌≡◌, ◌+◌, ◌^◌, ◌<◌, ◌≤◌, length, drop, map, true, IfOk};
ghost use Rattle.std.specs.List.{list_all};
ghost use Rattle.grammar.specs.Reader.{run_one, run_listed};
ghost use Rattle.grammar.specs.Code.{Gives};
ghost use Rattle.ir_lex.specs.Symbols.{symbols_of};
ghost use Rattle.ir_cursor.specs.Marks.{punct};
ghost use Rattle.ir_tree.specs.NameTable.{Grows};
ghost use Rattle.ir_tree.specs.ShapeOf.{ty_shape};
ghost use Rattle.ir_tree.specs.Known.{ty_known};
ghost use Rattle.ir_grammar_consts.specs.Types.{run_ty, run_ty_rest};
ghost use Rattle.ir_read_consts.specs.TypeHeads.{head_from};

use crate::type_heads::{Head, count_at, head_at, name_number, times_at};
use grammar::Stop;
use ir_cursor::{after_mark, mark_at};
use ir_lex::Token;
use ir_tree::names::Names;
use ir_tree::types::Ty;
use std::alloc::Global;

/// Reads the type at token `at`. Returns it and the number of the next token. At most `budget` tokens are
/// read.
#[cycle(types)]
#[tactic(auto, using(crate::proofs::TypeSteps::run_ty_none, crate::proofs::TypeSteps::run_ty_some))]
pub fn type_at(
    alloc: Global,
    text: &[u8],
    toks: &[Token],
    at: usize,
    budget: usize,
    names: &mut Names,
) -> Result<(Ty, usize), Stop>
    requires within { at ≤ length (symbols_of text.now toks.now) }
    requires room { length names.old + length (symbols_of text.now toks.now) < 2 ^ 32 + at }
    ensures grows { Grows names.old names.new }
    ensures count { IfOk result (λ x. length names.new + at ≤ length names.old + x.1) }
    ensures known { IfOk result (λ x. ty_known (length names.new) x.0 ≡ true) }
    ensures reads { Gives (ty_shape names.new) (symbols_of text.now toks.now) result
        (run_ty budget (drop at (symbols_of text.now toks.now))) }
{
    if budget == 0 {
        return Err(Stop::WrongSymbol(at));
    }
    let (head, next) = head_at(text, toks, at)?;
    rest_at(alloc, text, toks, next, budget - 1, head, names)
}

/// Reads what follows the head of a type, starting at token `at`.
#[cycle(types)]
#[tactic(auto, using(ir_tree::proofs::Rows::struct_known))]
fn rest_at(
    alloc: Global,
    text: &[u8],
    toks: &[Token],
    at: usize,
    budget: usize,
    head: Head,
    names: &mut Names,
) -> Result<(Ty, usize), Stop>
    requires within { at ≤ length (symbols_of text.now toks.now) }
    requires room { length names.old + length (symbols_of text.now toks.now) < 2 ^ 32 + at }
    ensures grows { Grows names.old names.new }
    ensures count { IfOk result (λ x. length names.new + at ≤ length names.old + x.1 + 1) }
    ensures known { IfOk result (λ x. ty_known (length names.new) x.0 ≡ true) }
    ensures reads { Gives (ty_shape names.new) (symbols_of text.now toks.now) result
        (run_ty_rest budget (run_ty budget) (head_from text.now head) (drop at (symbols_of text.now toks.now))) }
{
    match head {
        Head::Integer(bits) => Ok((Ty::Int(bits), at)),
        Head::Pointer => Ok((Ty::Ptr, at)),
        Head::Void => Ok((Ty::Void, at)),
        Head::Named(token) => {
            let id = name_number(alloc, text, &token, names)?;
            Ok((Ty::Named(id), at))
        }
        Head::Array => {
            let (count, next) = count_at(text, toks, at)?;
            let next = times_at(text, toks, next)?;
            let (element, next) = type_at(alloc, text, toks, next, budget, names)?;
            let end = mark_at(text, toks, next, b']')?;
            Ok((Ty::Array(count, Box::new(alloc, element)?), end))
        }
        Head::Fields => {
            let (fields, end) = fields_at(alloc, text, toks, at, budget, names)?;
            Ok((Ty::Struct(fields, false), end))
        }
        Head::Packed => {
            let next = mark_at(text, toks, at, b'{')?;
            let (fields, next) = fields_at(alloc, text, toks, next, budget, names)?;
            let end = mark_at(text, toks, next, b'>')?;
            Ok((Ty::Struct(fields, true), end))
        }
    }
}

/// Reads the types starting at token `at`, if any, up to a `}`.
#[cycle(types)]
fn fields_at(
    alloc: Global,
    text: &[u8],
    toks: &[Token],
    at: usize,
    budget: usize,
    names: &mut Names,
) -> Result<(Vec<Ty>, usize), Stop>
    requires within { at ≤ length (symbols_of text.now toks.now) }
    requires room { length names.old + length (symbols_of text.now toks.now) < 2 ^ 32 + at }
    ensures grows { Grows names.old names.new }
    ensures count { IfOk result (λ x. length names.new + at ≤ length names.old + x.1) }
    ensures known { IfOk result (λ x. list_all (ty_known (length names.new)) x.0.items ≡ true) }
    ensures reads { Gives (λ v. map (ty_shape names.new) v.items)
        (symbols_of text.now toks.now) result
        (run_listed budget (punct 44) (punct 125) (run_ty budget) (drop at (symbols_of text.now toks.now))) }
{
    let mut fields = Vec::new(alloc);
    if let Some(end) = after_mark(text, toks, at, b'}') {
        return Ok((fields, end));
    }
    let mut next = at;
    for _ in 0..budget {
        let (field, after_field) = type_at(alloc, text, toks, next, budget, names)?;
        fields.push(field)?;
        match after_mark(text, toks, after_field, b'}') {
            Some(end) => return Ok((fields, end)),
            None => next = mark_at(text, toks, after_field, b',')?,
        }
    }
    Err(Stop::WrongSymbol(next))
}
