//! The parameters of functions.

ghost use Rattle.std.specs.Prelude.{◌≡◌, ◌+◌, ◌^◌, ◌<◌, ◌≤◌, length, drop, map, true, IfOk, option_map};
ghost use Rattle.std.specs.List.{list_all};
ghost use Rattle.grammar.specs.Reader.{heads, run_listed, run_maybe, run_one};
ghost use Rattle.grammar.specs.Code.{Gives};
ghost use Rattle.ir_lex.specs.Symbols.{symbols_of};
ghost use Rattle.ir_cursor.specs.Marks.{punct};
ghost use Rattle.ir_tree.specs.NameTable.{Grows};
ghost use Rattle.ir_tree.specs.ShapeOf.{name_shape, param_shape};
ghost use Rattle.ir_tree.specs.Known.{param_known, result_known};
ghost use Rattle.ir_grammar_insts.specs.Operands.{local_name};
ghost use Rattle.ir_grammar_modules.specs.Items.{run_parameter, run_parameters};

use grammar::Stop;
use ir_cursor::{after_mark, mark_at};
use ir_lex::Token;
use ir_read_consts::type_at;
use ir_read_insts::{begins_local, local_at};
use ir_tree::module::Param;
use ir_tree::names::{NameId, Names};
use ir_tree::types::Ty;
use std::alloc::{AllocError, Global};

/// Reads the parameters between brackets starting at token `at`. Returns it and the number of the next token.
pub fn parameters_at(
    alloc: Global,
    text: &[u8],
    toks: &[Token],
    at: usize,
    budget: usize,
    names: &mut Names,
) -> Result<(Vec<Param>, usize), Stop>
    requires within { at ≤ length (symbols_of text.now toks.now) }
    requires room { length names.old + length (symbols_of text.now toks.now) < 2 ^ 32 + at }
    ensures grows { Grows names.old names.new }
    ensures count { IfOk result (λ x. length names.new + at ≤ length names.old + x.1) }
    ensures known { IfOk result (λ x. list_all (param_known (length names.new)) x.0.items ≡ true) }
    ensures reads { Gives (λ v. map (param_shape names.new) v.items)
        (symbols_of text.now toks.now) result
        (run_parameters budget (drop at (symbols_of text.now toks.now))) }
{
    let next = mark_at(text, toks, at, b'(')?;
    listed_at(alloc, text, toks, next, budget, names)
}

/// Reads the parameters starting at token `at`, if any, up to a `)`.
fn listed_at(
    alloc: Global,
    text: &[u8],
    toks: &[Token],
    at: usize,
    budget: usize,
    names: &mut Names,
) -> Result<(Vec<Param>, usize), Stop>
    requires within { at ≤ length (symbols_of text.now toks.now) }
    requires room { length names.old + length (symbols_of text.now toks.now) < 2 ^ 32 + at }
    ensures grows { Grows names.old names.new }
    ensures count { IfOk result (λ x. length names.new + at ≤ length names.old + x.1) }
    ensures known { IfOk result (λ x. list_all (param_known (length names.new)) x.0.items ≡ true) }
    ensures reads { Gives (λ v. map (param_shape names.new) v.items)
        (symbols_of text.now toks.now) result
        (run_listed budget (punct 44) (punct 41) (run_parameter budget) (drop at (symbols_of text.now toks.now))) }
{
    let mut params = Vec::new(alloc);
    if let Some(end) = after_mark(text, toks, at, b')') {
        return Ok((params, end));
    }
    let mut next = at;
    for _ in 0..budget {
        let (param, after_param) = parameter_at(alloc, text, toks, next, budget, names)?;
        params.push(param)?;
        match after_mark(text, toks, after_param, b')') {
            Some(end) => return Ok((params, end)),
            None => next = mark_at(text, toks, after_param, b',')?,
        }
    }
    Err(Stop::WrongSymbol(next))
}

/// Reads the parameter at token `at`.
fn parameter_at(
    alloc: Global,
    text: &[u8],
    toks: &[Token],
    at: usize,
    budget: usize,
    names: &mut Names,
) -> Result<(Param, usize), Stop>
    requires within { at ≤ length (symbols_of text.now toks.now) }
    requires room { length names.old + length (symbols_of text.now toks.now) < 2 ^ 32 + at }
    ensures grows { Grows names.old names.new }
    ensures count { IfOk result (λ x. length names.new + at ≤ length names.old + x.1) }
    ensures known { IfOk result (λ x. param_known (length names.new) x.0 ≡ true) }
    ensures reads { Gives (param_shape names.new) (symbols_of text.now toks.now) result
        (run_parameter budget (drop at (symbols_of text.now toks.now))) }
{
    let (ty, next) = type_at(alloc, text, toks, at, budget, names)?;
    let (name, end) = maybe_local_at(alloc, text, toks, next, names)?;
    Ok((Param { ty, name }, end))
}

/// Reads the name of the Local at token `at`, if one stands there.
fn maybe_local_at(
    alloc: Global,
    text: &[u8],
    toks: &[Token],
    at: usize,
    names: &mut Names,
) -> Result<(Option<NameId>, usize), Stop>
    requires within { at ≤ length (symbols_of text.now toks.now) }
    requires room { length names.old + length (symbols_of text.now toks.now) < 2 ^ 32 + at }
    ensures grows { Grows names.old names.new }
    ensures count { IfOk result (λ x. length names.new + at ≤ length names.old + x.1) }
    ensures known { IfOk result (λ x. result_known (length names.new) x.0 ≡ true) }
    ensures reads { Gives (option_map (name_shape names.new)) (symbols_of text.now toks.now) result
        (run_maybe (heads local_name) (run_one local_name) (drop at (symbols_of text.now toks.now))) }
{
    if !begins_local(text, toks, at) {
        return Ok((None, at));
    }
    let (name, end) = local_at(alloc, text, toks, at, names)?;
    Ok((Some(name), end))
}

/// Returns the types of parameters.
pub fn types_of(alloc: Global, params: Vec<Param>) -> Result<Vec<Ty>, AllocError>
    ensures { IfOk result (λ types. types.items ≡ map (λ param. param.ty) params.items) }
{
    let mut types = Vec::new(alloc);
    for param in params {
        let Param { ty, .. } = param;
        types.push(ty)?;
    }
    Ok(types)
}
