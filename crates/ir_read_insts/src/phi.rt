//! Phis, from their first token on.

ghost use Rattle.std.specs.Prelude.{◌≡◌, ◌+◌, ◌^◌, ◌<◌, ◌≤◌, length, drop, map, true, IfOk};
ghost use Rattle.std.specs.List.{list_all};
ghost use Rattle.grammar.specs.Code.{Gives};
ghost use Rattle.ir_lex.specs.Symbols.{symbols_of};
ghost use Rattle.ir_tree.specs.NameTable.{Grows};
ghost use Rattle.ir_tree.specs.ShapeOf.{phi_in_shape, body_shape};
ghost use Rattle.ir_tree.specs.Known.{phi_in_known, body_known};
ghost use Rattle.ir_grammar_insts.specs.Instructions.{run_phi, run_phi_input, run_phi_inputs};

use crate::inst_heads::phi_word_at;
use crate::{local_at, val_at};
use grammar::Stop;
use ir_cursor::{after_mark, mark_at};
use ir_lex::Token;
use ir_read_consts::type_at;
use ir_tree::module::{Body, PhiIn};
use ir_tree::names::Names;
use std::alloc::Global;

/// Reads the phi at token `at`. Returns it and the number of the next token. At most `budget` tokens are
/// read.
pub fn phi_at(
    alloc: Global,
    text: &[u8],
    toks: &[Token],
    at: usize,
    budget: usize,
    names: &mut Names,
) -> Result<(Body, usize), Stop>
    requires within { at ≤ length (symbols_of text.now toks.now) }
    requires room { length names.old + length (symbols_of text.now toks.now) < 2 ^ 32 + at }
    ensures grows { Grows names.old names.new }
    ensures count { IfOk result (λ x. length names.new + at ≤ length names.old + x.1) }
    ensures known { IfOk result (λ x. body_known (length names.new) x.0 ≡ true) }
    ensures reads { Gives (body_shape names.new) (symbols_of text.now toks.now) result
        (run_phi budget (drop at (symbols_of text.now toks.now))) }
{
    let next = phi_word_at(text, toks, at)?;
    let (ty, next) = type_at(alloc, text, toks, next, budget, names)?;
    let (inputs, end) = inputs_at(alloc, text, toks, next, budget, names)?;
    Ok((Body::Phi(ty, inputs), end))
}

/// Reads the inputs of a phi starting at token `at`, of which there is one at least.
fn inputs_at(
    alloc: Global,
    text: &[u8],
    toks: &[Token],
    at: usize,
    budget: usize,
    names: &mut Names,
) -> Result<(Vec<PhiIn>, usize), Stop>
    requires within { at ≤ length (symbols_of text.now toks.now) }
    requires room { length names.old + length (symbols_of text.now toks.now) < 2 ^ 32 + at }
    ensures grows { Grows names.old names.new }
    ensures count { IfOk result (λ x. length names.new + at ≤ length names.old + x.1) }
    ensures known { IfOk result (λ x. list_all (phi_in_known (length names.new)) x.0.items ≡ true) }
    ensures reads { Gives (λ v. map (phi_in_shape names.new) v.items)
        (symbols_of text.now toks.now) result
        (run_phi_inputs budget (drop at (symbols_of text.now toks.now))) }
{
    let mut inputs = Vec::new(alloc);
    let (first, after_first) = input_at(alloc, text, toks, at, budget, names)?;
    inputs.push(first)?;
    let mut next = after_first;
    for _ in 0..budget {
        let Some(after_comma) = after_mark(text, toks, next, b',') else {
            return Ok((inputs, next));
        };
        let (input, after_input) = input_at(alloc, text, toks, after_comma, budget, names)?;
        inputs.push(input)?;
        next = after_input;
    }
    Ok((inputs, next))
}

/// Reads the input of a phi at token `at`. Returns it and the number of the next token.
fn input_at(
    alloc: Global,
    text: &[u8],
    toks: &[Token],
    at: usize,
    budget: usize,
    names: &mut Names,
) -> Result<(PhiIn, usize), Stop>
    requires within { at ≤ length (symbols_of text.now toks.now) }
    requires room { length names.old + length (symbols_of text.now toks.now) < 2 ^ 32 + at }
    ensures grows { Grows names.old names.new }
    ensures count { IfOk result (λ x. length names.new + at ≤ length names.old + x.1) }
    ensures known { IfOk result (λ x. phi_in_known (length names.new) x.0 ≡ true) }
    ensures reads { Gives (phi_in_shape names.new) (symbols_of text.now toks.now) result
        (run_phi_input budget (drop at (symbols_of text.now toks.now))) }
{
    let next = mark_at(text, toks, at, b'[')?;
    let (val, next) = val_at(alloc, text, toks, next, budget, names)?;
    let next = mark_at(text, toks, next, b',')?;
    let (from, next) = local_at(alloc, text, toks, next, names)?;
    let end = mark_at(text, toks, next, b']')?;
    Ok((PhiIn { val, from }, end))
}
