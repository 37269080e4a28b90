//! Instructions that compute from values, from their first word on.

ghost use Rattle.std.specs.Prelude.{◌≡◌, ◌+◌, ◌^◌, ◌<◌, ◌≤◌, length, drop, true, IfOk};
ghost use Rattle.grammar.specs.Code.{Gives};
ghost use Rattle.ir_lex.specs.Symbols.{symbols_of};
ghost use Rattle.ir_tree.specs.NameTable.{Grows};
ghost use Rattle.ir_tree.specs.ShapeOf.{body_shape};
ghost use Rattle.ir_tree.specs.Known.{body_known};
ghost use Rattle.ir_grammar_insts.specs.Arithmetic.{run_wrapping_binary, run_exact_binary, run_plain_binary, run_icmp, run_select, run_extend, run_trunc, run_freeze};

use crate::inst_heads::{NO_FLAGS, exact_at, predicate_at, wrap_flags_at};
use crate::operands::{Conversion, TwoValues, conversion_at, two_values_at};
use crate::{more_ty_val_at, ty_val_at, val_at};
use grammar::Stop;
use ir_lex::Token;
use ir_read_consts::type_at;
use ir_tree::module::{Bin, Body, Conv};
use ir_tree::names::Names;
use std::alloc::Global;

/// Reads the operation whose flags `nuw` and `nsw` and operands are at token `at`. Returns it and the number
/// of the next token.
pub fn wrapping_at(
    alloc: Global,
    text: &[u8],
    toks: &[Token],
    at: usize,
    budget: usize,
    operation: Bin,
    names: &mut Names,
) -> Result<(Body, usize), Stop>
    requires within { at ≤ length (symbols_of text.now toks.now) }
    requires room { length names.old + length (symbols_of text.now toks.now) < 2 ^ 32 + at }
    ensures grows { Grows names.old names.new }
    ensures count { IfOk result (λ x. length names.new + at ≤ length names.old + x.1) }
    ensures known { IfOk result (λ x. body_known (length names.new) x.0 ≡ true) }
    ensures reads { Gives (body_shape names.new) (symbols_of text.now toks.now) result
        (run_wrapping_binary budget operation (drop at (symbols_of text.now toks.now))) }
{
    let (flags, next) = wrap_flags_at(text, toks, at, budget);
    let (operands, end) = two_values_at(alloc, text, toks, next, budget, names)?;
    let TwoValues { ty, left, right } = operands;
    Ok((Body::Binary(operation, flags, ty, left, right), end))
}

/// Reads the operation whose flag `exact` and operands are at token `at`. Returns it and the number of the
/// next token.
pub fn exact_binary_at(
    alloc: Global,
    text: &[u8],
    toks: &[Token],
    at: usize,
    budget: usize,
    operation: Bin,
    names: &mut Names,
) -> Result<(Body, usize), Stop>
    requires within { at ≤ length (symbols_of text.now toks.now) }
    requires room { length names.old + length (symbols_of text.now toks.now) < 2 ^ 32 + at }
    ensures grows { Grows names.old names.new }
    ensures count { IfOk result (λ x. length names.new + at ≤ length names.old + x.1) }
    ensures known { IfOk result (λ x. body_known (length names.new) x.0 ≡ true) }
    ensures reads { Gives (body_shape names.new) (symbols_of text.now toks.now) result
        (run_exact_binary budget operation (drop at (symbols_of text.now toks.now))) }
{
    let (flags, next) = exact_at(text, toks, at);
    let (operands, end) = two_values_at(alloc, text, toks, next, budget, names)?;
    let TwoValues { ty, left, right } = operands;
    Ok((Body::Binary(operation, flags, ty, left, right), end))
}

/// Reads the operation whose operands are at token `at`. Returns it and the number of the next token.
pub fn plain_at(
    alloc: Global,
    text: &[u8],
    toks: &[Token],
    at: usize,
    budget: usize,
    operation: Bin,
    names: &mut Names,
) -> Result<(Body, usize), Stop>
    requires within { at ≤ length (symbols_of text.now toks.now) }
    requires room { length names.old + length (symbols_of text.now toks.now) < 2 ^ 32 + at }
    ensures grows { Grows names.old names.new }
    ensures count { IfOk result (λ x. length names.new + at ≤ length names.old + x.1) }
    ensures known { IfOk result (λ x. body_known (length names.new) x.0 ≡ true) }
    ensures reads { Gives (body_shape names.new) (symbols_of text.now toks.now) result
        (run_plain_binary budget operation (drop at (symbols_of text.now toks.now))) }
{
    let (operands, end) = two_values_at(alloc, text, toks, at, budget, names)?;
    let TwoValues { ty, left, right } = operands;
    Ok((Body::Binary(operation, NO_FLAGS, ty, left, right), end))
}

/// Reads what follows `icmp`, at token `at`. Returns it and the number of the next token.
pub fn icmp_at(
    alloc: Global,
    text: &[u8],
    toks: &[Token],
    at: usize,
    budget: usize,
    names: &mut Names,
) -> Result<(Body, usize), Stop>
    requires within { at ≤ length (symbols_of text.now toks.now) }
    requires room { length names.old + length (symbols_of text.now toks.now) < 2 ^ 32 + at }
    ensures grows { Grows names.old names.new }
    ensures count { IfOk result (λ x. length names.new + at ≤ length names.old + x.1) }
    ensures known { IfOk result (λ x. body_known (length names.new) x.0 ≡ true) }
    ensures reads { Gives (body_shape names.new) (symbols_of text.now toks.now) result
        (run_icmp budget (drop at (symbols_of text.now toks.now))) }
{
    let (predicate, next) = predicate_at(text, toks, at)?;
    let (operands, end) = two_values_at(alloc, text, toks, next, budget, names)?;
    let TwoValues { ty, left, right } = operands;
    Ok((Body::Icmp(predicate, ty, left, right), end))
}

/// Reads what follows `select`, at token `at`. Returns it and the number of the next token.
pub fn select_at(
    alloc: Global,
    text: &[u8],
    toks: &[Token],
    at: usize,
    budget: usize,
    names: &mut Names,
) -> Result<(Body, usize), Stop>
    requires within { at ≤ length (symbols_of text.now toks.now) }
    requires room { length names.old + length (symbols_of text.now toks.now) < 2 ^ 32 + at }
    ensures grows { Grows names.old names.new }
    ensures count { IfOk result (λ x. length names.new + at ≤ length names.old + x.1) }
    ensures known { IfOk result (λ x. body_known (length names.new) x.0 ≡ true) }
    ensures reads { Gives (body_shape names.new) (symbols_of text.now toks.now) result
        (run_select budget (drop at (symbols_of text.now toks.now))) }
{
    let (condition, next) = ty_val_at(alloc, text, toks, at, budget, names)?;
    let (yes, next) = more_ty_val_at(alloc, text, toks, next, budget, names)?;
    let (no, end) = more_ty_val_at(alloc, text, toks, next, budget, names)?;
    Ok((Body::Select(condition, yes, no), end))
}

/// Reads what follows `zext` or `sext`, at token `at`. Returns it and the number of the next token.
pub fn extend_at(
    alloc: Global,
    text: &[u8],
    toks: &[Token],
    at: usize,
    budget: usize,
    conversion: Conv,
    names: &mut Names,
) -> Result<(Body, usize), Stop>
    requires within { at ≤ length (symbols_of text.now toks.now) }
    requires room { length names.old + length (symbols_of text.now toks.now) < 2 ^ 32 + at }
    ensures grows { Grows names.old names.new }
    ensures count { IfOk result (λ x. length names.new + at ≤ length names.old + x.1) }
    ensures known { IfOk result (λ x. body_known (length names.new) x.0 ≡ true) }
    ensures reads { Gives (body_shape names.new) (symbols_of text.now toks.now) result
        (run_extend budget conversion (drop at (symbols_of text.now toks.now))) }
{
    let (operands, end) = conversion_at(alloc, text, toks, at, budget, names)?;
    let Conversion { ty, val, to } = operands;
    Ok((Body::Convert(conversion, ty, val, to), end))
}

/// Reads what follows `trunc`, at token `at`. Returns it and the number of the next token. Its flags are
/// dropped.
pub fn trunc_at(
    alloc: Global,
    text: &[u8],
    toks: &[Token],
    at: usize,
    budget: usize,
    names: &mut Names,
) -> Result<(Body, usize), Stop>
    requires within { at ≤ length (symbols_of text.now toks.now) }
    requires room { length names.old + length (symbols_of text.now toks.now) < 2 ^ 32 + at }
    ensures grows { Grows names.old names.new }
    ensures count { IfOk result (λ x. length names.new + at ≤ length names.old + x.1) }
    ensures known { IfOk result (λ x. body_known (length names.new) x.0 ≡ true) }
    ensures reads { Gives (body_shape names.new) (symbols_of text.now toks.now) result
        (run_trunc budget (drop at (symbols_of text.now toks.now))) }
{
    let (_, next) = wrap_flags_at(text, toks, at, budget);
    let (operands, end) = conversion_at(alloc, text, toks, next, budget, names)?;
    let Conversion { ty, val, to } = operands;
    Ok((Body::Convert(Conv::Trunc, ty, val, to), end))
}

/// Reads what follows `freeze`, at token `at`. Returns it and the number of the next token.
pub fn freeze_at(
    alloc: Global,
    text: &[u8],
    toks: &[Token],
    at: usize,
    budget: usize,
    names: &mut Names,
) -> Result<(Body, usize), Stop>
    requires within { at ≤ length (symbols_of text.now toks.now) }
    requires room { length names.old + length (symbols_of text.now toks.now) < 2 ^ 32 + at }
    ensures grows { Grows names.old names.new }
    ensures count { IfOk result (λ x. length names.new + at ≤ length names.old + x.1) }
    ensures known { IfOk result (λ x. body_known (length names.new) x.0 ≡ true) }
    ensures reads { Gives (body_shape names.new) (symbols_of text.now toks.now) result
        (run_freeze budget (drop at (symbols_of text.now toks.now))) }
{
    let (ty, next) = type_at(alloc, text, toks, at, budget, names)?;
    let (val, end) = val_at(alloc, text, toks, next, budget, names)?;
    Ok((Body::Freeze(ty, val), end))
}
