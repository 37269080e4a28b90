//! Operands that several instructions share.

ghost use Rattle.std.specs.Prelude.{◌≡◌, ◌+◌, ◌^◌, ◌<◌, ◌≤◌, length, drop, true, IfOk};
ghost use Rattle.grammar.specs.Code.{Gives};
ghost use Rattle.ir_lex.specs.Symbols.{symbols_of};
ghost use Rattle.ir_tree.specs.NameTable.{Grows};
ghost use Rattle.ir_grammar_insts.specs.Operands.{run_two_vals};
ghost use Rattle.ir_grammar_insts.specs.Arithmetic.{run_converted};
ghost use Rattle.ir_read_insts.specs.Operands.{two_shape, two_known, conversion_shape, conversion_known};

use crate::inst_heads::into_at;
use crate::val_at;
use grammar::Stop;
use ir_cursor::mark_at;
use ir_lex::Token;
use ir_read_consts::type_at;
use ir_tree::module::Val;
use ir_tree::names::Names;
use ir_tree::types::Ty;
use std::alloc::Global;

/// A type and two values of it.
#[derive(Debug, Drop)]
pub struct TwoValues {
    /// The type.
    pub ty: Ty,
    /// The first value.
    pub left: Val,
    /// The second value.
    pub right: Val,
}

/// A value, its type and the type that it is converted to.
#[derive(Debug, Drop)]
pub struct Conversion {
    /// The value's type.
    pub ty: Ty,
    /// The value.
    pub val: Val,
    /// The type of the result.
    pub to: Ty,
}

/// Reads the type and the two values at token `at`. Returns it and the number of the next token.
pub fn two_values_at(
    alloc: Global,
    text: &[u8],
    toks: &[Token],
    at: usize,
    budget: usize,
    names: &mut Names,
) -> Result<(TwoValues, usize), Stop>
    requires within { at ≤ length (symbols_of text.now toks.now) }
    requires room { length names.old + length (symbols_of text.now toks.now) < 2 ^ 32 + at }
    ensures grows { Grows names.old names.new }
    ensures count { IfOk result (λ x. length names.new + at ≤ length names.old + x.1) }
    ensures known { IfOk result (λ x. two_known (length names.new) x.0 ≡ true) }
    ensures reads { Gives (two_shape names.new) (symbols_of text.now toks.now) result
        (run_two_vals budget (drop at (symbols_of text.now toks.now))) }
{
    let (ty, next) = type_at(alloc, text, toks, at, budget, names)?;
    let (left, next) = val_at(alloc, text, toks, next, budget, names)?;
    let next = mark_at(text, toks, next, b',')?;
    let (right, end) = val_at(alloc, text, toks, next, budget, names)?;
    Ok((TwoValues { ty, left, right }, end))
}

/// Reads the value at token `at` with the type before it and the type after `to`. Returns it and the number
/// of the next token.
pub fn conversion_at(
    alloc: Global,
    text: &[u8],
    toks: &[Token],
    at: usize,
    budget: usize,
    names: &mut Names,
) -> Result<(Conversion, usize), Stop>
    requires within { at ≤ length (symbols_of text.now toks.now) }
    requires room { length names.old + length (symbols_of text.now toks.now) < 2 ^ 32 + at }
    ensures grows { Grows names.old names.new }
    ensures count { IfOk result (λ x. length names.new + at ≤ length names.old + x.1) }
    ensures known { IfOk result (λ x. conversion_known (length names.new) x.0 ≡ true) }
    ensures reads { Gives (conversion_shape names.new) (symbols_of text.now toks.now) result
        (run_converted budget (drop at (symbols_of text.now toks.now))) }
{
    let (ty, next) = type_at(alloc, text, toks, at, budget, names)?;
    let (val, next) = val_at(alloc, text, toks, next, budget, names)?;
    let next = into_at(text, toks, next)?;
    let (to, end) = type_at(alloc, text, toks, next, budget, names)?;
    Ok((Conversion { ty, val, to }, end))
}
