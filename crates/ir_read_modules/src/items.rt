//! Named types, globals, declared functions and the signatures of functions, read from tokens.

ghost use Rattle.std.specs.Prelude.{◌≡◌, ◌+◌, ◌^◌, ◌<◌, ◌≤◌, length, drop, true, IfOk};
ghost use Rattle.grammar.specs.Code.{Gives};
ghost use Rattle.ir_lex.specs.Symbols.{symbols_of};
ghost use Rattle.ir_tree.specs.NameTable.{Grows};
ghost use Rattle.ir_tree.specs.Known.{named_ty_known, global_known, declare_known};
ghost use Rattle.ir_grammar_modules.specs.Items.{run_signature, run_type_line, run_global_line, run_declare_line};
ghost use Rattle.ir_read_modules.specs.ItemShapes.{signature_shape, signature_known, type_item_shape, global_item_shape, declare_item_shape};

use crate::item_heads::{after_declare, after_type_word, constancy_at};
use crate::parameters::{parameters_at, types_of};
use grammar::Stop;
use ir_cursor::mark_at;
use ir_lex::Token;
use ir_read_consts::{const_at, type_at};
use ir_read_insts::{global_at, local_at};
use ir_tree::module::{Declare, GlobalItem, NamedTy, Param};
use ir_tree::names::{NameId, Names};
use ir_tree::types::Ty;
use std::alloc::Global;

/// What a function returns, its name and its parameters.
#[derive(Debug, Drop)]
pub struct Signature {
    /// The type of what it returns.
    pub ret: Ty,
    /// Its name.
    pub name: NameId,
    /// Its parameters in order.
    pub params: Vec<Param>,
}

/// Reads the signature of a function at token `at`. Returns it and the number of the next token. At most
/// `budget` tokens are read.
pub fn signature_at(
    alloc: Global,
    text: &[u8],
    toks: &[Token],
    at: usize,
    budget: usize,
    names: &mut Names,
) -> Result<(Signature, usize), Stop>
    requires within { at ≤ length (symbols_of text.now toks.now) }
    requires room { length names.old + length (symbols_of text.now toks.now) < 2 ^ 32 + at }
    ensures grows { Grows names.old names.new }
    ensures count { IfOk result (λ x. length names.new + at ≤ length names.old + x.1) }
    ensures known { IfOk result (λ x. signature_known (length names.new) x.0 ≡ true) }
    ensures reads { Gives (signature_shape names.new) (symbols_of text.now toks.now) result
        (run_signature budget (drop at (symbols_of text.now toks.now))) }
{
    let (ret, next) = type_at(alloc, text, toks, at, budget, names)?;
    let (name, next) = global_at(alloc, text, toks, next, names)?;
    let (params, end) = parameters_at(alloc, text, toks, next, budget, names)?;
    Ok((Signature { ret, name, params }, end))
}

/// Reads the named type at token `at`. Returns it and the number of the next token.
pub fn type_line_at(
    alloc: Global,
    text: &[u8],
    toks: &[Token],
    at: usize,
    budget: usize,
    names: &mut Names,
) -> Result<(NamedTy, usize), Stop>
    requires within { at ≤ length (symbols_of text.now toks.now) }
    requires room { length names.old + length (symbols_of text.now toks.now) < 2 ^ 32 + at }
    ensures grows { Grows names.old names.new }
    ensures count { IfOk result (λ x. length names.new + at ≤ length names.old + x.1) }
    ensures known { IfOk result (λ x. named_ty_known (length names.new) x.0 ≡ true) }
    ensures reads { Gives (type_item_shape names.new) (symbols_of text.now toks.now) result
        (run_type_line budget (drop at (symbols_of text.now toks.now))) }
{
    let (name, next) = local_at(alloc, text, toks, at, names)?;
    let next = mark_at(text, toks, next, b'=')?;
    let next = after_type_word(text, toks, next)?;
    let (ty, end) = type_at(alloc, text, toks, next, budget, names)?;
    Ok((NamedTy { name, ty }, end))
}

/// Reads the global at token `at`. Returns it and the number of the next token.
pub fn global_line_at(
    alloc: Global,
    text: &[u8],
    toks: &[Token],
    at: usize,
    budget: usize,
    names: &mut Names,
) -> Result<(GlobalItem, usize), Stop>
    requires within { at ≤ length (symbols_of text.now toks.now) }
    requires room { length names.old + length (symbols_of text.now toks.now) < 2 ^ 32 + at }
    ensures grows { Grows names.old names.new }
    ensures count { IfOk result (λ x. length names.new + at ≤ length names.old + x.1) }
    ensures known { IfOk result (λ x. global_known (length names.new) x.0 ≡ true) }
    ensures reads { Gives (global_item_shape names.new) (symbols_of text.now toks.now) result
        (run_global_line budget (drop at (symbols_of text.now toks.now))) }
{
    let (name, next) = global_at(alloc, text, toks, at, names)?;
    let next = mark_at(text, toks, next, b'=')?;
    let (constant, next) = constancy_at(text, toks, next)?;
    let (ty, next) = type_at(alloc, text, toks, next, budget, names)?;
    let (init, end) = const_at(alloc, text, toks, next, budget, names)?;
    Ok((
        GlobalItem {
            name,
            constant,
            ty,
            init,
        },
        end,
    ))
}

/// Reads the declared function at token `at`. Returns it and the number of the next token. The names of its
/// parameters are dropped.
pub fn declare_line_at(
    alloc: Global,
    text: &[u8],
    toks: &[Token],
    at: usize,
    budget: usize,
    names: &mut Names,
) -> Result<(Declare, usize), Stop>
    requires within { at ≤ length (symbols_of text.now toks.now) }
    requires room { length names.old + length (symbols_of text.now toks.now) < 2 ^ 32 + at }
    ensures grows { Grows names.old names.new }
    ensures count { IfOk result (λ x. length names.new + at ≤ length names.old + x.1) }
    ensures known { IfOk result (λ x. declare_known (length names.new) x.0 ≡ true) }
    ensures reads { Gives (declare_item_shape names.new) (symbols_of text.now toks.now) result
        (run_declare_line budget (drop at (symbols_of text.now toks.now))) }
{
    let next = after_declare(text, toks, at)?;
    let (signature, end) = signature_at(alloc, text, toks, next, budget, names)?;
    let Signature { ret, name, params } = signature;
    let params = types_of(alloc, params)?;
    Ok((Declare { name, ret, params }, end))
}
