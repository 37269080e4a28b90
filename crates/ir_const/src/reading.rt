//! The public calls.

ghost use Rattle.std.specs.Prelude.{◌≡◌, ◌+◌, ◌^◌, ◌<◌, ◌≤◌, length, true, IfOk};
ghost use Rattle.ir_tree.specs.NameTable.{Grows};
ghost use Rattle.ir_tree.specs.ShapeOf.{ty_shape, const_shape};
ghost use Rattle.ir_tree.specs.Known.{ty_known, const_known};
ghost use Rattle.ir_grammar_consts.specs.Types.{ty};
ghost use Rattle.ir_grammar_consts.specs.Constants.{const};
ghost use Rattle.ir_const.specs.Answers.{Answers};

use crate::error::{ReadError, error_of};
use crate::reach::reach_of;
use ir_lex::Token;
use ir_read_consts::{const_at, type_at};
use ir_tree::names::Names;
use ir_tree::types::{Const, Ty};
use std::alloc::Global;

/// Reads the type that begins at the token numbered `from`, and gives it with the number of the next token.
/// Its names are numbered in `names`, which only grows, also where an error is answered.
///
/// The tokens are those of a text, or what was kept of them. There is room for a name a token. The time is
/// linear in the tokens of the type; where none begins there, in those up to the wrong one and a closing
/// bracket after it.
///
/// # Errors
///
/// `Deep` where the tokens up to and with some bracket begin a type, and that bracket is the 65th open
/// one; else `Syntax` where no type begins there, with the first wrong token; `OutOfMemory`.
pub fn read_ty(
    alloc: Global,
    text: &[u8],
    toks: &[Token],
    from: usize,
    names: &mut Names,
) -> Result<(Ty, usize), ReadError>
    requires from { from ≤ length toks.now }
    requires room { length names.old + length toks.now < 2 ^ 32 }
    ensures reads { Answers ty (ty_shape names.new) text.now toks.now from result }
    ensures grows { Grows names.old names.new }
    ensures known { IfOk result (λ x. ty_known (length names.new) x.0 ≡ true) }
{
    let reach = reach_of(text, toks, from);
    match type_at(alloc, text, &toks[..reach.end], from, toks.len(), names) {
        Ok(read) => Ok(read),
        Err(stop) => Err(error_of(text, toks, reach, stop)),
    }
}

/// Reads the constant that begins at the token numbered `from`, as [`read_ty`] reads a type.
///
/// # Errors
///
/// Those of [`read_ty`], for a constant.
pub fn read_const(
    alloc: Global,
    text: &[u8],
    toks: &[Token],
    from: usize,
    names: &mut Names,
) -> Result<(Const, usize), ReadError>
    requires from { from ≤ length toks.now }
    requires room { length names.old + length toks.now < 2 ^ 32 }
    ensures reads { Answers const (const_shape names.new) text.now toks.now from result }
    ensures grows { Grows names.old names.new }
    ensures known { IfOk result (λ x. const_known (length names.new) x.0 ≡ true) }
{
    let reach = reach_of(text, toks, from);
    match const_at(alloc, text, &toks[..reach.end], from, toks.len(), names) {
        Ok(read) => Ok(read),
        Err(stop) => Err(error_of(text, toks, reach, stop)),
    }
}
