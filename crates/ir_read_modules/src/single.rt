//! One line of a block, with its result.

ghost use Rattle.std.specs.Prelude.{◌≡◌, ◌+◌, ◌^◌, ◌<◌, ◌≤◌, length, drop, true, option_map, IfOk};
ghost use Rattle.grammar.specs.Code.{Gives};
ghost use Rattle.ir_lex.specs.Symbols.{symbols_of};
ghost use Rattle.ir_tree.specs.NameTable.{Grows};
ghost use Rattle.ir_tree.specs.ShapeOf.{name_shape, inst_shape};
ghost use Rattle.ir_tree.specs.Known.{name_known, result_known, inst_known};
ghost use Rattle.ir_grammar_modules.specs.Blocks.{run_result, run_inst_line};
ghost use Rattle.ir_read_modules.specs.Lines.{run_maybe_result, run_phi_line};

use grammar::Stop;
use ir_cursor::mark_at;
use ir_lex::Token;
use ir_read_insts::{begins_local, inst_at, local_at, phi_at};
use ir_tree::module::Inst;
use ir_tree::names::{NameId, Names};
use std::alloc::Global;

/// Reads the name of the result at token `at`. Returns it and the number of the token after its `=`.
fn result_at(
    alloc: Global,
    text: &[u8],
    toks: &[Token],
    at: usize,
    names: &mut Names,
) -> Result<(NameId, usize), Stop>
    requires within { at ≤ length (symbols_of text.now toks.now) }
    requires room { length names.old + length (symbols_of text.now toks.now) < 2 ^ 32 + at }
    ensures grows { Grows names.old names.new }
    ensures count { IfOk result (λ x. length names.new + at ≤ length names.old + x.1) }
    ensures known { IfOk result (λ x. name_known (length names.new) x.0 ≡ true) }
    ensures reads { Gives (name_shape names.new) (symbols_of text.now toks.now) result
        (run_result (drop at (symbols_of text.now toks.now))) }
{
    let (name, next) = local_at(alloc, text, toks, at, names)?;
    let end = mark_at(text, toks, next, b'=')?;
    Ok((name, end))
}

/// Reads the name of the result at token `at`, if there is one, and the number of the token where the line
/// goes on.
fn maybe_result_at(
    alloc: Global,
    text: &[u8],
    toks: &[Token],
    at: usize,
    names: &mut Names,
) -> Result<(Option<NameId>, usize), Stop>
    requires within { at ≤ length (symbols_of text.now toks.now) }
    requires room { length names.old + length (symbols_of text.now toks.now) < 2 ^ 32 + at }
    ensures grows { Grows names.old names.new }
    ensures count { IfOk result (λ x. length names.new + at ≤ length names.old + x.1) }
    ensures known { IfOk result (λ x. result_known (length names.new) x.0 ≡ true) }
    ensures reads { Gives (λ o. option_map (name_shape names.new) o)
        (symbols_of text.now toks.now) result
        (run_maybe_result (drop at (symbols_of text.now toks.now))) }
{
    if begins_local(text, toks, at) {
        let (name, next) = result_at(alloc, text, toks, at, names)?;
        Ok((Some(name), next))
    } else {
        Ok((None, at))
    }
}

/// Reads the phi at token `at`, with its result. Returns it and the number of the next token. At most
/// `budget` tokens are read.
pub fn phi_line_at(
    alloc: Global,
    text: &[u8],
    toks: &[Token],
    at: usize,
    budget: usize,
    names: &mut Names,
) -> Result<(Inst, usize), Stop>
    requires within { at ≤ length (symbols_of text.now toks.now) }
    requires room { length names.old + length (symbols_of text.now toks.now) < 2 ^ 32 + at }
    ensures grows { Grows names.old names.new }
    ensures count { IfOk result (λ x. length names.new + at ≤ length names.old + x.1) }
    ensures known { IfOk result (λ x. inst_known (length names.new) x.0 ≡ true) }
    ensures reads { Gives (inst_shape names.new) (symbols_of text.now toks.now) result
        (run_phi_line budget (drop at (symbols_of text.now toks.now))) }
{
    let (result, word) = maybe_result_at(alloc, text, toks, at, names)?;
    let (body, next) = phi_at(alloc, text, toks, word, budget, names)?;
    Ok((Inst { result, body }, next))
}

/// Reads the instruction at token `at`, with its result. Returns it and the number of the next token. At most
/// `budget` tokens are read.
pub fn inst_line_at(
    alloc: Global,
    text: &[u8],
    toks: &[Token],
    at: usize,
    budget: usize,
    names: &mut Names,
) -> Result<(Inst, usize), Stop>
    requires within { at ≤ length (symbols_of text.now toks.now) }
    requires room { length names.old + length (symbols_of text.now toks.now) < 2 ^ 32 + at }
    ensures grows { Grows names.old names.new }
    ensures count { IfOk result (λ x. length names.new + at ≤ length names.old + x.1) }
    ensures known { IfOk result (λ x. inst_known (length names.new) x.0 ≡ true) }
    ensures reads { Gives (inst_shape names.new) (symbols_of text.now toks.now) result
        (run_inst_line budget (drop at (symbols_of text.now toks.now))) }
{
    let (result, word) = maybe_result_at(alloc, text, toks, at, names)?;
    let (body, next) = inst_at(alloc, text, toks, word, budget, names)?;
    Ok((Inst { result, body }, next))
}
