//! The lines after the phis of a block.

ghost use Rattle.std.specs.Prelude.{◌≡◌, ◌+◌, ◌^◌, ◌<◌, ◌≤◌, ℕ, length, drop, true, IfOk};
ghost use Rattle.grammar.specs.Code.{Gives};
ghost use Rattle.ir_lex.specs.Symbols.{symbols_of};
ghost use Rattle.ir_tree.specs.NameTable.{Grows};
ghost use Rattle.ir_grammar_modules.specs.Blocks.{run_last_line, run_after_phis};
ghost use Rattle.ir_read_modules.specs.Lines.{run_others, lines_after, AreLinesAt};
ghost use Rattle.ir_read_modules.specs.BlockShapes.{lines_shape, lines_known};

use crate::Lines;
use crate::ahead::{begins_inst, start_at};
use crate::single::inst_line_at;
use grammar::Stop;
use ir_lex::Token;
use ir_read_insts::term_at;
use ir_tree::module::Inst;
use ir_tree::names::Names;
use std::alloc::Global;

/// Reads the lines so far and the terminator at token `at`. Returns it and the number of the next token.
fn last_at(
    alloc: Global,
    text: &[u8],
    toks: &[Token],
    at: usize,
    budget: usize,
    mut lines: Lines,
    names: &mut Names,
) -> Result<(Lines, usize), Stop>
    requires within { at ≤ length (symbols_of text.now toks.now) }
    requires room { length names.old + length (symbols_of text.now toks.now) < 2 ^ 32 + at }
    requires kept { lines_known (length names.old) lines ≡ true }
    ensures grows { Grows names.old names.new }
    ensures count { IfOk result (λ x. length names.new + at ≤ length names.old + x.1) }
    ensures known { IfOk result (λ x. lines_known (length names.new) x.0 ≡ true) }
    ensures reads { Gives (lines_shape names.new) (symbols_of text.now toks.now) result
        (lines_after (lines_shape names.old lines) (run_last_line budget (drop at (symbols_of text.now toks.now)))) }
    ensures spots { (from : ℕ) → AreLinesAt text.now toks.now from at
        (lines_shape names.old lines) lines.spots.items
        → IfOk result (λ x. AreLinesAt text.now toks.now from x.1
        (lines_shape names.new x.0) x.0.spots.items) }
{
    let (body, next) = term_at(alloc, text, toks, at, budget, names)?;
    let last = Inst { result: None, body };
    lines.push(last, start_at(toks, at))?;
    Ok((lines, next))
}

/// Reads the lines so far, the instructions starting at token `at` and the terminator after them. Returns it
/// and the number of the next token. At most `budget` instructions are read.
fn more_at(
    alloc: Global,
    text: &[u8],
    toks: &[Token],
    at: usize,
    budget: usize,
    mut lines: Lines,
    names: &mut Names,
) -> Result<(Lines, usize), Stop>
    requires within { at ≤ length (symbols_of text.now toks.now) }
    requires room { length names.old + length (symbols_of text.now toks.now) < 2 ^ 32 + at }
    requires kept { lines_known (length names.old) lines ≡ true }
    ensures grows { Grows names.old names.new }
    ensures count { IfOk result (λ x. length names.new + at ≤ length names.old + x.1) }
    ensures known { IfOk result (λ x. lines_known (length names.new) x.0 ≡ true) }
    ensures reads { Gives (lines_shape names.new) (symbols_of text.now toks.now) result
        (lines_after (lines_shape names.old lines) (run_after_phis budget (drop at (symbols_of text.now toks.now)))) }
    ensures spots { (from : ℕ) → AreLinesAt text.now toks.now from at
        (lines_shape names.old lines) lines.spots.items
        → IfOk result (λ x. AreLinesAt text.now toks.now from x.1
        (lines_shape names.new x.0) x.0.spots.items) }
{
    let mut next = at;
    for _ in 0..budget {
        if !begins_inst(text, toks, next) {
            return last_at(alloc, text, toks, next, budget, lines, names);
        }
        let (line, end) = inst_line_at(alloc, text, toks, next, budget, names)?;
        lines.push(line, start_at(toks, next))?;
        next = end;
    }
    last_at(alloc, text, toks, next, budget, lines, names)
}

/// Reads the lines so far and those starting at token `at`, of which none is a phi. Returns it and the number
/// of the next token.
pub fn others_at(
    alloc: Global,
    text: &[u8],
    toks: &[Token],
    at: usize,
    budget: usize,
    mut lines: Lines,
    names: &mut Names,
) -> Result<(Lines, usize), Stop>
    requires within { at ≤ length (symbols_of text.now toks.now) }
    requires room { length names.old + length (symbols_of text.now toks.now) < 2 ^ 32 + at }
    requires kept { lines_known (length names.old) lines ≡ true }
    ensures grows { Grows names.old names.new }
    ensures count { IfOk result (λ x. length names.new + at ≤ length names.old + x.1) }
    ensures known { IfOk result (λ x. lines_known (length names.new) x.0 ≡ true) }
    ensures reads { Gives (lines_shape names.new) (symbols_of text.now toks.now) result
        (lines_after (lines_shape names.old lines) (run_others budget (drop at (symbols_of text.now toks.now)))) }
    ensures spots { (from : ℕ) → AreLinesAt text.now toks.now from at
        (lines_shape names.old lines) lines.spots.items
        → IfOk result (λ x. AreLinesAt text.now toks.now from x.1
        (lines_shape names.new x.0) x.0.spots.items) }
{
    if !begins_inst(text, toks, at) {
        return last_at(alloc, text, toks, at, budget, lines, names);
    }
    let (line, next) = inst_line_at(alloc, text, toks, at, budget, names)?;
    lines.push(line, start_at(toks, at))?;
    more_at(alloc, text, toks, next, budget, lines, names)
}
