//! Blocks, read from tokens.

ghost use Rattle.std.specs.Prelude.{◌≡◌, ◌+◌, ◌^◌, ◌<◌, ◌≤◌, length, drop, slice_range, true, IfOk};
ghost use Rattle.grammar.specs.Code.{Gives};
ghost use Rattle.ir_lex.specs.Symbols.{symbols_of};
ghost use Rattle.ir_tree.specs.NameTable.{Grows};
ghost use Rattle.ir_grammar_modules.specs.Blocks.{run_lines, run_block, run_first_block};
ghost use Rattle.ir_read_modules.specs.BlockShapes.{lines_shape, lines_known, labelled_shape, labelled_known, entry_shape, entry_known};
ghost use Rattle.ir_read_modules.specs.Spots.{InPieces, IsLineAt, IsBlockAt, IsEntryAt};

use crate::ahead::{begins_phi, start_at};
use crate::label::{label_at, maybe_label_at};
use crate::others::others_at;
use crate::single::phi_line_at;
use grammar::Stop;
use ir_lex::Token;
use ir_tree::module::{Block, Inst};
use ir_tree::names::{NameId, Names};
use std::alloc::{AllocError, Global};

/// The lines of a block, and the byte offset of the first token of each.
#[derive(Debug, Drop)]
pub struct Lines {
    /// The phis, then the other instructions, the terminator last.
    pub insts: Vec<Inst>,
    /// Where each begins.
    pub spots: Vec<usize>,
}

impl Lines {
    ghost use Rattle.std.specs.Prelude.{[], ◌∷◌, ◌++◌};

    /// Appends a line after the others.
    pub(crate) fn push(&mut self, line: Inst, spot: usize) -> Result<(), AllocError>
        ensures insts { IfOk result (λ _. self.new.insts.items ≡ self.old.insts.items ++ line
            ∷ []) }
        ensures spots { IfOk result (λ _. self.new.spots.items ≡ self.old.spots.items ++ spot
            ∷ []) }
    {
        self.insts.push(line)?;
        self.spots.push(spot)?;
        Ok(())
    }
}

/// A block with its label, and the byte offset of the first token of each of its lines.
#[derive(Debug, Drop)]
pub struct LabelledBlock {
    /// The block.
    pub block: Block,
    /// Where each of its lines begins.
    pub spots: Vec<usize>,
}

/// The first block of a function, which may lack its label.
#[derive(Debug, Drop)]
pub struct EntryBlock {
    /// Its label, if it has one.
    pub label: Option<NameId>,
    /// Its lines.
    pub lines: Lines,
}

/// Reads the lines of a block starting at token `at`. Returns it and the number of the next token. At most
/// `budget` tokens are read.
pub fn lines_at(
    alloc: Global,
    text: &[u8],
    toks: &[Token],
    at: usize,
    budget: usize,
    names: &mut Names,
) -> Result<(Lines, usize), Stop>
    requires within { at ≤ length (symbols_of text.now toks.now) }
    requires room { length names.old + length (symbols_of text.now toks.now) < 2 ^ 32 + at }
    ensures grows { Grows names.old names.new }
    ensures count { IfOk result (λ x. length names.new + at ≤ length names.old + x.1) }
    ensures known { IfOk result (λ x. lines_known (length names.new) x.0 ≡ true) }
    ensures reads { Gives (lines_shape names.new) (symbols_of text.now toks.now) result
        (run_lines budget (drop at (symbols_of text.now toks.now))) }
    ensures spots { IfOk result (λ x. InPieces (IsLineAt text.now) (slice_range toks.now at x.1)
        (lines_shape names.new x.0) x.0.spots.items) }
{
    let mut lines = Lines {
        insts: Vec::new(alloc),
        spots: Vec::new(alloc),
    };
    let mut next = at;
    for read in 0..budget {
        let left = budget - read;
        if !begins_phi(text, toks, next) {
            return others_at(alloc, text, toks, next, left, lines, names);
        }
        let (line, end) = phi_line_at(alloc, text, toks, next, left, names)?;
        lines.push(line, start_at(toks, next))?;
        next = end;
    }
    Err(Stop::WrongSymbol(next))
}

/// Reads the block at token `at`, which has a label. Returns it and the number of the next token. At most
/// `budget` tokens are read.
pub fn block_at(
    alloc: Global,
    text: &[u8],
    toks: &[Token],
    at: usize,
    budget: usize,
    names: &mut Names,
) -> Result<(LabelledBlock, usize), Stop>
    requires within { at ≤ length (symbols_of text.now toks.now) }
    requires room { length names.old + length (symbols_of text.now toks.now) < 2 ^ 32 + at }
    ensures grows { Grows names.old names.new }
    ensures count { IfOk result (λ x. length names.new + at ≤ length names.old + x.1) }
    ensures known { IfOk result (λ x. labelled_known (length names.new) x.0 ≡ true) }
    ensures reads { Gives (labelled_shape names.new) (symbols_of text.now toks.now) result
        (run_block budget (drop at (symbols_of text.now toks.now))) }
    ensures spots { IfOk result (λ x. IsBlockAt text.now (slice_range toks.now at x.1)
        (labelled_shape names.new x.0) x.0.spots.items) }
{
    let (name, first) = label_at(alloc, text, toks, at, names)?;
    let (lines, end) = lines_at(alloc, text, toks, first, budget, names)?;
    let block = Block {
        name,
        insts: lines.insts,
    };
    Ok((
        LabelledBlock {
            block,
            spots: lines.spots,
        },
        end,
    ))
}

/// Reads the first block of a function at token `at`. Returns it and the number of the next token. At most
/// `budget` tokens are read.
pub fn entry_at(
    alloc: Global,
    text: &[u8],
    toks: &[Token],
    at: usize,
    budget: usize,
    names: &mut Names,
) -> Result<(EntryBlock, usize), Stop>
    requires within { at ≤ length (symbols_of text.now toks.now) }
    requires room { length names.old + length (symbols_of text.now toks.now) < 2 ^ 32 + at }
    ensures grows { Grows names.old names.new }
    ensures count { IfOk result (λ x. length names.new + at ≤ length names.old + x.1) }
    ensures known { IfOk result (λ x. entry_known (length names.new) x.0 ≡ true) }
    ensures reads { Gives (entry_shape names.new) (symbols_of text.now toks.now) result
        (run_first_block budget (drop at (symbols_of text.now toks.now))) }
    ensures spots { IfOk result (λ x. IsEntryAt text.now (slice_range toks.now at x.1)
        (entry_shape names.new x.0) x.0.lines.spots.items) }
{
    let (label, first) = maybe_label_at(alloc, text, toks, at, names)?;
    let (lines, end) = lines_at(alloc, text, toks, first, budget, names)?;
    Ok((EntryBlock { label, lines }, end))
}
