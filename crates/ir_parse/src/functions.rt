//! Functions with their blocks, each from its first token on.

ghost use Rattle.std.specs.Prelude.{◌≡◌, ◌+◌, ◌^◌, ◌<◌, ◌≤◌, length, drop, map, count_by, slice_range, option_map, true, IfOk};
ghost use Rattle.std.specs.List.{list_all};
ghost use Rattle.grammar.specs.Reader.{run_one, run_map, run_until};
ghost use Rattle.grammar.specs.Code.{Gives, Steps};
ghost use Rattle.ir_lex.specs.Symbols.{symbols_of};
ghost use Rattle.ir_cursor.specs.Marks.{punct};
ghost use Rattle.ir_tree.specs.NameTable.{Grows, text_of};
ghost use Rattle.ir_tree.specs.ShapeOf.{name_shape, param_shape};
ghost use Rattle.ir_tree.specs.Known.{name_known, result_known, param_known};
ghost use Rattle.ir_grammar_modules.specs.Blocks.{run_block};
ghost use Rattle.ir_grammar_modules.specs.Items.{define_word, is_numbered, first_name, blocks_of, run_blocks, run_function};
ghost use Rattle.ir_parse.specs.Shapes.{blocks_shape, blocks_known, block_spots, spotted_function_shape, spotted_function_known, function_of_shape};
ghost use Rattle.ir_parse.specs.Spots.{IsBodyAt, IsFunctionAt};

use grammar::Stop;
use ir_cursor::{Meaning, after_mark, mark_at, meaning_at};
use ir_lex::{Keyword, Token};
use ir_read_modules::{
    EntryBlock, LabelledBlock, Lines, Signature, block_at, entry_at, signature_at,
};
use ir_tree::module::{Block, Function, Param};
use ir_tree::names::{NameId, Names};
use ir_words::digits::is_number;
use std::alloc::{AllocError, Global};

/// The blocks of a function, and the byte offset of the first token of each of their lines.
#[derive(Debug, Drop)]
pub struct Blocks {
    /// The blocks in order.
    pub blocks: Vec<Block>,
    /// Where the lines of each begin.
    pub spots: Vec<Vec<usize>>,
}

/// A function, and the byte offset of the first token of each line of its blocks.
#[derive(Debug, Drop)]
pub struct SpottedFunction {
    /// The function.
    pub function: Function,
    /// Where the lines of each block begin.
    pub spots: Vec<Vec<usize>>,
}

/// Returns the name of a number; a number that isn't in the table has the empty one.
fn name_of(names: &Names, id: NameId) -> &[u8]
    ensures { result.now ≡ text_of names.now id.0 }
{
    names.text(id).unwrap_or(b"")
}

/// Tells whether a parameter has no name, or a name of digits alone.
fn is_numbered(names: &Names, param: &Param) -> bool
    ensures { result ≡ is_numbered (param_shape names.now param.now) }
{
    match param.name {
        None => true,
        Some(id) => is_number(name_of(names, id)),
    }
}

/// Returns how many parameters have no name, or a name of digits alone.
fn numbered_count(names: &Names, params: &[Param]) -> usize
    ensures count { result ≡ count_by (λ p. is_numbered (param_shape names.now p)) params.now }
{
    params
        .iter()
        .filter(|param| is_numbered(names, param))
        .count()
}

/// Returns the name of the first block: its label, or else the number of parameters that have no name or a
/// name of digits alone.
fn first_name(
    alloc: Global,
    params: &[Param],
    label: Option<NameId>,
    names: &mut Names,
) -> Result<NameId, AllocError>
    requires room { length names.old < 2 ^ 32 }
    requires known { result_known (length names.old) label ≡ true }
    ensures grows { Grows names.old names.new }
    ensures count { IfOk result (λ id. length names.new ≤ length names.old + 1) }
    ensures known { IfOk result (λ id. name_known (length names.new) id ≡ true) }
    ensures name { IfOk result (λ id. name_shape names.new id
        ≡ first_name (map (param_shape names.old) params.now) (option_map (name_shape names.old) label)) }
{
    match label {
        Some(id) => Ok(id),
        None => {
            let count = numbered_count(names, params);
            let number = format!(in alloc; "{count}")?;
            names.number(number.as_bytes())
        }
    }
}

/// Returns the number of the token after the `define` at `at`.
fn define_at(text: &[u8], toks: &[Token], at: usize) -> Result<usize, Stop>
    requires { at ≤ length (symbols_of text.now toks.now) }
    ensures steps { Steps (symbols_of text.now toks.now) result
        (run_one define_word (drop at (symbols_of text.now toks.now))) }
    ensures next { IfOk result (λ n. n ≡ at + 1) }
{
    match meaning_at(text, toks, at) {
        Some(Meaning::Keyword(Keyword::Define)) => Ok(at + 1),
        _ => Err(Stop::WrongSymbol(at)),
    }
}

/// Reads the blocks starting at token `at`, if any, each with a label, up to a `}`.
fn more_blocks_at(
    alloc: Global,
    text: &[u8],
    toks: &[Token],
    at: usize,
    budget: usize,
    names: &mut Names,
) -> Result<(Blocks, usize), Stop>
    requires within { at ≤ length (symbols_of text.now toks.now) }
    requires room { length names.old + length (symbols_of text.now toks.now) < 2 ^ 32 + at }
    ensures grows { Grows names.old names.new }
    ensures count { IfOk result (λ x. length names.new + at + 1 ≤ length names.old + x.1) }
    ensures known { IfOk result (λ x. blocks_known (length names.new) x.0 ≡ true) }
    ensures reads { Gives (blocks_shape names.new) (symbols_of text.now toks.now) result
        (run_until budget (punct 125) (run_block budget) (drop at (symbols_of text.now toks.now))) }
    ensures spots { IfOk result (λ x. IsBodyAt text.now (slice_range toks.now at x.1)
        (blocks_shape names.new x.0) (block_spots x.0)) }
{
    let mut blocks = Vec::new(alloc);
    let mut spots = Vec::new(alloc);
    let mut next = at;
    for _ in 0..budget {
        if let Some(end) = after_mark(text, toks, next, b'}') {
            return Ok((Blocks { blocks, spots }, end));
        }
        let (read, after_block) = block_at(alloc, text, toks, next, budget, names)?;
        let LabelledBlock {
            block,
            spots: lines,
        } = read;
        blocks.push(block)?;
        spots.push(lines)?;
        next = after_block;
    }
    Err(Stop::WrongSymbol(next))
}

/// Reads the blocks of a function with these parameters starting at token `at`, up to a `}`.
fn blocks_at(
    alloc: Global,
    text: &[u8],
    toks: &[Token],
    at: usize,
    budget: usize,
    params: &[Param],
    names: &mut Names,
) -> Result<(Blocks, usize), Stop>
    requires within { at ≤ length (symbols_of text.now toks.now) }
    requires room { length names.old + length (symbols_of text.now toks.now) + 1 < 2 ^ 32 + at }
    requires params { list_all (param_known (length names.old)) params.now ≡ true }
    ensures grows { Grows names.old names.new }
    ensures count { IfOk result (λ x. length names.new + at ≤ length names.old + x.1) }
    ensures known { IfOk result (λ x. blocks_known (length names.new) x.0 ≡ true) }
    ensures reads { Gives (blocks_shape names.new) (symbols_of text.now toks.now) result
        (run_map (blocks_of (map (param_shape names.old) params.now)) (run_blocks budget)
        (drop at (symbols_of text.now toks.now))) }
    ensures spots { IfOk result (λ x. IsBodyAt text.now (slice_range toks.now at x.1)
        (blocks_shape names.new x.0) (block_spots x.0)) }
{
    let (entry, after_entry) = entry_at(alloc, text, toks, at, budget, names)?;
    let EntryBlock { label, lines } = entry;
    let Lines {
        insts,
        spots: entry_spots,
    } = lines;
    let name = first_name(alloc, params, label, names)?;
    let (more, end) = more_blocks_at(alloc, text, toks, after_entry, budget, names)?;
    let Blocks {
        mut blocks,
        mut spots,
    } = more;
    blocks.insert(0, Block { name, insts })?;
    spots.insert(0, entry_spots)?;
    Ok((Blocks { blocks, spots }, end))
}

/// Reads the function that is defined at token `at`. Returns it and the number of the next token. At most
/// `budget` tokens are read.
pub fn function_line_at(
    alloc: Global,
    text: &[u8],
    toks: &[Token],
    at: usize,
    budget: usize,
    names: &mut Names,
) -> Result<(SpottedFunction, usize), Stop>
    requires within { at ≤ length (symbols_of text.now toks.now) }
    requires room { length names.old + length (symbols_of text.now toks.now) < 2 ^ 32 + at }
    ensures grows { Grows names.old names.new }
    ensures count { IfOk result (λ x. length names.new + at ≤ length names.old + x.1) }
    ensures known { IfOk result (λ x. spotted_function_known (length names.new) x.0 ≡ true) }
    ensures reads { Gives (spotted_function_shape names.new) (symbols_of text.now toks.now) result
        (run_function budget (drop at (symbols_of text.now toks.now))) }
    ensures spots { IfOk result (λ x. IsFunctionAt text.now (slice_range toks.now at x.1)
        (function_of_shape names.new x.0) (map (λ v. v.items) x.0.spots.items)) }
{
    let after_word = define_at(text, toks, at)?;
    let (signature, after_signature) = signature_at(alloc, text, toks, after_word, budget, names)?;
    let Signature { ret, name, params } = signature;
    let after_brace = mark_at(text, toks, after_signature, b'{')?;
    let (body, end) = blocks_at(alloc, text, toks, after_brace, budget, &params, names)?;
    let Blocks { blocks, spots } = body;
    let function = Function {
        name,
        ret,
        params,
        blocks,
    };
    Ok((SpottedFunction { function, spots }, end))
}
