//! Instructions but phis, each from its first word on.

ghost use Rattle.std.specs.Prelude.{◌≡◌, ◌+◌, ◌^◌, ◌<◌, ◌≤◌, length, drop, true, IfOk};
ghost use Rattle.grammar.specs.Code.{Gives};
ghost use Rattle.ir_lex.specs.Symbols.{symbols_of};
ghost use Rattle.ir_tree.specs.NameTable.{Grows};
ghost use Rattle.ir_tree.specs.ShapeOf.{body_shape};
ghost use Rattle.ir_tree.specs.Known.{body_known};
ghost use Rattle.ir_grammar_insts.specs.Instructions.{run_inst, run_inst_rest};

use crate::arithmetic::{
    exact_binary_at, extend_at, freeze_at, icmp_at, plain_at, select_at, trunc_at, wrapping_at,
};
use crate::inst_heads::head_at;
use crate::memory::{alloca_at, call_at, element_at, load_at, store_at};
use grammar::Stop;
use ir_grammar_insts::InstHead;
use ir_lex::Token;
use ir_tree::module::Body;
use ir_tree::names::Names;
use std::alloc::Global;

/// Reads the instruction at token `at`. Returns it and the number of the next token. At most `budget` tokens
/// are read.
pub fn inst_at(
    alloc: Global,
    text: &[u8],
    toks: &[Token],
    at: usize,
    budget: usize,
    names: &mut Names,
) -> Result<(Body, usize), Stop>
    requires within { at ≤ length (symbols_of text.now toks.now) }
    requires room { length names.old + length (symbols_of text.now toks.now) < 2 ^ 32 + at }
    ensures grows { Grows names.old names.new }
    ensures count { IfOk result (λ x. length names.new + at ≤ length names.old + x.1) }
    ensures known { IfOk result (λ x. body_known (length names.new) x.0 ≡ true) }
    ensures reads { Gives (body_shape names.new) (symbols_of text.now toks.now) result
        (run_inst budget (drop at (symbols_of text.now toks.now))) }
{
    let (head, next) = head_at(text, toks, at)?;
    rest_at(alloc, text, toks, next, budget, head, names)
}

/// Reads what follows the head of an instruction, starting at token `at`.
fn rest_at(
    alloc: Global,
    text: &[u8],
    toks: &[Token],
    at: usize,
    budget: usize,
    head: InstHead,
    names: &mut Names,
) -> Result<(Body, usize), Stop>
    requires within { at ≤ length (symbols_of text.now toks.now) }
    requires room { length names.old + length (symbols_of text.now toks.now) < 2 ^ 32 + at }
    ensures grows { Grows names.old names.new }
    ensures count { IfOk result (λ x. length names.new + at ≤ length names.old + x.1) }
    ensures known { IfOk result (λ x. body_known (length names.new) x.0 ≡ true) }
    ensures reads { Gives (body_shape names.new) (symbols_of text.now toks.now) result
        (run_inst_rest budget head (drop at (symbols_of text.now toks.now))) }
{
    match head {
        InstHead::WrappingWord(operation) => wrapping_at(
            alloc, text, toks, at, budget, operation, names,
        ),
        InstHead::ExactWord(operation) => exact_binary_at(
            alloc, text, toks, at, budget, operation, names,
        ),
        InstHead::PlainWord(operation) => plain_at(alloc, text, toks, at, budget, operation, names),
        InstHead::IcmpWord => icmp_at(alloc, text, toks, at, budget, names),
        InstHead::SelectWord => select_at(alloc, text, toks, at, budget, names),
        InstHead::ExtendWord(conversion) => extend_at(
            alloc, text, toks, at, budget, conversion, names,
        ),
        InstHead::TruncWord => trunc_at(alloc, text, toks, at, budget, names),
        InstHead::FreezeWord => freeze_at(alloc, text, toks, at, budget, names),
        InstHead::AllocaWord => alloca_at(alloc, text, toks, at, budget, names),
        InstHead::LoadWord => load_at(alloc, text, toks, at, budget, names),
        InstHead::StoreWord => store_at(alloc, text, toks, at, budget, names),
        InstHead::ElementWord => element_at(alloc, text, toks, at, budget, names),
        InstHead::CallWord => call_at(alloc, text, toks, at, budget, names),
    }
}
