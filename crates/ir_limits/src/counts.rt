//! How many values the instructions of a function give.

ghost use Rattle.std.specs.Prelude.{◌≡◌, List, ℕ, map, sum_by};
ghost use Rattle.ir_tree.specs.ShapeOf.{inst_shape, block_shape, function_shape};
ghost use Rattle.ir_rules.specs.Values.{gives_value};
ghost use Rattle.ir_proper.specs.Limits.{capped, result_count};
ghost use Rattle.ir_limits.specs.Shares.{value_count};

use ir_names::result_ty;
use ir_tree::module::{Block, Function, Inst};

/// Tells whether an instruction gives a value.
pub fn gives_value(inst: &Inst) -> bool
    ensures { (names : List (List ℕ)) → result ≡ gives_value (inst_shape names inst.now) }
{
    inst.result.is_some() || !result_ty(&inst.body).is_void()
}

/// Returns how many values instructions give.
fn results_of_insts(insts: &[Inst]) -> u64
    ensures { (names : List (List ℕ)) →
        result ≡ capped (sum_by value_count (map (inst_shape names) insts.now)) }
{
    let mut total = 0u64;
    for inst in insts {
        let count = if gives_value(inst) { 1 } else { 0 };
        total = total.saturating_add(count);
    }
    total
}

/// Returns how many values the instructions of blocks give.
fn results_of_blocks(blocks: &[Block]) -> u64
    ensures { (names : List (List ℕ)) → result
        ≡ capped (sum_by (λ b. sum_by value_count b.insts) (map (block_shape names) blocks.now)) }
{
    let mut total = 0u64;
    for block in blocks {
        total = total.saturating_add(results_of_insts(&block.insts));
    }
    total
}

/// Returns how many values the instructions of a function give.
pub fn results_of(f: &Function) -> u64
    ensures { (names : List (List ℕ)) →
        result ≡ capped (result_count (function_shape names f.now)) }
{
    results_of_blocks(&f.blocks)
}
