//! The weight of a module.

ghost use Rattle.std.specs.Prelude.{◌≡◌, List, ℕ, map, sum_by};
ghost use Rattle.ir_tree.specs.ShapeOf.{body_shape, inst_shape, block_shape, function_shape, module_shape};
ghost use Rattle.ir_proper.specs.Limits.{capped, more_operands, function_weight, weight_of};
ghost use Rattle.ir_limits.specs.Shares.{inst_weight};

use ir_tree::module::{Block, Body, Function, Inst, Module};

/// Returns how many operands an instruction has past the second; of a phi its inputs, of a call the
/// arguments, of a `switch` the cases.
fn more_operands(body: &Body) -> u64
    ensures { (names : List (List ℕ)) → result ≡ more_operands (body_shape names body.now) }
{
    match body {
        Body::Phi(_, inputs) => inputs.len() as u64,
        Body::Select(_, _, _) => 1,
        Body::Gep(_, _, _, indices) => (indices.len() as u64).saturating_sub(1),
        Body::Call(_, _, arguments) => arguments.len() as u64,
        Body::Switch(_, _, cases) => cases.len() as u64,
        Body::Binary(_, _, _, _, _)
        | Body::Icmp(_, _, _, _)
        | Body::Convert(_, _, _, _)
        | Body::Freeze(_, _)
        | Body::Alloca(_, _)
        | Body::Load(_, _)
        | Body::Store(_, _)
        | Body::Jump(_)
        | Body::Branch(_, _, _)
        | Body::RetVoid
        | Body::Ret(_)
        | Body::Unreachable => 0,
    }
}

/// Returns the weight of an instruction.
fn inst_weight(inst: &Inst) -> u64
    ensures { (names : List (List ℕ)) →
        result ≡ capped (inst_weight (inst_shape names inst.now)) }
{
    more_operands(&inst.body)
        .saturating_mul(128)
        .saturating_add(256)
}

/// Returns the weight of instructions.
fn weight_of_insts(insts: &[Inst]) -> u64
    ensures { (names : List (List ℕ)) →
        result ≡ capped (sum_by inst_weight (map (inst_shape names) insts.now)) }
{
    let mut total = 0u64;
    for inst in insts {
        total = total.saturating_add(inst_weight(inst));
    }
    total
}

/// Returns the weight of the instructions of blocks.
fn weight_of_blocks(blocks: &[Block]) -> u64
    ensures { (names : List (List ℕ)) → result
        ≡ capped (sum_by (λ b. sum_by inst_weight b.insts) (map (block_shape names) blocks.now)) }
{
    let mut total = 0u64;
    for block in blocks {
        total = total.saturating_add(weight_of_insts(&block.insts));
    }
    total
}

/// Returns the weight of a function: that of its head and of its instructions.
fn weight_of_function(f: &Function) -> u64
    ensures { (names : List (List ℕ)) →
        result ≡ capped (function_weight (function_shape names f.now)) }
{
    let head = (f.params.len() as u64)
        .saturating_mul(128)
        .saturating_add(64);
    head.saturating_add(weight_of_blocks(&f.blocks))
}

/// Returns the weight of functions.
fn weight_of_functions(functions: &[Function]) -> u64
    ensures { (names : List (List ℕ)) →
        result ≡ capped (sum_by function_weight (map (function_shape names) functions.now)) }
{
    let mut total = 0u64;
    for f in functions {
        total = total.saturating_add(weight_of_function(f));
    }
    total
}

/// Returns the weight of a module, which bounds the words of its executable.
///
/// This takes no memory. The time is linear in the module's instructions.
pub fn weight(m: &Module) -> u64
    ensures { result ≡ weight_of (module_shape m.now) }
{
    weight_of_functions(&m.functions).saturating_add(64)
}
