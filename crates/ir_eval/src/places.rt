//! Where activations stand.

ghost use Rattle.std.specs.Prelude.{◌≡◌, ◌+◌, ◌<◌, ◌^◌, MatchOption, OnSome};
ghost use Rattle.std.specs.Option.{option_map};
ghost use Rattle.ir_model.specs.Programs.{block_in, empty_block};
ghost use Rattle.ir_model.specs.States.{instruction_at};
ghost use Rattle.program_tables.specs.Shapes.{program_shape, block_shape, instruction_shape};
ghost use Rattle.ir_eval.specs.Shapes.{activation_shape};

use crate::activation::Activation;
use program_tables::{Block, Instruction, Program};

/// Returns the block of a number in a function, if it is there.
pub fn block_in(p: &Program, function: usize, block: usize) -> Option<&Block>
    ensures { MatchOption result
        (block_in (program_shape p.now) function block ≡ empty_block)
        (λ b. block_in (program_shape p.now) function block ≡ block_shape b.now) }
{
    p.functions.get(function)?.blocks.get(block)
}

/// Returns the instruction at which an activation stands, if there is one.
pub fn instruction_at<'p>(p: &'p Program, a: &Activation) -> Option<&'p Instruction>
    ensures found { option_map (λ x. instruction_shape x.now) result ≡
        instruction_at (program_shape p.now) (activation_shape a.now) }
    ensures inside { OnSome result (a.now.position + 1 < 2 ^ 64) }
{
    block_in(p, a.function, a.block)?.body.get(a.position)
}
