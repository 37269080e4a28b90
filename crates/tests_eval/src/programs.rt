//! Programs, as the tables that code has of them.
ghost use Rattle.std.specs.Prelude.{◌≡◌, IfOk, map};
ghost use Rattle.program_tables.specs.Shapes.{operand_shape, action_shape, instruction_shape, phi_shape, block_shape, function_shape, program_shape};
ghost use Rattle.tests_eval.specs.Programs as programs;

use ir_model::Access;
use ir_tree::module::{Bin, Conv, Flags, Pred};
use program_tables::{
    Action, Block, Function, Input, Instruction, Operand, Operation, Phi, Program, Value,
};
use std::alloc::{AllocError, Global};

/// Makes an operand of 64 bits.
fn number(n: u64) -> Operand
    ensures { operand_shape result ≡ programs.number n }
{
    Operand::Fixed(Value::Integer(64, n))
}

/// Makes an operation of 64 bits that doesn't overflow with sign.
fn binary(operation: Bin) -> Action
    ensures { action_shape result ≡ programs.binary operation }
{
    Action::Compute(Operation::Binary {
        operation,
        flags: Flags {
            nuw: false,
            nsw: true,
            exact: false,
        },
        width: 64,
    })
}

/// Makes an instruction that gives no value.
fn plain(alloc: Global, action: Action, operands: &[Operand]) -> Result<Instruction, AllocError>
    ensures { IfOk result (λ x. instruction_shape x ≡ programs.plain (action_shape action) (map operand_shape operands.now)) }
{
    Ok(Instruction {
        result: None,
        action,
        operands: operands.to_vec(alloc)?,
    })
}

/// Makes an instruction that gives a value.
fn giving(
    alloc: Global,
    id: usize,
    action: Action,
    operands: &[Operand],
) -> Result<Instruction, AllocError>
    ensures { IfOk result (λ x. instruction_shape x ≡ programs.giving id (action_shape action) (map operand_shape operands.now)) }
{
    Ok(Instruction {
        result: Some(id),
        action,
        operands: operands.to_vec(alloc)?,
    })
}

/// Makes a phi that starts with zero.
fn phi(alloc: Global, id: usize, next: usize) -> Result<Phi, AllocError>
    ensures { IfOk result (λ x. phi_shape x ≡ programs.phi id next) }
{
    let first = Input {
        from: 0,
        operand: number(0),
    };
    let second = Input {
        from: 1,
        operand: Operand::Local(next),
    };
    Ok(Phi {
        result: id,
        inputs: vec![in alloc; first, second]?,
    })
}

/// Makes a block that returns the count.
fn last(alloc: Global) -> Result<Block, AllocError>
    ensures { IfOk result (λ b. block_shape b ≡ programs.last) }
{
    let cut = giving(
        alloc,
        5,
        Action::Compute(Operation::Convert {
            conversion: Conv::Trunc,
            from: 64,
            to: 32,
        }),
        &[Operand::Local(1)],
    )?;
    let end = plain(alloc, Action::Return, &[Operand::Local(5)])?;
    Ok(Block {
        phis: Vec::new(alloc),
        body: vec![in alloc; cut, end]?,
    })
}

/// Makes a block that counts until so many through memory and a call.
fn body_room(alloc: Global, n: u64) -> Result<Block, AllocError>
    ensures { IfOk result (λ b. block_shape b ≡ programs.body_room n) }
{
    let one = phi(alloc, 0, 1)?;
    let store = plain(
        alloc,
        Action::Store(Access::I64),
        &[Operand::Local(0), Operand::Local(6)],
    )?;
    let load = giving(alloc, 3, Action::Load(Access::I64), &[Operand::Local(6)])?;
    let call = giving(alloc, 1, Action::Call { function: 1 }, &[Operand::Local(3)])?;
    let less = giving(
        alloc,
        2,
        Action::Compute(Operation::Compare {
            predicate: Pred::Slt,
        }),
        &[Operand::Local(1), number(n)],
    )?;
    let branch = plain(
        alloc,
        Action::Branch { met: 1, unmet: 2 },
        &[Operand::Local(2)],
    )?;
    Ok(Block {
        phis: vec![in alloc; one]?,
        body: vec![in alloc; store, load, call, less, branch]?,
    })
}

/// Makes a block that makes room, and jumps.
fn entry_room(alloc: Global) -> Result<Block, AllocError>
    ensures { IfOk result (λ b. block_shape b ≡ programs.entry_room) }
{
    let make = giving(alloc, 6, Action::Alloca { size: 8 }, &[])?;
    let jump = plain(alloc, Action::Jump { to: 1 }, &[])?;
    Ok(Block {
        phis: Vec::new(alloc),
        body: vec![in alloc; make, jump]?,
    })
}

/// Makes a block that returns one more than its argument.
fn inner(alloc: Global) -> Result<Block, AllocError>
    ensures { IfOk result (λ b. block_shape b ≡ programs.inner) }
{
    let add = giving(alloc, 1, binary(Bin::Add), &[Operand::Local(0), number(1)])?;
    let end = plain(alloc, Action::Return, &[Operand::Local(1)])?;
    Ok(Block {
        phis: Vec::new(alloc),
        body: vec![in alloc; add, end]?,
    })
}

/// Makes a program that counts to a number through memory and a call: 7 steps for each, and 4.
pub fn roomed(alloc: Global, n: u64) -> Result<Program, AllocError>
    ensures { IfOk result (λ p. program_shape p ≡ programs.roomed n) }
{
    let first = entry_room(alloc)?;
    let second = body_room(alloc, n)?;
    let third = last(alloc)?;
    let f = Function {
        params: 0,
        values: 7,
        frame: 0,
        blocks: vec![in alloc; first, second, third]?,
    };
    let leaf = inner(alloc)?;
    let g = Function {
        params: 1,
        values: 2,
        frame: 0,
        blocks: vec![in alloc; leaf]?,
    };
    Ok(Program {
        globals: Vec::new(alloc),
        functions: vec![in alloc; f, g]?,
        main: 0,
    })
}
