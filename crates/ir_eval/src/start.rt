//! The start of a run.

ghost use Rattle.std.specs.Prelude.{◌≡◌, ℕ, List, ◌∷◌, ◌++◌, map, IfOk, OnOk};
ghost use Rattle.ir_model.specs.Values.{Cell, null_block, live_block};
ghost use Rattle.ir_model.specs.States.{begun};
ghost use Rattle.mem_cells.specs.Shown.{Shows, HasCells};
ghost use Rattle.program_tables.specs.Shapes.{program_shape, piece_cells, pieces_cells};
ghost use Rattle.ir_eval.specs.Shapes.{state_of};
ghost use Rattle.ir_eval.specs.Outcomes.{first_memory};

use crate::activation::entered;
use crate::machine::Machine;
use mem_cells::{Cells, Mem};
use program_tables::{GlobalBytes, Piece, Program};
use std::alloc::{AllocError, Global};

/// Makes the state in which a program starts.
pub fn begun(alloc: Global, p: &Program) -> Result<Machine, AllocError>
    ensures memory { IfOk result (λ m. Shows (first_memory (program_shape p.now)) m.mem) }
    ensures state { IfOk result (λ m. (input : List ℕ) →
        state_of input (first_memory (program_shape p.now)) m ≡
        begun (program_shape p.now) input) }
{
    Ok(Machine {
        current: entered(alloc, p, p.main, &[], &[])?,
        waiting: Vec::new(alloc),
        mem: first_memory(alloc, p.globals.as_slice())?,
        place: 0,
        output: Vec::new(alloc),
        scratch: Vec::new(alloc),
    })
}

/// Makes the memory at the start: null, and the globals.
fn first_memory(alloc: Global, globals: &[GlobalBytes]) -> Result<Mem, AllocError>
    ensures { IfOk result (λ mem. Shows
        (null_block ∷ map (λ g. live_block (pieces_cells g.pieces.items)) globals.now) mem) }
{
    let mut mem = Mem::new(alloc)?;
    for global in globals {
        let cells = cells_of(alloc, global.pieces.as_slice())?;
        mem.add(cells)?;
    }
    Ok(mem)
}

/// Makes the bytes of pieces, one after the other.
fn cells_of(alloc: Global, pieces: &[Piece]) -> Result<Cells, AllocError>
    ensures { IfOk result (λ cells. HasCells (pieces_cells pieces.now) cells) }
{
    let mut cells = Cells::new(alloc);
    for piece in pieces {
        push_piece(&mut cells, piece)?;
    }
    Ok(cells)
}

/// Adds the bytes of a piece.
fn push_piece(cells: &mut Cells, piece: &Piece) -> Result<(), AllocError>
    ensures { (bytes : List Cell) → HasCells bytes cells.old →
        OnOk result (HasCells (bytes ++ piece_cells piece.now) cells.new) }
{
    match piece {
        Piece::Poison(count) => cells.push_poison(*count),
        Piece::Zeros(count) => cells.push_zeros(*count),
        Piece::Bytes(bytes) => cells.push_bytes(bytes.as_slice()),
        Piece::Word(at) => cells.push_pointer(*at),
    }
}
