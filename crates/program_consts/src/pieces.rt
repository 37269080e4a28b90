//! Bytes in pieces, to which more are added.

ghost use Rattle.std.specs.Prelude.{◌≡◌, ◌≤◌, ◌++◌, List, ℕ, [], map, replicate, IfOk, OnOk};
ghost use Rattle.ir_tree.specs.ShapeOf.{ty_shape};
ghost use Rattle.ir_model.specs.Values.{Cell, Unknown, Byte};
ghost use Rattle.ir_model.specs.Memory.{access_size, cells_of};
ghost use Rattle.ir_program.specs.Constants.{access_of};
ghost use Rattle.mem_cells.specs.Shapes.{value_shape};
ghost use Rattle.program_tables.specs.Shapes.{piece_cells};
ghost use Rattle.program_consts.specs.Pieces.{AreBytes, HasCells, HoldsCells};

use ir_tree::types::Ty;
use program_tables::{GlobalBytes, Piece, Value};
use std::alloc::{AllocError, Global};
use std::mem;

/// Bytes in pieces, to which more are added.
///
/// After want of memory nothing is known of them.
#[derive(Drop)]
pub struct Pieces {
    /// The pieces that nothing is added to.
    pub done: Vec<Piece>,
    /// The bytes that come after them, and to which more may be added.
    pub tail: Vec<u8>,
}

impl Pieces {
    /// Makes no bytes.
    pub fn new(alloc: Global) -> Pieces
        ensures { HasCells [] result }
    {
        Pieces {
            done: Vec::new(alloc),
            tail: Vec::new(alloc),
        }
    }

    /// Makes a piece of the bytes to which more might be added.
    fn close(&mut self, alloc: Global) -> Result<(), AllocError>
        ensures { (cells : List Cell) → HasCells cells self.old →
            OnOk result (HoldsCells cells self.new.done.items × (self.new.tail.items ≡ [])) }
    {
        if self.tail.is_empty() {
            return Ok(());
        }
        let bytes = mem::replace(&mut self.tail, Vec::new(alloc));
        self.done.push(Piece::Bytes(bytes))?;
        Ok(())
    }

    /// Adds a piece.
    fn push_piece(&mut self, alloc: Global, piece: Piece) -> Result<(), AllocError>
        requires { AreBytes (piece_cells piece) }
        ensures { (cells : List Cell) → HasCells cells self.old →
            OnOk result (HasCells (cells ++ piece_cells piece) self.new) }
    {
        self.close(alloc)?;
        self.done.push(piece)?;
        Ok(())
    }

    /// Adds so many bytes of poison.
    pub fn push_poison(&mut self, alloc: Global, count: u64) -> Result<(), AllocError>
        ensures { (cells : List Cell) → HasCells cells self.old →
            OnOk result (HasCells (cells ++ replicate count Unknown) self.new) }
    {
        if count == 0 {
            return Ok(());
        }
        self.push_piece(alloc, Piece::Poison(count))
    }

    /// Adds so many bytes that are zero.
    pub fn push_zeros(&mut self, alloc: Global, count: u64) -> Result<(), AllocError>
        ensures { (cells : List Cell) → HasCells cells self.old →
            OnOk result (HasCells (cells ++ replicate count (Byte 0)) self.new) }
    {
        self.push_piece(alloc, Piece::Zeros(count))
    }

    /// Adds these bytes.
    pub fn push_bytes(&mut self, bytes: &[u8]) -> Result<(), AllocError>
        ensures { (cells : List Cell) → HasCells cells self.old →
            OnOk result (HasCells (cells ++ map Byte bytes.now) self.new) }
    {
        for byte in bytes {
            self.tail.push(*byte)?;
        }
        Ok(())
    }

    /// Adds the bytes of a value of a type.
    pub fn push_value(&mut self, alloc: Global, ty: &Ty, value: Value) -> Result<(), AllocError>
        ensures { (names : List (List ℕ)) (cells : List Cell) → HasCells cells self.old →
            OnOk result (HasCells (cells
            ++ cells_of (access_of (ty_shape names ty.now)) (value_shape value)) self.new) }
    {
        match value {
            Value::Integer(_, number) => {
                let bytes = number.to_le_bytes();
                self.push_bytes(&bytes[..value_size(ty)])
            }
            Value::Address(p) => self.push_piece(alloc, Piece::Word(p)),
            Value::Poison => self.push_poison(alloc, value_size(ty) as u64),
        }
    }

    /// Gives the pieces.
    pub fn finish(mut self, alloc: Global) -> Result<GlobalBytes, AllocError>
        ensures { (cells : List Cell) → HasCells cells self →
            IfOk result (λ bytes. HoldsCells cells bytes.pieces.items) }
    {
        self.close(alloc)?;
        let Pieces { done, tail: _ } = self;
        Ok(GlobalBytes { pieces: done })
    }
}

/// Returns how many bytes a value of a type takes: an integer the least of 1, 2, 4 and 8 that it fits.
fn value_size(ty: &Ty) -> usize
    ensures size { (names : List (List ℕ)) →
        result ≡ access_size (access_of (ty_shape names ty.now)) }
    ensures small { result ≤ 8 }
{
    match ty {
        Ty::Int(bits) if *bits <= 8 => 1,
        Ty::Int(bits) if *bits <= 16 => 2,
        Ty::Int(bits) if *bits <= 32 => 4,
        Ty::Int(_) | Ty::Ptr => 8,
        Ty::Void | Ty::Array(..) | Ty::Struct(..) | Ty::Named(_) => 1,
    }
}
