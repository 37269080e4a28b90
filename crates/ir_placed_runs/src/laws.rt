//! The laws of places and of owned blocks.

ghost use Rattle.ir_model.specs.Programs.{Program};
ghost use Rattle.ir_model.specs.States.{State};
ghost use Rattle.ir_typed_runs.specs.Invariants.{IsInvariant, IsReached};
ghost use Rattle.ir_placed_runs.specs.OwnedBlocks.{HasOwnBlocks};
ghost use Rattle.ir_placed_runs.specs.Places.{IsWhole, HasPlaces, HasNext};

/// Proves that in each run a block of memory is live just while it is one of the start or an
/// activation owns it, and that no block is owned twice.
pub fn owned_blocks_stay()
    ensures stays { (p : Program) → IsInvariant p (HasOwnBlocks p) }
    ensures reached { (p : Program) (s : State) → IsReached p s → HasOwnBlocks p s }
{}

/// Proves that in each run of a whole program there is always a next instruction.
pub fn places_stay()
    ensures stays { (p : Program) → IsWhole p → IsInvariant p (HasPlaces p) }
    ensures next { (p : Program) (s : State) → HasPlaces p s → HasNext p s }
    ensures reached { (p : Program) (s : State) → IsWhole p → IsReached p s → HasNext p s }
{}
