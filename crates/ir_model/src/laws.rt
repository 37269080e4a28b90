//! The laws of memory and of runs.

ghost use Rattle.std.specs.Prelude.{◌≡◌, ℕ, ◌≤◌, List, None};
ghost use Rattle.ir_model.specs.declared.Access.{Access};
ghost use Rattle.ir_model.specs.Values.{Pointer, Value, MemoryBlock, Gives};
ghost use Rattle.ir_model.specs.Memory.{access_fault, load_at, stored};
ghost use Rattle.ir_model.specs.MemoryFacts.{Carries, ShareNoByte, KeepsBlocks};
ghost use Rattle.ir_model.specs.Programs.{Program};
ghost use Rattle.ir_model.specs.States.{State, Continues};
ghost use Rattle.ir_model.specs.Steps.{step};
ghost use Rattle.ir_model.specs.Runs.{HasEnded, run, EndsFrom, MeaningEnds};

/// Proves that a load finds what was stored at its place.
pub fn what_is_stored_is_loaded()
    ensures { (access : Access) (v : Value) (q : Pointer) (memory : List MemoryBlock) →
        Carries access v → access_fault access q memory ≡ None →
        load_at access q (stored access v q memory) ≡ Gives v }
{}

/// Proves that a store changes nothing of a load that shares no byte with it, nor where accesses fail.
pub fn stores_leave_the_rest()
    ensures loads { (access other : Access) (v : Value) (q r : Pointer)
        (memory : List MemoryBlock) → Carries access v → ShareNoByte access q other r →
        load_at other r (stored access v q memory) ≡ load_at other r memory }
    ensures faults { (access other : Access) (v : Value) (q r : Pointer)
        (memory : List MemoryBlock) →
        access_fault other r (stored access v q memory) ≡ access_fault other r memory }
{}

/// Proves that each step keeps the blocks of memory: their numbers, their sizes, and which are dead.
pub fn no_block_lives_again()
    ensures { (p : Program) (s t : State) → step p s ≡ Continues t →
        KeepsBlocks s.memory t.memory }
{}

/// Proves that a program which ends after some steps is found to end so by each run of as many steps or more.
pub fn an_ended_run_is_a_run()
    ensures { (p : Program) (n k : ℕ) (s : State) (out : List ℕ) (status : ℕ) →
        EndsFrom p n s out status → n ≤ k → run k p s ≡ HasEnded out status n }
{}

/// Proves that a program ends on an input in one way at most.
pub fn programs_end_once()
    ensures { (p : Program) (input : List ℕ) (n m : ℕ) (out others : List ℕ) (status other : ℕ) →
        MeaningEnds p input n out status → MeaningEnds p input m others other →
        (n ≡ m) × (out ≡ others) × (status ≡ other) }
{}
