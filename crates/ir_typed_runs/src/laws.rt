//! The laws of runs of typed programs.

ghost use Rattle.std.specs.Prelude.{◌≡◌, ◌<◌, ℕ, List, ◌∷◌, length, Some};
ghost use Rattle.std.specs.List.{AllByRecursion, AllZip};
ghost use Rattle.ir_model.specs.declared.Access.{Access};
ghost use Rattle.ir_model.specs.Values.{Value, MemoryBlock};
ghost use Rattle.ir_model.specs.Operations.{Operation, compute};
ghost use Rattle.ir_model.specs.Programs.{Instruction, Program, block_in};
ghost use Rattle.ir_model.specs.States.{Activation, State, instruction_at};
ghost use Rattle.ir_model.specs.Steps.{loaded};
ghost use Rattle.ir_typed_runs.specs.Invariants.{IsInvariant, IsReached};
ghost use Rattle.ir_typed_runs.specs.Kinds.{Kind, IsOfKind, kind_of, HasKinds, Answers};
ghost use Rattle.ir_typed_runs.specs.TypedPrograms.{FunctionKinds, IsTyped};
ghost use Rattle.ir_typed_runs.specs.TypedStates.{IsTypedState, HasTypedCells, HasFittingOperands};
ghost use Rattle.ir_typed_runs.specs.TypedStates.{HasFittingInputs};

/// Proves that an operation gives a value of its kind for operands of the kinds that it takes.
pub fn operations_keep_kinds()
    ensures { (blocks : ℕ) (operation : Operation) (ks : List Kind) (kind : Kind)
        (memory : List MemoryBlock) (vs : List Value) → HasKinds operation ks kind →
        AllZip (IsOfKind blocks) ks vs → Answers blocks kind (compute operation memory vs) }
{}

/// Proves that what a load gives is of its access's kind.
pub fn loads_keep_kinds()
    ensures { (blocks : ℕ) (access : Access) (v : Value) (memory : List MemoryBlock) →
        0 < blocks → AllByRecursion (HasTypedCells blocks) memory →
        Answers blocks (kind_of access) (loaded access v memory) }
{}

/// Proves that a typed program's states are typed at the start, and that each step keeps them so.
pub fn typed_states_stay()
    ensures { (p : Program) (kinds : List FunctionKinds) → IsTyped p kinds →
        IsInvariant p (IsTypedState p kinds) }
{}

/// Proves that each state of each run of a typed program is typed.
pub fn reached_states_are_typed()
    ensures { (p : Program) (kinds : List FunctionKinds) (s : State) → IsTyped p kinds →
        IsReached p s → IsTypedState p kinds s }
{}

/// Proves that each instruction meets operands of kinds with which its action fits.
pub fn operands_fit()
    ensures { (p : Program) (kinds : List FunctionKinds) (s : State) (a : Activation)
        (rest : List Activation) (x : Instruction) → IsTyped p kinds →
        IsTypedState p kinds s → s.stack ≡ a ∷ rest → instruction_at p a ≡ Some x →
        HasFittingOperands p kinds (length s.memory) a x }
{}

/// Proves that each phi of a block takes a value of its kind from where an activation stands.
pub fn inputs_of_phis_fit()
    ensures { (p : Program) (kinds : List FunctionKinds) (s : State) (a : Activation)
        (rest : List Activation) (to : ℕ) → IsTyped p kinds → IsTypedState p kinds s →
        s.stack ≡ a ∷ rest → AllByRecursion (HasFittingInputs kinds (length s.memory) a)
        (block_in p a.function to).phis }
{}
