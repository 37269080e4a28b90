//! The state of a run, and one step of it.

ghost use Rattle.std.specs.Prelude.{◌≡◌, ◌+◌, ◌<◌, ◌^◌, ℕ, List, ◌∷◌, map, drop, reverse, IfOk, OnOk, IfNone, IfSome, Some, None};
ghost use Rattle.std.specs.List.{AllByRecursion};
ghost use Rattle.ir_model.specs.Values as model;
ghost use Rattle.ir_model.specs.Memory.{all_ended};
ghost use Rattle.ir_model.specs.MemoryFacts.{Carries};
ghost use Rattle.ir_model.specs.Operations.{compute, operand};
ghost use Rattle.ir_model.specs.States.{after, goes_on, entered};
ghost use Rattle.ir_model.specs.Steps.{answered, roomed, loaded, stores, puts, gets, branches, branch_target, switch_target, finishes, returns, step};
ghost use Rattle.ir_typed_runs.specs.Kinds.{OfPointer, IsOfKind};
ghost use Rattle.ir_typed_runs.specs.TypedStates.{IsCalledBy};
ghost use Rattle.mem_cells.specs.Shapes.{value_shape, why_of};
ghost use Rattle.mem_cells.specs.Shown.{Shows, block_count};
ghost use Rattle.program_tables.specs.Shapes.{program_shape, operation_shape, case_shape};
ghost use Rattle.ir_compute.specs.Operands.{operand_values};
ghost use Rattle.ir_eval.specs.Shapes.{activation_shape, below, state_of};
ghost use Rattle.ir_eval.specs.Turns.{IsTurn, IsEnd, Does};
ghost use Rattle.ir_eval.specs.Computing.{Computes};
ghost use Rattle.ir_eval.specs.Ready.{IsReady};

use crate::activation::{Activation, entered};
use crate::enter::{case_of, enter};
use crate::outcome::Turn;
use crate::places::instruction_at;
use ir_compute::operand;
use ir_model::{Access, Why};
use mem_cells::{Fault, Mem, Pointer, Value};
use program_tables::{Action, Case, Operand, Operation, Program};
use std::alloc::{AllocError, Global};
use std::mem;

/// The state of a run.
#[derive(Drop)]
pub struct Machine {
    /// The innermost activation.
    pub current: Activation,
    /// Those that wait for it, each below the next one.
    pub waiting: Vec<Activation>,
    /// Memory.
    pub mem: Mem,
    /// How many bytes of the input have been read.
    pub place: usize,
    /// The output so far.
    pub output: Vec<u8>,
    /// Room for what phis take.
    pub scratch: Vec<Value>,
}

impl Machine {
    /// Does what the instruction does at which the innermost activation stands.
    #[tactic(auto, unfolding(ir_model::specs::Steps::step, ir_model::specs::Steps::act))]
    pub fn step(&mut self, alloc: Global, p: &Program, input: &[u8]) -> Result<Turn, AllocError>
        requires { IsReady p.now input.now self.old }
        ensures { IfOk result (λ turn. (memory : List model.MemoryBlock) →
            Shows memory self.old.mem → IsTurn input.now turn
            (step (program_shape p.now) (state_of input.now memory self.old))
            self.old.output.items self.new) }
    {
        let Some(instruction) = instruction_at(p, &self.current) else {
            return Ok(Turn::Undefined(Why::Unreachable));
        };
        let given = instruction.result;
        let operands = instruction.operands.as_slice();
        match &instruction.action {
            Action::Compute(operation) => Ok(self.compute(operation, given, operands)),
            Action::Alloca { size } => self.make_room(alloc, *size, given),
            Action::Load(access) => Ok(self.load(*access, given, operands)),
            Action::Store(access) => Ok(self.store(*access, operands)),
            Action::Call { function } => self.call(alloc, p, *function, operands),
            Action::PutChar => self.put_char(given, operands),
            Action::GetChar => Ok(self.get_char(input, given)),
            Action::Jump { to } => self.go_to(p, Some(*to)),
            Action::Branch { met, unmet } => {
                let target = branch_target(*met, *unmet, self.operand(0, operands));
                self.go_to(p, target)
            }
            Action::Switch { otherwise, cases } => {
                let target = switch_target(*otherwise, cases.as_slice(), self.operand(0, operands));
                self.go_to(p, target)
            }
            Action::ReturnVoid => Ok(self.return_value(alloc, p, Value::Poison)),
            Action::Return => {
                let value = self.operand(0, operands);
                Ok(self.return_value(alloc, p, value))
            }
            Action::Unreachable => Ok(Turn::Undefined(Why::Unreachable)),
        }
    }

    /// Returns the value of the operand of a number.
    fn operand(&self, k: usize, operands: &[Operand]) -> Value
        ensures { value_shape result ≡
            operand k (operand_values self.now.current.values.items operands.now) }
    {
        operand(k, operands, self.current.values.as_slice())
    }

    /// Goes on after an instruction that gave a value.
    fn go_on(&mut self, given: Option<usize>, value: Value) -> Turn
        requires { self.old.current.position + 1 < 2 ^ 64 }
        ensures { Does result self.old self.new
            (λ a rest s. goes_on (after given (value_shape value) a) rest s) }
    {
        self.current.go_on(given, value);
        Turn::Goes
    }

    /// Computes a value, if something takes it.
    fn compute(&mut self, operation: &Operation, given: Option<usize>, operands: &[Operand]) -> Turn
        requires stands { self.old.current.position + 1 < 2 ^ 64 }
        requires fits { Computes (block_count self.old.mem) (operation_shape operation.now) given
            (operand_values self.old.current.values.items operands.now) }
        ensures { let vs = operand_values self.old.current.values.items operands.now in
            Does result self.old self.new (λ a rest s.
            answered (compute (operation_shape operation.now) s.memory vs) given a rest s) }
    {
        // What nothing takes may be wider than values are. A conversion always has a value.
        if let (Operation::Convert { .. }, None) = (operation, given) {
            return self.go_on(given, Value::Poison);
        }
        match ir_compute::compute(
            operation,
            operands,
            self.current.values.as_slice(),
            &self.mem,
        ) {
            Ok(value) => self.go_on(given, value),
            Err(why) => Turn::Undefined(why),
        }
    }

    /// Makes room of so many bytes, which is the activation's until it returns.
    fn make_room(
        &mut self,
        alloc: Global,
        size: u64,
        given: Option<usize>,
    ) -> Result<Turn, AllocError>
        requires { self.old.current.position + 1 < 2 ^ 64 }
        ensures { IfOk result (λ turn. Does turn self.old self.new (roomed size given)) }
    {
        let block = self.mem.make(alloc, size)?;
        self.current.owned.push(block)?;
        Ok(self.go_on(given, Value::Address(Pointer { block, offset: 0 })))
    }

    /// Loads from an address.
    fn load(&mut self, access: Access, given: Option<usize>, operands: &[Operand]) -> Turn
        requires stands { self.old.current.position + 1 < 2 ^ 64 }
        requires address { IsOfKind (block_count self.old.mem) OfPointer
            (operand 0 (operand_values self.old.current.values.items operands.now)) }
        ensures { let vs = operand_values self.old.current.values.items operands.now in
            Does result self.old self.new (λ a rest s.
            answered (loaded access (operand 0 vs) s.memory) given a rest s) }
    {
        let Value::Address(at) = self.operand(0, operands) else {
            return Turn::Undefined(Why::Poison);
        };
        match self.mem.load(at, access) {
            Ok(value) => self.go_on(given, value),
            Err(fault) => Turn::Undefined(why_of(fault)),
        }
    }

    /// Stores a value at an address.
    fn store(&mut self, access: Access, operands: &[Operand]) -> Turn
        requires stands { self.old.current.position + 1 < 2 ^ 64 }
        requires value { Carries access
            (operand 0 (operand_values self.old.current.values.items operands.now)) }
        requires address { IsOfKind (block_count self.old.mem) OfPointer
            (operand 1 (operand_values self.old.current.values.items operands.now)) }
        ensures { let vs = operand_values self.old.current.values.items operands.now in
            Does result self.old self.new (stores access (operand 0 vs) (operand 1 vs)) }
    {
        let value = self.operand(0, operands);
        let Value::Address(at) = self.operand(1, operands) else {
            return Turn::Undefined(Why::Poison);
        };
        match self.mem.store(at, access, value) {
            Ok(()) => self.go_on(None, Value::Poison),
            Err(fault) => Turn::Undefined(why_of(fault)),
        }
    }

    /// Calls a function with operands as arguments.
    fn call(
        &mut self,
        alloc: Global,
        p: &Program,
        function: usize,
        operands: &[Operand],
    ) -> Result<Turn, AllocError>
        ensures { let vs = operand_values self.old.current.values.items operands.now in
            IfOk result (λ turn. Does turn self.old self.new (λ a rest s.
            goes_on (entered (program_shape p.now) function vs) (a ∷ rest) s)) }
    {
        let callee = entered(alloc, p, function, operands, self.current.values.as_slice())?;
        let caller = mem::replace(&mut self.current, callee);
        self.waiting.push(caller)?;
        Ok(Turn::Goes)
    }

    /// Puts out the lowest byte of a number, and gives it back.
    fn put_char(&mut self, given: Option<usize>, operands: &[Operand]) -> Result<Turn, AllocError>
        requires { self.old.current.position + 1 < 2 ^ 64 }
        ensures { let vs = operand_values self.old.current.values.items operands.now in
            IfOk result (λ turn. Does turn self.old self.new (puts (operand 0 vs) given)) }
    {
        let Value::Integer(_, number) = self.operand(0, operands) else {
            return Ok(Turn::Undefined(Why::Poison));
        };
        let byte = (number % 256) as u8;
        self.output.push(byte)?;
        Ok(self.go_on(given, Value::Integer(32, u64::from(byte))))
    }

    /// Reads a byte; at the end of the input it is -1.
    fn get_char(&mut self, input: &[u8], given: Option<usize>) -> Turn
        requires { self.old.current.position + 1 < 2 ^ 64 }
        ensures { (memory : List model.MemoryBlock) → Shows memory self.old.mem →
            IsTurn input.now result (gets (drop self.old.place input.now) given
            (activation_shape self.old.current) (below self.old)
            (state_of input.now memory self.old)) self.old.output.items self.new }
    {
        let Some(byte) = input.get(self.place) else {
            return self.go_on(given, Value::Integer(32, u64::from(u32::MAX)));
        };
        self.place += 1;
        self.go_on(given, Value::Integer(32, u64::from(*byte)))
    }

    /// Goes to a block, or has no meaning where there is none since the branch hangs on poison.
    fn go_to(&mut self, p: &Program, target: Option<usize>) -> Result<Turn, AllocError>
        ensures { IfOk result (λ turn. Does turn self.old self.new
            (branches (program_shape p.now) target)) }
    {
        let Some(to) = target else {
            return Ok(Turn::Undefined(Why::Poison));
        };
        enter(p, to, &mut self.current, &mut self.scratch)?;
        Ok(Turn::Goes)
    }

    /// Returns a value to the activation that waits for it, or ends the program where none does.
    fn return_value(&mut self, alloc: Global, p: &Program, value: Value) -> Turn
        requires owned { AllByRecursion (λ k. k < block_count self.old.mem)
            self.old.current.owned.items }
        requires called { IsCalledBy (program_shape p.now) self.old.current.function
            (below self.old) }
        ensures { Does result self.old self.new
            (returns (program_shape p.now) (value_shape value)) }
    {
        let Some(caller) = self.waiting.pop() else {
            return finish(value);
        };
        let callee = mem::replace(&mut self.current, caller);
        end_all(alloc, callee.owned, &mut self.mem);
        let given = instruction_at(p, &self.current).and_then(|call| call.result);
        self.go_on(given, value)
    }
}

/// Ends the program with the lowest byte of a number as its status.
fn finish(value: Value) -> Turn
    ensures { IsEnd result (finishes (value_shape value)) }
{
    match value {
        Value::Integer(_, number) => Turn::Ends((number % 256) as u8),
        Value::Address(_) | Value::Poison => Turn::Undefined(Why::Poison),
    }
}

/// Ends blocks of memory, the youngest first.
fn end_all(alloc: Global, mut owned: Vec<u64>, mem: &mut Mem)
    requires { AllByRecursion (λ k. k < block_count mem.old) owned.items }
    ensures { (memory : List model.MemoryBlock) → Shows memory mem.old →
        Shows (all_ended (reverse owned.items) memory) mem.new }
{
    while let Some(block) = owned.pop() {
        mem.end(alloc, block);
    }
}

/// Returns why a program has no meaning after a fault.
fn why_of(fault: Fault) -> Why
    ensures { result ≡ why_of fault }
{
    match fault {
        Fault::OutOfBounds => Why::OutOfBounds,
        Fault::Dead => Why::Dead,
    }
}

/// Returns where a branch leads.
fn branch_target(met: usize, unmet: usize, condition: Value) -> Option<usize>
    ensures { result ≡ branch_target met unmet (value_shape condition) }
{
    match condition {
        Value::Integer(_, number) => Some(if number == 0 { unmet } else { met }),
        Value::Address(_) | Value::Poison => None,
    }
}

/// Returns where a switch leads.
fn switch_target(otherwise: usize, cases: &[Case], value: Value) -> Option<usize>
    ensures { result ≡ switch_target otherwise (map case_shape cases.now) (value_shape value) }
{
    match value {
        Value::Integer(_, number) => Some(case_of(number, otherwise, cases)),
        Value::Address(_) | Value::Poison => None,
    }
}
