//! Instructions.

ghost use Rattle.std.specs.Prelude.{◌≡◌, ◌↔◌, ℕ, List, true, IsTrue, IfOk};
ghost use Rattle.ir_tree.specs.Known.{body_known, inst_known};
ghost use Rattle.ir_tree.specs.Shape.{void};
ghost use Rattle.ir_tree.specs.ShapeOf.{body_shape, inst_shape};
ghost use Rattle.ir_rules.specs.Instructions.{IsWellTyped};
ghost use Rattle.ir_rules.specs.TypeRules.{IsProperInst, is_alloca};
ghost use Rattle.ir_rules.specs.Values.{result_ty as result_ty_of};
ghost use Rattle.ir_check_insts.specs.Surroundings.{names_of, around_shape, count_of, IsAround};

use crate::around::Around;
use ir_names::result_ty;
use ir_tree::module::{Body, Inst};
use std::alloc::{AllocError, Global};

/// Tells whether an instruction may stand in the block of this number: an `alloca` in the first one alone.
fn is_in_place(block: usize, body: &Body) -> bool
    ensures { (names : List (List ℕ)) → IsTrue result ↔
        (is_alloca (body_shape names body.now) ≡ true → block ≡ 0) }
{
    block == 0 || !matches!(body, Body::Alloca(_, _))
}

/// Tells whether an instruction has no name, or gives a value that has it.
fn names_a_value(inst: &Inst) -> bool
    ensures { (names : List (List ℕ)) → IsTrue result ↔
        (result_ty_of (body_shape names inst.now.body) ≡ void →
        (inst_shape names inst.now).result ≡ None) }
{
    inst.result.is_none() || !result_ty(&inst.body).is_void()
}

impl<'a> Around<'a> {
    /// Tells whether what an instruction does is well typed.
    pub fn is_well_typed(&self, alloc: Global, body: &Body) -> Result<bool, AllocError>
        requires around { IsAround self.now }
        requires known { body_known (count_of self.now) body.now ≡ true }
        ensures { IfOk result (λ is. IsTrue is ↔
            IsWellTyped (around_shape self.now) (body_shape (names_of self.now) body.now)) }
    {
        match body {
            Body::Phi(ty, inputs) => Ok(self.is_phi(ty, inputs)),
            Body::Binary(_, _, ty, left, right) => Ok(self.is_binary(ty, left, right)),
            Body::Icmp(_, ty, left, right) => Ok(self.is_icmp(ty, left, right)),
            Body::Select(condition, met, unmet) => Ok(self.is_select(condition, met, unmet)),
            Body::Convert(conversion, ty, val, to) => Ok(self.is_convert(*conversion, ty, val, to)),
            Body::Freeze(ty, val) => Ok(self.is_freeze(ty, val)),
            Body::Alloca(ty, count) => Ok(self.is_alloca(ty, *count)),
            Body::Load(ty, at) => Ok(self.is_load(ty, at)),
            Body::Store(value, at) => Ok(self.is_store(value, at)),
            Body::Gep(_, ty, base, indices) => Ok(self.is_gep(ty, base, indices)),
            Body::Call(ret, callee, arguments) => Ok(self.is_call(ret, callee, arguments)),
            Body::Jump(_) | Body::Unreachable => Ok(true),
            Body::Branch(condition, _, _) => Ok(self.is_branch(condition)),
            Body::Switch(value, _, cases) => self.is_switch(alloc, value, cases),
            Body::RetVoid => Ok(self.is_return_void()),
            Body::Ret(value) => Ok(self.is_return(value)),
        }
    }

    /// Tells whether an instruction is proper in the block of this number: an `alloca` stands in the first
    /// block, a name is given to a value, and what it does is well typed.
    pub fn is_proper(&self, alloc: Global, block: usize, inst: &Inst) -> Result<bool, AllocError>
        requires around { IsAround self.now }
        requires known { inst_known (count_of self.now) inst.now ≡ true }
        ensures { IfOk result (λ is. IsTrue is ↔
            IsProperInst (around_shape self.now) block (inst_shape (names_of self.now) inst.now)) }
    {
        if !is_in_place(block, &inst.body) || !names_a_value(inst) {
            return Ok(false);
        }
        self.is_well_typed(alloc, &inst.body)
    }
}
