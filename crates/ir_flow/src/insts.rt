//! Whether the flow at an instruction is proper.

ghost use Rattle.std.specs.Prelude.{◌≡◌, ◌↔◌, ◌<◌, ℕ, List, length, map, true, Some, is_some, IsTrue, IfOk, Contains};
ghost use Rattle.std.specs.List.{list_all};
ghost use Rattle.ir_tree.specs.NameTable.{text_of, IsKnown};
ghost use Rattle.ir_tree.specs.Known.{name_known, body_known, inst_known};
ghost use Rattle.ir_tree.specs.ShapeOf.{name_shape, body_shape, inst_shape};
ghost use Rattle.ir_rules.specs.Values.{block_of};
ghost use Rattle.ir_proper.specs.Edges.{targets};
ghost use Rattle.ir_proper.specs.FlowRules.{phi_inputs, HasOperands, HasProperFlow};
ghost use Rattle.ir_flow.specs.Around.{names_of, function_of, predecessors_in, IsAround};
ghost use Rattle.ir_flow.specs.Places.{ArePlaces};

use crate::around::Around;
use ir_edges::targets_of;
use ir_tree::module::{Body, Inst};
use ir_tree::names::NameId;
use std::alloc::{AllocError, Global};
use std::collections::BTreeMap;

impl<'a> Around<'a> {
    /// Tells whether a label is that of the first block.
    fn is_first(&self, label: NameId) -> bool
        requires around { IsAround self.now }
        requires known { IsKnown (names_of self.now) label.0 }
        ensures { IsTrue result ↔
            (block_of (function_of self.now) (text_of (names_of self.now) label.0) ≡ Some 0) }
    {
        self.names.block_of(label) == Some(0)
    }

    /// Tells whether none of some labels is that of the first block.
    fn avoid_first(&self, labels: &[NameId]) -> bool
        requires around { IsAround self.now }
        requires known { list_all (name_known (length (names_of self.now))) labels.now ≡ true }
        ensures { IsTrue result ↔ ((name : List ℕ) →
            Contains (map (name_shape (names_of self.now)) labels.now) name →
            block_of (function_of self.now) name ≡ Some 0 → ⊥) }
    {
        for label in labels {
            if self.is_first(*label) {
                return false;
            }
        }
        true
    }

    /// Tells whether an instruction doesn't lead to the first block.
    fn leads_on(&self, alloc: Global, body: &Body) -> Result<bool, AllocError>
        requires around { IsAround self.now }
        requires known { body_known (length (names_of self.now)) body.now ≡ true }
        ensures { IfOk result (λ answer. IsTrue answer ↔ ((name : List ℕ) →
            Contains (targets (body_shape (names_of self.now) body.now)) name →
            block_of (function_of self.now) name ≡ Some 0 → ⊥)) }
    {
        let labels = targets_of(alloc, body)?;
        Ok(self.avoid_first(&labels))
    }

    /// Tells whether the operands of an instruction are proper: of a phi its inputs, else the values that it uses.
    fn has_operands(
        &self,
        alloc: Global,
        body: &Body,
        block: usize,
        index: usize,
        predecessors: &BTreeMap<usize, usize>,
    ) -> Result<bool, AllocError>
        requires around { IsAround self.now }
        requires known { body_known (length (names_of self.now)) body.now ≡ true }
        requires block { block < length self.now.function.now.blocks.items }
        requires keys { ArePlaces (predecessors_in self.now block) predecessors.now }
        ensures { IfOk result (λ answer. IsTrue answer ↔
            HasOperands (function_of self.now) block index (body_shape (names_of self.now) body.now)
            (phi_inputs (body_shape (names_of self.now) body.now))) }
    {
        match body {
            Body::Phi(_, inputs) => {
                let come = self.come_from_predecessors(alloc, inputs, block, predecessors)?;
                Ok(come && self.are_inputs_there(alloc, inputs)?)
            }
            _ => self.are_operands_there(alloc, body, block, index),
        }
    }

    /// Tells whether the flow at the instruction of the second number in the block of the first is proper, where a
    /// map has the predecessors of the block as keys.
    pub fn has_proper_flow(
        &self,
        alloc: Global,
        inst: &Inst,
        block: usize,
        index: usize,
        predecessors: &BTreeMap<usize, usize>,
    ) -> Result<bool, AllocError>
        requires around { IsAround self.now }
        requires known { inst_known (length (names_of self.now)) inst.now ≡ true }
        requires block { block < length self.now.function.now.blocks.items }
        requires keys { ArePlaces (predecessors_in self.now block) predecessors.now }
        ensures { IfOk result (λ answer. IsTrue answer ↔ HasProperFlow (function_of self.now)
            block index (inst_shape (names_of self.now) inst.now)) }
    {
        if !self.leads_on(alloc, &inst.body)? {
            return Ok(false);
        }
        if block == 0 && is_phi(&inst.body) {
            return Ok(false);
        }
        self.has_operands(alloc, &inst.body, block, index, predecessors)
    }
}

/// Tells whether an instruction is a phi.
fn is_phi(body: &Body) -> bool
    ensures { (names : List (List ℕ)) →
        result ≡ is_some (phi_inputs (body_shape names body.now)) }
{
    matches!(body, Body::Phi(_, _))
}
