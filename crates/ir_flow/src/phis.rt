//! Whether the inputs of a phi are proper.

ghost use Rattle.std.specs.Prelude.{◌≡◌, ◌↔◌, ◌<◌, ℕ, length, true, Some, slice_get, IsTrue, IfOk};
ghost use Rattle.std.specs.List.{list_all};
ghost use Rattle.ir_tree.specs.NameTable.{text_of, IsKnown};
ghost use Rattle.ir_tree.specs.Known.{phi_in_known};
ghost use Rattle.ir_tree.specs.Shape.{PhiInShape};
ghost use Rattle.ir_tree.specs.ShapeOf.{phi_in_shape};
ghost use Rattle.ir_rules.specs.Values.{block_of};
ghost use Rattle.ir_proper.specs.Availability.{site_of, IsThereAtEnd};
ghost use Rattle.ir_proper.specs.FlowRules.{ComeFromPredecessors, AreThereAtEnds};
ghost use Rattle.ir_flow.specs.Around.{names_of, function_of, inputs_of, predecessors_in, IsAround};
ghost use Rattle.ir_flow.specs.Places.{ArePlaces};
ghost use Rattle.ir_flow.specs.Phis.{AreAlike, IsLike, froms_of, IsInputThere};

use crate::around::Around;
use crate::places::{have_places, places_of};
use ir_rules::Site;
use ir_same::same_val;
use ir_tree::module::{PhiIn, Val};
use ir_tree::names::NameId;
use std::alloc::{AllocError, Global};
use std::collections::BTreeMap;

impl<'a> Around<'a> {
    /// Returns, for each input of a phi, the block that it comes from; the number of blocks, where its label stands
    /// for none.
    fn blocks_from(&self, alloc: Global, inputs: &[PhiIn]) -> Result<Vec<usize>, AllocError>
        requires around { IsAround self.now }
        requires known { list_all (phi_in_known (length (names_of self.now))) inputs.now ≡ true }
        ensures { IfOk result (λ from.
            from.items ≡ froms_of (function_of self.now) (inputs_of self.now inputs.now)) }
    {
        let mut from = Vec::new(alloc);
        for input in inputs {
            let block = self.names.block_of(input.from);
            from.push(block.unwrap_or(self.function.blocks.len()))?;
        }
        Ok(from)
    }

    /// Tells whether the inputs of two numbers have the same value.
    fn have_same_val(&self, inputs: &[PhiIn], one: usize, other: usize) -> bool
        requires around { IsAround self.now }
        requires known { list_all (phi_in_known (length (names_of self.now))) inputs.now ≡ true }
        requires one { one < length inputs.now }
        requires other { other < length inputs.now }
        ensures { (x y : PhiInShape) → slice_get (inputs_of self.now inputs.now) one ≡ Some x →
            slice_get (inputs_of self.now inputs.now) other ≡ Some y →
            IsTrue result ↔ (x.val ≡ y.val) }
    {
        same_val(&inputs[one].val, &inputs[other].val)
    }

    /// Tells whether the value of the input of a number is the same as that of the one whose place a map has for its
    /// block.
    fn is_like(
        &self,
        inputs: &[PhiIn],
        from: &[usize],
        places: &BTreeMap<usize, usize>,
        at: usize,
    ) -> bool
        requires around { IsAround self.now }
        requires known { list_all (phi_in_known (length (names_of self.now))) inputs.now ≡ true }
        requires long { length from.now ≡ length inputs.now }
        requires places { ArePlaces from.now places.now }
        requires at { at < length inputs.now }
        ensures { IsTrue result ↔ IsLike (inputs_of self.now inputs.now) from.now places.now at }
    {
        match places.get(&from[at]) {
            Some(other) => self.have_same_val(inputs, *other, at),
            None => true,
        }
    }

    /// Tells whether inputs from one block have the same value, where a map has a place for each block.
    fn are_alike(&self, inputs: &[PhiIn], from: &[usize], places: &BTreeMap<usize, usize>) -> bool
        requires around { IsAround self.now }
        requires known { list_all (phi_in_known (length (names_of self.now))) inputs.now ≡ true }
        requires long { length from.now ≡ length inputs.now }
        requires places { ArePlaces from.now places.now }
        ensures { IsTrue result ↔ AreAlike (inputs_of self.now inputs.now) from.now }
    {
        for at in 0..inputs.len() {
            if !self.is_like(inputs, from, places, at) {
                return false;
            }
        }
        true
    }

    /// Tells whether the inputs of a phi come from the predecessors of its block, which a map has as keys.
    pub fn come_from_predecessors(
        &self,
        alloc: Global,
        inputs: &[PhiIn],
        block: usize,
        predecessors: &BTreeMap<usize, usize>,
    ) -> Result<bool, AllocError>
        requires around { IsAround self.now }
        requires known { list_all (phi_in_known (length (names_of self.now))) inputs.now ≡ true }
        requires block { block < length self.now.function.now.blocks.items }
        requires keys { ArePlaces (predecessors_in self.now block) predecessors.now }
        ensures { IfOk result (λ answer. IsTrue answer ↔
            ComeFromPredecessors (function_of self.now) block (inputs_of self.now inputs.now)) }
    {
        let from = self.blocks_from(alloc, inputs)?;
        let places = places_of(alloc, &from)?;
        let all = have_places(&self.edges.predecessors[block], &places);
        let each = have_places(&from, predecessors);
        Ok(all && each && self.are_alike(inputs, &from, &places))
    }

    /// Tells whether a value is there at the end of the block that a label stands for, if it stands for one.
    fn is_there_from(&self, alloc: Global, site: Site, label: NameId) -> Result<bool, AllocError>
        requires around { IsAround self.now }
        requires known { IsKnown (names_of self.now) label.0 }
        ensures { IfOk result (λ answer. IsTrue answer ↔ ((from : ℕ) →
            block_of (function_of self.now) (text_of (names_of self.now) label.0) ≡ Some from →
            IsThereAtEnd (function_of self.now) site from)) }
    {
        match self.names.block_of(label) {
            Some(from) => self.is_there_at_end(alloc, site, from),
            None => Ok(true),
        }
    }

    /// Tells whether the value that a name stands for is there at the end of the block that a label stands for.
    fn is_local_there(&self, alloc: Global, id: NameId, label: NameId) -> Result<bool, AllocError>
        requires around { IsAround self.now }
        requires value { IsKnown (names_of self.now) id.0 }
        requires label { IsKnown (names_of self.now) label.0 }
        ensures { IfOk result (λ answer. IsTrue answer ↔ ((site : Site) (from : ℕ) →
            site_of (function_of self.now) (text_of (names_of self.now) id.0) ≡ Some site →
            block_of (function_of self.now) (text_of (names_of self.now) label.0) ≡ Some from →
            IsThereAtEnd (function_of self.now) site from)) }
    {
        match self.site_of(id) {
            Some(site) => self.is_there_from(alloc, site, label),
            None => Ok(true),
        }
    }

    /// Tells whether the value that a phi takes is there at the end of the block that it comes from.
    fn is_input_there(&self, alloc: Global, input: &PhiIn) -> Result<bool, AllocError>
        requires around { IsAround self.now }
        requires known { phi_in_known (length (names_of self.now)) input.now ≡ true }
        ensures { IfOk result (λ answer. IsTrue answer ↔
            IsInputThere (function_of self.now) (phi_in_shape (names_of self.now) input.now)) }
    {
        match input.val {
            Val::Local(id) => self.is_local_there(alloc, id, input.from),
            Val::Fixed(_) => Ok(true),
        }
    }

    /// Tells whether each value that a phi takes is there at the end of the block that it comes from.
    pub fn are_inputs_there(&self, alloc: Global, inputs: &[PhiIn]) -> Result<bool, AllocError>
        requires around { IsAround self.now }
        requires known { list_all (phi_in_known (length (names_of self.now))) inputs.now ≡ true }
        ensures { IfOk result (λ answer. IsTrue answer ↔
            AreThereAtEnds (function_of self.now) (inputs_of self.now inputs.now)) }
    {
        for input in inputs {
            if !self.is_input_there(alloc, input)? {
                return Ok(false);
            }
        }
        Ok(true)
    }
}
