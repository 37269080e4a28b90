//! Whether values are there where they are used.

ghost use Rattle.std.specs.Prelude.{◌≡◌, ◌↔◌, ◌<◌, ℕ, List, length, map, true, Some, IsTrue, IfOk, Contains};
ghost use Rattle.std.specs.List.{list_all};
ghost use Rattle.ir_tree.specs.NameTable.{text_of, IsKnown};
ghost use Rattle.ir_tree.specs.Known.{name_known, body_known};
ghost use Rattle.ir_tree.specs.ShapeOf.{name_shape, body_shape};
ghost use Rattle.graph_paths.specs.Paths.{AlwaysPasses};
ghost use Rattle.ir_proper.specs.Edges.{successors};
ghost use Rattle.ir_proper.specs.Availability.{site_of, IsThere, IsThereAtEnd};
ghost use Rattle.ir_proper.specs.FlowRules.{AreThereAt};
ghost use Rattle.ir_flow.specs.Around.{names_of, function_of, IsAround};

use crate::around::Around;
use ir_edges::locals_of;
use ir_rules::Site;
use ir_tree::module::Body;
use ir_tree::names::NameId;
use std::alloc::{AllocError, Global};

impl<'a> Around<'a> {
    /// Tells whether each path to a block of the function has passed another one before.
    fn always_passes(&self, alloc: Global, before: usize, block: usize) -> Result<bool, AllocError>
        requires around { IsAround self.now }
        requires block { block < length self.now.function.now.blocks.items }
        ensures { IfOk result (λ answer.
            IsTrue answer ↔ AlwaysPasses (successors (function_of self.now)) before block) }
    {
        let paths = &self.edges.paths;
        paths.always_passes(alloc, &self.edges.successors, before, block)
    }

    /// Tells whether a value is there at the instruction of the second number in the block of the first.
    fn is_there(
        &self,
        alloc: Global,
        site: Site,
        block: usize,
        index: usize,
    ) -> Result<bool, AllocError>
        requires around { IsAround self.now }
        requires block { block < length self.now.function.now.blocks.items }
        ensures { IfOk result (λ answer.
            IsTrue answer ↔ IsThere (function_of self.now) site block index) }
    {
        match site {
            Site::Param(_) => Ok(true),
            Site::Inst(giver, at) if giver == block && at < index => Ok(true),
            Site::Inst(giver, _) => self.always_passes(alloc, giver, block),
        }
    }

    /// Tells whether a value is there at the end of a block.
    pub fn is_there_at_end(
        &self,
        alloc: Global,
        site: Site,
        block: usize,
    ) -> Result<bool, AllocError>
        requires around { IsAround self.now }
        requires block { block < length self.now.function.now.blocks.items }
        ensures { IfOk result (λ answer.
            IsTrue answer ↔ IsThereAtEnd (function_of self.now) site block) }
    {
        match site {
            Site::Param(_) => Ok(true),
            Site::Inst(giver, _) if giver == block => Ok(true),
            Site::Inst(giver, _) => self.always_passes(alloc, giver, block),
        }
    }

    /// Returns what gives the value that a name stands for.
    pub fn site_of(&self, id: NameId) -> Option<Site>
        requires around { IsAround self.now }
        requires known { IsKnown (names_of self.now) id.0 }
        ensures { result ≡ site_of (function_of self.now) (text_of (names_of self.now) id.0) }
    {
        match self.names.value_of(id) {
            Some(value) => self.names.site_of(value),
            None => None,
        }
    }

    /// Tells whether the value that a name stands for is there, if it stands for one.
    fn is_name_there(
        &self,
        alloc: Global,
        id: NameId,
        block: usize,
        index: usize,
    ) -> Result<bool, AllocError>
        requires around { IsAround self.now }
        requires block { block < length self.now.function.now.blocks.items }
        requires known { IsKnown (names_of self.now) id.0 }
        ensures { IfOk result (λ answer. IsTrue answer ↔ ((site : Site) →
            site_of (function_of self.now) (text_of (names_of self.now) id.0) ≡ Some site →
            IsThere (function_of self.now) site block index)) }
    {
        match self.site_of(id) {
            Some(site) => self.is_there(alloc, site, block, index),
            None => Ok(true),
        }
    }

    /// Tells whether the values that names stand for are there.
    fn are_names_there(
        &self,
        alloc: Global,
        ids: &[NameId],
        block: usize,
        index: usize,
    ) -> Result<bool, AllocError>
        requires around { IsAround self.now }
        requires block { block < length self.now.function.now.blocks.items }
        requires known { list_all (name_known (length (names_of self.now))) ids.now ≡ true }
        ensures { IfOk result (λ answer. IsTrue answer ↔ ((name : List ℕ) (site : Site) →
            Contains (map (name_shape (names_of self.now)) ids.now) name →
            site_of (function_of self.now) name ≡ Some site →
            IsThere (function_of self.now) site block index)) }
    {
        for id in ids {
            if !self.is_name_there(alloc, *id, block, index)? {
                return Ok(false);
            }
        }
        Ok(true)
    }

    /// Tells whether the values that an instruction uses are there.
    pub fn are_operands_there(
        &self,
        alloc: Global,
        body: &Body,
        block: usize,
        index: usize,
    ) -> Result<bool, AllocError>
        requires around { IsAround self.now }
        requires block { block < length self.now.function.now.blocks.items }
        requires known { body_known (length (names_of self.now)) body.now ≡ true }
        ensures { IfOk result (λ answer. IsTrue answer ↔
            AreThereAt (function_of self.now) block index (body_shape (names_of self.now) body.now)) }
    {
        let ids = locals_of(alloc, body)?;
        self.are_names_there(alloc, &ids, block, index)
    }
}
