//! A module while its items are read.

ghost use Rattle.std.specs.Prelude.{◌≡◌, ℕ, List, [], OnOk, true};
ghost use Rattle.ir_parse.specs.Drafts.{item_shape, item_known, item_lines, draft_shape, draft_known, with_last};
ghost use Rattle.ir_parse.specs.Spots.{lists_of, with_last_spot};

use crate::functions::SpottedFunction;
use crate::items::Item;
use ir_tree::module::{Declare, Function, GlobalItem, NamedTy};
use ir_tree::parsed::Spots;
use std::alloc::{AllocError, Global};

/// The items of a module so far, and where they begin.
#[derive(Debug, Drop)]
pub struct Draft {
    /// The named types.
    pub types: Vec<NamedTy>,
    /// The globals.
    pub globals: Vec<GlobalItem>,
    /// The declared functions.
    pub declares: Vec<Declare>,
    /// The defined functions.
    pub functions: Vec<Function>,
    /// Where they begin.
    pub spots: Spots,
}

impl Draft {
    /// Makes a table without items.
    pub fn new(alloc: Global) -> Draft
        ensures shape { (names : List (List ℕ)) →
            draft_shape names result ≡ record {
              types = [];
              globals = [];
              declares = [];
              functions =
                  [];
            } }
        ensures spots { lists_of result.spots ≡ record
            { types = []; globals = []; declares = []; functions = []; insts = [] } }
        ensures known { (count : ℕ) → draft_known count result ≡ true }
    {
        Draft {
            types: Vec::new(alloc),
            globals: Vec::new(alloc),
            declares: Vec::new(alloc),
            functions: Vec::new(alloc),
            spots: Spots {
                types: Vec::new(alloc),
                globals: Vec::new(alloc),
                declares: Vec::new(alloc),
                functions: Vec::new(alloc),
                insts: Vec::new(alloc),
            },
        }
    }

    /// Adds an item that begins at that offset, after those of its kind.
    pub fn add(&mut self, item: Item, spot: usize) -> Result<(), AllocError>
        ensures shape { (names : List (List ℕ)) → OnOk result
            (draft_shape names self.new ≡ with_last (item_shape names item) (draft_shape names self.old)) }
        ensures spots { (names : List (List ℕ)) → OnOk result
            (lists_of self.new.spots ≡ with_last_spot (item_shape names item) (record { spot = spot; lines = item_lines item }) (lists_of self.old.spots)) }
        ensures known { (count : ℕ) → draft_known count self.old ≡ true →
            item_known count item ≡ true → OnOk result (draft_known count self.new ≡ true) }
    {
        match item {
            Item::Named(item) => {
                self.types.push(item)?;
                self.spots.types.push(spot)?;
            }
            Item::Variable(item) => {
                self.globals.push(item)?;
                self.spots.globals.push(spot)?;
            }
            Item::Declared(item) => {
                self.declares.push(item)?;
                self.spots.declares.push(spot)?;
            }
            Item::Defined(item) => {
                let SpottedFunction { function, spots } = item;
                self.functions.push(function)?;
                self.spots.functions.push(spot)?;
                self.spots.insts.push(spots)?;
            }
        }
        Ok(())
    }
}
