//! Modules with the places of their items in the text.
ghost use Rattle.std.specs.Prelude.{◌≡◌, length, map};

use crate::module::Module;

/// The byte offset of the first token of each item and of each instruction of a module.
#[derive(Debug, Drop)]
pub struct Spots {
    /// Of each named type.
    pub types: Vec<usize>,
    /// Of each global.
    pub globals: Vec<usize>,
    /// Of each declared function.
    pub declares: Vec<usize>,
    /// Of each defined function.
    pub functions: Vec<usize>,
    /// Of each instruction, by function and block.
    pub insts: Vec<Vec<Vec<usize>>>,
}

/// A module as it was read. There is one spot for each item and each instruction.
#[derive(Drop)]
pub struct Parsed {
    /// The module.
    pub module: Module,
    /// Where its parts stand in the text.
    pub spots: Spots,
    ghost types_spotted: { length spots.types.items ≡ length «module».types.items },
    ghost globals_spotted: { length spots.globals.items ≡ length «module».globals.items },
    ghost declares_spotted: { length spots.declares.items ≡ length «module».declares.items },
    ghost functions_spotted: { length spots.functions.items ≡ length «module».functions.items },
    ghost insts_spotted: { map (λ f. map (λ b. length b.items) f.items) spots.insts.items
        ≡ map (λ f. map (λ b. length b.insts.items) f.blocks.items) «module».functions.items },
}
