//! The edges between the blocks of a function, in tables that are made once.

ghost use Rattle.std.specs.Prelude.{◌≡◌, List, ℕ, true, length, IfOk};
ghost use Rattle.ir_tree.specs.Known.{function_known};
ghost use Rattle.ir_tree.specs.ShapeOf.{function_shape};
ghost use Rattle.ir_names.specs.Tables.{AreNamesIn};
ghost use Rattle.ir_flow.specs.Around.{AreEdgesOf};

use graph_paths::Paths;
use ir_edges::{predecessors_of, successors_of};
use ir_names::FunctionNames;
use ir_tree::module::Function;
use std::alloc::{AllocError, Global};

/// The edges between the blocks of a function.
#[derive(Drop)]
pub struct Edges {
    /// For each block the blocks that it leads to, as often as it names them.
    pub successors: Vec<Vec<usize>>,
    /// For each block the blocks that lead to it, each once.
    pub predecessors: Vec<Vec<usize>>,
    /// What all paths along these edges pass.
    pub paths: Paths,
}

impl Edges {
    /// Enters the edges between the blocks of a function, by its names.
    pub fn of_function(
        alloc: Global,
        f: &Function,
        names: &FunctionNames,
    ) -> Result<Edges, AllocError>
        ensures { IfOk result (λ edges. (all : List (List ℕ)) → AreNamesIn all f.now names.now →
            function_known (length all) f.now ≡ true → AreEdgesOf (function_shape all f.now) edges) }
    {
        let successors = successors_of(alloc, f, names)?;
        let predecessors = predecessors_of(alloc, &successors)?;
        let paths = Paths::of_graph(alloc, &successors)?;
        Ok(Edges {
            successors,
            predecessors,
            paths,
        })
    }
}
