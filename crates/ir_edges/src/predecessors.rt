//! For each node of a graph, the nodes from which an edge leads to it.

ghost use Rattle.std.specs.Prelude.{◌≡◌, ◌↔◌, ◌⊎◌, ℕ, [], ◌∷◌, map, replicate, OnOk, IfOk, Contains};
ghost use Rattle.ir_edges.specs.Tables.{ArePredecessors, HaveNoted};

use std::alloc::{AllocError, Global};

/// Notes that an edge leads from a node, unless that was noted last.
fn note(from: usize, row: &mut Vec<usize>) -> Result<(), AllocError>
    ensures { OnOk result ((x : ℕ) →
        Contains row.new.items x ↔ (Contains row.old.items x ⊎ (x ≡ from))) }
{
    if row.last() != Some(&from) {
        row.push(from)?;
    }
    Ok(())
}

/// Notes that an edge leads from a node to another one.
fn note_edge(from: usize, to: usize, rows: &mut Vec<Vec<usize>>) -> Result<(), AllocError>
    ensures { OnOk result (HaveNoted from (to ∷ []) (map (λ row. row.items) rows.old.items)
        (map (λ row. row.items) rows.new.items)) }
{
    if to < rows.len() {
        note(from, &mut rows[to])?;
    }
    Ok(())
}

/// Notes the edges that lead from a node to those of its row. An edge out of the graph is left out.
fn note_row(from: usize, to: &[usize], rows: &mut Vec<Vec<usize>>) -> Result<(), AllocError>
    ensures { OnOk result (HaveNoted from to.now (map (λ row. row.items) rows.old.items)
        (map (λ row. row.items) rows.new.items)) }
{
    for node in to {
        note_edge(from, *node, rows)?;
    }
    Ok(())
}

/// Returns so many rows without nodes.
fn empty_rows(alloc: Global, count: usize) -> Result<Vec<Vec<usize>>, AllocError>
    ensures { IfOk result (λ rows. map (λ row. row.items) rows.items ≡ replicate count []) }
{
    let mut rows = Vec::new(alloc);
    for _ in 0..count {
        rows.push(Vec::new(alloc))?;
    }
    Ok(rows)
}

/// Returns, for each node of a graph, the nodes from which an edge leads to it. An edge out of the graph is
/// left out.
pub fn predecessors_of(alloc: Global, graph: &[Vec<usize>]) -> Result<Vec<Vec<usize>>, AllocError>
    ensures { IfOk result (λ rows.
        ArePredecessors (map (λ row. row.items) graph.now) (map (λ row. row.items) rows.items)) }
{
    let mut rows = empty_rows(alloc, graph.len())?;
    for (from, to) in graph.iter().enumerate() {
        note_row(from, to, &mut rows)?;
    }
    Ok(rows)
}
