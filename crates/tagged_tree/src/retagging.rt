//! Tags taken away, and tags given anew.
ghost use Rattle.std.specs.Prelude.{◌≡◌, IfOk, map};
ghost use Rattle.tagged_tree.specs.Runs.{RunOf};
ghost use Rattle.tagged_tree.specs.TreeShape.{erased, tags, row_tags, tree_row};
ghost use Rattle.tagged_tree.specs.ShapeOf.{tree_shape};

use crate::tags::{Retag, Tag};
use crate::tree::Tree;
use std::alloc::{AllocError, Global};

/// Returns the same tree with every tag `()`.
#[cycle(erase)]
pub fn erase<T: Tag>(alloc: Global, tree: &Tree<T>) -> Result<Tree<()>, AllocError>
    ensures { IfOk result (λ plain. tree_shape plain ≡ erased (tree_shape tree.now)) }
{
    match tree {
        Tree::Leaf(id, _) => Ok(Tree::Leaf(*id, ())),
        Tree::Lit(word, _) => Ok(Tree::Lit(*word, ())),
        Tree::Addr(id, offset, _) => Ok(Tree::Addr(*id, *offset, ())),
        Tree::Node(op, id, children, _) => {
            let children = erase_all(alloc, children)?;
            Ok(Tree::Node(op.copy(alloc)?, *id, children, ()))
        }
    }
}

/// Returns the same trees with every tag `()`.
#[cycle(erase)]
fn erase_all<T: Tag>(alloc: Global, row: &[Tree<T>]) -> Result<Vec<Tree<()>>, AllocError>
    ensures { IfOk result (λ plain. map tree_shape plain.items ≡ map erased (map tree_shape row.now)) }
{
    let mut plain = Vec::new(alloc);
    for tree in row {
        plain.push(erase(alloc, tree)?)?;
    }
    Ok(plain)
}

/// Returns the tree with new tags, which `by` gives: that of the root, then those of the children from left to right.
///
/// After want of memory `by` may have given some of the tags.
#[cycle(retag)]
pub fn retag<A: Tag, B: Tag, R: Retag<A, B>>(
    alloc: Global,
    tree: &Tree<A>,
    by: &mut R,
) -> Result<Tree<B>, AllocError>
    ensures erased { IfOk result (λ new. erased (tree_shape new) ≡ erased (tree_shape tree.now)) }
    ensures tags { IfOk result (λ new. RunOf R.leads by.old
        (tags (tree_shape tree.now)) (tags (tree_shape new)) by.new) }
{
    match tree {
        Tree::Leaf(id, old) => Ok(Tree::Leaf(*id, by.tag(old))),
        Tree::Lit(word, old) => Ok(Tree::Lit(*word, by.tag(old))),
        Tree::Addr(id, offset, old) => Ok(Tree::Addr(*id, *offset, by.tag(old))),
        Tree::Node(op, id, children, old) => {
            let tag = by.tag(old);
            let children = retag_all(alloc, children, by)?;
            Ok(Tree::Node(op.copy(alloc)?, *id, children, tag))
        }
    }
}

/// Returns the trees with new tags, which `by` gives from left to right.
#[cycle(retag)]
fn retag_all<A: Tag, B: Tag, R: Retag<A, B>>(
    alloc: Global,
    row: &[Tree<A>],
    by: &mut R,
) -> Result<Vec<Tree<B>>, AllocError>
    ensures erased { IfOk result (λ new. map erased (map tree_shape new.items) ≡
        map erased (map tree_shape row.now)) }
    ensures tags { IfOk result (λ new. RunOf R.leads by.old
        (row_tags (tree_row (map tree_shape row.now)))
        (row_tags (tree_row (map tree_shape new.items))) by.new) }
{
    let mut done = Vec::new(alloc);
    for tree in row {
        done.push(retag(alloc, tree, by)?)?;
    }
    Ok(done)
}
