//! The labels that an instruction leads to.

ghost use Rattle.std.specs.Prelude.{◌≡◌, ◌++◌, List, ◌∷◌, ℕ, true, map, OnOk, IfOk};
ghost use Rattle.std.specs.List.{list_all};
ghost use Rattle.ir_tree.specs.Known.{name_known, case_known, body_known};
ghost use Rattle.ir_tree.specs.ShapeOf.{name_shape, case_shape, body_shape};
ghost use Rattle.ir_proper.specs.Edges.{targets};

use ir_tree::module::{Body, Case};
use ir_tree::names::NameId;
use std::alloc::{AllocError, Global};

/// Appends the labels that cases lead to.
fn push_cases(cases: &[Case], to: &mut Vec<NameId>) -> Result<(), AllocError>
    ensures shape { OnOk result ((names : List (List ℕ)) → map (name_shape names) to.new.items
        ≡ map (name_shape names) to.old.items ++ map (λ c. c.to) (map (case_shape names) cases.now)) }
    ensures known { OnOk result ((count : ℕ) → list_all (name_known count) to.old.items ≡ true →
        list_all (case_known count) cases.now ≡ true →
        list_all (name_known count) to.new.items ≡ true) }
{
    for case in cases {
        to.push(case.to)?;
    }
    Ok(())
}

/// Returns the labels of a switch: that for all else, then those of its cases.
fn labels_of_switch(
    alloc: Global,
    otherwise: NameId,
    cases: &[Case],
) -> Result<Vec<NameId>, AllocError>
    ensures shape { IfOk result (λ to. (names : List (List ℕ)) → map (name_shape names) to.items
        ≡ name_shape names otherwise ∷ map (λ c. c.to) (map (case_shape names) cases.now)) }
    ensures known { IfOk result (λ to. (count : ℕ) → name_known count otherwise ≡ true →
        list_all (case_known count) cases.now ≡ true →
        list_all (name_known count) to.items ≡ true) }
{
    let mut to = vec![in alloc; otherwise]?;
    push_cases(cases, &mut to)?;
    Ok(to)
}

/// Returns the labels that an instruction leads to, in the order of the text.
pub fn targets_of(alloc: Global, body: &Body) -> Result<Vec<NameId>, AllocError>
    ensures shape { IfOk result (λ to. (names : List (List ℕ)) →
        map (name_shape names) to.items ≡ targets (body_shape names body.now)) }
    ensures known { IfOk result (λ to. (count : ℕ) → body_known count body.now ≡ true →
        list_all (name_known count) to.items ≡ true) }
{
    match body {
        Body::Jump(to) => Ok(vec![in alloc; *to]?),
        Body::Branch(_, yes, no) => Ok(vec![in alloc; *yes, *no]?),
        Body::Switch(_, otherwise, cases) => labels_of_switch(alloc, *otherwise, cases),
        Body::Phi(_, _)
        | Body::Binary(_, _, _, _, _)
        | Body::Icmp(_, _, _, _)
        | Body::Select(_, _, _)
        | Body::Convert(_, _, _, _)
        | Body::Freeze(_, _)
        | Body::Alloca(_, _)
        | Body::Load(_, _)
        | Body::Store(_, _)
        | Body::Gep(_, _, _, _)
        | Body::Call(_, _, _)
        | Body::RetVoid
        | Body::Ret(_)
        | Body::Unreachable => Ok(Vec::new(alloc)),
    }
}
