//! The values that an instruction uses.

ghost use Rattle.std.specs.Prelude.{◌≡◌, ◌++◌, List, ℕ, true, map, OnOk, IfOk};
ghost use Rattle.std.specs.List.{list_all};
ghost use Rattle.ir_tree.specs.Known.{name_known, val_known, ty_val_known, phi_in_known, body_known};
ghost use Rattle.ir_tree.specs.ShapeOf.{name_shape, val_shape, ty_val_shape, phi_in_shape, body_shape};
ghost use Rattle.ir_edges.specs.Locals.{val_names, ty_val_names, input_names, operand_names};

use ir_tree::module::{Body, PhiIn, TyVal, Val};
use ir_tree::names::NameId;
use std::alloc::{AllocError, Global};

/// Appends the name of an operand, if it is a value.
fn push_val(val: &Val, to: &mut Vec<NameId>) -> Result<(), AllocError>
    ensures shape { OnOk result ((names : List (List ℕ)) → map (name_shape names) to.new.items
        ≡ map (name_shape names) to.old.items ++ val_names (val_shape names val.now)) }
    ensures known { OnOk result ((count : ℕ) → list_all (name_known count) to.old.items ≡ true →
        val_known count val.now ≡ true → list_all (name_known count) to.new.items ≡ true) }
{
    match val {
        Val::Local(id) => to.push(*id)?,
        Val::Fixed(_) => {}
    }
    Ok(())
}

/// Appends the names of operands, of those that are values.
fn push_ty_vals(vals: &[TyVal], to: &mut Vec<NameId>) -> Result<(), AllocError>
    ensures shape { OnOk result ((names : List (List ℕ)) → map (name_shape names) to.new.items
        ≡ map (name_shape names) to.old.items
        ++ ty_val_names (map (ty_val_shape names) vals.now)) }
    ensures known { OnOk result ((count : ℕ) → list_all (name_known count) to.old.items ≡ true →
        list_all (ty_val_known count) vals.now ≡ true →
        list_all (name_known count) to.new.items ≡ true) }
{
    for val in vals {
        push_val(&val.val, to)?;
    }
    Ok(())
}

/// Appends the names of a phi's inputs, of those that are values.
fn push_inputs(inputs: &[PhiIn], to: &mut Vec<NameId>) -> Result<(), AllocError>
    ensures shape { OnOk result ((names : List (List ℕ)) → map (name_shape names) to.new.items
        ≡ map (name_shape names) to.old.items
        ++ input_names (map (phi_in_shape names) inputs.now)) }
    ensures known { OnOk result ((count : ℕ) → list_all (name_known count) to.old.items ≡ true →
        list_all (phi_in_known count) inputs.now ≡ true →
        list_all (name_known count) to.new.items ≡ true) }
{
    for input in inputs {
        push_val(&input.val, to)?;
    }
    Ok(())
}

/// Appends the names of the values that an instruction uses.
fn push_locals(body: &Body, to: &mut Vec<NameId>) -> Result<(), AllocError>
    ensures shape { OnOk result ((names : List (List ℕ)) → map (name_shape names) to.new.items
        ≡ map (name_shape names) to.old.items ++ operand_names (body_shape names body.now)) }
    ensures known { OnOk result ((count : ℕ) → list_all (name_known count) to.old.items ≡ true →
        body_known count body.now ≡ true → list_all (name_known count) to.new.items ≡ true) }
{
    match body {
        Body::Phi(_, inputs) => push_inputs(inputs, to),
        Body::Binary(_, _, _, left, right) | Body::Icmp(_, _, left, right) => {
            push_val(left, to)?;
            push_val(right, to)
        }
        Body::Select(condition, yes, no) => {
            push_val(&condition.val, to)?;
            push_val(&yes.val, to)?;
            push_val(&no.val, to)
        }
        Body::Convert(_, _, val, _) | Body::Freeze(_, val) => push_val(val, to),
        Body::Load(_, at) => push_val(&at.val, to),
        Body::Store(value, at) => {
            push_val(&value.val, to)?;
            push_val(&at.val, to)
        }
        Body::Gep(_, _, base, indices) => {
            push_val(&base.val, to)?;
            push_ty_vals(indices, to)
        }
        Body::Call(_, callee, arguments) => {
            push_val(callee, to)?;
            push_ty_vals(arguments, to)
        }
        Body::Branch(value, _, _) | Body::Switch(value, _, _) | Body::Ret(value) => push_val(
            &value.val, to,
        ),
        Body::Alloca(_, _) | Body::Jump(_) | Body::RetVoid | Body::Unreachable => Ok(()),
    }
}

/// Returns the names of the values that an instruction uses, in the order of the text and as often as it
/// uses them.
pub fn locals_of(alloc: Global, body: &Body) -> Result<Vec<NameId>, AllocError>
    ensures shape { IfOk result (λ to. (names : List (List ℕ)) →
        map (name_shape names) to.items ≡ operand_names (body_shape names body.now)) }
    ensures known { IfOk result (λ to. (count : ℕ) → body_known count body.now ≡ true →
        list_all (name_known count) to.items ≡ true) }
{
    let mut to = Vec::new(alloc);
    push_locals(body, &mut to)?;
    Ok(to)
}
