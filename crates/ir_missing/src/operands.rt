//! Whether the names that operands use are there.

ghost use Rattle.std.specs.Prelude.{◌++◌, ◌∷◌, [], ◌&&◌, map};
ghost use Rattle.std.specs.List.{list_all, flat_map};
ghost use Rattle.ir_tree.specs.Shape.{fixed};
ghost use Rattle.ir_tree.specs.ShapeOf.{name_shape, ty_shape, const_shape, val_shape, ty_val_shape, phi_in_shape, case_shape};
ghost use Rattle.ir_tree.specs.Known.{name_known, ty_known, const_known, val_known, ty_val_known, phi_in_known, case_known};
ghost use Rattle.ir_rules.specs.Uses.{as_block, ty_uses, val_uses, ty_val_uses, callee_uses, input_uses, case_uses};
ghost use Rattle.ir_names.specs.Tables.{ModuleTable};
ghost use Rattle.ir_missing.specs.Tells.{Outside, Inside, Tells};

use crate::constants::const_there;
use crate::types::ty_there;
use ir_names::{FunctionNames, ModuleNames};
use ir_tree::module::{Case, PhiIn, TyVal, Val};
use ir_tree::names::NameId;
use ir_tree::types::{Const, Ty};

/// Tells whether a block is there.
pub fn block_there(inside: &FunctionNames, to: NameId) -> bool
    ensures { (t : ModuleTable) → Tells (Inside t inside.now) (λ n. name_known n to)
        (λ names. as_block (name_shape names to) ∷ []) result }
{
    inside.block_of(to).is_some()
}

/// Tells whether the names that an operand uses are there.
pub fn val_there(outside: &ModuleNames, inside: &FunctionNames, val: &Val) -> bool
    ensures { Tells (Inside outside.now inside.now) (λ n. val_known n val.now)
        (λ names. val_uses (val_shape names val.now)) result }
{
    match val {
        Val::Local(id) => inside.value_of(*id).is_some(),
        Val::Fixed(value) => const_there(outside, value),
    }
}

/// Tells whether the names that a callee uses are there.
pub fn callee_there(outside: &ModuleNames, inside: &FunctionNames, callee: &Val) -> bool
    ensures { Tells (Inside outside.now inside.now) (λ n. val_known n callee.now)
        (λ names. callee_uses (val_shape names callee.now)) result }
{
    match callee {
        Val::Local(id) => inside.value_of(*id).is_some(),
        Val::Fixed(value) => called_there(outside, value),
    }
}

/// Tells whether the names that a called constant uses are there.
fn called_there(outside: &ModuleNames, value: &Const) -> bool
    ensures { Tells (Outside outside.now) (λ n. const_known n value.now)
        (λ names. callee_uses (fixed (const_shape names value.now))) result }
{
    match value {
        Const::Global(id) => outside.callee_of(*id).is_some(),
        _ => const_there(outside, value),
    }
}

/// Tells whether the names that a type and an operand use are there.
pub fn typed_val_there(outside: &ModuleNames, inside: &FunctionNames, ty: &Ty, val: &Val) -> bool
    ensures { Tells (Inside outside.now inside.now) (λ n. ty_known n ty.now && val_known n val.now)
        (λ names. ty_uses (ty_shape names ty.now) ++ val_uses (val_shape names val.now)) result }
{
    ty_there(outside, ty) && val_there(outside, inside, val)
}

/// Tells whether the names that an operand and its type use are there.
pub fn ty_val_there(outside: &ModuleNames, inside: &FunctionNames, operand: &TyVal) -> bool
    ensures { Tells (Inside outside.now inside.now) (λ n. ty_val_known n operand.now)
        (λ names. ty_val_uses (ty_val_shape names operand.now)) result }
{
    typed_val_there(outside, inside, &operand.ty, &operand.val)
}

/// Tells whether the names that operands and their types use are there.
pub fn ty_vals_there(outside: &ModuleNames, inside: &FunctionNames, operands: &[TyVal]) -> bool
    ensures { Tells (Inside outside.now inside.now) (λ n. list_all (ty_val_known n) operands.now)
        (λ names. flat_map ty_val_uses (map (ty_val_shape names) operands.now)) result }
{
    for operand in operands {
        if !ty_val_there(outside, inside, operand) {
            return false;
        }
    }
    true
}

/// Tells whether the names that an input of a phi uses are there.
fn input_there(outside: &ModuleNames, inside: &FunctionNames, input: &PhiIn) -> bool
    ensures { Tells (Inside outside.now inside.now) (λ n. phi_in_known n input.now)
        (λ names. input_uses (phi_in_shape names input.now)) result }
{
    val_there(outside, inside, &input.val) && block_there(inside, input.from)
}

/// Tells whether the names that the inputs of a phi use are there.
pub fn inputs_there(outside: &ModuleNames, inside: &FunctionNames, inputs: &[PhiIn]) -> bool
    ensures { Tells (Inside outside.now inside.now) (λ n. list_all (phi_in_known n) inputs.now)
        (λ names. flat_map input_uses (map (phi_in_shape names) inputs.now)) result }
{
    for input in inputs {
        if !input_there(outside, inside, input) {
            return false;
        }
    }
    true
}

/// Tells whether the names that a case of a switch uses are there.
fn case_there(outside: &ModuleNames, inside: &FunctionNames, case: &Case) -> bool
    ensures { Tells (Inside outside.now inside.now) (λ n. case_known n case.now)
        (λ names. case_uses (case_shape names case.now)) result }
{
    ty_there(outside, &case.ty) && block_there(inside, case.to)
}

/// Tells whether the names that the cases of a switch use are there.
pub fn cases_there(outside: &ModuleNames, inside: &FunctionNames, cases: &[Case]) -> bool
    ensures { Tells (Inside outside.now inside.now) (λ n. list_all (case_known n) cases.now)
        (λ names. flat_map case_uses (map (case_shape names) cases.now)) result }
{
    for case in cases {
        if !case_there(outside, inside, case) {
            return false;
        }
    }
    true
}
