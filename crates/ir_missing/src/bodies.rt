//! Whether the names that instructions use are there.

ghost use Rattle.std.specs.Prelude.{◌++◌, ◌∷◌, [], ◌&&◌, map};
ghost use Rattle.std.specs.List.{list_all, flat_map};
ghost use Rattle.ir_tree.specs.ShapeOf.{name_shape, ty_shape, val_shape, ty_val_shape, phi_in_shape, case_shape, body_shape};
ghost use Rattle.ir_tree.specs.Known.{name_known, ty_known, val_known, ty_val_known, phi_in_known, case_known, body_known};
ghost use Rattle.ir_rules.specs.Uses.{as_block, ty_uses, val_uses, ty_val_uses, callee_uses, input_uses, case_uses, body_uses};
ghost use Rattle.ir_names.specs.Tables.{ModuleTable};
ghost use Rattle.ir_missing.specs.Tells.{Inside, Tells};

use crate::operands::{
    block_there, callee_there, cases_there, inputs_there, ty_val_there, ty_vals_there,
    typed_val_there, val_there,
};
use crate::types::ty_there;
use ir_names::{FunctionNames, ModuleNames};
use ir_tree::module::{Body, Case, PhiIn, TyVal, Val};
use ir_tree::names::NameId;
use ir_tree::types::Ty;

/// Tells whether the names that an instruction uses are there.
pub fn body_there(outside: &ModuleNames, inside: &FunctionNames, body: &Body) -> bool
    ensures { Tells (Inside outside.now inside.now) (λ n. body_known n body.now)
        (λ names. body_uses (body_shape names body.now)) result }
{
    match body {
        Body::Phi(ty, inputs) => phi_there(outside, inside, ty, inputs),
        Body::Binary(_, _, ty, x, y) => operation_there(outside, inside, ty, x, y),
        Body::Icmp(_, ty, x, y) => operation_there(outside, inside, ty, x, y),
        Body::Select(condition, yes, no) => select_there(outside, inside, condition, yes, no),
        Body::Convert(_, ty, val, to) => convert_there(outside, inside, ty, val, to),
        Body::Freeze(ty, val) => typed_val_there(outside, inside, ty, val),
        Body::Alloca(ty, _) => ty_there(outside, ty),
        Body::Load(ty, at) => load_there(outside, inside, ty, at),
        Body::Store(value, at) => both_there(outside, inside, value, at),
        Body::Gep(_, ty, base, indices) => gep_there(outside, inside, ty, base, indices),
        Body::Call(ret, callee, arguments) => {
            call_there(outside, inside, ret, callee, arguments)
        }
        Body::Jump(to) => block_there(inside, *to),
        Body::Branch(condition, yes, no) => { branch_there(outside, inside, condition, *yes, *no) }
        Body::Switch(value, otherwise, cases) => {
            switch_there(outside, inside, value, *otherwise, cases)
        }
        Body::RetVoid => true,
        Body::Ret(value) => ty_val_there(outside, inside, value),
        Body::Unreachable => true,
    }
}

/// Tells whether the names that a phi uses are there.
fn phi_there(outside: &ModuleNames, inside: &FunctionNames, ty: &Ty, inputs: &[PhiIn]) -> bool
    ensures { Tells (Inside outside.now inside.now)
        (λ n. ty_known n ty.now && list_all (phi_in_known n) inputs.now)
        (λ names. ty_uses (ty_shape names ty.now)
        ++ flat_map input_uses (map (phi_in_shape names) inputs.now)) result }
{
    ty_there(outside, ty) && inputs_there(outside, inside, inputs)
}

/// Tells whether the names that a type and two operands use are there.
fn operation_there(outside: &ModuleNames, inside: &FunctionNames, ty: &Ty, x: &Val, y: &Val) -> bool
    ensures { Tells (Inside outside.now inside.now)
        (λ n. ty_known n ty.now && val_known n x.now && val_known n y.now)
        (λ names. ty_uses (ty_shape names ty.now) ++ val_uses (val_shape names x.now)
        ++ val_uses (val_shape names y.now)) result }
{
    typed_val_there(outside, inside, ty, x) && val_there(outside, inside, y)
}

/// Tells whether the names that two operands and their types use are there.
fn both_there(outside: &ModuleNames, inside: &FunctionNames, x: &TyVal, y: &TyVal) -> bool
    ensures { Tells (Inside outside.now inside.now)
        (λ n. ty_val_known n x.now && ty_val_known n y.now)
        (λ names. ty_val_uses (ty_val_shape names x.now)
        ++ ty_val_uses (ty_val_shape names y.now)) result }
{
    ty_val_there(outside, inside, x) && ty_val_there(outside, inside, y)
}

/// Tells whether the names that a selection uses are there.
fn select_there(
    outside: &ModuleNames,
    inside: &FunctionNames,
    condition: &TyVal,
    yes: &TyVal,
    no: &TyVal,
) -> bool
    ensures { Tells (Inside outside.now inside.now)
        (λ n. ty_val_known n condition.now && ty_val_known n yes.now && ty_val_known n no.now)
        (λ names. ty_val_uses (ty_val_shape names condition.now)
        ++ ty_val_uses (ty_val_shape names yes.now) ++ ty_val_uses (ty_val_shape names no.now))
        result }
{
    both_there(outside, inside, condition, yes) && ty_val_there(outside, inside, no)
}

/// Tells whether the names that a conversion uses are there.
fn convert_there(outside: &ModuleNames, inside: &FunctionNames, ty: &Ty, val: &Val, to: &Ty) -> bool
    ensures { Tells (Inside outside.now inside.now)
        (λ n. ty_known n ty.now && val_known n val.now && ty_known n to.now)
        (λ names. ty_uses (ty_shape names ty.now) ++ val_uses (val_shape names val.now)
        ++ ty_uses (ty_shape names to.now)) result }
{
    typed_val_there(outside, inside, ty, val) && ty_there(outside, to)
}

/// Tells whether the names that a type and an address use are there.
fn load_there(outside: &ModuleNames, inside: &FunctionNames, ty: &Ty, at: &TyVal) -> bool
    ensures { Tells (Inside outside.now inside.now)
        (λ n. ty_known n ty.now && ty_val_known n at.now)
        (λ names. ty_uses (ty_shape names ty.now) ++ ty_val_uses (ty_val_shape names at.now))
        result }
{
    ty_there(outside, ty) && ty_val_there(outside, inside, at)
}

/// Tells whether the names that a step from an address uses are there.
fn gep_there(
    outside: &ModuleNames,
    inside: &FunctionNames,
    ty: &Ty,
    base: &TyVal,
    indices: &[TyVal],
) -> bool
    ensures { Tells (Inside outside.now inside.now)
        (λ n. ty_known n ty.now && ty_val_known n base.now
        && list_all (ty_val_known n) indices.now)
        (λ names. ty_uses (ty_shape names ty.now) ++ ty_val_uses (ty_val_shape names base.now)
        ++ flat_map ty_val_uses (map (ty_val_shape names) indices.now)) result }
{
    load_there(outside, inside, ty, base) && ty_vals_there(outside, inside, indices)
}

/// Tells whether the names that the type of what is returned and a callee use are there.
fn return_there(outside: &ModuleNames, inside: &FunctionNames, ret: &Ty, callee: &Val) -> bool
    ensures { Tells (Inside outside.now inside.now)
        (λ n. ty_known n ret.now && val_known n callee.now)
        (λ names. ty_uses (ty_shape names ret.now) ++ callee_uses (val_shape names callee.now))
        result }
{
    ty_there(outside, ret) && callee_there(outside, inside, callee)
}

/// Tells whether the names that a call uses are there.
fn call_there(
    outside: &ModuleNames,
    inside: &FunctionNames,
    ret: &Ty,
    callee: &Val,
    arguments: &[TyVal],
) -> bool
    ensures { Tells (Inside outside.now inside.now)
        (λ n. ty_known n ret.now && val_known n callee.now
        && list_all (ty_val_known n) arguments.now)
        (λ names. ty_uses (ty_shape names ret.now) ++ callee_uses (val_shape names callee.now)
        ++ flat_map ty_val_uses (map (ty_val_shape names) arguments.now)) result }
{
    return_there(outside, inside, ret, callee) && ty_vals_there(outside, inside, arguments)
}

/// Tells whether two blocks are there.
fn blocks_there(inside: &FunctionNames, yes: NameId, no: NameId) -> bool
    ensures { (t : ModuleTable) → Tells (Inside t inside.now)
        (λ n. name_known n yes && name_known n no)
        (λ names. as_block (name_shape names yes) ∷ as_block (name_shape names no) ∷ []) result }
{
    block_there(inside, yes) && block_there(inside, no)
}

/// Tells whether the names that a branch on a condition uses are there.
fn branch_there(
    outside: &ModuleNames,
    inside: &FunctionNames,
    condition: &TyVal,
    yes: NameId,
    no: NameId,
) -> bool
    ensures { Tells (Inside outside.now inside.now)
        (λ n. ty_val_known n condition.now && (name_known n yes && name_known n no))
        (λ names. ty_val_uses (ty_val_shape names condition.now)
        ++ as_block (name_shape names yes) ∷ as_block (name_shape names no) ∷ []) result }
{
    ty_val_there(outside, inside, condition) && blocks_there(inside, yes, no)
}

/// Tells whether the blocks that a switch leads to, and the types of its cases, are there.
fn ways_there(
    outside: &ModuleNames,
    inside: &FunctionNames,
    otherwise: NameId,
    cases: &[Case],
) -> bool
    ensures { Tells (Inside outside.now inside.now)
        (λ n. name_known n otherwise && list_all (case_known n) cases.now)
        (λ names. as_block (name_shape names otherwise)
        ∷ flat_map case_uses (map (case_shape names) cases.now)) result }
{
    block_there(inside, otherwise) && cases_there(outside, inside, cases)
}

/// Tells whether the names that a switch uses are there.
fn switch_there(
    outside: &ModuleNames,
    inside: &FunctionNames,
    value: &TyVal,
    otherwise: NameId,
    cases: &[Case],
) -> bool
    ensures { Tells (Inside outside.now inside.now)
        (λ n. ty_val_known n value.now
        && (name_known n otherwise && list_all (case_known n) cases.now))
        (λ names. ty_val_uses (ty_val_shape names value.now)
        ++ as_block (name_shape names otherwise)
        ∷ flat_map case_uses (map (case_shape names) cases.now)) result }
{
    ty_val_there(outside, inside, value) && ways_there(outside, inside, otherwise, cases)
}
