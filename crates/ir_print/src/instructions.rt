//! Phis and instructions, appended part by part.

ghost use Rattle.std.specs.Prelude.{◌≡◌, ◌++◌, ◌∷◌, [], List, ℕ, false, map, OnOk};
ghost use Rattle.ir_tree.specs.Shape.{phi, binary, icmp, select, convert, freeze, alloca, load, store, get_element, call};
ghost use Rattle.ir_tree.specs.ShapeOf.{ty_shape, const_shape, val_shape, ty_val_shape, phi_in_shape};
ghost use Rattle.ir_grammar_insts.specs.Spelling.{bin_word, pred_word, conv_word};
ghost use Rattle.ir_print_consts.specs.Texts.{in_row};
ghost use Rattle.ir_print.specs.Texts.{value_text, typed_text, flag_part, flags_part, input_text, row_blank, is_name, is_global_name, callee_gap, count_part, body_text};

use crate::operands::{
    push_constant, push_integer, push_local_name, push_more_typed, push_operands, push_spaced_type,
    push_spaced_typed, push_spaced_value, push_spaced_word, push_two, push_value, push_word,
};
use ir_lex::Keyword;
use ir_print_consts::push_comma;
use ir_tree::module::{Bin, Conv, Flags, PhiIn, Pred, TyVal, Val};
use ir_tree::names::Names;
use ir_tree::types::{Const, Ty};
use std::alloc::AllocError;

/// Returns the word of an operation.
fn bin_word(operation: Bin) -> Keyword
    ensures { result ≡ bin_word operation }
{
    match operation {
        Bin::Add => Keyword::Add,
        Bin::Sub => Keyword::Sub,
        Bin::Mul => Keyword::Mul,
        Bin::Shl => Keyword::Shl,
        Bin::Udiv => Keyword::Udiv,
        Bin::Sdiv => Keyword::Sdiv,
        Bin::Lshr => Keyword::Lshr,
        Bin::Ashr => Keyword::Ashr,
        Bin::Urem => Keyword::Urem,
        Bin::Srem => Keyword::Srem,
        Bin::And => Keyword::And,
        Bin::Or => Keyword::Or,
        Bin::Xor => Keyword::Xor,
    }
}

/// Returns the word of what `icmp` asks.
fn pred_word(predicate: Pred) -> Keyword
    ensures { result ≡ pred_word predicate }
{
    match predicate {
        Pred::Eq => Keyword::Eq,
        Pred::Ne => Keyword::Ne,
        Pred::Ugt => Keyword::Ugt,
        Pred::Uge => Keyword::Uge,
        Pred::Ult => Keyword::Ult,
        Pred::Ule => Keyword::Ule,
        Pred::Sgt => Keyword::Sgt,
        Pred::Sge => Keyword::Sge,
        Pred::Slt => Keyword::Slt,
        Pred::Sle => Keyword::Sle,
    }
}

/// Returns the word of a conversion.
fn conv_word(conversion: Conv) -> Keyword
    ensures { result ≡ conv_word conversion }
{
    match conversion {
        Conv::Zext => Keyword::Zext,
        Conv::Sext => Keyword::Sext,
        Conv::Trunc => Keyword::Trunc,
    }
}

/// Appends a flag after a blank, where it is set.
fn push_flag(to: &mut Vec<u8>, is_set: bool, keyword: Keyword) -> Result<(), AllocError>
    ensures { OnOk result (to.new.items ≡ to.old.items ++ flag_part is_set keyword) }
{
    if is_set {
        push_spaced_word(to, keyword)
    } else {
        Ok(())
    }
}

/// Appends the flags of an operation: `nuw`, `nsw` and `exact`.
fn push_flags(to: &mut Vec<u8>, flags: Flags) -> Result<(), AllocError>
    ensures { OnOk result (to.new.items ≡ to.old.items ++ flags_part flags) }
{
    push_flag(to, flags.nuw, Keyword::Nuw)?;
    push_flag(to, flags.nsw, Keyword::Nsw)?;
    push_flag(to, flags.exact, Keyword::Exact)?;
    Ok(())
}

/// Appends a binary operation.
pub fn push_binary(
    names: &Names,
    operation: Bin,
    flags: Flags,
    ty: &Ty,
    left: &Val,
    right: &Val,
    to: &mut Vec<u8>,
) -> Result<(), AllocError>
    ensures { OnOk result (to.new.items ≡ to.old.items
        ++ body_text (binary operation flags (ty_shape names.now ty.now) (val_shape names.now left.now) (val_shape names.now right.now))) }
{
    push_word(to, bin_word(operation))?;
    push_flags(to, flags)?;
    push_two(names, ty, left, right, to)?;
    Ok(())
}

/// Appends an `icmp`.
pub fn push_icmp(
    names: &Names,
    predicate: Pred,
    ty: &Ty,
    left: &Val,
    right: &Val,
    to: &mut Vec<u8>,
) -> Result<(), AllocError>
    ensures { OnOk result (to.new.items ≡ to.old.items
        ++ body_text (icmp predicate (ty_shape names.now ty.now) (val_shape names.now left.now) (val_shape names.now right.now))) }
{
    push_word(to, Keyword::Icmp)?;
    push_spaced_word(to, pred_word(predicate))?;
    push_two(names, ty, left, right, to)?;
    Ok(())
}

/// Appends a `select`.
pub fn push_select(
    names: &Names,
    condition: &TyVal,
    yes: &TyVal,
    no: &TyVal,
    to: &mut Vec<u8>,
) -> Result<(), AllocError>
    ensures { OnOk result (to.new.items ≡ to.old.items
        ++ body_text (select (ty_val_shape names.now condition.now) (ty_val_shape names.now yes.now) (ty_val_shape names.now no.now))) }
{
    push_word(to, Keyword::Select)?;
    push_spaced_typed(names, condition, to)?;
    push_more_typed(names, yes, to)?;
    push_more_typed(names, no, to)?;
    Ok(())
}

/// Appends a conversion.
pub fn push_convert(
    names: &Names,
    conversion: Conv,
    ty: &Ty,
    value: &Val,
    into: &Ty,
    to: &mut Vec<u8>,
) -> Result<(), AllocError>
    ensures { OnOk result (to.new.items ≡ to.old.items
        ++ body_text (convert conversion (ty_shape names.now ty.now) (val_shape names.now value.now) (ty_shape names.now into.now))) }
{
    push_word(to, conv_word(conversion))?;
    push_spaced_type(names, ty, to)?;
    push_spaced_value(names, value, to)?;
    push_spaced_word(to, Keyword::To)?;
    push_spaced_type(names, into, to)?;
    Ok(())
}

/// Appends a `freeze`.
pub fn push_freeze(names: &Names, ty: &Ty, value: &Val, to: &mut Vec<u8>) -> Result<(), AllocError>
    ensures { OnOk result (to.new.items ≡ to.old.items
        ++ body_text (freeze (ty_shape names.now ty.now) (val_shape names.now value.now))) }
{
    push_word(to, Keyword::Freeze)?;
    push_spaced_type(names, ty, to)?;
    push_spaced_value(names, value, to)?;
    Ok(())
}

/// Appends the count of an `alloca` after a comma and its type; a count of one is left out.
fn push_count(to: &mut Vec<u8>, count: i128) -> Result<(), AllocError>
    ensures { OnOk result (to.new.items ≡ to.old.items ++ count_part count) }
{
    if count == 1 {
        return Ok(());
    }
    to.push(b',')?;
    push_spaced_word(to, Keyword::Integer(64))?;
    to.push(b' ')?;
    push_integer(to, count)?;
    Ok(())
}

/// Appends an `alloca`.
pub fn push_alloca(names: &Names, ty: &Ty, count: i128, to: &mut Vec<u8>) -> Result<(), AllocError>
    ensures { OnOk result (to.new.items ≡ to.old.items
        ++ body_text (alloca (ty_shape names.now ty.now) count)) }
{
    push_word(to, Keyword::Alloca)?;
    push_spaced_type(names, ty, to)?;
    push_count(to, count)?;
    Ok(())
}

/// Appends a `load`.
pub fn push_load(
    names: &Names,
    ty: &Ty,
    address: &TyVal,
    to: &mut Vec<u8>,
) -> Result<(), AllocError>
    ensures { OnOk result (to.new.items ≡ to.old.items
        ++ body_text (load (ty_shape names.now ty.now) (ty_val_shape names.now address.now))) }
{
    push_word(to, Keyword::Load)?;
    push_spaced_type(names, ty, to)?;
    push_more_typed(names, address, to)?;
    Ok(())
}

/// Appends a `store`.
pub fn push_store(
    names: &Names,
    value: &TyVal,
    address: &TyVal,
    to: &mut Vec<u8>,
) -> Result<(), AllocError>
    ensures { OnOk result (to.new.items ≡ to.old.items
        ++ body_text (store (ty_val_shape names.now value.now)
        (ty_val_shape names.now address.now))) }
{
    push_word(to, Keyword::Store)?;
    push_spaced_typed(names, value, to)?;
    push_more_typed(names, address, to)?;
    Ok(())
}

/// Appends a `getelementptr`.
pub fn push_gep(
    names: &Names,
    inbounds: bool,
    ty: &Ty,
    base: &TyVal,
    indices: &[TyVal],
    to: &mut Vec<u8>,
) -> Result<(), AllocError>
    ensures { OnOk result (to.new.items ≡ to.old.items
        ++ body_text (get_element inbounds (ty_shape names.now ty.now) (ty_val_shape names.now base.now) (map (ty_val_shape names.now) indices.now))) }
{
    push_word(to, Keyword::GetElementPtr)?;
    push_flag(to, inbounds, Keyword::InBounds)?;
    push_spaced_type(names, ty, to)?;
    push_more_typed(names, base, to)?;
    push_operands(names, indices, true, to)?;
    Ok(())
}

/// Tells whether a constant is the name of a global.
fn is_name(value: &Const) -> bool
    ensures { (names : List (List ℕ)) → result ≡ is_name (const_shape names value.now) }
{
    match value {
        Const::Int(_) => false,
        Const::Bool(_) => false,
        Const::Null => false,
        Const::Undef => false,
        Const::Poison => false,
        Const::Zero => false,
        Const::Text(_) => false,
        Const::Array(_) => false,
        Const::Struct(_, _) => false,
        Const::Global(_) => true,
        Const::Gep(_, _, _, _) => false,
    }
}

/// Appends what stands between a callee and `(`: nothing after the name of a global.
fn push_gap(to: &mut Vec<u8>, is_name: bool) -> Result<(), AllocError>
    ensures { OnOk result (to.new.items ≡ to.old.items ++ callee_gap is_name) }
{
    to.extend_from_slice(if is_name { b"" } else { b" " })
}

/// Appends a callee, and what stands between it and `(`.
fn push_callee(names: &Names, callee: &Val, to: &mut Vec<u8>) -> Result<(), AllocError>
    ensures { OnOk result (to.new.items ≡ to.old.items
        ++ (value_text (val_shape names.now callee.now) ++ callee_gap (is_global_name (val_shape names.now callee.now)))) }
{
    match callee {
        Val::Local(id) => {
            push_local_name(names, *id, to)?;
            push_gap(to, false)?;
            Ok(())
        }
        Val::Fixed(constant) => {
            push_constant(names, constant, to)?;
            push_gap(to, is_name(constant))?;
            Ok(())
        }
    }
}

/// Appends the arguments of a call in parentheses.
fn push_arguments(names: &Names, arguments: &[TyVal], to: &mut Vec<u8>) -> Result<(), AllocError>
    ensures { OnOk result (to.new.items ≡ to.old.items
        ++ 40 ∷ (in_row false (map typed_text (map (ty_val_shape names.now) arguments.now)) ++ 41 ∷ [])) }
{
    to.push(b'(')?;
    push_operands(names, arguments, false, to)?;
    to.push(b')')?;
    Ok(())
}

/// Appends a `call`.
pub fn push_call(
    names: &Names,
    ty: &Ty,
    callee: &Val,
    arguments: &[TyVal],
    to: &mut Vec<u8>,
) -> Result<(), AllocError>
    ensures { OnOk result (to.new.items ≡ to.old.items
        ++ body_text (call (ty_shape names.now ty.now) (val_shape names.now callee.now) (map (ty_val_shape names.now) arguments.now))) }
{
    push_word(to, Keyword::Call)?;
    push_spaced_type(names, ty, to)?;
    to.push(b' ')?;
    push_callee(names, callee, to)?;
    push_arguments(names, arguments, to)?;
    Ok(())
}

/// Appends a value that a phi takes, and the block that it comes from.
fn push_input(names: &Names, input: &PhiIn, to: &mut Vec<u8>) -> Result<(), AllocError>
    ensures { OnOk result (to.new.items ≡ to.old.items
        ++ input_text (phi_in_shape names.now input.now)) }
{
    to.push(b'[')?;
    push_value(names, &input.val, to)?;
    to.extend_from_slice(b", ")?;
    push_local_name(names, input.from, to)?;
    to.push(b']')?;
    Ok(())
}

/// Appends what a phi takes, with a comma and a blank between.
fn push_input_row(names: &Names, inputs: &[PhiIn], to: &mut Vec<u8>) -> Result<(), AllocError>
    ensures { OnOk result (to.new.items ≡ to.old.items
        ++ in_row false (map input_text (map (phi_in_shape names.now) inputs.now))) }
{
    let mut needs_comma = false;
    for input in inputs {
        push_comma(to, needs_comma)?;
        push_input(names, input, to)?;
        needs_comma = true;
    }
    Ok(())
}

/// Appends what a phi takes after a blank, if it takes anything.
fn push_inputs(names: &Names, inputs: &[PhiIn], to: &mut Vec<u8>) -> Result<(), AllocError>
    ensures { OnOk result (to.new.items ≡ to.old.items
        ++ (row_blank (map (phi_in_shape names.now) inputs.now) ++ in_row false (map input_text (map (phi_in_shape names.now) inputs.now)))) }
{
    match inputs {
        [] => Ok(()),
        [_, ..] => {
            to.push(b' ')?;
            push_input_row(names, inputs, to)?;
            Ok(())
        }
    }
}

/// Appends a phi.
pub fn push_phi(
    names: &Names,
    ty: &Ty,
    inputs: &[PhiIn],
    to: &mut Vec<u8>,
) -> Result<(), AllocError>
    ensures { OnOk result (to.new.items ≡ to.old.items
        ++ body_text (phi (ty_shape names.now ty.now) (map (phi_in_shape names.now) inputs.now))) }
{
    push_word(to, Keyword::Phi)?;
    push_spaced_type(names, ty, to)?;
    push_inputs(names, inputs, to)?;
    Ok(())
}
