//! Terminators, appended part by part.

ghost use Rattle.std.specs.Prelude.{◌≡◌, ◌++◌, false, map, OnOk};
ghost use Rattle.ir_tree.specs.Shape.{jump, branch, switch, return_void, return_value};
ghost use Rattle.ir_tree.specs.ShapeOf.{name_shape, ty_val_shape, case_shape};
ghost use Rattle.ir_print.specs.Texts.{case_text, blank, in_spaces, body_text};

use crate::operands::{
    push_integer, push_more_target, push_spaced_typed, push_spaced_word, push_target, push_type,
    push_word,
};
use ir_lex::Keyword;
use ir_tree::module::{Case, TyVal};
use ir_tree::names::{NameId, Names};
use std::alloc::AllocError;

/// Appends a `br` to a block.
pub fn push_jump(names: &Names, target: NameId, to: &mut Vec<u8>) -> Result<(), AllocError>
    ensures { OnOk result (to.new.items ≡ to.old.items
        ++ body_text (jump (name_shape names.now target))) }
{
    push_word(to, Keyword::Br)?;
    push_target(names, target, to)?;
    Ok(())
}

/// Appends a `br` on a condition.
pub fn push_branch(
    names: &Names,
    condition: &TyVal,
    yes: NameId,
    no: NameId,
    to: &mut Vec<u8>,
) -> Result<(), AllocError>
    ensures { OnOk result (to.new.items ≡ to.old.items
        ++ body_text (branch (ty_val_shape names.now condition.now) (name_shape names.now yes) (name_shape names.now no))) }
{
    push_word(to, Keyword::Br)?;
    push_spaced_typed(names, condition, to)?;
    push_more_target(names, yes, to)?;
    push_more_target(names, no, to)?;
    Ok(())
}

/// Appends a blank, where something stands before it.
fn push_blank(to: &mut Vec<u8>, is_after: bool) -> Result<(), AllocError>
    ensures { OnOk result (to.new.items ≡ to.old.items ++ blank is_after) }
{
    to.extend_from_slice(if is_after { b" " } else { b"" })
}

/// Appends a case of a `switch`.
fn push_case(names: &Names, case: &Case, to: &mut Vec<u8>) -> Result<(), AllocError>
    ensures { OnOk result (to.new.items ≡ to.old.items ++ case_text (case_shape names.now case.now)) }
{
    push_type(names, &case.ty, to)?;
    to.push(b' ')?;
    push_integer(to, case.value)?;
    push_more_target(names, case.to, to)?;
    Ok(())
}

/// Appends the cases of a `switch`, with a blank between them.
fn push_cases(names: &Names, cases: &[Case], to: &mut Vec<u8>) -> Result<(), AllocError>
    ensures { OnOk result (to.new.items ≡ to.old.items
        ++ in_spaces false (map case_text (map (case_shape names.now) cases.now))) }
{
    let mut needs_blank = false;
    for case in cases {
        push_blank(to, needs_blank)?;
        push_case(names, case, to)?;
        needs_blank = true;
    }
    Ok(())
}

/// Appends a `switch`.
pub fn push_switch(
    names: &Names,
    value: &TyVal,
    otherwise: NameId,
    cases: &[Case],
    to: &mut Vec<u8>,
) -> Result<(), AllocError>
    ensures { OnOk result (to.new.items ≡ to.old.items
        ++ body_text (switch (ty_val_shape names.now value.now) (name_shape names.now otherwise) (map (case_shape names.now) cases.now))) }
{
    push_word(to, Keyword::Switch)?;
    push_spaced_typed(names, value, to)?;
    push_more_target(names, otherwise, to)?;
    to.extend_from_slice(b" [")?;
    push_cases(names, cases, to)?;
    to.push(b']')?;
    Ok(())
}

/// Appends a `ret` without a value.
pub fn push_ret_void(to: &mut Vec<u8>) -> Result<(), AllocError>
    ensures { OnOk result (to.new.items ≡ to.old.items ++ body_text return_void) }
{
    push_word(to, Keyword::Ret)?;
    push_spaced_word(to, Keyword::Void)?;
    Ok(())
}

/// Appends a `ret` with its value.
pub fn push_ret(names: &Names, value: &TyVal, to: &mut Vec<u8>) -> Result<(), AllocError>
    ensures { OnOk result (to.new.items ≡ to.old.items
        ++ body_text (return_value (ty_val_shape names.now value.now))) }
{
    push_word(to, Keyword::Ret)?;
    push_spaced_typed(names, value, to)?;
    Ok(())
}
