//! Words, names, types and operands, appended part by part.

ghost use Rattle.std.specs.Prelude.{◌≡◌, ◌++◌, ◌∷◌, map, OnOk};
ghost use Rattle.ir_tree.specs.ShapeOf.{name_shape, ty_shape, const_shape, val_shape, ty_val_shape};
ghost use Rattle.ir_print_consts.specs.Texts.{in_row};
ghost use Rattle.ir_print.specs.Texts.{word_text, local_text, global_text, label_text, number_text, type_text, constant_text, value_text, typed_text, two_text, target_text};

use ir_lex::Keyword;
use ir_print_consts::{name_of, push_comma, push_const, push_ty};
use ir_print_symbols::{push_global, push_keyword, push_label, push_local, push_number};
use ir_tree::module::{TyVal, Val};
use ir_tree::names::{NameId, Names};
use ir_tree::types::{Const, Ty};
use std::alloc::AllocError;

/// Appends the word of a keyword.
#[tactic(auto, unfolding(crate::specs::Texts::word_text))]
pub fn push_word(to: &mut Vec<u8>, keyword: Keyword) -> Result<(), AllocError>
    ensures { OnOk result (to.new.items ≡ to.old.items ++ word_text keyword) }
{
    push_keyword(to, keyword)
}

/// Appends the word of a keyword after a blank.
pub fn push_spaced_word(to: &mut Vec<u8>, keyword: Keyword) -> Result<(), AllocError>
    ensures { OnOk result (to.new.items ≡ to.old.items ++ 32 ∷ word_text keyword) }
{
    to.push(b' ')?;
    push_word(to, keyword)?;
    Ok(())
}

/// Appends an integer.
#[tactic(auto, unfolding(crate::specs::Texts::number_text))]
pub fn push_integer(to: &mut Vec<u8>, number: i128) -> Result<(), AllocError>
    ensures { OnOk result (to.new.items ≡ to.old.items ++ number_text number) }
{
    push_number(to, number)
}

/// Appends the name of a value or of a type.
#[tactic(auto, unfolding(crate::specs::Texts::local_text))]
pub fn push_local_name(names: &Names, id: NameId, to: &mut Vec<u8>) -> Result<(), AllocError>
    ensures { OnOk result (to.new.items ≡ to.old.items ++ local_text (name_shape names.now id)) }
{
    push_local(to, name_of(names, id))
}

/// Appends the name of a global or of a function.
#[tactic(auto, unfolding(crate::specs::Texts::global_text))]
pub fn push_global_name(names: &Names, id: NameId, to: &mut Vec<u8>) -> Result<(), AllocError>
    ensures { OnOk result (to.new.items ≡ to.old.items ++ global_text (name_shape names.now id)) }
{
    push_global(to, name_of(names, id))
}

/// Appends the label of a block.
#[tactic(auto, unfolding(crate::specs::Texts::label_text))]
pub fn push_label_name(names: &Names, id: NameId, to: &mut Vec<u8>) -> Result<(), AllocError>
    ensures { OnOk result (to.new.items ≡ to.old.items ++ label_text (name_shape names.now id)) }
{
    push_label(to, name_of(names, id))
}

/// Appends a type.
#[tactic(auto, unfolding(crate::specs::Texts::type_text))]
pub fn push_type(names: &Names, ty: &Ty, to: &mut Vec<u8>) -> Result<(), AllocError>
    ensures { OnOk result (to.new.items ≡ to.old.items ++ type_text (ty_shape names.now ty.now)) }
{
    push_ty(names, ty, to)
}

/// Appends a type after a blank.
pub fn push_spaced_type(names: &Names, ty: &Ty, to: &mut Vec<u8>) -> Result<(), AllocError>
    ensures { OnOk result (to.new.items ≡ to.old.items ++ 32
        ∷ type_text (ty_shape names.now ty.now)) }
{
    to.push(b' ')?;
    push_type(names, ty, to)?;
    Ok(())
}

/// Appends a constant.
#[tactic(auto, unfolding(crate::specs::Texts::constant_text))]
pub fn push_constant(names: &Names, value: &Const, to: &mut Vec<u8>) -> Result<(), AllocError>
    ensures { OnOk result (to.new.items ≡ to.old.items
        ++ constant_text (const_shape names.now value.now)) }
{
    push_const(names, value, to)
}

/// Appends an operand.
pub fn push_value(names: &Names, value: &Val, to: &mut Vec<u8>) -> Result<(), AllocError>
    ensures { OnOk result (to.new.items ≡ to.old.items
        ++ value_text (val_shape names.now value.now)) }
{
    match value {
        Val::Local(id) => push_local_name(names, *id, to),
        Val::Fixed(constant) => push_constant(names, constant, to),
    }
}

/// Appends an operand after a blank.
pub fn push_spaced_value(names: &Names, value: &Val, to: &mut Vec<u8>) -> Result<(), AllocError>
    ensures { OnOk result (to.new.items ≡ to.old.items ++ 32
        ∷ value_text (val_shape names.now value.now)) }
{
    to.push(b' ')?;
    push_value(names, value, to)?;
    Ok(())
}

/// Appends an operand after its type.
pub fn push_typed(names: &Names, operand: &TyVal, to: &mut Vec<u8>) -> Result<(), AllocError>
    ensures { OnOk result (to.new.items ≡ to.old.items
        ++ typed_text (ty_val_shape names.now operand.now)) }
{
    push_type(names, &operand.ty, to)?;
    push_spaced_value(names, &operand.val, to)?;
    Ok(())
}

/// Appends an operand with its type after a blank.
pub fn push_spaced_typed(names: &Names, operand: &TyVal, to: &mut Vec<u8>) -> Result<(), AllocError>
    ensures { OnOk result (to.new.items ≡ to.old.items ++ 32
        ∷ typed_text (ty_val_shape names.now operand.now)) }
{
    to.push(b' ')?;
    push_typed(names, operand, to)?;
    Ok(())
}

/// Appends an operand with its type after a comma.
pub fn push_more_typed(names: &Names, operand: &TyVal, to: &mut Vec<u8>) -> Result<(), AllocError>
    ensures { OnOk result (to.new.items ≡ to.old.items ++ 44 ∷ 32
        ∷ typed_text (ty_val_shape names.now operand.now)) }
{
    to.extend_from_slice(b", ")?;
    push_typed(names, operand, to)?;
    Ok(())
}

/// Appends two operands of one type after a blank.
pub fn push_two(
    names: &Names,
    ty: &Ty,
    left: &Val,
    right: &Val,
    to: &mut Vec<u8>,
) -> Result<(), AllocError>
    ensures { OnOk result (to.new.items ≡ to.old.items
        ++ 32 ∷ two_text (ty_shape names.now ty.now) (val_shape names.now left.now) (val_shape names.now right.now)) }
{
    push_spaced_type(names, ty, to)?;
    push_spaced_value(names, left, to)?;
    to.extend_from_slice(b", ")?;
    push_value(names, right, to)?;
    Ok(())
}

/// Appends a block that a branch leads to, after a blank.
pub fn push_target(names: &Names, id: NameId, to: &mut Vec<u8>) -> Result<(), AllocError>
    ensures { OnOk result (to.new.items ≡ to.old.items ++ 32
        ∷ target_text (name_shape names.now id)) }
{
    push_spaced_word(to, Keyword::Label)?;
    to.push(b' ')?;
    push_local_name(names, id, to)?;
    Ok(())
}

/// Appends a block that a branch leads to, after a comma.
pub fn push_more_target(names: &Names, id: NameId, to: &mut Vec<u8>) -> Result<(), AllocError>
    ensures { OnOk result (to.new.items ≡ to.old.items ++ 44 ∷ 32
        ∷ target_text (name_shape names.now id)) }
{
    to.push(b',')?;
    push_target(names, id, to)?;
    Ok(())
}

/// Appends operands with their types in a row, with a comma and a blank between them, and before the first
/// where something stands before it.
pub fn push_operands(
    names: &Names,
    operands: &[TyVal],
    is_after: bool,
    to: &mut Vec<u8>,
) -> Result<(), AllocError>
    ensures { OnOk result (to.new.items ≡ to.old.items
        ++ in_row is_after (map typed_text (map (ty_val_shape names.now) operands.now))) }
{
    let mut needs_comma = is_after;
    for operand in operands {
        push_comma(to, needs_comma)?;
        push_typed(names, operand, to)?;
        needs_comma = true;
    }
    Ok(())
}
