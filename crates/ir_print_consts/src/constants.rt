//! The printed form of constants, appended part by part.

ghost use Rattle.std.specs.Prelude.{◌≡◌, ◌++◌, ◌∷◌, [], false, map, if◌then◌else◌, OnOk};
ghost use Rattle.ir_words.specs.declared.words.Keyword.TheVariants.{True, False};
ghost use Rattle.ir_print_consts.specs.Texts.{in_row, open_brace, close_brace, flag_text, ty_text, const_text, typed_text, address_start};

use crate::types::{name_of, push_close_brace, push_comma, push_open_brace, push_ty};
use ir_lex::Keyword;
use ir_print_symbols::{push_global, push_keyword, push_number, push_text};
use ir_tree::names::Names;
use ir_tree::types::{Const, Ty, Typed};
use std::alloc::AllocError;

/// Appends the flag of an address after a blank, where it is `inbounds`.
fn push_flag(to: &mut Vec<u8>, inbounds: bool) -> Result<(), AllocError>
    ensures { OnOk result (to.new.items ≡ to.old.items ++ flag_text inbounds) }
{
    to.extend_from_slice(if inbounds { b" inbounds" } else { b"" })
}

/// Returns the word of a boolean.
fn word_of(value: bool) -> Keyword
    ensures { result ≡ (if value then True else False) }
{
    if value { Keyword::True } else { Keyword::False }
}

/// Appends what an address begins with: its flag, and after a bracket the type that is stepped through and a
/// comma.
fn push_address_start(
    names: &Names,
    inbounds: bool,
    ty: &Ty,
    to: &mut Vec<u8>,
) -> Result<(), AllocError>
    ensures { OnOk result (to.new.items ≡ to.old.items ++ address_start names.now inbounds ty.now) }
{
    push_keyword(to, Keyword::GetElementPtr)?;
    push_flag(to, inbounds)?;
    to.extend_from_slice(b" (")?;
    push_ty(names, ty, to)?;
    to.extend_from_slice(b", ")?;
    Ok(())
}

/// Appends a constant. Where memory runs out, a part of its text may have been appended.
#[cycle(constants)]
pub fn push_const(names: &Names, value: &Const, to: &mut Vec<u8>) -> Result<(), AllocError>
    ensures { OnOk result (to.new.items ≡ to.old.items ++ const_text names.now value.now) }
{
    match value {
        Const::Int(number) => push_number(to, *number),
        Const::Bool(value) => push_keyword(to, word_of(*value)),
        Const::Null => push_keyword(to, Keyword::Null),
        Const::Undef => push_keyword(to, Keyword::Undef),
        Const::Poison => push_keyword(to, Keyword::Poison),
        Const::Zero => push_keyword(to, Keyword::ZeroInitializer),
        Const::Text(bytes) => push_text(to, bytes),
        Const::Array(elements) => push_elements(names, elements, to),
        Const::Struct(fields, packed) => push_fields(names, fields, *packed, to),
        Const::Global(id) => push_global(to, name_of(names, *id)),
        Const::Gep(inbounds, ty, base, indices) => {
            push_address_start(names, *inbounds, ty, to)?;
            push_typed(names, base, to)?;
            push_row(names, indices, true, to)?;
            to.push(b')')?;
            Ok(())
        }
    }
}

/// Appends a constant after its type.
#[cycle(constants)]
fn push_typed(names: &Names, typed: &Typed, to: &mut Vec<u8>) -> Result<(), AllocError>
    ensures { OnOk result (to.new.items ≡ to.old.items ++ typed_text names.now typed.now) }
{
    push_ty(names, &typed.ty, to)?;
    to.push(b' ')?;
    push_const(names, &typed.value, to)?;
    Ok(())
}

/// Appends constants with their types in a row, with a comma and a blank between them, and before the first
/// where something stands before it.
#[cycle(constants)]
fn push_row(
    names: &Names,
    row: &[Typed],
    is_after: bool,
    to: &mut Vec<u8>,
) -> Result<(), AllocError>
    ensures { OnOk result (to.new.items ≡ to.old.items
        ++ in_row is_after (map (typed_text names.now) row.now)) }
{
    let mut needs_comma = is_after;
    for typed in row {
        push_comma(to, needs_comma)?;
        push_typed(names, typed, to)?;
        needs_comma = true;
    }
    Ok(())
}

/// Appends an array of these elements.
#[cycle(constants)]
fn push_elements(names: &Names, elements: &[Typed], to: &mut Vec<u8>) -> Result<(), AllocError>
    ensures { OnOk result (to.new.items ≡ to.old.items
        ++ 91 ∷ (in_row false (map (typed_text names.now) elements.now) ++ 93 ∷ [])) }
{
    to.push(b'[')?;
    push_row(names, elements, false, to)?;
    to.push(b']')?;
    Ok(())
}

/// Appends a structure of these fields.
#[cycle(constants)]
fn push_fields(
    names: &Names,
    fields: &[Typed],
    packed: bool,
    to: &mut Vec<u8>,
) -> Result<(), AllocError>
    ensures { OnOk result (to.new.items ≡ to.old.items
        ++ (open_brace packed ++ (in_row false (map (typed_text names.now) fields.now) ++ close_brace packed))) }
{
    push_open_brace(to, packed)?;
    push_row(names, fields, false, to)?;
    push_close_brace(to, packed)?;
    Ok(())
}
