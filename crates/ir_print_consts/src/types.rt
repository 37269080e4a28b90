//! The printed form of types, appended part by part.

ghost use Rattle.std.specs.Prelude.{◌≡◌, ◌++◌, ◌∷◌, [], pos, false, map, OnOk};
ghost use Rattle.ir_lex.specs.Symbols.{NumberSymbol};
ghost use Rattle.ir_print_symbols.specs.Printed.{text_of_symbol};
ghost use Rattle.ir_tree.specs.NameTable.{text_of};
ghost use Rattle.ir_print_consts.specs.Texts.{comma, in_row, open_brace, close_brace, ty_text};

use ir_lex::Keyword;
use ir_print_symbols::{push_keyword, push_local, push_number};
use ir_tree::names::{NameId, Names};
use ir_tree::types::Ty;
use std::alloc::AllocError;

/// Returns the name of a number; a number that isn't in the table has the empty one.
pub fn name_of(names: &Names, id: NameId) -> &[u8]
    ensures { result.now ≡ text_of names.now id.0 }
{
    names.text(id).unwrap_or(b"")
}

/// Appends what a structure begins with: `{`, or `<{` where it is packed.
pub fn push_open_brace(to: &mut Vec<u8>, packed: bool) -> Result<(), AllocError>
    ensures { OnOk result (to.new.items ≡ to.old.items ++ open_brace packed) }
{
    to.extend_from_slice(if packed { b"<{" } else { b"{" })
}

/// Appends what a structure ends with: `}`, or `}>` where it is packed.
pub fn push_close_brace(to: &mut Vec<u8>, packed: bool) -> Result<(), AllocError>
    ensures { OnOk result (to.new.items ≡ to.old.items ++ close_brace packed) }
{
    to.extend_from_slice(if packed { b"}>" } else { b"}" })
}

/// Appends a comma and a blank, where something stands before them.
pub fn push_comma(to: &mut Vec<u8>, is_after: bool) -> Result<(), AllocError>
    ensures { OnOk result (to.new.items ≡ to.old.items ++ comma is_after) }
{
    to.extend_from_slice(if is_after { b", " } else { b"" })
}

/// Appends a type. Where memory runs out, a part of its text may have been appended.
#[cycle(types)]
pub fn push_ty(names: &Names, ty: &Ty, to: &mut Vec<u8>) -> Result<(), AllocError>
    ensures { OnOk result (to.new.items ≡ to.old.items ++ ty_text names.now ty.now) }
{
    match ty {
        Ty::Int(bits) => push_keyword(to, Keyword::Integer(*bits)),
        Ty::Ptr => push_keyword(to, Keyword::Ptr),
        Ty::Void => push_keyword(to, Keyword::Void),
        Ty::Array(count, element) => push_array(names, *count, element, to),
        Ty::Struct(fields, packed) => push_struct(names, fields, *packed, to),
        Ty::Named(id) => push_local(to, name_of(names, *id)),
    }
}

/// Appends the type of so many elements of a type.
#[cycle(types)]
fn push_array(names: &Names, count: u64, element: &Ty, to: &mut Vec<u8>) -> Result<(), AllocError>
    ensures { OnOk result (to.new.items ≡ to.old.items
        ++ 91 ∷ (text_of_symbol (NumberSymbol (pos count)) ++ (32 ∷ 120 ∷ 32 ∷ (ty_text names.now element.now ++ 93 ∷ [])))) }
{
    to.push(b'[')?;
    push_number(to, count as i128)?;
    to.extend_from_slice(b" x ")?;
    push_ty(names, element, to)?;
    to.push(b']')?;
    Ok(())
}

/// Appends the type of a structure of these fields.
#[cycle(types)]
fn push_struct(
    names: &Names,
    fields: &[Ty],
    packed: bool,
    to: &mut Vec<u8>,
) -> Result<(), AllocError>
    ensures { OnOk result (to.new.items ≡ to.old.items
        ++ (open_brace packed ++ (in_row false (map (ty_text names.now) fields.now) ++ close_brace packed))) }
{
    push_open_brace(to, packed)?;
    push_tys(names, fields, false, to)?;
    push_close_brace(to, packed)?;
    Ok(())
}

/// Appends types in a row, with a comma and a blank between them, and before the first where something
/// stands before it.
#[cycle(types)]
pub fn push_tys(
    names: &Names,
    tys: &[Ty],
    is_after: bool,
    to: &mut Vec<u8>,
) -> Result<(), AllocError>
    ensures { OnOk result (to.new.items ≡ to.old.items
        ++ in_row is_after (map (ty_text names.now) tys.now)) }
{
    let mut needs_comma = is_after;
    for ty in tys {
        push_comma(to, needs_comma)?;
        push_ty(names, ty, to)?;
        needs_comma = true;
    }
    Ok(())
}
