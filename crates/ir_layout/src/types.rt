//! The layout of a type, by a table of the layouts of names.

ghost use Rattle.std.specs.Prelude.{◌≡◌, map};
ghost use Rattle.ir_layout.specs.Computed.{array_of, structure_from, offset_from, named_at, ty_layout};

use crate::sizes::{
    Layout, MOST_SIZE, array_layout, field_end, field_start, integer_layout, rounded_up,
    wider_align,
};
use ir_tree::names::NameId;
use ir_tree::types::Ty;

/// Returns the layout of a name, if the table has one.
fn named_layout(layouts: &[Option<Layout>], id: NameId) -> Option<Layout>
    ensures { result ≡ named_at layouts.now id.0 }
{
    match layouts.get(id.0 as usize) {
        Some(layout) => *layout,
        None => None,
    }
}

/// Returns the layout of a type, if it has one where the names have those of the table.
#[cycle(types)]
pub fn layout_in(layouts: &[Option<Layout>], ty: &Ty) -> Option<Layout>
    ensures { result ≡ ty_layout layouts.now ty.now }
{
    match ty {
        Ty::Int(bits) => Some(integer_layout(*bits)),
        Ty::Ptr => Some(Layout { size: 8, align: 8 }),
        Ty::Void => None,
        Ty::Array(count, element) => array_in(layouts, *count, element),
        Ty::Struct(fields, packed) => structure_in(layouts, fields, *packed),
        Ty::Named(id) => named_layout(layouts, *id),
    }
}

/// Returns the layout of so many elements of a type.
#[cycle(types)]
fn array_in(layouts: &[Option<Layout>], count: u64, element: &Ty) -> Option<Layout>
    ensures { result ≡ array_of count (ty_layout layouts.now element.now) }
{
    match layout_in(layouts, element) {
        Some(element) => array_layout(count, element),
        None => None,
    }
}

/// Returns the layout of a structure of these fields.
#[cycle(types)]
fn structure_in(layouts: &[Option<Layout>], fields: &[Ty], packed: bool) -> Option<Layout>
    ensures { result ≡ structure_from packed 0 1 (map (ty_layout layouts.now) fields.now) }
{
    let mut at: u128 = 0;
    let mut align: u64 = 1;
    for field in fields {
        let field = layout_in(layouts, field)?;
        at = field_end(packed, at, field);
        if at > MOST_SIZE as u128 {
            return None;
        }
        align = wider_align(packed, align, field);
    }
    rounded_up(align, at)
}

/// Returns where the field of a number begins in a structure of these fields, if those up to it have
/// layouts and end early enough.
pub fn offset_in(
    layouts: &[Option<Layout>],
    fields: &[Ty],
    packed: bool,
    index: usize,
) -> Option<u64>
    ensures { result ≡ offset_from packed 0 (map (ty_layout layouts.now) fields.now) index }
{
    let mut at: u128 = 0;
    let mut left = index;
    for field in fields {
        let field = layout_in(layouts, field)?;
        let start = field_start(packed, at, field);
        at = field_end(packed, at, field);
        if at > MOST_SIZE as u128 {
            return None;
        }
        if left == 0 {
            return Some(start as u64);
        }
        left -= 1;
    }
    None
}
