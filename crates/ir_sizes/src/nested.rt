//! Layouts where named types nest so deep at most.

ghost use Rattle.std.specs.Prelude.{◌≡◌, length, map, true, option_copied};
ghost use Rattle.ir_tree.specs.Known.{module_known};
ghost use Rattle.ir_layout.specs.Tables.{type_of_number};
ghost use Rattle.ir_layout.specs.Computed.{named_at, structure_from, offset_from, ty_layout};
ghost use Rattle.ir_sizes.specs.Nested.{layouts_within};

use ir_layout::{
    Layout, MOST_SIZE, array_layout, field_end, field_start, integer_layout, rounded_up,
    wider_align,
};
use ir_tree::module::{Module, NamedTy};
use ir_tree::names::NameId;
use ir_tree::types::Ty;

/// Returns the type that a name stands for: that of the first named type with it.
pub fn first_type(types: &[NamedTy], id: NameId) -> Option<&Ty>
    ensures { option_copied result ≡ type_of_number types.now id.0 }
{
    for named in types {
        if named.name == id {
            return Some(&named.ty);
        }
    }
    None
}

/// Returns the layout of a type, if it has one where named types nest in it so deep at most.
#[cycle(layouts)]
pub fn layout_within(m: &Module, depth: usize, ty: &Ty) -> Option<Layout>
    requires { module_known m.now ≡ true }
    ensures { result ≡ ty_layout
        (layouts_within m.now.types.items (length m.now.names) depth) ty.now }
{
    match ty {
        Ty::Int(bits) => Some(integer_layout(*bits)),
        Ty::Ptr => Some(Layout { size: 8, align: 8 }),
        Ty::Void => None,
        Ty::Array(count, element) => match layout_within(m, depth, element) {
            Some(element) => array_layout(*count, element),
            None => None,
        },
        Ty::Struct(fields, packed) => structure_within(m, depth, fields, *packed),
        Ty::Named(id) => named_within(m, depth, *id),
    }
}

/// Returns the layout of a structure of these fields.
#[cycle(layouts)]
fn structure_within(m: &Module, depth: usize, fields: &[Ty], packed: bool) -> Option<Layout>
    requires { module_known m.now ≡ true }
    ensures { result ≡ structure_from packed 0 1 (map (ty_layout
        (layouts_within m.now.types.items (length m.now.names) depth)) fields.now) }
{
    let mut at: u128 = 0;
    let mut align: u64 = 1;
    for field in fields {
        let field = layout_within(m, depth, field)?;
        at = field_end(packed, at, field);
        if at > MOST_SIZE as u128 {
            return None;
        }
        align = wider_align(packed, align, field);
    }
    rounded_up(align, at)
}

/// Returns the layout of the type that a name stands for.
#[cycle(layouts)]
fn named_within(m: &Module, depth: usize, id: NameId) -> Option<Layout>
    requires { module_known m.now ≡ true }
    ensures { result ≡ named_at
        (layouts_within m.now.types.items (length m.now.names) depth) id.0 }
{
    if depth == 0 {
        return None;
    }
    match first_type(&m.types, id) {
        Some(ty) => layout_within(m, depth - 1, ty),
        None => None,
    }
}

/// Returns where the field of a number begins in a structure of these fields, if those up to it have
/// layouts and end early enough.
pub fn offset_among(
    m: &Module,
    depth: usize,
    fields: &[Ty],
    packed: bool,
    index: u64,
) -> Option<u64>
    requires { module_known m.now ≡ true }
    ensures { result ≡ offset_from packed 0 (map (ty_layout
        (layouts_within m.now.types.items (length m.now.names) depth)) fields.now) index }
{
    let mut at: u128 = 0;
    let mut left = index;
    for field in fields {
        let field = layout_within(m, depth, field)?;
        let start = field_start(packed, at, field);
        at = field_end(packed, at, field);
        if at > MOST_SIZE as u128 {
            return None;
        }
        if left == 0 {
            return Some(start as u64);
        }
        left -= 1;
    }
    None
}
