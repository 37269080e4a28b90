//! The layout of types: size, alignment, and where a structure's fields lie.
//!
//! `specs/Rules.antt` says, without the code, which layout a type has, where types have names; what lays out
//! a value or steps through one cites it. A module's named types are laid out once, in [`Layouts`].
#![tactic(auto)]

mod laws;
mod order;
mod sizes;
mod table;
mod types;

pub use laws::{
    fields_lie_apart, layouts_are_regular, layouts_come_of_parts, types_have_one_layout,
    what_types_hold_has_a_layout,
};
pub use order::{first_types, type_of};
pub use sizes::{
    Layout, MOST_SIZE, array_layout, field_end, field_start, integer_layout, rounded_up,
    wider_align,
};
pub use table::Layouts;
