//! How deep named types nest.

ghost use Rattle.std.specs.Prelude.{List, length};
ghost use Rattle.ir_tree.specs.Shape.{TyShape, NamedTyShape};
ghost use Rattle.ir_layout.specs.declared.sizes.Layout.{Layout};
ghost use Rattle.ir_layout.specs.Rules.{LaidBy, NameHasWithin, HasLayout};

/// Proves that in a type that has a layout named types nest no deeper than there are named types.
pub fn names_nest_no_deeper()
    ensures { (ts : List NamedTyShape) (t : TyShape) (l : Layout) → HasLayout ts t l →
        LaidBy (NameHasWithin (length ts) ts) t l }
{}
