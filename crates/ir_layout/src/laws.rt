//! The laws of layouts.

ghost use Rattle.std.specs.Prelude.{◌≡◌, ◌↔◌, ◌+◌, ◌*◌, ◌<◌, ◌≤◌, List, ◌∷◌, ℕ, Bool, false, Some, length, slice_get};
ghost use Rattle.ir_tree.specs.Shape.{TyShape, TyShapes, NamedTyShape, array, structure, types, named};
ghost use Rattle.ir_layout.specs.declared.sizes.Layout.{Layout};
ghost use Rattle.ir_layout.specs.Layout.{array_layout, structure_layout, field_offset, most_size, IsMultiple, IsRegular};
ghost use Rattle.ir_layout.specs.Rules.{named_ty, HasLayout, HaveLayouts, HoldsInside, HoldsName, IsSized};

/// Proves that a type has at most one layout, and so have the types of a row.
pub fn types_have_one_layout()
    ensures one { (ts : List NamedTyShape) (t : TyShape) (l other : Layout) → HasLayout ts t l →
        HasLayout ts t other → l ≡ other }
    ensures row { (ts : List NamedTyShape) (row : TyShapes) (ls others : List Layout) →
        HaveLayouts ts row ls → HaveLayouts ts row others → ls ≡ others }
{}

/// Proves how a layout comes of those of the parts: of an array's element, of a structure's fields, and of
/// the type that a name stands for.
pub fn layouts_come_of_parts()
    ensures array { (ts : List NamedTyShape) (count : ℕ) (t : TyShape) (l : Layout) →
        HasLayout ts (array count t) l ↔ ((element : Layout) × HasLayout ts t element
        × (count * element.size ≤ most_size) × (l ≡ array_layout count element)) }
    ensures structure { (ts : List NamedTyShape) (row : TyShapes) (packed : Bool) (l : Layout) →
        HasLayout ts (structure row packed) l ↔ ((ls : List Layout) × HaveLayouts ts row ls
        × ((structure_layout packed ls).size ≤ most_size) × (l ≡ structure_layout packed ls)) }
    ensures row { (ts : List NamedTyShape) (t : TyShape) (row : TyShapes) (l : Layout)
        (ls : List Layout) → HaveLayouts ts (types t row) (l ∷ ls)
        ↔ (HasLayout ts t l × HaveLayouts ts row ls) }
    ensures name { (ts : List NamedTyShape) (name : List ℕ) (l : Layout) →
        HasLayout ts (named name) l
        ↔ ((t : TyShape) × (named_ty ts name ≡ Some t) × HasLayout ts t l) }
{}

/// Proves of each layout of a type that its alignment is 1 to 8, and that its size is a multiple of it
/// and isn't too great.
pub fn layouts_are_regular()
    ensures { (ts : List NamedTyShape) (t : TyShape) (l : Layout) → HasLayout ts t l → IsRegular l }
{}

/// Proves that a type has a layout only where each named type that it holds by value has one, and that a
/// named type that holds itself, directly or through others, has none.
pub fn what_types_hold_has_a_layout()
    ensures held { (ts : List NamedTyShape) (t : TyShape) (name : List ℕ) → IsSized ts t →
        HoldsName t name → IsSized ts (named name) }
    ensures never_itself { (ts : List NamedTyShape) (name : List ℕ) → HoldsInside ts name name →
        IsSized ts (named name) → ⊥ }
{}

/// Proves of the fields of a structure that each ends where a later one begins or before, that each ends
/// within the structure, and that each begins at a multiple of its alignment where it isn't packed.
pub fn fields_lie_apart()
    ensures apart { (packed : Bool) (fields : List Layout) (j k : ℕ) (field : Layout) → j < k →
        k < length fields → slice_get fields j ≡ Some field →
        field_offset packed 0 fields j + field.size ≤ field_offset packed 0 fields k }
    ensures within { (packed : Bool) (fields : List Layout) (k : ℕ) (field : Layout) →
        slice_get fields k ≡ Some field →
        field_offset packed 0 fields k + field.size ≤ (structure_layout packed fields).size }
    ensures aligned { (fields : List Layout) (k : ℕ) (field : Layout) →
        slice_get fields k ≡ Some field → 0 < field.align →
        IsMultiple (field_offset false 0 fields k) field.align }
{}
