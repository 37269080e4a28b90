//! The laws of sizes and frames.

ghost use Rattle.std.specs.Prelude.{◌≡◌, ℕ, List, length};
ghost use Rattle.ir_tree.specs.Shape.{TyShape, TyShapes, ConstShape, FunctionShape, NamedTyShape, ModuleShape};
ghost use Rattle.ir_layout.specs.declared.sizes.Layout.{Layout};
ghost use Rattle.ir_layout.specs.Rules.{HasLayout, HaveLayouts};
ghost use Rattle.ir_rules.specs.Constants.{Opens, HasConst};
ghost use Rattle.ir_program.specs.Sizes.{layout_of, row_layouts, opened};
ghost use Rattle.ir_proper.specs.Limits.{HasFrame};
ghost use Rattle.ir_program.specs.Constants.{const_cells};
ghost use Rattle.ir_program.specs.Frames.{frame_of};

/// Proves that types which have layouts have those that programs count with, and open to the arrays and
/// structures that programs step into.
pub fn sizes_are_those_of_layouts()
    ensures types { (ts : List NamedTyShape) (t : TyShape) (l : Layout) → HasLayout ts t l →
        layout_of ts t ≡ l }
    ensures fields { (ts : List NamedTyShape) (row : TyShapes) (ls : List Layout) →
        HaveLayouts ts row ls → row_layouts ts row ≡ ls }
    ensures opened { (ts : List NamedTyShape) (t u : TyShape) (l : Layout) → HasLayout ts t l →
        Opens ts t u → opened ts t ≡ u }
{}

/// Proves that a constant has as many bytes as its type is large, so that a global has its type's size.
pub fn constants_fill_their_types()
    ensures { (m : ModuleShape) (c : ConstShape) (t : TyShape) (l : Layout) →
        HasLayout m.types t l → HasConst m.types c t → length (const_cells m t c) ≡ l.size }
{}

/// Proves that a function which has a frame by the limits is counted with it in its program.
pub fn frames_are_those_of_limits()
    ensures { (ts : List NamedTyShape) (f : FunctionShape) (frame : ℕ) → HasFrame ts f frame →
        frame_of ts f ≡ frame }
{}
