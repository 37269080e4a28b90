//! What follows from the form of a module.

ghost use Rattle.std.specs.Prelude.{◌≡◌, ℕ, ◌+◌, ◌-◌, ◌<◌, true, Some, None, length, slice_get};
ghost use Rattle.ir_tree.specs.Shape.{ModuleShape, NamedTyShape, GlobalShape, DeclareShape, FunctionShape, BlockShape, InstShape};
ghost use Rattle.ir_forms.specs.Types.{HasTyForm};
ghost use Rattle.ir_forms.specs.Instructions.{is_phi, is_terminator, HasBodyForm};
ghost use Rattle.ir_forms.specs.Modules.{HasForm, HasGlobalForm, HasDeclareForm, HasFunctionForm, HasBlockForm};

/// Proves of a module with its form that each of its parts has its own.
pub fn parts_have_form()
    ensures types { (m : ModuleShape) (k : ℕ) (t : NamedTyShape) → HasForm m →
        slice_get m.types k ≡ Some t → HasTyForm t.ty }
    ensures globals { (m : ModuleShape) (k : ℕ) (g : GlobalShape) → HasForm m →
        slice_get m.globals k ≡ Some g → HasGlobalForm g }
    ensures declares { (m : ModuleShape) (k : ℕ) (d : DeclareShape) → HasForm m →
        slice_get m.declares k ≡ Some d → HasDeclareForm d }
    ensures functions { (m : ModuleShape) (k : ℕ) (f : FunctionShape) → HasForm m →
        slice_get m.functions k ≡ Some f → HasFunctionForm f }
    ensures blocks { (f : FunctionShape) (k : ℕ) (b : BlockShape) → HasFunctionForm f →
        slice_get f.blocks k ≡ Some b → HasBlockForm b }
    ensures instructions { (b : BlockShape) (k : ℕ) (x : InstShape) → HasBlockForm b →
        slice_get b.insts k ≡ Some x → HasBodyForm x.body }
{}

/// Proves of a block with its form that its last instruction is a terminator without a name, that no other one
/// is a terminator, and that before a phi only phis stand.
pub fn blocks_have_order()
    ensures ends { (b : BlockShape) → HasBlockForm b → (x : InstShape) ×
        (slice_get b.insts (length b.insts - 1) ≡ Some x) ×
        (is_terminator x.body ≡ true) × (x.result ≡ None) }
    ensures once { (b : BlockShape) (k : ℕ) (x : InstShape) → HasBlockForm b →
        slice_get b.insts k ≡ Some x → is_terminator x.body ≡ true → k + 1 ≡ length b.insts }
    ensures phis_first { (b : BlockShape) (j k : ℕ) (x y : InstShape) → HasBlockForm b →
        slice_get b.insts j ≡ Some x → slice_get b.insts k ≡ Some y → j < k →
        is_phi y.body ≡ true → is_phi x.body ≡ true }
{}
