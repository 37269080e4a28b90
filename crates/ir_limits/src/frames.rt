//! The frame of a function: the bytes that it takes on the stack.

ghost use Rattle.std.specs.Prelude.{◌≡◌, List, ℕ, true, length, map, is_some, IfSome};
ghost use Rattle.std.specs.List.{list_all};
ghost use Rattle.ir_tree.specs.Known.{module_known, function_known, block_known, inst_known, body_known, ty_known};
ghost use Rattle.ir_tree.specs.ShapeOf.{ty_shape, body_shape, inst_shape, block_shape, function_shape, module_shape};
ghost use Rattle.ir_layout.specs.declared.sizes.Layout.{Layout};
ghost use Rattle.ir_layout.specs.Layout.{next_multiple};
ghost use Rattle.ir_layout.specs.Rules.{HasLayout, IsSized};
ghost use Rattle.ir_layout.specs.Tables.{IsWholeTable};
ghost use Rattle.ir_proper.specs.FlowRules.{phi_inputs};
ghost use Rattle.ir_proper.specs.Limits.{capped, alloca_room, TakesRoom, HasFrame};
ghost use Rattle.ir_limits.specs.Sums.{HaveSum, IsTold};
ghost use Rattle.ir_limits.specs.Shares.{own_bytes, TakesBytes};

use crate::counts::gives_value;
use ir_layout::Layouts;
use ir_sizes::size_of;
use ir_tree::module::{Block, Body, Function, Inst, Module};
use ir_tree::types::Ty;

/// Returns the first multiple of 16 that isn't below so many bytes.
pub fn rounded_up(bytes: u128) -> u64
    ensures { result ≡ capped (next_multiple 16 bytes) }
{
    if bytes > (u64::MAX - 15) as u128 {
        return u64::MAX;
    }
    (bytes as u64 + 15) / 16 * 16
}

/// Returns the bytes that an alloca of so many values of a size takes.
fn alloca_room(count: i128, size: u64) -> u64
    ensures { result ≡ capped (alloca_room count size) }
{
    let bytes = count.unsigned_abs().saturating_mul(size as u128);
    rounded_up(bytes.max(1))
}

/// Returns the size of a type: by the table of layouts if there is one, else found anew.
pub fn size_in(m: &Module, layouts: Option<&Layouts>, ty: &Ty) -> u64
    requires known { module_known m.now ≡ true }
    requires table { IfSome layouts (λ t. IsWholeTable m.now t.now) }
    requires names { ty_known (length m.now.names) ty.now ≡ true }
    requires sized { IsSized (module_shape m.now).types (ty_shape m.now.names ty.now) }
    ensures { (l : Layout) →
        HasLayout (module_shape m.now).types (ty_shape m.now.names ty.now) l → result ≡ l.size }
{
    match layouts {
        Some(layouts) => layouts.layout_of(ty).unwrap().size,
        None => size_of(m, ty),
    }
}

/// Returns the bytes that what an instruction does takes in a frame.
fn room_of(m: &Module, layouts: Option<&Layouts>, body: &Body) -> u64
    requires known { module_known m.now ≡ true }
    requires table { IfSome layouts (λ t. IsWholeTable m.now t.now) }
    requires names { body_known (length m.now.names) body.now ≡ true }
    requires sized { (n : ℕ) × TakesRoom (module_shape m.now).types
        (body_shape m.now.names body.now) n }
    ensures { IsTold (TakesRoom (module_shape m.now).types (body_shape m.now.names body.now))
        result }
{
    match body {
        Body::Alloca(ty, count) => alloca_room(*count, size_in(m, layouts, ty)),
        Body::Phi(_, _)
        | Body::Binary(_, _, _, _, _)
        | Body::Icmp(_, _, _, _)
        | Body::Select(_, _, _)
        | Body::Convert(_, _, _, _)
        | Body::Freeze(_, _)
        | Body::Load(_, _)
        | Body::Store(_, _)
        | Body::Gep(_, _, _, _)
        | Body::Call(_, _, _)
        | Body::Jump(_)
        | Body::Branch(_, _, _)
        | Body::Switch(_, _, _)
        | Body::RetVoid
        | Body::Ret(_)
        | Body::Unreachable => 0,
    }
}

/// Tells whether an instruction is a phi.
fn is_phi(body: &Body) -> bool
    ensures { (names : List (List ℕ)) → result ≡ is_some (phi_inputs (body_shape names body.now)) }
{
    match body {
        Body::Phi(_, _) => true,
        Body::Binary(_, _, _, _, _)
        | Body::Icmp(_, _, _, _)
        | Body::Select(_, _, _)
        | Body::Convert(_, _, _, _)
        | Body::Freeze(_, _)
        | Body::Alloca(_, _)
        | Body::Load(_, _)
        | Body::Store(_, _)
        | Body::Gep(_, _, _, _)
        | Body::Call(_, _, _)
        | Body::Jump(_)
        | Body::Branch(_, _, _)
        | Body::Switch(_, _, _)
        | Body::RetVoid
        | Body::Ret(_)
        | Body::Unreachable => false,
    }
}

/// Returns the bytes that an instruction takes in a frame for itself, without what it makes room for.
fn own_bytes(inst: &Inst) -> u64
    ensures { (names : List (List ℕ)) → result ≡ own_bytes (inst_shape names inst.now) }
{
    let value = if gives_value(inst) { 40 } else { 0 };
    let phi = if is_phi(&inst.body) { 24 } else { 0 };
    value + phi
}

/// Returns the bytes that instructions take in a frame.
fn bytes_of_insts(m: &Module, layouts: Option<&Layouts>, insts: &[Inst]) -> u64
    requires known { module_known m.now ≡ true }
    requires table { IfSome layouts (λ t. IsWholeTable m.now t.now) }
    requires names { list_all (inst_known (length m.now.names)) insts.now ≡ true }
    requires sized { (n : ℕ) × HaveSum (TakesBytes (module_shape m.now).types)
        (map (inst_shape m.now.names) insts.now) n }
    ensures { IsTold (HaveSum (TakesBytes (module_shape m.now).types)
        (map (inst_shape m.now.names) insts.now)) result }
{
    let mut total = 0u64;
    for inst in insts {
        let bytes = room_of(m, layouts, &inst.body).saturating_add(own_bytes(inst));
        total = total.saturating_add(bytes);
    }
    total
}

/// Returns the bytes that the instructions of blocks take in a frame.
fn bytes_of_blocks(m: &Module, layouts: Option<&Layouts>, blocks: &[Block]) -> u64
    requires known { module_known m.now ≡ true }
    requires table { IfSome layouts (λ t. IsWholeTable m.now t.now) }
    requires names { list_all (block_known (length m.now.names)) blocks.now ≡ true }
    requires sized { (n : ℕ) ×
        HaveSum (λ b. HaveSum (TakesBytes (module_shape m.now).types) b.insts)
        (map (block_shape m.now.names) blocks.now) n }
    ensures { IsTold (HaveSum (λ b. HaveSum (TakesBytes (module_shape m.now).types) b.insts)
        (map (block_shape m.now.names) blocks.now)) result }
{
    let mut total = 0u64;
    for block in blocks {
        total = total.saturating_add(bytes_of_insts(m, layouts, &block.insts));
    }
    total
}

/// Returns the bytes of the frame of a function: by the table of layouts if there is one, else by sizes
/// that are found anew.
pub fn frame_in(m: &Module, layouts: Option<&Layouts>, f: &Function) -> u64
    requires known { module_known m.now ≡ true }
    requires table { IfSome layouts (λ t. IsWholeTable m.now t.now) }
    requires names { function_known (length m.now.names) f.now ≡ true }
    requires sized { (n : ℕ) × HasFrame (module_shape m.now).types
        (function_shape m.now.names f.now) n }
    ensures { HasFrame (module_shape m.now).types (function_shape m.now.names f.now) result }
{
    let params = (f.params.len() as u64).saturating_mul(48);
    let insts = bytes_of_blocks(m, layouts, &f.blocks);
    rounded_up(insts.saturating_add(params).saturating_add(64) as u128)
}

/// Returns the bytes of the frame of a function of a module: what it takes on the stack.
///
/// This takes no memory: sizes are found anew, in the time of `ir_sizes::size_of` for each alloca. A function
/// of a module whose types are proper has what this needs, as the law `functions_have_frames` says.
pub fn frame(m: &Module, f: &Function) -> u64
    requires known { module_known m.now ≡ true }
    requires names { function_known (length m.now.names) f.now ≡ true }
    requires sized { (n : ℕ) × HasFrame (module_shape m.now).types
        (function_shape m.now.names f.now) n }
    ensures { HasFrame (module_shape m.now).types (function_shape m.now.names f.now) result }
{
    frame_in(m, None, f)
}
