//! Lines and blocks, appended part by part.

ghost use Rattle.std.specs.Prelude.{◌≡◌, ◌++◌, map, option_map, OnOk};
ghost use Rattle.std.specs.List.{flat_map};
ghost use Rattle.ir_tree.specs.ShapeOf.{name_shape, body_shape, inst_shape, block_shape};
ghost use Rattle.ir_print.specs.Texts.{body_text, result_text, line_text, block_text};

use crate::instructions::{
    push_alloca, push_binary, push_call, push_convert, push_freeze, push_gep, push_icmp, push_load,
    push_phi, push_select, push_store,
};
use crate::operands::{push_label_name, push_local_name, push_word};
use crate::terminators::{push_branch, push_jump, push_ret, push_ret_void, push_switch};
use ir_lex::Keyword;
use ir_tree::module::{Block, Body, Inst};
use ir_tree::names::{NameId, Names};
use std::alloc::AllocError;

/// Appends what an instruction does.
fn push_body(names: &Names, body: &Body, to: &mut Vec<u8>) -> Result<(), AllocError>
    ensures { OnOk result (to.new.items ≡ to.old.items ++ body_text (body_shape names.now body.now)) }
{
    match body {
        Body::Phi(ty, inputs) => push_phi(names, ty, inputs, to),
        Body::Binary(operation, flags, ty, left, right) => {
            push_binary(names, *operation, *flags, ty, left, right, to)
        }
        Body::Icmp(predicate, ty, left, right) => {
            push_icmp(names, *predicate, ty, left, right, to)
        }
        Body::Select(condition, yes, no) => push_select(names, condition, yes, no, to),
        Body::Convert(conversion, ty, value, into) => {
            push_convert(names, *conversion, ty, value, into, to)
        }
        Body::Freeze(ty, value) => push_freeze(names, ty, value, to),
        Body::Alloca(ty, count) => push_alloca(names, ty, *count, to),
        Body::Load(ty, address) => push_load(names, ty, address, to),
        Body::Store(value, address) => push_store(names, value, address, to),
        Body::Gep(inbounds, ty, base, indices) => {
            push_gep(names, *inbounds, ty, base, indices, to)
        }
        Body::Call(ty, callee, arguments) => push_call(names, ty, callee, arguments, to),
        Body::Jump(target) => push_jump(names, *target, to),
        Body::Branch(condition, yes, no) => push_branch(names, condition, *yes, *no, to),
        Body::Switch(value, otherwise, cases) => push_switch(names, value, *otherwise, cases, to),
        Body::RetVoid => push_ret_void(to),
        Body::Ret(value) => push_ret(names, value, to),
        Body::Unreachable => push_word(to, Keyword::Unreachable),
    }
}

/// Appends the name of a result and `=`, if there is one.
fn push_result(names: &Names, named: Option<NameId>, to: &mut Vec<u8>) -> Result<(), AllocError>
    ensures { OnOk result (to.new.items ≡ to.old.items
        ++ result_text (option_map (name_shape names.now) named)) }
{
    match named {
        None => Ok(()),
        Some(id) => {
            push_local_name(names, id, to)?;
            to.extend_from_slice(b" = ")?;
            Ok(())
        }
    }
}

/// Appends a line of a block, with its line feed.
fn push_line(names: &Names, inst: &Inst, to: &mut Vec<u8>) -> Result<(), AllocError>
    ensures { OnOk result (to.new.items ≡ to.old.items ++ line_text (inst_shape names.now inst.now)) }
{
    to.extend_from_slice(b"  ")?;
    push_result(names, inst.result, to)?;
    push_body(names, &inst.body, to)?;
    to.push(b'\n')?;
    Ok(())
}

/// Appends the lines of a block.
fn push_lines(names: &Names, insts: &[Inst], to: &mut Vec<u8>) -> Result<(), AllocError>
    ensures { OnOk result (to.new.items ≡ to.old.items
        ++ flat_map line_text (map (inst_shape names.now) insts.now)) }
{
    for inst in insts {
        push_line(names, inst, to)?;
    }
    Ok(())
}

/// Appends a block: its label, and its lines.
fn push_block(names: &Names, block: &Block, to: &mut Vec<u8>) -> Result<(), AllocError>
    ensures { OnOk result (to.new.items ≡ to.old.items
        ++ block_text (block_shape names.now block.now)) }
{
    push_label_name(names, block.name, to)?;
    to.push(b'\n')?;
    push_lines(names, &block.insts, to)?;
    Ok(())
}

/// Appends blocks.
pub fn push_blocks(names: &Names, blocks: &[Block], to: &mut Vec<u8>) -> Result<(), AllocError>
    ensures { OnOk result (to.new.items ≡ to.old.items
        ++ flat_map block_text (map (block_shape names.now) blocks.now)) }
{
    for block in blocks {
        push_block(names, block, to)?;
    }
    Ok(())
}
