//! Items, appended part by part.

ghost use Rattle.std.specs.Prelude.{◌≡◌, ◌++◌, ◌∷◌, [], false, map, option_map, OnOk};
ghost use Rattle.std.specs.List.{flat_map};
ghost use Rattle.ir_tree.specs.ShapeOf.{module_shape, name_shape, ty_shape, param_shape, named_ty_shape, global_shape, declare_shape, function_shape};
ghost use Rattle.ir_grammar_modules.specs.Spelling.{constancy_word};
ghost use Rattle.ir_print_consts.specs.Texts.{in_row};
ghost use Rattle.ir_print.specs.Texts.{type_text, global_text, name_part, parameter_text, type_line, global_line, declare_line, function_text, items_text};

use crate::blocks::push_blocks;
use crate::operands::{
    push_constant, push_global_name, push_local_name, push_spaced_type, push_type, push_word,
};
use ir_lex::Keyword;
use ir_print_consts::{push_comma, push_tys};
use ir_tree::module::{Declare, Function, GlobalItem, Module, NamedTy, Param};
use ir_tree::names::{NameId, Names};
use ir_tree::types::Ty;
use std::alloc::AllocError;

/// Returns the word that says whether a global is constant.
fn constancy_word(is_constant: bool) -> Keyword
    ensures { result ≡ constancy_word is_constant }
{
    if is_constant {
        Keyword::Constant
    } else {
        Keyword::Global
    }
}

/// Appends a type with a name, with its line feed.
fn push_named_type(names: &Names, item: &NamedTy, to: &mut Vec<u8>) -> Result<(), AllocError>
    ensures { OnOk result (to.new.items ≡ to.old.items
        ++ type_line (named_ty_shape names.now item.now)) }
{
    push_local_name(names, item.name, to)?;
    to.extend_from_slice(b" = ")?;
    push_word(to, Keyword::Type)?;
    push_spaced_type(names, &item.ty, to)?;
    to.push(b'\n')?;
    Ok(())
}

/// Appends the named types of a module.
fn push_named_types(names: &Names, items: &[NamedTy], to: &mut Vec<u8>) -> Result<(), AllocError>
    ensures { OnOk result (to.new.items ≡ to.old.items
        ++ flat_map type_line (map (named_ty_shape names.now) items.now)) }
{
    for item in items {
        push_named_type(names, item, to)?;
    }
    Ok(())
}

/// Appends a global, with its line feed.
fn push_global_item(names: &Names, item: &GlobalItem, to: &mut Vec<u8>) -> Result<(), AllocError>
    ensures { OnOk result (to.new.items ≡ to.old.items
        ++ global_line (global_shape names.now item.now)) }
{
    push_global_name(names, item.name, to)?;
    to.extend_from_slice(b" = ")?;
    push_word(to, constancy_word(item.constant))?;
    push_spaced_type(names, &item.ty, to)?;
    to.push(b' ')?;
    push_constant(names, &item.init, to)?;
    to.push(b'\n')?;
    Ok(())
}

/// Appends the globals of a module.
fn push_globals(names: &Names, items: &[GlobalItem], to: &mut Vec<u8>) -> Result<(), AllocError>
    ensures { OnOk result (to.new.items ≡ to.old.items
        ++ flat_map global_line (map (global_shape names.now) items.now)) }
{
    for item in items {
        push_global_item(names, item, to)?;
    }
    Ok(())
}

/// Appends types in a row, with a comma and a blank between them.
#[tactic(auto, using(crate::proofs::Rows::types_row))]
fn push_types(names: &Names, tys: &[Ty], to: &mut Vec<u8>) -> Result<(), AllocError>
    ensures { OnOk result (to.new.items ≡ to.old.items
        ++ in_row false (map type_text (map (ty_shape names.now) tys.now))) }
{
    push_tys(names, tys, false, to)
}

/// Appends the name of a parameter after a blank, if it has one.
fn push_parameter_name(
    names: &Names,
    name: Option<NameId>,
    to: &mut Vec<u8>,
) -> Result<(), AllocError>
    ensures { OnOk result (to.new.items ≡ to.old.items
        ++ name_part (option_map (name_shape names.now) name)) }
{
    match name {
        None => Ok(()),
        Some(id) => {
            to.push(b' ')?;
            push_local_name(names, id, to)?;
            Ok(())
        }
    }
}

/// Appends a parameter.
fn push_parameter(names: &Names, param: &Param, to: &mut Vec<u8>) -> Result<(), AllocError>
    ensures { OnOk result (to.new.items ≡ to.old.items
        ++ parameter_text (param_shape names.now param.now)) }
{
    push_type(names, &param.ty, to)?;
    push_parameter_name(names, param.name, to)?;
    Ok(())
}

/// Appends parameters, with a comma and a blank between them.
fn push_parameters(names: &Names, params: &[Param], to: &mut Vec<u8>) -> Result<(), AllocError>
    ensures { OnOk result (to.new.items ≡ to.old.items
        ++ in_row false (map parameter_text (map (param_shape names.now) params.now))) }
{
    let mut needs_comma = false;
    for param in params {
        push_comma(to, needs_comma)?;
        push_parameter(names, param, to)?;
        needs_comma = true;
    }
    Ok(())
}

/// Appends what a signature begins with: after a blank the type of what is returned, the name, and `(`.
fn push_signature_start(
    names: &Names,
    ret: &Ty,
    name: NameId,
    to: &mut Vec<u8>,
) -> Result<(), AllocError>
    ensures { OnOk result (to.new.items ≡ to.old.items
        ++ 32 ∷ (type_text (ty_shape names.now ret.now) ++ 32 ∷ (global_text (name_shape names.now name) ++ 40 ∷ []))) }
{
    push_spaced_type(names, ret, to)?;
    to.push(b' ')?;
    push_global_name(names, name, to)?;
    to.push(b'(')?;
    Ok(())
}

/// Appends a declared function, with its line feed.
fn push_declare(names: &Names, item: &Declare, to: &mut Vec<u8>) -> Result<(), AllocError>
    ensures { OnOk result (to.new.items ≡ to.old.items
        ++ declare_line (declare_shape names.now item.now)) }
{
    push_word(to, Keyword::Declare)?;
    push_signature_start(names, &item.ret, item.name, to)?;
    push_types(names, &item.params, to)?;
    to.extend_from_slice(b")\n")?;
    Ok(())
}

/// Appends the declared functions of a module.
fn push_declares(names: &Names, items: &[Declare], to: &mut Vec<u8>) -> Result<(), AllocError>
    ensures { OnOk result (to.new.items ≡ to.old.items
        ++ flat_map declare_line (map (declare_shape names.now) items.now)) }
{
    for item in items {
        push_declare(names, item, to)?;
    }
    Ok(())
}

/// Appends a function.
fn push_function(names: &Names, item: &Function, to: &mut Vec<u8>) -> Result<(), AllocError>
    ensures { OnOk result (to.new.items ≡ to.old.items
        ++ function_text (function_shape names.now item.now)) }
{
    push_word(to, Keyword::Define)?;
    push_signature_start(names, &item.ret, item.name, to)?;
    push_parameters(names, &item.params, to)?;
    to.extend_from_slice(b") {\n")?;
    push_blocks(names, &item.blocks, to)?;
    to.extend_from_slice(b"}\n")?;
    Ok(())
}

/// Appends the functions of a module.
fn push_functions(names: &Names, items: &[Function], to: &mut Vec<u8>) -> Result<(), AllocError>
    ensures { OnOk result (to.new.items ≡ to.old.items
        ++ flat_map function_text (map (function_shape names.now) items.now)) }
{
    for item in items {
        push_function(names, item, to)?;
    }
    Ok(())
}

/// Appends the items of a module.
pub fn push_items(module: &Module, to: &mut Vec<u8>) -> Result<(), AllocError>
    ensures { OnOk result (to.new.items ≡ to.old.items ++ items_text (module_shape «module».now)) }
{
    push_named_types(&module.names, &module.types, to)?;
    push_globals(&module.names, &module.globals, to)?;
    push_declares(&module.names, &module.declares, to)?;
    push_functions(&module.names, &module.functions, to)?;
    Ok(())
}
