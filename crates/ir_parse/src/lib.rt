//! Modules, read from tokens.
#![tactic(auto)]

ghost use Rattle.std.specs.Prelude.{◌≡◌, ◌^◌, ◌<◌, length, true, IfOk};
ghost use Rattle.ir_tree.specs.ShapeOf.{module_shape};
ghost use Rattle.ir_tree.specs.Known.{module_known};
ghost use Rattle.ir_parse.specs.Answers.{Parses};
ghost use Rattle.ir_parse.specs.Spots.{AreSpots};

mod draft;
mod error;
mod functions;
mod items;
mod modules;

use crate::modules::module_of;
pub use error::ParseError;
use ir_const::{deep_end, place_of};
use ir_lex::Token;
use ir_tree::parsed::Parsed;
use std::alloc::Global;

/// Reads the module that the tokens spell, all of them, with the offsets of the first tokens of its items and instructions.
///
/// The tokens are those of a text, or what was kept of them. The time is linear in the tokens.
///
/// # Errors
///
/// `Deep` where some bracket is the 65th open one, with the first such bracket; else `Syntax` where the tokens spell no
/// module, with the first wrong token; `OutOfMemory`.
pub fn parse(alloc: Global, text: &[u8], toks: &[Token]) -> Result<Parsed, ParseError>
    requires { length toks.now < 2 ^ 31 }
    ensures reads { Parses text.now toks.now result }
    ensures spots { IfOk result (λ p. AreSpots text.now toks.now (module_shape p.«module») p.spots) }
    ensures known { IfOk result (λ p. module_known p.«module» ≡ true) }
{
    if let Some(end) = deep_end(text, toks, 0) {
        return Err(ParseError::Deep {
            at: place_of(text, toks, end - 1),
        });
    }
    module_of(alloc, text, toks)
}
