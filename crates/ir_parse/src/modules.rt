//! Modules, item by item.

ghost use Rattle.std.specs.Prelude.{◌≡◌, ◌^◌, ◌<◌, [], length, slice_range, true, IfOk};
ghost use Rattle.grammar.specs.Code.{Gives};
ghost use Rattle.ir_lex.specs.Symbols.{symbols_of};
ghost use Rattle.ir_tree.specs.ShapeOf.{module_shape};
ghost use Rattle.ir_tree.specs.Known.{module_known};
ghost use Rattle.ir_grammar_modules.specs.Modules.{run_module};
ghost use Rattle.ir_parse.specs.Answers.{error_of, ReadsWhole};
ghost use Rattle.ir_parse.specs.Drafts.{draft_shape, draft_known};
ghost use Rattle.ir_parse.specs.Spots.{AreSpots};

use crate::draft::Draft;
use crate::error::ParseError;
use crate::items::{begins_item, item_at};
use grammar::Stop;
use ir_const::place_of;
use ir_lex::Token;
use ir_read_modules::start_at;
use ir_tree::module::Module;
use ir_tree::names::Names;
use ir_tree::parsed::Parsed;
use sha2::{Digest, Sha256};
use std::alloc::Global;

/// Returns the items from the first token on, as far as they go, and the number of the next token.
fn items_at(
    alloc: Global,
    text: &[u8],
    toks: &[Token],
    names: &mut Names,
) -> Result<(Draft, usize), Stop>
    requires room { length toks.now < 2 ^ 31 }
    requires empty { names.old ≡ [] }
    ensures known { IfOk result (λ x. draft_known (length names.new) x.0 ≡ true) }
    ensures reads { Gives (draft_shape names.new) (symbols_of text.now toks.now) result
        (run_module (length toks.now) (symbols_of text.now toks.now)) }
    ensures spots { IfOk result (λ x. AreSpots text.now (slice_range toks.now 0 x.1)
        (draft_shape names.new x.0) x.0.spots) }
{
    let mut draft = Draft::new(alloc);
    let mut next = 0;
    for _ in 0..toks.len() {
        if !begins_item(text, toks, next) {
            return Ok((draft, next));
        }
        let spot = start_at(toks, next);
        let (item, end) = item_at(alloc, text, toks, next, toks.len(), names)?;
        draft.add(item, spot)?;
        next = end;
    }
    Ok((draft, next))
}

/// Tells why there is no module, where the reader of the items stopped so.
fn error_of(text: &[u8], toks: &[Token], stop: Stop) -> ParseError
    ensures { result ≡ error_of text.now toks.now stop }
{
    match stop {
        Stop::OutOfMemory => ParseError::OutOfMemory,
        Stop::WrongSymbol(number) => ParseError::Syntax {
            at: place_of(text, toks, number),
        },
    }
}

/// Returns the module that all tokens spell, however many brackets are open.
pub fn module_of(alloc: Global, text: &[u8], toks: &[Token]) -> Result<Parsed, ParseError>
    requires { length toks.now < 2 ^ 31 }
    ensures reads { ReadsWhole text.now toks.now result }
    ensures spots { IfOk result (λ p. AreSpots text.now toks.now (module_shape p.«module») p.spots) }
    ensures known { IfOk result (λ p. module_known p.«module» ≡ true) }
{
    let mut names = Names::keyed(alloc, &Sha256::digest(text));
    let (draft, next) = match items_at(alloc, text, toks, &mut names) {
        Ok(read) => read,
        Err(stop) => return Err(error_of(text, toks, stop)),
    };
    if next < toks.len() {
        return Err(ParseError::Syntax {
            at: place_of(text, toks, next),
        });
    }
    let Draft {
        types,
        globals,
        declares,
        functions,
        spots,
    } = draft;
    let module = Module {
        names,
        types,
        globals,
        declares,
        functions,
    };
    Ok(Parsed { module, spots })
}
