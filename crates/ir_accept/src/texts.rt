//! The way from bytes to a module that is proper and within the limits.

ghost use Rattle.std.specs.Prelude.{◌^◌, ◌<◌, length};
ghost use Rattle.ir_accept.specs.Checks.{IsCheckedText};

use ir_check::{CheckError, Checked, check};
use ir_grammar_forms::spelled_modules_have_form;
use ir_source::{SourceError, read_source};
use std::alloc::Global;
use thiserror::Error;

/// Why a text has no module that is proper and within the limits: the first reason that holds.
#[derive(Clone, Copy, Debug, PartialEq, Eq, Error)]
pub enum Refusal {
    /// The text has no module.
    #[error(transparent)]
    Text(SourceError),
    /// Its module isn't proper, or passes a limit.
    #[error(transparent)]
    Module(CheckError),
}

/// Reads the module of a text, and checks that it is proper and within the limits.
///
/// The time is that of sorting the names of the text, and of one search through a function where its flow isn't
/// proper.
///
/// # Errors
///
/// The first of these that holds, and each exactly where it holds: those of [`read_source`], and then those of
/// [`check`]. Want of memory may take the place of any answer.
#[tactic(auto, using(crate::proofs::Accepted::read_form, crate::proofs::Accepted::accepted_as, crate::proofs::Accepted::refused_as))]
pub fn check_source(alloc: Global, text: &[u8]) -> Result<Checked, Refusal>
    requires short { length text.now < 2 ^ 31 }
    ensures { IsCheckedText text.now result }
{
    // What is read is spelled by the grammar, and so has the form that the check needs.
    spelled_modules_have_form();
    match read_source(alloc, text) {
        Err(error) => Err(Refusal::Text(error)),
        Ok(parsed) => match check(alloc, parsed) {
            Err(error) => Err(Refusal::Module(error)),
            Ok(checked) => Ok(checked),
        },
    }
}
