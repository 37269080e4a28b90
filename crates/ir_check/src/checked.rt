//! A module that is proper and within the limits.

ghost use Rattle.std.specs.Prelude.{◌≡◌};

use ir_names::Scopes;
use ir_tree::module::Module;
use ir_tree::parsed::{Parsed, Spots};

/// A module that was read and checked, with the tables of its names.
///
/// What [`check`](crate::check) answers is proper and within the limits: the record `IsChecked` says all that is known
/// of it, and what takes a checked module asks for that record.
#[derive(Drop)]
pub struct Checked {
    /// The module, with the places of its parts in the text.
    pub parsed: Parsed,
    /// What its names stand for.
    pub scopes: Scopes,
}

impl Checked {
    /// Returns the module.
    pub fn module(&self) -> &Module
        ensures { result.now ≡ self.now.parsed.«module» }
    {
        &self.parsed.module
    }

    /// Returns where the parts of the module stand in the text.
    pub fn spots(&self) -> &Spots
        ensures { result.now ≡ self.now.parsed.spots }
    {
        &self.parsed.spots
    }

    /// Returns what the names of the module stand for.
    pub fn scopes(&self) -> &Scopes
        ensures { result.now ≡ self.now.scopes }
    {
        &self.scopes
    }

    /// Returns the module, moved out.
    pub fn take(self) -> Module
        ensures { result ≡ self.parsed.«module» }
    {
        self.parsed.module
    }
}
