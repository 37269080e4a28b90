//! The choice between two values, as words that do its step. Definitions and laws; there is no code here.
#![tactic(auto)]

ghost use Rattle.done_select.specs.Select.{SelectsAreDone};

/// Proves that the words of a choice do its step, where the value that isn't chosen may be poison.
pub fn selects_are_done()
    ensures { SelectsAreDone }
{}
