//! Output, input and the end of a program, as words: each does its step. Definitions and laws; there is no code here.
#![tactic(auto)]

ghost use Rattle.done_io.specs.Bytes.{OutputsAreDone, InputsAreDone, EndsAreDone};

/// Proves that the words of `putchar` do its step.
pub fn outputs_are_done()
    ensures { OutputsAreDone }
{}

/// Proves that the words of `getchar` do its step.
pub fn inputs_are_done()
    ensures { InputsAreDone }
{}

/// Proves that the words that end a program finish with the output and the status of the meaning.
pub fn ends_are_done()
    ensures { EndsAreDone }
{}
