//! Calls and returns, as words that do their steps. Definitions and laws; there is no code here.
#![tactic(auto)]

ghost use Rattle.done_calls.specs.Calls.{CallsAreDone};
ghost use Rattle.done_calls.specs.Example.{ACallIsDone};
ghost use Rattle.done_calls.specs.Returns.{FunctionsReturn, ResultsAreDone, ReturnsAreDone};

/// Proves that the words of a call enter the function: it has its arguments, and the address to return to.
pub fn calls_are_done()
    ensures { CallsAreDone }
{}

/// Proves that the words of a return go to the words after the call, where the result waits for the caller.
pub fn functions_return()
    ensures { FunctionsReturn }
{}

/// Proves that the words after a call take the result, if it is used, and that the caller goes on.
pub fn results_are_done()
    ensures { ResultsAreDone }
{}

/// Proves that the words of a return and those after the call do the step of the return.
pub fn returns_are_done()
    ensures { ReturnsAreDone }
{}

/// Proves of two functions whose words are written out that a call and its return are done: the premises of the
/// laws can be met.
pub fn a_call_is_done()
    ensures { ACallIsDone }
{}
