//! Calls of functions of the text, and returns, under one flip. Definitions and laws; there is no code here.
#![tactic(auto)]

ghost use Rattle.flip_calls.specs.Frames.{FramesGoDown, FramesGoUp};
ghost use Rattle.flip_calls.specs.Calls.{EntriesKeepLinks, LinksAreKept, CallsEnter, ArgumentsAreSet, CallersStay};
ghost use Rattle.flip_calls.specs.Calls.{ReturnsGo, ResultsReturn, ResultsAreTaken};

/// States that the frame goes down and up by its size, each copy of the stack pointer by a constant of its own.
pub fn frames_move()
    ensures down { FramesGoDown }
    ensures up { FramesGoUp }
{}

/// States that a jump that links, and the entry of the function that it goes to, keep the return address in a
/// slot of the frame, from which a return may take it.
pub fn links_are_kept()
    ensures entries { EntriesKeepLinks }
    ensures kept { LinksAreKept }
{}

/// States that a call goes from its caller to the function called, with a frame of its own in which the
/// arguments are; and that the frames of the callers stay as they were.
pub fn calls_enter()
    ensures enters { CallsEnter }
    ensures arguments { ArgumentsAreSet }
    ensures callers { CallersStay }
{}

/// States that a return goes to where the function was called, with a result in slots that the caller knows or
/// with none.
pub fn returns_go()
    ensures goes { ReturnsGo }
    ensures results { ResultsReturn }
{}

/// States that the caller takes the result from the frame of the function called, and has its own frame again.
pub fn results_are_taken()
    ensures { ResultsAreTaken }
{}
