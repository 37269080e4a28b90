//! Programs with their words written out, to which the laws of flow under one flip apply: their premises can be
//! met. Definitions and laws; there is no code here.
#![tactic(auto)]

ghost use Rattle.flip_flow_examples.specs.Swap.{SwapHolds, OneByOneIsRefused};
ghost use Rattle.flip_flow_examples.specs.Choice.{ChoiceHolds};
ghost use Rattle.flip_flow_examples.specs.Countdown.{CountdownHolds};

/// States that a program of 102 words, on whose edge two phis swap their values, has the swapped values in the
/// end and survives every flip outside its window points; and that the same phis set one after another, without
/// cells, are refused.
pub fn a_swap_holds()
    ensures holds { SwapHolds }
    ensures refused { OneByOneIsRefused }
{}

/// States that a program of 93 words with a switch on a number of 64 bits ends at its third case and survives every
/// flip outside its window points.
pub fn a_choice_holds()
    ensures { ChoiceHolds }
{}

/// States that a program of 237 words, with a loop that calls a function three times and adds up, ends with the
/// status 6 and survives every flip outside its window points.
pub fn a_countdown_holds()
    ensures { CountdownHolds }
{}
