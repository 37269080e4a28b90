//! Whole texts under one flip, from moves between their places: programs with loops too. Definitions and laws;
//! there is no code here.
#![tactic(auto)]

ghost use Rattle.std.specs.Prelude.{ℕ};
ghost use Rattle.rv_flips.specs.Assertion.{Assertion};
ghost use Rattle.flip_texts.specs.Texts.{SequencesMove, WaysEnd, RelationEnds, TextsSurvive, WaysSurvive};

/// States that a sequence that stands in the text moves from one view to another.
pub fn sequences_move()
    ensures { SequencesMove }
{}

/// States that moves from place to place, and an end, are an end.
pub fn ways_end()
    ensures { WaysEnd }
{}

/// What is known after a number of moves.
pub trait KnownAfter {
    ghost holds: { ℕ → Assertion → Type 0 };
}

/// States that a relation that each of n moves keeps leads to an end, where one follows after n.
pub fn relations_end<R: KnownAfter>()
    ensures { RelationEnds R.holds }
{}

/// States that a text that makes its stack pointer three times and then comes to an end, by whatever moves,
/// survives every flip outside a list that has all of its window points.
pub fn texts_survive()
    ensures ends { TextsSurvive }
    ensures ways { WaysSurvive }
{}
