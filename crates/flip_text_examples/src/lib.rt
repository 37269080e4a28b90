//! A text with its words written out, to which the laws of guarded sequences, of bytes, of blocks and of whole
//! texts apply: their premises can be met. Definitions and laws; there is no code here.
#![tactic(auto)]

ghost use Rattle.flip_text_examples.specs.Text.{TextHolds};

/// States that a text of 175 words, which stores in a block and loads from it, puts out a byte, reads one, chooses
/// and ends with what was chosen, survives every flip outside a list that has all of its window points.
pub fn a_text_holds()
    ensures { TextHolds }
{}
