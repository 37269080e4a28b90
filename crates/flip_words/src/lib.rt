//! Words under one flip, and how they are joined: what a word that computes, loads or stores does to what is
//! known, and one list of words after another. Definitions and laws; there is no code here.
#![tactic(auto)]

ghost use Rattle.flip_words.specs.Joining.{ListsJoin, LessIsCarried, ChecksJoin};
ghost use Rattle.flip_words.specs.Words.{WordsCompute, AnythingIsComputed, UpperPartsAreKept};
ghost use Rattle.flip_words.specs.Words.{ConstantsAreKept, CopiesAreKept};
ghost use Rattle.flip_words.specs.Words.{SlotsAreLoaded, SlotsAreStored};

/// States that two lists of words, one after the other, carry what is known from before the first to after
/// the second.
pub fn lists_join()
    ensures { ListsJoin }
{}

/// States that what code does from less, and what less is known after it, it does also.
pub fn less_is_carried()
    ensures { LessIsCarried }
{}

/// States that a branch on two copies over any words that repair is one piece of code: where the copies are
/// equal the first one is right; where they differ the repair runs with right third copies, and no flip comes.
pub fn checks_join()
    ensures { ChecksJoin }
{}

/// States that a word that computes gives, of operands with one tag, a result with that tag.
pub fn words_compute()
    ensures { WordsCompute }
{}

/// States that a word that computes goes on whatever its operands hold.
pub fn anything_is_computed()
    ensures { AnythingIsComputed }
{}

/// States that a constant made by LUI may be kept with any tag.
pub fn upper_parts_are_kept()
    ensures { UpperPartsAreKept }
{}

/// States that a constant made by ADDI from x0 may be kept with any tag.
pub fn constants_are_kept()
    ensures { ConstantsAreKept }
{}

/// States that of a copy is known what is known of what it is a copy of.
pub fn copies_are_kept()
    ensures { CopiesAreKept }
{}

/// States that LD from a right address brings what is known of a word of the data.
pub fn slots_are_loaded()
    ensures { SlotsAreLoaded }
{}

/// States that SD to a right address leaves a word of the data with what is known of the register, and all
/// other words and bytes as they were.
pub fn slots_are_stored()
    ensures { SlotsAreStored }
{}
