//! The words that compute the operations of the language, on values that are kept extended by their sign.
//!
//! `specs/Words.antt` has the words of each operation, comparison and conversion at each width of 1 to 64 bits,
//! `specs/Laws.antt` what it is for them to compute it. There is no code: contracts are the laws.
#![tactic(auto)]

ghost use Rattle.op_words.specs.Laws.{BinaryWordsCompute, ComparisonWordsCompute};
ghost use Rattle.op_words.specs.Laws.{ConversionWordsCompute, WordsArePure};

/// Proves that the words of each binary operation leave the word of its result, at any width, where the
/// operation has a result that isn't poison.
pub fn binary_words_compute()
    ensures { BinaryWordsCompute }
{}

/// Proves that the words of each comparison leave the word of its `i1`, at any width.
pub fn comparison_words_compute()
    ensures { ComparisonWordsCompute }
{}

/// Proves that the words of each conversion leave the word of the same number at the other width.
pub fn conversion_words_compute()
    ensures { ConversionWordsCompute }
{}

/// Proves that all these words compute in scratch registers alone, and touch nothing else.
pub fn words_are_pure()
    ensures { WordsArePure }
{}
