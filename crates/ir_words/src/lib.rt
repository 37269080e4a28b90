//! The words of the language, each with what it stands for, and the numbers that digits spell.
#![tactic(auto)]

pub mod digits;
mod words;

pub use words::{
    Keyword, dropped_words_are_listed, is_align, is_caller, is_comdat, is_group_word, is_header,
    is_outside_word, is_quiet_word, keyword_head, keyword_of, language_keywords_are_listed,
    outside_words_are_listed, words_are_distinct,
};
