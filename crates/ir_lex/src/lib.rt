//! The tokens of a text of LLVM IR.
#![tactic(auto)]

mod bytes;
mod error;
mod laws;
mod lengths;
mod meaning;
mod numbers;
mod phrases;
mod quieting;
mod scan;
mod symbols;
mod token;

pub use bytes::is_name_byte;
pub use error::LexError;
pub use ir_words::{Keyword, keyword_of};
pub use laws::{at_most_one_token_list, tokens_lie_in_order};
pub use meaning::{name_of, word_of};
pub use quieting::quiet;
pub use scan::tokens;
pub use symbols::{mark_of, number_of, text_of};
pub use token::{Kind, Token};
