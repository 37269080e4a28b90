//! The printed form of symbols, the calls that append it, and the law that it is read as the same symbols.
#![tactic(auto)]

ghost use Rattle.std.specs.Prelude.{◌≡◌, List, ℕ, ◌++◌};
ghost use Rattle.ir_lex.specs.declared.token.Token.{Token};
ghost use Rattle.ir_lex.specs.Symbols.{Symbol, symbols_of};
ghost use Rattle.ir_lex.specs.Tokens.{AreTokens};
ghost use Rattle.ir_print_symbols.specs.Printed.{joined, ArePrintable, Spaced, laid_out, symbols_in, AreApart, AreBlanks, Line, text_of_lines, rows_of, AreIndented};
ghost use Rattle.ir_print_symbols.specs.Spells.{Spells};

mod pieces;

pub use pieces::{
    push_global, push_keyword, push_label, push_local, push_mark, push_number, push_text,
};

/// Proves that printed symbols are read as they were, in a row, with any blanks between them, and line
/// by line: whatever the tokens of such a text are, they mean these symbols.
pub fn printed_symbols_are_read()
    ensures in_a_row { (ss : List Symbol) → ArePrintable ss → Spells (joined ss) ss }
    ensures with_blanks { (xs : List Spaced) (tail : List ℕ) → ArePrintable (symbols_in xs) →
        AreApart xs → AreBlanks tail → Spells (laid_out xs ++ tail) (symbols_in xs) }
    ensures line_by_line { (ls : List Line) → ArePrintable (rows_of ls) → AreIndented ls →
        Spells (text_of_lines ls) (rows_of ls) }
    ensures no_others { (text : List ℕ) (ss : List Symbol) (toks : List Token) → Spells text ss →
        AreTokens text toks → symbols_of text toks ≡ ss }
{}
