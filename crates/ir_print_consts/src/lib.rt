//! The printed form of types and constants, and the law that it is read back.
//!
//! A type or a constant is printed as its spelling is: its symbols in a row (`joined`), with a blank
//! between two that don't touch. `push_ty` and `push_const` append that form part by part, for a printer
//! that has a text of its own; `print_ty` and `print_const` leave `to` as before where memory runs out.
#![tactic(auto)]

ghost use Rattle.std.specs.Prelude.{◌≡◌, List, ℕ, length, drop, ◌++◌};
ghost use Rattle.grammar.specs.FirstWrong.{Reads};
ghost use Rattle.grammar.specs.Reader.{Got};
ghost use Rattle.ir_lex.specs.declared.token.Token.{Token};
ghost use Rattle.ir_lex.specs.Symbols.{Symbol, symbols_of};
ghost use Rattle.ir_lex.specs.Tokens.{AreTokens};
ghost use Rattle.ir_print_symbols.specs.Printed.{joined, AreBytes, ArePrintable};
ghost use Rattle.ir_print_symbols.specs.Spells.{Spells};
ghost use Rattle.ir_tree.specs.Shape.{TyShape, ConstShape};
ghost use Rattle.ir_grammar_consts.specs.Types.{ty, run_ty};
ghost use Rattle.ir_grammar_consts.specs.Constants.{const, run_const};
ghost use Rattle.ir_grammar_consts.specs.Spelling.{ty_spelling, const_spelling, FitsTy, FitsConst};

mod constants;
mod printing;
mod types;

pub use constants::push_const;
pub use printing::{print_const, print_ty};
pub use types::{name_of, push_comma, push_ty, push_tys};

/// States that a printed type is read back, whatever printable symbols follow: the tokens of the text mean
/// its spelling, and the reader of types gives the type again. So it is in any text that spells the type and
/// what follows, with other blanks or on other lines, for whatever tokens that text has.
pub fn printed_types_are_read_back()
    ensures spelled { (t : TyShape) (rest : List Symbol) → ArePrintable (ty_spelling t ++ rest) →
        Spells (joined (ty_spelling t ++ rest)) (ty_spelling t ++ rest) }
    ensures back { (t : TyShape) (rest : List Symbol) (text : List ℕ) (toks : List Token) →
        FitsTy t →
        Spells text (ty_spelling t ++ rest) → AreTokens text toks →
        run_ty (length (symbols_of text toks)) (symbols_of text toks) ≡ Got t rest }
    ensures printed { (t : TyShape) (rest : List Symbol) (toks : List Token) → FitsTy t →
        ArePrintable (ty_spelling t ++ rest) →
        AreTokens (joined (ty_spelling t ++ rest)) toks →
        run_ty (length (symbols_of (joined (ty_spelling t ++ rest)) toks)) (symbols_of (joined (ty_spelling t ++ rest)) toks) ≡ Got t rest }
{}

/// States that a printed constant is read back, as a printed type is.
pub fn printed_constants_are_read_back()
    ensures spelled { (c : ConstShape) (rest : List Symbol) →
        ArePrintable (const_spelling c ++ rest) →
        Spells (joined (const_spelling c ++ rest)) (const_spelling c ++ rest) }
    ensures back { (c : ConstShape) (rest : List Symbol) (text : List ℕ) (toks : List Token) →
        FitsConst c →
        Spells text (const_spelling c ++ rest) → AreTokens text toks →
        run_const (length (symbols_of text toks)) (symbols_of text toks) ≡ Got c rest }
    ensures printed { (c : ConstShape) (rest : List Symbol) (toks : List Token) → FitsConst c →
        ArePrintable (const_spelling c ++ rest) →
        AreTokens (joined (const_spelling c ++ rest)) toks →
        run_const (length (symbols_of (joined (const_spelling c ++ rest)) toks)) (symbols_of (joined (const_spelling c ++ rest)) toks) ≡ Got c rest }
{}

/// States that types that were read are printed and read back: of what the tokens of a text of bytes spell
/// from some token on the spelling is printable, so it is spelled by its printed form, whatever printable
/// symbols follow, and the reader gives it again.
pub fn read_types_are_read_back()
    ensures printable { (text : List ℕ) (toks : List Token) (from : ℕ) (t : TyShape)
        (after : List Symbol) → AreBytes text →
        Reads ty (drop from (symbols_of text toks)) (Got t after) → ArePrintable (ty_spelling t) }
    ensures spelled { (text : List ℕ) (toks : List Token) (from : ℕ) (t : TyShape)
        (after rest : List Symbol) → AreBytes text →
        Reads ty (drop from (symbols_of text toks)) (Got t after) → ArePrintable rest →
        Spells (joined (ty_spelling t ++ rest)) (ty_spelling t ++ rest) }
    ensures back { (text : List ℕ) (toks : List Token) (from : ℕ) (t : TyShape)
        (after rest : List Symbol) (again : List Token) → AreBytes text →
        Reads ty (drop from (symbols_of text toks)) (Got t after) → ArePrintable rest →
        AreTokens (joined (ty_spelling t ++ rest)) again →
        run_ty (length (symbols_of (joined (ty_spelling t ++ rest)) again)) (symbols_of (joined (ty_spelling t ++ rest)) again) ≡ Got t rest }
{}

/// States that constants that were read are printed and read back: of what the tokens of a text of bytes
/// spell from some token on the spelling is printable, so it is spelled by its printed form, whatever
/// printable symbols follow, and the reader gives it again.
pub fn read_constants_are_read_back()
    ensures printable { (text : List ℕ) (toks : List Token) (from : ℕ) (c : ConstShape)
        (after : List Symbol) → AreBytes text →
        Reads const (drop from (symbols_of text toks)) (Got c after) →
        ArePrintable (const_spelling c) }
    ensures spelled { (text : List ℕ) (toks : List Token) (from : ℕ) (c : ConstShape)
        (after rest : List Symbol) → AreBytes text →
        Reads const (drop from (symbols_of text toks)) (Got c after) → ArePrintable rest →
        Spells (joined (const_spelling c ++ rest)) (const_spelling c ++ rest) }
    ensures back { (text : List ℕ) (toks : List Token) (from : ℕ) (c : ConstShape)
        (after rest : List Symbol) (again : List Token) → AreBytes text →
        Reads const (drop from (symbols_of text toks)) (Got c after) → ArePrintable rest →
        AreTokens (joined (const_spelling c ++ rest)) again →
        run_const (length (symbols_of (joined (const_spelling c ++ rest)) again)) (symbols_of (joined (const_spelling c ++ rest)) again) ≡ Got c rest }
{}
