//! The grammar of types and constants, and what its readers give.
//!
//! The definitions stand in `specs/`: which symbols spell which types and constants, how each is
//! spelled, and how many brackets may be open. The functions have no code: their contracts are the laws.
#![tactic(auto)]

ghost use Rattle.std.specs.Prelude.{◌≡◌, List, length, ◌++◌};
ghost use Rattle.grammar.specs.Reader.{Got};
ghost use Rattle.grammar.specs.FirstWrong.{Reads};
ghost use Rattle.ir_lex.specs.Symbols.{Symbol};
ghost use Rattle.ir_tree.specs.Shape.{TyShape, ConstShape};
ghost use Rattle.ir_grammar_consts.specs.Types.{ty, run_ty};
ghost use Rattle.ir_grammar_consts.specs.Constants.{const, run_const};
ghost use Rattle.ir_grammar_consts.specs.Spelling.{ty_spelling, const_spelling, FitsTy, FitsConst};

/// States that the reader of types gives the type that a front of the symbols spells, and else the first
/// wrong symbol.
pub fn types_are_read()
    ensures { (symbols : List Symbol) → Reads ty symbols (run_ty (length symbols) symbols) }
{}

/// States that what spells a type fits, and the spelling of a type that fits is read back, whatever follows.
pub fn types_are_read_back()
    ensures fits { (symbols : List Symbol) (t : TyShape) → ty symbols t → FitsTy t }
    ensures back { (t : TyShape) (rest : List Symbol) → FitsTy t →
        run_ty (length (ty_spelling t ++ rest)) (ty_spelling t ++ rest) ≡ Got t rest }
{}

/// States that the reader of constants gives the constant that a front of the symbols spells, and else the
/// first wrong symbol.
pub fn constants_are_read()
    ensures { (symbols : List Symbol) → Reads const symbols (run_const (length symbols) symbols) }
{}

/// States that what spells a constant fits, and the spelling of a constant that fits is read back, whatever
/// follows.
pub fn constants_are_read_back()
    ensures fits { (symbols : List Symbol) (c : ConstShape) → const symbols c → FitsConst c }
    ensures back { (c : ConstShape) (rest : List Symbol) → FitsConst c →
        run_const (length (const_spelling c ++ rest)) (const_spelling c ++ rest) ≡ Got c rest }
{}
