//! The grammar of instructions, and what its readers give.
//!
//! The definitions stand in `specs/`: which symbols spell which phis, instructions and terminators. The
//! functions have no code: their contracts are the laws.
#![tactic(auto)]

ghost use Rattle.std.specs.Prelude.{◌≡◌, false, List, length, ◌++◌};
ghost use Rattle.grammar.specs.Reader.{Got, heads, opens};
ghost use Rattle.ir_lex.specs.Symbols.{Symbol};
ghost use Rattle.ir_tree.specs.Shape.{BodyShape};
ghost use Rattle.ir_cursor.specs.Marks.{punct};
ghost use Rattle.ir_grammar_insts.specs.Operands.{begins_val};
ghost use Rattle.ir_grammar_insts.specs.Instructions.{phi, run_phi, inst, run_inst};
ghost use Rattle.ir_grammar_insts.specs.Terminators.{term, term_lines, run_term};
ghost use Rattle.ir_grammar_insts.specs.OpenRules.{ReadsOpen};
ghost use Rattle.ir_grammar_insts.specs.Spelling.{body_spelling, FitsPhi, FitsInst, FitsTerm};

mod heads;

pub use heads::{InstHead, TermHead};

/// States that the reader of phis finds the first wrong symbol, and gives the phi that those before it spell.
/// It gives none only where no front of the symbols spells one without a comma after it.
pub fn phis_are_read()
    ensures { (symbols : List Symbol) → ReadsOpen phi (heads (punct 44)) symbols
        (run_phi (length symbols) symbols) }
{}

/// States that the reader of instructions finds the first wrong symbol, and gives the instruction that those
/// before it spell. It gives none only where no front of the symbols spells one without a comma after it.
pub fn instructions_are_read()
    ensures { (symbols : List Symbol) → ReadsOpen inst (heads (punct 44)) symbols
        (run_inst (length symbols) symbols) }
{}

/// States that the reader of terminators finds the first wrong symbol, and gives the terminator that those
/// before it spell. It gives none only where no front of the symbols spells one without the begin of a value
/// after it.
pub fn terminators_are_read()
    ensures { (symbols : List Symbol) → ReadsOpen term begins_val symbols
        (run_term (length symbols) symbols) }
{}

/// States that the rule of terminators, told by the first word, spells exactly what its written lines spell.
pub fn terminators_are_as_written()
    ensures into { (symbols : List Symbol) (body : BodyShape) → term symbols body →
        term_lines symbols body }
    ensures back { (symbols : List Symbol) (body : BodyShape) → term_lines symbols body →
        term symbols body }
{}

/// States that what spells a phi fits, and the spelling of a phi that fits is read back, where no comma
/// follows it.
pub fn phis_are_read_back()
    ensures fits { (symbols : List Symbol) (body : BodyShape) → phi symbols body → FitsPhi body }
    ensures back { (body : BodyShape) (rest : List Symbol) → FitsPhi body →
        opens (heads (punct 44)) rest ≡ false →
        run_phi (length (body_spelling body ++ rest)) (body_spelling body ++ rest) ≡ Got body rest }
{}

/// States that what spells an instruction fits, and the spelling of an instruction that fits is read back,
/// where no comma follows it.
pub fn instructions_are_read_back()
    ensures fits { (symbols : List Symbol) (body : BodyShape) → inst symbols body → FitsInst body }
    ensures back { (body : BodyShape) (rest : List Symbol) → FitsInst body →
        opens (heads (punct 44)) rest ≡ false →
        run_inst (length (body_spelling body ++ rest)) (body_spelling body ++ rest) ≡ Got body rest }
{}

/// States that what spells a terminator fits, and the spelling of a terminator that fits is read back, where
/// nothing that a value begins with follows it.
pub fn terminators_are_read_back()
    ensures fits { (symbols : List Symbol) (body : BodyShape) → term symbols body → FitsTerm body }
    ensures back { (body : BodyShape) (rest : List Symbol) → FitsTerm body →
        opens begins_val rest ≡ false →
        run_term (length (body_spelling body ++ rest)) (body_spelling body ++ rest) ≡ Got body rest }
{}
