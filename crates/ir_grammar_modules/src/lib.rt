//! The grammar of modules, and what its readers give.
//!
//! The definitions stand in `specs/`: which symbols spell which blocks, items and modules, and how each is
//! spelled. The functions have no code: their contracts are the laws.
#![tactic(auto)]

ghost use Rattle.std.specs.Prelude.{◌≡◌, List, [], length};
ghost use Rattle.grammar.specs.Reader.{Got, all_read};
ghost use Rattle.grammar.specs.FirstWrong.{ReadsAll};
ghost use Rattle.ir_lex.specs.Symbols.{Symbol};
ghost use Rattle.ir_tree.specs.Shape.{InstShape, ModuleShape};
ghost use Rattle.ir_grammar_insts.specs.Operands.{begins_val};
ghost use Rattle.ir_grammar_insts.specs.OpenRules.{ReadsOpen};
ghost use Rattle.ir_grammar_modules.specs.Blocks.{lines, told_lines, run_lines};
ghost use Rattle.ir_grammar_modules.specs.Modules.{whole_module, run_module};
ghost use Rattle.ir_grammar_modules.specs.Spelling.{module_spelling, FitsModule};

/// States that the reader of modules gives the module that the symbols spell, all of them, and else the first
/// wrong symbol.
pub fn modules_are_read()
    ensures { (symbols : List Symbol) → ReadsAll whole_module symbols
        (all_read (run_module (length symbols) symbols)) }
{}

/// States that the reader of a block's lines finds the first wrong symbol, and gives the lines that those
/// before it spell. It gives none only where no front of the symbols spells some without the begin of a value
/// after them.
pub fn lines_are_read()
    ensures { (symbols : List Symbol) → ReadsOpen lines begins_val symbols
        (run_lines (length symbols) symbols) }
{}

/// States that the lines of a block, told one by one by their first symbol and the word after a result, are
/// exactly its phis, then its instructions, then its terminator.
pub fn blocks_are_as_written()
    ensures into { (symbols : List Symbol) (insts : List InstShape) →
        told_lines lines symbols insts → lines symbols insts }
    ensures back { (symbols : List Symbol) (insts : List InstShape) → lines symbols insts →
        told_lines lines symbols insts }
{}

/// States that what spells a module fits, and the spelling of a module that fits is read back.
pub fn modules_are_read_back()
    ensures fits { (symbols : List Symbol) (m : ModuleShape) → whole_module symbols m →
        FitsModule m }
    ensures back { (m : ModuleShape) → FitsModule m →
        run_module (length (module_spelling m)) (module_spelling m) ≡ Got m [] }
{}
