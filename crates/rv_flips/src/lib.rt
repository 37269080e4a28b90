//! Words under one flip: what is known at an address of a text, whatever single bit of whatever register was
//! flipped before, outside a list of points. Definitions and laws; there is no code here.
#![tactic(auto)]

ghost use Rattle.std.specs.Prelude.{◌+◌, ◌*◌, ◌%◌, ◌^◌, ◌<◌, ℕ, ℤ, List, [], length, All};
ghost use Rattle.rv_inst.specs.Window.{IsWindowPoint};
ghost use Rattle.rv_model.specs.Start.{program_image};
ghost use Rattle.rv_model.specs.Step.{bits64};
ghost use Rattle.rv_model.specs.Text.{text_base, WordsOf};
ghost use Rattle.rv_flips.specs.Computing.{Computes};
ghost use Rattle.rv_flips.specs.Ending.{ending_words, ending_points};
ghost use Rattle.rv_flips.specs.Survives.{IsListed, Survives};
ghost use Rattle.rv_flips.specs.Fetching.{Fetches};

/// States that a program of the three words `addi x10,x0,N`, `addi x17,x0,93` and `ecall` ends with the
/// lowest byte of N and without output, whatever its data and its input, also when one bit of one register is
/// flipped before any instruction at a point outside a list of three; and each of these is a window point of
/// the text.
pub fn ending_survives()
    ensures survives { (words init input : List ℕ) (extra : ℕ) (n : ℤ) → All (λ b. b < 2 ^ 8) init →
        WordsOf words (ending_words n) →
        Survives (program_image words init extra) ending_points input [] (bits64 n % 256)
        (2 * (length words + 1)) }
    ensures listed { (words : List ℕ) (n : ℤ) (p r : ℕ) → WordsOf words (ending_words n) →
        IsListed ending_points p r → IsWindowPoint words text_base p r }
{}

/// States that `addi d,a,0`, `beq d,b,8`, `addi d,t,0` bring the right value of three copies, of which at
/// most one is wrong, into a fourth register, wherever they stand, for any registers with d apart from b and
/// t, and whatever flip outside the list comes before, within or after them.
pub fn three_copies_are_fetched()
    ensures { Fetches }
{}

/// States that a word that computes, from two registers or from one and an immediate, makes of operands with
/// one tag a result with that tag, as of first copies a first copy, wherever it stands and whatever flip
/// outside the list comes before it. Of code words it says nothing.
pub fn computing_keeps_the_tag()
    ensures { Computes }
{}
