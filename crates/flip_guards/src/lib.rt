//! Guarded sequences under one flip: operands come from slots, registers or constants, they are checked, and the
//! next words use them. Definitions and laws; there is no code here.
#![tactic(auto)]

ghost use Rattle.flip_guards.specs.Search.{WindowsAreFound};
ghost use Rattle.flip_guards.specs.Slots.{SlotsComeIn, SlotsTakeUp};
ghost use Rattle.flip_guards.specs.Sources.{SourcesComeIn};
ghost use Rattle.flip_guards.specs.Fetching.{TriplesGive, ConstantsGive, OperandsComeIn};
ghost use Rattle.flip_guards.specs.Fetching.{OperandsAreFetched, FetchedOperandsAreCovered};
ghost use Rattle.flip_guards.specs.Fetching.{TwoOperandsAreFetched, TwoFetchedAreCovered};
ghost use Rattle.flip_guards.specs.Fetching.{ConstantsAreGuarded, GuardedConstantsAreCovered};

/// States that what the search along the words finds is a window point.
pub fn windows_are_found()
    ensures { WindowsAreFound }
{}

/// States that a slot, near or far, comes into any register above x4, and that the other registers but x28 and
/// x29 keep what they keep.
pub fn slots_come_in()
    ensures { SlotsComeIn }
{}

/// States that a slot, near or far, keeps what a register keeps, and all else in memory stays.
pub fn slots_take_up()
    ensures { SlotsTakeUp }
{}

/// States that one version of an operand comes into a register from where it is: a slot, a register, or words
/// that make a constant.
pub fn sources_come_in()
    ensures { SourcesComeIn }
{}

/// States that slots with three versions of a value give them, and so do words that make a constant.
pub fn operands_are_given()
    ensures slots { TriplesGive }
    ensures constants { ConstantsGive }
{}

/// States that the three versions of an operand come into three registers.
pub fn operands_come_in()
    ensures { OperandsComeIn }
{}

/// States that an operand is fetched into x5, and that a flip of x5 before the next word, where that word uses
/// it, falls at a window point.
pub fn operands_are_fetched()
    ensures fetched { OperandsAreFetched }
    ensures covered { FetchedOperandsAreCovered }
{}

/// States that a value is fetched into x5 and an address into x28, and that a flip of either before the next
/// word, where that word uses both, falls at a window point.
pub fn two_operands_are_fetched()
    ensures fetched { TwoOperandsAreFetched }
    ensures covered { TwoFetchedAreCovered }
{}

/// States that a constant that is made twice and compared, else made a third time, is right, and that a flip of it
/// before the next word, where that word uses it, falls at a window point.
pub fn constants_are_guarded()
    ensures guarded { ConstantsAreGuarded }
    ensures covered { GuardedConstantsAreCovered }
{}
