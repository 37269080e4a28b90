//! The choice between two values under one flip, in three versions and without a branch. Definitions and laws;
//! there is no code here.
#![tactic(auto)]

ghost use Rattle.flip_select.specs.Select.{ZerosMask, SelectsRun};

/// States that an AND with a version of 0 is a version of 0, whatever the other operand holds.
pub fn zeros_mask()
    ensures { ZerosMask }
{}

/// States that three versions of a condition and of two values make three versions of the one that is chosen,
/// also where nothing is known of the other.
pub fn selects_run()
    ensures { SelectsRun }
{}
