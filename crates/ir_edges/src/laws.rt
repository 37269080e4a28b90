//! The law that ties the values that an instruction uses to the rules.

ghost use Rattle.std.specs.Prelude.{◌↔◌, List, ℕ, Contains};
ghost use Rattle.ir_tree.specs.Shape.{BodyShape};
ghost use Rattle.ir_rules.specs.Uses.{as_value, body_uses};
ghost use Rattle.ir_edges.specs.Locals.{operand_names};

/// Proves that the operands of an instruction that are values are those that the rules say it uses.
pub fn operands_are_used()
    ensures { (body : BodyShape) (name : List ℕ) →
        Contains (operand_names body) name ↔ Contains (body_uses body) (as_value name) }
{}
