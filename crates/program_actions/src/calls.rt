//! What is called.

ghost use Rattle.std.specs.Prelude.{◌≡◌, true, length, codes};
ghost use Rattle.std.specs.Str.{bytes_eq};
ghost use Rattle.ir_tree.specs.Known.{val_known};
ghost use Rattle.ir_tree.specs.NameTable.{IsKnown};
ghost use Rattle.ir_tree.specs.ShapeOf.{val_shape, name_shape};
ghost use Rattle.ir_program.specs.Operands.{called, call_of, outside_call};
ghost use Rattle.ir_rules.specs.Things.{callee_of};
ghost use Rattle.program_tables.specs.Shapes.{action_shape};
ghost use Rattle.program_actions.specs.Around.{IsAround, around_of, names_around};

use crate::around::Around;
use ir_rules::Callee;
use ir_tree::module::Val;
use ir_tree::names::NameId;
use ir_tree::types::Const;
use program_tables::Action;

impl Around<'_> {
    /// Tells whether a name is `putchar`.
    fn is_putchar(&self, id: NameId) -> bool
        requires around { IsAround self.now }
        ensures { result ≡ bytes_eq (name_shape (names_around self.now) id) (codes "putchar") }
    {
        let constants = self.constants;
        let module = constants.steps.module;
        match module.names.text(id) {
            Some(text) => text == b"putchar".as_slice(),
            None => false,
        }
    }

    /// Returns the call of a name that isn't defined.
    fn outside_call(&self, id: NameId) -> Action
        requires around { IsAround self.now }
        ensures { action_shape result ≡ outside_call (name_shape (names_around self.now) id) }
    {
        if self.is_putchar(id) {
            Action::PutChar
        } else {
            Action::GetChar
        }
    }

    /// Returns the call of a name.
    fn call_of(&self, id: NameId) -> Action
        requires around { IsAround self.now }
        requires known { IsKnown (names_around self.now) id.0 }
        ensures { action_shape result ≡ call_of (name_shape (names_around self.now) id)
            (callee_of (around_of self.now).within (name_shape (names_around self.now) id)) }
    {
        match self.constants.names.callee_of(id) {
            Some(Callee::Defined(function)) => Action::Call { function },
            Some(Callee::Declared(_)) => self.outside_call(id),
            None => Action::Unreachable,
        }
    }

    /// Returns the call of an operand, which is a name in every proper module.
    pub fn called(&self, callee: &Val) -> Action
        requires around { IsAround self.now }
        requires names { val_known (length (names_around self.now)) callee.now ≡ true }
        ensures { action_shape result
            ≡ called (around_of self.now) (val_shape (names_around self.now) callee.now) }
    {
        match callee {
            Val::Fixed(Const::Global(id)) => self.call_of(*id),
            _ => Action::Unreachable,
        }
    }
}
