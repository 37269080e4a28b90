//! The cases of a `switch`.

ghost use Rattle.std.specs.Prelude.{◌≡◌, ◌≤◌, List, ℕ, true, length, map, IfOk};
ghost use Rattle.std.specs.List.{list_all};
ghost use Rattle.ir_tree.specs.Known.{case_known};
ghost use Rattle.ir_tree.specs.ShapeOf.{case_shape as source_shape};
ghost use Rattle.ir_program.specs.Operands.{program_case};
ghost use Rattle.program_tables.specs.Shapes.{case_shape};
ghost use Rattle.program_actions.specs.Around.{IsAround, around_of, names_around};

use crate::around::Around;
use ir_tree::module::Case as SourceCase;
use ir_type_tests::bits_of;
use program_tables::Case;
use std::alloc::{AllocError, Global};

impl Around<'_> {
    /// Returns a case of a `switch` on a value of so many bits.
    fn case_of(&self, width: u8, case: &SourceCase) -> Case
        requires around { IsAround self.now }
        requires names { case_known (length (names_around self.now)) case.now ≡ true }
        requires width { width ≤ 64 }
        ensures { case_shape result ≡ program_case (around_of self.now) width
            (source_shape (names_around self.now) case.now) }
    {
        Case {
            number: bits_of(width, case.value),
            to: self.block_number(case.to),
        }
    }

    /// Returns the cases of a `switch` on a value of so many bits.
    pub fn cases_of(
        &self,
        alloc: Global,
        width: u8,
        row: &[SourceCase],
    ) -> Result<Vec<Case>, AllocError>
        requires around { IsAround self.now }
        requires names { list_all (case_known (length (names_around self.now))) row.now ≡ true }
        requires width { width ≤ 64 }
        ensures { IfOk result (λ cases. map case_shape cases.items
            ≡ map (program_case (around_of self.now) width)
            (map (source_shape (names_around self.now)) row.now)) }
    {
        let mut cases = Vec::new(alloc);
        for case in row {
            cases.push(self.case_of(width, case))?;
        }
        Ok(cases)
    }
}
