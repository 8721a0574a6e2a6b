// Making a table of what a text writes.
ghost use Rattle.std.specs.Prelude.{◌≡◌, IfOk};
ghost use Rattle.limits.specs.Limits.{Within};
ghost use Rattle.property.specs.Views.{sofar};
ghost use Rattle.tables.specs.Meant.{Holds};

use crate::lower::{constants, statements};
use crate::table::Table;
use property::draft::Draft;
use std::alloc::{AllocError, Global};

impl Table {
    // The table of the property that a text writes.
    pub(crate) fn of(heap: Global, text: &[u8], draft: Draft) -> Result<Table, AllocError>
        requires { Within (sofar text.now draft) }
        ensures { IfOk result (λ t. Holds t (sofar text.now draft)) }
    {
        let constants = constants(heap, &draft.registers)?;
        let statements = statements(heap, &draft.statements)?;
        Ok(Table {
            text: Vec::from_slice(heap, text)?,
            name: draft.name,
            methods: draft.methods,
            others: draft.others,
            registers: draft.registers,
            constants,
            statements,
        })
    }
}
