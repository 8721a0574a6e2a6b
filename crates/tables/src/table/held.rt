// The empty table, and what a table holds for a watch.
ghost use Rattle.std.specs.Prelude.{◌≡◌, ◌≤◌, length};
ghost use Rattle.topl.specs.Table.{empty_table};
ghost use Rattle.tables.specs.Meant.{meant, names, no_names};

use crate::parts::{Register, Statement};
use crate::table::Table;
use property::table::{Method, Name};
use std::alloc::Global;

impl Table {
    // The table that no text has filled yet.
    pub fn empty(heap: Global) -> Table
        ensures meant { meant result ≡ empty_table }
        ensures names { names result ≡ no_names }
    {
        Table {
            text: Vec::new(heap),
            name: Name { from: 0, to: 0 },
            methods: Vec::new(heap),
            others: Vec::new(heap),
            registers: Vec::new(heap),
            constants: Vec::new(heap),
            statements: Vec::new(heap),
        }
    }

    // The declared methods.
    pub fn methods(&self) -> &[Method]
        ensures { result.now ≡ self.now.methods.items }
    {
        &self.methods
    }

    // The registers of the constants.
    pub fn constants(&self) -> &[Register]
        ensures { result.now ≡ self.now.constants.items }
    {
        &self.constants
    }

    // The written statements, at most 64.
    pub fn statements(&self) -> &[Statement]
        ensures are { result.now ≡ self.now.statements.items }
        ensures few { length result.now ≤ 64 }
    {
        &self.statements
    }
}
