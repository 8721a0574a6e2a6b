// A table as its text would be written.
ghost use Rattle.std.specs.Prelude.{◌≡◌, ◌/◌, Some, codes, map, flat_map};
ghost use Rattle.std.specs.Fmt.{DisplaysOnOk};
ghost use Rattle.property.specs.Views.{declared};
ghost use Rattle.tables.specs.Meant.{meant, names};
ghost use Rattle.tables.specs.Few.{few_items};
ghost use Rattle.tables.specs.Views as views;
ghost use Rattle.tables.specs.Views.{number};
ghost use Rattle.tables.specs.Written as by;

use crate::parts::{Guard, Matcher, Register, Statement};
use crate::table::Table;
use crate::table::names::RegisterName;
use crate::words::{Capital, Word};
use property::table::Method;
use std::fmt;
use topl::pattern::Pattern;

impl Table {
    // Writes a register where it is read.
    fn write_read<W: fmt::Write>(
        &self,
        register: Register,
        f: &mut fmt::Formatter<W>,
    ) -> fmt::Result
        ensures { DisplaysOnOk W.write_str_gives f.old result (Some (by.read (names self.now) (number register))) f.new }
    {
        match self.register_name(register) {
            Some(name) => write!(f, "{name}"),
            None => Ok(()),
        }
    }

    // Writes a variable where it is written; a constant never is.
    #[tactic(auto, using(crate::proofs::Letters::raised_lowered))]
    fn write_written<W: fmt::Write>(
        &self,
        register: Register,
        f: &mut fmt::Formatter<W>,
    ) -> fmt::Result
        ensures { DisplaysOnOk W.write_str_gives f.old result (Some (by.written_to (names self.now) (number register))) f.new }
    {
        match self.register_name(register) {
            Some(RegisterName::Variable(name)) => write!(f, "{}", Capital(name)),
            Some(RegisterName::Constant(_)) | None => Ok(()),
        }
    }

    // Writes a pattern.
    fn write_pattern<W: fmt::Write>(
        &self,
        pattern: &Pattern<Register>,
        f: &mut fmt::Formatter<W>,
    ) -> fmt::Result
        ensures { DisplaysOnOk W.write_str_gives f.old result (Some (by.pattern (names self.now) (views.pattern pattern.now))) f.new }
    {
        match pattern {
            Pattern::Any => f.write_str("*"),
            Pattern::Write(r) => self.write_written(*r, f),
            Pattern::Same(r) => self.write_read(*r, f),
            Pattern::Differs(r) => {
                f.write_str("!")?;
                self.write_read(*r, f)
            }
        }
    }

    // Writes patterns, with a comma and a space before each.
    fn write_more_patterns<W: fmt::Write>(
        &self,
        patterns: &[Pattern<Register>],
        f: &mut fmt::Formatter<W>,
    ) -> fmt::Result
        ensures { DisplaysOnOk W.write_str_gives f.old result (Some (by.each_after (codes ", ") (map (by.pattern (names self.now)) (map views.pattern patterns.now)))) f.new }
    {
        for pattern in patterns {
            f.write_str(", ")?;
            self.write_pattern(pattern, f)?;
        }
        Ok(())
    }

    // Writes patterns, with a comma and a space between them.
    fn write_patterns<W: fmt::Write>(
        &self,
        patterns: &[Pattern<Register>],
        f: &mut fmt::Formatter<W>,
    ) -> fmt::Result
        ensures { DisplaysOnOk W.write_str_gives f.old result (Some (by.patterns (names self.now) (map views.pattern patterns.now))) f.new }
    {
        let Some((first, rest)) = patterns.split_first() else {
            return Ok(());
        };
        self.write_pattern(first, f)?;
        self.write_more_patterns(rest, f)
    }

    // The name of a method, or nothing where there is none.
    fn method_word(&self, number: u32) -> Word<'_>
        ensures { result.0.now ≡ by.method (names self.now) number }
    {
        Word(self.method_name(number).unwrap_or(&[]))
    }

    // Writes the label of a call, whose first pattern stands for the returned value.
    fn write_call<W: fmt::Write>(&self, guard: &Guard, f: &mut fmt::Formatter<W>) -> fmt::Result
        ensures { DisplaysOnOk W.write_str_gives f.old result (Some (by.call (names self.now) (guard.now.id / 2) (map views.pattern (few_items guard.now.patterns)))) f.new }
    {
        write!(f, "call {}(", self.method_word(guard.id / 2))?;
        self.write_patterns(guard.patterns.get(1..).unwrap_or(&[]), f)?;
        f.write_str(")")
    }

    // Writes the label of a return.
    fn write_return<W: fmt::Write>(&self, guard: &Guard, f: &mut fmt::Formatter<W>) -> fmt::Result
        ensures { DisplaysOnOk W.write_str_gives f.old result (Some (by.answer (names self.now) (guard.now.id / 2) (map views.pattern (few_items guard.now.patterns)))) f.new }
    {
        f.write_str("ret ")?;
        self.write_patterns(&guard.patterns, f)?;
        write!(f, " := {}", self.method_word(guard.id / 2))
    }

    // Writes the label of one event.
    fn write_label<W: fmt::Write>(
        &self,
        matcher: &Matcher,
        f: &mut fmt::Formatter<W>,
    ) -> fmt::Result
        ensures { DisplaysOnOk W.write_str_gives f.old result (Some (by.label (names self.now) (views.matcher matcher.now))) f.new }
    {
        match matcher {
            Matcher::Any => f.write_str("*"),
            Matcher::Event(guard) if guard.id % 2 == 0 => self.write_call(guard, f),
            Matcher::Event(guard) => self.write_return(guard, f),
        }
    }

    // Writes the labels of events, with a semicolon and a space before each.
    fn write_more_labels<W: fmt::Write>(
        &self,
        events: &[Matcher],
        f: &mut fmt::Formatter<W>,
    ) -> fmt::Result
        ensures { DisplaysOnOk W.write_str_gives f.old result (Some (by.each_after (codes "; ") (map (by.label (names self.now)) (map views.matcher events.now)))) f.new }
    {
        for event in events {
            f.write_str("; ")?;
            self.write_label(event, f)?;
        }
        Ok(())
    }

    // Writes the labels of events, with a semicolon and a space between them.
    fn write_labels<W: fmt::Write>(
        &self,
        events: &[Matcher],
        f: &mut fmt::Formatter<W>,
    ) -> fmt::Result
        ensures { DisplaysOnOk W.write_str_gives f.old result (Some (by.labels (names self.now) (map views.matcher events.now))) f.new }
    {
        let Some((first, rest)) = events.split_first() else {
            return Ok(());
        };
        self.write_label(first, f)?;
        self.write_more_labels(rest, f)
    }

    // The name of a state, or nothing where there is none.
    fn state_word(&self, state: u8) -> Word<'_>
        ensures { result.0.now ≡ by.state (names self.now) state }
    {
        Word(self.state_name(state).unwrap_or(&[]))
    }

    // Writes a statement.
    fn write_statement<W: fmt::Write>(
        &self,
        statement: &Statement,
        f: &mut fmt::Formatter<W>,
    ) -> fmt::Result
        ensures { DisplaysOnOk W.write_str_gives f.old result (Some (by.statement_line (names self.now) (views.statement statement.now))) f.new }
    {
        let (source, target) = (
            self.state_word(statement.source),
            self.state_word(statement.target),
        );
        write!(f, "{source} -> {target}: ")?;
        self.write_labels(&statement.events, f)?;
        f.write_str("\n")
    }

    // Writes the declaration of a method.
    fn write_method<W: fmt::Write>(&self, method: &Method, f: &mut fmt::Formatter<W>) -> fmt::Result
        ensures { DisplaysOnOk W.write_str_gives f.old result (Some (by.method_line (declared self.now.text.items method.now))) f.new }
    {
        let (number, arity) = (method.number, method.arity);
        writeln!(
            f,
            "method {} {number} {arity}",
            Word(self.spelled(method.name))
        )
    }

    // Writes the declarations of all methods.
    fn write_methods<W: fmt::Write>(&self, f: &mut fmt::Formatter<W>) -> fmt::Result
        ensures { DisplaysOnOk W.write_str_gives f.old result (Some (flat_map by.method_line (names self.now).methods)) f.new }
    {
        for method in &self.methods {
            self.write_method(method, f)?;
        }
        Ok(())
    }

    // Writes all statements.
    fn write_statements<W: fmt::Write>(&self, f: &mut fmt::Formatter<W>) -> fmt::Result
        ensures { DisplaysOnOk W.write_str_gives f.old result (Some (flat_map (by.statement_line (names self.now)) (meant self.now).statements)) f.new }
    {
        for statement in &self.statements {
            self.write_statement(statement, f)?;
        }
        Ok(())
    }
}

// The first line, a line for each method and one for each statement, each event under a label of its own.
impl fmt::Display for Table {
    ghost output = { λ t. Some (by.written (names t) (meant t)) };

    fn fmt<W: fmt::Write>(&self, f: &mut fmt::Formatter<W>) -> fmt::Result {
        writeln!(f, "property {}", Word(self.name()))?;
        self.write_methods(f)?;
        self.write_statements(f)
    }
}
