// Walking a shown run step by step, by the property's table, the journal's events and the values of the constants. Of the code under test only the readers of texts and journals stand behind it, not the code that judges.
use crate::misstep::Misstep;
use kinds::kind::Kind;
use sources::event::Event;
use tables::parts::{Guard, Matcher, Register, Statement};
use topl::pattern::Pattern;
use topl::states::{ERROR, START};

// The statement `start -> start: *`, which is implied, counted from 0.
const IMPLIED: u8 = 64;

// How a statement fares on the events that come.
#[derive(Drop)]
enum Trial<'a, V> {
    // its events have come and meet its matchers: what the registers then hold, and the events after them
    Passes([V; 8], &'a [Event<V>]),
    // an event has come that does not meet its matcher
    Fails,
    // the events end before either is known
    Hangs,
}

// A run under way: its state, what its registers hold, and the events that are still to come.
#[derive(Drop)]
pub(crate) struct Walk<'a, K: Kind> {
    statements: &'a [Statement],
    // whether the list of events has ended
    ended: bool,
    state: u8,
    registers: [K::Value; 8],
    coming: &'a [Event<K::Value>],
}

// Whether a value fits a pattern.
fn fits<K: Kind>(pattern: &Pattern<Register>, value: &K::Value, registers: &[K::Value; 8]) -> bool {
    match pattern {
        Pattern::Any | Pattern::Write(_) => true,
        Pattern::Same(r) => K::same(value, &registers[r.place()]),
        Pattern::Differs(r) => !K::same(value, &registers[r.place()]),
    }
}

// Whether an event is one of the guard's id with values that fit.
fn is_guarded<K: Kind>(guard: &Guard, event: &Event<K::Value>, registers: &[K::Value; 8]) -> bool {
    guard.id == event.id()
        && guard.patterns.iter().enumerate().all(|(i, pattern)| fits::<K>(
            pattern,
            &event.place(K::nothing(), i),
            registers,
        ))
}

// Writes the values of an event where the guard says so.
fn write<K: Kind>(guard: &Guard, event: &Event<K::Value>, registers: &mut [K::Value; 8]) {
    for (i, pattern) in guard.patterns.iter().enumerate() {
        if let Pattern::Write(r) = pattern {
            registers[r.place()] = event.place(K::nothing(), i);
        }
    }
}

// Whether an event meets a matcher; if so it writes what the matcher says. All reads see the registers from before the writes.
fn meet<K: Kind>(
    matcher: &Matcher,
    event: &Event<K::Value>,
    registers: &mut [K::Value; 8],
) -> bool {
    let Matcher::Event(guard) = matcher else {
        return true;
    };
    let meets = is_guarded::<K>(guard, event, registers);
    if meets {
        write::<K>(guard, event, registers);
    }
    meets
}

impl<'a, K: Kind> Walk<'a, K> {
    // A run that has made no step.
    pub(crate) fn new(
        statements: &'a [Statement],
        registers: [K::Value; 8],
        coming: &'a [Event<K::Value>],
        ended: bool,
    ) -> Walk<'a, K> {
        Walk {
            statements,
            ended,
            state: START,
            registers,
            coming,
        }
    }

    // How a statement fares here.
    fn attempt(&self, statement: &Statement) -> Trial<'a, K::Value> {
        let mut registers = self.registers;
        let mut coming = self.coming;
        for matcher in &statement.events {
            let [event, rest @ ..] = coming else {
                return Trial::Hangs;
            };
            if !meet::<K>(matcher, event, &mut registers) {
                return Trial::Fails;
            }
            coming = rest;
        }
        Trial::Passes(registers, coming)
    }

    // Whether a statement leaves the state and keeps the run from skipping: it passes, or it hangs while more events may come.
    fn holds_back(&self, statement: &Statement) -> bool {
        statement.source == self.state
            && match self.attempt(statement) {
                Trial::Passes(..) => true,
                Trial::Hangs => !self.ended,
                Trial::Fails => false,
            }
    }

    // Skips the next event.
    fn skip(&mut self) -> Result<(), Misstep> {
        let [_, rest @ ..] = self.coming else {
            return Err(Misstep::NothingComes);
        };
        if self.state == START || self.statements.iter().any(|s| self.holds_back(s)) {
            return Err(Misstep::HeldBack);
        }
        self.coming = rest;
        Ok(())
    }

    // Follows the implied statement.
    fn stay(&mut self) -> Result<(), Misstep> {
        let [_, rest @ ..] = self.coming else {
            return Err(Misstep::NothingComes);
        };
        if self.state != START {
            return Err(Misstep::OtherSource);
        }
        self.coming = rest;
        Ok(())
    }

    // Follows a written statement.
    fn follow(&mut self, statement: &Statement) -> Result<(), Misstep> {
        if statement.source != self.state {
            return Err(Misstep::OtherSource);
        }
        let Trial::Passes(registers, coming) = self.attempt(statement) else {
            return Err(Misstep::Unmet);
        };
        self.state = statement.target;
        self.registers = registers;
        self.coming = coming;
        Ok(())
    }

    // Makes a step: the number of a statement, or 0 for a skip.
    pub(crate) fn step(&mut self, step: u8) -> Result<(), Misstep> {
        match step.checked_sub(1) {
            None => self.skip(),
            Some(IMPLIED) => self.stay(),
            Some(i) => match self.statements.get(usize::from(i)) {
                Some(statement) => self.follow(statement),
                None => Err(Misstep::NoStatement),
            },
        }
    }

    // Whether the run stands in `error` with so many events still to come.
    pub(crate) fn errs_before(&self, left: usize) -> bool {
        self.state == ERROR && self.coming.len() == left
    }
}
