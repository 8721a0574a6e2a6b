// Paths of statements, the reads that one reaches unwritten, and the reading of a property text whole.
#![tactic(auto)]

ghost use Rattle.std.specs.Prelude.{◌≡◌, ℕ, true, false, length, get_or, set, filter, Decides, MatchOption};
ghost use Rattle.std.specs.List.{filter_map};
ghost use Rattle.paths.specs.Paths.{slot_writes, event_writes, statement_writes, state as state_of};
ghost use Rattle.paths.specs.Paths.{slots_of, events_of, through};
ghost use Rattle.paths.specs.Reads.{read_place as place_of, reads_in, exposed, least, FirstOpen, FirstHere, FirstOf};

use property::table::*;
use std::slice;

pub mod text;

// The state of a number: all from 16 on are one.
fn state(n: usize) -> usize
    ensures { result ≡ state_of n }
{
    n.min(16)
}

// The patterns of an event that count.
fn slots(event: &Event) -> &[Slot]
    ensures { result.now ≡ slots_of event.now }
{
    match event {
        Event::Any => &[],
        Event::Calls(c) => &c.slots[..c.arity.min(5)],
        Event::Returns(a) => slice::from_ref(&a.slot),
    }
}

// The events of a statement that count.
fn events(statement: &Statement) -> &[Event]
    ensures { result.now ≡ events_of statement.now }
{
    &statement.events[..statement.span.min(4)]
}

// Whether a pattern writes a register.
fn writes(slot: &Slot, x: usize) -> bool
    ensures { result ≡ slot_writes x slot.now }
{
    matches!(slot.pattern, Pattern::Write(r) if r == x)
}

// Whether an event writes a register.
fn event_written(event: &Event, x: usize) -> bool
    ensures { result ≡ event_writes x event.now }
{
    slots(event).iter().any(|s| writes(s, x))
}

// Whether a statement writes a register.
fn statement_written(statement: &Statement, x: usize) -> bool
    ensures { result ≡ statement_writes x statement.now }
{
    events(statement).iter().any(|e| event_written(e, x))
}

// The place of a pattern that reads a register.
fn read_place(slot: &Slot, x: usize) -> Option<usize>
    ensures { result ≡ place_of x slot.now }
{
    match slot.pattern {
        Pattern::Same(r) | Pattern::Differs(r) if r == x => Some(slot.place),
        _ => None,
    }
}

// The least place at which an event reads a register.
fn event_read(event: &Event, x: usize) -> Option<usize>
    ensures { result ≡ least (reads_in x (slots_of event.now)) }
{
    slots(event).iter().filter_map(|s| read_place(s, x)).min()
}

// The events up to and with the first that writes a register.
fn until_written(events: &[Event], x: usize) -> &[Event]
    ensures { result.now ≡ through (event_writes x) events.now }
{
    match events.iter().position(|e| event_written(e, x)) {
        Some(i) => &events[..i + 1],
        None => events,
    }
}

// The least place at which a statement reads a register that no earlier event of it writes.
fn statement_read(statement: &Statement, x: usize) -> Option<usize>
    ensures { result ≡ least (exposed x (events_of statement.now)) }
{
    let heard = until_written(events(statement), x);
    heard.iter().filter_map(|e| event_read(e, x)).min()
}

// A search for the states that paths of statements reach with no write of a register, and those that it has found.
// Kept without an invariant that each found state is reached: a ghost field holds what has at most one proof, and a state is reached by a proof for each path.
#[derive(Clone, Copy)]
struct Reached<'a> {
    statements: &'a [Statement],
    register: usize,
    // Kept flags: a set of std takes heap, and this search cannot fail for want of memory; an ArrayVec of the found states would owe that it never
    // holds one twice.
    seen: [bool; 17],
    ghost whole: { length seen ≡ 17 },
}

impl<'a> Reached<'a> {
    ghost use Rattle.paths.specs.Search.{Searches, found, leads, Complete, Beyond, Exact};

    // A search that has found the start alone.
    fn start(statements: &'a [Statement], register: usize) -> Reached<'a>
        ensures searched { Searches statements.now register result }
        ensures start { (q : ℕ) → Decides (get_or result.seen q false) (q ≡ 0) }
    {
        let mut seen = [false; 17];
        seen[0] = true;
        Reached {
            statements,
            register,
            seen,
        }
    }

    // Whether a state is found.
    fn has(&self, q: usize) -> bool
        ensures { result ≡ found self.now q }
    {
        self.seen[state(q)]
    }

    // Finds a state.
    fn add(&mut self, q: usize)
        ensures searched { Searches self.old.statements.now self.old.register self.new }
        ensures found { self.new.seen ≡ set self.old.seen (state_of q) true }
    {
        self.seen[state(q)] = true;
    }

    // Whether a statement leads from a found state to one that is not found, with no write.
    fn leaves(&self, s: &Statement) -> bool
        ensures { result ≡ leads self.now s.now }
    {
        !statement_written(s, self.register) && self.has(s.source) && !self.has(s.target)
    }

    // A state that is not found, to which a statement leads from a found one with no write.
    fn beyond(&self) -> Option<usize>
        ensures { MatchOption result (Complete self.now) (Beyond self.now) }
    {
        let found = self.statements.iter().find(|s| self.leaves(s))?;
        Some(found.target)
    }

    // The search that has found all states that paths reach with no write.
    fn all(statements: &'a [Statement], register: usize) -> Reached<'a>
        ensures searched { Searches statements.now register result }
        ensures exact { Exact result }
    {
        let mut reached = Reached::start(statements, register);
        while let Some(q) = reached.beyond() {
            reached.add(q);
        }
        reached
    }

    // The least place at which a statement that leaves a found state reads the register, with no write by an earlier event of it.
    fn least_read(&self) -> Option<usize>
        ensures { result ≡ least (filter_map (λ s. least (exposed self.now.register (events_of s))) (filter (λ s. found self.now s.source) self.now.statements.now)) }
    {
        let from = self.statements.iter().filter(|s| self.has(s.source));
        from.filter_map(|s| statement_read(s, self.register)).min()
    }
}

// The least place at which a register is read that some path of statements has not written by then.
fn first_read(statements: &[Statement], x: usize) -> Option<usize>
    ensures { FirstOpen statements.now x result }
{
    Reached::all(statements, x).least_read()
}

// The least place at which a register is read that some path of statements has not written by then, if it holds a variable.
fn variable_read(statements: &[Statement], x: usize, register: &Register) -> Option<usize>
    ensures { FirstHere statements.now x register.now result }
{
    match register {
        Register::Constant(_) => None,
        Register::Variable(_) => first_read(statements, x),
    }
}

// The least place at which a variable is read that some path of statements has not written by then.
pub(crate) fn unwritten_read(statements: &[Statement], registers: &[Register]) -> Option<usize>
    ensures { FirstOf statements.now registers.now result }
{
    registers
        .iter()
        .enumerate()
        .filter_map(|(x, g)| variable_read(statements, x, g))
        .min()
}
