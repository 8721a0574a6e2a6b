// The parts of a property as a table holds them.
ghost use Rattle.std.specs.Prelude.{◌≡◌, ℕ, ◌≤◌, List, map, length, All, IfOk};
ghost use Rattle.limits.specs.Tables as by;
ghost use Rattle.property.specs.Views.{key_of};
ghost use Rattle.property.specs.declared.table.Event.TheVariants as events;
ghost use Rattle.tables.specs.Fits.{SlotFits, CallFits, AnswerFits, EventFits, StatementFits};
ghost use Rattle.tables.specs.Views as views;

use crate::few::Few;
use crate::parts::{Guard, Matcher, Register, Statement};
use property::table::{Answer, Call, Event, Register as Named, Slot, Statement as Written};
use std::alloc::{AllocError, Global};
use topl::pattern::Pattern;

// The pattern that stands at a place of the text.
fn pattern(slot: &Slot) -> Pattern<Register>
    requires { SlotFits slot.now }
    ensures { views.pattern result ≡ by.placed slot.now }
{
    match slot.pattern {
        Pattern::Any => Pattern::Any,
        Pattern::Write(r) => Pattern::Write(Register::at(r)),
        Pattern::Same(r) => Pattern::Same(Register::at(r)),
        Pattern::Differs(r) => Pattern::Differs(Register::at(r)),
    }
}

// The guard of a call: any returned value, and a pattern for each parameter.
fn called(call: &Call) -> Matcher
    requires { CallFits call.now }
    ensures { views.matcher result ≡ by.matcher (events.Calls call.now) }
{
    let slots = &call.slots[..call.arity];
    let mut patterns = Few::new(Pattern::Any);
    patterns.push(Pattern::Any);
    for slot in slots {
        patterns.push(pattern(slot));
    }
    let id = 2 * call.number;
    Matcher::Event(Guard { id, patterns })
}

// The guard of a return: a pattern for the returned value.
fn returned(answer: &Answer) -> Matcher
    requires { AnswerFits answer.now }
    ensures { views.matcher result ≡ by.matcher (events.Returns answer.now) }
{
    let mut patterns = Few::new(Pattern::Any);
    patterns.push(pattern(&answer.slot));
    let id = 2 * answer.number + 1;
    Matcher::Event(Guard { id, patterns })
}

// What one event has to meet.
fn matcher(event: &Event) -> Matcher
    requires { EventFits event.now }
    ensures { views.matcher result ≡ by.matcher event.now }
{
    match event {
        Event::Any => Matcher::Any,
        Event::Calls(call) => called(call),
        Event::Returns(answer) => returned(answer),
    }
}

// A statement over the events that it spans.
fn statement(written: &Written) -> Statement
    requires { StatementFits written.now }
    ensures { views.statement result ≡ by.statement written.now }
{
    let spanned = &written.events[..written.span];
    let mut events = Few::new(Matcher::Any);
    for event in spanned {
        events.push(matcher(event));
    }
    Statement {
        source: written.source as u8,
        target: written.target as u8,
        events,
    }
}

// The statements in order.
pub(crate) fn statements(heap: Global, all: &[Written]) -> Result<Vec<Statement>, AllocError>
    requires { All StatementFits all.now }
    ensures { IfOk result (λ v. map views.statement v.items ≡ map by.statement all.now) }
{
    let mut statements = Vec::with_capacity(heap, all.len())?;
    for written in all {
        statements.push(statement(written))?;
    }
    Ok(statements)
}

// The registers of the constants, in order.
pub(crate) fn constants(heap: Global, registers: &[Named]) -> Result<Vec<Register>, AllocError>
    requires { length registers.now ≤ 8 }
    ensures { (t : List ℕ) → IfOk result (λ v. map views.number v.items ≡ by.constants_from 0 (map (key_of t) registers.now)) }
{
    let mut constants = Vec::with_capacity(heap, registers.len())?;
    for (place, register) in registers.iter().enumerate() {
        if let Named::Constant(_) = register {
            constants.push(Register::at(place))?;
        }
    }
    Ok(constants)
}
