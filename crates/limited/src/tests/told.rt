// What a table tells people: how it prints, its names and its counts.
use super::*;
use std::alloc::AllocError;
use tables::few::Few;
use tables::parts::{Guard, Matcher, Register, Statement};
use tables::table::Table;
use tables::table::names::RegisterName;
use tables::text::read;
use topl::pattern::Pattern;

// A text with every form of label and pattern, and with spaces where they may stand.
const TEXT: &str = "  property   Whole
 method  fetch 3 1
method apply 4 2\u{20}
method midnight 5 0
start->held:s:=fetch(S)
held  ->  stale : call apply ( Flat , < Night > ) ; *;call midnight( );call apply(<night>, *)
stale -> error: ret ! flat:=apply; call apply(flat, !s) ; ret Flat := apply; ret*:=midnight";

// How its table prints.
const PRINTED: &str = "property Whole
method fetch 3 1
method apply 4 2
method midnight 5 0
start -> held: call fetch(S); ret s := fetch
held -> stale: call apply(Flat, <Night>); *; call midnight(); call apply(<night>, *)
stale -> error: ret !flat := apply; call apply(flat, !s); ret Flat := apply; ret * := midnight
";

// The register of each of its patterns in turn, as it is called.
const CALLED: &str = "variable s
variable s
variable flat
constant <Night>
constant <night>
variable flat
variable flat
variable s
variable flat
";

// What copies of its statements, of their matchers and of their guards hold: states, ids and counts of patterns, and how registers are called.
const COPIED: &str = "from 0 to 2
event 6 over 2
variable s
event 7 over 1
variable s
from 2 to 3
event 8 over 3
variable flat
constant <Night>
any event
event 10 over 1
event 8 over 3
constant <night>
from 3 to 1
event 9 over 1
variable flat
event 8 over 3
variable flat
variable s
event 9 over 1
variable flat
event 11 over 1
";

// The table of the text.
fn whole(heap: Global) -> Result<Table, Fail> {
    let mut table = Table::empty(heap);
    match read(heap, TEXT.as_bytes(), &mut table) {
        Ok(()) => Ok(table),
        Err(_) => Err(Fail::new("the property is refused")),
    }
}

// The register of a pattern.
fn register_of(pattern: &Pattern<Register>) -> Option<Register> {
    match pattern {
        Pattern::Any => None,
        Pattern::Write(r) | Pattern::Same(r) | Pattern::Differs(r) => Some(*r),
    }
}

// Adds a line for a register: what it holds and how it is called.
fn add_called(text: &mut String, table: &Table, register: Register) -> Result<(), AllocError> {
    match table.register_name(register) {
        Some(name @ RegisterName::Constant(_)) => writeln!(text, "constant {name}"),
        Some(name @ RegisterName::Variable(_)) => writeln!(text, "variable {name}"),
        None => text.push_str("nothing\n"),
    }
}

// Adds a line for the register of each pattern of a guard in turn.
fn add_guard(text: &mut String, table: &Table, guard: &Guard) -> Result<(), AllocError> {
    for register in guard.patterns.iter().filter_map(register_of) {
        add_called(text, table, register)?;
    }
    Ok(())
}

// A line for the register of each pattern in turn.
fn called(heap: Global, table: &Table) -> Result<String, AllocError> {
    let mut text = String::new(heap);
    for statement in table.statements() {
        for matcher in &statement.events {
            if let Matcher::Event(guard) = matcher {
                add_guard(&mut text, table, guard)?;
            }
        }
    }
    Ok(text)
}

// Adds what a copy of a guard holds.
fn add_copied_guard(text: &mut String, table: &Table, guard: &Guard) -> Result<(), AllocError> {
    let copy = *guard;
    writeln!(text, "event {} over {}", copy.id, copy.patterns.len())?;
    add_guard(text, table, &copy)
}

// Adds what a copy of a statement holds, and copies of its matchers.
fn add_copied(text: &mut String, table: &Table, statement: &Statement) -> Result<(), AllocError> {
    let copy = *statement;
    writeln!(text, "from {} to {}", copy.source, copy.target)?;
    for matcher in &copy.events {
        let taken = *matcher;
        match &taken {
            Matcher::Any => text.push_str("any event\n")?,
            Matcher::Event(guard) => add_copied_guard(text, table, guard)?,
        }
    }
    Ok(())
}

// What copies of the statements hold.
fn copied(heap: Global, table: &Table) -> Result<String, AllocError> {
    let mut text = String::new(heap);
    for statement in table.statements() {
        add_copied(&mut text, table, statement)?;
    }
    Ok(text)
}

// What clones of the statements hold.
fn cloned(heap: Global, table: &Table) -> Result<String, AllocError> {
    let mut text = String::new(heap);
    for statement in table.statements() {
        add_copied(&mut text, table, &statement.clone()?)?;
    }
    Ok(text)
}

// The states of these numbers have these names, or there are none.
fn names_states(rt: &impl Abort, table: &Table, cases: &[(u8, Option<&str>)]) {
    for (state, name) in cases {
        assert_eq!(rt;
            table.state_name(*state),
            name.map(str::as_bytes),
            "state {state}"
        );
    }
}

// The methods of these numbers have these names, or there are none.
fn names_methods(rt: &impl Abort, table: &Table, cases: &[(u32, Option<&str>)]) {
    for (method, name) in cases {
        assert_eq!(rt;
            table.method_name(*method),
            name.map(str::as_bytes),
            "method {method}"
        );
    }
}

// A table has this name, and so many states and registers.
fn counts(rt: &impl Abort, table: &Table, name: &str, states: usize, registers: usize) {
    assert_eq!(rt; table.name(), name.as_bytes());
    assert_eq!(rt; table.state_count(), states);
    assert_eq!(rt; table.register_count(), registers);
}

// The table of the text.
#[test]
fn tells_of_a_text(rt: HostRuntime) -> Result<(), Fail> {
    let heap = rt.alloc();
    let table = whole(heap)?;
    assert_eq!(rt; format!(in heap; "{table}")?.as_str(), PRINTED);
    assert_eq!(rt; called(heap, &table)?.as_str(), CALLED);
    counts(&rt, &table, "Whole", 4, 4);
    names_methods(
        &rt,
        &table,
        &[
            (3, Some("fetch")),
            (4, Some("apply")),
            (5, Some("midnight")),
            (0, None),
            (6, None),
        ],
    );
    names_states(
        &rt,
        &table,
        &[
            (0, Some("start")),
            (1, Some("error")),
            (2, Some("held")),
            (3, Some("stale")),
            (4, None),
            (255, None),
        ],
    );
    Ok(())
}

// The parts of a table are copied and cloned whole.
#[test]
fn copies_parts(rt: HostRuntime) -> Result<(), Fail> {
    let heap = rt.alloc();
    let table = whole(heap)?;
    assert_eq!(rt; copied(heap, &table)?.as_str(), COPIED);
    assert_eq!(rt; cloned(heap, &table)?.as_str(), COPIED);
    Ok(())
}

// A short list takes as many items as it has places, hands the next one back, and is copied as it stands.
#[test]
fn fills_a_list(rt: HostRuntime) {
    let mut list: Few<u8, 2> = Few::new(0);
    assert_eq!(rt; list.try_push(7), Ok(()));
    let copy = list;
    assert_eq!(rt; list.try_push(8), Ok(()));
    assert_eq!(rt; list.try_push(9), Err(9));
    assert_eq!(rt; list.as_slice(), [7, 8].as_slice());
    assert_eq!(rt; copy.as_slice(), [7].as_slice());
}

// The table that no text has filled.
#[test]
fn tells_of_no_text(rt: HostRuntime) -> Result<(), Fail> {
    let heap = rt.alloc();
    let table = Table::empty(heap);
    assert_eq!(rt; format!(in heap; "{table}")?.as_str(), "property \n");
    counts(&rt, &table, "", 2, 0);
    names_methods(&rt, &table, &[(0, None), (3, None)]);
    names_states(
        &rt,
        &table,
        &[(0, Some("start")), (1, Some("error")), (2, None)],
    );
    for register in whole(heap)?.constants() {
        assert!(rt; table.register_name(*register).is_none());
    }
    Ok(())
}
