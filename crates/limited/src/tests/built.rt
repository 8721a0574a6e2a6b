// Texts that are too long to be written out, at each count that is limited.
use super::*;
use std::alloc::AllocError;

// Such a text.
#[derive(Clone, Copy)]
pub(crate) enum Built {
    // so many methods, the last behind some spaces
    Methods(u32),
    // so many statements, the last behind some spaces
    Statements(u32),
    // so many states beside `start`, and then these lines
    States(u32, &'static str),
    // so many variables, and then a pattern
    Variables(u32, &'static str),
    // so many bytes, by spaces behind the first line, and then this line
    Padded(usize, &'static str),
}

// A text with so many methods.
fn methods(heap: Global, count: u32) -> Result<String, AllocError> {
    let mut text = String::from_str(heap, "property P\n")?;
    for i in 1..count {
        writeln!(text, "method m{i} {i} 0")?;
    }
    text.push_str("  method last 0 0\nstart -> error: *\n")?;
    Ok(text)
}

// A text with so many statements.
fn statements(heap: Global, count: u32) -> Result<String, AllocError> {
    let mut text = String::from_str(heap, "property P\n")?;
    for _ in 1..count {
        text.push_str("start -> error: *\n")?;
    }
    text.push_str("  start -> error: *\n")?;
    Ok(text)
}

// A text with so many states beside `start`.
fn states(heap: Global, count: u32, rest: &str) -> Result<String, AllocError> {
    let mut text = String::from_str(heap, "property P\n")?;
    for i in 0..count {
        writeln!(text, "start -> s{i}: *")?;
    }
    text.push_str(rest)?;
    Ok(text)
}

// A text with so many variables.
fn variables(heap: Global, count: u32, pattern: &str) -> Result<String, AllocError> {
    let mut text = String::from_str(heap, "property P\nmethod m 1 1\n")?;
    for i in 0..count {
        writeln!(text, "start -> error: call m(V{i})")?;
    }
    writeln!(text, "start -> error: call m({pattern})")?;
    Ok(text)
}

// A text of so many bytes.
fn padded(heap: Global, bytes: usize, line: &str) -> Result<String, AllocError> {
    let mut text = String::from_str(heap, "property P")?;
    for _ in line.len().saturating_add(11)..bytes {
        text.push(' ')?;
    }
    text.push('\n')?;
    text.push_str(line)?;
    Ok(text)
}

impl Built {
    // The text itself.
    pub(crate) fn text(self, heap: Global) -> Result<String, AllocError> {
        match self {
            Built::Methods(count) => methods(heap, count),
            Built::Statements(count) => statements(heap, count),
            Built::States(count, rest) => states(heap, count, rest),
            Built::Variables(count, pattern) => variables(heap, count, pattern),
            Built::Padded(bytes, line) => padded(heap, bytes, line),
        }
    }
}

// How many methods, statements and states there may be: the last state that fits and the first that does not, as a target and as a source.
const COUNTS: &[(Built, &str)] = &[
    (
        Built::Methods(32),
        "property P: 32 methods, 2 states, 1 statements, 0 registers",
    ),
    (Built::Methods(33), "refused text 11 507"),
    (
        Built::Statements(64),
        "property P: 0 methods, 2 states, 64 statements, 0 registers",
    ),
    (Built::Statements(65), "refused text 11 1165"),
    (
        Built::States(14, "start -> error: *"),
        "property P: 0 methods, 16 states, 15 statements, 0 registers",
    ),
    (
        Built::States(15, "start -> error: *"),
        "refused text 11 250",
    ),
    (
        Built::States(14, "start -> error: *\nstart -> s14: *"),
        "refused text 11 252",
    ),
    (
        Built::States(14, "start -> error: *\ns14 -> error: *"),
        "refused text 11 243",
    ),
];

// The ninth register is needed by a pattern whose name is good, even if the pattern breaks later.
const REGISTERS: &[(Built, &str)] = &[
    (
        Built::Variables(7, "< N >"),
        "property P: 1 methods, 2 states, 8 statements, 8 registers",
    ),
    (
        Built::Variables(8, "*"),
        "property P: 1 methods, 2 states, 9 statements, 8 registers",
    ),
    (
        Built::Variables(8, "V7"),
        "property P: 1 methods, 2 states, 9 statements, 8 registers",
    ),
    (Built::Variables(8, "< N >"), "refused text 11 263"),
    (Built::Variables(8, "W"), "refused text 11 263"),
    (Built::Variables(8, "w"), "refused text 11 263"),
    (Built::Variables(8, "!w"), "refused text 11 263"),
    (Built::Variables(8, "<N$"), "refused text 11 263"),
    (
        Built::Variables(8, "<Abcdefghijklm>"),
        "refused text 11 264",
    ),
];

// How many bytes a text may have, and a byte too many that also fits no form.
const LENGTHS: &[(Built, &str)] = &[
    (
        Built::Padded(8_192, "start -> error: *"),
        "property P: 0 methods, 2 states, 1 statements, 0 registers",
    ),
    (
        Built::Padded(8_193, "start -> error: * "),
        "refused text 11 8192",
    ),
    (
        Built::Padded(8_193, "start -> error: *\n"),
        "refused text 11 8192",
    ),
    (
        Built::Padded(8_193, "start -> error: *x"),
        "refused text 10 8192",
    ),
];

// Each count at its limit and past it.
#[test]
fn limits(rt: HostRuntime) -> Result<(), Fail> {
    let heap = rt.alloc();
    for cases in [COUNTS, REGISTERS, LENGTHS] {
        for (built, line) in cases {
            says(&rt, heap, built.text(heap)?.as_str(), line)?;
        }
    }
    Ok(())
}
