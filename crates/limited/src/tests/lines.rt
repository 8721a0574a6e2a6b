// Short texts, and the first line of each.
use super::*;

// Names of 12 letters and 13, and the numbers of methods and their parameters.
const NAMES_AND_NUMBERS: &[(&str, &str)] = &[
    (
        "property Abcdefghijkl\nstart -> error: *\n",
        "property Abcdefghijkl: 0 methods, 2 states, 1 statements, 0 registers",
    ),
    (
        "property Abcdefghijklm\nstart -> error: *\n",
        "refused text 11 9",
    ),
    (
        "property P\nmethod Abcdefghijkl 1 0\nstart -> error: *\n",
        "property P: 1 methods, 2 states, 1 statements, 0 registers",
    ),
    (
        "property P\nmethod abcdefghijklm 1 0\nstart -> error: *\n",
        "refused text 11 18",
    ),
    (
        "property P\nstart -> abcdefghijkl: *\nstart -> error: *\n",
        "property P: 0 methods, 3 states, 2 statements, 0 registers",
    ),
    (
        "property P\nstart -> abcdefghijklm: *\nstart -> error: *\n",
        "refused text 11 20",
    ),
    (
        "property P\nmethod m 1 1\nstart -> error: call m(Abcdefghijkl)\n",
        "property P: 1 methods, 2 states, 1 statements, 1 registers",
    ),
    (
        "property P\nmethod m 1 1\nstart -> error: call m(Abcdefghijklm)\n",
        "refused text 11 47",
    ),
    (
        "property P\nmethod m 1 1\nstart -> error: call m(<abcdefghijklm>)\n",
        "refused text 11 48",
    ),
    (
        "property P\nmethod m 65535 0\nstart -> error: *\n",
        "property P: 1 methods, 2 states, 1 statements, 0 registers",
    ),
    (
        "property P\nmethod m 65536 0\nstart -> error: *\n",
        "refused text 11 20",
    ),
    (
        "property P\nmethod m 1 5\nstart -> error: *\n",
        "property P: 1 methods, 2 states, 1 statements, 0 registers",
    ),
    (
        "property P\nmethod m 1 6\nstart -> error: *\n",
        "refused text 11 22",
    ),
    (
        "property P\nabcdefghijklm -> error: *\n",
        "refused text 11 11",
    ),
    (
        "property P\nstart -> error: call abcdefghijklm()\n",
        "refused text 11 32",
    ),
    (
        "property P\nmethod m 1 1\nstart -> error: call m(abcdefghijklm)\n",
        "refused text 11 47",
    ),
    (
        "property P\nmethod m 1 1\nstart -> error: call m(!abcdefghijklm)\n",
        "refused text 11 48",
    ),
    (
        "property P\nmethod m 1 1\nstart -> error: call m(<Abcdefghijkl>)\n",
        "property P: 1 methods, 2 states, 1 statements, 1 registers",
    ),
    (
        "property P\nmethod m 4294967296 0\nstart -> error: *\n",
        "refused text 11 20",
    ),
    (
        "property P\nmethod m 4295032831 0\nstart -> error: *\n",
        "refused text 11 20",
    ),
    (
        "property P\nmethod m 1 18446744073709551617\nstart -> error: *\n",
        "refused text 11 22",
    ),
    (
        "property P2\nmethod m3 1 1\nstart -> s4: call m3(V5)\ns4 -> error: call m3(<N6>)\n",
        "property P2: 1 methods, 3 states, 2 statements, 2 registers",
    ),
    (
        "property P23456789012\nstart -> error: *\n",
        "property P23456789012: 0 methods, 2 states, 1 statements, 0 registers",
    ),
    (
        "property P234567890123\nstart -> error: *\n",
        "refused text 11 9",
    ),
    ("property 2P\nstart -> error: *\n", "refused text 10 9"),
];

// Statements of four events and more.
const EVENTS: &[(&str, &str)] = &[
    (
        "property P\nstart -> error: *; *; *; *\n",
        "property P: 0 methods, 2 states, 1 statements, 0 registers",
    ),
    (
        "property P\nstart -> error: *; *; *; *; *\n",
        "refused text 11 39",
    ),
    (
        "property P\nstart -> error: *; *; *; *; $\n",
        "refused text 10 39",
    ),
    (
        "property P\nmethod m 1 0\nstart -> error: *; *; * := m()\n",
        "property P: 1 methods, 2 states, 1 statements, 0 registers",
    ),
    (
        "property P\nmethod m 1 0\nstart -> error: *; *; *; * := m()\n",
        "refused text 11 49",
    ),
    (
        "property P\nmethod m 1 0\nstart -> error: *; *; *; * : $\n",
        "refused text 11 49",
    ),
    (
        "property P\nmethod m 1 0\nstart -> error: *; *; *; X := m()\n",
        "refused text 11 49",
    ),
];

// Keywords that break, and reserved words where a name stands.
const KEYWORDS: &[(&str, &str)] = &[
    ("propertx N\n", "refused text 10 7"),
    ("propertyN\n", "refused text 10 8"),
    ("prop", "refused text 10 4"),
    ("", "refused text 10 0"),
    ("property ret\nstart -> error: *\n", "refused text 10 9"),
    (
        "property P\nmethod call 1 0\nstart -> error: *\n",
        "refused text 10 18",
    ),
    (
        "property P\nstart -> property: *\nstart -> error: *\n",
        "refused text 10 20",
    ),
    (
        "property P\nmethod m 1 0\nstart -> error: call := m()\n",
        "refused text 10 45",
    ),
    (
        "property P\nmethod -> a: *\nstart -> error: *\n",
        "refused text 10 18",
    ),
    (
        "property P\nstart -> error: *\nmethod -> a: *\n",
        "refused text 10 29",
    ),
    (
        "property P\nmethod m 1 0\nstart -> error: Call := m()\n",
        "property P: 1 methods, 2 states, 1 statements, 1 registers",
    ),
    (
        "property P\nmethod m 1 0\nstart -> error: callm()\n",
        "refused text 10 45",
    ),
];

// A word is judged before what follows it.
const WHOLE_WORDS: &[(&str, &str)] = &[
    ("property Abcdefghijklm$\n", "refused text 11 9"),
    ("property P\nmethod m 65536x 0\n", "refused text 11 20"),
    ("property P\nmethod m 007 0\n", "refused text 10 21"),
    ("property P\nmethod m 3x 0\n", "refused text 10 21"),
];

// Empty lines, and where spaces may stand.
const LINES_AND_SPACES: &[(&str, &str)] = &[
    ("property P\n\nstart -> error: *\n", "refused text 10 11"),
    ("property P\n  \nstart -> error: *\n", "refused text 10 13"),
    ("property P\nstart -> error: *\n  ", "refused text 10 31"),
    (
        "property P\nstart -> error: *",
        "property P: 0 methods, 2 states, 1 statements, 0 registers",
    ),
    ("property P\r\nstart -> error: *\n", "refused text 10 10"),
    ("property P\nstart ->\terror: *\n", "refused text 10 19"),
    ("property P\nstart - > error: *\n", "refused text 10 18"),
    (
        "property P\nmethod m 1 0\nstart -> error: X : = m()\n",
        "refused text 10 43",
    ),
    (
        "property P\nmethod m 1 0\n start  ->  error :ret*:=m ; *\n",
        "property P: 1 methods, 2 states, 1 statements, 0 registers",
    ),
    (
        "property P\nmethod m 1 2\nstart -> error: call m(X, *); call m ( ! x , < N > )  \n",
        "property P: 1 methods, 2 states, 1 statements, 2 registers",
    ),
    (
        "  property   P\nstart -> error: *\n",
        "property P: 0 methods, 2 states, 1 statements, 0 registers",
    ),
];

// What is declared, and how a text goes from `start` to `error`.
const DECLARATIONS: &[(&str, &str)] = &[
    (
        "property P\nmethod m 1 0\nmethod m 2 0\nstart -> error: *\n",
        "refused text 12 31",
    ),
    (
        "property P\nmethod m 1 0\nmethod n 1 0\nstart -> error: *\n",
        "refused text 12 33",
    ),
    (
        "property P\nstart -> error: call m()\n",
        "refused text 12 32",
    ),
    (
        "property P\nmethod m 1 1\nstart -> error: call m()\n",
        "refused text 13 47",
    ),
    (
        "property P\nmethod m 1 1\nstart -> error: call m(*, *)\n",
        "refused text 13 51",
    ),
    ("property P\nerror -> error: *\n", "refused text 16 11"),
    ("property P\nstart -> a: *\n", "refused text 17 25"),
    ("property P\na -> error: *", "refused text 17 24"),
    ("property P\n", "refused text 17 11"),
];

// Variables written twice, and read before they are written.
const WRITES_AND_READS: &[(&str, &str)] = &[
    (
        "property P\nmethod m 1 1\nstart -> error: X := m(x)\n",
        "refused text 15 47",
    ),
    (
        "property P\nmethod m 1 1\nstart -> error: x := m(X)\n",
        "property P: 1 methods, 2 states, 1 statements, 1 registers",
    ),
    (
        "property P\nmethod m 1 1\nstart -> error: X := m(X)\n",
        "refused text 14 47",
    ),
    (
        "property P\nmethod m 1 2\nstart -> error: call m(X, X)\n",
        "refused text 14 50",
    ),
    (
        "property P\nmethod m 1 1\nstart -> error: call m(X); call m(X)\n",
        "property P: 1 methods, 2 states, 1 statements, 1 registers",
    ),
    (
        "property P\nmethod m 1 1\nstart -> a: call m(X)\nstart -> a: *\na -> error: call m(!x)\n",
        "refused text 15 79",
    ),
    (
        "property P\nmethod m 1 1\nstart -> error: *\na -> error: call m(x)\n",
        "property P: 1 methods, 3 states, 2 statements, 1 registers",
    ),
];

// Names of different things do not meet.
const SEPARATE_NAMES: &[(&str, &str)] = &[
    (
        "property m\nmethod m 1 1\nstart -> m: call m(M)\nm -> error: call m(<M>)\n",
        "property m: 1 methods, 3 states, 2 statements, 2 registers",
    ),
    (
        "property P\nmethod m 1 1\nstart -> error: call m(<N>); call m(<n>)\n",
        "property P: 1 methods, 2 states, 1 statements, 2 registers",
    ),
    (
        "property P\nmethod m 1 1\nstart -> error: call m(Xy); call m(xy)\n",
        "property P: 1 methods, 2 states, 1 statements, 1 registers",
    ),
];

// Each text has its first line.
#[test]
fn first_lines(rt: HostRuntime) -> Result<(), Fail> {
    for cases in [
        NAMES_AND_NUMBERS,
        EVENTS,
        KEYWORDS,
        WHOLE_WORDS,
        LINES_AND_SPACES,
        DECLARATIONS,
        WRITES_AND_READS,
        SEPARATE_NAMES,
    ] {
        for (text, line) in cases {
            says(&rt, rt.alloc(), text, line)?;
        }
    }
    Ok(())
}
