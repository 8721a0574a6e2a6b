// All that is printed of a text: each sentence that explains a refusal.
use super::built::Built;
use super::*;

// What is printed of a text that is accepted, and of refused ones.
const OUTPUTS: &[(&str, &str)] = &[
    (
        "property P\nstart -> error: *\n",
        "property P: 0 methods, 2 states, 1 statements, 0 registers\n",
    ),
    (
        "",
        "refused text 10 0\nline 1, column 1\n\n^\nThe text breaks off here.\n",
    ),
    (
        "property P\nmethod m 1 0\nstart -> error: call m(",
        "refused text 10 47\nline 3, column 24\nstart -> error: call m(\n                       ^\nThe text breaks off here.\n",
    ),
    (
        "property P\nstart ->\terror: \u{e9}\u{7f}\n",
        "refused text 10 19\nline 2, column 9\nstart ->?error: ???\n        ^\nThis byte may not stand here; property, method, call and ret are no names.\n",
    ),
    (
        "property P\nmethod m 65536 0\nstart -> error: *\n",
        "refused text 11 20\nline 2, column 10\nmethod m 65536 0\n         ^\nThis number is too large: a method's number is at most 65535, and it has at most 5 parameters.\n",
    ),
    (
        "property P\nstart -> abcdefghijklm: *\n",
        "refused text 11 20\nline 2, column 10\nstart -> abcdefghijklm: *\n         ^\nThis is too long or one too many: a name has at most 12 letters and digits, a statement 4 events, and a property 32 methods, 64 statements, 16 states and 8 variables and constants.\n",
    ),
    (
        "property P\nmethod m 1 0\nmethod n 1 0\nstart -> error: *\n",
        "refused text 12 33\nline 3, column 10\nmethod n 1 0\n         ^\nAn earlier line declares a method of this number.\n",
    ),
    (
        "property P\nmethod m 1 0\nmethod m 2 0\nstart -> error: *\n",
        "refused text 12 31\nline 3, column 8\nmethod m 2 0\n       ^\nNo line declares a method of this name, or an earlier line declares one too.\n",
    ),
    (
        "property P\nstart -> error: call m()\n",
        "refused text 12 32\nline 2, column 22\nstart -> error: call m()\n                     ^\nNo line declares a method of this name, or an earlier line declares one too.\n",
    ),
    (
        "property P\nmethod m 1 1\nstart -> error: call m(*, *)\n",
        "refused text 13 51\nline 3, column 28\nstart -> error: call m(*, *)\n                           ^\nThe brackets that close here hold more or fewer patterns than the method has parameters.\n",
    ),
    (
        "property P\nmethod m 1 2\nstart -> a: *\na -> error: call m(S, S)\nstart -> a: *\n",
        "refused text 14 60\nline 4, column 23\na -> error: call m(S, S)\n                      ^\nThe same label writes this variable twice.\n",
    ),
    (
        "property P\nmethod m 1 1\nstart -> error: X := m(x)\n",
        "refused text 15 47\nline 3, column 24\nstart -> error: X := m(x)\n                       ^\nSome path of statements from start comes here without having written this variable.\n",
    ),
    (
        "property P\nerror -> error: *\n",
        "refused text 16 11\nline 2, column 1\nerror -> error: *\n^\nNo statement may leave the state error.\n",
    ),
    (
        "property P\nstart -> a: *\n",
        "refused text 17 25\nline 3, column 1\n\n^\nNo statement leaves start, or none leads to error.\n",
    ),
];

// What is printed of a text of 8,193 bytes.
const TOO_LONG: &str =
    "refused text 11 8192\nline 2, column 18\nstart -> error: * \n                 ^\nA text has at most 8192 bytes.\n";

// Each text has its output.
#[test]
fn whole_outputs(rt: HostRuntime) -> Result<(), Fail> {
    let heap = rt.alloc();
    for (text, all) in OUTPUTS {
        prints(&rt, heap, text, all)?;
    }
    let long = Built::Padded(8_193, "start -> error: * ").text(heap)?;
    prints(&rt, heap, long.as_str(), TOO_LONG)
}
