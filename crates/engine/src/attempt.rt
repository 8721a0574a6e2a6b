// How a statement fares on the events that come next.
ghost use Rattle.std.specs.Prelude.{◌≡◌, List, map};
ghost use Rattle.topl.specs.Table.{Event as Happening};
ghost use Rattle.topl.specs.Runs.{fits, meets, written, writes, fares};
ghost use Rattle.tables.specs.Views.{pattern, matcher};
ghost use Rattle.engine.specs.Views.{Shown, Seen, told};

use crate::numbered::Outcome;
use crate::window::Witnessed;
use kinds::kind::Kind;
use tables::parts::{Matcher, Register};
use topl::pattern::Pattern;

// Does a value fit a pattern?
fn fits_pattern<K: Kind>(registers: &[K::Value; 8], v: K::Value, p: Pattern<Register>) -> bool
    ensures { result ≡ fits (map K.Kind.class registers.now) (K.Kind.class v) (pattern p) }
{
    match p {
        Pattern::Any | Pattern::Write(_) => true,
        Pattern::Same(r) => K::same(&registers[r.place()], &v),
        Pattern::Differs(r) => !K::same(&registers[r.place()], &v),
    }
}

// Does an event meet a matcher? All reads see the registers from before its writes.
fn meets_matcher<K: Kind>(
    registers: &[K::Value; 8],
    event: &Witnessed<K::Value>,
    m: &Matcher,
) -> bool
    ensures { (e : Happening) → Shown K.Kind.class event.now e → result ≡ meets (map K.Kind.class registers.now) e (matcher m.now) }
{
    match m {
        Matcher::Any => true,
        Matcher::Event(guard) => {
            let mut values = guard.patterns.iter().zip(&event.places);
            guard.id == event.id
                && values.all(
                    |(p, v)| -> bool
                        ensures { result ≡ fits (map K.Kind.class registers.entry.now) (K.Kind.class v.entry.now) (pattern p.entry.now) }
                    { fits_pattern::<K>(registers, *v, *p) },
                )
        }
    }
}

// Writes a value where a pattern says so.
fn write_pattern<K: Kind>(registers: &mut [K::Value; 8], v: K::Value, p: Pattern<Register>)
    ensures { map K.Kind.class registers.new ≡ written (map K.Kind.class registers.old) (K.Kind.class v) (pattern p) }
{
    if let Pattern::Write(r) = p {
        registers[r.place()] = v;
    }
}

// Writes what a matcher's patterns write.
fn write_matcher<K: Kind>(registers: &mut [K::Value; 8], event: &Witnessed<K::Value>, m: &Matcher)
    ensures { (e : Happening) → Shown K.Kind.class event.now e → map K.Kind.class registers.new ≡ writes (map K.Kind.class registers.old) e (matcher m.now) }
{
    if let Matcher::Event(guard) = m {
        for (p, v) in guard.patterns.iter().zip(&event.places) {
            write_pattern::<K>(registers, *v, *p);
        }
    }
}

// How the matchers of a statement fare on some events, from the first on.
pub(crate) fn attempt_statement<K: Kind>(
    events: &[Witnessed<K::Value>],
    matchers: &[Matcher],
    registers: &[K::Value; 8],
) -> Outcome<K::Value>
    ensures { (es : List Happening) → Seen K.Kind.class events.now es
        → told K.Kind.class result ≡ fares (map matcher matchers.now) (map K.Kind.class registers.now) es }
{
    let mut held = *registers;
    for (j, matcher) in matchers.iter().enumerate() {
        let Some(event) = events.get(j) else {
            return Outcome::Hangs;
        };
        if !meets_matcher::<K>(&held, event, matcher) {
            return Outcome::Fails;
        }
        write_matcher::<K>(&mut held, event, matcher);
    }
    Outcome::Passes(held)
}
