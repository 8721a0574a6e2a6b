// The listing of a journal: its kind, a line for each event, and how it ends.
ghost use Rattle.std.specs.Prelude.{◌≡◌, ℕ, List, map, IfOk};
ghost use Rattle.std.specs.Option.{option_map};
ghost use Rattle.day.specs.Lines.{Writes, ended, refusal_line};
ghost use Rattle.day.specs.Listing.{JournalListed, Lists, event_line, kind_line, last_line, lines_of, listing_as, verb_of};
ghost use Rattle.sources.specs.Sayings.{says};

use crate::page::Page;
use crate::shown::Shown;
use kinds::kind::Kind;
use kinds::labels::Labels;
use kinds::numbers::Numbers;
use kinds::refusal::Refusal;
use narrow::filter::Narrow;
use sources::drain::{Drained, drain};
use sources::event::Event;
use sources::journal::Journal;
use sources::source::Source;
use std::alloc::{AllocError, Global};

// The most bytes that a journal has.
pub use sources::journal::read::MOST_BYTES;

// Prints values, each after a space, and ends the line.
fn print_values<K: Shown>(page: &mut Page, values: &[K::Value]) -> Result<(), AllocError>
    ensures { Writes result page.old (ended (map K.Shown.shown values.now)) page.new }
{
    for value in values {
        page.write(b" ")?;
        K::print(value, page)?;
    }
    page.write(b"\n")
}

// What an event does to its method.
fn verb<V: Copy>(event: &Event<V>) -> &'static str
    ensures { result.now ≡ verb_of (says event.now).id }
{
    if event.is_return() { "return" } else { "call" }
}

// Prints the line of an event.
// Kept three writes: one `write!` of all grows a string on the way, which made a listing of calls without values a third slower.
fn print_event<K: Shown>(page: &mut Page, event: &Event<K::Value>) -> Result<(), AllocError>
    ensures { Writes result page.old (event_line K.Shown.shown (says event.now)) page.new }
{
    page.write(verb(event).as_bytes())?;
    page.write(b" ")?;
    write!(page, "{}", event.method())?;
    print_values::<K>(page, event.values())
}

// Prints the line of each event.
fn print_events<K: Shown>(page: &mut Page, events: &[Event<K::Value>]) -> Result<(), AllocError>
    ensures { Writes result page.old (lines_of K.Shown.shown (map says events.now)) page.new }
{
    for event in events {
        print_event::<K>(page, event)?;
    }
    Ok(())
}

// Prints the last line: how many events there were, or the refusal that stands behind them.
fn print_ending(
    page: &mut Page,
    count: usize,
    ending: Result<(), Refusal>,
) -> Result<(), AllocError>
    ensures { Writes result page.old (last_line count ending) page.new }
{
    match ending {
        Ok(()) => writeln!(page, "end {count}"),
        Err(refusal) => page.write_refusal(&refusal),
    }
}

// Prints the line that names the kind.
fn print_kind<K: Shown>(page: &mut Page) -> Result<(), AllocError>
    ensures { Writes result page.old (kind_line K.Shown.title) page.new }
{
    writeln!(page, "journal {}", K::title())
}

// Prints what was drained of a source.
fn print_day<K: Shown>(page: &mut Page, day: &Drained<K::Value>) -> Result<(), AllocError>
    ensures { Writes result page.old (listing_as K.Shown.title K.Shown.shown (map says day.now.events.items) day.now.ending) page.new }
{
    print_kind::<K>(page)?;
    print_events::<K>(page, &day.events)?;
    print_ending(page, day.events.len(), day.ending)
}

// Drains a source and prints what it held.
fn print_source<K: Shown, S: Source<K>>(page: &mut Page, source: &mut S) -> Result<(), AllocError>
    ensures { Writes result page.old (listing_as K.Shown.title K.Shown.shown (S.Source.waiting source.old) (S.Source.ending source.old)) page.new }
{
    let day = drain::<K, _>(page.heap(), source)?;
    print_day::<K>(page, &day)
}

// Prints a journal of one kind: all of it, or the events of some methods.
fn print_journal<K: Shown>(
    page: &mut Page,
    bytes: &[u8],
    methods: Option<&[u16]>,
) -> Result<(), AllocError>
    ensures { (out : List ℕ) × Lists K.Kind.NUMBER K.Kind.reads K.Shown.title K.Shown.shown (option_map (λ x. x.now) methods.entry) bytes.now out × Writes result page.old out page.new }
{
    match Journal::<K>::open(bytes) {
        Ok(mut journal) => match methods {
            Some(methods) => print_source::<K, _>(page, &mut Narrow::new(journal, methods)),
            None => print_source::<K, _>(page, &mut journal),
        },
        Err(refusal) => page.write_refusal(&refusal),
    }
}

// The listing of a journal, whose second byte chooses the kind: of all its events, or of those of some methods.
pub fn listing(heap: Global, bytes: &[u8], methods: Option<&[u16]>) -> Result<Vec<u8>, AllocError>
    ensures { IfOk result (λ out. JournalListed (option_map (λ x. x.now) methods.entry) bytes.now out.items) }
{
    let mut page = Page::new(heap);
    match bytes {
        [_, Labels::NUMBER, ..] => print_journal::<Labels>(&mut page, bytes, methods)?,
        _ => print_journal::<Numbers>(&mut page, bytes, methods)?,
    }
    Ok(page.into_bytes())
}
