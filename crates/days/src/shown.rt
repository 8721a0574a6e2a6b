// The run that the report of a broken day shows.
use crate::misstep::Misstep;
use crate::walk::Walk;
use kinds::kind::Kind;
use kinds::labels::Labels;
use kinds::numbers::Numbers;
use sources::drain::drain;
use sources::journal::Journal;
use std::alloc::{AllocError, Global};
use tables::table::Table;
use tables::text::read;

// How many events were judged, where `error` is reached, and the steps.
#[derive(Drop)]
pub(crate) struct Shown {
    judged: usize,
    position: usize,
    steps: Vec<u8>,
}

// A number that a report shows.
fn number(word: Option<&str>) -> Result<usize, Misstep> {
    word.and_then(|w| w.parse().ok()).ok_or(Misstep::NoRun)
}

// The steps of a line.
fn steps_of(heap: Global, line: &str) -> Result<Vec<u8>, Misstep> {
    let mut steps = Vec::new(heap);
    for word in line.split(' ') {
        let step = word.parse().map_err(|_| Misstep::NoRun)?;
        steps.push(step).map_err(|_| Misstep::Memory)?;
    }
    Ok(steps)
}

// The property that a text writes.
fn table_of(heap: Global, text: &[u8]) -> Result<Table, Misstep> {
    let mut table = Table::empty(heap);
    read(heap, text, &mut table).map_err(|_| Misstep::Refused)?;
    Ok(table)
}

// What the registers hold at the start: the constants their values, and the others nothing.
fn registers_of<K: Kind>(table: &Table, constants: &[u8]) -> Result<[K::Value; 8], Misstep> {
    let mut registers = [K::nothing(); 8];
    let mut rest = constants;
    for register in table.constants() {
        let (value, count) = K::read(rest).map_err(|_| Misstep::Refused)?;
        registers[register.place()] = value;
        rest = rest.get(count..).ok_or(Misstep::Refused)?;
    }
    Ok(registers)
}

impl Shown {
    // The run of a report of two lines.
    pub(crate) fn of(heap: Global, report: &str) -> Result<Shown, Misstep> {
        let (first, rest) = report.split_once('\n').ok_or(Misstep::NoRun)?;
        let line = rest.strip_suffix('\n').ok_or(Misstep::NoRun)?;
        let mut words = first.split(' ').skip(1);
        let judged = number(words.next())?;
        let position = number(words.next())?;
        let steps = steps_of(heap, line)?;
        Ok(Shown {
            judged,
            position,
            steps,
        })
    }

    // The report with this first line that shows these steps.
    pub(crate) fn report(&self, heap: Global, first: &str) -> Result<String, AllocError> {
        let mut report = format!(in heap; "{first}\n")?;
        for (i, step) in self.steps.iter().enumerate() {
            let space = if i == 0 { "" } else { " " };
            write!(report, "{space}{step}")?;
        }
        report.push('\n')?;
        Ok(report)
    }

    // Walks the run over values of one kind.
    fn walk_as<K: Kind>(
        &self,
        heap: Global,
        table: &Table,
        journal: &[u8],
        constants: &[u8],
    ) -> Result<(), Misstep> {
        let mut journal = Journal::<K>::open(journal).map_err(|_| Misstep::Refused)?;
        let day = drain::<K, _>(heap, &mut journal)?;
        let judged = day.events.get(..self.judged).ok_or(Misstep::NoRun)?;
        let left = judged.get(self.position..).ok_or(Misstep::NoRun)?;
        let ended = day.ending.is_ok() && judged.len() == day.events.len();
        let registers = registers_of::<K>(table, constants)?;
        let mut walk = Walk::<K>::new(table.statements(), registers, judged, ended);
        for step in &self.steps {
            walk.step(*step)?;
        }
        if walk.errs_before(left.len()) {
            Ok(())
        } else {
            Err(Misstep::Astray)
        }
    }

    // Walks the run, by the property of a text, a journal whose head chooses the kind, and the values of the constants.
    pub(crate) fn walk(
        &self,
        heap: Global,
        text: &[u8],
        journal: &[u8],
        constants: &[u8],
    ) -> Result<(), Misstep> {
        let table = table_of(heap, text)?;
        match journal {
            [_, Labels::NUMBER, ..] => self.walk_as::<Labels>(heap, &table, journal, constants),
            _ => self.walk_as::<Numbers>(heap, &table, journal, constants),
        }
    }
}
