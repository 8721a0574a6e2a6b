// The report of a day: how it comes out, and of a broken day the steps of a run.
ghost use Rattle.std.specs.Prelude.{map, decimal, IfOk};
ghost use Rattle.judging.specs.Outcomes.{means};
ghost use Rattle.day.specs.Lines.{Writes, ended, refusal_line};
ghost use Rattle.day.specs.Reporting.{Reported, report_of, steps_line};

use crate::page::Page;
pub use judging::constants::MOST_CONSTANTS;
use judging::judge::judge;
use judging::outcome::Outcome;
use std::alloc::{AllocError, Global};

// Prints steps, each after a space, and ends the line.
fn print_further(page: &mut Page, steps: &[u8]) -> Result<(), AllocError>
    ensures { Writes result page.old (ended (map decimal steps.now)) page.new }
{
    for step in steps {
        write!(page, " {step}")?;
    }
    page.write(b"\n")
}

// Prints the line of the steps of a run.
fn print_steps(page: &mut Page, steps: &[u8]) -> Result<(), AllocError>
    ensures { Writes result page.old (steps_line steps.now) page.new }
{
    let [first, further @ ..] = steps else {
        return page.write(b"\n");
    };
    write!(page, "{first}")?;
    print_further(page, further)
}

// Prints how a day comes out.
fn print_outcome(page: &mut Page, outcome: &Outcome) -> Result<(), AllocError>
    ensures { Writes result page.old (report_of (means outcome.now)) page.new }
{
    match outcome {
        Outcome::Kept { judged } => writeln!(page, "kept {judged}"),
        Outcome::Broken {
            judged,
            position,
            steps,
        } => {
            writeln!(page, "broken {judged} {position}")?;
            print_steps(page, steps)
        }
        Outcome::Refused(refusal) => page.write_refusal(refusal),
    }
}

// The report of a day, by the property of a text, a journal whose head chooses the kind, and the values of the constants.
pub fn report(
    heap: Global,
    text: &[u8],
    journal: &[u8],
    constants: &[u8],
) -> Result<Vec<u8>, AllocError>
    ensures { IfOk result (λ out. Reported text.now journal.now constants.now out.items) }
{
    let outcome = judge(heap, text, journal, constants)?;
    let mut page = Page::new(heap);
    print_outcome(&mut page, &outcome)?;
    Ok(page.into_bytes())
}
