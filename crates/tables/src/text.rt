// Reading a property text into a table.
ghost use Rattle.std.specs.Prelude.{◌≡◌, MatchResult};
ghost use Rattle.property.specs.States.{Property};
ghost use Rattle.paths.specs.Outcomes.{Written, Refuses};
ghost use Rattle.tables.specs.Meant.{Holds};
ghost use Rattle.tables.specs.Refusals.{refusal_of};

use crate::table::Table;
use kinds::refusal::{Layer, Reason, Refusal};
use property::draft::Draft;
use property::reader::Flaw;
use property::text::Failure;
use std::alloc::Global;

// Reads a property text into a table, which stays as it was where the text is refused or memory is short.
pub fn read(heap: Global, text: &[u8], table: &mut Table) -> Result<(), Failure>
    ensures { MatchResult result (λ _. (P : Property) × Written text.now P × Holds table.new P) (λ e. Refuses text.now e × (table.new ≡ table.old)) }
{
    let mut draft = Draft::new(heap);
    paths::text::read(heap, text, &mut draft)?;
    *table = Table::of(heap, text, draft)?;
    Ok(())
}

// The refusal that a fault of a text is.
pub fn refusal(flaw: Flaw) -> Refusal
    ensures { result ≡ refusal_of flaw }
{
    Layer::Text.refusal(Reason::from(flaw.reason), flaw.place)
}
