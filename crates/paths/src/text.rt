// Reading a property text whole.
ghost use Rattle.std.specs.Prelude.{◌≡◌, MatchResult};
ghost use Rattle.paths.specs.Outcomes.{Written, Refuses};
ghost use Rattle.property.specs.Views.{sofar};

use crate::unwritten_read;
use kinds::text_reason::TextReason;
use property::draft::Draft;
use property::reader::Flaw;
use property::text::Failure;
use std::alloc::Global;

// Reads a property text into a draft, which stays as it was where the text is refused or memory is short.
pub fn read(heap: Global, text: &[u8], draft: &mut Draft) -> Result<(), Failure>
    ensures { MatchResult result (λ _. Written text.now (sofar text.now draft.new)) (λ e. Refuses text.now e × (draft.new ≡ draft.old)) }
{
    let mut found = Draft::new(heap);
    property::text::read(heap, text, &mut found)?;
    if let Some(place) = unwritten_read(&found.statements, &found.registers) {
        let flaw = Flaw {
            reason: TextReason::UnwrittenRead,
            place,
        };
        return Err(flaw.into());
    }
    *draft = found;
    Ok(())
}
