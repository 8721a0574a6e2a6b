// What a source of events is.
ghost use Rattle.std.specs.Prelude.{List};
ghost use Rattle.kinds.specs.Refusals.{Ending};
ghost use Rattle.sources.specs.Events.{Happening};
ghost use Rattle.sources.specs.Sources.{AllLawful, Next};

use crate::event::Event;
use kinds::kind::Kind;
use kinds::refusal::Refusal;

// Events of one kind of values that wait, and how they end.
pub trait Source<K: Kind> {
    // The events that wait, first to last.
    ghost waiting: { Self → List (Happening K.Value) };

    // What stands behind the last of them.
    ghost ending: { Self → Ending };

    // Hands over the first event and removes only it; where none waits it tells the ending, and nothing changes.
    fn next(&mut self) -> Result<Option<Event<K::Value>>, Refusal>
        ensures { Next (waiting self.old) (ending self.old) result (waiting self.new) (ending self.new) };

    // Every event that waits is lawful.
    ghost lawful: { (s : Self) → AllLawful (waiting s) };
}
