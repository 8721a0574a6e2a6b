// The watch.
ghost use Rattle.std.specs.Prelude.{◌≤◌};

use crate::held::Held;
use engine::rows::Rows;
use kinds::kind::Kind;

pub mod calls;
mod reasons;

// The rows of configurations, and what else is kept. At most 16,384 events are judged.
#[derive(Drop)]
pub struct Watch<'a, K: Kind> {
    rows: Rows<K>,
    held: Held<'a>,
    ghost few: { held.judged ≤ 16384 },
}
