// How the values of each kind are printed.
ghost use Rattle.std.specs.Prelude.{◌≡◌, ℕ, List, codes};
ghost use Rattle.kinds.specs.Labels.{spelling};
ghost use Rattle.day.specs.Lines.{Writes, number_shown};

use crate::page::Page;
use kinds::kind::Kind;
use kinds::label::Label;
use kinds::labels::Labels;
use kinds::numbers::Numbers;
use std::alloc::AllocError;

// A kind whose name and values can be printed.
pub(crate) trait Shown: Kind {
    // The name of the kind.
    ghost title: { List ℕ };

    // What is printed of a value.
    ghost shown: { Self.Value → List ℕ };

    // The name of the kind.
    // Kept a function: clauses see a constant `&str` as a reference (`Bor (List ℕ)`), whose address no impl can give.
    fn title() -> &'static str
        ensures { result.now ≡ title };

    // Prints a value.
    fn print(value: &Self::Value, page: &mut Page) -> Result<(), AllocError>
        ensures { Writes result page.old (shown value.now) page.new };
}

impl Shown for Numbers {
    ghost title = { codes "numbers" };

    ghost shown = { number_shown };

    fn title() -> &'static str {
        "numbers"
    }

    fn print(value: &Option<u64>, page: &mut Page) -> Result<(), AllocError> {
        match value {
            Some(n) => write!(page, "{n}"),
            None => Ok(()),
        }
    }
}

impl Shown for Labels {
    ghost title = { codes "labels" };

    ghost shown = { spelling };

    fn title() -> &'static str {
        "labels"
    }

    fn print(value: &Label, page: &mut Page) -> Result<(), AllocError> {
        page.write(value.text())
    }
}
