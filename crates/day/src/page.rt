// The bytes that a program is to print.
ghost use Rattle.std.specs.Prelude.{◌≡◌, [], IfSome};
ghost use Rattle.std.specs.Vec.{vec_allocator};
ghost use Rattle.day.specs.Lines.{Writes, refusal_line, written};

use kinds::refusal::Refusal;
use std::alloc::{AllocError, Global};
use std::fmt::Display;

// What is written so far.
// Kept bytes, not a `String`: a label's text is bytes, which a `String` would take only after a test that they are UTF-8.
#[derive(Drop)]
pub(crate) struct Page {
    bytes: Vec<u8>,
}

impl Page {
    // An empty page.
    pub(crate) fn new(heap: Global) -> Page
        ensures { written result ≡ [] }
    {
        Page {
            bytes: Vec::new(heap),
        }
    }

    // Where memory comes from.
    pub(crate) fn heap(&self) -> Global
        ensures { result ≡ vec_allocator self.now.bytes }
    {
        *self.bytes.allocator()
    }

    // Writes some bytes.
    pub(crate) fn write(&mut self, text: &[u8]) -> Result<(), AllocError>
        ensures { Writes result self.old text.now self.new }
    {
        self.bytes.extend_from_slice(text)
    }

    // Writes what a value prints; `write!` calls it.
    pub(crate) fn write_fmt<D: Display + Drop>(&mut self, value: D) -> Result<(), AllocError>
        ensures { IfSome (D.output value) (λ text. Writes result self.old text self.new) }
    {
        let text = String::format(self.heap(), value)?;
        self.write(text.as_str().as_bytes())
    }

    // Writes the line that tells a refusal.
    pub(crate) fn write_refusal(&mut self, refusal: &Refusal) -> Result<(), AllocError>
        ensures { Writes result self.old (refusal_line refusal.now) self.new }
    {
        writeln!(self, "refused {refusal}")
    }

    // All that was written.
    pub(crate) fn into_bytes(self) -> Vec<u8>
        ensures { result.items ≡ written self }
    {
        self.bytes
    }
}
