// A label, as it is held.
ghost use Rattle.std.specs.Prelude.{◌≡◌, length};

// A label: its text, then zeros up to sixteen bytes. Nothing is the label with no text.
// Kept an array with zeros behind the text: an `ArrayVec` is not `Copy`, and of an `ArrayString` the unused bytes belong to the value, so that labels with no text would not be one value.
#[derive(Clone, Copy)]
pub struct Label {
    pub(crate) text: [u8; 16],
    ghost sixteen: { length text ≡ 16 },
}
