// Why a property text is refused.

ghost use Rattle.std.specs.Prelude.{◌≡◌};
ghost use Rattle.kinds.specs.Refusals.{text_number};

// The reasons that only a text has.
#[derive(Clone, Copy, PartialEq, Eq, Debug)]
pub enum TextReason {
    // a byte fits no form, or the text breaks off; a reserved word stands as a name
    NoForm = 10,
    // something is one too many, or too large
    TooMuch = 11,
    // a method is not declared, or its name or number is declared twice
    BadMethod = 12,
    // a label has another count of patterns than the method has parameters
    OtherArity = 13,
    // a label writes one variable twice
    WrittenTwice = 14,
    // some path of statements reaches a read of a variable that it has not written
    UnwrittenRead = 15,
    // a statement leaves the state `error`
    LeavesError = 16,
    // no written statement leaves `start`, or none leads to `error`
    NoRoute = 17,
}

impl TextReason {
    // The reason's number, as it is printed.
    pub fn number(self) -> u8
        ensures { result ≡ text_number self }
    {
        self as u8
    }
}
