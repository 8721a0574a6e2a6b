// The marks of a property text.
ghost use Rattle.std.specs.Prelude.{◌≡◌};
ghost use Rattle.property.specs.Marks.{Means, in_class};

// What a character of a property text is.
#[derive(Clone, Copy)]
pub enum Mark {
    Capital,
    Small,
    Digit,
    Space,
    Newline,
    Star,
    Bang,
    Comma,
    Semicolon,
    Colon,
    Equals,
    Minus,
    Open,
    Close,
    Less,
    Greater,
    Other,
}

// Which mark a character is.
// Inlined, so that a test for one mark takes a comparison and no call.
#[inline(always)]
pub fn classify(c: char) -> Mark
    ensures { Means result c }
{
    match c {
        'A'..='Z' => Mark::Capital,
        'a'..='z' => Mark::Small,
        '0'..='9' => Mark::Digit,
        ' ' => Mark::Space,
        '\n' => Mark::Newline,
        '*' => Mark::Star,
        '!' => Mark::Bang,
        ',' => Mark::Comma,
        ';' => Mark::Semicolon,
        ':' => Mark::Colon,
        '=' => Mark::Equals,
        '-' => Mark::Minus,
        '(' => Mark::Open,
        ')' => Mark::Close,
        '<' => Mark::Less,
        '>' => Mark::Greater,
        _ => Mark::Other,
    }
}

// The bytes that make up one piece of a text.
#[derive(Clone, Copy)]
pub enum Class {
    Spaces,
    Wordy,
    Digits,
}

impl Class {
    // Whether a byte belongs to the class.
    pub(crate) fn has(self, b: u8) -> bool
        ensures { result ≡ in_class self b }
    {
        matches!(
            (self, classify(char::from(b))),
            (Class::Spaces, Mark::Space)
                | (Class::Wordy, Mark::Capital | Mark::Small | Mark::Digit)
                | (Class::Digits, Mark::Digit)
        )
    }
}
