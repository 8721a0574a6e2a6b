// Which bytes may come at each spot, and where a text may end.
ghost use Rattle.std.specs.Prelude.{◌≡◌};
ghost use Rattle.property.specs.Grammar.{head_opens, line_opens, route_opens, label_opens, inner_opens, opens_at, tight_at, line_ends, label_ends, ends_at};

use crate::marks::*;
use crate::spot::*;

// The word that the first line begins with.
const KEYWORD: [u8; 8] = *b"property";

impl Head {
    // Whether the byte may come.
    pub(crate) fn opens(self, b: u8) -> bool
        ensures { result ≡ head_opens self b }
    {
        match (self, classify(char::from(b))) {
            (Head::Margin | Head::Gap, Mark::Space) => true,
            (Head::Margin, _) => b == b'p',
            (Head::Keyword(read), _) => b == KEYWORD[read.min(7)],
            (Head::Title, Mark::Capital | Mark::Small) => true,
            _ => false,
        }
    }
}

impl Line {
    // Whether the byte may come.
    pub(crate) fn opens(self, b: u8) -> bool
        ensures { result ≡ line_opens self b }
    {
        matches!(
            (self, classify(char::from(b))),
            (Line::Ending, Mark::Newline)
                | (Line::Fresh | Line::MethodName, Mark::Capital | Mark::Small)
                | (Line::MethodNumber | Line::MethodArity(_), Mark::Digit)
        )
    }

    // Whether the text may end, where spaces may be left or none.
    pub(crate) fn ends(self, spaces: &[u8]) -> bool
        ensures { result ≡ line_ends self spaces.now }
    {
        match self {
            Line::Ending => true,
            Line::Fresh => spaces.is_empty(),
            _ => false,
        }
    }
}

impl Route {
    // Whether the byte may come.
    pub(crate) fn opens(self, b: u8) -> bool
        ensures { result ≡ route_opens self b }
    {
        matches!(
            (self, classify(char::from(b))),
            (Route::Minus, Mark::Minus)
                | (Route::Greater, Mark::Greater)
                | (Route::Target, Mark::Capital | Mark::Small)
                | (Route::Colon, Mark::Colon)
        )
    }
}

impl Label {
    // Whether the byte may come.
    pub(crate) fn opens(self, b: u8) -> bool
        ensures { result ≡ label_opens self b }
    {
        matches!(
            (self, classify(char::from(b))),
            (
                Label::Begin,
                Mark::Capital | Mark::Small | Mark::Star | Mark::Bang | Mark::Less
            ) | (Label::Star, Mark::Colon | Mark::Semicolon | Mark::Newline)
                | (Label::Becomes, Mark::Colon)
                | (Label::Equals, Mark::Equals)
                | (Label::Callee, Mark::Capital | Mark::Small)
                | (Label::Open, Mark::Open)
                | (Label::Comma, Mark::Comma | Mark::Close)
                | (Label::End, Mark::Semicolon | Mark::Newline)
        )
    }

    // Whether the text may end.
    pub(crate) fn ends(self) -> bool
        ensures { result ≡ label_ends self }
    {
        matches!(self, Label::Star | Label::End)
    }
}

impl Inner {
    // Whether the byte may come.
    pub(crate) fn opens(self, b: u8) -> bool
        ensures { result ≡ inner_opens self b }
    {
        matches!(
            (self, classify(char::from(b))),
            (
                Inner::Returned | Inner::First | Inner::Param,
                Mark::Capital | Mark::Small | Mark::Star | Mark::Bang | Mark::Less
            ) | (Inner::First, Mark::Close)
                | (Inner::Negated(_), Mark::Small)
                | (Inner::Quoted(_), Mark::Capital | Mark::Small)
                | (Inner::Unquote, Mark::Greater)
        )
    }
}

impl Spot {
    // Whether the byte may come.
    pub(crate) fn opens(self, b: u8) -> bool
        ensures { result ≡ opens_at self b }
    {
        match self {
            Spot::Head(h) => h.opens(b),
            Spot::Line(l) => l.opens(b),
            Spot::Route(r) => r.opens(b),
            Spot::Label(l) => l.opens(b),
            Spot::Inner(i) => i.opens(b),
        }
    }

    // Whether no spaces are free here.
    pub(crate) fn tight(self) -> bool
        ensures { result ≡ tight_at self }
    {
        matches!(
            self,
            Spot::Head(Head::Margin | Head::Keyword(_) | Head::Gap)
                | Spot::Route(Route::Greater)
                | Spot::Label(Label::Equals)
        )
    }

    // Whether the text may end, where spaces may be left or none.
    pub(crate) fn ends(self, spaces: &[u8]) -> bool
        ensures { result ≡ ends_at self spaces.now }
    {
        match self {
            Spot::Line(l) => l.ends(spaces),
            Spot::Label(l) => l.ends(),
            _ => false,
        }
    }
}
