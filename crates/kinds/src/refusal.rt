// Refusals: which layer found a fault, what it is, and where.
ghost use Rattle.std.specs.Prelude.{◌≡◌, Some, decimal};
ghost use Rattle.kinds.specs.Refusals.{name_of, number_of, placed, refusal_words};
ghost use Rattle.kinds.specs.declared.refusal.Reason.TheVariants.{Text as of_text, Watch as of_watch};

use crate::text_reason::TextReason;
use crate::watch_reason::WatchReason;
use std::fmt;

// The layer that found the fault.
#[derive(Clone, Copy, PartialEq, Eq, Debug)]
pub enum Layer {
    Number,
    Value,
    Journal,
    Text,
    Watch,
    Mailbox,
}

// What is wrong.
#[derive(Clone, Copy, PartialEq, Eq, Debug)]
pub enum Reason {
    // the bytes end inside a head, a number, a label or a record
    Cut,
    // a number has a needless last group, or a ninth byte over 7F
    Overlong,
    // a journal's version or kind differs
    OtherHead,
    // an event's id is over 131,071
    WildId,
    // a call has over 5 values, or a return over 1
    TooManyValues,
    // a label's length or one of its bytes is wrong
    BadLabel,
    // a journal has over 65,536 bytes
    TooLong,
    // a mailbox holds as many events as it has places
    NoRoom,
    // what only a text is refused for
    Text(TextReason),
    // what only a watch refuses
    Watch(WatchReason),
}

// A fault as the layer finds it, before anyone has told its place.
#[derive(Clone, Copy, PartialEq, Eq, Debug)]
pub struct Fault {
    pub layer: Layer,
    pub reason: Reason,
}

// A refusal: a fault and its place.
#[derive(Clone, Copy, PartialEq, Eq, Debug)]
pub struct Refusal {
    pub layer: Layer,
    pub reason: Reason,
    pub place: usize,
}

impl Layer {
    // The layer's name, as it is printed.
    pub fn name(self) -> &'static str
        ensures { result.now ≡ name_of self }
    {
        match self {
            Layer::Number => "number",
            Layer::Value => "value",
            Layer::Journal => "journal",
            Layer::Text => "text",
            Layer::Watch => "watch",
            Layer::Mailbox => "mailbox",
        }
    }

    // The refusal of this layer for a reason at a place.
    pub fn refusal(self, reason: Reason, place: usize) -> Refusal
        ensures { result ≡ record { layer = self; reason = reason; place = place } }
    {
        Refusal {
            layer: self,
            reason,
            place,
        }
    }
}

impl fmt::Display for Layer {
    ghost output = { λ l. Some (name_of l) };

    fn fmt<W: fmt::Write>(&self, f: &mut fmt::Formatter<W>) -> fmt::Result {
        f.write_str(self.name())
    }
}

impl Reason {
    // The reason's number, as it is printed.
    pub fn number(self) -> u8
        ensures { result ≡ number_of self }
    {
        match self {
            Reason::Cut => 1,
            Reason::Overlong => 2,
            Reason::OtherHead => 3,
            Reason::WildId => 4,
            Reason::TooManyValues => 5,
            Reason::BadLabel => 6,
            Reason::TooLong => 7,
            Reason::NoRoom => 50,
            Reason::Text(r) => r.number(),
            Reason::Watch(r) => r.number(),
        }
    }
}

impl From<TextReason> for Reason {
    ghost from_gives = { λ r x. x ≡ of_text r };

    fn from(reason: TextReason) -> Reason {
        Reason::Text(reason)
    }
}

impl From<WatchReason> for Reason {
    ghost from_gives = { λ r x. x ≡ of_watch r };

    fn from(reason: WatchReason) -> Reason {
        Reason::Watch(reason)
    }
}

impl fmt::Display for Reason {
    ghost output = { λ r. Some (decimal (number_of r)) };

    fn fmt<W: fmt::Write>(&self, f: &mut fmt::Formatter<W>) -> fmt::Result {
        write!(f, "{}", self.number())
    }
}

impl Fault {
    // The refusal that a fault is at a place.
    pub fn at(self, place: usize) -> Refusal
        ensures { result ≡ placed self place }
    {
        self.layer.refusal(self.reason, place)
    }
}

impl fmt::Display for Refusal {
    ghost output = { λ f. Some (refusal_words f) };

    fn fmt<W: fmt::Write>(&self, f: &mut fmt::Formatter<W>) -> fmt::Result {
        write!(f, "{} {} {}", self.layer, self.reason, self.place)
    }
}
