// Where a reader stands in a property text, with what it holds of the line that it reads.
ghost use Rattle.std.specs.Prelude.{◌≡◌, ◌+◌};
ghost use Rattle.property.specs.Cursors.{opened, sourced, origin, filled, met, finished, writing, one_if, wrote};

use crate::spot::*;
use crate::table::*;

// The label that is being read: its kind, its method, how many patterns have been read, of which the returned one counts as the first also where there is none,
// the patterns, and the registers that it writes.
#[derive(Clone, Copy)]
pub struct Partial {
    pub kind: Kind,
    pub number: u32,
    pub arity: usize,
    pub count: usize,
    pub returned: Slot,
    // Kept an array: the label is public and `Copy`, which an ArrayVec is not.
    pub slots: [Slot; 5],
    // Kept flags: the label is public and `Copy`, which no set of std is, and a set would take heap for eight registers.
    pub written: [bool; 8],
}

// A place in the grammar: the spot, the label and the statement that are being read, and whether `start` and `error` have been written.
#[derive(Clone, Copy)]
pub struct Cursor {
    pub spot: Spot,
    // Kept a label and a statement where none is being read: an Option of either would have to be unwrapped at each of its pieces, which its
    // beginning always precedes.
    pub label: Partial,
    pub statement: Statement,
    // Kept two bools: each holds or not by itself and has no value beside it, so an enum would have a variant for each of the four cases.
    pub starts: bool,
    pub errs: bool,
}

// A slot that nothing was written into.
// Kept a filler, for places of an array that do not count and for a returned pattern that is not read: whoever reads a finished call or return would have to
// ask an Option of each pattern that is there.
const BLANK: Slot = Slot {
    pattern: Pattern::Any,
    place: 0,
};

impl Partial {
    // A label that begins, of a kind, with so many patterns.
    pub(crate) fn opened(kind: Kind, count: usize) -> Partial
        ensures { result ≡ opened kind count }
    {
        Partial {
            kind,
            // Kept 0 for the number and the arity until the method is read: an Option would have to be unwrapped where the label ends, which its
            // method always precedes.
            number: 0,
            arity: 0,
            count,
            returned: BLANK,
            slots: [BLANK; 5],
            written: [false; 8],
        }
    }

    // Whether the label writes a register.
    pub(crate) fn writes(self, register: usize) -> bool
        ensures { result ≡ wrote self.written register }
    {
        self.written.get(register) == Some(&true)
    }

    // The label, where it writes a register.
    pub(crate) fn writing(mut self, register: usize) -> Partial
        ensures { result ≡ writing register self }
    {
        // Kept an index: once a `get_mut` of an array is over, a proof knows none of its elements, so the goals `returns-in-Some` and
        // `returns-in_default` stay open.
        if register < 8 {
            self.written[register] = true;
        }
        self
    }
}

impl Statement {
    // A statement that begins, from a state.
    pub(crate) fn sourced(source: usize) -> Statement
        ensures { result ≡ sourced source }
    {
        Statement {
            source,
            // Kept 0 until the target is read: the finished property has statements of this type, and whoever reads one would have to ask an Option of it.
            target: 0,
            events: [Event::Any; 4],
            span: 0,
        }
    }
}

impl Cursor {
    // Before the text.
    pub(crate) fn origin() -> Cursor
        ensures { result ≡ origin }
    {
        Cursor {
            spot: Spot::Head(Head::Margin),
            label: Partial::opened(Kind::Call, 1),
            statement: Statement::sourced(0),
            starts: false,
            errs: false,
        }
    }

    // The next pattern of the label is read: five parameters are kept, and the count stops at seven, which no method has.
    pub(crate) fn filled(mut self, slot: Slot) -> Cursor
        ensures { result ≡ filled slot self }
    {
        if self.label.count == 0 {
            self.label.returned = slot;
            self.spot = Spot::Label(Label::Becomes);
        } else {
            if self.label.count <= 5 {
                self.label.slots[self.label.count - 1] = slot;
            }
            self.spot = Spot::Label(Label::Comma);
        }
        if self.label.count < 7 {
            self.label.count += 1;
        }
        self
    }

    // How many of `start` and `error` have been written.
    pub(crate) fn fixed(self) -> usize
        ensures { result ≡ one_if self.starts + one_if self.errs }
    {
        usize::from(self.starts) + usize::from(self.errs)
    }

    // One more event of the statement is read, of which four are kept.
    pub(crate) fn met(mut self, event: Event) -> Cursor
        ensures { result ≡ met event self }
    {
        if self.statement.span < 4 {
            self.statement.events[self.statement.span] = event;
            self.statement.span += 1;
        }
        self
    }

    // The label ends: its events are met.
    pub(crate) fn finished(mut self) -> Cursor
        ensures { result ≡ finished self }
    {
        let slots = self.label.slots;
        let call = Event::Calls(Call {
            number: self.label.number,
            arity: self.label.arity,
            slots,
        });
        let answer = Event::Returns(Answer {
            number: self.label.number,
            slot: self.label.returned,
        });
        self = match self.label.kind {
            Kind::Call => self.met(call),
            Kind::Return => self.met(answer),
            Kind::Both => self.met(call).met(answer),
        };
        self.spot = Spot::Label(Label::End);
        self
    }
}
