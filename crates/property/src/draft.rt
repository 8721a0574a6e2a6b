// A property as far as its text has been read, and searches in it.
ghost use Rattle.std.specs.Prelude.{◌≡◌, ℕ, List, ◌==◌, length, nat_eq, nat_lt, position, find};
ghost use Rattle.std.specs.List.{list_any, position_or_len};
ghost use Rattle.property.specs.Views.{key_of};
ghost use Rattle.property.specs.States as state;
ghost use Rattle.property.specs.States.{same_key};
ghost use Rattle.property.specs.Views.{spelled as spelling};
ghost use Rattle.property.specs.Views.{sofar, seen};
ghost use Rattle.property.specs.Words as word;

use crate::cursor::*;
use crate::table::*;
use crate::words::*;
use topl::states::{ERROR, START};

// The cursor, a name that waits for its use, and the property so far.
// Kept without the text that it is read from: in a struct of both, each function that changes the draft would also have to say that the text stays as it is.
#[derive(Drop)]
pub struct Draft {
    pub cursor: Cursor,
    // Kept a name, which stays after its method is declared: an Option would have to be unwrapped where the method is declared, which its name
    // always precedes. A name in the spot means nothing to the grammar in specs/, which uses the same `Spot` and has no text to look it up in.
    pub word: Name,
    // Kept a name, empty until it is read: an Option would be asked by whoever reads a finished draft, which always has its name.
    pub name: Name,
    pub methods: Vec<Method>,
    pub others: Vec<Name>,
    pub registers: Vec<Register>,
    pub statements: Vec<Statement>,
}

impl Draft {
    // Whether a method has the number.
    pub(crate) fn numbered(&self, number: u32) -> bool
        ensures { (t : List ℕ) → result ≡ list_any (λ m. nat_eq number m.number) (sofar t self.now).methods }
    {
        self.methods.iter().any(|m| number == m.number)
    }
}

// A draft with the text that it reads, for the searches and the faults.
// Kept written out wherever one is made: what a function returns a proof knows by equations alone, which do not reach into the tests of the searches, and the
// goal `returns` of `Draft::visit` stays open.
#[derive(Clone, Copy)]
pub(crate) struct Reading<'a> {
    pub(crate) text: &'a [u8],
    pub(crate) draft: &'a Draft,
}

impl Reading<'_> {
    // The place of a state among those besides `start` and `error`.
    fn other(&self, w: &[u8]) -> Option<usize>
        ensures { result ≡ position (λ n. word.same w.now (spelling self.now.text.now n)) self.now.draft.now.others.items }
    {
        self.draft
            .others
            .iter()
            .position(|n| w == spelled(self.text, *n))
    }

    // The method of a name.
    pub(crate) fn method(&self, w: &[u8]) -> Option<Method>
        ensures { result ≡ find (λ m. word.same w.now (spelling self.now.text.now m.name)) self.now.draft.now.methods.items }
    {
        self.draft
            .methods
            .iter()
            .find(|m| w == spelled(self.text, m.name))
            .copied()
    }

    // The place of the register of a constant or a variable.
    pub(crate) fn register(&self, register: Register) -> Option<usize>
        ensures { result ≡ position (λ g. same_key (key_of self.now.text.now register) (key_of self.now.text.now g)) self.now.draft.now.registers.items }
    {
        self.draft
            .registers
            .iter()
            .position(|g| register.same(*g, self.text))
    }

    // Whether a state is not among those besides `start` and `error`.
    fn lacks(&self, w: &[u8]) -> bool
        ensures { let ws = (seen self.now).sofar.others in result ≡ (position_or_len (word.same w.now) ws == length ws) }
    {
        self.other(w).is_none()
    }

    // Whether a state is neither `start` nor `error` and was not written yet.
    pub(crate) fn fresh_other(&self, w: &[u8]) -> bool
        ensures { result ≡ state.fresh_other (seen self.now).sofar.others w.now }
    {
        !is_start(w) && !is_error(w) && self.lacks(w)
    }

    // The number of a state, which is the next one where it was not written yet, and 16 for all past the fifteenth.
    // Kept 16 for those past it: the text has a fault there, and an Option would have to go on into each statement's source and target.
    pub(crate) fn state_number(&self, w: &[u8]) -> usize
        ensures { result ≡ state.state_number (seen self.now).sofar.others w.now }
    {
        if is_start(w) {
            return usize::from(START);
        }
        if is_error(w) {
            return usize::from(ERROR);
        }
        2 + self.other(w).unwrap_or(self.draft.others.len()).min(14)
    }

    // Whether a method of the name is declared.
    pub(crate) fn knows(&self, w: &[u8]) -> bool
        ensures { result ≡ nat_lt (state.method_place (seen self.now).sofar w.now) (length (seen self.now).sofar.methods) }
    {
        self.method(w).is_some()
    }

    // The number of the register of a constant or a variable, which is the next one where it has none.
    pub(crate) fn register_number(&self, register: Register) -> usize
        ensures { result ≡ state.register_of (seen self.now).sofar (key_of self.now.text.now register) }
    {
        self.register(register)
            .unwrap_or(self.draft.registers.len())
    }

    // Whether a constant or a variable needs a ninth register.
    pub(crate) fn ninth(&self, register: Register) -> bool
        ensures { result ≡ state.ninth (seen self.now).sofar (key_of self.now.text.now register) }
    {
        self.draft.registers.len() >= 8 && self.register(register).is_none()
    }

    // Whether a line declares a method.
    pub(crate) fn declares(&self, w: &[u8]) -> bool
        ensures { result ≡ state.declares (seen self.now) w.now }
    {
        w == b"method".as_slice() && self.draft.statements.is_empty()
    }
}
