// What a property text writes: methods, registers and statements.
ghost use Rattle.std.specs.Prelude.{◌≡◌};
ghost use Rattle.property.specs.Views.{name_of};

pub use topl::pattern::Pattern;

// A name, by the bytes of the text from one place up to another.
// Kept places: a slice of the text would tie the draft to the text's borrow, and a String would take memory for each name.
#[derive(Clone, Copy)]
pub struct Name {
    pub from: usize,
    pub to: usize,
}

// A declared method.
#[derive(Clone, Copy)]
pub struct Method {
    pub name: Name,
    pub number: u32,
    pub arity: usize,
}

// A register: of a constant, or of a variable, whose first letter is read without its case.
#[derive(Clone, Copy)]
pub enum Register {
    Constant(Name),
    Variable(Name),
}

impl Register {
    // The name of the constant or the variable.
    pub(crate) fn name(self) -> Name
        ensures { result ≡ name_of self }
    {
        match self {
            Register::Constant(name) | Register::Variable(name) => name,
        }
    }
}

// A pattern and the place of its first byte in the text.
#[derive(Clone, Copy)]
pub struct Slot {
    pub pattern: Pattern<usize>,
    pub place: usize,
}

// A call of a method: of its slots as many count as the method has parameters.
#[derive(Clone, Copy)]
pub struct Call {
    pub number: u32,
    pub arity: usize,
    // Kept an array: the type is public and `Copy`, which an ArrayVec is not.
    pub slots: [Slot; 5],
}

// A return of a method.
#[derive(Clone, Copy)]
pub struct Answer {
    pub number: u32,
    pub slot: Slot,
}

// What one event has to meet.
#[derive(Clone, Copy)]
pub enum Event {
    Any,
    Calls(Call),
    Returns(Answer),
}

// A statement: of its events as many count as it spans.
#[derive(Clone, Copy)]
pub struct Statement {
    pub source: usize,
    pub target: usize,
    // Kept an array with its count: the type is public and `Copy`, which an ArrayVec is not.
    pub events: [Event; 4],
    pub span: usize,
}
