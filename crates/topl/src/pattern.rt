// A pattern of a label, as code holds it.

// What one place of an event has to be: any value; any, which is written to a register; the value of a register; any other than that.
#[derive(Clone, Copy)]
pub enum Pattern<R> {
    Any,
    Write(R),
    Same(R),
    Differs(R),
}
