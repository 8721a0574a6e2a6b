// Where in a property text a reader stands.

// In the first line; in its keyword with how many letters of it have been read.
#[derive(Clone, Copy)]
pub enum Head {
    Margin,
    Keyword(usize),
    Gap,
    Title,
}

// In a line that is no statement, or at a line's beginning or end; before a method's arity with its number.
#[derive(Clone, Copy)]
pub enum Line {
    Ending,
    Fresh,
    MethodName,
    MethodNumber,
    MethodArity(u32),
}

// Between a statement's source and its first label.
#[derive(Clone, Copy)]
pub enum Route {
    Minus,
    Greater,
    Target,
    Colon,
}

// In a label, but for its patterns.
#[derive(Clone, Copy)]
pub enum Label {
    Begin,
    Star,
    Becomes,
    Equals,
    Callee,
    Open,
    Comma,
    End,
}

// In a pattern: where the returned one begins, where the first parameter or a closing bracket stands, where another begins, and inside of one, after `!` or `<`
// with the place of that mark.
#[derive(Clone, Copy)]
pub enum Inner {
    Returned,
    First,
    Param,
    Negated(usize),
    Quoted(usize),
    Unquote,
}

// Where the reader stands: in the first line, in another line, before a statement's labels, in a label, or in a pattern.
#[derive(Clone, Copy)]
pub enum Spot {
    Head(Head),
    Line(Line),
    Route(Route),
    Label(Label),
    Inner(Inner),
}

// Which events a label stands for: the call, the return, or the call and then the return.
#[derive(Clone, Copy)]
pub enum Kind {
    Call,
    Return,
    Both,
}
