// What each piece of a text adds to a draft.
ghost use Rattle.std.specs.Prelude.{◌≡◌, ℕ, List, [], if◌then◌else◌, OnOk, IfOk, nat_eq};
ghost use Rattle.property.specs.Moves.{visit, hold, declare, number_of, arity_of};
ghost use Rattle.forms.specs.Bytes.{capital};
ghost use Rattle.property.specs.Cursors as cursor;
ghost use Rattle.property.specs.States as state;
ghost use Rattle.property.specs.Words.{first_byte};
ghost use Rattle.property.specs.Views.{view, sofar, spelled as spelling, key_of};

use crate::cursor::*;
use crate::draft::*;
use crate::reader::*;
use crate::spot::*;
use crate::table::*;
use crate::words::*;
use std::alloc::AllocError;

impl Cursor {
    // The cursor, where a state is written.
    fn visiting(mut self, w: &[u8]) -> Cursor
        ensures { result ≡ state.visiting w.now self }
    {
        self.starts = self.starts || is_start(w);
        self.errs = self.errs || is_error(w);
        self
    }
}

impl Draft {
    // A state is one of those that have been written: its number.
    fn visit(&mut self, text: &[u8], name: Name) -> Result<usize, AllocError>
        ensures { IfOk result (λ n. (n ≡ state.state_number (sofar text.now self.old).others (spelling text.now name)) × (view text.now self.new ≡ visit (spelling text.now name) (view text.now self.old))) }
    {
        let w = spelled(text, name);
        let reading = Reading {
            text,
            draft: &*self,
        };
        let number = reading.state_number(w);
        if reading.fresh_other(w) {
            self.others.push(name)?;
        }
        self.cursor = self.cursor.visiting(w);
        Ok(number)
    }

    // A constant or a variable has a register: its number.
    fn hold(&mut self, text: &[u8], register: Register) -> Result<usize, AllocError>
        ensures { IfOk result (λ n. (n ≡ state.register_of (sofar text.now self.old) (key_of text.now register)) × (view text.now self.new ≡ hold (key_of text.now register) (view text.now self.old))) }
    {
        let reading = Reading {
            text,
            draft: &*self,
        };
        if let Some(number) = reading.register(register) {
            return Ok(number);
        }
        let number = self.registers.len();
        self.registers.push(register)?;
        Ok(number)
    }

    // The method of a line is declared.
    fn add_method(&mut self, number: u32, arity: usize) -> Result<(), AllocError>
        ensures { OnOk result ((t : List ℕ) → view t self.new ≡ declare number arity (view t self.old)) }
    {
        let method = Method {
            name: self.word,
            number,
            arity,
        };
        self.methods.push(method)?;
        Ok(())
    }

    // The statement that was being read ends.
    fn add_statement(&mut self) -> Result<(), AllocError>
        ensures { OnOk result ((t : List ℕ) → view t self.new ≡ state.ends_statement (view t self.old)) }
    {
        let statement = self.cursor.statement;
        self.statements.push(statement)?;
        self.cursor.spot = Spot::Line(Line::Fresh);
        Ok(())
    }
}

// Where a letter of the keyword leads, with so many read before it.
fn after_letter(read: usize) -> Head
    ensures { result ≡ state.after_letter read }
{
    match read {
        0..7 => Head::Keyword(read + 1),
        _ => Head::Gap,
    }
}

impl Draft {
    // A piece of the first line is read.
    fn head(&mut self, head: Head, found: Found)
        ensures { (t : List ℕ) → view t self.new ≡ state.head_moved head (view t self.old) (spelling t found.name) found.byte }
    {
        match head {
            Head::Margin if found.byte == b' ' => {}
            Head::Margin => self.cursor.spot = Spot::Head(Head::Keyword(1)),
            Head::Keyword(read) => self.cursor.spot = Spot::Head(after_letter(read)),
            Head::Gap => self.cursor.spot = Spot::Head(Head::Title),
            Head::Title => {
                self.name = found.name;
                self.cursor.spot = Spot::Line(Line::Ending);
            }
        }
    }

    // A statement begins with its source.
    fn leaving(&mut self, text: &[u8], name: Name) -> Result<(), AllocError>
        ensures { OnOk result (view text.now self.new ≡ state.leaving (spelling text.now name) (view text.now self.old)) }
    {
        let source = self.visit(text, name)?;
        self.cursor.statement = Statement::sourced(source);
        self.cursor.spot = Spot::Route(Route::Minus);
        Ok(())
    }

    // A statement has its target.
    fn reaching(&mut self, text: &[u8], name: Name) -> Result<(), AllocError>
        ensures { OnOk result (view text.now self.new ≡ state.reaching (spelling text.now name) (view text.now self.old)) }
    {
        self.cursor.statement.target = self.visit(text, name)?;
        self.cursor.spot = Spot::Route(Route::Colon);
        Ok(())
    }

    // The first word of a line is read.
    fn fresh(&mut self, text: &[u8], name: Name) -> Result<(), AllocError>
        ensures { OnOk result (view text.now self.new ≡ state.line_moved Line.Fresh (view text.now self.old) (spelling text.now name)) }
    {
        let reading = Reading {
            text,
            draft: &*self,
        };
        if reading.declares(spelled(text, name)) {
            self.cursor.spot = Spot::Line(Line::MethodName);
            return Ok(());
        }
        self.leaving(text, name)
    }

    // A piece at a line's beginning or end, or of a line that is no statement, is read.
    fn line(&mut self, line: Line, text: &[u8], name: Name) -> Result<(), AllocError>
        ensures { OnOk result (view text.now self.new ≡ state.line_moved line (view text.now self.old) (spelling text.now name)) }
    {
        self.cursor.spot = match line {
            Line::Ending => Spot::Line(Line::Fresh),
            Line::Fresh => return self.fresh(text, name),
            Line::MethodName => {
                self.word = name;
                Spot::Line(Line::MethodNumber)
            }
            Line::MethodNumber => Spot::Line(Line::MethodArity(capped(spelled(text, name)))),
            Line::MethodArity(number) => {
                let arity = decimal(spelled(text, name)).map_or(LARGE_ARITY, usize::from);
                self.add_method(number, arity)?;
                Spot::Line(Line::Ending)
            }
        };
        Ok(())
    }

    // A piece between a statement's source and its first label is read.
    fn route(&mut self, route: Route, text: &[u8], name: Name) -> Result<(), AllocError>
        ensures { OnOk result (view text.now self.new ≡ state.route_moved route (view text.now self.old) (spelling text.now name)) }
    {
        self.cursor.spot = match route {
            Route::Minus => Spot::Route(Route::Greater),
            Route::Greater => Spot::Route(Route::Target),
            Route::Target => return self.reaching(text, name),
            Route::Colon => Spot::Label(Label::Begin),
        };
        Ok(())
    }

    // A variable is read: it is written where its first letter is a capital one.
    fn variable(&mut self, text: &[u8], name: Name) -> Result<(), AllocError>
        ensures { OnOk result (view text.now self.new ≡ state.variable (spelling text.now name) name.from (view text.now self.old)) }
    {
        let register = self.hold(text, Register::Variable(name))?;
        let mut pattern = Pattern::Same(register);
        if begins_capital(spelled(text, name)) {
            self.cursor.label = self.cursor.label.writing(register);
            pattern = Pattern::Write(register);
        }
        self.cursor = self.cursor.filled(Slot {
            pattern,
            place: name.from,
        });
        Ok(())
    }

    // A pattern begins.
    fn pattern(&mut self, text: &[u8], found: Found) -> Result<(), AllocError>
        ensures { OnOk result (view text.now self.new ≡ state.begins (spelling text.now found.name) found.byte found.name.from (view text.now self.old)) }
    {
        let place = found.name.from;
        match found.byte {
            b'*' => {
                let pattern = Pattern::Any;
                self.cursor = self.cursor.filled(Slot { pattern, place });
            }
            b'!' => self.cursor.spot = Spot::Inner(Inner::Negated(place)),
            b'<' => self.cursor.spot = Spot::Inner(Inner::Quoted(place)),
            _ => return self.variable(text, found.name),
        }
        Ok(())
    }

    // A variable is read that the value has to differ from, in a pattern that began at a place.
    fn negated(&mut self, text: &[u8], name: Name, place: usize) -> Result<(), AllocError>
        ensures { OnOk result (view text.now self.new ≡ state.inner_moved (Inner.Negated place) (view text.now self.old) (spelling text.now name) 0 0) }
    {
        let pattern = Pattern::Differs(self.hold(text, Register::Variable(name))?);
        self.cursor = self.cursor.filled(Slot { pattern, place });
        Ok(())
    }

    // A constant is read, in a pattern that began at a place.
    fn quoted(&mut self, text: &[u8], name: Name, place: usize) -> Result<(), AllocError>
        ensures { OnOk result (view text.now self.new ≡ state.inner_moved (Inner.Quoted place) (view text.now self.old) (spelling text.now name) 0 0) }
    {
        let pattern = Pattern::Same(self.hold(text, Register::Constant(name))?);
        self.cursor = self.cursor.filled(Slot { pattern, place });
        self.cursor.spot = Spot::Inner(Inner::Unquote);
        Ok(())
    }
}

// Whether a word begins with a capital letter.
fn begins_capital(w: &[u8]) -> bool
    ensures { result ≡ capital (first_byte w.now) }
{
    w.first().is_some_and(|b| b.is_ascii_uppercase())
}

impl Cursor {
    // The cursor, where a label begins, of a kind, with so many patterns, and goes on at a spot.
    fn labelled(mut self, kind: Kind, count: usize, spot: Spot) -> Cursor
        ensures { result ≡ cursor.to spot (cursor.labelled (cursor.opened kind count) self) }
    {
        self.label = Partial::opened(kind, count);
        self.spot = spot;
        self
    }

    // The cursor, where the method of the label is read; 0 stands for the number and the arity where none is declared.
    fn called(mut self, method: Option<Method>) -> Cursor
        ensures { result ≡ state.callee_at self.label.kind (cursor.labelled (cursor.naming (number_of method) (arity_of method) self.label) self) }
    {
        // Kept 0 where none is declared: the text has a fault there, and an Option would have to go on into the label, the call and the return.
        self.label.number = method.map_or(0, |m| m.number);
        self.label.arity = method.map_or(0, |m| m.arity);
        match self.label.kind {
            Kind::Return => self.finished(),
            _ => {
                self.spot = Spot::Label(Label::Open);
                self
            }
        }
    }

    // The cursor after a comma or a closing bracket.
    fn closing(mut self, byte: u8) -> Cursor
        ensures { result ≡ (if nat_eq byte 44 then cursor.to (Spot.Inner Inner.Param) self else cursor.finished self) }
    {
        if byte == b',' {
            self.spot = Spot::Inner(Inner::Param);
            return self;
        }
        self.finished()
    }

    // The spot after the `>` of a constant.
    fn unquoted(self) -> Spot
        ensures { result ≡ Spot.Label (if nat_eq self.label.count 1 then Label.Becomes else Label.Comma) }
    {
        match self.label.count {
            1 => Spot::Label(Label::Becomes),
            _ => Spot::Label(Label::Comma),
        }
    }
}

impl Draft {
    // A label that stands for the call and the return begins.
    fn whole(&mut self, text: &[u8], found: Found) -> Result<(), AllocError>
        ensures { OnOk result (view text.now self.new ≡ state.whole_begins (spelling text.now found.name) found.byte found.name.from (view text.now self.old)) }
    {
        self.cursor.label = Partial::opened(Kind::Both, 0);
        self.pattern(text, found)
    }

    // A label begins.
    fn begin(&mut self, text: &[u8], found: Found) -> Result<(), AllocError>
        ensures { OnOk result (view text.now self.new ≡ state.label_moved Label.Begin (view text.now self.old) (spelling text.now found.name) found.byte found.name.from) }
    {
        let w = spelled(text, found.name);
        if found.byte == b'*' {
            self.cursor.spot = Spot::Label(Label::Star);
        } else if w == b"call".as_slice() {
            let spot = Spot::Label(Label::Callee);
            self.cursor = self.cursor.labelled(Kind::Call, 1, spot);
        } else if w == b"ret".as_slice() {
            let spot = Spot::Inner(Inner::Returned);
            self.cursor = self.cursor.labelled(Kind::Return, 0, spot);
        } else {
            return self.whole(text, found);
        }
        Ok(())
    }

    // A mark after a label `*`.
    fn star(&mut self, found: Found) -> Result<(), AllocError>
        ensures { OnOk result ((t : List ℕ) → view t self.new ≡ state.label_moved Label.Star (view t self.old) (spelling t found.name) found.byte found.name.from) }
    {
        if found.byte == b':' {
            let spot = Spot::Label(Label::Equals);
            self.cursor = self.cursor.labelled(Kind::Both, 1, spot);
            return Ok(());
        }
        self.cursor = self.cursor.met(Event::Any);
        self.end(found.byte)
    }

    // The method of a label is read.
    fn callee(&mut self, text: &[u8], name: Name)
        ensures { view text.now self.new ≡ state.calling (spelling text.now name) (view text.now self.old) }
    {
        let reading = Reading {
            text,
            draft: &*self,
        };
        let method = reading.method(spelled(text, name));
        self.cursor = self.cursor.called(method);
    }

    // A mark after a label.
    fn end(&mut self, byte: u8) -> Result<(), AllocError>
        ensures { OnOk result ((t : List ℕ) → view t self.new ≡ state.label_moved Label.End (view t self.old) [] byte 0) }
    {
        if byte == b';' {
            self.cursor.spot = Spot::Label(Label::Begin);
            return Ok(());
        }
        self.add_statement()
    }

    // A comma or a closing bracket is read.
    // Kept apart from `label`, as `bare` is from `inner`: with the cursor set in an arm there, each of its pieces cleared the room of a whole cursor first.
    fn comma(&mut self, byte: u8)
        ensures { (t : List ℕ) → view t self.new ≡ state.label_moved Label.Comma (view t self.old) [] byte 0 }
    {
        self.cursor = self.cursor.closing(byte);
    }

    // A piece of a label is read.
    fn label(&mut self, label: Label, text: &[u8], found: Found) -> Result<(), AllocError>
        ensures { OnOk result (view text.now self.new ≡ state.label_moved label (view text.now self.old) (spelling text.now found.name) found.byte found.name.from) }
    {
        match label {
            Label::Begin => return self.begin(text, found),
            Label::Star => return self.star(found),
            Label::Becomes => self.cursor.spot = Spot::Label(Label::Equals),
            Label::Equals => self.cursor.spot = Spot::Label(Label::Callee),
            Label::Callee => self.callee(text, found.name),
            Label::Open => self.cursor.spot = Spot::Inner(Inner::First),
            Label::Comma => self.comma(found.byte),
            Label::End => return self.end(found.byte),
        }
        Ok(())
    }

    // A closing bracket with no parameter before it is read. Kept apart from `inner`, as `comma` is from `label`.
    fn bare(&mut self)
        ensures { (t : List ℕ) → view t self.new ≡ state.at (cursor.finished self.old.cursor) (view t self.old) }
    {
        self.cursor = self.cursor.finished();
    }

    // A piece of a pattern is read.
    fn inner(&mut self, inner: Inner, text: &[u8], found: Found) -> Result<(), AllocError>
        ensures { OnOk result (view text.now self.new ≡ state.inner_moved inner (view text.now self.old) (spelling text.now found.name) found.byte found.name.from) }
    {
        match inner {
            Inner::First if found.byte == b')' => self.bare(),
            Inner::Returned | Inner::First | Inner::Param => return self.pattern(text, found),
            Inner::Negated(place) => return self.negated(text, found.name, place),
            Inner::Quoted(place) => return self.quoted(text, found.name, place),
            Inner::Unquote => self.cursor.spot = self.cursor.unquoted(),
        }
        Ok(())
    }

    // A piece is read.
    pub(crate) fn advance(&mut self, text: &[u8], found: Found) -> Result<(), AllocError>
        ensures { OnOk result (view text.now self.new ≡ state.moved (view text.now self.old) (spelling text.now found.name) found.byte found.name.from) }
    {
        match self.cursor.spot {
            Spot::Head(head) => {
                self.head(head, found);
                Ok(())
            }
            Spot::Line(line) => self.line(line, text, found.name),
            Spot::Route(route) => self.route(route, text, found.name),
            Spot::Label(label) => self.label(label, text, found),
            Spot::Inner(inner) => self.inner(inner, text, found),
        }
    }

    // The text ends: so does a statement that was being read.
    pub(crate) fn close(&mut self) -> Result<(), AllocError>
        ensures { OnOk result ((t : List ℕ) → sofar t self.new ≡ state.closing (view t self.old)) }
    {
        match self.cursor.spot {
            Spot::Label(Label::Star) => {
                self.cursor = self.cursor.met(Event::Any);
                self.add_statement()
            }
            Spot::Label(Label::End) => self.add_statement(),
            _ => Ok(()),
        }
    }
}
