ghost use Rattle.std.specs.Prelude.{◌≤◌, length};

use crate::event::Event;
use std::alloc::{AllocError, Global};

#[derive(Clone, Copy)]
enum State {
    Start,
    Bare,
    Quoted,
    AfterQuote,
    // At the LF of a line break.
    Break,
    // Behind a fault.
    Skip,
}

#[derive(Clone, Copy)]
enum Symbol {
    Comma,
    Quote,
    LineBreak,
    Cr,
    Lf,
    End,
    Other,
}

impl Symbol {
    // The symbol at the front of the rest of a text.
    fn first_of(rest: &[u8]) -> Symbol {
        match rest {
            [] => Symbol::End,
            [b',', ..] => Symbol::Comma,
            [b'"', ..] => Symbol::Quote,
            [b'\r', b'\n', ..] => Symbol::LineBreak,
            [b'\r', ..] => Symbol::Cr,
            [b'\n', ..] => Symbol::Lf,
            _ => Symbol::Other,
        }
    }
}

#[derive(Clone, Copy)]
enum Action {
    Go(State),
    EndField,
    EndRecord,
    Fault,
    // A record begins behind this byte.
    Begin,
}

impl Action {
    fn at(state: State, symbol: Symbol) -> Action {
        match (state, symbol) {
            (State::Break, _) => Action::Begin,
            (State::Skip, Symbol::LineBreak) => Action::Go(State::Break),
            (State::Skip, _) => Action::Go(State::Skip),
            (State::Quoted, Symbol::Quote) => Action::Go(State::AfterQuote),
            (State::Quoted, Symbol::End) => Action::Fault,
            (State::Quoted, _) => Action::Go(State::Quoted),
            (_, Symbol::Comma) => Action::EndField,
            (_, Symbol::LineBreak | Symbol::End) => Action::EndRecord,
            (_, Symbol::Cr | Symbol::Lf) => Action::Fault,
            (State::Start | State::AfterQuote, Symbol::Quote) => Action::Go(State::Quoted),
            (_, Symbol::Quote) => Action::Fault,
            (State::AfterQuote, Symbol::Other) => Action::Fault,
            (_, Symbol::Other) => Action::Go(State::Bare),
        }
    }
}

// A reader by the table of states.
#[derive(Drop)]
struct Reader {
    log: Vec<Event>,
    // How much of the log is of whole records.
    whole: usize,
    state: State,
    // Where the record and its field begin.
    record: usize,
    field: usize,
}

impl Reader {
    fn new(heap: Global) -> Reader {
        Reader {
            log: Vec::new(heap),
            whole: 0,
            state: State::Start,
            record: 0,
            field: 0,
        }
    }

    // The field that ends in front of a place.
    fn end_field(&mut self, end: usize) -> Result<(), AllocError> {
        let at = self.field;
        let len = end.saturating_sub(at);
        self.log.push(match self.state {
            State::AfterQuote => Event::Quoted {
                at,
                len: len.saturating_sub(2),
            },
            _ => Event::Bare { at, len },
        })?;
        Ok(())
    }

    // One place of the text, or its end.
    fn step(&mut self, text: &[u8], at: usize) -> Result<(), AllocError>
        requires { at ≤ length text.now }
    {
        match Action::at(self.state, Symbol::first_of(&text[at..])) {
            Action::Go(state) => self.state = state,
            Action::EndField => {
                self.end_field(at)?;
                self.state = State::Start;
                self.field = at + 1;
            }
            Action::EndRecord => {
                self.end_field(at)?;
                self.log.push(Event::Record {
                    start: self.record,
                    next: text.len().min(at + 2),
                })?;
                self.state = State::Break;
            }
            Action::Fault => {
                self.log.truncate(self.whole);
                self.log.push(Event::Fault { at })?;
                self.state = State::Skip;
            }
            Action::Begin => {
                self.state = State::Start;
                self.record = at + 1;
                self.field = at + 1;
                self.whole = self.log.len();
            }
        }
        Ok(())
    }
}

// What a text has, by the table of states, one byte after another.
pub fn read_plainly(heap: Global, text: &[u8]) -> Result<Vec<Event>, AllocError> {
    let mut reader = Reader::new(heap);
    for at in 0..=text.len() {
        if at == text.len() && reader.record == at {
            break;
        }
        reader.step(text, at)?;
    }
    Ok(reader.log)
}
