// The field at the front of what is left of a text, byte by byte.
ghost use Rattle.std.specs.Prelude.{◌≡◌, ◌+◌, ◌^◌, ◌<◌, []};
ghost use Rattle.records.specs.Cuts.{stop_len, cut_of, CutOf};
ghost use Rattle.records.specs.Steps.{step_of, Read, Ran};

use crate::fault::Fault;
use crate::field::Field;

#[derive(Clone, Copy)]
enum State {
    Bare,
    Quoted,
    AfterQuote,
}

// What a byte makes of a field: it goes on, or it ends, or the byte is at fault; a CR depends on what follows it.
#[derive(Clone, Copy)]
enum Step {
    On(State),
    Comma,
    Cr,
    Fault,
}

// What ends a field: a comma, a line break or the end of the text.
#[derive(Clone, Copy)]
pub enum Stop {
    Comma,
    Break,
    End,
}

impl Stop {
    // How many bytes it has.
    fn len(self) -> usize
        ensures { result ≡ stop_len self }
    {
        match self {
            Stop::Comma => 1,
            Stop::Break => 2,
            Stop::End => 0,
        }
    }
}

// The place where the reading of a field halted, in which state, and what ends the field there; none where the byte
// there is at fault.
#[derive(Clone, Copy)]
struct Run {
    at: usize,
    state: State,
    stop: Option<Stop>,
}

// A field, what ends it, and how many bytes the two take.
#[derive(Clone, Copy)]
pub struct Cut<'a> {
    pub field: Field<'a>,
    pub stop: Stop,
    pub len: usize,
}

fn take_step(state: State, b: u8) -> Step
    ensures { result ≡ step_of state b }
{
    match state {
        State::Bare => match char::from(b) {
            ',' => Step::Comma,
            '"' => Step::Fault,
            '\r' => Step::Cr,
            '\n' => Step::Fault,
            _ => Step::On(State::Bare),
        },
        State::Quoted => match char::from(b) {
            '"' => Step::On(State::AfterQuote),
            _ => Step::On(State::Quoted),
        },
        State::AfterQuote => match char::from(b) {
            ',' => Step::Comma,
            '"' => Step::On(State::Quoted),
            '\r' => Step::Cr,
            _ => Step::Fault,
        },
    }
}

// Reads on until the field ends or is at fault.
fn read_on(bytes: &[u8], start: State) -> Run
    requires { Read start [] }
    ensures { Ran start bytes.now result }
{
    let mut state = start;
    for (at, &b) in bytes.iter().enumerate() {
        let stop = match take_step(state, b) {
            Step::On(next) => {
                state = next;
                continue;
            }
            Step::Comma => Some(Stop::Comma),
            Step::Cr if bytes.get(at + 1) == Some(&b'\n') => Some(Stop::Break),
            Step::Cr | Step::Fault => None,
        };
        return Run { at, state, stop };
    }
    Run {
        at: bytes.len(),
        state,
        stop: Some(Stop::End),
    }
}

// The field of `len` bytes with what ends it, or the byte at fault where nothing does.
fn end_field<'a>(field: Field<'a>, stop: Option<Stop>, len: usize) -> Result<Cut<'a>, Fault>
    requires { len + 2 < 2 ^ 64 }
    ensures { result ≡ cut_of field.entry stop len }
{
    match stop {
        Some(stop) => Ok(Cut {
            field,
            stop,
            len: len + stop.len(),
        }),
        None => Err(Fault { at: len }),
    }
}

// The field at the front of `rest`, which is what is left of a text at the place `at`.
pub fn front_field<'a>(rest: &'a [u8], at: usize) -> Result<Cut<'a>, Fault>
    ensures { CutOf at rest.now result }
{
    match rest {
        [b'"', inner @ ..] => {
            let ran = read_on(inner, State::Quoted);
            match ran.state {
                State::AfterQuote => {
                    let part = &inner[..ran.at - 1];
                    end_field(Field::Quoted { part, at }, ran.stop, ran.at + 1)
                }
                State::Bare | State::Quoted => Err(Fault { at: rest.len() }),
            }
        }
        _ => {
            let ran = read_on(rest, State::Bare);
            let part = &rest[..ran.at];
            end_field(Field::Bare { part, at }, ran.stop, ran.at)
        }
    }
}
