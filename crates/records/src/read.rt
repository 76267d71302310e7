// One record of a text, and where reading goes on behind a fault.
ghost use Rattle.std.specs.Prelude.{◌≡◌, ◌≤◌, [], ◌∷◌, length, drop, Decides};
ghost use Rattle.records.specs.Grammar.{after_break};
ghost use Rattle.records.specs.Views.{ReadFrom};

use crate::fault::Fault;
use crate::field::Field;
use crate::record::{KEPT_FIELDS, Record};
use crate::scan::{Stop, front_field};

fn is_break(pair: &[u8]) -> bool
    ensures { Decides result (pair.now ≡ 13 ∷ 10 ∷ []) }
{
    matches!(pair, b"\r\n")
}

// The place behind the first line break at or behind `from`, or the end of the text.
pub fn behind_break(text: &[u8], from: usize) -> usize
    requires { from ≤ length text.now }
    ensures within { result ≤ length text.now }
    ensures behind { drop result text.now ≡ after_break (drop from text.now) }
{
    match text[from..].windows(2).position(is_break) {
        Some(n) => from + n + 2,
        None => text.len(),
    }
}

// The record that begins at `from`, its first fields in `fields`, or the byte at fault.
// The count and the place go on behind the fields that are kept, and are told in the record.
pub fn read_record<'a>(
    text: &'a [u8],
    from: usize,
    fields: &mut [Field<'a>; KEPT_FIELDS],
) -> Result<Record, Fault>
    requires { from ≤ length text.now }
    ensures room { length fields.new ≡ 40 }
    ensures reads { ReadFrom text.now from fields.new result }
{
    let mut count = 0;
    let mut at = from;
    loop {
        let cut = front_field(&text[at..], at).map_err(|fault| Fault { at: at + fault.at })?;
        if count < KEPT_FIELDS {
            fields[count] = cut.field;
        }
        count += 1;
        at += cut.len;
        match cut.stop {
            Stop::Comma => {}
            Stop::Break | Stop::End => {
                return Ok(Record {
                    count,
                    start: from,
                    next: at,
                });
            }
        }
    }
}
