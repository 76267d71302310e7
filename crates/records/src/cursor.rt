ghost use Rattle.std.specs.Prelude.{◌≡◌, ◌<◌, ◌≤◌, length, MatchOption};
ghost use Rattle.records.specs.Views.{Admits, Gives, Counted};

use crate::field::Field;
use crate::read::{behind_break, read_record};
use crate::record::{KEPT_FIELDS, Record};
use refusals::Refusal;

// The most bytes that a text may have.
pub const TEXT_LIMIT: usize = 32_768;

// The records of a text, one after another.
#[derive(Drop)]
pub struct Records<'a> {
    text: &'a [u8],
    at: usize,
}

impl<'a> Records<'a> {
    // Refused where the text is too long.
    pub fn new(text: &'a [u8]) -> Result<Records<'a>, Refusal>
        ensures { Admits text.now result }
    {
        if text.len() > TEXT_LIMIT {
            return Err(Refusal::TextTooLong);
        }
        Ok(Records { text, at: 0 })
    }

    // The next record, its first fields in `fields`, or its fault; nothing at the end of the text. That the text stays, and
    // how long the array is, are clauses, here and above: no type tells a clause either.
    pub fn next(&mut self, fields: &mut [Field<'a>; KEPT_FIELDS]) -> Option<Result<Record, Refusal>>
        ensures text { self.new.text ≡ self.old.text }
        ensures room { length fields.new ≡ 40 }
        ensures onward { MatchOption result (self.new.at ≡ self.old.at) (λ _. (self.old.at < self.new.at) × (self.new.at ≤ length self.old.text.now)) }
        ensures gives { Gives self.old.text.now self.old.at self.new.at fields.new result }
    {
        if self.at >= self.text.len() {
            return None;
        }
        match read_record(self.text, self.at, fields) {
            Ok(record) => {
                self.at = record.next;
                Some(Ok(record))
            }
            Err(fault) => {
                self.at = behind_break(self.text, fault.at);
                Some(Err(Refusal::from(fault)))
            }
        }
    }
}

// How many records and faults a text has.
// Counted in a loop: each record goes into the lent fields, which no iterator could hand out again.
pub fn count_lines(text: &[u8]) -> Result<usize, Refusal>
    ensures { Counted text.now result }
{
    let mut fields = [Field::Bare { part: text, at: 0 }; KEPT_FIELDS];
    let mut records = Records::new(text)?;
    let mut count = 0;
    while let Some(_) = records.next(&mut fields) {
        count += 1;
    }
    Ok(count)
}
