// Lines of a text, and whole texts.
ghost use Rattle.std.specs.Prelude.{◌≡◌, ◌<◌, ◌≤◌, ◌++◌, length, drop, MatchResult, Ok};
ghost use Rattle.console.specs.Boxes.{box_of};
ghost use Rattle.console.specs.Reading.{Stepped, Onward, WasRead, WasUnread};
ghost use Rattle.console.specs.Given.{given_reply, given_box};
ghost use Rattle.console.specs.Texts.{reply_bytes};

use crate::console::Console;
use crate::reply::{Reply, Unread};
use records::{Field, KEPT_FIELDS, Record, Records};
use refusals::{Answer, Refusal};
use std::alloc::Global;
use stores::PairSet;
use values::{LINE_LENGTH, write_answer};

// No answer has a longer line.
const LONGEST_ANSWER: usize = 12;

// Writes the line of a reply, if it has one, at the front of the line provided; answers how many bytes it has.
fn write_reply(line: &mut [u8], answer: Option<Answer>) -> usize
    requires { 16 ≤ length line.old }
    ensures len { result ≡ length (reply_bytes answer) }
    ensures bound { result ≤ 12 }
    ensures bytes { line.new ≡ reply_bytes answer ++ drop (length (reply_bytes answer)) line.old }
{
    match answer {
        // The line is long enough.
        Some(answer) => write_answer(line, answer).unwrap(),
        None => 0,
    }
}

impl<'a, S: PairSet, T: PairSet> Console<'a, S, T> {
    // A record that was read, its first fields among these, or its fault. The array's type does not tell a clause its length.
    fn answer_line(
        &mut self,
        next: Result<Record, Refusal>,
        fields: &[Field<'_>; KEPT_FIELDS],
    ) -> Option<Answer>
        requires { length fields.now ≡ 40 }
        ensures answer { result ≡ given_reply (box_of self.old) fields.now next }
        ensures after { box_of self.new ≡ given_box (box_of self.old) fields.now next }
    {
        match next {
            Ok(record) => self.take(record, &fields[0..record.kept()]),
            Err(refusal) => Some(Answer::Refused(refusal)),
        }
    }

    // The next line of a text: a record is done and answered, one with a fault is refused; nothing at the end.
    fn reply(&mut self, records: &mut Records<'_>, line: &mut [u8]) -> Option<Reply>
        requires { 16 ≤ length line.old }
        ensures text { records.new.text ≡ records.old.text }
        ensures onward { Onward (length line.old) (length records.old.text.now) records.old.at records.new.at (Ok result) }
        ensures step { Stepped records.old.text.now records.old.at records.new.at (box_of self.old) (box_of self.new) line.old line.new (Ok result) }
    {
        let mut fields = [Field::Bare { part: b"", at: 0 }; KEPT_FIELDS];
        let next = records.next(&mut fields)?;
        let answer = self.answer_line(next, &fields);
        let written = write_reply(line, answer);
        Some(Reply { answer, written })
    }

    // The same over a line of any length, which is refused where it has fewer than 16 bytes.
    pub fn record(
        &mut self,
        records: &mut Records<'_>,
        line: &mut [u8],
    ) -> Result<Option<Reply>, Refusal>
        ensures text { records.new.text ≡ records.old.text }
        ensures onward { Onward (length line.old) (length records.old.text.now) records.old.at records.new.at result }
        ensures step { Stepped records.old.text.now records.old.at records.new.at (box_of self.old) (box_of self.new) line.old line.new result }
    {
        if line.len() < LINE_LENGTH {
            return Err(Refusal::LineTooShort);
        }
        Ok(self.reply(records, line))
    }

    // A whole text: every line is answered, one after another. What it writes fits in memory that is reserved beforehand;
    // where there is none, and where the text is too long, nothing is done.
    pub fn read_text(&mut self, heap: Global, text: &[u8]) -> Result<Vec<u8>, Unread>
        ensures { MatchResult result (λ v. WasRead text.now (box_of self.old) (box_of self.new) v.items) (λ u. WasUnread text.now u × (box_of self.new ≡ box_of self.old)) }
    {
        // A text is refused for its length alone.
        let Ok(mut records) = Records::new(text) else {
            return Err(Unread::TooLong);
        };
        let mut answers = Vec::with_capacity(heap, LONGEST_ANSWER * text.len())?;
        let mut line = [0u8; LINE_LENGTH];
        // The line is long enough.
        while let Some(reply) = self.record(&mut records, &mut line).unwrap() {
            // There is memory for all answers.
            answers.extend_from_slice(&line[0..reply.written]).unwrap();
        }
        Ok(answers)
    }
}
