// One record, from its fields to its answer.
ghost use Rattle.std.specs.Prelude.{◌≡◌, min, [], length, Some, slice_index_or};
ghost use Rattle.forms.specs.Fields.{values};
ghost use Rattle.console.specs.Boxes.{box_of};
ghost use Rattle.console.specs.Recording.{kind_reply, kind_box, record_reply, record_box};

use crate::console::Console;
use forms::Form;
use kinds::kind_of;
use records::{Field, Record};
use refusals::{Answer, Refusal};
use stores::PairSet;

// The value of the first field.
fn record_name<'a>(fields: &[Field<'a>]) -> &'a [u8]
    ensures { result.now ≡ slice_index_or (values fields.now) 0 [] }
{
    match fields {
        [name, ..] => name.value(),
        [] => b"",
    }
}

impl<'a, S: PairSet, T: PairSet> Console<'a, S, T> {
    // A record of a known kind: `whole` tells its place and the number of all its fields. A refusal is an answer here, and
    // is not passed on.
    fn take_kind(&mut self, whole: Record, form: &Form<'_, '_>) -> Option<Answer>
        requires { length form.now.values ≡ min whole.count 40 }
        ensures answer { result ≡ kind_reply (box_of self.old) (Some form.now.kind) whole.start whole.count form.now.values }
        ensures after { box_of self.new ≡ kind_box (box_of self.old) (Some form.now.kind) whole.start whole.count form.now.values }
    {
        match self.sheet.check(whole, form) {
            Ok(()) => self.act(form),
            Err(refusal) => Some(Answer::Refused(refusal)),
        }
    }

    // A record, and its fields as far as they are kept.
    pub(crate) fn take(&mut self, whole: Record, fields: &[Field<'_>]) -> Option<Answer>
        requires { length fields.now ≡ min whole.count 40 }
        ensures answer { result ≡ record_reply (box_of self.old) whole.start whole.count (values fields.now) }
        ensures after { box_of self.new ≡ record_box (box_of self.old) whole.start whole.count (values fields.now) }
    {
        match kind_of(record_name(fields)) {
            Some(kind) => self.take_kind(whole, &Form::new(kind, fields)),
            None => Some(Answer::Refused(Refusal::UnknownRecord { at: whole.start })),
        }
    }
}
