// What a record does that no reason from 6 to 10 refuses.
ghost use Rattle.std.specs.Prelude.{◌≡◌};
ghost use Rattle.drafting.specs.Fit.{Fit};
ghost use Rattle.house.specs.Views.{opening};
ghost use Rattle.kinds.specs.declared.kind.Kind.TheVariants.{Ask};
ghost use Rattle.refusals.specs.Said.{said};
ghost use Rattle.console.specs.Boxes.{box_of};
ghost use Rattle.console.specs.Recording.{numbered, opening_box, request_answer, request_box, done_reply, done_box};
ghost use Rattle.console.specs.Requests.{asked_of};

use crate::asking::asked;
use crate::console::Console;
use drafting::apply;
use forms::Form;
use kinds::{Kind, Request};
use refusals::Answer;
use stores::PairSet;

impl<'a, S: PairSet, T: PairSet> Console<'a, S, T> {
    // Opens the house with the draft under a number, which the draft keeps where that is accepted.
    fn open(&mut self, number: u32) -> Answer
        ensures answer { result ≡ said (opening (box_of self.old).site.state (numbered (box_of self.old).draft number)) }
        ensures after { box_of self.new ≡ opening_box (box_of self.old) (numbered (box_of self.old).draft number) }
    {
        let mut draft = self.sheet.draft;
        draft.number = number;
        let answer = self.site.open(&draft);
        if let Answer::Accepted = answer {
            self.sheet.draft = draft;
        }
        answer
    }

    // A request: an opening, or something that is asked of the site.
    fn request(&mut self, request: Request, form: &Form<'_, '_>) -> Answer
        requires { form.now.kind ≡ Ask request }
        ensures answer { result ≡ request_answer (box_of self.old) form.now.values (asked_of (box_of self.old).names (box_of self.old).draft request form.now.values) }
        ensures after { box_of self.new ≡ request_box (box_of self.old) form.now.values (asked_of (box_of self.old).names (box_of self.old).draft request form.now.values) }
    {
        match asked(&self.sheet, request, form) {
            Some(asked) => self.site.ask(asked),
            None => {
                let number = self.sheet.number(form, 0);
                self.open(number)
            }
        }
    }

    // A table record changes the sheet and answers nothing; a request is answered.
    pub(crate) fn act(&mut self, form: &Form<'_, '_>) -> Option<Answer>
        requires { Fit (box_of self.old).names (box_of self.old).draft form.now.kind form.now.values }
        ensures answer { result ≡ done_reply (box_of self.old) form.now.kind form.now.values }
        ensures after { box_of self.new ≡ done_box (box_of self.old) form.now.kind form.now.values }
    {
        match form.kind() {
            Kind::Ask(request) => Some(self.request(request, form)),
            _ => {
                apply(&mut self.sheet, form);
                None
            }
        }
    }
}
