// A new site, and its openings.
ghost use Rattle.std.specs.Prelude.{◌≡◌};
ghost use Rattle.refusals.specs.Said.{said};
ghost use Rattle.house.specs.Views.{opening};
ghost use Rattle.tables.specs.Drafts.{Empty};
ghost use Rattle.requests.specs.Sites.{site_of, fresh};
ghost use Rattle.requests.specs.Answering.{after_open};

use crate::site::Site;
use conditions::{SensorBoard, WeekClock};
use house::House;
use refusals::Answer;
use stores::PairSet;
use tables::Draft;

impl<S: PairSet, T: PairSet> Site<S, T> {
    // A house that was never opened, a board without reports, a clock at minute 0 without windows.
    pub fn new(role_pairs: S, permissions: T) -> Site<S, T>
        ensures empty { Empty (site_of result).house }
        ensures site { site_of result ≡ fresh (site_of result).house }
    {
        Site {
            house: House::new(role_pairs, permissions),
            board: SensorBoard::new(),
            clock: WeekClock::new(),
        }
    }

    // Opens the house with a draft, unless it is in use or the draft is not lawful. Board and clock stay as they are.
    pub fn open(&mut self, draft: &Draft) -> Answer
        ensures answer { result ≡ said (opening (site_of self.old).state draft.now) }
        ensures after { site_of self.new ≡ after_open (site_of self.old) draft.now }
    {
        self.house.open(draft).into()
    }
}
