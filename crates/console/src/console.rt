use requests::Site;
use sheets::Sheet;
use stores::PairSet;

// The declared names with the draft, and what runs.
#[derive(Drop)]
pub struct Console<'a, S: PairSet, T: PairSet> {
    pub sheet: Sheet<'a>,
    pub site: Site<S, T>,
}
