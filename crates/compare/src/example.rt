// The two assignment relations of the example house, and steps to play on them: accepted changes, refused ones, repeats,
// and pairs out of bounds.

use crate::step::Step;
use stores::Pair;

// Pairs at the opening, and the steps to play on them.
pub struct Example {
    pub title: &'static str,
    pub opening: &'static [Pair],
    pub steps: &'static [Step],
}

// Role pairs 0 (kid at leisure), 1 (parent) and 2 (kid); device roles 0 (fun) and 1 (kitchen).
pub const ROLE_PAIRS: Example = Example {
    title: "Role pairs assigned to device roles",
    opening: &[Pair { left: 1, right: 1 }],
    steps: &[
        Step::Contains(Pair { left: 1, right: 1 }),
        Step::Contains(Pair { left: 0, right: 0 }),
        Step::Insert(Pair { left: 0, right: 0 }),
        Step::Contains(Pair { left: 0, right: 0 }),
        Step::Insert(Pair { left: 0, right: 0 }),
        Step::Remove(Pair { left: 0, right: 0 }),
        Step::Remove(Pair { left: 0, right: 0 }),
        Step::Insert(Pair { left: 0, right: 0 }),
        Step::Insert(Pair { left: 2, right: 0 }),
        Step::Insert(Pair {
            left: 63,
            right: 31,
        }),
        Step::Insert(Pair { left: 64, right: 0 }),
        Step::Insert(Pair { left: 0, right: 32 }),
        Step::Contains(Pair { left: 64, right: 0 }),
        Step::Remove(Pair { left: 0, right: 32 }),
        Step::Remove(Pair { left: 1, right: 1 }),
        Step::Contains(Pair { left: 1, right: 1 }),
        Step::Contains(Pair {
            left: 63,
            right: 31,
        }),
    ],
};

// Permissions 0 (tv play) and 1 (oven heat) on the same device roles.
pub const PERMISSIONS: Example = Example {
    title: "Permissions assigned to device roles",
    opening: &[Pair { left: 0, right: 0 }, Pair { left: 1, right: 1 }],
    steps: &[
        Step::Insert(Pair { left: 1, right: 0 }),
        Step::Insert(Pair { left: 0, right: 0 }),
        Step::Remove(Pair { left: 0, right: 1 }),
        Step::Remove(Pair { left: 0, right: 0 }),
        Step::Insert(Pair { left: 0, right: 1 }),
        Step::Insert(Pair { left: 0, right: 0 }),
        Step::Remove(Pair {
            left: 999999,
            right: 999999,
        }),
        Step::Contains(Pair { left: 1, right: 1 }),
    ],
};
