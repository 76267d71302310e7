ghost use Rattle.std.specs.Prelude.{◌≡◌, not, ◌&&◌, nat_lt};
ghost use Rattle.tables.specs.Drafts.{declared};

use tables::{Distinct, Draft, Item};

// Whether the item at this place of its list names something undeclared.
pub fn is_undeclared<X: Item>(draft: &Draft, place: u32) -> bool
    ensures { result ≡ (declared draft.now X.LIST place && X.lacks draft.now (X.listed draft.now place)) }
{
    draft.is_declared(X::LIST, place) && X::at(draft, place).names_undeclared(draft)
}

// Whether the items at two places of their list, in this order, have the same content.
pub fn is_twice<X: Distinct>(draft: &Draft, first: u32, second: u32) -> bool
    ensures { result ≡ (nat_lt first second && (declared draft.now X.LIST second && X.alike (X.listed draft.now first) (X.listed draft.now second))) }
{
    first < second
        && draft.is_declared(X::LIST, second)
        && X::at(draft, first).is_alike(X::at(draft, second))
}
