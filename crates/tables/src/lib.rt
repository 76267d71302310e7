// What a house is made of: lists of things, relations between them, and the draft that holds them before an opening.

#![tactic(auto)]

mod adding;
mod draft;
mod item;
mod items;
mod parts;
mod reading;
mod relation;
mod table;

pub use draft::Draft;
pub use item::{Distinct, Item};
pub use items::Items;
pub use parts::{Entry, Permission, RolePair};
pub use relation::Relation;
pub use table::{LIST_LIMIT, Table, Thing};
