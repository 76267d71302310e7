use crate::items::Items;
use crate::parts::{Entry, Permission, RolePair};
use stores::BitRows;

// The lists, the relations and the number of a house before it opens. It may hold anything, lawful or not.
#[derive(Clone, Copy)]
pub struct Draft {
    pub number: u32,
    // By the index of each kind of thing.
    pub counts: [u32; 8],
    pub permissions: Items<Permission>,
    pub role_pairs: Items<RolePair>,
    pub entries: Items<Entry>,
    // By the index of each relation.
    pub relations: [BitRows; 12],
}
