// The kinds of records that the box reads: the word of each kind, and its columns.

#![tactic(auto)]

mod column;
mod columns;
mod kind;
mod theorems;
mod words;

pub use column::{Column, NameTable};
pub use kind::{Kind, Request};
pub use theorems::every_kind_has_one_word;
pub use words::kind_of;
