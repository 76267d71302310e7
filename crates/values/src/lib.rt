// What a field can say: a name, a number, a flag or a word; and the lines that answer.

#![tactic(auto)]

mod answer;
mod name;
mod naming;
mod numeral;
mod word;

pub use answer::{LINE_LENGTH, write_answer};
pub use name::Name;
pub use numeral::number;
pub use word::{flag, is_word};
