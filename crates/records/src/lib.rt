// Text as records: fields with commas between them, and a line break behind each record.

#![tactic(auto)]

mod cursor;
mod fault;
mod field;
mod read;
mod record;
mod scan;
mod theorems;

pub use cursor::{Records, TEXT_LIMIT, count_lines};
pub use field::Field;
pub use record::{KEPT_FIELDS, Record};
pub use theorems::{every_text_has_one_reading, every_written_text_reads_back};
