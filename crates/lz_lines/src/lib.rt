//! The fields of lines, as all texts of the product are made of them: one printer and one reader for each.
//!
//! It stands on `lz_base`. A printer appends the one spelling of its field, and nothing else. A reader takes one field
//! from the front of the bytes, or says how many bytes are left behind the longest front with which such a field
//! begins. `specs/Forms` says what a form is and what a reader of one answers, and `proofs/Forms` has the laws by which
//! readers of fields make up the reader of a line, and readers of lines that of a whole text.
//!
//! The texts of netlists and of networks share more: the lines of the clock, the inputs and the outputs (`specs/Shared`),
//! look-up tables (`specs/Tables`), and the rule on references, which `judge_inputs` and its like hold lines against
//! (`specs/References`), each fault at its byte.
#![tactic(auto)]

mod bits;
mod ends;
mod judging;
mod names;
mod numbers;
mod printing;
mod reading;
mod shared;
mod tables;
mod unread;
mod words;

pub use bits::read_bit;
pub use ends::end_line;
pub use judging::{judge_inputs, judge_numbers, judge_output, meet_clock};
pub use names::read_name;
pub use numbers::read_numbers;
pub use printing::{push_bit, push_field, push_hex, push_line_end, push_number};
pub use reading::{Broken, read_end, read_hex, read_number, read_word};
pub use shared::{push_clock, push_inputs, push_numbers, push_output, read_name_copy};
pub use tables::{push_table, read_table};
pub use unread::Unread;
pub use words::{Keyword, read_key};
