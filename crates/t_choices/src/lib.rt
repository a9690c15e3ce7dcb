//! The texts of choices and of schedules.
//!
//! It stands on `lz_lines`, which reads and prints the fields of a line. A reader answers exactly the value whose text
//! the bytes are, and the fault C1 or S1 where they are no text for these numbers of bits, processes and cycles; a
//! printer gives the one text of its value. `Schedules` keep the byte at which each entry and each end of a line stands.
#![tactic(auto)]

mod bits;
mod choice_texts;
mod entries;
mod lines;
mod schedule_texts;

pub use choice_texts::{Choices, print_choices, read_choices};
pub use schedule_texts::{Schedules, print_schedule, read_schedule};
