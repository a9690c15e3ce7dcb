//! What the numbers of a source stand for (IEEE Std 1364-2005, 3.5.1).
//!
//! A number is spelled as the tokens have it, with up to 2 ^ 20 digits; it stands for a `Literal`, a word some bits of
//! which may be x or z. It stands on the spellings of `v_syntax`, on the definitions of `v_meaning` and on the words of
//! `v_words`. Promised is that each function answers what its definition says, and that the literal of a right number is
//! fit: it has 1 to 128 bits, and each of its masks keeps to them. Nothing takes memory, and digits are read in one pass.
#![tactic(auto)]

mod accumulated;
mod decimal;
mod digit;
mod reading;
mod spelled;
mod value;

pub use reading::{literal, width_up_to_129};
pub use spelled::{has_impedance, has_unknown, is_unsized, is_wrong};
pub use value::{open_bits, value_with};
