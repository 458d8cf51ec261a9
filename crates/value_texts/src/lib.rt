//! Values in the text of a history: one spelling for each value.
//!
//! `print_value` gives the spelling (`specs/Spelling.antt`), and `read_value` the value that a text spells. What is read is sound
//! and spelled so, and what is sound and spelled so is read; anything else is refused. Readers of lines find the readers of
//! words, numbers and values from the front of a text here. It stands on `value_core`, and knows nothing of lines.
#![tactic(auto)]

mod brackets;
mod fault;
mod laws;
mod reading;
mod strings;
mod words;
mod writing;

pub use brackets::Brackets;
pub use fault::Misspelled;
pub use laws::{reading_law, spelling_law};
pub use reading::{integer, object_id, read_value, value_in_front, values_in_front};
pub use words::{Read, after, begins, behind, natural, natural_below, sign, word};
pub use writing::{print_value, push_integer, push_number, push_value, push_values};
