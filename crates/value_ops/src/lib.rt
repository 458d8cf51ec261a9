//! What the language's operators do with values, each with its fault.
//!
//! The floors above use that each call gives what its definition in `specs/` says, of integers, strings, sizes, places and
//! elements, and the laws of these definitions (`integers_law`, `elements_law`). Relations are the order of `value_core`. It
//! stands on `value_core`, and knows nothing of programs, types or variables.
#![tactic(auto)]

mod elements;
mod integers;
mod laws;
mod sizes;
mod texts;

pub use elements::{contains, delete, insert, is_in, take_least};
pub use integers::{add, divide, multiply, negate, remainder, subtract};
pub use laws::{elements_law, integers_law, operator_rows, places_law, texts_law};
pub use sizes::{count, ordinal, place_in, size_of, size_of_all};
pub use texts::{join_texts, text_of};
