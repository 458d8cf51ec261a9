//! Values, actions, replies and the lines of a history.
//!
//! The floors above use that `≡` on values, messages and lines is equality of what they show (`specs/Datum.antt`), and the
//! order of values (`specs/Order.antt`), which is total and Equal for equal values alone. Which values are sound, how large
//! they are, and how many bytes spell them, is defined in `specs/Sound.antt`, `specs/Size.antt` and `specs/Lengths.antt`. It
//! stands on `orca_base`, and knows nothing of texts or types. No call recurses deeper than values nest.
#![tactic(auto)]

mod action;
mod meaning;
mod message;
mod order;
mod performer;
mod processor;
mod text;
mod value;

pub use action::{Action, Class, Instance, Line, Reply};
pub use meaning::{Doing, Making, Seen, Tried};
pub use message::Message;
pub use performer::Performer;
pub use processor::{Halt, Processor};
pub use text::TextValue;
pub use value::{BoxedParts, ObjectState, Parts, Value};
