//! One member's copies of the objects: what ordered messages do to them, and snapshots of them.
//!
//! The floor above uses that `Copies::apply` gives `after` of specs/After.antt for one message, and the lines `lines_after`
//! in the order in which they ran; that `read` is a try on the copies; and that a view is the objects at its place. It stands
//! on `guard_queue`, and knows nothing of packets, members or the text of a program.
#![tactic(auto)]

mod acts;
mod copies;
mod laws;
mod state;
mod view;

pub use copies::{ApplyError, Copies};
pub use laws::copies_law;
pub use state::{CopiesState, ObjectEntry};
pub use view::View;
