//! Parts inside of values, at the ends of paths through arrays, records and graphs.
//!
//! The floors above use that a part that is read is the one that its definition says (`specs/Paths.antt`), that bounds are tested
//! step by step, and that a part that is put stands there and nothing else changes, also where another stood there for a while
//! (`paths_law`). Not here: parts put in place. It stands on `value_ops` and `graph_values`, and knows nothing of programs or types.
#![tactic(auto)]

mod laws;
mod place;
mod read;
mod step;

pub use laws::paths_law;
pub use read::part;
pub use step::Step;
