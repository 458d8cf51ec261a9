//! Graphs and parts of values, changed in place.
//!
//! The floors above use that a call on a graph does what its definition says (`specs/Graphs.antt` of `graph_values`), that a part
//! that is put stands at the end of its path and nothing else changes (`specs/Puts.antt`), and that after any error nothing has
//! changed. Lists on the way that others share are copied first; what stands in them is shared. Not here: what reads, and the laws
//! of the definitions (`graph_values`, `value_paths`); types; what a variable may hold. It stands on `value_paths`, and knows
//! nothing of programs.
#![tactic(auto)]

mod error;
mod finding;
mod graphs;
mod parts;

pub use error::GraphError;
pub use graphs::{add_node, delete_node, set_node};
pub use parts::replace_part;
