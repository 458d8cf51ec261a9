//! Graphs: sets of nodes with names, and what the language's calls on them mean.
//!
//! The floors above use the definitions of the calls (`specs/Graphs.antt`), the law on lists of calls, by which the names that a
//! graph gave are 1, 2, 3 and so on, each once, and its nodes are those added and not deleted, each with the value last set
//! (`calls_law`), and that what stays a graph stays sound (`graphs_law`). Not here: graphs changed in place. It stands on
//! `value_core`, and knows nothing of programs or types.
#![tactic(auto)]

mod graph;
mod laws;

pub use graph::{new_graph, node};
pub use laws::{calls_law, graph_rows, graphs_law};
