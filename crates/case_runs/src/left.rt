//! What a run left, told in plain values.

use crate::ends::{fields, members, processes};
use crate::events::events_of;
use case_tables::{Ends, Left};
use orca_base::NoMemory;
use run_ends::{NodeEnd, ProcessEnd};
use std::alloc::Global;
use value_core::{Line, Reply};
use world_rules::Step;

/// What a run with this history and these events left, whose members and processes ended so.
pub fn left_of(
    alloc: Global,
    book: &[Line],
    steps: &[Step],
    nodes: &[NodeEnd],
    ends: &[ProcessEnd],
) -> Result<Left, NoMemory> {
    let told = Ends {
        members: members(alloc, nodes)?,
        processes: processes(alloc, ends)?,
        fields: fields(alloc, nodes)?,
    };
    Left::new(alloc, book, events_of(steps), replies(ends), told)
}

// The replies that process 0 received.
fn replies(ends: &[ProcessEnd]) -> &[Reply] {
    match ends.first() {
        Some(main) => main.replies.as_slice(),
        None => &[],
    }
}
