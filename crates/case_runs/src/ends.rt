//! Members and processes as a run leaves them, told in plain values.

use case_tables::{Member, Process, Standing};
use orca_base::{NoMemory, ObjectId};
use run_ends::{NodeEnd, ProcessEnd, ProcessStanding};
use std::alloc::Global;
use value_core::Value;

// The first object that process 0 makes.
const FIRST: ObjectId = ObjectId {
    process: 0,
    number: 1,
};

/// A row of each member.
pub fn members(alloc: Global, nodes: &[NodeEnd]) -> Result<Vec<Member>, NoMemory> {
    let mut members = Vec::new(alloc);
    for node in nodes {
        members.push(Member {
            applied: node.applied,
            incarnation: node.incarnation,
            crashed: node.crashed,
            outside: node.outside,
        })?;
    }
    Ok(members)
}

/// A row of each process.
pub fn processes(alloc: Global, ends: &[ProcessEnd]) -> Result<Vec<Process>, NoMemory> {
    let mut processes = Vec::new(alloc);
    for end in ends {
        processes.push(Process {
            node: end.node,
            replies: end.replies.len(),
            turns: end.turns,
            standing: standing_of(&end.standing),
        })?;
    }
    Ok(processes)
}

// The standing without its action.
fn standing_of(standing: &ProcessStanding) -> Standing {
    match standing {
        ProcessStanding::Ended => Standing::Ended,
        ProcessStanding::Faulted { fault } => Standing::Faulted { fault: *fault },
        ProcessStanding::Waits { .. } => Standing::Waits,
        ProcessStanding::Busy => Standing::Busy,
        ProcessStanding::Crashed => Standing::Crashed,
    }
}

/// The integer fields of the first object at each member.
pub fn fields(alloc: Global, nodes: &[NodeEnd]) -> Result<Vec<(usize, i64)>, NoMemory> {
    let mut fields = Vec::new(alloc);
    for (member, node) in nodes.iter().enumerate() {
        add_fields(&mut fields, member, node)?;
    }
    Ok(fields)
}

// Puts those at one member behind.
fn add_fields(
    fields: &mut Vec<(usize, i64)>,
    member: usize,
    node: &NodeEnd,
) -> Result<(), NoMemory> {
    if let Some(held) = node.copies.get(FIRST) {
        for field in held.state.as_slice() {
            if let Value::Int(number) = field {
                fields.push((member, *number))?;
            }
        }
    }
    Ok(())
}
