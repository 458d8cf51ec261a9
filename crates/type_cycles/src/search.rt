//! The search for components, by two searches depth first: along parts, and back from the types that the first left last (Kosaraju's
//! algorithm: Sedgewick and Wayne, Algorithms, 4.2). Nothing is proved of what it finds: `are_right` (components) tests it.

use crate::components::{Membership, NO_MEMBER, membership_at, parts_at};
use orca_base::{Items, NoMemory};
use std::alloc::Global;

// A type that has another as a part, and which of its parts that is.
#[derive(Clone, Copy)]
struct User {
    number: usize,
    at: usize,
}

// Of each type those that have it as a part.
fn users_of(alloc: Global, parts: &[Items<usize>]) -> Result<Vec<Vec<User>>, NoMemory> {
    let mut users = Vec::new(alloc);
    for _number in 0..parts.len() {
        users.push(Vec::new(alloc))?;
    }
    for number in 0..parts.len() {
        for (at, part) in parts_at(parts, number).iter().enumerate() {
            if let Some(own) = users.get_mut(*part) {
                own.push(User { number, at })?;
            }
        }
    }
    Ok(users)
}

// Marks a type, and tells whether it wasn't marked before.
fn enter(entered: &mut [bool], number: usize) -> bool {
    match entered.get_mut(number) {
        None => false,
        Some(mark) => {
            let is_new = !*mark;
            *mark = true;
            is_new
        }
    }
}

// Appends a type and those that it leads to, as far as they aren't entered yet, each behind its parts.
fn append_from(
    alloc: Global,
    parts: &[Items<usize>],
    entered: &mut [bool],
    order: &mut Vec<usize>,
    start: usize,
) -> Result<(), NoMemory> {
    let mut path = Vec::new(alloc);
    if enter(entered, start) {
        path.push((start, 0))?;
    }
    for _ in 0..u64::MAX {
        let Some((number, next)) = path.pop() else {
            break
        };
        match parts_at(parts, number).get(next) {
            None => order.push(number)?,
            Some(part) => {
                path.push((number, next.saturating_add(1)))?;
                if enter(entered, *part) {
                    path.push((*part, 0))?;
                }
            }
        }
    }
    Ok(())
}

// All types, each behind its parts, but for those that lead back to it.
fn postorder(alloc: Global, parts: &[Items<usize>]) -> Result<Vec<usize>, NoMemory> {
    let mut entered = Vec::new(alloc);
    for _number in 0..parts.len() {
        entered.push(false)?;
    }
    let mut order = Vec::new(alloc);
    for start in 0..parts.len() {
        append_from(alloc, parts, &mut entered, &mut order, start)?;
    }
    Ok(order)
}

// Gives a type its membership, if it has none yet, and tells whether it did.
fn assign(members: &mut [Membership], number: usize, membership: Membership) -> bool {
    match members.get_mut(number) {
        None => false,
        Some(own) => {
            let is_new = own.rank == 0;
            if is_new {
                *own = membership;
            }
            is_new
        }
    }
}

// The component of this root: the types without a component that lead to it. Tells whether there is one.
fn gather(
    alloc: Global,
    users: &[Vec<User>],
    members: &mut [Membership],
    root: usize,
    rank: usize,
) -> Result<bool, NoMemory> {
    let mut path = Vec::new(alloc);
    let is_new = assign(
        members,
        root,
        Membership {
            rank,
            root,
            ..NO_MEMBER
        },
    );
    if is_new {
        path.push(root)?;
    }
    for _ in 0..u64::MAX {
        let Some(number) = path.pop() else { break };
        let to_root = membership_at(members, number).to_root.saturating_add(1);
        let Some(own) = users.get(number) else { break };
        for user in own {
            let membership = Membership {
                rank,
                root,
                next: user.at,
                to_root,
                ..NO_MEMBER
            };
            if assign(members, user.number, membership) {
                path.push(user.number)?;
            }
        }
    }
    Ok(is_new)
}

// Notes of a part in the same component which type has it, if none is noted and it isn't the root. Tells whether it did.
fn note_previous(members: &mut [Membership], number: usize, at: usize, part: usize) -> bool {
    let own = membership_at(members, number);
    match members.get_mut(part) {
        None => false,
        Some(other) => {
            let is_new = other.rank == own.rank && other.root != part && other.from_root == 0;
            if is_new {
                other.previous = number;
                other.previous_at = at;
                other.from_root = own.from_root.saturating_add(1);
            }
            is_new
        }
    }
}

// Notes the ways from a root to all types of its component.
fn note_ways(
    alloc: Global,
    parts: &[Items<usize>],
    members: &mut [Membership],
    root: usize,
) -> Result<(), NoMemory> {
    let mut path = Vec::new(alloc);
    path.push(root)?;
    for _ in 0..u64::MAX {
        let Some(number) = path.pop() else { break };
        for (at, part) in parts_at(parts, number).iter().enumerate() {
            if note_previous(members, number, at, *part) {
                path.push(*part)?;
            }
        }
    }
    Ok(())
}

/// A membership for each type: what the search found.
pub fn components_of(alloc: Global, parts: &[Items<usize>]) -> Result<Vec<Membership>, NoMemory> {
    let users = users_of(alloc, parts)?;
    let order = postorder(alloc, parts)?;
    let mut members = Vec::new(alloc);
    for _number in 0..parts.len() {
        members.push(NO_MEMBER)?;
    }
    let mut rank = parts.len();
    for root in order.iter().rev() {
        if gather(alloc, &users, &mut members, *root, rank)? {
            note_ways(alloc, parts, &mut members, *root)?;
            rank = rank.saturating_sub(1);
        }
    }
    Ok(members)
}
