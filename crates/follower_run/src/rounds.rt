//! How far a follower came, and its packets on their way.

ghost use Rattle.std.specs.Prelude.{◌≡◌, ◌≤◌, ◌+◌, ◌*◌, [], ◌∷◌, ◌++◌, IfOk, OnOk, take};
ghost use Rattle.std.specs.List.{filter};
ghost use Rattle.object_manager.specs.After.{opening_copies};
ghost use Rattle.net_rules.specs.Flights.{copies, is_ready, ticked};
ghost use Rattle.follower_run.specs.Posts.{is_late, load, weight};

use group_join::Follower;
use net_rules::{Fate, Flight};
use orca_base::{Items, NoMemory};
use std::alloc::Global;
use std::collections::VecDeque;
use std::mem;

/// A packet on its way, in bytes.
pub(crate) type Post = Flight<Items<u8>>;

/// How far a follower came, and its packets on their way.
#[derive(Drop)]
pub(crate) struct FollowerRounds {
    /// Its number: that of the members.
    pub(crate) number: u8,
    /// Its copies.
    pub(crate) follower: Follower,
    /// What is held back, in order of number.
    pub(crate) held: VecDeque<Post>,
    /// What comes at once, the next one first.
    pub(crate) coming: VecDeque<Post>,
    /// How many packets its wire was asked about.
    pub(crate) questions: u64,
    /// How many states it took.
    pub(crate) states: u32,
    /// How many rounds it did.
    pub(crate) rounds: u64,
}

impl FollowerRounds {
    /// Before the first round, beside a run of so many members.
    pub(crate) fn new(alloc: Global, nodes: u8) -> Result<FollowerRounds, NoMemory>
        ensures number { IfOk result (λ s. s.number ≡ nodes) }
        ensures follower { IfOk result (λ s. s.follower ≡ opening_copies) }
        ensures held { IfOk result (λ s. s.held.items ≡ []) }
        ensures coming { IfOk result (λ s. s.coming.items ≡ []) }
        ensures counts { IfOk result (λ s. (s.questions ≡ 0) × (s.states ≡ 0) × (s.rounds ≡ 0)) }
    {
        Ok(FollowerRounds {
            number: nodes,
            follower: Follower::new(alloc)?,
            held: VecDeque::new(alloc),
            coming: VecDeque::new(alloc),
            questions: 0,
            states: 0,
            rounds: 0,
        })
    }
}

/// A round begins: what is held back comes nearer by one round, and what is ready then comes, in order of number, behind what comes else.
pub(crate) fn release(
    alloc: Global,
    held: &mut VecDeque<Post>,
    coming: &mut VecDeque<Post>,
) -> Result<(), NoMemory>
    ensures held { OnOk result (held.new.items ≡ filter is_late (ticked held.old.items)) }
    ensures coming { OnOk result (coming.new.items ≡ coming.old.items ++ filter is_ready (ticked held.old.items)) }
{
    let mut left = mem::replace(held, VecDeque::new(alloc));
    'posts: while let Some(post) = left.pop_front() {
        let ticks = post.ticks.saturating_sub(1);
        let nearer = Flight { ticks, ..post };
        if ticks == 0 {
            coming.push_back(nearer)?;
        } else {
            held.push_back(nearer)?;
        }
    }
    Ok(())
}

/// Adds the copies that a fate makes of a packet, whose twin is equal: what is held back behind what was, and what isn't before what comes
/// else.
pub(crate) fn post(
    held: &mut VecDeque<Post>,
    coming: &mut VecDeque<Post>,
    flight: Post,
    twin: Items<u8>,
    fate: Fate,
) -> Result<(), NoMemory>
    requires twin { twin ≡ flight.packet }
    requires first { (flight.copy ≡ 0) × (flight.ticks ≡ 0) }
    ensures held { OnOk result (held.new.items ≡
        held.old.items ++ filter is_late (copies take flight.number flight.from flight.to flight.packet fate)) }
    ensures coming { OnOk result (coming.new.items ≡
        filter is_ready (copies take flight.number flight.from flight.to flight.packet fate) ++ coming.old.items) }
    ensures load { OnOk result (load coming.new.items ≤ load coming.old.items + 2 * weight flight.packet) }
{
    match fate {
        Fate::Drop => Ok(()),
        Fate::Pass => place(held, coming, flight),
        Fate::Hold { ticks } => place(held, coming, Flight { ticks, ..flight }),
        Fate::Cut { length } => {
            let packet = cut(flight.packet, length);
            place(held, coming, Flight { packet, ..flight })
        }
        Fate::Twice => {
            let second = Flight {
                number: flight.number,
                copy: 1,
                from: flight.from,
                to: flight.to,
                ticks: 0,
                packet: twin,
            };
            place(held, coming, second)?;
            place(held, coming, flight)
        }
    }
}

// Puts a packet behind what is held back, if it is, and else before what comes.
fn place(
    held: &mut VecDeque<Post>,
    coming: &mut VecDeque<Post>,
    flight: Post,
) -> Result<(), NoMemory>
    ensures held { OnOk result (held.new.items ≡ held.old.items ++ filter is_late (flight ∷ [])) }
    ensures coming { OnOk result (coming.new.items ≡ filter is_ready (flight ∷ []) ++ coming.old.items) }
    ensures load { OnOk result (load coming.new.items ≤ load coming.old.items + weight flight.packet) }
{
    if flight.ticks == 0 {
        coming.push_front(flight)?;
    } else {
        held.push_back(flight)?;
    }
    Ok(())
}

// These bytes, cut to so many.
fn cut(packet: Items<u8>, length: u32) -> Items<u8>
    ensures cut { result ≡ take length packet }
    ensures load { weight result ≤ weight packet }
{
    let mut bytes = packet.into_vec();
    bytes.truncate(length as usize);
    Items::new(bytes)
}
