//! What members answer, and which of them is ahead.

ghost use Rattle.std.specs.Prelude.{◌≡◌, ◌<◌, ◌^◌, ◌&&◌, IfOk, IfSome, length, max, not, true};
ghost use Rattle.group_join.specs.Following.{MayApplyAll};
ghost use Rattle.group_join.specs.Sound.{IsSoundJoin};
ghost use Rattle.world_facts.specs.Replicated.{AllReplicated};
ghost use Rattle.world_parts.specs.Seen.{Of};
ghost use Rattle.world_rules.specs.Frame.{AreSettings};
ghost use Rattle.world_rules.specs.Steps.{Replays};
ghost use Rattle.world_rules.specs.Worlds.{World as RunWorld, agreed, applied_at};
ghost use Rattle.join_law.specs.Rounds.{ahead, can_answer, further};
ghost use Rattle.follower_run.specs.Answers.{HasShortQueue, MembersAnswer, answer_in};
ghost use Rattle.follower_run.specs.Posts.{led_to};

use group_join::{JoinPacket, answer};
use group_law::agreement_law;
use node_parts::OneRun;
use object_manager::copies_law;
use orca_base::NoMemory;
use std::alloc::Global;
use value_core::{Message, Processor};
use world_book::legal_book;
use world_core::World;

/// What a member answers to a follower that applied so many entries, where it lives and isn't outside; else nothing. It may be written
/// (`sound`). A state with 2^32 suspended calls or more finds no memory.
pub(crate) fn answer_by<P: OneRun>(
    alloc: Global,
    machine: &P,
    world: &World<P>,
    member: u8,
    applied: u64,
) -> Result<Option<JoinPacket>, NoMemory>
    requires settings { AreSettings P.run.frame.settings }
    requires replicated { AllReplicated P.run.frame }
    requires entries { Of P.run.frame world.now (λ w. MayApplyAll (P.fits_args machine.now) P.run.frame.performs (agreed P.run.frame w)) }
    ensures answer { Of P.run.frame world.now (λ w. IfOk result (λ a. a ≡ answer_in P.run.frame w member applied)) }
    ensures sound { IfOk result (λ a. IfSome a IsSoundJoin) }
    ensures none { IfOk result (λ a. IfSome a (λ packet. led_to packet ≡ 0)) }
{
    members_answer(machine);
    is_replayed(world);
    if !can_answer(world, member) {
        return Ok(None);
    }
    let Some(node) = world.node(member) else {
        return Ok(None);
    };
    let Some(packet) = answer(alloc, node.member(), node.copies(), applied)? else {
        return Ok(None);
    };
    if has_short_queue(&packet) {
        Ok(Some(packet))
    } else {
        Err(NoMemory)
    }
}

/// Whether a member answers a follower: it lives and isn't outside.
pub(crate) fn can_answer<P: OneRun>(world: &World<P>, member: u8) -> bool
    ensures { Of P.run.frame world.now (λ w. result ≡ can_answer P.run.frame w member) }
{
    let Some(node) = world.node(member) else {
        return false;
    };
    answers(world.lives(member), node.member().is_outside())
}

// Whether a member answers that lives or not, and is outside or not.
fn answers(lives: bool, outside: bool) -> bool
    ensures { result ≡ (lives && not outside) }
{
    lives && !outside
}

/// Of so many members the one that is ahead: of those that answer the one that applied most, the lowest of several.
pub(crate) fn ahead<P: OneRun>(world: &World<P>, nodes: u8) -> Option<u8>
    requires { nodes ≡ P.run.frame.settings.nodes }
    ensures ahead { Of P.run.frame world.now (λ w. result ≡ ahead P.run.frame w nodes) }
    ensures member { IfSome result (λ m. m < P.run.frame.settings.nodes) }
{
    let mut found = None;
    'members: for member in 0..nodes {
        if can_answer(world, member) {
            found = Some(further(world, member, found));
        }
    }
    found
}

// The member found so far, or this one of a higher number, where that applied more.
fn further<P: OneRun>(world: &World<P>, member: u8, found: Option<u8>) -> u8
    requires member { member < P.run.frame.settings.nodes }
    requires found { IfSome found (λ m. m < P.run.frame.settings.nodes) }
    ensures further { Of P.run.frame world.now (λ w. result ≡ further w member found) }
    ensures member { result < P.run.frame.settings.nodes }
{
    let Some(found) = found else {
        return member;
    };
    if applied_by(world, found) >= applied_by(world, member) {
        return found;
    }
    member
}

/// How many entries a member applied.
pub(crate) fn applied_by<P: OneRun>(world: &World<P>, member: u8) -> u64
    requires { member < P.run.frame.settings.nodes }
    ensures applied { Of P.run.frame world.now (λ w. result ≡ (w.nodes member).member.applied) }
    ensures logged { Of P.run.frame world.now (λ w. result ≡ length (applied_at w member)) }
    ensures small { result < 2 ^ 62 }
{
    is_replayed(world);
    match world.node(member) {
        Some(node) => node.member().applied(),
        None => 0,
    }
}

/// The greatest number of entries that one of so many members applied, also one that crashed or is outside.
pub(crate) fn most_applied<P: OneRun>(world: &World<P>, nodes: u8) -> u64
    requires { nodes ≡ P.run.frame.settings.nodes }
    ensures { Of P.run.frame world.now (λ w. result ≡ length (agreed P.run.frame w)) }
{
    let mut most = 0;
    'members: for member in 0..nodes {
        most = greater(most, applied_by(world, member));
    }
    most
}

// The greater of two numbers.
fn greater(one: u64, other: u64) -> u64
    ensures { result ≡ max one other }
{
    if one < other { other } else { one }
}

// Whether fewer than 2^32 suspended calls are in it.
fn has_short_queue(packet: &JoinPacket) -> bool
    ensures { result ≡ true → HasShortQueue packet.now }
{
    match packet {
        JoinPacket::State { state } => state.queue.len() < 1 << 32,
        JoinPacket::Seek { .. } | JoinPacket::Next { .. } => true,
    }
}

// The steps of a world lead to one of the rules. A call of this function does nothing.
fn is_replayed<P: OneRun>(world: &World<P>)
    ensures { (w : RunWorld) × Replays P.run.frame world.now.steps w }
{
    let _steps = world.steps();
}

// What a member may be asked in each run without single objects, and what it answers. It does nothing.
fn members_answer<P: Processor>(machine: &P)
    ensures { MembersAnswer (P.performs machine.now) (P.computes machine.now) (P.fits_args machine.now) }
{
    agreement_law::<Message>();
    legal_book(machine);
    copies_law(machine);
}
