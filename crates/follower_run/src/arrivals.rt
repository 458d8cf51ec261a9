//! Packets come: to members, which answer, and to the follower.

ghost use Rattle.std.specs.Prelude.{◌≡◌, ◌⊎◌, ◌<◌, ◌≤◌, ◌+◌, [], OnErr, OnOk};
ghost use Rattle.group_join.specs.declared.packet.JoinPacket.TheVariants.{Seek};
ghost use Rattle.group_join.specs.Following.{MayApplyAll};
ghost use Rattle.world_facts.specs.Replicated.{AllReplicated};
ghost use Rattle.world_parts.specs.Seen.{Of};
ghost use Rattle.world_rules.specs.Frame.{AreSettings};
ghost use Rattle.world_rules.specs.Worlds.{agreed};
ghost use Rattle.join_law.specs.Rounds.{takes_state};
ghost use Rattle.follower_run.specs.Going.{GoesOn, HasTaken, LeavesAtMost, LeavesOff, MayGoOn, MayTake, Nexts, Reaches, RunsOut, RunsTo};
ghost use Rattle.follower_run.specs.Posts.{led_to, load};

use crate::members::answer_by;
use crate::rounds::FollowerRounds;
use group_join::{Follower, JoinPacket, read_join, spelling_law};
use join_law::{followers_may_receive, rounds_law};
use node_parts::OneRun;
use orca_base::{NoMemory, Refusal};
use std::alloc::Global;
use wires::Wire;
use world_core::World;
use world_law::replay_law;

impl FollowerRounds {
    /// Packets come one after the other, the next one first, until nothing comes any more.
    pub(crate) fn run_out<P: OneRun, W: Wire>(
        &mut self,
        alloc: Global,
        machine: &P,
        world: &World<P>,
        wire: &mut W,
    ) -> Result<(), NoMemory>
        requires settings { AreSettings P.run.frame.settings }
        requires replicated { AllReplicated P.run.frame }
        requires may { MayGoOn P.run.frame world.now.steps (W.told wire.old) self.old }
        ensures out { OnOk result (GoesOn P.run.frame world.now.steps (W.told wire.old) self.old (W.told wire.new) self.new
            (RunsOut P.run.frame)) }
        ensures empty { OnOk result (self.new.coming.items ≡ []) }
        ensures left { OnErr result (LeavesOff P.run.frame world.now.steps (W.told wire.old) self.old (W.told wire.new) self.new
            (RunsTo P.run.frame)) }
        ensures script { W.rule wire.new ≡ W.rule wire.old }
        ensures since { W.loaded wire.new ≡ W.loaded wire.old }
    {
        rounds_law();
        'packets: while !self.coming.is_empty() {
            self.next(alloc, machine, world, wire)?;
        }
        Ok(())
    }

    // The next packet comes, if there is one: a Seek to a member, what is none to the follower. One that was cut is lost.
    fn next<P: OneRun, W: Wire>(
        &mut self,
        alloc: Global,
        machine: &P,
        world: &World<P>,
        wire: &mut W,
    ) -> Result<(), NoMemory>
        requires settings { AreSettings P.run.frame.settings }
        requires replicated { AllReplicated P.run.frame }
        requires may { MayGoOn P.run.frame world.now.steps (W.told wire.old) self.old }
        ensures next { OnOk result (GoesOn P.run.frame world.now.steps (W.told wire.old) self.old (W.told wire.new) self.new
            (Nexts P.run.frame)) }
        ensures left { OnErr result (LeavesAtMost P.run.frame world.now.steps (W.told wire.old) self.old (W.told wire.new) self.new
            (Nexts P.run.frame)) }
        ensures load { OnOk result ((self.old.coming.items ≡ []) ⊎ (load self.new.coming.items < load self.old.coming.items)) }
        ensures script { W.rule wire.new ≡ W.rule wire.old }
        ensures since { W.loaded wire.new ≡ W.loaded wire.old }
    {
        spelling_law();
        followers_may_receive(machine);
        replay_law(machine);
        let Some(flight) = self.coming.pop_front() else {
            return Ok(());
        };
        match read_join(alloc, flight.packet.as_slice()) {
            Ok(packet) => self.arrive(alloc, machine, world, flight.to, packet, wire),
            Err(Refusal::Because { .. }) => Ok(()),
            Err(Refusal::NoMemory) => Err(NoMemory),
        }
    }

    // A packet comes: a Seek to this member, what is none to the follower.
    fn arrive<P: OneRun, W: Wire>(
        &mut self,
        alloc: Global,
        machine: &P,
        world: &World<P>,
        to: u8,
        packet: JoinPacket,
        wire: &mut W,
    ) -> Result<(), NoMemory>
        requires settings { AreSettings P.run.frame.settings }
        requires replicated { AllReplicated P.run.frame }
        requires entries { Of P.run.frame world.now (λ w. MayApplyAll (P.fits_args machine.now) P.run.frame.performs (agreed P.run.frame w)) }
        requires may { MayTake (P.fits_args machine.now) (P.performs machine.now) self.old packet }
        ensures next { OnOk result (GoesOn P.run.frame world.now.steps (W.told wire.old) self.old (W.told wire.new) self.new
            (Reaches P.run.frame to packet)) }
        ensures left { OnErr result (LeavesAtMost P.run.frame world.now.steps (W.told wire.old) self.old (W.told wire.new) self.new
            (Reaches P.run.frame to packet)) }
        ensures load { OnOk result (load self.new.coming.items ≤ load self.old.coming.items + led_to packet) }
        ensures script { W.rule wire.new ≡ W.rule wire.old }
        ensures since { W.loaded wire.new ≡ W.loaded wire.old }
    {
        match packet {
            JoinPacket::Seek { applied } => self.reply(alloc, machine, world, to, applied, wire),
            JoinPacket::State { .. } => self.take(alloc, machine, packet),
            JoinPacket::Next { .. } => self.take(alloc, machine, packet),
        }
    }

    // A member is asked for the entry behind so many: it answers at once, where it lives and isn't outside.
    fn reply<P: OneRun, W: Wire>(
        &mut self,
        alloc: Global,
        machine: &P,
        world: &World<P>,
        member: u8,
        applied: u64,
        wire: &mut W,
    ) -> Result<(), NoMemory>
        requires settings { AreSettings P.run.frame.settings }
        requires replicated { AllReplicated P.run.frame }
        requires entries { Of P.run.frame world.now (λ w. MayApplyAll (P.fits_args machine.now) P.run.frame.performs (agreed P.run.frame w)) }
        ensures next { OnOk result (GoesOn P.run.frame world.now.steps (W.told wire.old) self.old (W.told wire.new) self.new
            (Reaches P.run.frame member (Seek applied))) }
        ensures left { OnErr result (LeavesAtMost P.run.frame world.now.steps (W.told wire.old) self.old (W.told wire.new) self.new
            (Reaches P.run.frame member (Seek applied))) }
        ensures load { OnOk result (load self.new.coming.items ≤ load self.old.coming.items + 2) }
        ensures script { W.rule wire.new ≡ W.rule wire.old }
        ensures since { W.loaded wire.new ≡ W.loaded wire.old }
    {
        let Some(packet) = answer_by(alloc, machine, world, member, applied)? else {
            return Ok(());
        };
        let number = self.number;
        self.send(alloc, member, number, &packet, wire)
    }

    // A packet comes to the follower, which counts the states that it takes. More of these than it can count find no memory.
    fn take<P: OneRun>(
        &mut self,
        alloc: Global,
        machine: &P,
        packet: JoinPacket,
    ) -> Result<(), NoMemory>
        requires { MayTake (P.fits_args machine.now) (P.performs machine.now) self.old packet }
        ensures took { OnOk result (HasTaken P.run.frame packet self.old self.new) }
        ensures load { self.new.coming ≡ self.old.coming }
        ensures err { OnErr result (self.new ≡ self.old) }
    {
        let taken = takes_state(&self.follower, &packet);
        let Some(states) = self.states.checked_add(taken) else {
            return Err(NoMemory);
        };
        self.follower.receive(alloc, machine, packet)?;
        self.states = states;
        Ok(())
    }
}

// How many states a follower takes by this packet: one, if it is a state that applied more.
fn takes_state(follower: &Follower, packet: &JoinPacket) -> u32
    ensures { result ≡ takes_state follower.now packet.now }
{
    match packet {
        JoinPacket::State { state } if state.applied > follower.applied() => 1,
        _ => 0,
    }
}
