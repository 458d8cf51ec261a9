//! A round of a follower.

ghost use Rattle.std.specs.Prelude.{◌≡◌, [], OnErr, OnOk};
ghost use Rattle.world_facts.specs.Replicated.{AllReplicated};
ghost use Rattle.world_rules.specs.Frame.{AreSettings};
ghost use Rattle.follower_run.specs.Going.{DoesRound, GoesOn, HasSent, HasSentAtMost, IsInRound, LeavesOff, MayGoOn};
ghost use Rattle.group_join.specs.declared.packet.JoinPacket.TheVariants.{Seek};

use crate::rounds::{FollowerRounds, release};
use group_join::JoinPacket;
use join_law::rounds_law;
use node_parts::OneRun;
use orca_base::NoMemory;
use std::alloc::Global;
use wires::Wire;
use world_core::World;

impl FollowerRounds {
    /// A round with a member: what is held back comes nearer by one, and what is ready then comes; then the follower asks the member for the
    /// next entry, and what that leads to comes. Nothing comes before it, and nothing behind it.
    pub(crate) fn round<P: OneRun, W: Wire>(
        &mut self,
        alloc: Global,
        machine: &P,
        world: &World<P>,
        member: u8,
        wire: &mut W,
    ) -> Result<(), NoMemory>
        requires settings { AreSettings P.run.frame.settings }
        requires replicated { AllReplicated P.run.frame }
        requires may { MayGoOn P.run.frame world.now.steps (W.told wire.old) self.old }
        requires between { self.old.coming.items ≡ [] }
        ensures round { OnOk result (GoesOn P.run.frame world.now.steps (W.told wire.old) self.old (W.told wire.new) self.new
            (DoesRound P.run.frame member)) }
        ensures left { OnErr result (LeavesOff P.run.frame world.now.steps (W.told wire.old) self.old (W.told wire.new) self.new
            (IsInRound P.run.frame member)) }
        ensures script { W.rule wire.new ≡ W.rule wire.old }
        ensures since { W.loaded wire.new ≡ W.loaded wire.old }
    {
        rounds_law();
        let Some(rounds) = self.rounds.checked_add(1) else {
            return Err(NoMemory);
        };
        release(alloc, &mut self.held, &mut self.coming)?;
        self.run_out(alloc, machine, world, wire)?;
        self.ask(alloc, member, wire)?;
        self.run_out(alloc, machine, world, wire)?;
        self.rounds = rounds;
        Ok(())
    }

    // The follower asks a member for the next entry.
    fn ask<W: Wire>(&mut self, alloc: Global, member: u8, wire: &mut W) -> Result<(), NoMemory>
        ensures asked { OnOk result (HasSent self.old.number member (Seek self.old.follower.applied)
            (W.told wire.old) self.old (W.told wire.new) self.new) }
        ensures left { OnErr result (HasSentAtMost self.old.number member (Seek self.old.follower.applied)
            (W.told wire.old) self.old (W.told wire.new) self.new) }
        ensures script { W.rule wire.new ≡ W.rule wire.old }
        ensures since { W.loaded wire.new ≡ W.loaded wire.old }
    {
        let seek = JoinPacket::Seek {
            applied: self.follower.applied(),
        };
        let number = self.number;
        self.send(alloc, number, member, &seek, wire)
    }
}
