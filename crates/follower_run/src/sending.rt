//! A packet of a follower, or to it, is sent.

ghost use Rattle.std.specs.Prelude.{◌≡◌, ◌<◌, ◌≤◌, ◌-◌, ◌+◌, ◌*◌, ◌^◌, IfOk, OnErr, OnOk, length};
ghost use Rattle.group_join.specs.Sound.{IsSoundJoin};
ghost use Rattle.join_law.specs.Rounds.{kind_of};
ghost use Rattle.group_join.specs.Spelling.{join_spelling};
ghost use Rattle.follower_run.specs.Going.{HasSent, HasSentAtMost};
ghost use Rattle.follower_run.specs.Posts.{load, weight};

use crate::rounds::{FollowerRounds, post};
use group_join::{JoinPacket, write_join};
use group_packets::PacketKind;
use net_rules::Flight;
use orca_base::{Items, NoMemory};
use std::alloc::Global;
use wires::Wire;

impl FollowerRounds {
    /// A packet is sent: the wire is asked about it, and what isn't held back of it comes before what comes else. One of 2^32 - 1 bytes or
    /// more finds no memory.
    pub(crate) fn send<W: Wire>(
        &mut self,
        alloc: Global,
        from: u8,
        to: u8,
        packet: &JoinPacket,
        wire: &mut W,
    ) -> Result<(), NoMemory>
        requires { IsSoundJoin packet.now }
        ensures sent { OnOk result (HasSent from to packet.now (W.told wire.old) self.old (W.told wire.new) self.new) }
        ensures left { OnErr result (HasSentAtMost from to packet.now (W.told wire.old) self.old (W.told wire.new) self.new) }
        ensures load { OnOk result
            (load self.new.coming.items ≤ load self.old.coming.items + 2 * weight (join_spelling packet.now)) }
        ensures script { W.rule wire.new ≡ W.rule wire.old }
        ensures since { W.loaded wire.new ≡ W.loaded wire.old }
    {
        let bytes = write_join(alloc, packet)?;
        let length = told_length(bytes.as_slice())?;
        let twin = Items::new(Vec::from_slice(alloc, bytes.as_slice())?);
        let Some(number) = self.questions.checked_add(1) else {
            return Err(NoMemory);
        };
        wire.make_room(1)?;
        let fate = wire.fate(number, kind_of(packet), from, to, length);
        self.questions = number;
        let flight = Flight {
            number,
            copy: 0,
            from,
            to,
            ticks: 0,
            packet: Items::new(bytes),
        };
        post(&mut self.held, &mut self.coming, flight, twin, fate)
    }
}

// The number of these bytes, which a wire is told.
fn told_length(bytes: &[u8]) -> Result<u32, NoMemory>
    ensures { IfOk result (λ n. (n ≡ length bytes.now) × (n < 2 ^ 32 - 1)) }
{
    match u32::try_from(bytes.len()) {
        Ok(length) if length < u32::MAX => Ok(length),
        _ => Err(NoMemory),
    }
}

// As which kind a wire is told of a packet.
fn kind_of(packet: &JoinPacket) -> PacketKind
    ensures { result ≡ kind_of packet.now }
{
    match packet {
        JoinPacket::Seek { .. } => PacketKind::Status,
        JoinPacket::State { .. } => PacketKind::Result,
        JoinPacket::Next { .. } => PacketKind::Entry,
    }
}
