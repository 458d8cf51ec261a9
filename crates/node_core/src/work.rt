//! A member at work in an event: the node as far as the event went, and what it did so far.

ghost use Rattle.std.specs.Prelude.{◌≡◌, ◌++◌, ◌∷◌, [], IfOk, None, OnOk};
ghost use Rattle.world_rules.specs.Nodes.{changes};
ghost use Rattle.world_rules.specs.Played.{receives};
ghost use Rattle.node_core.specs.Events.{IsIdle, message_by};
ghost use Rattle.node_core.specs.Keeping.{KeepsTasks};
ghost use Rattle.node_core.specs.Pieces.{Becomes, CanReceive, MayBeHanded, Received, resident_at};

use crate::node::Node;
use book_law::Placed;
use group_member::{Letter, Sends};
use group_packets::Packet;
use history_buffer::Shared;
use node_parts::{Moved, OneRun, Resident};
use orca_base::{CallNo, NoMemory, ProcessNo};
use std::alloc::Global;
use value_core::{Action, Line, Message, Reply};

/// The node so far, and what it did so far.
#[derive(Drop)]
pub(crate) struct Work<P: OneRun> {
    pub(crate) node: Node<P>,
    pub(crate) moved: Moved,
}

impl<P: OneRun> Work<P> {
    // The node, which did nothing yet.
    pub(crate) fn of(alloc: Global, node: Node<P>) -> Work<P>
        ensures idle { IsIdle P.stood P.left node result }
        ensures same { result.node ≡ node }
    {
        Work {
            node,
            moved: Moved::nothing(alloc),
        }
    }

    // Packets of the group go out.
    pub(crate) fn post(&mut self, sends: Sends<Shared<Message>>) -> Result<(), NoMemory>
        ensures node { self.new.node ≡ self.old.node }
        ensures sends { OnOk result (self.new.moved.sends.items ≡ self.old.moved.sends.items ++ sends.items) }
        ensures others { self.new.moved ≡ record self.old.moved { sends = self.new.moved.sends } }
    {
        let mut sends = sends;
        self.moved.sends.append(&mut sends)?;
        Ok(())
    }

    // A packet goes to a member.
    pub(crate) fn send(&mut self, to: u8, packet: Packet<Shared<Message>>) -> Result<(), NoMemory>
        ensures node { self.new.node ≡ self.old.node }
        ensures sends { OnOk result (self.new.moved.sends.items ≡ self.old.moved.sends.items ++ record { to = to; packet = packet } ∷ []) }
        ensures others { self.new.moved ≡ record self.old.moved { sends = self.new.moved.sends } }
    {
        self.moved.sends.push(Letter { to, packet })?;
        Ok(())
    }

    // An operation was performed beside the list of entries.
    pub(crate) fn perform(&mut self, line: Line) -> Result<(), NoMemory>
        ensures node { self.new.node ≡ self.old.node }
        ensures aside { OnOk result (self.new.moved.aside.items
            ≡ self.old.moved.aside.items ++ record { place = self.old.node.copies.applied; line = line } ∷ []) }
        ensures others { self.new.moved ≡ record self.old.moved { aside = self.new.moved.aside } }
    {
        let place = self.node.copies.applied();
        self.moved.aside.push(Placed { place, line })?;
        Ok(())
    }

    // The process, where it began here, receives the reply to its line of this place, and computes on.
    pub(crate) fn receive(
        &mut self,
        alloc: Global,
        machine: &P,
        place: u64,
        process: u16,
        reply: &Reply,
    ) -> Result<(), NoMemory>
        requires { MayBeHanded P.stood P.left (P.fits_reply machine.now) process reply.now (resident_at self.old.node process) }
        ensures does { OnOk result (Becomes P.stood P.left self.old self.new (λ f m. changes (receives place reply.now) process)) }
        ensures tasks { OnOk result (KeepsTasks self.old.node self.new.node) }
    {
        let after = match self.node.resident(ProcessNo(process)) {
            Some(resident) => replied(alloc, machine, resident, place, reply)?,
            None => return Ok(()),
        };
        self.node.put(process, after)
    }
}

// The process with one reply more.
fn replied<P: OneRun>(
    alloc: Global,
    machine: &P,
    resident: &Resident<P::State>,
    place: u64,
    reply: &Reply,
) -> Result<Resident<P::State>, NoMemory>
    requires { CanReceive P.stood P.left (P.fits_reply machine.now) resident.now reply.now }
    ensures received { IfOk result (Received P.stood P.left place reply.now resident.now) }
    ensures out { IfOk result (λ after. after.out ≡ None) }
{
    let state = machine.copy(alloc, resident.state.value())?;
    let state = machine.reply(state, reply.copy(alloc)?);
    Resident::after_reply(alloc, resident, state, place)
}

// The message by which the action is submitted, or goes to an owner.
pub(crate) fn message_for(process: ProcessNo, call: CallNo, action: Action) -> Option<Message>
    ensures { result ≡ message_by process.0 call.0 action }
{
    match action {
        Action::Make { kind, object } => Some(Message {
            process,
            call,
            action: Action::Make { kind, object },
        }),
        Action::Call {
            kind,
            op,
            object,
            args,
        } => Some(Message {
            process,
            call,
            action: Action::Call {
                kind,
                op,
                object,
                args,
            },
        }),
        Action::Fork {
            process: text,
            args,
            place_on,
        } => Some(Message {
            process,
            call,
            action: Action::Fork {
                process: text,
                args,
                place_on,
            },
        }),
        Action::Ended | Action::Faulted { .. } => None,
    }
}
