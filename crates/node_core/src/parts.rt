//! One member's part of each event.

ghost use Rattle.std.specs.Prelude.{◌≡◌, ◌<◌, ◌^◌, IfOk, List, OnOk, Some};
ghost use Rattle.group_rules.specs.Steps.{timer};
ghost use Rattle.group_member.specs.AtWork.{Does as MemberDoes};
ghost use Rattle.group_member.specs.StandsFor.{IsMember};
ghost use Rattle.group_reset.specs.Calls.{IsSome};
ghost use Rattle.world_rules.specs.Frame.{Frame, bytes_of, name_of};
ghost use Rattle.world_rules.specs.Parts.{catches_up};
ghost use Rattle.world_rules.specs.Processes.{Begun, singles_of};
ghost use Rattle.node_rules.specs.Starts.Start.{Acts, Suspects, Ticks};
ghost use Rattle.node_core.specs.Calls.{Asks, GoesFree, HasGathered, IsFree, MayAsk, MayReadFirst, ReadsFirst};
ghost use Rattle.node_core.specs.Entries.{KnowsAs};
ghost use Rattle.node_core.specs.Events.{HasCome, HasDelivered, HasDone, HasStarted, HasSubmitted, MayBeTaken, MayComeFrom, MayStart, TakesGrouped, acting_at, called_single, is_read_by};
ghost use Rattle.node_core.specs.Keeping.{KeepsTasks};
ghost use Rattle.node_core.specs.Pieces.{resident_at};
ghost use Rattle.node_core.specs.Stands.{Does, MayDo, MayTakePacket, TakesPacket, fitness_of};

use crate::node::Node;
use crate::work::{Work, message_for};
use group_member::{Member, Sends, Timed};
use group_packets::Packet;
use group_reset::{announced, coordinate, invited, joined};
use history_buffer::Shared;
use node_parts::{Errand, Moved, OneRun, Stage};
use orca_base::{NoMemory, ObjectId, ProcessNo};
use std::alloc::Global;
use value_core::{Action, Class, Message};

impl<P: OneRun> Node<P> {
    /// The action at which a process is, is carried out: a make, a fork or a call of a replicated object that may change it is submitted
    /// to the group, a read of one is performed or waits, and a call on a single object is performed or waits at its owner, to which
    /// it goes as an Ask. Then the member applies what is accepted, and takes the Asks and Answers whose place it has reached.
    ///
    /// Where memory runs out the node is let go: whoever wants it as it was keeps a copy.
    pub fn act(
        self,
        alloc: Global,
        machine: &P,
        process: ProcessNo,
    ) -> Result<(Node<P>, Moved), NoMemory>
        requires { MayDo P.stood P.left P.run.frame (fitness_of (P.fits_state machine.now) (P.fits_args machine.now) (P.fits_text machine.now) (P.fits_reply machine.now)) self (Acts process.0) }
        ensures does { IfOk result (λ r. Does P.stood P.left P.run.frame (fitness_of (P.fits_state machine.now) (P.fits_args machine.now) (P.fits_text machine.now) (P.fits_reply machine.now)) self r.0 r.1 (Acts process.0)) }
        ensures tasks { IfOk result (λ r. KeepsTasks self r.0) }
    {
        let mut work = Work::of(alloc, self);
        work.act(alloc, machine, process)?;
        Ok((work.node, work.moved))
    }

    /// A packet came from this member. Then the member applies what is accepted, and takes the Asks and Answers whose place it has reached.
    ///
    /// Where memory runs out the node is let go: whoever wants it as it was keeps a copy.
    pub fn deliver(
        self,
        alloc: Global,
        machine: &P,
        from: u8,
        packet: Packet<Shared<Message>>,
    ) -> Result<(Node<P>, Moved), NoMemory>
        requires { MayTakePacket P.stood P.left P.run.frame (fitness_of (P.fits_state machine.now) (P.fits_args machine.now) (P.fits_text machine.now) (P.fits_reply machine.now)) from packet self }
        ensures does { IfOk result (λ r. TakesPacket P.stood P.left P.run.frame (fitness_of (P.fits_state machine.now) (P.fits_args machine.now) (P.fits_text machine.now) (P.fits_reply machine.now)) from packet self r.0 r.1) }
        ensures tasks { IfOk result (λ r. KeepsTasks self r.0) }
    {
        let mut work = Work::of(alloc, self);
        work.deliver(alloc, machine, from, packet)?;
        Ok((work.node, work.moved))
    }

    /// Time passes: its timer runs, and it asks again for the Answers that it lacks. Then the member applies what is accepted, and takes
    /// the Asks and Answers whose place it has reached.
    ///
    /// Where memory runs out the node is let go: whoever wants it as it was keeps a copy.
    pub fn tick(self, alloc: Global, machine: &P) -> Result<(Node<P>, Moved), NoMemory>
        requires { MayDo P.stood P.left P.run.frame (fitness_of (P.fits_state machine.now) (P.fits_args machine.now) (P.fits_text machine.now) (P.fits_reply machine.now)) self Ticks }
        ensures does { IfOk result (λ r. Does P.stood P.left P.run.frame (fitness_of (P.fits_state machine.now) (P.fits_args machine.now) (P.fits_text machine.now) (P.fits_reply machine.now)) self r.0 r.1 Ticks) }
        ensures tasks { IfOk result (λ r. KeepsTasks self r.0) }
    {
        let mut work = Work::of(alloc, self);
        work.tick(alloc, machine)?;
        Ok((work.node, work.moved))
    }

    /// It suspects its sequencer, and coordinates a reset. Then the member applies what is accepted, and takes the Asks and Answers whose
    /// place it has reached.
    ///
    /// Where memory runs out the node is let go: whoever wants it as it was keeps a copy.
    pub fn suspect(self, alloc: Global, machine: &P) -> Result<(Node<P>, Moved), NoMemory>
        requires { MayDo P.stood P.left P.run.frame (fitness_of (P.fits_state machine.now) (P.fits_args machine.now) (P.fits_text machine.now) (P.fits_reply machine.now)) self Suspects }
        ensures does { IfOk result (λ r. Does P.stood P.left P.run.frame (fitness_of (P.fits_state machine.now) (P.fits_args machine.now) (P.fits_text machine.now) (P.fits_reply machine.now)) self r.0 r.1 Suspects) }
        ensures tasks { IfOk result (λ r. KeepsTasks self r.0) }
    {
        let mut work = Work::of(alloc, self);
        work.suspect(alloc, machine)?;
        Ok((work.node, work.moved))
    }
}

impl<P: OneRun> Work<P> {
    // The action at which the process is, is carried out, and it catches up.
    fn act(&mut self, alloc: Global, machine: &P, process: ProcessNo) -> Result<(), NoMemory>
        requires { MayStart P.stood P.left P.run.frame (fitness_of (P.fits_state machine.now) (P.fits_args machine.now) (P.fits_text machine.now) (P.fits_reply machine.now)) (Acts process.0) self.old }
        ensures does { OnOk result (HasDone P.stood P.left P.run.frame (fitness_of (P.fits_state machine.now) (P.fits_args machine.now) (P.fits_text machine.now) (P.fits_reply machine.now)) (Acts process.0) self.old self.new) }
        ensures tasks { OnOk result (KeepsTasks self.old.node self.new.node) }
    {
        self.carry_out(alloc, machine, process)?;
        self.catch_up(alloc, machine)
    }

    // A packet is taken, and it catches up.
    fn deliver(
        &mut self,
        alloc: Global,
        machine: &P,
        from: u8,
        packet: Packet<Shared<Message>>,
    ) -> Result<(), NoMemory>
        requires { MayComeFrom P.stood P.left P.run.frame (fitness_of (P.fits_state machine.now) (P.fits_args machine.now) (P.fits_text machine.now) (P.fits_reply machine.now)) from packet self.old }
        ensures does { OnOk result (HasDelivered P.stood P.left P.run.frame (fitness_of (P.fits_state machine.now) (P.fits_args machine.now) (P.fits_text machine.now) (P.fits_reply machine.now)) from packet self.old self.new) }
        ensures tasks { OnOk result (KeepsTasks self.old.node self.new.node) }
    {
        self.take_packet(alloc, machine, from, packet)?;
        self.catch_up(alloc, machine)
    }

    // Its timer runs, it asks again for the Answers that it lacks, and it catches up.
    fn tick(&mut self, alloc: Global, machine: &P) -> Result<(), NoMemory>
        requires { MayStart P.stood P.left P.run.frame (fitness_of (P.fits_state machine.now) (P.fits_args machine.now) (P.fits_text machine.now) (P.fits_reply machine.now)) Ticks self.old }
        ensures does { OnOk result (HasDone P.stood P.left P.run.frame (fitness_of (P.fits_state machine.now) (P.fits_args machine.now) (P.fits_text machine.now) (P.fits_reply machine.now)) Ticks self.old self.new) }
        ensures tasks { OnOk result (KeepsTasks self.old.node self.new.node) }
    {
        self.time(alloc, machine)?;
        self.ask_again(alloc)?;
        self.catch_up(alloc, machine)
    }

    // It coordinates a reset, and catches up.
    fn suspect(&mut self, alloc: Global, machine: &P) -> Result<(), NoMemory>
        requires { MayStart P.stood P.left P.run.frame (fitness_of (P.fits_state machine.now) (P.fits_args machine.now) (P.fits_text machine.now) (P.fits_reply machine.now)) Suspects self.old }
        ensures does { OnOk result (HasDone P.stood P.left P.run.frame (fitness_of (P.fits_state machine.now) (P.fits_args machine.now) (P.fits_text machine.now) (P.fits_reply machine.now)) Suspects self.old self.new) }
        ensures tasks { OnOk result (KeepsTasks self.old.node self.new.node) }
    {
        self.reset(alloc, machine)?;
        self.catch_up(alloc, machine)
    }

    // It applies its entries, and then takes the Asks and Answers whose place it has reached.
    fn catch_up(&mut self, alloc: Global, machine: &P) -> Result<(), NoMemory>
        requires { IsFree P.stood P.left P.run.frame (fitness_of (P.fits_state machine.now) (P.fits_args machine.now) (P.fits_text machine.now) (P.fits_reply machine.now)) self.old }
        ensures does { OnOk result (GoesFree P.stood P.left P.run.frame (fitness_of (P.fits_state machine.now) (P.fits_args machine.now) (P.fits_text machine.now) (P.fits_reply machine.now)) self.old self.new (catches_up P.run.frame)) }
        ensures gathered { OnOk result (HasGathered P.stood P.left P.run.frame (fitness_of (P.fits_state machine.now) (P.fits_args machine.now) (P.fits_text machine.now) (P.fits_reply machine.now)) self.old self.new.moved.messages.items (catches_up P.run.frame)) }
        ensures tasks { OnOk result (KeepsTasks self.old.node self.new.node) }
    {
        let mut messages = Vec::new(alloc);
        self.apply_all(alloc, machine, &mut messages)?;
        self.take_reached(alloc, machine)?;
        self.moved.messages = messages;
        Ok(())
    }

    // The action of a process that wasn't carried out, is.
    fn carry_out(&mut self, alloc: Global, machine: &P, process: ProcessNo) -> Result<(), NoMemory>
        requires { MayStart P.stood P.left P.run.frame (fitness_of (P.fits_state machine.now) (P.fits_args machine.now) (P.fits_text machine.now) (P.fits_reply machine.now)) (Acts process.0) self.old }
        ensures does { OnOk result (HasStarted P.stood P.left P.run.frame (fitness_of (P.fits_state machine.now) (P.fits_args machine.now) (P.fits_text machine.now) (P.fits_reply machine.now)) (Acts process.0) self.old self.new) }
        ensures tasks { OnOk result (KeepsTasks self.old.node self.new.node) }
    {
        let Some(message) = self.acting(alloc, process)? else {
            return Ok(());
        };
        if let Some(object) = self.single_called(&message.action) {
            return self.ask(alloc, machine, process, object, message);
        }
        if is_read(machine, &message.action) {
            return self.read(alloc, machine, process, message.action);
        }
        self.submit(alloc, process, message)
    }

    // The message of a process whose action wasn't carried out.
    fn acting(&self, alloc: Global, process: ProcessNo) -> Result<Option<Message>, NoMemory>
        ensures { IfOk result (λ message. message ≡ acting_at process.0 (resident_at self.now.node process.0)) }
    {
        let Some(resident) = self.node.resident(process) else {
            return Ok(None);
        };
        let Stage::Acting { action } = resident.stage() else {
            return Ok(None);
        };
        let action = action.copy(alloc)?;
        Ok(message_for(process, resident.next_call(), action))
    }

    // The single object that the action calls, as far as its maker is known.
    fn single_called(&self, action: &Action) -> Option<ObjectId>
        ensures { (f : Frame) (processes : List Begun) → KnowsAs f processes self.now.node → result ≡ called_single (singles_of f processes) action.now }
    {
        match action {
            Action::Call { object, .. } if self.node.is_single(*object) => Some(*object),
            _ => None,
        }
    }

    // A make, a fork or a call of a replicated object goes to the group.
    fn submit(
        &mut self,
        alloc: Global,
        process: ProcessNo,
        message: Message,
    ) -> Result<(), NoMemory>
        requires member { IsMember self.old.node.member }
        requires acting { acting_at process.0 (resident_at self.old.node process.0) ≡ Some message }
        ensures does { OnOk result (HasSubmitted P.stood P.left P.run.frame process.0 message self.old self.new) }
        ensures tasks { OnOk result (KeepsTasks self.old.node self.new.node) }
    {
        let action = message.action.copy(alloc)?;
        self.node.move_to(process.0, Stage::Submitted { action })?;
        let message = Shared::new(alloc, message)?;
        let sends = self.node.member.submit(alloc, message)?;
        self.post(sends)
    }

    // A read of a replicated object is performed here, or waits.
    fn read(
        &mut self,
        alloc: Global,
        machine: &P,
        process: ProcessNo,
        action: Action,
    ) -> Result<(), NoMemory>
        requires { MayReadFirst P.stood P.left P.run.frame (fitness_of (P.fits_state machine.now) (P.fits_args machine.now) (P.fits_text machine.now) (P.fits_reply machine.now)) process.0 action self.old }
        ensures does { OnOk result (ReadsFirst P.stood P.left P.run.frame process.0 action self.old self.new) }
        ensures tasks { OnOk result (KeepsTasks self.old.node self.new.node) }
    {
        self.node.move_to(process.0, Stage::Reading { action })?;
        self.try_read(alloc, machine, process.0)
    }

    // A call on a single object is performed or waits at its owner, to which it goes as an Ask.
    fn ask(
        &mut self,
        alloc: Global,
        machine: &P,
        process: ProcessNo,
        object: ObjectId,
        message: Message,
    ) -> Result<(), NoMemory>
        requires { MayAsk P.stood P.left P.run.frame (fitness_of (P.fits_state machine.now) (P.fits_args machine.now) (P.fits_text machine.now) (P.fits_reply machine.now)) process.0 object message self.old }
        ensures does { OnOk result (Asks P.stood P.left P.run.frame process.0 object message self.old self.new) }
        ensures tasks { OnOk result (KeepsTasks self.old.node self.new.node) }
    {
        let action = message.action.copy(alloc)?;
        self.node.move_to(process.0, Stage::Asking { action })?;
        let owner = self.node.home_of(object.process);
        if owner == self.node.me() {
            return self.perform_call(alloc, machine, &message);
        }
        self.ask_of(alloc, process)
    }

    // A packet is taken: the group's by the member, Asks and Answers by the node.
    fn take_packet(
        &mut self,
        alloc: Global,
        machine: &P,
        from: u8,
        packet: Packet<Shared<Message>>,
    ) -> Result<(), NoMemory>
        requires { MayComeFrom P.stood P.left P.run.frame (fitness_of (P.fits_state machine.now) (P.fits_args machine.now) (P.fits_text machine.now) (P.fits_reply machine.now)) from packet self.old }
        ensures does { OnOk result (HasCome P.stood P.left P.run.frame (fitness_of (P.fits_state machine.now) (P.fits_args machine.now) (P.fits_text machine.now) (P.fits_reply machine.now)) from packet self.old self.new) }
        ensures tasks { OnOk result (KeepsTasks self.old.node self.new.node) }
    {
        match packet {
            Packet::Ask { place, message, .. } => self.arrive(Errand::Ask { place, message }),
            Packet::Answer {
                place,
                process,
                call,
                reply,
                ..
            } => self.arrive(Errand::Answer {
                place,
                process,
                call,
                reply,
            }),
            packet => {
                let sends = grouped(&mut self.node.member, alloc, from, packet)?;
                self.post(sends)
            },
        }
    }

    // Its timer runs; where it is due, it coordinates.
    fn time(&mut self, alloc: Global, machine: &P) -> Result<(), NoMemory>
        requires { MayStart P.stood P.left P.run.frame (fitness_of (P.fits_state machine.now) (P.fits_args machine.now) (P.fits_text machine.now) (P.fits_reply machine.now)) Ticks self.old }
        ensures does { OnOk result (HasStarted P.stood P.left P.run.frame (fitness_of (P.fits_state machine.now) (P.fits_args machine.now) (P.fits_text machine.now) (P.fits_reply machine.now)) Ticks self.old self.new) }
        ensures tasks { OnOk result (KeepsTasks self.old.node self.new.node) }
    {
        let sends = timed(&mut self.node.member, alloc)?;
        self.post(sends)
    }

    // It coordinates a reset.
    fn reset(&mut self, alloc: Global, machine: &P) -> Result<(), NoMemory>
        requires { MayStart P.stood P.left P.run.frame (fitness_of (P.fits_state machine.now) (P.fits_args machine.now) (P.fits_text machine.now) (P.fits_reply machine.now)) Suspects self.old }
        ensures does { OnOk result (HasStarted P.stood P.left P.run.frame (fitness_of (P.fits_state machine.now) (P.fits_args machine.now) (P.fits_text machine.now) (P.fits_reply machine.now)) Suspects self.old self.new) }
        ensures tasks { OnOk result (KeepsTasks self.old.node self.new.node) }
    {
        let sends = coordinate(&mut self.node.member, alloc)?;
        self.post(sends)
    }
}

// A packet of the group is taken by its member.
fn grouped(
    member: &mut Member<Shared<Message>>,
    alloc: Global,
    from: u8,
    packet: Packet<Shared<Message>>,
) -> Result<Sends<Shared<Message>>, NoMemory>
    requires { MayBeTaken from packet member.old }
    ensures { IfOk result (λ sends. TakesGrouped from packet member.old member.new sends.items) }
{
    match packet {
        Packet::Invite { incarnation } => invited(member, alloc, from, incarnation),
        Packet::Join { join } => Ok(joined(member, alloc, from, join)?.1),
        Packet::Result { news } => announced(member, alloc, from, news),
        packet => member.receive(alloc, from, packet),
    }
}

// The member's timer runs; where it is due, it coordinates.
fn timed(
    member: &mut Member<Shared<Message>>,
    alloc: Global,
) -> Result<Sends<Shared<Message>>, NoMemory>
    requires stands { IsSome name_of bytes_of member.old }
    requires small { member.old.promised < 2 ^ 62 }
    ensures { IfOk result (λ sends. MemberDoes name_of bytes_of member.old member.new sends.items timer) }
{
    match member.timer(alloc)? {
        Timed::Due => coordinate(member, alloc),
        Timed::Sent { sends } => Ok(sends),
    }
}

// Whether the action is a call that changes nothing.
fn is_read<P: OneRun>(machine: &P, action: &Action) -> bool
    ensures { result ≡ is_read_by (P.performs machine.now) action.now }
{
    match action {
        Action::Call { kind, op, .. } => machine.class(*kind, *op) == Class::Reads,
        _ => false,
    }
}
