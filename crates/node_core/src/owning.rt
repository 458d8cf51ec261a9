//! Calls on single objects: at the owner, and the Asks and Answers that bring them there and their replies back.

ghost use Rattle.std.specs.Prelude.{◌≡◌, map, IfOk, OnOk};
ghost use Rattle.world_rules.specs.Mail.Errand.{Answer, Ask};
ghost use Rattle.world_rules.specs.Owners.{arrives, hands, is_held as held_among, performs_call, takes, takes_answer, takes_ask, takes_call, takes_reached};
ghost use Rattle.world_rules.specs.Parts.{asks_again, asks_again_of};
ghost use Rattle.node_core.specs.Calls.{GoesFree, HasKept, IsFree, MayPerformCall, MayTakeNew, MayTakeNext, asked_at, asks_as, asks_call, call_given, given_at, gives_kept};
ghost use Rattle.node_core.specs.Keeping.{KeepsTasks};
ghost use Rattle.node_core.specs.Pieces.{Becomes, BecomesIn, MayBeHanded, resident_at};
ghost use Rattle.node_parts.specs.Shown.{on_errand};
ghost use Rattle.node_core.specs.Stands.{fitness_of};

use crate::places::put_at;
use crate::work::Work;
use group_packets::Packet;
use history_buffer::Shared;
use node_parts::{Errand, Given, OneRun, Stage};
use orca_base::{CallNo, NoMemory, ObjectId, ProcessNo};
use std::alloc::Global;
use std::mem;
use value_core::{Action, Line, Message, Reply};

impl<P: OneRun> Work<P> {
    // The Asks and Answers whose place is reached are taken, in order of arrival; the others wait on. An outside member takes none.
    pub(crate) fn take_reached(&mut self, alloc: Global, machine: &P) -> Result<(), NoMemory>
        requires { IsFree P.stood P.left P.run.frame (fitness_of (P.fits_state machine.now) (P.fits_args machine.now) (P.fits_text machine.now) (P.fits_reply machine.now)) self.old }
        ensures does { OnOk result (GoesFree P.stood P.left P.run.frame (fitness_of (P.fits_state machine.now) (P.fits_args machine.now) (P.fits_text machine.now) (P.fits_reply machine.now)) self.old self.new (λ m. takes_reached P.run.frame m)) }
        ensures tasks { OnOk result (KeepsTasks self.old.node self.new.node) }
    {
        if self.node.member.is_outside() {
            return Ok(());
        }
        let held = mem::replace(&mut self.node.held, Vec::new(alloc));
        'errands: for errand in held {
            if errand.place() <= self.node.copies.applied() {
                self.take(alloc, machine, errand)?;
            } else {
                self.node.held.push(errand)?;
            }
        }
        Ok(())
    }

    // One that comes waits, but for a repeat of one that waits. An outside member takes none.
    pub(crate) fn arrive(&mut self, errand: Errand) -> Result<(), NoMemory>
        ensures does { OnOk result (Becomes P.stood P.left self.old self.new (λ f m. arrives (on_errand errand))) }
        ensures tasks { OnOk result (KeepsTasks self.old.node self.new.node) }
    {
        if self.node.member.is_outside() || is_held(&errand, self.node.held.as_slice()) {
            return Ok(());
        }
        self.node.held.push(errand)?;
        Ok(())
    }

    // One is taken, whose place is reached.
    fn take(&mut self, alloc: Global, machine: &P, errand: Errand) -> Result<(), NoMemory>
        requires { MayTakeNext P.stood P.left P.run.frame (fitness_of (P.fits_state machine.now) (P.fits_args machine.now) (P.fits_text machine.now) (P.fits_reply machine.now)) (on_errand errand) self.old }
        ensures does { OnOk result (BecomesIn P.stood P.left P.run.frame self.old self.new (λ m. takes P.run.frame m (on_errand errand))) }
        ensures tasks { OnOk result (KeepsTasks self.old.node self.new.node) }
    {
        match errand {
            Errand::Ask { message, .. } => self.take_ask(alloc, machine, message.message()),
            Errand::Answer {
                place,
                process,
                call,
                reply,
            } => self.take_answer(alloc, machine, place, process, call, &reply),
        }
    }

    // An Ask: a call that was answered gets its Answer again, and an earlier one nothing.
    fn take_ask(&mut self, alloc: Global, machine: &P, message: &Message) -> Result<(), NoMemory>
        requires { MayTakeNext P.stood P.left P.run.frame (fitness_of (P.fits_state machine.now) (P.fits_args machine.now) (P.fits_text machine.now) (P.fits_reply machine.now)) (Ask 0 message.now) self.old }
        ensures does { OnOk result (BecomesIn P.stood P.left P.run.frame self.old self.new (λ m. takes_ask P.run.frame m message.now)) }
        ensures tasks { OnOk result (KeepsTasks self.old.node self.new.node) }
    {
        let Some(last) = self.last_given(message.process) else {
            return self.take_call(alloc, machine, message);
        };
        if last.0 < message.call.0 {
            return self.take_call(alloc, machine, message);
        }
        if last.0 == message.call.0 {
            return self.give_again(alloc, message.process);
        }
        Ok(())
    }

    // A call that wasn't answered: one that waits here is taken once.
    fn take_call(&mut self, alloc: Global, machine: &P, message: &Message) -> Result<(), NoMemory>
        requires { MayTakeNew P.stood P.left P.run.frame (fitness_of (P.fits_state machine.now) (P.fits_args machine.now) (P.fits_text machine.now) (P.fits_reply machine.now)) message.now self.old }
        ensures does { OnOk result (BecomesIn P.stood P.left P.run.frame self.old self.new (λ m. takes_call P.run.frame m message.now)) }
        ensures tasks { OnOk result (KeepsTasks self.old.node self.new.node) }
    {
        if self.node.copies.is_waiting(message.process) {
            return Ok(());
        }
        self.perform_call(alloc, machine, message)
    }

    // The last call of a process that was answered.
    fn last_given(&self, process: ProcessNo) -> Option<CallNo>
        ensures { result ≡ call_given (given_at self.now.node process.0) }
    {
        match self.node.answer_to(process) {
            Some(given) => Some(given.call),
            None => None,
        }
    }

    // The kept Answer goes out again.
    fn give_again(&mut self, alloc: Global, process: ProcessNo) -> Result<(), NoMemory>
        ensures does { OnOk result (Becomes P.stood P.left self.old self.new (λ f m v. gives_kept f m process (v.node.given process.0) v)) }
        ensures tasks { OnOk result (KeepsTasks self.old.node self.new.node) }
    {
        let incarnation = self.node.member.installed();
        let packet = match self.node.answer_to(process) {
            Some(given) => given.packet(alloc, incarnation, process)?,
            None => return Ok(()),
        };
        let home = self.node.home_of(process.0);
        self.send(home, packet)
    }

    // The owner tries a call, which is performed or joins the calls that wait on its object; these then settle.
    pub(crate) fn perform_call(
        &mut self,
        alloc: Global,
        machine: &P,
        message: &Message,
    ) -> Result<(), NoMemory>
        requires { MayPerformCall P.stood P.left P.run.frame (fitness_of (P.fits_state machine.now) (P.fits_args machine.now) (P.fits_text machine.now) (P.fits_reply machine.now)) message.now self.old }
        ensures does { OnOk result (BecomesIn P.stood P.left P.run.frame self.old self.new (λ m. performs_call P.run.frame m message.now)) }
        ensures tasks { OnOk result (KeepsTasks self.old.node self.new.node) }
    {
        let answered = self.node.copies.call_single(alloc, machine, message)?;
        'lines: for one in answered {
            self.hand(alloc, machine, one.line)?;
        }
        Ok(())
    }

    // A performed line stands beside the list, and its reply goes to its process here, or as an Answer to the member of its process.
    fn hand(&mut self, alloc: Global, machine: &P, line: Line) -> Result<(), NoMemory>
        requires { MayBeHanded P.stood P.left (P.fits_reply machine.now) line.process.0 line.reply (resident_at self.old.node line.process.0) }
        ensures does { OnOk result (Becomes P.stood P.left self.old self.new (λ f m. hands f m line)) }
        ensures tasks { OnOk result (KeepsTasks self.old.node self.new.node) }
    {
        let process = line.process;
        let call = line.call;
        let reply = line.reply.copy(alloc)?;
        let place = self.node.copies.applied();
        self.perform(line)?;
        let home = self.node.home_of(process.0);
        if home == self.node.me() {
            return self.receive(alloc, machine, place, process.0, &reply);
        }
        self.keep_given(process, Given { place, call, reply })?;
        self.give_again(alloc, process)
    }

    // An Answer is kept.
    fn keep_given(&mut self, process: ProcessNo, given: Given) -> Result<(), NoMemory>
        ensures { OnOk result (HasKept process.0 given self.old self.new) }
    {
        put_at(&mut self.node.given, process.0 as usize, given)
    }

    // An Answer is the reply to its process's next call, or it does nothing.
    fn take_answer(
        &mut self,
        alloc: Global,
        machine: &P,
        place: u64,
        process: ProcessNo,
        call: CallNo,
        reply: &Reply,
    ) -> Result<(), NoMemory>
        requires { MayTakeNext P.stood P.left P.run.frame (fitness_of (P.fits_state machine.now) (P.fits_args machine.now) (P.fits_text machine.now) (P.fits_reply machine.now)) (Answer 0 process call reply.now) self.old }
        ensures does { OnOk result (BecomesIn P.stood P.left P.run.frame self.old self.new (λ m. takes_answer place process call reply.now)) }
        ensures tasks { OnOk result (KeepsTasks self.old.node self.new.node) }
    {
        if !self.asks(process, call) {
            return Ok(());
        }
        self.receive(alloc, machine, place, process.0, reply)
    }

    // Whether the process asks this call of an owner.
    fn asks(&self, process: ProcessNo, call: CallNo) -> bool
        ensures { result ≡ asks_call (resident_at self.now.node process.0) call }
    {
        match self.node.resident(process) {
            Some(resident) => is_asking(resident.stage(), resident.next_call(), call),
            None => false,
        }
    }

    // The Asks of the processes that lack their Answers go out again, in order of process. An outside member sends none.
    pub(crate) fn ask_again(&mut self, alloc: Global) -> Result<(), NoMemory>
        ensures does { OnOk result (Becomes P.stood P.left self.old self.new (λ f m. asks_again f m)) }
        ensures tasks { OnOk result (KeepsTasks self.old.node self.new.node) }
    {
        if self.node.member.is_outside() {
            return Ok(());
        }
        'processes: for process in 0..self.node.copies.processes() {
            self.ask_of(alloc, ProcessNo(process))?;
        }
        Ok(())
    }

    // The Ask of a process that lacks its Answer goes to the owner, which is another member.
    pub(crate) fn ask_of(&mut self, alloc: Global, process: ProcessNo) -> Result<(), NoMemory>
        ensures does { OnOk result (Becomes P.stood P.left self.old self.new (λ f m v. asks_again_of f m process.0 (v.node.played process.0) v)) }
        ensures tasks { OnOk result (KeepsTasks self.old.node self.new.node) }
    {
        let Some((place, object, message)) = self.asked(alloc, process)? else {
            return Ok(());
        };
        let owner = self.node.home_of(object.process);
        if owner == self.node.me() {
            return Ok(());
        }
        let incarnation = self.node.member.installed();
        let message = Shared::new(alloc, message)?;
        self.send(
            owner,
            Packet::Ask {
                incarnation,
                place,
                message,
            },
        )
    }

    // The call that a process asks of an owner: the process's place, the object, and the call.
    fn asked(
        &self,
        alloc: Global,
        process: ProcessNo,
    ) -> Result<Option<(u64, ObjectId, Message)>, NoMemory>
        ensures { IfOk result (λ asked. asked ≡ asked_at process.0 (resident_at self.now.node process.0)) }
    {
        let Some(resident) = self.node.resident(process) else {
            return Ok(None);
        };
        let Stage::Asking { action } = resident.stage() else {
            return Ok(None);
        };
        let Action::Call {
            kind,
            op,
            object,
            args,
        } = action
        else {
            return Ok(None);
        };
        let message = Message {
            process,
            call: resident.next_call(),
            action: Action::Call {
                kind: *kind,
                op: *op,
                object: *object,
                args: args.copy(alloc)?,
            },
        };
        Ok(Some((resident.place(), *object, message)))
    }
}

// Whether a process at this stage asks this call of an owner, as its next one.
fn is_asking(stage: &Stage, next: CallNo, call: CallNo) -> bool
    ensures { result ≡ asks_as stage.now next.0 call }
{
    match stage {
        Stage::Asking { .. } => next.0 == call.0,
        _ => false,
    }
}

// Whether one of these is of the same call.
fn is_held(errand: &Errand, held: &[Errand]) -> bool
    ensures { result ≡ held_among (on_errand errand.now) (map on_errand held.now) }
{
    'errands: for other in held {
        if errand.is_same(other) {
            return true;
        }
    }
    false
}
