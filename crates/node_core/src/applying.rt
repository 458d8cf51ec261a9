//! How a member applies its accepted entries, and tries the reads that wait here.

ghost use Rattle.std.specs.Prelude.{◌≡◌, ◌<◌, ◌≤◌, ◌++◌, IfErr, IfOk, List, OnErr, OnOk, map};
ghost use Rattle.value_core.specs.Fits.{Kinds};
ghost use Rattle.value_core.specs.declared.message.Message.{Message};
ghost use Rattle.guard_queue.specs.Settles.{lines_of};
ghost use Rattle.object_manager.specs.Limits.{IfLimit, too_many};
ghost use Rattle.world_rules.specs.Applying.{answers, applies, applies_all, notes, tries_read, tries_reads};
ghost use Rattle.world_rules.specs.Bursts.{read_on};
ghost use Rattle.world_rules.specs.Nodes.{does, plays};
ghost use Rattle.world_rules.specs.Nodes.Deed.{Applies};
ghost use Rattle.world_rules.specs.Processes.{Begun, home_in, member_named};
ghost use Rattle.node_rules.specs.Entries.{MayTakeEntry};
ghost use Rattle.node_core.specs.Entries.{AppliesNext, Begins, Gathers, HasTaken, IsBorn, MayAnswerHere, MayBegin, Took, listed, newborn_at};
ghost use Rattle.node_core.specs.Keeping.{KeepsBelow, KeepsTasks};
ghost use Rattle.node_core.specs.Pieces.{Becomes, BecomesIn, GoesOn, IsNext, IsSomewhere, MayRead, MayReadAt, MayTryRead, line_read, resident_at};
ghost use Rattle.node_core.specs.Stands.{fitness_of, on_known};

use crate::node::Known;
use crate::work::Work;
use guard_queue::Answered;
use history_buffer::{Shared, Slot};
use node_parts::{OneRun, Resident, Stage};
use object_manager::ApplyError;
use orca_base::{Body, Items, NoMemory, ProcessNo, TextNo};
use std::alloc::Global;
use value_core::{Action, Class, Line, Message, Parts, Reply, Tried};

impl<P: OneRun> Work<P> {
    // It applies its entries up to the accepted number and notes them, as long as that note lets more be accepted. They join the messages.
    pub(crate) fn apply_all(
        &mut self,
        alloc: Global,
        machine: &P,
        messages: &mut Vec<Shared<Message>>,
    ) -> Result<(), NoMemory>
        requires { IsSomewhere P.stood P.left P.run.frame (fitness_of (P.fits_state machine.now) (P.fits_args machine.now) (P.fits_text machine.now) (P.fits_reply machine.now)) self.old }
        ensures does { OnOk result (GoesOn P.stood P.left P.run.frame (fitness_of (P.fits_state machine.now) (P.fits_args machine.now) (P.fits_text machine.now) (P.fits_reply machine.now)) self.old self.new (applies_all P.run.frame)) }
        ensures gathers { OnOk result (Gathers P.stood P.left P.run.frame (fitness_of (P.fits_state machine.now) (P.fits_args machine.now) (P.fits_text machine.now) (P.fits_reply machine.now)) self.old messages.old.items messages.new.items (applies_all P.run.frame)) }
        ensures tasks { OnOk result (KeepsTasks self.old.node self.new.node) }
    {
        self.apply_due(alloc, machine, messages)?;
        'rounds: while self.node.member.applied() < self.node.copies.applied() {
            self.note(alloc, machine)?;
            self.apply_due(alloc, machine, messages)?;
        }
        Ok(())
    }

    // It applies its entries up to the accepted number, but none from the first one on that passes a limit. They join the messages.
    fn apply_due(
        &mut self,
        alloc: Global,
        machine: &P,
        messages: &mut Vec<Shared<Message>>,
    ) -> Result<(), NoMemory>
        requires { IsSomewhere P.stood P.left P.run.frame (fitness_of (P.fits_state machine.now) (P.fits_args machine.now) (P.fits_text machine.now) (P.fits_reply machine.now)) self.old }
        ensures does { OnOk result (GoesOn P.stood P.left P.run.frame (fitness_of (P.fits_state machine.now) (P.fits_args machine.now) (P.fits_text machine.now) (P.fits_reply machine.now)) self.old self.new (applies P.run.frame)) }
        ensures gathers { OnOk result (Gathers P.stood P.left P.run.frame (fitness_of (P.fits_state machine.now) (P.fits_args machine.now) (P.fits_text machine.now) (P.fits_reply machine.now)) self.old messages.old.items messages.new.items (applies P.run.frame)) }
        ensures tasks { OnOk result (KeepsTasks self.old.node self.new.node) }
    {
        'entries: while self.node.copies.applied() < self.node.member.accepted() {
            let Some(message) = self.apply_next(alloc, machine)? else {
                return Ok(());
            };
            messages.push(message)?;
        }
        Ok(())
    }

    // Its group is told how many entries it applied.
    fn note(&mut self, alloc: Global, machine: &P) -> Result<(), NoMemory>
        requires { IsSomewhere P.stood P.left P.run.frame (fitness_of (P.fits_state machine.now) (P.fits_args machine.now) (P.fits_text machine.now) (P.fits_reply machine.now)) self.old }
        ensures goes { OnOk result (GoesOn P.stood P.left P.run.frame (fitness_of (P.fits_state machine.now) (P.fits_args machine.now) (P.fits_text machine.now) (P.fits_reply machine.now)) self.old self.new (notes P.run.frame)) }
        ensures noted { OnOk result (self.old.node.copies.applied ≤ self.new.node.member.applied) }
        ensures tasks { OnOk result (KeepsTasks self.old.node self.new.node) }
    {
        let applied = self.node.copies.applied();
        if applied <= self.node.member.applied() {
            return Ok(());
        }
        let sends = self.node.member.note_applied(alloc, applied)?;
        self.post(sends)
    }

    // It applies the next entry, which is this one, unless that passes a limit.
    fn apply_next(
        &mut self,
        alloc: Global,
        machine: &P,
    ) -> Result<Option<Shared<Message>>, NoMemory>
        requires somewhere { IsSomewhere P.stood P.left P.run.frame (fitness_of (P.fits_state machine.now) (P.fits_args machine.now) (P.fits_text machine.now) (P.fits_reply machine.now)) self.old }
        requires due { self.old.node.copies.applied < self.old.node.member.accepted }
        ensures does { IfOk result (AppliesNext P.stood P.left P.run.frame (fitness_of (P.fits_state machine.now) (P.fits_args machine.now) (P.fits_text machine.now) (P.fits_reply machine.now)) self.old self.new) }
        ensures tasks { OnOk result (KeepsTasks self.old.node self.new.node) }
    {
        let message = self.next_entry(alloc)?;
        let number = self.node.copies.processes();
        let born = self.born_of(message.message());
        let Some(lines) = self.take_entry(alloc, machine, message.message())? else {
            return Ok(None);
        };
        self.learn(born)?;
        self.answer(alloc, machine, lines)?;
        self.begin(alloc, machine, number, born, &message.message().action)?;
        self.try_reads(alloc, machine)?;
        Ok(Some(message))
    }

    // The next entry, which is shared.
    fn next_entry(&self, alloc: Global) -> Result<Shared<Message>, NoMemory>
        requires { (x : Message) × IsNext self.now.node x }
        ensures { IfOk result (λ x. IsNext self.now.node x) }
    {
        match self.node.member.entry(self.node.copies.applied() + 1) {
            Slot::Found { item } => item.copy(alloc),
            _ => unreachable!(),
        }
    }

    // The copies take the entry: its lines, unless it passes a limit.
    fn take_entry(
        &mut self,
        alloc: Global,
        machine: &P,
        message: &Message,
    ) -> Result<Option<Vec<Answered>>, NoMemory>
        requires { MayTakeEntry (P.performs machine.now) (P.fits_state machine.now) (P.fits_args machine.now) self.old.node.copies message.now.action }
        ensures node { self.new.node ≡ record self.old.node { copies = self.new.node.copies } }
        ensures moved { self.new.moved ≡ self.old.moved }
        ensures taken { IfOk result (HasTaken (P.performs machine.now) self.old.node self.new.node message.now) }
    {
        match self.take_into_copies(alloc, machine, message) {
            Ok(lines) => Ok(Some(lines)),
            Err(ApplyError::Limit { .. }) => Ok(None),
            Err(ApplyError::NoMemory) => Err(NoMemory),
        }
    }

    // The copies take the entry, or say why not. A single object is kept where its maker is a process of this member.
    fn take_into_copies(
        &mut self,
        alloc: Global,
        machine: &P,
        message: &Message,
    ) -> Result<Vec<Answered>, ApplyError>
        requires { MayTakeEntry (P.performs machine.now) (P.fits_state machine.now) (P.fits_args machine.now) self.old.node.copies message.now.action }
        ensures node { self.new.node ≡ record self.old.node { copies = self.new.node.copies } }
        ensures moved { self.new.moved ≡ self.old.moved }
        ensures took { IfOk result (λ lines. Took (P.performs machine.now) self.old.node self.new.node message.now lines.items) }
        ensures limit { IfErr result (λ e. IfLimit e (too_many (P.performs machine.now) self.old.node.copies message.now.action)) }
        ensures err { OnErr result (self.new.node.copies ≡ self.old.node.copies) }
    {
        if self.node.is_passed(&message.action) {
            let keeps = self.node.home_of(message.process.0) == self.node.me();
            self.node.copies.pass_make(alloc, machine, message, keeps)
        } else {
            self.node.copies.apply(alloc, machine, message)
        }
    }

    // The process that the entry forks, as it is to be known.
    fn born_of(&self, message: &Message) -> Option<Known>
        requires { 0 < self.now.node.member.config.nodes }
        ensures { IsBorn self.now.node message.now (listed result) }
    {
        let Action::Fork {
            process,
            place_on,
            ..
        } = &message.action
        else {
            return None;
        };
        Some(Known {
            text: *process,
            home: self.home_named(message.process, *place_on),
        })
    }

    // The member that a fork names: its number modulo that of members; else it is the parent's.
    fn home_named(&self, parent: ProcessNo, place_on: Option<i64>) -> u8
        requires { 0 < self.now.node.member.config.nodes }
        ensures { (processes : List Begun) → self.now.node.known.items ≡ map on_known processes → result ≡ member_named self.now.node.member.config.nodes (home_in processes parent.0) place_on }
    {
        match place_on {
            None => self.node.home_of(parent.0),
            Some(number) => number.rem_euclid(self.node.member.config().nodes as i64) as u8,
        }
    }

    // The process is known from now on, if there is one.
    fn learn(&mut self, born: Option<Known>) -> Result<(), NoMemory>
        ensures node { self.new.node ≡ record self.old.node { known = self.new.node.known } }
        ensures known { OnOk result (self.new.node.known.items ≡ self.old.node.known.items ++ listed born) }
        ensures moved { self.new.moved ≡ self.old.moved }
    {
        if let Some(known) = born {
            self.node.known.push(known)?;
        }
        Ok(())
    }

    // The lines of the entry that was applied answer the processes here, and are told.
    fn answer(
        &mut self,
        alloc: Global,
        machine: &P,
        answered: Vec<Answered>,
    ) -> Result<(), NoMemory>
        requires { MayAnswerHere P.stood P.left P.run.frame (P.fits_reply machine.now) (lines_of answered.items) self.old }
        ensures does { OnOk result (BecomesIn P.stood P.left P.run.frame self.old self.new (λ m v. answers self.old.node.copies.applied (lines_of answered.items) (does (Applies (lines_of answered.items)) v))) }
        ensures tasks { OnOk result (KeepsTasks self.old.node self.new.node) }
    {
        let lines = plain_lines(alloc, answered)?;
        self.hand_out(alloc, machine, lines.as_slice())?;
        self.moved.entries.push(Items::new(lines))?;
        Ok(())
    }

    // The replies of these lines go to the processes here.
    fn hand_out(&mut self, alloc: Global, machine: &P, lines: &[Line]) -> Result<(), NoMemory>
        requires { MayAnswerHere P.stood P.left P.run.frame (P.fits_reply machine.now) lines.now self.old }
        ensures does { OnOk result (BecomesIn P.stood P.left P.run.frame self.old self.new (λ m. answers self.old.node.copies.applied lines.now)) }
        ensures tasks { OnOk result (KeepsTasks self.old.node self.new.node) }
    {
        let place = self.node.copies.applied();
        'lines: for line in lines {
            self.receive(alloc, machine, place, line.process.0, &line.reply)?;
        }
        Ok(())
    }

    // The process that the entry forks begins, where it is this member's.
    fn begin(
        &mut self,
        alloc: Global,
        machine: &P,
        number: u16,
        born: Option<Known>,
        action: &Action,
    ) -> Result<(), NoMemory>
        requires { MayBegin (P.fits_text machine.now) self.old.node.member.me action.now (listed born) }
        ensures does { OnOk result (Begins P.stood P.left P.run.frame number (listed born) action.now self.old self.new) }
        ensures tasks { OnOk result (KeepsBelow number self.old.node self.new.node) }
    {
        let Action::Fork { args, .. } = action else {
            return Ok(());
        };
        let Some(known) = born else {
            return Ok(());
        };
        if known.home != self.node.me() {
            return Ok(());
        }
        self.start(alloc, machine, known.text, number, args)
    }

    // A process begins here.
    fn start(
        &mut self,
        alloc: Global,
        machine: &P,
        text: TextNo,
        number: u16,
        args: &Parts,
    ) -> Result<(), NoMemory>
        requires { (kinds : Kinds) × P.fits_text machine.now kinds text args.now }
        ensures does { OnOk result (Becomes P.stood P.left self.old self.new (λ f m v. plays number (newborn_at text args.now v.node.copies.applied) v)) }
        ensures tasks { OnOk result (KeepsBelow number self.old.node self.new.node) }
    {
        let state = machine.start(alloc, text, ProcessNo(number), args)?;
        let place = self.node.copies.applied();
        let newborn = Resident::newborn(alloc, state, place)?;
        self.node.put(number, newborn)
    }

    // Each read that waits here is tried, in order of process.
    fn try_reads(&mut self, alloc: Global, machine: &P) -> Result<(), NoMemory>
        requires { IsSomewhere P.stood P.left P.run.frame (fitness_of (P.fits_state machine.now) (P.fits_args machine.now) (P.fits_text machine.now) (P.fits_reply machine.now)) self.old }
        ensures does { OnOk result (GoesOn P.stood P.left P.run.frame (fitness_of (P.fits_state machine.now) (P.fits_args machine.now) (P.fits_text machine.now) (P.fits_reply machine.now)) self.old self.new (λ m v. tries_reads P.run.frame v.node.copies.processes v)) }
        ensures tasks { OnOk result (KeepsTasks self.old.node self.new.node) }
    {
        'processes: for process in 0..self.node.copies.processes() {
            self.try_read(alloc, machine, process)?;
        }
        Ok(())
    }

    // The process's read is tried, where it waits with one; where all guards are false it waits on.
    pub(crate) fn try_read(
        &mut self,
        alloc: Global,
        machine: &P,
        process: u16,
    ) -> Result<(), NoMemory>
        requires { MayTryRead P.stood P.left P.run.frame (fitness_of (P.fits_state machine.now) (P.fits_args machine.now) (P.fits_text machine.now) (P.fits_reply machine.now)) process self.old }
        ensures does { OnOk result (BecomesIn P.stood P.left P.run.frame self.old self.new (λ m. tries_read P.run.frame process)) }
        ensures tasks { OnOk result (KeepsTasks self.old.node self.new.node) }
    {
        let Some(line) = self.read_of(alloc, machine, process)? else {
            return Ok(());
        };
        let reply = line.reply.copy(alloc)?;
        let place = self.node.copies.applied();
        self.perform(line)?;
        self.receive(alloc, machine, place, process, &reply)
    }

    // The line of the process's read, where it waits with one that isn't blocked.
    fn read_of(&self, alloc: Global, machine: &P, process: u16) -> Result<Option<Line>, NoMemory>
        requires { MayReadAt (P.fits_state machine.now) (P.fits_args machine.now) self.now.node.copies.objects (resident_at self.now.node process) }
        ensures { IfOk result (λ line. line ≡ line_read (P.performs machine.now) self.now.node.copies.objects process (resident_at self.now.node process)) }
    {
        let Some(resident) = self.node.resident(ProcessNo(process)) else {
            return Ok(None);
        };
        let Stage::Reading { action } = resident.stage() else {
            return Ok(None);
        };
        let tried = self.try_action(alloc, machine, action)?;
        let (guard, reply) = match tried {
            Tried::Blocked => return Ok(None),
            Tried::Did { guard, reply, .. } => (guard, reply),
            Tried::Broke { guard, fault } => (guard, Reply::Broke { fault }),
        };
        Ok(Some(Line {
            process: ProcessNo(process),
            call: resident.next_call(),
            action: action.copy(alloc)?,
            guard,
            reply,
        }))
    }

    // What a try of a read gives; what is no read is blocked.
    fn try_action(&self, alloc: Global, machine: &P, action: &Action) -> Result<Tried, NoMemory>
        requires { MayRead (P.fits_state machine.now) (P.fits_args machine.now) self.now.node.copies.objects action.now }
        ensures { IfOk result (λ tried. tried ≡ read_on (P.performs machine.now) self.now.node.copies.objects action.now) }
    {
        let Action::Call {
            kind,
            op,
            object,
            args,
        } = action
        else {
            return Ok(Tried::Blocked);
        };
        match machine.class(*kind, *op) {
            Class::Reads => self
                .node
                .copies
                .read(alloc, machine, *kind, *op, *object, args),
            Class::Writes => Ok(Tried::Blocked),
        }
    }
}

// The lines alone.
fn plain_lines(alloc: Global, answered: Vec<Answered>) -> Result<Vec<Line>, NoMemory>
    ensures { IfOk result (λ lines. lines.items ≡ lines_of answered.items) }
{
    let mut lines = Vec::new(alloc);
    'lines: for one in answered {
        lines.push(one.line)?;
    }
    Ok(lines)
}
