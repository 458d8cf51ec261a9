//! What drives a run: which event is the next, and that it is done.

ghost use Rattle.std.specs.Prelude.{◌≡◌, ◌<◌, [], false, true, IfOk, Ok, OnErr, OnOk, map};
ghost use Rattle.orca_base.specs.declared.ids.ProcessNo.{ProcessNo};
ghost use Rattle.world_rules.specs.Standings.{process_count};
ghost use Rattle.world_parts.specs.Choosing.{is_ready};
ghost use Rattle.world_parts.specs.Seen.{Of, tasks_out};
ghost use Rattle.world_core.specs.Stepping.{HandsOutOf};
ghost use Rattle.run_loop.specs.Driven.{ComesFirst, IsDue, IsGoing, MayBe};
ghost use Rattle.room_state.specs.declared.drive.Due.TheVariants as due;
ghost use Rattle.room_state.specs.Driven.{HasAnswered, HasStopped, IsDriven, MayGoOn, WentOn};
ghost use Rattle.room_state.specs.Held.{AreAskedOnce};
ghost use Rattle.room_state.specs.Stated.{HasCounted, HasStepped, IsChosen, IsFirstDue, NoneReady, NothingDue};

use crate::asking::{ask, event_of, swaps_of};
use crate::order::{TaskCounts, chosen};
use net_rules::WireAct;
use node_core::Task;
use node_parts::OneRun;
use orca_base::{NoMemory, ProcessNo};
use std::alloc::Global;
use wires::Wire;
use world_core::{Event, StepError, World};
use world_facts::worlds_count;

/// A run that is driven: its world, which wire is in use, and how many tasks of each process were handed out.
#[derive(Drop)]
pub(crate) struct Driver<P: OneRun> {
    pub(crate) world: World<P>,
    pub(crate) in_use: usize,
    pub(crate) tasks: TaskCounts,
}

/// What is due where the wire in use does nothing.
#[derive(Clone, Copy, Drop)]
pub(crate) enum Due {
    /// An event, which was done.
    Stepped,
    /// A burst of this process, which is ready.
    Ready { process: ProcessNo },
    /// Nothing until a task that is out comes back.
    Wait,
}

impl<P: OneRun> Driver<P> {
    /// Asks the wire in use what it does before the next event, and whether that is the next event, which is then done: not where it gave
    /// nothing, or what is passed over. Where there is no memory, the world is as it was.
    pub(crate) fn asks<W: Wire>(
        &mut self,
        alloc: Global,
        machine: &P,
        wires: &mut [W],
    ) -> Result<bool, NoMemory>
        requires driven { IsDriven P.run.frame self.old.world self.old.in_use P.run.told (map W.told wires.old) }
        requires going { IsGoing P.run.frame self.old.world }
        ensures done { result ≡ Ok true →
            WentOn P.run.frame self.old.world self.new.world self.new.in_use P.run.told (map W.told wires.new) }
        ensures order { result ≡ Ok true → HasStepped P.run.frame self.old.world self.new.world }
        ensures passed { result ≡ Ok false → MayGoOn P.run.frame self.new.world self.new.in_use P.run.told (map W.told wires.new) }
        ensures same { result ≡ Ok false → self.new ≡ self.old }
        ensures stopped { OnErr result (HasStopped P.run.frame self.new.world P.run.told (map W.told wires.new)) }
        ensures err { OnErr result ((self.new ≡ self.old) ×
            AreAskedOnce self.old.world self.old.in_use (map W.told wires.old) (map W.told wires.new)) }
        ensures once { result ≡ Ok false →
            AreAskedOnce self.old.world self.old.in_use (map W.told wires.old) (map W.told wires.new) }
        ensures tasks { self.new.tasks ≡ self.old.tasks }
        ensures scripts { map W.rule wires.new ≡ map W.rule wires.old }
        ensures loaded { map W.loaded wires.new ≡ map W.loaded wires.old }
    {
        let number = self.world.steps().len() as u64 + 1;
        let act = ask(wires, self.in_use, number)?;
        self.does(alloc, machine, act, wires)
    }

    // Whether the act that the wire in use gave is the next event, which is then done: not where it gave none, or one that is passed over.
    fn does<W: Wire>(
        &mut self,
        alloc: Global,
        machine: &P,
        act: Option<WireAct>,
        wires: &mut [W],
    ) -> Result<bool, NoMemory>
        requires answered { HasAnswered P.run.frame self.old.world self.old.in_use P.run.told (map W.told wires.old) act }
        requires going { IsGoing P.run.frame self.old.world }
        ensures done { result ≡ Ok true →
            WentOn P.run.frame self.old.world self.new.world self.new.in_use P.run.told (map W.told wires.new) }
        ensures order { result ≡ Ok true → HasStepped P.run.frame self.old.world self.new.world }
        ensures passed { result ≡ Ok false → MayGoOn P.run.frame self.new.world self.new.in_use P.run.told (map W.told wires.new) }
        ensures same { result ≡ Ok false → (self.new ≡ self.old) × (map W.told wires.new ≡ map W.told wires.old) }
        ensures stopped { OnErr result (HasStopped P.run.frame self.new.world P.run.told (map W.told wires.new)) }
        ensures err { OnErr result ((self.new ≡ self.old) × (map W.told wires.new ≡ map W.told wires.old)) }
        ensures tasks { self.new.tasks ≡ self.old.tasks }
        ensures scripts { map W.rule wires.new ≡ map W.rule wires.old }
        ensures loaded { map W.loaded wires.new ≡ map W.loaded wires.old }
    {
        worlds_count();
        let Some(act) = act else {
            return Ok(false);
        };
        match self
            .world
            .step(alloc, machine, event_of(act), &mut wires[self.in_use])
        {
            Ok(()) => {
                self.in_use += swaps_of(act);
                Ok(true)
            }
            Err(StepError::NotEnabled) => Ok(false),
            Err(StepError::NoMemory) => Err(NoMemory),
        }
    }

    /// Does what is due, or says whose burst it is: the action of the lowest process that is at one, the packet of the lowest number that
    /// can be delivered, a burst of a process that is ready, for a worker of this home. Where there is none of these and no task is out,
    /// the moment is quiet, and time passes. Where there is no memory, nothing changes.
    pub(crate) fn due<W: Wire>(
        &mut self,
        alloc: Global,
        machine: &P,
        wires: &mut [W],
        home: u8,
    ) -> Result<Due, NoMemory>
        requires on { MayGoOn P.run.frame self.old.world self.old.in_use P.run.told (map W.told wires.old) }
        requires going { IsGoing P.run.frame self.old.world }
        ensures went { result ≡ Ok due.Stepped →
            WentOn P.run.frame self.old.world self.new.world self.new.in_use P.run.told (map W.told wires.new) }
        ensures order { result ≡ Ok due.Stepped → HasStepped P.run.frame self.old.world self.new.world }
        ensures ready { (i : ProcessNo) → result ≡ Ok (due.Ready i) → Of P.run.frame self.old.world (λ w. NothingDue P.run.frame w ×
            IsChosen P.run.frame self.old.world w self.old.tasks.counts.items home (process_count P.run.frame w) i.0) }
        ensures waits { result ≡ Ok due.Wait → (0 < tasks_out self.old.world) × Of P.run.frame self.old.world
            (λ w. NothingDue P.run.frame w × NoneReady P.run.frame self.old.world w) }
        ensures same { (i : ProcessNo) → result ≡ Ok (due.Ready i) →
            (self.new ≡ self.old) × (map W.told wires.new ≡ map W.told wires.old) }
        ensures still { result ≡ Ok due.Wait → (self.new ≡ self.old) × (map W.told wires.new ≡ map W.told wires.old) }
        ensures stopped { OnErr result (HasStopped P.run.frame self.new.world P.run.told (map W.told wires.new)) }
        ensures err { OnErr result ((self.new ≡ self.old) × (map W.told wires.new ≡ map W.told wires.old)) }
        ensures tasks { self.new.tasks ≡ self.old.tasks }
        ensures scripts { map W.rule wires.new ≡ map W.rule wires.old }
        ensures loaded { map W.loaded wires.new ≡ map W.loaded wires.old }
    {
        if let Some(process) = self.world.due_act() {
            return self.step(alloc, machine, Event::Act { process }, wires);
        }
        if let Some((packet, copy)) = self.world.due_packet() {
            return self.step(alloc, machine, Event::Deliver { packet, copy }, wires);
        }
        if let Some(process) = chosen(&self.world, &self.tasks, home) {
            return Ok(Due::Ready { process });
        }
        if self.world.tasks_out() > 0 {
            return Ok(Due::Wait);
        }
        self.step(alloc, machine, Event::Tick, wires)
    }

    // Does an event that is possible and the first of what is due: an action, a delivery or a tick.
    fn step<W: Wire>(
        &mut self,
        alloc: Global,
        machine: &P,
        event: Event,
        wires: &mut [W],
    ) -> Result<Due, NoMemory>
        requires on { MayGoOn P.run.frame self.old.world self.old.in_use P.run.told (map W.told wires.old) }
        requires possible { MayBe P.run.frame self.old.world event }
        requires first { ComesFirst P.run.frame self.old.world event }
        requires order { Of P.run.frame self.old.world (λ w. IsFirstDue P.run.frame self.old.world w event) }
        requires plain { IsDue event }
        ensures went { OnOk result (WentOn P.run.frame self.old.world self.new.world self.new.in_use P.run.told (map W.told wires.new)) }
        ensures order { OnOk result (HasStepped P.run.frame self.old.world self.new.world) }
        ensures stepped { IfOk result (λ step. step ≡ due.Stepped) }
        ensures stopped { OnErr result (HasStopped P.run.frame self.new.world P.run.told (map W.told wires.new)) }
        ensures err { OnErr result ((self.new ≡ self.old) × (map W.told wires.new ≡ map W.told wires.old)) }
        ensures tasks { self.new.tasks ≡ self.old.tasks }
        ensures scripts { map W.rule wires.new ≡ map W.rule wires.old }
        ensures loaded { map W.loaded wires.new ≡ map W.loaded wires.old }
    {
        worlds_count();
        match self
            .world
            .step(alloc, machine, event, &mut wires[self.in_use])
        {
            Ok(()) => Ok(Due::Stepped),
            Err(StepError::NoMemory) => Err(NoMemory),
            Err(StepError::NotEnabled) => unreachable!(),
        }
    }

    /// Hands out a process that is ready, and counts its task. Where there is no memory, the world is as it was.
    pub(crate) fn hand_out(
        &mut self,
        alloc: Global,
        machine: &P,
        process: ProcessNo,
    ) -> Result<Task<P>, NoMemory>
        requires going { IsGoing P.run.frame self.old.world }
        requires ready { Of P.run.frame self.old.world (λ w. is_ready P.run.frame self.old.world w process.0 ≡ true) }
        ensures steps { self.new.world.steps ≡ self.old.world.steps }
        ensures out { IfOk result (λ task. HandsOutOf P.run.frame process task self.old.world self.new.world) }
        ensures counted { OnOk result (HasCounted process self.old.tasks.counts.items self.new.tasks.counts.items) }
        ensures err { OnErr result (self.new.world ≡ self.old.world) }
        ensures in_use { self.new.in_use ≡ self.old.in_use }
    {
        self.tasks.make_room(process)?;
        let task = self.world.check_out(alloc, machine, process)?;
        self.tasks.count(process);
        Ok(task)
    }
}
