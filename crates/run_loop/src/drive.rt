//! What drives a run: it does the next event.

ghost use Rattle.std.specs.Prelude.{◌≡◌, ◌<◌, ◌+◌, [], false, true, Err, IfOk, None, Ok, OnErr, OnOk, Some, length, map};
ghost use Rattle.world_rules.specs.Frame.{AreSettings};
ghost use Rattle.world_parts.specs.Seen.{tasks_out};
ghost use Rattle.run_loop.specs.Asked.{HaveToldOn};
ghost use Rattle.run_loop.specs.Driven.{ComesFirst, HasAnswered, HasStopped, IsDriven, IsDue, IsGoing, MayBe, MayGoOn, WentOn};

use crate::asking::{ask, event_of, swaps_of};
use crate::order::{Bursts, chosen};
use net_rules::WireAct;
use node_parts::OneRun;
use orca_base::NoMemory;
use std::alloc::Global;
use wires::Wire;
use world_core::{Event, Settings, StepError, World};
use world_facts::worlds_count;

/// A run that is driven: its world, which wire is in use, and how many bursts each process has computed.
#[derive(Drop)]
pub(crate) struct Driver<P: OneRun> {
    pub(crate) world: World<P>,
    pub(crate) in_use: usize,
    bursts: Bursts,
}

impl<P: OneRun> Driver<P> {
    /// Before the first event, by the run's settings, over the first wire.
    pub(crate) fn new(alloc: Global, machine: &P, settings: Settings) -> Result<Driver<P>, NoMemory>
        requires settings { settings ≡ P.run.frame.settings }
        requires ranges { AreSettings settings }
        ensures { IfOk result (λ d. (d.world.steps ≡ []) × (tasks_out d.world ≡ 0) × (d.in_use ≡ 0)) }
    {
        Ok(Driver {
            world: World::new(alloc, machine, settings)?,
            in_use: 0,
            bursts: Bursts::none(alloc)?,
        })
    }

    /// Does the next event: what the wire in use gives, or what is due, where that gives nothing or what it gives is passed over. Where
    /// there is no memory, the driver is as it was.
    pub(crate) fn next<W: Wire>(
        &mut self,
        alloc: Global,
        machine: &P,
        wires: &mut [W],
    ) -> Result<(), NoMemory>
        requires driven { IsDriven P.run.frame self.old.world self.old.in_use P.run.told (map W.told wires.old) }
        requires going { IsGoing P.run.frame self.old.world }
        ensures went { OnOk result (WentOn P.run.frame self.old.world self.new.world self.new.in_use P.run.told (map W.told wires.new)) }
        ensures stopped { OnErr result (HasStopped P.run.frame self.new.world P.run.told (map W.told wires.new)) }
        ensures err { OnErr result (self.new.world ≡ self.old.world) }
        ensures in_use { OnErr result (self.new.in_use ≡ self.old.in_use) }
        ensures told { HaveToldOn (map W.told wires.old) (map W.told wires.new) }
        ensures scripts { map W.rule wires.new ≡ map W.rule wires.old }
        ensures loaded { map W.loaded wires.new ≡ map W.loaded wires.old }
    {
        let number = self.world.steps().len() as u64 + 1;
        let act = ask(wires, self.in_use, number)?;
        if self.does(alloc, machine, act, wires)? {
            return Ok(());
        }
        self.due(alloc, machine, wires)
    }

    // Whether the act that the wire in use gave is the next event, which is then done: not where it gave none, or one that is passed over.
    fn does<W: Wire>(
        &mut self,
        alloc: Global,
        machine: &P,
        act: Option<WireAct>,
        wires: &mut [W],
    ) -> Result<bool, NoMemory>
        requires answered { HasAnswered P.run.frame self.old.world self.old.in_use P.run.told (map W.told wires.old) act }
        requires going { IsGoing P.run.frame self.old.world }
        ensures done { result ≡ Ok true →
            WentOn P.run.frame self.old.world self.new.world self.new.in_use P.run.told (map W.told wires.new) }
        ensures passed { result ≡ Ok false → MayGoOn P.run.frame self.new.world self.new.in_use P.run.told (map W.told wires.new) }
        ensures same { result ≡ Ok false → self.new.world ≡ self.old.world }
        ensures same_wire { result ≡ Ok false → self.new.in_use ≡ self.old.in_use }
        ensures stopped { OnErr result (HasStopped P.run.frame self.new.world P.run.told (map W.told wires.new)) }
        ensures err { OnErr result (self.new.world ≡ self.old.world) }
        ensures in_use { OnErr result (self.new.in_use ≡ self.old.in_use) }
        ensures told { HaveToldOn (map W.told wires.old) (map W.told wires.new) }
        ensures scripts { map W.rule wires.new ≡ map W.rule wires.old }
        ensures loaded { map W.loaded wires.new ≡ map W.loaded wires.old }
    {
        worlds_count();
        let Some(act) = act else {
            return Ok(false);
        };
        match self
            .world
            .step(alloc, machine, event_of(act), &mut wires[self.in_use])
        {
            Ok(()) => {
                self.in_use += swaps_of(act);
                Ok(true)
            }
            Err(StepError::NotEnabled) => Ok(false),
            Err(StepError::NoMemory) => Err(NoMemory),
        }
    }

    // Does what is due: the action of the lowest process that is at one, the packet of the lowest number that can be delivered, a burst of
    // a process that is ready. Where there is none of these, the moment is quiet, and time passes.
    fn due<W: Wire>(&mut self, alloc: Global, machine: &P, wires: &mut [W]) -> Result<(), NoMemory>
        requires on { MayGoOn P.run.frame self.old.world self.old.in_use P.run.told (map W.told wires.old) }
        requires going { IsGoing P.run.frame self.old.world }
        ensures went { OnOk result (WentOn P.run.frame self.old.world self.new.world self.new.in_use P.run.told (map W.told wires.new)) }
        ensures stopped { OnErr result (HasStopped P.run.frame self.new.world P.run.told (map W.told wires.new)) }
        ensures err { OnErr result (self.new.world ≡ self.old.world) }
        ensures in_use { OnErr result (self.new.in_use ≡ self.old.in_use) }
        ensures told { HaveToldOn (map W.told wires.old) (map W.told wires.new) }
        ensures scripts { map W.rule wires.new ≡ map W.rule wires.old }
        ensures loaded { map W.loaded wires.new ≡ map W.loaded wires.old }
    {
        worlds_count();
        if let Some(process) = self.world.due_act() {
            return self.step(alloc, machine, Event::Act { process }, wires);
        }
        if let Some((packet, copy)) = self.world.due_packet() {
            return self.step(alloc, machine, Event::Deliver { packet, copy }, wires);
        }
        match chosen(&self.world, &self.bursts) {
            Some(process) => {
                self.world.compute(alloc, machine, process)?;
                self.bursts.count(process);
                Ok(())
            }
            None => self.step(alloc, machine, Event::Tick, wires),
        }
    }

    // Does an event that is possible, and is no exchange of the wire; of the packets that are ready it delivers the first.
    fn step<W: Wire>(
        &mut self,
        alloc: Global,
        machine: &P,
        event: Event,
        wires: &mut [W],
    ) -> Result<(), NoMemory>
        requires on { MayGoOn P.run.frame self.old.world self.old.in_use P.run.told (map W.told wires.old) }
        requires possible { MayBe P.run.frame self.old.world event }
        requires first { ComesFirst P.run.frame self.old.world event }
        requires plain { IsDue event }
        ensures went { OnOk result (WentOn P.run.frame self.old.world self.new.world self.new.in_use P.run.told (map W.told wires.new)) }
        ensures stopped { OnErr result (HasStopped P.run.frame self.new.world P.run.told (map W.told wires.new)) }
        ensures err { OnErr result (self.new.world ≡ self.old.world) }
        ensures in_use { OnErr result (self.new.in_use ≡ self.old.in_use) }
        ensures told { HaveToldOn (map W.told wires.old) (map W.told wires.new) }
        ensures scripts { map W.rule wires.new ≡ map W.rule wires.old }
        ensures loaded { map W.loaded wires.new ≡ map W.loaded wires.old }
    {
        worlds_count();
        match self
            .world
            .step(alloc, machine, event, &mut wires[self.in_use])
        {
            Ok(()) => Ok(()),
            Err(StepError::NoMemory) => Err(NoMemory),
            Err(StepError::NotEnabled) => unreachable!(),
        }
    }
}
