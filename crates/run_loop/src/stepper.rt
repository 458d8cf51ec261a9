//! A run that stops behind each event.

ghost use Rattle.std.specs.Prelude.{◌≡◌, ◌≢◌, [], IfOk, IfSome, List, OnErr, OnOk, length, map};
ghost use Rattle.net_rules.specs.declared.asked.Asked.{Asked};
ghost use Rattle.world_rules.specs.Frame.{AreSettings};
ghost use Rattle.world_rules.specs.Standings as rules;
ghost use Rattle.world_rules.specs.declared.standing.Standing.TheVariants.{Going};
ghost use Rattle.world_parts.specs.Seen.{Of};
ghost use Rattle.run_loop.specs.Asked.{HaveToldOn, WereAskedIn};
ghost use Rattle.run_loop.specs.Driven.{HasCome, HasStopped, IsDriven, IsGoing, WentOn};
ghost use Rattle.run_loop.specs.Left.{HasRun};

use crate::drive::Driver;
use crate::ran::Ran;
use node_parts::OneRun;
use orca_base::NoMemory;
use std::alloc::Global;
use std::marker::Model;
use wires::Wire;
use world_core::{Settings, Standing, World};
use world_facts::{standings_mean, worlds_count};

/// A run that stops behind each event, for what is done with its world between events, and when it is over: it begins, does the next
/// event as long as it is going, and ends. `run` is one that is driven to its end.
#[derive(Drop)]
pub struct Stepper<P: OneRun> {
    driver: Driver<P>,
}

impl<P: OneRun> Model for Stepper<P> {
    ghost use Rattle.std.specs.Coded.{codes};
    ghost use Rattle.value_core.specs.Code.{data_code};
    ghost use Rattle.run_loop.specs.Driven.{Stepping};

    ghost Value = { Stepping P.State };

    ghost coded = { Prim.hlevel (codes, data_code, P.State.code) };

    ghost view = { λ s. record { world = s.driver.world; in_use = s.driver.in_use } };
}

impl<P: OneRun> Stepper<P> {
    /// Before the first event, by the run's settings, over as many wires as these say; the first is in use. No wire was asked: where there
    /// is no memory to begin, `asked` and `told` say so in the words of a run that ended.
    pub fn begin(alloc: Global, machine: &P, settings: Settings) -> Result<Stepper<P>, NoMemory>
        requires settings { settings ≡ P.run.frame.settings }
        requires ranges { AreSettings settings }
        requires wires { settings.wires ≡ length P.run.told }
        ensures driven { IfOk result (λ s. IsDriven P.run.frame s.world s.in_use P.run.told P.run.told) }
        ensures none { IfOk result (λ s. s.world.steps ≡ []) }
        ensures asked { WereAskedIn P.run.frame P.run.told P.run.told }
        ensures told { HaveToldOn P.run.told P.run.told }
    {
        Ok(Stepper {
            driver: Driver::new(alloc, machine, settings)?,
        })
    }

    /// The world to which its steps lead.
    pub fn world(&self) -> &World<P>
        ensures { result.now ≡ self.now.world }
    {
        &self.driver.world
    }

    /// Does the next event of a run that is going: one step more, and the steps before stay. The wire in use is asked about an act first.
    /// Wires go on telling what they told before. Where there is no memory, the run stands as it did, but that the wire in use may have
    /// been asked about an act: no clause lets it go on then, but `into_ran` ends it.
    pub fn next_event<W: Wire>(
        &mut self,
        alloc: Global,
        machine: &P,
        wires: &mut [W],
    ) -> Result<(), NoMemory>
        requires driven { IsDriven P.run.frame self.old.world self.old.in_use P.run.told (map W.told wires.old) }
        requires going { IsGoing P.run.frame self.old.world }
        ensures went { OnOk result (WentOn P.run.frame self.old.world self.new.world self.new.in_use P.run.told (map W.told wires.new)) }
        ensures stopped { OnErr result (HasStopped P.run.frame self.new.world P.run.told (map W.told wires.new)) }
        ensures err { OnErr result (self.new ≡ self.old) }
        ensures told { HaveToldOn (map W.told wires.old) (map W.told wires.new) }
        ensures scripts { map W.rule wires.new ≡ map W.rule wires.old }
        ensures loaded { map W.loaded wires.new ≡ map W.loaded wires.old }
    {
        self.driver.next(alloc, machine, wires)
    }

    /// Does one event after the other, until the run isn't going. Where there is no memory it stops before an event, and the run goes on
    /// standing for the steps before it.
    pub fn drive<W: Wire>(
        &mut self,
        alloc: Global,
        machine: &P,
        wires: &mut [W],
    ) -> Result<(), NoMemory>
        requires { IsDriven P.run.frame self.old.world self.old.in_use P.run.told (map W.told wires.old) }
        ensures driven { OnOk result (IsDriven P.run.frame self.new.world self.new.in_use P.run.told (map W.told wires.new)) }
        ensures over { OnOk result (Of P.run.frame self.new.world (λ w. rules.standing P.run.frame w ≢ Going)) }
        ensures stopped { OnErr result (HasStopped P.run.frame self.new.world P.run.told (map W.told wires.new)) }
        ensures told { HaveToldOn (map W.told wires.old) (map W.told wires.new) }
        ensures scripts { map W.rule wires.new ≡ map W.rule wires.old }
        ensures loaded { map W.loaded wires.new ≡ map W.loaded wires.old }
    {
        worlds_count();
        standings_mean();
        'events: while self.world().standing() == Standing::Going {
            self.next_event(alloc, machine, wires)?;
        }
        Ok(())
    }

    /// What it leaves, as `run` tells it, whether it is over or is given up: whatever its wires told, where it stands between two events,
    /// or memory lacked for the next one.
    pub fn into_ran(self, alloc: Global) -> Ran
        ensures stands { Of P.run.frame self.world (λ w. result.standing ≡ rules.standing P.run.frame w) }
        ensures steps { IfSome result.end (λ end. end.steps.items ≡ self.world.steps) }
        ensures run { (told : List (List Asked)) → HasCome P.run.frame self P.run.told told →
            IfSome result.end (HasRun P.run.frame result.standing P.run.told told) }
        ensures asked { (told : List (List Asked)) → HasCome P.run.frame self P.run.told told → WereAskedIn P.run.frame P.run.told told }
        ensures told { (told : List (List Asked)) → HasCome P.run.frame self P.run.told told → HaveToldOn P.run.told told }
    {
        let Stepper { driver } = self;
        Ran {
            standing: driver.world.standing(),
            end: driver.world.into_end(alloc).ok(),
        }
    }
}
