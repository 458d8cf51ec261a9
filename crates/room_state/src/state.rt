//! What stands under a room's lock.

ghost use Rattle.std.specs.Prelude.{◌≡◌, ◌≢◌, ◌+◌, [], IfErr, IfSome, Ok, OnErr, OnOk, length, map};
ghost use Rattle.world_rules.specs.Frame.{AreSettings};
ghost use Rattle.world_rules.specs.Standings as rules;
ghost use Rattle.world_rules.specs.declared.standing.Standing.TheVariants.{Going};
ghost use Rattle.world_parts.specs.Seen.{Of, tasks_out};
ghost use Rattle.world_core.specs.Stepping.{ChecksIn};
ghost use Rattle.run_loop.specs.Asked.{HaveToldOn, WereAskedIn};
ghost use Rattle.run_loop.specs.Driven.{IsGoing};
ghost use Rattle.run_loop.specs.Left.{HasRun};
ghost use Rattle.room_state.specs.declared.phase.Phase.TheVariants as phase;
ghost use Rattle.room_state.specs.declared.state.Taken.TheVariants as taken;
ghost use Rattle.room_state.specs.Held.{HasFailed, HasHandedOut, HasToWait, Holds, IsHandedBack, is_idle};
ghost use Rattle.room_state.specs.Stated.{HasStepped};

use crate::drive::{Driver, Due};
use crate::order::{TaskCounts, chosen};
use crate::phase::Phase;
use crate::run_wires::RoomRun;
use node_core::{Done, Stray, Task};
use orca_base::NoMemory;
use run_loop::Ran;
use std::alloc::Global;
use std::marker::{Model, PhantomData};
use wires::Wire;
use world_core::{Standing, World};
use world_facts::worlds_count;

/// A run that goes on: its world, the wires that it owns, and whether the one in use was asked what it does before the next event. Its
/// steps are the run's, and the wires were used in it (`Holds`).
pub struct RoomState<P: RoomRun, W: Wire> {
    driver: Driver<P>,
    wires: Vec<W>,
    phase: Phase,
    of: PhantomData<P>,
}

// By hand, so that a state that is dropped is one call.
impl<P: RoomRun, W: Wire> Drop for RoomState<P, W> {
    fn drop(self) {
        let RoomState {
            driver: _driver,
            wires: _wires,
            phase: _phase,
            of: _of,
        } = self;
    }
}

impl<P: RoomRun, W: Wire> Model for RoomState<P, W> {
    ghost use Rattle.std.specs.Prelude.{◌≡◌, map};
    ghost use Rattle.std.specs.Coded.{codes};
    ghost use Rattle.value_core.specs.Code.{data_code};
    ghost use Rattle.room_state.specs.Held.{Held, Holds};

    ghost Value = { Held P.State };

    ghost coded = { Prim.hlevel (codes, data_code, P.State.code) };

    ghost view = { λ r. record {
      seen = r.driver.world;
      in_use = r.driver.in_use;
      phase = r.phase;
      told = map W.told r.wires.items;
      tasks = r.driver.tasks.counts.items;
    } };

    ghost invariant = { λ r. Holds P.run (record {
      seen = r.driver.world;
      in_use = r.driver.in_use;
      phase = r.phase;
      told = map W.told r.wires.items;
      tasks = r.driver.tasks.counts.items;
    }) × (map W.rule r.wires.items ≡ P.rules) × (map W.loaded r.wires.items ≡ P.loaded) };
}

/// What there is to do.
#[derive(Drop)]
pub enum Taken<P: RoomRun> {
    /// The run is over.
    Over,
    /// An event was done.
    Stepped,
    /// A burst to be computed.
    Task { task: Task<P> },
    /// Nothing until a task that is out comes back.
    Wait,
}

impl<P: RoomRun, W: Wire> RoomState<P, W> {
    /// A run before its first event, over its wires, of which the first is in use. They tell what the run's names say, by the rules that
    /// they have.
    pub fn new(alloc: Global, world: World<P>, wires: Vec<W>) -> RoomState<P, W>
        requires opens { world.steps ≡ [] }
        requires idle { tasks_out world ≡ 0 }
        requires ranges { AreSettings P.run.frame.settings }
        requires wires { P.run.frame.settings.wires ≡ length wires.items }
        requires told { map W.told wires.items ≡ P.run.told }
        requires rules { map W.rule wires.items ≡ P.rules }
        requires loaded { map W.loaded wires.items ≡ P.loaded }
        ensures { result ≡ record { seen = world; in_use = 0; phase = phase.Unasked; told = P.run.told; tasks = [] } }
    {
        RoomState {
            driver: Driver {
                world,
                in_use: 0,
                tasks: TaskCounts::none(alloc),
            },
            wires,
            phase: Phase::Unasked,
            of: PhantomData,
        }
    }

    /// Takes the next work, for a worker of this home: does the next event, or hands out the burst of a process that is ready.
    ///
    /// `Over` comes exactly where the run isn't going. Else the first of these comes that there is: what the wire in use gives; the action
    /// of the lowest process that is at one; the packet of the lowest number that can be delivered; the burst of a process that is ready;
    /// and where no task is out, a tick. Of processes that are ready the one of which the fewest tasks were handed out goes first, then one
    /// on the home member, then the lowest. The wire in use is asked at most once before each event, and before each that is no burst; an
    /// act that it gives is the event, unless it is passed over (`Holds`).
    ///
    /// Where memory lacks, the world is as it was, and no event comes any more.
    pub fn take(&mut self, alloc: Global, machine: &P, home: u8) -> Result<Taken<P>, NoMemory>
        ensures over { result ≡ Ok taken.Over →
            (self.new ≡ self.old) × Of P.run.frame self.old.seen (λ w. rules.standing P.run.frame w ≢ Going) }
        ensures ended { Of P.run.frame self.old.seen (λ w. rules.standing P.run.frame w ≢ Going) → result ≡ Ok taken.Over }
        ensures stepped { result ≡ Ok taken.Stepped →
            HasStepped P.run.frame self.old.seen self.new.seen × (self.new.tasks ≡ self.old.tasks) }
        ensures task { (t : _) → result ≡ Ok (taken.Task t) → HasHandedOut P.run.frame home t self.old.seen self.old.tasks self.new }
        ensures wait { result ≡ Ok taken.Wait → HasToWait P.run.frame self.old.seen self.old.tasks self.new }
        ensures err { OnErr result (HasFailed self.old self.new) }
        ensures refuses { self.old.phase ≡ phase.Stopped → OnOk result ⊥ × (self.new ≡ self.old) }
    {
        if let Phase::Stopped = self.phase {
            return Err(NoMemory);
        }
        if self.driver.world.standing() != Standing::Going {
            return Ok(Taken::Over);
        }
        match self.phase {
            Phase::Unasked => self.take_asking(alloc, machine, home),
            _ => self.take_due(alloc, machine, home),
        }
    }

    // The same of a run that is going, where the wire in use wasn't asked yet.
    fn take_asking(&mut self, alloc: Global, machine: &P, home: u8) -> Result<Taken<P>, NoMemory>
        requires unasked { self.old.phase ≡ phase.Unasked }
        requires going { IsGoing P.run.frame self.old.seen }
        ensures not_over { result ≡ Ok taken.Over → ⊥ }
        ensures stepped { result ≡ Ok taken.Stepped →
            HasStepped P.run.frame self.old.seen self.new.seen × (self.new.tasks ≡ self.old.tasks) }
        ensures task { (t : _) → result ≡ Ok (taken.Task t) → HasHandedOut P.run.frame home t self.old.seen self.old.tasks self.new }
        ensures wait { result ≡ Ok taken.Wait → HasToWait P.run.frame self.old.seen self.old.tasks self.new }
        ensures err { OnErr result (HasFailed self.old self.new) }
    {
        match self.driver.asks(alloc, machine, &mut self.wires) {
            Ok(true) => {
                self.phase = Phase::Unasked;
                Ok(Taken::Stepped)
            }
            Ok(false) => {
                self.phase = Phase::Asked;
                self.take_due(alloc, machine, home)
            }
            Err(_) => {
                self.phase = Phase::Stopped;
                Err(NoMemory)
            }
        }
    }

    // The same where it was, and did nothing. No wire is asked about an act.
    fn take_due(&mut self, alloc: Global, machine: &P, home: u8) -> Result<Taken<P>, NoMemory>
        requires asked { self.old.phase ≡ phase.Asked }
        requires going { IsGoing P.run.frame self.old.seen }
        ensures not_over { result ≡ Ok taken.Over → ⊥ }
        ensures stepped { result ≡ Ok taken.Stepped →
            HasStepped P.run.frame self.old.seen self.new.seen × (self.new.tasks ≡ self.old.tasks) }
        ensures task { (t : _) → result ≡ Ok (taken.Task t) → HasHandedOut P.run.frame home t self.old.seen self.old.tasks self.new }
        ensures wait { result ≡ Ok taken.Wait → HasToWait P.run.frame self.old.seen self.old.tasks self.new }
        ensures err { OnErr result
            ((self.new.phase ≡ phase.Stopped) × (self.new.seen ≡ self.old.seen) × (self.new.told ≡ self.old.told)) }
    {
        match self.driver.due(alloc, machine, &mut self.wires, home) {
            Ok(Due::Stepped) => {
                self.phase = Phase::Unasked;
                Ok(Taken::Stepped)
            }
            Ok(Due::Ready { process }) => match self.driver.hand_out(alloc, machine, process) {
                Ok(task) => Ok(Taken::Task { task }),
                Err(_) => {
                    self.phase = Phase::Stopped;
                    Err(NoMemory)
                }
            },
            Ok(Due::Wait) => Ok(Taken::Wait),
            Err(_) => {
                self.phase = Phase::Stopped;
                Err(NoMemory)
            }
        }
    }

    /// Takes in what was computed: its burst is the last event then. It takes no memory.
    ///
    /// It is handed back exactly where no event comes any more, or the world has it astray, and then nothing changes. In a room that
    /// memory stopped the wire in use may have given an act for the next event, which must not come after another event of that number.
    pub fn put(&mut self, done: Done<P>) -> Result<(), Stray<P>>
        ensures done { OnOk result (ChecksIn P.run.frame done self.old.seen self.new.seen) }
        ensures fewer { OnOk result (tasks_out self.new.seen + 1 ≡ tasks_out self.old.seen) }
        ensures rest { OnOk result (self.new ≡ record self.old { seen = self.new.seen; phase = phase.Unasked }) }
        ensures going { OnOk result (self.old.phase ≢ phase.Stopped) }
        ensures back { IfErr result (λ stray. IsHandedBack P.run done stray.done self.old) }
        ensures err { OnErr result (self.new ≡ self.old) }
    {
        if let Phase::Stopped = self.phase {
            return Err(Stray { done });
        }
        worlds_count();
        self.driver.world.check_in(done)?;
        self.phase = Phase::Unasked;
        Ok(())
    }

    /// No event comes any more in a run that is going, and no wire is asked.
    pub fn stop(&mut self)
        ensures rest { self.new ≡ record self.old { phase = self.new.phase } }
        ensures stops { IsGoing P.run.frame self.old.seen → self.new.phase ≡ phase.Stopped }
        ensures over { Of P.run.frame self.old.seen (λ w. rules.standing P.run.frame w ≢ Going) → self.new.phase ≡ self.old.phase }
    {
        if self.driver.world.standing() == Standing::Going {
            self.phase = Phase::Stopped;
        }
    }

    /// Whether nothing is due, no process is ready, and a task is out, in a run that is going. The wire in use may still have an act.
    pub fn is_idle(&self) -> bool
        ensures { Of P.run.frame self.now.seen (λ w. result ≡ is_idle P.run.frame self.now w) }
    {
        let world = &self.driver.world;
        !self.phase.is_stopped()
            && (world.standing() == Standing::Going
                && (world.tasks_out() > 0
                    && (world.due_act().is_none()
                        && (world.due_packet().is_none()
                            && chosen(world, &self.driver.tasks, 0).is_none()))))
    }

    /// Ends every task that is out. Those processes are ready again.
    pub fn recall(&mut self)
        ensures rest { self.new ≡ record self.old { seen = self.new.seen } }
        ensures steps { self.new.seen.steps ≡ self.old.seen.steps }
        ensures out { tasks_out self.new.seen ≡ 0 }
    {
        self.driver.world.recall();
    }

    /// The world, and the wires in their order.
    pub fn end(self) -> (World<P>, Vec<W>)
        ensures seen { result.0 ≡ self.seen }
        ensures told { map W.told result.1.items ≡ self.told }
        ensures rules { map W.rule result.1.items ≡ P.rules }
        ensures loaded { map W.loaded result.1.items ≡ P.loaded }
        ensures holds { Holds P.run self }
    {
        let RoomState {
            driver,
            wires,
            phase: _phase,
            of: _of,
        } = self;
        let Driver {
            world,
            in_use: _in_use,
            tasks: _tasks,
        } = driver;
        (world, wires)
    }

    /// What it leaves, and the wires in their order: what `run` of run_loop promises, wherever it stands.
    pub fn into_ran(self, alloc: Global) -> (Ran, Vec<W>)
        ensures stands { Of P.run.frame self.seen (λ w. result.0.standing ≡ rules.standing P.run.frame w) }
        ensures steps { IfSome result.0.end (λ end. end.steps.items ≡ self.seen.steps) }
        ensures run { IfSome result.0.end (HasRun P.run.frame result.0.standing P.run.told (map W.told result.1.items)) }
        ensures asked { WereAskedIn P.run.frame P.run.told (map W.told result.1.items) }
        ensures told { HaveToldOn P.run.told (map W.told result.1.items) }
        ensures rules { map W.rule result.1.items ≡ P.rules }
        ensures loaded { map W.loaded result.1.items ≡ P.loaded }
    {
        let (world, wires) = self.end();
        (
            Ran {
                standing: world.standing(),
                end: world.into_end(alloc).ok(),
            },
            wires,
        )
    }
}
