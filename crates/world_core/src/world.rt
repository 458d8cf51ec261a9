//! The world of one run.

ghost use Rattle.std.specs.Option.{option_copied};
ghost use Rattle.std.specs.Prelude.{◌≡◌, ◌⊎◌, ◌+◌, ◌<◌, ◌≤◌, [], true, is_some, Err, IfErr, IfOk, IfSome, OnErr, OnOk, option_map};
ghost use Rattle.value_core.specs.History.{Legal};
ghost use Rattle.node_core.specs.Stands.{StandsAs};
ghost use Rattle.net_rules.specs.Flights.{first_ready};
ghost use Rattle.world_rules.specs.Frame.{AreSettings};
ghost use Rattle.world_rules.specs.Standings as rules;
ghost use Rattle.world_rules.specs.Steps.{Replays, lives_in};
ghost use Rattle.world_rules.specs.Worlds.{Book, World as RunWorld, home_of, places};
ghost use Rattle.world_rules.specs.declared.standing.Standing.TheVariants.{Going};
ghost use Rattle.world_book.specs.Promise.{AllStuck, IsKept};
ghost use Rattle.world_facts.specs.Logs.{longest_log};
ghost use Rattle.world_places.specs.Explained.{AreItsPlaces};
ghost use Rattle.world_parts.specs.Choosing.{due_act, is_ready, spent_process};
ghost use Rattle.world_parts.specs.Seen.{Of, tasks_out};
ghost use Rattle.world_core.specs.Stepping.{AreOut, ChecksIn, HandsOutOf, HasComputed, IsAstray, IsRefused, KeepsOut, OutBefore, Stepped};
ghost use Rattle.run_ends.specs.Telling.{AreNodeEnds, AreProcessEnds, EndsMean};

use crate::step::StepError;
use crate::{burst, step};
use node_core::{Done, Node, Stray, Task};
use node_parts::OneRun;
use orca_base::{NoMemory, ProcessNo};
use run_ends::{NodeEnd, ProcessEnd, RunEnd};
use std::alloc::Global;
use std::marker::Model;
use value_core::Line;
use wires::Wire;
use world_parts::Parts;
use world_rules::{Event, PlaceNote, Settings, Standing, Step};

/// The world of one run. It stores the steps of the run, and stands for the world to which they lead.
pub struct World<P: OneRun> {
    parts: Parts<P>,
}

// By hand, so that a world that is dropped is one call, and isn't laid out part by part wherever that happens.
impl<P: OneRun> Drop for World<P> {
    fn drop(self) {
        let World { parts: _parts } = self;
    }
}

impl<P: OneRun> Model for World<P> {
    ghost use Rattle.std.specs.Coded.{codes};
    ghost use Rattle.value_core.specs.Code.{data_code};
    ghost use Rattle.world_parts.specs.Seen.{Seen};
    ghost use Rattle.world_parts.specs.Standing.{Stands, seen_of};

    ghost Value = { Seen P.State };

    ghost coded = { Prim.hlevel (codes, data_code, P.State.code) };

    ghost view = { λ w. seen_of w.parts };

    ghost invariant = { λ w. Stands P.stood P.left P.run.frame w.parts };
}

impl<P: OneRun> World<P> {
    /// The world before the first event, by these settings, which are the run's.
    pub fn new(alloc: Global, machine: &P, settings: Settings) -> Result<World<P>, NoMemory>
        requires settings { settings ≡ P.run.frame.settings }
        requires ranges { AreSettings settings }
        ensures steps { IfOk result (λ w. w.steps ≡ []) }
        ensures tasks { IfOk result (λ w. tasks_out w ≡ 0) }
    {
        Ok(World {
            parts: Parts::new(alloc, machine, settings)?,
        })
    }

    /// The steps of the run so far, the first first. They lead to a world.
    pub fn steps(&self) -> &[Step]
        ensures steps { result.now ≡ self.now.steps }
        ensures replayed { (w : RunWorld) × Replays P.run.frame self.now.steps w }
    {
        self.parts.ledger.steps()
    }

    /// The steps of the run, given away.
    pub fn into_steps(self) -> Vec<Step>
        ensures steps { result.items ≡ self.steps }
        ensures replayed { (w : RunWorld) × Replays P.run.frame self.steps w }
    {
        let World { parts } = self;
        parts.ledger.into_parts().0
    }

    /// Does an event, which becomes the last step, with the fates that the wire in use gives the packets that it sends, in their order. A
    /// Burst ends a task of its process that is out.
    ///
    /// NotEnabled comes exactly where the event isn't possible here: no event is in a run that isn't going. All room is made, the wire's
    /// too, before the wire is asked. So after either error the world is as it was, and the wire was asked nothing.
    pub fn step<W: Wire>(
        &mut self,
        alloc: Global,
        machine: &P,
        event: Event,
        wire: &mut W,
    ) -> Result<(), StepError>
        ensures done { OnOk result (Stepped P.run.frame event self.old self.new (W.told wire.old) (W.told wire.new)) }
        ensures err { OnErr result (self.new ≡ self.old) }
        ensures unasked { OnErr result (W.told wire.new ≡ W.told wire.old) }
        ensures refused { result ≡ Err StepError.NotEnabled → IsRefused P.run.frame event self.old }
        ensures enabled { IsRefused P.run.frame event self.old → (result ≡ Err StepError.NotEnabled) ⊎ (result ≡ Err StepError.NoMemory) }
        ensures tasks { OutBefore self.old self.new }
        ensures out { OnOk result (KeepsOut P.run.frame event self.old self.new) }
        ensures fewer { tasks_out self.new ≤ tasks_out self.old }
        ensures script { W.rule wire.new ≡ W.rule wire.old }
        ensures since { W.loaded wire.new ≡ W.loaded wire.old }
    {
        step::step(&mut self.parts, alloc, machine, event, wire)
    }

    /// Hands out a process that is ready, in a run that is going, with its member's view. It is no event. It makes the room that the
    /// check-in takes.
    ///
    /// Where there is no memory, the world is as it was.
    pub fn check_out(
        &mut self,
        alloc: Global,
        machine: &P,
        process: ProcessNo,
    ) -> Result<Task<P>, NoMemory>
        requires going { Of P.run.frame self.old (λ w. rules.standing P.run.frame w ≡ Going) }
        requires ready { Of P.run.frame self.old (λ w. is_ready P.run.frame self.old w process.0 ≡ true) }
        ensures steps { self.new.steps ≡ self.old.steps }
        ensures out { IfOk result (λ task. HandsOutOf P.run.frame process task self.old self.new) }
        ensures more { OnOk result (tasks_out self.new ≡ tasks_out self.old + 1) }
        ensures err { OnErr result (self.new ≡ self.old) }
    {
        burst::check_out(&mut self.parts, alloc, machine, process)
    }

    /// Does the Burst event of what was computed from a task, which becomes the last step. It takes no memory.
    ///
    /// Stray comes exactly where the run isn't going, no task of that process is out, or its state or its view isn't what was handed out.
    /// The world is then as it was.
    pub fn check_in(&mut self, done: Done<P>) -> Result<(), Stray<P>>
        ensures done { OnOk result (ChecksIn P.run.frame done self.old self.new) }
        ensures fewer { OnOk result (tasks_out self.new + 1 ≡ tasks_out self.old) }
        ensures astray { IfErr result (λ stray. IsAstray P.run.frame done stray.done self.old) }
        ensures err { OnErr result (self.new ≡ self.old) }
    {
        burst::check_in(&mut self.parts, done)
    }

    /// Lets a process that is ready, in a run that is going, compute on its member's copies as they are, and does the Burst event of that,
    /// which becomes the last step: a check-out, what is computed and its check-in in one go, of which nothing comes back astray. Tasks that
    /// are out stay so.
    ///
    /// Where there is no memory, the world is as it was.
    pub fn compute(
        &mut self,
        alloc: Global,
        machine: &P,
        process: ProcessNo,
    ) -> Result<(), NoMemory>
        requires going { Of P.run.frame self.old (λ w. rules.standing P.run.frame w ≡ Going) }
        requires ready { Of P.run.frame self.old (λ w. is_ready P.run.frame self.old w process.0 ≡ true) }
        ensures done { OnOk result (HasComputed P.run.frame process self.old self.new) }
        ensures out { self.new.out ≡ self.old.out }
        ensures tasks { tasks_out self.new ≡ tasks_out self.old }
        ensures err { OnErr result (self.new ≡ self.old) }
    {
        burst::compute(&mut self.parts, alloc, machine, process)
    }

    /// Ends every task that is out. Those processes are ready again, and nothing else changes. It takes no memory.
    pub fn recall(&mut self)
        ensures steps { self.new.steps ≡ self.old.steps }
        ensures out { tasks_out self.new ≡ 0 }
    {
        burst::recall(&mut self.parts);
    }
}

// What may come next, and who is where. None of these takes memory, and none goes over what was sent, done or performed before.
impl<P: OneRun> World<P> {
    /// How many processes there are: a fork's from the moment when the first member applied it.
    pub fn process_count(&self) -> u16
        ensures { Of P.run.frame self.now (λ w. result ≡ rules.process_count P.run.frame w) }
    {
        self.parts.process_count()
    }

    /// The member of a process, which exists.
    pub fn home_of(&self, process: ProcessNo) -> u8
        ensures { Of P.run.frame self.now (λ w. result ≡ home_of P.run.frame w process.0) }
    {
        self.parts.home_of(process)
    }

    /// Whether this member lives; one that there isn't doesn't.
    pub fn lives(&self, member: u8) -> bool
        ensures { Of P.run.frame self.now (λ w. result ≡ lives_in P.run.frame w member) }
    {
        self.parts.lives(member)
    }

    /// The member of this number, where there is one: its node stands for the world's, so its calls tell its copies and where it stands in
    /// the group.
    pub fn node(&self, member: u8) -> Option<&Node<P>>
        ensures some { member < P.run.frame.settings.nodes → is_some (option_copied result) ≡ true }
        ensures stands { Of P.run.frame self.now (λ w. IfSome (option_copied result)
            (λ node. StandsAs P.stood P.left P.run.frame member node (w.nodes member))) }
    {
        self.parts.node(member)
    }

    /// The length of the longest log of a member.
    pub fn longest_log(&self) -> u64
        ensures { Of P.run.frame self.now (λ w. result ≡ longest_log P.run.frame w) }
    {
        self.parts.longest_log()
    }

    /// The lowest process on a living member whose action waits to be carried out.
    pub fn due_act(&self) -> Option<ProcessNo>
        ensures { Of P.run.frame self.now (λ w. option_map (λ i. i.0) result ≡ due_act P.run.frame w) }
    {
        self.parts.due_act()
    }

    /// Number and copy of the lowest copy of a packet that can be delivered.
    pub fn due_packet(&self) -> Option<(u64, u8)>
        ensures { Of P.run.frame self.now (λ w. option_map (λ p. (p.0, p.1)) result ≡ first_ready w.flights) }
    {
        self.parts.due_packet()
    }

    /// Whether the process computes on a living member, and no task of it is out.
    pub fn is_ready(&self, process: ProcessNo) -> bool
        ensures { Of P.run.frame self.now (λ w. result ≡ is_ready P.run.frame self.now w process.0) }
    {
        self.parts.is_ready(process)
    }

    /// The lowest process that computes and has no turns left.
    pub fn spent_process(&self) -> Option<ProcessNo>
        ensures { Of P.run.frame self.now (λ w. option_map (λ i. i.0) result ≡ spent_process P.run.frame w) }
    {
        self.parts.spent_process()
    }

    /// Whether the moment is quiet: no packet can be delivered, and no process on a living member computes or is at an action that wasn't
    /// carried out. So no task is out.
    pub fn is_quiet(&self) -> bool
        ensures quiet { Of P.run.frame self.now (λ w. result ≡ rules.is_quiet P.run.frame w) }
        ensures tasks { result ≡ true → tasks_out self.now ≡ 0 }
    {
        self.parts.is_quiet()
    }

    /// How many wires were given up: the one in use stands behind so many.
    pub fn swaps(&self) -> u16
        ensures { Of P.run.frame self.now (λ w. result ≡ w.swaps) }
    {
        self.parts.swaps
    }

    /// How many tasks are out. Each is of a process that computes on a living member, over a view from the process's place on (`each`).
    pub fn tasks_out(&self) -> u16
        ensures count { result ≡ tasks_out self.now }
        ensures each { AreOut P.run.frame self.now }
    {
        self.parts.tasks_out()
    }
}

// What is told of the run.
impl<P: OneRun> World<P> {
    /// How the run stands: the first row of the table that holds (docs/RUNTIME.md, The world of a run). Where the run is over, each process of
    /// a living member that hasn't ended or faulted is stuck in the book (`stuck`).
    pub fn standing(&self) -> Standing
        ensures standing { Of P.run.frame self.now (λ w. result ≡ rules.standing P.run.frame w) }
        ensures stuck { Of P.run.frame self.now (AllStuck P.run.frame) }
    {
        self.parts.standing()
    }

    /// The book: the performed operations by place. Within a place the lines of its entry come first, in the order in which they ran, then
    /// all others in order of events and of their burst.
    ///
    /// It is a history of the program (`legal`); the replies that processes received, and members' copies, are the book's (`kept`).
    pub fn book(&self, alloc: Global) -> Result<Vec<Line>, NoMemory>
        ensures book { Of P.run.frame self.now (λ w. IfOk result (λ lines. lines.items ≡ Book P.run.frame w)) }
        ensures legal { IfOk result (λ lines. Legal P.run.frame.performs P.run.frame.computes lines.items) }
        ensures kept { Of P.run.frame self.now (IsKept P.run.frame) }
    {
        run_ends::book(&self.parts, alloc)
    }

    /// Where the lines of the book were performed, one place for each line, in their order: at an entry of the list, as a read on objects
    /// that had seen so many entries, or on a single copy whose owner had applied so many.
    ///
    /// Each line was performed at its place, and the lines stand in the order of their places (`its`).
    pub fn places(&self, alloc: Global) -> Result<Vec<PlaceNote>, NoMemory>
        ensures places { Of P.run.frame self.now (λ w. IfOk result (λ notes. notes.items ≡ places P.run.frame w)) }
        ensures its { Of P.run.frame self.now (λ w. AreItsPlaces P.run.frame w (places P.run.frame w)) }
    {
        run_ends::places(&self.parts, alloc)
    }

    /// The members as they stand, by their numbers.
    pub fn node_ends(&self, alloc: Global) -> Result<Vec<NodeEnd>, NoMemory>
        ensures ends { Of P.run.frame self.now (λ w. IfOk result (λ ends. AreNodeEnds P.run.frame w ends.items)) }
        ensures kept { Of P.run.frame self.now (IsKept P.run.frame) }
    {
        run_ends::node_ends(&self.parts, alloc)
    }

    /// The processes as they stand, by their numbers. Each that its member began stands at what it does next after its replies (`mean`).
    pub fn process_ends(&self, alloc: Global) -> Result<Vec<ProcessEnd>, NoMemory>
        ensures ends { Of P.run.frame self.now (λ w. IfOk result (λ ends. AreProcessEnds P.run.frame w ends.items)) }
        ensures mean { Of P.run.frame self.now (EndsMean P.run.frame) }
        ensures kept { Of P.run.frame self.now (IsKept P.run.frame) }
    {
        run_ends::process_ends(&self.parts, alloc)
    }

    /// All that is kept of the run, as `book`, `places`, `node_ends` and `process_ends` tell it. Its history is copied once. Where there is
    /// no memory, it is gone.
    pub fn into_end(self, alloc: Global) -> Result<RunEnd, NoMemory>
        ensures steps { IfOk result (λ end. end.steps.items ≡ self.steps) }
        ensures longest { Of P.run.frame self (λ w. IfOk result (λ end. end.longest ≡ longest_log P.run.frame w)) }
        ensures replayed { (w : RunWorld) × Replays P.run.frame self.steps w }
        ensures book { Of P.run.frame self (λ w. IfOk result (λ end. end.book.items ≡ Book P.run.frame w)) }
        ensures legal { IfOk result (λ end. Legal P.run.frame.performs P.run.frame.computes end.book.items) }
        ensures places { Of P.run.frame self (λ w. IfOk result (λ end. end.places.items ≡ places P.run.frame w)) }
        ensures its { Of P.run.frame self (λ w. AreItsPlaces P.run.frame w (places P.run.frame w)) }
        ensures nodes { Of P.run.frame self (λ w. IfOk result (λ end. AreNodeEnds P.run.frame w end.nodes.items)) }
        ensures processes { Of P.run.frame self (λ w. IfOk result (λ end. AreProcessEnds P.run.frame w end.processes.items)) }
        ensures mean { Of P.run.frame self (EndsMean P.run.frame) }
        ensures stuck { Of P.run.frame self (AllStuck P.run.frame) }
        ensures kept { Of P.run.frame self (IsKept P.run.frame) }
    {
        let World { parts } = self;
        run_ends::into_end(parts, alloc)
    }
}
