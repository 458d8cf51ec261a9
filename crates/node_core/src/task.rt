//! Bursts, which are computed without any lock.

ghost use Rattle.std.specs.Prelude.{◌≡◌, ◌<◌, ◌+◌, ◌^◌, ◌↔◌, IfErr, IfOk, IsTrue, OnErr, Some, is_some, length, map};
ghost use Rattle.value_core.specs.Goes.{IfAt};
ghost use Rattle.world_rules.specs.Bursts.{read_on};
ghost use Rattle.world_rules.specs.Played.{at_action as action_stage};
ghost use Rattle.node_core.specs.CheckingIn.{HandsOut, HasChanged, HasCheckedIn, HasRecalled, IsOutFor, IsStray, MayHandOut, recalled};
ghost use Rattle.node_core.specs.Pieces.{resident_at};
ghost use Rattle.node_parts.specs.Shown.{on_stage};
ghost use Rattle.node_core.specs.Stands.{StandsAlike, fitness_of};
ghost use Rattle.node_core.specs.Tasks.{HasRun, IsCame, IsOf, MayAnswer, MayRun, answer_of};

use crate::node::Node;
use crate::places::set_at;
use node_parts::{Kept, OneRun, Resident, Stage};
use object_manager::View;
use orca_base::{CallNo, NoMemory, ProcessNo};
use std::alloc::Global;
use std::marker::{Model, PhantomData};
use value_core::{Action, Class, Halt, Line, Reply, Tried};

/// A process's state, handed out to be computed on from, with a view of its member's objects and the turns that it may take. Such a burst
/// of its process may be computed.
#[derive(Drop)]
pub struct Task<P: OneRun> {
    process: ProcessNo,
    start: Kept<P::State>,
    calls: u64,
    view: View,
    budget: u32,
    of: PhantomData<P>,
}

/// What was computed from a task: the reads that the view answered, and where the process stands then. It ran so by the rules.
#[derive(Drop)]
pub struct Done<P: OneRun> {
    process: ProcessNo,
    start: Kept<P::State>,
    calls: u64,
    view: View,
    turns: u64,
    end: Kept<P::State>,
    stage: Stage,
    reads: Vec<Line>,
    of: PhantomData<P>,
}

/// What was computed belongs to no task that is out.
#[derive(Drop)]
pub struct Stray<P: OneRun> {
    /// It, handed back.
    pub done: Done<P>,
}

/// A burst that was checked in: its reads, and the place at which they stand.
#[derive(Drop)]
pub struct CheckedIn {
    /// How many entries the view's copies had applied.
    pub place: u64,
    /// The reads, in order.
    pub reads: Vec<Line>,
}

// Where a computation stands: at a read that the view answered, or at its end.
#[derive(Drop)]
enum Came {
    Read { line: Line },
    End { stage: Stage },
}

// What a burst comes to: the state and the stage at its end, the turns that its process took in all, and the reads.
#[derive(Drop)]
pub(crate) struct Burst<S: Drop> {
    pub(crate) end: S,
    pub(crate) turns: u64,
    pub(crate) stage: Stage,
    pub(crate) reads: Vec<Line>,
}

impl<P: OneRun> Model for Task<P> {
    ghost use Rattle.std.specs.Coded.{codes};
    ghost use Rattle.value_core.specs.Code.{data_code};
    ghost use Rattle.node_core.specs.Stands.{fitness_of};
    ghost use Rattle.node_core.specs.Tasks.{MayRun, Tasked};

    ghost Value = { Tasked P.State };

    ghost coded = { Prim.hlevel (codes, data_code, P.State.code) };

    ghost view = { λ t. record { process = t.process; start = t.start; calls = t.calls; view = t.view; budget = t.budget } };

    ghost invariant = { λ t. (m : P) × MayRun P.stood P.run.frame
        (fitness_of (P.fits_state m) (P.fits_args m) (P.fits_text m) (P.fits_reply m))
        (record { process = t.process; start = t.start; calls = t.calls; view = t.view; budget = t.budget }) };
}

impl<P: OneRun> Model for Done<P> {
    ghost use Rattle.std.specs.Prelude.{◌<◌, ◌+◌, ◌^◌, length};
    ghost use Rattle.std.specs.Coded.{codes};
    ghost use Rattle.value_core.specs.Code.{data_code};
    ghost use Rattle.node_core.specs.Tasks.{Computed, HasRun};

    ghost Value = { Computed P.State };

    ghost coded = { Prim.hlevel (codes, data_code, P.State.code) };

    ghost view = { λ d. record {
      process = d.process;
      start = d.start;
      calls = d.calls;
      view = d.view;
      turns = d.turns;
      end = d.end;
      stage = d.stage;
      reads = d.reads.items;
    } };

    ghost invariant = { λ d. HasRun P.stood P.left P.run.frame (record {
      process = d.process;
      start = d.start;
      calls = d.calls;
      view = d.view;
      turns = d.turns;
      end = d.end;
      stage = d.stage;
      reads = d.reads.items;
    }) × (d.calls + length d.reads.items < 2 ^ 64) };
}

impl<P: OneRun> Task<P> {
    /// The process.
    pub fn process(&self) -> ProcessNo
        ensures { result ≡ self.now.process }
    {
        self.process
    }

    /// Computes the burst: until an action that isn't a read which the view answers, or until the budget's last turn is begun.
    pub fn run(self, alloc: Global, machine: &P) -> Result<Done<P>, NoMemory>
        ensures { IfOk result (IsOf self) }
    {
        let burst = compute(
            alloc,
            machine,
            self.process,
            &self.view,
            self.start.value(),
            self.calls,
            self.budget,
        )?;
        Ok(Done {
            process: self.process,
            start: self.start,
            calls: self.calls,
            view: self.view,
            turns: burst.turns,
            end: Kept::new(alloc, burst.end)?,
            stage: burst.stage,
            reads: burst.reads,
            of: PhantomData,
        })
    }
}

impl<P: OneRun> Done<P> {
    /// The process.
    pub fn process(&self) -> ProcessNo
        ensures { result ≡ self.now.process }
    {
        self.process
    }

    /// The turns that the process took in all.
    pub fn turns(&self) -> u64
        ensures { result ≡ self.now.turns }
    {
        self.turns
    }

    /// How many entries the copies of its view had applied.
    pub fn place(&self) -> u64
        ensures { result ≡ self.now.view.place }
    {
        self.view.place()
    }

    /// How many reads the view answered.
    pub fn reads(&self) -> usize
        ensures { result ≡ length self.now.reads }
    {
        self.reads.len()
    }
}

// Computes a burst of the process from this state, in which it received so many replies.
pub(crate) fn compute<P: OneRun>(
    alloc: Global,
    machine: &P,
    process: ProcessNo,
    view: &View,
    start: &P::State,
    calls: u64,
    budget: u32,
) -> Result<Burst<P::State>, NoMemory>
    requires { MayRun P.stood P.run.frame
        (fitness_of (P.fits_state machine.now) (P.fits_args machine.now) (P.fits_text machine.now) (P.fits_reply machine.now))
        (record { process = process; start = start.now; calls = calls; view = view.now; budget = budget }) }
    ensures ran { IfOk result (λ burst. HasRun P.stood P.left P.run.frame (record {
      process = process;
      start = start.now;
      calls = calls;
      view = view.now;
      turns = burst.turns;
      end = burst.end;
      stage = burst.stage;
      reads = burst.reads.items;
    })) }
    ensures small { IfOk result (λ burst. calls + length burst.reads.items < 2 ^ 64) }
{
    let last = machine.turns(start) + budget as u64;
    let mut state = machine.copy(alloc, start)?;
    let mut reads = Vec::new(alloc);
    'burst: for call in calls..u64::MAX {
        let left = (last - machine.turns(&state)) as u32;
        let (after, halt) = machine.go(alloc, state, left)?;
        match halted(alloc, machine, view, process, CallNo(call), halt)? {
            Came::End { stage } => {
                return Ok(Burst {
                    turns: machine.turns(&after),
                    end: after,
                    stage,
                    reads,
                });
            },
            Came::Read { line } => {
                state = machine.reply(after, line.reply.copy(alloc)?);
                reads.push(line)?;
            },
        }
    }
    Err(NoMemory)
}

// What comes of a halt: a read that the view answers, or the end of the burst.
fn halted<P: OneRun>(
    alloc: Global,
    machine: &P,
    view: &View,
    process: ProcessNo,
    call: CallNo,
    halt: Halt,
) -> Result<Came, NoMemory>
    requires { IfAt halt (MayAnswer (P.performs machine.now) (P.fits_state machine.now) (P.fits_args machine.now) view.now.objects) }
    ensures { IfOk result (IsCame (record P.run.frame { performs = P.performs machine.now }) view.now.objects process call halt) }
{
    match halt {
        Halt::Paused => Ok(Came::End {
            stage: Stage::Computing,
        }),
        Halt::At { action } => match answered(alloc, machine, view, &action)? {
            Some((guard, reply)) => Ok(Came::Read {
                line: Line {
                    process,
                    call,
                    action,
                    guard,
                    reply,
                },
            }),
            None => Ok(Came::End {
                stage: at_action(action),
            }),
        },
    }
}

// The guard and the reply by which the view answers the action, where it is a read of an object of it that isn't blocked.
fn answered<P: OneRun>(
    alloc: Global,
    machine: &P,
    view: &View,
    action: &Action,
) -> Result<Option<(u16, Reply)>, NoMemory>
    requires { MayAnswer (P.performs machine.now) (P.fits_state machine.now) (P.fits_args machine.now) view.now.objects action.now }
    ensures { IfOk result (λ answer. answer ≡ answer_of (read_on (P.performs machine.now) view.now.objects action.now)) }
{
    let Action::Call {
        kind,
        op,
        object,
        args,
    } = action
    else {
        return Ok(None);
    };
    if machine.class(*kind, *op) != Class::Reads || !view.holds(*object) {
        return Ok(None);
    }
    match view.read(alloc, machine, *kind, *op, *object, args)? {
        Tried::Blocked => Ok(None),
        Tried::Did { guard, reply, .. } => Ok(Some((guard, reply))),
        Tried::Broke { guard, fault } => Ok(Some((guard, Reply::Broke { fault }))),
    }
}

// A process that has ended or faulted is over, and any other waits for its action to be carried out.
fn at_action(action: Action) -> Stage
    ensures { on_stage result ≡ action_stage action }
{
    match action {
        Action::Ended | Action::Faulted { .. } => Stage::Over { action },
        action => Stage::Acting { action },
    }
}

impl<P: OneRun> Node<P> {
    /// Hands out a process that computes, with the member's view and this budget. Where there is no memory, the node is as it was.
    pub fn check_out(
        &mut self,
        alloc: Global,
        machine: &P,
        process: ProcessNo,
        budget: u32,
    ) -> Result<Task<P>, NoMemory>
        requires { MayHandOut P.stood P.left P.run.frame
            (fitness_of (P.fits_state machine.now) (P.fits_args machine.now) (P.fits_text machine.now) (P.fits_reply machine.now))
            process (record { objects = self.old.copies.objects; place = self.old.copies.applied }) budget self.old }
        ensures out { IfOk result (λ task.
            HandsOut process (record { objects = self.old.copies.objects; place = self.old.copies.applied }) budget task
            self.old self.new) }
        ensures alike { StandsAlike P.stood P.left self.old self.new }
        ensures err { OnErr result (self.new ≡ self.old) }
    {
        let view = self.copies.view(alloc)?;
        self.task_on(alloc, machine, process, view, budget)
    }

    // The same with another view, over which such a burst fits; whoever calls knows what it shows.
    fn task_on(
        &mut self,
        alloc: Global,
        _machine: &P,
        process: ProcessNo,
        view: View,
        budget: u32,
    ) -> Result<Task<P>, NoMemory>
        requires { MayHandOut P.stood P.left P.run.frame
            (fitness_of (P.fits_state _machine.now) (P.fits_args _machine.now) (P.fits_text _machine.now) (P.fits_reply _machine.now))
            process view budget self.old }
        ensures out { IfOk result (λ task. HandsOut process view budget task self.old self.new) }
        ensures alike { StandsAlike P.stood P.left self.old self.new }
        ensures err { OnErr result (self.new ≡ self.old) }
    {
        let resident = self.here(process);
        let start = resident.state.copy()?;
        let out = resident.handed_out(view.copy(alloc)?)?;
        let task = Task {
            process,
            start,
            calls: resident.calls,
            view,
            budget,
            of: PhantomData,
        };
        self.change(process, out);
        Ok(task)
    }

    // The process, which is here.
    pub(crate) fn here(&self, process: ProcessNo) -> &Resident<P::State>
        requires { IsTrue (is_some (resident_at self.now process.0)) }
        ensures { resident_at self.now process.0 ≡ Some result.now }
    {
        match self.resident(process) {
            Some(resident) => resident,
            None => unreachable!(),
        }
    }

    // The process, which is here, stands so from now on.
    pub(crate) fn change(&mut self, process: ProcessNo, resident: Resident<P::State>)
        requires { process.0 < length self.old.residents.items }
        ensures { HasChanged process.0 resident self.old self.new }
    {
        set_at(&mut self.residents, process.0 as usize, resident);
    }

    /// A burst that was computed is checked in: its reads are performed at its view's place, and the process stands where it ended.
    ///
    /// Stray comes exactly where no task of the process is out, its state or the number of its replies isn't the start's, or the view that
    /// is out is another. The node is then as it was.
    pub fn check_in(&mut self, done: Done<P>) -> Result<CheckedIn, Stray<P>>
        ensures ok { IfOk result (λ checked. HasCheckedIn P.stood P.left P.run.frame done checked self.old self.new) }
        ensures stray { IfErr result (λ stray. IsStray done stray.done self.old self.new) }
    {
        if !self.is_of(&done) {
            return Err(Stray { done });
        }
        Ok(self.take_in(done))
    }

    // Whether it was computed from the task of its process that is out.
    fn is_of(&self, done: &Done<P>) -> bool
        ensures { IsTrue result ↔ IsOutFor done.now (resident_at self.now done.now.process.0) }
    {
        match self.resident(done.process) {
            Some(resident) => is_out_for(resident, done),
            None => false,
        }
    }

    // The process stands where the burst ended.
    fn take_in(&mut self, done: Done<P>) -> CheckedIn
        requires { IsOutFor done (resident_at self.old done.process.0) }
        ensures { HasCheckedIn P.stood P.left P.run.frame done result self.old self.new }
    {
        let resident = self.here(done.process);
        let place = done.view.place();
        let reads = done.reads.len() as u64;
        let after = resident.after_burst(done.end, done.turns, done.stage, place, reads);
        self.change(done.process, after);
        CheckedIn {
            place,
            reads: done.reads,
        }
    }

    /// Ends every task that is out. The processes are ready again, and nothing else changes.
    pub fn recall(&mut self)
        ensures recalled { HasRecalled self.old self.new }
        ensures alike { StandsAlike P.stood P.left self.old self.new }
    {
        recall_all(&mut self.residents);
    }
}

// Whether it was computed from the task of this process, which is out.
fn is_out_for<P: OneRun>(resident: &Resident<P::State>, done: &Done<P>) -> bool
    ensures { IsTrue result ↔ IsOutFor done.now (Some resident.now) }
{
    let Some(view) = &resident.out else {
        return false;
    };
    view.same(&done.view)
        && P::same(resident.state.value(), done.start.value())
        && resident.calls == done.calls
}

// No task of these processes is out any more.
fn recall_all<S: Drop>(residents: &mut Vec<Option<Resident<S>>>)
    ensures { residents.new.items ≡ map recalled residents.old.items }
{
    'residents: for at in 0..residents.len() {
        recall_one(&mut residents[at]);
    }
}

// No task of this process is out any more, where there is one.
fn recall_one<S: Drop>(resident: &mut Option<Resident<S>>)
    ensures { resident.new ≡ recalled resident.old }
{
    if let Some(resident) = resident {
        resident.out = None;
    }
}
