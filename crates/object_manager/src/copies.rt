//! One member's copies.

ghost use Rattle.std.specs.Prelude.{◌≡◌, ◌<◌, ◌≤◌, ◌^◌, ◌-◌, ◌↔◌, IfOk, IfErr, OnOk, OnErr, IsTrue, None, [], false, if◌then◌else◌, length};
ghost use Rattle.value_core.specs.History.{forked, object_at, output_kind, output_object, with_object};
ghost use Rattle.guard_queue.specs.Changes.{JoinsBlocked};
ghost use Rattle.guard_queue.specs.Fitting.{kind_at};
ghost use Rattle.guard_queue.specs.Settles.{lines_of, tried_on};
ghost use Rattle.guard_queue.specs.Shown.{with_all};
ghost use Rattle.guard_queue.specs.Waits.{IsWaiting};
ghost use Rattle.object_manager.specs.After.{acted, after, lines_after, opening_copies};
ghost use Rattle.object_manager.specs.Acts.{acts};
ghost use Rattle.object_manager.specs.Applies.{Applies, AppliesSingle, CopiesBlocked, CopiesFit};
ghost use Rattle.object_manager.specs.Limits.{IfLimit, made_objects, most_objects, most_processes, objects_limit, processes_limit, too_many};
ghost use Rattle.object_manager.specs.Singles.{AreCounted, IsBoth, IsCounted, IsMake, after_passed, after_single, counted_by, kept_by, lines_single, side};
ghost use Rattle.object_manager.specs.State.{HasNoSingles, IsState, state_of};
ghost use Rattle.object_manager.specs.Viewed.{ReadFits};
ghost use Rattle.object_manager.specs.Whole.{IsWhole};
ghost use Rattle.object_manager.specs.declared.copies.ApplyError.TheVariants.{NoMemory as Without};

use crate::acts::{Acted, answer_of, call_of, call_on, plain_line, put_made};
use crate::state::{CopiesState, entries_of, messages_of, objects_from, queue_from};
use crate::view::View;
use guard_queue::{Answered, Change, Objects, Queue, settle_after, try_on};
use orca_base::{KindNo, NoMemory, OBJECTS, ObjectId, OpNo, PROCESSES, ProcessNo, What};
use std::alloc::Global;
use std::marker::Model;
use value_core::{Action, Instance, Making, Message, Parts, Performer, Reply, Tried};

/// Why a message wasn't applied.
#[derive(Clone, Copy, Debug, PartialEq, Eq)]
pub enum ApplyError {
    /// It would make one object or process more than a run may have, which is this number.
    Limit { what: What, number: u64 },
    /// There was no memory.
    NoMemory,
}

impl From<NoMemory> for ApplyError {
    ghost from_gives = { λ _ e. e ≡ Without };

    fn from(_: NoMemory) -> ApplyError {
        ApplyError::NoMemory
    }
}

/// One member's copies: the replicated objects and the suspended calls on them, the number of processes and of applied entries, the
/// single objects that were made, those of them that are kept here, and the suspended calls on these.
pub struct Copies {
    objects: Objects,
    queue: Queue,
    processes: u16,
    applied: u64,
    singles: Vec<(ObjectId, KindNo)>,
    own: Objects,
    waits: Queue,
}

impl Model for Copies {
    ghost use Rattle.object_manager.specs.After.{Copied};

    ghost Value = { Copied };

    ghost use Rattle.std.specs.Coded.{codes};
    ghost use Rattle.value_core.specs.Code.{data_code};

    ghost coded = { Prim.hlevel (codes, data_code) };

    ghost view = { λ c. record {
      objects = c.objects;
      queue = c.queue;
      processes = c.processes;
      applied = c.applied;
      singles = c.singles.items;
      own = c.own;
      waits = c.waits;
    } };

    ghost use Rattle.object_manager.specs.Whole.{IsWhole};

    ghost invariant = { λ c. IsWhole (record {
      objects = c.objects;
      queue = c.queue;
      processes = c.processes;
      applied = c.applied;
      singles = c.singles.items;
      own = c.own;
      waits = c.waits;
    }) };
}

// By hand, so that copies that are dropped are one call, and aren't laid out part by part wherever that happens.
impl Drop for Copies {
    fn drop(self) {
        let Copies {
            objects: _objects,
            queue: _queue,
            processes: _,
            applied: _,
            singles: _singles,
            own: _own,
            waits: _waits,
        } = self;
    }
}

impl Copies {
    /// Before the first entry: the output object, and process 0.
    pub fn opening(alloc: Global) -> Result<Copies, NoMemory>
        ensures { IfOk result (λ c. c ≡ opening_copies) }
    {
        let mut objects = Objects::new(alloc)?;
        let output = Instance {
            kind: KindNo::OUTPUT,
            state: Parts::new(alloc),
        };
        objects.put(alloc, ObjectId::OUTPUT, output)?;
        Ok(Copies {
            objects,
            queue: Queue::new(alloc),
            processes: 1,
            applied: 0,
            singles: Vec::new(alloc),
            own: Objects::new(alloc)?,
            waits: Queue::new(alloc),
        })
    }

    /// Equal copies.
    pub fn copy(&self, alloc: Global) -> Result<Copies, NoMemory>
        ensures { IfOk result (λ c. c ≡ self.now) }
    {
        Ok(Copies {
            objects: self.objects.copy(alloc)?,
            queue: self.queue.copy(alloc)?,
            processes: self.processes,
            applied: self.applied,
            singles: Vec::from_slice(alloc, &self.singles)?,
            own: self.own.copy(alloc)?,
            waits: self.waits.copy(alloc)?,
        })
    }

    /// The replicated objects. The output object is always among them.
    pub fn objects(&self) -> &Objects
        ensures objects { result.now ≡ self.now.objects }
        ensures output { kind_at result.now output_object ≡ Some output_kind }
    {
        &self.objects
    }

    /// The single objects that are kept here. Each was counted, by its type.
    pub fn own(&self) -> &Objects
        ensures objects { result.now ≡ self.now.own }
        ensures counted { AreCounted result.now self.now.singles }
    {
        &self.own
    }

    /// All objects that are kept here, replicated and single ones, as one. No object is both.
    pub fn held(&self, alloc: Global) -> Result<Objects, NoMemory>
        ensures { IfOk result (λ o. IsBoth o self.now.objects self.now.own) }
    {
        let objects = self.objects.copy(alloc)?;
        if self.own.len() == 0 {
            return Ok(objects);
        }
        with_entries(alloc, objects, self.own.entries(alloc)?)
    }

    /// What is always so of copies is so of these. A call of this does nothing.
    pub fn whole(&self)
        ensures { IsWhole self.now }
    {
        let _ = &self.objects;
    }

    /// Whether an object was counted as single.
    pub fn has_singles(&self) -> bool
        ensures { result ≡ false ↔ (self.now.singles ≡ []) }
    {
        !self.singles.is_empty()
    }

    /// Whether the object was counted as single.
    pub fn is_counted(&self, object: ObjectId) -> bool
        ensures { IsTrue result ↔ IsCounted self.now.singles object }
    {
        is_among(&self.singles, object)
    }

    /// The number of processes, process 0 counted.
    pub fn processes(&self) -> u16
        ensures processes { result ≡ self.now.processes }
        ensures some { 1 ≤ result }
        ensures few { result ≤ most_processes }
    {
        self.processes
    }

    /// The number of applied entries.
    pub fn applied(&self) -> u64
        ensures { result ≡ self.now.applied }
    {
        self.applied
    }

    /// Whether the process has a suspended call on a replicated object.
    pub fn is_suspended(&self, process: ProcessNo) -> bool
        ensures { IsTrue result ↔ IsWaiting self.now.queue process }
    {
        self.queue.has(process)
    }

    /// Whether the process has a suspended call on a single object that is kept here.
    pub fn is_waiting(&self, process: ProcessNo) -> bool
        ensures { IsTrue result ↔ IsWaiting self.now.waits process }
    {
        self.waits.has(process)
    }

    /// What a try of the operation gives on the replicated objects.
    pub fn read<P: Performer>(
        &self,
        alloc: Global,
        performer: &P,
        kind: KindNo,
        op: OpNo,
        object: ObjectId,
        args: &Parts,
    ) -> Result<Tried, NoMemory>
        requires { ReadFits (P.fits_state performer.now) (P.fits_args performer.now) self.now.objects kind op object args.now }
        ensures { IfOk result (λ t. t ≡ tried_on (P.performs performer.now) self.now.objects kind op object args.now) }
    {
        try_on(alloc, performer, &self.objects, kind, op, object, args)
    }

    /// A snapshot of the replicated objects, which stays as it is while the copies go on. It costs some counts.
    pub fn view(&self, alloc: Global) -> Result<View, NoMemory>
        ensures { IfOk result (λ v. v ≡ record { objects = self.now.objects; place = self.now.applied }) }
    {
        Ok(View::new(self.objects.copy(alloc)?, self.applied))
    }

    /// The copies as they are sent to a member that joins late, where no object was counted as single.
    pub fn state(&self, alloc: Global) -> Result<CopiesState, NoMemory>
        requires { self.now.singles ≡ [] }
        ensures state { IfOk result (λ s. s ≡ state_of self.now) }
        ensures fits { IfOk result IsState }
    {
        Ok(CopiesState {
            applied: self.applied,
            processes: self.processes,
            objects: entries_of(alloc, &self.objects)?,
            queue: messages_of(alloc, &self.queue)?,
        })
    }

    /// The copies that have this state, and no single objects.
    pub fn from_state(alloc: Global, state: CopiesState) -> Result<Copies, NoMemory>
        requires { IsState state }
        ensures state { IfOk result (λ c. state_of c ≡ state) }
        ensures plain { IfOk result HasNoSingles }
    {
        Ok(Copies {
            objects: objects_from(alloc, &state.objects)?,
            queue: queue_from(alloc, &state.queue)?,
            processes: state.processes,
            applied: state.applied,
            singles: Vec::new(alloc),
            own: Objects::new(alloc)?,
            waits: Queue::new(alloc),
        })
    }

    /// One more entry is applied where each suspended call is blocked: the message's action, and then the queue settles. The
    /// lines are in the order in which they ran.
    ///
    /// Limit comes where the message would make the 4,097th object, the output object not counted, or the 257th process,
    /// process 0 counted. A making that faults makes none.
    pub fn apply<P: Performer>(
        &mut self,
        alloc: Global,
        performer: &P,
        message: &Message,
    ) -> Result<Vec<Answered>, ApplyError>
        requires fits { CopiesFit (P.fits_state performer.now) (P.fits_args performer.now) self.old }
        requires blocked { CopiesBlocked (P.performs performer.now) self.old }
        requires applies { Applies (P.fits_args performer.now) self.old message.now.action }
        requires room { self.old.applied < 2 ^ 64 - 1 }
        ensures after { OnOk result (self.new ≡ after (P.performs performer.now) self.old message.now) }
        ensures lines { IfOk result (λ all. lines_of all.items ≡ lines_after (P.performs performer.now) self.old message.now) }
        ensures blocked { CopiesBlocked (P.performs performer.now) self.new }
        ensures within { OnOk result (too_many (P.performs performer.now) self.old message.now.action ≡ None) }
        ensures limit { IfErr result (λ e. IfLimit e (too_many (P.performs performer.now) self.old message.now.action)) }
        ensures err { OnErr result (self.new ≡ self.old) }
        ensures fits { CopiesFit (P.fits_state performer.now) (P.fits_args performer.now) self.new }
    {
        let acted = self.act(alloc, performer, message)?;
        let lines = settle_after(
            alloc,
            performer,
            &mut self.objects,
            &mut self.queue,
            acted.change,
            acted.lines,
        )?;
        self.processes += acted.forks;
        self.applied += 1;
        Ok(lines)
    }

    /// One more entry is applied, which makes a single object, where each suspended call is blocked: the object is counted, and
    /// its state is kept here exactly where `keeps` is true. The replicated objects and the calls on them stay.
    ///
    /// Limit comes where the message would make the 4,097th object, as in `apply`.
    pub fn pass_make<P: Performer>(
        &mut self,
        alloc: Global,
        performer: &P,
        message: &Message,
        keeps: bool,
    ) -> Result<Vec<Answered>, ApplyError>
        requires make { IsMake message.now.action }
        requires fits { CopiesFit (P.fits_state performer.now) (P.fits_args performer.now) self.old }
        requires blocked { CopiesBlocked (P.performs performer.now) self.old }
        requires applies { Applies (P.fits_args performer.now) self.old message.now.action }
        requires room { self.old.applied < 2 ^ 64 - 1 }
        ensures after { OnOk result (self.new ≡ after_passed (P.performs performer.now) keeps self.old message.now) }
        ensures lines { IfOk result (λ all. lines_of all.items ≡ (acted (P.performs performer.now) self.old message.now).lines) }
        ensures blocked { CopiesBlocked (P.performs performer.now) self.new }
        ensures within { OnOk result (too_many (P.performs performer.now) self.old message.now.action ≡ None) }
        ensures limit { IfErr result (λ e. IfLimit e (too_many (P.performs performer.now) self.old message.now.action)) }
        ensures err { OnErr result (self.new ≡ self.old) }
        ensures fits { CopiesFit (P.fits_state performer.now) (P.fits_args performer.now) self.new }
    {
        let Action::Make { kind, object } = &message.action else {
            unreachable!()
        };
        let applied = self.applied + 1;
        let making = self.make(alloc, performer, *kind)?;
        let lines = plain_line(alloc, message, answer_of(&making))?;
        self.count(alloc, *kind, *object, making, keeps)?;
        self.applied = applied;
        Ok(lines)
    }

    /// A call on a single object that is kept here, where each suspended call is blocked: it is tried, or joins those that wait
    /// here, and then these settle. The lines are in the order in which they ran. The call is no entry.
    pub fn call_single<P: Performer>(
        &mut self,
        alloc: Global,
        performer: &P,
        message: &Message,
    ) -> Result<Vec<Answered>, NoMemory>
        requires fits { CopiesFit (P.fits_state performer.now) (P.fits_args performer.now) self.old }
        requires blocked { CopiesBlocked (P.performs performer.now) self.old }
        requires call { AppliesSingle (P.fits_args performer.now) self.old message.now.action }
        ensures after { OnOk result (self.new ≡ after_single (P.performs performer.now) self.old message.now) }
        ensures lines { IfOk result (λ all. lines_of all.items ≡ lines_single (P.performs performer.now) self.old message.now) }
        ensures blocked { CopiesBlocked (P.performs performer.now) self.new }
        ensures err { OnErr result (self.new ≡ self.old) }
        ensures fits { CopiesFit (P.fits_state performer.now) (P.fits_args performer.now) self.new }
    {
        let acted = self.act_single(alloc, performer, message)?;
        Ok(settle_after(
            alloc,
            performer,
            &mut self.own,
            &mut self.waits,
            acted.change,
            acted.lines,
        )?)
    }

    // What the message itself does, before the queue settles. Nothing is changed yet.
    fn act<P: Performer>(
        &self,
        alloc: Global,
        performer: &P,
        message: &Message,
    ) -> Result<Acted, ApplyError>
        requires fits { CopiesFit (P.fits_state performer.now) (P.fits_args performer.now) self.now }
        requires applies { Applies (P.fits_args performer.now) self.now message.now.action }
        ensures acted { IfOk result (λ a. acts self.now.objects self.now.queue a.change a.lines
            ≡ acted (P.performs performer.now) self.now message.now) }
        ensures joins { IfOk result (λ a. JoinsBlocked (P.performs performer.now) self.now.objects a.change) }
        ensures forks { IfOk result (λ a. a.forks ≡ length (forked message.now.action)) }
        ensures within { OnOk result (too_many (P.performs performer.now) self.now message.now.action ≡ None) }
        ensures limit { IfErr result (λ e. IfLimit e (too_many (P.performs performer.now) self.now message.now.action)) }
    {
        let (reply, change, forks) = match &message.action {
            Action::Make { kind, object } => {
                let making = self.make(alloc, performer, *kind)?;
                (answer_of(&making), put_made(*kind, *object, making), 0)
            }
            Action::Fork { .. } => {
                self.can_fork()?;
                (Reply::Done, Change::Nothing, 1)
            }
            Action::Call {
                kind,
                op,
                object,
                args,
            } => {
                let call = call_of(alloc, message, *kind, *op, *object, args)?;
                return Ok(call_on(alloc, performer, &self.objects, call)?);
            }
            Action::Ended | Action::Faulted { .. } => unreachable!(),
        };
        Ok(Acted {
            change,
            lines: plain_line(alloc, message, reply)?,
            forks,
        })
    }

    // What a call on a single object itself does, before those that wait settle. Nothing is changed yet.
    fn act_single<P: Performer>(
        &self,
        alloc: Global,
        performer: &P,
        message: &Message,
    ) -> Result<Acted, NoMemory>
        requires fits { CopiesFit (P.fits_state performer.now) (P.fits_args performer.now) self.now }
        requires call { AppliesSingle (P.fits_args performer.now) self.now message.now.action }
        ensures acted { IfOk result (λ a. acts self.now.own self.now.waits a.change a.lines
            ≡ acted (P.performs performer.now) (side self.now) message.now) }
        ensures joins { IfOk result (λ a. JoinsBlocked (P.performs performer.now) self.now.own a.change) }
    {
        let Action::Call {
            kind,
            op,
            object,
            args,
        } = &message.action
        else {
            unreachable!()
        };
        let call = call_of(alloc, message, *kind, *op, *object, args)?;
        Ok(call_on(alloc, performer, &self.own, call)?)
    }

    // A single object that was made is counted, and kept here where that is asked.
    fn count(
        &mut self,
        alloc: Global,
        kind: KindNo,
        object: ObjectId,
        making: Making,
        keeps: bool,
    ) -> Result<(), NoMemory>
        requires limit { objects_limit self.old making ≡ None }
        requires absent { object_at self.old.objects object ≡ None }
        ensures ok { OnOk result (self.new ≡ record self.old {
          singles = counted_by making kind object self.old.singles;
          own = kept_by keeps making kind object self.old.own;
        }) }
        ensures err { OnErr result (self.new ≡ self.old) }
    {
        let Making::Made { state } = making else {
            return Ok(());
        };
        let own = kept_if(alloc, &self.own, keeps, object, Instance { kind, state })?;
        self.singles.push((object, kind))?;
        self.own = own;
        Ok(())
    }

    // What a making gives, where a run may have one object more or it faults.
    fn make<P: Performer>(
        &self,
        alloc: Global,
        performer: &P,
        kind: KindNo,
    ) -> Result<Making, ApplyError>
        ensures making { IfOk result (λ making. making ≡ (P.performs performer.now).made kind) }
        ensures within { OnOk result (objects_limit self.now ((P.performs performer.now).made kind) ≡ None) }
        ensures limit { IfErr result (λ e. IfLimit e (objects_limit self.now ((P.performs performer.now).made kind))) }
    {
        match performer.make(alloc, kind)? {
            Making::Made { .. } if self.is_full() => Err(ApplyError::Limit {
                what: What::Objects,
                number: u64::from(OBJECTS),
            }),
            making => Ok(making),
        }
    }

    // Whether as many objects were made as a run may have.
    fn is_full(&self) -> bool
        ensures { IsTrue result ↔ (most_objects ≤ made_objects self.now) }
    {
        self.objects.len() + self.singles.len() > OBJECTS as usize
    }

    // Whether one more process may be there.
    fn can_fork(&self) -> Result<(), ApplyError>
        ensures within { OnOk result (processes_limit self.now.processes ≡ None) }
        ensures limit { IfErr result (λ e. IfLimit e (processes_limit self.now.processes)) }
    {
        if u32::from(self.processes) >= PROCESSES {
            return Err(ApplyError::Limit {
                what: What::Processes,
                number: u64::from(PROCESSES),
            });
        }
        Ok(())
    }
}

// The objects with these put in.
fn with_entries(
    alloc: Global,
    objects: Objects,
    entries: Vec<(ObjectId, Instance)>,
) -> Result<Objects, NoMemory>
    ensures { IfOk result (λ o. o ≡ with_all objects entries.items) }
{
    let mut all = objects;
    for (object, kept) in entries {
        all.put(alloc, object, kept)?;
    }
    Ok(all)
}

// The objects with this one put in, where that is asked.
fn kept_if(
    alloc: Global,
    own: &Objects,
    keeps: bool,
    object: ObjectId,
    kept: Instance,
) -> Result<Objects, NoMemory>
    ensures { IfOk result (λ o. o ≡ (if keeps then with_object own.now object kept else own.now)) }
{
    if !keeps {
        return own.copy(alloc);
    }
    let mut after = own.copy(alloc)?;
    after.put(alloc, object, kept)?;
    Ok(after)
}

// Whether there is a pair with this object.
fn is_among(pairs: &[(ObjectId, KindNo)], object: ObjectId) -> bool
    ensures { IsTrue result ↔ IsCounted pairs.now object }
{
    for pair in pairs {
        if pair.0 == object {
            return true;
        }
    }
    false
}
