//! Settling.

ghost use Rattle.std.specs.Prelude.{◌≡◌, ◌<◌, ◌+◌, length, slice_get, IfOk, OnErr, OnOk, IsSome, option_map};
ghost use Rattle.value_core.specs.History.{object_at};
ghost use Rattle.value_core.specs.Fits.{Kinds};
ghost use Rattle.guard_queue.specs.Changes.{ChangeFits, JoinsBlocked, KeepsFitting, after_put, outcome};
ghost use Rattle.guard_queue.specs.Fitting.{CanTry, CanTryCall, GoOnFitting, SomeFit};
ghost use Rattle.guard_queue.specs.Settles.{AllBlocked, IsFound, answered, next_ready, objects_with, settled, settled_from};
ghost use Rattle.guard_queue.specs.Settles.{stands, taken, tried_in, tried_on, with_state};
ghost use Rattle.guard_queue.specs.declared.change.Change.TheVariants.{Puts};
ghost use Rattle.guard_queue.specs.Rounds.{IsTriedAt, OthersBlocked, settling_of};

use crate::change::Change;
use crate::objects::Objects;
use crate::queue::{Queue, Suspended};
use orca_base::{KindNo, NoMemory, ObjectId, OpNo};
use std::alloc::Global;
use value_core::{Action, Instance, Line, Parts, Performer, Reply, Tried};

/// An operation that was performed, as its line of the history.
#[derive(Debug, Drop, PartialEq, Eq)]
pub struct Answered {
    pub line: Line,
}

/// Repeatedly the oldest suspended call whose try isn't blocked is performed or faults and leaves the queue, until each is
/// blocked. The lines are in the order in which the calls ran.
///
/// Each call of the queue is tried at most once a round.
pub fn settle<P: Performer>(
    alloc: Global,
    performer: &P,
    objects: &mut Objects,
    queue: &mut Queue,
) -> Result<Vec<Answered>, NoMemory>
    requires { SomeFit (P.fits_state performer.now) (P.fits_args performer.now) objects.old queue.old }
    ensures ok { IfOk result (λ a. stands objects.new queue.new a ≡ settled (P.performs performer.now) objects.old queue.old) }
    ensures blocked { OnOk result (AllBlocked (P.performs performer.now) objects.new queue.new) }
    ensures err { OnErr result ((objects.new ≡ objects.old) × (queue.new ≡ queue.old)) }
    ensures fits { GoOnFitting (P.fits_state performer.now) (P.fits_args performer.now) objects.old queue.old objects.new queue.new }
{
    let mut rounds = Rounds {
        objects: objects.copy(alloc)?,
        queue: queue.copy(alloc)?,
        lines: Vec::new(alloc),
    };
    rounds.settle(alloc, performer, None)?;
    *objects = rounds.objects;
    *queue = rounds.queue;
    Ok(rounds.lines)
}

/// A message's change is made where each suspended call is blocked, and then the queue settles. The lines of the calls that ran
/// come behind these.
///
/// Only the calls on an object that was put in are tried.
pub fn settle_after<P: Performer>(
    alloc: Global,
    performer: &P,
    objects: &mut Objects,
    queue: &mut Queue,
    change: Change,
    lines: Vec<Answered>,
) -> Result<Vec<Answered>, NoMemory>
    requires fits { (kinds : Kinds) ×
        ChangeFits (P.fits_state performer.now) (P.fits_args performer.now) kinds objects.old queue.old change }
    requires blocked { AllBlocked (P.performs performer.now) objects.old queue.old }
    requires joins { JoinsBlocked (P.performs performer.now) objects.old change }
    ensures ok { IfOk result (λ a. stands objects.new queue.new a ≡ outcome (P.performs performer.now) objects.old queue.old change lines) }
    ensures blocked { AllBlocked (P.performs performer.now) objects.new queue.new }
    ensures err { OnErr result ((objects.new ≡ objects.old) × (queue.new ≡ queue.old)) }
    ensures fits { KeepsFitting (P.fits_state performer.now) (P.fits_args performer.now) objects.old queue.old change
        objects.new queue.new }
{
    match change {
        Change::Nothing => Ok(lines),
        Change::Joins { call } => {
            queue.push(alloc, call)?;
            Ok(lines)
        }
        Change::Puts { object, kept } => {
            settle_with(alloc, performer, objects, queue, object, kept, lines)
        }
    }
}

/// What a try of the operation gives on these objects. Where the object doesn't exist it is blocked.
pub fn try_on<P: Performer>(
    alloc: Global,
    performer: &P,
    objects: &Objects,
    kind: KindNo,
    op: OpNo,
    object: ObjectId,
    args: &Parts,
) -> Result<Tried, NoMemory>
    requires { CanTry (P.fits_state performer.now) (P.fits_args performer.now) objects.now kind op object args.now }
    ensures { IfOk result (λ t. t ≡ tried_on (P.performs performer.now) objects.now kind op object args.now) }
{
    match objects.get(object) {
        None => Ok(Tried::Blocked),
        Some(kept) => performer.try_op(alloc, kind, op, &kept.state, args),
    }
}

/// What a try of the call gives on these objects.
pub fn try_call<P: Performer>(
    alloc: Global,
    performer: &P,
    objects: &Objects,
    call: &Suspended,
) -> Result<Tried, NoMemory>
    requires { CanTryCall (P.fits_state performer.now) (P.fits_args performer.now) objects.now call.now }
    ensures { IfOk result (λ t. t ≡ tried_in (P.performs performer.now) objects.now call.now) }
{
    match objects.get(call.object) {
        None => Ok(Tried::Blocked),
        Some(kept) => performer.try_op(alloc, call.kind, call.op, &kept.state, &call.args),
    }
}

/// What a call does and answers, by what its try gave: its line, and its object's new state where the try left one.
pub fn perform(objects: &Objects, call: Suspended, tried: Tried) -> (Line, Option<Instance>)
    ensures line { result.0 ≡ answered call tried }
    ensures objects { with_state objects.now call.object result.1 ≡ objects_with objects.now call tried }
    ensures there { IsSome result.1 → IsSome (object_at objects.now call.object) }
{
    let (guard, reply, kept) = match tried {
        Tried::Blocked => (0, Reply::Done, None),
        Tried::Did {
            guard,
            state,
            reply,
        } => {
            let kept = objects.get(call.object).map(|kept| kept.kind);
            (guard, reply, kept.map(|kind| Instance { kind, state }))
        }
        Tried::Broke { guard, fault } => (guard, Reply::Broke { fault }, None),
    };
    let line = Line {
        process: call.process,
        call: call.call,
        action: Action::Call {
            kind: call.kind,
            op: call.op,
            object: call.object,
            args: call.args,
        },
        guard,
        reply,
    };
    (line, kept)
}

// An object is put in, and then the calls on it settle.
fn settle_with<P: Performer>(
    alloc: Global,
    by: &P,
    objects: &mut Objects,
    queue: &mut Queue,
    object: ObjectId,
    kept: Instance,
    lines: Vec<Answered>,
) -> Result<Vec<Answered>, NoMemory>
    requires fits { (kinds : Kinds) × ChangeFits (P.fits_state by.now) (P.fits_args by.now) kinds objects.old queue.old (Puts object kept) }
    requires blocked { AllBlocked (P.performs by.now) objects.old queue.old }
    ensures ok { IfOk result (λ a. stands objects.new queue.new a ≡ after_put (P.performs by.now) objects.old object kept queue.old lines) }
    ensures blocked { OnOk result (AllBlocked (P.performs by.now) objects.new queue.new) }
    ensures fits { KeepsFitting (P.fits_state by.now) (P.fits_args by.now) objects.old queue.old (Puts object kept) objects.new queue.new }
    ensures err { OnErr result ((objects.new ≡ objects.old) × (queue.new ≡ queue.old)) }
{
    if !queue.has_on(object) {
        objects.put(alloc, object, kept)?;
        return Ok(lines);
    }
    objects.gather(alloc)?;
    let mut rounds = Rounds {
        objects: objects.copy(alloc)?,
        queue: queue.copy(alloc)?,
        lines,
    };
    rounds.objects.put(alloc, object, kept)?;
    rounds.settle(alloc, by, Some(object))?;
    *objects = rounds.objects;
    *queue = rounds.queue;
    Ok(rounds.lines)
}

// Copies on which suspended calls settle, with the lines so far. Where memory lacks they are dropped.
#[derive(Drop)]
struct Rounds {
    objects: Objects,
    queue: Queue,
    lines: Vec<Answered>,
}

impl Rounds {
    // Rounds until each call is blocked. Where an object is named, all others' calls are.
    fn settle<P: Performer>(
        &mut self,
        alloc: Global,
        performer: &P,
        on: Option<ObjectId>,
    ) -> Result<(), NoMemory>
        requires fits { SomeFit (P.fits_state performer.now) (P.fits_args performer.now) self.old.objects self.old.queue }
        requires others { OthersBlocked (P.performs performer.now) self.old.objects self.old.queue on }
        ensures ok { OnOk result (settling_of self.new ≡ settled_from (P.performs performer.now) (settling_of self.old)) }
        ensures blocked { OnOk result (AllBlocked (P.performs performer.now) self.new.objects self.new.queue) }
        ensures fits { OnOk result (GoOnFitting (P.fits_state performer.now) (P.fits_args performer.now) self.old.objects self.old.queue
            self.new.objects self.new.queue) }
    {
        let mut ready = self.find_ready(alloc, performer, on)?;
        'rounds: while let Some((at, tried)) = ready {
            self.round(alloc, at, tried)?;
            ready = self.find_ready(alloc, performer, on)?;
        }
        Ok(())
    }

    // The call at this place, whose try gave this, is performed or faults and leaves the queue.
    fn round(&mut self, alloc: Global, at: usize, tried: Tried) -> Result<(), NoMemory>
        requires { at < length self.old.queue }
        ensures { OnOk result (settling_of self.new ≡ taken (settling_of self.old) at tried (slice_get self.old.queue at)) }
    {
        let call = self.queue.get(at).copy(alloc)?;
        let object = call.object;
        let (line, state) = perform(&self.objects, call, tried);
        self.queue.take_out(at);
        self.lines.push(Answered { line })?;
        self.write(alloc, object, state)
    }

    // The state, where there is one, is put in.
    fn write(
        &mut self,
        alloc: Global,
        object: ObjectId,
        state: Option<Instance>,
    ) -> Result<(), NoMemory>
        ensures objects { OnOk result (self.new.objects ≡ with_state self.old.objects object state) }
        ensures rest { (self.new.queue ≡ self.old.queue) × (self.new.lines ≡ self.old.lines) }
    {
        match state {
            None => Ok(()),
            Some(kept) => self.objects.put(alloc, object, kept),
        }
    }

    // The place of the oldest call that isn't blocked, with what its try gives. Where an object is named, all others' calls are.
    fn find_ready<P: Performer>(
        &self,
        alloc: Global,
        performer: &P,
        on: Option<ObjectId>,
    ) -> Result<Option<(usize, Tried)>, NoMemory>
        requires fits { SomeFit (P.fits_state performer.now) (P.fits_args performer.now) self.now.objects self.now.queue }
        requires others { OthersBlocked (P.performs performer.now) self.now.objects self.now.queue on }
        ensures place { IfOk result (λ r. next_ready (P.performs performer.now) self.now.objects self.now.queue ≡ option_map (λ x. x.0) r) }
        ensures tried { IfOk result (λ r. IsFound (P.performs performer.now) self.now.objects self.now.queue r) }
    {
        for at in 0..self.queue.len() {
            match self.try_at(alloc, performer, on, at)? {
                Tried::Blocked => {}
                tried => return Ok(Some((at, tried))),
            }
        }
        Ok(None)
    }

    // What a try of the call at this place gives. Where an object is named, no other's call is tried, since it is blocked.
    fn try_at<P: Performer>(
        &self,
        alloc: Global,
        performer: &P,
        on: Option<ObjectId>,
        at: usize,
    ) -> Result<Tried, NoMemory>
        requires fits { SomeFit (P.fits_state performer.now) (P.fits_args performer.now) self.now.objects self.now.queue }
        requires others { OthersBlocked (P.performs performer.now) self.now.objects self.now.queue on }
        requires place { at < length self.now.queue }
        ensures { IfOk result (λ t. IsTriedAt (P.performs performer.now) self.now.objects self.now.queue at t) }
    {
        let call = self.queue.get(at);
        if on.is_some_and(|object| call.object != object) {
            return Ok(Tried::Blocked);
        }
        try_call(alloc, performer, &self.objects, call)
    }
}
