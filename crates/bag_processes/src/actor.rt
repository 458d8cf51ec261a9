//! A process.

ghost use Rattle.std.specs.Prelude.{◌≡◌, IfOk};
ghost use Rattle.value_core.specs.Datum as datum;
ghost use Rattle.value_core.specs.declared.action.Action.TheVariants as acts;
ghost use Rattle.bag_processes.specs.Scripts.{action_at, forking, its_object, making, next, on_flag, on_pool, with_number};

use bag_performer::Bags;
use orca_base::{KindNo, NoMemory, ObjectId, OpNo, ProcessNo, TextNo};
use std::alloc::Global;
use value_core::{Action, Parts, Reply, Value};

// The place of a process that has ended.
const LAST: u8 = 9;

/// A process: its text, its number, and how many actions it did, or 9 where it has ended.
#[derive(Clone, Copy, Debug, PartialEq, Eq)]
pub struct Actor {
    pub(crate) text: TextNo,
    pub(crate) number: ProcessNo,
    pub(crate) place: u8,
}

// Where a process stands after a reply: a fault ends it.
pub(crate) fn next(place: u8, reply: &Reply) -> u8
    ensures { result ≡ next place reply.now }
{
    match reply {
        Reply::Done | Reply::Gave { .. } => { if place < LAST { place + 1 } else { LAST } }
        Reply::Broke { .. } => LAST,
    }
}

impl Actor {
    // Its next action.
    pub(crate) fn action(&self, alloc: Global) -> Result<Action, NoMemory>
        ensures { IfOk result (λ a. a ≡ action_at self.now.text self.now.number self.now.place) }
    {
        if self.place == 0 {
            Ok(self.making())
        } else if self.text.0 == 0 {
            self.on_flag(alloc)
        } else if self.text.0 == 1 {
            self.on_pool(alloc)
        } else {
            Ok(Action::Ended)
        }
    }

    // The object that it makes.
    fn object(&self) -> ObjectId
        ensures { result ≡ record { process = self.now.number.0; number = 1 } }
    {
        ObjectId {
            process: self.number.0,
            number: 1,
        }
    }

    // Its first action makes its object.
    fn making(&self) -> Action
        ensures { result ≡ making self.now.text self.now.number }
    {
        let kind = if self.text.0 == 0 {
            Bags::FLAG
        } else if self.text.0 == 1 {
            Bags::POOL
        } else {
            Bags::BROKEN
        };
        Action::Make {
            kind,
            object: self.object(),
        }
    }

    // A call of its object with these arguments.
    fn call(&self, kind: KindNo, op: OpNo, args: Parts) -> Action
        ensures { result ≡ acts.Call kind op (its_object self.now.number) args }
    {
        Action::Call {
            kind,
            op,
            object: self.object(),
            args,
        }
    }

    // What the first text does with its flag: it sets it to 1, forks, steps, forks again.
    fn on_flag(&self, alloc: Global) -> Result<Action, NoMemory>
        ensures { IfOk result (λ a. a ≡ on_flag self.now.number self.now.place) }
    {
        if self.place == 1 {
            Ok(self.call(Bags::FLAG, Bags::SET, one(alloc, 1)?))
        } else if self.place == 2 {
            Ok(fork(alloc, TextNo(1)))
        } else if self.place == 3 {
            Ok(self.call(Bags::FLAG, Bags::STEP, nothing(alloc)))
        } else if self.place == 4 {
            Ok(fork(alloc, TextNo(2)))
        } else {
            Ok(Action::Ended)
        }
    }

    // What the second text does with its pool: it puts 5 in, takes it out, and then waits for ever.
    fn on_pool(&self, alloc: Global) -> Result<Action, NoMemory>
        ensures { IfOk result (λ a. a ≡ on_pool self.now.number self.now.place) }
    {
        if self.place == 1 {
            Ok(self.call(Bags::POOL, Bags::PUT, one(alloc, 5)?))
        } else if self.place < 4 {
            Ok(self.call(Bags::POOL, Bags::TAKE, nothing(alloc)))
        } else {
            Ok(Action::Ended)
        }
    }
}

// No arguments.
fn nothing(alloc: Global) -> Parts
    ensures { result ≡ datum.none }
{
    Parts::new(alloc)
}

// This integer alone.
fn one(alloc: Global, number: i64) -> Result<Parts, NoMemory>
    ensures { IfOk result (λ p. p ≡ with_number number) }
{
    let mut values = Parts::new(alloc);
    values.push(Value::Int(number))?;
    Ok(values)
}

// A fork of this text without arguments.
fn fork(alloc: Global, text: TextNo) -> Action
    ensures { result ≡ forking text }
{
    Action::Fork {
        process: text,
        args: nothing(alloc),
        place_on: None,
    }
}
