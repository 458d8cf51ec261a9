//! The performer.

ghost use Rattle.std.specs.Prelude.{◌≡◌, ◌↔◌, IfOk, IsTrue};
ghost use Rattle.bag_performer.specs.Bags.{class_of, flag_tries, made, pool_tries};
ghost use Rattle.bag_performer.specs.Fitting.{FitsArgs, IsOneInteger, is_bare, takes};

use crate::pool::number_in;
use crate::{flag, pool};
use orca_base::{FaultKind, KindNo, NoMemory, OpNo};
use std::alloc::Global;
use value_core::{Class, Making, ObjectState, Parts, Performer, Tried, Value};

/// What performs operations on pools and flags.
#[derive(Clone, Copy, Debug)]
pub struct Bags;

impl Bags {
    /// A type with an array of integers, first empty. `PUT` adds one at the end, or faults where the array has its greatest
    /// size; `TAKE` has one guard, that it isn't empty, and gives the integer that is there longest.
    pub const POOL: KindNo = KindNo(1);

    /// A type with an integer, first 0. `AWAIT` is a read with one guard, that the integer is its argument. `SET` assigns.
    /// `SPOIL` assigns and then divides by zero. `STEP` has two guards: where the integer is 0 it becomes 1; where it is at
    /// most 1 it becomes 2.
    pub const FLAG: KindNo = KindNo(2);

    /// A type whose making divides by zero.
    pub const BROKEN: KindNo = KindNo(3);

    /// The pool's operation that puts an element in.
    pub const PUT: OpNo = OpNo(0);

    /// The pool's guarded operation that takes an element out.
    pub const TAKE: OpNo = OpNo(1);

    /// The flag's guarded read.
    pub const AWAIT: OpNo = OpNo(0);

    /// The flag's assignment.
    pub const SET: OpNo = OpNo(1);

    /// The flag's operation that assigns and then faults.
    pub const SPOIL: OpNo = OpNo(2);

    /// The flag's operation of two guards.
    pub const STEP: OpNo = OpNo(3);
}

impl Bags {
    /// Whether there is the operation and these arguments fit it: one integer where it takes one, else none.
    pub fn fits(kind: KindNo, op: OpNo, args: &Parts) -> bool
        ensures { IsTrue result ↔ FitsArgs kind op args.now }
    {
        if takes(kind, op) {
            is_one_integer(args)
        } else {
            is_bare(kind, op) && args.is_empty()
        }
    }
}

// Whether the operation takes an integer.
fn takes(kind: KindNo, op: OpNo) -> bool
    ensures { result ≡ takes kind op }
{
    if kind.0 == 1 {
        op.0 == 0
    } else {
        kind.0 == 2 && op.0 < 3
    }
}

// Whether there is the operation and it takes nothing.
fn is_bare(kind: KindNo, op: OpNo) -> bool
    ensures { result ≡ is_bare kind op }
{
    if kind.0 == 1 {
        op.0 == 1
    } else {
        kind.0 == 2 && op.0 == 3
    }
}

// Whether the values are one integer.
fn is_one_integer(values: &Parts) -> bool
    ensures { IsTrue result ↔ IsOneInteger values.now }
{
    values.len() == 1 && number_in(values).is_some()
}

impl Performer for Bags {
    ghost use Rattle.std.specs.Prelude.{refl};
    ghost use Rattle.value_core.specs.Sound.{AreSoundArguments};
    ghost use Rattle.bag_performer.specs.Bags.{bag_performs};
    ghost use Rattle.bag_performer.specs.Fitting.{FitsArgs, FitsReply, FitsState};
    ghost use Rattle.bag_performer.specs.Laws.{arguments_sound, leaves_fit, makes_fit, reads_keep_states, replies_fit, replies_sound, states_sound};

    ghost performs = { λ m. bag_performs };

    ghost fits_state = { λ m kinds. FitsState };

    ghost fits_args = { λ m kinds. FitsArgs };

    ghost fits_text = { λ m kinds text. AreSoundArguments };

    ghost fits_reply = { λ m. FitsReply };

    ghost output_fits = { λ m kinds. refl };

    ghost made_fits = { λ m kinds. makes_fit };

    ghost keeps_fit = { λ m kinds kind op state args fits given. leaves_fit kind op state args fits given };

    ghost replies_fit = { λ m kinds kind op state args fits given. replies_fit kind op state args fits };

    ghost reads_keep = { λ m kinds kind op state args reads fits given. reads_keep_states kind op state args reads };

    ghost state_stays_fit = { λ m kinds more kind state extends fits. fits };

    ghost args_stay_fit = { λ m kinds more kind op args extends fits. fits };

    ghost text_stays_fit = { λ m kinds more text args extends fits. fits };

    ghost state_sound = { λ m kinds. states_sound };

    ghost args_sound = { λ m kinds. arguments_sound };

    ghost text_sound = { λ m kinds text args numbered fits. fits };

    ghost reply_sound = { λ m. replies_sound };

    fn class(&self, kind: KindNo, op: OpNo) -> Class {
        if kind.0 == 2 && op.0 == 0 {
            Class::Reads
        } else {
            Class::Writes
        }
    }

    fn make(&self, alloc: Global, kind: KindNo) -> Result<Making, NoMemory> {
        if kind.0 == 1 {
            let state = pool::one_array(alloc, Parts::new(alloc))?;
            Ok(Making::Made { state })
        } else if kind.0 == 2 {
            let state = pool::one(alloc, Value::Int(0))?;
            Ok(Making::Made { state })
        } else {
            Ok(Making::Broke {
                fault: FaultKind::DivideByZero,
            })
        }
    }

    fn try_op(
        &self,
        alloc: Global,
        kind: KindNo,
        op: OpNo,
        state: &ObjectState,
        args: &Parts,
    ) -> Result<Tried, NoMemory> {
        if kind.0 == 1 {
            pool::try_op(alloc, op, state, args)
        } else if kind.0 == 2 {
            flag::try_op(alloc, op, state, args)
        } else {
            Ok(Tried::Blocked)
        }
    }
}
