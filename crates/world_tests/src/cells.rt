//! A machine whose process uses one cell: it makes it, writes 6, waits until it reads 6, writes 7 and ends. It takes no turn.

ghost use Rattle.std.specs.Prelude.{◌≡◌, IfOk};
ghost use Rattle.value_core.specs.declared.action.Action.TheVariants as acts;
ghost use Rattle.world_tests.specs.Cells.{action_at, cell, its_object, next, on_cell, with_number};

use bag_performer::Bags;
use orca_base::{KindNo, NoMemory, ObjectId, OpNo, ProcessNo, TextNo};
use std::alloc::Global;
use value_core::{
    Action, Class, Halt, Making, ObjectState, Parts, Performer, Processor, Reply, Tried, Value,
};

// The place of a process that has ended.
const LAST: u8 = 9;

/// What performs operations on flags, and computes that process.
#[derive(Clone, Copy, Debug)]
pub struct Cells;

/// A process: its number, and how many actions it did, or 9 where it has ended.
#[derive(Clone, Copy, Debug, PartialEq, Eq)]
pub struct Player {
    pub(crate) number: ProcessNo,
    pub(crate) place: u8,
}

// Where a process stands after a reply: a fault ends it.
fn next(place: u8, reply: &Reply) -> u8
    ensures { result ≡ next place reply.now }
{
    match reply {
        Reply::Done | Reply::Gave { .. } => { if place < LAST { place + 1 } else { LAST } }
        Reply::Broke { .. } => LAST,
    }
}

impl Player {
    // Its next action.
    fn action(&self, alloc: Global) -> Result<Action, NoMemory>
        ensures { IfOk result (λ a. a ≡ action_at self.now.number self.now.place) }
    {
        if self.place == 0 {
            Ok(self.making())
        } else {
            self.on_cell(alloc)
        }
    }

    // The object that it makes.
    fn object(&self) -> ObjectId
        ensures { result ≡ its_object self.now.number }
    {
        ObjectId {
            process: self.number.0,
            number: 1,
        }
    }

    // Its first action makes its cell.
    fn making(&self) -> Action
        ensures { result ≡ acts.Make cell (its_object self.now.number) }
    {
        Action::Make {
            kind: Bags::FLAG,
            object: self.object(),
        }
    }

    // A call of its cell with these arguments.
    fn call(&self, op: OpNo, args: Parts) -> Action
        ensures { result ≡ acts.Call cell op (its_object self.now.number) args }
    {
        Action::Call {
            kind: Bags::FLAG,
            op,
            object: self.object(),
            args,
        }
    }

    // What it does with its cell.
    fn on_cell(&self, alloc: Global) -> Result<Action, NoMemory>
        ensures { IfOk result (λ a. a ≡ on_cell self.now.number self.now.place) }
    {
        if self.place == 1 {
            Ok(self.call(Bags::SET, one(alloc, 6)?))
        } else if self.place == 2 {
            Ok(self.call(Bags::AWAIT, one(alloc, 6)?))
        } else if self.place == 3 {
            Ok(self.call(Bags::SET, one(alloc, 7)?))
        } else {
            Ok(Action::Ended)
        }
    }
}

// This integer alone.
fn one(alloc: Global, number: i64) -> Result<Parts, NoMemory>
    ensures { IfOk result (λ p. p ≡ with_number number) }
{
    let mut values = Parts::new(alloc);
    values.push(Value::Int(number))?;
    Ok(values)
}

impl Performer for Cells {
    ghost use Rattle.std.specs.Prelude.{refl};
    ghost use Rattle.value_core.specs.Sound.{AreSoundArguments};
    ghost use Rattle.bag_performer.specs.Bags.{bag_performs};
    ghost use Rattle.bag_performer.specs.Fitting.{FitsArgs, FitsReply, FitsState};
    ghost use Rattle.bag_performer.specs.Laws.{arguments_sound, leaves_fit, makes_fit, reads_keep_states, replies_fit, replies_sound, states_sound};

    ghost performs = { λ m. bag_performs };

    ghost fits_state = { λ m kinds. FitsState };

    ghost fits_args = { λ m kinds. FitsArgs };

    ghost fits_text = { λ m kinds text. AreSoundArguments };

    ghost fits_reply = { λ m. FitsReply };

    ghost output_fits = { λ m kinds. refl };

    ghost made_fits = { λ m kinds. makes_fit };

    ghost keeps_fit = { λ m kinds kind op state args fits given. leaves_fit kind op state args fits given };

    ghost replies_fit = { λ m kinds kind op state args fits given. replies_fit kind op state args fits };

    ghost reads_keep = { λ m kinds kind op state args reads fits given. reads_keep_states kind op state args reads };

    ghost state_stays_fit = { λ m kinds more kind state extends fits. fits };

    ghost args_stay_fit = { λ m kinds more kind op args extends fits. fits };

    ghost text_stays_fit = { λ m kinds more text args extends fits. fits };

    ghost state_sound = { λ m kinds. states_sound };

    ghost args_sound = { λ m kinds. arguments_sound };

    ghost text_sound = { λ m kinds text args numbered fits. fits };

    ghost reply_sound = { λ m. replies_sound };

    fn class(&self, kind: KindNo, op: OpNo) -> Class {
        Bags.class(kind, op)
    }

    fn make(&self, alloc: Global, kind: KindNo) -> Result<Making, NoMemory> {
        Bags.make(alloc, kind)
    }

    fn try_op(
        &self,
        alloc: Global,
        kind: KindNo,
        op: OpNo,
        state: &ObjectState,
        args: &Parts,
    ) -> Result<Tried, NoMemory> {
        Bags.try_op(alloc, kind, op, state, args)
    }
}

impl Processor for Cells {
    ghost use Rattle.std.specs.Prelude.{◌≡◌, refl};
    ghost use Rattle.bag_processes.specs.ScriptLaws.{none_fits};
    ghost use Rattle.world_tests.specs.Cells.{action_at, cell_computes, place_from};
    ghost use Rattle.world_tests.specs.CellLaws.{lawful_cell};

    type State = Player;

    ghost computes = { λ m. cell_computes };

    ghost stands = { λ m s text number args replies turns. (s.number ≡ number) × (s.place ≡ place_from 0 replies) × (turns ≡ 0) };

    ghost halted = { λ m s act. action_at s.number s.place ≡ act };

    ghost main_fits = { λ m kinds. none_fits };

    ghost settled = { λ m text number args replies n k apart. refl };

    ghost lawful = { λ m kinds text number args replies given got. lawful_cell kinds text number args replies got };

    fn main_text(&self) -> TextNo {
        TextNo(0)
    }

    fn start(
        &self,
        _alloc: Global,
        _process: TextNo,
        number: ProcessNo,
        _args: &Parts,
    ) -> Result<Player, NoMemory> {
        Ok(Player { number, place: 0 })
    }

    // It takes no turn, so it never pauses.
    fn go(&self, alloc: Global, state: Player, _budget: u32) -> Result<(Player, Halt), NoMemory> {
        let action = state.action(alloc)?;
        Ok((state, Halt::At { action }))
    }

    fn reply(&self, state: Player, reply: Reply) -> Player {
        Player {
            number: state.number,
            place: next(state.place, &reply),
        }
    }

    fn turns(&self, _state: &Player) -> u64 {
        0
    }

    fn same(one: &Player, other: &Player) -> bool {
        one == other
    }

    fn copy(&self, _alloc: Global, state: &Player) -> Result<Player, NoMemory> {
        Ok(*state)
    }
}
