//! What performs and computes the processes.

use crate::actor::{Actor, next};
use bag_performer::Bags;
use orca_base::{KindNo, NoMemory, OpNo, ProcessNo, TextNo};
use std::alloc::Global;
use value_core::{Class, Halt, Making, ObjectState, Parts, Performer, Processor, Reply, Tried};

/// What performs operations on pools and flags, and computes the processes of specs/Scripts.antt.
#[derive(Clone, Copy, Debug)]
pub struct Scripts;

impl Performer for Scripts {
    ghost use Rattle.std.specs.Prelude.{refl};
    ghost use Rattle.value_core.specs.Sound.{AreSoundArguments};
    ghost use Rattle.bag_performer.specs.Bags.{bag_performs};
    ghost use Rattle.bag_performer.specs.Fitting.{FitsArgs, FitsReply, FitsState};
    ghost use Rattle.bag_performer.specs.Laws.{arguments_sound, leaves_fit, makes_fit, reads_keep_states, replies_fit, replies_sound, states_sound};

    ghost performs = { λ m. bag_performs };

    ghost fits_state = { λ m kinds. FitsState };

    ghost fits_args = { λ m kinds. FitsArgs };

    ghost fits_text = { λ m kinds text. AreSoundArguments };

    ghost fits_reply = { λ m. FitsReply };

    ghost output_fits = { λ m kinds. refl };

    ghost made_fits = { λ m kinds. makes_fit };

    ghost keeps_fit = { λ m kinds kind op state args fits given. leaves_fit kind op state args fits given };

    ghost replies_fit = { λ m kinds kind op state args fits given. replies_fit kind op state args fits };

    ghost reads_keep = { λ m kinds kind op state args reads fits given. reads_keep_states kind op state args reads };

    ghost state_stays_fit = { λ m kinds more kind state extends fits. fits };

    ghost args_stay_fit = { λ m kinds more kind op args extends fits. fits };

    ghost text_stays_fit = { λ m kinds more text args extends fits. fits };

    ghost state_sound = { λ m kinds. states_sound };

    ghost args_sound = { λ m kinds. arguments_sound };

    ghost text_sound = { λ m kinds text args numbered fits. fits };

    ghost reply_sound = { λ m. replies_sound };

    fn class(&self, kind: KindNo, op: OpNo) -> Class {
        Bags.class(kind, op)
    }

    fn make(&self, alloc: Global, kind: KindNo) -> Result<Making, NoMemory> {
        Bags.make(alloc, kind)
    }

    fn try_op(
        &self,
        alloc: Global,
        kind: KindNo,
        op: OpNo,
        state: &ObjectState,
        args: &Parts,
    ) -> Result<Tried, NoMemory> {
        Bags.try_op(alloc, kind, op, state, args)
    }
}

impl Processor for Scripts {
    ghost use Rattle.std.specs.Prelude.{◌≡◌, refl};
    ghost use Rattle.bag_processes.specs.Scripts.{action_at, place_from, script_computes};
    ghost use Rattle.bag_processes.specs.ScriptLaws.{lawful_script, none_fits};

    type State = Actor;

    ghost computes = { λ m. script_computes };

    ghost stands = { λ m s text number args replies turns. (s.text ≡ text) × (s.number ≡ number) × (s.place ≡ place_from 0 replies) × (turns ≡ 0) };

    ghost halted = { λ m s act. action_at s.text s.number s.place ≡ act };

    ghost main_fits = { λ m kinds. none_fits };

    ghost settled = { λ m text number args replies n k apart. refl };

    ghost lawful = { λ m kinds text number args replies given got. lawful_script kinds text number args replies got };

    fn main_text(&self) -> TextNo {
        TextNo(0)
    }

    fn start(
        &self,
        _alloc: Global,
        process: TextNo,
        number: ProcessNo,
        _args: &Parts,
    ) -> Result<Actor, NoMemory> {
        Ok(Actor {
            text: process,
            number,
            place: 0,
        })
    }

    // No script takes a turn, so it never pauses.
    fn go(&self, alloc: Global, state: Actor, _budget: u32) -> Result<(Actor, Halt), NoMemory> {
        let action = state.action(alloc)?;
        Ok((state, Halt::At { action }))
    }

    fn reply(&self, state: Actor, reply: Reply) -> Actor {
        Actor {
            text: state.text,
            number: state.number,
            place: next(state.place, &reply),
        }
    }

    fn turns(&self, _state: &Actor) -> u64 {
        0
    }

    fn same(one: &Actor, other: &Actor) -> bool {
        one == other
    }

    fn copy(&self, _alloc: Global, state: &Actor) -> Result<Actor, NoMemory> {
        Ok(*state)
    }
}
