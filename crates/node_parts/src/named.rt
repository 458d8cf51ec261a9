//! A machine that is tied to a run.

ghost use Rattle.std.specs.Prelude.{◌≡◌, Some, IsTrue, ◌↔◌};

use crate::run::OneRun;
use orca_base::{KindNo, NoMemory, OpNo, ProcessNo, TextNo};
use std::alloc::Global;
use std::marker::{Brand, PhantomData};
use value_core::{
    Action, Class, Halt, Making, ObjectState, Parts, Performer, Processor, Reply, Tried,
};

/// Names a run: its machine, its settings, and for each wire what it told before and its script. A function whose type parameter is such a
/// name, and whose own signature has none, is called with `Brand`, and the call picks what that names.
pub trait RunName<M> {
    ghost use Rattle.std.specs.Prelude.{List, Option};
    ghost use Rattle.net_rules.specs.declared.asked.Asked.{Asked};
    ghost use Rattle.net_rules.specs.declared.line.ScriptLine.{ScriptLine};
    ghost use Rattle.world_rules.specs.declared.settings.Settings.{Settings};

    ghost machine: { Option M };

    ghost settings: { Settings };

    ghost told: { List (List Asked) };

    ghost scripts: { List (List ScriptLine) };
}

impl<M> RunName<M> for Brand {
    ghost use Rattle.std.specs.Prelude.{[], None};
    ghost use Rattle.node_parts.specs.Names.{some_settings};

    ghost machine = { None };

    ghost settings = { some_settings };

    ghost told = { [] };

    ghost scripts = { [] };
}

/// The machine of the run that T names.
#[derive(Drop)]
pub struct RunMachine<'a, M: Processor, T: RunName<M>> {
    machine: &'a M,
    of: PhantomData<T>,
    ghost is: { T.machine ≡ Some machine.now },
}

impl<'a, M: Processor, T: RunName<M>> RunMachine<'a, M, T> {
    /// This machine, which is the one that T names.
    pub fn new(machine: &'a M) -> RunMachine<'a, M, T>
        requires { T.machine ≡ Some machine.now }
    {
        RunMachine {
            machine,
            of: PhantomData,
        }
    }
}

impl<M: Processor, T: RunName<M>> Performer for RunMachine<'_, M, T> {
    ghost performs = { λ p. M.performs p.machine.now };

    ghost fits_state = { λ p. M.fits_state p.machine.now };

    ghost fits_args = { λ p. M.fits_args p.machine.now };

    ghost fits_text = { λ p. M.fits_text p.machine.now };

    ghost fits_reply = { λ p. M.fits_reply p.machine.now };

    ghost output_fits = { λ p. M.output_fits p.machine.now };

    ghost made_fits = { λ p. M.made_fits p.machine.now };

    ghost keeps_fit = { λ p. M.keeps_fit p.machine.now };

    ghost replies_fit = { λ p. M.replies_fit p.machine.now };

    ghost reads_keep = { λ p. M.reads_keep p.machine.now };

    ghost state_stays_fit = { λ p. M.state_stays_fit p.machine.now };

    ghost args_stay_fit = { λ p. M.args_stay_fit p.machine.now };

    ghost text_stays_fit = { λ p. M.text_stays_fit p.machine.now };

    ghost state_sound = { λ p. M.state_sound p.machine.now };

    ghost args_sound = { λ p. M.args_sound p.machine.now };

    ghost text_sound = { λ p. M.text_sound p.machine.now };

    ghost reply_sound = { λ p. M.reply_sound p.machine.now };

    fn class(&self, kind: KindNo, op: OpNo) -> Class {
        self.machine.class(kind, op)
    }

    fn make(&self, alloc: Global, kind: KindNo) -> Result<Making, NoMemory> {
        self.machine.make(alloc, kind)
    }

    fn try_op(
        &self,
        alloc: Global,
        kind: KindNo,
        op: OpNo,
        state: &ObjectState,
        args: &Parts,
    ) -> Result<Tried, NoMemory> {
        self.machine.try_op(alloc, kind, op, state, args)
    }
}

impl<M: Processor, T: RunName<M>> Processor for RunMachine<'_, M, T> {
    type State = M::State;

    ghost computes = { λ p. M.computes p.machine.now };

    ghost stands = { λ p. M.stands p.machine.now };

    ghost halted = { λ p. M.halted p.machine.now };

    ghost main_fits = { λ p. M.main_fits p.machine.now };

    ghost settled = { λ p. M.settled p.machine.now };

    ghost lawful = { λ p. M.lawful p.machine.now };

    fn main_text(&self) -> TextNo {
        self.machine.main_text()
    }

    fn start(
        &self,
        alloc: Global,
        process: TextNo,
        number: ProcessNo,
        args: &Parts,
    ) -> Result<M::State, NoMemory> {
        self.machine.start(alloc, process, number, args)
    }

    fn go(
        &self,
        alloc: Global,
        state: M::State,
        budget: u32,
    ) -> Result<(M::State, Halt), NoMemory> {
        self.machine.go(alloc, state, budget)
    }

    fn reply(&self, state: M::State, reply: Reply) -> M::State {
        self.machine.reply(state, reply)
    }

    fn turns(&self, state: &M::State) -> u64 {
        self.machine.turns(state)
    }

    fn same(one: &M::State, other: &M::State) -> bool
        ensures { IsTrue result ↔ (one.now ≡ other.now) }
    {
        M::same(one, other)
    }

    fn copy(&self, alloc: Global, state: &M::State) -> Result<M::State, NoMemory> {
        self.machine.copy(alloc, state)
    }
}

impl<M: Processor, T: RunName<M>> OneRun for RunMachine<'_, M, T> {
    ghost use Rattle.node_parts.specs.Named.{alike, named_is, of_named, to_named};
    ghost use Rattle.node_parts.specs.Names.{IfNamed, named_computes, named_performs, named_run};

    ghost run = { named_run M.performs M.computes T.machine T.settings T.told T.scripts };

    ghost stood = { λ state text number args replies turns. IfNamed T.machine (λ m. M.stands m state text number args replies turns) };

    ghost left = { λ state act. IfNamed T.machine (λ m. M.halted m state act) };

    ghost performs_run = { λ p. named_is (named_performs M.performs) T.machine p.machine.now p.is };

    ghost computes_run = { λ p. named_is (named_computes M.computes) T.machine p.machine.now p.is };

    ghost stands_stood = { λ p state text number args replies turns. to_named T.machine p.machine.now p.is (λ m. M.stands m state text number args replies turns) };

    ghost stood_stands = { λ p state text number args replies turns. of_named T.machine p.machine.now p.is (λ m. M.stands m state text number args replies turns) };

    ghost halted_left = { λ p state act. to_named T.machine p.machine.now p.is (λ m. M.halted m state act) };

    ghost left_halted = { λ p state act. of_named T.machine p.machine.now p.is (λ m. M.halted m state act) };

    ghost states_alike = { λ p q kinds kind state. alike T.machine p.machine.now q.machine.now p.is q.is (λ m. M.fits_state m kinds kind state) };

    ghost args_alike = { λ p q kinds kind op args. alike T.machine p.machine.now q.machine.now p.is q.is (λ m. M.fits_args m kinds kind op args) };
}
