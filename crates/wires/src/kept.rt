//! What each wire keeps: what it was asked, and its script.

ghost use Rattle.std.specs.Prelude.{◌≡◌, ◌+◌, ◌<◌, ◌≤◌, ◌^◌, ◌++◌, ◌∷◌, [], length, OnErr, OnOk};

use fault_scripts::Script;
use net_rules::{Asked, ScriptLine};
use orca_base::NoMemory;
use std::alloc::Global;
use std::marker::Model;

/// What a wire was asked with its answers, in order of time, its script, how much it was asked before that was loaded, and for how
/// many questions it has room.
#[derive(Drop)]
pub struct Kept {
    told: Vec<Asked>,
    script: Script,
    loaded: u64,
    spare: u64,
}

impl Model for Kept {
    ghost use Rattle.std.specs.Prelude.{◌+◌, ◌≤◌, vec_capacity, vec_len};
    ghost use Rattle.wires.specs.Wired.{Wired};

    ghost Value = { Wired };

    ghost view = { λ k. record { told = k.told.items; script = k.script; loaded = k.loaded; spare = k.spare } };

    ghost invariant = { λ k. vec_len k.told + k.spare ≤ vec_capacity k.told };
}

impl Kept {
    /// Nothing yet, and the empty script.
    pub fn new(alloc: Global) -> Kept
        ensures { result ≡ record { told = []; script = []; loaded = 0; spare = 0 } }
    {
        Kept {
            told: Vec::new(alloc),
            script: Script::empty(alloc),
            loaded: 0,
            spare: 0,
        }
    }

    /// Another script, from now on.
    pub fn load(&mut self, alloc: Global, script: &Script) -> Result<(), NoMemory>
        ensures ok { OnOk result (self.new ≡ record self.old { script = script.now; loaded = length self.old.told }) }
        ensures err { OnErr result (self.new ≡ self.old) }
    {
        self.script = script.copy(alloc)?;
        self.loaded = self.told.len() as u64;
        Ok(())
    }

    /// Room for so many questions.
    pub fn make_room(&mut self, questions: u32) -> Result<(), NoMemory>
        ensures room { OnOk result (questions ≤ self.new.spare) }
        ensures kept { self.old.spare ≤ self.new.spare }
        ensures unchanged { OnErr result (self.new.spare ≡ self.old.spare) }
        ensures same { self.new ≡ record self.old { spare = self.new.spare } }
    {
        if self.spare >= u64::from(questions) {
            return Ok(());
        }
        self.told.reserve(questions as usize)?;
        self.spare = u64::from(questions);
        Ok(())
    }

    /// One more question with its answer.
    pub fn note(&mut self, asked: Asked)
        requires { 0 < self.old.spare }
        ensures told { self.new.told ≡ self.old.told ++ asked ∷ [] }
        ensures script { self.new.script ≡ self.old.script }
        ensures since { self.new.loaded ≡ self.old.loaded }
        ensures spare { self.new.spare + 1 ≡ self.old.spare }
        ensures fits { length self.old.told < 2 ^ 63 }
    {
        self.spare -= 1;
        self.told.push_reserved(asked);
    }

    /// What was asked, lent.
    pub fn told(&self) -> &[Asked]
        ensures told { result.now ≡ self.now.told }
        ensures few { length self.now.told < 2 ^ 63 }
    {
        self.told.as_slice()
    }

    /// The lines of the script, lent.
    pub fn lines(&self) -> &[ScriptLine]
        ensures { result.now ≡ self.now.script }
    {
        self.script.lines()
    }
}
