//! A wire on which nothing happens.

ghost use Rattle.std.specs.Prelude.{◌≡◌, ◌+◌, ◌<◌, ◌≤◌, ◌++◌, ◌∷◌, [], None, OnErr, OnOk, reverse};
ghost use Rattle.net_rules.specs.Answered.{Answered};
ghost use Rattle.net_rules.specs.Asked.{packet_asked};
ghost use Rattle.net_rules.specs.declared.asked.Asked.TheVariants.{Act};
ghost use Rattle.net_rules.specs.declared.fate.Fate.TheVariants.{Pass};
ghost use Rattle.wires.specs.Wired.{passing, plain};

use crate::kept::Kept;
use crate::wire::Wire;
use fault_scripts::Script;
use group_packets::PacketKind;
use net_rules::{Asked, Fate, Question, WireAct};
use orca_base::NoMemory;
use std::alloc::Global;
use std::marker::Model;

/// Every packet passes, and no act comes, whatever the script says.
#[derive(Drop)]
pub struct PlainWire {
    kept: Kept,
}

impl Model for PlainWire {
    ghost use Rattle.std.specs.Prelude.{reverse};
    ghost use Rattle.net_rules.specs.Answered.{Answered};
    ghost use Rattle.wires.specs.Wired.{Wired, plain};

    ghost Value = { Wired };

    ghost view = { λ w. w.kept };

    ghost invariant = { λ w. Answered plain (reverse w.kept.told) };
}

impl PlainWire {
    /// A wire that wasn't asked yet.
    pub fn new(alloc: Global) -> PlainWire
        ensures { result ≡ record { told = []; script = []; loaded = 0; spare = 0 } }
    {
        PlainWire {
            kept: Kept::new(alloc),
        }
    }

    /// What was asked, with the answers: every packet passed, and no act came.
    pub fn told(&self) -> &[Asked]
        ensures told { result.now ≡ self.now.told }
        ensures answered { Answered plain (reverse self.now.told) }
    {
        self.kept.told()
    }
}

impl Wire for PlainWire {
    ghost told = { λ w. w.told };

    ghost rule = { λ w. passing w.script };

    ghost loaded = { λ w. w.loaded };

    ghost spare = { λ w. w.spare };

    fn load(&mut self, alloc: Global, script: &Script) -> Result<(), NoMemory> {
        self.kept.load(alloc, script)
    }

    fn make_room(&mut self, questions: u32) -> Result<(), NoMemory> {
        self.kept.make_room(questions)
    }

    fn fate(&mut self, packet: u64, kind: PacketKind, from: u8, to: u8, length: u32) -> Fate
        requires { 0 < self.old.spare }
        ensures told { self.new.told ≡ self.old.told ++ packet_asked packet kind from to length result ∷ [] }
        ensures script { self.new.script ≡ self.old.script }
        ensures since { self.new.loaded ≡ self.old.loaded }
        ensures spare { self.new.spare + 1 ≡ self.old.spare }
        ensures passes { result ≡ Pass }
    {
        let question = Question {
            packet,
            kind,
            from,
            to,
            length,
        };
        let fate = Fate::Pass;
        self.kept.note(Asked::Packet { question, fate });
        fate
    }

    fn next_act(&mut self, event_number: u64) -> Option<WireAct>
        requires { 0 < self.old.spare }
        ensures told { self.new.told ≡ self.old.told ++ Act event_number result ∷ [] }
        ensures script { self.new.script ≡ self.old.script }
        ensures since { self.new.loaded ≡ self.old.loaded }
        ensures spare { self.new.spare + 1 ≡ self.old.spare }
        ensures never { result ≡ None }
    {
        let act = None;
        self.kept.note(Asked::Act { event_number, act });
        act
    }

    #[tactic(auto, using(crate::proofs::Behind::so_always))]
    fn has_obeyed(&self) {
        let _told = self.told();
    }
}
