//! A wire that drops packets by chance.

ghost use Rattle.std.specs.Prelude.{◌≡◌, ◌+◌, ◌<◌, ◌≤◌, ◌++◌, ◌∷◌, [], None, OnErr, OnOk, length, reverse};
ghost use Rattle.net_rules.specs.Answered.{Answered};
ghost use Rattle.net_rules.specs.Asked.{packet_asked};
ghost use Rattle.net_rules.specs.Script.{seeded_fate};
ghost use Rattle.net_rules.specs.declared.asked.Asked.TheVariants.{Act};
ghost use Rattle.wires.specs.Wired.{by_seed, drawing};

use crate::chance::Chance;
use crate::kept::Kept;
use crate::wire::Wire;
use fault_scripts::Script;
use group_packets::PacketKind;
use net_rules::{Asked, Fate, Question, WireAct};
use orca_base::NoMemory;
use std::alloc::Global;
use std::marker::Model;

/// Each packet draws a random word, and is dropped where it is low enough; no act comes, whatever the script says.
#[derive(Drop)]
pub struct SeededWire {
    kept: Kept,
    seed: u64,
    chance: Chance,
}

impl Model for SeededWire {
    ghost use Rattle.std.specs.Prelude.{◌≡◌, reverse};
    ghost use Rattle.net_rules.specs.Answered.{Answered};
    ghost use Rattle.net_rules.specs.Asked.{count};
    ghost use Rattle.net_rules.specs.Words.{behind, generator};
    ghost use Rattle.net_rules.specs.declared.line.Kinds.TheVariants.{Any};
    ghost use Rattle.wires.specs.Wired.{Seeded, by_seed};

    ghost Value = { Seeded };

    ghost view = { λ w. record { kept = w.kept; seed = w.seed; percent = w.chance.percent } };

    ghost invariant = { λ w. (w.chance.source ≡ behind (count Any (reverse w.kept.told)) (generator w.seed)) × Answered (by_seed w.seed w.chance.percent) (reverse w.kept.told) };
}

impl SeededWire {
    /// A wire that wasn't asked yet. Of a hundred random words of this seed so many drop a packet.
    pub fn new(alloc: Global, seed: u64, percent: u8) -> SeededWire
        ensures { result ≡ record { kept = record { told = []; script = []; loaded = 0; spare = 0 }; seed = seed; percent = percent } }
    {
        SeededWire {
            kept: Kept::new(alloc),
            seed,
            chance: Chance::new(seed, percent),
        }
    }

    /// What was asked, with the answers: each packet had the fate of its word, and no act came.
    pub fn told(&self) -> &[Asked]
        ensures told { result.now ≡ self.now.kept.told }
        ensures answered { Answered (by_seed self.now.seed self.now.percent) (reverse self.now.kept.told) }
    {
        self.kept.told()
    }
}

impl Wire for SeededWire {
    ghost told = { λ w. w.kept.told };

    ghost rule = { λ w. drawing w.seed w.percent w.kept.script };

    ghost loaded = { λ w. w.kept.loaded };

    ghost spare = { λ w. w.kept.spare };

    fn load(&mut self, alloc: Global, script: &Script) -> Result<(), NoMemory>
        ensures loaded { OnOk result (self.new.kept.script ≡ script.now) }
        ensures unchanged { OnErr result (self.new.kept.script ≡ self.old.kept.script) }
        ensures since { OnOk result (self.new.kept.loaded ≡ length self.old.kept.told) }
        ensures as_before { OnErr result (self.new.kept.loaded ≡ self.old.kept.loaded) }
        ensures told { self.new.kept.told ≡ self.old.kept.told }
        ensures spare { self.new.kept.spare ≡ self.old.kept.spare }
        ensures seed { (self.new.seed ≡ self.old.seed) × (self.new.percent ≡ self.old.percent) }
    {
        self.kept.load(alloc, script)
    }

    fn make_room(&mut self, questions: u32) -> Result<(), NoMemory>
        ensures room { OnOk result (questions ≤ self.new.kept.spare) }
        ensures kept { self.old.kept.spare ≤ self.new.kept.spare }
        ensures unchanged { OnErr result (self.new.kept.spare ≡ self.old.kept.spare) }
        ensures told { self.new.kept.told ≡ self.old.kept.told }
        ensures script { self.new.kept.script ≡ self.old.kept.script }
        ensures since { self.new.kept.loaded ≡ self.old.kept.loaded }
        ensures seed { (self.new.seed ≡ self.old.seed) × (self.new.percent ≡ self.old.percent) }
    {
        self.kept.make_room(questions)
    }

    fn fate(&mut self, packet: u64, kind: PacketKind, from: u8, to: u8, length: u32) -> Fate
        requires { 0 < self.old.kept.spare }
        ensures told { self.new.kept.told ≡ self.old.kept.told ++ packet_asked packet kind from to length result ∷ [] }
        ensures script { self.new.kept.script ≡ self.old.kept.script }
        ensures since { self.new.kept.loaded ≡ self.old.kept.loaded }
        ensures spare { self.new.kept.spare + 1 ≡ self.old.kept.spare }
        ensures by_word { result ≡ seeded_fate self.old.seed self.old.percent (reverse self.old.kept.told) }
        ensures seed { (self.new.seed ≡ self.old.seed) × (self.new.percent ≡ self.old.percent) }
    {
        let question = Question {
            packet,
            kind,
            from,
            to,
            length,
        };
        let fate = self.chance.next();
        self.kept.note(Asked::Packet { question, fate });
        fate
    }

    fn next_act(&mut self, event_number: u64) -> Option<WireAct>
        requires { 0 < self.old.kept.spare }
        ensures told { self.new.kept.told ≡ self.old.kept.told ++ Act event_number result ∷ [] }
        ensures script { self.new.kept.script ≡ self.old.kept.script }
        ensures since { self.new.kept.loaded ≡ self.old.kept.loaded }
        ensures spare { self.new.kept.spare + 1 ≡ self.old.kept.spare }
        ensures never { result ≡ None }
        ensures seed { (self.new.seed ≡ self.old.seed) × (self.new.percent ≡ self.old.percent) }
    {
        let act = None;
        self.kept.note(Asked::Act { event_number, act });
        act
    }

    #[tactic(auto, using(crate::proofs::Behind::so_always))]
    fn has_obeyed(&self) {
        let _told = self.told();
    }
}
