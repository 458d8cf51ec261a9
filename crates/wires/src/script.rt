//! A wire that does what its script says.

ghost use Rattle.std.specs.Prelude.{◌≡◌, ◌+◌, ◌<◌, ◌≤◌, ◌^◌, ◌++◌, ◌∷◌, [], IfOk, OnErr, OnOk, length, reverse};
ghost use Rattle.net_rules.specs.Answered.{AnsweredBehind};
ghost use Rattle.net_rules.specs.Asked.{packet_asked};
ghost use Rattle.net_rules.specs.Script.{script_act, script_fate};
ghost use Rattle.net_rules.specs.declared.asked.Asked.TheVariants.{Act};
ghost use Rattle.wires.specs.Index.{IsIndex};
ghost use Rattle.wires.specs.Progress.{IsProgress};
ghost use Rattle.wires.specs.Wired.{by_script, scripted};

use crate::kept::Kept;
use crate::lines::Index;
use crate::progress::Progress;
use crate::wire::Wire;
use fault_scripts::Script;
use group_packets::PacketKind;
use net_rules::{Asked, Fate, Question, ScriptLine, WireAct};
use orca_base::NoMemory;
use std::alloc::Global;
use std::marker::Model;

/// It answers by its script: what that counted, drew and gave is what it counts, draws and gives along all that the wire was asked,
/// also before it was loaded, and whatever was answered there.
#[derive(Drop)]
pub struct ScriptWire {
    kept: Kept,
    index: Index,
    progress: Progress,
}

impl Model for ScriptWire {
    ghost use Rattle.std.specs.Prelude.{reverse};
    ghost use Rattle.net_rules.specs.Answered.{AnsweredBehind};
    ghost use Rattle.wires.specs.Index.{IsIndex};
    ghost use Rattle.wires.specs.Progress.{IsProgress};
    ghost use Rattle.wires.specs.Wired.{Wired, by_script};

    ghost Value = { Wired };

    ghost view = { λ w. w.kept };

    ghost invariant = { λ w. IsIndex w.kept.script w.index × IsProgress w.kept.script (reverse w.kept.told) w.progress × AnsweredBehind w.kept.loaded (by_script w.kept.script) (reverse w.kept.told) };
}

// What lines counted, drew and gave along what was asked.
fn replayed(
    alloc: Global,
    lines: &[ScriptLine],
    index: &Index,
    told: &[Asked],
) -> Result<Progress, NoMemory>
    requires index { IsIndex lines.now index.now }
    requires few { length told.now < 2 ^ 63 }
    ensures { IfOk result (λ progress. IsProgress lines.now (reverse told.now) progress) }
{
    let mut progress = Progress::new(alloc, lines)?;
    'told: for one in told {
        progress.again(index, one);
    }
    Ok(progress)
}

impl ScriptWire {
    /// A wire that wasn't asked yet, with the empty script.
    pub fn new(alloc: Global) -> Result<ScriptWire, NoMemory>
        ensures { IfOk result (λ wire. wire ≡ record { told = []; script = []; loaded = 0; spare = 0 }) }
    {
        let kept = Kept::new(alloc);
        let index = Index::of(alloc, kept.lines())?;
        let progress = Progress::new(alloc, kept.lines())?;
        Ok(ScriptWire {
            kept,
            index,
            progress,
        })
    }

    /// What was asked, with the answers: behind what was asked before the script was loaded, each is what the script says there.
    pub fn told(&self) -> &[Asked]
        ensures told { result.now ≡ self.now.told }
        ensures answered { AnsweredBehind self.now.loaded (by_script self.now.script) (reverse self.now.told) }
    {
        self.kept.told()
    }
}

impl Wire for ScriptWire {
    ghost told = { λ w. w.told };

    ghost rule = { λ w. scripted w.script };

    ghost loaded = { λ w. w.loaded };

    ghost spare = { λ w. w.spare };

    fn load(&mut self, alloc: Global, script: &Script) -> Result<(), NoMemory>
        ensures loaded { OnOk result (self.new.script ≡ script.now) }
        ensures unchanged { OnErr result (self.new.script ≡ self.old.script) }
        ensures told { self.new.told ≡ self.old.told }
        ensures spare { self.new.spare ≡ self.old.spare }
        ensures since { OnOk result (self.new.loaded ≡ length self.old.told) }
        ensures as_before { OnErr result (self.new.loaded ≡ self.old.loaded) }
    {
        let index = Index::of(alloc, script.lines())?;
        let progress = replayed(alloc, script.lines(), &index, self.kept.told())?;
        self.kept.load(alloc, script)?;
        self.index = index;
        self.progress = progress;
        Ok(())
    }

    fn make_room(&mut self, questions: u32) -> Result<(), NoMemory>
        ensures room { OnOk result (questions ≤ self.new.spare) }
        ensures kept { self.old.spare ≤ self.new.spare }
        ensures unchanged { OnErr result (self.new.spare ≡ self.old.spare) }
        ensures told { self.new.told ≡ self.old.told }
        ensures script { self.new.script ≡ self.old.script }
        ensures since { self.new.loaded ≡ self.old.loaded }
    {
        self.kept.make_room(questions)
    }

    fn fate(&mut self, packet: u64, kind: PacketKind, from: u8, to: u8, length: u32) -> Fate
        requires { 0 < self.old.spare }
        ensures told { self.new.told ≡ self.old.told ++ packet_asked packet kind from to length result ∷ [] }
        ensures script { self.new.script ≡ self.old.script }
        ensures spare { self.new.spare + 1 ≡ self.old.spare }
        ensures by_script { result ≡ script_fate self.old.script (reverse self.old.told) kind }
        ensures since { self.new.loaded ≡ self.old.loaded }
    {
        let question = Question {
            packet,
            kind,
            from,
            to,
            length,
        };
        let fate = self.progress.fate(&self.index, kind);
        self.kept.note(Asked::Packet { question, fate });
        fate
    }

    fn next_act(&mut self, event_number: u64) -> Option<WireAct>
        requires { 0 < self.old.spare }
        ensures told { self.new.told ≡ self.old.told ++ Act event_number result ∷ [] }
        ensures script { self.new.script ≡ self.old.script }
        ensures spare { self.new.spare + 1 ≡ self.old.spare }
        ensures by_script { result ≡ script_act self.old.script (reverse self.old.told) }
        ensures since { self.new.loaded ≡ self.old.loaded }
    {
        let act = self.progress.act();
        self.kept.note(Asked::Act { event_number, act });
        act
    }

    #[tactic(auto, using(crate::proofs::Behind::so_behind))]
    fn has_obeyed(&self) {
        let _told = self.told();
    }
}
