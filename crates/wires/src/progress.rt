//! What a script counted, drew and gave.

ghost use Rattle.std.specs.Prelude.{◌≡◌, ◌+◌, ◌<◌, ◌-◌, ◌^◌, ◌∷◌, [], None, Some, Option, ℕ, false, IfOk, List, length};
ghost use Rattle.std.specs.List.{filter};
ghost use Rattle.net_rules.specs.declared.asked.Asked.{Asked as Told};
ghost use Rattle.net_rules.specs.declared.asked.Asked.TheVariants.{Act, Packet};
ghost use Rattle.net_rules.specs.declared.asked.Question.{Question as Query};
ghost use Rattle.net_rules.specs.declared.fate.Fate.{Fate as Fated};
ghost use Rattle.net_rules.specs.declared.fate.WireAct.{WireAct as Done};
ghost use Rattle.net_rules.specs.declared.line.ScriptLine.{ScriptLine as Said};
ghost use Rattle.net_rules.specs.Script.{act_of, is_act, is_due, script_act, script_fate, seed_of};
ghost use Rattle.wires.specs.Counts.{AreCounts};
ghost use Rattle.wires.specs.Index.{IsIndex};
ghost use Rattle.wires.specs.Due.{IsDue, IsFar, IsWithin};
ghost use Rattle.wires.specs.Progress.{IsProgress, IsChance};

use crate::chance::Chance;
use crate::counts::Counts;
use crate::lines::Index;
use group_packets::PacketKind;
use net_rules::{Asked, Fate, ScriptLine, WireAct};
use orca_base::NoMemory;
use std::alloc::{AllocError, Global};

/// How many packets a script counted, the words that it draws next, and the acts that it didn't give yet, in its order. None of these
/// is due before so many packets were asked about.
#[derive(Drop)]
pub struct Progress {
    pub counts: Counts,
    pub chance: Chance,
    pub left: Vec<ScriptLine>,
    pub quiet: u64,
}

/// The place of the first act that is due, or before how many packets none is.
pub enum Due {
    Now { place: usize },
    NotBefore { packets: u64 },
}

// Seed and percentage of the first line that has them.
fn seed_in(lines: &[ScriptLine]) -> Option<(u64, u8)>
    ensures { result ≡ seed_of lines.now }
{
    'lines: for line in lines {
        if let ScriptLine::Seed { seed, percent } = *line {
            return Some((seed, percent));
        }
    }
    None
}

// The words of the first line of random words, none of which drops a packet where there is no such line.
fn chance_of(lines: &[ScriptLine]) -> Chance
    ensures { IsChance (seed_of lines.now) 0 result }
{
    match seed_in(lines) {
        Some((seed, percent)) => Chance::new(seed, percent),
        None => Chance::new(0, 0),
    }
}

// Whether a line is an act.
fn gives_act(line: &ScriptLine) -> bool
    ensures { result ≡ is_act line.now }
{
    matches!(line, ScriptLine::Act { .. })
}

// The act of a line.
fn act_in(line: ScriptLine) -> Option<WireAct>
    ensures { result ≡ act_of line }
{
    match line {
        ScriptLine::Act { act, .. } => Some(act),
        ScriptLine::Fate { .. } | ScriptLine::Seed { .. } => None,
    }
}

// The acts among these lines.
fn acts_of(alloc: Global, lines: &[ScriptLine]) -> Result<Vec<ScriptLine>, AllocError>
    ensures { IfOk result (λ v. v.items ≡ filter is_act lines.now) }
{
    lines
        .iter()
        .filter(|line| gives_act(line))
        .copied()
        .collect(alloc)
}

// Before how many packets an act isn't due, each of which brings it nearer by one at most.
fn reach(counts: &Counts, line: &ScriptLine) -> u64
    ensures { (asked : List Told) → AreCounts asked counts.now → is_due asked line.now ≡ false → IsFar asked result line.now }
{
    match line {
        ScriptLine::Act { kinds, number, .. } => number
            .saturating_sub(counts.count(*kinds))
            .saturating_add(counts.all),
        ScriptLine::Fate { .. } | ScriptLine::Seed { .. } => u64::MAX,
    }
}

// The first act that is due, or when one may be.
fn look(counts: &Counts, acts: &[ScriptLine]) -> Due
    ensures within { IsWithin (length acts.now) result }
    ensures is { (asked : List Told) → AreCounts asked counts.now → IsDue asked acts.now result }
{
    let mut packets = u64::MAX;
    'acts: for (place, line) in acts.iter().enumerate() {
        if counts.is_due(line) {
            return Due::Now { place };
        }
        packets = packets.min(reach(counts, line));
    }
    Due::NotBefore { packets }
}

impl Progress {
    /// Of these lines, before anything was asked.
    pub fn new(alloc: Global, lines: &[ScriptLine]) -> Result<Progress, NoMemory>
        ensures { IfOk result (λ progress. IsProgress lines.now [] progress) }
    {
        Ok(Progress {
            counts: Counts::new(),
            chance: chance_of(lines),
            left: acts_of(alloc, lines)?,
            quiet: 0,
        })
    }

    /// The fate of the next packet, of this kind.
    pub fn fate(&mut self, index: &Index, kind: PacketKind) -> Fate
        ensures { (lines : List Said) (asked : List Told) (question : Query) (fate : Fated) → question.kind ≡ kind → length asked < 2 ^ 64 - 1 →
            IsIndex lines index.now → IsProgress lines asked self.old →
            (result ≡ script_fate lines asked kind) × IsProgress lines (Packet question fate ∷ asked) self.new }
    {
        let found = index.first(&self.counts, kind);
        self.counts.add(kind);
        match found {
            Some(found) => found.fate,
            None => self.chance.next(),
        }
    }

    /// What the script does next.
    pub fn act(&mut self) -> Option<WireAct>
        ensures { (lines : List Said) (asked : List Told) (number : ℕ) (act : Option Done) → IsProgress lines asked self.old →
            (result ≡ script_act lines asked) × IsProgress lines (Act number act ∷ asked) self.new }
    {
        if self.counts.all < self.quiet {
            return None;
        }
        match look(&self.counts, &self.left) {
            Due::Now { place } => {
                let line = self.left.remove(place);
                act_in(line)
            }
            Due::NotBefore { packets } => {
                self.quiet = packets;
                None
            }
        }
    }

    /// Once more what was asked.
    pub fn again(&mut self, index: &Index, one: &Asked)
        ensures { (lines : List Said) (asked : List Told) → length asked < 2 ^ 64 - 1 → IsIndex lines index.now → IsProgress lines asked self.old →
            IsProgress lines (one.now ∷ asked) self.new }
    {
        match one {
            Asked::Packet { question, .. } => {
                let _fate = self.fate(index, question.kind);
            }
            Asked::Act { .. } => {
                let _act = self.act();
            }
        }
    }
}
