//! How many packets a wire was asked about.

ghost use Rattle.std.specs.Prelude.{◌≡◌, ◌+◌, ◌<◌, ◌-◌, ◌^◌, ◌∷◌, [], List, length, min};
ghost use Rattle.group_packets.specs.declared.packet.PacketKind.{PacketKind as Sort};
ghost use Rattle.net_rules.specs.declared.asked.Asked.{Asked as Told};
ghost use Rattle.net_rules.specs.declared.asked.Asked.TheVariants.{Packet};
ghost use Rattle.net_rules.specs.declared.asked.Question.{Question as Query};
ghost use Rattle.net_rules.specs.declared.fate.Fate.{Fate as Fated};
ghost use Rattle.net_rules.specs.Asked.{count, kind_number};
ghost use Rattle.net_rules.specs.Script.{is_due};
ghost use Rattle.wires.specs.Counts.{AreCounts};

use group_packets::PacketKind;
use net_rules::{Kinds, ScriptLine};

/// How many kinds of packets there are.
pub const KINDS: usize = 13;

/// How many packets were asked about, in all and of each kind, by the kind's number.
#[derive(Drop)]
pub struct Counts {
    pub all: u64,
    pub kinds: [u64; KINDS],
}

/// The kind's number.
pub fn number_of_kind(kind: PacketKind) -> usize
    ensures is { result ≡ kind_number kind }
    ensures within { result < 13 }
{
    kind as usize
}

impl Counts {
    /// None yet.
    pub fn new() -> Counts
        ensures { AreCounts [] result }
    {
        Counts {
            all: 0,
            kinds: [0; KINDS],
        }
    }

    /// One more of this kind.
    pub fn add(&mut self, kind: PacketKind)
        ensures { (asked : List Told) (question : Query) (fate : Fated) → question.kind ≡ kind → length asked < 2 ^ 64 - 1 → AreCounts asked self.old →
            AreCounts (Packet question fate ∷ asked) self.new }
    {
        let number = number_of_kind(kind);
        self.all = self.all.saturating_add(1);
        self.kinds[number] = self.kinds[number].saturating_add(1);
    }

    /// How many of these.
    pub fn count(&self, kinds: Kinds) -> u64
        ensures { (asked : List Told) → AreCounts asked self.now → result ≡ count kinds asked }
    {
        match kinds {
            Kinds::Any => self.all,
            Kinds::Only { kind } => self.kinds[number_of_kind(kind)],
        }
    }

    /// Whether a line is an act for which enough were asked about.
    pub fn is_due(&self, line: &ScriptLine) -> bool
        ensures { (asked : List Told) → AreCounts asked self.now → result ≡ is_due asked line.now }
    {
        match line {
            ScriptLine::Act { kinds, number, .. } => *number <= self.count(*kinds),
            ScriptLine::Fate { .. } | ScriptLine::Seed { .. } => false,
        }
    }
}
