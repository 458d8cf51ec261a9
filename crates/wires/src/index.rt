//! The lines of a script that say fates, found by kind and number.

ghost use Rattle.std.specs.Prelude.{◌≡◌, ◌+◌, ◌<◌, ◌≤◌, ◌^◌, ◌-◌, ◌∷◌, [], ℕ, IfOk, List, OnOk, length};
ghost use Rattle.std.specs.BTreeMap.{get};
ghost use Rattle.std.specs.Ordering.{nat_cmp};
ghost use Rattle.group_packets.specs.declared.packet.PacketKind.{PacketKind as Sort};
ghost use Rattle.net_rules.specs.declared.asked.Asked.{Asked as Told};
ghost use Rattle.net_rules.specs.declared.line.ScriptLine.{ScriptLine as Said};
ghost use Rattle.net_rules.specs.Script.{decides};
ghost use Rattle.wires.specs.Index.{IsIndex, IsKindLines, counts, first_from, lesser, says_fate};
ghost use Rattle.wires.specs.Counts.{AreCounts};

use crate::counts::{Counts, KINDS, number_of_kind};
use crate::lines::{Found, Index, KindLines};
use group_packets::PacketKind;
use net_rules::{Kinds, ScriptLine, Which};
use orca_base::NoMemory;
use std::alloc::Global;
use std::collections::BTreeMap;

/// Whether a line counts exactly these: one kind, by its number, or all.
fn counts_only(wanted: Option<usize>, kinds: Kinds) -> bool
    ensures { result ≡ counts wanted kinds }
{
    match (wanted, kinds) {
        (None, Kinds::Any) => true,
        (Some(number), Kinds::Only { kind }) => number_of_kind(kind) == number,
        _ => false,
    }
}

/// The one that stands first.
fn earlier(one: Option<Found>, other: Option<Found>) -> Option<Found>
    ensures { result ≡ lesser one other }
{
    match (one, other) {
        (None, other) => other,
        (one, None) => one,
        (Some(one), Some(other)) => {
            if one.line <= other.line {
                Some(one)
            } else {
                Some(other)
            }
        }
    }
}

impl KindLines {
    /// Of no lines.
    fn none(alloc: Global) -> KindLines
        ensures { (wanted : _) (place : ℕ) → IsKindLines wanted place [] result }
    {
        KindLines {
            all: None,
            numbered: BTreeMap::new(alloc),
        }
    }

    // Notes a line that stands in front of those that were noted.
    fn note(
        &mut self,
        wanted: Option<usize>,
        place: usize,
        line: &ScriptLine,
    ) -> Result<(), NoMemory>
        ensures { OnOk result ((lines : List Said) → IsKindLines wanted (place + 1) lines self.old → IsKindLines wanted place (line.now ∷ lines) self.new) }
    {
        let ScriptLine::Fate { kinds, which, fate } = *line else {
            return Ok(());
        };
        if !counts_only(wanted, kinds) {
            return Ok(());
        }
        let found = Found { line: place, fate };
        match which {
            Which::All => self.all = Some(found),
            Which::Nth { number } => {
                self.numbered.insert(number, found)?;
            }
        }
        Ok(())
    }

    // Those among these lines that count this.
    fn of(alloc: Global, wanted: Option<usize>, lines: &[ScriptLine]) -> Result<KindLines, NoMemory>
        ensures { IfOk result (λ kept. IsKindLines wanted 0 lines.now kept) }
    {
        let mut kept = KindLines::none(alloc);
        let mut place = lines.len();
        'lines: while 0 < place {
            place -= 1;
            kept.note(wanted, place, &lines[place])?;
        }
        Ok(kept)
    }

    // The first that says the fate of the packet with this number.
    fn first(&self, number: u64) -> Option<Found>
        ensures { (wanted : _) (lines : List Said) → IsKindLines wanted 0 lines self.now → result ≡ first_from (says_fate wanted number) 0 lines }
    {
        earlier(self.all, self.numbered.get(&number).copied())
    }
}

impl Index {
    /// That of these lines.
    pub fn of(alloc: Global, lines: &[ScriptLine]) -> Result<Index, NoMemory>
        ensures { IfOk result (λ index. IsIndex lines.now index) }
    {
        let any = KindLines::of(alloc, None, lines)?;
        let mut kinds = Vec::new(alloc);
        'kinds: for number in 0..KINDS {
            kinds.push(KindLines::of(alloc, Some(number), lines)?)?;
        }
        Ok(Index { any, kinds })
    }

    /// The first line that says the fate of the next packet of this kind.
    pub fn first(&self, counts: &Counts, kind: PacketKind) -> Option<Found>
        ensures { (lines : List Said) (asked : List Told) → length asked < 2 ^ 64 - 1 → IsIndex lines self.now → AreCounts asked counts.now →
            result ≡ first_from (decides asked kind) 0 lines }
    {
        let number = number_of_kind(kind);
        let of_kind = self.kinds[number].first(counts.kinds[number].saturating_add(1));
        let of_any = self.any.first(counts.all.saturating_add(1));
        earlier(of_kind, of_any)
    }
}
