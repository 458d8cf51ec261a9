//! Random words.

ghost use Rattle.std.specs.Prelude.{◌≡◌};
ghost use Rattle.rand_pcg.specs.Pcg.{pcg32};
ghost use Rattle.net_rules.specs.Script.{lost_or_passed};
ghost use Rattle.net_rules.specs.Words.{generator, next_word};

use net_rules::Fate;
use rand_core::SeedableRng;
use rand_core::utils::NextWord;
use rand_pcg::Pcg32;

/// Words of a seed, of which so many of a hundred drop a packet.
#[derive(Drop)]
pub struct Chance {
    pub percent: u8,
    pub source: Pcg32,
}

impl Chance {
    /// The words of this seed, from the first one on.
    #[tactic(auto, unfolding(net_rules::specs::Words::generator))]
    pub fn new(seed: u64, percent: u8) -> Chance
        ensures percent { result.percent ≡ percent }
        ensures source { result.source ≡ generator seed }
    {
        Chance {
            percent,
            source: Pcg32::seed_from_u64(seed),
        }
    }

    /// What the next word does to a packet.
    #[tactic(auto, unfolding(net_rules::specs::Words::next_word))]
    pub fn next(&mut self) -> Fate
        ensures fate { result ≡ lost_or_passed self.old.percent (next_word self.old.source) }
        ensures source { self.new.source ≡ (pcg32 self.old.source).1 }
        ensures percent { self.new.percent ≡ self.old.percent }
    {
        let word = self.source.next_word();
        if word % 100 < u32::from(self.percent) {
            Fate::Drop
        } else {
            Fate::Pass
        }
    }
}
