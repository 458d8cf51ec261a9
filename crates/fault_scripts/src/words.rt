//! The words of a line.

ghost use Rattle.std.specs.Prelude.{◌≡◌, ◌∷◌, ◌==◌, ◌≤◌, [], length, not, IsTrue, MatchOption};
ghost use Rattle.std.specs.List.{prefix_len};
ghost use Rattle.fault_scripts.specs.Words.{kinds_of, verb_of, words_of};

use crate::table::entry;
use group_packets::PacketKind;
use net_rules::Kinds;

/// The word that a line begins with.
#[derive(Clone, Copy, Debug, PartialEq, Eq)]
pub enum Verb {
    Drop,
    Twice,
    Hold,
    Cut,
    Crash,
    Suspect,
    Swap,
    Seed,
}

/// Each verb with its word.
pub const VERBS: [(&[u8], Verb); 8] = [
    (b"drop", Verb::Drop),
    (b"twice", Verb::Twice),
    (b"hold", Verb::Hold),
    (b"cut", Verb::Cut),
    (b"crash", Verb::Crash),
    (b"suspect", Verb::Suspect),
    (b"swap", Verb::Swap),
    (b"seed", Verb::Seed),
];

/// Each kind of packets with its word.
pub const KINDS: [(&[u8], Kinds); 14] = [
    (
        b"request",
        Kinds::Only {
            kind: PacketKind::Request,
        },
    ),
    (
        b"body",
        Kinds::Only {
            kind: PacketKind::Body,
        },
    ),
    (
        b"order",
        Kinds::Only {
            kind: PacketKind::Order,
        },
    ),
    (
        b"entry",
        Kinds::Only {
            kind: PacketKind::Entry,
        },
    ),
    (
        b"ack",
        Kinds::Only {
            kind: PacketKind::Ack,
        },
    ),
    (
        b"accept",
        Kinds::Only {
            kind: PacketKind::Accept,
        },
    ),
    (
        b"nack",
        Kinds::Only {
            kind: PacketKind::Nack,
        },
    ),
    (
        b"status",
        Kinds::Only {
            kind: PacketKind::Status,
        },
    ),
    (
        b"invite",
        Kinds::Only {
            kind: PacketKind::Invite,
        },
    ),
    (
        b"join",
        Kinds::Only {
            kind: PacketKind::Join,
        },
    ),
    (
        b"result",
        Kinds::Only {
            kind: PacketKind::Result,
        },
    ),
    (
        b"ask",
        Kinds::Only {
            kind: PacketKind::Ask,
        },
    ),
    (
        b"answer",
        Kinds::Only {
            kind: PacketKind::Answer,
        },
    ),
    (b"any", Kinds::Any),
];

/// The verb that a word is.
#[tactic(auto, unfolding(crate::specs::Words::verb_of))]
pub fn known_verb(word: &[u8]) -> Option<Verb>
    ensures { result ≡ verb_of word.now }
{
    entry(&VERBS, word)
}

/// The kinds that a word is for.
#[tactic(auto, unfolding(crate::specs::Words::kinds_of))]
pub fn kinds(word: &[u8]) -> Option<Kinds>
    ensures { result ≡ kinds_of word.now }
{
    entry(&KINDS, word)
}

// How many spaces stand at the front.
fn space_len(rest: &[u8]) -> usize
    ensures len { result ≡ prefix_len (λ c. c == 32) rest.now }
    ensures within { result ≤ length rest.now }
{
    rest.iter().take_while(|byte| **byte == b' ').count()
}

// How many bytes at the front are no spaces.
fn word_len(rest: &[u8]) -> usize
    ensures len { result ≡ prefix_len (λ c. not (c == 32)) rest.now }
    ensures within { result ≤ length rest.now }
{
    rest.iter().take_while(|byte| **byte != b' ').count()
}

/// The next word of a line, and what is left behind it.
pub fn next_word(rest: &[u8]) -> Option<(&[u8], &[u8])>
    ensures { MatchOption result (words_of rest.now ≡ []) (λ x. words_of rest.now ≡ x.0.now ∷ words_of x.1.now) }
{
    let rest = &rest[space_len(rest)..];
    if rest.is_empty() {
        return None;
    }
    let (word, behind) = rest.split_at(word_len(rest));
    Some((word, behind))
}
