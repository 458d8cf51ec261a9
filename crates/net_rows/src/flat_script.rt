//! What the product read of a script, told as the plain reader tells it.

use group_packets::PacketKind;
use net_rules::{Fate, Kinds, ScriptLine, Which, WireAct};
use row_files::flat::Numbers;
use std::alloc::AllocError;

// The place of the kinds' word in the table.
fn place_of(kinds: &Kinds) -> i128 {
    match kinds {
        Kinds::Any => 13,
        Kinds::Only { kind } => match kind {
            PacketKind::Request => 0,
            PacketKind::Body => 1,
            PacketKind::Order => 2,
            PacketKind::Entry => 3,
            PacketKind::Ack => 4,
            PacketKind::Accept => 5,
            PacketKind::Nack => 6,
            PacketKind::Status => 7,
            PacketKind::Invite => 8,
            PacketKind::Join => 9,
            PacketKind::Result => 10,
            PacketKind::Ask => 11,
            PacketKind::Answer => 12,
        },
    }
}

// The number of a packet, 0 for all.
fn number_of(which: &Which) -> i128 {
    match which {
        Which::All => 0,
        Which::Nth { number } => i128::from(*number),
    }
}

// Adds what is said of packets.
fn put_fate(
    numbers: &mut Numbers,
    kinds: &Kinds,
    which: &Which,
    fate: &Fate,
) -> Result<(), AllocError> {
    let kinds = place_of(kinds);
    let which = number_of(which);
    match fate {
        Fate::Drop => numbers.extend_from_slice(&[0, kinds, which]),
        Fate::Twice => numbers.extend_from_slice(&[1, kinds, which]),
        Fate::Hold { ticks } => numbers.extend_from_slice(&[2, kinds, which, i128::from(*ticks)]),
        Fate::Cut { length } => numbers.extend_from_slice(&[3, kinds, which, i128::from(*length)]),
        Fate::Pass => Ok(()),
    }
}

/// Adds a line.
pub fn put_line(numbers: &mut Numbers, line: &ScriptLine) -> Result<(), AllocError> {
    match line {
        ScriptLine::Fate { kinds, which, fate } => put_fate(numbers, kinds, which, fate),
        ScriptLine::Act { kinds, number, act } => {
            let kinds = place_of(kinds);
            let number = i128::from(*number);
            match act {
                WireAct::Crash { node } => numbers.extend_from_slice(&[
                    4,
                    i128::from(*node),
                    kinds,
                    number,
                ]),
                WireAct::Suspect { node } => numbers.extend_from_slice(&[
                    5,
                    i128::from(*node),
                    kinds,
                    number,
                ]),
                WireAct::Swap => numbers.extend_from_slice(&[6, kinds, number]),
            }
        }
        ScriptLine::Seed { seed, percent } => {
            numbers.extend_from_slice(&[7, i128::from(*seed), i128::from(*percent)])
        }
    }
}
