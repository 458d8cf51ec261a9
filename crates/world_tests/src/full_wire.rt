//! A wire with no memory.

ghost use Rattle.std.specs.Prelude.{◌≡◌, ◌+◌, ◌<◌, ◌≤◌};
ghost use Rattle.wires.specs.Wired.{passing};

use fault_scripts::Script;
use group_packets::PacketKind;
use net_rules::{Fate, WireAct};
use orca_base::NoMemory;
use std::alloc::Global;
use wires::{PlainWire, Wire};

/// A wire that finds no memory for any question.
#[derive(Drop)]
pub struct FullWire {
    plain: PlainWire,
}

impl FullWire {
    /// One that wasn't asked yet. It has room for no question.
    pub fn new(alloc: Global) -> FullWire {
        FullWire {
            plain: PlainWire::new(alloc),
        }
    }
}

impl Wire for FullWire {
    ghost told = { λ w. w.plain.told };

    ghost rule = { λ w. passing w.plain.script };

    ghost loaded = { λ w. w.plain.loaded };

    ghost spare = { λ w. w.plain.spare };

    fn load(&mut self, alloc: Global, script: &Script) -> Result<(), NoMemory> {
        self.plain.load(alloc, script)
    }

    fn make_room(&mut self, questions: u32) -> Result<(), NoMemory> {
        if questions == 0 {
            Ok(())
        } else {
            Err(NoMemory)
        }
    }

    fn fate(&mut self, packet: u64, kind: PacketKind, from: u8, to: u8, length: u32) -> Fate {
        self.plain.fate(packet, kind, from, to, length)
    }

    fn next_act(&mut self, event_number: u64) -> Option<WireAct> {
        self.plain.next_act(event_number)
    }

    fn has_obeyed(&self) {
        self.plain.has_obeyed()
    }
}
