//! A boxed wire is a wire.

use crate::wire::Wire;
use fault_scripts::Script;
use group_packets::PacketKind;
use net_rules::{Fate, WireAct};
use orca_base::NoMemory;
use std::alloc::Global;

impl Wire for Box<dyn Wire + Send> {
    ghost told = { λ b. (Wire-box b).told b.value };

    ghost rule = { λ b. (Wire-box b).rule b.value };

    ghost loaded = { λ b. (Wire-box b).loaded b.value };

    ghost spare = { λ b. (Wire-box b).spare b.value };

    fn load(&mut self, alloc: Global, script: &Script) -> Result<(), NoMemory> {
        (**self).load(alloc, script)
    }

    fn make_room(&mut self, questions: u32) -> Result<(), NoMemory> {
        (**self).make_room(questions)
    }

    fn fate(&mut self, packet: u64, kind: PacketKind, from: u8, to: u8, length: u32) -> Fate {
        (**self).fate(packet, kind, from, to, length)
    }

    fn next_act(&mut self, event_number: u64) -> Option<WireAct> {
        (**self).next_act(event_number)
    }

    fn has_obeyed(&self) {
        (**self).has_obeyed()
    }
}
