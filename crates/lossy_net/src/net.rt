//! Packets in flight.

ghost use Rattle.std.specs.Prelude.{◌≡◌, ◌+◌, ◌≤◌, ℕ, List, [], true, false, Some, take, is_some, option_map, All, IfSome, OnOk, OnErr};
ghost use Rattle.net_rules.specs.declared.flight.Flight.{Flight as Travels};
ghost use Rattle.net_rules.specs.Flights.{IsBefore, copies, first_ready, is_ready, joined, ready_copy, some_held, ticked, travels, without};

use crate::places::{add, copies_of, first_of, place_for, place_of, tick};
use net_rules::{Fate, Flight};
use orca_base::{Items, NoMemory};
use std::alloc::Global;
use std::collections::VecDeque;
use std::marker::Model;

/// Packets in flight: the copies of packets in order of number, and for how many packets more there is room.
///
/// A packet is ready, held for a number of ticks, or gone. What travels is its bytes.
#[derive(Drop)]
pub struct Net {
    flights: VecDeque<Flight<Items<u8>>>,
    spare: u32,
}

impl Model for Net {
    ghost use Rattle.std.specs.Prelude.{◌+◌, ◌*◌, ◌≤◌};
    ghost use Rattle.std.specs.VecDeque.{deque_len, deque_capacity};
    ghost use Rattle.net_rules.specs.Flights.{InOrder};
    ghost use Rattle.lossy_net.specs.InFlight.{InFlight};

    ghost Value = { InFlight };

    ghost view = { λ n. record { flights = n.flights.items; spare = n.spare } };

    // Each packet may need two places.
    ghost invariant = { λ n. InOrder n.flights.items × (deque_len n.flights + 2 * n.spare ≤ deque_capacity n.flights) };
}

impl Net {
    /// No packets, and room for none.
    pub fn new(alloc: Global) -> Net
        ensures empty { result.flights ≡ [] }
        ensures spare { result.spare ≡ 0 }
    {
        Net {
            flights: VecDeque::new(alloc),
            spare: 0,
        }
    }

    /// Makes room for at least so many packets more. Where memory lacks, all stays as it was.
    pub fn make_room(&mut self, packets: u32) -> Result<(), NoMemory>
        ensures same { self.new.flights ≡ self.old.flights }
        ensures room { OnOk result (packets ≤ self.new.spare) }
        ensures more { self.old.spare ≤ self.new.spare }
        ensures err { OnErr result (self.new ≡ self.old) }
    {
        if self.spare < packets {
            self.flights.reserve(packets as usize * 2)?;
            self.spare = packets;
        }
        Ok(())
    }

    /// Adds the copies that a fate makes of a packet. It takes no memory: there is room for it, and the twin, an equal packet, is its
    /// second copy where it comes twice. No copy of a packet of this number is in flight.
    pub fn put(
        &mut self,
        number: u64,
        from: u8,
        to: u8,
        packet: Items<u8>,
        twin: Items<u8>,
        fate: Fate,
    )
        requires room { 1 ≤ self.old.spare }
        requires twin { twin ≡ packet }
        requires other { travels number self.old.flights ≡ false }
        ensures put { self.new.flights ≡ joined number (copies take number from to packet fate) self.old.flights }
        ensures spare { self.new.spare + 1 ≡ self.old.spare }
    {
        let (first, second) = copies_of(number, from, to, packet, twin, fate);
        let at = place_for(&self.flights, number);
        self.spare -= 1;
        add(&mut self.flights, at, second);
        add(&mut self.flights, at, first);
    }

    /// Whether this copy of the packet of this number is ready.
    pub fn is_ready(&self, number: u64, copy: u8) -> bool
        ensures { result ≡ is_some (ready_copy number copy self.now.flights) }
    {
        place_of(&self.flights, number, copy).is_some()
    }

    /// Number and copy of the ready packet of the lowest number, and of its lowest ready copy.
    pub fn first_ready(&self) -> Option<(u64, u8)>
        ensures first { option_map (λ p. (p.0, p.1)) result ≡ first_ready self.now.flights }
        ensures ready { IfSome result (λ p. is_some (ready_copy p.0 p.1 self.now.flights) ≡ true) }
        ensures lowest { IfSome result (λ p.
            All (λ (f : Travels (List ℕ)). is_ready f ≡ true → ¬ (IsBefore f.number f.copy p.0 p.1)) self.now.flights) }
    {
        first_of(&self.flights)
    }

    /// Whether some copy is held back.
    pub fn has_held(&self) -> bool
        ensures { result ≡ some_held self.now.flights }
    {
        self.flights.iter().any(|flight| flight.ticks != 0)
    }

    /// The ready copy of this number, lent.
    pub fn look(&self, number: u64, copy: u8) -> &Flight<Items<u8>>
        requires { is_some (ready_copy number copy self.now.flights) ≡ true }
        ensures { Some result.now ≡ ready_copy number copy self.now.flights }
    {
        match place_of(&self.flights, number, copy) {
            Some(at) => &self.flights[at],
            None => unreachable!(),
        }
    }

    /// Takes the ready copy of this number out: its sender, its receiver and its bytes. It takes no memory.
    pub fn take(&mut self, number: u64, copy: u8) -> (u8, u8, Items<u8>)
        requires { is_some (ready_copy number copy self.old.flights) ≡ true }
        ensures from { Some result.0 ≡ option_map (λ (f : Travels (List ℕ)). f.from) (ready_copy number copy self.old.flights) }
        ensures to { Some result.1 ≡ option_map (λ (f : Travels (List ℕ)). f.to) (ready_copy number copy self.old.flights) }
        ensures packet { Some result.2 ≡ option_map (λ (f : Travels (List ℕ)). f.packet) (ready_copy number copy self.old.flights) }
        ensures rest { self.new.flights ≡ without number copy self.old.flights }
        ensures spare { self.new.spare ≡ self.old.spare }
    {
        let taken = match place_of(&self.flights, number, copy) {
            Some(at) => self.flights.remove(at),
            None => unreachable!(),
        };
        match taken {
            Some(
                Flight {
                    from,
                    to,
                    packet,
                    ..
                },
            ) => (from, to, packet),
            None => unreachable!(),
        }
    }

    /// One tick: each copy that is held back waits one tick less.
    pub fn tick(&mut self)
        ensures ticked { self.new.flights ≡ ticked self.old.flights }
        ensures spare { self.new.spare ≡ self.old.spare }
    {
        tick(&mut self.flights);
    }
}
