//! Where a packet's copies stand in a queue that is in order.

ghost use Rattle.std.specs.Prelude.{◌≡◌, ◌+◌, ◌<◌, ◌≤◌, ℕ, List, ◌++◌, Some, None, take, drop, remove, map, slice_index_or, option_to_list, option_map, All, IfSome, MatchOption, is_some, true};
ghost use Rattle.std.specs.VecDeque.{deque_len, deque_capacity};
ghost use Rattle.net_rules.specs.declared.flight.Flight.{Flight as Travels};
ghost use Rattle.net_rules.specs.Flights.{InOrder, IsBefore, copies, first_ready, is_ready, joined, ready_copy, ticked, without};

use net_rules::{Fate, Flight};
use orca_base::Items;
use std::collections::VecDeque;

/// Packets in flight.
pub type Flights = VecDeque<Flight<Items<u8>>>;

/// Where the first flight stands that has no lower number: mostly at the end, where it is looked for first.
pub fn place_for(flights: &Flights, number: u64) -> usize
    requires { InOrder flights.now.items }
    ensures within { result ≤ deque_len flights.now }
    ensures place { (new : List (Travels (List ℕ))) →
        joined number new flights.now.items ≡ take result flights.now.items ++ (new ++ drop result flights.now.items) }
{
    for at in (0..flights.len()).rev() {
        if flights[at].number < number {
            return at + 1;
        }
    }
    0
}

// These bytes, cut to so many.
fn cut(packet: Items<u8>, length: u32) -> Items<u8>
    ensures { result ≡ take length packet }
{
    let mut bytes = packet.into_vec();
    bytes.truncate(length as usize);
    Items::new(bytes)
}

/// What a fate makes of a packet whose twin is equal: at most two copies.
pub fn copies_of(
    number: u64,
    from: u8,
    to: u8,
    packet: Items<u8>,
    twin: Items<u8>,
    fate: Fate,
) -> (Option<Flight<Items<u8>>>, Option<Flight<Items<u8>>>)
    requires { twin ≡ packet }
    ensures { option_to_list result.0 ++ option_to_list result.1 ≡ copies take number from to packet fate }
{
    let first = Flight {
        number,
        copy: 0,
        from,
        to,
        ticks: 0,
        packet,
    };
    match fate {
        Fate::Pass => (Some(first), None),
        Fate::Drop => (None, None),
        Fate::Twice => {
            let second = Flight {
                number,
                copy: 1,
                from,
                to,
                ticks: 0,
                packet: twin,
            };
            (Some(first), Some(second))
        }
        Fate::Hold { ticks } => (Some(Flight { ticks, ..first }), None),
        Fate::Cut { length } => {
            let packet = cut(first.packet, length);
            (Some(Flight { packet, ..first }), None)
        }
    }
}

/// Puts a flight, where there is one, before the one at this place. There is room for it.
pub fn add(flights: &mut Flights, at: usize, flight: Option<Flight<Items<u8>>>)
    requires within { at ≤ deque_len flights.old }
    requires room { deque_len flights.old < deque_capacity flights.old }
    ensures items { flights.new.items ≡ take at flights.old.items ++ (option_to_list flight ++ drop at flights.old.items) }
    ensures len { deque_len flights.new ≤ deque_len flights.old + 1 }
    ensures more { deque_len flights.old ≤ deque_len flights.new }
    ensures capacity { deque_capacity flights.old ≤ deque_capacity flights.new }
{
    if let Some(flight) = flight {
        match flights.insert(at, flight) {
            Ok(()) => {}
            Err(_) => unreachable!(),
        }
    }
}

/// Where this copy of the packet of this number stands, if it is ready.
pub fn place_of(flights: &Flights, number: u64, copy: u8) -> Option<usize>
    ensures { MatchOption result (ready_copy number copy flights.now.items ≡ None) (λ at. (at < deque_len flights.now) ×
        ((d : Travels (List ℕ)) → ready_copy number copy flights.now.items ≡ Some (slice_index_or flights.now.items at d)) ×
        (remove flights.now.items at ≡ without number copy flights.now.items)) }
{
    for at in 0..flights.len() {
        let flight = &flights[at];
        if flight.number == number && flight.copy == copy && flight.ticks == 0 {
            return Some(at);
        }
    }
    None
}

/// Number and copy of the first that is ready, which is the lowest.
pub fn first_of(flights: &Flights) -> Option<(u64, u8)>
    requires { InOrder flights.now.items }
    ensures first { option_map (λ p. (p.0, p.1)) result ≡ first_ready flights.now.items }
    ensures ready { IfSome result (λ p. is_some (ready_copy p.0 p.1 flights.now.items) ≡ true) }
    ensures lowest { IfSome result (λ p.
        All (λ (f : Travels (List ℕ)). is_ready f ≡ true → ¬ (IsBefore f.number f.copy p.0 p.1)) flights.now.items) }
{
    for at in 0..flights.len() {
        let flight = &flights[at];
        if flight.ticks == 0 {
            return Some((flight.number, flight.copy));
        }
    }
    None
}

/// Each copy that is held back waits one tick less.
pub fn tick(flights: &mut Flights)
    ensures items { flights.new.items ≡ ticked flights.old.items }
    ensures len { deque_len flights.new ≡ deque_len flights.old }
    ensures capacity { deque_capacity flights.new ≡ deque_capacity flights.old }
{
    let row = flights.make_contiguous();
    for flight in row.iter_mut() {
        flight.ticks = flight.ticks.saturating_sub(1);
    }
}
