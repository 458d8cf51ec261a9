//! What the wire in use is asked between events.

ghost use Rattle.std.specs.Prelude.{◌≡◌, ◌<◌, ◌∷◌, [], IfOk, OnErr, length, map};
ghost use Rattle.net_rules.specs.declared.asked.Asked.TheVariants.{Act};
ghost use Rattle.world_rules.specs.Acts.{event_of, swaps_by};
ghost use Rattle.run_loop.specs.Driven.{told_more};

use net_rules::WireAct;
use orca_base::NoMemory;
use wires::Wire;
use world_rules::Event;

/// What the wire at a place does before the event of this number. Where there is no memory, no wire was asked.
pub(crate) fn ask<W: Wire>(
    wires: &mut [W],
    at: usize,
    number: u64,
) -> Result<Option<WireAct>, NoMemory>
    requires { at < length wires.old }
    ensures told { IfOk result (λ act. map W.told wires.new ≡ told_more at (Act number act ∷ []) (map W.told wires.old)) }
    ensures err { OnErr result (map W.told wires.new ≡ map W.told wires.old) }
    ensures scripts { map W.rule wires.new ≡ map W.rule wires.old }
    ensures loaded { map W.loaded wires.new ≡ map W.loaded wires.old }
{
    let wire = &mut wires[at];
    wire.make_room(1)?;
    Ok(wire.next_act(number))
}

/// The event that an act is.
pub(crate) fn event_of(act: WireAct) -> Event
    ensures { result ≡ event_of act }
{
    match act {
        WireAct::Crash { node } => Event::Crash { node },
        WireAct::Suspect { node } => Event::Suspect { node },
        WireAct::Swap => Event::Swap,
    }
}

/// How many wires it gives up.
pub(crate) fn swaps_of(act: WireAct) -> usize
    ensures { result ≡ swaps_by (event_of act) }
{
    match act {
        WireAct::Swap => 1,
        WireAct::Crash { .. } | WireAct::Suspect { .. } => 0,
    }
}
