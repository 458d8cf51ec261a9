//! Runs of a few members from their beginning to their end.

ghost use Rattle.std.specs.Prelude.{◌≤◌};

use crate::cells::Cells;
use crate::driving::{Run, ran, settings, single_settings};
use bag_processes::Scripts;
use fault_scripts::read_script;
use lossy_net::PlainWire;
use net_rules::Asked;
use orca_base::{NoMemory, ProcessNo, Refusal};
use std::alloc::Global;
use std::test::Fail;
use wires::{ScriptWire, Wire};
use world_core::{Event, PlaceNote, ProcessStanding, Standing, Step};

// A wire with this script.
fn scripted(alloc: Global, text: &[u8]) -> Result<ScriptWire, Fail> {
    if text.len() > 1_000 {
        return Err("too long".into());
    }
    let mut wire = ScriptWire::new(alloc)?;
    match read_script(alloc, text) {
        Ok(script) => wire.load(alloc, &script)?,
        Err(Refusal::NoMemory) => return Err(NoMemory.into()),
        Err(Refusal::Because { .. }) => return Err("bad script".into()),
    }
    Ok(wire)
}

// A run of the cell's process on three members over one wire with this script.
fn ran_by(alloc: Global, resilience: u8, text: &[u8]) -> Result<(Run, u64), Fail>
    requires { resilience ≤ 1 }
{
    let mut wires = Vec::new(alloc);
    wires.push(scripted(alloc, text)?)?;
    let ran = ran(
        alloc,
        &Cells,
        settings(alloc, 3, resilience, 1000, 1),
        wires.as_mut_slice(),
    )?;
    let mut sent = 0;
    for wire in &wires {
        sent = packets(wire.told());
    }
    Ok((ran, sent))
}

// How many packets a wire was asked of.
fn packets(told: &[Asked]) -> u64 {
    let mut packets = 0u64;
    for one in told {
        if let Asked::Packet { .. } = one {
            packets = packets.saturating_add(1);
        }
    }
    packets
}

// How many ticks these steps have.
fn ticks(steps: &[Step]) -> u64 {
    let mut ticks = 0u64;
    for step in steps {
        if let Event::Tick = step.event {
            ticks = ticks.saturating_add(1);
        }
    }
    ticks
}

// One cell on three members, of which none acknowledges: 4 bursts, 3 acts and 6 deliveries; the book with its places, the members and the
// process.
#[test]
fn one_cell(rt: HostRuntime) -> Result<(), Fail> {
    let alloc = rt.alloc();
    let mut wires = Vec::new(alloc);
    wires.push(PlainWire::new(alloc))?;
    let ran = ran(
        alloc,
        &Cells,
        settings(alloc, 3, 0, 1000, 1),
        wires.as_mut_slice(),
    )?;
    assert_eq!(rt; ran.standing, Standing::Finished);
    assert_eq!(rt; ran.end.steps.len(), 13);
    for wire in &wires {
        assert_eq!(rt; packets(wire.told()), 6);
    }
    assert_eq!(rt; ran.end.book.len(), 4);
    for line in &ran.end.book {
        assert_eq!(rt; line.process, ProcessNo::MAIN);
    }
    let places = [
        PlaceNote::Entry { number: 1 },
        PlaceNote::Entry { number: 2 },
        PlaceNote::Read { number: 2 },
        PlaceNote::Entry { number: 3 },
    ];
    assert_eq!(rt; ran.end.places.as_slice(), places.as_slice());
    assert_eq!(rt; ran.end.nodes.len(), 3);
    for node in &ran.end.nodes {
        assert_eq!(rt;
            (node.applied, node.incarnation, node.crashed, node.outside),
            (3, 0, false, false)
        );
    }
    assert_eq!(rt; ran.end.processes.len(), 1);
    for process in &ran.end.processes {
        assert_eq!(rt;
            (process.node, process.replies.len(), process.turns),
            (0, 4, 0)
        );
        assert!(rt; matches!(process.standing, ProcessStanding::Ended));
    }
    Ok(())
}

// On one member no packet is sent: 4 bursts and 3 acts.
#[test]
fn one_member(rt: HostRuntime) -> Result<(), Fail> {
    let alloc = rt.alloc();
    let mut wires = Vec::new(alloc);
    wires.push(PlainWire::new(alloc))?;
    let ran = ran(
        alloc,
        &Cells,
        settings(alloc, 1, 0, 1000, 1),
        wires.as_mut_slice(),
    )?;
    assert_eq!(rt; ran.standing, Standing::Finished);
    assert_eq!(rt; ran.end.steps.len(), 7);
    for wire in &wires {
        assert_eq!(rt; packets(wire.told()), 0);
    }
    assert_eq!(rt; ran.end.book.len(), 4);
    Ok(())
}

// With one acknowledger an entry takes two Entry packets, an Ack and two Accept packets: 15 packets, and 22 events with 4 bursts and 3
// acts. A lost or a cut Entry costs a Nack and an Entry more; one that is cut to its own length costs nothing.
#[test]
fn one_cell_resilient(rt: HostRuntime) -> Result<(), Fail> {
    let alloc = rt.alloc();
    for (text, sent) in [
        (b"# nothing\n".as_slice(), 15),
        (b"drop entry 2\n".as_slice(), 17),
        (b"cut entry 2 51\n".as_slice(), 17),
        (b"cut entry 2 52\n".as_slice(), 15),
    ] {
        let (ran, asked) = ran_by(alloc, 1, text)?;
        assert_eq!(rt; ran.standing, Standing::Finished);
        assert_eq!(rt; asked, sent);
        assert_eq!(rt; ran.end.book.len(), 4);
        for node in &ran.end.nodes {
            assert_eq!(rt; node.applied, 3);
        }
        if sent == 15 {
            assert_eq!(rt; ran.end.steps.len(), 22);
        }
    }
    Ok(())
}

// A single cell on two members: its make is an entry, and the calls on it are performed on its copy, which its maker keeps.
#[test]
fn single_cell(rt: HostRuntime) -> Result<(), Fail> {
    let alloc = rt.alloc();
    let mut wires = Vec::new(alloc);
    wires.push(PlainWire::new(alloc))?;
    let ran = ran(alloc, &Cells, single_settings(alloc)?, wires.as_mut_slice())?;
    assert_eq!(rt; ran.standing, Standing::Finished);
    let places = [
        PlaceNote::Entry { number: 1 },
        PlaceNote::Single { number: 1 },
        PlaceNote::Single { number: 1 },
        PlaceNote::Single { number: 1 },
    ];
    assert_eq!(rt; ran.end.places.as_slice(), places.as_slice());
    Ok(())
}

// Without an acknowledger a lost entry is asked for once its receiver hears of a later one: 8 Entry packets and one Nack, since a burst of
// entries costs one Nack. Of the last entry nobody tells: it stays lost there.
#[test]
fn lost_entry(rt: HostRuntime) -> Result<(), Fail> {
    let alloc = rt.alloc();
    let (early, sent) = ran_by(alloc, 0, b"drop entry 2\n")?;
    assert_eq!(rt;
        (early.standing, sent, early.end.book.len()),
        (Standing::Finished, 9, 4)
    );
    let (late, sent) = ran_by(alloc, 0, b"drop entry 6\n")?;
    assert_eq!(rt;
        (late.standing, sent, late.end.book.len()),
        (Standing::Finished, 6, 4)
    );
    let mut fewest = u64::MAX;
    let mut all = 0u64;
    for node in &late.end.nodes {
        fewest = fewest.min(node.applied);
        all = all.saturating_add(node.applied);
    }
    assert_eq!(rt; (fewest, all), (2, 8));
    Ok(())
}

// The first wire drops all, and is given up at its second entry: after one tick all goes over the second, which is asked of 2 Status,
// 6 Entry, 3 Ack and 8 Accept packets.
#[test]
fn two_wires(rt: HostRuntime) -> Result<(), Fail> {
    let alloc = rt.alloc();
    let mut wires = Vec::new(alloc);
    wires.push(scripted(alloc, b"drop any all\nswap entry 2\n")?)?;
    wires.push(scripted(alloc, b"# nothing\n")?)?;
    let ran = ran(
        alloc,
        &Cells,
        settings(alloc, 3, 1, 1000, 2),
        wires.as_mut_slice(),
    )?;
    assert_eq!(rt;
        (ran.standing, ran.swaps, ticks(ran.end.steps.as_slice())),
        (Standing::Finished, 1, 1)
    );
    let mut sent = Vec::new(alloc);
    for wire in &wires {
        sent.push(packets(wire.told()))?;
    }
    assert_eq!(rt; sent.as_slice(), [2, 19].as_slice());
    assert_eq!(rt; ran.end.book.len(), 4);
    Ok(())
}

// Members 1 and 2 suspect member 0 while that lives: all end in incarnation 5, with all entries.
#[test]
fn suspected_sequencer(rt: HostRuntime) -> Result<(), Fail> {
    let alloc = rt.alloc();
    let (ran, _) = ran_by(alloc, 1, b"suspect 1 entry 2\nsuspect 2 entry 2\n")?;
    assert_eq!(rt; ran.standing, Standing::Finished);
    for node in &ran.end.nodes {
        assert_eq!(rt; (node.applied, node.incarnation), (3, 5));
    }
    Ok(())
}

// Where two of three crash, the group is given up, and the process waits for it.
#[test]
fn too_many_crashes(rt: HostRuntime) -> Result<(), Fail> {
    let alloc = rt.alloc();
    let (ran, _) = ran_by(alloc, 1, b"crash 1 entry 2\ncrash 2 entry 2\n")?;
    assert_eq!(rt; ran.standing, Standing::NoGroup);
    for process in &ran.end.processes {
        assert!(rt; matches!(process.standing, ProcessStanding::Waits { .. }));
    }
    Ok(())
}

// Three processes on three members: the first makes a flag, changes it twice and forks the others; the second makes a pool, fills and
// empties it and then waits at it for ever; of the third the making faults. Each member applies the 10 entries, of which the one that is
// suspended has no line.
#[test]
fn three_processes(rt: HostRuntime) -> Result<(), Fail> {
    let alloc = rt.alloc();
    let mut wires = Vec::new(alloc);
    wires.push(PlainWire::new(alloc))?;
    let ran = ran(
        alloc,
        &Scripts,
        settings(alloc, 3, 0, 1000, 1),
        wires.as_mut_slice(),
    )?;
    assert_eq!(rt; ran.standing, Standing::Blocked);
    for node in &ran.end.nodes {
        assert_eq!(rt; node.applied, 10);
    }
    assert_eq!(rt; ran.end.book.len(), 9);
    for place in &ran.end.places {
        assert!(rt; matches!(place, PlaceNote::Entry { .. }));
    }
    let mut replies = Vec::new(alloc);
    for process in &ran.end.processes {
        replies.push(process.replies.len())?;
    }
    assert_eq!(rt; replies.as_slice(), [5, 3, 1].as_slice());
    Ok(())
}
