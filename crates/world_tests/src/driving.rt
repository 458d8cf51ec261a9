//! What drives a run: the event that the wire in use gives, or else what is due.

ghost use Rattle.std.specs.Prelude.{◌≡◌, ◌+◌, ◌*◌, ◌<◌, ◌≤◌, IfOk, Some};
ghost use Rattle.world_rules.specs.Frame.{AreSettings};

use net_rules::WireAct;
use node_core::Task;
use node_parts::{OneRun, RunMachine, RunName};
use orca_base::{Choice, Items, NoMemory, ProcessNo};
use std::alloc::Global;
use std::marker::Brand;
use value_core::Processor;
use wires::Wire;
use world_core::{Event, RunEnd, Settings, Standing, StepError, World};

/// What a run left: how it stands, how many wires were given up, and all that is kept of it.
#[derive(Drop)]
pub struct Run {
    pub standing: Standing,
    pub swaps: u16,
    pub end: RunEnd,
}

/// Settings of so many members, of which all objects are replicated.
pub fn settings(alloc: Global, nodes: u8, resilience: u8, events: u64, wires: u16) -> Settings
    requires nodes { (1 ≤ nodes) × (nodes ≤ 16) }
    requires resilience { 2 * resilience < nodes }
    requires events { (1 ≤ events) × (events ≤ 1000) }
    requires wires { (1 ≤ wires) × (wires ≤ 1000) }
    ensures { AreSettings result }
{
    let none = Vec::new(alloc);
    let choices = Items::new(none);
    Settings {
        nodes,
        resilience,
        turns: 1_000_000,
        events,
        wires,
        choices,
    }
}

/// Settings of two members, of which the first object that a process of the first text makes is at its maker alone.
pub fn single_settings(alloc: Global) -> Result<Settings, NoMemory>
    ensures ranges { IfOk result AreSettings }
{
    let mut own = Vec::new(alloc);
    own.push(Choice::Single)?;
    let mut choices = Vec::new(alloc);
    choices.push(Items::new(own))?;
    Ok(Settings {
        nodes: 2,
        resilience: 0,
        turns: 1_000_000,
        events: 1000,
        wires: 1,
        choices: Items::new(choices),
    })
}

/// Runs the program of a machine over these wires, of which the first is in use at the start, until the run isn't going or a thousand events
/// were done.
pub fn ran<M: Processor, W: Wire>(
    alloc: Global,
    machine: &M,
    settings: Settings,
    wires: &mut [W],
) -> Result<Run, NoMemory>
    requires { AreSettings settings }
{
    ran_as::<Brand, M, W>(alloc, machine, settings, wires)
}

// The same of the run that T names.
fn ran_as<T: RunName<M>, M: Processor, W: Wire>(
    alloc: Global,
    machine: &M,
    settings: Settings,
    wires: &mut [W],
) -> Result<Run, NoMemory>
    requires machine { T.machine ≡ Some machine.now }
    requires settings { settings ≡ T.settings }
    requires ranges { AreSettings settings }
{
    let machine: RunMachine<'_, M, T> = RunMachine::new(machine);
    ran_tied(alloc, &machine, settings, wires)
}

// The same of the run to which the machine's type is tied.
fn ran_tied<P: OneRun, W: Wire>(
    alloc: Global,
    machine: &P,
    settings: Settings,
    wires: &mut [W],
) -> Result<Run, NoMemory>
    requires settings { settings ≡ P.run.frame.settings }
    requires ranges { AreSettings settings }
{
    let mut world = World::new(alloc, machine, settings)?;
    'events: for _event in 0..1000u32 {
        if !go(alloc, machine, &mut world, wires)? {
            break;
        }
    }
    let standing = world.standing();
    let swaps = world.swaps();
    let end = world.into_end(alloc)?;
    Ok(Run {
        standing,
        swaps,
        end,
    })
}

/// Does the next event, and says whether there was one: what the wire in use gives, or what is due where it gives nothing or what may not be.
pub fn go<P: OneRun, W: Wire>(
    alloc: Global,
    machine: &P,
    world: &mut World<P>,
    wires: &mut [W],
) -> Result<bool, NoMemory> {
    if world.standing() != Standing::Going {
        return Ok(false);
    }
    let number = (world.steps().len() as u64).saturating_add(1);
    let Some(wire) = wires.get_mut(world.swaps() as usize) else {
        return Ok(false);
    };
    wire.make_room(1)?;
    if let Some(act) = wire.next_act(number) {
        if does(alloc, machine, world, event_of(act), wire)? {
            return Ok(true);
        }
    }
    due(alloc, machine, world, wire)
}

// The event that an act is.
fn event_of(act: WireAct) -> Event {
    match act {
        WireAct::Crash { node } => Event::Crash { node },
        WireAct::Suspect { node } => Event::Suspect { node },
        WireAct::Swap => Event::Swap,
    }
}

/// Does what is due, and says whether something was: the action of the lowest process that is at one, the lowest packet, a burst of the
/// lowest process that is ready; where there is none of these, time passes.
pub fn due<P: OneRun, W: Wire>(
    alloc: Global,
    machine: &P,
    world: &mut World<P>,
    wire: &mut W,
) -> Result<bool, NoMemory> {
    if let Some(process) = world.due_act() {
        return does(alloc, machine, world, Event::Act { process }, wire);
    }
    if let Some((packet, copy)) = world.due_packet() {
        return does(alloc, machine, world, Event::Deliver { packet, copy }, wire);
    }
    'processes: for process in 0..world.process_count() {
        if computes(alloc, machine, world, ProcessNo(process))? {
            return Ok(true);
        }
    }
    does(alloc, machine, world, Event::Tick, wire)
}

// Does this event, where it is possible.
fn does<P: OneRun, W: Wire>(
    alloc: Global,
    machine: &P,
    world: &mut World<P>,
    event: Event,
    wire: &mut W,
) -> Result<bool, NoMemory> {
    match world.step(alloc, machine, event, wire) {
        Ok(()) => Ok(true),
        Err(StepError::NotEnabled) => Ok(false),
        Err(StepError::NoMemory) => Err(NoMemory),
    }
}

/// Lets a process compute where it is ready and the run is going, and says whether it was so.
pub fn computes<P: OneRun>(
    alloc: Global,
    machine: &P,
    world: &mut World<P>,
    process: ProcessNo,
) -> Result<bool, NoMemory> {
    if world.standing() == Standing::Going {
        if world.is_ready(process) {
            world.compute(alloc, machine, process)?;
            return Ok(true);
        }
    }
    Ok(false)
}

/// Hands out a process where it is ready and the run is going.
pub fn hands_out<P: OneRun>(
    alloc: Global,
    machine: &P,
    world: &mut World<P>,
    process: ProcessNo,
) -> Result<Option<Task<P>>, NoMemory> {
    if world.standing() == Standing::Going {
        if world.is_ready(process) {
            let task = world.check_out(alloc, machine, process)?;
            return Ok(Some(task));
        }
    }
    Ok(None)
}
