//! What each call of a world does in its place.

ghost use Rattle.std.specs.Prelude.{◌≡◌, Some};
ghost use Rattle.world_rules.specs.Frame.{AreSettings};

use crate::cells::Cells;
use crate::driving::{computes, due, hands_out, settings};
use crate::full_wire::FullWire;
use lossy_net::PlainWire;
use node_parts::{OneRun, RunMachine, RunName};
use orca_base::{NoMemory, ProcessNo};
use std::alloc::Global;
use std::marker::Brand;
use std::test::Fail;
use world_core::{Event, Settings, Standing, StepError, World};

// The burst of process 0 at this place, of so many turns.
fn burst(place: u64, turns: u32) -> Event {
    Event::Burst {
        process: ProcessNo::MAIN,
        place,
        turns,
    }
}

// ---- events that may not be

// What the opening world refuses: of these events how many, and how many steps there are then; and whether a burst of no turn is done.
#[derive(Drop)]
struct Refused {
    refused: u64,
    steps: usize,
    enabled: bool,
}

// The same of the run that T names.
fn refusals_as<T: RunName<Cells>>(
    alloc: Global,
    machine: &Cells,
    settings: Settings,
) -> Result<Refused, NoMemory>
    requires machine { T.machine ≡ Some machine.now }
    requires settings { settings ≡ T.settings }
    requires ranges { AreSettings settings }
{
    let machine: RunMachine<'_, Cells, T> = RunMachine::new(machine);
    refusals(alloc, &machine, settings)
}

fn refusals<P: OneRun>(alloc: Global, machine: &P, settings: Settings) -> Result<Refused, NoMemory>
    requires settings { settings ≡ P.run.frame.settings }
    requires ranges { AreSettings settings }
{
    let mut world = World::new(alloc, machine, settings)?;
    let mut wire = PlainWire::new(alloc);
    let process = ProcessNo::MAIN;
    let mut refused = 0u64;
    for event in [
        Event::Deliver { packet: 1, copy: 0 },
        burst(0, 1),
        burst(1, 0),
        Event::Act { process },
        Event::Tick,
        Event::Crash { node: 3 },
        Event::Suspect { node: 3 },
        Event::Swap,
    ] {
        if let Err(StepError::NotEnabled) = world.step(alloc, machine, event, &mut wire) {
            refused = refused.saturating_add(1);
        }
    }
    let steps = world.steps().len();
    let enabled = world.step(alloc, machine, burst(0, 0), &mut wire).is_ok();
    Ok(Refused {
        refused,
        steps,
        enabled,
    })
}

// On the opening world no packet is there to come, no burst takes a turn or stands at a later place, no action waits, the moment isn't quiet,
// there is no member 3, and no second wire. A burst of no turn is possible.
#[test]
fn events_not_enabled(rt: HostRuntime) -> Result<(), Fail> {
    let alloc = rt.alloc();
    let seen = refusals_as::<Brand>(alloc, &Cells, settings(alloc, 3, 0, 1000, 1))?;
    assert_eq!(rt; (seen.refused, seen.steps, seen.enabled), (8, 0, true));
    Ok(())
}

// ---- the last event

// How a run stands that has no events left, and how many it had.
fn out_of_events_as<T: RunName<Cells>>(
    alloc: Global,
    machine: &Cells,
    settings: Settings,
) -> Result<(Standing, usize), NoMemory>
    requires machine { T.machine ≡ Some machine.now }
    requires settings { settings ≡ T.settings }
    requires ranges { AreSettings settings }
{
    let machine: RunMachine<'_, Cells, T> = RunMachine::new(machine);
    out_of_events(alloc, &machine, settings)
}

fn out_of_events<P: OneRun>(
    alloc: Global,
    machine: &P,
    settings: Settings,
) -> Result<(Standing, usize), NoMemory>
    requires settings { settings ≡ P.run.frame.settings }
    requires ranges { AreSettings settings }
{
    let mut world = World::new(alloc, machine, settings)?;
    let mut wire = PlainWire::new(alloc);
    for _event in 0..100u32 {
        if !due(alloc, machine, &mut world, &mut wire)? {
            break;
        }
    }
    Ok((world.standing(), world.steps().len()))
}

// Where the settings state 4 events, the fourth is the last.
#[test]
fn four_events(rt: HostRuntime) -> Result<(), Fail> {
    let alloc = rt.alloc();
    let (standing, steps) = out_of_events_as::<Brand>(alloc, &Cells, settings(alloc, 3, 0, 4, 1))?;
    assert_eq!(rt; (standing, steps), (Standing::OutOfEvents, 4));
    Ok(())
}

// ---- tasks

// What becomes of tasks that are out: how many are, and whether process 0 is ready, after each event in turn; how many came back astray; and
// how many steps there are then.
#[derive(Drop)]
struct Seen {
    out: Vec<(u16, bool)>,
    astray: u64,
    steps: usize,
}

// The tasks of process 0, of which the first is recalled and the second overtaken by a burst of the process.
fn tasks_as<T: RunName<Cells>>(
    alloc: Global,
    machine: &Cells,
    settings: Settings,
) -> Result<Seen, NoMemory>
    requires machine { T.machine ≡ Some machine.now }
    requires settings { settings ≡ T.settings }
    requires ranges { AreSettings settings }
{
    let machine: RunMachine<'_, Cells, T> = RunMachine::new(machine);
    tasks(alloc, &machine, settings)
}

fn tasks<P: OneRun>(alloc: Global, machine: &P, settings: Settings) -> Result<Seen, NoMemory>
    requires settings { settings ≡ P.run.frame.settings }
    requires ranges { AreSettings settings }
{
    let mut world = World::new(alloc, machine, settings)?;
    let mut seen = Seen {
        out: Vec::new(alloc),
        astray: 0,
        steps: 0,
    };
    recalled(alloc, machine, &mut world, &mut seen)?;
    overtaken(alloc, machine, &mut world, &mut seen, burst(0, 0))?;
    seen.steps = world.steps().len();
    Ok(seen)
}

// How many tasks are out, and whether process 0 is ready.
fn note<P: OneRun>(world: &World<P>, seen: &mut Seen) -> Result<(), NoMemory> {
    let one = (world.tasks_out(), world.is_ready(ProcessNo::MAIN));
    seen.out.push(one)?;
    Ok(())
}

// A task is recalled while it is computed.
fn recalled<P: OneRun>(
    alloc: Global,
    machine: &P,
    world: &mut World<P>,
    seen: &mut Seen,
) -> Result<(), NoMemory> {
    let Some(task) = hands_out(alloc, machine, world, ProcessNo::MAIN)? else {
        return Ok(());
    };
    note(world, seen)?;
    let done = task.run(alloc, machine)?;
    world.recall();
    note(world, seen)?;
    if world.check_in(done).is_err() {
        seen.astray = seen.astray.saturating_add(1);
    }
    Ok(())
}

// An event ends it.
fn overtaken<P: OneRun>(
    alloc: Global,
    machine: &P,
    world: &mut World<P>,
    seen: &mut Seen,
    event: Event,
) -> Result<(), NoMemory> {
    let Some(task) = hands_out(alloc, machine, world, ProcessNo::MAIN)? else {
        return Ok(());
    };
    let done = task.run(alloc, machine)?;
    let mut wire = PlainWire::new(alloc);
    let _ = world.step(alloc, machine, event, &mut wire);
    note(world, seen)?;
    if world.check_in(done).is_err() {
        seen.astray = seen.astray.saturating_add(1);
    }
    Ok(())
}

// A task comes back once: not after a recall, nor after its process's burst as an event.
#[test]
fn tasks_come_back_once(rt: HostRuntime) -> Result<(), Fail> {
    let alloc = rt.alloc();
    let seen = tasks_as::<Brand>(alloc, &Cells, settings(alloc, 3, 0, 1000, 1))?;
    assert_eq!(rt;
        seen.out.as_slice(),
        [(1, false), (0, true), (0, false)].as_slice()
    );
    assert_eq!(rt; (seen.astray, seen.steps), (2, 1));
    Ok(())
}

// The task of process 0, during this event.
fn crashed_as<T: RunName<Cells>>(
    alloc: Global,
    machine: &Cells,
    settings: Settings,
    event: Event,
) -> Result<Seen, NoMemory>
    requires machine { T.machine ≡ Some machine.now }
    requires settings { settings ≡ T.settings }
    requires ranges { AreSettings settings }
{
    let machine: RunMachine<'_, Cells, T> = RunMachine::new(machine);
    crashed(alloc, &machine, settings, event)
}

fn crashed<P: OneRun>(
    alloc: Global,
    machine: &P,
    settings: Settings,
    event: Event,
) -> Result<Seen, NoMemory>
    requires settings { settings ≡ P.run.frame.settings }
    requires ranges { AreSettings settings }
{
    let mut world = World::new(alloc, machine, settings)?;
    let mut seen = Seen {
        out: Vec::new(alloc),
        astray: 0,
        steps: 0,
    };
    note(&world, &mut seen)?;
    overtaken(alloc, machine, &mut world, &mut seen, event)?;
    seen.steps = world.steps().len();
    Ok(seen)
}

// A task stays out where another member crashes, and comes back; a crash of its own member ends it.
#[test]
fn crash_ends_tasks(rt: HostRuntime) -> Result<(), Fail> {
    let alloc = rt.alloc();
    let other = Event::Crash { node: 1 };
    let kept = crashed_as::<Brand>(alloc, &Cells, settings(alloc, 3, 0, 1000, 1), other)?;
    assert_eq!(rt; kept.out.as_slice(), [(0, true), (1, false)].as_slice());
    assert_eq!(rt; (kept.astray, kept.steps), (0, 2));
    let own = Event::Crash { node: 0 };
    let lost = crashed_as::<Brand>(alloc, &Cells, settings(alloc, 3, 0, 1000, 1), own)?;
    assert_eq!(rt; lost.out.as_slice(), [(0, true), (0, false)].as_slice());
    assert_eq!(rt; (lost.astray, lost.steps), (1, 1));
    Ok(())
}

// ---- in one go

// The steps of a run whose process computes in one go, and of one where it is handed out and checked in.
fn at_once_as<T: RunName<Cells>>(
    alloc: Global,
    machine: &Cells,
    settings: Settings,
) -> Result<(Option<Event>, u16, bool), NoMemory>
    requires machine { T.machine ≡ Some machine.now }
    requires settings { settings ≡ T.settings }
    requires ranges { AreSettings settings }
{
    let machine: RunMachine<'_, Cells, T> = RunMachine::new(machine);
    at_once(alloc, &machine, settings)
}

fn at_once<P: OneRun>(
    alloc: Global,
    machine: &P,
    settings: Settings,
) -> Result<(Option<Event>, u16, bool), NoMemory>
    requires settings { settings ≡ P.run.frame.settings }
    requires ranges { AreSettings settings }
{
    let mut world = World::new(alloc, machine, settings)?;
    let first = computes(alloc, machine, &mut world, ProcessNo::MAIN)?;
    let second = computes(alloc, machine, &mut world, ProcessNo::MAIN)?;
    let mut event = None;
    for step in world.steps() {
        event = Some(step.event);
    }
    Ok((event, world.tasks_out(), first && !second))
}

// It is the burst that a check-out, what is computed and a check-in leave, and no task is out.
#[test]
fn computed_at_once(rt: HostRuntime) -> Result<(), Fail> {
    let alloc = rt.alloc();
    let seen = at_once_as::<Brand>(alloc, &Cells, settings(alloc, 3, 0, 1000, 1))?;
    assert_eq!(rt; seen, (Some(burst(0, 0)), 0, true));
    Ok(())
}

// ---- room

// What a wire with no memory lets be: the answers of an action that sends and of a crash, and how many steps there are then; and whether the
// action is done over another wire.
#[derive(Drop)]
struct NoRoom {
    sends: Result<(), StepError>,
    crashes: Result<(), StepError>,
    steps: usize,
    done: bool,
}

fn room_as<T: RunName<Cells>>(
    alloc: Global,
    machine: &Cells,
    settings: Settings,
) -> Result<NoRoom, NoMemory>
    requires machine { T.machine ≡ Some machine.now }
    requires settings { settings ≡ T.settings }
    requires ranges { AreSettings settings }
{
    let machine: RunMachine<'_, Cells, T> = RunMachine::new(machine);
    room(alloc, &machine, settings)
}

fn room<P: OneRun>(alloc: Global, machine: &P, settings: Settings) -> Result<NoRoom, NoMemory>
    requires settings { settings ≡ P.run.frame.settings }
    requires ranges { AreSettings settings }
{
    let process = ProcessNo::MAIN;
    let mut world = World::new(alloc, machine, settings)?;
    let mut full = FullWire::new(alloc);
    let mut plain = PlainWire::new(alloc);
    let _ = computes(alloc, machine, &mut world, process)?;
    let sends = world.step(alloc, machine, Event::Act { process }, &mut full);
    let crashes = world.step(alloc, machine, Event::Crash { node: 2 }, &mut full);
    let steps = world.steps().len();
    let done = world
        .step(alloc, machine, Event::Act { process }, &mut plain)
        .is_ok();
    Ok(NoRoom {
        sends,
        crashes,
        steps,
        done,
    })
}

// An event that sends is refused for want of memory where the wire has none, and changes nothing; one that sends nothing needs none.
#[test]
fn sends_need_room(rt: HostRuntime) -> Result<(), Fail> {
    let alloc = rt.alloc();
    let seen = room_as::<Brand>(alloc, &Cells, settings(alloc, 3, 0, 1000, 1))?;
    assert_eq!(rt;
        (seen.sends, seen.crashes),
        (Err(StepError::NoMemory), Ok(()))
    );
    assert_eq!(rt; (seen.steps, seen.done), (2, true));
    Ok(())
}

// On one member a whole run needs no room at its wire.
fn alone_as<T: RunName<Cells>>(
    alloc: Global,
    machine: &Cells,
    settings: Settings,
) -> Result<(Standing, usize), NoMemory>
    requires machine { T.machine ≡ Some machine.now }
    requires settings { settings ≡ T.settings }
    requires ranges { AreSettings settings }
{
    let machine: RunMachine<'_, Cells, T> = RunMachine::new(machine);
    alone(alloc, &machine, settings)
}

fn alone<P: OneRun>(
    alloc: Global,
    machine: &P,
    settings: Settings,
) -> Result<(Standing, usize), NoMemory>
    requires settings { settings ≡ P.run.frame.settings }
    requires ranges { AreSettings settings }
{
    let mut world = World::new(alloc, machine, settings)?;
    let mut wire = FullWire::new(alloc);
    for _event in 0..100u32 {
        if !due(alloc, machine, &mut world, &mut wire)? {
            break;
        }
    }
    Ok((world.standing(), world.steps().len()))
}

// Its 4 bursts and 3 acts send nothing.
#[test]
fn steps_that_need_no_room(rt: HostRuntime) -> Result<(), Fail> {
    let alloc = rt.alloc();
    let (standing, steps) = alone_as::<Brand>(alloc, &Cells, settings(alloc, 1, 0, 1000, 1))?;
    assert_eq!(rt; (standing, steps), (Standing::Finished, 7));
    Ok(())
}
