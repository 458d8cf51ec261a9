//! A run from its beginning to its end.

ghost use Rattle.std.specs.Prelude.{◌≡◌, ◌⊎◌, ◌<◌, IfSome, OnErr, OnOk, Some, length, map};
ghost use Rattle.world_rules.specs.Frame.{AreSettings};
ghost use Rattle.run_loop.specs.Asked.{HaveToldOn, WereAskedIn};
ghost use Rattle.run_loop.specs.Left.{HasRun, run_of};
ghost use Rattle.room_state.specs.declared.phase.Phase.TheVariants as phase;
ghost use Rattle.room.specs.Served.{IsOver};

use crate::desk::{Room, RoomDesk};
use node_parts::{RunMachine, RunName};
use node_runner::{Gate, serve_all};
use orca_base::NoMemory;
use room_state::{Ran, RoomRun, RoomState, Settings, Standing, Taken, WireNames};
use std::alloc::Global;
use std::marker::Brand;
use std::mem;
use std::sync::{Condvar, Mutex, Wait};
use std::thread::Threads;
use value_core::Processor;
use wires::Wire;
use world_core::World;

/// Runs the program of a machine by these settings over these wires, by so many workers, until the run isn't going or memory lacks. The
/// first wire is in use at the beginning. There are as many wires as before, and each place tells what it told and goes on from there, by
/// the same script. Before each burst is computed the gate is called.
///
/// It promises what `run` of run_loop promises: what is kept is the end of the run to which its steps lead, and the wires were used in it
/// (`HasRun`). Where nothing is kept, the wires were asked what some steps of the run ask. No clause speaks of the workers, of the gate, or of
/// how far the run went.
///
/// By one worker no lock is taken and no thread made, and events come as in `run` of run_loop. By several their order may differ from run
/// to run, and so what depends on it: their number, places of reads, histories, and the lines of programs that race.
pub fn run<M: Processor + Sync, W: Wire + Send, R: Threads + Wait + Sync, G: Gate + Sync>(
    rt: &R,
    alloc: Global,
    machine: &M,
    settings: Settings,
    wires: &mut Vec<W>,
    workers: u8,
    gate: &G,
) -> Ran
where
    M::State: Send + Sync,
    requires ranges { AreSettings settings }
    requires wires { settings.wires ≡ length wires.old.items }
    ensures run { IfSome result.end (HasRun (run_of (M.performs machine.now) (M.computes machine.now) settings)
        result.standing (map W.told wires.old.items) (map W.told wires.new.items)) }
    ensures asked { WereAskedIn (run_of (M.performs machine.now) (M.computes machine.now) settings)
        (map W.told wires.old.items) (map W.told wires.new.items) }
    ensures told { HaveToldOn (map W.told wires.old.items) (map W.told wires.new.items) }
    ensures scripts { map W.rule wires.new.items ≡ map W.rule wires.old.items }
    ensures loaded { map W.loaded wires.new.items ≡ map W.loaded wires.old.items }
{
    run_as::<Brand, M, W, R, G>(rt, alloc, machine, settings, wires, workers, gate)
}

// The same of the run that T names.
fn run_as<
    T: RunName<M> + WireNames + Send + Sync,
    M: Processor + Sync,
    W: Wire + Send,
    R: Threads + Wait + Sync,
    G: Gate + Sync,
>(
    rt: &R,
    alloc: Global,
    machine: &M,
    settings: Settings,
    wires: &mut Vec<W>,
    workers: u8,
    gate: &G,
) -> Ran
where
    M::State: Send + Sync,
    requires machine { T.machine ≡ Some machine.now }
    requires settings { settings ≡ T.settings }
    requires told { map W.told wires.old.items ≡ T.told }
    requires rules { map W.rule wires.old.items ≡ T.rules }
    requires loaded { map W.loaded wires.old.items ≡ T.loaded }
    requires ranges { AreSettings settings }
    requires wires { settings.wires ≡ length wires.old.items }
    ensures run { IfSome result.end (HasRun (run_of (M.performs machine.now) (M.computes machine.now) settings)
        result.standing (map W.told wires.old.items) (map W.told wires.new.items)) }
    ensures asked { WereAskedIn (run_of (M.performs machine.now) (M.computes machine.now) settings)
        (map W.told wires.old.items) (map W.told wires.new.items) }
    ensures told { HaveToldOn (map W.told wires.old.items) (map W.told wires.new.items) }
    ensures scripts { map W.rule wires.new.items ≡ map W.rule wires.old.items }
    ensures loaded { map W.loaded wires.new.items ≡ map W.loaded wires.old.items }
{
    let machine: RunMachine<'_, M, T> = RunMachine::new(machine);
    run_tied(rt, alloc, &machine, settings, wires, workers, gate)
}

// The same of the run to which the machine's type is tied.
fn run_tied<P: RoomRun + Send + Sync, W: Wire + Send, R: Threads + Wait + Sync, G: Gate + Sync>(
    rt: &R,
    alloc: Global,
    machine: &P,
    settings: Settings,
    wires: &mut Vec<W>,
    workers: u8,
    gate: &G,
) -> Ran
where
    P::State: Send + Sync,
    requires settings { settings ≡ P.run.frame.settings }
    requires told { map W.told wires.old.items ≡ P.run.told }
    requires rules { map W.rule wires.old.items ≡ P.rules }
    requires loaded { map W.loaded wires.old.items ≡ P.loaded }
    requires ranges { AreSettings settings }
    requires wires { settings.wires ≡ length wires.old.items }
    ensures run { IfSome result.end (HasRun P.run.frame result.standing (map W.told wires.old.items) (map W.told wires.new.items)) }
    ensures asked { WereAskedIn P.run.frame (map W.told wires.old.items) (map W.told wires.new.items) }
    ensures told { HaveToldOn (map W.told wires.old.items) (map W.told wires.new.items) }
    ensures scripts { map W.rule wires.new.items ≡ map W.rule wires.old.items }
    ensures loaded { map W.loaded wires.new.items ≡ map W.loaded wires.old.items }
{
    let nodes = settings.nodes;
    let Ok(world) = World::new(alloc, machine, settings) else {
        return Ran {
            standing: Standing::Going,
            end: None,
        };
    };
    let state = RoomState::new(alloc, world, mem::replace(wires, Vec::new(alloc)));
    let state = run_room(rt, alloc, machine, state, workers, nodes, gate);
    let state = finished(rt, alloc, machine, state, gate);
    let (ran, back) = state.into_ran(alloc);
    *wires = back;
    ran
}

// Lets workers serve a run of so many members, where there are several, and gives it back when all have ended. Where memory lacks for their
// answers there are fewer.
fn run_room<P: RoomRun + Send + Sync, W: Wire + Send, R: Threads + Wait + Sync, G: Gate + Sync>(
    rt: &R,
    alloc: Global,
    machine: &P,
    state: RoomState<P, W>,
    workers: u8,
    nodes: u8,
    gate: &G,
) -> RoomState<P, W>
where
    P::State: Send + Sync,
    requires { 0 < nodes }
    ensures alone { workers < 2 → result ≡ state }
{
    if workers < 2 {
        return state;
    }
    let mut answers = Vec::new(alloc);
    'workers: for _worker in 0..workers {
        if answers.push(Ok(())).is_err() {
            break 'workers;
        }
    }
    let room = Room {
        state: Mutex::new(state),
        bell: Condvar::new(),
    };
    let desk = RoomDesk {
        room: &room,
        machine,
        alloc,
    };
    serve_all(rt, &desk, gate, nodes, &mut answers);
    let Room { state, bell: _bell } = room;
    state.into_inner()
}

// The run, which went on alone until it isn't going, or memory lacked. No task is out at its beginning.
#[tactic(auto, using(crate::proofs::Serving::ended))]
fn finished<P: RoomRun, W: Wire, R: Wait, G: Gate>(
    rt: &R,
    alloc: Global,
    machine: &P,
    state: RoomState<P, W>,
    gate: &G,
) -> RoomState<P, W>
    ensures { IsOver P.run.frame result.seen ⊎ (result.phase ≡ phase.Stopped) }
{
    let mut state = state;
    state.recall();
    let _ = finish(rt, alloc, machine, &mut state, gate);
    state
}

// Goes on alone until the run isn't going, or memory lacks.
#[tactic(auto, using(crate::proofs::Serving::over_now))]
fn finish<P: RoomRun, W: Wire, R: Wait, G: Gate>(
    rt: &R,
    alloc: Global,
    machine: &P,
    state: &mut RoomState<P, W>,
    gate: &G,
) -> Result<(), NoMemory>
    ensures over { OnOk result (IsOver P.run.frame state.new.seen) }
    ensures stopped { OnErr result (state.new.phase ≡ phase.Stopped) }
{
    'works: for _ in rt.forever() {
        match state.take(alloc, machine, 0)? {
            Taken::Over => return Ok(()),
            Taken::Stepped => {}
            Taken::Wait => state.recall(),
            Taken::Task { task } => {
                gate.before_run(task.process());
                match task.run(alloc, machine) {
                    Ok(done) => {
                        let _ = state.put(done);
                    }
                    Err(_) => state.stop(),
                }
            }
        }
    }
    unreachable!()
}
