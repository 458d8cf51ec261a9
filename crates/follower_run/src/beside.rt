//! A run, and a follower beside it.

ghost use Rattle.std.specs.Prelude.{◌≡◌, IfSome, None, Some, length, map};
ghost use Rattle.run_loop.specs.Asked.{HaveToldOn, WereAskedIn};
ghost use Rattle.run_loop.specs.Left.{HasRun, run_of};
ghost use Rattle.world_facts.specs.Replicated.{AllReplicated};
ghost use Rattle.world_parts.specs.Seen.{Of};
ghost use Rattle.world_rules.specs.Frame.{AreSettings};
ghost use Rattle.join_law.specs.Rounds.{ahead, last_number};
ghost use Rattle.follower_run.specs.Done.{HasJoined};

use crate::along::travel;
use crate::joined::{FollowerLeft, Joined};
use crate::members::{ahead, applied_by, most_applied};
use crate::rounds::FollowerRounds;
use join_law::followers_law;
use node_parts::{OneRun, RunMachine, RunName};
use run_loop::{Ran, Settings, Standing, Stepper};
use std::alloc::Global;
use std::marker::Brand;
use value_core::Processor;
use wires::Wire;
use world_core::World;

/// Runs the program of a machine by these settings over these wires, as `run` of `run_loop` does, and beside it a follower over a wire of
/// its own: after each event from this one on, counted from 1, it does a round with the next member in turn, and when the run is over
/// rounds with the member that is ahead, until it applied as much or twice that number and 64 were done (docs/RUNTIME.md, A member that
/// joins late). No object is single.
///
/// What is kept of the run is what `run` keeps. The follower's wire was asked just the questions of `Rounds`, whose n-th is answered by the
/// n-th fate, and the follower is where they end; where memory lacked it stands at some moment of them (`HasFollowed`).
pub fn follow<M: Processor, W: Wire>(
    alloc: Global,
    machine: &M,
    settings: Settings,
    start: u64,
    wires: &mut [W],
    own: &mut W,
) -> Joined
    requires ranges { AreSettings settings }
    requires wires { settings.wires ≡ length wires.old }
    requires replicated { AllReplicated (run_of (M.performs machine.now) (M.computes machine.now) settings) }
    ensures run { IfSome result.ran.end (HasRun (run_of (M.performs machine.now) (M.computes machine.now) settings)
        result.ran.standing (map W.told wires.old) (map W.told wires.new)) }
    ensures asked { WereAskedIn (run_of (M.performs machine.now) (M.computes machine.now) settings)
        (map W.told wires.old) (map W.told wires.new) }
    ensures told { HaveToldOn (map W.told wires.old) (map W.told wires.new) }
    ensures scripts { map W.rule wires.new ≡ map W.rule wires.old }
    ensures loaded { map W.loaded wires.new ≡ map W.loaded wires.old }
    ensures joined { HasJoined (run_of (M.performs machine.now) (M.computes machine.now) settings) start
        (W.told own.old) (W.told own.new) result }
    ensures script { W.rule own.new ≡ W.rule own.old }
    ensures since { W.loaded own.new ≡ W.loaded own.old }
{
    follow_as::<Brand, M, W>(alloc, machine, settings, start, wires, own)
}

// The same of the run that T names.
fn follow_as<T: RunName<M>, M: Processor, W: Wire>(
    alloc: Global,
    machine: &M,
    settings: Settings,
    start: u64,
    wires: &mut [W],
    own: &mut W,
) -> Joined
    requires machine { T.machine ≡ Some machine.now }
    requires settings { settings ≡ T.settings }
    requires told { map W.told wires.old ≡ T.told }
    requires ranges { AreSettings settings }
    requires wires { settings.wires ≡ length wires.old }
    requires replicated { AllReplicated (run_of (M.performs machine.now) (M.computes machine.now) settings) }
    ensures run { IfSome result.ran.end (HasRun (run_of (M.performs machine.now) (M.computes machine.now) settings)
        result.ran.standing (map W.told wires.old) (map W.told wires.new)) }
    ensures asked { WereAskedIn (run_of (M.performs machine.now) (M.computes machine.now) settings)
        (map W.told wires.old) (map W.told wires.new) }
    ensures told { HaveToldOn (map W.told wires.old) (map W.told wires.new) }
    ensures scripts { map W.rule wires.new ≡ map W.rule wires.old }
    ensures loaded { map W.loaded wires.new ≡ map W.loaded wires.old }
    ensures joined { HasJoined (run_of (M.performs machine.now) (M.computes machine.now) settings) start
        (W.told own.old) (W.told own.new) result }
    ensures script { W.rule own.new ≡ W.rule own.old }
    ensures since { W.loaded own.new ≡ W.loaded own.old }
{
    let machine: RunMachine<'_, M, T> = RunMachine::new(machine);
    follow_tied(alloc, &machine, settings, start, wires, own)
}

// The same of the run to which the machine's type is tied.
fn follow_tied<P: OneRun, W: Wire>(
    alloc: Global,
    machine: &P,
    settings: Settings,
    start: u64,
    wires: &mut [W],
    own: &mut W,
) -> Joined
    requires settings { settings ≡ P.run.frame.settings }
    requires told { map W.told wires.old ≡ P.run.told }
    requires ranges { AreSettings settings }
    requires wires { settings.wires ≡ length wires.old }
    requires replicated { AllReplicated P.run.frame }
    ensures run { IfSome result.ran.end (HasRun P.run.frame result.ran.standing (map W.told wires.old) (map W.told wires.new)) }
    ensures asked { WereAskedIn P.run.frame (map W.told wires.old) (map W.told wires.new) }
    ensures told { HaveToldOn (map W.told wires.old) (map W.told wires.new) }
    ensures scripts { map W.rule wires.new ≡ map W.rule wires.old }
    ensures loaded { map W.loaded wires.new ≡ map W.loaded wires.old }
    ensures joined { HasJoined P.run.frame start (W.told own.old) (W.told own.new) result }
    ensures script { W.rule own.new ≡ W.rule own.old }
    ensures since { W.loaded own.new ≡ W.loaded own.old }
{
    followers_law(machine);
    let nodes = settings.nodes;
    let Ok(mut stepper) = Stepper::begin(alloc, machine, settings) else {
        return nothing();
    };
    let Ok(mut rounds) = FollowerRounds::new(alloc, nodes) else {
        return nothing();
    };
    let went = travel(alloc, machine, start, &mut stepper, &mut rounds, wires, own);
    let last = last_number(stepper.world(), nodes);
    Joined {
        follower: Some(FollowerLeft {
            follower: rounds.follower,
            states: rounds.states,
            last,
            whole: went.is_ok(),
        }),
        ran: stepper.into_ran(alloc),
    }
}

// What is left where there was no memory to begin.
fn nothing() -> Joined
    ensures { (result.follower ≡ None) × (result.ran.end ≡ None) }
{
    Joined {
        ran: Ran {
            standing: Standing::Going,
            end: None,
        },
        follower: None,
    }
}

// The number that is told behind the follower's own: how many entries the member applied that is ahead; where none is, the most that any
// applied.
fn last_number<P: OneRun>(world: &World<P>, nodes: u8) -> u64
    requires { nodes ≡ P.run.frame.settings.nodes }
    ensures { Of P.run.frame world.now (λ w. result ≡ last_number P.run.frame w (ahead P.run.frame w P.run.frame.settings.nodes)) }
{
    match ahead(world, nodes) {
        Some(member) => applied_by(world, member),
        None => most_applied(world, nodes),
    }
}
