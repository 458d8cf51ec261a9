//! A run from its beginning to its end.

ghost use Rattle.std.specs.Prelude.{◌≡◌, IfSome, Some, length, map};
ghost use Rattle.world_rules.specs.Frame.{AreSettings};
ghost use Rattle.run_loop.specs.Asked.{HaveToldOn, WereAskedIn};
ghost use Rattle.run_loop.specs.Left.{HasRun, run_of};

use crate::stepper::Stepper;
use node_parts::{OneRun, RunMachine, RunName};
use std::alloc::Global;
use std::marker::Brand;
use value_core::Processor;
use wires::Wire;
use world_core::{RunEnd, Settings, Standing};

/// What a run leaves.
#[derive(Drop)]
pub struct Ran {
    /// How it stands. It is going where it was given up: for want of memory, or by whoever stepped through it.
    pub standing: Standing,
    /// All that is kept of it; none where there was no memory to begin, or for what is kept.
    pub end: Option<RunEnd>,
}

/// Runs the program of a machine by these settings over these wires, until the run isn't going or memory lacks. The first wire is in use
/// at the beginning. There are as many wires as before, and each place tells what it told and goes on from there, by the same script.
///
/// What is kept is the end of the run to which its steps lead (`HasRun`). Each packet that came was the first of those that were ready
/// then, by number and copy. And the wires were used in it: each was asked about just the packets that were sent while it was in use, and
/// each crash, suspicion and exchange is what the wire in use gave. Each question about an act was put to the wire in use while the run was
/// going, once, before the event of its number or the one that would come next, when that wire had been asked about just the packets that
/// the steps before sent while it was in use. Where nothing is kept, the wires were asked what some steps of the run ask.
pub fn run<M: Processor, W: Wire>(
    alloc: Global,
    machine: &M,
    settings: Settings,
    wires: &mut [W],
) -> Ran
    requires ranges { AreSettings settings }
    requires wires { settings.wires ≡ length wires.old }
    ensures run { IfSome result.end (HasRun (run_of (M.performs machine.now) (M.computes machine.now) settings)
        result.standing (map W.told wires.old) (map W.told wires.new)) }
    ensures asked { WereAskedIn (run_of (M.performs machine.now) (M.computes machine.now) settings)
        (map W.told wires.old) (map W.told wires.new) }
    ensures told { HaveToldOn (map W.told wires.old) (map W.told wires.new) }
    ensures scripts { map W.rule wires.new ≡ map W.rule wires.old }
    ensures loaded { map W.loaded wires.new ≡ map W.loaded wires.old }
{
    run_as::<Brand, M, W>(alloc, machine, settings, wires)
}

// The same of the run that T names.
fn run_as<T: RunName<M>, M: Processor, W: Wire>(
    alloc: Global,
    machine: &M,
    settings: Settings,
    wires: &mut [W],
) -> Ran
    requires machine { T.machine ≡ Some machine.now }
    requires settings { settings ≡ T.settings }
    requires told { map W.told wires.old ≡ T.told }
    requires ranges { AreSettings settings }
    requires wires { settings.wires ≡ length wires.old }
    ensures run { IfSome result.end (HasRun (run_of (M.performs machine.now) (M.computes machine.now) settings)
        result.standing (map W.told wires.old) (map W.told wires.new)) }
    ensures asked { WereAskedIn (run_of (M.performs machine.now) (M.computes machine.now) settings)
        (map W.told wires.old) (map W.told wires.new) }
    ensures told { HaveToldOn (map W.told wires.old) (map W.told wires.new) }
    ensures scripts { map W.rule wires.new ≡ map W.rule wires.old }
    ensures loaded { map W.loaded wires.new ≡ map W.loaded wires.old }
{
    let machine: RunMachine<'_, M, T> = RunMachine::new(machine);
    run_tied(alloc, &machine, settings, wires)
}

// The same of the run to which the machine's type is tied.
fn run_tied<P: OneRun, W: Wire>(
    alloc: Global,
    machine: &P,
    settings: Settings,
    wires: &mut [W],
) -> Ran
    requires settings { settings ≡ P.run.frame.settings }
    requires told { map W.told wires.old ≡ P.run.told }
    requires ranges { AreSettings settings }
    requires wires { settings.wires ≡ length wires.old }
    ensures run { IfSome result.end (HasRun P.run.frame result.standing (map W.told wires.old) (map W.told wires.new)) }
    ensures asked { WereAskedIn P.run.frame (map W.told wires.old) (map W.told wires.new) }
    ensures told { HaveToldOn (map W.told wires.old) (map W.told wires.new) }
    ensures scripts { map W.rule wires.new ≡ map W.rule wires.old }
    ensures loaded { map W.loaded wires.new ≡ map W.loaded wires.old }
{
    let Ok(mut stepper) = Stepper::begin(alloc, machine, settings) else {
        return Ran {
            standing: Standing::Going,
            end: None,
        };
    };
    let _ = stepper.drive(alloc, machine, wires);
    stepper.into_ran(alloc)
}
