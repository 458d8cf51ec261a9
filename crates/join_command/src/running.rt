//! A run with a follower, over the group's wire and the follower's own.

ghost use Rattle.std.specs.Prelude.{◌≡◌, ◌⊎◌, [], IfOk, OnErr, OnOk, length, map};
ghost use Rattle.command_line.specs.Asked.{IsJoinWithin};
ghost use Rattle.run_loop.specs.Asked.{HaveToldOn, WereAskedIn};
ghost use Rattle.join_command.specs.Asked.{joined_run};
ghost use Rattle.join_command.specs.Joined.{HasBegun, IsJoinRun, IsMadeOf, WasFollowed};
ghost use Rattle.join_command.specs.Wired.{AreLoaded, WasLoaded, wire_of, wires_of};

use crate::ending::{FollowerEnd, kept_end, line_of};
use crate::settings::settings_of;
use command_line::JoinOptions;
use fault_scripts::Script;
use follower_run::{Joined, follow};
use orca_base::NoMemory;
use run_loop::{Ran, RunEnd, Standing};
use std::alloc::Global;
use value_core::Processor;
use wires::Wire;
use world_law::replay_law;

/// What a run with a follower leaves.
#[derive(Drop)]
pub struct JoinRun {
    /// How the run stands where it stopped: it is going where memory lacked before its end.
    pub standing: Standing,
    /// All that is kept of the run.
    pub end: RunEnd,
    /// Where its follower ended.
    pub follower: FollowerEnd,
    /// The line that says how far the follower came: `follower applied A of L`.
    pub line: Vec<u8>,
    /// Whether all the follower's rounds were done: not where memory lacked.
    pub whole: bool,
}

/// Runs a program by these options over the group's wire, with the empty script, and beside it a follower over a wire of its own, with this
/// script (docs/RUNTIME.md, A member that joins late). Each object is replicated, whatever a policy would choose.
///
/// What is kept of the run is the end of one, as of `run` of `run_loop` (`HasRun`). The follower's wire was asked just the questions of
/// `Rounds` along its events, the n-th answered by the n-th fate, and the follower is where they end. Where memory lacked it stands at some
/// moment of them (`whole`). Where memory lacks for what is kept, the run was begun, or both wires are as they were (`begun`).
pub fn join_run<M: Processor, W: Wire>(
    alloc: Global,
    machine: &M,
    options: JoinOptions,
    script: &Script,
    group: &mut [W],
    own: &mut W,
) -> Result<JoinRun, NoMemory>
    requires options { IsJoinWithin options }
    requires wires { length group.old ≡ 1 }
    ensures run { IfOk result (λ r. IsJoinRun (joined_run (M.performs machine.now) (M.computes machine.now) options) options.at r
        (map W.told group.old) (map W.told group.new) (W.told own.old) (W.told own.new)) }
    ensures group { OnOk result (AreLoaded []
        (wires_of W.told W.rule W.loaded group.old) (wires_of W.told W.rule W.loaded group.new)) }
    ensures own { OnOk result (WasLoaded script.now
        (wire_of W.told W.rule W.loaded own.old) (wire_of W.told W.rule W.loaded own.new)) }
    ensures begun { OnErr result (HasBegun (joined_run (M.performs machine.now) (M.computes machine.now) options) options.at script.now
        (wires_of W.told W.rule W.loaded group.old) (wires_of W.told W.rule W.loaded group.new)
        (wire_of W.told W.rule W.loaded own.old) (wire_of W.told W.rule W.loaded own.new)) }
    ensures count { length group.new ≡ length group.old }
{
    load_both(alloc, script, group, own)?;
    join_loaded(alloc, machine, options, group, own)
}

// Runs a program over wires as they are loaded.
fn join_loaded<M: Processor, W: Wire>(
    alloc: Global,
    machine: &M,
    options: JoinOptions,
    group: &mut [W],
    own: &mut W,
) -> Result<JoinRun, NoMemory>
    requires options { IsJoinWithin options }
    requires wires { length group.old ≡ 1 }
    ensures run { IfOk result (λ r. IsJoinRun (joined_run (M.performs machine.now) (M.computes machine.now) options) options.at r
        (map W.told group.old) (map W.told group.new) (W.told own.old) (W.told own.new)) }
    ensures told { HaveToldOn (map W.told group.old) (map W.told group.new) }
    ensures asked { WereAskedIn (joined_run (M.performs machine.now) (M.computes machine.now) options)
        (map W.told group.old) (map W.told group.new) }
    ensures followed { WasFollowed (joined_run (M.performs machine.now) (M.computes machine.now) options) options.at
        (W.told own.old) (W.told own.new) }
    ensures scripts { map W.rule group.new ≡ map W.rule group.old }
    ensures loaded { map W.loaded group.new ≡ map W.loaded group.old }
    ensures script { W.rule own.new ≡ W.rule own.old }
    ensures since { W.loaded own.new ≡ W.loaded own.old }
{
    replay_law(machine);
    let settings = settings_of(alloc, options);
    let joined = follow(alloc, machine, settings, options.at, group, own);
    made_of(alloc, joined)
}

// What comes of a run that was followed.
fn made_of(alloc: Global, joined: Joined) -> Result<JoinRun, NoMemory>
    ensures { IfOk result (IsMadeOf joined) }
{
    let Joined { ran, follower } = joined;
    let Ran { standing, end } = ran;
    let Some(end) = end else {
        return Err(NoMemory);
    };
    let Some(left) = follower else {
        return Err(NoMemory);
    };
    let follower = kept_end(alloc, &left)?;
    let line = line_of(alloc, &left)?;
    Ok(JoinRun {
        standing,
        end,
        follower,
        line,
        whole: left.whole,
    })
}

// Loads the follower's wire with this script, and then the group's with the empty one.
fn load_both<W: Wire>(
    alloc: Global,
    script: &Script,
    group: &mut [W],
    own: &mut W,
) -> Result<(), NoMemory>
    requires { length group.old ≡ 1 }
    ensures group { OnOk result (AreLoaded []
        (wires_of W.told W.rule W.loaded group.old) (wires_of W.told W.rule W.loaded group.new)) }
    ensures own { OnOk result (WasLoaded script.now
        (wire_of W.told W.rule W.loaded own.old) (wire_of W.told W.rule W.loaded own.new)) }
    ensures as_before { OnErr result (wires_of W.told W.rule W.loaded group.new ≡ wires_of W.told W.rule W.loaded group.old) }
    ensures maybe { OnErr result (
        (wire_of W.told W.rule W.loaded own.new ≡ wire_of W.told W.rule W.loaded own.old) ⊎
        WasLoaded script.now (wire_of W.told W.rule W.loaded own.old) (wire_of W.told W.rule W.loaded own.new)) }
    ensures told { map W.told group.new ≡ map W.told group.old }
    ensures own_told { W.told own.new ≡ W.told own.old }
    ensures count { length group.new ≡ length group.old }
{
    own.load(alloc, script)?;
    load_group(alloc, group)
}

// Loads the group's wire with the empty script.
fn load_group<W: Wire>(alloc: Global, group: &mut [W]) -> Result<(), NoMemory>
    requires { length group.old ≡ 1 }
    ensures group { OnOk result (AreLoaded []
        (wires_of W.told W.rule W.loaded group.old) (wires_of W.told W.rule W.loaded group.new)) }
    ensures as_before { OnErr result (wires_of W.told W.rule W.loaded group.new ≡ wires_of W.told W.rule W.loaded group.old) }
    ensures told { map W.told group.new ≡ map W.told group.old }
    ensures count { length group.new ≡ length group.old }
{
    let empty = Script::empty(alloc);
    group[0].load(alloc, &empty)
}
