//! A follower goes beside a run, event by event, and behind it, round by round.

ghost use Rattle.std.specs.Prelude.{◌≡◌, ◌≢◌, ◌⊎◌, ◌<◌, ◌≤◌, ◌%◌, [], false, true, List, OnErr, OnOk, map};
ghost use Rattle.net_rules.specs.declared.asked.Asked.{Asked};
ghost use Rattle.run_loop.specs.Driven.{HasCome, IsDriven, IsGoing, WentOn};
ghost use Rattle.world_facts.specs.Replicated.{AllReplicated};
ghost use Rattle.world_parts.specs.Seen.{Of};
ghost use Rattle.world_rules.specs.Frame.{AreSettings};
ghost use Rattle.world_rules.specs.Standings as rules;
ghost use Rattle.world_rules.specs.declared.standing.Standing.TheVariants.{Going};
ghost use Rattle.follower_run.specs.Travelled.{AfterEvent, Beside, HasArrived, HasTravelled, IsFresh};

use crate::members::{ahead, applied_by};
use crate::rounds::FollowerRounds;
use group_join::Follower;
use join_law::rounds_law;
use node_parts::OneRun;
use orca_base::NoMemory;
use run_loop::{Standing, Stepper};
use std::alloc::Global;
use wires::Wire;
use world_core::World;
use world_facts::{standings_mean, worlds_count};

/// Does one event after the other, with a round after each from this one on; and when the run isn't going, the rounds with the member that
/// is ahead. Where there is no memory it stops, before an event or within a round.
pub(crate) fn travel<P: OneRun, W: Wire>(
    alloc: Global,
    machine: &P,
    start: u64,
    stepper: &mut Stepper<P>,
    rounds: &mut FollowerRounds,
    wires: &mut [W],
    own: &mut W,
) -> Result<(), NoMemory>
    requires settings { AreSettings P.run.frame.settings }
    requires replicated { AllReplicated P.run.frame }
    requires driven { IsDriven P.run.frame stepper.old.world stepper.old.in_use P.run.told (map W.told wires.old) }
    requires none { stepper.old.world.steps ≡ [] }
    requires fresh { IsFresh P.run.frame.settings.nodes rounds.old }
    ensures come { HasCome P.run.frame stepper.new P.run.told (map W.told wires.new) }
    ensures arrived { OnOk result (HasArrived P.run.frame start (W.told own.old) (W.told own.new) stepper.new.world.steps rounds.new) }
    ensures stopped { OnErr result (HasTravelled P.run.frame start (W.told own.old) (W.told own.new) stepper.new.world.steps rounds.new) }
    ensures scripts { map W.rule wires.new ≡ map W.rule wires.old }
    ensures loaded { map W.loaded wires.new ≡ map W.loaded wires.old }
    ensures script { W.rule own.new ≡ W.rule own.old }
    ensures since { W.loaded own.new ≡ W.loaded own.old }
{
    rounds_law();
    let nodes = rounds.number;
    go_beside(alloc, machine, start, stepper, rounds, wires, own)?;
    let Some(member) = ahead(stepper.world(), nodes) else {
        return Ok(());
    };
    let last = applied_by(stepper.world(), member);
    let mut left = 2 * last + 64;
    'behind: while goes_on(&rounds.follower, last, left) {
        rounds.round(alloc, machine, stepper.world(), member, own)?;
        left -= 1;
    }
    Ok(())
}

// Whether a round more goes to the member that is ahead: some are left, and the follower applied less.
fn goes_on(follower: &Follower, last: u64, left: u64) -> bool
    ensures more { result ≡ true → (1 ≤ left) × (follower.now.applied < last) }
    ensures done { result ≡ false → (left ≡ 0) ⊎ (last ≤ follower.now.applied) }
{
    left > 0 && follower.applied() < last
}

// Does one event after the other, with a round after each from this one on, until the run isn't going.
fn go_beside<P: OneRun, W: Wire>(
    alloc: Global,
    machine: &P,
    start: u64,
    stepper: &mut Stepper<P>,
    rounds: &mut FollowerRounds,
    wires: &mut [W],
    own: &mut W,
) -> Result<(), NoMemory>
    requires settings { AreSettings P.run.frame.settings }
    requires replicated { AllReplicated P.run.frame }
    requires driven { IsDriven P.run.frame stepper.old.world stepper.old.in_use P.run.told (map W.told wires.old) }
    requires beside { (base : List Asked) × Beside P.run.frame start base (W.told own.old) stepper.old.world.steps rounds.old }
    ensures driven { OnOk result (IsDriven P.run.frame stepper.new.world stepper.new.in_use P.run.told (map W.told wires.new)) }
    ensures over { OnOk result (Of P.run.frame stepper.new.world (λ w. rules.standing P.run.frame w ≢ Going)) }
    ensures beside { (base : List Asked) → Beside P.run.frame start base (W.told own.old) stepper.old.world.steps rounds.old →
        OnOk result (Beside P.run.frame start base (W.told own.new) stepper.new.world.steps rounds.new) }
    ensures come { OnErr result (HasCome P.run.frame stepper.new P.run.told (map W.told wires.new)) }
    ensures left { (base : List Asked) → Beside P.run.frame start base (W.told own.old) stepper.old.world.steps rounds.old →
        OnErr result (HasTravelled P.run.frame start base (W.told own.new) stepper.new.world.steps rounds.new) }
    ensures scripts { map W.rule wires.new ≡ map W.rule wires.old }
    ensures loaded { map W.loaded wires.new ≡ map W.loaded wires.old }
    ensures script { W.rule own.new ≡ W.rule own.old }
    ensures since { W.loaded own.new ≡ W.loaded own.old }
{
    worlds_count();
    standings_mean();
    'events: while stepper.world().standing() == Standing::Going {
        next_beside(alloc, machine, start, stepper, rounds, wires, own)?;
    }
    Ok(())
}

// Does the next event of a run that is going, and its round.
fn next_beside<P: OneRun, W: Wire>(
    alloc: Global,
    machine: &P,
    start: u64,
    stepper: &mut Stepper<P>,
    rounds: &mut FollowerRounds,
    wires: &mut [W],
    own: &mut W,
) -> Result<(), NoMemory>
    requires settings { AreSettings P.run.frame.settings }
    requires replicated { AllReplicated P.run.frame }
    requires driven { IsDriven P.run.frame stepper.old.world stepper.old.in_use P.run.told (map W.told wires.old) }
    requires going { IsGoing P.run.frame stepper.old.world }
    requires beside { (base : List Asked) × Beside P.run.frame start base (W.told own.old) stepper.old.world.steps rounds.old }
    ensures went { OnOk result
        (WentOn P.run.frame stepper.old.world stepper.new.world stepper.new.in_use P.run.told (map W.told wires.new)) }
    ensures beside { (base : List Asked) → Beside P.run.frame start base (W.told own.old) stepper.old.world.steps rounds.old →
        OnOk result (Beside P.run.frame start base (W.told own.new) stepper.new.world.steps rounds.new) }
    ensures come { OnErr result (HasCome P.run.frame stepper.new P.run.told (map W.told wires.new)) }
    ensures left { (base : List Asked) → Beside P.run.frame start base (W.told own.old) stepper.old.world.steps rounds.old →
        OnErr result (HasTravelled P.run.frame start base (W.told own.new) stepper.new.world.steps rounds.new) }
    ensures scripts { map W.rule wires.new ≡ map W.rule wires.old }
    ensures loaded { map W.loaded wires.new ≡ map W.loaded wires.old }
    ensures script { W.rule own.new ≡ W.rule own.old }
    ensures since { W.loaded own.new ≡ W.loaded own.old }
{
    rounds_law();
    stepper.next_event(alloc, machine, wires)?;
    round_beside(alloc, machine, start, stepper.world(), rounds, own)
}

// Does the round of the last event, with the next member in turn, if it is one of those from this one on.
fn round_beside<P: OneRun, W: Wire>(
    alloc: Global,
    machine: &P,
    start: u64,
    world: &World<P>,
    rounds: &mut FollowerRounds,
    own: &mut W,
) -> Result<(), NoMemory>
    requires settings { AreSettings P.run.frame.settings }
    requires replicated { AllReplicated P.run.frame }
    requires after { (base : List Asked) × AfterEvent P.run.frame start base (W.told own.old) world.now.steps rounds.old }
    ensures beside { (base : List Asked) → AfterEvent P.run.frame start base (W.told own.old) world.now.steps rounds.old →
        OnOk result (Beside P.run.frame start base (W.told own.new) world.now.steps rounds.new) }
    ensures left { (base : List Asked) → AfterEvent P.run.frame start base (W.told own.old) world.now.steps rounds.old →
        OnErr result (HasTravelled P.run.frame start base (W.told own.new) world.now.steps rounds.new) }
    ensures script { W.rule own.new ≡ W.rule own.old }
    ensures since { W.loaded own.new ≡ W.loaded own.old }
{
    rounds_law();
    let number = world.steps().len() as u64;
    if number < start {
        return Ok(());
    }
    let member = next_member(rounds.rounds, rounds.number);
    rounds.round(alloc, machine, world, member, own)
}

// The next member in turn, of so many, after so many rounds.
fn next_member(rounds: u64, nodes: u8) -> u8
    requires { 1 ≤ nodes }
    ensures { result ≡ rounds % nodes }
{
    (rounds % u64::from(nodes)) as u8
}
