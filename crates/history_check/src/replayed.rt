//! A program's objects and processes behind lines.

ghost use Rattle.std.specs.Prelude.{◌≡◌, ◌<◌, ◌^◌, [], IfOk, List, OnOk, length};
ghost use Rattle.value_core.specs.declared.action.Line.{Line};
ghost use Rattle.history_check.specs.Outcomes.{IsJudged, kept_at};
ghost use Rattle.history_check.specs.Players.{Follows, IsTaken, MayTake, Plays};

use crate::outcome::{Outcome, outcome_of};
use crate::player::{Player, begin, come_to, received, take_at};
use crate::verdict::BreachRule;
use guard_queue::Objects;
use history_law::histories_fit;
use orca_base::{KindNo, NoMemory, ObjectId, ProcessNo};
use std::alloc::Global;
use value_core::{Action, Instance, Line, Parts, Processor};

/// The objects and the processes behind lines. It keeps no replies.
#[derive(Drop)]
pub struct Replayed<S: Drop> {
    pub(crate) objects: Objects,
    pub(crate) players: Vec<Option<Player<S>>>,
}

// Before the first line.
pub(crate) fn opening<P: Processor>(
    alloc: Global,
    program: &P,
) -> Result<Replayed<P::State>, NoMemory>
    ensures { IfOk result (λ r. Follows (P.performs program.now) (P.computes program.now) (P.stands program.now) r []) }
{
    let text = program.main_text();
    let args = Parts::new(alloc);
    let state = program.start(alloc, text, ProcessNo::MAIN, &args)?;
    let mut players = Vec::new(alloc);
    players.push(Some(Player { state, calls: 0 }))?;
    let output = Instance {
        kind: KindNo::OUTPUT,
        state: args,
    };
    let mut objects = Objects::new(alloc)?;
    objects.put(alloc, ObjectId::OUTPUT, output)?;
    Ok(Replayed { objects, players })
}

// Takes a line that may come next, and else tells the first part of it that differs; what is left then is of no use.
pub(crate) fn step<P: Processor>(
    alloc: Global,
    program: &P,
    replayed: &mut Replayed<P::State>,
    line: &Line,
) -> Result<Option<BreachRule>, NoMemory>
    requires { (lines : List Line) × (length lines < 2 ^ 32)
        × Follows (P.performs program.now) (P.computes program.now) (P.stands program.now) replayed.old lines }
    ensures { (lines : List Line) → Follows (P.performs program.now) (P.computes program.now) (P.stands program.now) replayed.old lines →
        IfOk result (IsTaken (P.performs program.now) (P.computes program.now) (P.stands program.now) lines line.now replayed.new) }
{
    histories_fit(program);
    let Some(player) = take_at(&mut replayed.players, line.process.0 as usize) else {
        return Ok(Some(BreachRule::Process));
    };
    if player.calls != line.call.0 {
        return Ok(Some(BreachRule::Call));
    }
    let Some(state) = come_to(alloc, program, player.state, &line.action)? else {
        return Ok(Some(BreachRule::Action));
    };
    let outcome = outcome_of(alloc, program, &replayed.objects, &line.action)?;
    match judged(outcome, line) {
        Ok(outcome) => {
            perform(alloc, program, replayed, line, state, outcome)?;
            Ok(None)
        }
        Err(rule) => Ok(Some(rule)),
    }
}

// What the action does, where the line has its guard and reply, and else which of them differs first.
fn judged(outcome: Option<Outcome>, line: &Line) -> Result<Outcome, BreachRule>
    ensures { IsJudged outcome line.now result }
{
    match outcome {
        Some(outcome) if outcome.guard == line.guard => {
            if outcome.reply.is(&line.reply) {
                Ok(outcome)
            } else {
                Err(BreachRule::Reply)
            }
        }
        _ => Err(BreachRule::Guard),
    }
}

// A line that may come next is taken: its object is put in, its process receives the reply, and a fork begins a process.
fn perform<P: Processor>(
    alloc: Global,
    program: &P,
    replayed: &mut Replayed<P::State>,
    line: &Line,
    state: P::State,
    outcome: Outcome,
) -> Result<(), NoMemory>
    requires { MayTake (P.stands program.now) (P.halted program.now) (P.fits_text program.now) (P.fits_reply program.now)
        replayed.old line.now state outcome.reply }
    ensures objects { OnOk result (replayed.new.objects ≡ kept_at replayed.old.objects line.now.action outcome.kept) }
    ensures players { OnOk result
        (Plays (P.stands program.now) line.now state outcome.reply replayed.old.players.items replayed.new.players.items) }
{
    let player = received(program, state, line.call.0, outcome.reply);
    replayed.players[line.process.0 as usize] = Some(player);
    keep(alloc, &mut replayed.objects, &line.action, outcome.kept)?;
    begin(alloc, program, &mut replayed.players, &line.action)
}

// The action's object is put in, where it was made or changed.
fn keep(
    alloc: Global,
    objects: &mut Objects,
    action: &Action,
    kept: Option<Instance>,
) -> Result<(), NoMemory>
    ensures { OnOk result (objects.new ≡ kept_at objects.old action.now kept) }
{
    match (action, kept) {
        (Action::Make { object, .. } | Action::Call { object, .. }, Some(kept)) => {
            objects.put(alloc, *object, kept)
        }
        _ => Ok(()),
    }
}
