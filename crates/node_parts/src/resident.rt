//! A process as its member knows it.

ghost use Rattle.std.specs.Prelude.{◌≡◌, ◌==◌, ◌<◌, ◌+◌, ◌^◌, IfOk, None, Some, if◌then◌else◌, is_some};
ghost use Rattle.node_parts.specs.declared.resident.Stage.TheVariants.{Computing};

use crate::kept::Kept;
use object_manager::View;
use orca_base::{CallNo, NoMemory};
use std::alloc::Global;
use value_core::Action;

/// Where a process stands at its member.
#[derive(Debug, Drop)]
pub enum Stage {
    /// It computes.
    Computing,
    /// It is at an action that wasn't carried out.
    Acting { action: Action },
    /// Its message was submitted to the group.
    Submitted { action: Action },
    /// Its read is tried after each entry, since all guards were false so far.
    Reading { action: Action },
    /// Its call on a single object was performed nowhere that it heard of.
    Asking { action: Action },
    /// It has ended or faulted.
    Over { action: Action },
}

/// A process that began at a member: its machine's state, which its tasks share, and where it stands.
#[derive(Drop)]
pub struct Resident<S: Drop> {
    /// What its machine left of it.
    pub state: Kept<S>,
    /// The turns that it took in all.
    pub turns: u64,
    /// The place of its last line, or of the fork that made it, or 0.
    pub place: u64,
    /// How many replies it received.
    pub calls: u64,
    /// Where it stands.
    pub stage: Stage,
    /// What the task that is out of it sees of the objects.
    pub out: Option<View>,
}

impl Stage {
    /// An equal one.
    pub fn copy(&self, alloc: Global) -> Result<Stage, NoMemory>
        ensures { IfOk result (λ stage. stage ≡ self.now) }
    {
        match self {
            Stage::Computing => Ok(Stage::Computing),
            Stage::Acting { action } => Ok(Stage::Acting {
                action: action.copy(alloc)?,
            }),
            Stage::Submitted { action } => Ok(Stage::Submitted {
                action: action.copy(alloc)?,
            }),
            Stage::Reading { action } => Ok(Stage::Reading {
                action: action.copy(alloc)?,
            }),
            Stage::Asking { action } => Ok(Stage::Asking {
                action: action.copy(alloc)?,
            }),
            Stage::Over { action } => Ok(Stage::Over {
                action: action.copy(alloc)?,
            }),
        }
    }
}

impl<S: Drop> Resident<S> {
    /// The turns that it took in all.
    pub fn turns(&self) -> u64
        ensures { result ≡ self.now.turns }
    {
        self.turns
    }

    /// The place of its last line, or of the fork that made it, or 0.
    pub fn place(&self) -> u64
        ensures { result ≡ self.now.place }
    {
        self.place
    }

    /// How many replies it received, which is the number of its next line.
    pub fn next_call(&self) -> CallNo
        ensures { result ≡ record { 0 = self.now.calls } }
    {
        CallNo(self.calls)
    }

    /// Where it stands.
    pub fn stage(&self) -> &Stage
        ensures { result.now ≡ self.now.stage }
    {
        &self.stage
    }

    /// Whether a task of it is out.
    pub fn is_out(&self) -> bool
        ensures { result ≡ is_some self.now.out }
    {
        self.out.is_some()
    }

    /// A process that begins at this place, in this state.
    pub fn newborn(alloc: Global, state: S, place: u64) -> Result<Resident<S>, NoMemory>
        ensures { IfOk result (λ resident. resident
            ≡ record { state = state; turns = 0; place = place; calls = 0; stage = Computing; out = None }) }
    {
        Ok(Resident {
            state: Kept::new(alloc, state)?,
            turns: 0,
            place,
            calls: 0,
            stage: Stage::Computing,
            out: None,
        })
    }

    /// An equal one, which shares its state.
    pub fn copy(&self, alloc: Global) -> Result<Resident<S>, NoMemory>
        ensures { IfOk result (λ resident. resident ≡ self.now) }
    {
        let out = copy_view(alloc, &self.out)?;
        let state = self.state.copy()?;
        let stage = self.stage.copy(alloc)?;
        Ok(Resident {
            state,
            turns: self.turns,
            place: self.place,
            calls: self.calls,
            stage,
            out,
        })
    }

    /// The process in this state, with one reply more, to its line of this place.
    pub fn after_reply(
        alloc: Global,
        before: &Resident<S>,
        state: S,
        place: u64,
    ) -> Result<Resident<S>, NoMemory>
        requires { before.now.calls < 2 ^ 62 }
        ensures { IfOk result (λ resident. resident
            ≡ record { state = state; turns = before.now.turns; place = place; calls = before.now.calls + 1; stage = Computing; out = None }) }
    {
        Ok(Resident {
            state: Kept::new(alloc, state)?,
            turns: before.turns,
            place,
            calls: before.calls + 1,
            stage: Stage::Computing,
            out: None,
        })
    }

    /// The same with a task out, over this view.
    pub fn handed_out(&self, view: View) -> Result<Resident<S>, NoMemory>
        requires { self.now.stage ≡ Computing }
        ensures { IfOk result (λ resident. resident ≡ record self.now { out = Some view }) }
    {
        Ok(Resident {
            state: self.state.copy()?,
            turns: self.turns,
            place: self.place,
            calls: self.calls,
            stage: Stage::Computing,
            out: Some(view),
        })
    }

    /// The process after a burst that ended so, with so many reads at this place.
    pub fn after_burst(
        &self,
        end: Kept<S>,
        turns: u64,
        stage: Stage,
        place: u64,
        reads: u64,
    ) -> Resident<S>
        requires { self.now.calls + reads < 2 ^ 64 }
        ensures { result ≡ record {
          state = end;
          turns = turns;
          place = (if reads == 0 then self.now.place else place);
          calls = self.now.calls + reads;
          stage = stage;
          out = None;
        } }
    {
        Resident {
            state: end,
            turns,
            place: if reads == 0 { self.place } else { place },
            calls: self.calls + reads,
            stage,
            out: None,
        }
    }

    /// The same at another stage, with no task out.
    pub fn moved_to(&self, stage: Stage) -> Result<Resident<S>, NoMemory>
        ensures { IfOk result (λ resident. resident ≡ record self.now { stage = stage; out = None }) }
    {
        Ok(Resident {
            state: self.state.copy()?,
            turns: self.turns,
            place: self.place,
            calls: self.calls,
            stage,
            out: None,
        })
    }
}

// An equal view, where there is one.
fn copy_view(alloc: Global, view: &Option<View>) -> Result<Option<View>, NoMemory>
    ensures { IfOk result (λ copied. copied ≡ view.now) }
{
    match view {
        Some(view) => Ok(Some(view.copy(alloc)?)),
        None => Ok(None),
    }
}
