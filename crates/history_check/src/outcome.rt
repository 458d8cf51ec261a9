//! What an action does to objects.

ghost use Rattle.std.specs.Prelude.{◌≡◌, IfOk};
ghost use Rattle.history_check.specs.Outcomes.{MayTry, making_outcome, outcome_of, tried_outcome};

use guard_queue::{Objects, try_on};
use orca_base::{KindNo, NoMemory};
use std::alloc::Global;
use value_core::{Action, Instance, Making, Performer, Reply, Tried};

/// What an action does: its guard and reply, and its object as it is then, where it makes or changes one.
#[derive(Drop)]
pub struct Outcome {
    pub(crate) guard: u16,
    pub(crate) reply: Reply,
    pub(crate) kept: Option<Instance>,
}

// What the making of an object of this type does.
fn making_outcome(kind: KindNo, making: Making) -> Outcome
    ensures { result ≡ making_outcome kind making }
{
    match making {
        Making::Made { state } => Outcome {
            guard: 0,
            reply: Reply::Done,
            kept: Some(Instance { kind, state }),
        },
        Making::Broke { fault } => Outcome {
            guard: 0,
            reply: Reply::Broke { fault },
            kept: None,
        },
    }
}

// What a call on an object of this type does, by its try: nothing where it is blocked.
fn tried_outcome(kind: KindNo, tried: Tried) -> Option<Outcome>
    ensures { result ≡ tried_outcome kind tried }
{
    match tried {
        Tried::Blocked => None,
        Tried::Did {
            guard,
            state,
            reply,
        } => Some(Outcome {
            guard,
            reply,
            kept: Some(Instance { kind, state }),
        }),
        Tried::Broke { guard, fault } => Some(Outcome {
            guard,
            reply: Reply::Broke { fault },
            kept: None,
        }),
    }
}

// What an action does on these objects, or none where it can't be performed.
pub(crate) fn outcome_of<P: Performer>(
    alloc: Global,
    program: &P,
    objects: &Objects,
    action: &Action,
) -> Result<Option<Outcome>, NoMemory>
    requires { MayTry (P.fits_state program.now) (P.fits_args program.now) objects.now action.now }
    ensures { IfOk result (λ o. o ≡ outcome_of (P.performs program.now) objects.now action.now) }
{
    match action {
        Action::Make { kind, .. } => {
            Ok(Some(making_outcome(*kind, program.make(alloc, *kind)?)))
        }
        Action::Call {
            kind,
            op,
            object,
            args,
        } => {
            let tried = try_on(alloc, program, objects, *kind, *op, *object, args)?;
            Ok(tried_outcome(*kind, tried))
        }
        Action::Fork { .. } => Ok(Some(Outcome {
            guard: 0,
            reply: Reply::Done,
            kept: None,
        })),
        Action::Ended | Action::Faulted { .. } => Ok(None),
    }
}
