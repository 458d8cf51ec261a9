//! What operations and processes give: the results of the meanings in specs/Meaning.antt.

ghost use Rattle.std.specs.Prelude.{◌≡◌};
ghost use Rattle.value_core.specs.Seen.{seen_of};

use crate::action::{Action, Reply};
use crate::value::ObjectState;
use orca_base::FaultKind;

/// What the making of an object gives: its first state, or a fault and no object.
#[derive(Drop)]
pub enum Making {
    Made { state: ObjectState },
    Broke { fault: FaultKind },
}

/// What a try of an operation gives.
#[derive(Drop)]
pub enum Tried {
    /// Each of its guards is false.
    Blocked,
    /// It ran whole: by this guard, with this state left and this reply.
    Did {
        guard: u16,
        state: ObjectState,
        reply: Reply,
    },
    /// This guard, or the body behind it, faulted, and the object is as it was.
    Broke {
        guard: u16,
        fault: FaultKind,
    },
}

/// What a try of an operation answers: what it gives, without the state that it leaves.
#[derive(Debug, Drop, PartialEq, Eq)]
pub enum Seen {
    /// Each of its guards is false.
    Blocked,
    /// It ran whole: by this guard, with this reply.
    Did { guard: u16, reply: Reply },
    /// This guard, or the body behind it, faulted.
    Broke { guard: u16, fault: FaultKind },
}

impl Seen {
    /// What a try answers that gave this.
    pub fn of(tried: Tried) -> Seen
        ensures { result ≡ seen_of tried }
    {
        match tried {
            Tried::Blocked => Seen::Blocked,
            Tried::Did { guard, reply, .. } => Seen::Did { guard, reply },
            Tried::Broke { guard, fault } => Seen::Broke { guard, fault },
        }
    }
}

/// Where a process stands after so many turns: at its next action, or still computing.
#[derive(Drop)]
pub enum Doing {
    At { action: Action },
    Busy,
}
