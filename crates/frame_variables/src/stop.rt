//! Why an evaluation goes no further.

ghost use Rattle.std.specs.Prelude.{◌≡◌};
ghost use Rattle.orca_base.specs.declared.refusal.Refusal.{Refusal};
ghost use Rattle.frame_variables.specs.declared.stop.Stop.TheVariants.{Faults, NoMemory as Without};
ghost use Rattle.frame_variables.specs.Gives.{refused};

use orca_base::{FaultKind, NoMemory, Refusal};
use std::alloc::AllocError;
use value_core::Action;

/// Why an evaluation goes no further.
#[derive(Drop)]
pub enum Stop {
    /// It needs the reply to this action.
    Needs { action: Action },
    /// It faulted.
    Faults { fault: FaultKind },
    /// It began the last turn.
    Busy,
    /// There was no memory. Of what it gives with memory nothing is said.
    NoMemory,
}

impl From<NoMemory> for Stop {
    ghost from_gives = { λ _ stop. stop ≡ Without };

    fn from(_: NoMemory) -> Stop {
        Stop::NoMemory
    }
}

impl From<AllocError> for Stop {
    ghost from_gives = { λ _ stop. stop ≡ Without };

    fn from(_: AllocError) -> Stop {
        Stop::NoMemory
    }
}

impl From<FaultKind> for Stop {
    ghost from_gives = { λ fault stop. stop ≡ Faults fault };

    fn from(fault: FaultKind) -> Stop {
        Stop::Faults { fault }
    }
}

impl From<Refusal<FaultKind>> for Stop {
    ghost from_gives = { λ refusal stop. stop ≡ refused refusal };

    fn from(refusal: Refusal<FaultKind>) -> Stop {
        match refusal {
            Refusal::Because { cause } => Stop::Faults { fault: cause },
            Refusal::NoMemory => Stop::NoMemory,
        }
    }
}
