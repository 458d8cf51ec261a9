//! Why a graph isn't changed.

ghost use Rattle.std.specs.Prelude.{◌≡◌, Err};
ghost use Rattle.value_writes.specs.declared.error.GraphError.TheVariants.{Fault, NoMemory as Without};

use orca_base::{FaultKind, NoMemory};
use thiserror::Error;

/// Why a graph isn't changed.
#[derive(Clone, Copy, Debug, PartialEq, Eq, Error)]
pub enum GraphError {
    /// `Overflow` where the graph has given its last name, `IndexOutside` where it has no node of the name.
    #[error("the graph has no node of the name, or no name left")]
    Fault { fault: FaultKind },
    /// There was no memory.
    #[error("out of memory")]
    NoMemory,
}

impl From<NoMemory> for GraphError {
    ghost from_gives = { λ _ e. e ≡ Without };

    fn from(_: NoMemory) -> GraphError {
        GraphError::NoMemory
    }
}

// A refusal for this fault.
pub(crate) fn fail<T>(fault: FaultKind) -> Result<T, GraphError>
    ensures { result ≡ Err (Fault fault) }
{
    Err(GraphError::Fault { fault })
}
