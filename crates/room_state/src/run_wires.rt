//! What is known of a run's wires wherever the run stands.

use node_parts::{OneRun, RunMachine, RunName};
use std::marker::Brand;
use value_core::Processor;

/// Names the wires of a run as they were when it began, each at its place: by which rule it answers, and how much it was asked before that
/// rule's script was loaded.
pub trait WireNames {
    ghost use Rattle.std.specs.Prelude.{List, ℕ};
    ghost use Rattle.wires.specs.Wired.{Rule};

    ghost rules: { List Rule };

    ghost loaded: { List ℕ };
}

impl WireNames for Brand {
    ghost use Rattle.std.specs.Prelude.{[]};

    ghost rules = { [] };

    ghost loaded = { [] };
}

/// Ties whatever is typed by it to one run over these wires.
pub trait RoomRun: OneRun {
    ghost use Rattle.std.specs.Prelude.{List, ℕ};
    ghost use Rattle.wires.specs.Wired.{Rule};

    ghost rules: { List Rule };

    ghost loaded: { List ℕ };
}

impl<M: Processor, T: RunName<M> + WireNames> RoomRun for RunMachine<'_, M, T> {
    ghost rules = { T.rules };

    ghost loaded = { T.loaded };
}
