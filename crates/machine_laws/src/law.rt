//! The laws by which a machine meets its traits.

ghost use Rattle.type_decls.specs.declared.checked.Checked.{Checked};
ghost use Rattle.accepted_law.specs.Limits.{IsWithinLimits};
ghost use Rattle.meaning_rules.specs.Accepted.{IsAccepted};
ghost use Rattle.meaning_rules.specs.FitsSound.{FitsSound};
ghost use Rattle.meaning_rules.specs.Preservation.{Preservation};
ghost use Rattle.program_bodies.specs.Codes.{sources};
ghost use Rattle.machine_laws.specs.ValueLaws.{ValueLaws};

use graph_values::graphs_law;
use value_ops::{elements_law, texts_law};
use value_paths::paths_law;

/// The laws of values that a machine keeps; and of each checked program within the limits, that it is accepted, that what its operations
/// and processes leave fits again, and that what fits is sound. A call of it does nothing.
pub fn machine_laws()
    ensures values { ValueLaws }
    ensures accepted { (c : Checked) → IsWithinLimits (sources c) → IsAccepted (sources c) }
    ensures preserved { (c : Checked) → IsWithinLimits (sources c) → Preservation (sources c) }
    ensures sound { (c : Checked) → IsWithinLimits (sources c) → FitsSound (sources c) }
{
    elements_law();
    graphs_law();
    paths_law();
    texts_law();
}
