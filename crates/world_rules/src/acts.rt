//! Acts of wires, at examples.

ghost use Rattle.world_rules.specs.ActRows.{Answered, InUse, PassedOver};

/// What becomes of an act of a wire.
///
/// - `passed`: one that names a crashed member or none is passed over.
/// - `in_use`: an exchange is the act of the wire before it.
/// - `answered`: of several answers before one event the last counts.
pub fn acts_of_wires()
    ensures passed { PassedOver }
    ensures in_use { InUse }
    ensures answered { Answered }
{}
