//! The laws of paths.

ghost use Rattle.std.specs.Prelude.{◌≡◌, ◌+◌, List, Ok};
ghost use Rattle.std.specs.Result.{IsOkUnless};
ghost use Rattle.orca_base.specs.declared.fault.FaultKind.TheVariants.{IndexOutside};
ghost use Rattle.value_core.specs.Datum.{Datum};
ghost use Rattle.value_core.specs.Size.{size_of};
ghost use Rattle.value_paths.specs.declared.step.Step.{Step};
ghost use Rattle.value_paths.specs.Paths.{CanWalk, GoApart, LeadApart, part_at, part_to, with_part, with_step};

use graph_values::graphs_law;

/// The laws of paths, for proofs that stand on this crate; it does nothing.
pub fn paths_law()
    // A part may be taken out for a while with anything in its place: the path leads as before, to what stands there, and what
    // is put then is as if it was put at once. What stood there, put back, leaves the value as it was.
    ensures walks { (path : List Step) (v p x : Datum) → CanWalk path v → part_at path v ≡ Ok p → CanWalk path (with_part path v x) }
    ensures stands { (path : List Step) (v p x : Datum) → part_at path v ≡ Ok p → part_at path (with_part path v x) ≡ Ok x }
    ensures again { (path : List Step) (v p x y : Datum) → part_at path v ≡ Ok p →
        with_part path (with_part path v x) y ≡ with_part path v y }
    ensures same { (path : List Step) (v p : Datum) → CanWalk path v → part_at path v ≡ Ok p → with_part path v p ≡ v }
    // Nothing else changes: another part of what a step leads from stays, and so does a part to which another path leads.
    ensures apart { (s t : Step) (v x : Datum) → LeadApart s t v → part_to t (with_step s v x) ≡ part_to t v }
    ensures elsewhere { (path other : List Step) (v x : Datum) → GoApart path other v →
        part_at other (with_part path v x) ≡ part_at other v }
    // A path that leads nowhere is outside of a value, and has no other fault.
    ensures faults { (path : List Step) (v : Datum) → IsOkUnless (part_at path v) IndexOutside }
    // The size of a value in which a part is put is less by what stood there, and more by what is put.
    ensures sizes { (path : List Step) (v p x : Datum) → CanWalk path v → part_at path v ≡ Ok p →
        size_of (with_part path v x) + size_of p ≡ size_of v + size_of x }
{
    graphs_law();
}
