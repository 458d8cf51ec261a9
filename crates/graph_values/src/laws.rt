//! The laws of graphs.

ghost use Rattle.std.specs.Prelude.{◌≡◌, ◌+◌, ◌+ℤ◌, ◌≤ℤ◌, ◌∷◌, [], FitsSigned, List, ℤ, None, Some, Ok, Err, length, pos};
ghost use Rattle.std.specs.Int.{w64};
ghost use Rattle.std.specs.List.{All};
ghost use Rattle.std.specs.List.Sorted.{IsStrictlySortedBy};
ghost use Rattle.value_core.specs.Datum.{Datum};
ghost use Rattle.value_core.specs.Order.{datum_cmp};
ghost use Rattle.value_core.specs.Size.{size_of};
ghost use Rattle.value_core.specs.Sound.{IsShort, IsSound};
ghost use Rattle.graph_values.specs.Calls.{Add, Call, Delete, Set, after_calls, given, told, upwards};
ghost use Rattle.graph_values.specs.Graphs.{IsGraph, added, assigned, deleted, empty_graph, graph_of, name_in, node_in, node_of, nodes_in};
ghost use Rattle.graph_values.specs.Rows.{one, seven};
ghost use Rattle.orca_base.specs.declared.fault.FaultKind.TheVariants.{IndexOutside, Overflow};
ghost use Rattle.graph_values.specs.SoundNodes.{IsSoundNode};

/// The law of lists of calls on a graph that began empty; it does nothing.
pub fn calls_law()
    // The names that it gives are 1, 2, 3 and so on, each once.
    ensures names { (calls : List Call) → given empty_graph calls ≡ upwards (length (given empty_graph calls)) (pos 1) }
    // Its nodes are those that were added and not deleted, each with the value last set.
    ensures nodes { (calls : List Call) (name : ℤ) → node_in name (after_calls empty_graph calls) ≡ told name (pos 1) None calls }
    ensures graph { (calls : List Call) → IsGraph (after_calls empty_graph calls) }
{}

/// The laws of single calls on graphs, for proofs that stand on this crate; it does nothing.
pub fn graphs_law()
    // What is a graph stays one, and each name is the next.
    ensures bare { (next : ℤ) → pos 1 ≤ℤ next → IsGraph (graph_of next []) }
    ensures added { (fresh g h : Datum) (name : ℤ) → IsGraph g → added fresh g ≡ Ok (name, h) →
        IsGraph h × (name ≡ name_in g) × (name_in h ≡ (name +ℤ pos 1)) }
    ensures deleted { (name : ℤ) (g h : Datum) → IsGraph g → deleted name g ≡ Ok h → IsGraph h × (name_in h ≡ name_in g) }
    ensures assigned { (name : ℤ) (v g h : Datum) → IsGraph g → assigned name v g ≡ Ok h → IsGraph h × (name_in h ≡ name_in g) }
    // The set of a graph's nodes rises, and a graph is sound where its values are.
    ensures rises { (g : Datum) → IsGraph g → IsStrictlySortedBy datum_cmp (nodes_in g) }
    ensures sound { (g : Datum) → IsGraph g → FitsSigned w64 (name_in g) → All IsSoundNode (nodes_in g) → IsShort (nodes_in g) → IsSound g }
    // And a sound graph's values are sound.
    ensures nodes_sound { (g : Datum) → IsGraph g → IsSound g → FitsSigned w64 (name_in g) × All IsSoundNode (nodes_in g) × IsShort (nodes_in g) }
    // A node has two more than the size of its value, and sizes add up.
    ensures size_added { (fresh g h : Datum) (name : ℤ) → IsGraph g → added fresh g ≡ Ok (name, h) →
        size_of h ≡ size_of g + size_of fresh + 2 }
    ensures size_deleted { (name : ℤ) (g h v : Datum) → IsGraph g → node_in name g ≡ Some v → deleted name g ≡ Ok h →
        size_of h + size_of v + 2 ≡ size_of g }
    ensures size_assigned { (name : ℤ) (u v g h : Datum) → IsGraph g → node_in name g ≡ Some u → assigned name v g ≡ Ok h →
        size_of h + size_of u ≡ size_of g + size_of v }
{}

/// What calls on small graphs give, computed; it does nothing.
pub fn graph_rows()
    ensures first { added seven empty_graph ≡ Ok (pos 1, graph_of (pos 2) (node_of (pos 1) seven ∷ [])) }
    ensures found { node_in (pos 1) (graph_of (pos 2) (node_of (pos 1) seven ∷ [])) ≡ Some seven }
    ensures taken { deleted (pos 1) (graph_of (pos 2) (node_of (pos 1) seven ∷ [])) ≡ Ok (graph_of (pos 2) []) }
    // A name isn't given again.
    ensures second { added seven (graph_of (pos 2) []) ≡ Ok (pos 2, graph_of (pos 3) (node_of (pos 2) seven ∷ [])) }
    ensures gone { (deleted (pos 1) (graph_of (pos 2) []) ≡ Err IndexOutside) ×
        (assigned (pos 1) seven (graph_of (pos 2) []) ≡ Err IndexOutside) }
    ensures last { added seven (graph_of (pos 9223372036854775807) []) ≡ Err Overflow }
    ensures last_but_one { given (graph_of (pos 9223372036854775806) []) (Add seven ∷ Add seven ∷ []) ≡ pos 9223372036854775806 ∷ [] }
    ensures told { told (pos 1) (pos 1) None (Add one ∷ Add one ∷ Set (pos 1) seven ∷ Delete (pos 2) ∷ []) ≡ Some seven }
    ensures told_gone { told (pos 2) (pos 1) None (Add one ∷ Add one ∷ Set (pos 1) seven ∷ Delete (pos 2) ∷ []) ≡ None }
{}
