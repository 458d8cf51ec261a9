//! The law of linking.

ghost use Rattle.std.specs.Prelude.{◌≡◌, List, codes};
ghost use Rattle.link_rules.specs.declared.named_unit.NamedUnit.{NamedUnit};
ghost use Rattle.link_rules.specs.Units.{Source};
ghost use Rattle.link_rules.specs.OfText.{IsUnitOfText};
ghost use Rattle.link_rules.specs.Declarations.{ComesFromDeclarations};
ghost use Rattle.link_rules.specs.Rules.{Links, first, link_errors};
ghost use Rattle.link_rules.specs.Cycles.{ReachesAll};
ghost use Rattle.link_rules.specs.Linked.{IsNoBreach};
ghost use Rattle.link_rules.specs.Told.{IsTold};
ghost use Rattle.link_rules.specs.Visible.{DefinesOnce, TellsSeen};
ghost use Rattle.link_rules.specs.Examples.{breach, cycle_behind, importing, main_twice, module_alone, name_twice, no_such_module, one_implemented, own_import, place, specified_twice, two_in_a_cycle, whole_program};

/// The law of linking. No rule is broken exactly where each name is defined once (modules' names are apart, and the two halves of an
/// object type share theirs), what is imported is a module, no module that is imported leads back to its importer, a name of the top
/// level is `OrcaMain`, and each specification has an implementation. A module leads to another within as many imports as there are units
/// exactly where it leads there at all. The breach that is told is the first of the lowest broken rule, in the order of the files and of
/// their texts: of two names that may not be the same the later one. In a program that links two definitions of one name that may not
/// share it are one. Each definition is that of a unit's module, or one of a declaration; and `is_seen` tells what a module sees. The
/// syntax of each unit has sound words and places in text order, and nests no deeper than may be.
pub fn linking_law()
    ensures links { (us : List Source) → IsNoBreach us }
    ensures cycles { (us : List Source) → ReachesAll us }
    ensures told { (us : List Source) → IsTold us }
    ensures once { (us : List Source) → Links us → DefinesOnce us }
    ensures declared { (us : List Source) → ComesFromDeclarations us }
    ensures seen { (us : List Source) → TellsSeen us }
    ensures units { (u : NamedUnit) → IsUnitOfText u }
{}

/// Each rule of linking, at examples: programs that link, and the first breach of others.
pub fn linking_examples()
    ensures links { Links whole_program }
    ensures many { Links (importing 63) }
    ensures name_twice { first (link_errors name_twice) ≡ breach 1 (codes "Red") (codes "b.orca") (place 2 7) }
    ensures main_twice { first (link_errors main_twice) ≡ breach 1 (codes "Main") (codes "b.orca") (place 1 1) }
    ensures specified_twice { first (link_errors specified_twice) ≡ breach 1 (codes "Cell") (codes "a.orca") (place 4 22) }
    ensures unknown { first (link_errors no_such_module) ≡ breach 2 (codes "Red") (codes "a.orca") (place 3 8) }
    ensures cycle { first (link_errors two_in_a_cycle) ≡ breach 3 (codes "B") (codes "a.orca") (place 2 8) }
    ensures behind { first (link_errors cycle_behind) ≡ breach 3 (codes "B") (codes "a.orca") (place 2 8) }
    ensures own { first (link_errors own_import) ≡ breach 3 (codes "A") (codes "a.orca") (place 2 8) }
    ensures no_main { first (link_errors module_alone) ≡ breach 4 (codes "") (codes "") (place 1 1) }
    ensures no_implementation { first (link_errors one_implemented) ≡ breach 5 (codes "Cell") (codes "a.orca") (place 2 22) }
{}
