//! Linking.

ghost use Rattle.std.specs.Prelude.{◌≡◌, map, IfOk};
ghost use Rattle.orca_base.specs.Refusal.{IfBecause};
ghost use Rattle.link_rules.specs.Units.{source};
ghost use Rattle.link_rules.specs.Rules.{IsLinkError, Links, link_errors};
ghost use Rattle.orca_modules.specs.Judged.{Judges};

use crate::cycles::acyclic;
use crate::program::Program;
use crate::rules::{distinct, implemented, known, with_main};
use crate::sites::{definitions, imports};
use link_rules::{LinkError, NamedUnit};
use orca_base::Refusal;
use std::alloc::Global;

// The rules of linking, the lowest first.
fn check(alloc: Global, units: &[NamedUnit]) -> Result<(), Refusal<LinkError>>
    ensures { Judges result (link_errors (map source units.now)) }
{
    let definitions = definitions(alloc, units)?;
    let imports = imports(alloc, units)?;
    let tables = distinct(alloc, &definitions)?;
    known(alloc, &tables, &imports)?;
    acyclic(alloc, &imports)?;
    with_main(alloc, &definitions)?;
    implemented(alloc, &tables, &definitions)
}

/// The program that these units are, exactly where they link: no name is defined twice (modules' names are apart, and the two halves of an
/// object type share theirs), what is imported is a module, no import lies on a cycle, a name of the top level is `OrcaMain`, and each
/// specification has an implementation (docs/LANGUAGE.md, Linking). No clause says so, but the cost is that of the names that are defined
/// and imported times the logarithm of their number; only where imports go round in a cycle are they gone through more often, up to the
/// square of the number of modules.
pub fn link(alloc: Global, units: Vec<NamedUnit>) -> Result<Program, Refusal<LinkError>>
    ensures program { IfOk result (λ p. p.units.items ≡ units.items) }
    ensures links { IfOk result (λ _. Links (map source units.items)) }

    // The first breach of the lowest rule that is broken.
    ensures refused { IfBecause result (IsLinkError (map source units.items)) }
{
    check(alloc, &units)?;
    Ok(Program { units })
}
