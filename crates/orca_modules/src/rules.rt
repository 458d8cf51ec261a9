//! The rules of linking, each with its first breach.

ghost use Rattle.std.specs.Prelude.{◌≡◌, ◌∷◌, ◌&&◌, [], List, map, filter, if◌then◌else◌, not, bytes_eq, codes, IfOk};
ghost use Rattle.std.specs.List.{list_any};
ghost use Rattle.link_rules.specs.Units.{Defined};
ghost use Rattle.link_rules.specs.Rules.{at_definition, at_import, is_main, is_unimplemented, is_unknown, no_main, repeated};
ghost use Rattle.orca_modules.specs.Seen.{Knows, definition, import_line};
ghost use Rattle.orca_modules.specs.Judged.{Judges};

use crate::sites::{Definition, ImportLine};
use crate::tables::Tables;
use link_rules::{LinkError, Role};
use orca_base::{NoMemory, Place, Refusal, Text, refuse};
use std::alloc::Global;

/// No name is defined twice: the tables of the names, or the first that repeats an earlier one.
pub fn distinct<'a>(
    alloc: Global,
    definitions: &[Definition<'a>],
) -> Result<Tables<'a>, Refusal<LinkError>>
    ensures judges { Judges result (map (at_definition 1) (repeated [] (map definition definitions.now))) }
    ensures knows { IfOk result (λ t. Knows t (map definition definitions.now)) }
{
    let mut tables = Tables::new(alloc);
    'definitions: for part in definitions {
        if tables.takes(part.role, part.name) {
            let cause = part.error(alloc, 1)?;
            return refuse(cause);
        }
        tables.add(*part)?;
    }
    Ok(tables)
}

/// What is imported is a module.
pub fn known(
    alloc: Global,
    tables: &Tables<'_>,
    lines: &[ImportLine<'_>],
) -> Result<(), Refusal<LinkError>>
    ensures { (ds : List Defined) → Knows tables.now ds →
        Judges result (map (at_import 2) (filter (is_unknown ds) (map import_line lines.now))) }
{
    'imports: for line in lines {
        if !tables.has(Role::Module, line.name) {
            let cause = line.error(alloc, 2)?;
            return refuse(cause);
        }
    }
    Ok(())
}

// Whether a definition is that of `OrcaMain`.
fn is_main(part: &Definition<'_>) -> bool
    ensures { result ≡ is_main (definition part.now) }
{
    match part.role {
        Role::Module => false,
        Role::Specification | Role::Implementation | Role::Other => part.name == "OrcaMain",
    }
}

// The breach where no name is `OrcaMain`.
fn no_main(alloc: Global) -> Result<LinkError, NoMemory>
    ensures { IfOk result (λ e. e ≡ no_main) }
{
    Ok(LinkError {
        rule: 4,
        name: Text::from_str(alloc, "")?,
        file: Text::from_str(alloc, "")?,
        at: Place { line: 1, column: 1 },
    })
}

/// A name of the top level is `OrcaMain`.
pub fn with_main(alloc: Global, definitions: &[Definition<'_>]) -> Result<(), Refusal<LinkError>>
    ensures { Judges result (if list_any is_main (map definition definitions.now) then [] else no_main ∷ []) }
{
    'definitions: for part in definitions {
        if is_main(part) {
            return Ok(());
        }
    }
    let cause = no_main(alloc)?;
    refuse(cause)
}

// Whether a definition is a specification that has no implementation.
fn is_unimplemented(tables: &Tables<'_>, part: &Definition<'_>) -> bool
    ensures { (ds : List Defined) → Knows tables.now ds → result ≡ is_unimplemented ds (definition part.now) }
{
    match part.role {
        Role::Specification => !tables.has(Role::Implementation, part.name),
        Role::Module | Role::Implementation | Role::Other => false,
    }
}

/// Each specification has an implementation.
pub fn implemented(
    alloc: Global,
    tables: &Tables<'_>,
    definitions: &[Definition<'_>],
) -> Result<(), Refusal<LinkError>>
    ensures { (ds : List Defined) → Knows tables.now ds →
        Judges result (map (at_definition 5) (filter (is_unimplemented ds) (map definition definitions.now))) }
{
    'definitions: for part in definitions {
        if is_unimplemented(tables, part) {
            let cause = part.error(alloc, 5)?;
            return refuse(cause);
        }
    }
    Ok(())
}
