//! The rules of typing in a program's units.

ghost use Rattle.std.specs.Prelude.{◌≡◌, List, IfOk, flat_map, map};
ghost use Rattle.link_rules.specs.Units.{Source, module_name, source};
ghost use Rattle.type_rules.specs.Breaches.{type_error as rule_type_error, unit_breaches};
ghost use Rattle.type_rules.specs.Declarations.{decl_breaches};
ghost use Rattle.type_rules.specs.declared.breach.Breach.{Breach as BreachRule};
ghost use Rattle.type_forms.specs.Finding.{FirstOf};
ghost use Rattle.type_decls.specs.Contexts.{IsContext};
ghost use Rattle.type_decls.specs.Judged.{Judges};

use crate::context::Context;
use crate::declarations::declaration_breach;
use link_rules::NamedUnit;
use orca_base::{NoMemory, Refusal, refuse};
use std::alloc::Global;
use type_forms::{lesser, module_of};
use type_rules::{Breach, TypeError};

// The first breach of a unit, in text order.
fn unit_breach<'p>(
    alloc: Global,
    context: Context<'_, 'p>,
    unit: &'p NamedUnit,
) -> Result<Option<Breach>, NoMemory>
    ensures { (us : List Source) → IsContext us context.entry → IfOk result (λ o. FirstOf o
        (flat_map (decl_breaches us (module_name (source unit.now))) (source unit.now).syntax.declarations)) }
{
    let home = module_of(unit);
    let mut first = None;
    'declarations: for part in &unit.unit.declarations {
        let own = declaration_breach(alloc, context, home, part)?;
        first = lesser(first, own);
    }
    Ok(first)
}

// A breach in a unit.
fn type_error(alloc: Global, unit: &NamedUnit, breach: Breach) -> Result<TypeError, NoMemory>
    ensures { IfOk result (λ e. e ≡ rule_type_error (source unit.now) breach) }
{
    Ok(TypeError {
        rule: breach.rule,
        file: unit.file.copy(alloc)?,
        at: breach.at,
    })
}

// Whether a unit breaks no rule, or else its first breach.
fn unit_judged<'p>(
    alloc: Global,
    context: Context<'_, 'p>,
    unit: &'p NamedUnit,
) -> Result<(), Refusal<TypeError>>
    ensures { (us : List Source) → IsContext us context.entry →
        Judges result (map (rule_type_error (source unit.now)) (unit_breaches us (source unit.now))) }
{
    match unit_breach(alloc, context, unit)? {
        None => Ok(()),
        Some(breach) => {
            let cause = type_error(alloc, unit, breach)?;
            refuse(cause)
        }
    }
}

/// Whether units break no rule, or else the first breach of the first that breaks one.
pub fn units_judged<'p>(
    alloc: Global,
    context: Context<'_, 'p>,
    units: &'p [NamedUnit],
) -> Result<(), Refusal<TypeError>>
    ensures { (us : List Source) → IsContext us context.entry →
        Judges result (flat_map (λ u. map (rule_type_error u) (unit_breaches us u)) (map source units.now)) }
{
    'units: for unit in units {
        unit_judged(alloc, context, unit)?;
    }
    Ok(())
}
