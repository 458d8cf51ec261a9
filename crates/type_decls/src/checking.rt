//! The test of a program.

ghost use Rattle.std.specs.Prelude.{◌≡◌, ℕ, List, Some, IfOk, map};
ghost use Rattle.orca_base.specs.Refusal.{IfBecause};
ghost use Rattle.link_rules.specs.Units.{source};
ghost use Rattle.type_rules.specs.declared.types.Base.TheVariants.{Integer};
ghost use Rattle.type_rules.specs.Types.{plain as rule_plain};
ghost use Rattle.type_rules.specs.declared.names.LocalRole.TheVariants.{LoopVariable};
ghost use Rattle.type_rules.specs.Breaches.{IsTypeError, IsWellTyped, breaches};
ghost use Rattle.type_exprs.specs.Scoped.{local_as};
ghost use Rattle.type_decls.specs.Judged.{Judges};
ghost use Rattle.type_decls.specs.Symbols.{AreSymbols};

use crate::checked::Checked;
use crate::context::Context;
use crate::symbols::Symbols;
use crate::units::units_judged;
use orca_base::Refusal;
use orca_modules::Program;
use std::alloc::Global;
use std::collections::BTreeMap;
use type_cycles::holds_themselves;
use type_exprs::{Local, plain};
use type_forms::parts_of;
use type_rules::{Base, LocalRole, TypeError};

// What the variable of a loop is.
fn loop_variable(alloc: Global) -> Local
    ensures { (n : List ℕ) → local_as n result ≡ record { name = n; role = LoopVariable; type = Some (rule_plain Integer) } }
{
    Local {
        role: LocalRole::LoopVariable,
        kind: Some(plain(alloc, Base::Integer)),
    }
}

// Whether a program breaks no rule, by its tables, or else its first breach.
fn judged<'p>(
    alloc: Global,
    symbols: &Symbols<'p>,
    program: &'p Program,
) -> Result<(), Refusal<TypeError>>
    ensures { AreSymbols (map source program.now.units.items) symbols.now → Judges result (breaches (map source program.now.units.items)) }
{
    let parts = parts_of(alloc, &symbols.index)?;
    let rounds = holds_themselves(alloc, &parts)?;
    let none = BTreeMap::new(alloc);
    let counter = loop_variable(alloc);
    let context = Context {
        tables: symbols.tables(),
        rounds: &rounds,
        none: &none,
        counter: &counter,
    };
    units_judged(alloc, context, &program.units)
}

/// The same program beside the tables of its declarations, exactly where it breaks no rule of typing (docs/LANGUAGE.md, Typing); else the
/// first breach in text order of the first unit that has one, and at one place the lowest rule. Want of memory is the only other error.
/// No clause says so, but the cost is that of the program's text times the logarithm of the number of names that are declared.
pub fn check<'p>(alloc: Global, program: &'p Program) -> Result<Checked<'p>, Refusal<TypeError>>
    ensures program { IfOk result (λ c. c.program.now ≡ program.now) }
    ensures well_typed { IfOk result (λ _. IsWellTyped (map source program.now.units.items)) }
    ensures symbols { IfOk result (λ c. AreSymbols (map source program.now.units.items) c.symbols) }

    // The first breach.
    ensures refused { IfBecause result (IsTypeError (map source program.now.units.items)) }
{
    let symbols = Symbols::new(alloc, &program.units)?;
    judged(alloc, &symbols, program)?;
    Ok(Checked { program, symbols })
}
