//! Names in the place of a value.

ghost use Rattle.std.specs.Prelude.{◌≡◌, IfOk, option_map};
ghost use Rattle.type_rules.specs.Types.{plain as rule_plain};
ghost use Rattle.type_rules.specs.declared.types.Base.TheVariants.{Enumeration as enumeration_of};
ghost use Rattle.type_rules.specs.TopLevel.{number_of, stands_for};
ghost use Rattle.type_rules.specs.Scopes as scopes;
ghost use Rattle.type_rules.specs.Expressions as rules;
ghost use Rattle.type_forms.specs.Finding.{Finds};
ghost use Rattle.type_forms.specs.Indexed.{IsInside, standing};
ghost use Rattle.type_forms.specs.Seen.{what};
ghost use Rattle.type_exprs.specs.Scoped.{IsScope, lent_local};

use crate::kinds::{copy_known, plain};
use crate::scope::{Local, Scope};
use orca_base::NoMemory;
use orca_tree::Name;
use std::alloc::Global;
use type_forms::{Found, Standing, What};
use type_rules::{Base, DataType, Predeclared};

// The type of an enumeration, by its name.
fn enumeration(alloc: Global, scope: Scope<'_, '_>, of: &str) -> Option<DataType>
    ensures { (w : scopes.Scope) → IsScope scope.entry w →
        result ≡ option_map (λ i. rule_plain (enumeration_of i)) (number_of w.program of.now) }
{
    match scope.tables.forms.index.number_of(of) {
        None => None,
        Some(number) => Some(plain(alloc, Base::Enumeration { number })),
    }
}

// A name of the top level in the place of a value.
fn top_value(alloc: Global, scope: Scope<'_, '_>, name: &Name, is: What<'_>) -> Found<DataType>
    ensures { (w : scopes.Scope) → IsScope scope.entry w → Finds result (rules.top_value w name.now (what is.entry)) }
{
    match is {
        What::Constant { .. } => Found::new(Some(plain(alloc, Base::Integer))),
        What::Value { of, .. } => Found::new(enumeration(alloc, scope, of)),
        _ => Found::broken(5, name.at),
    }
}

// A name that every module has in the place of a value.
fn predeclared_value(alloc: Global, name: &Name, word: Predeclared) -> Found<DataType>
    ensures { Finds result (rules.predeclared_value name.now word) }
{
    match word {
        Predeclared::Nil => Found::new(Some(plain(alloc, Base::NodeName))),
        _ => Found::broken(5, name.at),
    }
}

// A name in the place of a value that is none of the body's.
fn outer_value(
    alloc: Global,
    scope: Scope<'_, '_>,
    name: &Name,
    is: Standing<'_>,
) -> Found<DataType>
    ensures { (w : scopes.Scope) → IsScope scope.entry w → Finds result (rules.outer_value w name.now (standing is.entry)) }
{
    match is {
        Standing::Nothing => Found::broken(2, name.at),
        Standing::Top { item, .. } => top_value(alloc, scope, name, item.what),
        Standing::Everywhere { word } => predeclared_value(alloc, name, word),
    }
}

/// What a name stands for that is none of the body's.
pub fn outer<'p>(scope: Scope<'_, 'p>, name: &str) -> Standing<'p>
    ensures inside { (w : scopes.Scope) → IsScope scope.entry w → IsInside w.program result }
    ensures stands { (w : scopes.Scope) → IsScope scope.entry w → standing result ≡ stands_for w.program w.home name.now }
{
    scope.tables.forms.index.stands_for(scope.home, name)
}

// A name in the place of a value, where this is what it is of the body.
fn value_of(
    alloc: Global,
    scope: Scope<'_, '_>,
    name: &Name,
    local: Option<&Local>,
) -> Result<Found<DataType>, NoMemory>
    ensures { (w : scopes.Scope) → IsScope scope.entry w →
        IfOk result (λ f. Finds f (rules.value_of w name.now (lent_local name.now.text local.entry))) }
{
    match local {
        None => {
            let is = outer(scope, name.text.as_str());
            Ok(outer_value(alloc, scope, name, is))
        }
        Some(local) => Ok(Found::new(copy_known(alloc, &local.kind)?)),
    }
}

/// A name in the place of a value.
pub fn named_value(
    alloc: Global,
    scope: Scope<'_, '_>,
    name: &Name,
) -> Result<Found<DataType>, NoMemory>
    ensures { (w : scopes.Scope) → IsScope scope.entry w → IfOk result (λ f. Finds f (rules.named_value w name.now)) }
{
    let local = scope.local(name.text.as_str());
    value_of(alloc, scope, name, local)
}
