//! Expressions that a rule wants to be of a type.

ghost use Rattle.std.specs.Prelude.{IfOk, option_map};
ghost use Rattle.orca_syntax.specs.Shown.{expr, exprs};
ghost use Rattle.type_rules.specs.Scopes as scopes;
ghost use Rattle.type_rules.specs.Statements as rules;
ghost use Rattle.type_forms.specs.Finding.{FirstOf};
ghost use Rattle.type_exprs.specs.Scoped.{IsScope};
ghost use Rattle.type_exprs.specs.Wanted.{test};

use orca_base::NoMemory;
use orca_tree::Expression;
use std::alloc::Global;
use type_exprs::{Scope, Wanted, place_of, typed, wanting};
use type_forms::lesser;
use type_rules::Breach;

/// The first breach of an expression that a rule wants to be of a type, with that of the rule itself, at the expression's place. The
/// only error is want of memory.
pub fn wants(
    alloc: Global,
    scope: Scope<'_, '_>,
    rule: u8,
    wanted: Wanted,
    e: &Expression,
) -> Result<Option<Breach>, NoMemory>
    ensures { (w : scopes.Scope) → IsScope scope.entry w →
        IfOk result (λ o. FirstOf o (rules.wants w rule (test wanted) (expr e.now))) }
{
    let found = typed(alloc, scope, e)?;
    Ok(wanting(rule, wanted, place_of(e), &found))
}

/// The same, where there is an expression.
pub fn wants_if_any(
    alloc: Global,
    scope: Scope<'_, '_>,
    rule: u8,
    wanted: Wanted,
    e: &Option<Expression>,
) -> Result<Option<Breach>, NoMemory>
    ensures { (w : scopes.Scope) → IsScope scope.entry w →
        IfOk result (λ o. FirstOf o (rules.wants_if_any w rule (test wanted) (option_map expr e.now))) }
{
    match e {
        None => Ok(None),
        Some(e) => Ok(wants(alloc, scope, rule, wanted, e)?),
    }
}

/// The first breach of what is to be printed.
pub fn printed(
    alloc: Global,
    scope: Scope<'_, '_>,
    given: &[Expression],
) -> Result<Option<Breach>, NoMemory>
    ensures { (w : scopes.Scope) → IsScope scope.entry w →
        IfOk result (λ o. FirstOf o (rules.printed w (exprs given.now))) }
{
    let mut first = None;
    'given: for e in given {
        let own = wants(alloc, scope, 34, Wanted::Printed, e)?;
        first = lesser(first, own);
    }
    Ok(first)
}
