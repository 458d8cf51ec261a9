//! Calls as statements.

ghost use Rattle.std.specs.Prelude.{◌++◌, IfOk};
ghost use Rattle.orca_syntax.specs.Shown.{exprs};
ghost use Rattle.orca_syntax.specs.Syntax.{Stmt};
ghost use Rattle.type_rules.specs.Scopes as scopes;
ghost use Rattle.type_rules.specs.Expressions.{acts as rule_acts};
ghost use Rattle.type_rules.specs.Statements as rules;
ghost use Rattle.type_forms.specs.Finding.{FirstOf};
ghost use Rattle.type_exprs.specs.Scoped.{IsScope};

use crate::wanted::printed;
use orca_base::{NoMemory, Place};
use orca_tree::{Expression, Name};
use std::alloc::Global;
use type_exprs::{
    Scope, Use, acts, arguments, called, formals_of, function_found, invoked, operation_formals,
    operation_found,
};
use type_forms::lesser;
use type_rules::Breach;

/// The first breach of a call of a function.
pub fn call_breach(
    alloc: Global,
    scope: Scope<'_, '_>,
    function: &Name,
    given: &[Expression],
) -> Result<Option<Breach>, NoMemory>
    ensures { (w : scopes.Scope) → IsScope scope.entry w →
        IfOk result (λ o. FirstOf o (rules.stmt_breaches w (Stmt.Call function.now (exprs given.now)))) }
{
    let is = called(scope, function);
    let inside = arguments(alloc, scope, formals_of(is), given)?;
    let found = function_found(alloc, scope, Use::AsStatement, function, given, is, inside)?;
    Ok(found.first)
}

/// The first breach of a call of an operation.
pub fn invoke_breach(
    alloc: Global,
    scope: Scope<'_, '_>,
    object: &Name,
    operation: &Name,
    given: &[Expression],
) -> Result<Option<Breach>, NoMemory>
    ensures { (w : scopes.Scope) → IsScope scope.entry w →
        IfOk result (λ o. FirstOf o (rules.stmt_breaches w (Stmt.Invoke object.now operation.now (exprs given.now)))) }
{
    let is = invoked(scope, object, operation);
    let inside = arguments(alloc, scope, operation_formals(is), given)?;
    let way = Use::AsStatement;
    let found = operation_found(alloc, scope, way, object, operation, given, is, inside)?;
    Ok(found.first)
}

/// The first breach of `WriteLine`.
pub fn print_breach(
    alloc: Global,
    scope: Scope<'_, '_>,
    at: Place,
    given: &[Expression],
) -> Result<Option<Breach>, NoMemory>
    ensures { (w : scopes.Scope) → IsScope scope.entry w →
        IfOk result (λ o. FirstOf o (rule_acts w at ++ rules.printed w (exprs given.now))) }
{
    let inside = printed(alloc, scope, given)?;
    Ok(lesser(acts(scope, at), inside))
}
