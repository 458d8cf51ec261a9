//! The first breach of statements.

ghost use Rattle.std.specs.Prelude.{◌++◌, IfOk};
ghost use Rattle.orca_syntax.specs.Shown.{arm as arm_shown, arms as arms_shown, expr, stmt, stmts};
ghost use Rattle.type_rules.specs.Types.{is_boolean, is_integer};
ghost use Rattle.type_rules.specs.Scopes as scopes;
ghost use Rattle.type_rules.specs.Statements as rules;
ghost use Rattle.type_forms.specs.Finding.{FirstOf};
ghost use Rattle.type_stmts.specs.Bodies.{IsBody};

use crate::bodies::{BodyScope, counts, inner_loops};
use crate::calls::{call_breach, invoke_breach, print_breach};
use crate::changes::{assign_breach, change_breach};
use crate::forks::fork_breach;
use crate::returns::return_breach;
use crate::wanted::wants;
use orca_base::NoMemory;
use orca_tree::{Arm, Expression, Name, Range, Statement};
use std::alloc::Global;
use type_exprs::Wanted;
use type_forms::lesser;
use type_rules::Breach;

/// The first breach of statements, in text order, where they stand in this body. The only error is want of memory.
#[cycle(statements)]
pub fn stmts_breach<'p>(
    alloc: Global,
    body: BodyScope<'_, 'p>,
    statements: &'p [Statement],
) -> Result<Option<Breach>, NoMemory>
    ensures { (w : scopes.Scope) → IsBody body.entry w →
        IfOk result (λ o. FirstOf o (rules.stmts_breaches w (stmts statements.now))) }
{
    let mut first = None;
    'statements: for statement in statements {
        let own = stmt_breach(alloc, body, statement)?;
        first = lesser(first, own);
    }
    Ok(first)
}

// The first breach of a statement.
#[cycle(statements)]
fn stmt_breach<'p>(
    alloc: Global,
    body: BodyScope<'_, 'p>,
    statement: &'p Statement,
) -> Result<Option<Breach>, NoMemory>
    ensures { (w : scopes.Scope) → IsBody body.entry w →
        IfOk result (λ o. FirstOf o (rules.stmt_breaches w (stmt statement.now))) }
{
    let scope = body.scope;
    match statement {
        Statement::Return { at, value } => return_breach(alloc, body, *at, value),
        Statement::If { arms, .. } => arms_breach(alloc, body, arms),
        Statement::While {
            test,
            body: inside,
            ..
        } => tested(alloc, body, inside, test),
        Statement::For {
            name,
            range,
            body: inside,
            ..
        } => for_breach(alloc, body, name, range, inside),
        Statement::Repeat {
            body: inside,
            test,
            ..
        } => repeat_breach(alloc, body, inside, test),
        Statement::Fork {
            at,
            process,
            arguments,
            on,
        } => fork_breach(alloc, scope, *at, process, arguments, on),
        Statement::WriteLine { at, arguments } => print_breach(alloc, scope, *at, arguments),
        Statement::Insert { element, into, .. } => change_breach(alloc, scope, element, into),
        Statement::Delete { element, from, .. } => change_breach(alloc, scope, element, from),
        Statement::Assign { to, value } => assign_breach(alloc, scope, to, value),
        Statement::Call {
            function,
            arguments,
        } => call_breach(alloc, scope, function, arguments),
        Statement::Invoke {
            object,
            operation,
            arguments,
        } => invoke_breach(alloc, scope, object, operation, arguments),
    }
}

// The first breach of a test and of the statements behind it.
#[cycle(statements)]
fn tested<'p>(
    alloc: Global,
    body: BodyScope<'_, 'p>,
    inside: &'p [Statement],
    test: &Expression,
) -> Result<Option<Breach>, NoMemory>
    ensures { (w : scopes.Scope) → IsBody body.entry w → IfOk result (λ o. FirstOf o
        (rules.wants w 21 is_boolean (expr test.now) ++ rules.stmts_breaches w (stmts inside.now))) }
{
    let own = wants(alloc, body.scope, 21, Wanted::Boolean, test)?;
    let behind = stmts_breach(alloc, body, inside)?;
    Ok(lesser(own, behind))
}

// The first breach of statements that are repeated, and of the test behind them.
#[cycle(statements)]
fn repeat_breach<'p>(
    alloc: Global,
    body: BodyScope<'_, 'p>,
    inside: &'p [Statement],
    test: &Expression,
) -> Result<Option<Breach>, NoMemory>
    ensures { (w : scopes.Scope) → IsBody body.entry w → IfOk result (λ o. FirstOf o
        (rules.stmts_breaches w (stmts inside.now) ++ rules.wants w 21 is_boolean (expr test.now))) }
{
    let own = stmts_breach(alloc, body, inside)?;
    let behind = wants(alloc, body.scope, 21, Wanted::Boolean, test)?;
    Ok(lesser(own, behind))
}

// The first breach of a loop over a range.
#[cycle(statements)]
fn for_breach<'p>(
    alloc: Global,
    body: BodyScope<'_, 'p>,
    name: &'p Name,
    range: &Range,
    inside: &'p [Statement],
) -> Result<Option<Breach>, NoMemory>
    ensures { (w : scopes.Scope) → IsBody body.entry w → IfOk result (λ o. FirstOf o
        (rules.counts w name.now ++ (rules.wants w 22 is_integer (expr range.now.low) ++
        (rules.wants w 22 is_integer (expr range.now.high) ++
        rules.stmts_breaches (rules.with_loop w name.now) (stmts inside.now))))) }
{
    let low = wants(alloc, body.scope, 22, Wanted::Integer, &range.low)?;
    let high = wants(alloc, body.scope, 22, Wanted::Integer, &range.high)?;
    let behind = counted(alloc, body, name, inside)?;
    let own = counts(body.scope, name);
    Ok(lesser(own, lesser(low, lesser(high, behind))))
}

// The first breach of the statements in a loop over a range, whose variable they see.
#[cycle(statements)]
fn counted<'p>(
    alloc: Global,
    body: BodyScope<'_, 'p>,
    name: &'p Name,
    inside: &'p [Statement],
) -> Result<Option<Breach>, NoMemory>
    ensures { (w : scopes.Scope) → IsBody body.entry w →
        IfOk result (λ o. FirstOf o (rules.stmts_breaches (rules.with_loop w name.now) (stmts inside.now))) }
{
    let loops = inner_loops(alloc, body.scope.loops, name.text.as_str())?;
    let first = stmts_breach(alloc, body.in_loops(&loops), inside)?;
    Ok(first)
}

// The first breach of the arms of an `if`.
#[cycle(statements)]
fn arms_breach<'p>(
    alloc: Global,
    body: BodyScope<'_, 'p>,
    arms: &'p [Arm],
) -> Result<Option<Breach>, NoMemory>
    ensures { (w : scopes.Scope) → IsBody body.entry w →
        IfOk result (λ o. FirstOf o (rules.arms_breaches w (arms_shown arms.now))) }
{
    let mut first = None;
    'arms: for arm in arms {
        let own = arm_breach(alloc, body, arm)?;
        first = lesser(first, own);
    }
    Ok(first)
}

// The first breach of an arm of an `if`.
#[cycle(statements)]
fn arm_breach<'p>(
    alloc: Global,
    body: BodyScope<'_, 'p>,
    arm: &'p Arm,
) -> Result<Option<Breach>, NoMemory>
    ensures { (w : scopes.Scope) → IsBody body.entry w →
        IfOk result (λ o. FirstOf o (rules.arm_breaches w (arm_shown arm.now))) }
{
    match arm {
        Arm::When { test, body: inside } => tested(alloc, body, inside, test),
        Arm::Otherwise { body: inside } => stmts_breach(alloc, body, inside),
    }
}
