//! The uses of objects in statements.

ghost use Rattle.std.specs.Prelude.{◌≡◌, ◌++◌, IfOk, OnOk, option_map};
ghost use Rattle.orca_syntax.specs.Shown.{arm as arm_shown, arms as arms_shown, expr, exprs, path, stmt, stmts};
ghost use Rattle.site_estimates.specs.Numbers.{product};
ghost use Rattle.access_estimates.specs.Seen.{all_seen};
ghost use Rattle.estimate_rules.specs.Uses as rules;

use crate::expressions::{
    in_any, in_arguments, in_expression, in_expressions, in_operation, in_path,
};
use crate::uses::Use;
use orca_base::NoMemory;
use orca_tree::{Arm, Designator, Expression, Name, Range, Statement};
use site_estimates::ten_times;
use std::alloc::Global;

// Puts the uses in statements behind others.
#[cycle(statements)]
fn in_statements<'p>(
    out: &mut Vec<Use<'p>>,
    times: u64,
    statements: &'p [Statement],
) -> Result<(), NoMemory>
    ensures { OnOk result (all_seen out.new.items ≡ all_seen out.old.items ++ rules.stmts_uses times (stmts statements.now)) }
{
    'statements: for statement in statements {
        in_statement(out, times, statement)?;
    }
    Ok(())
}

// Puts the uses in a statement behind others.
#[cycle(statements)]
fn in_statement<'p>(
    out: &mut Vec<Use<'p>>,
    times: u64,
    statement: &'p Statement,
) -> Result<(), NoMemory>
    ensures { OnOk result (all_seen out.new.items ≡ all_seen out.old.items ++ rules.stmt_uses times (stmt statement.now)) }
{
    match statement {
        Statement::Return { value, .. } => in_any(out, times, value),
        Statement::If { arms, .. } => in_arms(out, times, arms),
        Statement::While { test, body, .. } => in_tested(out, ten_times(times), body, test),
        Statement::For { range, body, .. } => in_counted(out, times, body, range),
        Statement::Repeat { body, test, .. } => in_repeated(out, ten_times(times), body, test),
        Statement::Fork {
            process,
            arguments,
            on,
            ..
        } => in_fork(out, times, process, arguments, on),
        Statement::WriteLine { arguments, .. } => in_expressions(out, times, arguments),
        Statement::Insert { element, into, .. } => in_element(out, times, element, into),
        Statement::Delete { element, from, .. } => in_element(out, times, element, from),
        Statement::Assign { to, value } => in_assignment(out, times, to, value),
        Statement::Call {
            function,
            arguments,
        } => in_arguments(out, times, function, arguments),
        Statement::Invoke {
            object,
            operation,
            arguments,
        } => in_operation(out, times, object, operation, arguments),
    }
}

// Puts the uses in statements, and in the test before them, behind others.
#[cycle(statements)]
fn in_tested<'p>(
    out: &mut Vec<Use<'p>>,
    times: u64,
    body: &'p [Statement],
    test: &'p Expression,
) -> Result<(), NoMemory>
    ensures { OnOk result (all_seen out.new.items ≡ all_seen out.old.items
        ++ (rules.expr_uses times (expr test.now) ++ rules.stmts_uses times (stmts body.now))) }
{
    in_expression(out, times, test)?;
    in_statements(out, times, body)
}

// Puts the uses in statements, and in the test behind them, behind others.
#[cycle(statements)]
fn in_repeated<'p>(
    out: &mut Vec<Use<'p>>,
    times: u64,
    body: &'p [Statement],
    test: &'p Expression,
) -> Result<(), NoMemory>
    ensures { OnOk result (all_seen out.new.items ≡ all_seen out.old.items
        ++ (rules.stmts_uses times (stmts body.now) ++ rules.expr_uses times (expr test.now))) }
{
    in_statements(out, times, body)?;
    in_expression(out, times, test)
}

// Puts the uses in a loop over a range behind others.
#[cycle(statements)]
fn in_counted<'p>(
    out: &mut Vec<Use<'p>>,
    times: u64,
    body: &'p [Statement],
    range: &'p Range,
) -> Result<(), NoMemory>
    ensures { OnOk result (all_seen out.new.items ≡ all_seen out.old.items ++ (rules.expr_uses times (expr range.now.low)
        ++ (rules.expr_uses times (expr range.now.high) ++ rules.stmts_uses (product 10 times) (stmts body.now)))) }
{
    in_expression(out, times, &range.low)?;
    in_expression(out, times, &range.high)?;
    in_statements(out, ten_times(times), body)
}

// Puts the uses in the arms of an `if` behind others.
#[cycle(statements)]
fn in_arms<'p>(out: &mut Vec<Use<'p>>, times: u64, arms: &'p [Arm]) -> Result<(), NoMemory>
    ensures { OnOk result (all_seen out.new.items ≡ all_seen out.old.items ++ rules.arms_uses times (arms_shown arms.now)) }
{
    'arms: for arm in arms {
        in_arm(out, times, arm)?;
    }
    Ok(())
}

// Puts the uses in an arm of an `if` behind others.
#[cycle(statements)]
fn in_arm<'p>(out: &mut Vec<Use<'p>>, times: u64, arm: &'p Arm) -> Result<(), NoMemory>
    ensures { OnOk result (all_seen out.new.items ≡ all_seen out.old.items ++ rules.arm_uses times (arm_shown arm.now)) }
{
    match arm {
        Arm::When { test, body } => in_tested(out, times, body, test),
        Arm::Otherwise { body } => in_statements(out, times, body),
    }
}

// Puts the uses in a `fork` behind others.
fn in_fork<'p>(
    out: &mut Vec<Use<'p>>,
    times: u64,
    process: &'p Name,
    given: &'p [Expression],
    on: &'p Option<Expression>,
) -> Result<(), NoMemory>
    ensures { OnOk result (all_seen out.new.items ≡ all_seen out.old.items
        ++ (rules.arguments_uses times process.now 0 (exprs given.now) ++ rules.uses_if_any times (option_map expr on.now))) }
{
    in_arguments(out, times, process, given)?;
    in_any(out, times, on)
}

// Puts the uses in an `insert` or a `delete` behind others.
fn in_element<'p>(
    out: &mut Vec<Use<'p>>,
    times: u64,
    element: &'p Expression,
    of: &'p Designator,
) -> Result<(), NoMemory>
    ensures { OnOk result (all_seen out.new.items ≡ all_seen out.old.items
        ++ (rules.expr_uses times (expr element.now) ++ rules.path_uses times (path of.now.path.items))) }
{
    in_expression(out, times, element)?;
    in_path(out, times, &of.path)
}

// Puts the uses in an assignment behind others.
fn in_assignment<'p>(
    out: &mut Vec<Use<'p>>,
    times: u64,
    to: &'p Designator,
    value: &'p Expression,
) -> Result<(), NoMemory>
    ensures { OnOk result (all_seen out.new.items ≡ all_seen out.old.items
        ++ (rules.path_uses times (path to.now.path.items) ++ rules.expr_uses times (expr value.now))) }
{
    in_path(out, times, &to.path)?;
    in_expression(out, times, value)
}

/// The uses of objects in the statements of a body, each as often as it is done where each loop goes round ten times. The only error is
/// want of memory.
pub fn uses_of<'p>(alloc: Global, statements: &'p [Statement]) -> Result<Vec<Use<'p>>, NoMemory>
    ensures { IfOk result (λ v. all_seen v.items ≡ rules.stmts_uses 1 (stmts statements.now)) }
{
    let mut out = Vec::new(alloc);
    in_statements(&mut out, 1, statements)?;
    Ok(out)
}
