//! Loop variables at the places where they are declared.

ghost use Rattle.std.specs.Prelude.{◌≡◌, ◌+◌, IfOk};
ghost use Rattle.orca_syntax.specs.Shown.{arm as arm_shown, arms as arms_shown, body as body_shown, guard as guard_shown, stmt, stmts};
ghost use Rattle.accepted_law.specs.Limits as limits;
ghost use Rattle.program_limits.specs.Counted.{loops_in_guards};

use crate::counts::both;
use orca_base::NoMemory;
use orca_tree::{Arm, Guard, OperationBody, Statement};

// The loop variables of statements.
#[cycle(statements)]
pub(crate) fn loops_in_all(statements: &[Statement]) -> Result<u64, NoMemory>
    ensures { IfOk result (λ n. n ≡ limits.loops_in_all (stmts statements.now)) }
{
    let mut count = 0;
    'statements: for statement in statements {
        let own = loops_in(statement)?;
        count = both(count, own)?;
    }
    Ok(count)
}

// The loop variables of a statement.
#[cycle(statements)]
fn loops_in(statement: &Statement) -> Result<u64, NoMemory>
    ensures { IfOk result (λ n. n ≡ limits.loops_in (stmt statement.now)) }
{
    match statement {
        Statement::If { arms, .. } => loops_in_arms(arms),
        Statement::While { body, .. } => loops_in_all(body),
        Statement::For { body, .. } => one_and_inner(body),
        Statement::Repeat { body, .. } => loops_in_all(body),
        _ => Ok(0),
    }
}

// The variable of a loop, and those of the loops in it.
#[cycle(statements)]
fn one_and_inner(body: &[Statement]) -> Result<u64, NoMemory>
    ensures { IfOk result (λ n. n ≡ 1 + limits.loops_in_all (stmts body.now)) }
{
    let inner = loops_in_all(body)?;
    both(1, inner)
}

// The loop variables of the arms of an `if`.
#[cycle(statements)]
fn loops_in_arms(arms: &[Arm]) -> Result<u64, NoMemory>
    ensures { IfOk result (λ n. n ≡ limits.loops_in_arms (arms_shown arms.now)) }
{
    let mut count = 0;
    'arms: for arm in arms {
        let own = loops_in_arm(arm)?;
        count = both(count, own)?;
    }
    Ok(count)
}

// The loop variables of an arm.
#[cycle(statements)]
fn loops_in_arm(arm: &Arm) -> Result<u64, NoMemory>
    ensures { IfOk result (λ n. n ≡ limits.loops_in_arm (arm_shown arm.now)) }
{
    match arm {
        Arm::When { body, .. } => loops_in_all(body),
        Arm::Otherwise { body } => loops_in_all(body),
    }
}

// The loop variables of guarded alternatives.
fn guards(others: &[Guard]) -> Result<u64, NoMemory>
    ensures { IfOk result (λ n. n ≡ loops_in_guards others.now) }
{
    let mut count = 0;
    'guards: for guard in others {
        let own = loops_in_all(&guard.body)?;
        count = both(count, own)?;
    }
    Ok(count)
}

// The loop variables of an operation's body.
pub(crate) fn loops_in_body(body: &OperationBody) -> Result<u64, NoMemory>
    ensures { IfOk result (λ n. n ≡ limits.loops_in_body (body_shown body.now)) }
{
    match body {
        OperationBody::Guarded { first, others } => {
            let own = loops_in_all(&first.body)?;
            let behind = guards(others)?;
            both(own, behind)
        }
        OperationBody::Plain { statements } => loops_in_all(statements),
    }
}
