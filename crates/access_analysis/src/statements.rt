//! Whether statements change a field of the object.

ghost use Rattle.std.specs.Prelude.{◌≡◌, ◌||◌, [], option_map};
ghost use Rattle.orca_syntax.specs.Shown.{arm as arm_shown, arms as arms_shown, expr, exprs, path, stmt, stmts};
ghost use Rattle.type_rules.specs.Scopes as scopes;
ghost use Rattle.type_rules.specs.Statements.{with_loop};
ghost use Rattle.meaning_rules.specs.Classes as rules;
ghost use Rattle.access_analysis.specs.Sites.{IsSite};

use crate::expressions::{arguments_change, changes, changes_if_any, root_changes};
use crate::loops::Loops;
use crate::site::Site;
use orca_tree::{Arm, Designator, Expression, Name, Range, Statement};
use program_bodies::Callee;

/// Whether statements change a field: whether that is the root of an assignment, an `insert`, a `delete` or a `from` among them, or of an
/// argument for `out`.
#[cycle(statements)]
pub fn stmts_change(site: Site<'_, '_>, statements: &[Statement]) -> bool
    ensures { (w : scopes.Scope) → IsSite site.entry w → result ≡ rules.stmts_change w (stmts statements.now) }
{
    'statements: for statement in statements {
        if stmt_changes(site, statement) {
            return true;
        }
    }
    false
}

// Whether a statement changes a field.
#[cycle(statements)]
fn stmt_changes(site: Site<'_, '_>, statement: &Statement) -> bool
    ensures { (w : scopes.Scope) → IsSite site.entry w → result ≡ rules.stmt_changes w (stmt statement.now) }
{
    match statement {
        Statement::Return { value, .. } => changes_if_any(site, value),
        Statement::If { arms, .. } => arms_change(site, arms),
        Statement::While { test, body, .. } => tested(site, body, test),
        Statement::For {
            name,
            range,
            body,
            ..
        } => for_changes(site, name, range, body),
        Statement::Repeat { body, test, .. } => repeat_changes(site, body, test),
        Statement::Fork { arguments, on, .. } => fork_changes(site, arguments, on),
        Statement::WriteLine { arguments, .. } => {
            arguments_change(site, Callee::NoFunction, arguments)
        }
        Statement::Insert { element, into, .. } => element_changes(site, element, into),
        Statement::Delete { element, from, .. } => element_changes(site, element, from),
        Statement::Assign { to, value } => assign_changes(site, to, value),
        Statement::Call {
            function,
            arguments,
        } => arguments_change(site, site.callee(function), arguments),
        Statement::Invoke { arguments, .. } => {
            arguments_change(site, Callee::NoFunction, arguments)
        }
    }
}

// Whether statements, or the test before them, change a field.
#[cycle(statements)]
fn tested(site: Site<'_, '_>, body: &[Statement], test: &Expression) -> bool
    ensures { (w : scopes.Scope) → IsSite site.entry w →
        result ≡ (rules.changes w (expr test.now) || rules.stmts_change w (stmts body.now)) }
{
    let own = changes(site, test);
    let inside = stmts_change(site, body);
    own || inside
}

// Whether statements that are repeated, or the test behind them, change a field.
#[cycle(statements)]
fn repeat_changes(site: Site<'_, '_>, body: &[Statement], test: &Expression) -> bool
    ensures { (w : scopes.Scope) → IsSite site.entry w →
        result ≡ (rules.stmts_change w (stmts body.now) || rules.changes w (expr test.now)) }
{
    let inside = stmts_change(site, body);
    let own = changes(site, test);
    inside || own
}

// Whether a loop over a range changes a field.
#[cycle(statements)]
fn for_changes(site: Site<'_, '_>, name: &Name, range: &Range, body: &[Statement]) -> bool
    ensures { (w : scopes.Scope) → IsSite site.entry w → result ≡ (rules.changes w (expr range.now.low)
        || (rules.changes w (expr range.now.high) || rules.stmts_change (with_loop w name.now) (stmts body.now))) }
{
    let low = changes(site, &range.low);
    let high = changes(site, &range.high);
    let inside = counted(site, name, body);
    low || (high || inside)
}

// Whether the statements in a loop over a range change a field; its variable hides one of its name.
#[cycle(statements)]
fn counted(site: Site<'_, '_>, name: &Name, body: &[Statement]) -> bool
    ensures { (w : scopes.Scope) → IsSite site.entry w →
        result ≡ rules.stmts_change (with_loop w name.now) (stmts body.now) }
{
    let loops = Loops::Inside {
        variable: name.text.as_str(),
        outer: site.loops,
    };
    stmts_change(site.in_loops(&loops), body)
}

// Whether an `if` changes a field.
#[cycle(statements)]
fn arms_change(site: Site<'_, '_>, arms: &[Arm]) -> bool
    ensures { (w : scopes.Scope) → IsSite site.entry w → result ≡ rules.arms_change w (arms_shown arms.now) }
{
    'arms: for arm in arms {
        if arm_changes(site, arm) {
            return true;
        }
    }
    false
}

// Whether an arm of an `if` changes a field.
#[cycle(statements)]
fn arm_changes(site: Site<'_, '_>, arm: &Arm) -> bool
    ensures { (w : scopes.Scope) → IsSite site.entry w → result ≡ rules.arm_changes w (arm_shown arm.now) }
{
    match arm {
        Arm::When { test, body } => tested(site, body, test),
        Arm::Otherwise { body } => stmts_change(site, body),
    }
}

// Whether a `fork` changes a field.
fn fork_changes(site: Site<'_, '_>, given: &[Expression], on: &Option<Expression>) -> bool
    ensures { (w : scopes.Scope) → IsSite site.entry w →
        result ≡ (rules.arguments_change w [] (exprs given.now) || rules.changes_if_any w (option_map expr on.now)) }
{
    let own = arguments_change(site, Callee::NoFunction, given);
    let behind = changes_if_any(site, on);
    own || behind
}

// Whether an `insert` or a `delete` changes a field.
fn element_changes(site: Site<'_, '_>, element: &Expression, of: &Designator) -> bool
    ensures { (w : scopes.Scope) → IsSite site.entry w → result ≡ (rules.changes w (expr element.now)
        || (rules.names_field w of.now.name || rules.path_changes w (path of.now.path.items))) }
{
    let own = changes(site, element);
    let root = root_changes(site, of);
    own || root
}

// Whether an assignment changes a field.
fn assign_changes(site: Site<'_, '_>, to: &Designator, value: &Expression) -> bool
    ensures { (w : scopes.Scope) → IsSite site.entry w → result ≡ (rules.names_field w to.now.name
        || (rules.path_changes w (path to.now.path.items) || rules.changes w (expr value.now))) }
{
    let root = root_changes(site, to);
    let own = changes(site, value);
    root || own
}
