//! The uses of objects in expressions.

ghost use Rattle.std.specs.Prelude.{◌≡◌, ◌==◌, ◌∷◌, ◌++◌, [], OnOk, length, not, option_map};
ghost use Rattle.orca_syntax.specs.Shown.{expr, exprs, links as links_shown, path as path_shown, step as step_shown};
ghost use Rattle.orca_syntax.specs.Syntax as syn;
ghost use Rattle.access_estimates.specs.Seen.{all_seen};
ghost use Rattle.estimate_rules.specs.Uses as rules;

use crate::uses::{Use, UseKind};
use orca_base::NoMemory;
use orca_tree::{Designator, Expression, Link, Name, Selector};

/// Puts a call of an object's operation behind other uses.
pub fn add_call<'p>(
    out: &mut Vec<Use<'p>>,
    times: u64,
    object: &'p Name,
    operation: &'p Name,
) -> Result<(), NoMemory>
    ensures { OnOk result (all_seen out.new.items ≡ all_seen out.old.items ++ rules.called times object.now operation.now ∷ []) }
{
    let operation = operation.text.as_str();
    let object = object.text.as_str();
    let kind = UseKind::Calls { operation };
    out.push(Use {
        object,
        times,
        kind,
    })?;
    Ok(())
}

// Puts the passing of an object behind other uses.
fn add_whole<'p>(
    out: &mut Vec<Use<'p>>,
    times: u64,
    to: &'p Name,
    position: usize,
    object: &'p Name,
) -> Result<(), NoMemory>
    ensures { OnOk result (all_seen out.new.items ≡ all_seen out.old.items ++ rules.passes times to.now position object.now ∷ []) }
{
    let to = to.text.as_str();
    let object = object.text.as_str();
    let kind = UseKind::Passes { to, position };
    out.push(Use {
        object,
        times,
        kind,
    })?;
    Ok(())
}

// Whether a path leads to a part.
fn is_part(path: &[Selector]) -> bool
    ensures { result ≡ not (length path.now == 0) }
{
    !path.is_empty()
}

// Puts what a variable's value passes behind other uses, where it is no part of it.
fn add_passed<'p>(
    out: &mut Vec<Use<'p>>,
    times: u64,
    to: &'p Name,
    position: usize,
    from: &'p Designator,
) -> Result<(), NoMemory>
    ensures { OnOk result (all_seen out.new.items ≡ all_seen out.old.items
        ++ rules.passed times to.now position (syn.Get from.now.name (path_shown from.now.path.items))) }
{
    if is_part(&from.path) {
        return Ok(());
    }
    add_whole(out, times, to, position, &from.name)
}

// Puts what an argument passes behind other uses.
fn add_argument<'p>(
    out: &mut Vec<Use<'p>>,
    times: u64,
    to: &'p Name,
    position: usize,
    e: &'p Expression,
) -> Result<(), NoMemory>
    ensures { OnOk result (all_seen out.new.items ≡ all_seen out.old.items ++ rules.passed times to.now position (expr e.now)) }
{
    match e {
        Expression::Get { from } => add_passed(out, times, to, position, from),
        _ => Ok(()),
    }
}

/// Puts the uses in an expression behind others.
#[cycle(expressions)]
pub fn in_expression<'p>(
    out: &mut Vec<Use<'p>>,
    times: u64,
    e: &'p Expression,
) -> Result<(), NoMemory>
    ensures { OnOk result (all_seen out.new.items ≡ all_seen out.old.items ++ rules.expr_uses times (expr e.now)) }
{
    match e {
        Expression::Chain { first, links } => {
            in_expression(out, times, first)?;
            in_links(out, times, links)
        }
        Expression::Number { .. }
        | Expression::Char { .. }
        | Expression::Text { .. }
        | Expression::Truth { .. } => Ok(()),
        Expression::Not { operand, .. } => in_expression(out, times, operand),
        Expression::Negative { operand, .. } => in_expression(out, times, operand),
        Expression::Parentheses { inner, .. } => in_expression(out, times, inner),
        Expression::From { source, .. } => in_path(out, times, &source.path),
        Expression::Size { of, .. } => in_expression(out, times, of),
        Expression::Ordinal { of, .. } => in_expression(out, times, of),
        Expression::Get { from } => in_path(out, times, &from.path),
        Expression::Call {
            function,
            arguments,
        } => in_arguments(out, times, function, arguments),
        Expression::Invoke {
            object,
            operation,
            arguments,
        } => in_operation(out, times, object, operation, arguments),
    }
}

// Puts the uses in the right operands of a chain behind others.
#[cycle(expressions)]
fn in_links<'p>(out: &mut Vec<Use<'p>>, times: u64, links: &'p [Link]) -> Result<(), NoMemory>
    ensures { OnOk result (all_seen out.new.items ≡ all_seen out.old.items ++ rules.links_uses times (links_shown links.now)) }
{
    'links: for link in links {
        in_expression(out, times, &link.right)?;
    }
    Ok(())
}

/// Puts the uses in the indices of a path behind others.
#[cycle(expressions)]
pub fn in_path<'p>(out: &mut Vec<Use<'p>>, times: u64, path: &'p [Selector]) -> Result<(), NoMemory>
    ensures { OnOk result (all_seen out.new.items ≡ all_seen out.old.items ++ rules.path_uses times (path_shown path.now)) }
{
    'path: for step in path {
        in_step(out, times, step)?;
    }
    Ok(())
}

// Puts the uses in the index of a step behind others.
#[cycle(expressions)]
fn in_step<'p>(out: &mut Vec<Use<'p>>, times: u64, step: &'p Selector) -> Result<(), NoMemory>
    ensures { OnOk result (all_seen out.new.items ≡ all_seen out.old.items ++ rules.step_uses times (step_shown step.now)) }
{
    match step {
        Selector::Field { .. } => Ok(()),
        Selector::Index { index, .. } => in_expression(out, times, index),
    }
}

/// Puts the uses in expressions behind others.
#[cycle(expressions)]
pub fn in_expressions<'p>(
    out: &mut Vec<Use<'p>>,
    times: u64,
    given: &'p [Expression],
) -> Result<(), NoMemory>
    ensures { OnOk result (all_seen out.new.items ≡ all_seen out.old.items ++ rules.exprs_uses times (exprs given.now)) }
{
    'given: for e in given {
        in_expression(out, times, e)?;
    }
    Ok(())
}

/// Puts the uses in the arguments of what is called or forked behind others.
#[cycle(expressions)]
pub fn in_arguments<'p>(
    out: &mut Vec<Use<'p>>,
    times: u64,
    to: &'p Name,
    given: &'p [Expression],
) -> Result<(), NoMemory>
    ensures { OnOk result (all_seen out.new.items ≡ all_seen out.old.items ++ rules.arguments_uses times to.now 0 (exprs given.now)) }
{
    'given: for (position, e) in given.iter().enumerate() {
        in_argument(out, times, to, position, e)?;
    }
    Ok(())
}

// Puts the uses of an argument behind others.
#[cycle(expressions)]
fn in_argument<'p>(
    out: &mut Vec<Use<'p>>,
    times: u64,
    to: &'p Name,
    position: usize,
    e: &'p Expression,
) -> Result<(), NoMemory>
    ensures { OnOk result (all_seen out.new.items ≡ all_seen out.old.items
        ++ (rules.passed times to.now position (expr e.now) ++ rules.expr_uses times (expr e.now))) }
{
    add_argument(out, times, to, position, e)?;
    in_expression(out, times, e)
}

/// Puts the uses in a call of an object's operation behind others.
#[cycle(expressions)]
pub fn in_operation<'p>(
    out: &mut Vec<Use<'p>>,
    times: u64,
    object: &'p Name,
    operation: &'p Name,
    given: &'p [Expression],
) -> Result<(), NoMemory>
    ensures { OnOk result (all_seen out.new.items ≡ all_seen out.old.items
        ++ rules.called times object.now operation.now ∷ rules.exprs_uses times (exprs given.now)) }
{
    add_call(out, times, object, operation)?;
    in_expressions(out, times, given)
}

/// Puts the uses in an expression that may be absent behind others.
pub fn in_any<'p>(
    out: &mut Vec<Use<'p>>,
    times: u64,
    e: &'p Option<Expression>,
) -> Result<(), NoMemory>
    ensures { OnOk result (all_seen out.new.items ≡ all_seen out.old.items ++ rules.uses_if_any times (option_map expr e.now)) }
{
    match e {
        None => Ok(()),
        Some(e) => in_expression(out, times, e),
    }
}
