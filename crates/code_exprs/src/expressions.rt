//! The code of expressions.

ghost use Rattle.std.specs.Prelude.{◌≡◌, OnOk, true};
ghost use Rattle.orca_syntax.specs.Shown.{expr, exprs, links as links_shown, path as path_shown, step as step_shown};
ghost use Rattle.orca_syntax.specs.Syntax as syn;
ghost use Rattle.orca_syntax.specs.Syntax.{Expr};
ghost use Rattle.type_rules.specs.Scopes.{Scope};
ghost use Rattle.code_rules.specs.Pieces as pieces;
ghost use Rattle.code_rules.specs.Phrases as rules;
ghost use Rattle.meaning_rules.specs.Calls.{modes_of};
ghost use Rattle.meaning_rules.specs.Designators.{root_type};
ghost use Rattle.code_rules.specs.Layouts.{Layout};
ghost use Rattle.code_rules.specs.Pieces.{one, seq};
ghost use Rattle.code_rules.specs.Phrases.{all_code, by_mode, expr_code, links_code, passed_code, path_code, step_code, target_code};
ghost use Rattle.code_rules.specs.Instructions as instrs;
ghost use Rattle.program_bodies.specs.Named.{callee_seen};
ghost use Rattle.emitted_code.specs.Appends.{Appends};
ghost use Rattle.code_exprs.specs.CodeSites.{IsCodeSite};
ghost use Rattle.emitted_code.specs.Views.{code_of, instr_of, prefix_of};

use crate::calls::{calling, invoking};
use crate::code_site::CodeSite;
use crate::names::{marks, reading};
use emitted_code::{Instr, Listing, Prefix};
use orca_base::{NoMemory, Text};
use orca_tree::{Designator, Expression, Link, Mode, Name, Operator, Selector};
use program_bodies::Callee;
use std::alloc::Global;
use value_core::Value;

// Whether an operator may leave its right operand out.
fn is_short(operator: Operator) -> bool
    ensures { result ≡ pieces.is_short operator }
{
    matches!(operator, Operator::Or | Operator::And)
}

// A text that stands in the program.
fn emit_text(alloc: Global, text: &Text, out: &mut Listing<'_>) -> Result<(), NoMemory>
    ensures { OnOk result (Appends (one (instrs.Text text.now)) (code_of out.old) (code_of out.new)) }
{
    let text = text.copy(alloc)?;
    out.put(Instr::Text { text })
}

/// The code of an expression.
///
/// # Errors
/// Want of memory.
#[cycle(emission)]
pub fn emit_expression(
    alloc: Global,
    here: CodeSite<'_, '_>,
    e: &Expression,
    out: &mut Listing<'_>,
) -> Result<(), NoMemory>
    ensures { (w : Scope) (l : Layout) → IsCodeSite here.entry w l →
        OnOk result (Appends (expr_code w l (expr e.now)) (code_of out.old) (code_of out.new)) }
{
    match e {
        Expression::Chain { first, links } => {
            emit_expression(alloc, here, first, out)?;
            emit_links(alloc, here, links, out)
        }
        Expression::Number { value, .. } => out.put(Instr::Push {
            value: Value::Int(*value),
        }),
        Expression::Char { code, .. } => out.put(Instr::Push {
            value: Value::Char(*code),
        }),
        Expression::Truth { value, .. } => out.put(Instr::Push {
            value: Value::Truth(*value),
        }),
        Expression::Not { operand, .. } => prefix(alloc, here, Prefix::Not, operand, out),
        Expression::Negative { operand, .. } => prefix(alloc, here, Prefix::Neg, operand, out),
        Expression::Parentheses { inner, .. } => emit_expression(alloc, here, inner, out),
        Expression::Size { of, .. } => prefix(alloc, here, Prefix::Size, of, out),
        Expression::Ordinal { of, .. } => prefix(alloc, here, Prefix::Ord, of, out),
        Expression::Get { from } => read(alloc, here, from, out),
        Expression::From { source, .. } => take(alloc, here, source, out),
        Expression::Text { text, .. } => emit_text(alloc, text, out),
        Expression::Call {
            function,
            arguments,
        } => emit_call(alloc, here, function, arguments, out),
        Expression::Invoke {
            object,
            operation,
            arguments,
        } => emit_request(alloc, here, object, operation, arguments, out),
    }
}

// What stands before one operand.
#[cycle(emission)]
fn prefix(
    alloc: Global,
    here: CodeSite<'_, '_>,
    prefix: Prefix,
    operand: &Expression,
    out: &mut Listing<'_>,
) -> Result<(), NoMemory>
    ensures { (w : Scope) (l : Layout) → IsCodeSite here.entry w l →
        OnOk result (Appends (seq (expr_code w l (expr operand.now)) (one (instrs.Before (prefix_of prefix)))) (code_of out.old) (code_of out.new)) }
{
    emit_expression(alloc, here, operand, out)?;
    out.put(Instr::Before { prefix })
}

// Operators behind a left operand.
#[cycle(emission)]
fn emit_links(
    alloc: Global,
    here: CodeSite<'_, '_>,
    links: &[Link],
    out: &mut Listing<'_>,
) -> Result<(), NoMemory>
    ensures { (w : Scope) (l : Layout) → IsCodeSite here.entry w l →
        OnOk result (Appends (links_code w l (links_shown links.now)) (code_of out.old) (code_of out.new)) }
{
    'links: for one in links {
        emit_link(alloc, here, one, out)?;
    }
    Ok(())
}

// An operator behind its left operand.
#[cycle(emission)]
fn emit_link(
    alloc: Global,
    here: CodeSite<'_, '_>,
    link: &Link,
    out: &mut Listing<'_>,
) -> Result<(), NoMemory>
    ensures { (w : Scope) (l : Layout) → IsCodeSite here.entry w l →
        OnOk result (Appends (pieces.link_piece (pieces.is_short link.now.operator) link.now.operator (expr_code w l (expr link.now.right)))
        (code_of out.old) (code_of out.new)) }
{
    if is_short(link.operator) {
        return short(alloc, here, link.operator, &link.right, out);
    }
    emit_expression(alloc, here, &link.right, out)?;
    out.put(Instr::Apply {
        operator: link.operator,
    })
}

// The instruction of `or` or `and`, to an address where the left operand decides.
fn short_instr<'i>(operator: Operator, to: usize) -> Instr<'i>
    ensures { instr_of result ≡ pieces.short_instr operator to }
{
    match operator {
        Operator::Or => Instr::Or { to },
        _ => Instr::And { to },
    }
}

// `or` and `and`, which may leave their right operand out.
#[cycle(emission)]
fn short(
    alloc: Global,
    here: CodeSite<'_, '_>,
    operator: Operator,
    right: &Expression,
    out: &mut Listing<'_>,
) -> Result<(), NoMemory>
    ensures { (w : Scope) (l : Layout) → IsCodeSite here.entry w l →
        OnOk result (Appends (pieces.link_piece true operator (expr_code w l (expr right.now))) (code_of out.old) (code_of out.new)) }
{
    let at = out.len();
    let hole = short_instr(operator, 0);
    out.put(hole)?;
    emit_expression(alloc, here, right, out)?;
    let to = out.len();
    let mended = short_instr(operator, to);
    out.fix(at, mended);
    Ok(())
}

// The value of a designator.
#[cycle(emission)]
fn read(
    alloc: Global,
    here: CodeSite<'_, '_>,
    from: &Designator,
    out: &mut Listing<'_>,
) -> Result<(), NoMemory>
    ensures { (w : Scope) (l : Layout) → IsCodeSite here.entry w l →
        OnOk result (Appends (expr_code w l (syn.Get from.now.name (path_shown from.now.path.items))) (code_of out.old) (code_of out.new)) }
{
    emit_path(alloc, here, &from.path, out)?;
    let path = marks(alloc, here.site, here.site.root(&from.name), &from.path)?;
    out.put(reading(here, &from.name, path))
}

// `from`: the least element of a set or bag.
#[cycle(emission)]
fn take(
    alloc: Global,
    here: CodeSite<'_, '_>,
    source: &Designator,
    out: &mut Listing<'_>,
) -> Result<(), NoMemory>
    ensures { (w : Scope) (l : Layout) → IsCodeSite here.entry w l →
        OnOk result (Appends (seq (path_code w l (path_shown source.now.path.items))
        (one (instrs.Least (rules.at_slot w l source.now.name) (rules.marks w (root_type w source.now.name) (path_shown source.now.path.items)))))
        (code_of out.old) (code_of out.new)) }
{
    emit_path(alloc, here, &source.path, out)?;
    let path = marks(alloc, here.site, here.site.root(&source.name), &source.path)?;
    out.put(Instr::Least {
        slot: here.slot(&source.name),
        path,
    })
}

/// The code of the indices of a path.
///
/// # Errors
/// Want of memory.
#[cycle(emission)]
pub fn emit_path(
    alloc: Global,
    here: CodeSite<'_, '_>,
    path: &[Selector],
    out: &mut Listing<'_>,
) -> Result<(), NoMemory>
    ensures { (w : Scope) (l : Layout) → IsCodeSite here.entry w l →
        OnOk result (Appends (path_code w l (path_shown path.now)) (code_of out.old) (code_of out.new)) }
{
    'path: for step in path {
        emit_step(alloc, here, step, out)?;
    }
    Ok(())
}

// The code of the index of a step, if it has one.
#[cycle(emission)]
fn emit_step(
    alloc: Global,
    here: CodeSite<'_, '_>,
    step: &Selector,
    out: &mut Listing<'_>,
) -> Result<(), NoMemory>
    ensures { (w : Scope) (l : Layout) → IsCodeSite here.entry w l →
        OnOk result (Appends (step_code w l (step_shown step.now)) (code_of out.old) (code_of out.new)) }
{
    match step {
        Selector::Field { .. } => Ok(()),
        Selector::Index { index, .. } => emit_expression(alloc, here, index, out),
    }
}

/// The code of expressions in a row.
///
/// # Errors
/// Want of memory.
#[cycle(emission)]
pub fn emit_all(
    alloc: Global,
    here: CodeSite<'_, '_>,
    given: &[Expression],
    out: &mut Listing<'_>,
) -> Result<(), NoMemory>
    ensures { (w : Scope) (l : Layout) → IsCodeSite here.entry w l →
        OnOk result (Appends (all_code w l (exprs given.now)) (code_of out.old) (code_of out.new)) }
{
    'given: for e in given {
        emit_expression(alloc, here, e, out)?;
    }
    Ok(())
}

// The code of arguments, each as the parameter at its place says.
#[cycle(emission)]
fn emit_passed(
    alloc: Global,
    here: CodeSite<'_, '_>,
    is: Callee<'_>,
    given: &[Expression],
    out: &mut Listing<'_>,
) -> Result<(), NoMemory>
    ensures { (w : Scope) (l : Layout) → IsCodeSite here.entry w l →
        OnOk result (Appends (passed_code w l (modes_of (callee_seen is.entry)) (exprs given.now)) (code_of out.old) (code_of out.new)) }
{
    'given: for (place, e) in given.iter().enumerate() {
        emit_one(alloc, here, is.mode(place), e, out)?;
    }
    Ok(())
}

// The code of an argument.
#[cycle(emission)]
fn emit_one(
    alloc: Global,
    here: CodeSite<'_, '_>,
    mode: Mode,
    e: &Expression,
    out: &mut Listing<'_>,
) -> Result<(), NoMemory>
    ensures { (w : Scope) (l : Layout) → IsCodeSite here.entry w l →
        OnOk result (Appends (by_mode mode (expr_code w l (expr e.now)) (target_code w l (expr e.now))) (code_of out.old) (code_of out.new)) }
{
    match mode {
        Mode::Out => emit_target(alloc, here, e, out),
        Mode::Value | Mode::Shared => emit_expression(alloc, here, e, out),
    }
}

// The code of the indices of the target that an argument for `out` lends.
#[cycle(emission)]
fn emit_target(
    alloc: Global,
    here: CodeSite<'_, '_>,
    e: &Expression,
    out: &mut Listing<'_>,
) -> Result<(), NoMemory>
    ensures { (w : Scope) (l : Layout) → IsCodeSite here.entry w l →
        OnOk result (Appends (target_code w l (expr e.now)) (code_of out.old) (code_of out.new)) }
{
    match e {
        Expression::Get { from } => emit_path(alloc, here, &from.path, out),
        _ => Ok(()),
    }
}

/// The code of a call of a function, which leaves its value: 0 where it gives none.
///
/// # Errors
/// Want of memory.
#[cycle(emission)]
pub fn emit_call(
    alloc: Global,
    here: CodeSite<'_, '_>,
    function: &Name,
    given: &[Expression],
    out: &mut Listing<'_>,
) -> Result<(), NoMemory>
    ensures { (w : Scope) (l : Layout) → IsCodeSite here.entry w l →
        OnOk result (Appends (expr_code w l (Expr.Call function.now (exprs given.now))) (code_of out.old) (code_of out.new)) }
{
    let is = here.site.callee(function);
    emit_passed(alloc, here, is, given, out)?;
    let call = calling(alloc, here, is, given)?;
    out.put(call)
}

/// The code of a call of an object's operation, which leaves its value: 0 where it gives none.
///
/// # Errors
/// Want of memory.
#[cycle(emission)]
pub fn emit_request(
    alloc: Global,
    here: CodeSite<'_, '_>,
    object: &Name,
    operation: &Name,
    given: &[Expression],
    out: &mut Listing<'_>,
) -> Result<(), NoMemory>
    ensures { (w : Scope) (l : Layout) → IsCodeSite here.entry w l →
        OnOk result (Appends (expr_code w l (Expr.Invoke object.now operation.now (exprs given.now))) (code_of out.old) (code_of out.new)) }
{
    emit_all(alloc, here, given, out)?;
    out.put(invoking(here, object, operation, given.len()))
}
