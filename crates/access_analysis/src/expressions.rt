//! Whether expressions change a field of the object.

ghost use Rattle.std.specs.Prelude.{◌≡◌, ◌||◌, drop, option_map};
ghost use Rattle.orca_syntax.specs.Shown.{expr, exprs, links as links_shown, path as path_shown, step as step_shown};
ghost use Rattle.type_rules.specs.Scopes as scopes;
ghost use Rattle.meaning_rules.specs.Calls.{first_mode, modes_of};
ghost use Rattle.meaning_rules.specs.Classes as rules;
ghost use Rattle.program_bodies.specs.Named.{callee_seen};
ghost use Rattle.access_analysis.specs.Sites.{IsSite};

use crate::site::Site;
use orca_tree::{Designator, Expression, Link, Selector};
use program_bodies::Callee;

/// Whether an expression changes a field: whether that is the root of a `from` in it, or of an argument for `out`.
#[cycle(expressions)]
pub fn changes(site: Site<'_, '_>, e: &Expression) -> bool
    ensures { (w : scopes.Scope) → IsSite site.entry w → result ≡ rules.changes w (expr e.now) }
{
    match e {
        Expression::Chain { first, links } => {
            let own = changes(site, first);
            let behind = links_change(site, links);
            own || behind
        }
        Expression::Number { .. }
        | Expression::Char { .. }
        | Expression::Text { .. }
        | Expression::Truth { .. } => false,
        Expression::Not { operand, .. } => changes(site, operand),
        Expression::Negative { operand, .. } => changes(site, operand),
        Expression::Parentheses { inner, .. } => changes(site, inner),
        Expression::From { source, .. } => root_changes(site, source),
        Expression::Size { of, .. } => changes(site, of),
        Expression::Ordinal { of, .. } => changes(site, of),
        Expression::Get { from } => path_changes(site, &from.path),
        Expression::Call {
            function,
            arguments,
        } => arguments_change(site, site.callee(function), arguments),
        Expression::Invoke { arguments, .. } => {
            arguments_change(site, Callee::NoFunction, arguments)
        }
    }
}

// Whether a right operand of a chain changes a field.
#[cycle(expressions)]
fn links_change(site: Site<'_, '_>, links: &[Link]) -> bool
    ensures { (w : scopes.Scope) → IsSite site.entry w → result ≡ rules.links_change w (links_shown links.now) }
{
    'links: for link in links {
        if changes(site, &link.right) {
            return true;
        }
    }
    false
}

/// Whether a designator changes a field, where its root is changed.
#[cycle(expressions)]
pub fn root_changes(site: Site<'_, '_>, of: &Designator) -> bool
    ensures { (w : scopes.Scope) → IsSite site.entry w →
        result ≡ (rules.names_field w of.now.name || rules.path_changes w (path_shown of.now.path.items)) }
{
    let own = site.is_field(&of.name);
    let inside = path_changes(site, &of.path);
    own || inside
}

// Whether an index of a path changes a field.
#[cycle(expressions)]
fn path_changes(site: Site<'_, '_>, path: &[Selector]) -> bool
    ensures { (w : scopes.Scope) → IsSite site.entry w → result ≡ rules.path_changes w (path_shown path.now) }
{
    'path: for step in path {
        if step_changes(site, step) {
            return true;
        }
    }
    false
}

// Whether the index of a step changes a field.
#[cycle(expressions)]
fn step_changes(site: Site<'_, '_>, step: &Selector) -> bool
    ensures { (w : scopes.Scope) → IsSite site.entry w → result ≡ rules.step_changes w (step_shown step.now) }
{
    match step {
        Selector::Field { .. } => false,
        Selector::Index { index, .. } => changes(site, index),
    }
}

// Whether an argument changes a field, or lends one for this mode.
#[cycle(expressions)]
fn argument_changes(site: Site<'_, '_>, callee: Callee<'_>, place: usize, e: &Expression) -> bool
    ensures { (w : scopes.Scope) → IsSite site.entry w →
        result ≡ (rules.lends_field w (first_mode (drop place (modes_of (callee_seen callee.entry)))) (expr e.now)
        || rules.changes w (expr e.now)) }
{
    let lent = site.lends(callee.mode(place), e);
    let own = changes(site, e);
    lent || own
}

/// Whether the arguments for what is called change a field.
#[cycle(expressions)]
pub fn arguments_change(site: Site<'_, '_>, callee: Callee<'_>, given: &[Expression]) -> bool
    ensures { (w : scopes.Scope) → IsSite site.entry w →
        result ≡ rules.arguments_change w (modes_of (callee_seen callee.entry)) (exprs given.now) }
{
    'given: for (place, e) in given.iter().enumerate() {
        if argument_changes(site, callee, place, e) {
            return true;
        }
    }
    false
}

/// Whether an expression that may be absent changes a field.
pub fn changes_if_any(site: Site<'_, '_>, e: &Option<Expression>) -> bool
    ensures { (w : scopes.Scope) → IsSite site.entry w → result ≡ rules.changes_if_any w (option_map expr e.now) }
{
    match e {
        None => false,
        Some(e) => changes(site, e),
    }
}
