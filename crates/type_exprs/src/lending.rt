//! Arguments for parameters.

ghost use Rattle.std.specs.Prelude.{◌≡◌, ◌++◌, ◌&&◌, ℕ, List, IfOk, OnOk};
ghost use Rattle.orca_syntax.specs.Shown.{expr, exprs, path as path_shown};
ghost use Rattle.orca_syntax.specs.Syntax.{Get};
ghost use Rattle.type_rules.specs.Rules.{fits};
ghost use Rattle.type_rules.specs.Types.{is_graph as is_graph_type};
ghost use Rattle.type_rules.specs.Scopes as scopes;
ghost use Rattle.type_rules.specs.Expressions as rules;
ghost use Rattle.type_forms.specs.Finding.{FirstOf};
ghost use Rattle.type_forms.specs.Seen.{lent};
ghost use Rattle.type_exprs.specs.Scoped.{IsScope, at_place, lent_local, one_lent};

use crate::kinds::{Wanted, agree, may_be_of_object, meets};
use crate::places::place_of;
use crate::scope::{Local, Scope, may_be_object, may_write};
use orca_base::NoMemory;
use orca_tree::{Expression, Name, Selector};
use std::alloc::Global;
use type_forms::{asks, each_new, lesser};
use type_rules::{Breach, DataType, Formal};

// Whether a name of a body may be written.
fn is_written(local: Option<&Local>) -> bool
    ensures { (n : List ℕ) → result ≡ rules.is_written (lent_local n local.entry) }
{
    match local {
        None => false,
        Some(local) => may_write(local),
    }
}

// Whether an argument is a designator that may be written.
#[tactic(auto, using(orca_syntax::proofs::ShownLaws::phrases))]
fn may_be_written(scope: Scope<'_, '_>, e: &Expression) -> bool
    ensures { (w : scopes.Scope) → IsScope scope.entry w → result ≡ rules.may_be_written w (expr e.now) }
{
    match e {
        Expression::Get { from } => is_written(scope.local(from.name.text.as_str())),
        _ => false,
    }
}

// Whether a name of a body is that of an object.
fn has_object(local: Option<&Local>) -> bool
    ensures { (n : List ℕ) → result ≡ rules.has_object (lent_local n local.entry) }
{
    match local {
        None => false,
        Some(local) => may_be_object(local.role) && may_be_of_object(&local.kind),
    }
}

// Whether an argument is a designator of a graph that may be written.
fn is_graph(scope: Scope<'_, '_>, e: &Expression, kind: &Option<DataType>) -> bool
    ensures { (w : scopes.Scope) → IsScope scope.entry w →
        result ≡ (rules.may_be_written w (expr e.now) && fits is_graph_type kind.now) }
{
    may_be_written(scope, e) && meets(Wanted::Graph, kind)
}

// Whether a designator is the name of an object.
fn is_object(scope: Scope<'_, '_>, name: &Name, path: &[Selector]) -> bool
    ensures { (w : scopes.Scope) → IsScope scope.entry w →
        result ≡ rules.has_object (rules.named_here w (Get name.now (path_shown path.now))) }
{
    if !path.is_empty() {
        return false;
    }
    has_object(scope.local(name.text.as_str()))
}

// Whether an argument is the name of an object.
#[tactic(auto, using(orca_syntax::proofs::ShownLaws::phrases))]
fn names_object(scope: Scope<'_, '_>, e: &Expression) -> bool
    ensures { (w : scopes.Scope) → IsScope scope.entry w → result ≡ rules.has_object (rules.named_here w (expr e.now)) }
{
    match e {
        Expression::Get { from } => is_object(scope, &from.name, &from.path),
        _ => false,
    }
}

/// The first rule that an argument breaks for its parameter, by its type, where that is known.
pub fn suits(
    scope: Scope<'_, '_>,
    formal: &Formal,
    e: &Expression,
    kind: &Option<DataType>,
) -> Option<Breach>
    ensures { (w : scopes.Scope) → IsScope scope.entry w → FirstOf result (rules.suits w formal.now (expr e.now) kind.now) }
{
    let at = place_of(e);
    match formal {
        Formal::ByValue { kind: wanted } => asks(30, at, agree(wanted, kind)),
        Formal::Shared { kind: wanted } => lesser(
            asks(30, at, agree(wanted, kind)),
            asks(31, at, names_object(scope, e)),
        ),
        Formal::Out { kind: wanted } => lesser(
            asks(30, at, agree(wanted, kind)),
            asks(32, at, may_be_written(scope, e)),
        ),
        Formal::SomeGraph => asks(41, at, is_graph(scope, e, kind)),
        Formal::NodeOf => asks(41, at, meets(Wanted::NodeName, kind)),
    }
}

// The root of a designator.
#[tactic(auto, using(orca_syntax::proofs::ShownLaws::phrases))]
fn root_in(e: &Expression) -> Option<&Name>
    ensures { one_lent result ≡ rules.root_in (expr e.now) }
{
    match e {
        Expression::Get { from } => Some(&from.name),
        _ => None,
    }
}

// The root of an argument, where its parameter is for `out`.
fn lent_root<'p>(formals: &[Formal], place: usize, e: &'p Expression) -> Option<&'p Name>
    ensures { one_lent result ≡ rules.lent_root (at_place formals.now place) (expr e.now) }
{
    match formals.get(place) {
        Some(Formal::Out { .. }) => root_in(e),
        _ => None,
    }
}

// Puts a name behind others, where there is one.
fn add<'p>(names: &mut Vec<&'p Name>, name: Option<&'p Name>) -> Result<(), NoMemory>
    ensures { OnOk result (lent names.new.items ≡ lent names.old.items ++ one_lent name.entry) }
{
    match name {
        None => Ok(()),
        Some(name) => {
            names.push(name)?;
            Ok(())
        }
    }
}

// The roots of the arguments for `out`.
fn lent_roots<'p>(
    alloc: Global,
    formals: &[Formal],
    given: &'p [Expression],
) -> Result<Vec<&'p Name>, NoMemory>
    ensures { IfOk result (λ v. lent v.items ≡ rules.lent_roots formals.now (exprs given.now)) }
{
    let mut names = Vec::new(alloc);
    'given: for (place, e) in given.iter().enumerate() {
        let root = lent_root(formals, place, e);
        add(&mut names, root)?;
    }
    Ok(names)
}

/// The first of the arguments for `out` whose root is that of one in front.
pub fn roots_differ(
    alloc: Global,
    formals: &[Formal],
    given: &[Expression],
) -> Result<Option<Breach>, NoMemory>
    ensures { IfOk result (λ o. FirstOf o (rules.roots_differ formals.now (exprs given.now))) }
{
    let names = lent_roots(alloc, formals, given)?;
    Ok(each_new(alloc, 32, &names)?)
}
