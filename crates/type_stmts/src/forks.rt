//! The rules of `fork`.

ghost use Rattle.std.specs.Prelude.{◌≡◌, Some, IfOk, option_map, slice_get};
ghost use Rattle.orca_syntax.specs.Shown.{expr, exprs};
ghost use Rattle.orca_syntax.specs.Syntax.{Fork};
ghost use Rattle.type_rules.specs.TopLevel.{top_names};
ghost use Rattle.type_rules.specs.Scopes as scopes;
ghost use Rattle.type_rules.specs.Statements as rules;
ghost use Rattle.type_forms.specs.Finding.{FirstOf};
ghost use Rattle.type_forms.specs.Indexed.{IsInside, standing};
ghost use Rattle.type_forms.specs.Seen.{top, what};
ghost use Rattle.type_exprs.specs.Scoped.{IsScope, lent_local};
ghost use Rattle.type_stmts.specs.Forked.{forked_as};

use crate::wanted::wants_if_any;
use orca_base::{NoMemory, Place};
use orca_tree::{Expression, Name};
use std::alloc::Global;
use type_exprs::{
    Local, Scope, Use, Wanted, arguments, called_well, is_plain, outer, roots_differ,
};
use type_forms::{Standing, Top, What, asks, breaks, lesser};
use type_rules::{Breach, Formal, Owner, Signature};

/// What is behind `fork`.
#[derive(Clone, Copy)]
pub enum ProcessCallee<'a> {
    Unknown,
    NoProcess,
    AProcess { signature: &'a Signature },
}

// What is forked by a name of the top level.
fn top_process<'a>(scope: Scope<'a, '_>, number: usize, item: Top<'_>) -> ProcessCallee<'a>
    ensures { (w : scopes.Scope) → IsScope scope.entry w → slice_get (top_names w.program) number ≡ Some (top item.entry) →
        forked_as result ≡ rules.top_process w (top item.entry) (what item.entry.what) }
{
    match item.what {
        What::Process { .. } => match scope.tables.signature(number) {
            None => ProcessCallee::NoProcess,
            Some(signature) => ProcessCallee::AProcess { signature },
        },
        _ => ProcessCallee::NoProcess,
    }
}

// What is forked by a name that is none of the body's.
fn outer_process<'a>(scope: Scope<'a, '_>, is: Standing<'_>) -> ProcessCallee<'a>
    ensures { (w : scopes.Scope) → IsScope scope.entry w → IsInside w.program is.entry →
        forked_as result ≡ rules.outer_process w (standing is.entry) }
{
    match is {
        Standing::Nothing => ProcessCallee::Unknown,
        Standing::Top { number, item } => top_process(scope, number, item),
        Standing::Everywhere { .. } => ProcessCallee::NoProcess,
    }
}

// What is forked by a name, where this is what it is of the body.
fn process_of<'a>(scope: Scope<'a, '_>, name: &Name, local: Option<&Local>) -> ProcessCallee<'a>
    ensures { (w : scopes.Scope) → IsScope scope.entry w →
        forked_as result ≡ rules.process_of w name.now (lent_local name.now.text local.entry) }
{
    match local {
        None => outer_process(scope, outer(scope, name.text.as_str())),
        Some(_) => ProcessCallee::NoProcess,
    }
}

// What is forked by a name.
fn forked<'a>(scope: Scope<'a, '_>, name: &Name) -> ProcessCallee<'a>
    ensures { (w : scopes.Scope) → IsScope scope.entry w → forked_as result ≡ rules.forked w name.now }
{
    let local = scope.local(name.text.as_str());
    process_of(scope, name, local)
}

// The first rule that `fork` breaks by its name and the number of its arguments.
fn fork_rules(name: &Name, given: &[Expression], is: ProcessCallee<'_>) -> Option<Breach>
    ensures { FirstOf result (rules.fork_rules name.now (exprs given.now) (forked_as is.entry)) }
{
    match is {
        ProcessCallee::Unknown => breaks(2, name.at),
        ProcessCallee::NoProcess => breaks(24, name.at),
        ProcessCallee::AProcess { signature } => {
            called_well(Use::AsStatement, name.at, name, signature, given)
        }
    }
}

// The parameters of what is forked.
fn forked_formals(is: ProcessCallee<'_>) -> &[Formal]
    ensures { result.now ≡ (rules.forked_signature (forked_as is.entry)).formals }
{
    match is {
        ProcessCallee::AProcess { signature } => signature.formals.as_slice(),
        _ => &[],
    }
}

// Whether a body is of a process.
fn may_fork(owner: Owner) -> bool
    ensures { result ≡ scopes.may_fork owner }
{
    matches!(owner, Owner::Process)
}

// The first rule that `fork` breaks by where it stands.
fn forks(scope: Scope<'_, '_>, at: Place) -> Option<Breach>
    ensures { (w : scopes.Scope) → IsScope scope.entry w → FirstOf result (rules.forks w at) }
{
    lesser(
        asks(1, at, is_plain(scope.owner)),
        asks(14, at, may_fork(scope.owner)),
    )
}

/// The first breach of `fork`.
pub fn fork_breach(
    alloc: Global,
    scope: Scope<'_, '_>,
    at: Place,
    name: &Name,
    given: &[Expression],
    on: &Option<Expression>,
) -> Result<Option<Breach>, NoMemory>
    ensures { (w : scopes.Scope) → IsScope scope.entry w → IfOk result (λ o. FirstOf o
        (rules.stmt_breaches w (Fork at name.now (exprs given.now) (option_map expr on.now)))) }
{
    let is = forked(scope, name);
    let inside = arguments(alloc, scope, forked_formals(is), given)?;
    let again = roots_differ(alloc, forked_formals(is), given)?;
    let member = wants_if_any(alloc, scope, 25, Wanted::Integer, on)?;
    let behind = lesser(inside, lesser(again, member));
    let own = fork_rules(name, given, is);
    Ok(lesser(forks(scope, at), lesser(own, behind)))
}
