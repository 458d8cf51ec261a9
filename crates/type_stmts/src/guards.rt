//! The bodies of operations, with their guards.

ghost use Rattle.std.specs.Prelude.{Bool, IfOk, flat_map, map};
ghost use Rattle.orca_syntax.specs.Shown.{body as body_shown, guard as guard_shown};
ghost use Rattle.type_rules.specs.Scopes as scopes;
ghost use Rattle.type_rules.specs.Declarations as rules;
ghost use Rattle.type_forms.specs.Finding.{FirstOf};
ghost use Rattle.type_stmts.specs.Bodies.{IsBody, guarding};

use crate::bodies::BodyScope;
use crate::statements::stmts_breach;
use crate::wanted::wants;
use orca_base::NoMemory;
use orca_tree::{Guard, OperationBody};
use std::alloc::Global;
use type_exprs::Wanted;
use type_forms::lesser;
use type_rules::Breach;

// The first breach of a guarded alternative.
fn guard_breach<'p>(
    alloc: Global,
    body: BodyScope<'_, 'p>,
    guard: &'p Guard,
) -> Result<Option<Breach>, NoMemory>
    ensures { (w : Bool → scopes.Scope) → ((g : Bool) → IsBody (guarding body.entry g) (w g)) →
        IfOk result (λ o. FirstOf o (rules.guard_breaches w (guard_shown guard.now))) }
{
    let test = body.guarded(true);
    let own = wants(alloc, test.scope, 17, Wanted::Boolean, &guard.test)?;
    let behind = stmts_breach(alloc, body.guarded(false), &guard.body)?;
    Ok(lesser(own, behind))
}

// The first breach of guarded alternatives.
fn guards_breach<'p>(
    alloc: Global,
    body: BodyScope<'_, 'p>,
    guards: &'p [Guard],
) -> Result<Option<Breach>, NoMemory>
    ensures { (w : Bool → scopes.Scope) → ((g : Bool) → IsBody (guarding body.entry g) (w g)) →
        IfOk result (λ o. FirstOf o (flat_map (rules.guard_breaches w) (map guard_shown guards.now))) }
{
    let mut first = None;
    'guards: for guard in guards {
        let own = guard_breach(alloc, body, guard)?;
        first = lesser(first, own);
    }
    Ok(first)
}

/// The first breach of an operation's body, in text order: of its guards, each in the scope of a guard, and of its statements. Whether
/// the scope that is passed is that of a guard makes no difference. The only error is want of memory.
pub fn body_breach<'p>(
    alloc: Global,
    body: BodyScope<'_, 'p>,
    operation: &'p OperationBody,
) -> Result<Option<Breach>, NoMemory>
    ensures { (w : Bool → scopes.Scope) → ((g : Bool) → IsBody (guarding body.entry g) (w g)) →
        IfOk result (λ o. FirstOf o (rules.body_breaches w (body_shown operation.now))) }
{
    match operation {
        OperationBody::Guarded { first, others } => {
            let own = guard_breach(alloc, body, first)?;
            let behind = guards_breach(alloc, body, others)?;
            Ok(lesser(own, behind))
        }
        OperationBody::Plain { statements } => {
            let plain = body.guarded(false);
            Ok(stmts_breach(alloc, plain, statements)?)
        }
    }
}
