//! Whether bodies of operations change a field of the object, and their classes.

ghost use Rattle.std.specs.Prelude.{◌≡◌, ◌||◌, List, map};
ghost use Rattle.std.specs.List.{list_any};
ghost use Rattle.orca_syntax.specs.Shown.{body as body_shown, expr, guard as guard_shown, operation as operation_shown, stmts};
ghost use Rattle.link_rules.specs.Units.{Source};
ghost use Rattle.type_rules.specs.Scopes as scopes;
ghost use Rattle.type_forms.specs.Indexed.{Indexes};
ghost use Rattle.meaning_rules.specs.Classes as rules;
ghost use Rattle.program_bodies.specs.Objects.{object_type_seen};
ghost use Rattle.access_analysis.specs.Sites.{IsSite};

use crate::expressions::changes;
use crate::loops::Loops;
use crate::site::Site;
use crate::statements::stmts_change;
use orca_tree::{Guard, Operation, OperationBody};
use program_bodies::Implemented;
use type_forms::Index;
use value_core::Class;

// Whether a guarded alternative changes a field.
fn guard_changes(site: Site<'_, '_>, guard: &Guard) -> bool
    ensures { (w : scopes.Scope) → IsSite site.entry w →
        result ≡ (rules.changes w (expr guard.now.test) || rules.stmts_change w (stmts guard.now.body.items)) }
{
    let test = changes(site, &guard.test);
    let inside = stmts_change(site, &guard.body);
    test || inside
}

// Whether one of these guarded alternatives changes a field.
fn guards_change(site: Site<'_, '_>, guards: &[Guard]) -> bool
    ensures { (w : scopes.Scope) → IsSite site.entry w →
        result ≡ list_any (λ g. rules.changes w g.test || rules.stmts_change w g.body) (map guard_shown guards.now) }
{
    'guards: for guard in guards {
        if guard_changes(site, guard) {
            return true;
        }
    }
    false
}

// Whether the body of an operation changes a field.
fn body_changes(site: Site<'_, '_>, body: &OperationBody) -> bool
    ensures { (w : scopes.Scope) → IsSite site.entry w → result ≡ rules.body_changes w (body_shown body.now) }
{
    match body {
        OperationBody::Guarded { first, others } => {
            let own = guard_changes(site, first);
            let behind = guards_change(site, others);
            own || behind
        }
        OperationBody::Plain { statements } => stmts_change(site, statements),
    }
}

/// The class of an operation of an implementation.
pub fn operation_class(index: &Index<'_>, of: Implemented<'_>, operation: &Operation) -> Class
    ensures { (us : List Source) → Indexes index.now us →
        result ≡ rules.operation_class us (object_type_seen of.entry) (operation_shown operation.now) }
{
    let outside = Loops::Outside;
    let site = Site::new(index, of, operation, &outside);
    if body_changes(site, &operation.body) {
        Class::Writes
    } else {
        Class::Reads
    }
}
