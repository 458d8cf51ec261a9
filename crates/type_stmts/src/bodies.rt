//! Where statements stand.

ghost use Rattle.std.specs.Prelude.{◌≡◌, ◌&&◌, ◌||◌, ℕ, List, IfOk, IsTrue, bytes_eq, not};
ghost use Rattle.orca_tree.specs.declared.tree.Name.{Name as NameTree};
ghost use Rattle.type_rules.specs.TopLevel.{sees};
ghost use Rattle.type_rules.specs.Scopes as scopes;
ghost use Rattle.type_rules.specs.Statements as rules;
ghost use Rattle.type_forms.specs.Finding.{FirstOf};
ghost use Rattle.type_exprs.specs.Scoped.{IsScope, counts as counts_in, lent_local};
ghost use Rattle.type_stmts.specs.Bodies.{IsBody, fields_last, guarding, is_own_local, is_field_local};

use orca_base::NoMemory;
use orca_tree::Name;
use std::alloc::Global;
use type_exprs::{Local, Scope};
use type_forms::{asks, lesser};
use type_rules::{Breach, DataType, LocalRole};

/// Where a statement stands: the scope of its expressions, and the result of its body, if that has one, with its type, where that is
/// known.
#[derive(Clone, Copy)]
pub struct BodyScope<'a, 'p> {
    pub scope: Scope<'a, 'p>,
    pub gives: &'a Option<Option<DataType>>,
}

impl<'a, 'p> BodyScope<'a, 'p> {
    /// The same in one more loop, among these variables of the open loops.
    pub fn in_loops(self, loops: &'a [&'p str]) -> BodyScope<'a, 'p>
        ensures { (w : scopes.Scope) → IsBody self.entry w → (n : NameTree) →
            ((m : List ℕ) → counts_in loops.now m ≡ (counts_in self.entry.scope.loops.now m || bytes_eq n.text m)) →
            IsBody result (rules.with_loop w n) }
    {
        BodyScope {
            scope: Scope {
                loops,
                ..self.scope
            },
            gives: self.gives,
        }
    }

    /// The same in a guard, or behind one.
    pub fn guarded(self, in_guard: bool) -> BodyScope<'a, 'p>
        ensures { result ≡ guarding self.entry in_guard }
    {
        BodyScope {
            scope: Scope {
                in_guard,
                ..self.scope
            },
            gives: self.gives,
        }
    }
}

/// The variables of the open loops, with that of one more.
pub fn inner_loops<'p>(
    alloc: Global,
    loops: &[&'p str],
    name: &'p str,
) -> Result<Vec<&'p str>, NoMemory>
    ensures { IfOk result (λ v. (m : List ℕ) → counts_in v.items m ≡ (counts_in loops.now m || bytes_eq name.now m)) }
{
    let mut inner = Vec::from_slice(alloc, loops)?;
    inner.push(name)?;
    Ok(inner)
}

// Whether this is a name of the body, and no field of its object.
fn is_own(local: Option<&Local>) -> bool
    ensures { (n : List ℕ) → result ≡ is_own_local (lent_local n local.entry) }
{
    match local {
        None => false,
        Some(local) => !matches!(local.role, LocalRole::ObjectField),
    }
}

// Whether this is a field of the body's object.
fn is_field(local: Option<&Local>) -> bool
    ensures { (n : List ℕ) → result ≡ is_field_local (lent_local n local.entry) }
{
    match local {
        None => false,
        Some(local) => matches!(local.role, LocalRole::ObjectField),
    }
}

// Whether neither a declaration that the module sees bears this name, nor a field.
fn is_free(scope: Scope<'_, '_>, name: &str, local: Option<&Local>) -> bool
    ensures { (w : scopes.Scope) → IsScope scope.entry w →
        result ≡ (not (sees w.program w.home name.now) && not (is_field_local (lent_local name.now local.entry))) }
{
    !scope.tables.forms.index.sees(scope.home, name) && !is_field(local)
}

/// The first rule that the variable of a loop breaks by its name.
pub fn counts(scope: Scope<'_, '_>, name: &Name) -> Option<Breach>
    ensures { (w : scopes.Scope) → IsScope scope.entry w → IsTrue (fields_last w.locals) →
        FirstOf result (rules.counts w name.now) }
{
    let local = scope.local(name.text.as_str());
    lesser(
        asks(3, name.at, !is_own(local)),
        asks(4, name.at, is_free(scope, name.text.as_str(), local)),
    )
}
