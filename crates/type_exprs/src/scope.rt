//! Where code stands.

ghost use Rattle.std.specs.Prelude.{◌≡◌, ℕ, List};
ghost use Rattle.type_rules.specs.Expressions.{may_write as rule_may_write};
ghost use Rattle.type_rules.specs.Scopes.{is_plain as rule_is_plain, may_be_object as rule_may_be_object, may_invoke as rule_may_invoke};
ghost use Rattle.type_exprs.specs.Scoped.{counts, lent_local, local_as, local_in};

use crate::kinds::is_data;
use std::collections::BTreeMap;
use type_rules::{DataType, LocalRole, Owner};
use type_tables::Tables;

/// A name of a body, or a field of its object: what it is, and its type, where that is known.
#[derive(Drop)]
pub struct Local {
    pub role: LocalRole,
    pub kind: Option<DataType>,
}

/// Where an expression or a statement stands: in which program and module, among which names of a body and in which open loops, of which
/// body, and whether it is a guard. `counter` is what the variable of a loop is.
#[derive(Clone, Copy)]
pub struct Scope<'a, 'p> {
    pub tables: Tables<'a, 'p>,
    pub home: &'a str,
    pub names: &'a BTreeMap<&'p str, Local>,
    pub loops: &'a [&'p str],
    pub counter: &'a Local,
    pub owner: Owner,
    pub in_guard: bool,
}

// Whether a name is among those of loops.
fn is_counting(loops: &[&str], name: &str) -> bool
    ensures { result ≡ counts loops.now name.now }
{
    'loops: for own in loops {
        if *own == name {
            return true;
        }
    }
    false
}

impl<'a, 'p> Scope<'a, 'p> {
    /// What a name is of the body.
    pub fn local(self, name: &str) -> Option<&'a Local>
        ensures { lent_local name.now result ≡ local_in self.entry name.now }
    {
        if is_counting(self.loops, name) {
            return Some(self.counter);
        }
        self.names.get(name)
    }
}

/// Whether what has this role may be an object.
pub fn may_be_object(role: LocalRole) -> bool
    ensures { result ≡ rule_may_be_object role }
{
    matches!(role, LocalRole::Variable | LocalRole::SharedParameter)
}

/// Whether a name of a body may be written.
pub fn may_write(local: &Local) -> bool
    ensures { (n : List ℕ) → result ≡ rule_may_write (local_as n local.now) }
{
    match local.role {
        LocalRole::LoopVariable | LocalRole::SharedParameter => false,
        LocalRole::ObjectField
        | LocalRole::Variable
        | LocalRole::ValueParameter
        | LocalRole::OutParameter => is_data(&local.kind),
    }
}

/// Whether a body is of no implementation.
pub fn is_plain(owner: Owner) -> bool
    ensures { result ≡ rule_is_plain owner }
{
    !matches!(owner, Owner::Implementation)
}

/// Whether a body is of a process, or of a function with a `shared` parameter.
pub fn may_invoke(owner: Owner) -> bool
    ensures { result ≡ rule_may_invoke owner }
{
    matches!(owner, Owner::Process | Owner::SharingFunction)
}
