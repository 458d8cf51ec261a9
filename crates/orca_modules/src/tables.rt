//! The names that are defined, by what they are defined as.

ghost use Rattle.std.specs.Prelude.{◌≡◌, ◌++◌, ◌∷◌, [], List, OnOk};
ghost use Rattle.link_rules.specs.Units.{Defined};
ghost use Rattle.link_rules.specs.Rules.{is_defined, is_taken};
ghost use Rattle.orca_modules.specs.Seen.{Knows, definition};

use crate::names::{Names, add, holds};
use crate::sites::Definition;
use link_rules::Role;
use orca_base::NoMemory;
use std::alloc::Global;
use std::collections::BTreeMap;

/// The names that are defined, a set for each role.
#[derive(Drop)]
pub struct Tables<'a> {
    modules: Names<'a>,
    specifications: Names<'a>,
    implementations: Names<'a>,
    others: Names<'a>,
}

impl<'a> Tables<'a> {
    /// Empty tables.
    pub fn new(alloc: Global) -> Tables<'a>
        ensures { Knows result [] }
    {
        Tables {
            modules: BTreeMap::new(alloc),
            specifications: BTreeMap::new(alloc),
            implementations: BTreeMap::new(alloc),
            others: BTreeMap::new(alloc),
        }
    }

    /// Whether a name is defined as this.
    pub fn has(&self, role: Role, name: &str) -> bool
        ensures { (ds : List Defined) → Knows self.now ds → result ≡ is_defined role name.now ds }
    {
        match role {
            Role::Module => holds(&self.modules, name),
            Role::Specification => holds(&self.specifications, name),
            Role::Implementation => holds(&self.implementations, name),
            Role::Other => holds(&self.others, name),
        }
    }

    /// Whether an earlier definition has taken this name.
    pub fn takes(&self, role: Role, name: &str) -> bool
        ensures { (ds : List Defined) → Knows self.now ds → result ≡ is_taken ds role name.now }
    {
        match role {
            Role::Module => self.has(Role::Module, name),
            Role::Specification => self.has(Role::Specification, name)
                || self.has(Role::Other, name),
            Role::Implementation => {
                self.has(Role::Implementation, name) || self.has(Role::Other, name)
            }
            Role::Other => {
                self.has(Role::Specification, name)
                    || self.has(Role::Implementation, name)
                    || self.has(Role::Other, name)
            }
        }
    }

    /// Puts a definition into its table.
    pub fn add(&mut self, part: Definition<'a>) -> Result<(), NoMemory>
        ensures { OnOk result ((ds : List Defined) → Knows self.old ds → Knows self.new (ds ++ definition part.entry ∷ [])) }
    {
        match part.role {
            Role::Module => add(&mut self.modules, part.name),
            Role::Specification => add(&mut self.specifications, part.name),
            Role::Implementation => add(&mut self.implementations, part.name),
            Role::Other => add(&mut self.others, part.name),
        }
    }
}
