//! The names of a body.

ghost use Rattle.std.specs.Prelude.{◌≡◌, ◌++◌, ◌∷◌, [], List, IfOk, OnOk, map};
ghost use Rattle.type_rules.specs.Scopes as scopes;
ghost use Rattle.program_bodies.specs.Bodies.{HasLocals};

use orca_base::{Items, NoMemory};
use orca_tree::Name;
use program_tables::Places;
use std::alloc::Global;
use std::collections::BTreeMap;
use type_decls::Locals;
use type_exprs::Local;
use type_rules::{DataType, LocalRole, Owner};
use type_tables::note;

/// The names of a body: what each is, its place, and the types of all by place. Where two are the same, the first counts.
#[derive(Drop)]
pub struct BodyNames<'p> {
    pub locals: Locals<'p>,
    pub places: Places<'p>,
    pub types: Vec<Option<DataType>>,
}

/// A body: the name of its module, what it is of, and its names.
#[derive(Drop)]
pub struct Body<'p> {
    pub home: &'p str,
    pub owner: Owner,
    pub names: BodyNames<'p>,
}

/// The same type once more, where it is known.
pub fn copy_known(alloc: Global, kind: &Option<DataType>) -> Result<Option<DataType>, NoMemory>
    ensures { IfOk result (λ t. t ≡ kind.now) }
{
    match kind {
        None => Ok(None),
        Some(kind) => {
            let layers = Vec::from_slice(alloc, kind.layers.as_slice())?;
            Ok(Some(DataType {
                layers: Items::new(layers),
                base: kind.base,
            }))
        }
    }
}

impl<'p> BodyNames<'p> {
    /// No names.
    pub fn new(alloc: Global) -> BodyNames<'p>
        ensures { HasLocals result [] }
    {
        BodyNames {
            locals: BTreeMap::new(alloc),
            places: BTreeMap::new(alloc),
            types: Vec::new(alloc),
        }
    }
}

/// Puts a name behind the others.
pub fn add_name<'p>(
    alloc: Global,
    names: &mut BodyNames<'p>,
    name: &'p str,
    role: LocalRole,
    kind: Option<DataType>,
) -> Result<(), NoMemory>
    ensures { OnOk result ((ls : List scopes.Local) → HasLocals names.old ls →
        HasLocals names.new (ls ++ record { name = name.now; role = role; type = kind } ∷ [])) }
{
    let own = copy_known(alloc, &kind)?;
    note(&mut names.places, name, names.types.len())?;
    note(&mut names.locals, name, Local { role, kind: own })?;
    names.types.push(kind)?;
    Ok(())
}

/// Puts names of one type behind the others.
pub fn add_names<'p>(
    alloc: Global,
    names: &mut BodyNames<'p>,
    own: &'p [Name],
    role: LocalRole,
    kind: &Option<DataType>,
) -> Result<(), NoMemory>
    ensures { OnOk result ((ls : List scopes.Local) → HasLocals names.old ls →
        HasLocals names.new (ls ++ map (λ n. record { name = n.text; role = role; type = kind.now }) own.now)) }
{
    'own: for name in own {
        let kind = copy_known(alloc, kind)?;
        add_name(alloc, names, name.text.as_str(), role, kind)?;
    }
    Ok(())
}
