//! The names of the top level, in the order of the files and of their texts.

ghost use Rattle.std.specs.Prelude.{◌≡◌, ◌++◌, zero, map, IfOk, OnOk};
ghost use Rattle.orca_syntax.specs.Shown.{decl};
ghost use Rattle.link_rules.specs.Units.{module_name, source};
ghost use Rattle.type_rules.specs.TopLevel.{name_in, names_in, role_in, top_at, top_names, unit_names, values_at, values_in, what_in};
ghost use Rattle.type_forms.specs.Seen.{top, what};

use link_rules::{NamedUnit, Role};
use orca_base::{NoMemory, Place, Text};
use orca_tree::{
    Block, Bound, Declaration, Definition, Head, Name, Operation, Parameter, TypePhrase,
};
use std::alloc::Global;

/// What a name of the top level is, by reference.
#[derive(Clone, Copy)]
pub enum What<'a> {
    Constant {
        value: &'a Bound,
    },
    TypeName {
        definition: &'a Definition,
    },
    /// A value of an enumeration, with its number there.
    Value {
        of: &'a str,
        number: usize,
    },
    Specified {
        heads: &'a [Head],
    },
    Implemented {
        operations: &'a [Operation],
    },
    Function {
        parameters: &'a [Parameter],
        result: &'a Option<TypePhrase>,
        body: &'a Block,
    },
    Process {
        parameters: &'a [Parameter],
        body: &'a Block,
    },
}

/// A name of the top level, with its module and its file.
#[derive(Clone, Copy)]
pub struct Top<'a> {
    pub role: Role,
    pub by: &'a str,
    pub file: &'a str,
    pub name: &'a str,
    pub at: Place,
    pub what: What<'a>,
}

impl<'a> Top<'a> {
    fn new(role: Role, by: &'a str, file: &'a Text, name: &'a Name, is: What<'a>) -> Top<'a>
        ensures { top result ≡ top_at by.now file.now role name.now (what is.entry) }
    {
        Top {
            role,
            by,
            file: file.as_str(),
            name: name.text.as_str(),
            at: name.at,
            what: is,
        }
    }
}

// The values of an enumeration.
fn values<'a>(
    all: &mut Vec<Top<'a>>,
    by: &'a str,
    file: &'a Text,
    of: &'a str,
    names: &'a [Name],
) -> Result<(), NoMemory>
    ensures { OnOk result (map top all.new.items ≡ map top all.old.items ++ values_at by.now file.now of.now zero names.now) }
{
    'values: for (number, name) in names.iter().enumerate() {
        all.push(Top::new(Role::Other, by, file, name, What::Value { of, number }))?;
    }
    Ok(())
}

// What a declaration declares, but for the values of an enumeration.
fn what_of(part: &Declaration) -> What<'_>
    ensures { what result ≡ what_in (decl part.now) }
{
    match part {
        Declaration::Constant { value, .. } => What::Constant { value },
        Declaration::Type { definition, .. } => What::TypeName { definition },
        Declaration::Specification { heads, .. } => What::Specified { heads },
        Declaration::Implementation { operations, .. } => What::Implemented { operations },
        Declaration::Function {
            parameters,
            result,
            body,
            ..
        } => What::Function {
            parameters,
            result,
            body,
        },
        Declaration::Process {
            parameters,
            body,
            ..
        } => What::Process { parameters, body },
    }
}

// The name that a declaration declares.
fn name_of(part: &Declaration) -> &Name
    ensures { result.now ≡ name_in (decl part.now) }
{
    match part {
        Declaration::Constant { name, .. }
        | Declaration::Type { name, .. }
        | Declaration::Specification { name, .. }
        | Declaration::Implementation { name, .. }
        | Declaration::Function { name, .. }
        | Declaration::Process { name, .. } => name,
    }
}

fn role_of(part: &Declaration) -> Role
    ensures { result ≡ role_in (decl part.now) }
{
    match part {
        Declaration::Specification { .. } => Role::Specification,
        Declaration::Implementation { .. } => Role::Implementation,
        Declaration::Constant { .. }
        | Declaration::Type { .. }
        | Declaration::Function { .. }
        | Declaration::Process { .. } => Role::Other,
    }
}

// The names of values that a declaration declares.
fn values_of(part: &Declaration) -> &[Name]
    ensures { result.now ≡ values_in (decl part.now) }
{
    match part {
        Declaration::Type {
            definition: Definition::Enumeration { names, .. },
            ..
        } => names,
        _ => &[],
    }
}

// What a declaration brings to the top level.
fn declaration<'a>(
    all: &mut Vec<Top<'a>>,
    by: &'a str,
    file: &'a Text,
    part: &'a Declaration,
) -> Result<(), NoMemory>
    ensures { OnOk result (map top all.new.items ≡ map top all.old.items ++ names_in by.now file.now (decl part.now)) }
{
    let name = name_of(part);
    all.push(Top::new(role_of(part), by, file, name, what_of(part)))?;
    values(all, by, file, name.text.as_str(), values_of(part))
}

/// The name of a unit's module.
pub fn module_of(unit: &NamedUnit) -> &str
    ensures { result.now ≡ module_name (source unit.now) }
{
    match &unit.unit.module {
        Some(name) => name.text.as_str(),
        None => "Main",
    }
}

// What a unit brings to the top level.
fn unit_names<'a>(all: &mut Vec<Top<'a>>, unit: &'a NamedUnit) -> Result<(), NoMemory>
    ensures { OnOk result (map top all.new.items ≡ map top all.old.items ++ unit_names (source unit.now)) }
{
    let module = module_of(unit);
    'declarations: for part in &unit.unit.declarations {
        declaration(all, module, &unit.file, part)?;
    }
    Ok(())
}

/// The names of a program's top level.
pub fn top_names(alloc: Global, units: &[NamedUnit]) -> Result<Vec<Top<'_>>, NoMemory>
    ensures { IfOk result (λ v. map top v.items ≡ top_names (map source units.now)) }
{
    let mut all = Vec::new(alloc);
    'units: for unit in units {
        unit_names(&mut all, unit)?;
    }
    Ok(all)
}
