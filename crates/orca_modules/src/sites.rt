//! The names that units define and import, in the order of the files and of their texts.

ghost use Rattle.std.specs.Prelude.{◌≡◌, ◌++◌, ◌∷◌, [], map, IfOk, OnOk};
ghost use Rattle.orca_syntax.specs.Shown.{decl};
ghost use Rattle.link_rules.specs.Units.{defined, defined_by, definitions, definitions_of, imports, imports_of, module_name, module_of, source};
ghost use Rattle.link_rules.specs.Rules.{at_definition, at_import};
ghost use Rattle.orca_modules.specs.Seen.{definition as definition_seen, import_line};

use link_rules::{LinkError, NamedUnit, Role};
use orca_base::{NoMemory, Place, Text};
use orca_tree::{Declaration, Definition as TypeDefinition, Name};
use std::alloc::Global;

/// A name that is defined, and the module that it stands in.
#[derive(Clone, Copy)]
pub struct Definition<'a> {
    pub role: Role,
    pub by: &'a str,
    pub file: &'a str,
    pub name: &'a str,
    pub at: Place,
}

/// A name that is imported, and the module that imports it.
#[derive(Clone, Copy)]
pub struct ImportLine<'a> {
    pub by: &'a str,
    pub file: &'a str,
    pub name: &'a str,
    pub at: Place,
}

// The breach of a rule at a name.
fn error(alloc: Global, rule: u8, file: &str, name: &str, at: Place) -> Result<LinkError, NoMemory>
    ensures { IfOk result (λ e. e ≡ record { rule = rule; name = name.now; file = file.now; at = at }) }
{
    Ok(LinkError {
        rule,
        name: Text::from_str(alloc, name)?,
        file: Text::from_str(alloc, file)?,
        at,
    })
}

impl<'a> Definition<'a> {
    fn new(role: Role, by: &'a str, file: &'a Text, name: &'a Name) -> Definition<'a>
        ensures { definition_seen result ≡ defined by.now file.now role name.now }
    {
        Definition {
            role,
            by,
            file: file.as_str(),
            name: name.text.as_str(),
            at: name.at,
        }
    }

    /// The breach of a rule at this name.
    pub fn error(&self, alloc: Global, rule: u8) -> Result<LinkError, NoMemory>
        ensures { IfOk result (λ e. e ≡ at_definition rule (definition_seen self.now)) }
    {
        error(alloc, rule, self.file, self.name, self.at)
    }
}

impl<'a> ImportLine<'a> {
    /// The breach of a rule at this name.
    pub fn error(&self, alloc: Global, rule: u8) -> Result<LinkError, NoMemory>
        ensures { IfOk result (λ e. e ≡ at_import rule (import_line self.now)) }
    {
        error(alloc, rule, self.file, self.name, self.at)
    }
}

// The definition of a unit's module.
fn module_definition(unit: &NamedUnit) -> Definition<'_>
    ensures { definition_seen result ≡
        defined (module_name (source unit.now)) unit.now.file Role.Module (module_of (source unit.now).syntax) }
{
    match &unit.unit.module {
        Some(name) => Definition::new(Role::Module, name.text.as_str(), &unit.file, name),
        None => Definition {
            role: Role::Module,
            by: "Main",
            file: unit.file.as_str(),
            name: "Main",
            at: Place { line: 1, column: 1 },
        },
    }
}

// The values of an enumeration.
fn values<'a>(
    all: &mut Vec<Definition<'a>>,
    by: &'a str,
    file: &'a Text,
    names: &'a [Name],
) -> Result<(), NoMemory>
    ensures { OnOk result (map definition_seen all.new.items ≡
        map definition_seen all.old.items ++ map (defined by.now file.now Role.Other) names.now) }
{
    'values: for name in names {
        all.push(Definition::new(Role::Other, by, file, name))?;
    }
    Ok(())
}

// What a declaration defines.
fn declaration<'a>(
    all: &mut Vec<Definition<'a>>,
    by: &'a str,
    file: &'a Text,
    declaration: &'a Declaration,
) -> Result<(), NoMemory>
    ensures { OnOk result (map definition_seen all.new.items ≡
        map definition_seen all.old.items ++ defined_by by.now file.now (decl declaration.now)) }
{
    let (role, name) = match declaration {
        Declaration::Specification { name, .. } => (Role::Specification, name),
        Declaration::Implementation { name, .. } => (Role::Implementation, name),
        Declaration::Constant { name, .. }
        | Declaration::Type { name, .. }
        | Declaration::Function { name, .. }
        | Declaration::Process { name, .. } => (Role::Other, name),
    };
    all.push(Definition::new(role, by, file, name))?;
    match declaration {
        Declaration::Type {
            definition: TypeDefinition::Enumeration { names, .. },
            ..
        } => values(all, by, file, names),
        _ => Ok(()),
    }
}

// What a unit defines.
fn unit_definitions<'a>(all: &mut Vec<Definition<'a>>, unit: &'a NamedUnit) -> Result<(), NoMemory>
    ensures { OnOk result (map definition_seen all.new.items ≡
        map definition_seen all.old.items ++ definitions_of (source unit.now)) }
{
    let module = module_definition(unit);
    all.push(module)?;
    'declarations: for part in &unit.unit.declarations {
        declaration(all, module.by, &unit.file, part)?;
    }
    Ok(())
}

/// What units define.
pub fn definitions(alloc: Global, units: &[NamedUnit]) -> Result<Vec<Definition<'_>>, NoMemory>
    ensures { IfOk result (λ v. map definition_seen v.items ≡ definitions (map source units.now)) }
{
    let mut all = Vec::new(alloc);
    'units: for unit in units {
        unit_definitions(&mut all, unit)?;
    }
    Ok(all)
}

// What a unit imports.
fn unit_imports<'a>(all: &mut Vec<ImportLine<'a>>, unit: &'a NamedUnit) -> Result<(), NoMemory>
    ensures { OnOk result (map import_line all.new.items ≡ map import_line all.old.items ++ imports_of (source unit.now)) }
{
    let module = module_definition(unit);
    'imports: for name in &unit.unit.imports {
        all.push(ImportLine {
            by: module.by,
            file: unit.file.as_str(),
            name: name.text.as_str(),
            at: name.at,
        })?;
    }
    Ok(())
}

/// What units import.
pub fn imports(alloc: Global, units: &[NamedUnit]) -> Result<Vec<ImportLine<'_>>, NoMemory>
    ensures { IfOk result (λ v. map import_line v.items ≡ imports (map source units.now)) }
{
    let mut all = Vec::new(alloc);
    'units: for unit in units {
        unit_imports(&mut all, unit)?;
    }
    Ok(all)
}
