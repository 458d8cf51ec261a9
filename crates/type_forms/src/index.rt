//! The names of a program's top level, with their numbers, and what a module sees of them.

ghost use Rattle.std.specs.Prelude.{◌≡◌, ℕ, List, IfOk, OnOk, bytes_eq, map, length, option_map, slice_get};
ghost use Rattle.std.specs.List.{list_any};
ghost use Rattle.link_rules.specs.Units.{Source, defined, imports, imports_of, source};
ghost use Rattle.link_rules.specs.Visible.{is_seen};
ghost use Rattle.type_rules.specs.TopLevel.{at_number, is_seen_at, number_as, number_of, or_else as first_number, predeclared, sees, stands_for, top_names as names_of_top};
ghost use Rattle.type_forms.specs.Seen.{is_imported, top};
ghost use Rattle.type_forms.specs.Indexed.{ImportsOf, Indexes, IsInside, standing};

use crate::modules::{Names, holds, imported_by};
use crate::numbers::{Numbers, number, numbers_as};
use crate::tops::{Top, module_of, top_names};
use link_rules::{NamedUnit, Role};
use orca_base::NoMemory;
use orca_tree::Name;
use std::alloc::Global;
use std::collections::BTreeMap;
use type_rules::Predeclared;

/// The names of a program's top level, in the order of the files and of their texts, and the numbers that they go by.
#[derive(Drop)]
pub struct Index<'a> {
    units: &'a [NamedUnit],
    tops: Vec<Top<'a>>,
    specifications: Numbers<'a>,
    implementations: Numbers<'a>,
    others: Numbers<'a>,
    imports: BTreeMap<&'a str, Names<'a>>,
}

/// What a name stands for, where no name of a body hides it.
#[derive(Clone, Copy)]
pub enum Standing<'a> {
    Nothing,
    Top { number: usize, item: Top<'a> },
    Everywhere { word: Predeclared },
}

// Whether a name is among these.
fn is_among(names: &[Name], text: &str) -> bool
    ensures { result ≡ list_any (λ n. bytes_eq n.text text.now) names.now }
{
    'names: for name in names {
        if name.text.as_str() == text {
            return true;
        }
    }
    false
}

// Whether a unit is of this module, and imports this one.
fn unit_imports(unit: &NamedUnit, home: &str, by: &str) -> bool
    ensures { result ≡ list_any (is_imported home.now by.now) (imports_of (source unit.now)) }
{
    module_of(unit) == home && is_among(&unit.unit.imports, by)
}

// Whether a module imports another, by all units.
fn imports_directly(units: &[NamedUnit], home: &str, by: &str) -> bool
    ensures { result ≡ list_any (is_imported home.now by.now) (imports (map source units.now)) }
{
    'units: for unit in units {
        if unit_imports(unit, home, by) {
            return true;
        }
    }
    false
}

// Puts a module's imports into the table, unless they are there.
fn note_imports<'a>(
    alloc: Global,
    tables: &mut BTreeMap<&'a str, Names<'a>>,
    units: &'a [NamedUnit],
    home: &'a str,
) -> Result<(), NoMemory>
    ensures { ImportsOf tables.old (map source units.now) → OnOk result (ImportsOf tables.new (map source units.now)) }
{
    if !tables.contains_key(home) {
        let names = imported_by(alloc, units, home)?;
        tables.insert(home, names)?;
    }
    Ok(())
}

// The modules that each module imports.
fn import_tables<'a>(
    alloc: Global,
    units: &'a [NamedUnit],
) -> Result<BTreeMap<&'a str, Names<'a>>, NoMemory>
    ensures { IfOk result (λ v. ImportsOf v (map source units.now)) }
{
    let mut tables = BTreeMap::new(alloc);
    'units: for unit in units {
        note_imports(alloc, &mut tables, units, module_of(unit))?;
    }
    Ok(tables)
}

impl<'a> Index<'a> {
    /// The index of a program's names.
    pub fn new(alloc: Global, units: &'a [NamedUnit]) -> Result<Index<'a>, NoMemory>
        ensures { IfOk result (λ x. Indexes x (map source units.now)) }
    {
        let tops = top_names(alloc, units)?;
        let specifications = numbers_as(alloc, &tops, Role::Specification)?;
        let implementations = numbers_as(alloc, &tops, Role::Implementation)?;
        let others = numbers_as(alloc, &tops, Role::Other)?;
        let imports = import_tables(alloc, units)?;
        Ok(Index {
            units,
            tops,
            specifications,
            implementations,
            others,
            imports,
        })
    }
}

impl<'a> Index<'a> {
    // Whether a module imports another.
    fn imports(&self, home: &str, by: &str) -> bool
        ensures { (us : List Source) → Indexes self.now us → result ≡ list_any (is_imported home.now by.now) (imports us) }
    {
        match self.imports.get(home) {
            Some(names) => holds(names, by),
            None => imports_directly(self.units, home, by),
        }
    }

    // Whether a module sees what this one declares.
    fn sees_from(&self, home: &str, item: &Top<'_>) -> bool
        ensures { (us : List Source) → Indexes self.now us → result ≡ is_seen us home.now (top item.now).defined }
    {
        item.by == home || self.imports(home, item.by)
    }

    /// How many names of the top level there are.
    pub fn count(&self) -> usize
        ensures { (us : List Source) → Indexes self.now us → result ≡ length (names_of_top us) }
    {
        self.tops.len()
    }

    /// The names of the top level, by their numbers.
    pub fn tops(&self) -> &[Top<'a>]
        ensures { (us : List Source) → Indexes self.now us → map top result.now ≡ names_of_top us }
    {
        self.tops.as_slice()
    }

    /// A name of the top level, by its number.
    pub fn item(&self, number: usize) -> Option<&Top<'a>>
        ensures { (us : List Source) → Indexes self.now us →
            option_map (λ t. top t.now) result ≡ slice_get (names_of_top us) number }
    {
        self.tops.get(number)
    }

    // Whether a module sees the name with this number.
    fn is_seen_at(&self, home: &str, number: Option<usize>) -> bool
        ensures { (us : List Source) → Indexes self.now us → result ≡ is_seen_at us home.now number }
    {
        match number {
            None => false,
            Some(number) => match self.item(number) {
                None => false,
                Some(item) => self.sees_from(home, item),
            },
        }
    }

    /// The number of the specification with this name.
    pub fn specification(&self, name: &str) -> Option<usize>
        ensures { (us : List Source) → Indexes self.now us → result ≡ number_as us Role.Specification name.now }
    {
        number(&self.specifications, name)
    }

    /// The number of the implementation with this name.
    pub fn implementation(&self, name: &str) -> Option<usize>
        ensures { (us : List Source) → Indexes self.now us → result ≡ number_as us Role.Implementation name.now }
    {
        number(&self.implementations, name)
    }

    // The number of a name that is neither.
    fn other(&self, name: &str) -> Option<usize>
        ensures { (us : List Source) → Indexes self.now us → result ≡ number_as us Role.Other name.now }
    {
        number(&self.others, name)
    }

    /// The number that a name goes by.
    pub fn number_of(&self, name: &str) -> Option<usize>
        ensures { (us : List Source) → Indexes self.now us → result ≡ number_of us name.now }
    {
        or_else(
            self.specification(name),
            or_else(self.implementation(name), self.other(name)),
        )
    }

    /// Whether a module sees a name of the top level.
    pub fn sees(&self, home: &str, name: &str) -> bool
        ensures { (us : List Source) → Indexes self.now us → result ≡ sees us home.now name.now }
    {
        self.is_seen_at(home, self.specification(name))
            || self.is_seen_at(home, self.implementation(name))
            || self.is_seen_at(home, self.other(name))
    }

    // What a number stands for.
    fn at_number(&self, number: Option<usize>) -> Standing<'a>
        ensures inside { (us : List Source) → Indexes self.now us → IsInside us result }
        ensures stands { (us : List Source) → Indexes self.now us → standing result ≡ at_number us number }
    {
        match number {
            None => Standing::Nothing,
            Some(number) => match self.item(number) {
                None => Standing::Nothing,
                Some(item) => Standing::Top {
                    number,
                    item: *item,
                },
            },
        }
    }

    /// What a name stands for in a module, where no name of a body hides it.
    pub fn stands_for(&self, home: &str, name: &str) -> Standing<'a>
        ensures inside { (us : List Source) → Indexes self.now us → IsInside us result }
        ensures stands { (us : List Source) → Indexes self.now us → standing result ≡ stands_for us home.now name.now }
    {
        if self.sees(home, name) {
            self.at_number(self.number_of(name))
        } else {
            match predeclared(name) {
                None => Standing::Nothing,
                Some(word) => Standing::Everywhere { word },
            }
        }
    }
}

// The first number, or else the other.
fn or_else(one: Option<usize>, other: Option<usize>) -> Option<usize>
    ensures { result ≡ first_number one other }
{
    match one {
        None => other,
        Some(number) => Some(number),
    }
}

// The name that every module has.
fn predeclared(name: &str) -> Option<Predeclared>
    ensures { result ≡ predeclared name.now }
{
    if name == "graph" {
        Some(Predeclared::GraphBound)
    } else if name == "nodename" {
        Some(Predeclared::NodeNameType)
    } else if name == "nil" {
        Some(Predeclared::Nil)
    } else if name == "addnode" {
        Some(Predeclared::AddNode)
    } else if name == "deletenode" {
        Some(Predeclared::DeleteNode)
    } else {
        None
    }
}
