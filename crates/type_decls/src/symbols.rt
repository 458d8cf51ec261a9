//! The tables of a program's declarations.

ghost use Rattle.std.specs.Prelude.{◌≡◌, ◌∷◌, [], ℕ, List, IfOk, map, None, Some};
ghost use Rattle.link_rules.specs.Units.{Source, source};
ghost use Rattle.type_rules.specs.declared.types.Base.TheVariants.{NodeName};
ghost use Rattle.type_rules.specs.Types.{plain as rule_plain};
ghost use Rattle.type_rules.specs.declared.signature.Formal.TheVariants.{NodeOf, SomeGraph};
ghost use Rattle.type_tables.specs.Tables.{AreTables};
ghost use Rattle.type_decls.specs.Symbols.{AreSymbols};

use link_rules::NamedUnit;
use orca_base::{Items, NoMemory};
use std::alloc::Global;
use type_exprs::plain;
use type_forms::{Forms, Index, chains_of, parts_of, types_of};
use type_rules::{Base, Chain, Formal, Measured, Signature};
use type_tables::{Fields, Operations, Tables, fields_of, operations_of, signatures_of};

/// The names of a program's top level, and by their numbers the values of constants, declared types, the signatures of functions and
/// processes, the fields of records, and the operations of object types. Each is what type_rules says of the program (`AreSymbols`), so
/// the tables have no information of their own.
#[derive(Drop)]
pub struct Symbols<'p> {
    pub index: Index<'p>,
    pub chains: Vec<Chain>,
    pub types: Vec<Option<Measured>>,
    pub signatures: Vec<Option<Signature>>,
    pub fields: Vec<Fields<'p>>,
    pub operations: Vec<Operations<'p>>,
    pub add_node: Signature,
    pub delete_node: Signature,
}

// The signature of `addnode`.
fn add_node(alloc: Global) -> Result<Signature, NoMemory>
    ensures { IfOk result (λ s. s ≡ record { formals = SomeGraph ∷ []; result = Some (Some (rule_plain NodeName)) }) }
{
    let mut formals = Vec::new(alloc);
    formals.push(Formal::SomeGraph)?;
    Ok(Signature {
        formals: Items::new(formals),
        result: Some(Some(plain(alloc, Base::NodeName))),
    })
}

// The signature of `deletenode`.
fn delete_node(alloc: Global) -> Result<Signature, NoMemory>
    ensures { IfOk result (λ s. s ≡ record { formals = NodeOf ∷ SomeGraph ∷ []; result = None }) }
{
    let mut formals = Vec::new(alloc);
    formals.push(Formal::NodeOf)?;
    formals.push(Formal::SomeGraph)?;
    Ok(Signature {
        formals: Items::new(formals),
        result: None,
    })
}

impl<'p> Symbols<'p> {
    /// The tables of the program with these units. The only error is want of memory.
    pub fn new(alloc: Global, units: &'p [NamedUnit]) -> Result<Symbols<'p>, NoMemory>
        ensures { IfOk result (λ s. AreSymbols (map source units.now) s) }
    {
        let index = Index::new(alloc, units)?;
        let chains = chains_of(alloc, &index)?;
        let parts = parts_of(alloc, &index)?;
        let types = types_of(alloc, &index, &chains, &parts)?;
        let forms = Forms {
            index: &index,
            chains: &chains,
            types: &types,
        };
        let signatures = signatures_of(alloc, forms)?;
        let fields = fields_of(alloc, forms)?;
        let operations = operations_of(alloc, forms)?;
        Ok(Symbols {
            index,
            chains,
            types,
            signatures,
            fields,
            operations,
            add_node: add_node(alloc)?,
            delete_node: delete_node(alloc)?,
        })
    }

    /// The same tables, lent.
    pub fn tables(&self) -> Tables<'_, 'p>
        ensures { (us : List Source) → AreSymbols us self.now → AreTables us result }
    {
        Tables {
            forms: Forms {
                index: &self.index,
                chains: &self.chains,
                types: &self.types,
            },
            signatures: &self.signatures,
            fields: &self.fields,
            operations: &self.operations,
            add_node: &self.add_node,
            delete_node: &self.delete_node,
        }
    }
}
