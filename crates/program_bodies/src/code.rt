//! A program as code.

ghost use Rattle.std.specs.Prelude.{◌≡◌, ℕ, List, IfOk, option_and_then, option_map, slice_get};
ghost use Rattle.link_rules.specs.Units.{Source};
ghost use Rattle.type_tables.specs.Tables.{AreTables};
ghost use Rattle.type_exprs.specs.Scoped.{local_as};
ghost use Rattle.type_decls.specs.Symbols.{AreSymbols};
ghost use Rattle.meaning_rules.specs.Programs.{object_type, process_texts, specifications, specified};
ghost use Rattle.program_tables.specs.Tables.{AreCoded};
ghost use Rattle.program_bodies.specs.Blocks.{IsBlockCode, function_at, process_at, process_of};
ghost use Rattle.program_bodies.specs.Codes.{AreFew, IsCode, loop_local, sources};
ghost use Rattle.program_bodies.specs.Matching.{Both, or_none};
ghost use Rattle.program_bodies.specs.Objects.{IsObjectCode};

use crate::blocks::{BlockCode, functions_of, processes_of};
use crate::implementations::implementations_of;
use crate::objects::{ObjectCode, objects_of};
use orca_base::{KindNo, NoMemory, TextNo};
use program_tables::CodeTables;
use std::alloc::Global;
use type_decls::Checked;
use type_exprs::{Local, plain};
use type_rules::{Base, LocalRole};
use type_tables::Tables;

/// A checked program and its code: its tables, what its functions and processes run, by number at the top and by text, and its object
/// types, by number less one. The code is what the meaning says of the program's sources (`IsCode`), and no information of its own.
#[derive(Drop)]
pub struct Code<'p> {
    checked: Checked<'p>,
    tables: CodeTables<'p>,
    functions: Vec<Option<BlockCode<'p>>>,
    processes: Vec<Option<BlockCode<'p>>>,
    objects: Vec<Option<ObjectCode<'p>>>,
    counter: Local,
}

// What the variable of a loop is.
fn loop_variable(alloc: Global) -> Local
    ensures { (n : List ℕ) → local_as n result ≡ loop_local n }
{
    Local {
        role: LocalRole::LoopVariable,
        kind: Some(plain(alloc, Base::Integer)),
    }
}

// What a table has for a number.
fn at_number<T>(table: &[Option<T>], number: usize) -> Option<&T>
    ensures { option_map (λ x. x.now) result ≡ or_none (slice_get table.now number) }
{
    match table.get(number) {
        None => None,
        Some(own) => own.as_ref(),
    }
}

impl<'p> Code<'p> {
    /// The code of a checked program, whose numbers have the bits that an accepted program's have (meaning_rules and accepted_law). It keeps
    /// that program. The only error is want of memory. No clause says so, but each operation has a table with its object's fields in it: so
    /// memory is that of the program's text and, for each object type, of its operations times its fields, and time is that times a
    /// logarithm. With thousands of both, which the limits allow, that is some gigabytes.
    pub fn new(alloc: Global, checked: Checked<'p>) -> Result<Code<'p>, NoMemory>
        ensures code { AreSymbols (sources checked.entry) checked.entry.symbols → AreCoded (sources checked.entry) →
            AreFew (sources checked.entry) → IfOk result (λ c. IsCode (sources checked.entry) c) }
        ensures of { IfOk result (λ c. c.checked ≡ checked.entry) }
    {
        let program = checked.program;
        let forms = checked.symbols.tables().forms;
        let tables = CodeTables::new(alloc, forms)?;
        let functions = functions_of(alloc, forms)?;
        let processes = processes_of(alloc, forms, tables.processes())?;
        let implementations = implementations_of(alloc, &program.units)?;
        let objects = objects_of(alloc, forms, &implementations, tables.specifications())?;
        let counter = loop_variable(alloc);
        Ok(Code {
            checked,
            tables,
            functions,
            processes,
            objects,
            counter,
        })
    }
}

impl<'p> Code<'p> {
    /// The checked program that it is the code of.
    pub fn checked(&self) -> &Checked<'p>
        ensures { result.now ≡ self.now.checked }
    {
        &self.checked
    }

    /// The program's tables by number.
    pub fn tables(&self) -> &CodeTables<'p>
        ensures { result.now ≡ self.now.tables }
    {
        &self.tables
    }

    /// The tables that the rules of typing ask.
    pub fn rule_tables(&self) -> Tables<'_, 'p>
        ensures { (us : List Source) → IsCode us self.now → AreTables us result }
    {
        self.checked.symbols.tables()
    }

    /// What the variable of a loop is.
    pub fn counter(&self) -> &Local
        ensures { result.now ≡ self.now.counter }
    {
        &self.counter
    }

    /// The function that is this one of the top level's names, if it is one.
    pub fn function(&self, number: usize) -> Option<&BlockCode<'p>>
        ensures { (us : List Source) → IsCode us self.now → Both (λ c r. IsBlockCode c.now r) result (function_at us number) }
    {
        at_number(&self.functions, number)
    }

    /// The process with this text, if there is one.
    pub fn process(&self, text: TextNo) -> Option<&BlockCode<'p>>
        ensures { (us : List Source) → IsCode us self.now → Both (λ c r. IsBlockCode c.now r) result (process_at us text) }
    {
        at_number(&self.processes, usize::from(text.0))
    }

    /// The process that is this one of the processes, if there is one.
    pub fn process_at(&self, place: usize) -> Option<&BlockCode<'p>>
        ensures { (us : List Source) → IsCode us self.now →
            Both (λ c r. IsBlockCode c.now r) result (option_and_then (process_of us) (slice_get (process_texts us) place)) }
    {
        at_number(&self.processes, place)
    }

    /// The object type with this number, if it has an implementation. The output object's has none.
    pub fn object_type(&self, kind: KindNo) -> Option<&ObjectCode<'p>>
        ensures { (us : List Source) → IsCode us self.now → Both (λ c t. IsObjectCode us c.now t) result (object_type us kind) }
    {
        if kind.0 == 0 {
            return None;
        }
        at_number(&self.objects, usize::from(kind.0 - 1))
    }

    /// The object type that has this one of the specifications, if it has an implementation.
    pub fn specified_at(&self, place: usize) -> Option<&ObjectCode<'p>>
        ensures { (us : List Source) → IsCode us self.now →
            Both (λ c t. IsObjectCode us c.now t) result (option_and_then (specified us) (slice_get (specifications us) place)) }
    {
        at_number(&self.objects, place)
    }
}
