//! The tables of a program, and what they answer.

ghost use Rattle.std.specs.Prelude.{◌≡◌, ℕ, List, IfOk, codes, map, option_map};
ghost use Rattle.link_rules.specs.Units.{Source};
ghost use Rattle.type_rules.specs.Constants.{chain_from};
ghost use Rattle.value_core.specs.Datum as datum;
ghost use Rattle.value_core.specs.View.{datum_of};
ghost use Rattle.meaning_rules.specs.Designators.{constant};
ghost use Rattle.meaning_rules.specs.Openings.{field_number, field_types, opening as opening_value};
ghost use Rattle.meaning_rules.specs.Programs.{kind_of, main_text, op_of, process_texts, specifications, text_of};
ghost use Rattle.type_forms.specs.Forms.{AreTyped};
ghost use Rattle.type_forms.specs.Seen.{top};
ghost use Rattle.program_tables.specs.Layers.{type_seen};
ghost use Rattle.program_tables.specs.Tables.{AreCoded, IsTables};

use crate::constants::{constants_of, value_at};
use crate::objects::{Kinds, kinds_of, operation_at, operations_of, specified_before};
use crate::openings::opening;
use crate::places::{Places, as_short, place_or_zero};
use crate::records::{Record, place_at, records_of, types_at};
use crate::seen::Seen;
use crate::texts::{Texts, texts_of};
use orca_base::{KindNo, NoMemory, OpNo, TextNo};
use std::alloc::Global;
use type_forms::{Forms, Top};
use type_rules::DataType;
use value_core::Value;

/// What code needs by number of a program: its object types with their operations, its processes, its constants, and its records with their
/// fields. It is what the meaning says of the program's sources (`IsTables`), and no information of its own.
#[derive(Drop)]
pub struct CodeTables<'p> {
    kinds: Kinds<'p>,
    operations: Vec<Places<'p>>,
    texts: Texts<'p>,
    constants: Vec<i64>,
    records: Vec<Record<'p>>,
}

impl<'p> CodeTables<'p> {
    /// The tables of the program with these names, constants and types. The only error is want of memory.
    pub fn new(alloc: Global, forms: Forms<'_, 'p>) -> Result<CodeTables<'p>, NoMemory>
        ensures { (us : List Source) → AreTyped us forms.entry → AreCoded us → IfOk result (λ t. IsTables us t) }
    {
        let kinds = kinds_of(alloc, forms.index)?;
        let operations = operations_of(alloc, forms.index)?;
        let texts = texts_of(alloc, forms.index)?;
        let constants = constants_of(alloc, forms.chains)?;
        let records = records_of(alloc, forms)?;
        Ok(CodeTables {
            kinds,
            operations,
            texts,
            constants,
            records,
        })
    }
}

impl<'p> CodeTables<'p> {
    /// The specifications of the object types, in the order of their numbers from 1.
    pub fn specifications(&self) -> &[Top<'p>]
        ensures { (us : List Source) → IsTables us self.now → map top result.now ≡ specifications us }
    {
        self.kinds.specifications.as_slice()
    }

    /// The number of the object type whose specification is this one of the top level's names.
    pub fn kind(&self, number: usize) -> KindNo
        ensures { (us : List Source) → IsTables us self.now → result ≡ kind_of us number }
    {
        KindNo(as_short(specified_before(&self.kinds, number)).saturating_add(1))
    }

    /// The number of an operation, of the object type whose specification is this one of the top level's names; 0 where it has none of this
    /// name.
    pub fn operation(&self, number: usize, name: &str) -> OpNo
        ensures { (us : List Source) → IsTables us self.now → result ≡ op_of us number name.now }
    {
        OpNo(as_short(operation_at(&self.operations, number, name)))
    }

    /// The processes, in the order of their texts' numbers from 0.
    pub fn processes(&self) -> &[Top<'p>]
        ensures { (us : List Source) → IsTables us self.now → map top result.now ≡ process_texts us }
    {
        self.texts.processes.as_slice()
    }

    /// The number of the text of the process with this name; 0 where there is none.
    pub fn text(&self, name: &str) -> TextNo
        ensures { (us : List Source) → IsTables us self.now → result ≡ text_of us name.now }
    {
        TextNo(as_short(place_or_zero(&self.texts.places, name)))
    }

    /// The number of the text that a run begins with.
    pub fn main_text(&self) -> TextNo
        ensures { (us : List Source) → IsTables us self.now → result ≡ main_text us }
    {
        self.text("OrcaMain")
    }

    /// The value of the constant that is this one of the top level's names; 0 where that is no constant.
    pub fn constant(&self, number: usize) -> i64
        ensures { (us : List Source) → IsTables us self.now → datum.int result ≡ constant (chain_from us number) }
    {
        value_at(&self.constants, number)
    }

    /// The types of the fields of the record that is this one of the top level's names, in order of declaration.
    pub fn field_types(&self, number: usize) -> &[Option<DataType>]
        ensures { (us : List Source) → IsTables us self.now → result.now ≡ field_types us number }
    {
        types_at(&self.records, number)
    }

    /// The number of a field, from 0, of the record that is this one of the top level's names; 0 where it has none of this name.
    pub fn field(&self, number: usize, name: &str) -> usize
        ensures { (us : List Source) → IsTables us self.now → result ≡ field_number us number name.now }
    {
        place_at(&self.records, number, name)
    }

    /// The value that a variable of a type opens with. An array takes a step for each of its parts, so one that has more parts than fit the
    /// memory lacks memory.
    pub fn opening(&self, alloc: Global, kind: Option<Seen<'_>>) -> Result<Value, NoMemory>
        ensures { (us : List Source) → IsTables us self.now →
            IfOk result (λ v. datum_of v ≡ opening_value us (option_map type_seen kind.entry)) }
    {
        opening(alloc, &self.records, kind)
    }
}
