//! What is called.

ghost use Rattle.std.specs.Prelude.{◌≡◌, ◌==◌, IfOk, if◌then◌else◌, drop, option_map, slice_get, unwrap_or};
ghost use Rattle.std.specs.Option.{option_map_or};
ghost use Rattle.orca_tree.specs.declared.tree.Mode.TheVariants as mode;
ghost use Rattle.orca_syntax.specs.Shown.{exprs};
ghost use Rattle.type_rules.specs.Scopes as scopes;
ghost use Rattle.type_rules.specs.Types.{object_in as rule_object_in, outside_of};
ghost use Rattle.type_forms.specs.Indexed.{standing};
ghost use Rattle.type_forms.specs.Seen.{what};
ghost use Rattle.value_core.specs.View.{datum_of};
ghost use Rattle.meaning_rules.specs.Calls as rules;
ghost use Rattle.meaning_rules.specs.Designators.{root_type};
ghost use Rattle.meaning_rules.specs.Programs.{kind_of, op_of};
ghost use Rattle.program_tables.specs.Layers.{type_seen};
ghost use Rattle.program_bodies.specs.Named.{callee_seen};
ghost use Rattle.program_bodies.specs.Sites.{IsSite};

use crate::site::Site;
use crate::types::inside;
use orca_base::{KindNo, NoMemory, OpNo};
use orca_tree::{Expression, Mode, Name, Parameter};
use program_tables::Seen;
use std::alloc::Global;
use type_forms::{Standing, What};
use type_rules::{Base, Predeclared};
use value_core::Value;

/// What is called by a function's name: a function, by its number at the top and its parameters, one of the two on graphs, or none.
#[derive(Clone, Copy)]
pub enum Callee<'p> {
    AFunction {
        number: usize,
        parameters: &'p [Parameter],
    },
    Adds,
    Deletes,
    NoFunction,
}

// The mode of a parameter, and of none that of a value.
fn mode_at(parameters: &[Parameter], place: usize) -> Mode
    ensures { result ≡ option_map_or (λ p. p.mode) (slice_get parameters.now place) mode.Value }
{
    match parameters.get(place) {
        None => Mode::Value,
        Some(parameter) => parameter.mode,
    }
}

// The mode of a place, where that of one alone is for `out`.
fn out_at(lent: usize, place: usize) -> Mode
    ensures { result ≡ (if place == lent then mode.Out else mode.Value) }
{
    if place == lent {
        Mode::Out
    } else {
        Mode::Value
    }
}

impl<'p> Callee<'p> {
    /// How the argument at a place from 0 is passed: where there is no such parameter, as a value.
    pub fn mode(self, place: usize) -> Mode
        ensures { result ≡ rules.first_mode (drop place (rules.modes_of (callee_seen self.entry))) }
    {
        match self {
            Callee::AFunction { parameters, .. } => mode_at(parameters, place),
            Callee::Adds => out_at(0, place),
            Callee::Deletes => out_at(1, place),
            Callee::NoFunction => Mode::Value,
        }
    }
}

// What is called by a name of the top level.
fn top_function<'p>(number: usize, is: What<'p>) -> Callee<'p>
    ensures { callee_seen result ≡ rules.function_in number (what is.entry) }
{
    match is {
        What::Function { parameters, .. } => Callee::AFunction { number, parameters },
        _ => Callee::NoFunction,
    }
}

// What is called by a name that every module has.
fn predeclared_function(word: Predeclared) -> Callee<'static>
    ensures { callee_seen result ≡ rules.predeclared_function word }
{
    match word {
        Predeclared::AddNode => Callee::Adds,
        Predeclared::DeleteNode => Callee::Deletes,
        Predeclared::GraphBound | Predeclared::NodeNameType | Predeclared::Nil => {
            Callee::NoFunction
        }
    }
}

/// What is called by what a name stands for.
pub fn function_named<'p>(is: Standing<'p>) -> Callee<'p>
    ensures { callee_seen result ≡ rules.function_named (standing is.entry) }
{
    match is {
        Standing::Nothing => Callee::NoFunction,
        Standing::Top { number, item } => top_function(number, item.what),
        Standing::Everywhere { word } => predeclared_function(word),
    }
}

// The number of the object type that a known type is, and 0 where it is none.
fn object_in(kind: Seen<'_>) -> usize
    ensures { result ≡ unwrap_or (rule_object_in (outside_of (type_seen kind.entry))) 0 }
{
    if !kind.layers.is_empty() {
        return 0;
    }
    match kind.base {
        Base::Object { number } => number,
        _ => 0,
    }
}

// The number of the object type that a type is, and 0 where it is none.
fn object_number(kind: Option<Seen<'_>>) -> usize
    ensures { result ≡ rules.object_number (option_map type_seen kind.entry) }
{
    match kind {
        None => 0,
        Some(kind) => object_in(kind),
    }
}

impl<'a, 'p> Site<'a, 'p> {
    /// What is called by a function's name.
    pub fn callee(self, name: &Name) -> Callee<'p>
        ensures { (w : scopes.Scope) → IsSite self.entry w → callee_seen result ≡ rules.callee w name.now }
    {
        function_named(self.outer(name))
    }

    /// The numbers of an object's type and of an operation of it, by their names.
    pub fn operation(self, object: &Name, operation: &Name) -> (KindNo, OpNo)
        ensures kind { (w : scopes.Scope) → IsSite self.entry w →
            result.0 ≡ kind_of w.program (rules.object_number (root_type w object.now)) }
        ensures op { (w : scopes.Scope) → IsSite self.entry w →
            result.1 ≡ op_of w.program (rules.object_number (root_type w object.now)) operation.now.text }
    {
        let number = object_number(self.root(object));
        let tables = self.code.tables();
        (
            tables.kind(number),
            tables.operation(number, operation.text.as_str()),
        )
    }

    /// What a node of the graph that is the first argument opens with.
    pub fn fresh(self, alloc: Global, given: &[Expression]) -> Result<Value, NoMemory>
        ensures { (w : scopes.Scope) → IsSite self.entry w →
            IfOk result (λ v. datum_of v ≡ rules.fresh_node w (exprs given.now)) }
    {
        match given.first() {
            None => Ok(Value::Int(0)),
            Some(e) => {
                let element = inside(self.designator(e));
                self.code.tables().opening(alloc, element)
            }
        }
    }
}
