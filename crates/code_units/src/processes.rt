//! The code of processes.

ghost use Rattle.std.specs.Prelude.{◌≡◌, ◌≤◌, ◌<◌, ◌+◌, ◌++◌, ◌^◌, ℕ, IfOk, List, OnOk, drop, false, flat_map, map, slice_get, Some};
ghost use Rattle.link_rules.specs.Units.{Source};
ghost use Rattle.type_rules.specs.Scopes.{Scope};
ghost use Rattle.type_rules.specs.Types.{object_in as rule_object_in, outside_of};
ghost use Rattle.meaning_rules.specs.Programs.{kind_of, process_texts};
ghost use Rattle.type_forms.specs.Seen.{top};
ghost use Rattle.code_rules.specs.Bodies.{block_body, variable_code, variables_code};
ghost use Rattle.code_rules.specs.Instructions as instrs;
ghost use Rattle.code_rules.specs.Pieces.{Piece, one, seq};
ghost use Rattle.code_rules.specs.Program.{no_body, process_at};
ghost use Rattle.program_bodies.specs.Blocks.{IsBlockCode, Routine};
ghost use Rattle.program_bodies.specs.Codes.{IsCode};
ghost use Rattle.program_bodies.specs.Matching.{Both};
ghost use Rattle.emitted_code.specs.Appends.{Appends};
ghost use Rattle.emitted_code.specs.Views.{code_of};
ghost use Rattle.code_units.specs.Makes.{IsMade, known_object};
ghost use Rattle.emitted_code.specs.Views.{body_seen};

use crate::bodies::{Ending, emit_body, openings};
use crate::depths::depth_of_all;
use emitted_code::{EmittedBody, Instr, Listing};
use orca_base::{KindNo, NoMemory, Place};
use orca_tree::{Name, Variables};
use program_bodies::{BlockCode, Code};
use std::alloc::Global;
use type_forms::{Top, What};
use type_rules::{Base, DataType};

// The number of the object type that a known type is, if it is one.
fn object_in(kind: &DataType) -> Option<usize>
    ensures { result ≡ rule_object_in (outside_of kind.now) }
{
    if !kind.layers.as_slice().is_empty() {
        return None;
    }
    match kind.base {
        Base::Object { number } => Some(number),
        _ => None,
    }
}

// The number of the object type that a type is, if it is one.
fn object_type(kind: &Option<DataType>) -> Option<usize>
    ensures { result ≡ known_object kind.now }
{
    match kind {
        None => None,
        Some(kind) => object_in(kind),
    }
}

// The number of the object type whose specification is this one of the top level's names.
fn kind_at(code: &Code<'_>, number: usize) -> KindNo
    ensures { (us : List Source) → IsCode us code.now → result ≡ kind_of us number }
{
    code.tables().kind(number)
}

// What is put next comes from where a variable is declared.
fn comes_from_variable(at: Option<&Place>, out: &mut Listing<'_>) -> Result<(), NoMemory>
    ensures { code_of out.new ≡ code_of out.old }
{
    match at {
        None => Ok(()),
        Some(at) => out.comes_from(*at),
    }
}

// The making of an object for a slot, whose variable is declared at this place; what it leaves goes.
fn emit_make(
    kind: KindNo,
    count: usize,
    slot: usize,
    at: Option<&Place>,
    out: &mut Listing<'_>,
) -> Result<(), NoMemory>
    ensures { OnOk result (Appends (seq (one (instrs.Make kind count slot)) (one instrs.Pop)) (code_of out.old) (code_of out.new)) }
{
    comes_from_variable(at, out)?;
    out.put(Instr::Make { kind, count, slot })?;
    out.put(Instr::Pop)
}

// The making of a variable's object, where it is of an object type and so many were made before. It gives how many are made then.
fn emit_variable(
    code: &Code<'_>,
    slot: usize,
    made: usize,
    kind: &Option<DataType>,
    at: Option<&Place>,
    out: &mut Listing<'_>,
) -> Result<usize, NoMemory>
    requires { made + 1 < 2 ^ 64 }
    ensures next { IfOk result (λ n. n ≤ made + 1) }
    ensures code { (us : List Source) → IsCode us code.now → (others : ℕ → Piece) →
        IfOk result (λ n. IsMade (variable_code us (made + 1) slot (known_object kind.now) others) (others (n + 1)) (code_of out.old) (code_of out.new)) }
{
    match object_type(kind) {
        None => Ok(made),
        Some(number) => {
            let count = made + 1;
            emit_make(kind_at(code, number), count, slot, at, out)?;
            Ok(count)
        }
    }
}

// Where these names are declared, behind the places so far.
fn add_places(names: &[Name], places: &mut Vec<Place>) -> Result<(), NoMemory>
    ensures { OnOk result (places.new.items ≡ places.old.items ++ map (λ n. n.at) names.now) }
{
    'names: for name in names {
        places.push(name.at)?;
    }
    Ok(())
}

// Where the variables of a process are declared, in their order.
fn declared_at(alloc: Global, variables: &[Variables]) -> Result<Vec<Place>, NoMemory>
    ensures { IfOk result (λ places. places.items ≡ flat_map (λ own. map (λ n. n.at) own.names.items) variables.now) }
{
    let mut places = Vec::new(alloc);
    'groups: for own in variables {
        add_places(&own.names, &mut places)?;
    }
    Ok(places)
}

// The makings of the objects of variables, which stand behind so many parameters among these, and are declared at these places.
fn emit_variables(
    code: &Code<'_>,
    parameters: usize,
    types: &[Option<DataType>],
    places: &[Place],
    out: &mut Listing<'_>,
) -> Result<(), NoMemory>
    ensures { (w : Scope) → IsCode w.program code.now → types.now ≡ map (λ l. l.type) w.locals →
        OnOk result (Appends (variables_code w.program (drop parameters w.locals) parameters 1) (code_of out.old) (code_of out.new)) }
{
    let count = types.len();
    let mut made = 0;
    'own: for slot in parameters..count {
        let at = places.get(slot - parameters);
        made = emit_variable(code, slot, made, &types[slot], at, out)?;
    }
    Ok(())
}

// A process with so many parameters, and these variables.
fn compile_block<'p>(
    alloc: Global,
    code: &Code<'p>,
    parameters: usize,
    variables: &[Variables],
    block: &BlockCode<'p>,
) -> Result<EmittedBody<'p>, NoMemory>
    ensures { (r : Routine) → IsCode r.scope.program code.now → IsBlockCode block.now r → r.scope.in_guard ≡ false →
        IfOk result (λ b. body_seen b ≡ block_body r.scope.program parameters r.scope r.statements) }
{
    let types = &block.body.names.types;
    let spare = depth_of_all(block.statements)?;
    let places = declared_at(alloc, variables)?;
    let mut out = Listing::new(alloc);
    emit_variables(code, parameters, types, &places, &mut out)?;
    emit_body(
        alloc,
        code,
        &block.body,
        spare,
        block.statements,
        Ending::Ends,
        &mut out,
    )?;
    let opens = openings(alloc, code, types)?;
    Ok(EmittedBody {
        code: out,
        opens,
        spare,
    })
}

// A body that is none: no code, no names and no loops.
fn nothing<'p>(alloc: Global) -> EmittedBody<'p>
    ensures { body_seen result ≡ no_body }
{
    EmittedBody {
        code: Listing::new(alloc),
        opens: Vec::new(alloc),
        spare: 0,
    }
}

// A process with so many parameters, and these variables, where there is one.
fn compile_known<'p>(
    alloc: Global,
    code: &Code<'p>,
    parameters: usize,
    variables: &[Variables],
    block: Option<&BlockCode<'p>>,
) -> Result<EmittedBody<'p>, NoMemory>
    ensures { (r : Routine) → IsCode r.scope.program code.now → Both (λ c r. IsBlockCode c.now r) block.entry (Some r) → r.scope.in_guard ≡ false →
        IfOk result (λ b. body_seen b ≡ block_body r.scope.program parameters r.scope r.statements) }
{
    match block {
        None => Ok(nothing(alloc)),
        Some(block) => compile_block(alloc, code, parameters, variables, block),
    }
}

/// The process that is this one of the processes, by its declaration.
///
/// # Errors
/// Want of memory.
pub fn compile_process<'p>(
    alloc: Global,
    code: &Code<'p>,
    place: usize,
    item: &Top<'p>,
) -> Result<EmittedBody<'p>, NoMemory>
    ensures { (us : List Source) → IsCode us code.now → slice_get (process_texts us) place ≡ Some (top item.now) →
        IfOk result (λ b. body_seen b ≡ process_at us (top item.now)) }
{
    match item.what {
        What::Process { parameters, body } => compile_known(
            alloc,
            code,
            parameters.len(),
            &body.variables,
            code.process_at(place),
        ),
        _ => Ok(nothing(alloc)),
    }
}
