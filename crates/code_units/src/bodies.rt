//! The code of bodies, and what their names open with.

ghost use Rattle.std.specs.Prelude.{◌≡◌, IfOk, List, OnOk, false, map};
ghost use Rattle.orca_syntax.specs.Shown.{stmts};
ghost use Rattle.link_rules.specs.Units.{Source};
ghost use Rattle.type_rules.specs.Scopes.{Scope};
ghost use Rattle.value_core.specs.View.{datum_of};
ghost use Rattle.meaning_rules.specs.Openings.{opening};
ghost use Rattle.code_rules.specs.Pieces.{one};
ghost use Rattle.code_rules.specs.Bodies.{body_piece, function_body, last_instr};
ghost use Rattle.program_bodies.specs.Blocks.{IsBlockCode, Routine};
ghost use Rattle.program_bodies.specs.Bodies.{IsBody};
ghost use Rattle.program_bodies.specs.Codes.{IsCode};
ghost use Rattle.emitted_code.specs.Appends.{Appends};
ghost use Rattle.emitted_code.specs.Views.{code_of};
ghost use Rattle.code_units.specs.Endings.{last_of};
ghost use Rattle.code_units.specs.Plain.{plain_body};
ghost use Rattle.emitted_code.specs.Views.{body_seen};

use crate::depths::depth_of_all;
use code_exprs::{CodeSite, emit_statements};
use emitted_code::{EmittedBody, Instr, Listing};
use orca_base::NoMemory;
use orca_tree::Statement;
use program_bodies::{BlockCode, Body, Code};
use program_tables::Seen;
use std::alloc::Global;
use type_rules::DataType;
use value_core::Value;

/// What comes at the end of a body: back to the caller, the fault of a missing result, or the end.
#[derive(Clone, Copy)]
pub enum Ending {
    Returns,
    Missing,
    Ends,
}

/// The end of a body that has a result or not.
pub fn end_of(has_result: bool) -> Ending
    ensures { last_of result ≡ last_instr has_result }
{
    if has_result {
        Ending::Missing
    } else {
        Ending::Returns
    }
}

// The fault of a missing result comes from the last statement, where there is one. Other ends can't fault.
fn end_comes_from(
    end: Ending,
    statements: &[Statement],
    out: &mut Listing<'_>,
) -> Result<(), NoMemory>
    ensures { code_of out.new ≡ code_of out.old }
{
    if !matches!(end, Ending::Missing) {
        return Ok(());
    }
    match statements.last() {
        None => Ok(()),
        Some(last) => out.comes_from(last.place()),
    }
}

// The instruction at the end.
fn emit_end(end: Ending, out: &mut Listing<'_>) -> Result<(), NoMemory>
    ensures { OnOk result (Appends (one (last_of end)) (code_of out.old) (code_of out.new)) }
{
    match end {
        Ending::Returns => out.put(Instr::Return),
        Ending::Missing => out.put(Instr::Missing),
        Ending::Ends => out.put(Instr::End),
    }
}

/// The code of a body's statements, with its end.
///
/// # Errors
/// Want of memory.
pub fn emit_body<'p>(
    alloc: Global,
    code: &Code<'p>,
    body: &Body<'p>,
    spare: usize,
    statements: &'p [Statement],
    end: Ending,
    out: &mut Listing<'p>,
) -> Result<(), NoMemory>
    ensures { (w : Scope) → IsCode w.program code.now → IsBody body.now w → w.in_guard ≡ false →
        OnOk result (Appends (body_piece w spare (stmts statements.now) (last_of end)) (code_of out.old) (code_of out.new)) }
{
    let here = CodeSite::new(code, body, false, spare)?;
    emit_statements(alloc, here, statements, out)?;
    end_comes_from(end, statements, out)?;
    emit_end(end, out)
}

// What a variable of a type opens with.
fn opening_of(alloc: Global, code: &Code<'_>, kind: &Option<DataType>) -> Result<Value, NoMemory>
    ensures { (us : List Source) → IsCode us code.now → IfOk result (λ v. datum_of v ≡ opening us kind.now) }
{
    code.tables().opening(alloc, Seen::of_known(kind))
}

/// What variables of these types open with.
///
/// # Errors
/// Want of memory.
pub fn openings(
    alloc: Global,
    code: &Code<'_>,
    types: &[Option<DataType>],
) -> Result<Vec<Value>, NoMemory>
    ensures { (us : List Source) → IsCode us code.now → IfOk result (λ v. map datum_of v.items ≡ map (opening us) types.now) }
{
    let mut all = Vec::new(alloc);
    'types: for kind in types {
        let own = opening_of(alloc, code, kind)?;
        all.push(own)?;
    }
    Ok(all)
}

/// A body that has only statements, with this end.
///
/// # Errors
/// Want of memory.
pub fn compile_statements<'p>(
    alloc: Global,
    code: &Code<'p>,
    body: &Body<'p>,
    statements: &'p [Statement],
    end: Ending,
) -> Result<EmittedBody<'p>, NoMemory>
    ensures { (w : Scope) → IsCode w.program code.now → IsBody body.now w → w.in_guard ≡ false →
        IfOk result (λ b. body_seen b ≡ plain_body w (stmts statements.now) (last_of end)) }
{
    let spare = depth_of_all(statements)?;
    let mut out = Listing::new(alloc);
    emit_body(alloc, code, body, spare, statements, end, &mut out)?;
    let opens = openings(alloc, code, &body.names.types)?;
    Ok(EmittedBody {
        code: out,
        opens,
        spare,
    })
}

/// The body of a function.
///
/// # Errors
/// Want of memory.
pub fn compile_function<'p>(
    alloc: Global,
    code: &Code<'p>,
    block: &BlockCode<'p>,
) -> Result<EmittedBody<'p>, NoMemory>
    ensures { (r : Routine) → IsCode r.scope.program code.now → IsBlockCode block.now r → r.scope.in_guard ≡ false →
        IfOk result (λ b. body_seen b ≡ function_body r.scope.program r.scope r.statements r.has_result) }
{
    let end = end_of(block.has_result);
    compile_statements(alloc, code, &block.body, block.statements, end)
}
