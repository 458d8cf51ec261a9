//! The code of operations, with their guards.

ghost use Rattle.std.specs.Prelude.{◌≡◌, ◌∷◌, IfOk, List, OnOk, map};
ghost use Rattle.orca_syntax.specs.Shown.{body as body_shown, expr, guard as guard_shown, stmts};
ghost use Rattle.orca_syntax.specs.Syntax.{Operation};
ghost use Rattle.link_rules.specs.Units.{Source};
ghost use Rattle.type_rules.specs.Scopes.{Scope};
ghost use Rattle.meaning_rules.specs.Programs.{ObjectType};
ghost use Rattle.code_rules.specs.Layouts.{layout_of};
ghost use Rattle.code_rules.specs.Phrases.{expr_code};
ghost use Rattle.code_rules.specs.Bodies.{alternatives_piece, body_piece, first_guard as first_number, guards_piece, last_instr, operation_code};
ghost use Rattle.program_bodies.specs.Codes.{IsCode};
ghost use Rattle.program_bodies.specs.Objects.{IsOperationCode};
ghost use Rattle.emitted_code.specs.Appends.{Appends};
ghost use Rattle.emitted_code.specs.Views.{code_of};
ghost use Rattle.code_units.specs.Guarded.{SeesGuards, guarded};
ghost use Rattle.emitted_code.specs.Views.{operation_seen};

use crate::bodies::{emit_body, end_of, openings};
use crate::depths::depth_of_body;
use code_exprs::{CodeSite, emit_expression};
use emitted_code::{EmittedBody, EmittedOperation, Instr, Listing};
use orca_base::NoMemory;
use orca_tree::{Guard, OperationBody};
use program_bodies::{Body, Code, OperationCode};
use std::alloc::Global;

// A guard and its body.
fn emit_guard<'p>(
    alloc: Global,
    code: &Code<'p>,
    body: &Body<'p>,
    spare: usize,
    has_result: bool,
    guard: &'p Guard,
    out: &mut Listing<'p>,
) -> Result<(), NoMemory>
    ensures { (g v : Scope) → SeesGuards code.now body.now g v →
        OnOk result (Appends (guarded (expr_code g (layout_of g spare) (expr guard.now.test)) (body_piece v spare (stmts guard.now.body.items) (last_instr has_result)))
        (code_of out.old) (code_of out.new)) }
{
    let here = CodeSite::new(code, body, true, spare)?;
    out.comes_from(guard.at)?;
    emit_expression(alloc, here, &guard.test, out)?;
    let at = out.len();
    out.put(Instr::Guard { to: 0 })?;
    let end = end_of(has_result);
    emit_body(alloc, code, body, spare, &guard.body, end, out)?;
    let to = out.len();
    out.fix(at, Instr::Guard { to });
    Ok(())
}

// Guards in text order, each before its body.
fn emit_guards<'p>(
    alloc: Global,
    code: &Code<'p>,
    body: &Body<'p>,
    spare: usize,
    has_result: bool,
    guards: &'p [Guard],
    out: &mut Listing<'p>,
) -> Result<(), NoMemory>
    ensures { (g v : Scope) → SeesGuards code.now body.now g v →
        OnOk result (Appends (guards_piece g v spare has_result (map guard_shown guards.now)) (code_of out.old) (code_of out.new)) }
{
    'guards: for one in guards {
        emit_guard(alloc, code, body, spare, has_result, one, out)?;
    }
    out.put(Instr::Blocked)
}

// A first guard and others.
fn emit_guarded<'p>(
    alloc: Global,
    code: &Code<'p>,
    body: &Body<'p>,
    spare: usize,
    has_result: bool,
    first: &'p Guard,
    others: &'p [Guard],
    out: &mut Listing<'p>,
) -> Result<(), NoMemory>
    ensures { (g v : Scope) → SeesGuards code.now body.now g v →
        OnOk result (Appends (guards_piece g v spare has_result (guard_shown first.now ∷ map guard_shown others.now)) (code_of out.old) (code_of out.new)) }
{
    emit_guard(alloc, code, body, spare, has_result, first, out)?;
    emit_guards(alloc, code, body, spare, has_result, others, out)
}

// The alternatives of an operation, or its statements.
fn emit_alternatives<'p>(
    alloc: Global,
    code: &Code<'p>,
    body: &Body<'p>,
    spare: usize,
    has_result: bool,
    form: &'p OperationBody,
    out: &mut Listing<'p>,
) -> Result<(), NoMemory>
    ensures { (g v : Scope) → SeesGuards code.now body.now g v →
        OnOk result (Appends (alternatives_piece g v spare has_result (body_shown form.now)) (code_of out.old) (code_of out.new)) }
{
    match form {
        OperationBody::Guarded { first, others } => {
            emit_guarded(alloc, code, body, spare, has_result, first, others, out)
        }
        OperationBody::Plain { statements } => {
            let end = end_of(has_result);
            emit_body(alloc, code, body, spare, statements, end, out)
        }
    }
}

// The number of the first alternative.
fn first_guard(form: &OperationBody) -> u16
    ensures { result ≡ first_number (body_shown form.now) }
{
    match form {
        OperationBody::Guarded { .. } => 1,
        OperationBody::Plain { .. } => 0,
    }
}

/// The code of an operation.
///
/// # Errors
/// Want of memory.
pub fn compile_operation<'p>(
    alloc: Global,
    code: &Code<'p>,
    own: &OperationCode<'p>,
) -> Result<EmittedOperation<'p>, NoMemory>
    ensures { (us : List Source) (t : ObjectType) (o : Operation) → IsCode us code.now → IsOperationCode us t own.now o →
        IfOk result (λ c. operation_seen c ≡ operation_code us t o) }
{
    let form = own.form;
    let spare = depth_of_body(form)?;
    let mut out = Listing::new(alloc);
    emit_alternatives(
        alloc,
        code,
        &own.body,
        spare,
        own.has_result,
        form,
        &mut out,
    )?;
    let opens = openings(alloc, code, &own.variables)?;
    Ok(EmittedOperation {
        body: EmittedBody {
            code: out,
            opens,
            spare,
        },
        first: first_guard(form),
    })
}
