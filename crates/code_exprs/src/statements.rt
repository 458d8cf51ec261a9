//! The code of statements.

ghost use Rattle.std.specs.Prelude.{◌≡◌, IfOk, OnOk, length};
ghost use Rattle.orca_syntax.specs.Shown.{arms as arms_shown, expr, stmt, stmts};
ghost use Rattle.type_rules.specs.Scopes.{Scope};
ghost use Rattle.type_rules.specs.Statements.{with_loop};
ghost use Rattle.code_rules.specs.Layouts as layouts;
ghost use Rattle.code_rules.specs.Layouts.{Layout, inside};
ghost use Rattle.code_rules.specs.Pieces.{loop_piece, repeat_piece, seq, while_piece};
ghost use Rattle.code_rules.specs.Phrases.{arms_code, expr_code, stmt_code, stmts_code};
ghost use Rattle.emitted_code.specs.Appends.{Appends};
ghost use Rattle.code_exprs.specs.Jumps.{IsArm, aimed, closing};
ghost use Rattle.code_exprs.specs.CodeSites.{IsCodeSite};
ghost use Rattle.emitted_code.specs.Views.{code_of};

use crate::code_site::CodeSite;
use crate::expressions::emit_expression;
use crate::leaves::{
    assign, call_function, call_operation, delete, fork, give_back, insert, write_line,
};
use emitted_code::{Instr, Listing};
use orca_base::NoMemory;
use orca_tree::{Arm, Expression, Name, Range, Statement};
use program_bodies::inner_loops;
use std::alloc::Global;

// The end of a loop.
fn close(back: usize, out: &mut Listing<'_>) -> Result<(), NoMemory>
    ensures { OnOk result (Appends (closing back) (code_of out.old) (code_of out.new)) }
{
    let at = out.len();
    out.put(Instr::Unless { to: 0 })?;
    out.put(Instr::Jump { to: back })?;
    let to = out.len();
    out.fix(at, Instr::Unless { to });
    Ok(())
}

// Jumps that stand at these addresses lead to the end.
fn fill(holes: Vec<usize>, out: &mut Listing<'_>)
    ensures { code_of out.new ≡ aimed holes.items (length (code_of out.old)) (code_of out.old) }
{
    let to = out.len();
    let mut left = holes;
    'holes: while let Some(hole) = left.pop() {
        out.fix(hole, Instr::Jump { to });
    }
}

/// The code of statements, one after the other. Beside it stands in the listing where it comes from in the text: each statement's code from
/// where that begins; the test of a `while`, a `repeat` or an arm from where the test begins; and `upto` from the loop's variable.
///
/// # Errors
/// Want of memory.
#[cycle(statements)]
pub fn emit_statements<'p>(
    alloc: Global,
    here: CodeSite<'_, 'p>,
    statements: &'p [Statement],
    out: &mut Listing<'p>,
) -> Result<(), NoMemory>
    ensures { (w : Scope) (l : Layout) → IsCodeSite here.entry w l →
        OnOk result (Appends (stmts_code w l (stmts statements.now)) (code_of out.old) (code_of out.new)) }
{
    'statements: for one in statements {
        out.comes_from(one.place())?;
        emit_statement(alloc, here, one, out)?;
    }
    Ok(())
}

// The code of a statement.
#[cycle(statements)]
fn emit_statement<'p>(
    alloc: Global,
    here: CodeSite<'_, 'p>,
    statement: &'p Statement,
    out: &mut Listing<'p>,
) -> Result<(), NoMemory>
    ensures { (w : Scope) (l : Layout) → IsCodeSite here.entry w l →
        OnOk result (Appends (stmt_code w l (stmt statement.now)) (code_of out.old) (code_of out.new)) }
{
    match statement {
        Statement::If { arms, .. } => emit_arms(alloc, here, arms, out),
        Statement::While { test, body, .. } => emit_while(alloc, here, body, test, out),
        Statement::For {
            name,
            range,
            body,
            ..
        } => emit_for(alloc, here, body, name, range, out),
        Statement::Repeat { body, test, .. } => emit_repeat(alloc, here, body, test, out),
        Statement::Assign { to, value } => assign(alloc, here, to, value, out),
        Statement::Return { value, .. } => give_back(alloc, here, value, out),
        Statement::Fork {
            process,
            arguments,
            on,
            ..
        } => fork(alloc, here, process, arguments, on, out),
        Statement::WriteLine { arguments, .. } => write_line(alloc, here, arguments, out),
        Statement::Insert { element, into, .. } => insert(alloc, here, element, into, out),
        Statement::Delete { element, from, .. } => delete(alloc, here, element, from, out),
        Statement::Call {
            function,
            arguments,
        } => call_function(alloc, here, function, arguments, out),
        Statement::Invoke {
            object,
            operation,
            arguments,
        } => call_operation(alloc, here, object, operation, arguments, out),
    }
}

// `while`.
#[cycle(statements)]
fn emit_while<'p>(
    alloc: Global,
    here: CodeSite<'_, 'p>,
    body: &'p [Statement],
    test: &Expression,
    out: &mut Listing<'p>,
) -> Result<(), NoMemory>
    ensures { (w : Scope) (l : Layout) → IsCodeSite here.entry w l →
        OnOk result (Appends (while_piece (expr_code w l (expr test.now)) (stmts_code w l (stmts body.now))) (code_of out.old) (code_of out.new)) }
{
    let at = out.len();
    out.put(Instr::Jump { to: 0 })?;
    let back = out.len();
    out.put(Instr::Turn)?;
    emit_statements(alloc, here, body, out)?;
    out.comes_from(test.place())?;
    let ask = out.len();
    emit_expression(alloc, here, test, out)?;
    close(back, out)?;
    out.fix(at, Instr::Jump { to: ask });
    Ok(())
}

// `repeat`.
#[cycle(statements)]
fn emit_repeat<'p>(
    alloc: Global,
    here: CodeSite<'_, 'p>,
    body: &'p [Statement],
    test: &Expression,
    out: &mut Listing<'p>,
) -> Result<(), NoMemory>
    ensures { (w : Scope) (l : Layout) → IsCodeSite here.entry w l →
        OnOk result (Appends (repeat_piece (stmts_code w l (stmts body.now)) (expr_code w l (expr test.now))) (code_of out.old) (code_of out.new)) }
{
    let at = out.len();
    out.put(Instr::Turn)?;
    emit_statements(alloc, here, body, out)?;
    out.comes_from(test.place())?;
    emit_expression(alloc, here, test, out)?;
    out.put(Instr::Unless { to: at })
}

// `for`.
#[cycle(statements)]
fn emit_for<'p>(
    alloc: Global,
    here: CodeSite<'_, 'p>,
    body: &'p [Statement],
    name: &'p Name,
    range: &Range,
    out: &mut Listing<'p>,
) -> Result<(), NoMemory>
    ensures { (w : Scope) (l : Layout) → IsCodeSite here.entry w l →
        OnOk result (Appends (seq (expr_code w l (expr range.now.low)) (seq (expr_code w l (expr range.now.high))
        (loop_piece (layouts.free l) (stmts_code (with_loop w name.now) (inside l) (stmts body.now))))) (code_of out.old) (code_of out.new)) }
{
    emit_expression(alloc, here, &range.low, out)?;
    emit_expression(alloc, here, &range.high, out)?;
    let loops = inner_loops(alloc, here.site.loops, name.text.as_str())?;
    let slot = here.free();
    let at = out.len();
    out.put(Instr::Count { slot, to: 0 })?;
    let back = out.len();
    out.put(Instr::Turn)?;
    emit_statements(alloc, here.in_loops(&loops), body, out)?;
    out.comes_from(name.at)?;
    out.put(Instr::Upto { slot, to: back })?;
    let to = out.len();
    out.fix(at, Instr::Count { slot, to });
    Ok(())
}

// `if`.
#[cycle(statements)]
fn emit_arms<'p>(
    alloc: Global,
    here: CodeSite<'_, 'p>,
    arms: &'p [Arm],
    out: &mut Listing<'p>,
) -> Result<(), NoMemory>
    ensures { (w : Scope) (l : Layout) → IsCodeSite here.entry w l →
        OnOk result (Appends (arms_code w l (arms_shown arms.now)) (code_of out.old) (code_of out.new)) }
{
    let mut holes = Vec::new(alloc);
    'arms: for one in arms {
        match one {
            Arm::When { test, body } => {
                let hole = emit_when(alloc, here, body, test, out)?;
                holes.push(hole)?;
            }
            Arm::Otherwise { body } => {
                emit_statements(alloc, here, body, out)?;
                fill(holes, out);
                return Ok(());
            }
        }
    }
    fill(holes, out);
    Ok(())
}

// An arm with its test, but for the address behind all arms to which its last jump leads. It gives the address of that jump.
#[cycle(statements)]
fn emit_when<'p>(
    alloc: Global,
    here: CodeSite<'_, 'p>,
    body: &'p [Statement],
    test: &Expression,
    out: &mut Listing<'p>,
) -> Result<usize, NoMemory>
    ensures { (w : Scope) (l : Layout) → IsCodeSite here.entry w l →
        IfOk result (λ hole. IsArm (expr_code w l (expr test.now)) (stmts_code w l (stmts body.now)) (code_of out.old) (code_of out.new) hole) }
{
    out.comes_from(test.place())?;
    emit_expression(alloc, here, test, out)?;
    let at = out.len();
    out.put(Instr::Unless { to: 0 })?;
    emit_statements(alloc, here, body, out)?;
    let hole = out.len();
    out.put(Instr::Jump { to: 0 })?;
    let to = out.len();
    out.fix(at, Instr::Unless { to });
    Ok(hole)
}
