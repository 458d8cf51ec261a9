//! The code of statements that hold no other.

ghost use Rattle.std.specs.Prelude.{◌≡◌, IfOk, OnOk, option_map};
ghost use Rattle.orca_syntax.specs.Shown.{expr, exprs, path as path_shown};
ghost use Rattle.type_rules.specs.Scopes.{Scope};
ghost use Rattle.meaning_rules.specs.Calls.{callee, modes_of};
ghost use Rattle.meaning_rules.specs.Designators.{root_type};
ghost use Rattle.code_rules.specs.Phrases as rules;
ghost use Rattle.code_rules.specs.Layouts.{Layout};
ghost use Rattle.code_rules.specs.Pieces.{one, seq};
ghost use Rattle.code_rules.specs.Phrases.{all_code, all_names, calling, count_all, expr_code, fork_code, invoking, passed_code, path_code, return_code};
ghost use Rattle.code_rules.specs.Instructions as instrs;
ghost use Rattle.program_bodies.specs.Sites.{IsSite};
ghost use Rattle.emitted_code.specs.Appends.{Appends};
ghost use Rattle.code_exprs.specs.CodeSites.{IsCodeSite};
ghost use Rattle.emitted_code.specs.Views.{code_of, texts_of};

use crate::code_site::CodeSite;
use crate::expressions::{emit_all, emit_call, emit_expression, emit_path, emit_request};
use crate::names::marks;
use emitted_code::{Instr, Listing};
use orca_base::{KindNo, NoMemory, OpNo, TextNo};
use orca_tree::{Designator, Expression, Name};
use program_bodies::Site;
use std::alloc::Global;

/// An assignment.
pub fn assign(
    alloc: Global,
    here: CodeSite<'_, '_>,
    into: &Designator,
    value: &Expression,
    out: &mut Listing<'_>,
) -> Result<(), NoMemory>
    ensures { (w : Scope) (l : Layout) → IsCodeSite here.entry w l →
        OnOk result (Appends (seq (path_code w l (path_shown into.now.path.items)) (seq (expr_code w l (expr value.now))
        (one (instrs.Put (rules.at_slot w l into.now.name) (rules.marks w (root_type w into.now.name) (path_shown into.now.path.items))))))
        (code_of out.old) (code_of out.new)) }
{
    emit_path(alloc, here, &into.path, out)?;
    emit_expression(alloc, here, value, out)?;
    let path = marks(alloc, here.site, here.site.root(&into.name), &into.path)?;
    out.put(Instr::Put {
        slot: here.slot(&into.name),
        path,
    })
}

/// `insert`, which has its element before the indices of the set or bag.
pub fn insert(
    alloc: Global,
    here: CodeSite<'_, '_>,
    element: &Expression,
    into: &Designator,
    out: &mut Listing<'_>,
) -> Result<(), NoMemory>
    ensures { (w : Scope) (l : Layout) → IsCodeSite here.entry w l →
        OnOk result (Appends (seq (expr_code w l (expr element.now)) (seq (path_code w l (path_shown into.now.path.items))
        (one (instrs.Insert (rules.at_slot w l into.now.name) (rules.marks w (root_type w into.now.name) (path_shown into.now.path.items))))))
        (code_of out.old) (code_of out.new)) }
{
    emit_expression(alloc, here, element, out)?;
    emit_path(alloc, here, &into.path, out)?;
    let path = marks(alloc, here.site, here.site.root(&into.name), &into.path)?;
    out.put(Instr::Insert {
        slot: here.slot(&into.name),
        path,
    })
}

/// `delete`, likewise.
pub fn delete(
    alloc: Global,
    here: CodeSite<'_, '_>,
    element: &Expression,
    from: &Designator,
    out: &mut Listing<'_>,
) -> Result<(), NoMemory>
    ensures { (w : Scope) (l : Layout) → IsCodeSite here.entry w l →
        OnOk result (Appends (seq (expr_code w l (expr element.now)) (seq (path_code w l (path_shown from.now.path.items))
        (one (instrs.Delete (rules.at_slot w l from.now.name) (rules.marks w (root_type w from.now.name) (path_shown from.now.path.items))))))
        (code_of out.old) (code_of out.new)) }
{
    emit_expression(alloc, here, element, out)?;
    emit_path(alloc, here, &from.path, out)?;
    let path = marks(alloc, here.site, here.site.root(&from.name), &from.path)?;
    out.put(Instr::Delete {
        slot: here.slot(&from.name),
        path,
    })
}

/// `return`, with a value or without.
pub fn give_back(
    alloc: Global,
    here: CodeSite<'_, '_>,
    value: &Option<Expression>,
    out: &mut Listing<'_>,
) -> Result<(), NoMemory>
    ensures { (w : Scope) (l : Layout) → IsCodeSite here.entry w l →
        OnOk result (Appends (return_code w l (option_map expr value.now)) (code_of out.old) (code_of out.new)) }
{
    match value {
        None => out.put(Instr::Return),
        Some(e) => {
            emit_expression(alloc, here, e, out)?;
            out.put(Instr::Result)
        }
    }
}

// A fork on the process's own member, whose arguments stand on the stack; what it leaves goes.
fn fork_here(text: TextNo, count: usize, out: &mut Listing<'_>) -> Result<(), NoMemory>
    ensures { OnOk result (Appends (seq (one (instrs.Fork text count)) (one instrs.Pop)) (code_of out.old) (code_of out.new)) }
{
    out.put(Instr::Fork { text, count })?;
    out.put(Instr::Pop)
}

// A fork on the member that an expression names.
fn fork_there(
    alloc: Global,
    here: CodeSite<'_, '_>,
    text: TextNo,
    count: usize,
    on: &Expression,
    out: &mut Listing<'_>,
) -> Result<(), NoMemory>
    ensures { (w : Scope) (l : Layout) → IsCodeSite here.entry w l →
        OnOk result (Appends (seq (expr_code w l (expr on.now)) (seq (one (instrs.ForkOn text count)) (one instrs.Pop)))
        (code_of out.old) (code_of out.new)) }
{
    emit_expression(alloc, here, on, out)?;
    out.put(Instr::ForkOn { text, count })?;
    out.put(Instr::Pop)
}

// A fork whose arguments stand on the stack.
fn fork_with(
    alloc: Global,
    here: CodeSite<'_, '_>,
    process: &Name,
    count: usize,
    on: &Option<Expression>,
    out: &mut Listing<'_>,
) -> Result<(), NoMemory>
    ensures { (w : Scope) (l : Layout) → IsCodeSite here.entry w l →
        OnOk result (Appends (fork_code w l process.now count (option_map expr on.now)) (code_of out.old) (code_of out.new)) }
{
    let text = here.site.text(process);
    match on {
        None => fork_here(text, count, out),
        Some(e) => fork_there(alloc, here, text, count, e, out),
    }
}

/// `fork`.
pub fn fork(
    alloc: Global,
    here: CodeSite<'_, '_>,
    process: &Name,
    given: &[Expression],
    on: &Option<Expression>,
    out: &mut Listing<'_>,
) -> Result<(), NoMemory>
    ensures { (w : Scope) (l : Layout) → IsCodeSite here.entry w l →
        OnOk result (Appends (seq (all_code w l (exprs given.now)) (fork_code w l process.now (count_all (exprs given.now)) (option_map expr on.now)))
        (code_of out.old) (code_of out.new)) }
{
    emit_all(alloc, here, given, out)?;
    fork_with(alloc, here, process, given.len(), on, out)
}

// The names of the values of each expression's type, where that is an enumeration.
fn names_of_all<'p>(
    alloc: Global,
    site: Site<'_, 'p>,
    given: &[Expression],
) -> Result<Vec<&'p [Name]>, NoMemory>
    ensures { (w : Scope) → IsSite site.entry w → IfOk result (λ v. texts_of v.items ≡ all_names w (exprs given.now)) }
{
    let mut all = Vec::new(alloc);
    'given: for e in given {
        let own = site.names(alloc, e)?;
        all.push(own)?;
    }
    Ok(all)
}

/// `WriteLine`.
pub fn write_line<'p>(
    alloc: Global,
    here: CodeSite<'_, 'p>,
    given: &[Expression],
    out: &mut Listing<'p>,
) -> Result<(), NoMemory>
    ensures { (w : Scope) (l : Layout) → IsCodeSite here.entry w l →
        OnOk result (Appends (seq (all_code w l (exprs given.now)) (seq (one (instrs.Line (all_names w (exprs given.now)))) (seq (one rules.writing) (one instrs.Pop))))
        (code_of out.old) (code_of out.new)) }
{
    emit_all(alloc, here, given, out)?;
    let names = names_of_all(alloc, here.site, given)?;
    out.put(Instr::Line { names })?;
    out.put(Instr::Invoke {
        kind: KindNo(0),
        operation: OpNo(0),
        count: 1,
        object: 0,
    })?;
    out.put(Instr::Pop)
}

/// A call of a function, whose value goes.
pub fn call_function(
    alloc: Global,
    here: CodeSite<'_, '_>,
    function: &Name,
    given: &[Expression],
    out: &mut Listing<'_>,
) -> Result<(), NoMemory>
    ensures { (w : Scope) (l : Layout) → IsCodeSite here.entry w l →
        OnOk result (Appends (seq (passed_code w l (modes_of (callee w function.now)) (exprs given.now))
        (seq (one (calling w l function.now (exprs given.now))) (one instrs.Pop))) (code_of out.old) (code_of out.new)) }
{
    emit_call(alloc, here, function, given, out)?;
    out.put(Instr::Pop)
}

/// A call of an object's operation, whose value goes.
pub fn call_operation(
    alloc: Global,
    here: CodeSite<'_, '_>,
    object: &Name,
    operation: &Name,
    given: &[Expression],
    out: &mut Listing<'_>,
) -> Result<(), NoMemory>
    ensures { (w : Scope) (l : Layout) → IsCodeSite here.entry w l →
        OnOk result (Appends (seq (all_code w l (exprs given.now))
        (seq (one (invoking w l object.now operation.now (count_all (exprs given.now)))) (one instrs.Pop))) (code_of out.old) (code_of out.new)) }
{
    emit_request(alloc, here, object, operation, given, out)?;
    out.put(Instr::Pop)
}
