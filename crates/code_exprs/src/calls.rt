//! What a call is beside the code of its arguments.

ghost use Rattle.std.specs.Prelude.{◌≡◌, IfOk, map, option_map};
ghost use Rattle.orca_syntax.specs.Shown.{expr, exprs};
ghost use Rattle.type_rules.specs.Scopes.{Scope};
ghost use Rattle.meaning_rules.specs.Calls.{fresh_node, modes_of};
ghost use Rattle.code_rules.specs.Instructions as instrs;
ghost use Rattle.code_rules.specs.Phrases as rules;
ghost use Rattle.code_rules.specs.Layouts.{Layout};
ghost use Rattle.code_rules.specs.Phrases.{by_mode, call_of, lending, shapes_of};
ghost use Rattle.program_bodies.specs.Named.{callee_seen};
ghost use Rattle.code_exprs.specs.CodeSites.{IsCodeSite};
ghost use Rattle.emitted_code.specs.Views.{instr_of, shape_of};
ghost use Rattle.code_exprs.specs.Lending.{lending_of};

use crate::code_site::CodeSite;
use crate::names::marks;
use emitted_code::{Instr, Shape};
use orca_base::NoMemory;
use orca_tree::{Designator, Expression, Mode, Name};
use program_bodies::Callee;
use std::alloc::Global;

// The designator that an expression is, if it is one.
#[tactic(auto, using(orca_syntax::proofs::ShownLaws::phrases))]
fn designator(e: &Expression) -> Option<&Designator>
    ensures { (w : Scope) (l : Layout) → lending w l (expr e.now) ≡ lending_of w l (option_map (λ d. d.now) result) }
{
    match e {
        Expression::Get { from } => Some(from),
        _ => None,
    }
}

// What an argument for `out` lends.
fn lent(alloc: Global, here: CodeSite<'_, '_>, e: &Expression) -> Result<Shape, NoMemory>
    ensures { (w : Scope) (l : Layout) → IsCodeSite here.entry w l → IfOk result (λ s. shape_of s ≡ lending w l (expr e.now)) }
{
    match designator(e) {
        None => Ok(Shape::Lends {
            slot: here.beyond,
            path: Vec::new(alloc),
        }),
        Some(to) => {
            let path = marks(alloc, here.site, here.site.root(&to.name), &to.path)?;
            Ok(Shape::Lends {
                slot: here.slot(&to.name),
                path,
            })
        }
    }
}

// What an argument passes.
fn shape(
    alloc: Global,
    here: CodeSite<'_, '_>,
    mode: Mode,
    e: &Expression,
) -> Result<Shape, NoMemory>
    ensures { (w : Scope) (l : Layout) → IsCodeSite here.entry w l →
        IfOk result (λ s. shape_of s ≡ by_mode mode instrs.Gives (lending w l (expr e.now))) }
{
    match mode {
        Mode::Out => lent(alloc, here, e),
        Mode::Value | Mode::Shared => Ok(Shape::Gives),
    }
}

// What arguments pass, each as the parameter at its place says.
fn shapes(
    alloc: Global,
    here: CodeSite<'_, '_>,
    is: Callee<'_>,
    given: &[Expression],
) -> Result<Vec<Shape>, NoMemory>
    ensures { (w : Scope) (l : Layout) → IsCodeSite here.entry w l →
        IfOk result (λ v. map shape_of v.items ≡ shapes_of w l (modes_of (callee_seen is.entry)) (exprs given.now)) }
{
    let mut all = Vec::new(alloc);
    'given: for (place, e) in given.iter().enumerate() {
        let own = shape(alloc, here, is.mode(place), e)?;
        all.push(own)?;
    }
    Ok(all)
}

// `addnode`, on a graph that is lent.
fn adding<'i>(
    alloc: Global,
    here: CodeSite<'_, '_>,
    given: &[Expression],
    shapes: Vec<Shape>,
) -> Result<Instr<'i>, NoMemory>
    ensures { (w : Scope) (l : Layout) → IsCodeSite here.entry w l →
        IfOk result (λ i. instr_of i ≡ instrs.AddNode (fresh_node w (exprs given.now)) (map shape_of shapes.items)) }
{
    let fresh = here.site.fresh(alloc, given)?;
    Ok(Instr::AddNode { fresh, shapes })
}

/// The instruction of a call of a function with these arguments.
///
/// # Errors
/// Want of memory.
pub fn calling<'i>(
    alloc: Global,
    here: CodeSite<'_, '_>,
    is: Callee<'_>,
    given: &[Expression],
) -> Result<Instr<'i>, NoMemory>
    ensures { (w : Scope) (l : Layout) → IsCodeSite here.entry w l →
        IfOk result (λ i. instr_of i ≡ call_of (callee_seen is.entry) (fresh_node w (exprs given.now))
        (shapes_of w l (modes_of (callee_seen is.entry)) (exprs given.now))) }
{
    let shapes = shapes(alloc, here, is, given)?;
    match is {
        Callee::AFunction { number, .. } => Ok(Instr::Call {
            function: number,
            shapes,
        }),
        Callee::Adds => adding(alloc, here, given, shapes),
        Callee::Deletes => Ok(Instr::DeleteNode { shapes }),
        Callee::NoFunction => Ok(Instr::Missing),
    }
}

/// The instruction of a call of an object's operation with so many arguments.
pub fn invoking<'i>(
    here: CodeSite<'_, '_>,
    object: &Name,
    operation: &Name,
    count: usize,
) -> Instr<'i>
    ensures { (w : Scope) (l : Layout) → IsCodeSite here.entry w l → instr_of result ≡ rules.invoking w l object.now operation.now count }
{
    let (kind, operation) = here.site.operation(object, operation);
    Instr::Invoke {
        kind,
        operation,
        count,
        object: here.object(object),
    }
}
