//! The code of object types: of their makings and operations.

ghost use Rattle.std.specs.Prelude.{◌≡◌, IfOk, List, map, option_and_then, option_map, slice_get};
ghost use Rattle.orca_syntax.specs.Shown.{stmts};
ghost use Rattle.orca_syntax.specs.Syntax.{Operation};
ghost use Rattle.link_rules.specs.Units.{Source};
ghost use Rattle.meaning_rules.specs.Programs.{ObjectType, specifications};
ghost use Rattle.code_rules.specs.Bodies.{begin_stmts, making_code, operation_code};
ghost use Rattle.code_rules.specs.Program.{type_at, type_code};
ghost use Rattle.program_bodies.specs.Codes.{IsCode};
ghost use Rattle.program_bodies.specs.Matching.{Match};
ghost use Rattle.program_bodies.specs.Objects.{IsObjectCode, IsOperationCode};
ghost use Rattle.emitted_code.specs.Views.{body_seen, operation_seen, type_seen};

use crate::bodies::{Ending, compile_statements};
use crate::operations::compile_operation;
use emitted_code::{EmittedBody, EmittedOperation, EmittedType};
use orca_base::NoMemory;
use orca_tree::Statement;
use program_bodies::{Code, ObjectCode, OperationCode};
use std::alloc::Global;

// The statements that open an object.
fn opening_of(begins: &Option<Vec<Statement>>) -> &[Statement]
    ensures { stmts result.now ≡ begin_stmts (option_map (λ ss. stmts ss.items) begins.now) }
{
    match begins {
        None => &[],
        Some(statements) => statements.as_slice(),
    }
}

// The making of an object.
fn compile_making<'p>(
    alloc: Global,
    code: &Code<'p>,
    own: &ObjectCode<'p>,
) -> Result<EmittedBody<'p>, NoMemory>
    ensures { (us : List Source) (t : ObjectType) → IsCode us code.now → IsObjectCode us own.now t →
        IfOk result (λ b. body_seen b ≡ making_code us t) }
{
    let statements = opening_of(own.begins);
    compile_statements(alloc, code, &own.fields, statements, Ending::Ends)
}

// The operations of an object type.
fn compile_operations<'p>(
    alloc: Global,
    code: &Code<'p>,
    operations: &[OperationCode<'p>],
) -> Result<Vec<EmittedOperation<'p>>, NoMemory>
    ensures { (us : List Source) (t : ObjectType) (os : List Operation) → IsCode us code.now → Match (IsOperationCode us t) operations.now os →
        IfOk result (λ v. map operation_seen v.items ≡ map (operation_code us t) os) }
{
    let mut all = Vec::new(alloc);
    'operations: for one in operations {
        let own = compile_operation(alloc, code, one)?;
        all.push(own)?;
    }
    Ok(all)
}

// An object type.
fn compile_object<'p>(
    alloc: Global,
    code: &Code<'p>,
    own: &ObjectCode<'p>,
) -> Result<EmittedType<'p>, NoMemory>
    ensures { (us : List Source) (t : ObjectType) → IsCode us code.now → IsObjectCode us own.now t →
        IfOk result (λ c. type_seen c ≡ type_code us t) }
{
    let making = compile_making(alloc, code, own)?;
    let operations = compile_operations(alloc, code, &own.operations)?;
    Ok(EmittedType { making, operations })
}

/// The object type that has this one of the specifications; none where it isn't implemented.
///
/// # Errors
/// Want of memory.
pub fn compile_type<'p>(
    alloc: Global,
    code: &Code<'p>,
    place: usize,
) -> Result<Option<EmittedType<'p>>, NoMemory>
    ensures { (us : List Source) → IsCode us code.now →
        IfOk result (λ o. option_map type_seen o ≡ option_and_then (type_at us) (slice_get (specifications us) place)) }
{
    match code.specified_at(place) {
        None => Ok(None),
        Some(own) => {
            let made = compile_object(alloc, code, own)?;
            Ok(Some(made))
        }
    }
}
