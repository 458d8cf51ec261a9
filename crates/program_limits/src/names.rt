//! Declared names at the places where they are declared.

ghost use Rattle.std.specs.Prelude.{◌≡◌, ◌+◌, IfOk, length};
ghost use Rattle.orca_syntax.specs.Shown as shown;
ghost use Rattle.accepted_law.specs.Limits as limits;
ghost use Rattle.program_limits.specs.Counted.{names_in_declarations, names_in_heads, names_in_implementation, names_in_opening, names_in_operations, names_of_variables};

use crate::counts::both;
use crate::loops::{loops_in_all, loops_in_body};
use orca_base::NoMemory;
use orca_tree::{Block, Declaration, Definition, Head, Operation, Parameter, Statement, Variables};

// The names of variables.
fn variables(all: &[Variables]) -> Result<u64, NoMemory>
    ensures { IfOk result (λ n. n ≡ names_of_variables all.now) }
{
    let mut count = 0;
    'variables: for of_one_type in all {
        count = both(count, of_one_type.names.len() as u64)?;
    }
    Ok(count)
}

// The names in a block: its variables, and those of its loops.
fn in_block(block: &Block) -> Result<u64, NoMemory>
    ensures { IfOk result (λ n. n ≡ limits.names_in_block (shown.block block.now)) }
{
    let own = variables(&block.variables)?;
    let loops = loops_in_all(&block.statements)?;
    both(own, loops)
}

// The names in a head: the operation's, and those of its parameters.
fn in_head(head: &Head) -> Result<u64, NoMemory>
    ensures { IfOk result (λ n. n ≡ limits.names_in_head (shown.head head.now)) }
{
    both(1, head.parameters.len() as u64)
}

// The names in heads.
fn in_heads(heads: &[Head]) -> Result<u64, NoMemory>
    ensures { IfOk result (λ n. n ≡ names_in_heads heads.now) }
{
    let mut count = 0;
    'heads: for head in heads {
        let own = in_head(head)?;
        count = both(count, own)?;
    }
    Ok(count)
}

// The names in an operation.
fn in_operation(operation: &Operation) -> Result<u64, NoMemory>
    ensures { IfOk result (λ n. n ≡ limits.names_in_operation (shown.operation operation.now)) }
{
    let head = in_head(&operation.head)?;
    let own = variables(&operation.variables)?;
    let loops = loops_in_body(&operation.body)?;
    let inside = both(own, loops)?;
    both(head, inside)
}

// The names in operations.
fn in_operations(operations: &[Operation]) -> Result<u64, NoMemory>
    ensures { IfOk result (λ n. n ≡ names_in_operations operations.now) }
{
    let mut count = 0;
    'operations: for operation in operations {
        let own = in_operation(operation)?;
        count = both(count, own)?;
    }
    Ok(count)
}

// The fields of a record, or the values of an enumeration.
fn in_definition(definition: &Definition) -> u64
    ensures { result ≡ limits.names_in_definition (shown.definition definition.now) }
{
    match definition {
        Definition::Record { fields, .. } => fields.len() as u64,
        Definition::Enumeration { names, .. } => names.len() as u64,
        Definition::Alias { .. } => 0,
    }
}

// The loop variables of the statements that open an object.
fn in_opening(opening: &Option<Vec<Statement>>) -> Result<u64, NoMemory>
    ensures { IfOk result (λ n. n ≡ names_in_opening opening.now) }
{
    match opening {
        Some(statements) => loops_in_all(statements),
        None => Ok(0),
    }
}

// The names of an implementation.
fn in_implementation(
    fields: &[Variables],
    operations: &[Operation],
    opening: &Option<Vec<Statement>>,
) -> Result<u64, NoMemory>
    ensures { IfOk result (λ n. n ≡ names_in_implementation fields.now operations.now opening.now) }
{
    let of_fields = variables(fields)?;
    let of_operations = in_operations(operations)?;
    let loops = in_opening(opening)?;
    let behind = both(of_operations, loops)?;
    let inside = both(of_fields, behind)?;
    both(1, inside)
}

// The names of a function or a process.
fn in_body(parameters: &[Parameter], body: &Block) -> Result<u64, NoMemory>
    ensures { IfOk result (λ n. n ≡ 1 + (length parameters.now + limits.names_in_block (shown.block body.now))) }
{
    let inside = in_block(body)?;
    let with_parameters = both(parameters.len() as u64, inside)?;
    both(1, with_parameters)
}

// The names of a declaration.
fn in_declaration(declaration: &Declaration) -> Result<u64, NoMemory>
    ensures { IfOk result (λ n. n ≡ limits.names_declared (shown.decl declaration.now)) }
{
    match declaration {
        Declaration::Constant { .. } => Ok(1),
        Declaration::Type { definition, .. } => both(1, in_definition(definition)),
        Declaration::Specification { heads, .. } => {
            let inside = in_heads(heads)?;
            both(1, inside)
        }
        Declaration::Implementation {
            fields,
            operations,
            opening,
            ..
        } => in_implementation(fields, operations, opening),
        Declaration::Function {
            parameters,
            body,
            ..
        }
        | Declaration::Process {
            parameters,
            body,
            ..
        } => in_body(parameters, body),
    }
}

// The names of declarations.
pub(crate) fn names_declared(declarations: &[Declaration]) -> Result<u64, NoMemory>
    ensures { IfOk result (λ n. n ≡ names_in_declarations declarations.now) }
{
    let mut count = 0;
    'declarations: for declaration in declarations {
        let own = in_declaration(declaration)?;
        count = both(count, own)?;
    }
    Ok(count)
}
