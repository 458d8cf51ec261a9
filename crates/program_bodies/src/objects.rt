//! The code of object types.

ghost use Rattle.std.specs.Prelude.{◌≡◌, ℕ, List, IfOk, map, option_map};
ghost use Rattle.orca_syntax.specs.Shown.{operation as operation_shown};
ghost use Rattle.link_rules.specs.Units.{Source};
ghost use Rattle.type_forms.specs.Forms.{AreTyped};
ghost use Rattle.type_forms.specs.Seen.{top};
ghost use Rattle.type_tables.specs.Entries.{entry};
ghost use Rattle.meaning_rules.specs.Programs.{implementation, specified};
ghost use Rattle.program_bodies.specs.Matching.{Both, Match};
ghost use Rattle.program_bodies.specs.Objects.{IsObjectCode, IsOperationCode, object_type_seen};

use crate::bodies::Body;
use crate::implementations::{Implementations, Implemented};
use crate::operations::{field_names, operation_names, variable_types};
use orca_base::NoMemory;
use orca_tree::{Operation, OperationBody, Statement};
use std::alloc::Global;
use type_forms::{Forms, Top};
use type_rules::{DataType, Owner};

/// What an operation runs: its body, which is that of its guards too, the types of its variables, whether it has a result, and its
/// alternatives or statements.
#[derive(Drop)]
pub struct OperationCode<'p> {
    pub body: Body<'p>,
    pub variables: Vec<Option<DataType>>,
    pub has_result: bool,
    pub form: &'p OperationBody,
}

/// What an object type runs: the body of what opens its objects, whose names are the fields; the statements of that, where there are any;
/// and its operations.
#[derive(Drop)]
pub struct ObjectCode<'p> {
    pub fields: Body<'p>,
    pub begins: &'p Option<Vec<Statement>>,
    pub operations: Vec<OperationCode<'p>>,
}

// The code of an operation.
fn operation_code<'p>(
    alloc: Global,
    forms: Forms<'_, '_>,
    of: Implemented<'p>,
    operation: &'p Operation,
) -> Result<OperationCode<'p>, NoMemory>
    ensures { (us : List Source) → AreTyped us forms.entry →
        IfOk result (λ c. IsOperationCode us (object_type_seen of.entry) c (operation_shown operation.now)) }
{
    let names = operation_names(alloc, forms, of.home, of.fields, operation)?;
    let variables = variable_types(alloc, forms, of.home, of.fields, operation)?;
    Ok(OperationCode {
        body: Body {
            home: of.home,
            owner: Owner::Implementation,
            names,
        },
        variables,
        has_result: operation.head.result.is_some(),
        form: &operation.body,
    })
}

// The code of an implementation's operations.
fn operation_codes<'p>(
    alloc: Global,
    forms: Forms<'_, '_>,
    of: Implemented<'p>,
) -> Result<Vec<OperationCode<'p>>, NoMemory>
    ensures { (us : List Source) → AreTyped us forms.entry → IfOk result (λ v.
        Match (IsOperationCode us (object_type_seen of.entry)) v.items (map operation_shown of.entry.operations.now)) }
{
    let mut all = Vec::new(alloc);
    let operations = of.operations;
    'operations: for operation in operations {
        let own = operation_code(alloc, forms, of, operation)?;
        all.push(own)?;
    }
    Ok(all)
}

// The code of an implementation.
fn object_code<'p>(
    alloc: Global,
    forms: Forms<'_, '_>,
    of: Implemented<'p>,
) -> Result<ObjectCode<'p>, NoMemory>
    ensures { (us : List Source) → AreTyped us forms.entry → IfOk result (λ c. IsObjectCode us c (object_type_seen of.entry)) }
{
    let names = field_names(alloc, forms, of.home, of.fields)?;
    let operations = operation_codes(alloc, forms, of)?;
    Ok(ObjectCode {
        fields: Body {
            home: of.home,
            owner: Owner::Implementation,
            names,
        },
        begins: of.begins,
        operations,
    })
}

// The code of the object type that a name of the top level specifies; none where it has no implementation.
fn specified_code<'p>(
    alloc: Global,
    forms: Forms<'_, '_>,
    implementations: &Implementations<'p>,
    name: &str,
) -> Result<Option<ObjectCode<'p>>, NoMemory>
    ensures { (us : List Source) → AreTyped us forms.entry →
        IfOk result (λ o. Both (IsObjectCode us) o (option_map object_type_seen (entry implementations.now name.now))) }
{
    match implementations.get(name) {
        None => Ok(None),
        Some(of) => {
            let code = object_code(alloc, forms, *of)?;
            Ok(Some(code))
        }
    }
}

/// The code of the object types that have these specifications, one by one.
pub fn objects_of<'p>(
    alloc: Global,
    forms: Forms<'_, '_>,
    implementations: &Implementations<'p>,
    specifications: &[Top<'_>],
) -> Result<Vec<Option<ObjectCode<'p>>>, NoMemory>
    ensures { (us : List Source) → AreTyped us forms.entry →
        ((n : List ℕ) → option_map object_type_seen (entry implementations.now n) ≡ implementation us n) →
        IfOk result (λ v. Match (λ o t. Both (IsObjectCode us) o (specified us t)) v.items (map top specifications.now)) }
{
    let mut all = Vec::new(alloc);
    'specifications: for item in specifications {
        let own = specified_code(alloc, forms, implementations, item.name)?;
        all.push(own)?;
    }
    Ok(all)
}
