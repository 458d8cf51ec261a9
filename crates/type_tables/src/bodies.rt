//! The names of bodies, in their order.

ghost use Rattle.std.specs.Prelude.{◌≡◌, ◌++◌, map, IfOk, OnOk};
ghost use Rattle.orca_syntax.specs.Shown.{block, parameter, typed_name, variables as variables_shown};
ghost use Rattle.type_rules.specs.Scopes.{own_names as rule_own_names, variable_names};
ghost use Rattle.type_forms.specs.Seen.{lent};

use orca_base::NoMemory;
use orca_tree::{Block, Name, Parameter, TypedName, Variables};
use std::alloc::Global;

/// Puts names behind others.
pub fn add_names<'p>(all: &mut Vec<&'p Name>, names: &'p [Name]) -> Result<(), NoMemory>
    ensures { OnOk result (lent all.new.items ≡ lent all.old.items ++ names.now) }
{
    'names: for name in names {
        all.push(name)?;
    }
    Ok(())
}

/// Puts the names of variables behind others.
pub fn add_variables<'p>(
    all: &mut Vec<&'p Name>,
    variables: &'p [Variables],
) -> Result<(), NoMemory>
    ensures { OnOk result (lent all.new.items ≡ lent all.old.items ++ variable_names (map variables_shown variables.now)) }
{
    'variables: for group in variables {
        add_names(all, &group.names)?;
    }
    Ok(())
}

/// The names of values: of the parameters of an operation, or the fields of a record.
pub fn value_names(alloc: Global, values: &[TypedName]) -> Result<Vec<&Name>, NoMemory>
    ensures { IfOk result (λ v. lent v.items ≡ map (λ t. t.name) (map typed_name values.now)) }
{
    let mut names = Vec::new(alloc);
    'values: for value in values {
        names.push(&value.name)?;
    }
    Ok(names)
}

// The names of parameters.
fn parameter_names(alloc: Global, parameters: &[Parameter]) -> Result<Vec<&Name>, NoMemory>
    ensures { IfOk result (λ v. lent v.items ≡ map (λ p. p.name) (map parameter parameters.now)) }
{
    let mut names = Vec::new(alloc);
    'parameters: for parameter in parameters {
        names.push(&parameter.name)?;
    }
    Ok(names)
}

/// The names of a function or a process: its parameters and its variables.
pub fn own_names<'p>(
    alloc: Global,
    parameters: &'p [Parameter],
    body: &'p Block,
) -> Result<Vec<&'p Name>, NoMemory>
    ensures { IfOk result (λ v. lent v.items ≡ rule_own_names (map parameter parameters.now) (block body.now)) }
{
    let mut names = parameter_names(alloc, parameters)?;
    add_variables(&mut names, &body.variables)?;
    Ok(names)
}
