//! The rule of `return`.

ghost use Rattle.std.specs.Prelude.{None, Some, IfOk, option_map};
ghost use Rattle.orca_syntax.specs.Shown.{expr};
ghost use Rattle.type_rules.specs.Rules.{Found as RuleFound};
ghost use Rattle.type_rules.specs.declared.types.DataType.{DataType as DataTypeRule};
ghost use Rattle.type_rules.specs.Scopes as scopes;
ghost use Rattle.type_rules.specs.Statements as rules;
ghost use Rattle.type_forms.specs.Finding.{Finds, FirstOf};
ghost use Rattle.type_stmts.specs.Bodies.{IsBody};

use crate::bodies::BodyScope;
use orca_base::{NoMemory, Place};
use orca_tree::Expression;
use std::alloc::Global;
use type_exprs::{agree, typed};
use type_forms::{Found, asks, breaks, lesser};
use type_rules::{Breach, DataType};

// `return` without a value, in a body that gives this.
fn returns_nothing(gives: &Option<Option<DataType>>, at: Place) -> Option<Breach>
    ensures { FirstOf result (rules.returns gives.now at None) }
{
    asks(23, at, gives.is_none())
}

// `return` with a value, in a body that gives this.
fn returns_value(
    gives: &Option<Option<DataType>>,
    at: Place,
    value: Found<DataType>,
) -> Option<Breach>
    ensures { (f : RuleFound DataTypeRule) → Finds value f → FirstOf result (rules.returns gives.now at (Some f)) }
{
    match gives {
        None => lesser(breaks(23, at), value.first),
        Some(kind) => lesser(value.first, asks(23, at, agree(kind, &value.is))),
    }
}

/// The first breach of `return`.
pub fn return_breach(
    alloc: Global,
    body: BodyScope<'_, '_>,
    at: Place,
    value: &Option<Expression>,
) -> Result<Option<Breach>, NoMemory>
    ensures { (w : scopes.Scope) → IsBody body.entry w →
        IfOk result (λ o. FirstOf o (rules.returns w.result at (rules.value_found w (option_map expr value.now)))) }
{
    match value {
        None => Ok(returns_nothing(body.gives, at)),
        Some(e) => {
            let found = typed(alloc, body.scope, e)?;
            Ok(returns_value(body.gives, at, found))
        }
    }
}
