//! The rules of declarations.

ghost use Rattle.std.specs.Prelude.{◌≡◌, ◌++◌, List, [], IfOk, flat_map};
ghost use Rattle.orca_syntax.specs.Shown.{decl, definition as definition_shown};
ghost use Rattle.link_rules.specs.Units.{Source, values_of as values_in};
ghost use Rattle.type_rules.specs.TopLevel.{number_of};
ghost use Rattle.type_rules.specs.TypePhrases.{declared_type, definition as definition_of};
ghost use Rattle.type_rules.specs.Constants.{bound as bound_of};
ghost use Rattle.type_rules.specs.Scopes.{view_of};
ghost use Rattle.type_rules.specs.Declarations as rules;
ghost use Rattle.type_forms.specs.Finding.{FirstOf};
ghost use Rattle.type_cycles.specs.Leading.{is_marked as marked};
ghost use Rattle.type_decls.specs.Contexts.{IsContext};

use crate::blocks::{function_breach, process_breach};
use crate::context::Context;
use crate::implementations::implementation_breach;
use crate::names::{no_main, none_main};
use crate::specifications::specification_breach;
use orca_base::NoMemory;
use orca_tree::{Bound, Declaration, Definition, Name};
use std::alloc::Global;
use type_forms::{View, asks, bound, definition, lesser};
use type_rules::Breach;

// The first breach of a constant.
fn constant_breach(
    context: Context<'_, '_>,
    home: &str,
    name: &Name,
    value: &Bound,
) -> Option<Breach>
    ensures { (us : List Source) → IsContext us context.entry →
        FirstOf result (rules.no_main name.now ++ (bound_of (view_of us home.now []) value.now).breaches) }
{
    let forms = context.tables.forms;
    let view = View {
        home,
        names: context.none,
    };
    let found = bound(forms.index, forms.chains, view, value);
    lesser(no_main(name), found.first)
}

// Whether a type holds itself.
fn is_marked(rounds: &[bool], number: usize) -> bool
    ensures { result ≡ marked rounds.now number }
{
    match rounds.get(number) {
        None => false,
        Some(mark) => *mark,
    }
}

// The breach of a type that holds itself, by the number of its name.
fn holds_no_self(context: Context<'_, '_>, name: &Name, number: Option<usize>) -> Option<Breach>
    ensures { (us : List Source) → IsContext us context.entry → FirstOf result (rules.holds_no_self us name.now number) }
{
    match number {
        None => None,
        Some(number) => asks(8, name.at, !is_marked(context.rounds, number)),
    }
}

// The number, or 0.
fn number_or_none(number: Option<usize>) -> usize
    ensures { result ≡ rules.number_or_none number }
{
    number.unwrap_or(0)
}

// The names of the values of an enumeration.
fn values_of(of: &Definition) -> &[Name]
    ensures { result.now ≡ values_in (definition_shown of.now) }
{
    match of {
        Definition::Enumeration { names, .. } => names,
        Definition::Record { .. } | Definition::Alias { .. } => &[],
    }
}

// The first breach of the definition of a type.
fn definition_breach(
    alloc: Global,
    context: Context<'_, '_>,
    home: &str,
    number: usize,
    of: &Definition,
) -> Result<Option<Breach>, NoMemory>
    ensures { (us : List Source) → IsContext us context.entry → IfOk result (λ o. FirstOf o
        (definition_of (declared_type us) (view_of us home.now []) number (definition_shown of.now)).breaches) }
{
    let view = View {
        home,
        names: context.none,
    };
    let found = definition(alloc, context.tables.forms, view, number, of)?;
    Ok(found.first)
}

// The first breach of a declared type.
fn type_breach(
    alloc: Global,
    context: Context<'_, '_>,
    home: &str,
    name: &Name,
    of: &Definition,
) -> Result<Option<Breach>, NoMemory>
    ensures { (us : List Source) → IsContext us context.entry → IfOk result (λ o. FirstOf o
        (rules.no_main name.now ++ (flat_map rules.no_main (values_in (definition_shown of.now))
        ++ (rules.holds_no_self us name.now (number_of us name.now.text)
        ++ (definition_of (declared_type us) (view_of us home.now []) (rules.number_or_none (number_of us name.now.text))
        (definition_shown of.now)).breaches)))) }
{
    let number = context.tables.forms.index.number_of(name.text.as_str());
    let inside = definition_breach(alloc, context, home, number_or_none(number), of)?;
    let round = holds_no_self(context, name, number);
    let values = none_main(values_of(of));
    Ok(lesser(no_main(name), lesser(values, lesser(round, inside))))
}

/// The first breach of a declaration, in its module.
pub fn declaration_breach<'p>(
    alloc: Global,
    context: Context<'_, 'p>,
    home: &str,
    part: &'p Declaration,
) -> Result<Option<Breach>, NoMemory>
    ensures { (us : List Source) → IsContext us context.entry →
        IfOk result (λ o. FirstOf o (rules.decl_breaches us home.now (decl part.now))) }
{
    match part {
        Declaration::Constant { name, value, .. } => Ok(constant_breach(
            context, home, name, value,
        )),
        Declaration::Type {
            name,
            definition,
            ..
        } => Ok(type_breach(alloc, context, home, name, definition)?),
        Declaration::Specification { name, heads, .. } => {
            let inside = specification_breach(alloc, context, home, name, heads)?;
            Ok(lesser(no_main(name), inside))
        }
        Declaration::Implementation {
            name,
            fields,
            operations,
            opening,
            ..
        } => {
            let inside = implementation_breach(
                alloc, context, home, name, fields, operations, opening,
            )?;
            Ok(lesser(no_main(name), inside))
        }
        Declaration::Function {
            name,
            parameters,
            result,
            body,
            ..
        } => {
            let inside = function_breach(alloc, context, home, parameters, result, body)?;
            Ok(lesser(no_main(name), inside))
        }
        Declaration::Process {
            name,
            parameters,
            body,
            ..
        } => Ok(process_breach(alloc, context, home, name, parameters, body)?),
    }
}
