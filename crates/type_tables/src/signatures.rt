//! What calls pass and get.

ghost use Rattle.std.specs.Prelude.{◌≡◌, ◌&&◌, List, map, option_map, IfOk};
ghost use Rattle.orca_syntax.specs.Shown.{block, head as head_shown, kind as kind_shown, parameter as parameter_shown, typed_name};
ghost use Rattle.link_rules.specs.Units.{Source};
ghost use Rattle.type_rules.specs.Rules.{Found as RuleFound, fits};
ghost use Rattle.type_rules.specs.Types.{is_object as is_object_type};
ghost use Rattle.type_rules.specs.declared.types.Measured.{Measured as MeasuredType};
ghost use Rattle.type_rules.specs.declared.signature.Formal.TheVariants as passing;
ghost use Rattle.type_rules.specs.Constants.{View as RuleView};
ghost use Rattle.type_rules.specs.TypePhrases.{data_found as rule_data_found};
ghost use Rattle.type_rules.specs.Scopes as rules;
ghost use Rattle.type_forms.specs.Finding.{Finds};
ghost use Rattle.type_forms.specs.Forms.{AreTyped};
ghost use Rattle.type_forms.specs.Views.{IsView};

use crate::bodies::{own_names, value_names};
use orca_base::{Items, NoMemory};
use orca_tree::{Block, Head, Mode, Parameter, TypePhrase, TypedName};
use std::alloc::Global;
use type_forms::{Forms, Found, View, asks, data_found, is_object, kind_found, name_set, place_of};
use type_rules::{DataType, Formal, Measured, Signature};

/// The type that was found, where it is known.
pub fn type_of(found: Found<Measured>) -> Option<DataType>
    ensures { (f : RuleFound MeasuredType) → Finds found f → result ≡ rules.type_of f }
{
    match found.is {
        None => None,
        Some(measured) => Some(measured.kind),
    }
}

// Whether a type phrase is the name of an object type, as far as it is known.
fn is_object_name(kind: &TypePhrase, found: &Option<Measured>) -> bool
    ensures { result ≡ (rules.is_name (kind_shown kind.now) && fits (λ m. is_object_type m.kind) found.now) }
{
    match kind {
        TypePhrase::Named { .. } => match found {
            None => true,
            Some(measured) => is_object(&measured.kind),
        },
        _ => false,
    }
}

// An object type, by its name.
fn of_object(kind: &TypePhrase, found: Found<Measured>) -> Found<Measured>
    ensures { (f : RuleFound MeasuredType) → Finds found f → Finds result (rules.of_object (kind_shown kind.now) f) }
{
    let breach = asks(7, place_of(kind), is_object_name(kind, &found.is));
    found.with(breach)
}

// What stands behind `shared`.
fn shared_found(
    alloc: Global,
    forms: Forms<'_, '_>,
    view: View<'_, '_>,
    kind: &TypePhrase,
) -> Result<Found<Measured>, NoMemory>
    ensures { (us : List Source) → AreTyped us forms.entry → (w : RuleView) → IsView us view.entry w →
        IfOk result (λ f. Finds f (rules.shared_found w (kind_shown kind.now))) }
{
    let found = kind_found(alloc, forms, view, kind)?;
    Ok(of_object(kind, found))
}

/// What a parameter is of.
pub fn parameter_found(
    alloc: Global,
    forms: Forms<'_, '_>,
    view: View<'_, '_>,
    mode: Mode,
    kind: &TypePhrase,
) -> Result<Found<Measured>, NoMemory>
    ensures { (us : List Source) → AreTyped us forms.entry → (w : RuleView) → IsView us view.entry w →
        IfOk result (λ f. Finds f (rules.parameter_found w mode (kind_shown kind.now))) }
{
    match mode {
        Mode::Value | Mode::Out => Ok(data_found(alloc, forms, view, kind)?),
        Mode::Shared => Ok(shared_found(alloc, forms, view, kind)?),
    }
}

// How a call passes a parameter of this mode.
fn passed(mode: Mode, kind: Option<DataType>) -> Formal
    ensures { result ≡ rules.passed mode kind }
{
    match mode {
        Mode::Value => Formal::ByValue { kind },
        Mode::Out => Formal::Out { kind },
        Mode::Shared => Formal::Shared { kind },
    }
}

// A parameter, as a call meets it.
fn formal(
    alloc: Global,
    forms: Forms<'_, '_>,
    view: View<'_, '_>,
    parameter: &Parameter,
) -> Result<Formal, NoMemory>
    ensures { (us : List Source) → AreTyped us forms.entry → (w : RuleView) → IsView us view.entry w →
        IfOk result (λ f. f ≡ rules.formal w (parameter_shown parameter.now)) }
{
    let found = parameter_found(alloc, forms, view, parameter.mode, &parameter.kind)?;
    Ok(passed(parameter.mode, type_of(found)))
}

// Parameters, as calls meet them.
fn formals(
    alloc: Global,
    forms: Forms<'_, '_>,
    view: View<'_, '_>,
    parameters: &[Parameter],
) -> Result<Vec<Formal>, NoMemory>
    ensures { (us : List Source) → AreTyped us forms.entry → (w : RuleView) → IsView us view.entry w →
        IfOk result (λ v. v.items ≡ map (rules.formal w) (map parameter_shown parameters.now)) }
{
    let mut formals = Vec::new(alloc);
    'parameters: for parameter in parameters {
        let next = formal(alloc, forms, view, parameter)?;
        formals.push(next)?;
    }
    Ok(formals)
}

/// The type of data, where it is known.
pub fn value_type(
    alloc: Global,
    forms: Forms<'_, '_>,
    view: View<'_, '_>,
    kind: &TypePhrase,
) -> Result<Option<DataType>, NoMemory>
    ensures { (us : List Source) → AreTyped us forms.entry → (w : RuleView) → IsView us view.entry w →
        IfOk result (λ t. t ≡ rules.type_of (rule_data_found w (kind_shown kind.now))) }
{
    let found = data_found(alloc, forms, view, kind)?;
    Ok(type_of(found))
}

/// The type of a result, where there is one.
pub fn result_type(
    alloc: Global,
    forms: Forms<'_, '_>,
    view: View<'_, '_>,
    gives: &Option<TypePhrase>,
) -> Result<Option<Option<DataType>>, NoMemory>
    ensures { (us : List Source) → AreTyped us forms.entry → (w : RuleView) → IsView us view.entry w →
        IfOk result (λ t. t ≡ option_map (λ k. rules.type_of (rule_data_found w k)) (option_map kind_shown gives.now)) }
{
    match gives {
        None => Ok(None),
        Some(kind) => Ok(Some(value_type(alloc, forms, view, kind)?)),
    }
}

/// The signature of a function or a process, in its module.
pub fn signature(
    alloc: Global,
    forms: Forms<'_, '_>,
    home: &str,
    parameters: &[Parameter],
    gives: &Option<TypePhrase>,
    body: &Block,
) -> Result<Signature, NoMemory>
    ensures { (us : List Source) → AreTyped us forms.entry → IfOk result (λ s. s ≡
        rules.signature us home.now (map parameter_shown parameters.now) (option_map kind_shown gives.now) (block body.now)) }
{
    let names = own_names(alloc, parameters, body)?;
    let set = name_set(alloc, &names)?;
    let view = View { home, names: &set };
    let formals = formals(alloc, forms, view, parameters)?;
    let gives = result_type(alloc, forms, view, gives)?;
    Ok(Signature {
        formals: Items::new(formals),
        result: gives,
    })
}

// The parameters of an operation, as calls meet them.
fn value_formals(
    alloc: Global,
    forms: Forms<'_, '_>,
    view: View<'_, '_>,
    values: &[TypedName],
) -> Result<Vec<Formal>, NoMemory>
    ensures { (us : List Source) → AreTyped us forms.entry → (w : RuleView) → IsView us view.entry w →
        IfOk result (λ v. v.items ≡
        map (λ t. passing.ByValue (rules.type_of (rule_data_found w t.kind))) (map typed_name values.now)) }
{
    let mut formals = Vec::new(alloc);
    'values: for value in values {
        let kind = value_type(alloc, forms, view, &value.kind)?;
        formals.push(Formal::ByValue { kind })?;
    }
    Ok(formals)
}

/// The signature of an operation, by its head in the specification, in its module.
pub fn head_signature(
    alloc: Global,
    forms: Forms<'_, '_>,
    home: &str,
    head: &Head,
) -> Result<Signature, NoMemory>
    ensures { (us : List Source) → AreTyped us forms.entry →
        IfOk result (λ s. s ≡ rules.operation_signature us home.now (head_shown head.now)) }
{
    let names = value_names(alloc, &head.parameters)?;
    let set = name_set(alloc, &names)?;
    let view = View { home, names: &set };
    let formals = value_formals(alloc, forms, view, &head.parameters)?;
    let gives = result_type(alloc, forms, view, &head.result)?;
    Ok(Signature {
        formals: Items::new(formals),
        result: gives,
    })
}
