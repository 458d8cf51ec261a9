//! Types as they are written.

ghost use Rattle.std.specs.Prelude.{◌≡◌, ℤ, List, [], Some, true, int_le, IfOk, not, option_map};
ghost use Rattle.orca_syntax.specs.Shown.{kind as kind_shown};
ghost use Rattle.link_rules.specs.Units.{Source};
ghost use Rattle.type_rules.specs.Rules.{Found as RuleFound, fits, unless as rule_unless};
ghost use Rattle.type_rules.specs.Types.{is_object as is_object_type};
ghost use Rattle.type_rules.specs.declared.types.Measured.{Measured as MeasuredType};
ghost use Rattle.type_rules.specs.declared.breach.Breach.{Breach as BreachType};
ghost use Rattle.type_rules.specs.Constants as rules;
ghost use Rattle.type_rules.specs.TypePhrases as phrases;
ghost use Rattle.orca_syntax.specs.Places.{bound_place, kind_place};
ghost use Rattle.type_forms.specs.Forms.{AreForms, AreTyped};
ghost use Rattle.type_forms.specs.Seen.{what};
ghost use Rattle.type_forms.specs.Indexed.{Indexes};
ghost use Rattle.type_forms.specs.Chains.{AreChains};
ghost use Rattle.type_forms.specs.Finding.{Finds, FirstOf};
ghost use Rattle.type_forms.specs.Measures.{declared_in, wrapped as wrapped_type};
ghost use Rattle.type_forms.specs.Views.{IsSenseInside, IsView, sensed};

use crate::bounds::{Sense, View, bound, sense_of};
use crate::found::{Found, asks, lesser};
use crate::index::{Index, Standing};
use crate::measures::{array_size, copy, elements, is_object, single, wrapped};
use crate::tops::What;
use orca_base::{NoMemory, Place};
use orca_tree::{Bound, Name, TypePhrase};
use std::alloc::Global;
use type_rules::{Base, Breach, Chain, Layer, Measured, Predeclared};

// Whether what was found is no object type.
fn is_data(found: &Option<Measured>) -> bool
    ensures { result ≡ fits (λ m. not (is_object_type m.kind)) found.now }
{
    match found {
        None => true,
        Some(measured) => !is_object(&measured.kind),
    }
}

// The type of data: no object type.
fn of_data(at: Place, found: Found<Measured>) -> Found<Measured>
    ensures { (f : RuleFound MeasuredType) → Finds found f → Finds result (phrases.of_data at f) }
{
    let breach = asks(6, at, is_data(&found.is));
    found.with(breach)
}

// What stays of a type that was found, with a layer more, within the limits.
fn limited(
    at: Place,
    first: Option<Breach>,
    layer: Layer,
    size: u32,
    depth: u8,
    of: Option<Measured>,
) -> Result<Found<Measured>, NoMemory>
    ensures { (bs : List BreachType) → FirstOf first bs →
        IfOk result (λ f. Finds f (phrases.within_limits at (rule_unless bs (option_map (wrapped_type layer size depth) of)))) }
{
    if first.is_some() {
        return Ok(Found { is: None, first });
    }
    match of {
        None => Ok(Found::new(None)),
        Some(of) => match wrapped(layer, size, depth, of)? {
            None => Ok(Found::broken(10, at)),
            Some(measured) => Ok(Found::new(Some(measured))),
        },
    }
}

// A declared type, by its number.
fn declared(
    alloc: Global,
    types: &[Option<Measured>],
    number: usize,
) -> Result<Option<Measured>, NoMemory>
    ensures { IfOk result (λ o. o ≡ declared_in types.now number) }
{
    match types.get(number) {
        None => Ok(None),
        Some(kind) => match kind {
            None => Ok(None),
            Some(measured) => Ok(Some(copy(alloc, measured)?)),
        },
    }
}

// A name of the top level in the place of a type.
fn top_type(
    alloc: Global,
    types: &[Option<Measured>],
    name: &Name,
    number: usize,
    is: What<'_>,
) -> Result<Found<Measured>, NoMemory>
    ensures { IfOk result (λ f. Finds f (phrases.top_type (declared_in types.now) name.now number (what is.entry))) }
{
    match is {
        What::TypeName { .. } => Ok(Found::new(declared(alloc, types, number)?)),
        What::Specified { .. } | What::Implemented { .. } => {
            Ok(Found::new(Some(single(alloc, Base::Object { number }))))
        }
        What::Constant { .. } | What::Value { .. } | What::Function { .. } | What::Process { .. } =>
            Ok(Found::broken(5, name.at)),
    }
}

// A name in the place of a type.
fn named_type(
    alloc: Global,
    types: &[Option<Measured>],
    name: &Name,
    sense: Sense<'_>,
) -> Result<Found<Measured>, NoMemory>
    ensures { IfOk result (λ f. Finds f (phrases.named_type (declared_in types.now) name.now (sensed sense.entry))) }
{
    match sense {
        Sense::OfBody => Ok(Found::broken(5, name.at)),
        Sense::OfAll { standing } => match standing {
            Standing::Nothing => Ok(Found::broken(2, name.at)),
            Standing::Top { number, item } => top_type(alloc, types, name, number, item.what),
            Standing::Everywhere { word } => match word {
                Predeclared::NodeNameType => { Ok(Found::new(Some(single(alloc, Base::NodeName)))) }
                _ => Ok(Found::broken(5, name.at)),
            },
        },
    }
}

// A set or a bag.
fn gathering(at: Place, layer: Layer, element: Found<Measured>) -> Result<Found<Measured>, NoMemory>
    ensures { (e : RuleFound MeasuredType) → Finds element e →
        IfOk result (λ f. Finds f (phrases.within_limits at (phrases.gathering_phrase (wrapped_type layer 1 1) e))) }
{
    limited(at, element.first, layer, 1, 1, element.is)
}

// Whether a bound is the number 1.
fn is_number_one(value: &Bound) -> bool
    ensures { result ≡ phrases.is_number_one value.now }
{
    match value {
        Bound::Number { value, .. } => *value == 1,
        Bound::Negative { .. } | Bound::Named { .. } => false,
    }
}

// Whether a bound is the predeclared `graph`.
fn is_graph_bound(index: &Index<'_>, view: View<'_, '_>, value: &Bound) -> bool
    ensures { (us : List Source) → Indexes index.now us → (w : rules.View) → IsView us view.entry w →
        result ≡ phrases.is_graph_bound w value.now }
{
    match value {
        Bound::Number { .. } | Bound::Negative { .. } => false,
        Bound::Named { name } => is_graph_name(sense_of(index, view, name)),
    }
}

fn is_graph_name(sense: Sense<'_>) -> bool
    ensures { result ≡ phrases.is_graph_name (sensed sense.entry) }
{
    match sense {
        Sense::OfBody => false,
        Sense::OfAll { standing } => match standing {
            Standing::Nothing | Standing::Top { .. } => false,
            Standing::Everywhere { word } => match word {
                Predeclared::GraphBound => true,
                _ => false,
            },
        },
    }
}

// Whether one bound is at most the other, where both are known.
fn at_most(low: Option<i128>, high: Option<i128>) -> bool
    ensures { result ≡ phrases.at_most low high }
{
    match (low, high) {
        (Some(low), Some(high)) => low <= high,
        _ => true,
    }
}

// The place of a bound.
fn place_of_bound(value: &Bound) -> Place
    ensures { result ≡ bound_place value.now }
{
    match value {
        Bound::Number { at, .. } | Bound::Negative { at, .. } => *at,
        Bound::Named { name } => name.at,
    }
}

// An array between two bounds, within the limits.
fn array_of(at: Place, low: i128, high: i128, of: Measured) -> Result<Found<Measured>, NoMemory>
    ensures { int_le low high ≡ true →
        IfOk result (λ r. Finds r (phrases.within_limits at (rule_unless [] (Some (phrases.array_of low high of))))) }
{
    let size = array_size(elements(low, high), of.size);
    limited(at, None, Layer::Array { low, high }, size, 1, Some(of))
}

// An array between two bounds, where they and what it is of are known. These are the breaches in front.
fn array(
    at: Place,
    first: Option<Breach>,
    low: Option<i128>,
    high: Option<i128>,
    element: Option<Measured>,
) -> Result<Found<Measured>, NoMemory>
    ensures { (bs : List BreachType) → FirstOf first bs → (bs ≡ [] → phrases.at_most low high ≡ true) →
        IfOk result (λ r. Finds r (phrases.within_limits at (rule_unless bs (phrases.array_found low high element)))) }
{
    if first.is_some() {
        return Ok(Found { is: None, first });
    }
    match (low, high, element) {
        (Some(low), Some(high), Some(of)) => array_of(at, low, high, of),
        _ => Ok(Found::new(None)),
    }
}

// An array between two bounds, or what breaks it.
fn ranged(
    at: Place,
    low: &Bound,
    first: Found<i128>,
    last: Found<i128>,
    element: Found<Measured>,
) -> Result<Found<Measured>, NoMemory>
    ensures { (f l : RuleFound ℤ) (e : RuleFound MeasuredType) → Finds first f → Finds last l → Finds element e →
        IfOk result (λ r. Finds r (phrases.within_limits at (phrases.ranged_phrase low.now f l e))) }
{
    let order = asks(9, place_of_bound(low), at_most(first.is, last.is));
    let breach = lesser(
        first.first,
        lesser(last.first, lesser(order, element.first)),
    );
    array(at, breach, first.is, last.is, element.is)
}

// A graph, with this low bound.
fn graph(
    at: Place,
    low: &Bound,
    first: Found<i128>,
    element: Found<Measured>,
) -> Result<Found<Measured>, NoMemory>
    ensures { (f : RuleFound ℤ) (e : RuleFound MeasuredType) → Finds first f → Finds element e →
        IfOk result (λ r. Finds r (phrases.within_limits at (phrases.graph_phrase low.now f e))) }
{
    let one = asks(9, place_of_bound(low), is_number_one(low));
    let breach = lesser(first.first, lesser(one, element.first));
    limited(at, breach, Layer::Graph, 3, 3, element.is)
}

/// What the type phrases of a program are read with: its names, its constants, and its declared types.
#[derive(Clone, Copy)]
pub struct Forms<'a, 'p> {
    pub index: &'a Index<'p>,
    pub chains: &'a [Chain],
    pub types: &'a [Option<Measured>],
}

/// The place of a type phrase.
pub fn place_of(phrase: &TypePhrase) -> Place
    ensures { result ≡ kind_place (kind_shown phrase.now) }
{
    match phrase {
        TypePhrase::Integer { at }
        | TypePhrase::Boolean { at }
        | TypePhrase::Char { at }
        | TypePhrase::Text { at }
        | TypePhrase::Array { at, .. }
        | TypePhrase::Set { at, .. }
        | TypePhrase::Bag { at, .. } => *at,
        TypePhrase::Named { name } => name.at,
    }
}

// An array or a graph, of what was found of its elements.
fn bounded(
    forms: Forms<'_, '_>,
    view: View<'_, '_>,
    at: Place,
    low: &Bound,
    high: &Bound,
    element: Found<Measured>,
) -> Result<Found<Measured>, NoMemory>
    ensures { (us : List Source) → AreForms us forms.entry → (w : rules.View) → IsView us view.entry w →
        (e : RuleFound MeasuredType) → Finds element e →
        IfOk result (λ f. Finds f (phrases.within_limits at (phrases.array_phrase w low.now high.now e))) }
{
    let first = bound(forms.index, forms.chains, view, low);
    if is_graph_bound(forms.index, view, high) {
        return graph(at, low, first, element);
    }
    let last = bound(forms.index, forms.chains, view, high);
    ranged(at, low, first, last, element)
}

/// What a type phrase is, where declared types are those of the table.
#[cycle(phrases)]
pub fn phrase(
    alloc: Global,
    forms: Forms<'_, '_>,
    view: View<'_, '_>,
    kind: &TypePhrase,
) -> Result<Found<Measured>, NoMemory>
    ensures { (us : List Source) → AreForms us forms.entry → (w : rules.View) → IsView us view.entry w →
        IfOk result (λ f. Finds f (phrases.phrase (declared_in forms.entry.types.now) w (kind_shown kind.now))) }
{
    match kind {
        TypePhrase::Integer { .. } => Ok(Found::new(Some(single(alloc, Base::Integer)))),
        TypePhrase::Boolean { .. } => Ok(Found::new(Some(single(alloc, Base::Boolean)))),
        TypePhrase::Char { .. } => Ok(Found::new(Some(single(alloc, Base::Character)))),
        TypePhrase::Text { .. } => Ok(Found::new(Some(single(alloc, Base::String)))),
        TypePhrase::Named { name } => {
            let sense = sense_of(forms.index, view, name);
            named_type(alloc, forms.types, name, sense)
        }
        TypePhrase::Array {
            at,
            low,
            high,
            element,
        } => {
            let found = data_phrase(alloc, forms, view, element)?;
            bounded(forms, view, *at, low, high, found)
        }
        TypePhrase::Set { at, element } => {
            let found = data_phrase(alloc, forms, view, element)?;
            gathering(*at, Layer::Set, found)
        }
        TypePhrase::Bag { at, element } => {
            let found = data_phrase(alloc, forms, view, element)?;
            gathering(*at, Layer::Bag, found)
        }
    }
}

/// What a type phrase is that stands as the type of data.
#[cycle(phrases)]
pub fn data_phrase(
    alloc: Global,
    forms: Forms<'_, '_>,
    view: View<'_, '_>,
    kind: &TypePhrase,
) -> Result<Found<Measured>, NoMemory>
    ensures { (us : List Source) → AreForms us forms.entry → (w : rules.View) → IsView us view.entry w →
        IfOk result (λ f. Finds f (phrases.data_phrase (declared_in forms.entry.types.now) w (kind_shown kind.now))) }
{
    let found = phrase(alloc, forms, view, kind)?;
    Ok(of_data(place_of(kind), found))
}

/// What a type phrase of a program is.
pub fn kind_found(
    alloc: Global,
    forms: Forms<'_, '_>,
    view: View<'_, '_>,
    kind: &TypePhrase,
) -> Result<Found<Measured>, NoMemory>
    ensures { (us : List Source) → AreTyped us forms.entry → (w : rules.View) → IsView us view.entry w →
        IfOk result (λ f. Finds f (phrases.kind_found w (kind_shown kind.now))) }
{
    phrase(alloc, forms, view, kind)
}

/// What a type phrase of a program is that stands as the type of data.
pub fn data_found(
    alloc: Global,
    forms: Forms<'_, '_>,
    view: View<'_, '_>,
    kind: &TypePhrase,
) -> Result<Found<Measured>, NoMemory>
    ensures { (us : List Source) → AreTyped us forms.entry → (w : rules.View) → IsView us view.entry w →
        IfOk result (λ f. Finds f (phrases.data_found w (kind_shown kind.now))) }
{
    data_phrase(alloc, forms, view, kind)
}
