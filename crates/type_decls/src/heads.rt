//! The heads of operations, in a specification and in its implementation.

ghost use Rattle.std.specs.Prelude.{◌≡◌, ◌&&◌, List, IfOk, bytes_eq, map, option_map, slice_get};
ghost use Rattle.orca_syntax.specs.Shown.{head as head_shown, kind as kind_shown, typed_name};
ghost use Rattle.link_rules.specs.Units.{Source};
ghost use Rattle.type_rules.specs.TopLevel.{top_names};
ghost use Rattle.type_rules.specs.Rules.{agree as rule_agree};
ghost use Rattle.type_rules.specs.Constants.{View as RuleView};
ghost use Rattle.type_rules.specs.TypePhrases.{data_found};
ghost use Rattle.type_rules.specs.Scopes as scopes;
ghost use Rattle.type_rules.specs.Declarations as rules;
ghost use Rattle.type_forms.specs.Forms.{AreTyped};
ghost use Rattle.type_forms.specs.Indexed.{Indexes};
ghost use Rattle.type_forms.specs.Seen.{top, what};
ghost use Rattle.type_forms.specs.Views.{IsView};
ghost use Rattle.type_decls.specs.Specifications.{heads_as};

use orca_base::NoMemory;
use orca_tree::{Head, TypePhrase, TypedName};
use std::alloc::Global;
use type_exprs::agree;
use type_forms::{Forms, Index, Top, View, What, name_set};
use type_tables::{value_names, value_type};

/// A specification: the name of its module, and its heads.
#[derive(Clone, Copy)]
pub struct Specified<'p> {
    pub home: &'p str,
    pub heads: &'p [Head],
}

// The specification that a name of the top level is, if it is one.
fn heads_in<'p>(item: &Top<'p>) -> Option<Specified<'p>>
    ensures { option_map heads_as result ≡ scopes.heads_in (top item.now) (what item.now.what) }
{
    match item.what {
        What::Specified { heads } => Some(Specified {
            home: item.by,
            heads,
        }),
        _ => None,
    }
}

// The specification with this number.
fn specification_at<'p>(index: &Index<'p>, number: usize) -> Option<Specified<'p>>
    ensures { (us : List Source) → Indexes index.now us →
        option_map heads_as result ≡ scopes.specification_of (slice_get (top_names us) number) }
{
    match index.item(number) {
        None => None,
        Some(item) => heads_in(item),
    }
}

/// The specification of an object type, by its name.
pub fn specification<'p>(index: &Index<'p>, name: &str) -> Option<Specified<'p>>
    ensures { (us : List Source) → Indexes index.now us → option_map heads_as result ≡ scopes.specification us name.now }
{
    match index.specification(name) {
        None => None,
        Some(number) => specification_at(index, number),
    }
}

/// The head at a place.
pub fn head_at(heads: &[Head], place: usize) -> Option<&Head>
    ensures { option_map (λ h. head_shown h.now) result ≡ slice_get (map head_shown heads.now) place }
{
    heads.get(place)
}

// Whether two type phrases are of one type, as far as both are known, each in its view.
fn same_kind(
    alloc: Global,
    forms: Forms<'_, '_>,
    ours: View<'_, '_>,
    theirs: View<'_, '_>,
    one: &TypePhrase,
    other: &TypePhrase,
) -> Result<bool, NoMemory>
    ensures { (us : List Source) → AreTyped us forms.entry → (v w : RuleView) → IsView us ours.entry v → IsView us theirs.entry w →
        IfOk result (λ b. b ≡ rule_agree (scopes.type_of (data_found v (kind_shown one.now)))
        (scopes.type_of (data_found w (kind_shown other.now)))) }
{
    let one = value_type(alloc, forms, ours, one)?;
    let other = value_type(alloc, forms, theirs, other)?;
    Ok(agree(&one, &other))
}

// Whether two parameters have one name and one type.
fn same_parameter(
    alloc: Global,
    forms: Forms<'_, '_>,
    ours: View<'_, '_>,
    theirs: View<'_, '_>,
    one: &TypedName,
    other: &TypedName,
) -> Result<bool, NoMemory>
    ensures { (us : List Source) → AreTyped us forms.entry → (v w : RuleView) → IsView us ours.entry v → IsView us theirs.entry w →
        IfOk result (λ b. b ≡ (bytes_eq one.now.name.text other.now.name.text
        && rule_agree (scopes.type_of (data_found v (kind_shown one.now.kind)))
        (scopes.type_of (data_found w (kind_shown other.now.kind))))) }
{
    if one.name.text.as_str() != other.name.text.as_str() {
        return Ok(false);
    }
    Ok(same_kind(alloc, forms, ours, theirs, &one.kind, &other.kind)?)
}

// Whether two rows of parameters have the same names and types.
fn same_parameters(
    alloc: Global,
    forms: Forms<'_, '_>,
    ours: View<'_, '_>,
    theirs: View<'_, '_>,
    one: &[TypedName],
    other: &[TypedName],
) -> Result<bool, NoMemory>
    ensures { (us : List Source) → AreTyped us forms.entry → (v w : RuleView) → IsView us ours.entry v → IsView us theirs.entry w →
        IfOk result (λ b. b ≡ rules.same_parameters v w (map typed_name one.now) (map typed_name other.now)) }
{
    if one.len() != other.len() {
        return Ok(false);
    }
    let mut left = one.len();
    let mut same = true;
    'parameters: while left > 0 {
        left -= 1;
        let own = same_parameter(alloc, forms, ours, theirs, &one[left], &other[left])?;
        same = own && same;
    }
    Ok(same)
}

// Whether two results are of one type, or there are none.
fn same_result(
    alloc: Global,
    forms: Forms<'_, '_>,
    ours: View<'_, '_>,
    theirs: View<'_, '_>,
    one: &Option<TypePhrase>,
    other: &Option<TypePhrase>,
) -> Result<bool, NoMemory>
    ensures { (us : List Source) → AreTyped us forms.entry → (v w : RuleView) → IsView us ours.entry v → IsView us theirs.entry w →
        IfOk result (λ b. b ≡ rules.same_result v w (option_map kind_shown one.now) (option_map kind_shown other.now)) }
{
    match one {
        None => Ok(other.is_none()),
        Some(one) => match other {
            None => Ok(false),
            Some(other) => Ok(same_kind(alloc, forms, ours, theirs, one, other)?),
        },
    }
}

// Whether two heads are the same.
fn is_same_head(
    alloc: Global,
    forms: Forms<'_, '_>,
    ours: View<'_, '_>,
    theirs: View<'_, '_>,
    own: &Head,
    head: &Head,
) -> Result<bool, NoMemory>
    ensures { (us : List Source) → AreTyped us forms.entry → (v w : RuleView) → IsView us ours.entry v → IsView us theirs.entry w →
        IfOk result (λ b. b ≡ rules.is_same_head v w (head_shown own.now) (head_shown head.now)) }
{
    let named = own.name.text.as_str() == head.name.text.as_str();
    let given = same_parameters(
        alloc,
        forms,
        ours,
        theirs,
        &own.parameters,
        &head.parameters,
    )?;
    let back = same_result(alloc, forms, ours, theirs, &own.result, &head.result)?;
    Ok(named && (given && back))
}

/// Whether the head of an operation is one of its specification, in the specification's module, if there is one at its place.
pub fn is_head_of(
    alloc: Global,
    forms: Forms<'_, '_>,
    ours: View<'_, '_>,
    home: &str,
    own: &Head,
    head: Option<&Head>,
) -> Result<bool, NoMemory>
    ensures { (us : List Source) → AreTyped us forms.entry → (v : RuleView) → IsView us ours.entry v →
        IfOk result (λ b. b ≡ rules.is_head_of us v home.now (head_shown own.now) (option_map (λ h. head_shown h.now) head.entry)) }
{
    match head {
        None => Ok(false),
        Some(head) => {
            let names = value_names(alloc, &head.parameters)?;
            let set = name_set(alloc, &names)?;
            let theirs = View { home, names: &set };
            Ok(is_same_head(alloc, forms, ours, theirs, own, head)?)
        }
    }
}
