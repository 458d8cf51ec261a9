//! Names in type phrases, and the bounds of arrays.

ghost use Rattle.std.specs.Prelude.{◌≡◌, ◌<◌, List, length};
ghost use Rattle.link_rules.specs.Units.{Source};
ghost use Rattle.type_rules.specs.Constants as rules;
ghost use Rattle.type_rules.specs.Constants.{ends_well as chain_ends_well, named_bound as rule_of_named_bound, predeclared_bound as rule_of_predeclared};
ghost use Rattle.type_rules.specs.Constants.{bound as rule_of_bound, top_bound as rule_of_top, sense as rule_of_sense};
ghost use Rattle.type_forms.specs.Seen.{what};
ghost use Rattle.type_forms.specs.Indexed.{Indexes};
ghost use Rattle.type_forms.specs.Chains.{AreChains};
ghost use Rattle.type_forms.specs.Finding.{Finds};
ghost use Rattle.type_forms.specs.Views.{IsSenseInside, IsView, sensed};

use crate::found::Found;
use crate::index::{Index, Standing};
use crate::modules::{Names, holds};
use crate::tops::What;
use orca_tree::{Bound, Name};
use type_rules::{Chain, Predeclared};

/// Where a phrase stands: its module, and the names of its body.
#[derive(Clone, Copy)]
pub struct View<'a, 'p> {
    pub home: &'a str,
    pub names: &'a Names<'p>,
}

/// What a name stands for: one of the body's, or one of the module's.
#[derive(Clone, Copy)]
pub enum Sense<'a> {
    OfBody,
    OfAll { standing: Standing<'a> },
}

/// What a name stands for, where a phrase stands.
pub fn sense_of<'a>(index: &Index<'a>, view: View<'_, '_>, name: &Name) -> Sense<'a>
    ensures inside { (us : List Source) → Indexes index.now us → IsSenseInside us result }
    ensures senses { (us : List Source) → Indexes index.now us → (w : rules.View) → IsView us view.entry w →
        sensed result ≡ rule_of_sense w name.now }
{
    if holds(view.names, name.text.as_str()) {
        return Sense::OfBody;
    }
    Sense::OfAll {
        standing: index.stands_for(view.home, name.text.as_str()),
    }
}

// What a chain of constants gives a bound.
fn ends_well(name: &Name, chain: Chain) -> Found<i128>
    ensures { Finds result (chain_ends_well name.now chain) }
{
    match chain {
        Chain::EndsAt { value } => Found::new(Some(value)),
        Chain::GoesRound => Found::broken(9, name.at),
        Chain::Fails => Found::new(None),
    }
}

// What a name of the top level gives a bound.
fn top_bound(chains: &[Chain], name: &Name, number: usize, is: What<'_>) -> Found<i128>
    ensures { (us : List Source) → AreChains us chains.now → number < length chains.now →
        Finds result (rule_of_top us name.now number (what is.entry)) }
{
    match is {
        What::Constant { .. } => match chains.get(number) {
            Some(chain) => ends_well(name, *chain),
            None => Found::new(None),
        },
        What::Value { .. } => Found::broken(9, name.at),
        _ => Found::broken(5, name.at),
    }
}

// What a name that every module has gives a bound.
fn predeclared_bound(name: &Name, word: Predeclared) -> Found<i128>
    ensures { Finds result (rule_of_predeclared name.now word) }
{
    match word {
        Predeclared::GraphBound | Predeclared::Nil => Found::broken(9, name.at),
        Predeclared::NodeNameType | Predeclared::AddNode | Predeclared::DeleteNode => {
            Found::broken(5, name.at)
        }
    }
}

// What a name gives a bound.
fn named_bound(chains: &[Chain], name: &Name, sense: Sense<'_>) -> Found<i128>
    ensures { (us : List Source) → AreChains us chains.now → IsSenseInside us sense.entry →
        Finds result (rule_of_named_bound us name.now (sensed sense.entry)) }
{
    match sense {
        Sense::OfBody => Found::broken(9, name.at),
        Sense::OfAll { standing } => match standing {
            Standing::Nothing => Found::broken(2, name.at),
            Standing::Top { number, item } => top_bound(chains, name, number, item.what),
            Standing::Everywhere { word } => predeclared_bound(name, word),
        },
    }
}

/// A bound of an array, or the value of a constant.
pub fn bound(index: &Index<'_>, chains: &[Chain], view: View<'_, '_>, value: &Bound) -> Found<i128>
    ensures { (us : List Source) → Indexes index.now us → AreChains us chains.now → (w : rules.View) → IsView us view.entry w →
        Finds result (rule_of_bound w value.now) }
{
    match value {
        Bound::Number { value, .. } => Found::new(Some(*value as i128)),
        Bound::Negative { value, .. } => Found::new(Some(-(*value as i128))),
        Bound::Named { name } => named_bound(chains, name, sense_of(index, view, name)),
    }
}
