//! What is found of a phrase.

ghost use Rattle.std.specs.Prelude.{◌≡◌, ◌++◌, List, None};
ghost use Rattle.type_rules.specs.Order.{lesser as lesser_breach, least};
ghost use Rattle.type_rules.specs.Rules as rules;
ghost use Rattle.type_rules.specs.Rules.{asks as rule_asks, breaks as rule_breaks, unless as rule_unless};
ghost use Rattle.type_forms.specs.Finding.{FirstOf, Finds};

use orca_base::Place;
use type_rules::Breach;

/// The first of two breaches in text order.
pub fn lesser(one: Option<Breach>, other: Option<Breach>) -> Option<Breach>
    ensures { result ≡ lesser_breach one other }
{
    match (one, other) {
        (None, other) => other,
        (Some(breach), None) => Some(breach),
        (Some(breach), Some(next)) => {
            if next < breach {
                Some(next)
            } else {
                Some(breach)
            }
        }
    }
}

/// The breach of a rule at a place, where what it asks for doesn't hold.
pub fn asks(rule: u8, at: Place, holds: bool) -> Option<Breach>
    ensures { result ≡ least (rule_asks rule at holds) }
{
    if holds {
        None
    } else {
        Some(Breach { at, rule })
    }
}

/// The breach of a rule at a place.
pub fn breaks(rule: u8, at: Place) -> Option<Breach>
    ensures { result ≡ least (rule_breaks rule at) }
{
    Some(Breach { at, rule })
}

/// What was found of a phrase: what it is, where that is known, and the first breach inside.
#[derive(Drop)]
pub struct Found<T> {
    pub is: Option<T>,
    pub first: Option<Breach>,
}

impl<T> Found<T> {
    /// A phrase without a breach.
    pub fn new(is: Option<T>) -> Found<T>
        ensures { Finds result (rules.found is) }
    {
        Found { is, first: None }
    }
}

impl<T: Drop> Found<T> {
    /// A phrase with a breach inside is nothing.
    pub fn unless(first: Option<Breach>, is: Option<T>) -> Found<T>
        ensures { (bs : List Breach) → FirstOf first bs → Finds result (rule_unless bs is) }
    {
        match first {
            None => Found { is, first: None },
            Some(breach) => Found {
                is: None,
                first: Some(breach),
            },
        }
    }

    /// A phrase with this breach.
    pub fn broken(rule: u8, at: Place) -> Found<T>
        ensures { Finds result (rule_unless (rule_breaks rule at) None) }
    {
        Found {
            is: None,
            first: breaks(rule, at),
        }
    }

    /// The same with further breaches.
    pub fn with(self, more: Option<Breach>) -> Found<T>
        ensures { (f : rules.Found T) (bs : List Breach) → Finds self f → FirstOf more bs →
            Finds result (rule_unless (f.breaches ++ bs) f.is) }
    {
        Found::unless(lesser(self.first, more), self.is)
    }
}
