//! Names in the place of a value.

ghost use Rattle.std.specs.Prelude.{◌≡◌, ◌<◌, ◌^◌, List, Some, slice_get};
ghost use Rattle.link_rules.specs.Units.{Source};
ghost use Rattle.type_rules.specs.Scopes as scopes;
ghost use Rattle.type_rules.specs.TopLevel.{stands_for, top_names};
ghost use Rattle.type_forms.specs.Indexed.{IsInside, standing};
ghost use Rattle.type_forms.specs.Seen.{top, what};
ghost use Rattle.value_core.specs.View.{datum_of};
ghost use Rattle.meaning_rules.specs.Designators as rules;
ghost use Rattle.meaning_rules.specs.Programs.{text_of};
ghost use Rattle.meaning_rules.specs.States.{State};
ghost use Rattle.program_bodies.specs.Codes.{IsCode};
ghost use Rattle.program_bodies.specs.Named.{value_at};
ghost use Rattle.program_bodies.specs.Sites.{IsSite};

use crate::code::Code;
use crate::site::Site;
use orca_base::TextNo;
use orca_tree::Name;
use type_forms::{Standing, Top, What};
use value_core::Value;

/// The value that a name is: that at a place of the frame, or one of the top level.
#[derive(Drop)]
pub enum Named {
    Own { place: usize },
    Outer { value: Value },
}

// A number that has 16 bits, as such.
fn as_short(number: usize) -> u16
    ensures { number < 2 ^ 16 → result ≡ number }
{
    u16::try_from(number).unwrap_or(u16::MAX)
}

// The value of a name of the top level: of a constant its number, of an enumeration's name its place among its names.
fn top_value(code: &Code<'_>, number: usize, item: Top<'_>) -> Value
    ensures { (us : List Source) → IsCode us code.now → slice_get (top_names us) number ≡ Some (top item.entry) →
        datum_of result ≡ rules.top_value us number (what item.entry.what) }
{
    match item.what {
        What::Constant { .. } => Value::Int(code.tables().constant(number)),
        What::Value { number: place, .. } => Value::Enum(as_short(place)),
        _ => Value::Int(0),
    }
}

// The value of what stands for a name that the body has not.
fn standing_value(code: &Code<'_>, is: Standing<'_>) -> Value
    ensures { (us : List Source) → IsCode us code.now → IsInside us is.entry →
        datum_of result ≡ rules.outer_value us (standing is.entry) }
{
    match is {
        Standing::Top { number, item } => top_value(code, number, item),
        Standing::Nothing | Standing::Everywhere { .. } => Value::Int(0),
    }
}

impl<'a, 'p> Site<'a, 'p> {
    /// What a name stands for, where no name of the body hides it.
    pub fn outer(self, name: &Name) -> Standing<'p>
        ensures inside { (w : scopes.Scope) → IsSite self.entry w → IsInside w.program result }
        ensures stands { (w : scopes.Scope) → IsSite self.entry w → standing result ≡ stands_for w.program w.home name.now.text }
    {
        let tables = self.code.rule_tables();
        tables
            .forms
            .index
            .stands_for(self.body.home, name.text.as_str())
    }

    /// The value of a name that the body has not.
    pub fn outer_value(self, name: &Name) -> Value
        ensures { (w : scopes.Scope) → IsSite self.entry w →
            datum_of result ≡ rules.outer_value w.program (stands_for w.program w.home name.now.text) }
    {
        standing_value(self.code, self.outer(name))
    }

    /// The value of a name.
    pub fn named(self, name: &Name) -> Named
        ensures { (w : scopes.Scope) → IsSite self.entry w → (s : State) → value_at result s ≡ rules.named_value w name.now s }
    {
        match self.place(name) {
            Some(place) => Named::Own { place },
            None => Named::Outer {
                value: self.outer_value(name),
            },
        }
    }

    /// The number of the text of a process, by its name.
    pub fn text(self, name: &Name) -> TextNo
        ensures { (w : scopes.Scope) → IsSite self.entry w → result ≡ text_of w.program name.now.text }
    {
        self.code.tables().text(name.text.as_str())
    }
}
