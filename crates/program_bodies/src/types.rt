//! Types of designators.

ghost use Rattle.std.specs.Prelude.{◌≡◌, [], List, IfOk, drop, map, option_map, slice_get};
ghost use Rattle.std.specs.Option.{option_map_or};
ghost use Rattle.orca_base.specs.declared.place.Place.{Place};
ghost use Rattle.orca_syntax.specs.Shown.{definition as definition_shown, expr, path as path_shown, step as step_shown};
ghost use Rattle.orca_syntax.specs.Syntax.{Field};
ghost use Rattle.link_rules.specs.Units.{Source};
ghost use Rattle.link_rules.specs.Units.{values_of as rule_values_of};
ghost use Rattle.type_rules.specs.Expressions.{field_of};
ghost use Rattle.type_rules.specs.Scopes as scopes;
ghost use Rattle.type_rules.specs.TopLevel.{top_names};
ghost use Rattle.type_rules.specs.Types.{inside_of, outside_of};
ghost use Rattle.type_forms.specs.Indexed.{Indexes};
ghost use Rattle.type_forms.specs.Seen.{what};
ghost use Rattle.meaning_rules.specs.Designators as rules;
ghost use Rattle.meaning_rules.specs.Statements as statements;
ghost use Rattle.program_tables.specs.Layers.{type_seen};
ghost use Rattle.program_bodies.specs.Sites.{IsSite};

use crate::site::Site;
use orca_base::NoMemory;
use orca_tree::{Definition, Expression, Name, Selector};
use program_tables::Seen;
use std::alloc::Global;
use type_exprs::typed;
use type_forms::{Index, What};
use type_rules::{Base, DataType, Layer};

// The layers inside of the outermost.
fn inner(layers: &[Layer]) -> &[Layer]
    ensures { result.now ≡ drop 1 layers.now }
{
    if layers.is_empty() {
        return layers;
    }
    &layers[1..]
}

/// Of a layered type, what the layer is of.
pub fn inside(kind: Option<Seen<'_>>) -> Option<Seen<'_>>
    ensures { option_map type_seen result ≡ option_map inside_of (option_map type_seen kind.entry) }
{
    match kind {
        None => None,
        Some(kind) => Some(Seen {
            layers: inner(kind.layers),
            base: kind.base,
        }),
    }
}

// The names of an enumeration's values.
fn values_in(definition: &Definition) -> &[Name]
    ensures { result.now ≡ rule_values_of (definition_shown definition.now) }
{
    match definition {
        Definition::Enumeration { names, .. } => names,
        Definition::Record { .. } | Definition::Alias { .. } => &[],
    }
}

// The names of the values of what a name of the top level is, where that is an enumeration.
fn values_of<'p>(is: What<'p>) -> &'p [Name]
    ensures { map (λ n. n.text) result.now ≡ statements.names_in (what is.entry) }
{
    match is {
        What::TypeName { definition } => values_in(definition),
        _ => &[],
    }
}

// The names of the values of the enumeration with this number.
fn values_at<'p>(index: &Index<'p>, number: usize) -> &'p [Name]
    ensures { (us : List Source) → Indexes index.now us →
        map (λ n. n.text) result.now ≡ option_map_or (λ t. statements.names_in t.what) (slice_get (top_names us) number) [] }
{
    match index.item(number) {
        None => &[],
        Some(item) => values_of(item.what),
    }
}

// The names of the values of a type, where that is an enumeration.
fn names_at<'p>(index: &Index<'p>, kind: &DataType) -> &'p [Name]
    ensures { (us : List Source) → Indexes index.now us → map (λ n. n.text) result.now ≡ statements.names_at us (outside_of kind.now) }
{
    if !kind.layers.as_slice().is_empty() {
        return &[];
    }
    match kind.base {
        Base::Enumeration { number } => values_at(index, number),
        _ => &[],
    }
}

// The names of the values of a type, where that is known, and an enumeration.
fn known_names<'p>(index: &Index<'p>, kind: &Option<DataType>) -> &'p [Name]
    ensures { (us : List Source) → Indexes index.now us →
        map (λ n. n.text) result.now ≡ option_map_or (λ t. statements.names_at us (outside_of t)) kind.now [] }
{
    match kind {
        None => &[],
        Some(kind) => names_at(index, kind),
    }
}

impl<'a, 'p> Site<'a, 'p> {
    // Of a record, the type of the field with this name.
    fn field(self, kind: Seen<'_>, name: &Name) -> Option<&'a Option<DataType>>
        ensures { (w : scopes.Scope) → IsSite self.entry w →
            option_map (λ t. t.now) result ≡ field_of w name.now.text (outside_of (type_seen kind.entry)) }
    {
        if !kind.layers.is_empty() {
            return None;
        }
        match kind.base {
            Base::Record { number } => self.code.rule_tables().field(number, name.text.as_str()),
            _ => None,
        }
    }

    /// The type behind a step to a field, where it is known.
    pub fn behind_field(self, kind: Option<Seen<'_>>, name: &Name) -> Option<Seen<'a>>
        ensures { (w : scopes.Scope) → IsSite self.entry w → (at : Place) →
            option_map type_seen result ≡ rules.stepped_type w (option_map type_seen kind.entry) (Field at name.now) }
    {
        match kind {
            None => None,
            Some(kind) => match self.field(kind, name) {
                None => None,
                Some(field) => Seen::of_known(field),
            },
        }
    }

    /// The type behind a step, where it is known.
    pub fn behind(self, kind: Option<Seen<'a>>, step: &Selector) -> Option<Seen<'a>>
        ensures { (w : scopes.Scope) → IsSite self.entry w →
            option_map type_seen result ≡ rules.stepped_type w (option_map type_seen kind.entry) (step_shown step.now) }
    {
        match step {
            Selector::Field { name, .. } => self.behind_field(kind, name),
            Selector::Index { .. } => inside(kind),
        }
    }

    // The type behind a path, where it is known.
    fn behind_all(self, kind: Option<Seen<'a>>, path: &[Selector]) -> Option<Seen<'a>>
        ensures { (w : scopes.Scope) → IsSite self.entry w →
            option_map type_seen result ≡ rules.path_type w (option_map type_seen kind.entry) (path_shown path.now) }
    {
        let mut seen = kind;
        'path: for step in path {
            seen = self.behind(seen, step);
        }
        seen
    }

    /// The type of a designator, where it is known; of any other expression none is told.
    #[tactic(auto, using(orca_syntax::proofs::ShownLaws::phrases))]
    pub fn designator(self, e: &Expression) -> Option<Seen<'a>>
        ensures { (w : scopes.Scope) → IsSite self.entry w →
            option_map type_seen result ≡ rules.designator_type w (expr e.now) }
    {
        match e {
            Expression::Get { from } => self.behind_all(self.root(&from.name), &from.path),
            _ => None,
        }
    }

    /// The names of the values of an expression's type, where that is an enumeration. Its cost is that of going through the expression.
    pub fn names(self, alloc: Global, e: &Expression) -> Result<&'p [Name], NoMemory>
        ensures { (w : scopes.Scope) → IsSite self.entry w →
            IfOk result (λ ns. map (λ n. n.text) ns.now ≡ statements.names_of w (expr e.now)) }
    {
        let found = typed(alloc, self.scope(), e)?;
        Ok(known_names(self.code.rule_tables().forms.index, &found.is))
    }
}
