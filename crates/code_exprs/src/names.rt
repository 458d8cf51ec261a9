//! Names and paths.

ghost use Rattle.std.specs.Prelude.{◌≡◌, IfOk, option_map};
ghost use Rattle.orca_syntax.specs.Shown.{path as path_shown, step as step_shown};
ghost use Rattle.type_rules.specs.Scopes.{Scope};
ghost use Rattle.code_rules.specs.Phrases as rules;
ghost use Rattle.code_rules.specs.Layouts.{Layout};
ghost use Rattle.program_tables.specs.Layers.{type_seen};
ghost use Rattle.program_bodies.specs.Sites.{IsSite};
ghost use Rattle.code_exprs.specs.CodeSites.{IsCodeSite};
ghost use Rattle.emitted_code.specs.Views.{instr_of, mark_of, marks_of};
ghost use Rattle.value_core.specs.View.{datum_of};
ghost use Rattle.value_paths.specs.declared.step.Step.TheVariants as value_step;
ghost use Rattle.type_rules.specs.Types.{outside_of};
ghost use Rattle.meaning_rules.specs.Designators.{field_of_base, step_to_field};

use crate::code_site::CodeSite;
use emitted_code::{Instr, Mark};
use orca_base::NoMemory;
use orca_tree::{Name, Selector};
use program_bodies::Site;
use program_tables::Seen;
use std::alloc::Global;
use type_rules::{Base, Layer};
use value_core::Value;

// The place of a record's field, and 0 of what is no field of a record.
fn field_of(site: Site<'_, '_>, kind: Seen<'_>, name: &Name) -> usize
    ensures { (w : Scope) → IsSite site.entry w →
        value_step.Field result ≡ field_of_base w.program name.now.text (outside_of (type_seen kind.entry)) }
{
    if !kind.layers.is_empty() {
        return 0;
    }
    match kind.base {
        Base::Record { number } => site.code.tables().field(number, name.text.as_str()),
        _ => 0,
    }
}

// The same where the type may not be known.
fn field_place(site: Site<'_, '_>, kind: Option<Seen<'_>>, name: &Name) -> usize
    ensures { (w : Scope) → IsSite site.entry w →
        value_step.Field result ≡ step_to_field w (option_map type_seen kind.entry) name.now }
{
    match kind {
        None => 0,
        Some(kind) => field_of(site, kind, name),
    }
}

// The step by an index to a part of what has this type, where that is known.
fn by_index(kind: Option<Seen<'_>>) -> Mark
    ensures { mark_of result ≡ rules.mark_by_index (option_map type_seen kind.entry) }
{
    match kind {
        None => Mark::ByName,
        Some(kind) => match kind.layers.first() {
            Some(Layer::Array { low, .. }) => Mark::ByIndex { low: *low },
            _ => Mark::ByName,
        },
    }
}

// A step to a part of what has this type, where that is known.
fn mark(site: Site<'_, '_>, kind: Option<Seen<'_>>, step: &Selector) -> Mark
    ensures { (w : Scope) → IsSite site.entry w → mark_of result ≡ rules.mark w (option_map type_seen kind.entry) (step_shown step.now) }
{
    match step {
        Selector::Field { name, .. } => Mark::Field {
            place: field_place(site, kind, name),
        },
        Selector::Index { .. } => by_index(kind),
    }
}

/// The steps of a path behind a type, where that is known.
pub fn marks<'a>(
    alloc: Global,
    site: Site<'a, '_>,
    root: Option<Seen<'a>>,
    path: &[Selector],
) -> Result<Vec<Mark>, NoMemory>
    ensures { (w : Scope) → IsSite site.entry w →
        IfOk result (λ v. marks_of v.items ≡ rules.marks w (option_map type_seen root.entry) (path_shown path.now)) }
{
    let mut steps = Vec::new(alloc);
    let mut seen = root;
    'path: for step in path {
        steps.push(mark(site, seen, step))?;
        seen = site.behind(seen, step);
    }
    Ok(steps)
}

// The instruction of a value, or of a part of it.
fn constant<'i>(value: Value, path: Vec<Mark>) -> Instr<'i>
    ensures { instr_of result ≡ rules.constant (datum_of value) (marks_of path.items) }
{
    if path.is_empty() {
        Instr::Push { value }
    } else {
        Instr::Part { value, path }
    }
}

/// The instruction that reads a part of a name.
pub fn reading<'i>(here: CodeSite<'_, '_>, name: &Name, path: Vec<Mark>) -> Instr<'i>
    ensures { (w : Scope) (l : Layout) → IsCodeSite here.entry w l → instr_of result ≡ rules.reading w l name.now (marks_of path.items) }
{
    match here.site.place(name) {
        Some(place) => Instr::Get {
            slot: here.spot(place),
            path,
        },
        None => constant(here.site.outer_value(name), path),
    }
}
