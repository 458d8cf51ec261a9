//! Import cycles.

ghost use Rattle.std.specs.Prelude.{◌≡◌, ◌<◌, ℕ, List, true, false, map, OnOk, IfOk};
ghost use Rattle.link_rules.specs.Units.{Source, imports};
ghost use Rattle.link_rules.specs.Rules.{import_cycles};
ghost use Rattle.orca_modules.specs.Seen.{has, import_line};
ghost use Rattle.orca_modules.specs.Leading.{AllLead, IsClosed, IsLeading, outside};
ghost use Rattle.orca_modules.specs.Judged.{Judges};

use crate::names::{Names, add, holds};
use crate::order::{falls, ranks};
use crate::sites::ImportLine;
use link_rules::LinkError;
use orca_base::{NoMemory, Refusal, refuse};
use std::alloc::Global;
use std::collections::BTreeMap;

// Puts the importers of what is in the set into it, in one pass over all imports, and says whether there were new ones.
fn widen<'a>(names: &mut Names<'a>, lines: &[ImportLine<'a>]) -> Result<bool, NoMemory>
    ensures sound { (target : List ℕ) → AllLead (map import_line lines.now) target names.old →
        OnOk result (AllLead (map import_line lines.now) target names.new) }
    ensures kept { OnOk result ((n : List ℕ) → has names.old n ≡ true → has names.new n ≡ true) }
    ensures closed { IfOk result (λ wider. wider ≡ false → IsClosed (map import_line lines.now) names.new) }
    ensures fewer { IfOk result (λ wider. wider ≡ true →
        outside names.new (map import_line lines.now) < outside names.old (map import_line lines.now)) }
{
    let mut wider = false;
    'imports: for line in lines {
        if holds(names, line.name) && !holds(names, line.by) {
            add(names, line.by)?;
            wider = true;
        }
    }
    Ok(wider)
}

// The modules that lead to this one by imports, itself among them.
fn find_leading<'a>(
    alloc: Global,
    lines: &[ImportLine<'a>],
    target: &'a str,
) -> Result<Names<'a>, NoMemory>
    ensures { IfOk result (λ names. IsLeading (map import_line lines.now) target.now names) }
{
    let mut names = BTreeMap::new(alloc);
    add(&mut names, target)?;
    'passes: loop {
        let wider = widen(&mut names, lines)?;
        if !wider {
            return Ok(names);
        }
    }
}

// A module, and the modules that lead to it.
#[derive(Drop)]
struct Leading<'a> {
    target: &'a str,
    names: Names<'a>,
}

// The modules that lead to this one: those that are at hand, where it is the same.
fn leading_to<'a>(
    alloc: Global,
    lines: &[ImportLine<'a>],
    last: Leading<'a>,
    target: &'a str,
) -> Result<Leading<'a>, NoMemory>
    requires { IsLeading (map import_line lines.now) last.target.now last.names }
    ensures { IfOk result (λ l. IsLeading (map import_line lines.now) target.now l.names × (l.target.now ≡ target.now)) }
{
    if last.target == target {
        return Ok(last);
    }
    let names = find_leading(alloc, lines, target)?;
    Ok(Leading { target, names })
}

// The first import that lies on a cycle is refused. Imports of one module stand together, so that the modules that lead to it are found
// once.
fn first_cycle(alloc: Global, lines: &[ImportLine<'_>]) -> Result<(), Refusal<LinkError>>
    ensures { (us : List Source) → imports us ≡ map import_line lines.now → Judges result (import_cycles us) }
{
    let names = find_leading(alloc, lines, "")?;
    let mut last = Leading { target: "", names };
    'imports: for line in lines {
        last = leading_to(alloc, lines, last, line.by)?;
        if holds(&last.names, line.name) {
            let cause = line.error(alloc, 3)?;
            return refuse(cause);
        }
    }
    Ok(())
}

/// No import lies on a cycle. Where the modules have an order in which each stands behind those that it imports, each import is gone through
/// a few times. Else the first import on a cycle is looked for, in as many passes as the square of the number of modules, at most.
pub fn acyclic(alloc: Global, lines: &[ImportLine<'_>]) -> Result<(), Refusal<LinkError>>
    ensures { (us : List Source) → imports us ≡ map import_line lines.now → Judges result (import_cycles us) }
{
    let ranks = ranks(alloc, lines)?;
    if falls(&ranks, lines) {
        return Ok(());
    }
    first_cycle(alloc, lines)
}
