//! The estimates of a program.

ghost use Rattle.std.specs.Prelude.{◌≡◌, ◌≤◌, ◌++◌, ◌∷◌, [], List, IfOk, OnOk, filter, if◌then◌else◌, length, map, option_map, slice_get};
ghost use Rattle.accepted_law.specs.Limits.{IsWithinLimits};
ghost use Rattle.link_rules.specs.Units.{Source};
ghost use Rattle.type_forms.specs.Forms.{AreTyped};
ghost use Rattle.type_forms.specs.Seen.{top, what};
ghost use Rattle.type_rules.specs.TopLevel.{TopName, top_names};
ghost use Rattle.type_decls.specs.Symbols.{AreSymbols};
ghost use Rattle.meaning_rules.specs.Programs.{is_process as is_process_text, process_texts};
ghost use Rattle.program_bodies.specs.Codes.{sources};
ghost use Rattle.program_tables.specs.Tables.{AreCoded};
ghost use Rattle.estimate_rules.specs.Estimates as rules;
ghost use Rattle.estimate_rules.specs.Routines.{is_routine as is_routine_name, routine_of};
ghost use Rattle.estimate_rules.specs.Sites as by_texts;
ghost use Rattle.access_estimates.specs.Resolved.{IsRoutine};
ghost use Rattle.program_bodies.specs.Matching.{Both, or_none};
ghost use Rattle.access_estimates.specs.Summaries.{AreRoutines, by_table};
ghost use Rattle.access_estimates.specs.Lookups.{AreLookups};

use crate::estimated::add_estimates;
use crate::resolving::Lookups;
use crate::rounds::rounds;
use crate::routines::{Routine, routines_of};
use access_analysis::classes_of;
use orca_base::NoMemory;
use program_tables::CodeTables;
use site_estimates::{Counts, Estimate};
use std::alloc::Global;
use type_decls::Checked;
use type_forms::{Forms, Top, What};

// Whether a name of the top level is a function or a process.
fn is_routine(item: &Top<'_>) -> bool
    ensures { result ≡ is_routine_name (top item.now) }
{
    matches!(item.what, What::Function { .. } | What::Process { .. })
}

// Whether it is a process.
fn is_process(item: &Top<'_>) -> bool
    ensures { result ≡ is_process_text (what item.now.what) }
{
    matches!(item.what, What::Process { .. })
}

// One for a function or a process, and nothing for another name.
fn one_if_routine(item: &Top<'_>) -> usize
    ensures is { result ≡ (if is_routine_name (top item.now) then 1 else 0) }
    ensures small { result ≤ 1 }
{
    if is_routine(item) { 1 } else { 0 }
}

// How many functions and processes there are.
fn count_routines(tops: &[Top<'_>]) -> usize
    ensures { result ≡ length (filter is_routine_name (map top tops.now)) }
{
    let mut count = 0;
    'tops: for item in tops {
        count += one_if_routine(item);
    }
    count
}

// What a table has for a number.
fn at_number<'a, 'p>(table: &'a [Option<Routine<'p>>], number: usize) -> Option<&'a Routine<'p>>
    ensures { option_map (λ x. x.now) result ≡ or_none (slice_get table.now number) }
{
    match table.get(number) {
        None => None,
        Some(routine) => routine.as_ref(),
    }
}

// Puts the estimates of a process's sites behind others, where the process is known.
fn add_known(
    alloc: Global,
    all: &mut Vec<Estimate>,
    process: &str,
    routine: Option<&Routine<'_>>,
    table: &[Vec<Counts>],
) -> Result<(), NoMemory>
    ensures { (us : List Source) (t : TopName) → t.defined.name.text ≡ process.now →
        Both (λ c w. IsRoutine us c.now w) routine.entry (routine_of us t) →
        OnOk result (all.new.items ≡ all.old.items ++ rules.process_estimates (by_table (map (λ l. l.items) table.now)) us t) }
{
    match routine {
        None => Ok(()),
        Some(routine) => add_estimates(alloc, all, process, routine, table),
    }
}

// The estimates of a process's sites.
fn process_sites(
    alloc: Global,
    process: &str,
    routine: Option<&Routine<'_>>,
    table: &[Vec<Counts>],
) -> Result<Vec<Estimate>, NoMemory>
    ensures { (us : List Source) (t : TopName) → t.defined.name.text ≡ process.now →
        Both (λ c w. IsRoutine us c.now w) routine.entry (routine_of us t) →
        IfOk result (λ v. v.items ≡ rules.process_estimates (by_table (map (λ l. l.items) table.now)) us t) }
{
    let mut sites = Vec::new(alloc);
    add_known(alloc, &mut sites, process, routine, table)?;
    Ok(sites)
}

// Puts the estimates of what a name of the top level is behind those of other texts, where that is a process.
fn add_text(
    alloc: Global,
    all: &mut Vec<Vec<Estimate>>,
    item: &Top<'_>,
    routine: Option<&Routine<'_>>,
    table: &[Vec<Counts>],
) -> Result<(), NoMemory>
    ensures { (us : List Source) → Both (λ c w. IsRoutine us c.now w) routine.entry (routine_of us (top item.now)) →
        OnOk result (map (λ l. l.items) all.new.items ≡ map (λ l. l.items) all.old.items
        ++ (if is_process_text (what item.now.what)
        then rules.process_estimates (by_table (map (λ l. l.items) table.now)) us (top item.now) ∷ [] else [])) }
{
    if is_process(item) {
        let sites = process_sites(alloc, item.name, routine, table)?;
        all.push(sites)?;
    }
    Ok(())
}

// The estimates of a program's sites, text by text, by a table of numbers.
fn sites_by_text(
    alloc: Global,
    tops: &[Top<'_>],
    routines: &[Option<Routine<'_>>],
    table: &[Vec<Counts>],
) -> Result<Vec<Vec<Estimate>>, NoMemory>
    ensures { (us : List Source) → map top tops.now ≡ top_names us → AreRoutines us routines.now → IfOk result (λ v.
        map (λ l. l.items) v.items ≡ map (rules.process_estimates (by_table (map (λ l. l.items) table.now)) us) (process_texts us)) }
{
    let mut all = Vec::new(alloc);
    'tops: for (number, item) in tops.iter().enumerate() {
        let routine = at_number(routines, number);
        add_text(alloc, &mut all, item, routine, table)?;
    }
    Ok(all)
}

// The estimates of a program's sites, text by text, by what its names are looked up in.
fn all_by_text(
    alloc: Global,
    forms: Forms<'_, '_>,
    lookups: Lookups<'_, '_>,
) -> Result<Vec<Vec<Estimate>>, NoMemory>
    ensures { (us : List Source) → AreTyped us forms.entry → AreLookups us lookups.entry →
        IfOk result (λ v. map (λ l. l.items) v.items ≡ by_texts.estimates_by_text us) }
{
    let routines = routines_of(alloc, forms, lookups)?;
    let tops = forms.index.tops();
    let count = count_routines(tops);
    let table = rounds(alloc, &routines, count)?;
    Ok(sites_by_text(alloc, tops, &routines, &table)?)
}

// The same of a checked program, whose tables are known.
fn checked_by_text(alloc: Global, checked: &Checked<'_>) -> Result<Vec<Vec<Estimate>>, NoMemory>
    ensures { AreCoded (sources checked.now) → AreSymbols (sources checked.now) checked.now.symbols →
        IfOk result (λ v. map (λ l. l.items) v.items ≡ by_texts.estimates_by_text (sources checked.now)) }
{
    let forms = checked.symbols.tables().forms;
    let tables = CodeTables::new(alloc, forms)?;
    let classes = classes_of(alloc, checked)?;
    let lookups = Lookups {
        index: forms.index,
        tables: &tables,
        classes: &classes,
    };
    Ok(all_by_text(alloc, forms, lookups)?)
}

// The estimates of some texts, one text behind the other.
fn joined(alloc: Global, texts: Vec<Vec<Estimate>>) -> Result<Vec<Estimate>, NoMemory>
    ensures { IfOk result (λ v. v.items ≡ by_texts.all_of (map (λ l. l.items) texts.items)) }
{
    let mut all = Vec::new(alloc);
    'texts: for sites in texts {
        let mut sites = sites;
        all.append(&mut sites)?;
    }
    Ok(all)
}

/// The estimates of a checked program's sites, text by text, in the order of its texts (docs/RUNTIME.md, Choice of copies): a text without
/// a site has an empty list. The program keeps within the limits, as `within_limits` of program_limits says, so that its numbers fit their
/// types. The only error is want of memory. Each body is gone through once, and in each round its uses of objects alone; no clause says
/// what it costs.
pub fn estimates_by_text(
    alloc: Global,
    checked: &Checked<'_>,
) -> Result<Vec<Vec<Estimate>>, NoMemory>
    requires within { IsWithinLimits (sources checked.now) }
    ensures { IfOk result (λ v. map (λ l. l.items) v.items ≡ by_texts.estimates_by_text (sources checked.now)) }
{
    let all = checked_by_text(alloc, checked)?;
    Ok(all)
}

/// The estimates of a checked program's sites, in the order of its texts: those of `estimates_by_text`, one text behind the other. It asks
/// for the same, and its only error is want of memory.
pub fn estimates(alloc: Global, checked: &Checked<'_>) -> Result<Vec<Estimate>, NoMemory>
    requires within { IsWithinLimits (sources checked.now) }
    ensures { IfOk result (λ v. v.items ≡ rules.estimates (sources checked.now)) }
{
    let texts = estimates_by_text(alloc, checked)?;
    Ok(joined(alloc, texts)?)
}
