//! An order of modules in which each stands behind those that it imports.

ghost use Rattle.std.specs.Prelude.{◌≡◌, ◌<◌, map, true};
ghost use Rattle.orca_modules.specs.Seen.{import_line};
ghost use Rattle.orca_modules.specs.Ranks.{Falls, rank};

use crate::names::{Names, add, holds};
use crate::sites::ImportLine;
use orca_base::NoMemory;
use std::alloc::Global;
use std::collections::BTreeMap;

/// A number for each module.
pub type Ranks<'a> = BTreeMap<&'a str, usize>;

// A depth-first search through the modules: those that it has entered and those that it has left, with how many it had left before;
// and those in between, each with the index of its next import.
#[derive(Drop)]
struct Search<'a> {
    entered: Names<'a>,
    left: Ranks<'a>,
    open: Vec<(&'a str, usize)>,
}

impl<'a> Search<'a> {
    fn new(alloc: Global) -> Search<'a> {
        Search {
            entered: BTreeMap::new(alloc),
            left: BTreeMap::new(alloc),
            open: Vec::new(alloc),
        }
    }

    // Enters a module, unless it was entered before. Its imports stand from this index on.
    fn enter(&mut self, module: &'a str, first: usize) -> Result<(), NoMemory> {
        if !holds(&self.entered, module) {
            add(&mut self.entered, module)?;
            self.open.push((module, first))?;
        }
        Ok(())
    }

    // One step: into the next import of the innermost module, or out of that module. False where none is open.
    fn step(&mut self, lines: &[ImportLine<'a>], firsts: &Ranks<'a>) -> Result<bool, NoMemory> {
        let Some((module, next)) = self.open.pop() else {
            return Ok(false);
        };
        match lines.get(next) {
            Some(line) if line.by == module => {
                self.open.push((module, next + 1))?;
                let first = firsts.get(line.name).copied().unwrap_or(lines.len());
                self.enter(line.name, first)?;
            }
            _ => {
                let rank = self.left.len();
                self.left.insert(module, rank)?;
            }
        }
        Ok(true)
    }
}

// The index of each module's first import.
fn first_lines<'a>(alloc: Global, lines: &[ImportLine<'a>]) -> Result<Ranks<'a>, NoMemory> {
    let mut firsts = BTreeMap::new(alloc);
    for (index, line) in lines.iter().enumerate() {
        if !firsts.contains_key(line.by) {
            firsts.insert(line.by, index)?;
        }
    }
    Ok(firsts)
}

/// How many modules a depth-first search had left when it left a module: fewer for a module than for its importers, but on cycles. Nothing
/// is proved of that, since `falls` tests it. Each import is gone through once.
pub fn ranks<'a>(alloc: Global, lines: &[ImportLine<'a>]) -> Result<Ranks<'a>, NoMemory> {
    let firsts = first_lines(alloc, lines)?;
    let mut search = Search::new(alloc);
    for (index, line) in lines.iter().enumerate() {
        search.enter(line.by, index)?;
        for _ in 0..u64::MAX {
            if !search.step(lines, &firsts)? {
                break;
            }
        }
    }
    Ok(search.left)
}

// Whether the one module has a lower rank than the other.
fn is_lower(ranks: &Ranks<'_>, one: &str, other: &str) -> bool
    ensures { result ≡ true → rank ranks.now one.now < rank ranks.now other.now }
{
    match (ranks.get(one), ranks.get(other)) {
        (Some(low), Some(high)) => *low < *high,
        _ => false,
    }
}

/// Whether each import leads to a module of a lower rank. Then none lies on a cycle.
pub fn falls(ranks: &Ranks<'_>, lines: &[ImportLine<'_>]) -> bool
    ensures { result ≡ true → Falls ranks.now (map import_line lines.now) }
{
    'imports: for line in lines {
        if !is_lower(ranks, line.name, line.by) {
            return false;
        }
    }
    true
}
