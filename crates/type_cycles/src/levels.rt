//! Types that hold themselves, as the definition finds them: from a type on, within one declaration more after the other.

ghost use Rattle.std.specs.Prelude.{◌≡◌, ◌<◌, ◌||◌, ◌==◌, ℕ, List, IfOk, length};
ghost use Rattle.std.specs.List.{list_any};
ghost use Rattle.link_rules.specs.Units.{Source};
ghost use Rattle.type_rules.specs.TypePhrases.{holds_itself, leads_to};
ghost use Rattle.type_forms.specs.Parts.{AreParts, parts_in};
ghost use Rattle.type_cycles.specs.Leading.{AreRound, is_marked};

use crate::components::parts_at;
use orca_base::{Items, NoMemory};
use std::alloc::Global;

// Whether a type is marked.
fn is_marked(marks: &[bool], number: usize) -> bool
    ensures { result ≡ is_marked marks.now number }
{
    match marks.get(number) {
        None => false,
        Some(mark) => *mark,
    }
}

// Whether one of these types is marked.
fn has_marked(marks: &[bool], parts: &[usize]) -> bool
    ensures { result ≡ list_any (is_marked marks.now) parts.now }
{
    'parts: for part in parts {
        if is_marked(marks, *part) {
            return true;
        }
    }
    false
}

// Of so many types the one that is looked for is marked.
fn first_level(alloc: Global, count: usize, target: usize) -> Result<Vec<bool>, NoMemory>
    ensures long { IfOk result (λ v. length v.items ≡ count) }
    ensures each { IfOk result (λ v. (i : ℕ) → i < count → is_marked v.items i ≡ (i == target)) }
{
    let mut marks = Vec::new(alloc);
    'numbers: for number in 0..count {
        marks.push(number == target)?;
    }
    Ok(marks)
}

// Whether a type is looked for, or names a marked one.
fn is_next(parts: &[Items<usize>], level: &[bool], target: usize, number: usize) -> bool
    ensures { result ≡ ((number == target) || list_any (is_marked level.now) (parts_in parts.now number)) }
{
    number == target || has_marked(level, parts_at(parts, number))
}

// A type is marked that is looked for, or names a marked one.
fn next_level(
    alloc: Global,
    parts: &[Items<usize>],
    level: &[bool],
    target: usize,
) -> Result<Vec<bool>, NoMemory>
    ensures long { IfOk result (λ v. length v.items ≡ length parts.now) }
    ensures each { IfOk result (λ v. (i : ℕ) → i < length parts.now →
        is_marked v.items i ≡ ((i == target) || list_any (is_marked level.now) (parts_in parts.now i))) }
{
    let mut marks = Vec::new(alloc);
    'numbers: for number in 0..parts.len() {
        marks.push(is_next(parts, level, target, number))?;
    }
    Ok(marks)
}

// The types that lead to this one, marked.
fn leading(alloc: Global, parts: &[Items<usize>], target: usize) -> Result<Vec<bool>, NoMemory>
    ensures { (us : List Source) → AreParts us parts.now → target < length parts.now →
        IfOk result (λ v. (i : ℕ) → is_marked v.items i ≡ leads_to us (length parts.now) i target) }
{
    let mut marks = first_level(alloc, parts.len(), target)?;
    'levels: for _level in 0..parts.len() {
        marks = next_level(alloc, parts, &marks, target)?;
    }
    Ok(marks)
}

// Whether a type holds itself.
fn is_on_cycle_from(alloc: Global, parts: &[Items<usize>], number: usize) -> Result<bool, NoMemory>
    ensures { (us : List Source) → AreParts us parts.now → number < length parts.now →
        IfOk result (λ b. b ≡ holds_itself us number) }
{
    let marks = leading(alloc, parts, number)?;
    Ok(has_marked(&marks, parts_at(parts, number)))
}

/// Of each type whether it holds itself, from one type after the other.
pub fn by_levels(alloc: Global, parts: &[Items<usize>]) -> Result<Vec<bool>, NoMemory>
    ensures { (us : List Source) → AreParts us parts.now → IfOk result (λ v. AreRound us v.items) }
{
    let mut on_cycle = Vec::new(alloc);
    'numbers: for number in 0..parts.len() {
        let own = is_on_cycle_from(alloc, parts, number)?;
        on_cycle.push(own)?;
    }
    Ok(on_cycle)
}
