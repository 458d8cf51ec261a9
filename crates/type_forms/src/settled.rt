//! Declared types, by their numbers.

ghost use Rattle.std.specs.Prelude.{◌≡◌, ◌<◌, ℕ, List, true, false, length, IfOk, OnOk, slice_get, replicate, None};
ghost use Rattle.std.specs.List.{list_all};
ghost use Rattle.link_rules.specs.Units.{Source};
ghost use Rattle.type_rules.specs.TopLevel.{top_names};
ghost use Rattle.type_rules.specs.TypePhrases.{declared_top};
ghost use Rattle.type_forms.specs.Indexed.{Indexes};
ghost use Rattle.type_forms.specs.Chains.{AreChains};
ghost use Rattle.type_forms.specs.Measures.{declared_in};
ghost use Rattle.type_forms.specs.Parts.{AreParts, parts_in};
ghost use Rattle.type_forms.specs.Settled.{AreSettled, AreTypes, IsKnown, IsOpen, is_settled, open_count};

use crate::bounds::View;
use crate::index::Index;
use crate::modules::Names;
use crate::phrases::Forms;
use crate::records::definition;
use crate::tops::What;
use orca_base::{Items, NoMemory};
use std::alloc::Global;
use std::collections::BTreeMap;
use type_rules::{Chain, Measured};

/// What declared types are found with: the names of a program, its constants, the parts of its types, and no name of a body.
#[derive(Clone, Copy)]
pub struct Known<'a, 'p> {
    pub index: &'a Index<'p>,
    pub chains: &'a [Chain],
    pub parts: &'a [Items<usize>],
    pub none: &'a Names<'p>,
}

// Whether a type is settled.
fn is_settled(settled: &[bool], number: usize) -> bool
    ensures { result ≡ is_settled settled.now number }
{
    match settled.get(number) {
        None => false,
        Some(known) => *known,
    }
}

// Whether these types are settled.
fn are_settled(settled: &[bool], parts: &[usize]) -> bool
    ensures { result ≡ list_all (is_settled settled.now) parts.now }
{
    'parts: for part in parts {
        if !is_settled(settled, *part) {
            return false;
        }
    }
    true
}

// What a table of parts has for a number.
fn parts_at(parts: &[Items<usize>], number: usize) -> &[usize]
    ensures { result.now ≡ parts_in parts.now number }
{
    match parts.get(number) {
        None => &[],
        Some(all) => all.as_slice(),
    }
}

// The type that a name of the top level declares, where the types that it names are those of the table.
fn declared<'a>(
    alloc: Global,
    known: Known<'a, '_>,
    types: &'a [Option<Measured>],
    number: usize,
) -> Result<Option<Measured>, NoMemory>
    ensures { (us : List Source) → IsKnown us known.entry →
        IfOk result (λ o. o ≡ declared_top (declared_in types.now) us number (slice_get (top_names us) number)) }
{
    match known.index.item(number) {
        None => Ok(None),
        Some(item) => match item.what {
            What::TypeName { definition: of } => {
                let view = View {
                    home: item.by,
                    names: known.none,
                };
                let forms = Forms {
                    index: known.index,
                    chains: known.chains,
                    types,
                };
                let found = definition(alloc, forms, view, number, of)?;
                Ok(found.is)
            }
            _ => Ok(None),
        },
    }
}

// Whether a type isn't settled, and all types that it names are.
fn is_next(known: Known<'_, '_>, settled: &[bool], number: usize) -> bool
    ensures next { result ≡ true → is_settled settled.now number ≡ false }
    ensures parts { result ≡ true → list_all (is_settled settled.now) (parts_in known.entry.parts.now number) ≡ true }
    ensures left { result ≡ false → is_settled settled.now number ≡ false →
        list_all (is_settled settled.now) (parts_in known.entry.parts.now number) ≡ false }
{
    if is_settled(settled, number) {
        return false;
    }
    are_settled(settled, parts_at(known.parts, number))
}

// Settles a type, where it isn't settled and all types that it names are; false where there is nothing to settle.
fn settle_one(
    alloc: Global,
    known: Known<'_, '_>,
    types: &mut Vec<Option<Measured>>,
    settled: &mut Vec<bool>,
    number: usize,
) -> Result<bool, NoMemory>
    requires { length types.old.items ≡ length settled.old.items }
    ensures right { (us : List Source) → IsKnown us known.entry →
        OnOk result (AreSettled us types.old.items settled.old.items → AreSettled us types.new.items settled.new.items) }
    ensures as_long { length types.new.items ≡ length settled.new.items }
    ensures long { length settled.new.items ≡ length settled.old.items }
    ensures fewer { IfOk result (λ more. more ≡ true → open_count settled.new.items < open_count settled.old.items) }
    ensures same { IfOk result (λ more. more ≡ false → settled.new.items ≡ settled.old.items) }
    ensures left { (us : List Source) → IsKnown us known.entry →
        IfOk result (λ more. more ≡ false → number < length settled.new.items → IsOpen us settled.new.items number) }
{
    if number >= settled.len() || !is_next(known, settled, number) {
        return Ok(false);
    }
    let kind = declared(alloc, known, types, number)?;
    types[number] = kind;
    settled[number] = true;
    Ok(true)
}

// Settles these types, so far as it may be.
fn settle_these(
    alloc: Global,
    known: Known<'_, '_>,
    types: &mut Vec<Option<Measured>>,
    settled: &mut Vec<bool>,
    numbers: &[usize],
) -> Result<(), NoMemory>
    requires { length types.old.items ≡ length settled.old.items }
    ensures right { (us : List Source) → IsKnown us known.entry →
        OnOk result (AreSettled us types.old.items settled.old.items → AreSettled us types.new.items settled.new.items) }
    ensures as_long { length types.new.items ≡ length settled.new.items }
    ensures long { length settled.new.items ≡ length settled.old.items }
{
    'numbers: for number in numbers {
        settle_one(alloc, known, types, settled, *number)?;
    }
    Ok(())
}

fn either(one: bool, other: bool) -> bool
    ensures more { result ≡ true → other ≡ false → one ≡ true }
    ensures none { result ≡ false → one ≡ false }
    ensures neither { result ≡ false → other ≡ false }
{
    one || other
}

// Settles each type that may be; false where there is nothing to settle.
fn settle_all(
    alloc: Global,
    known: Known<'_, '_>,
    types: &mut Vec<Option<Measured>>,
    settled: &mut Vec<bool>,
) -> Result<bool, NoMemory>
    requires { length types.old.items ≡ length settled.old.items }
    ensures right { (us : List Source) → IsKnown us known.entry →
        OnOk result (AreSettled us types.old.items settled.old.items → AreSettled us types.new.items settled.new.items) }
    ensures as_long { length types.new.items ≡ length settled.new.items }
    ensures long { length settled.new.items ≡ length settled.old.items }
    ensures fewer { IfOk result (λ more. more ≡ true → open_count settled.new.items < open_count settled.old.items) }
    ensures left { (us : List Source) → IsKnown us known.entry →
        IfOk result (λ more. more ≡ false → (i : ℕ) → i < length settled.new.items → IsOpen us settled.new.items i) }
{
    let mut more = false;
    'numbers: for number in 0..settled.len() {
        let one = settle_one(alloc, known, types, settled, number)?;
        more = either(more, one);
    }
    Ok(more)
}

// Settles all that may be.
fn settle(
    alloc: Global,
    known: Known<'_, '_>,
    types: &mut Vec<Option<Measured>>,
    settled: &mut Vec<bool>,
) -> Result<(), NoMemory>
    requires { length types.old.items ≡ length settled.old.items }
    ensures right { (us : List Source) → IsKnown us known.entry →
        OnOk result (AreSettled us types.old.items settled.old.items → AreSettled us types.new.items settled.new.items) }
    ensures left { (us : List Source) → IsKnown us known.entry →
        OnOk result ((i : ℕ) → i < length settled.new.items → IsOpen us settled.new.items i) }
{
    'passes: loop {
        if !settle_all(alloc, known, types, settled)? {
            return Ok(());
        }
    }
}

// No type is known of so many.
fn no_types(alloc: Global, count: usize) -> Result<Vec<Option<Measured>>, NoMemory>
    ensures { IfOk result (λ v. v.items ≡ replicate count None) }
{
    let mut types = Vec::new(alloc);
    'names: for _name in 0..count {
        types.push(None)?;
    }
    Ok(types)
}

// None of so many types is settled.
fn none_settled(alloc: Global, count: usize) -> Result<Vec<bool>, NoMemory>
    ensures { IfOk result (λ v. v.items ≡ replicate count false) }
{
    Ok(vec![in alloc; false; count]?)
}

// Numbers in an order in which each stands behind its parts, but where they go round. Nothing is proved of that: it saves passes. Each part
// is gone to once.
fn order(alloc: Global, parts: &[Items<usize>]) -> Result<Vec<usize>, NoMemory> {
    let mut order = Vec::new(alloc);
    let mut path: Vec<(usize, usize)> = Vec::new(alloc);
    let mut entered = none_settled(alloc, parts.len())?;
    for start in 0..parts.len() {
        if is_settled(&entered, start) {
            continue;
        }
        if let Some(mark) = entered.get_mut(start) {
            *mark = true;
        }
        path.push((start, 0))?;
        for _ in 0..u64::MAX {
            let Some(step) = path.pop() else { break };
            let (number, next) = step;
            match parts_at(parts, number).get(next) {
                None => order.push(number)?,
                Some(part) => {
                    path.push((number, next.saturating_add(1)))?;
                    if entered.get(*part).copied() == Some(false) {
                        if let Some(mark) = entered.get_mut(*part) {
                            *mark = true;
                        }
                        path.push((*part, 0))?;
                    }
                }
            }
        }
    }
    Ok(order)
}

/// The declared type of each name of the top level, by its number; its names, its constants and the parts of its types are given.
pub fn types_of(
    alloc: Global,
    index: &Index<'_>,
    chains: &[Chain],
    parts: &[Items<usize>],
) -> Result<Vec<Option<Measured>>, NoMemory>
    ensures { (us : List Source) → Indexes index.now us → AreChains us chains.now → AreParts us parts.now →
        IfOk result (λ v. AreTypes us v.items) }
{
    let none = BTreeMap::new(alloc);
    let known = Known {
        index,
        chains,
        parts,
        none: &none,
    };
    let count = index.count();
    let mut types = no_types(alloc, count)?;
    let mut settled = none_settled(alloc, count)?;
    let order = order(alloc, parts)?;
    settle_these(alloc, known, &mut types, &mut settled, &order)?;
    settle(alloc, known, &mut types, &mut settled)?;
    Ok(types)
}
