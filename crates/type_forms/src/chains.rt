//! The values of constants.

ghost use Rattle.std.specs.Prelude.{◌≡◌, ◌<◌, ◌||◌, ℕ, List, true, false, length, map, replicate, None, IfOk};
ghost use Rattle.link_rules.specs.Units.{Source};
ghost use Rattle.type_rules.specs.TopLevel.{top_names};
ghost use Rattle.type_rules.specs.declared.names.Chain.{Chain as ChainValue};
ghost use Rattle.type_rules.specs.Constants.{bound_chain, chain_from};
ghost use Rattle.type_forms.specs.Indexed.{Indexes};
ghost use Rattle.type_forms.specs.Chains.{AreRight, IsLinkOf, IsNextInside, follow, AreChains, IsStuck, known, known_of, or_round, unknown_count};

use crate::index::{Index, Standing};
use crate::tops::What;
use orca_base::NoMemory;
use orca_tree::Bound;
use std::alloc::Global;
use type_rules::Chain;

/// Where a constant leads: to a number, to another name, or to what is no constant.
#[derive(Clone, Copy)]
pub enum Link {
    Ends { value: i128 },
    Next { number: usize },
    Nowhere,
}

// Where the value of a constant leads, in its module.
fn bound_link(index: &Index<'_>, home: &str, value: &Bound) -> Link
    ensures follows { (us : List Source) → Indexes index.now us → (chain : ℕ → ChainValue) →
        bound_chain chain us home.now value.now ≡ follow chain result }
    ensures inside { (us : List Source) → Indexes index.now us → IsNextInside us result }
{
    match value {
        Bound::Number { value, .. } => Link::Ends {
            value: *value as i128,
        },
        Bound::Negative { value, .. } => Link::Ends {
            value: -(*value as i128),
        },
        Bound::Named { name } => match index.stands_for(home, name.text.as_str()) {
            Standing::Top { number, item } => match item.what {
                What::Constant { .. } => Link::Next { number },
                _ => Link::Nowhere,
            },
            _ => Link::Nowhere,
        },
    }
}

// Where the name with this number leads.
fn link_at(index: &Index<'_>, number: usize) -> Link
    ensures { (us : List Source) → Indexes index.now us → IsLinkOf us number result }
{
    match index.item(number) {
        None => Link::Nowhere,
        Some(item) => match item.what {
            What::Constant { value } => bound_link(index, item.by, value),
            _ => Link::Nowhere,
        },
    }
}

// What is known of a name.
fn known(memo: &[Option<Chain>], number: usize) -> Option<Chain>
    ensures { result ≡ known memo.now number }
{
    match memo.get(number) {
        None => None,
        Some(chain) => *chain,
    }
}

// What is known of where a link leads.
fn known_of(memo: &[Option<Chain>], link: Link) -> Option<Chain>
    ensures { result ≡ known_of memo.now link }
{
    match link {
        Link::Ends { value } => Some(Chain::EndsAt { value }),
        Link::Next { number } => known(memo, number),
        Link::Nowhere => Some(Chain::Fails),
    }
}

// Notes what is known by now of a name of which nothing was known; false where there is nothing to note.
fn settle_one(index: &Index<'_>, memo: &mut Vec<Option<Chain>>, number: usize) -> bool
    ensures right { (us : List Source) → Indexes index.now us → AreRight us memo.old.items → AreRight us memo.new.items }
    ensures long { length memo.new.items ≡ length memo.old.items }
    ensures fewer { result ≡ true → unknown_count memo.new.items < unknown_count memo.old.items }
    ensures same { result ≡ false → memo.new.items ≡ memo.old.items }
    ensures stuck { (us : List Source) → Indexes index.now us → result ≡ false → number < length memo.new.items →
        IsStuck us memo.new.items number }
{
    if number >= memo.len() || known(memo, number).is_some() {
        return false;
    }
    let link = link_at(index, number);
    match known_of(memo, link) {
        None => false,
        Some(chain) => {
            memo[number] = Some(chain);
            true
        }
    }
}

// Notes what is known by now of these names.
fn settle_these(index: &Index<'_>, memo: &mut Vec<Option<Chain>>, numbers: &[usize])
    ensures long { length memo.new.items ≡ length memo.old.items }
    ensures right { (us : List Source) → Indexes index.now us → AreRight us memo.old.items → AreRight us memo.new.items }
{
    'numbers: for number in numbers {
        settle_one(index, memo, *number);
    }
}

fn either(one: bool, other: bool) -> bool
    ensures { result ≡ (one || other) }
{
    one || other
}

// Notes what is known by now of each name; false where there is nothing to note.
fn settle_all(index: &Index<'_>, memo: &mut Vec<Option<Chain>>) -> bool
    ensures right { (us : List Source) → Indexes index.now us → AreRight us memo.old.items → AreRight us memo.new.items }
    ensures long { length memo.new.items ≡ length memo.old.items }
    ensures fewer { result ≡ true → unknown_count memo.new.items < unknown_count memo.old.items }
    ensures stuck { (us : List Source) → Indexes index.now us → result ≡ false → (i : ℕ) → i < length memo.new.items →
        IsStuck us memo.new.items i }
{
    let mut more = false;
    'numbers: for number in 0..memo.len() {
        let one = settle_one(index, memo, number);
        more = either(more, one);
    }
    more
}

// Notes all that can be known.
fn settle(index: &Index<'_>, memo: &mut Vec<Option<Chain>>)
    ensures long { length memo.new.items ≡ length memo.old.items }
    ensures right { (us : List Source) → Indexes index.now us → AreRight us memo.old.items → AreRight us memo.new.items }
    ensures stuck { (us : List Source) → Indexes index.now us → (i : ℕ) → i < length memo.new.items → IsStuck us memo.new.items i }
{
    'passes: loop {
        if !settle_all(index, memo) {
            return;
        }
    }
}

// Nothing is known of so many names.
fn unknown(alloc: Global, count: usize) -> Result<Vec<Option<Chain>>, NoMemory>
    ensures { IfOk result (λ v. v.items ≡ replicate count None) }
{
    let mut memo = Vec::new(alloc);
    'names: for _name in 0..count {
        memo.push(None)?;
    }
    Ok(memo)
}

// The names in an order in which each stands behind the one that it leads to, but where they go round. Nothing is proved of that: it saves
// passes. Each name is gone through once.
fn order(alloc: Global, index: &Index<'_>) -> Result<Vec<usize>, NoMemory> {
    let mut order = Vec::new(alloc);
    let mut path = Vec::new(alloc);
    let mut entered = Vec::new(alloc);
    for _name in 0..index.count() {
        entered.push(false)?;
    }
    for start in 0..index.count() {
        let mut here = Link::Next { number: start };
        for _ in 0..u64::MAX {
            let Link::Next { number } = here else { break };
            if entered.get(number).copied() != Some(false) {
                break;
            }
            if let Some(mark) = entered.get_mut(number) {
                *mark = true;
            }
            path.push(number)?;
            here = link_at(index, number);
        }
        for _ in 0..u64::MAX {
            let Some(number) = path.pop() else { break };
            order.push(number)?;
        }
    }
    Ok(order)
}

// What is unknown in the end goes round.
fn or_round(chain: Option<Chain>) -> Chain
    ensures { result ≡ or_round chain }
{
    match chain {
        None => Chain::GoesRound,
        Some(chain) => chain,
    }
}

fn finished(alloc: Global, memo: &[Option<Chain>]) -> Result<Vec<Chain>, NoMemory>
    ensures { IfOk result (λ v. v.items ≡ map or_round memo.now) }
{
    let mut chains = Vec::new(alloc);
    'names: for chain in memo {
        chains.push(or_round(*chain))?;
    }
    Ok(chains)
}

/// Where the chain from each name of the top level leads, by its number.
pub fn chains_of(alloc: Global, index: &Index<'_>) -> Result<Vec<Chain>, NoMemory>
    ensures { (us : List Source) → Indexes index.now us → IfOk result (λ v. AreChains us v.items) }
{
    let mut memo = unknown(alloc, index.count())?;
    let order = order(alloc, index)?;
    settle_these(index, &mut memo, &order);
    settle(index, &mut memo);
    finished(alloc, &memo)
}
