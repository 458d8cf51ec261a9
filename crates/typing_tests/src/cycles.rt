//! Types that hold themselves, of tables of the types that each names.

use orca_base::{Items, NoMemory};
use std::alloc::Global;
use std::test::Fail;
use type_cycles::holds_themselves;

// The table of these parts.
fn table_of(alloc: Global, parts: &[&[usize]]) -> Result<Vec<Items<usize>>, NoMemory> {
    let mut table = Vec::new(alloc);
    for own in parts {
        table.push(Items::new(Vec::from_slice(alloc, own)?))?;
    }
    Ok(table)
}

#[test]
fn types_that_lead_back_to_themselves_are_told(rt: HostRuntime) -> Result<(), Fail> {
    // 0 names itself, by its second part too. 1, 2 and 3 go round two ways; 4 leads into them, and 5 is led to from them.
    let parts: [&[usize]; 6] = [&[5, 0, 0], &[2, 3], &[1, 5], &[2], &[0, 1], &[]];
    let table = table_of(rt.alloc(), &parts)?;
    let told = holds_themselves(rt.alloc(), &table)?;
    assert!(rt; told.as_slice() == [true, true, true, true, false, false].as_slice());
    Ok(())
}

// So many types that each name the next, the last of them the first, and as many that each name the one before.
fn ring_and_tail(alloc: Global, count: usize) -> Result<Vec<Items<usize>>, NoMemory> {
    let mut table = Vec::new(alloc);
    for number in 1..count {
        table.push(Items::new(Vec::from_slice(alloc, &[number])?))?;
    }
    table.push(Items::new(Vec::from_slice(alloc, &[0])?))?;
    for number in 0..count {
        let before = number.saturating_add(count).saturating_sub(1);
        table.push(Items::new(Vec::from_slice(alloc, &[before])?))?;
    }
    Ok(table)
}

// How many there are in front that are told to hold themselves, and how many in all.
fn counts(told: &[bool]) -> (usize, usize) {
    let front = told.iter().take_while(|holds| **holds).count();
    let all = told.iter().filter(|holds| **holds).count();
    (front, all)
}

#[test]
fn a_ring_of_20000_types_and_as_many_that_lead_there(rt: HostRuntime) -> Result<(), Fail> {
    // From one type after the other this would take hours.
    let table = ring_and_tail(rt.alloc(), 20_000)?;
    let told = holds_themselves(rt.alloc(), &table)?;
    assert!(rt; counts(&told) == (20_000, 20_000));
    assert!(rt; told.len() == 40_000);
    Ok(())
}
