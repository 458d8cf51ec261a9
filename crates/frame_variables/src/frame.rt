//! The values of variables, of which some are lent until one of them is changed.

ghost use Rattle.std.specs.Prelude.{◌≡◌, ◌++◌, IfOk, IsTrue, OnOk, Some, false, is_ok, map, option_map, slice_get, slice_set};
ghost use Rattle.std.specs.Option.{option_copied};
ghost use Rattle.value_core.specs.Datum.{Datum, list_of};
ghost use Rattle.value_core.specs.Sound.{AreSound};
ghost use Rattle.value_core.specs.View.{data_in, datum_of};
ghost use Rattle.meaning_rules.specs.States.{State};
ghost use Rattle.frame_variables.specs.Bounded.{IsWithin};
ghost use Rattle.frame_variables.specs.Exchanges.{Exchanges};
ghost use Rattle.frame_variables.specs.Gives.{target_of};
ghost use Rattle.frame_variables.specs.Firm.{IsFirmAt};
ghost use Rattle.frame_variables.specs.Ordered.{AllOrdered, IsOrdered};

use crate::bounds::Bounds;
use crate::firm::is_firm;
use crate::orders::are_ordered;
use crate::parts::exchange_part;
use crate::steps::Target;
use crate::stop::Stop;
use orca_base::{FaultKind, NoMemory};
use std::alloc::Global;
use std::marker::Model;
use value_core::{Parts, Value};

/// The values of the names that are seen, in the order of the scope. Clauses see it as their list.
///
/// Those behind may be lent, as an object's fields are: a guard then copies nothing of its object, and an operation copies what it
/// didn't change only at its end. The first change of one copies all that are lent, since what a body leaves is a whole state.
///
/// What it keeps is its own, so that costs can be mended here with no change of a clause. A mark says that the sets and bags in all
/// values are in order, at whatever depth, so that elements and nodes can be found by halving. Values are tested where they come, and
/// what is lent is sound. The mark is lost where something is put that isn't known to be in order, or behind a node that isn't firm
/// (specs/Firm.antt) and may then stand at another place.
///
/// Beside a value of many parts stands an upper bound of its size, where one was found: who writes forgets it (`exchange`), and notes a
/// new one (`note`), by which no value is counted twice.
#[derive(Drop)]
pub struct Frame<'a> {
    own: Parts,
    behind: &'a [Value],
    in_order: bool,
    bounds: Bounds,
}

impl<'a> Model for Frame<'a> {
    ghost use Rattle.std.specs.Prelude.{◌++◌, List, map};
    ghost use Rattle.value_core.specs.Datum.{Datum, list_of};
    ghost use Rattle.value_core.specs.View.{datum_of};
    ghost use Rattle.frame_variables.specs.Frames.{frame_code};

    ghost Value = { List Datum };

    ghost coded = { frame_code };

    ghost view = { λ f. list_of f.own ++ map datum_of f.behind.now };

    ghost use Rattle.std.specs.Prelude.{IsTrue};
    ghost use Rattle.frame_variables.specs.Bounded.{AreWithin};
    ghost use Rattle.frame_variables.specs.Ordered.{AllOrdered};

    ghost invariant = { λ f. (IsTrue f.in_order → AllOrdered (list_of f.own ++ map datum_of f.behind.now)) ×
        AreWithin f.bounds (list_of f.own ++ map datum_of f.behind.now) };
}

// Puts copies of values behind others.
fn add_copies(alloc: Global, all: &mut Parts, values: &[Value]) -> Result<(), NoMemory>
    ensures { OnOk result (list_of all.new ≡ list_of all.old ++ map datum_of values.now) }
{
    'values: for value in values {
        all.push(value.copy(alloc)?)?;
    }
    Ok(())
}

// Puts a value at a target in variables that are all their own and known to be in order, or not, and gives what stood there.
fn exchange_own(
    alloc: Global,
    own: &mut Parts,
    to: &Target,
    value: Value,
    in_order: bool,
) -> Result<Value, Stop>
    requires { IsTrue in_order → AllOrdered (list_of own.old) }
    ensures others { (v : Datum) × (list_of own.new ≡ slice_set (list_of own.old) to.now.slot v) }
    ensures exchanged { (s : State) → s.frame ≡ list_of own.old →
        Exchanges (target_of to.now) (datum_of value) s result (record s { frame = list_of own.new }) }
{
    if to.slot >= own.len() {
        return Err(Stop::Faults {
            fault: FaultKind::IndexOutside,
        });
    }
    exchange_part(alloc, own.part_mut(to.slot), &to.path, value, in_order)
}

// Whether values that would stay in order do, where something was put.
fn stayed(stays: bool, old: &Result<Value, Stop>) -> bool
    ensures stays { IsTrue result → IsTrue stays }
    ensures ok { IsTrue result → IsTrue (is_ok old.now) }
{
    stays && old.is_ok()
}

impl<'a> Frame<'a> {
    /// These values.
    ///
    /// # Errors
    /// Want of memory: none comes yet.
    pub fn new(alloc: Global, own: Parts) -> Result<Frame<'a>, NoMemory>
        ensures { IfOk result (λ f. f ≡ list_of own) }
    {
        let in_order = are_ordered(own.as_slice());
        Ok(Frame {
            own,
            behind: &[],
            in_order,
            bounds: Bounds::new(alloc),
        })
    }

    /// These values, and behind them others that are lent. It copies nothing.
    ///
    /// # Errors
    /// Want of memory: none comes yet.
    pub fn over(alloc: Global, own: Parts, behind: &'a [Value]) -> Result<Frame<'a>, NoMemory>
        requires { AreSound (data_in behind.now) }
        ensures { IfOk result (λ f. f ≡ list_of own ++ map datum_of behind.now) }
    {
        let in_order = are_ordered(own.as_slice());
        Ok(Frame {
            own,
            behind,
            in_order,
            bounds: Bounds::new(alloc),
        })
    }

    /// The value at this place from 0, if there is one. It copies nothing.
    pub fn get(&self, slot: usize) -> Option<&Value>
        ensures { option_map datum_of (option_copied result) ≡ slice_get self.now slot }
    {
        let count = self.own.len();
        if slot < count {
            self.own.get(slot)
        } else {
            self.behind.get(slot - count)
        }
    }

    /// Whether the sets and bags in all values are known to be in order.
    pub(crate) fn is_in_order(&self) -> bool
        ensures { IsTrue result → AllOrdered self.now }
    {
        self.in_order
    }

    // Whether values stay in order where one is put at a target that is known to be in order, or not. Behind a node they may not,
    // since a node that changes may stand at another place.
    fn stays_in_order(&self, to: &Target, value: bool) -> bool
        ensures values { IsTrue result → AllOrdered self.now }
        ensures value { IsTrue result → IsTrue value }
        ensures firm { IsTrue result → IsFirmAt (target_of to.now) self.now }
    {
        if !self.is_in_order() {
            return false;
        }
        if !value {
            return false;
        }
        match self.get(to.slot) {
            Some(whole) => is_firm(whole, &to.path, true),
            None => false,
        }
    }

    /// An upper bound of the size of the value at this place from 0, where one is known; else more than a variable may hold.
    pub(crate) fn bound(&self, slot: usize) -> u32
        ensures { (v : Datum) → slice_get self.now slot ≡ Some v → IsWithin result v }
    {
        self.bounds.get(slot)
    }

    /// Keeps an upper bound of the size of the value at this place from 0.
    pub(crate) fn note(&mut self, slot: usize, bound: u32)
        requires { (v : Datum) → slice_get self.old slot ≡ Some v → IsWithin bound v }
        ensures { self.new ≡ self.old }
    {
        self.bounds.note(slot, bound);
    }

    /// All values, in order. It copies those that are still lent.
    ///
    /// # Errors
    /// Want of memory.
    pub fn into_values(self, alloc: Global) -> Result<Parts, NoMemory>
        ensures { IfOk result (λ p. list_of p ≡ self.entry) }
    {
        let mut values = self.own;
        add_copies(alloc, &mut values, self.behind)?;
        Ok(values)
    }

    /// Puts a value at a target, of which it is told whether it is known to be in order, and gives what stood there. After an error
    /// nothing is said of the frame.
    ///
    /// # Errors
    /// `IndexOutside`, and want of memory.
    pub(crate) fn exchange(
        &mut self,
        alloc: Global,
        to: &Target,
        value: Value,
        in_order: bool,
    ) -> Result<Value, Stop>
        requires { IsTrue in_order → IsOrdered (datum_of value) }
        ensures { (s : State) → s.frame ≡ self.old →
            Exchanges (target_of to.now) (datum_of value) s result (record s { frame = self.new }) }
    {
        let stays = self.stays_in_order(to, in_order);
        let were_in_order = self.in_order;
        self.in_order = false;
        if to.slot < self.own.len() {
            self.bounds.forget(to.slot);
            let old = exchange_own(alloc, &mut self.own, to, value, were_in_order);
            self.in_order = stayed(stays, &old);
            return old;
        }
        self.bounds.clear();
        add_copies(alloc, &mut self.own, self.behind)?;
        self.behind = &[];
        let old = exchange_own(alloc, &mut self.own, to, value, were_in_order);
        self.in_order = stayed(stays, &old);
        old
    }
}
