//! The operands of a body that runs.

ghost use Rattle.std.specs.Prelude.{◌≡◌, ◌∷◌, ◌↔◌, [], IfOk, IsTrue, List, MatchOption, OnOk, false, map, reverse, true};
ghost use Rattle.value_core.specs.Datum.{Datum, list_of};
ghost use Rattle.value_core.specs.View.{datum_of};
ghost use Rattle.code_rules.specs.Machine.{Effect};
ghost use Rattle.code_steps.specs.Pops.{Pops};

use orca_base::NoMemory;
use std::alloc::Global;
use std::marker::Model;
use value_core::{Parts, Value};

/// The operands of a body. Clauses see them as a list with the top one first.
#[derive(Drop)]
pub struct Operands {
    values: Vec<Value>,
}

impl Model for Operands {
    ghost use Rattle.std.specs.Prelude.{List, map, reverse};
    ghost use Rattle.value_core.specs.Datum.{Datum};
    ghost use Rattle.value_core.specs.View.{datum_of};
    ghost use Rattle.frame_variables.specs.Frames.{frame_code};

    ghost Value = { List Datum };

    ghost coded = { frame_code };

    ghost view = { λ o. reverse (map datum_of o.values.items) };
}

impl Operands {
    /// None.
    pub fn new(alloc: Global) -> Operands
        ensures { result ≡ [] }
    {
        Operands {
            values: Vec::new(alloc),
        }
    }

    /// These, of which the last one is on top. It takes no memory.
    pub fn from_vec(values: Vec<Value>) -> Operands
        ensures { result ≡ reverse (map datum_of values.items) }
    {
        Operands { values }
    }

    /// They, with the top one last.
    pub fn as_slice(&self) -> &[Value]
        ensures { self.now ≡ reverse (map datum_of result.now) }
    {
        &self.values
    }

    /// One more on top.
    ///
    /// # Errors
    /// Want of memory.
    pub fn push(&mut self, value: Value) -> Result<(), NoMemory>
        ensures { OnOk result (self.new ≡ datum_of value ∷ self.old) }
    {
        self.values.push(value)?;
        Ok(())
    }

    /// Takes the top one, where there is one.
    pub fn pop(&mut self) -> Option<Value>
        ensures { MatchOption result (self.old ≡ []) (λ v. self.old ≡ datum_of v ∷ self.new) }
    {
        self.values.pop()
    }

    // Takes so many from the top, and puts them in front of these values, the deepest first. It says whether so many were there.
    fn pop_before(&mut self, count: usize, values: &mut Parts) -> Result<bool, NoMemory>
        ensures { IfOk result (λ done. Pops count self.old (list_of values.old) done self.new (list_of values.new)) }
    {
        if count == 0 {
            return Ok(true);
        }
        match self.pop() {
            Some(value) => {
                values.insert(0, value)?;
                self.pop_before(count - 1, values)
            }
            None => Ok(false),
        }
    }

    /// Takes so many from the top, the deepest first, where so many are there.
    ///
    /// # Errors
    /// Want of memory.
    pub fn pop_many(&mut self, alloc: Global, count: usize) -> Result<Option<Parts>, NoMemory>
        ensures { IfOk result (λ found. MatchOption found
            (Pops count self.old [] false self.new []) (λ values. Pops count self.old [] true self.new (list_of values))) }
    {
        let mut values = Parts::new(alloc);
        if self.pop_before(count, &mut values)? {
            return Ok(Some(values));
        }
        Ok(None)
    }
}
