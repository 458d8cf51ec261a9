//! Code that grows.

ghost use Rattle.std.specs.Prelude.{◌≡◌, ◌∷◌, ◌++◌, [], OnOk, length, map, set};
ghost use Rattle.code_rules.specs.Pieces.{one};
ghost use Rattle.emitted_code.specs.Appends.{Appends};
ghost use Rattle.emitted_code.specs.Views.{code_of, instr_of};

use crate::instr::Instr;
use orca_base::{NoMemory, Place};
use std::alloc::Global;

/// Where the code of a phrase begins, and where the phrase stands in its text.
#[derive(Clone, Copy)]
pub struct Spot {
    pub address: usize,
    pub at: Place,
}

/// Instructions, one after the other, and where some of them come from. Clauses see the instructions by `code_of`.
#[derive(Drop)]
pub struct Listing<'p> {
    pub instrs: Vec<Instr<'p>>,
    pub spots: Vec<Spot>,
}

impl<'p> Listing<'p> {
    /// No instruction.
    pub fn new(alloc: Global) -> Listing<'p>
        ensures code { code_of result ≡ [] }
        ensures spots { result.spots.items ≡ [] }
    {
        Listing {
            instrs: Vec::new(alloc),
            spots: Vec::new(alloc),
        }
    }

    /// The instructions.
    pub fn instrs(&self) -> &[Instr<'p>]
        ensures { map instr_of result.now ≡ code_of self.now }
    {
        self.instrs.as_slice()
    }

    /// How many there are: the address of the next one.
    pub fn len(&self) -> usize
        ensures { result ≡ length (code_of self.now) }
    {
        self.instrs.len()
    }

    /// One more.
    ///
    /// # Errors
    /// Want of memory.
    pub fn put(&mut self, instr: Instr<'p>) -> Result<(), NoMemory>
        ensures code { OnOk result (Appends (one (instr_of instr.entry)) (code_of self.old) (code_of self.new)) }
        ensures spots { self.new.spots ≡ self.old.spots }
    {
        self.instrs.push(instr)?;
        Ok(())
    }

    /// Another instruction at this address, where one stands.
    pub fn fix(&mut self, address: usize, instr: Instr<'p>)
        ensures code { code_of self.new ≡ set (code_of self.old) address (instr_of instr.entry) }
        ensures spots { self.new.spots ≡ self.old.spots }
    {
        if address < self.instrs.len() {
            self.instrs[address] = instr;
        }
    }

    /// What is put next comes from this place of the body's text. The code stays.
    ///
    /// # Errors
    /// Want of memory.
    pub fn comes_from(&mut self, at: Place) -> Result<(), NoMemory>
        ensures code { code_of self.new ≡ code_of self.old }
        ensures spot { OnOk result (self.new.spots.items ≡
            self.old.spots.items ++ record { address = length (code_of self.old); at = at } ∷ []) }
    {
        let address = self.len();
        self.spots.push(Spot { address, at })?;
        Ok(())
    }
}
