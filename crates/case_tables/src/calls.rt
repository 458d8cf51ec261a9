//! Who makes the calls of cases.

use crate::given::{CaseFile, Given};
use crate::outcome::Outcome;
use orca_base::NoMemory;

/// Which call of the product is made.
#[derive(Clone, Copy, Debug, PartialEq, Eq)]
pub enum By {
    /// `serve`, as the program's `main` makes it. It makes its wires by itself, and tells the status alone.
    Door,
    /// `orca_main` over boxed wires, which tells what a run left too.
    Top,
}

/// The words, the files, how the call is made, and which call it is.
#[derive(Drop)]
pub struct CallParts<'a> {
    pub words: &'a [String],
    pub files: Vec<CaseFile>,
    pub given: &'a Given,
    pub by: By,
}

/// Who makes the calls of cases: whoever knows the whole product.
pub trait Calls {
    /// What comes of a call. By the door it is told the status and what was printed alone. Err where memory lacks for what the call is
    /// given, or for what is told of it.
    fn outcome(&self, rt: &HostRuntime, call: CallParts<'_>) -> Result<Box<Outcome>, NoMemory>;
}
