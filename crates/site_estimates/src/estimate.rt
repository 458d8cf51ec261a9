//! Estimates.

use orca_base::Text;

/// The estimate of a site, an object variable of a process's text: the names of the process and of the variable, and how often calls of
/// operations read and write the variable's object (docs/RUNTIME.md, Choice of copies).
#[derive(Debug, Drop)]
pub struct Estimate {
    pub process: Text,
    pub variable: Text,
    pub reads: u64,
    pub writes: u64,
}
