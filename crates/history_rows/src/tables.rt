//! Names of the program whose texts a generator makes, and how the lines in front of a text are told.

use row_files::flat::Numbers;

/// The names of object types, one the front of the other.
pub const KINDS: [&str; 2] = ["Cell", "Cell_2"];

/// The names of the operations of each.
pub const OPERATIONS: [[&str; 2]; 2] = [["Put", "put"], ["Take", "Put"]];

/// The names of process texts.
pub const TEXTS: [&str; 2] = ["Main", "main7"];

/// The lines in front of a text, and the number, from 1, of the first that is none, where one isn't.
#[derive(Debug, Drop)]
pub struct First {
    pub lines: Numbers,
    pub bad: Option<u32>,
}
