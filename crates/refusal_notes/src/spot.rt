//! Where something is in a text.

use orca_base::Place;

/// A place in the text of a file. Lines and columns are from 1, columns count bytes.
#[derive(Clone, Copy, Debug)]
pub struct Spot<'a> {
    pub file: &'a str,
    pub text: &'a [u8],
    pub at: Place,
}
