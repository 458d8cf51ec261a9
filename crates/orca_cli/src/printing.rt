//! What is printed of a run.

/// What is printed of a run, whose line of its ending tells how it stands (docs/FORMATS.md, The program, The generated program).
#[derive(Clone, Copy)]
pub enum Printing {
    /// What its history writes, behind that the history and the places of its lines, where these are asked for, and the line of its ending.
    Output,
    /// Where it has finished the summary of the program that was made of this number, and else the line of its ending.
    Summary { number: u64 },
}
