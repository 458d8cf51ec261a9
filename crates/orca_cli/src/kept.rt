//! What a run leaves.

ghost use Rattle.std.specs.Prelude.{◌≡◌, None};

use run_loop::{NodeEnd, PlaceNote, ProcessEnd, Step};
use value_core::Line;

/// What a run leaves: its history, line by line, and where each line was performed; its events, with the fates of the packets that they
/// sent; its members and its processes, by their numbers.
#[derive(Drop)]
pub struct Kept {
    pub book: Vec<Line>,
    pub places: Vec<PlaceNote>,
    pub events: Vec<Step>,
    pub nodes: Vec<NodeEnd>,
    pub processes: Vec<ProcessEnd>,
}

/// The status with which the program ends, and what the run left, where there was one.
#[derive(Drop)]
pub struct Ended {
    pub status: u8,
    pub kept: Option<Kept>,
}

/// The end with a status where nothing is kept.
pub(crate) fn unkept(status: u8) -> Ended
    ensures { result ≡ record { status = status; kept = None } }
{
    Ended { status, kept: None }
}
