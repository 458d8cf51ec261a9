//! Names, numbers and limits that every crate shares, the refusal for want of memory, and the two small types over
//! `String` and `Vec` that contracts see as lists.
//!
//! The floor above uses `MatchRefusal`: a call that may lack memory says what holds of its value and of its cause, and
//! nothing where memory lacked. It stands on std alone, and knows nothing of texts, values or packets.
#![tactic(auto)]

mod body;
mod fault;
mod ids;
mod items;
mod limits;
mod place;
mod refusal;
mod text;
mod what;

pub use body::Body;
pub use fault::FaultKind;
pub use ids::{CallNo, KindNo, MessageId, ObjectId, OpNo, ProcessNo, TextNo};
pub use items::Items;
pub use limits::{
    BURST_TURNS, CODE_LENGTH, ENTRIES_BEFORE_PURGE, ENTRIES_BETWEEN_REPORTS, ENTRIES_SENT_AGAIN,
    EVENTS, HISTORY_BYTES, HISTORY_LINES, IDLE_TICKS, MESSAGE_BY_REQUEST, MODULES, NESTING, NODES,
    OBJECTS, OPERATION_TURNS, PARAMETERS, PATIENCE, PROCESSES, RESILIENCE, SCRIPT_BYTES,
    SOURCE_BYTES, TEXT_LENGTH, TURNS, VALUE_NESTING, VALUE_SIZE, WINDOW, WORKERS,
};
pub use place::Place;
pub use refusal::{NoMemory, Refusal, refuse};
pub use text::Text;
pub use what::{Choice, What};
