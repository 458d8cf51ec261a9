//! What values are made of and what is made of values may be handed to another thread.

use value_core::{
    Action, BoxedParts, Class, Doing, Halt, Instance, Line, Making, Message, Parts, Reply, Seen,
    TextValue, Tried, Value,
};

// Asks that values of this type may be handed to another thread.
fn may_be_sent<T: Send>() {}

fn values_may_be_sent() {
    may_be_sent::<Value>();
    may_be_sent::<TextValue>();
    may_be_sent::<Parts>();
    may_be_sent::<BoxedParts>();
    may_be_sent::<Instance>();
}

fn actions_and_lines_may_be_sent() {
    may_be_sent::<Action>();
    may_be_sent::<Class>();
    may_be_sent::<Reply>();
    may_be_sent::<Line>();
    may_be_sent::<Message>();
    may_be_sent::<Making>();
    may_be_sent::<Tried>();
    may_be_sent::<Seen>();
    may_be_sent::<Doing>();
    may_be_sent::<Halt>();
}

/// Asks it of all of them: nothing runs.
pub fn all_may_be_sent() {
    values_may_be_sent();
    actions_and_lines_may_be_sent();
}
