//! Uses of objects.

/// What is done with an object: an operation of it is called, or it is passed to what is called or forked, as the argument at a position
/// from 0.
#[derive(Clone, Copy)]
pub enum UseKind<'p> {
    Calls { operation: &'p str },
    Passes { to: &'p str, position: usize },
}

/// What is done with the object that has a name in a body, and how often.
#[derive(Clone, Copy)]
pub struct Use<'p> {
    pub object: &'p str,
    pub times: u64,
    pub kind: UseKind<'p>,
}
